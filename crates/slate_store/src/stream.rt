//! Sources and sinks over the readers and writers of `std`, which tell no content.
ghost use Rattle.std.specs.Prelude.{◌≡◌, ◌≤◌, ◌<◌, None, length, IfOk};

use crate::faults::Faults;
use crate::{Failed, Sink, Source};
use std::io::{self, ErrorKind, Read, Write};

/// Gives what a reader gives.
#[derive(Drop)]
pub struct ReaderSource<R> {
    reader: R,
    faults: Faults,
}

impl<R: Read + Drop> ReaderSource<R> {
    /// A source with no fault yet.
    pub fn new(reader: R) -> ReaderSource<R>
        ensures { ⟦<ReaderSource<R> as Source>⟧.faults result ≡ 0 }
    {
        ReaderSource {
            reader,
            faults: Faults::none(),
        }
    }
}

impl<R: Read + Drop> Source for ReaderSource<R> {
    ghost left = { λ _. None };

    ghost faults = { λ s. s.faults.count };

    /// Each error is a fault, save that an interrupted call is made again.
    fn read(&mut self, buf: &mut [u8]) -> Result<usize, Failed> {
        match read_uninterrupted(&mut self.reader, buf) {
            Ok(count) => Ok(count),
            Err(_) => Err(self.faults.raise()),
        }
    }
}

/// Gives to a writer what it takes.
#[derive(Drop)]
pub struct WriterSink<W> {
    writer: W,
    faults: Faults,
}

impl<W: Write + Drop> WriterSink<W> {
    /// A sink with no fault yet.
    pub fn new(writer: W) -> WriterSink<W>
        ensures { ⟦<WriterSink<W> as Sink>⟧.faults result ≡ 0 }
    {
        WriterSink {
            writer,
            faults: Faults::none(),
        }
    }
}

impl<W: Write + Drop> Sink for WriterSink<W> {
    ghost content = { λ _. None };

    ghost faults = { λ s. s.faults.count };

    /// Each error is a fault, save that an interrupted call is made again, and so is a writer that takes nothing.
    fn write(&mut self, piece: &[u8]) -> Result<usize, Failed> {
        match write_uninterrupted(&mut self.writer, piece) {
            Ok(count) if 0 < count || piece.is_empty() => Ok(count),
            _ => Err(self.faults.raise()),
        }
    }
}

fn read_uninterrupted<R: Read>(reader: &mut R, buf: &mut [u8]) -> io::Result<usize>
    ensures { IfOk result (λ n. n ≤ length buf.old) }
{
    for _ in 0..u64::MAX {
        match reader.read(buf) {
            Err(error) if error.kind() == ErrorKind::Interrupted => {}
            result => return result,
        }
    }
    Err(ErrorKind::Interrupted.into())
}

fn write_uninterrupted<W: Write>(writer: &mut W, piece: &[u8]) -> io::Result<usize>
    ensures { IfOk result (λ n. n ≤ length piece.now) }
{
    for _ in 0..u64::MAX {
        match writer.write(piece) {
            Err(error) if error.kind() == ErrorKind::Interrupted => {}
            result => return result,
        }
    }
    Err(ErrorKind::Interrupted.into())
}
