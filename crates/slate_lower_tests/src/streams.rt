// What a real reader and a real writer are asked for: a byte at a time, with interrupts.
use slate_store::{Lines, ReaderSource, WriterSink, write_all};
use std::alloc::Global;
use std::cell::Cell;
use std::io::{self, ErrorKind, Read, Write};

// Gives one byte at a time, and is interrupted before each.
#[derive(Drop)]
struct Trickle<'a> {
    bytes: &'a [u8],
    is_interrupted: bool,
}

impl Read for Trickle<'_> {
    fn read(&mut self, buf: &mut [u8]) -> io::Result<usize> {
        self.is_interrupted = !self.is_interrupted;
        if self.is_interrupted {
            return Err(ErrorKind::Interrupted.into());
        }
        let count = buf.len().min(1);
        self.bytes.read(&mut buf[..count])
    }
}

// Whether there was a line, which was added with a bar behind it.
fn add_line(
    lines: &mut Lines,
    source: &mut ReaderSource<Trickle<'_>>,
    bytes: &mut Vec<u8>,
) -> Option<bool> {
    match lines.next(source).ok() {
        Some(Some(line)) => {
            let added = bytes.extend_from_slice(&line).ok();
            added.and(bytes.push(b'|').ok()).and(Some(true))
        }
        Some(None) => Some(false),
        None => None,
    }
}

// Whether the first lines of a source were added, each with a bar behind it.
fn add_lines(
    lines: &mut Lines,
    source: &mut ReaderSource<Trickle<'_>>,
    bytes: &mut Vec<u8>,
) -> bool {
    for _ in 0..10 {
        match add_line(lines, source, bytes) {
            Some(true) => {}
            Some(false) => return true,
            None => return false,
        }
    }
    true
}

// Bytes, and their lines.
const TRICKLES: &[(&[u8], &[u8])] = &[
    (b"", b""),
    (b"\n", b"|"),
    (b"one\n\ntwo\r\n", b"one||two\r|"),
    (b"one\ntwo", b"one|two|"),
    (b"one", b"one|"),
];

fn is_trickled(alloc: Global, bytes: &[u8], expected: &[u8]) -> bool {
    let mut source = ReaderSource::new(Trickle {
        bytes,
        is_interrupted: false,
    });
    let mut lines = Lines::new(alloc);
    let mut bytes = Vec::new(alloc);
    let is_read = add_lines(&mut lines, &mut source, &mut bytes);
    drop(lines);
    is_read && bytes.as_slice() == expected
}

fn are_trickled(alloc: Global) -> bool {
    for (bytes, lines) in TRICKLES {
        if !is_trickled(alloc, bytes, lines) {
            return false;
        }
    }
    true
}

#[test]
fn reads_a_byte_at_a_time(rt: HostRuntime) {
    assert!(rt; are_trickled(rt.alloc()));
}

// Takes one byte at a time, is interrupted before each, and takes nothing behind so many. What was taken is a number, a byte for each.
#[derive(Drop)]
struct Sips<'a> {
    taken: &'a Cell<u64>,
    left: usize,
    is_interrupted: bool,
}

impl Write for Sips<'_> {
    fn write(&mut self, buf: &[u8]) -> io::Result<usize> {
        self.is_interrupted = !self.is_interrupted;
        if self.is_interrupted {
            return Err(ErrorKind::Interrupted.into());
        }
        match buf {
            [byte, ..] if self.left > 0 => {
                self.left -= 1;
                self.taken.set((self.taken.get() << 8) | u64::from(*byte));
                Ok(1)
            }
            _ => Ok(0),
        }
    }

    fn flush(&mut self) -> io::Result<()> {
        Ok(())
    }
}

// How many bytes are taken of a line, whether it is written, and the bytes that were taken.
const SIPS: &[(usize, bool, u64)] = &[
    (9, true, 0x6f_6e_65_0a),
    (4, true, 0x6f_6e_65_0a),
    (3, false, 0x6f_6e_65),
    (0, false, 0),
];

fn is_sipped(left: usize, is_written: bool, taken: u64) -> bool {
    let all = Cell::new(0);
    let mut sink = WriterSink::new(Sips {
        taken: &all,
        left,
        is_interrupted: false,
    });
    let written = write_all(&mut sink, b"one\n").is_ok();
    drop(sink);
    written == is_written && all.get() == taken
}

fn are_sipped() -> bool {
    for (left, is_written, taken) in SIPS {
        if !is_sipped(*left, *is_written, *taken) {
            return false;
        }
    }
    true
}

#[test]
fn writes_a_byte_at_a_time(rt: HostRuntime) {
    assert!(rt; are_sipped());
}
