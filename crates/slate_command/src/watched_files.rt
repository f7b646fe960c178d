//! Files that note why a call of them failed, so that it can be told.
ghost use Rattle.std.specs.Prelude.{◌≡◌};

use std::alloc::{AllocError, Allocator, Global};
use std::cell::Cell;
use std::fs::{Metadata, OpenFile, OpenOptions};
use std::io::{self, Read, Seek, SeekFrom, Write};
use std::os::unix::fs::FileExt;
use std::rc::Rc;
use std::rt::Files;

/// Why the last call on some files failed, if it failed. Each clone is told by all of them.
#[derive(Clone, Drop)]
pub struct LastError {
    error: Rc<Cell<Option<io::Error>>>,
}

impl LastError {
    /// Says that no call failed.
    pub fn none(alloc: Global) -> Result<LastError, AllocError> {
        let error = Rc::new(alloc, Cell::new(None))?;
        Ok(LastError { error })
    }

    /// Returns why the last call failed, and `None` if it didn't.
    pub fn get(&self) -> Option<io::Error> {
        self.error.get()
    }

    /// Notes what a call answered, and returns it.
    fn note<T>(&self, outcome: io::Result<T>) -> io::Result<T>
        ensures { result ≡ outcome }
    {
        let error = match &outcome {
            Ok(_) => None,
            Err(error) => Some(*error),
        };
        self.error.set(error);
        outcome
    }
}

/// Files that note why a call of them failed. Two calls aren't noted: `metadata`, by which a store
/// asks what is there, and `remove_file`, by which it cleans up behind an error.
#[derive(Clone, Drop)]
pub struct WatchedFiles<R> {
    files: R,
    last: LastError,
}

impl<R: Files + Drop> WatchedFiles<R> {
    /// Watches the files, and notes errors there.
    pub fn new(files: R, last: &LastError) -> Result<WatchedFiles<R>, AllocError> {
        let last = last.clone()?;
        Ok(WatchedFiles { files, last })
    }
}

impl<R: Alloc> Alloc for WatchedFiles<R> {
    type A = R::A;

    fn alloc(&self) -> R::A {
        self.files.alloc()
    }
}

/// An open file, or the names of a folder, of such files.
#[derive(Drop)]
pub struct WatchedFile<F> {
    file: F,
    last: LastError,
}

impl<F: Read> Read for WatchedFile<F> {
    fn read(&mut self, buf: &mut [u8]) -> io::Result<usize> {
        let count = self.file.read(buf);
        self.last.note(count)
    }
}

impl<F: Write> Write for WatchedFile<F> {
    fn write(&mut self, buf: &[u8]) -> io::Result<usize> {
        let count = self.file.write(buf);
        self.last.note(count)
    }

    fn flush(&mut self) -> io::Result<()> {
        let done = self.file.flush();
        self.last.note(done)
    }
}

impl<F: Seek> Seek for WatchedFile<F> {
    fn seek(&mut self, to: SeekFrom) -> io::Result<u64> {
        let at = self.file.seek(to);
        self.last.note(at)
    }
}

impl<F: OpenFile> OpenFile for WatchedFile<F> {
    fn metadata(&self) -> io::Result<Metadata> {
        self.last.note(self.file.metadata())
    }

    fn set_len(&self, size: u64) -> io::Result<()> {
        self.last.note(self.file.set_len(size))
    }

    fn sync_all(&self) -> io::Result<()> {
        self.last.note(self.file.sync_all())
    }

    fn sync_data(&self) -> io::Result<()> {
        self.last.note(self.file.sync_data())
    }
}

impl<F: FileExt> FileExt for WatchedFile<F> {
    fn read_at(&self, buf: &mut [u8], offset: u64) -> io::Result<usize> {
        self.last.note(self.file.read_at(buf, offset))
    }

    fn write_at(&self, buf: &[u8], offset: u64) -> io::Result<usize> {
        self.last.note(self.file.write_at(buf, offset))
    }
}

impl<R: Files> Files for WatchedFiles<R> {
    type File = WatchedFile<R::File>;

    type Dir = WatchedFile<R::Dir>;

    fn open_file(&self, how: &OpenOptions, path: &str) -> io::Result<WatchedFile<R::File>> {
        let file = self.last.note(self.files.open_file(how, path))?;
        let last = self.last.clone()?;
        Ok(WatchedFile { file, last })
    }

    fn open_dir(&self, path: &str) -> io::Result<WatchedFile<R::Dir>> {
        let file = self.last.note(self.files.open_dir(path))?;
        let last = self.last.clone()?;
        Ok(WatchedFile { file, last })
    }

    fn metadata(&self, path: &str) -> io::Result<Metadata> {
        self.files.metadata(path)
    }

    fn symlink_metadata(&self, path: &str) -> io::Result<Metadata> {
        self.last.note(self.files.symlink_metadata(path))
    }

    fn copy(&self, from: &str, to: &str) -> io::Result<u64> {
        self.last.note(self.files.copy(from, to))
    }

    fn rename(&self, from: &str, to: &str) -> io::Result<()> {
        self.last.note(self.files.rename(from, to))
    }

    fn remove_file(&self, path: &str) -> io::Result<()> {
        self.files.remove_file(path)
    }

    fn create_dir(&self, path: &str) -> io::Result<()> {
        self.last.note(self.files.create_dir(path))
    }

    fn remove_dir(&self, path: &str) -> io::Result<()> {
        self.last.note(self.files.remove_dir(path))
    }

    fn remove_dir_all<B: Allocator>(&self, alloc: B, path: &str) -> io::Result<()> {
        self.last.note(self.files.remove_dir_all(alloc, path))
    }
}
