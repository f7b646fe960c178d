//! The files of a folder that stay open, so that a read of a section is one call of the system.
ghost use Rattle.std.specs.Prelude.{◌≡◌, length, IfOk, IfSome};

use crate::folder;
use crate::place::Place;
use bytes::Bytes;
use lru::LruCache;
use std::alloc::{AllocError, Global};
use std::fs::{File, OpenFile};
use std::io::{self, ErrorKind};
use std::num::NonZeroUsize;
use std::os::unix::fs::FileExt;
use std::rt::Files;

/// How many files stay open at most. A process may mostly have 1,024.
const MOST: usize = 256;

/// An open file, and how long it is: what is at an object's path is replaced and never changed.
#[derive(Drop)]
struct Opened<F: Drop> {
    file: F,
    len: u64,
}

/// Keeps open the files that were read last.
#[derive(Drop)]
pub(crate) struct OpenFiles<F: Drop> {
    by_place: LruCache<String, Opened<F>>,
}

impl<F: FileExt + OpenFile + Drop> OpenFiles<F> {
    /// Opens nothing.
    pub(crate) fn new(alloc: Global) -> Result<OpenFiles<F>, AllocError> {
        let most = NonZeroUsize::new(MOST).unwrap_or(NonZeroUsize::MIN);
        Ok(OpenFiles {
            by_place: LruCache::sparse(alloc, most)?,
        })
    }

    /// Closes the file there, since another one is to stand in its place.
    pub(crate) fn close(&mut self, place: &Place) {
        let _closed = self.by_place.pop(place.as_str());
    }

    /// So many bytes from `start` on of the file there, which it opens if it isn't open, and none if there is no file
    /// or the range ends past its end.
    pub(crate) fn read<R: Files<File = F>>(
        &mut self,
        alloc: Global,
        files: &R,
        place: &Place,
        start: u64,
        len: u64,
    ) -> io::Result<Option<Bytes>>
        ensures { IfOk result (λ range. IfSome range (λ bytes. length bytes ≡ len)) }
    {
        self.open(alloc, files, place)?;
        match self.by_place.get(place.as_str()) {
            Some(opened) => opened.read(alloc, start, len),
            None => Ok(None),
        }
    }

    /// How long the file there is, and none if there is no file.
    pub(crate) fn len_of<R: Files<File = F>>(
        &mut self,
        files: &R,
        place: &Place,
    ) -> io::Result<Option<u64>> {
        match self.by_place.peek(place.as_str()) {
            Some(opened) => Ok(Some(opened.len)),
            None => folder::len_of(files, place),
        }
    }

    fn open<R: Files<File = F>>(
        &mut self,
        alloc: Global,
        files: &R,
        place: &Place,
    ) -> io::Result<()> {
        if !self.by_place.contains(place.as_str()) {
            if let Some(opened) = open(files, place)? {
                let name = String::from_str(alloc, place.as_str())?;
                let _older = self.by_place.put(name, opened)?;
            }
        }
        Ok(())
    }
}

impl<F: FileExt + Drop> Opened<F> {
    fn read(&self, alloc: Global, start: u64, len: u64) -> io::Result<Option<Bytes>>
        ensures { IfOk result (λ range. IfSome range (λ bytes. length bytes ≡ len)) }
    {
        if start > self.len || len > self.len - start {
            return Ok(None);
        }
        let mut bytes = vec![in alloc; 0; len as usize]?;
        match self.file.read_exact_at(&mut bytes, start) {
            Ok(()) => Ok(Some(Bytes::from_vec(bytes)?)),
            Err(error) if error.kind() == ErrorKind::UnexpectedEof => Ok(None),
            Err(error) => Err(error),
        }
    }
}

/// The file there, open to be read, and none if there is none.
fn open<R: Files>(files: &R, place: &Place) -> io::Result<Option<Opened<R::File>>> {
    if folder::len_of(files, place)?.is_none() {
        return Ok(None);
    }
    match File::open(files, place.as_str()) {
        Ok(file) => {
            let len = file.metadata()?.len();
            Ok(Some(Opened { file, len }))
        }
        Err(error) => folder::if_missing(error, None),
    }
}
