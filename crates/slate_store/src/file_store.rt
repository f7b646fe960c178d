//! A store over a folder of the file system, which tells no objects.
ghost use Rattle.std.specs.Prelude.{◌≡◌, ◌≤◌, ◌⊎◌, length, None, IfOk, IfSome, IsOkUnless, IsTrue};
ghost use Rattle.std.specs.List.{list_all};
ghost use Rattle.slate_types.specs.Faults.{Rose};
ghost use Rattle.slate_store.specs.Places.{is_path};
ghost use Rattle.slate_store.specs.Store.{IsRising};

use crate::faults::Faults;
use crate::open_files::OpenFiles;
use crate::place::{Place, paths_among};
use crate::{PathText, Store, StoreError, folder};
use bytes::Bytes;
use slate_types::SlateDBError;
use std::alloc::Global;
use std::io::{self, ErrorKind};
use std::os::unix::fs::FileExt;
use std::rt::Files;

/// Keeps each object as a file of a folder, at the object's path from there.
///
/// A path is names with a slash between two: a call of another one, as of one that leaves the folder, fails.
#[derive(Drop)]
pub struct FileStore<R: Files> {
    rt: R,
    folder: String,
    opened: OpenFiles<R::File>,
    faults: Faults,
}

impl<R: Files + AllocGlobal + Clone + Drop> FileStore<R>
where
    R::File: FileExt,
{
    /// A store over the folder. Opens nothing and makes nothing: the first `put` makes the folder. Can fail
    /// only for want of memory.
    pub fn new(alloc: Global, rt: R, folder: &str) -> Result<FileStore<R>, SlateDBError>
        ensures memory { IsOkUnless result SlateDBError.OutOfMemory }
        ensures faults { IfOk result (λ store. ⟦<FileStore<R> as Store>⟧.faults store ≡ 0) }
    {
        Ok(FileStore {
            rt,
            folder: String::from_str(alloc, folder)?,
            opened: OpenFiles::new(alloc)?,
            faults: Faults::none(),
        })
    }

    fn put_at(&mut self, alloc: Global, path: &str, bytes: &[u8]) -> io::Result<()>
        ensures { self.new.faults ≡ self.old.faults }
    {
        let place = Place::new(alloc, &self.folder, path)?;
        self.opened.close(&place);
        let done = folder::put(alloc, &self.rt, &place, bytes);
        drop(place);
        done
    }

    fn read_at(
        &mut self,
        alloc: Global,
        path: &str,
        start: u64,
        len: u64,
    ) -> io::Result<Option<Bytes>>
        ensures length { IfOk result (λ range. IfSome range (λ bytes. length bytes ≡ len)) }
        ensures faults { self.new.faults ≡ self.old.faults }
    {
        let place = Place::new(alloc, &self.folder, path)?;
        let range = self.opened.read(alloc, &self.rt, &place, start, len);
        drop(place);
        range
    }

    fn len_at(&mut self, alloc: Global, path: &str) -> io::Result<Option<u64>>
        ensures { self.new.faults ≡ self.old.faults }
    {
        let place = Place::new(alloc, &self.folder, path)?;
        let len = self.opened.len_of(&self.rt, &place);
        drop(place);
        len
    }

    /// What a call answers: each error is a fault, save want of memory.
    fn answer<V: Drop>(&mut self, outcome: io::Result<V>) -> Result<V, StoreError>
        ensures later { self.old.faults.count ≤ self.new.faults.count }
        ensures still { (result ≡ Err StoreError.Failed) ⊎ (self.new.faults.count ≡ self.old.faults.count) }
        ensures cause { result ≡ Err StoreError.Failed → Rose self.old.faults.count self.new.faults.count }
    {
        match outcome {
            Ok(value) => Ok(value),
            Err(error) if error.kind() == ErrorKind::OutOfMemory => Err(StoreError::OutOfMemory),
            Err(_) => Err(self.faults.raise().into()),
        }
    }
}

impl<R: Files + AllocGlobal + Clone + Drop> Store for FileStore<R>
where
    R::File: FileExt,
{
    ghost objects = { λ _. None };

    ghost acts = { λ _. None };

    ghost faults = { λ s. s.faults.count };

    /// Writes beside the object and renames, so that a reader meets the old object or the new one.
    fn put(&mut self, alloc: Global, path: &str, bytes: &[u8]) -> Result<(), StoreError> {
        let done = self.put_at(alloc, path, bytes);
        self.answer(done)
    }

    fn read_range(
        &mut self,
        alloc: Global,
        path: &str,
        start: u64,
        len: u64,
    ) -> Result<Option<Bytes>, StoreError> {
        let range = self.read_at(alloc, path, start, len);
        self.answer(range)
    }

    fn len(&mut self, alloc: Global, path: &str) -> Result<Option<u64>, StoreError> {
        let len = self.len_at(alloc, path);
        self.answer(len)
    }

    fn list(&mut self, alloc: Global) -> Result<Vec<PathText>, StoreError> {
        let paths = list(alloc, &self.rt, &self.folder);
        self.answer(paths)
    }
}

/// The paths of the files of the folder, rising.
fn list<R: Files + AllocGlobal + Clone + Drop>(
    alloc: Global,
    rt: &R,
    folder: &str,
) -> io::Result<Vec<PathText>>
    ensures order { IfOk result (λ paths. IsRising paths.items) }
    ensures paths { IfOk result (λ paths. IsTrue (list_all is_path paths.items)) }
{
    if folder.is_empty() {
        return Err(ErrorKind::InvalidInput.into());
    }
    let names = folder::names_in(alloc, rt, folder)?;
    let paths = paths_among(alloc, &names);
    drop(names);
    Ok(paths?)
}
