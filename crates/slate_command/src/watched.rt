//! A store in a folder that notes its last call, so that what ended a run can be told with its
//! place.
ghost use Rattle.std.specs.Prelude.{◌≡◌};

use crate::telling::tell;
use crate::watched_files::{LastError, WatchedFiles};
use bytes::Bytes;
use slate_store::{FileStore, PathText, Store, StoreError};
use slate_types::SlateDBError;
use std::alloc::Global;

/// What a call asked for.
#[derive(Clone, Copy, Debug, PartialEq, Eq)]
enum Call {
    Nothing,
    Put,
    Read { start: u64, len: u64 },
    Len,
    List,
}

/// A store in a folder that notes its last call: what was asked for, of which object, and whether
/// it was there.
#[derive(Drop)]
pub struct Watched<S> {
    store: S,
    folder: String,
    last: LastError,
    path: String,
    call: Call,
    missing: bool,
}

/// A store over files that is watched.
pub type FolderStore<'a> = Watched<FileStore<WatchedFiles<&'a HostRuntime>>>;

/// Returns a store over the folder. Opens nothing and makes nothing. The one error is `OutOfMemory`.
pub fn open_folder<'a>(rt: &'a HostRuntime, folder: &str) -> Result<FolderStore<'a>, SlateDBError> {
    let last = LastError::none(rt.alloc())?;
    let files = WatchedFiles::new(rt, &last)?;
    let store = FileStore::new(rt.alloc(), files, folder)?;
    let folder = String::from_str(rt.alloc(), folder)?;
    Ok(Watched::new(rt.alloc(), store, folder, last))
}

impl<S: Store> Watched<S> {
    /// Watches the store. It is in the folder, and its files note their errors there. Takes no
    /// memory.
    pub fn new(alloc: Global, store: S, folder: String, last: LastError) -> Watched<S>
        ensures objects { ⟦<Watched<S> as Store>⟧.objects result ≡ S.objects store }
        ensures acts { ⟦<Watched<S> as Store>⟧.acts result ≡ S.acts store }
    {
        Watched {
            store,
            folder,
            last,
            path: String::new(alloc),
            call: Call::Nothing,
            missing: false,
        }
    }

    /// Notes a call. Without memory for the path it notes none.
    fn note(&mut self, path: &str, call: Call)
        ensures { self.new.store ≡ self.old.store }
    {
        self.path.clear();
        let _noted = self.path.push_str(path);
        self.call = call;
        self.missing = false;
    }

    /// Says on standard error, if the environment asks for it, which call of the store ended a run
    /// by this status, and why: of a store that failed, or of a damaged table. Before its first
    /// call it says nothing.
    pub fn tell(&self, rt: &HostRuntime, status: u8) {
        match status {
            7 => self.tell_fault(rt),
            12..=19 => self.tell_read(rt, status),
            _ => {}
        }
    }

    fn tell_fault(&self, rt: &HostRuntime) {
        let folder = self.folder.as_str();
        let path = self.path.as_str();
        let failed = match self.call {
            Call::Nothing => return,
            Call::Put => "couldn't be written",
            Call::Read { .. } | Call::Len => "couldn't be read",
            Call::List => "couldn't be listed",
        };
        match self.last.get() {
            Some(error) => tell(rt, 7, format_args!("{folder}/{path} {failed}: {error}")),
            None => tell(rt, 7, format_args!("{folder}/{path} {failed}")),
        }
    }

    fn tell_read(&self, rt: &HostRuntime, status: u8) {
        let folder = self.folder.as_str();
        let path = self.path.as_str();
        match self.call {
            Call::Nothing => {}
            Call::Read { start, len } if self.missing => tell(
                rt,
                status,
                format_args!("{folder}/{path} isn't there, or has no {len} bytes from {start} on"),
            ),
            Call::Read { start, len } => tell(
                rt,
                status,
                format_args!("{folder}/{path} was read last, {len} bytes from {start} on"),
            ),
            _ if self.missing => tell(rt, status, format_args!("{folder}/{path} isn't there")),
            _ => tell(
                rt,
                status,
                format_args!("{folder}/{path} was looked at last"),
            ),
        }
    }
}

impl<S: Store> Store for Watched<S> {
    ghost objects = { λ w. S.objects w.store };

    ghost acts = { λ w. S.acts w.store };

    ghost faults = { λ w. S.faults w.store };

    ghost plan = { λ w. S.plan w.store };

    fn put(&mut self, alloc: Global, path: &str, bytes: &[u8]) -> Result<(), StoreError> {
        self.note(path, Call::Put);
        self.store.put(alloc, path, bytes)
    }

    fn read_range(
        &mut self,
        alloc: Global,
        path: &str,
        start: u64,
        len: u64,
    ) -> Result<Option<Bytes>, StoreError> {
        self.note(path, Call::Read { start, len });
        let range = self.store.read_range(alloc, path, start, len);
        self.missing = matches!(range, Ok(None));
        range
    }

    fn len(&mut self, alloc: Global, path: &str) -> Result<Option<u64>, StoreError> {
        self.note(path, Call::Len);
        let len = self.store.len(alloc, path);
        self.missing = matches!(len, Ok(None));
        len
    }

    fn list(&mut self, alloc: Global) -> Result<Vec<PathText>, StoreError> {
        self.note("", Call::List);
        self.store.list(alloc)
    }
}
