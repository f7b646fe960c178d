// The calls on files by which a store over a folder puts an object, in their order, and what a put leaves where one of them fails.
use bytes::Bytes;
use slate_store::{FileStore, Store};
use std::alloc::{Allocator, Global};
use std::cell::Cell;
use std::fs::{self, File, Metadata, OpenFile, OpenOptions};
use std::io::{self, ErrorKind, Read, Seek, SeekFrom, Write};
use std::os::unix::fs::FileExt;
use std::rt::Files;

const FOLDER: &str = "file-calls-objects";

const OBJECT: &str = "file-calls-objects/a";

// The file as which the object is written.
const BESIDE: &str = "file-calls-objects/a.tmp";

// The calls, a digit each, and one that is none of them.
const MAKES_FOLDER: u64 = 1;

const CREATES_BESIDE: u64 = 2;

const WRITES: u64 = 3;

const SYNCS: u64 = 4;

const RENAMES: u64 = 5;

const REMOVES_BESIDE: u64 = 6;

const OPENS_FOLDER: u64 = 7;

const OTHER: u64 = 9;

// Files whose calls are noted, of which one kind fails.
#[derive(Clone, Copy)]
struct NotedFiles<'a> {
    rt: &'a HostRuntime,
    calls: &'a Cell<u64>,
    failing: u64,
}

fn note(calls: &Cell<u64>, failing: u64, call: u64) -> io::Result<()> {
    calls.set(calls.get().wrapping_mul(10).wrapping_add(call));
    if call == failing {
        Err(ErrorKind::Other.into())
    } else {
        Ok(())
    }
}

impl NotedFiles<'_> {
    fn note(&self, call: u64) -> io::Result<()> {
        note(self.calls, self.failing, call)
    }
}

impl Alloc for NotedFiles<'_> {
    type A = Global;

    fn alloc(&self) -> Global {
        self.rt.alloc()
    }
}

impl<'a> Files for NotedFiles<'a> {
    type File = NotedFile<'a>;

    type Dir = <HostRuntime as Files>::Dir;

    fn open_file(&self, how: &OpenOptions, path: &str) -> io::Result<NotedFile<'a>> {
        self.note(match path {
            BESIDE if how.asks_create() => CREATES_BESIDE,
            FOLDER => OPENS_FOLDER,
            _ => OTHER,
        })?;
        Ok(NotedFile {
            file: self.rt.open_file(how, path)?,
            calls: self.calls,
            failing: self.failing,
        })
    }

    fn open_dir(&self, path: &str) -> io::Result<<HostRuntime as Files>::Dir> {
        self.rt.open_dir(path)
    }

    fn metadata(&self, path: &str) -> io::Result<Metadata> {
        self.rt.metadata(path)
    }

    fn symlink_metadata(&self, path: &str) -> io::Result<Metadata> {
        self.rt.symlink_metadata(path)
    }

    fn copy(&self, from: &str, to: &str) -> io::Result<u64> {
        self.note(OTHER)?;
        self.rt.copy(from, to)
    }

    fn rename(&self, from: &str, to: &str) -> io::Result<()> {
        self.note(if from == BESIDE && to == OBJECT {
            RENAMES
        } else {
            OTHER
        })?;
        self.rt.rename(from, to)
    }

    fn remove_file(&self, path: &str) -> io::Result<()> {
        self.note(if path == BESIDE {
            REMOVES_BESIDE
        } else {
            OTHER
        })?;
        self.rt.remove_file(path)
    }

    fn create_dir(&self, path: &str) -> io::Result<()> {
        self.note(if path == FOLDER { MAKES_FOLDER } else { OTHER })?;
        self.rt.create_dir(path)
    }

    fn remove_dir(&self, path: &str) -> io::Result<()> {
        self.note(OTHER)?;
        self.rt.remove_dir(path)
    }

    fn remove_dir_all<B: Allocator>(&self, alloc: B, path: &str) -> io::Result<()> {
        self.note(OTHER)?;
        self.rt.remove_dir_all(alloc, path)
    }
}

#[derive(Drop)]
struct NotedFile<'a> {
    file: File,
    calls: &'a Cell<u64>,
    failing: u64,
}

impl Read for NotedFile<'_> {
    fn read(&mut self, buf: &mut [u8]) -> io::Result<usize> {
        self.file.read(buf)
    }
}

impl Write for NotedFile<'_> {
    fn write(&mut self, buf: &[u8]) -> io::Result<usize> {
        note(self.calls, self.failing, WRITES)?;
        self.file.write(buf)
    }

    fn flush(&mut self) -> io::Result<()> {
        self.file.flush()
    }
}

impl Seek for NotedFile<'_> {
    fn seek(&mut self, to: SeekFrom) -> io::Result<u64> {
        self.file.seek(to)
    }
}

impl FileExt for NotedFile<'_> {
    fn read_at(&self, buf: &mut [u8], offset: u64) -> io::Result<usize> {
        self.file.read_at(buf, offset)
    }

    fn write_at(&self, buf: &[u8], offset: u64) -> io::Result<usize> {
        note(self.calls, self.failing, OTHER)?;
        self.file.write_at(buf, offset)
    }
}

impl OpenFile for NotedFile<'_> {
    fn metadata(&self) -> io::Result<Metadata> {
        self.file.metadata()
    }

    fn set_len(&self, size: u64) -> io::Result<()> {
        note(self.calls, self.failing, OTHER)?;
        self.file.set_len(size)
    }

    fn sync_all(&self) -> io::Result<()> {
        note(self.calls, self.failing, SYNCS)?;
        self.file.sync_all()
    }

    fn sync_data(&self) -> io::Result<()> {
        note(self.calls, self.failing, OTHER)?;
        self.file.sync_data()
    }
}

// The call that fails, the calls of a put over an older object, whether it is answered, and what is there then. A folder
// that is there needn't be made. Behind the name's change the folder is synced, so that the name lasts.
type Put = (u64, u64, bool, &'static [u8]);

const PUTS: &[Put] = &[
    (0, 1_234_574, true, b"new"),
    (MAKES_FOLDER, 1_234_574, true, b"new"),
    (CREATES_BESIDE, 126, false, b"older"),
    (WRITES, 1236, false, b"older"),
    (SYNCS, 12346, false, b"older"),
    (RENAMES, 123_456, false, b"older"),
    (OPENS_FOLDER, 123_457, false, b"new"),
];

fn puts(rt: &HostRuntime, calls: &Cell<u64>, failing: u64) -> Option<bool> {
    let files = NotedFiles { rt, calls, failing };
    let Some(mut store) = FileStore::new(rt.alloc(), files, FOLDER).ok() else {
        return None;
    };
    let is_put = store.put(rt.alloc(), "a", b"new").is_ok();
    drop(store);
    Some(is_put)
}

fn has_put_older(rt: &HostRuntime) -> bool {
    let Some(mut store) = FileStore::new(rt.alloc(), rt, FOLDER).ok() else {
        return false;
    };
    let is_put = store.put(rt.alloc(), "a", b"older").is_ok();
    drop(store);
    is_put
}

fn stands(rt: &HostRuntime, bytes: &[u8]) -> bool {
    let Some(mut store) = FileStore::new(rt.alloc(), rt, FOLDER).ok() else {
        return false;
    };
    let found = store
        .read_range(rt.alloc(), "a", 0, bytes.len() as u64)
        .ok();
    let is_long = store.len(rt.alloc(), "a") == Ok(Some(bytes.len() as u64));
    drop(store);
    let is_same = found.flatten().as_ref().map(Bytes::as_slice) == Some(bytes);
    is_same && is_long
}

fn is_put_so(rt: &HostRuntime, put: &Put) -> bool {
    let calls = Cell::new(0);
    has_put_older(rt)
        && puts(rt, &calls, put.0) == Some(put.2)
        && calls.get() == put.1
        && stands(rt, put.3)
        && matches!(fs::exists(rt, BESIDE).ok(), Some(false))
}

fn are_put_so(rt: &HostRuntime) -> bool {
    for put in PUTS {
        if !is_put_so(rt, put) {
            return false;
        }
    }
    fs::remove_dir_all(rt, FOLDER).ok().is_some()
}

#[test]
fn syncs_before_it_renames(rt: HostRuntime) {
    assert!(rt; are_put_so(&rt));
}
