//! The folder of a run. What these calls do with files is trusted: the kit's files have no
//! contract.
ghost use Rattle.std.specs.Prelude.{◌≡◌};
ghost use Rattle.slate_command.specs.FolderStatus.{folder_status};

use crate::telling::tell;
use crate::watched_files::{LastError, WatchedFiles};
use slate_store::{FileStore, Store, StoreError};
use slate_types::SlateDBError;
use std::fs::{self, File, TryLockError};
use std::io::{self, ErrorKind};
use thiserror::Error;

/// Why a run isn't made over a folder.
#[derive(Clone, Copy, Debug, PartialEq, Eq, Error)]
pub enum FolderError {
    /// It is a file.
    #[error("it is no folder")]
    NotAFolder,
    /// Another run holds it.
    #[error("another run has the folder")]
    InUse,
    /// A run left tables in it, and a store begins empty.
    #[error("the folder has tables")]
    HasTables,
    /// It couldn't be made, locked, listed or written.
    #[error("the folder failed")]
    Failed,
    /// Memory is wanting.
    #[error("out of memory")]
    OutOfMemory,
}

impl FolderError {
    /// Returns the status that a program ends with by it: 2 where the folder isn't one for a run, 7
    /// where it failed, and 20 for want of memory.
    pub fn status(self) -> u8
        ensures { result ≡ folder_status self }
    {
        match self {
            FolderError::NotAFolder | FolderError::InUse | FolderError::HasTables => 2,
            FolderError::Failed => 7,
            FolderError::OutOfMemory => 20,
        }
    }
}

/// Makes the folder where it is missing, and holds it for one run: while the file that it answers
/// is there, which ends with its process in whatever way, each other call is refused by `InUse`.
/// Syncs the folders that have the names of those that it made. A folder that has tables is
/// refused, and one that can't be written, as far as a file shows that is made beside them and
/// taken away. Where it failed, what failed and why is said on standard error, if the environment
/// asks for it.
pub fn hold(rt: &HostRuntime, folder: &str) -> Result<File, FolderError> {
    test_kind(rt, folder)?;
    let tables = format!(in rt.alloc(); "{folder}/db/compacted").map_err(
        |_| FolderError::OutOfMemory,
    )?;
    let held = hold_for(rt, folder, &tables);
    drop(tables);
    held
}

fn hold_for(rt: &HostRuntime, folder: &str, tables: &str) -> Result<File, FolderError> {
    make(rt, tables).map_err(|error| failed(rt, tables, "made", error))?;
    let held = File::open(rt, folder).map_err(|error| failed(rt, folder, "opened", error))?;
    match held.try_lock() {
        Ok(()) => {}
        Err(TryLockError::WouldBlock) => return Err(FolderError::InUse),
        Err(TryLockError::Error(error)) => return Err(failed(rt, folder, "locked", error)),
    }
    test_empty(rt, tables)?;
    test_writing(rt, tables)?;
    Ok(held)
}

/// Makes the folder and those above it that are missing, and syncs the folders that have their
/// names, so that what is put there lasts.
fn make(rt: &HostRuntime, folder: &str) -> io::Result<()> {
    let missing = count_missing(rt, folder);
    fs::create_dir_all(rt, folder)?;
    let mut path = folder;
    for _ in 0..missing {
        path = above(path);
        File::open(rt, path)?.sync_all()?;
    }
    Ok(())
}

/// How many of the folder and those above it aren't there.
fn count_missing(rt: &HostRuntime, folder: &str) -> usize {
    let mut path = folder;
    for missing in 0..folder.len() {
        if fs::metadata(rt, path).is_ok() {
            return missing;
        }
        path = above(path);
    }
    folder.len()
}

/// The folder that has the name that the path ends with.
fn above(path: &str) -> &str {
    match path.rsplit_once('/') {
        Some((parent, _)) if !parent.is_empty() => parent,
        Some(_) => "/",
        None => ".",
    }
}

/// Refuses what is there and no folder.
fn test_kind(rt: &HostRuntime, folder: &str) -> Result<(), FolderError> {
    match fs::metadata(rt, folder) {
        Ok(found) if found.is_dir() => Ok(()),
        Ok(_) => Err(FolderError::NotAFolder),
        Err(error) if error.kind() == ErrorKind::NotFound => Ok(()),
        Err(error) => Err(failed(rt, folder, "looked at", error)),
    }
}

/// Refuses tables of an earlier run, over which this one would put its own.
fn test_empty(rt: &HostRuntime, tables: &str) -> Result<(), FolderError> {
    let last = LastError::none(rt.alloc()).map_err(|_| FolderError::OutOfMemory)?;
    let files = WatchedFiles::new(rt, &last).map_err(|_| FolderError::OutOfMemory)?;
    let mut store = FileStore::new(rt.alloc(), files, tables).map_err(of_store)?;
    match store.list(rt.alloc()) {
        Ok(names) => {
            if names.iter().any(|name| name.as_str().ends_with(".sst")) {
                Err(FolderError::HasTables)
            } else {
                Ok(())
            }
        }
        Err(StoreError::Failed) => {
            let error = last.get().unwrap_or(ErrorKind::Other.into());
            Err(failed(rt, tables, "listed", error))
        }
        Err(StoreError::OutOfMemory) => Err(FolderError::OutOfMemory),
    }
}

/// Makes a file beside the tables, and takes it away. Its name is none of an object's, as that of a
/// table that is being written.
fn test_writing(rt: &HostRuntime, tables: &str) -> Result<(), FolderError> {
    let trial = format!(in rt.alloc(); "{tables}/trial.tmp").map_err(|_| FolderError::OutOfMemory)?;
    let written = fs::write(rt, &trial, "trial").and_then(|()| fs::remove_file(rt, &trial));
    drop(trial);
    written.map_err(|error| failed(rt, tables, "written in", error))
}

/// Says what couldn't be done with a path, and why.
fn failed(rt: &HostRuntime, path: &str, done: &str, error: io::Error) -> FolderError {
    match error.kind() {
        ErrorKind::OutOfMemory => FolderError::OutOfMemory,
        _ => {
            tell(rt, 7, format_args!("{path} couldn't be {done}: {error}"));
            FolderError::Failed
        }
    }
}

fn of_store(error: SlateDBError) -> FolderError {
    drop(error);
    FolderError::OutOfMemory
}
