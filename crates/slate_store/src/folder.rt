//! The calls of a store over a folder on its files. What these do is trusted: the kit's trait `Files` has no contract.
ghost use Rattle.std.specs.Prelude.{◌≡◌, IfOk};

use crate::place::Place;
use bytes::ByteStr;
use std::alloc::Global;
use std::collections::BTreeSet;
use std::fs::{self, DirEntry, File, OpenFile, ReadDir};
use std::io::{self, ErrorKind, Write};
use std::rt::Files;

/// Writes the object beside its file and renames that, so that a reader meets the old object or the new one. Then it syncs
/// the folder that has the name, and those that it made, so that an object that was put is there after a power failure.
pub(crate) fn put(
    alloc: Global,
    files: &impl Files,
    place: &Place,
    bytes: &[u8],
) -> io::Result<()> {
    let parent = above(place.as_str());
    let made = count_missing(files, parent);
    fs::create_dir_all(files, parent)?;
    let beside = place.beside(alloc)?;
    let mut done = write(files, &beside, bytes);
    if done.is_ok() {
        done = fs::rename(files, &beside, place.as_str());
    }
    if done.is_err() {
        let _left = fs::remove_file(files, &beside);
    }
    drop(beside);
    done?;
    sync_folders(files, parent, made)
}

fn write<R: Files>(files: &R, path: &str, bytes: &[u8]) -> io::Result<()> {
    let mut file = File::create(files, path)?;
    file.write_all(bytes)?;
    file.sync_all()
}

/// The folder that has the name that the path ends with.
fn above(path: &str) -> &str {
    match path.rsplit_once('/') {
        Some((parent, _)) if !parent.is_empty() => parent,
        Some(_) => "/",
        None => ".",
    }
}

/// How many of the folder and those above it aren't there.
fn count_missing(files: &impl Files, folder: &str) -> usize {
    let mut path = folder;
    for missing in 0..folder.len() {
        if fs::metadata(files, path).is_ok() {
            return missing;
        }
        path = above(path);
    }
    folder.len()
}

/// Syncs the folder and so many of those above it.
fn sync_folders<R: Files>(files: &R, folder: &str, more: usize) -> io::Result<()> {
    let mut path = folder;
    for _ in 0..more {
        sync(files, path)?;
        path = above(path);
    }
    sync(files, path)
}

fn sync<R: Files>(files: &R, folder: &str) -> io::Result<()> {
    File::open(files, folder)?.sync_all()
}

/// The length of the file there, and `None` where there is none.
pub(crate) fn len_of(files: &impl Files, place: &Place) -> io::Result<Option<u64>> {
    match fs::symlink_metadata(files, place.as_str()) {
        Ok(metadata) => Ok(metadata.is_file().then_some(metadata.len())),
        Err(error) => if_missing(error, None),
    }
}

/// What the folder's files are called, from there.
pub(crate) fn names_in<R: Files + AllocGlobal + Clone + Drop>(
    alloc: Global,
    rt: &R,
    folder: &str,
) -> io::Result<BTreeSet<ByteStr>> {
    let mut found = BTreeSet::new(alloc);
    let mut inner = Vec::new(alloc);
    inner.push(String::new(alloc))?;
    for _ in 0..u64::MAX {
        match inner.pop() {
            Some(names) => {
                let added = add_folder(alloc, rt, folder, &names, &mut inner, &mut found);
                drop(names);
                added?;
            }
            None => break,
        }
    }
    drop(inner);
    Ok(found)
}

/// Adds what one folder has to the folders and to what was found.
fn add_folder<R: Files + AllocGlobal + Clone + Drop>(
    alloc: Global,
    rt: &R,
    folder: &str,
    names: &str,
    inner: &mut Vec<String>,
    found: &mut BTreeSet<ByteStr>,
) -> io::Result<()> {
    let place = format!(in alloc; "{folder}/{names}")?;
    let entries = fs::read_dir(rt, &place);
    drop(place);
    match entries {
        Ok(entries) => add_entries(alloc, entries, names, inner, found),
        Err(error) => if_missing(error, ()),
    }
}

fn add_entries<R: Files + AllocGlobal + Clone + Drop>(
    alloc: Global,
    entries: ReadDir<R>,
    names: &str,
    inner: &mut Vec<String>,
    found: &mut BTreeSet<ByteStr>,
) -> io::Result<()> {
    for entry in entries {
        match entry {
            Ok(entry) => add_entry(alloc, &entry, names, inner, found)?,
            Err(error) => return Err(error),
        }
    }
    Ok(())
}

fn add_entry<R: Files>(
    alloc: Global,
    entry: &DirEntry<R>,
    names: &str,
    inner: &mut Vec<String>,
    found: &mut BTreeSet<ByteStr>,
) -> io::Result<()> {
    let name = entry.file_name();
    match entry.file_type() {
        Ok(kind) if kind.is_dir() => inner.push(format!(in alloc; "{names}{name}/")?)?,
        Ok(kind) if kind.is_file() => {
            let path = format!(in alloc; "{names}{name}")?;
            found.insert(ByteStr::from_string(path)?)?;
        }
        Ok(_) => {}
        Err(error) => return if_missing(error, ()),
    }
    Ok(())
}

/// The answer where a file is missing, and else the error.
pub(crate) fn if_missing<V: Drop>(error: io::Error, answer: V) -> io::Result<V>
    ensures { IfOk result (λ value. value ≡ answer) }
{
    match error.kind() {
        ErrorKind::NotFound | ErrorKind::NotADirectory => Ok(answer),
        _ => Err(error),
    }
}
