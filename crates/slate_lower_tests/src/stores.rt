// What a store over a folder answers.
use bytes::Bytes;
use slate_store::{FileStore, PathText, Store, StoreError};
use std::alloc::Global;
use std::fs;

const FOLDER: &str = "stores-objects";

type Folder<'a> = FileStore<&'a HostRuntime>;

// A range of an object with what is read there, and with how long the object is.
type Range<'a> = (&'a str, u64, u64, Option<&'a [u8]>, Option<u64>);

const RANGES: &[Range<'_>] = &[
    ("b/two", 0, 5, Some(b"hello"), Some(5)),
    ("b/two", 1, 4, Some(b"ello"), Some(5)),
    ("b/two", 5, 0, Some(b""), Some(5)),
    ("b/two", 1, 5, None, Some(5)),
    ("b/two", 6, 0, None, Some(5)),
    ("a", 0, 0, Some(b""), Some(0)),
    ("b", 0, 0, None, None),
    ("missing", 0, 0, None, None),
];

const OBJECTS: &[(&str, &[u8])] = &[
    ("b/two", b"the old object"),
    ("b/one", b"1"),
    ("b-z", b""),
    ("a", b""),
    ("b/two", b"hello"),
];

fn are_put(alloc: Global, store: &mut Folder<'_>) -> bool {
    for (path, bytes) in OBJECTS {
        if store.put(alloc, path, bytes).is_err() {
            return false;
        }
    }
    true
}

fn is_read(alloc: Global, store: &mut Folder<'_>, range: &Range<'_>) -> bool {
    let is_long = store.len(alloc, range.0) == Ok(range.4);
    let Some(found) = store.read_range(alloc, range.0, range.1, range.2).ok() else {
        return false;
    };
    let is_same = found.as_ref().map(Bytes::as_slice) == range.3;
    drop(found);
    is_same && is_long
}

// How many ranges are read as they should be, up to the first that isn't.
fn well_read(alloc: Global, store: &mut Folder<'_>) -> usize {
    let mut count: usize = 0;
    for range in RANGES {
        if !is_read(alloc, store, range) {
            break;
        }
        count = count.saturating_add(1);
    }
    count
}

const LISTED: &[&str] = &["a", "b-z", "b/one", "b/two"];

fn are_all(paths: &[PathText]) -> bool {
    let mut paths = paths.iter();
    for listed in LISTED {
        match paths.next() {
            Some(path) if path.as_str() == *listed => {}
            _ => return false,
        }
    }
    paths.next().is_none()
}

// Whether all ranges are well read, and all objects listed.
fn answers_well(alloc: Global, store: &mut Folder<'_>) -> bool {
    if !are_put(alloc, store) || well_read(alloc, store) != RANGES.len() {
        return false;
    }
    match store.list(alloc) {
        Ok(paths) => are_all(paths.as_slice()),
        Err(_) => false,
    }
}

// Whether each of these paths is refused.
fn are_refused(alloc: Global, store: &mut Folder<'_>, paths: &[&str]) -> bool {
    for path in paths {
        if store.put(alloc, path, b"x") != Err(StoreError::Failed) {
            return false;
        }
    }
    true
}

// Whether it has so many objects.
fn has(alloc: Global, store: &mut Folder<'_>, count: usize) -> bool {
    match store.list(alloc) {
        Ok(paths) => paths.len() == count,
        Err(_) => false,
    }
}

const NO_PATHS: &[&str] = &[
    "", "/a", "../a", "b/../a", "b//one", "b/", "./a", "a.tmp", "a/b",
];

fn is_free(rt: &HostRuntime, path: &str) -> bool {
    matches!(fs::exists(rt, path).ok(), Some(false))
}

// A folder that isn't there has no objects, and is not made by that. Paths that are none are refused, and the four objects kept.
fn answers_in_a_folder(rt: &HostRuntime) -> bool {
    let alloc = rt.alloc();
    let Some(mut store) = FileStore::new(alloc, rt, FOLDER).ok() else {
        return false;
    };
    let has_answered = has(alloc, &mut store, 0)
        && is_free(rt, FOLDER)
        && answers_well(alloc, &mut store)
        && are_refused(alloc, &mut store, NO_PATHS)
        && has(alloc, &mut store, 4);
    drop(store);
    has_answered
}

// Whether a folder is none that is a file.
fn is_no_folder(rt: &HostRuntime) -> bool {
    let store = FileStore::new(rt.alloc(), rt, "stores-objects/a").ok();
    let Some(mut store) = store else { return false };
    let is_refused = are_refused(rt.alloc(), &mut store, &["x"]);
    drop(store);
    is_refused
}

fn is_cleared(rt: &HostRuntime) -> bool {
    is_free(rt, FOLDER) || fs::remove_dir_all(rt, FOLDER).ok().is_some()
}

fn keeps_objects(rt: &HostRuntime) -> bool {
    is_cleared(rt)
        && answers_in_a_folder(rt)
        && is_free(rt, "stores-objects/a.tmp")
        && is_no_folder(rt)
        && is_cleared(rt)
}

#[test]
fn keeps_objects_in_a_folder(rt: HostRuntime) {
    assert!(rt; keeps_objects(&rt));
}
