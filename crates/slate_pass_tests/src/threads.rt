// Two threads that write, store and read rows of segments of their own, with filters and a
// transformer. Threads are made and waited for by a type parameter's handle, and files are reached
// by the program's.
ghost use Rattle.std.specs.Prelude.{◌≡◌};

use crate::calls::{Ended, is_none, is_row};
use crate::parts::{Full, laws, opened, outer};
use slate_filter::have_valid_names;
use slate_mem::WriteBatch;
use slate_shared::{Database, DbTransaction, Pass};
use slate_store::FileStore;
use slate_types::{IsolationLevel, KeyValue, SlateDBError};
use std::alloc::Global;
use std::sync::Wait;
use std::thread::Threads;
use std::{fs, thread};

const FOLDER: &str = "pass-objects";

type Folder<'a> = FileStore<&'a HostRuntime>;

// A key that a thread writes, and one of the same segment that nobody writes.
type Keys = (&'static [u8], &'static [u8]);

const FIRST: Keys = (b"a:1", b"a:2");

const SECOND: Keys = (b"b:1", b"b:2");

// Returns the sequence of a put.
fn put<R: Wait>(
    rt: &R,
    alloc: Global,
    db: &Database<Full>,
    pass: &mut Pass<Full>,
    store: &mut Folder<'_>,
    key: &[u8],
) -> Option<u64>
    requires table { pass.old.table ≡ db.now }
    ensures same { pass.new.table ≡ pass.old.table }
{
    let laws = laws(alloc)?;
    let mut batch = WriteBatch::new(alloc);
    let is_put = batch.put(key, b"1").is_ok();
    let mut env = outer(store);
    let handle = pass
        .write(rt, db, batch, 0, &mut env, &laws)
        .ok()
        .flatten()?;
    if is_put { Some(handle.seqnum()) } else { None }
}

// Stores all rows, and returns the last sequence that is stored.
fn flush<R: Wait>(
    rt: &R,
    alloc: Global,
    db: &Database<Full>,
    pass: &mut Pass<Full>,
    store: &mut Folder<'_>,
) -> Option<u64>
    requires table { pass.old.table ≡ db.now }
    ensures same { pass.new.table ≡ pass.old.table }
{
    let laws = laws(alloc)?;
    if !have_valid_names(laws.policies.as_slice()) {
        return None;
    }
    let mut env = outer(store);
    pass.flush(rt, db, &mut env, &laws).ok()
}

// Returns what a transaction gets at a key.
fn get<R: Wait>(
    rt: &R,
    alloc: Global,
    db: &Database<Full>,
    txn: &mut DbTransaction<Full>,
    store: &mut Folder<'_>,
    key: &[u8],
) -> Result<Option<KeyValue>, SlateDBError>
    requires table { txn.old.table ≡ db.now }
    ensures same { txn.new.table ≡ txn.old.table }
{
    let Some(laws) = laws(alloc) else {
        return Err(SlateDBError::OutOfMemory);
    };
    let mut env = outer(store);
    txn.get_key_value(rt, db, key, &mut env, &laws)
}

// Checks that a transaction that begins now gets the row at the first key and none at the second.
fn sees<R: Wait>(
    rt: &R,
    alloc: Global,
    db: &Database<Full>,
    pass: &mut Pass<Full>,
    store: &mut Folder<'_>,
    keys: Keys,
    seq: u64,
) -> bool
    requires table { pass.old.table ≡ db.now }
    ensures same { pass.new.table ≡ pass.old.table }
{
    let Some(mut txn) = pass.begin(rt, db, IsolationLevel::Snapshot).ok() else {
        return false;
    };
    let found = get(rt, alloc, db, &mut txn, store, keys.0);
    let is_found = is_row(found, (keys.0, b"1", seq));
    let is_alone = is_none(get(rt, alloc, db, &mut txn, store, keys.1));
    txn.rollback(rt, db, pass);
    is_found && is_alone
}

// Writes a row, stores it and reads it, and returns its sequence.
fn works<R: Wait>(
    rt: &R,
    files: &HostRuntime,
    db: &Database<Full>,
    pass: &mut Pass<Full>,
    keys: Keys,
) -> Option<u64>
    requires table { pass.old.table ≡ db.now }
    ensures same { pass.new.table ≡ pass.old.table }
{
    let alloc = files.alloc();
    let mut store = FileStore::new(alloc, files, FOLDER).ok()?;
    let seq = put(rt, alloc, db, pass, &mut store, keys.0).unwrap_or(0);
    let through = flush(rt, alloc, db, pass, &mut store).unwrap_or(0);
    let is_seen = sees(rt, alloc, db, pass, &mut store, keys, seq);
    drop(store);
    if seq <= through && is_seen {
        Some(seq)
    } else {
        None
    }
}

// Lets each of two threads do so with keys of its own.
fn work_by_two<R: Threads + Wait + Sync>(
    rt: &R,
    files: &HostRuntime,
    db: &Database<Full>,
    passes: (Pass<Full>, Pass<Full>),
) -> (Ended<Option<u64>>, Ended<Option<u64>>)
    requires table { (passes.0.table ≡ db.now) × (passes.1.table ≡ db.now) }
    ensures same { (result.0.0.table ≡ db.now) × (result.1.0.table ≡ db.now) }
{
    let (mut pass, mut other) = passes;
    thread::join(
        rt,
        move || -> Ended<Option<u64>>
            requires { pass.table ≡ db.now }
            ensures { result.0.table ≡ db.entry.now }
        {
            let seq = works(rt, files, db, &mut pass, FIRST);
            (pass, seq)
        },
        move || -> Ended<Option<u64>>
            requires { other.table ≡ db.now }
            ensures { result.0.table ≡ db.entry.now }
        {
            let seq = works(rt, files, db, &mut other, SECOND);
            (other, seq)
        },
    )
}

// Checks that both rows are read through one pass.
fn sees_both<R: Wait>(
    rt: &R,
    files: &HostRuntime,
    db: &Database<Full>,
    pass: &mut Pass<Full>,
    seqs: (u64, u64),
) -> bool
    requires table { pass.old.table ≡ db.now }
{
    let alloc = files.alloc();
    let Some(mut store) = FileStore::new(alloc, files, FOLDER).ok() else {
        return false;
    };
    let are_seen = sees(rt, alloc, db, pass, &mut store, FIRST, seqs.0)
        && sees(rt, alloc, db, pass, &mut store, SECOND, seqs.1);
    drop(store);
    are_seen
}

// Checks that two threads read what they stored, and that their rows are the first two.
fn are_stored_by_both<R: Threads + Wait + Sync>(rt: &R, files: &HostRuntime) -> bool {
    let Some((db, mut pass)) = opened(files.alloc()) else {
        return false;
    };
    let other = pass.split(&db);
    let passes = (pass, other);
    let ((mut pass, first), (other, second)) = work_by_two(rt, files, &db, passes);
    pass.join(&db, other);
    match (first, second) {
        (Some(1), Some(2)) => sees_both(rt, files, &db, &mut pass, (1, 2)),
        (Some(2), Some(1)) => sees_both(rt, files, &db, &mut pass, (2, 1)),
        _ => false,
    }
}

fn is_cleared(files: &HostRuntime) -> bool {
    match fs::exists(files, FOLDER).ok() {
        Some(true) => fs::remove_dir_all(files, FOLDER).ok().is_some(),
        Some(false) => true,
        None => false,
    }
}

fn are_stored<R: Threads + Wait + Sync>(rt: &R, files: &HostRuntime) -> bool {
    is_cleared(files) && are_stored_by_both(rt, files) && is_cleared(files)
}

#[test]
fn two_threads_store_in_segments_with_filters(rt: HostRuntime) {
    assert!(rt; are_stored(&rt, &rt));
}
