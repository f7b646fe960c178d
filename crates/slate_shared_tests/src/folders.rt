// Two threads that store their rows in one folder, each by a store of its own. Threads are made and waited for by a type parameter's
// handle, and files reached by the program's.
ghost use Rattle.std.specs.Prelude.{◌≡◌};
ghost use Rattle.slate_shared.specs.Given.{ArePlain};

use crate::calls::{Ended, flush, opened, put, sees};
use slate_db::laws::Laws;
use slate_shared::{Database, Pass, Plain};
use slate_store::{FileStore, Store};
use slate_types::NoExtractor;
use std::alloc::Global;
use std::sync::Wait;
use std::thread::Threads;
use std::{fs, thread};

const FOLDER: &str = "shared-objects";

// The sequence of a put, where a flush behind it answers one that isn't below.
fn stores<R: Wait>(
    rt: &R,
    files: &HostRuntime,
    db: &Database<Plain>,
    pass: &mut Pass<Plain>,
    laws: &Laws<NoExtractor>,
    key: &[u8],
) -> Option<u64>
    requires table { pass.old.table ≡ db.now }
    requires laws { ArePlain laws.now.options laws.now.segments laws.now.policies.items }
    ensures same { (pass.new.table ≡ pass.old.table) × (pass.new.parts ≡ pass.old.parts) }
{
    let alloc = files.alloc();
    let mut store = FileStore::new(alloc, files, FOLDER).ok()?;
    let seq = put(rt, alloc, db, pass, &mut store, laws, (key, b"1"));
    let through = flush(rt, db, pass, &mut store, laws).ok();
    drop(store);
    if seq <= through { seq } else { None }
}

// What each of two threads puts and stores.
fn store_by_two<R: Threads + Wait + Sync>(
    rt: &R,
    files: &HostRuntime,
    db: &Database<Plain>,
    passes: (Pass<Plain>, Pass<Plain>),
    laws: &Laws<NoExtractor>,
) -> (Ended<Option<u64>>, Ended<Option<u64>>)
    requires table { (passes.0.table ≡ db.now) × (passes.1.table ≡ db.now) }
    requires laws { ArePlain laws.now.options laws.now.segments laws.now.policies.items }
    ensures same { (result.0.0.table ≡ db.now) × (result.1.0.table ≡ db.now) }
{
    let (mut pass, mut other) = passes;
    thread::join(
        rt,
        move || -> Ended<Option<u64>>
            requires { (pass.table ≡ db.now) × ArePlain laws.now.options laws.now.segments laws.now.policies.items }
            ensures { result.0.table ≡ db.entry.now }
        {
            let stored = stores(rt, files, db, &mut pass, laws, b"a");
            (pass, stored)
        },
        move || -> Ended<Option<u64>>
            requires { (other.table ≡ db.now) × ArePlain laws.now.options laws.now.segments laws.now.policies.items }
            ensures { result.0.table ≡ db.entry.now }
        {
            let stored = stores(rt, files, db, &mut other, laws, b"b");
            (other, stored)
        },
    )
}

// Whether a store of the folder has both rows, in one table or in two: a flush may take the other thread's row too.
fn finds<R: Wait>(
    rt: &R,
    files: &HostRuntime,
    db: &Database<Plain>,
    pass: &mut Pass<Plain>,
    laws: &Laws<NoExtractor>,
    seqs: (u64, u64),
) -> bool
    requires table { pass.old.table ≡ db.now }
    requires laws { ArePlain laws.now.options laws.now.segments laws.now.policies.items }
{
    let alloc = files.alloc();
    let Some(mut store) = FileStore::new(alloc, files, FOLDER).ok() else {
        return false;
    };
    let found = sees(rt, db, pass, &mut store, laws, 2, (b"a", b"1", seqs.0))
        && sees(rt, db, pass, &mut store, laws, 2, (b"b", b"1", seqs.1))
        && has_tables(alloc, &mut store);
    drop(store);
    found
}

fn has_tables(alloc: Global, store: &mut FileStore<&HostRuntime>) -> bool {
    match store.list(alloc) {
        Ok(paths) => paths.len() == 1 || paths.len() == 2,
        Err(_) => false,
    }
}

// Whether two threads store what they put, and both rows are found then.
fn is_stored_by_both<R: Threads + Wait + Sync>(rt: &R, files: &HostRuntime) -> bool {
    let alloc = files.alloc();
    let laws = Plain::laws(alloc);
    let Some((db, mut pass)) = opened(alloc, &laws) else {
        return false;
    };
    let other = pass.split(&db);
    let passes = (pass, other);
    let ((mut pass, here), (other, there)) = store_by_two(rt, files, &db, passes, &laws);
    pass.join(&db, other);
    match (here, there) {
        (Some(a), Some(b)) => finds(rt, files, &db, &mut pass, &laws, (a, b)),
        _ => false,
    }
}

fn is_cleared(files: &HostRuntime) -> bool {
    match fs::exists(files, FOLDER).ok() {
        Some(true) => fs::remove_dir_all(files, FOLDER).ok().is_some(),
        Some(false) => true,
        None => false,
    }
}

fn is_shared<R: Threads + Wait + Sync>(rt: &R, files: &HostRuntime) -> bool {
    is_cleared(files) && is_stored_by_both(rt, files) && is_cleared(files)
}

#[test]
fn two_threads_store_in_one_folder(rt: HostRuntime) {
    assert!(rt; is_shared(&rt, &rt));
}
