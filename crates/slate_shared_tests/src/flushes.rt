// Flushes that fail, wait and meet.
ghost use Rattle.std.specs.Prelude.{◌≡◌, ◌<◌};
ghost use Rattle.slate_shared.specs.Given.{ArePlain};

use crate::calls::{Ended, flush, is_flushed, opened, put, sees, write, writes_meanwhile};
use crate::gates::{GateStore, Gates, Waiting};
use slate_db::laws::Laws;
use slate_shared::{Database, Pass, Plain, WriteHandle};
use slate_store::Store;
use slate_types::{NoExtractor, SlateDBError};
use std::alloc::Global;
use std::sync::Wait;
use std::thread;
use std::thread::Threads;

const FIRST: &str = "db/compacted/00000000000000010000000000000000.sst";

// The numbers of the calls that fail.
fn failing(alloc: Global, call: u64) -> Vec<u64> {
    let mut calls = Vec::new(alloc);
    drop(calls.push(call));
    calls
}

// Whether a flush fails by its store.
fn is_refused<R: Wait>(
    rt: &R,
    db: &Database<Plain>,
    pass: &mut Pass<Plain>,
    store: &mut GateStore<'_>,
    laws: &Laws<NoExtractor>,
) -> bool
    requires table { pass.old.table ≡ db.now }
    requires laws { ArePlain laws.now.options laws.now.segments laws.now.policies.items }
    ensures same { (pass.new.table ≡ pass.old.table) × (pass.new.parts ≡ pass.old.parts) }
{
    matches!(
        flush(rt, db, pass, store, laws),
        Err(SlateDBError::StoreFault)
    )
}

// Whether a put is found behind a flush that fails, and behind one more.
fn flushes_again<R: Wait>(
    rt: &R,
    alloc: Global,
    db: &Database<Plain>,
    pass: &mut Pass<Plain>,
    store: &mut GateStore<'_>,
    laws: &Laws<NoExtractor>,
) -> bool
    requires table { pass.old.table ≡ db.now }
    requires laws { ArePlain laws.now.options laws.now.segments laws.now.policies.items }
    ensures same { (pass.new.table ≡ pass.old.table) × (pass.new.parts ≡ pass.old.parts) }
{
    put(rt, alloc, db, pass, store, laws, (b"a", b"1")) == Some(1)
        && is_refused(rt, db, pass, store, laws)
        && sees(rt, db, pass, store, laws, 1, (b"a", b"1", 1))
        && is_flushed(rt, db, pass, store, laws, 1)
        && sees(rt, db, pass, store, laws, 1, (b"a", b"1", 1))
}

// Whether a store has the first table and no other object.
fn has_one_table(alloc: Global, store: &mut GateStore<'_>) -> bool {
    let Some(paths) = store.list(alloc).ok() else {
        return false;
    };
    paths.len() == 1 && matches!(store.len(alloc, FIRST), Ok(Some(_)))
}

fn is_stored_once<R: Wait>(rt: &R, alloc: Global) -> bool {
    let laws = Plain::laws(alloc);
    let Some((db, mut pass)) = opened(alloc, &laws) else {
        return false;
    };
    let gates = Gates::new();
    let mut store = GateStore::new(alloc, &gates, failing(alloc, 1));
    flushes_again(rt, alloc, &db, &mut pass, &mut store, &laws) && has_one_table(alloc, &mut store)
}

#[test]
fn a_flush_that_failed_is_tried_again(rt: HostRuntime) {
    assert!(rt; is_stored_once(&rt, rt.alloc()));
}

// What a flush answers, and what another thread does once it waits.
fn flush_and_write<R: Threads + Wait + Sync>(
    rt: &R,
    alloc: Global,
    db: &Database<Plain>,
    passes: (Pass<Plain>, Pass<Plain>),
    store: &mut GateStore<'_>,
    gates: &Gates,
    laws: &Laws<NoExtractor>,
) -> (Ended<bool>, Ended<bool>)
    requires table { (passes.0.table ≡ db.now) × (passes.1.table ≡ db.now) }
    requires laws { ArePlain laws.now.options laws.now.segments laws.now.policies.items }
    ensures same { (result.0.0.table ≡ db.now) × (result.1.0.table ≡ db.now) }
{
    let (mut pass, mut other) = passes;
    thread::join(
        rt,
        move || -> Ended<bool>
            requires { (pass.table ≡ db.now) × ArePlain laws.now.options laws.now.segments laws.now.policies.items }
            ensures { result.0.table ≡ db.entry.now }
        {
            let flushed = is_flushed(rt, db, &mut pass, store, laws, 1);
            (pass, flushed)
        },
        move || -> Ended<bool>
            requires { (other.table ≡ db.now) × ArePlain laws.now.options laws.now.segments laws.now.policies.items }
            ensures { result.0.table ≡ db.entry.now }
        {
            let written = writes_meanwhile(rt, alloc, db, &mut other, gates, laws);
            (other, written)
        },
    )
}

// Whether a flush goes on while another thread's commit is written, and both rows are found then.
fn flushes_beside<R: Threads + Wait + Sync>(
    rt: &R,
    alloc: Global,
    db: &Database<Plain>,
    pass: Pass<Plain>,
    store: &mut GateStore<'_>,
    gates: &Gates,
    laws: &Laws<NoExtractor>,
) -> bool
    requires table { pass.table ≡ db.now }
    requires parts { 1 < pass.parts }
    requires laws { ArePlain laws.now.options laws.now.segments laws.now.policies.items }
{
    let mut pass = pass;
    let seq = put(rt, alloc, db, &mut pass, store, laws, (b"a", b"1"));
    store.waits(Waiting::Puts);
    let other = pass.split(db);
    let passes = (pass, other);
    let ((mut pass, flushed), (other, written)) = flush_and_write(
        rt, alloc, db, passes, store, gates, laws,
    );
    pass.join(db, other);
    seq == Some(1)
        && flushed
        && written
        && sees(rt, db, &mut pass, store, laws, 2, (b"a", b"1", 1))
        && sees(rt, db, &mut pass, store, laws, 2, (b"b", b"2", 2))
}

fn is_flushed_beside<R: Threads + Wait + Sync>(rt: &R, alloc: Global) -> bool {
    let laws = Plain::laws(alloc);
    let Some((db, pass)) = opened(alloc, &laws) else {
        return false;
    };
    let gates = Gates::new();
    let mut store = GateStore::new(alloc, &gates, Vec::new(alloc));
    flushes_beside(rt, alloc, &db, pass, &mut store, &gates, &laws)
}

#[test]
fn a_flush_stores_while_another_thread_commits(rt: HostRuntime) {
    assert!(rt; is_flushed_beside(&rt, rt.alloc()));
}

// Whether another commit is written while a flush stores, and a second flush, over a store of its own, stores it.
fn flushes_second<R: Wait>(
    rt: &R,
    alloc: Global,
    db: &Database<Plain>,
    pass: &mut Pass<Plain>,
    gates: &Gates,
    laws: &Laws<NoExtractor>,
) -> bool
    requires table { pass.old.table ≡ db.now }
    requires laws { ArePlain laws.now.options laws.now.segments laws.now.policies.items }
    ensures same { (pass.new.table ≡ pass.old.table) × (pass.new.parts ≡ pass.old.parts) }
{
    let mut store = GateStore::new(alloc, gates, Vec::new(alloc));
    writes_meanwhile(rt, alloc, db, pass, gates, laws)
        && is_flushed(rt, db, pass, &mut store, laws, 2)
}

// What two flushes answer, the second by another thread once the first waits.
fn flush_by_two<R: Threads + Wait + Sync>(
    rt: &R,
    alloc: Global,
    db: &Database<Plain>,
    passes: (Pass<Plain>, Pass<Plain>),
    store: &mut GateStore<'_>,
    gates: &Gates,
    laws: &Laws<NoExtractor>,
) -> (Ended<bool>, Ended<bool>)
    requires table { (passes.0.table ≡ db.now) × (passes.1.table ≡ db.now) }
    requires laws { ArePlain laws.now.options laws.now.segments laws.now.policies.items }
    ensures same { (result.0.0.table ≡ db.now) × (result.1.0.table ≡ db.now) }
{
    let (mut pass, mut other) = passes;
    thread::join(
        rt,
        move || -> Ended<bool>
            requires { (pass.table ≡ db.now) × ArePlain laws.now.options laws.now.segments laws.now.policies.items }
            ensures { result.0.table ≡ db.entry.now }
        {
            let first = is_flushed(rt, db, &mut pass, store, laws, 1);
            (pass, first)
        },
        move || -> Ended<bool>
            requires { (other.table ≡ db.now) × ArePlain laws.now.options laws.now.segments laws.now.policies.items }
            ensures { result.0.table ≡ db.entry.now }
        {
            let second = flushes_second(rt, alloc, db, &mut other, gates, laws);
            (other, second)
        },
    )
}

// Whether two flushes at once both answer.
fn both_flush<R: Threads + Wait + Sync>(
    rt: &R,
    alloc: Global,
    db: &Database<Plain>,
    pass: Pass<Plain>,
    store: &mut GateStore<'_>,
    gates: &Gates,
    laws: &Laws<NoExtractor>,
) -> bool
    requires table { pass.table ≡ db.now }
    requires parts { 1 < pass.parts }
    requires laws { ArePlain laws.now.options laws.now.segments laws.now.policies.items }
{
    let mut pass = pass;
    let seq = put(rt, alloc, db, &mut pass, store, laws, (b"a", b"1"));
    store.waits(Waiting::Puts);
    let other = pass.split(db);
    let passes = (pass, other);
    let ((mut pass, first), (other, second)) = flush_by_two(
        rt, alloc, db, passes, store, gates, laws,
    );
    pass.join(db, other);
    seq == Some(1) && first && second
}

fn are_both_flushed<R: Threads + Wait + Sync>(rt: &R, alloc: Global) -> bool {
    let laws = Plain::laws(alloc);
    let Some((db, pass)) = opened(alloc, &laws) else {
        return false;
    };
    let gates = Gates::new();
    let mut store = GateStore::new(alloc, &gates, Vec::new(alloc));
    both_flush(rt, alloc, &db, pass, &mut store, &gates, &laws)
}

#[test]
fn two_flushes_at_once_both_answer(rt: HostRuntime) {
    assert!(rt; are_both_flushed(&rt, rt.alloc()));
}

// Whether a thread waits until a put is stored, which another thread does.
fn waits<R: Wait>(
    rt: &R,
    db: &Database<Plain>,
    pass: &mut Pass<Plain>,
    handle: &WriteHandle<Plain>,
) -> bool
    requires table { pass.old.table ≡ db.now }
    ensures same { (pass.new.table ≡ pass.old.table) × (pass.new.parts ≡ pass.old.parts) }
{
    handle.await_durable(rt, db, pass);
    handle.seqnum() == 1
}

// What a flush answers, and what another thread does that waits for it.
fn flush_and_wait<R: Threads + Wait + Sync>(
    rt: &R,
    db: &Database<Plain>,
    passes: (Pass<Plain>, Pass<Plain>),
    store: &mut GateStore<'_>,
    handle: &WriteHandle<Plain>,
    laws: &Laws<NoExtractor>,
) -> (Ended<bool>, Ended<bool>)
    requires table { (passes.0.table ≡ db.now) × (passes.1.table ≡ db.now) }
    requires laws { ArePlain laws.now.options laws.now.segments laws.now.policies.items }
    ensures same { (result.0.0.table ≡ db.now) × (result.1.0.table ≡ db.now) }
{
    let (mut pass, mut other) = passes;
    thread::join(
        rt,
        move || -> Ended<bool>
            requires { (pass.table ≡ db.now) × ArePlain laws.now.options laws.now.segments laws.now.policies.items }
            ensures { result.0.table ≡ db.entry.now }
        {
            let flushed = is_flushed(rt, db, &mut pass, store, laws, 1);
            (pass, flushed)
        },
        move || -> Ended<bool>
            requires { other.table ≡ db.now }
            ensures { result.0.table ≡ db.entry.now }
        {
            let waited = waits(rt, db, &mut other, handle);
            (other, waited)
        },
    )
}

// Whether a wait for a put returns beside another thread's flush.
fn waits_beside<R: Threads + Wait + Sync>(
    rt: &R,
    alloc: Global,
    db: &Database<Plain>,
    pass: Pass<Plain>,
    store: &mut GateStore<'_>,
    laws: &Laws<NoExtractor>,
) -> bool
    requires table { pass.table ≡ db.now }
    requires parts { 1 < pass.parts }
    requires laws { ArePlain laws.now.options laws.now.segments laws.now.policies.items }
{
    let mut pass = pass;
    let Some(handle) = write(rt, alloc, db, &mut pass, store, laws, (b"a", b"1")) else {
        return false;
    };
    let other = pass.split(db);
    let passes = (pass, other);
    let ((mut pass, flushed), (other, waited)) = flush_and_wait(
        rt, db, passes, store, &handle, laws,
    );
    pass.join(db, other);
    waited && flushed
}

fn is_awaited<R: Threads + Wait + Sync>(rt: &R, alloc: Global) -> bool {
    let laws = Plain::laws(alloc);
    let Some((db, pass)) = opened(alloc, &laws) else {
        return false;
    };
    let gates = Gates::new();
    let mut store = GateStore::new(alloc, &gates, Vec::new(alloc));
    waits_beside(rt, alloc, &db, pass, &mut store, &laws)
}

#[test]
fn a_wait_ends_behind_another_threads_flush(rt: HostRuntime) {
    assert!(rt; is_awaited(&rt, rt.alloc()));
}
