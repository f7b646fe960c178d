// Commits and gets through one pass, as a script of one thread has them.
ghost use Rattle.std.specs.Prelude.{◌≡◌};
ghost use Rattle.slate_shared.specs.Given.{ArePlain};

use crate::calls::{commit, gets, opened, put, seq_of};
use crate::gates::{GateStore, Gates};
use bytes::Bytes;
use slate_db::laws::Laws;
use slate_shared::{Database, DbTransaction, Pass, Plain};
use slate_txn::{Event, Journal};
use slate_types::{IsolationLevel, NoExtractor, SlateDBError};
use std::alloc::Global;
use std::sync::Wait;

// Whether a transaction finds nothing at a key before and behind a write there.
fn reads_at_its_start<R: Wait>(
    rt: &R,
    alloc: Global,
    db: &Database<Plain>,
    pass: &mut Pass<Plain>,
    store: &mut GateStore<'_>,
    laws: &Laws<NoExtractor>,
) -> bool
    requires table { pass.old.table ≡ db.now }
    requires laws { ArePlain laws.now.options laws.now.segments laws.now.policies.items }
    ensures same { (pass.new.table ≡ pass.old.table) × (pass.new.parts ≡ pass.old.parts) }
{
    let Some(mut txn) = pass.begin(rt, db, IsolationLevel::Snapshot).ok() else {
        return false;
    };
    let is_first = txn.seqnum() == 0;
    let before = gets(rt, db, &mut txn, store, laws, b"a", None);
    let seq = put(rt, alloc, db, pass, store, laws, (b"a", b"1"));
    let behind = gets(rt, db, &mut txn, store, laws, b"a", None);
    txn.rollback(rt, db, pass);
    is_first && before && seq == Some(1) && behind
}

fn is_read_at_its_start<R: Wait>(rt: &R, alloc: Global) -> bool {
    let laws = Plain::laws(alloc);
    let Some((db, mut pass)) = opened(alloc, &laws) else {
        return false;
    };
    let gates = Gates::new();
    let mut store = GateStore::new(alloc, &gates, Vec::new(alloc));
    reads_at_its_start(rt, alloc, &db, &mut pass, &mut store, &laws)
}

#[test]
fn a_transaction_reads_at_its_start(rt: HostRuntime) {
    assert!(rt; is_read_at_its_start(&rt, rt.alloc()));
}

/// Whether a commit was refused for a conflict with the commit of this sequence.
pub fn is_conflict<T: Drop>(ended: Result<T, SlateDBError>, seq: u64) -> bool {
    match ended {
        Err(SlateDBError::TransactionConflict { seq: other }) => other == seq,
        _ => false,
    }
}

// Whether a serializable transaction that read a key conflicts with a write there.
fn conflicts<R: Wait>(
    rt: &R,
    alloc: Global,
    db: &Database<Plain>,
    pass: &mut Pass<Plain>,
    store: &mut GateStore<'_>,
    laws: &Laws<NoExtractor>,
) -> bool
    requires table { pass.old.table ≡ db.now }
    requires laws { ArePlain laws.now.options laws.now.segments laws.now.policies.items }
    ensures same { (pass.new.table ≡ pass.old.table) × (pass.new.parts ≡ pass.old.parts) }
{
    let level = IsolationLevel::SerializableSnapshot;
    let Some(mut txn) = pass.begin(rt, db, level).ok() else {
        return false;
    };
    let is_none = gets(rt, db, &mut txn, store, laws, b"a", None);
    let seq = put(rt, alloc, db, pass, store, laws, (b"a", b"1"));
    let is_put = txn.put(b"b", b"2").is_ok();
    let ended = commit(rt, db, pass, txn, store, laws);
    is_none && seq == Some(1) && is_put && is_conflict(ended, 1)
}

fn is_read_conflict<R: Wait>(rt: &R, alloc: Global) -> bool {
    let laws = Plain::laws(alloc);
    let Some((db, mut pass)) = opened(alloc, &laws) else {
        return false;
    };
    let gates = Gates::new();
    let mut store = GateStore::new(alloc, &gates, Vec::new(alloc));
    conflicts(rt, alloc, &db, &mut pass, &mut store, &laws)
}

#[test]
fn a_read_conflicts_with_a_write(rt: HostRuntime) {
    assert!(rt; is_read_conflict(&rt, rt.alloc()));
}

// Whether a transaction takes it that it doesn't track the key a.
fn is_unmarked(txn: &mut DbTransaction<Plain>) -> bool
    ensures same { txn.new.table ≡ txn.old.table }
{
    match txn.unmark_write(&[Bytes::from_static(b"a")]) {
        Ok(()) => true,
        Err(_) => false,
    }
}

// The sequence of a commit that puts a value at a key which it doesn't track.
fn put_untracked<R: Wait>(
    rt: &R,
    db: &Database<Plain>,
    pass: &mut Pass<Plain>,
    store: &mut GateStore<'_>,
    laws: &Laws<NoExtractor>,
) -> Option<u64>
    requires table { pass.old.table ≡ db.now }
    requires laws { ArePlain laws.now.options laws.now.segments laws.now.policies.items }
    ensures same { (pass.new.table ≡ pass.old.table) × (pass.new.parts ≡ pass.old.parts) }
{
    let mut txn = pass.begin(rt, db, IsolationLevel::Snapshot).ok()?;
    let is_unmarked = is_unmarked(&mut txn);
    let is_put = txn.put(b"a", b"1").is_ok();
    let seq = seq_of(commit(rt, db, pass, txn, store, laws));
    if is_unmarked && is_put { seq } else { None }
}

// Whether a serializable transaction that read the key doesn't conflict with it.
fn passes<R: Wait>(
    rt: &R,
    db: &Database<Plain>,
    pass: &mut Pass<Plain>,
    store: &mut GateStore<'_>,
    laws: &Laws<NoExtractor>,
) -> bool
    requires table { pass.old.table ≡ db.now }
    requires laws { ArePlain laws.now.options laws.now.segments laws.now.policies.items }
    ensures same { (pass.new.table ≡ pass.old.table) × (pass.new.parts ≡ pass.old.parts) }
{
    let level = IsolationLevel::SerializableSnapshot;
    let Some(mut txn) = pass.begin(rt, db, level).ok() else {
        return false;
    };
    let is_none = gets(rt, db, &mut txn, store, laws, b"a", None);
    let untracked = put_untracked(rt, db, pass, store, laws);
    let is_put = txn.put(b"b", b"2").is_ok();
    let seq = seq_of(commit(rt, db, pass, txn, store, laws));
    is_none && untracked == Some(1) && is_put && seq == Some(2)
}

// Whether an event is a commit of this sequence at 0 that tracks these keys.
fn is_commit(event: &Event, at: u64, keys: &[&[u8]]) -> bool {
    match event {
        Event::Commit {
            seq,
            now,
            tracked,
            ..
        } => *seq == Some(at) && *now == 0 && are_keys(tracked.as_slice(), keys),
        _ => false,
    }
}

fn are_keys(keys: &[Bytes], others: &[&[u8]]) -> bool {
    if keys.len() != others.len() {
        return false;
    }
    for (key, other) in keys.iter().zip(others.iter()) {
        if key.as_slice() != *other {
            return false;
        }
    }
    true
}

// Whether two transactions began, and a commit that tracks nothing and one that tracks a key came behind.
fn are_events(events: &[Event]) -> bool {
    match events {
        [Event::Begin { .. }, Event::Begin { .. }, first, second] => {
            is_commit(first, 1, &[]) && is_commit(second, 2, &[b"b"])
        }
        _ => false,
    }
}

fn is_untracked<R: Wait>(rt: &R, alloc: Global) -> bool {
    let laws = Plain::laws(alloc);
    let Some((db, mut pass)) = opened(alloc, &laws) else {
        return false;
    };
    let gates = Gates::new();
    let mut store = GateStore::new(alloc, &gates, Vec::new(alloc));
    passes(rt, &db, &mut pass, &mut store, &laws) && is_journal(pass.journal(rt, &db))
}

fn is_journal(journal: Result<Journal, SlateDBError>) -> bool {
    match journal {
        Ok(journal) => are_events(journal.as_slice()),
        Err(_) => false,
    }
}

#[test]
fn an_untracked_write_conflicts_with_no_read(rt: HostRuntime) {
    assert!(rt; is_untracked(&rt, rt.alloc()));
}
