// Operations, marks and scans of a transaction, and its commit at the moment of its options.
ghost use Rattle.std.specs.Prelude.{◌≡◌, ◌<◌, count_by, map, IfSome};
ghost use Rattle.slate_txn.specs.Step.{is_scan};
ghost use Rattle.slate_db.specs.Meaning.{segments_by};
ghost use Rattle.slate_db.specs.Scans.{id_of, number_of};
ghost use Rattle.slate_shared.specs.Given.{AreGiven};

use crate::calls::{Row, is_row};
use crate::parts::{Full, laws, opened, outer};
use bytes::Bytes;
use slate_db::laws::Laws;
use slate_db::scan::TxnIterator;
use slate_filter::{ColonExtractor, FilterPolicy};
use slate_mem::WriteBatch;
use slate_shared::{Database, DbTransaction, Parts, Pass, WriteHandle};
use slate_store::MemoryStore;
use slate_types::{IsolationLevel, MergeOptions, PrefixExtractor, SlateDBError, WriteOptions};
use std::alloc::Global;
use std::sync::Wait;

// The row of a transaction's own operations, and that of its commit.
const OWN: Row<'static> = (b"k:", b"abc", u64::MAX);

const COMMITTED: Row<'static> = (b"k:", b"abc", 1);

// Merges the operand b.
fn merges(txn: &mut DbTransaction<Full>, store: &mut MemoryStore) -> bool
    ensures same { txn.new.table ≡ txn.old.table }
{
    let mut env = outer(store);
    match txn.merge(b"k:", b"b", &mut env) {
        Ok(()) => true,
        Err(_) => false,
    }
}

// Merges the operand c, with options.
fn merges_by_options(txn: &mut DbTransaction<Full>, store: &mut MemoryStore) -> bool
    ensures same { txn.new.table ≡ txn.old.table }
{
    let mut env = outer(store);
    match txn.merge_with_options(b"k:", b"c", &MergeOptions::default(), &mut env) {
        Ok(()) => true,
        Err(_) => false,
    }
}

// Opens a scan of all keys.
fn scan<'a, R: Wait>(
    rt: &R,
    db: &Database<Full>,
    txn: &mut DbTransaction<Full>,
    store: &mut MemoryStore,
    laws: &'a Laws<ColonExtractor>,
) -> Option<TxnIterator<'a>>
    requires table { txn.old.table ≡ db.now }
    requires laws { AreGiven ⟦<Full as Parts>⟧.options ⟦<Full as Parts>⟧.segments
        ⟦<Full as Parts>⟧.policies laws.now.options
        (segments_by ⟦<ColonExtractor as PrefixExtractor>⟧.lengths laws.now.segments)
        (map (λ p. (⟦<dyn FilterPolicy as FilterPolicy>⟧ p.vtable).meaning p.value)
        laws.now.policies.items) }
    ensures same { txn.new.table ≡ txn.old.table }
    ensures within { IfSome result (λ it.
        (id_of it ≡ txn.new.id) × (number_of it < count_by is_scan txn.new.tx.transcript)) }
{
    let mut env = outer(store);
    txn.scan(rt, db, &(..), &mut env, laws).ok()
}

// Checks that the row is the next one of the scan.
fn is_next(
    txn: &mut DbTransaction<Full>,
    it: &mut TxnIterator<'_>,
    store: &mut MemoryStore,
    row: Row<'_>,
) -> bool
    requires id { id_of it.old ≡ txn.old.id }
    requires number { number_of it.old < count_by is_scan txn.old.tx.transcript }
    ensures same { txn.new.table ≡ txn.old.table }
{
    let mut env = outer(store);
    is_row(txn.next(it, &mut env), row)
}

// Checks that a scan finds the row first.
fn scans<R: Wait>(
    rt: &R,
    alloc: Global,
    db: &Database<Full>,
    txn: &mut DbTransaction<Full>,
    store: &mut MemoryStore,
) -> bool
    requires table { txn.old.table ≡ db.now }
    ensures same { txn.new.table ≡ txn.old.table }
{
    let Some(laws) = laws(alloc) else {
        return false;
    };
    let Some(mut it) = scan(rt, db, txn, store, &laws) else {
        return false;
    };
    let is_found = is_next(txn, &mut it, store, OWN);
    drop(it);
    is_found
}

// Commits at the moment 7.
fn commit<R: Wait>(
    rt: &R,
    alloc: Global,
    db: &Database<Full>,
    pass: &mut Pass<Full>,
    txn: DbTransaction<Full>,
    store: &mut MemoryStore,
) -> Result<Option<WriteHandle<Full>>, SlateDBError>
    requires table { (pass.old.table ≡ db.now) × (txn.table ≡ db.now) }
    ensures same { pass.new.table ≡ pass.old.table }
{
    let Some(laws) = laws(alloc) else {
        txn.rollback(rt, db, pass);
        return Err(SlateDBError::OutOfMemory);
    };
    let mut env = outer(store);
    txn.commit_with_options(rt, db, pass, &WriteOptions { now: 7 }, &mut env, &laws)
}

// Checks that a transaction that begins now gets the row.
fn sees<R: Wait>(
    rt: &R,
    alloc: Global,
    db: &Database<Full>,
    pass: &mut Pass<Full>,
    store: &mut MemoryStore,
) -> bool
    requires table { pass.old.table ≡ db.now }
{
    let Some(laws) = laws(alloc) else {
        return false;
    };
    let Some(mut txn) = pass.begin(rt, db, IsolationLevel::Snapshot).ok() else {
        return false;
    };
    let mut env = outer(store);
    let is_found = is_row(txn.get_key_value(rt, db, b"k:", &mut env, &laws), COMMITTED);
    txn.rollback(rt, db, pass);
    is_found
}

fn is_first(ended: Result<Option<WriteHandle<Full>>, SlateDBError>) -> bool {
    match ended.ok().flatten() {
        Some(handle) => handle.seqnum() == 1,
        None => false,
    }
}

fn operands_are_committed<R: Wait>(rt: &R, alloc: Global) -> bool {
    let Some((db, mut pass)) = opened(alloc) else {
        return false;
    };
    let Some(mut txn) = pass.begin(rt, &db, IsolationLevel::Snapshot).ok() else {
        return false;
    };
    let mut store = MemoryStore::new(alloc, Vec::new(alloc));
    let is_put = txn.put(b"k:", b"a").is_ok();
    let is_merged = merges(&mut txn, &mut store);
    let is_merged_again = merges_by_options(&mut txn, &mut store);
    let is_scanned = scans(rt, alloc, &db, &mut txn, &mut store);
    let ended = commit(rt, alloc, &db, &mut pass, txn, &mut store);
    let is_ended = is_first(ended) && sees(rt, alloc, &db, &mut pass, &mut store);
    is_put && is_merged && is_merged_again && is_scanned && is_ended
}

#[test]
fn operands_of_a_transaction_are_scanned_and_committed(rt: HostRuntime) {
    assert!(rt; operands_are_committed(&rt, rt.alloc()));
}

// Writes a value at the key a:.
fn writes<R: Wait>(
    rt: &R,
    alloc: Global,
    db: &Database<Full>,
    pass: &mut Pass<Full>,
    store: &mut MemoryStore,
) -> bool
    requires table { pass.old.table ≡ db.now }
    ensures same { pass.new.table ≡ pass.old.table }
{
    let Some(laws) = laws(alloc) else {
        return false;
    };
    let mut batch = WriteBatch::new(alloc);
    let is_put = batch.put(b"a:", b"1").is_ok();
    let mut env = outer(store);
    let written = pass.write(rt, db, batch, 0, &mut env, &laws);
    is_put && is_first(written)
}

fn is_conflict(ended: Result<Option<WriteHandle<Full>>, SlateDBError>) -> bool {
    matches!(ended, Err(SlateDBError::TransactionConflict { seq: 1 }))
}

// Checks that a transaction which marks a key conflicts with a write there.
fn mark_conflicts<R: Wait>(rt: &R, alloc: Global) -> bool {
    let Some((db, mut pass)) = opened(alloc) else {
        return false;
    };
    let Some(mut txn) = pass.begin(rt, &db, IsolationLevel::Snapshot).ok() else {
        return false;
    };
    let mut store = MemoryStore::new(alloc, Vec::new(alloc));
    let is_marked = txn.mark_read(&[Bytes::from_static(b"a:")]).is_ok();
    let is_written = writes(rt, alloc, &db, &mut pass, &mut store);
    let ended = commit(rt, alloc, &db, &mut pass, txn, &mut store);
    is_marked && is_written && is_conflict(ended)
}

#[test]
fn a_marked_key_conflicts_with_a_write(rt: HostRuntime) {
    assert!(rt; mark_conflicts(&rt, rt.alloc()));
}
