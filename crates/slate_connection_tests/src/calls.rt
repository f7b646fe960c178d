// Each call of a connection and of a transaction of a closure, once.
ghost use Rattle.slate_connection.specs.Connected.{StaysIn};

use bytes::Bytes;
use slate_connection::{Connection, SharedStore, Transact, TransactOptions, Transaction};
use slate_mem::WriteBatch;
use slate_shared::{Database, Plain};
use slate_store::{MemoryStore, Store};
use slate_types::{PutOptions, ScanOptions, SlateDBError};
use std::alloc::Global;
use std::ops::RangeFull;
use std::sync::{Mutex, Wait};

// Whether a merge is refused for want of an operator.
fn is_refused(merged: &Result<(), SlateDBError>) -> bool {
    matches!(merged, Err(SlateDBError::MergeOperatorMissing))
}

// Two reads, an operation of each kind, and two scans. Returns whether they show what was put.
fn step<D: Transact>(txn: &mut Transaction<'_, D>) -> Result<bool, SlateDBError>
    ensures stays { StaysIn D.terms D.seen txn.old.db txn.new.db }
{
    let row = txn.get_row(b"a")?;
    let value = txn.get(b"a")?;
    txn.put(b"b", b"2")?;
    txn.put_with(b"c", b"3", &PutOptions::default())?;
    txn.delete(b"a")?;
    let is_value = value.as_ref().map(Bytes::as_slice) == Some(b"1".as_slice());
    let options = ScanOptions::default();
    let rows = txn.scan(&RangeFull, &options, 2)?;
    let named = txn.scan_prefix(b"d", &RangeFull, &options, u64::MAX)?;
    let is_missing = is_refused(&txn.merge(b"b", b"2"));
    Ok(row.is_some() && is_value && rows.len() == 2 && named.len() == 1 && is_missing)
}

fn calls<R: Wait, S: Store>(
    db: &mut Connection<'_, R, S>,
    alloc: Global,
) -> Result<bool, SlateDBError> {
    db.put(b"a", b"1")?;
    db.put_with(b"d", b"4", &PutOptions::default())?;
    let is_seen = db.transact(&TransactOptions::new(), |txn| step(txn))?;
    db.delete(b"d")?;
    let mut batch = WriteBatch::new(alloc);
    batch.put(b"e", b"5")?;
    db.write(batch, 7)?;
    db.flush()?;
    let gone = db.get(b"a")?;
    let row = db.get_row(b"e")?;
    let options = ScanOptions::default();
    let rows = db.scan(&RangeFull, &options, u64::MAX)?;
    let named = db.scan_prefix(b"e", &RangeFull, &options, u64::MAX)?;
    let is_scanned = rows.len() == 3 && named.len() == 1;
    let is_missing = is_refused(&db.merge(b"e", b"5"));
    Ok(is_seen && gone.is_none() && row.is_some() && is_scanned && is_missing)
}

// Whether each call answers as it should, by a connection that has taken in another one.
fn is_answered<R: Wait, S: Store>(
    rt: &R,
    alloc: Global,
    first: &mut S,
    second: &mut S,
) -> Result<bool, SlateDBError> {
    let laws = Plain::laws(alloc);
    let (db, pass) = Database::<Plain>::new(alloc, &laws.options)?;
    let mut clerk = Connection::new(rt, alloc, &db, pass, first);
    let other = clerk.split(second);
    clerk.join(other);
    let answered = calls(&mut clerk, alloc);
    let _pass = clerk.close();
    answered
}

// The same over a store in memory that both connections share.
fn is_answered_in_memory<R: Wait>(rt: &R, alloc: Global) -> bool {
    let objects = Mutex::new(MemoryStore::new(alloc, Vec::new(alloc)));
    let mut first = SharedStore::new(rt, &objects);
    let mut second = SharedStore::new(rt, &objects);
    matches!(is_answered(rt, alloc, &mut first, &mut second), Ok(true))
}

#[test]
fn calls_are_answered(rt: HostRuntime) {
    assert!(rt; is_answered_in_memory(&rt, rt.alloc()));
}
