// Batches and frozen rows in memory: calls that no run makes, and what they give.
use crate::listing::{Row, are_rows, are_same_rows, one, row, walked};
use crate::memory_lists::put_in_table;
use bytes::Bytes;
use slate_mem::{ImmutableMemtable, MemTable, WriteBatch, WriteBatchIterator};
use slate_types::{
    BytesRange, IterationOrder, NoExtractor, PutOptions, RowEntry, SlateDBError, Ttl,
    ValueDeletable,
};
use std::alloc::Global;
use std::collections::BTreeSet;
use std::ops::Bound;

// The rows at keys that begin with k, from k on, keys falling.
fn walked_range(alloc: Global, table: ImmutableMemtable) -> Option<Vec<RowEntry>> {
    let Some(range) = BytesRange::from_prefix(alloc, b"k").ok() else {
        drop(table);
        return None;
    };
    let rows = table.range(alloc, &range, IterationOrder::Descending);
    drop((range, table));
    walked(alloc, rows, Some(b"k"))
}

// Those of the table of the puts once what was put at 5 is taken back, and it is frozen.
fn frozen_rows(alloc: Global) -> Option<Vec<RowEntry>> {
    let mut table = MemTable::new(alloc);
    put_in_table(alloc, &mut table);
    table.take_back(5, &BTreeSet::new(alloc));
    let frozen = table.freeze().ok();
    drop(table);
    match frozen {
        Some(frozen) => walked_range(alloc, frozen),
        None => None,
    }
}

const FROZEN: &[Row] = &[
    (b"k", 'v', b"again", 4, Some(40), None),
    (b"k", 'm', b"3", 3, Some(40), None),
    (b"k", 'v', b"2", 2, Some(40), None),
];

#[test]
fn frozen_tables_stay(rt: HostRuntime) {
    assert!(rt; are_rows(rt.alloc(), frozen_rows(rt.alloc()), FROZEN));
}

// A table of k at 1 and at 2, which has recorded the prefixes a: and c:.
fn recorded(alloc: Global) -> Option<MemTable> {
    let mut segments = BTreeSet::new(alloc);
    let first = segments.insert(Bytes::from_static(b"a:")).ok();
    let second = segments.insert(Bytes::from_static(b"c:")).ok();
    let mut table = MemTable::new(alloc);
    let put = table.put_all(one(alloc, row(OLD)), segments).ok();
    let rows = one(alloc, row(NEW));
    let again = table.put_all(rows, BTreeSet::new(alloc)).ok();
    first.and(second).and(put).and(again).and(Some(table))
}

const OLD: &Row = &(b"k", 'v', b"1", 1, Some(40), None);

const NEW: &Row = &(b"k", 'v', b"2", 2, Some(40), None);

// What such a table answers for a prefix.
fn segment(alloc: Global, prefix: &'static [u8]) -> Result<bool, SlateDBError> {
    let Some(table) = recorded(alloc) else {
        return Err(SlateDBError::OutOfMemory);
    };
    let answer = table.ensure_valid_segment(&Bytes::from_static(prefix));
    drop(table);
    answer
}

// Whether the error names these two prefixes.
fn names(error: SlateDBError, first: &[u8], other: &[u8]) -> bool {
    match error {
        SlateDBError::InvalidSegmentPrefix { prefix, conflict } => {
            let is_named = prefix.as_slice() == first && conflict.as_slice() == other;
            drop(prefix);
            drop(conflict);
            is_named
        }
        _other => false,
    }
}

fn tells_segments_apart(alloc: Global) -> bool {
    let is_nested = match segment(alloc, b"a:b:") {
        Err(error) => names(error, b"a:b:", b"a:"),
        Ok(_is_recorded) => false,
    };
    let is_recorded = segment(alloc, b"a:").ok() == Some(true);
    is_nested && is_recorded && segment(alloc, b"b:").ok() == Some(false)
}

#[test]
fn prefixes_that_nest_are_refused(rt: HostRuntime) {
    assert!(rt; tells_segments_apart(rt.alloc()));
}

// The rows above 1 of such a table.
fn later_rows(alloc: Global) -> Option<Vec<RowEntry>> {
    let mut table = recorded(alloc)?;
    let frozen = table.freeze().ok();
    drop(table);
    let frozen = frozen?;
    let later = frozen.filter_after_seq(1, None::<&NoExtractor>).ok();
    drop(frozen);
    let later = later?;
    let order = IterationOrder::Ascending;
    let rows = later.range(alloc, &BytesRange::unbounded(), order);
    drop(later);
    walked(alloc, rows, None)
}

#[test]
fn later_rows_stay(rt: HostRuntime) {
    assert!(rt; are_rows(rt.alloc(), later_rows(rt.alloc()), &[*NEW]));
}

// Puts a row whose key is one byte.
fn put_numbered(alloc: Global, table: &mut MemTable, n: u8) -> Option<()> {
    let key = Bytes::copy_from_slice(alloc, &[n]).ok()?;
    let row = RowEntry {
        key,
        value: ValueDeletable::Tombstone,
        seq: 1,
        create_ts: None,
        expire_ts: None,
    };
    table.put_all(one(alloc, row), BTreeSet::new(alloc)).ok()
}

// A shared table of 70 rows, more than an iterator copies at once.
fn shared(alloc: Global) -> Option<ImmutableMemtable> {
    let mut table = MemTable::new(alloc);
    let mut put = Some(());
    for n in 0..70 {
        put = put.and(put_numbered(alloc, &mut table, n));
    }
    let frozen = table.freeze().ok();
    drop(table);
    let mut frozen = frozen?;
    let shared = frozen.share().ok();
    drop(frozen);
    put.and(shared)
}

// The rows of a walk over such a table, keys rising, behind a seek where there is a key.
fn walked_share(
    alloc: Global,
    table: &ImmutableMemtable,
    key: Option<&[u8]>,
) -> Option<Vec<RowEntry>> {
    let order = IterationOrder::Ascending;
    let rows = table.range(alloc, &BytesRange::unbounded(), order);
    walked(alloc, rows, key)
}

fn walks_all(alloc: Global) -> bool {
    let Some(table) = shared(alloc) else {
        return false;
    };
    let all = table.rows(alloc).ok();
    let walk = walked_share(alloc, &table, None);
    drop(table);
    are_same_rows(walk, all)
}

fn seeks_past_copies(alloc: Global) -> bool {
    let Some(table) = shared(alloc) else {
        return false;
    };
    let left = walked_share(alloc, &table, Some(&[66]));
    drop(table);
    let count = left.as_ref().map(Vec::len);
    drop(left);
    count == Some(4)
}

#[test]
fn shared_tables_are_walked(rt: HostRuntime) {
    assert!(rt; walks_all(rt.alloc()));
    assert!(rt; seeks_past_copies(rt.alloc()));
}

// Four writes to a batch.
fn fill(batch: &mut WriteBatch) -> Option<()> {
    let hour = PutOptions {
        ttl: Ttl::ExpireAfter(3600000),
    };
    let first = batch
        .put_bytes(Bytes::from_static(b"k"), Bytes::from_static(b"1"))
        .ok();
    let second = batch
        .put_bytes_with_options(Bytes::from_static(b"l"), Bytes::from_static(b"1"), &hour)
        .ok();
    let third = batch.put_with_options(b"k", b"2", &hour).ok();
    let fourth = batch.delete(b"c").ok();
    first.and(second).and(third).and(fourth)
}

fn copied(alloc: Global) -> Option<WriteBatch> {
    let mut batch = WriteBatch::new(alloc);
    let filled = fill(&mut batch);
    let copy = batch.try_clone().ok();
    drop(batch);
    filled.and(copy)
}

// What a batch gives from c on, keys falling.
fn walked_batch(alloc: Global, batch: &WriteBatch) -> Option<Vec<RowEntry>> {
    let range = BytesRange::from_slice(alloc, Bound::Included(b"c"), Bound::Excluded(b"l"));
    let Some(range) = range.ok() else { return None };
    let order = IterationOrder::Descending;
    let rows = WriteBatchIterator::new(alloc, batch, &range, order, 7, Some(40), None);
    drop(range);
    walked(alloc, rows, Some(b"k"))
}

fn has_three_keys(batch: &WriteBatch) -> bool {
    match batch.keys().ok() {
        Some(keys) => keys.len() == 3,
        None => false,
    }
}

const WRITTEN: &[Row] = &[
    (b"k", 'v', b"2", 7, Some(40), Some(3600040)),
    (b"c", 'd', b"", 7, Some(40), None),
];

// Whether a batch of three keys has these rows there.
fn is_batch_of(alloc: Global, rows: &[Row]) -> bool {
    let Some(batch) = copied(alloc) else {
        return false;
    };
    let walked = walked_batch(alloc, &batch);
    let has_keys = has_three_keys(&batch);
    drop(batch);
    are_rows(alloc, walked, rows) && has_keys
}

#[test]
fn batches_are_walked(rt: HostRuntime) {
    assert!(rt; is_batch_of(rt.alloc(), WRITTEN));
}
