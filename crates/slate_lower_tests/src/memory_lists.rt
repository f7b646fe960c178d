// A sorted list of rows and a table of rows in memory have the same contract, and answer the same.
ghost use Rattle.std.specs.Prelude.{◌≡◌, ◌++◌, List, ℕ, filter, length, OnOk, OnErr, IfOk, IsOkUnless};
ghost use Rattle.slate_types.specs.declared.error.SlateDBError.{SlateDBError};
ghost use Rattle.slate_types.specs.Iteration.{IsInOrder};
ghost use Rattle.slate_types.specs.Keys.{key_cmp};
ghost use Rattle.slate_types.specs.Rows.{sequenced, sequenced_cmp, of_key};
ghost use Rattle.slate_mem.specs.Table.{no_rows, put_row, ranged, newest};

use crate::listing::{Row, are_same_rows, one, row, walked};
use bytes::Bytes;
use slate_mem::MemTable;
use slate_types::{
    BytesRange, IterationOrder, RowEntry, RowsIterator, SlateDBError, ValueDeletable,
};
use std::alloc::{AllocError, Global};
use std::cmp::Ordering;
use std::collections::BTreeSet;
use std::marker::Model;
use std::mem;
use std::ops::Bound;

/// Rows in one list, by key upwards, and by sequence downwards within a key. It records no prefixes.
#[derive(Drop)]
pub struct SortedRows {
    alloc: Global,
    rows: Vec<RowEntry>,
}

impl Model for SortedRows {
    ghost use Rattle.std.specs.Prelude.{[]};
    ghost use Rattle.slate_mem.specs.Table.{MemTableModel};
    ghost use Rattle.slate_lower_tests.specs.SortedRows.{Rises};

    ghost Value = { MemTableModel };

    ghost view = { λ l. record { rows = l.rows.items; segments = [] } };

    ghost invariant = { λ l. Rises l.rows.items };
}

impl SortedRows {
    fn new(alloc: Global) -> SortedRows
        ensures { result ≡ no_rows }
    {
        SortedRows {
            alloc,
            rows: Vec::new(alloc),
        }
    }

    /// Puts a row, in place of one of the same key and sequence.
    fn put(&mut self, row: RowEntry) -> Result<(), SlateDBError>
        ensures rows { OnOk result (self.new.rows ≡ put_row self.old.rows row) }
        ensures same { OnErr result (self.new ≡ self.old) }
        ensures cause { IsOkUnless result SlateDBError.OutOfMemory }
    {
        put_in_place(&mut self.rows, row)?;
        Ok(())
    }

    /// The rows of the key with sequences of at most `max_seq`, to the first that is no merge.
    fn rows_of_key(&self, key: &Bytes, max_seq: u64) -> Result<Vec<RowEntry>, SlateDBError>
        ensures rows { IfOk result (λ rows. rows.items ≡ newest key.now max_seq self.now.rows) }
        ensures cause { IsOkUnless result SlateDBError.OutOfMemory }
    {
        newest_in(self.alloc, self.rows.as_slice(), key, max_seq).map_err(SlateDBError::from)
    }

    /// The rows whose keys are in the range, keys in the order.
    fn range(&self, range: &BytesRange, order: IterationOrder) -> Result<RowsIterator, SlateDBError>
        ensures rows { IfOk result (λ it. (k : List ℕ) → of_key k it.rows ≡ of_key k (ranged range.now self.now.rows)) }
        ensures in_order { IfOk result (λ it. IsInOrder order it.rows) }
        ensures order { IfOk result (λ it. it.order ≡ order) }
        ensures cause { IsOkUnless result SlateDBError.OutOfMemory }
    {
        let rows = rows_in(self.alloc, self.rows.as_slice(), range)?;
        let rows = ordered(rows, order)?;
        Ok(RowsIterator::new(rows, order))
    }
}

fn place_cmp(a: &RowEntry, b: &RowEntry) -> Ordering
    ensures { result ≡ sequenced_cmp (sequenced a.now) (sequenced b.now) }
{
    a.key.cmp(&b.key).then(b.seq.cmp(&a.seq))
}

// Puts a row before the first that it comes before, or over its like.
#[tactic(auto, using(crate::proofs::SortedRowsLaws::put_at_equal))]
fn put_in_place(rows: &mut Vec<RowEntry>, row: RowEntry) -> Result<(), AllocError>
    ensures put { OnOk result (rows.new.items ≡ put_row rows.old.items row) }
    ensures same { OnErr result (rows.new.items ≡ rows.old.items) }
{
    let mut at = 0;
    while at < rows.len() {
        match place_cmp(&row, &rows[at]) {
            Ordering::Less => break,
            Ordering::Equal => {
                drop(mem::replace(&mut rows[at], row));
                return Ok(());
            }
            Ordering::Greater => at += 1,
        }
    }
    rows.insert(at, row)?;
    Ok(())
}

fn newest_in(
    alloc: Global,
    rows: &[RowEntry],
    key: &Bytes,
    max_seq: u64,
) -> Result<Vec<RowEntry>, AllocError>
    ensures { IfOk result (λ found. found.items ≡ newest key.now max_seq rows.now) }
{
    let mut found = Vec::new(alloc);
    for row in rows {
        if row.key == *key && row.seq <= max_seq {
            found.push(row.clone()?)?;
            if !matches!(row.value, ValueDeletable::Merge(_)) {
                return Ok(found);
            }
        }
    }
    Ok(found)
}

fn rows_in(
    alloc: Global,
    rows: &[RowEntry],
    range: &BytesRange,
) -> Result<Vec<RowEntry>, AllocError>
    ensures { IfOk result (λ found. found.items ≡ ranged range.now rows.now) }
{
    let mut found = Vec::new(alloc);
    for row in rows {
        if range.contains(row.key.as_slice()) {
            found.push(row.clone()?)?;
        }
    }
    Ok(found)
}

// Rows whose keys ascend, in the order.
fn ordered(mut rows: Vec<RowEntry>, order: IterationOrder) -> Result<Vec<RowEntry>, AllocError>
    requires { IsInOrder IterationOrder.Ascending rows.items }
    ensures keys { IfOk result (λ all. (k : List ℕ) → of_key k all.items ≡ of_key k rows.items) }
    ensures in_order { IfOk result (λ all. IsInOrder order all.items) }
{
    match order {
        IterationOrder::Ascending => Ok(rows),
        IterationOrder::Descending => {
            fall(&mut rows)?;
            Ok(rows)
        }
    }
}

// Sorts rows by key downwards. Those of a key stay in their order.
fn fall(rows: &mut Vec<RowEntry>) -> Result<(), AllocError>
    ensures keys { OnOk result ((k : List ℕ) → of_key k rows.new.items ≡ of_key k rows.old.items) }
    ensures in_order { OnOk result (IsInOrder IterationOrder.Descending rows.new.items) }
{
    rows.sort_by(
        |a, b| -> Ordering
            ensures { result ≡ key_cmp b.now.key a.now.key }
        { b.key.cmp(&a.key) },
    )?;
    Ok(())
}

// The rows that are put in turn. The last writes over one.
const PUTS: &[Row] = &[
    (b"l", 'v', b"1", 1, Some(40), None),
    (b"a", 'v', b"", 1, Some(40), None),
    (b"k", 'v', b"2", 2, Some(40), None),
    (b"l", 'd', b"", 2, Some(40), None),
    (b"k", 'm', b"3", 3, Some(40), None),
    (b"k", 'm', b"5", 5, Some(40), None),
    (b"k", 'm', b"4", 4, Some(40), None),
    (b"m", 'v', b"5", 5, Some(40), None),
    (b"k", 'v', b"again", 4, Some(40), None),
];

/// Puts the rows in a table.
pub fn put_in_table(alloc: Global, table: &mut MemTable) -> bool {
    for put in PUTS {
        let rows = one(alloc, row(put));
        if table.put_all(rows, BTreeSet::new(alloc)).ok().is_none() {
            return false;
        }
    }
    true
}

fn put_in_list(list: &mut SortedRows) -> bool {
    for put in PUTS {
        if list.put(row(put)).ok().is_none() {
            return false;
        }
    }
    true
}

// A key, and up to which sequence its rows are read.
type Read = (&'static [u8], u64);

const READS: &[Read] = &[
    (b"a", 0),
    (b"a", 5),
    (b"k", 2),
    (b"k", 3),
    (b"k", u64::MAX),
    (b"l", 1),
    (b"l", 2),
    (b"n", 5),
];

fn is_same_read(alloc: Global, table: &MemTable, list: &SortedRows, read: &Read) -> bool {
    let key = Bytes::from_static(read.0);
    let rows = table.rows_of_key(alloc, &key, read.1).ok();
    let listed = list.rows_of_key(&key, read.1).ok();
    drop(key);
    are_same_rows(rows, listed)
}

// Where a range begins and ends, and the order of a walk.
type Walk = (Bound<&'static [u8]>, Bound<&'static [u8]>, IterationOrder);

const WALKS: &[Walk] = &[
    (
        Bound::Unbounded,
        Bound::Unbounded,
        IterationOrder::Ascending,
    ),
    (
        Bound::Unbounded,
        Bound::Unbounded,
        IterationOrder::Descending,
    ),
    (
        Bound::Included(b"k"),
        Bound::Included(b"l"),
        IterationOrder::Ascending,
    ),
    (
        Bound::Excluded(b"a"),
        Bound::Excluded(b"l"),
        IterationOrder::Descending,
    ),
    (
        Bound::Excluded(b"k"),
        Bound::Unbounded,
        IterationOrder::Ascending,
    ),
];

fn is_same_walk(alloc: Global, table: &MemTable, list: &SortedRows, walk: &Walk) -> bool {
    let Some(range) = BytesRange::from_slice(alloc, walk.0, walk.1).ok() else {
        return false;
    };
    let rows = walked(alloc, table.range(alloc, &range, walk.2), None);
    let listed = walked(alloc, list.range(&range, walk.2), None);
    drop(range);
    are_same_rows(rows, listed)
}

fn are_same(alloc: Global, table: &MemTable, list: &SortedRows) -> bool {
    for read in READS {
        if !is_same_read(alloc, table, list, read) {
            return false;
        }
    }
    for walk in WALKS {
        if !is_same_walk(alloc, table, list, walk) {
            return false;
        }
    }
    true
}

fn are_both_same(alloc: Global) -> bool {
    let mut table = MemTable::new(alloc);
    let mut list = SortedRows::new(alloc);
    let are_put = put_in_table(alloc, &mut table) && put_in_list(&mut list);
    let are_same = are_same(alloc, &table, &list);
    drop((table, list));
    are_put && are_same
}

#[test]
fn a_list_has_the_same_rows(rt: HostRuntime) {
    assert!(rt; are_both_same(rt.alloc()));
}
