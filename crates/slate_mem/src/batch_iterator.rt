//! An iterator over the rows that a batch's operations make.
ghost use Rattle.std.specs.Prelude.{◌≡◌, ℕ, List, false, ◌++◌, map, reverse, IfOk, OnOk, IsOkUnless};
ghost use Rattle.slate_types.specs.declared.error.SlateDBError.{SlateDBError};
ghost use Rattle.slate_types.specs.Iteration.{IsInOrder};
ghost use Rattle.slate_types.specs.RowTurns.{AreInTurn, row_before};
ghost use Rattle.slate_types.specs.Rows.{of_key};
ghost use Rattle.slate_mem.specs.BatchRows.{batch_rows, stamped, newest_rows, rows_of_lone};
ghost use Rattle.std.specs.List.Sorted.{IsStrictlySortedBy};
ghost use Rattle.std.specs.Map.{keys_of};
ghost use Rattle.std.specs.BTreeMap.Range.{entries_between};
ghost use Rattle.slate_types.specs.Keys.{key_cmp, is_refused};

use crate::WriteOp;
use crate::batch::WriteBatch;
use crate::keyed_ops::KeyedOps;
use crate::mem_table::ordered;
use bytes::Bytes;
use slate_types::{
    BytesRange, IterationOrder, Outside, RowEntry, RowEntryIterator, RowsIterator, SlateDBError,
};
use smallvec::SmallVec;
use std::alloc::{AllocError, Global};
use std::collections::BTreeMap;
use std::collections::btree_map::Range;
use std::marker::Model;

/// An iterator over rows of a batch, which it owns.
#[derive(Drop)]
pub struct WriteBatchIterator {
    rows: RowsIterator,
}

impl Model for WriteBatchIterator {
    ghost use Rattle.slate_types.specs.Iteration.{RowList};

    ghost Value = { RowList };

    ghost view = { λ it. it.rows };
}

impl WriteBatchIterator {
    /// One row for each operation that the batch keeps of a key in the range: keys in the order, and newest first within a
    /// key in both orders. With a moment a row is the operation's in the commit `seq` of that moment, and without one it has
    /// no stamps. `default_ttl_millis` is the database's time to live. The rows share keys and values. The one error is
    /// `OutOfMemory`.
    pub fn new(
        alloc: Global,
        batch: &WriteBatch,
        range: &BytesRange,
        order: IterationOrder,
        seq: u64,
        now: Option<i64>,
        default_ttl_millis: Option<u64>,
    ) -> Result<WriteBatchIterator, SlateDBError>
        ensures rows { IfOk result (λ it. (k : List ℕ) → of_key k it.rows ≡ batch_rows range.now seq default_ttl_millis now batch.now.ops k) }
        ensures in_order { IfOk result (λ it. IsInOrder order it.rows) }
        ensures turn { IfOk result (λ it. AreInTurn (row_before order) it.rows) }
        ensures order { IfOk result (λ it. it.order ≡ order) }
        ensures cause { IsOkUnless result SlateDBError.OutOfMemory }
    {
        let stamps = Stamps {
            seq,
            create_ts: now,
            default_ttl_millis,
        };
        let rows = rows_in(alloc, batch, range, order, &stamps)?;
        Ok(WriteBatchIterator {
            rows: RowsIterator::new(rows, order),
        })
    }
}

/// What an operation's row has beside its key and value.
#[derive(Clone, Copy)]
pub(crate) struct Stamps {
    pub(crate) seq: u64,
    pub(crate) create_ts: Option<i64>,
    pub(crate) default_ttl_millis: Option<u64>,
}

impl Stamps {
    /// The row of an operation, without stamps where there is no creation.
    fn row(&self, key: &Bytes, op: &WriteOp) -> Result<RowEntry, SlateDBError>
        ensures row { IfOk result (λ row. row ≡ stamped self.now key.now op.now) }
        ensures cause { IsOkUnless result SlateDBError.OutOfMemory }
    {
        match self.create_ts {
            Some(now) => op.to_row(key, self.seq, now, self.default_ttl_millis),
            None => Ok(RowEntry {
                create_ts: None,
                expire_ts: None,
                ..op.to_row(key, self.seq, 0, None)?
            }),
        }
    }
}

/// The rows of the batch whose keys are in the range, in the order.
fn rows_in(
    alloc: Global,
    batch: &WriteBatch,
    range: &BytesRange,
    order: IterationOrder,
    stamps: &Stamps,
) -> Result<Vec<RowEntry>, SlateDBError>
    ensures rows { IfOk result (λ rows. (k : List ℕ) → of_key k rows.items ≡ batch_rows range.now stamps.now.seq stamps.now.default_ttl_millis stamps.now.create_ts batch.now.ops k) }
    ensures in_order { IfOk result (λ rows. IsInOrder order rows.items) }
    ensures cause { IsOkUnless result SlateDBError.OutOfMemory }
{
    if range.leaves_none() {
        return Ok(Vec::new(alloc));
    }
    match batch.entries() {
        KeyedOps::Lone(key, op) => lone_rows(alloc, key, op, range, stamps),
        KeyedOps::Map(ops) => map_rows(alloc, ops, range, order, stamps),
    }
}

/// The row of a lone operation, where its key is in the range.
fn lone_rows(
    alloc: Global,
    key: &Bytes,
    op: &WriteOp,
    range: &BytesRange,
    stamps: &Stamps,
) -> Result<Vec<RowEntry>, SlateDBError>
    ensures rows { IfOk result (λ rows. rows.items ≡ rows_of_lone range.now stamps.now key.now op.now) }
    ensures cause { IsOkUnless result SlateDBError.OutOfMemory }
{
    let mut rows = Vec::new(alloc);
    if range.contains(key.as_slice()) {
        rows.push(stamps.row(key, op)?)?;
    }
    Ok(rows)
}

/// The rows of a map's operations whose keys are in the range, in the order.
fn map_rows(
    alloc: Global,
    ops: &BTreeMap<Bytes, SmallVec<WriteOp, 1>>,
    range: &BytesRange,
    order: IterationOrder,
    stamps: &Stamps,
) -> Result<Vec<RowEntry>, SlateDBError>
    requires forward { is_refused range.now.start range.now.end ≡ false }
    requires rising { IsStrictlySortedBy key_cmp (keys_of ops.now.entries) }
    ensures rows { IfOk result (λ rows. (k : List ℕ) → of_key k rows.items
        ≡ of_key k (newest_rows stamps.now (entries_between key_cmp range.now.start range.now.end ops.now.entries))) }
    ensures in_order { IfOk result (λ rows. IsInOrder order rows.items) }
    ensures cause { IsOkUnless result SlateDBError.OutOfMemory }
{
    let BytesRange { start, end } = copied(range)?;
    let rows = rising_rows(alloc, ops.range((start, end)), stamps)?;
    Ok(ordered(rows, order)?)
}

/// An equal range, which shares the keys.
fn copied(range: &BytesRange) -> Result<BytesRange, AllocError>
    ensures copy { IfOk result (λ copy. copy ≡ range.now) }
{
    range.clone()
}

/// The rows of entries, keys upwards, and newest first within a key.
fn rising_rows(
    alloc: Global,
    entries: Range<'_, Bytes, SmallVec<WriteOp, 1>>,
    stamps: &Stamps,
) -> Result<Vec<RowEntry>, SlateDBError>
    ensures rows { IfOk result (λ rows. rows.items ≡ newest_rows stamps.now entries.entry) }
    ensures cause { IsOkUnless result SlateDBError.OutOfMemory }
{
    let mut rows = Vec::new(alloc);
    for (key, ops) in entries {
        add_rows(&mut rows, key, ops.as_slice(), stamps)?;
    }
    Ok(rows)
}

/// Adds the rows of a key's operations, newest first.
pub(crate) fn add_rows(
    rows: &mut Vec<RowEntry>,
    key: &Bytes,
    ops: &[WriteOp],
    stamps: &Stamps,
) -> Result<(), SlateDBError>
    ensures rows { OnOk result (rows.new.items ≡ rows.old.items ++ map (stamped stamps.now key.now) (reverse ops.now)) }
    ensures cause { IsOkUnless result SlateDBError.OutOfMemory }
{
    for op in ops.iter().rev() {
        rows.push(stamps.row(key, op)?)?;
    }
    Ok(())
}

impl<E: Outside> RowEntryIterator<E> for WriteBatchIterator {
    ghost use Rattle.std.specs.Prelude.{length};
    ghost use Rattle.slate_types.specs.Iteration.{drop_before, TakesRow};

    ghost rest = { λ it _. it.rows };

    ghost sound = { λ it _. IsInOrder it.order it.rows };

    ghost order = { λ it. it.order };

    ghost bound = { λ it. length it.rows };

    ghost refuses = { λ _ _ _ _ _. ⊥ };

    ghost begins = { λ before _ _ after. after ≡ before };

    ghost takes = { λ before _ _ answer after. TakesRow before.rows answer after.rows };

    ghost seeks = { λ before _ _ key after. after.rows ≡ drop_before before.order key before.rows };

    ghost stays = { λ _ _ _ _ _ _. ⊥ };

    ghost within = { λ _ _. Unit {0} };

    ghost unbegun = { λ _. ⊥ };

    ghost rising = { λ _ _ h. h };

    ghost more = { λ _ _ _ _ _ _ h. h };

    ghost whole = { λ _ _ _ _ _ _ _ h _. h };

    fn iteration_order(&self) -> IterationOrder {
        RowEntryIterator::<E>::iteration_order(&self.rows)
    }

    fn init(&mut self, alloc: Global, env: &mut E) -> Result<(), SlateDBError> {
        self.rows.init(alloc, env)
    }

    fn next(&mut self, alloc: Global, env: &mut E) -> Result<Option<RowEntry>, SlateDBError> {
        self.rows.next(alloc, env)
    }

    fn seek(&mut self, alloc: Global, key: &[u8], env: &mut E) -> Result<(), SlateDBError> {
        self.rows.seek(alloc, key, env)
    }
}
