//! The row that rows of a key fold to, by at most one call of the operator.
ghost use Rattle.std.specs.Prelude.{◌≡◌, ◌⊎◌, ◌<◌, ◌≤◌, ◌++◌, [], ◌∷◌, ℕ, List, length, Some, map, reverse, option_to_list, OnOk, IfOk, IfErr, IsOkUnless};
ghost use Rattle.std.specs.List.{AllByRecursion};
ghost use Rattle.slate_types.specs.declared.error.SlateDBError.{SlateDBError};
ghost use Rattle.slate_types.specs.Fold.{value_of_taken, greatest_seq, latest_creation, earliest_expiry, fold_taken, fold_rows};
ghost use Rattle.slate_types.specs.Outside.{IsOperatorStill};
ghost use Rattle.slate_types.specs.Rows.{operand};
ghost use Rattle.slate_mem.specs.Table.{to_base};
ghost use Rattle.slate_mem.specs.Lookup.{IsCallback};

use crate::fold::earliest;
use crate::metadata::later;
use bytes::Bytes;
use slate_types::{MergeOperator, RowEntry, SlateDBError, ValueDeletable};
use std::alloc::Global;

/// Puts the row that rows of a key fold to behind others, and leaves none of the rows. They stand newest first, and none
/// stands behind one that is no operand. A row that stands alone goes there as it is.
pub(crate) fn add_folded<M: MergeOperator>(
    alloc: Global,
    folded: &mut Vec<RowEntry>,
    rows: &mut Vec<RowEntry>,
    operator: &mut M,
) -> Result<(), SlateDBError>
    ensures row { (k : List ℕ) → AllByRecursion (λ r. r.key ≡ k) rows.old.items → to_base rows.old.items ≡ rows.old.items → OnOk result (folded.new.items ≡ folded.old.items ++ option_to_list (fold_rows (M.combine operator.old k) (reverse rows.old.items))) }
    ensures none { OnOk result (rows.new.items ≡ []) }
    ensures same { M.combine operator.new ≡ M.combine operator.old }
    ensures later { M.faults operator.old ≤ M.faults operator.new }
    ensures still { IsOperatorStill (M.faults operator.old) (M.faults operator.new) result }
    ensures cause { IfErr result (λ e. (e ≡ SlateDBError.OutOfMemory) ⊎ IsCallback (M.faults operator.old) (M.faults operator.new) e) }
{
    let Some(oldest) = rows.pop() else {
        return Ok(());
    };
    rows.reverse();
    let row = fold_onto(alloc, oldest, rows, operator)?;
    rows.clear();
    folded.push(row)?;
    Ok(())
}

/// The row that a row and operands above it make, the oldest operand first.
fn fold_onto<M: MergeOperator>(
    alloc: Global,
    oldest: RowEntry,
    newer: &[RowEntry],
    operator: &mut M,
) -> Result<RowEntry, SlateDBError>
    ensures row { IfOk result (λ row. fold_taken (M.combine operator.old oldest.key) (oldest ∷ newer.now) ≡ Some row) }
    ensures same { M.combine operator.new ≡ M.combine operator.old }
    ensures later { M.faults operator.old ≤ M.faults operator.new }
    ensures still { IsOperatorStill (M.faults operator.old) (M.faults operator.new) result }
    ensures cause { IfErr result (λ e. (e ≡ SlateDBError.OutOfMemory) ⊎ IsCallback (M.faults operator.old) (M.faults operator.new) e) }
{
    if newer.is_empty() {
        return Ok(oldest);
    }
    let RowEntry {
        key,
        value,
        seq,
        create_ts,
        expire_ts,
    } = oldest;
    match fold_value(alloc, &key, value, newer, operator) {
        Ok(value) => Ok(RowEntry {
            key,
            value,
            seq: greatest_seq(seq, newer),
            create_ts: latest_creation(create_ts, newer),
            expire_ts: earliest_expiry(expire_ts, newer),
        }),
        Err(error) => {
            drop(key);
            Err(error)
        }
    }
}

/// The value that a row's value and operands above it make.
fn fold_value<M: MergeOperator>(
    alloc: Global,
    key: &Bytes,
    oldest: ValueDeletable,
    newer: &[RowEntry],
    operator: &mut M,
) -> Result<ValueDeletable, SlateDBError>
    requires { 0 < length newer.now }
    ensures value { IfOk result (λ value. value ≡ value_of_taken (M.combine operator.old key.now) oldest newer.now) }
    ensures same { M.combine operator.new ≡ M.combine operator.old }
    ensures later { M.faults operator.old ≤ M.faults operator.new }
    ensures still { IsOperatorStill (M.faults operator.old) (M.faults operator.new) result }
    ensures cause { IfErr result (λ e. (e ≡ SlateDBError.OutOfMemory) ⊎ IsCallback (M.faults operator.old) (M.faults operator.new) e) }
{
    let mut operands = Vec::with_capacity(alloc, newer.len())?;
    match oldest {
        ValueDeletable::Value(existing) => {
            push_operands(&mut operands, newer)?;
            let made = operator.merge_batch(alloc, key, Some(&existing), &operands)?;
            Ok(ValueDeletable::Value(made))
        }
        ValueDeletable::Merge(operand) => {
            operands.push(operand)?;
            push_operands(&mut operands, newer)?;
            let made = operator.merge_batch(alloc, key, None, &operands)?;
            Ok(ValueDeletable::Merge(made))
        }
        ValueDeletable::Tombstone => {
            push_operands(&mut operands, newer)?;
            let made = operator.merge_batch(alloc, key, None, &operands)?;
            Ok(ValueDeletable::Value(made))
        }
    }
}

/// Puts the operands of the rows behind others.
fn push_operands(operands: &mut Vec<Bytes>, rows: &[RowEntry]) -> Result<(), SlateDBError>
    ensures items { OnOk result (operands.new.items ≡ operands.old.items ++ map operand rows.now) }
    ensures cause { IsOkUnless result SlateDBError.OutOfMemory }
{
    for row in rows {
        operands.push(operand_of(row)?)?;
    }
    Ok(())
}

/// The bytes of a row, none of a tombstone.
fn operand_of(row: &RowEntry) -> Result<Bytes, SlateDBError>
    ensures value { IfOk result (λ made. made ≡ operand row.now) }
    ensures cause { IsOkUnless result SlateDBError.OutOfMemory }
{
    match &row.value {
        ValueDeletable::Value(bytes) | ValueDeletable::Merge(bytes) => {
            bytes.clone().map_err(SlateDBError::from)
        }
        ValueDeletable::Tombstone => Ok(Bytes::new()),
    }
}

/// The greatest sequence.
fn greatest_seq(first: u64, rows: &[RowEntry]) -> u64
    ensures { result ≡ greatest_seq first rows.now }
{
    let mut seq = first;
    for row in rows {
        seq = seq.max(row.seq);
    }
    seq
}

/// The latest creation.
fn latest_creation(first: Option<i64>, rows: &[RowEntry]) -> Option<i64>
    ensures { result ≡ latest_creation first rows.now }
{
    let mut stamp = first;
    for row in rows {
        stamp = later(stamp, row.create_ts);
    }
    stamp
}

/// The earliest expiry.
fn earliest_expiry(first: Option<i64>, rows: &[RowEntry]) -> Option<i64>
    ensures { result ≡ earliest_expiry first rows.now }
{
    let mut stamp = first;
    for row in rows {
        stamp = earliest(stamp, row.expire_ts);
    }
    stamp
}
