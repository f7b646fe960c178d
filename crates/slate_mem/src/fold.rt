//! The row that rows of a key fold to.
ghost use Rattle.std.specs.Prelude.{◌≡◌, ◌⊎◌, ◌≤◌, ℕ, List, false, max, reverse, option_map, option_and_then, IfOk, IfErr};
ghost use Rattle.slate_types.specs.declared.error.SlateDBError.{SlateDBError};
ghost use Rattle.slate_types.specs.declared.types.ValueDeletable.{ValueDeletable};
ghost use Rattle.slate_types.specs.Fold.{Combine, IsLawful, KeepsShort, fold_rows};
ghost use Rattle.slate_types.specs.Join.{AreOf, join, join_value};
ghost use Rattle.slate_types.specs.Outside.{IsOperatorStill};
ghost use Rattle.slate_types.specs.Rows.{earliest, hide_tombstone, key_value, latest};
ghost use Rattle.slate_mem.specs.Lookup.{is_merge_among, IsCallback};

use crate::lookup::is_merge;
use crate::metadata::later;
use bytes::Bytes;
use slate_types::{KeyValue, MergeOperator, RowEntry, SlateDBError, ValueDeletable};
use std::alloc::Global;

/// The earlier of two stamps, where there are any.
pub(crate) fn earliest(a: Option<i64>, b: Option<i64>) -> Option<i64>
    ensures { result ≡ earliest a b }
{
    match (a, b) {
        (Some(a), Some(b)) => Some(a.min(b)),
        (Some(a), None) => Some(a),
        (None, b) => b,
    }
}

/// What a value and an operand on it make.
fn join_value<M: MergeOperator>(
    alloc: Global,
    key: &Bytes,
    value: &ValueDeletable,
    operand: &Bytes,
    operator: &mut M,
) -> Result<ValueDeletable, SlateDBError>
    ensures value { IfOk result (λ made. made ≡ join_value (M.combine operator.old key.now) value.now (ValueDeletable.Merge operand.now)) }
    ensures same { M.combine operator.new ≡ M.combine operator.old }
    ensures later { M.faults operator.old ≤ M.faults operator.new }
    ensures still { IsOperatorStill (M.faults operator.old) (M.faults operator.new) result }
    ensures cause { IfErr result (λ e. (e ≡ SlateDBError.OutOfMemory) ⊎ IsCallback (M.faults operator.old) (M.faults operator.new) e) }
{
    let made = operator.merge(alloc, key, value.as_bytes(), operand)?;
    match value {
        ValueDeletable::Merge(_) => Ok(ValueDeletable::Merge(made)),
        _ => Ok(ValueDeletable::Value(made)),
    }
}

/// The row that an older row and a newer one make.
fn join<M: MergeOperator>(
    alloc: Global,
    older: RowEntry,
    newer: RowEntry,
    operator: &mut M,
) -> Result<RowEntry, SlateDBError>
    ensures row { IfOk result (λ row. row ≡ join (M.combine operator.old older.key) older newer) }
    ensures same { M.combine operator.new ≡ M.combine operator.old }
    ensures later { M.faults operator.old ≤ M.faults operator.new }
    ensures still { IsOperatorStill (M.faults operator.old) (M.faults operator.new) result }
    ensures cause { IfErr result (λ e. (e ≡ SlateDBError.OutOfMemory) ⊎ IsCallback (M.faults operator.old) (M.faults operator.new) e) }
{
    let ValueDeletable::Merge(operand) = &newer.value else {
        drop(older);
        return Ok(newer);
    };
    match join_value(alloc, &older.key, &older.value, operand, operator) {
        Ok(value) => Ok(joined(older, newer, value)),
        Err(error) => {
            drop(older);
            drop(newer);
            Err(error)
        }
    }
}

/// The row of this value that an older row and a newer one make.
fn joined(older: RowEntry, newer: RowEntry, value: ValueDeletable) -> RowEntry
    ensures { result ≡ record { key = older.key; value = value; seq = max older.seq newer.seq; create_ts = latest older.create_ts newer.create_ts; expire_ts = earliest older.expire_ts newer.expire_ts } }
{
    let seq = older.seq.max(newer.seq);
    let create_ts = later(older.create_ts, newer.create_ts);
    let expire_ts = earliest(older.expire_ts, newer.expire_ts);
    drop(newer);
    drop(older.value);
    RowEntry {
        key: older.key,
        value,
        seq,
        create_ts,
        expire_ts,
    }
}

/// The row that rows of a key, newest first, fold to by an operator.
pub fn join_all<M: MergeOperator>(
    alloc: Global,
    found: Vec<RowEntry>,
    operator: &mut M,
) -> Result<Option<RowEntry>, SlateDBError>
    ensures row { (k : List ℕ) → IsLawful (M.combine operator.old k) → KeepsShort (M.combine operator.old k) → AreOf k (reverse found.items) → IfOk result (λ row. row ≡ fold_rows (M.combine operator.old k) (reverse found.items)) }
    ensures same { M.combine operator.new ≡ M.combine operator.old }
    ensures later { M.faults operator.old ≤ M.faults operator.new }
    ensures still { IsOperatorStill (M.faults operator.old) (M.faults operator.new) result }
    ensures cause { IfErr result (λ e. (e ≡ SlateDBError.OutOfMemory) ⊎ IsCallback (M.faults operator.old) (M.faults operator.new) e) }
{
    let mut rows = found;
    let Some(mut row) = rows.pop() else {
        return Ok(None);
    };
    while let Some(newer) = rows.pop() {
        row = join(alloc, row, newer, operator)?;
    }
    Ok(Some(row))
}

/// Whether one of the rows is an operand.
pub fn has_merge(rows: &[RowEntry]) -> bool
    ensures { result ≡ is_merge_among rows.now }
{
    rows.iter().any(is_merge)
}

/// The first row, where none is an operand.
pub fn first(rows: Vec<RowEntry>) -> Option<RowEntry>
    ensures { is_merge_among rows.items ≡ false → (c : Combine) → result ≡ fold_rows c (reverse rows.items) }
{
    rows.into_iter().next()
}

/// What a reader gets of a row.
fn visible(row: RowEntry) -> Option<KeyValue>
    ensures { result ≡ option_map key_value (hide_tombstone row.value row) }
{
    if row.value.is_tombstone() {
        drop(row);
        return None;
    }
    Some(KeyValue::from_row(row))
}

/// What a reader gets of a folded row.
pub fn answer(row: Option<RowEntry>) -> Option<KeyValue>
    ensures { result ≡ option_map key_value (option_and_then (λ r. hide_tombstone r.value r) row) }
{
    match row {
        Some(row) => visible(row),
        None => None,
    }
}
