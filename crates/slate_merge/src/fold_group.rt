//! The fold of rows that stand together.
ghost use Rattle.std.specs.Prelude.{◌≡◌, ◌⊎◌, ◌<◌, ◌∷◌, ◌++◌, [], length, map, reverse, IfOk, IfErr, None, OnOk, Some};
ghost use Rattle.slate_types.specs.declared.error.SlateDBError.{SlateDBError};
ghost use Rattle.slate_types.specs.Fold.{earliest_expiry, fold_rows, greatest_seq, latest_creation, operator_at, value_of_taken};
ghost use Rattle.slate_types.specs.Outside.{IsFault, IsStill, OnlyReads};
ghost use Rattle.slate_types.specs.Rows.{earliest, latest, operand};
ghost use Rattle.slate_types.specs.World.{IsCall};
ghost use Rattle.slate_merge.specs.Folding.{AreOperands};

use crate::operates::Operates;
use bytes::Bytes;
use slate_types::{RowEntry, SlateDBError, ValueDeletable};
use std::alloc::Global;

/// Rows of one key, of which all but the oldest are operands.
#[derive(Drop)]
pub struct Group {
    /// All but the oldest, the newest first.
    pub newer: Vec<RowEntry>,
    pub oldest: RowEntry,
}

/// The greatest sequence.
fn greatest(first: u64, rows: &[RowEntry]) -> u64
    ensures { result ≡ greatest_seq first rows.now }
{
    let mut seq = first;
    for row in rows {
        seq = seq.max(row.seq);
    }
    seq
}

/// The later of two stamps; an absent one yields.
fn later_of(a: Option<i64>, b: Option<i64>) -> Option<i64>
    ensures { result ≡ latest a b }
{
    match (a, b) {
        (None, b) => b,
        (Some(a), None) => Some(a),
        (Some(a), Some(b)) => Some(a.max(b)),
    }
}

/// The earlier of two stamps; an absent one yields.
fn earlier_of(a: Option<i64>, b: Option<i64>) -> Option<i64>
    ensures { result ≡ earliest a b }
{
    match (a, b) {
        (None, b) => b,
        (Some(a), None) => Some(a),
        (Some(a), Some(b)) => Some(a.min(b)),
    }
}

/// The greatest creation.
fn created(first: Option<i64>, rows: &[RowEntry]) -> Option<i64>
    ensures { result ≡ latest_creation first rows.now }
{
    let mut stamp = first;
    for row in rows {
        stamp = later_of(stamp, row.create_ts);
    }
    stamp
}

/// The least expiry.
fn expires(first: Option<i64>, rows: &[RowEntry]) -> Option<i64>
    ensures { result ≡ earliest_expiry first rows.now }
{
    let mut stamp = first;
    for row in rows {
        stamp = earlier_of(stamp, row.expire_ts);
    }
    stamp
}

/// The bytes of a row, none of a tombstone.
fn operand_of(row: &RowEntry) -> Result<Bytes, SlateDBError>
    ensures value { IfOk result (λ made. made ≡ operand row.now) }
    ensures cause { IfErr result (λ e. e ≡ SlateDBError.OutOfMemory) }
{
    match &row.value {
        ValueDeletable::Value(bytes) | ValueDeletable::Merge(bytes) => {
            bytes.clone().map_err(SlateDBError::from)
        }
        ValueDeletable::Tombstone => Ok(Bytes::new()),
    }
}

/// Puts the operands of the rows behind others.
fn push_operands(operands: &mut Vec<Bytes>, rows: &[RowEntry]) -> Result<(), SlateDBError>
    ensures items { OnOk result (operands.new.items ≡ operands.old.items ++ map operand rows.now) }
    ensures cause { IfErr result (λ e. e ≡ SlateDBError.OutOfMemory) }
{
    for row in rows {
        operands.push(operand_of(row)?)?;
    }
    Ok(())
}

/// The value of a fold, by the oldest row's value and the others, which are operands.
#[tactic(auto, using(slate_types::proofs::Reaching::reads_none, slate_types::proofs::Calls::call_none))]
fn fold_value<E: Operates>(
    alloc: Global,
    key: &Bytes,
    oldest: ValueDeletable,
    newer: &[RowEntry],
    env: &mut E,
) -> Result<ValueDeletable, SlateDBError>
    requires { 0 < length newer.now }
    ensures value { IfOk result (λ value. value ≡ value_of_taken (operator_at (E.reach env.old).meaning.combine key.now) oldest newer.now) }
    ensures cause { IfErr result (λ e. IsFault (E.reach env.old) (E.reach env.new) e ⊎ ((e ≡ SlateDBError.MergeOperatorMissing) × ((E.reach env.old).meaning.combine ≡ None))) }
    ensures call { IsCall (E.reach env.old) (E.reach env.new) [] }
    ensures reads { OnlyReads (E.reach env.old) (E.reach env.new) }
    ensures counts { IsStill (E.reach env.old).faults (E.reach env.new).faults result }
{
    let mut operands = Vec::new(alloc);
    match oldest {
        ValueDeletable::Value(existing) => {
            push_operands(&mut operands, newer)?;
            Ok(ValueDeletable::Value(env.combine_all(alloc, key, Some(&existing), &operands)?))
        }
        ValueDeletable::Merge(operand) => {
            operands.push(operand)?;
            push_operands(&mut operands, newer)?;
            Ok(ValueDeletable::Merge(env.combine_all(alloc, key, None, &operands)?))
        }
        ValueDeletable::Tombstone => {
            push_operands(&mut operands, newer)?;
            Ok(ValueDeletable::Value(env.combine_all(alloc, key, None, &operands)?))
        }
    }
}

/// The fold of a group. It reads nothing.
#[tactic(auto, using(slate_types::proofs::Reaching::reads_none, slate_types::proofs::Calls::call_none))]
pub fn fold_group<E: Operates>(
    alloc: Global,
    group: Group,
    env: &mut E,
) -> Result<RowEntry, SlateDBError>
    ensures value { AreOperands group.newer.items → IfOk result (λ row. fold_rows (operator_at (E.reach env.old).meaning.combine group.oldest.key) (group.oldest ∷ reverse group.newer.items) ≡ Some row) }
    ensures cause { IfErr result (λ e. IsFault (E.reach env.old) (E.reach env.new) e ⊎ ((e ≡ SlateDBError.MergeOperatorMissing) × ((E.reach env.old).meaning.combine ≡ None))) }
    ensures call { IsCall (E.reach env.old) (E.reach env.new) [] }
    ensures reads { OnlyReads (E.reach env.old) (E.reach env.new) }
    ensures counts { IsStill (E.reach env.old).faults (E.reach env.new).faults result }
{
    let Group { mut newer, oldest } = group;
    if newer.is_empty() {
        return Ok(oldest);
    }
    newer.reverse();
    let seq = greatest(oldest.seq, &newer);
    let create_ts = created(oldest.create_ts, &newer);
    let expire_ts = expires(oldest.expire_ts, &newer);
    let RowEntry { key, value, .. } = oldest;
    match fold_value(alloc, &key, value, &newer, env) {
        Ok(value) => Ok(RowEntry {
            key,
            value,
            seq,
            create_ts,
            expire_ts,
        }),
        Err(error) => {
            drop(key);
            Err(error)
        }
    }
}
