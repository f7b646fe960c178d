//! The rows that a flush stores, where keys may have operands.
ghost use Rattle.std.specs.Prelude.{◌≡◌, ◌⊎◌, ◌≤◌, ◌++◌, [], ℕ, List, true, option_map, None, IsSome, IfOk, IfErr, IsOkUnless, OnOk};
ghost use Rattle.slate_types.specs.declared.error.SlateDBError.{SlateDBError};
ghost use Rattle.slate_types.specs.declared.iter.IterationOrder.{IterationOrder};
ghost use Rattle.slate_types.specs.Faults.{faults_of};
ghost use Rattle.slate_types.specs.Fold.{operator_at};
ghost use Rattle.slate_types.specs.Iteration.{IsInOrder};
ghost use Rattle.slate_types.specs.Outside.{IsOperatorStill};
ghost use Rattle.slate_types.specs.Rows.{of_key};
ghost use Rattle.slate_mem.specs.Lookup.{is_merge_among, IsCallback};
ghost use Rattle.slate_mem.specs.FlushRows.{kept_and_folded, is_ended, ended, left, above, waits, IsGroup};

use crate::key_fold::add_folded;
use crate::lookup::is_decided;
use slate_types::{MergeOperator, NoOperator, RowEntry, SlateDBError};
use std::alloc::{AllocError, Global};

/// Of rows with rising keys, newest first within a key, those above the barrier, and behind them the fold of each key's
/// others, tombstones too. They share keys and values. There is an operator where one of the rows is an operand. `Callback`
/// only where its count of faults rose, or `OutOfMemory`. Never `InvalidSequenceOrder`: the rows of memtables fall in
/// sequence within a key, and rows are folded in the order in which they stand.
pub fn fold_for_flush<M: MergeOperator>(
    alloc: Global,
    rows: Vec<RowEntry>,
    barrier: u64,
    operator: &mut Option<M>,
) -> Result<Vec<RowEntry>, SlateDBError>
    requires { is_merge_among rows.items ≡ true → IsSome operator.old }
    ensures folded { IsInOrder IterationOrder.Ascending rows.items → IfOk result (λ out. (k : List ℕ) → of_key k out.items ≡ kept_and_folded (operator_at (option_map M.combine operator.old) k) barrier (of_key k rows.items)) }
    ensures order { IsInOrder IterationOrder.Ascending rows.items → IfOk result (λ out. IsInOrder IterationOrder.Ascending out.items) }
    ensures same { option_map M.combine operator.new ≡ option_map M.combine operator.old }
    ensures later { faults_of M.faults operator.old ≤ faults_of M.faults operator.new }
    ensures still { IsOperatorStill (faults_of M.faults operator.old) (faults_of M.faults operator.new) result }
    ensures cause { IfErr result (λ e. (e ≡ SlateDBError.OutOfMemory) ⊎ IsCallback (faults_of M.faults operator.old) (faults_of M.faults operator.new) e) }
    ensures alone { operator.old ≡ None → IsOkUnless result SlateDBError.OutOfMemory }
{
    match operator {
        Some(operator) => fold_keys(alloc, rows, barrier, operator),
        None => fold_keys(alloc, rows, barrier, &mut NoOperator),
    }
}

/// The same by this operator.
fn fold_keys<M: MergeOperator>(
    alloc: Global,
    rows: Vec<RowEntry>,
    barrier: u64,
    operator: &mut M,
) -> Result<Vec<RowEntry>, SlateDBError>
    ensures folded { IsInOrder IterationOrder.Ascending rows.items → IfOk result (λ out. (k : List ℕ) → of_key k out.items ≡ kept_and_folded (M.combine operator.old k) barrier (of_key k rows.items)) }
    ensures order { IsInOrder IterationOrder.Ascending rows.items → IfOk result (λ out. IsInOrder IterationOrder.Ascending out.items) }
    ensures same { M.combine operator.new ≡ M.combine operator.old }
    ensures later { M.faults operator.old ≤ M.faults operator.new }
    ensures still { IsOperatorStill (M.faults operator.old) (M.faults operator.new) result }
    ensures cause { IfErr result (λ e. (e ≡ SlateDBError.OutOfMemory) ⊎ IsCallback (M.faults operator.old) (M.faults operator.new) e) }
{
    let mut folded = Vec::new(alloc);
    let mut low = Vec::new(alloc);
    for row in rows {
        end_key(alloc, &mut folded, &mut low, &row, operator)?;
        place(&mut folded, &mut low, row, barrier)?;
    }
    add_folded(alloc, &mut folded, &mut low, operator)?;
    Ok(folded)
}

/// Folds the rows that wait where the next row is of another key.
fn end_key<M: MergeOperator>(
    alloc: Global,
    folded: &mut Vec<RowEntry>,
    low: &mut Vec<RowEntry>,
    row: &RowEntry,
    operator: &mut M,
) -> Result<(), SlateDBError>
    ensures rows { IsGroup low.old.items → OnOk result (folded.new.items ≡ folded.old.items ++ ended (M.combine operator.old) low.old.items row.now) }
    ensures low { OnOk result (low.new.items ≡ left low.old.items row.now) }
    ensures same { M.combine operator.new ≡ M.combine operator.old }
    ensures later { M.faults operator.old ≤ M.faults operator.new }
    ensures still { IsOperatorStill (M.faults operator.old) (M.faults operator.new) result }
    ensures cause { IfErr result (λ e. (e ≡ SlateDBError.OutOfMemory) ⊎ IsCallback (M.faults operator.old) (M.faults operator.new) e) }
{
    if !is_ended(low, row) {
        return Ok(());
    }
    add_folded(alloc, folded, low, operator)
}

/// Whether a row is of another key than those that wait.
fn is_ended(low: &[RowEntry], row: &RowEntry) -> bool
    ensures { result ≡ is_ended low.now row.now }
{
    match low.first() {
        Some(first) => first.key != row.key,
        None => false,
    }
}

/// Puts a row above the barrier behind others, and another one behind those of its key that wait, unless these are decided.
fn place(
    folded: &mut Vec<RowEntry>,
    low: &mut Vec<RowEntry>,
    row: RowEntry,
    barrier: u64,
) -> Result<(), AllocError>
    ensures folded { OnOk result (folded.new.items ≡ folded.old.items ++ above barrier row) }
    ensures low { OnOk result (low.new.items ≡ waits barrier low.old.items row) }
{
    if row.seq > barrier {
        folded.push(row)?;
        return Ok(());
    }
    if is_decided(low) {
        drop(row);
        return Ok(());
    }
    low.push(row)?;
    Ok(())
}
