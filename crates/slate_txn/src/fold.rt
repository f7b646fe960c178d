//! The row that rows of a key fold to, where there may be no operator.
ghost use Rattle.std.specs.Prelude.{◌≡◌, ◌⊎◌, ◌≤◌, ℕ, List, None, Ok, Err, true, false, reverse, IfOk, IfErr};
ghost use Rattle.slate_types.specs.declared.error.SlateDBError.{SlateDBError};
ghost use Rattle.slate_types.specs.Faults.{faults_of};
ghost use Rattle.slate_types.specs.Fold.{Combine, IsLawful, KeepsShort, fold_rows, operator_at};
ghost use Rattle.slate_types.specs.Join.{AreOf};
ghost use Rattle.slate_types.specs.Outside.{IsOperatorStill};
ghost use Rattle.slate_store.specs.Env.{combine_of};
ghost use Rattle.slate_mem.specs.Lookup.{is_merge_among, IsCallback};

use slate_mem::fold::{first, has_merge, join_all};
use slate_types::{MergeOperator, RowEntry, SlateDBError};
use std::alloc::Global;

/// The row that rows of a key, newest first, fold to, by a lawful operator, which isn't called where none of them is an operand.
/// `MergeOperatorMissing` exactly where one is and there is no operator, so that an operand is then never left out; `Callback`
/// only where the operator's count of faults rose; or `OutOfMemory`.
pub fn fold_found<M: MergeOperator>(
    alloc: Global,
    rows: Vec<RowEntry>,
    operator: &mut Option<M>,
) -> Result<Option<RowEntry>, SlateDBError>
    ensures row { (k : List ℕ) → IsLawful (operator_at (combine_of M.combine operator.old) k) → KeepsShort (operator_at (combine_of M.combine operator.old) k) → AreOf k (reverse rows.items) → IfOk result (λ row. row ≡ fold_rows (operator_at (combine_of M.combine operator.old) k) (reverse rows.items)) }
    ensures plain { is_merge_among rows.items ≡ false → (operator.new ≡ operator.old) × ((c : Combine) → result ≡ Ok (fold_rows c (reverse rows.items))) }
    ensures missing { combine_of M.combine operator.old ≡ None → is_merge_among rows.items ≡ true → result ≡ Err SlateDBError.MergeOperatorMissing }
    ensures same { combine_of M.combine operator.new ≡ combine_of M.combine operator.old }
    ensures later { faults_of M.faults operator.old ≤ faults_of M.faults operator.new }
    ensures still { IsOperatorStill (faults_of M.faults operator.old) (faults_of M.faults operator.new) result }
    ensures cause { IfErr result (λ e. (e ≡ SlateDBError.OutOfMemory) ⊎ ((e ≡ SlateDBError.MergeOperatorMissing) × (combine_of M.combine operator.old ≡ None) × (is_merge_among rows.items ≡ true)) ⊎ IsCallback (faults_of M.faults operator.old) (faults_of M.faults operator.new) e) }
{
    if !has_merge(&rows) {
        return Ok(first(rows));
    }
    match operator {
        Some(operator) => join_all(alloc, rows, operator),
        None => Err(SlateDBError::MergeOperatorMissing),
    }
}
