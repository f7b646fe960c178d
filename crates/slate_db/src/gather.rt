//! The rows that a flush stores.
ghost use Rattle.std.specs.Prelude.{◌≡◌, ◌⊎◌, ◌≤◌, ◌<◌, ◌&&◌, not, is_some, None, true, map, length, option_map, IfErr, IfOk};
ghost use Rattle.std.specs.List.{AllByRecursion};
ghost use Rattle.slate_types.specs.declared.error.SlateDBError.{SlateDBError};
ghost use Rattle.slate_types.specs.declared.error.SlateDBError.TheVariants.{MergeOperatorMissing, OutOfMemory};
ghost use Rattle.slate_table.specs.Table.{AreInOrder};
ghost use Rattle.slate_types.specs.Faults.{faults_of};
ghost use Rattle.slate_types.specs.Outside.{IsOperatorStill};
ghost use Rattle.slate_mem.specs.Lookup.{is_merge_among, newest_first, IsCallback};
ghost use Rattle.slate_db.specs.Flushed.{IsFolded, CanFlush, WantsOperator};
ghost use Rattle.slate_db.specs.Meaning.{Meaning};
ghost use Rattle.slate_db.specs.Layers.{FitsMemory};

use slate_mem::ImmutableMemtable;
use slate_mem::flush_fold::fold_for_flush;
use slate_mem::fold::has_merge;
use slate_mem::gather::gathered;
use slate_types::{MergeOperator, RowEntry, SlateDBError};
use std::alloc::Global;

/// The rows of memtables, of which the newest stands last, as a flush with this barrier stores them: in a table's order,
/// and of each key those above the barrier and the fold of the others. They share keys and values. `MergeOperatorMissing` where
/// one of them is an operand and there is no operator; `Callback` only where its count of faults rose; or `OutOfMemory`.
pub fn rows_of_flush<M: MergeOperator>(
    alloc: Global,
    frozen: &[ImmutableMemtable],
    barrier: u64,
    operator: &mut Option<M>,
) -> Result<Vec<RowEntry>, SlateDBError>
    requires { CanFlush (map (λ t. t.rows) frozen.now) }
    ensures folded { (m : Meaning) → m.combine ≡ option_map M.combine operator.old → IfOk result (λ rows. IsFolded m barrier (map (λ t. t.rows) frozen.now) rows.items) }
    ensures order { IfOk result (λ rows. AreInOrder rows.items) }
    ensures fit { IfOk result (λ rows. AllByRecursion FitsMemory rows.items) }
    ensures some { IfOk result (λ rows. 0 < length rows.items) }
    ensures missing { (m : Meaning) → m.combine ≡ option_map M.combine operator.old → IfErr result (λ e. e ≡ MergeOperatorMissing → WantsOperator m (map (λ t. t.rows) frozen.now) e) }
    ensures wanted { option_map M.combine operator.old ≡ None → is_merge_among (newest_first (map (λ t. t.rows) frozen.now)) ≡ true → IfOk result (λ _. ⊥) }
    ensures same { option_map M.combine operator.new ≡ option_map M.combine operator.old }
    ensures later { faults_of M.faults operator.old ≤ faults_of M.faults operator.new }
    ensures still { IsOperatorStill (faults_of M.faults operator.old) (faults_of M.faults operator.new) result }
    ensures cause { IfErr result (λ e. (e ≡ OutOfMemory) ⊎ (e ≡ MergeOperatorMissing) ⊎ IsCallback (faults_of M.faults operator.old) (faults_of M.faults operator.new) e) }
{
    let rows = gathered(alloc, frozen)?;
    if wants_operator(&rows, operator) {
        drop(rows);
        return Err(SlateDBError::MergeOperatorMissing);
    }
    fold_for_flush(alloc, rows, barrier, operator)
}

/// Whether one of the rows is an operand, and there is no operator.
fn wants_operator<M: MergeOperator>(rows: &[RowEntry], operator: &Option<M>) -> bool
    ensures { result ≡ (not (is_some operator.now) && is_merge_among rows.now) }
{
    operator.is_none() && has_merge(rows)
}
