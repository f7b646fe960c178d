//! The tests of a batch that is to become a commit, and its rows.
ghost use Rattle.std.specs.Prelude.{◌≡◌, ◌⊎◌, ◌≤◌, ℕ, List, false, is_some, option_map, Some, None, Err, IfErr, IfOk, OnOk, IsOkUnless};
ghost use Rattle.std.specs.List.{AllByRecursion};
ghost use Rattle.slate_types.specs.declared.error.SlateDBError.{SlateDBError};
ghost use Rattle.slate_types.specs.Faults.{faults_of};
ghost use Rattle.slate_types.specs.Fold.{Combine, operator_at};
ghost use Rattle.slate_types.specs.Keys.{keys_set};
ghost use Rattle.slate_types.specs.Outside.{IsOperatorStill};
ghost use Rattle.slate_mem.specs.CommitRows.{commit_rows};
ghost use Rattle.slate_mem.specs.KeyTests.{merges_refusal, prefixes};
ghost use Rattle.slate_mem.specs.Lookup.{IsCallback};
ghost use Rattle.slate_db.specs.BatchTests.{batch_refusal};
ghost use Rattle.slate_db.specs.Layers.{FitsMemory};
ghost use Rattle.slate_db.specs.Log.{AreFine};
ghost use Rattle.slate_db.specs.Meaning.{segments_by};

use crate::segments::SegmentPrefixes;
use bytes::Bytes;
use slate_mem::WriteBatch;
use slate_types::{MergeOperator, NoOperator, PrefixExtractor, RowEntry, SlateDBError};
use std::alloc::Global;
use std::collections::BTreeSet;

/// Tests a batch that is to become a commit of the moment `now`, and gives the segment prefixes of its keys. Refuses as
/// `WriteBatch::test_entries` does, then as `SegmentPrefixes::test` does, and by `OutOfMemory`. Calls no operator.
pub(crate) fn test_batch<M: MergeOperator, X: PrefixExtractor>(
    alloc: Global,
    batch: &WriteBatch,
    now: i64,
    default_millis: Option<u64>,
    operator: &Option<M>,
    extractor: &Option<X>,
    recorded: &SegmentPrefixes,
) -> Result<BTreeSet<Bytes>, SlateDBError>
    ensures prefixes { IfOk result (λ own. own.keys ≡ keys_set (prefixes (segments_by X.lengths extractor.now) batch.now.ops)) }
    ensures tested { OnOk result (batch_refusal (option_map M.combine operator.now) (segments_by X.lengths extractor.now) recorded.now default_millis now batch.now ≡ None) }
    ensures first { (e : SlateDBError) → batch_refusal (option_map M.combine operator.now) (segments_by X.lengths extractor.now) recorded.now default_millis now batch.now ≡ Some e → (result ≡ Err e) ⊎ (result ≡ Err SlateDBError.OutOfMemory) }
    ensures cause { IfErr result (λ e. (e ≡ SlateDBError.OutOfMemory) ⊎ (batch_refusal (option_map M.combine operator.now) (segments_by X.lengths extractor.now) recorded.now default_millis now batch.now ≡ Some e)) }
{
    let own = batch.test_entries(
        alloc,
        now,
        default_millis,
        operator.is_some(),
        extractor.as_ref(),
    )?;
    recorded.test(&own)?;
    Ok(own)
}

/// The rows of a batch whose merges no test refuses, as the commit `seq` of the moment `now`. Refuses by `Callback`, only where the
/// operator's count of faults rose, and by `OutOfMemory`. A batch that never took a merge asks no operator.
pub(crate) fn rows_of_batch<M: MergeOperator>(
    alloc: Global,
    batch: &WriteBatch,
    seq: u64,
    now: i64,
    default_millis: Option<u64>,
    operator: &mut Option<M>,
) -> Result<Vec<RowEntry>, SlateDBError>
    requires { merges_refusal (is_some (option_map M.combine operator.old)) batch.now.held_merge ≡ None }
    ensures rows { IfOk result (λ rows. rows.items ≡ commit_rows (operator_at (option_map M.combine operator.old)) default_millis seq now batch.now.ops) }
    ensures fit { AreFine batch.now.ops → IfOk result (λ rows. AllByRecursion FitsMemory rows.items) }
    ensures same { option_map M.combine operator.new ≡ option_map M.combine operator.old }
    ensures later { faults_of M.faults operator.old ≤ faults_of M.faults operator.new }
    ensures still { IsOperatorStill (faults_of M.faults operator.old) (faults_of M.faults operator.new) result }
    ensures plain { batch.now.held_merge ≡ false → operator.new ≡ operator.old }
    ensures cause { IfErr result (λ e. (e ≡ SlateDBError.OutOfMemory) ⊎ IsCallback (faults_of M.faults operator.old) (faults_of M.faults operator.new) e) }
{
    if !batch.has_merge_ops() {
        return plain_rows(alloc, batch, seq, now, default_millis);
    }
    let (rows, _bytes) = batch.fold_entries(alloc, seq, now, default_millis, operator)?;
    Ok(rows)
}

/// The rows of a batch that never took a merge, as the commit `seq` of the moment `now`. No operator is asked.
fn plain_rows(
    alloc: Global,
    batch: &WriteBatch,
    seq: u64,
    now: i64,
    default_millis: Option<u64>,
) -> Result<Vec<RowEntry>, SlateDBError>
    requires { batch.now.held_merge ≡ false }
    ensures rows { IfOk result (λ rows. (c : List ℕ → Combine) → rows.items ≡ commit_rows c default_millis seq now batch.now.ops) }
    ensures cause { IsOkUnless result SlateDBError.OutOfMemory }
{
    let mut nobody: Option<NoOperator> = None;
    let (rows, _bytes) = batch.fold_entries(alloc, seq, now, default_millis, &mut nobody)?;
    Ok(rows)
}
