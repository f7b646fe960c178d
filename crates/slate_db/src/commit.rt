//! A commit of a transaction, up to its event.
ghost use Rattle.std.specs.Prelude.{◌≡◌, ◌+◌, ◌<◌, ◌≤◌, [], None, Some, Err, option_map, false, OnErr};
ghost use Rattle.slate_types.specs.declared.error.SlateDBError.{SlateDBError};
ghost use Rattle.slate_types.specs.Faults.{faults_of};
ghost use Rattle.slate_types.specs.Outside.{IsOperatorStill};
ghost use Rattle.slate_txn.specs.Tested.{IsUntracked};
ghost use Rattle.slate_db.specs.BatchTests.{batch_refusal};
ghost use Rattle.slate_db.specs.Layers.{AreLayers};
ghost use Rattle.slate_db.specs.Meaning.{segments_by};
ghost use Rattle.slate_db.specs.Calls.Put.{AreNotNewer, LeavesGrown, MakesCommit, Manages, PutsOwn, TestsBatch};
ghost use Rattle.slate_db.specs.Prepared.{prepared_for};

use crate::layers::Layers;
use crate::put::put_own;
use crate::segments::SegmentPrefixes;
use crate::tested::{rows_of_batch, test_batch};
use slate_mem::WriteBatch;
use slate_txn::{DbTransactionInner, KeyList, OpList, Tested, TransactionManager, Transcript};
use slate_types::{MergeOperator, PrefixExtractor, SlateDBError};
use std::alloc::Global;
use uuid::Uuid;

/// What a commit adds to its event.
#[derive(Drop)]
pub(crate) struct Made {
    pub(crate) seq: Option<u64>,
    pub(crate) ops: OpList,
    pub(crate) tracked: KeyList,
    pub(crate) transcript: Transcript,
}

/// Tests an open transaction, and puts its rows where it has operations. Refuses by `TransactionConflict` before all other tests,
/// by `SequenceExhausted`, as `test_batch` does, then by `Callback`, only where the operator's count of faults rose,
/// and by `OutOfMemory`. The manager has then tracked what the transaction handed over.
pub(crate) fn make<M: MergeOperator, X: PrefixExtractor>(
    alloc: Global,
    default_millis: Option<u64>,
    segments: &mut SegmentPrefixes,
    layers: &mut Layers,
    manager: &mut TransactionManager,
    id: &Uuid,
    owned: DbTransactionInner,
    last: u64,
    now: i64,
    operator: &mut Option<M>,
    extractor: &Option<X>,
) -> Result<Made, SlateDBError>
    requires fits { last ≤ 18446744073709551614 }
    requires whole { AreLayers layers.old }
    requires within { AreNotNewer last layers.old }
    requires newest { manager.old.last ≡ last }
    requires held { IsUntracked manager.old id.now owned }
    ensures commits { MakesCommit (option_map M.combine operator.old) (segments_by X.lengths
        extractor.now) default_millis now owned last segments.old segments.new layers.old layers.new
        manager.old (faults_of M.faults operator.old) (faults_of M.faults operator.new)
        (operator.new ≡ operator.old) result }
    ensures whole { AreLayers layers.new }
    ensures committed { Manages manager.old manager.new id.now now last result }
    ensures left { OnErr result (LeavesGrown id.now segments.old segments.new layers.old layers.new
        manager.old manager.new) }
    ensures same { option_map M.combine operator.new ≡ option_map M.combine operator.old }
    ensures later { faults_of M.faults operator.old ≤ faults_of M.faults operator.new }
    ensures still { IsOperatorStill (faults_of M.faults operator.old) (faults_of M.faults
        operator.new) result }
{
    let tested = owned.test(alloc, manager, id)?;
    if tested.batch.is_empty() {
        manager.drop_txn(id);
        return Ok(idle(alloc, tested));
    }
    if last >= 18446744073709551614 {
        drop(tested);
        return Err(SlateDBError::SequenceExhausted);
    }
    let Tested {
        batch,
        tracked,
        transcript,
    } = tested;
    let put = put_commit(
        alloc,
        default_millis,
        segments,
        layers,
        manager,
        id,
        &batch,
        last,
        now,
        operator,
        extractor,
    );
    drop(batch);
    match put {
        Ok(ops) => Ok(Made {
            seq: Some(last + 1),
            ops,
            tracked,
            transcript,
        }),
        Err(error) => {
            drop(tracked);
            drop(transcript);
            Err(error)
        }
    }
}

/// What a commit without operations adds. Takes no memory.
fn idle(alloc: Global, tested: Tested) -> Made
    ensures { result ≡ record { seq = None; ops = []; tracked = tested.tracked; transcript = tested.transcript } }
{
    let Tested {
        batch,
        tracked,
        transcript,
    } = tested;
    drop(batch);
    Made {
        seq: None,
        ops: OpList::from_vec(Vec::new(alloc)),
        tracked,
        transcript,
    }
}

/// Puts the rows of a transaction's batch that has operations, at the sequence behind the last, and gives the operations. The
/// manager has then ended the transaction. Refuses as `test_batch` does, then by `Callback`, only where the
/// operator's count of faults rose, and by `OutOfMemory`, and then nothing is done.
pub(crate) fn put_commit<M: MergeOperator, X: PrefixExtractor>(
    alloc: Global,
    default_millis: Option<u64>,
    segments: &mut SegmentPrefixes,
    layers: &mut Layers,
    manager: &mut TransactionManager,
    id: &Uuid,
    batch: &WriteBatch,
    last: u64,
    now: i64,
    operator: &mut Option<M>,
    extractor: &Option<X>,
) -> Result<OpList, SlateDBError>
    requires fits { last < 18446744073709551614 }
    requires whole { AreLayers layers.old }
    requires within { AreNotNewer last layers.old }
    requires newest { manager.old.last ≡ last }
    ensures puts { let w = prepared_for (option_map M.combine operator.old) (segments_by X.lengths
        extractor.now) default_millis now batch.now in
        PutsOwn w id.now (last + 1) segments.old segments.new layers.old layers.new manager.old
        manager.new result }
    ensures whole { AreLayers layers.new }
    ensures decides { TestsBatch (batch_refusal (option_map M.combine operator.old) (segments_by
        X.lengths extractor.now) segments.old default_millis now batch.now)
        (faults_of M.faults operator.old) (faults_of M.faults operator.new)
        (operator.new ≡ operator.old) result }
    ensures same_operator { option_map M.combine operator.new ≡ option_map M.combine operator.old }
    ensures later { faults_of M.faults operator.old ≤ faults_of M.faults operator.new }
    ensures still { IsOperatorStill (faults_of M.faults operator.old) (faults_of M.faults
        operator.new) result }
    ensures plain { batch.now.held_merge ≡ false → operator.new ≡ operator.old }
{
    let seq = last + 1;
    let prefixes = test_batch(
        alloc,
        batch,
        now,
        default_millis,
        operator,
        extractor,
        segments,
    )?;
    let rows = rows_of_batch(alloc, batch, seq, now, default_millis, operator)?;
    let ops = batch.ops(alloc)?;
    put_own(alloc, segments, layers, manager, rows, &prefixes, id, seq)?;
    Ok(OpList::from_vec(ops))
}
