//! A batch that is prepared to become a commit: its tests, and its rows, made where no core is at hand.
ghost use Rattle.std.specs.Prelude.{◌≡◌, ◌⊎◌, ◌≤◌, ◌↔◌, [], false, Some, option_map, IfOk, IfErr, IsTrue};
ghost use Rattle.slate_types.specs.declared.error.SlateDBError.{SlateDBError};
ghost use Rattle.slate_types.specs.Faults.{faults_of};
ghost use Rattle.slate_types.specs.Outside.{IsOperatorStill};
ghost use Rattle.slate_mem.specs.Lookup.{IsCallback};
ghost use Rattle.slate_db.specs.Meaning.{segments_by};
ghost use Rattle.slate_db.specs.Prepared.{PreparedWith, IsPrepared, IsPassed, lone_refusal, whole_refusal, numbered, prepared_for};
ghost use Rattle.slate_db.specs.Calls.Put.{FoldsAlone, IsShortOrCallback, lone_refusal_of};

use crate::segments::SegmentPrefixes;
use crate::tested::rows_of_batch;
use bytes::Bytes;
use slate_mem::WriteBatch;
use slate_txn::OpList;
use slate_types::{MergeOperator, PrefixExtractor, RowEntry, SlateDBError};
use std::alloc::Global;
use std::collections::BTreeSet;

/// A batch, prepared to become a commit.
#[derive(Drop)]
pub struct Prepared {
    /// The operations that it keeps.
    pub ops: OpList,
    /// Its keys, ascending.
    pub keys: Vec<Bytes>,
    /// What is to be put of it, or what it is refused for by itself, or want of memory in its tests.
    pub folded: Result<Folded, SlateDBError>,
}

/// What is to be put of a batch that isn't refused by itself.
#[derive(Drop)]
pub struct Folded {
    /// The segment prefixes of its keys.
    pub prefixes: BTreeSet<Bytes>,
    /// Its rows, by key, as those of the sequence 0.
    pub rows: Vec<RowEntry>,
}

/// What is to be put of a batch that nothing refuses.
#[derive(Drop)]
pub(crate) struct Passed {
    pub(crate) ops: OpList,
    pub(crate) keys: Vec<Bytes>,
    pub(crate) prefixes: BTreeSet<Bytes>,
    pub(crate) rows: Vec<RowEntry>,
}

/// Prepares a batch that is to become a commit of the moment `now`. What `WriteBatch::test_entries` refuses it for is kept, and is
/// given by the call that would commit it, at its place among the other refusals. Refuses by `Callback`, only where the operator's
/// count of faults rose, and by `OutOfMemory`. A batch that is refused by itself, or never took a merge, asks no operator.
pub fn prepare<M: MergeOperator, X: PrefixExtractor>(
    alloc: Global,
    batch: &WriteBatch,
    now: i64,
    default_millis: Option<u64>,
    operator: &mut Option<M>,
    extractor: &Option<X>,
) -> Result<Prepared, SlateDBError>
    ensures prepared { IfOk result (IsPrepared (prepared_for (option_map M.combine operator.old) (segments_by X.lengths extractor.now) default_millis now batch.now)) }
    ensures same { option_map M.combine operator.new ≡ option_map M.combine operator.old }
    ensures later { faults_of M.faults operator.old ≤ faults_of M.faults operator.new }
    ensures still { IsOperatorStill (faults_of M.faults operator.old) (faults_of M.faults operator.new) result }
    ensures unasked { (e : SlateDBError) → lone_refusal (prepared_for (option_map M.combine operator.old) (segments_by X.lengths extractor.now) default_millis now batch.now) ≡ Some e → operator.new ≡ operator.old }
    ensures plain { batch.now.held_merge ≡ false → operator.new ≡ operator.old }
    ensures cause { IfErr result (λ e. (e ≡ SlateDBError.OutOfMemory) ⊎ IsCallback (faults_of M.faults operator.old) (faults_of M.faults operator.new) e) }
{
    let ops = OpList::from_vec(batch.ops(alloc)?);
    let keys = batch.keys()?;
    let folded = fold_alone(alloc, batch, now, default_millis, operator, extractor)?;
    Ok(Prepared { ops, keys, folded })
}

/// The segment prefixes and the rows of a batch, or what it is refused for by itself, or want of memory in its tests.
fn fold_alone<M: MergeOperator, X: PrefixExtractor>(
    alloc: Global,
    batch: &WriteBatch,
    now: i64,
    default_millis: Option<u64>,
    operator: &mut Option<M>,
    extractor: &Option<X>,
) -> Result<Result<Folded, SlateDBError>, SlateDBError>
    ensures folded { IfOk result (FoldsAlone (prepared_for (option_map M.combine operator.old)
        (segments_by X.lengths extractor.now) default_millis now batch.now)) }
    ensures same { option_map M.combine operator.new ≡ option_map M.combine operator.old }
    ensures later { faults_of M.faults operator.old ≤ faults_of M.faults operator.new }
    ensures still { IsOperatorStill (faults_of M.faults operator.old) (faults_of M.faults operator.new) result }
    ensures unasked { (e : SlateDBError) → lone_refusal_of (option_map M.combine operator.old)
        (segments_by X.lengths extractor.now) default_millis now batch.now ≡ Some e → operator.new ≡
        operator.old }
    ensures plain { batch.now.held_merge ≡ false → operator.new ≡ operator.old }
    ensures cause { IfErr result (IsShortOrCallback (faults_of M.faults operator.old) (faults_of
        M.faults operator.new)) }
{
    let tested = batch.test_entries(
        alloc,
        now,
        default_millis,
        operator.is_some(),
        extractor.as_ref(),
    );
    match tested {
        Ok(prefixes) => {
            let rows = rows_of_batch(alloc, batch, 0, now, default_millis, operator)?;
            Ok(Ok(Folded { prefixes, rows }))
        }
        Err(refusal) => Ok(Err(refusal)),
    }
}

impl Prepared {
    /// Whether it keeps no operation.
    pub fn is_empty(&self) -> bool
        ensures { IsTrue result ↔ (self.now.ops ≡ []) }
    {
        self.ops.as_slice().is_empty()
    }

    /// The operations that it keeps.
    pub(crate) fn into_ops(self) -> OpList
        ensures { result ≡ self.ops }
    {
        let Prepared { ops, .. } = self;
        ops
    }

    /// What is to be put at this sequence. Refuses by what it is refused for by itself, then as `SegmentPrefixes::test` does, and by
    /// `OutOfMemory`.
    pub(crate) fn pass(self, recorded: &SegmentPrefixes, seq: u64) -> Result<Passed, SlateDBError>
        ensures ops { IfOk result (λ x. x.ops ≡ self.ops) }
        ensures passed { (w : PreparedWith) → IsPrepared w self → IfOk result (IsPassed w recorded.now seq) }
        ensures cause { (w : PreparedWith) → IsPrepared w self → IfErr result (λ e. (e ≡ SlateDBError.OutOfMemory) ⊎ (whole_refusal w recorded.now ≡ Some e)) }
    {
        let Prepared { ops, keys, folded } = self;
        let folded = folded?;
        let Folded { prefixes, mut rows } = folded;
        recorded.test(&prefixes)?;
        number(&mut rows, seq);
        Ok(Passed {
            ops,
            keys,
            prefixes,
            rows,
        })
    }
}

/// Gives rows a sequence.
fn number(rows: &mut Vec<RowEntry>, seq: u64)
    ensures { rows.new.items ≡ numbered seq rows.old.items }
{
    for row in rows.iter_mut() {
        row.seq = seq;
    }
}
