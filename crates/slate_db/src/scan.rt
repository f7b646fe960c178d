//! The rows of a scan.
ghost use Rattle.std.specs.Prelude.{◌≡◌, ◌≢◌, ⊤, None, Some, true, IfSome, drop};
ghost use Rattle.slate_types.specs.declared.bytes_range.BytesRange.{BytesRange};
ghost use Rattle.slate_types.specs.declared.error.SlateDBError.{SlateDBError};
ghost use Rattle.slate_types.specs.declared.iter.IterationOrder.{IterationOrder};
ghost use Rattle.slate_types.specs.Iteration.{drop_before};
ghost use Rattle.slate_types.specs.Keys.{is_past_start};
ghost use Rattle.slate_txn.specs.Alone.{first_left};
ghost use Rattle.slate_db.specs.Scans.{HandsIn, IsOperableIn, Keeps};
ghost use Rattle.slate_db.specs.Calls.Step.{NextOf, SeekOf, StepsIn};

use crate::values::{next_value, seek_values};
use slate_merge::kept::copy_of;
use slate_merge::{FilterIterator, MaxSeq, MergeIterator, MergeOperatorIterator};
use slate_read::ReadSource;
use slate_store::{Env, EnvOf, Store};
use slate_types::{
    BlockTransformer, BytesRange, IterationOrder, KeyValue, MergeOperator, Outside, SlateDBError,
};
use std::alloc::Global;
use std::mem;
use std::ops::Bound;
use uuid::Uuid;

/// Where a scan stands: rows may be left, a seek passed all of them, or it was refused.
#[derive(Drop)]
pub(crate) enum ScanState<'a> {
    Walking(MergeOperatorIterator<MergeIterator<FilterIterator<ReadSource<'a>, MaxSeq>>>),
    Done,
    Refused(SlateDBError),
}

/// The next row in a state that was not refused.
fn next_in<S: Store, M: MergeOperator, T: BlockTransformer>(
    alloc: Global,
    state: &mut ScanState<'_>,
    env: &mut Env<'_, S, M, T>,
) -> Result<Option<KeyValue>, SlateDBError>
    requires { (kept : SlateDBError) → state.old ≢ ScanState.Refused kept }
    ensures { let reach = ⟦<EnvOf<S, M, T> as Outside>⟧.reach in
        let m = (reach env.old).meaning in
        StepsIn None (λ order. drop 1) (λ rows a. a ≡ first_left rows)
        (λ reads a. IfSome a (HandsIn state.old m reads)) (IsOperableIn state.old)
        (reach env.old) (reach env.new) state.old state.new result }
{
    match state {
        ScanState::Walking(rows) => next_value(alloc, rows, env),
        ScanState::Done => Ok(None),
        ScanState::Refused(_) => unreachable!(),
    }
}

/// A seek to a key that isn't below the start of the range, in a state that was not refused.
fn seek_in<S: Store, M: MergeOperator, T: BlockTransformer>(
    alloc: Global,
    state: &mut ScanState<'_>,
    key: &[u8],
    env: &mut Env<'_, S, M, T>,
) -> Result<(), SlateDBError>
    requires { (kept : SlateDBError) → state.old ≢ ScanState.Refused kept }
    ensures { let reach = ⟦<EnvOf<S, M, T> as Outside>⟧.reach in
        StepsIn (Some key.now) (λ order. drop_before order key.now) (λ rows a. ⊤) (λ reads a. ⊤)
        (λ w. ⊤) (reach env.old) (reach env.new) state.old state.new result }
{
    match state {
        ScanState::Walking(rows) => seek_values(alloc, rows, key, env),
        ScanState::Done => Ok(()),
        ScanState::Refused(_) => unreachable!(),
    }
}

/// Whether the key is not below the start of the range.
fn is_past_start(range: &BytesRange, key: &[u8]) -> bool
    ensures { result ≡ is_past_start range.now.start key.now }
{
    match &range.start {
        Bound::Included(start) => start.as_slice().cmp(key).is_le(),
        Bound::Excluded(start) => start.as_slice().cmp(key).is_lt(),
        Bound::Unbounded => true,
    }
}

/// The rows of a scan that a reader gets: of each key in the range the newest, with operands folded onto what stands below
/// them, where that is no tombstone. They were fixed when the scan was opened.
///
/// After a refusal it answers the same refusal again, or `OutOfMemory` where no copy can be made.
#[derive(Drop)]
pub struct DbIterator<'a> {
    pub(crate) alloc: Global,
    pub(crate) state: ScanState<'a>,
    pub(crate) range: BytesRange,
    pub(crate) order: IterationOrder,
}

impl DbIterator<'_> {
    /// The next row, or `None` at the end. Refuses by `StoreFault`, `BlockTransformError` and `Callback`, each only where its
    /// count of faults rose, by damage, only where reads since the opening show it, by `MergeOperatorMissing`, only where there
    /// is no operator and a row is an operand, by `InvalidSequenceOrder`, only where there is one and a row has a greater sequence
    /// than an operand of its key, and by `OutOfMemory`. Where there is no operator it hands out a row as its sources have it, and
    /// no operand. `Core::scan` says where these rows stand. What it was refused for it answers again, without a read.
    pub fn next<S: Store, M: MergeOperator, T: BlockTransformer>(
        &mut self,
        env: &mut Env<'_, S, M, T>,
    ) -> Result<Option<KeyValue>, SlateDBError>
        ensures { let reach = ⟦<EnvOf<S, M, T> as Outside>⟧.reach in
            NextOf (reach env.old) (reach env.new) (env.new ≡ env.old) self.old self.new result }
    {
        if let ScanState::Refused(error) = &self.state {
            return Err(copy_of(error));
        }
        match next_in(self.alloc, &mut self.state, env) {
            Ok(row) => Ok(row),
            Err(error) => Err(self.refuse(error)),
        }
    }

    /// Drops the leading rows that the order puts before the key. Refuses as `next` does, but asks no operator, and folds no rows, so
    /// that `MergeOperatorMissing` and `InvalidSequenceOrder` come only where an earlier call was refused so.
    pub fn seek<S: Store, M: MergeOperator, T: BlockTransformer>(
        &mut self,
        key: &[u8],
        env: &mut Env<'_, S, M, T>,
    ) -> Result<(), SlateDBError>
        ensures { let reach = ⟦<EnvOf<S, M, T> as Outside>⟧.reach in
            SeekOf key.now (reach env.old) (reach env.new) (env.new ≡ env.old) self.old self.new
            result }
    {
        if let ScanState::Refused(kept) = &self.state {
            return Err(copy_of(kept));
        }
        if !is_past_start(&self.range, key) {
            self.pass_start();
            return Ok(());
        }
        match seek_in(self.alloc, &mut self.state, key, env) {
            Ok(()) => Ok(()),
            Err(error) => Err(self.refuse(error)),
        }
    }

    /// Keeps a refusal, which each later call then answers again.
    pub(crate) fn refuse(&mut self, error: SlateDBError) -> SlateDBError
        ensures same { result ≡ error }
        ensures again { Keeps error self.new }
        ensures range { self.new.range ≡ self.old.range }
        ensures order { self.new.order ≡ self.old.order }
    {
        let state = ScanState::Refused(copy_of(&error));
        drop(mem::replace(&mut self.state, state));
        error
    }

    /// A seek to a key below the start of the range passes all rows or none.
    fn pass_start(&mut self)
        ensures none { self.old.order ≡ IterationOrder.Ascending → self.new ≡ self.old }
        ensures all { self.old.order ≡ IterationOrder.Descending → self.new ≡ record self.old { state = ScanState.Done } }
    {
        match self.order {
            IterationOrder::Ascending => {}
            IterationOrder::Descending => drop(mem::replace(&mut self.state, ScanState::Done)),
        }
    }
}

/// The rows of a scan of a transaction, of which `Core::next` and `Core::seek` take and note what is read.
#[derive(Drop)]
pub struct TxnIterator<'a> {
    pub(crate) id: Uuid,
    /// Its place among the transaction's scans.
    pub(crate) scan: u64,
    pub(crate) rows: DbIterator<'a>,
}
