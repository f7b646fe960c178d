//! Many iterators as one.
ghost use Rattle.std.specs.Prelude.{◌≡◌, ◌<◌, ◌≤◌, Bool, List, true, None, Err, IfOk, IfErr, IsSome, OnOk, ℕ};
ghost use Rattle.std.specs.BinaryHeap.{heap_items};
ghost use Rattle.slate_types.specs.declared.error.SlateDBError.{SlateDBError};
ghost use Rattle.slate_types.specs.declared.iter.IterationOrder.{IterationOrder};
ghost use Rattle.slate_types.specs.Iteration.{TakesRow};
ghost use Rattle.slate_types.specs.Outside.{IsStill, OnlyReads};
ghost use Rattle.slate_types.specs.World.{World, Checks, Sees, ReadsAt};
ghost use Rattle.slate_types.proofs.Moves.{Moves};
ghost use Rattle.slate_merge.specs.Answering.{AnswersBy, FailsBy, IsFaultOr};
ghost use Rattle.slate_merge.specs.NoMoreRows.{AddsNoneByCall};
ghost use Rattle.slate_merge.specs.Offers.{offers};
ghost use Rattle.slate_merge.specs.Merging.{AreHeaped, AreReady, AreWithin, begun_sources};
ghost use Rattle.slate_merge.specs.MergeStateLaws.{refuses_more, refuses_whole, rest_rises};
ghost use Rattle.slate_merge.specs.MergeBringing.{merge_offers, IsHeapedIn, KeepsHeads, MergeBegins, MergeSeeks, MergeTakes};
ghost use Rattle.slate_merge.specs.MergeStates.{bound_in, CopiedIn, IsMergeOf, IsSameMerge, IsSoundIn, IsSoundMerge, IsWaiting, refuses_in, refuses_of_merge, rest_in, rest_of_merge, stays_of_merge, TakesLeft, IsWithinIn};

use crate::head::Head;
use crate::heads::{begin_again, begin_all, seek_heads, take_row};
use crate::kept::copy_of;
use slate_types::{
    IterationOrder, Outside, RowEntry, RowEntryIterator, SlateDBError, TrackedRowEntryIterator,
};
use std::alloc::Global;
use std::collections::{BinaryHeap, VecDeque};
use std::mem;

/// Where a merge stands: no source has begun, each has and stands by its first row, or it was refused.
#[derive(Drop)]
pub enum MergeState<I> {
    New(VecDeque<I>),
    Begun(BinaryHeap<Head<I>>),
    Refused(SlateDBError),
}

/// All rows of its sources, by key in the order, then by falling sequence, then by the source's place. With dedup the older
/// rows of a key after its first row that is no operand are dropped.
///
/// Each source must come in that order. After a refusal other than `IteratorNotInitialized` it answers the same refusal again.
#[derive(Drop)]
pub struct MergeIterator<I> {
    state: MergeState<I>,
    order: IterationOrder,
    dedup: bool,
    processed: u64,
}

impl<I: Drop> MergeIterator<I> {
    /// A merge with rising keys and dedup. Takes no memory.
    pub fn new(iterators: Vec<I>) -> MergeIterator<I>
        ensures merge { IsMergeOf iterators.items IterationOrder.Ascending true result }
    {
        MergeIterator::new_with_order(iterators, IterationOrder::Ascending)
    }

    /// A merge in an order, with dedup. Takes no memory.
    pub fn new_with_order(iterators: Vec<I>, order: IterationOrder) -> MergeIterator<I>
        ensures merge { IsMergeOf iterators.items order true result }
    {
        MergeIterator {
            state: MergeState::New(VecDeque::from_vec(iterators)),
            order,
            dedup: true,
            processed: 0,
        }
    }

    /// The same merge with dedup or without.
    pub fn with_dedup(mut self, dedup: bool) -> MergeIterator<I>
        ensures merge { (sources : List I) (order : IterationOrder) (before : Bool) → IsMergeOf sources order before self → IsMergeOf sources order dedup result }
    {
        self.dedup = dedup;
        self
    }

    /// The first row of the rest, which is taken off, or `None` at its end, as `RowEntryIterator::next` answers it, which calls
    /// this. Beside what that says: it takes the first of all rows that are left, and with dedup, where that is no operand, the
    /// older ones of its key, which are dropped; and to `bytes_processed` it adds the lengths of the keys and values of all these
    /// rows, up to `u64::MAX` (`takes`). So a row that dedup drops counts with the row that is handed out before it.
    #[inline(always)]
    pub fn next_row<E: Outside>(
        &mut self,
        alloc: Global,
        env: &mut E,
    ) -> Result<Option<RowEntry>, SlateDBError>
    where
        I: RowEntryIterator<E>,
        ensures rows { (w : World) → Sees w (E.reach env.old) (E.reach env.new) → IsSoundMerge I.rest I.sound I.order self.old w → IfOk result (λ answer. TakesRow (rest_of_merge I.rest self.old w) answer (rest_of_merge I.rest self.new w)) }
        ensures still { (w : World) → Sees w (E.reach env.old) (E.reach env.new) → IsSoundMerge I.rest I.sound I.order self.old w → IsSoundMerge I.rest I.sound I.order self.new w }
        ensures checked { (w : World) → IsSoundMerge I.rest I.sound I.order self.old w → OnOk result (Checks w (E.reach env.old) (E.reach env.new)) }
        ensures taken { IfOk result (λ answer. AnswersBy (λ x m reads y. MergeTakes I.begins I.takes I.seeks x m reads answer y) (refuses_of_merge I.refuses) (E.reach env.old) (E.reach env.new) self.old self.new) }
        ensures unbegun { IsWaiting self.old.state → (result ≡ Err SlateDBError.IteratorNotInitialized) × (self.new ≡ self.old) × (env.new ≡ env.old) }
        ensures takes { (w : World) → Sees w (E.reach env.old) (E.reach env.new) → IsSoundMerge I.rest I.sound I.order self.old w → OnOk result (TakesLeft I.rest w self.old self.new) }
        ensures cause { IfErr result (λ e. FailsBy (refuses_of_merge I.refuses) stays_of_merge (E.reach env.old) (E.reach env.new) self.old None e self.new) }
        ensures smaller { IfOk result (λ answer. IsSome answer → bound_in I.bound self.new.state < bound_in I.bound self.old.state) }
        ensures no_larger { bound_in I.bound self.new.state ≤ bound_in I.bound self.old.state }
        ensures order { self.new.order ≡ self.old.order }
        ensures within { (paths : List (List ℕ)) → IsWithinIn I.within self.old.state paths → ReadsAt paths (E.reach env.old) (E.reach env.new) × IsWithinIn I.within self.new.state paths }
        ensures reads { OnlyReads (E.reach env.old) (E.reach env.new) }
        ensures counts { IsStill (E.reach env.old).faults (E.reach env.new).faults result }
    {
        let answer = match &mut self.state {
            MergeState::New(_) => return Err(SlateDBError::IteratorNotInitialized),
            MergeState::Refused(refusal) => return Err(copy_of(refusal)),
            MergeState::Begun(heads) => {
                take_row(alloc, self.dedup, heads, &mut self.processed, env)
            }
        };
        match answer {
            Ok(row) => Ok(row),
            Err(error) => Err(self.refuse(error)),
        }
    }

    /// Keeps a refusal, which each later call then answers again.
    fn refuse(&mut self, error: SlateDBError) -> SlateDBError
        ensures same { result ≡ error }
        ensures copied { CopiedIn error self.new.state }
        ensures merge { IsSameMerge self.old self.new }
        ensures processed { self.new.processed ≡ self.old.processed }
    {
        let state = MergeState::Refused(copy_of(&error));
        drop(mem::replace(&mut self.state, state));
        error
    }

    fn begin(&mut self, heads: BinaryHeap<Head<I>>)
        ensures state { self.new.state ≡ MergeState.Begun heads }
        ensures merge { IsSameMerge self.old self.new }
        ensures processed { self.new.processed ≡ self.old.processed }
    {
        drop(mem::replace(&mut self.state, MergeState::Begun(heads)));
    }
}

/// Begins the sources of a merge, those with their first rows again.
fn begin_heads<E: Outside, I: RowEntryIterator<E>>(
    alloc: Global,
    state: &mut MergeState<I>,
    order: IterationOrder,
    env: &mut E,
) -> Result<BinaryHeap<Head<I>>, SlateDBError>
    ensures moved { (dedup : Bool) → IfOk result (λ heads. Moves (rest_in I.rest order dedup) (IsSoundIn I.rest I.sound I.order order) (refuses_in I.refuses) (E.reach env.old) (E.reach env.new) state.old (MergeState.Begun heads)) }
    ensures brought { IfOk result (λ heads. AddsNoneByCall (merge_offers (offers I.begins I.takes I.seeks)) (refuses_in I.refuses) (E.reach env.old) (E.reach env.new) state.old (MergeState.Begun heads)) }
    ensures heaped { IsHeapedIn order state.old → IfOk result (λ heads. AreHeaped order (heap_items heads)) }
    ensures same_rows { IfOk result (λ heads. KeepsHeads state.old (MergeState.Begun heads)) }
    ensures ready { IfOk result (λ heads. AreReady I.refuses (E.reach env.old).meaning (heap_items heads)) }
    ensures no_larger { IfOk result (λ heads. bound_in I.bound (MergeState.Begun heads) ≤ bound_in I.bound state.old) }
    ensures cause { IfErr result (λ e. IsFaultOr (refuses_in I.refuses) (E.reach env.old) (E.reach env.new) state.old None e) }
    ensures within { (paths : List (List ℕ)) → IsWithinIn I.within state.old paths → ReadsAt paths (E.reach env.old) (E.reach env.new) × IfOk result (λ heads. AreWithin I.within (begun_sources (heap_items heads)) paths) }
    ensures reads { OnlyReads (E.reach env.old) (E.reach env.new) }
    ensures counts { IsStill (E.reach env.old).faults (E.reach env.new).faults result }
{
    match state {
        MergeState::New(sources) => begin_all(alloc, sources, order, env),
        MergeState::Begun(heads) => begin_again(alloc, heads, env),
        MergeState::Refused(refusal) => Err(copy_of(refusal)),
    }
}

impl<E: Outside, I: RowEntryIterator<E>> RowEntryIterator<E> for MergeIterator<I> {
    ghost rest = { λ it w. rest_in I.rest it.order it.dedup it.state w };

    ghost sound = { λ it w. IsSoundIn I.rest I.sound I.order it.order it.state w };

    ghost order = { λ it. it.order };

    ghost bound = { λ it. bound_in I.bound it.state };

    ghost refuses = { λ it m reads at e. refuses_of_merge I.refuses it m reads at e };

    ghost begins = { λ before m reads after. MergeBegins I.begins I.takes I.seeks before m reads after };

    ghost takes = { λ before m reads answer after. MergeTakes I.begins I.takes I.seeks before m reads answer after };

    ghost seeks = { λ before m reads key after. MergeSeeks I.begins I.takes I.seeks before m reads key after };

    ghost stays = { λ before m reads at e after. stays_of_merge before m reads at e after };

    ghost within = { λ it paths. IsWithinIn I.within it.state paths };

    ghost unbegun = { λ it. IsWaiting it.state };

    ghost rising = { λ it w _. rest_rises I.rest it.order it.dedup it.state w };

    ghost more = { λ it m done reads at e h. refuses_more I.refuses I.more m done it.state reads at e h };

    ghost whole = { λ it w reads at e h k r. refuses_whole I.refuses I.rest I.sound I.order I.whole it.order w reads at e it.state h k r };

    fn iteration_order(&self) -> IterationOrder {
        self.order
    }

    fn init(&mut self, alloc: Global, env: &mut E) -> Result<(), SlateDBError> {
        if let MergeState::Refused(refusal) = &self.state {
            return Err(copy_of(refusal));
        }
        match begin_heads(alloc, &mut self.state, self.order, env) {
            Ok(heads) => {
                self.begin(heads);
                Ok(())
            }
            Err(error) => Err(self.refuse(error)),
        }
    }

    #[inline(always)]
    fn next(&mut self, alloc: Global, env: &mut E) -> Result<Option<RowEntry>, SlateDBError> {
        self.next_row(alloc, env)
    }

    fn seek(&mut self, alloc: Global, key: &[u8], env: &mut E) -> Result<(), SlateDBError> {
        let answer = match &mut self.state {
            MergeState::New(_) => return Err(SlateDBError::IteratorNotInitialized),
            MergeState::Refused(refusal) => return Err(copy_of(refusal)),
            MergeState::Begun(heads) => seek_heads(alloc, key, heads, env),
        };
        match answer {
            Ok(()) => Ok(()),
            Err(error) => Err(self.refuse(error)),
        }
    }
}

impl<E: Outside, I: RowEntryIterator<E>> TrackedRowEntryIterator<E> for MergeIterator<I> {
    ghost processed = { λ it. it.processed };

    /// The lengths of the keys and values of all rows that `next` took, together, and `u64::MAX` where that is more. A row that
    /// dedup drops counts with the row that is handed out before it; rows that a seek takes off don't count.
    fn bytes_processed(&self) -> u64 {
        self.processed
    }
}
