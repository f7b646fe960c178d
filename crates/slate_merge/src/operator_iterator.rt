//! An iterator that folds operands onto what stands below them.
ghost use Rattle.std.specs.Prelude.{◌≡◌, ◌<◌, ◌≤◌, false, None, Some, Err, IfErr, IfOk, IsOk, IsSome, OnOk, List, ℕ};
ghost use Rattle.slate_types.specs.declared.error.SlateDBError.{SlateDBError};
ghost use Rattle.slate_types.specs.Iteration.{TakesRow, drop_before};
ghost use Rattle.slate_types.specs.Outside.{IsStill, OnlyReads};
ghost use Rattle.slate_types.specs.Refusing.{IsReady, NoMore};
ghost use Rattle.slate_types.specs.World.{World, Checks, Made, Sees, ReadsAt};
ghost use Rattle.slate_merge.specs.Answering.{AnswersBy, FailsBy};
ghost use Rattle.slate_merge.specs.Offers.{offers};
ghost use Rattle.slate_merge.specs.OperatorIterators.{Begins, FallsAtFirst, IsFolding, IsGoing, IsOperable, IsOwn, Keeps, Seeks, Stays, Takes, bound_folding, refuses_folding, rest_folding, sound_folding};
ghost use Rattle.slate_merge.specs.OperatorLaws.{folding_more, folding_rises, folding_whole};

use crate::folding::Folding;
use crate::kept::copy_of;
use crate::operates::Operates;
use crate::peeking_iterator::is_ahead_kept;
use slate_types::{
    IterationOrder, RowEntry, RowEntryIterator, SlateDBError, TrackedRowEntryIterator,
};
use std::alloc::Global;
use std::mem;

/// The rows of an iterator, of which operands are folded onto what stands below them.
///
/// Rows that are no operand, and operands above the barrier, are handed through. Any other operand is folded with the following
/// rows of its key, up to and including the first that is no operand.
///
/// A row that is to be folded, and has a greater sequence than the operand before it, is refused by `InvalidSequenceOrder`, which
/// names both sequences. No source in turn brings one, and `next_row` says that none is folded. A row that isn't folded, since its
/// expiry differs, ends the fold whatever its sequence.
///
/// Without an operator nothing is folded: each row that it hands out is the source's, or the one that was read ahead, unchanged, and
/// is no operand that isn't above the barrier. `MergeOperatorMissing` comes only there: it is the source's own refusal, or such an
/// operand comes next. `next_row` says where it never comes of itself.
///
/// Each of the two comes of itself only where rows show it: the row that was read ahead, and those that calls of the source hand
/// out by the reads from then on, have an operand, or an operand and a row of its key with a greater sequence.
///
/// Each refusal is kept and answered again, or want of memory in its place, but for the `IteratorNotInitialized` that it answers of
/// itself, only before `init`, and which leaves it as it is. A seek before `init` answers nothing else.
#[derive(Drop)]
pub struct MergeOperatorIterator<I> {
    iterator: I,
    folding: Folding,

    /// The row behind the last fold.
    ahead: Option<RowEntry>,

    /// Whether it was begun.
    begun: bool,
    refusal: Option<SlateDBError>,
}

impl<I: Drop> MergeOperatorIterator<I> {
    /// The rows of the iterator, folded. Unless `merge_different_expire_ts` a fold ends before a row whose expiry differs.
    /// Operands with a sequence above the barrier are handed through. Takes no memory.
    pub fn new(
        iterator: I,
        merge_different_expire_ts: bool,
        snapshot_barrier_seq: Option<u64>,
    ) -> Result<MergeOperatorIterator<I>, SlateDBError>
        ensures folding { IfOk result (λ it. IsFolding iterator (record { merge_different_expire_ts = merge_different_expire_ts; snapshot_barrier_seq = snapshot_barrier_seq }) it) }
        ensures fine { IsOk result }
    {
        Ok(MergeOperatorIterator {
            iterator,
            folding: Folding {
                merge_different_expire_ts,
                snapshot_barrier_seq,
            },
            ahead: None,
            begun: false,
            refusal: None,
        })
    }

    /// The first row of the rest, which is taken off, or `None` at its end, as `RowEntryIterator::next` answers it, which calls
    /// this. Beside what that says: where it has begun and wasn't refused, and no operand is left that would be folded, or there is
    /// an operator, and no row that is left rises above the operand before it (`IsOperable`), it refuses for a fault or for the
    /// source's own refusal alone (`own`), and that stays so (`operable`). Where it answers, no such row stood among those that
    /// it folded (`falls`). An answer adds nothing to what the source may refuse (`sources`).
    #[tactic(auto, using(slate_types::proofs::Reaching::reads_none, slate_types::proofs::Calls::reads_at_none))]
    pub fn next_row<E: Operates>(
        &mut self,
        alloc: Global,
        env: &mut E,
    ) -> Result<Option<RowEntry>, SlateDBError>
    where
        I: RowEntryIterator<E>,
        ensures rows { (w : World) → Sees w (E.reach env.old) (E.reach env.new) → sound_folding I.rest I.sound I.order self.old w → IfOk result (λ answer. TakesRow (rest_folding I.rest self.old w) answer (rest_folding I.rest self.new w)) }
        ensures still { (w : World) → Sees w (E.reach env.old) (E.reach env.new) → sound_folding I.rest I.sound I.order self.old w → sound_folding I.rest I.sound I.order self.new w }
        ensures checked { (w : World) → sound_folding I.rest I.sound I.order self.old w → OnOk result (Checks w (E.reach env.old) (E.reach env.new)) }
        ensures unbegun { (self.old.begun ≡ false) × (self.old.refusal ≡ None) →
            (result ≡ Err SlateDBError.IteratorNotInitialized) × (self.new ≡ self.old) × (env.new ≡ env.old) }
        ensures taken { IfOk result (λ answer. AnswersBy (λ x m reads y. Takes I.takes x m reads answer y) (refuses_folding I.refuses (offers I.begins I.takes I.seeks)) (E.reach env.old) (E.reach env.new) self.old self.new) }
        ensures cause { IfErr result (λ e. FailsBy (refuses_folding I.refuses (offers I.begins I.takes I.seeks)) (Stays I.refuses I.takes) (E.reach env.old) (E.reach env.new) self.old None e self.new) }
        ensures smaller { IfOk result (λ answer. IsSome answer → bound_folding I.bound self.new < bound_folding I.bound self.old) }
        ensures no_larger { bound_folding I.bound self.new ≤ bound_folding I.bound self.old }
        ensures order { I.order self.new.iterator ≡ I.order self.old.iterator }
        ensures within { (paths : List (List ℕ)) → I.within self.old.iterator paths → ReadsAt paths (E.reach env.old) (E.reach env.new) × I.within self.new.iterator paths }
        ensures reads { OnlyReads (E.reach env.old) (E.reach env.new) }
        ensures counts { IsStill (E.reach env.old).faults (E.reach env.new).faults result }
        ensures own { (w : World) → Sees w (E.reach env.old) (E.reach env.new) → IsGoing self.old → sound_folding I.rest I.sound I.order self.old w → IsOperable I.rest self.old w →
            IfErr result (λ e. IsOwn I.refuses (E.reach env.old) (E.reach env.new) self.old.iterator e) }
        ensures falls { (w : World) → Sees w (E.reach env.old) (E.reach env.new) → sound_folding I.rest I.sound I.order self.old w → OnOk result (FallsAtFirst I.rest self.old w) }
        ensures operable { (w : World) → Sees w (E.reach env.old) (E.reach env.new) → sound_folding I.rest I.sound I.order self.old w → IsOperable I.rest self.old w → OnOk result (IsOperable I.rest self.new w) }
        ensures sources { OnOk result (Made (E.reach env.old) (E.reach env.new) (λ reads. NoMore (I.refuses self.old.iterator (E.reach env.old).meaning) reads (I.refuses self.new.iterator (E.reach env.old).meaning))) }
    {
        if let Some(refusal) = &self.refusal {
            return Err(copy_of(refusal));
        }
        if !self.begun {
            return Err(SlateDBError::IteratorNotInitialized);
        }
        match self
            .folding
            .next(alloc, &mut self.iterator, &mut self.ahead, env)
        {
            Ok(answer) => Ok(answer),
            Err(error) => Err(self.refuse(error)),
        }
    }

    /// Keeps a refusal, which each later call then answers again.
    fn refuse(&mut self, error: SlateDBError) -> SlateDBError
        ensures same { result ≡ error }
        ensures keeps { Keeps error self.new }
        ensures iterator { self.new.iterator ≡ self.old.iterator }
    {
        let kept = Some(copy_of(&error));
        drop(mem::replace(&mut self.refusal, kept));
        error
    }
}

impl<E: Operates, I: RowEntryIterator<E>> RowEntryIterator<E> for MergeOperatorIterator<I> {
    ghost rest = { λ it w. rest_folding I.rest it w };

    ghost sound = { λ it w. sound_folding I.rest I.sound I.order it w };

    ghost order = { λ it. I.order it.iterator };

    ghost bound = { λ it. bound_folding I.bound it };

    ghost refuses = { λ it m reads at e. refuses_folding I.refuses (offers I.begins I.takes I.seeks) it m reads at e };

    ghost begins = { λ before m reads after. Begins I.begins before m reads after };

    ghost takes = { λ before m reads answer after. Takes I.takes before m reads answer after };

    ghost seeks = { λ before m reads key after. Seeks I.seeks before m reads key after };

    ghost stays = { λ before m reads at e after. Stays I.refuses I.takes before m reads at e after };

    ghost within = { λ it paths. I.within it.iterator paths };

    ghost unbegun = { λ it. (it.begun ≡ false) × (it.refusal ≡ None) };

    ghost rising = { λ it w h. folding_rises I.rest I.sound I.order it w h };

    ghost more = { λ it m done reads at e h. folding_more I.refuses I.more I.begins I.takes I.seeks it m done reads at e h };

    ghost whole = { λ it w reads at e h k r. folding_whole I.rest I.sound I.order I.refuses I.whole (offers I.begins I.takes I.seeks) it w reads at e h k r };

    fn iteration_order(&self) -> IterationOrder {
        self.iterator.iteration_order()
    }

    #[tactic(auto, using(slate_types::proofs::Reaching::reads_none, slate_types::proofs::Calls::reads_at_none))]
    fn init(&mut self, alloc: Global, env: &mut E) -> Result<(), SlateDBError>
        ensures rows { (w : World) → Sees w (E.reach env.old) (E.reach env.new) → sound_folding I.rest I.sound I.order self.old w → OnOk result (rest_folding I.rest self.new w ≡ rest_folding I.rest self.old w) }
        ensures still { (w : World) → Sees w (E.reach env.old) (E.reach env.new) → sound_folding I.rest I.sound I.order self.old w → sound_folding I.rest I.sound I.order self.new w }
        ensures checked { (w : World) → sound_folding I.rest I.sound I.order self.old w → OnOk result (Checks w (E.reach env.old) (E.reach env.new)) }
        ensures ready { OnOk result (IsReady (refuses_folding I.refuses (offers I.begins I.takes I.seeks) self.new (E.reach env.old).meaning)) }
        ensures begun { OnOk result (AnswersBy (Begins I.begins) (refuses_folding I.refuses (offers I.begins I.takes I.seeks)) (E.reach env.old) (E.reach env.new) self.old self.new) }
        ensures cause { IfErr result (λ e. FailsBy (refuses_folding I.refuses (offers I.begins I.takes I.seeks)) (Stays I.refuses I.takes) (E.reach env.old) (E.reach env.new) self.old None e self.new) }
        ensures no_larger { bound_folding I.bound self.new ≤ bound_folding I.bound self.old }
        ensures order { I.order self.new.iterator ≡ I.order self.old.iterator }
        ensures within { (paths : List (List ℕ)) → I.within self.old.iterator paths → ReadsAt paths (E.reach env.old) (E.reach env.new) × I.within self.new.iterator paths }
        ensures reads { OnlyReads (E.reach env.old) (E.reach env.new) }
        ensures counts { IsStill (E.reach env.old).faults (E.reach env.new).faults result }
        ensures operable { (w : World) → Sees w (E.reach env.old) (E.reach env.new) → sound_folding I.rest I.sound I.order self.old w → IsOperable I.rest self.old w → OnOk result (IsOperable I.rest self.new w) }
        ensures sources { OnOk result (Made (E.reach env.old) (E.reach env.new) (λ reads. NoMore (I.refuses self.old.iterator (E.reach env.old).meaning) reads (I.refuses self.new.iterator (E.reach env.old).meaning))) }
    {
        if let Some(refusal) = &self.refusal {
            return Err(copy_of(refusal));
        }
        match self.iterator.init(alloc, env) {
            Ok(()) => {
                self.begun = true;
                Ok(())
            }
            Err(error) => Err(self.refuse(error)),
        }
    }

    fn next(&mut self, alloc: Global, env: &mut E) -> Result<Option<RowEntry>, SlateDBError> {
        self.next_row(alloc, env)
    }

    #[tactic(auto, using(slate_types::proofs::Reaching::reads_none, slate_types::proofs::Calls::reads_at_none))]
    fn seek(&mut self, alloc: Global, key: &[u8], env: &mut E) -> Result<(), SlateDBError>
        ensures rows { (w : World) → Sees w (E.reach env.old) (E.reach env.new) → sound_folding I.rest I.sound I.order self.old w →
            OnOk result (rest_folding I.rest self.new w ≡ drop_before (I.order self.old.iterator) key.now (rest_folding I.rest self.old w)) }
        ensures still { (w : World) → Sees w (E.reach env.old) (E.reach env.new) → sound_folding I.rest I.sound I.order self.old w → sound_folding I.rest I.sound I.order self.new w }
        ensures checked { (w : World) → sound_folding I.rest I.sound I.order self.old w → OnOk result (Checks w (E.reach env.old) (E.reach env.new)) }
        ensures sought { OnOk result (AnswersBy (λ x m reads y. Seeks I.seeks x m reads key.now y) (refuses_folding I.refuses (offers I.begins I.takes I.seeks)) (E.reach env.old) (E.reach env.new) self.old self.new) }
        ensures cause { IfErr result (λ e. FailsBy (refuses_folding I.refuses (offers I.begins I.takes I.seeks)) (Stays I.refuses I.takes) (E.reach env.old) (E.reach env.new) self.old (Some key.now) e self.new) }
        ensures no_larger { bound_folding I.bound self.new ≤ bound_folding I.bound self.old }
        ensures order { I.order self.new.iterator ≡ I.order self.old.iterator }
        ensures within { (paths : List (List ℕ)) → I.within self.old.iterator paths → ReadsAt paths (E.reach env.old) (E.reach env.new) × I.within self.new.iterator paths }
        ensures reads { OnlyReads (E.reach env.old) (E.reach env.new) }
        ensures counts { IsStill (E.reach env.old).faults (E.reach env.new).faults result }
        ensures operable { (w : World) → Sees w (E.reach env.old) (E.reach env.new) → sound_folding I.rest I.sound I.order self.old w → IsOperable I.rest self.old w → OnOk result (IsOperable I.rest self.new w) }
        ensures sources { OnOk result (Made (E.reach env.old) (E.reach env.new) (λ reads. NoMore (I.refuses self.old.iterator (E.reach env.old).meaning) reads (I.refuses self.new.iterator (E.reach env.old).meaning))) }
    {
        if let Some(refusal) = &self.refusal {
            return Err(copy_of(refusal));
        }
        if !self.begun {
            return Err(SlateDBError::IteratorNotInitialized);
        }
        if is_ahead_kept(&self.ahead, self.iterator.iteration_order(), key) {
            return Ok(());
        }
        drop(self.ahead.take());
        match self.iterator.seek(alloc, key, env) {
            Ok(()) => Ok(()),
            Err(error) => Err(self.refuse(error)),
        }
    }
}

impl<E: Operates, I: TrackedRowEntryIterator<E>> TrackedRowEntryIterator<E>
    for MergeOperatorIterator<I> {
    ghost processed = { λ it. I.processed it.iterator };

    fn bytes_processed(&self) -> u64 {
        self.iterator.bytes_processed()
    }
}
