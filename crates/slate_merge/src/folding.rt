//! Which rows are folded, and the fold of the next ones of a source.
ghost use Rattle.std.specs.Prelude.{◌≡◌, ◌<◌, ◌≤◌, ◌+◌, ◌∷◌, [], true, false, Option, Some, None, IfOk, IfErr, IsSome, OnOk, List, ℕ};
ghost use Rattle.slate_types.specs.declared.error.SlateDBError.{SlateDBError};
ghost use Rattle.slate_types.specs.Equality as equality;
ghost use Rattle.slate_types.specs.Outside.{IsStill, OnlyReads};
ghost use Rattle.slate_types.specs.Refusing.{NoMore};
ghost use Rattle.slate_types.specs.Steps.{Step};
ghost use Rattle.slate_types.specs.World.{World, Made, Sees, ReadsAt};
ghost use Rattle.slate_types.proofs.Moves.{Moves};
ghost use Rattle.slate_merge.specs.Answering.{AnswersBy, IsFaultOr};
ghost use Rattle.slate_merge.specs.FoldCalls.{FailsFolding, StepsFolding, group_rows, operable_by, stops_gathering};
ghost use Rattle.slate_merge.specs.Folding.{AreLinked, FoldFalls, NoneRises, begins_linked, follows, is_open, links};
ghost use Rattle.slate_merge.specs.Folds.{folds_held, refuses_taken, rest_taken, sound_taken, takes_ahead};
ghost use Rattle.slate_merge.specs.OperatorIterators.{IsOwn};
ghost use Rattle.slate_merge.specs.Peeking.{ahead_bound, with_ahead};

use crate::fold_group::{Group, fold_group};
use crate::operates::Operates;
use slate_types::{Outside, RowEntry, RowEntryIterator, SlateDBError, ValueDeletable};
use std::alloc::Global;

/// Which rows are folded.
#[derive(Clone, Copy)]
pub struct Folding {
    /// Whether rows are folded together whose expiries differ.
    pub merge_different_expire_ts: bool,

    /// The greatest sequence of an operand that is folded, or none where each is.
    pub snapshot_barrier_seq: Option<u64>,
}

/// Whether stamps are the same.
fn same_stamp(a: Option<i64>, b: Option<i64>) -> bool
    ensures { result ≡ equality.same_stamp a b }
{
    a == b
}

/// Takes the row that was read ahead, or the source's next one.
fn take_ahead<E: Outside, I: RowEntryIterator<E>>(
    alloc: Global,
    iterator: &mut I,
    ahead: &mut Option<RowEntry>,
    env: &mut E,
) -> Result<Option<RowEntry>, SlateDBError>
    ensures step { IfOk result (λ answer. Step (rest_taken I.rest) (sound_taken I.rest I.sound I.order) (refuses_taken I.refuses) (takes_ahead I.takes) (E.reach env.old) (E.reach env.new) (iterator.old, ahead.old, []) answer (iterator.new, None, [])) }
    ensures empty { ahead.new ≡ None }
    ensures cause { IfErr result (λ e. IsFaultOr I.refuses (E.reach env.old) (E.reach env.new) iterator.old None e) }
    ensures smaller { IfOk result (λ answer. IsSome answer → I.bound iterator.new < ahead_bound ahead.old + I.bound iterator.old) }
    ensures no_larger { OnOk result (I.bound iterator.new ≤ ahead_bound ahead.old + I.bound iterator.old) }
    ensures order { I.order iterator.new ≡ I.order iterator.old }
    ensures within { (paths : List (List ℕ)) → I.within iterator.old paths → ReadsAt paths (E.reach env.old) (E.reach env.new) × I.within iterator.new paths }
    ensures reads { OnlyReads (E.reach env.old) (E.reach env.new) }
    ensures counts { IsStill (E.reach env.old).faults (E.reach env.new).faults result }
{
    if let Some(row) = ahead.take() {
        return Ok(Some(row));
    }
    match iterator.next(alloc, env) {
        Ok(answer) => Ok(answer),
        Err(error) => Err(error),
    }
}

impl Folding {
    /// Whether the row is an operand that isn't above the barrier.
    fn is_open(self, row: &RowEntry) -> bool
        ensures { result ≡ is_open self.snapshot_barrier_seq row.now }
    {
        match row.value {
            ValueDeletable::Merge(_) => match self.snapshot_barrier_seq {
                Some(barrier) => row.seq <= barrier,
                None => true,
            },
            _ => false,
        }
    }

    /// Whether a row may be folded into the one before it.
    fn follows(self, row: &RowEntry, next: &RowEntry) -> bool
        ensures { result ≡ follows self.merge_different_expire_ts row.now next.now }
    {
        row.key == next.key
            && (self.merge_different_expire_ts || same_stamp(row.expire_ts, next.expire_ts))
    }

    /// Takes the rows that are folded into the first one. A row that doesn't follow is kept ahead; one that does, with a greater
    /// sequence than the operand before it, is refused.
    #[tactic(auto, using(slate_types::proofs::Moves::moves_none, slate_types::proofs::Reaching::reads_none, crate::proofs::Risings::gathering_none))]
    fn gather<E: Outside, I: RowEntryIterator<E>>(
        self,
        alloc: Global,
        first: RowEntry,
        iterator: &mut I,
        ahead: &mut Option<RowEntry>,
        env: &mut E,
    ) -> Result<Group, SlateDBError>
        requires none { ahead.old ≡ None }
        ensures moved { IfOk result (λ group. Moves (rest_taken I.rest) (sound_taken I.rest I.sound I.order) (refuses_taken I.refuses) (E.reach env.old) (E.reach env.new) (iterator.old, None, first ∷ []) (iterator.new, ahead.new, group_rows group)) }
        ensures linked { IfOk result (λ group. AreLinked (links self.merge_different_expire_ts self.snapshot_barrier_seq) group.newer.items group.oldest) }
        ensures ends { (w : World) → Sees w (E.reach env.old) (E.reach env.new) → sound_taken I.rest I.sound I.order (iterator.old, None, first ∷ []) w →
            IfOk result (λ group. begins_linked (links self.merge_different_expire_ts self.snapshot_barrier_seq) group.oldest (with_ahead ahead.new (I.rest iterator.new w)) ≡ false) }
        ensures came { OnOk result (AnswersBy (folds_held I.takes) (refuses_taken I.refuses) (E.reach env.old) (E.reach env.new) (iterator.old, None, []) (iterator.new, ahead.new, [])) }
        ensures falls { IfOk result (λ group. NoneRises self.merge_different_expire_ts self.snapshot_barrier_seq (group_rows group)) }
        ensures cause { IfErr result (λ e. IsFaultOr (stops_gathering self I.refuses I.takes first iterator.new) (E.reach env.old) (E.reach env.new) iterator.old None e) }
        ensures own { (w : World) → Sees w (E.reach env.old) (E.reach env.new) → sound_taken I.rest I.sound I.order (iterator.old, None, first ∷ []) w →
            NoneRises self.merge_different_expire_ts self.snapshot_barrier_seq (rest_taken I.rest (iterator.old, None, first ∷ []) w) → IfErr result (λ e. IsOwn I.refuses (E.reach env.old) (E.reach env.new) iterator.old e) }
        ensures no_larger { OnOk result (ahead_bound ahead.new + I.bound iterator.new ≤ I.bound iterator.old) }
        ensures order { I.order iterator.new ≡ I.order iterator.old }
        ensures within { (paths : List (List ℕ)) → I.within iterator.old paths → ReadsAt paths (E.reach env.old) (E.reach env.new) × I.within iterator.new paths }
        ensures reads { OnlyReads (E.reach env.old) (E.reach env.new) }
        ensures counts { IsStill (E.reach env.old).faults (E.reach env.new).faults result }
    {
        let mut newer = Vec::new(alloc);
        let mut oldest = first;
        'linked: while self.is_open(&oldest) {
            newer.reserve(1)?;
            match iterator.next(alloc, env) {
                Ok(Some(row)) => {
                    if !self.follows(&oldest, &row) {
                        *ahead = Some(row);
                        return Ok(Group { newer, oldest });
                    }
                    if oldest.seq < row.seq {
                        return Err(SlateDBError::InvalidSequenceOrder {
                            current_seq: oldest.seq,
                            next_seq: row.seq,
                        });
                    }
                    newer.push_reserved(oldest);
                    oldest = row;
                }
                Ok(None) => return Ok(Group { newer, oldest }),
                Err(error) => return Err(error),
            }
        }
        Ok(Group { newer, oldest })
    }

    /// Takes the next row, and folds into it what is to be.
    pub(crate) fn next<E: Operates, I: RowEntryIterator<E>>(
        self,
        alloc: Global,
        iterator: &mut I,
        ahead: &mut Option<RowEntry>,
        env: &mut E,
    ) -> Result<Option<RowEntry>, SlateDBError>
        ensures step { IfOk result (λ answer. StepsFolding self I.rest I.sound I.refuses I.begins I.takes I.seeks I.order (E.reach env.old) (E.reach env.new) (iterator.old, ahead.old, []) answer (iterator.new, ahead.new, [])) }
        ensures cause { IfErr result (λ e. FailsFolding self I.refuses I.begins I.takes I.seeks (E.reach env.old) (E.reach env.new) (iterator.old, ahead.old, []) e (iterator.new, ahead.new, [])) }
        ensures falls { (w : World) → Sees w (E.reach env.old) (E.reach env.new) → sound_taken I.rest I.sound I.order (iterator.old, ahead.old, []) w →
            OnOk result (FoldFalls self.merge_different_expire_ts self.snapshot_barrier_seq (rest_taken I.rest (iterator.old, ahead.old, []) w)) }
        ensures own { (w : World) → Sees w (E.reach env.old) (E.reach env.new) → sound_taken I.rest I.sound I.order (iterator.old, ahead.old, []) w →
            operable_by self I.rest (iterator.old, ahead.old, []) w → IfErr result (λ e. IsOwn I.refuses (E.reach env.old) (E.reach env.new) iterator.old e) }
        ensures operable { (w : World) → Sees w (E.reach env.old) (E.reach env.new) → sound_taken I.rest I.sound I.order (iterator.old, ahead.old, []) w →
            operable_by self I.rest (iterator.old, ahead.old, []) w → OnOk result (operable_by self I.rest (iterator.new, ahead.new, []) w) }
        ensures sources { OnOk result (Made (E.reach env.old) (E.reach env.new) (λ reads. NoMore (I.refuses iterator.old (E.reach env.old).meaning) reads (I.refuses iterator.new (E.reach env.old).meaning))) }
        ensures smaller { IfOk result (λ answer. IsSome answer → ahead_bound ahead.new + I.bound iterator.new < ahead_bound ahead.old + I.bound iterator.old) }
        ensures no_larger { OnOk result (ahead_bound ahead.new + I.bound iterator.new ≤ ahead_bound ahead.old + I.bound iterator.old) }
        ensures order { I.order iterator.new ≡ I.order iterator.old }
        ensures within { (paths : List (List ℕ)) → I.within iterator.old paths → ReadsAt paths (E.reach env.old) (E.reach env.new) × I.within iterator.new paths }
        ensures reads { OnlyReads (E.reach env.old) (E.reach env.new) }
        ensures counts { IsStill (E.reach env.old).faults (E.reach env.new).faults result }
    {
        let first = match take_ahead(alloc, iterator, ahead, env) {
            Ok(Some(first)) => first,
            Ok(None) => return Ok(None),
            Err(error) => return Err(error),
        };
        if !self.is_open(&first) {
            return Ok(Some(first));
        }
        if !env.has_operator() {
            drop(first);
            return Err(SlateDBError::MergeOperatorMissing);
        }
        match self.gather(alloc, first, iterator, ahead, env) {
            Ok(group) => match fold_group(alloc, group, env) {
                Ok(row) => Ok(Some(row)),
                Err(error) => Err(error),
            },
            Err(error) => Err(error),
        }
    }
}
