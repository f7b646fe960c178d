//! An iterator whose next row can be looked at.
ghost use Rattle.std.specs.Prelude.{◌≡◌, ◌⊎◌, ◌≤◌, [], None, IfOk, IfErr, IsOk, OnOk, option_copied, List, ℕ};
ghost use Rattle.slate_types.specs.Outside.{IsStill, OnlyReads};
ghost use Rattle.slate_types.specs.World.{World, Sees, ReadsAt};
ghost use Rattle.slate_types.proofs.Moves.{Moves};
ghost use Rattle.slate_merge.specs.Answering.{IsFaultOr};
ghost use Rattle.slate_merge.specs.Peeking.{ahead_of, bound_peeked, head_of, is_kept, IsPeeking, IsSoundPeeked, refuses_peeked, rest_peeked, TakesAhead};

use slate_types::{
    IterationOrder, Outside, RowEntry, RowEntryIterator, SlateDBError, TrackedRowEntryIterator,
};
use std::alloc::Global;

/// The rows of an iterator, the first of which can be looked at before it is taken.
///
/// It refuses what its source refuses. A row that was read ahead is then let go of, also where the source itself stands as it
/// stood, as behind `IteratorNotInitialized` and `SeekKeyOutOfKeyRange`: what a source has left behind a refusal isn't known.
/// So after a refusal the iterator has the rows of its source alone.
#[derive(Drop)]
pub struct PeekingIterator<I> {
    iterator: I,

    /// The row that was looked at.
    ahead: Option<RowEntry>,
}

/// Whether the row that was read ahead doesn't come before the key.
pub fn is_ahead_kept(ahead: &Option<RowEntry>, order: IterationOrder, key: &[u8]) -> bool
    ensures { result ≡ is_kept order key.now ahead.now }
{
    match ahead {
        Some(row) => !order.puts_before(row.key.as_slice(), key),
        None => false,
    }
}

impl<I: Drop> PeekingIterator<I> {
    /// The same rows. Takes no memory.
    pub fn new(iterator: I) -> Result<PeekingIterator<I>, SlateDBError>
        ensures peeking { IfOk result (λ it. IsPeeking iterator it) }
        ensures fine { IsOk result }
    {
        Ok(PeekingIterator {
            iterator,
            ahead: None,
        })
    }

    /// Reads the next row ahead, where none is: `ahead` then shows it.
    pub fn read_ahead<E: Outside>(&mut self, alloc: Global, env: &mut E) -> Result<(), SlateDBError>
    where
        I: RowEntryIterator<E>,
        ensures moved { OnOk result (Moves (rest_peeked I.rest) (IsSoundPeeked I.rest I.sound I.order) (refuses_peeked I.refuses) (E.reach env.old) (E.reach env.new) self.old self.new) }
        ensures first { (w : World) → Sees w (E.reach env.old) (E.reach env.new) → IsSoundPeeked I.rest I.sound I.order self.old w → OnOk result (ahead_of self.new ≡ head_of (rest_peeked I.rest self.old w)) }
        ensures still { (w : World) → Sees w (E.reach env.old) (E.reach env.new) → IsSoundPeeked I.rest I.sound I.order self.old w → IsSoundPeeked I.rest I.sound I.order self.new w }
        ensures cause { IfErr result (λ e. IsFaultOr (refuses_peeked I.refuses) (E.reach env.old) (E.reach env.new) self.old None e) }
        ensures no_larger { bound_peeked I.bound self.new ≤ bound_peeked I.bound self.old }
        ensures within { (paths : List (List ℕ)) → I.within self.old.iterator paths → ReadsAt paths (E.reach env.old) (E.reach env.new) × I.within self.new.iterator paths }
        ensures reads { OnlyReads (E.reach env.old) (E.reach env.new) }
        ensures counts { IsStill (E.reach env.old).faults (E.reach env.new).faults result }
    {
        if self.ahead.is_some() {
            return Ok(());
        }
        match self.iterator.next(alloc, env) {
            Ok(answer) => {
                self.ahead = answer;
                Ok(())
            }
            Err(error) => Err(error),
        }
    }

    /// The row that was read ahead.
    pub fn ahead(&self) -> Option<&RowEntry>
        ensures { option_copied result ≡ ahead_of self.now }
    {
        self.ahead.as_ref()
    }
}

impl<E: Outside, I: RowEntryIterator<E>> RowEntryIterator<E> for PeekingIterator<I> {
    ghost rest = { λ it w. rest_peeked I.rest it w };

    ghost sound = { λ it w. IsSoundPeeked I.rest I.sound I.order it w };

    ghost order = { λ it. I.order it.iterator };

    ghost bound = { λ it. bound_peeked I.bound it };

    ghost refuses = { λ it m reads at e. I.refuses it.iterator m reads at e };

    ghost begins = { λ before m reads after. I.begins before.iterator m reads after.iterator × (after.ahead ≡ before.ahead) };

    ghost takes = { λ before m reads answer after. TakesAhead (λ x rs a y. I.takes x m rs a y) before.ahead reads answer before.iterator after.iterator × (after.ahead ≡ None) };

    ghost seeks = { λ before m reads key after. ((reads ≡ []) × (after ≡ before)) ⊎ ((after.ahead ≡ None) × I.seeks before.iterator m reads key after.iterator) };

    ghost stays = { λ before m reads at e after. I.stays before.iterator m reads at e after.iterator × (after.ahead ≡ None) };

    ghost within = { λ it paths. I.within it.iterator paths };

    ghost unbegun = { λ it. I.unbegun it.iterator × (it.ahead ≡ None) };

    ghost rising = { λ _ _ h. h.1 };

    ghost more = { λ it m done reads at e h. I.more it.iterator m done reads at e h };

    ghost whole = { λ it w reads at e h k r. I.whole it.iterator w reads at e h.0 k r };

    fn iteration_order(&self) -> IterationOrder {
        self.iterator.iteration_order()
    }

    fn init(&mut self, alloc: Global, env: &mut E) -> Result<(), SlateDBError> {
        match self.iterator.init(alloc, env) {
            Ok(()) => Ok(()),
            Err(error) => {
                drop(self.ahead.take());
                Err(error)
            }
        }
    }

    fn next(&mut self, alloc: Global, env: &mut E) -> Result<Option<RowEntry>, SlateDBError> {
        if let Some(row) = self.ahead.take() {
            return Ok(Some(row));
        }
        match self.iterator.next(alloc, env) {
            Ok(answer) => Ok(answer),
            Err(error) => Err(error),
        }
    }

    fn seek(&mut self, alloc: Global, key: &[u8], env: &mut E) -> Result<(), SlateDBError> {
        if is_ahead_kept(&self.ahead, self.iterator.iteration_order(), key) {
            return Ok(());
        }
        drop(self.ahead.take());
        match self.iterator.seek(alloc, key, env) {
            Ok(()) => Ok(()),
            Err(error) => Err(error),
        }
    }
}

impl<E: Outside, I: TrackedRowEntryIterator<E>> TrackedRowEntryIterator<E> for PeekingIterator<I> {
    ghost processed = { λ it. I.processed it.iterator };

    fn bytes_processed(&self) -> u64 {
        self.iterator.bytes_processed()
    }
}
