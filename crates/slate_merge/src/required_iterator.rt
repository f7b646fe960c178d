//! An iterator that refuses operands, where there is no operator to merge them.
ghost use Rattle.std.specs.Prelude.{◌≡◌, ◌⊎◌, true, false, IfOk, IfSome, IsOk, Some};
ghost use Rattle.slate_types.specs.declared.error.SlateDBError.{SlateDBError};
ghost use Rattle.slate_types.specs.declared.types.RowEntry.{RowEntry};
ghost use Rattle.slate_types.specs.Rows.{is_base, is_operand};
ghost use Rattle.slate_merge.specs.Required.{IsRequiring, StaysRequired, required_more, required_whole};

use slate_types::{
    IterationOrder, Outside, RowEntry, RowEntryIterator, SlateDBError, TrackedRowEntryIterator,
    ValueDeletable,
};
use std::alloc::Global;

/// The rows of an iterator. It refuses exactly at an operand, and from then on.
#[derive(Drop)]
pub struct MergeOperatorRequiredIterator<I> {
    iterator: I,

    /// Whether an operand came.
    missing: bool,
}

fn is_operand(row: &RowEntry) -> bool
    ensures { result ≡ is_operand row.now }
{
    matches!(row.value, ValueDeletable::Merge(_))
}

impl<I: Drop> MergeOperatorRequiredIterator<I> {
    /// The same rows, as long as none is an operand. Takes no memory.
    pub fn new(iterator: I) -> Result<MergeOperatorRequiredIterator<I>, SlateDBError>
        ensures requiring { IfOk result (λ it. IsRequiring iterator it) }
        ensures fine { IsOk result }
    {
        Ok(MergeOperatorRequiredIterator {
            iterator,
            missing: false,
        })
    }
}

impl<E: Outside, I: RowEntryIterator<E>> RowEntryIterator<E> for MergeOperatorRequiredIterator<I> {
    ghost rest = { λ it w. I.rest it.iterator w };

    ghost sound = { λ it w. I.sound it.iterator w };

    ghost order = { λ it. I.order it.iterator };

    ghost bound = { λ it. I.bound it.iterator };

    ghost refuses = { λ it m reads at e. (e ≡ SlateDBError.MergeOperatorMissing) ⊎ I.refuses it.iterator m reads at e };

    ghost begins = { λ before m reads after. I.begins before.iterator m reads after.iterator × (before.missing ≡ false) × (after.missing ≡ false) };

    ghost takes = { λ before m reads answer after. IfSome answer (λ row. is_base row ≡ true) × I.takes before.iterator m reads answer after.iterator × (before.missing ≡ false) × (after.missing ≡ false) };

    ghost seeks = { λ before m reads key after. I.seeks before.iterator m reads key after.iterator × (before.missing ≡ false) × (after.missing ≡ false) };

    ghost stays = { λ before m reads at e after. StaysRequired I.takes I.stays before m reads at e after };

    ghost within = { λ it paths. I.within it.iterator paths };

    ghost unbegun = { λ it. I.unbegun it.iterator × (it.missing ≡ false) };

    ghost rising = { λ it w h. I.rising it.iterator w h };

    ghost more = { λ it m done reads at e h. required_more (I.refuses it.iterator m) done (I.more it.iterator m done) reads at e h };

    ghost whole = { λ it w reads at e h k r. required_whole (I.refuses it.iterator w.meaning reads at e) e (I.whole it.iterator w reads at e h k) r };

    fn iteration_order(&self) -> IterationOrder {
        self.iterator.iteration_order()
    }

    #[tactic(auto, using(slate_types::proofs::Reaching::reads_none, slate_types::proofs::Calls::reads_at_none))]
    fn init(&mut self, alloc: Global, env: &mut E) -> Result<(), SlateDBError> {
        if self.missing {
            return Err(SlateDBError::MergeOperatorMissing);
        }
        match self.iterator.init(alloc, env) {
            Ok(()) => Ok(()),
            Err(error) => Err(error),
        }
    }

    #[tactic(auto, using(slate_types::proofs::Reaching::reads_none, slate_types::proofs::Calls::reads_at_none))]
    fn next(&mut self, alloc: Global, env: &mut E) -> Result<Option<RowEntry>, SlateDBError> {
        if self.missing {
            return Err(SlateDBError::MergeOperatorMissing);
        }
        match self.iterator.next(alloc, env) {
            Ok(Some(row)) => {
                if !is_operand(&row) {
                    return Ok(Some(row));
                }
                drop(row);
                self.missing = true;
                Err(SlateDBError::MergeOperatorMissing)
            }
            Ok(None) => Ok(None),
            Err(error) => Err(error),
        }
    }

    #[tactic(auto, using(slate_types::proofs::Reaching::reads_none, slate_types::proofs::Calls::reads_at_none))]
    fn seek(&mut self, alloc: Global, key: &[u8], env: &mut E) -> Result<(), SlateDBError> {
        if self.missing {
            return Err(SlateDBError::MergeOperatorMissing);
        }
        match self.iterator.seek(alloc, key, env) {
            Ok(()) => Ok(()),
            Err(error) => Err(error),
        }
    }
}

impl<E: Outside, I: TrackedRowEntryIterator<E>> TrackedRowEntryIterator<E>
    for MergeOperatorRequiredIterator<I> {
    ghost processed = { λ it. I.processed it.iterator };

    fn bytes_processed(&self) -> u64 {
        self.iterator.bytes_processed()
    }
}
