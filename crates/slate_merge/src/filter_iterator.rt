//! The rows of a source that a test keeps.
ghost use Rattle.std.specs.Prelude.{◌≡◌, Bool, filter, IfOk, IsOk};
ghost use Rattle.slate_types.specs.declared.types.RowEntry.{RowEntry};
ghost use Rattle.slate_types.specs.Iteration.{drop_before};
ghost use Rattle.slate_types.proofs.IterationLaws.{in_order_filtered};
ghost use Rattle.slate_merge.specs.Filtering.{upto_seq, StaysKept, TakesKept};

use slate_types::{IterationOrder, Outside, RowEntry, RowEntryIterator, SlateDBError};
use std::alloc::Global;

/// A test of rows.
pub trait RowPredicate: Drop {
    ghost keeps: { Self → RowEntry → Bool };

    /// Whether a row passes.
    fn keep(&self, row: &RowEntry) -> bool
        ensures { result ≡ keeps self.now row.now };
}

/// Keeps rows whose sequence isn't above the number, and all rows where there is none.
#[derive(Drop)]
pub struct MaxSeq {
    /// The greatest sequence that is kept, or `None` where each is.
    pub max_seq: Option<u64>,
}

impl RowPredicate for MaxSeq {
    ghost keeps = { λ s. upto_seq s.max_seq };

    fn keep(&self, row: &RowEntry) -> bool {
        match self.max_seq {
            Some(max) => row.seq <= max,
            None => true,
        }
    }
}

/// The rows of a source that pass. It refuses what its source refuses, and stays where its source stays.
#[derive(Drop)]
pub struct FilterIterator<I, P> {
    iterator: I,
    predicate: P,
}

impl<I: Drop, P: Drop> FilterIterator<I, P> {
    /// The rows of the source that pass. Takes no memory.
    pub fn new(
        _alloc: Global,
        iterator: I,
        predicate: P,
    ) -> Result<FilterIterator<I, P>, SlateDBError>
        ensures iterator { IfOk result (λ it. it.iterator ≡ iterator) }
        ensures predicate { IfOk result (λ it. it.predicate ≡ predicate) }
        ensures fine { IsOk result }
    {
        Ok(FilterIterator {
            iterator,
            predicate,
        })
    }
}

impl<I: Drop> FilterIterator<I, MaxSeq> {
    /// The rows of the source whose sequence isn't above the number, and all its rows where there is none. Takes no memory.
    pub fn new_with_max_seq(
        alloc: Global,
        iterator: I,
        max_seq: Option<u64>,
    ) -> Result<FilterIterator<I, MaxSeq>, SlateDBError>
        ensures iterator { IfOk result (λ it. it.iterator ≡ iterator) }
        ensures max_seq { IfOk result (λ it. it.predicate.max_seq ≡ max_seq) }
        ensures fine { IsOk result }
    {
        FilterIterator::new(alloc, iterator, MaxSeq { max_seq })
    }
}

impl<E: Outside, I: RowEntryIterator<E>, P: RowPredicate> RowEntryIterator<E>
    for FilterIterator<I, P> {
    ghost rest = { λ it w. filter (P.keeps it.predicate) (I.rest it.iterator w) };

    ghost sound = { λ it w. I.sound it.iterator w };

    ghost order = { λ it. I.order it.iterator };

    ghost bound = { λ it. I.bound it.iterator };

    ghost refuses = { λ it p reads at e. I.refuses it.iterator p reads at e };

    ghost begins = { λ before p reads after. I.begins before.iterator p reads after.iterator × (after.predicate ≡ before.predicate) };

    ghost takes = { λ before p reads answer after. TakesKept (λ x rs a y. I.takes x p rs a y) (P.keeps before.predicate) before.iterator reads answer after.iterator × (after.predicate ≡ before.predicate) };

    ghost seeks = { λ before p reads key after. I.seeks before.iterator p reads key after.iterator × (after.predicate ≡ before.predicate) };

    ghost stays = { λ before p reads at e after. StaysKept (λ x rs a y. I.takes x p rs a y) (λ x rs k d y. I.stays x p rs k d y) (P.keeps before.predicate) before.iterator reads at e after.iterator × (after.predicate ≡ before.predicate) };

    ghost within = { λ it paths. I.within it.iterator paths };

    ghost unbegun = { λ it. I.unbegun it.iterator };

    ghost rising = { λ it w h. in_order_filtered (I.order it.iterator) (P.keeps it.predicate) (I.rest it.iterator w) (I.rising it.iterator w h) };

    ghost more = { λ it p done reads at e h. I.more it.iterator p done reads at e h };

    ghost whole = { λ it w reads at e h k r. I.whole it.iterator w reads at e h k r };

    fn iteration_order(&self) -> IterationOrder {
        self.iterator.iteration_order()
    }

    fn init(&mut self, alloc: Global, env: &mut E) -> Result<(), SlateDBError> {
        self.iterator.init(alloc, env)
    }

    #[inline(always)]
    fn next(&mut self, alloc: Global, env: &mut E) -> Result<Option<RowEntry>, SlateDBError> {
        while let Some(row) = self.iterator.next(alloc, env)? {
            if self.predicate.keep(&row) {
                return Ok(Some(row));
            }
            drop(row);
        }
        Ok(None)
    }

    fn seek(&mut self, alloc: Global, key: &[u8], env: &mut E) -> Result<(), SlateDBError> {
        self.iterator.seek(alloc, key, env)
    }
}
