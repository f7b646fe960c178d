//! An iterator without rows.
ghost use Rattle.std.specs.Prelude.{◌≡◌, [], None};
ghost use Rattle.slate_types.specs.declared.iter.IterationOrder.{IterationOrder};

use slate_types::{IterationOrder, Outside, RowEntry, RowEntryIterator, SlateDBError};
use std::alloc::Global;

/// No rows, upwards. It reads nothing and refuses nothing.
#[derive(Drop, Default)]
pub struct EmptyIterator {}

impl EmptyIterator {
    /// An iterator without rows. Takes no memory.
    pub fn new() -> EmptyIterator {
        EmptyIterator {}
    }
}

impl<E: Outside> RowEntryIterator<E> for EmptyIterator {
    ghost rest = { λ _ _. [] };

    ghost sound = { λ _ _. Unit {0} };

    ghost order = { λ _. IterationOrder.Ascending };

    ghost bound = { λ _. 0 };

    ghost refuses = { λ _ _ _ _ _. ⊥ };

    ghost begins = { λ _ _ reads _. reads ≡ [] };

    ghost takes = { λ _ _ reads answer _. (reads ≡ []) × (answer ≡ None) };

    ghost seeks = { λ _ _ reads _ _. reads ≡ [] };

    ghost stays = { λ _ _ _ _ _ _. ⊥ };

    ghost within = { λ _ _. Unit {0} };

    ghost unbegun = { λ _. ⊥ };

    ghost rising = { λ _ _ _. tt };

    ghost more = { λ _ _ _ _ _ _ h. h };

    ghost whole = { λ _ _ _ _ _ _ _ h _. h };

    fn iteration_order(&self) -> IterationOrder {
        IterationOrder::Ascending
    }

    #[tactic(auto, using(slate_types::proofs::Reaching::reads_none, slate_types::proofs::Calls::reads_at_none))]
    fn init(&mut self, _alloc: Global, _env: &mut E) -> Result<(), SlateDBError> {
        Ok(())
    }

    #[tactic(auto, using(slate_types::proofs::Reaching::reads_none, slate_types::proofs::Calls::reads_at_none))]
    fn next(&mut self, _alloc: Global, _env: &mut E) -> Result<Option<RowEntry>, SlateDBError> {
        Ok(None)
    }

    #[tactic(auto, using(slate_types::proofs::Reaching::reads_none, slate_types::proofs::Calls::reads_at_none))]
    fn seek(&mut self, _alloc: Global, _key: &[u8], _env: &mut E) -> Result<(), SlateDBError> {
        Ok(())
    }
}
