//! An iterator over rows in memory.
ghost use Rattle.std.specs.Prelude.{◌≡◌, drop, length};
ghost use Rattle.slate_types.specs.Iteration.{begins_before, drop_before, IsInOrder, TakesRow};

use crate::error::SlateDBError;
use crate::iter::{IterationOrder, Outside, RowEntryIterator};
use crate::types::RowEntry;
use std::alloc::Global;
use std::collections::VecDeque;
use std::marker::Model;

/// Rows in memory, which must stand in the order. A source for tests, and for callers that have their
/// rows already. It refuses nothing.
#[derive(Drop)]
pub struct RowsIterator {
    rows: VecDeque<RowEntry>,
    order: IterationOrder,
}

impl Model for RowsIterator {
    ghost use Rattle.slate_types.specs.Iteration.{RowList};

    ghost Value = { RowList };

    ghost view = { λ s. record { rows = s.rows.items; order = s.order } };
}

impl RowsIterator {
    /// An iterator over the rows. Takes no memory.
    pub fn new(rows: Vec<RowEntry>, order: IterationOrder) -> RowsIterator
        ensures { result ≡ record { rows = rows.items; order = order } }
    {
        RowsIterator {
            rows: VecDeque::from_vec(rows),
            order,
        }
    }

    /// Whether the order puts the first row before the key.
    fn begins_before(&self, key: &[u8]) -> bool
        ensures { result ≡ begins_before self.now.order key.now self.now.rows }
    {
        match self.rows.front() {
            Some(row) => self.order.puts_before(row.key.as_slice(), key),
            None => false,
        }
    }

    /// Takes off the first row, where there is one.
    fn drop_first(&mut self)
        ensures rows { self.new.rows ≡ drop 1 self.old.rows }
        ensures order { self.new.order ≡ self.old.order }
    {
        drop(self.rows.pop_front());
    }
}

impl<E: Outside> RowEntryIterator<E> for RowsIterator {
    ghost rest = { λ s _. s.rows };

    ghost sound = { λ s _. IsInOrder s.order s.rows };

    ghost order = { λ s. s.order };

    ghost bound = { λ s. length s.rows };

    ghost refuses = { λ _ _ _ _ _. ⊥ };

    ghost begins = { λ before _ _ after. after ≡ before };

    ghost takes = { λ before _ _ answer after. TakesRow before.rows answer after.rows };

    ghost seeks = { λ before _ _ key after. after.rows ≡ drop_before before.order key before.rows };

    ghost stays = { λ _ _ _ _ _ _. ⊥ };

    ghost within = { λ _ _. Unit {0} };

    ghost unbegun = { λ _. ⊥ };

    ghost rising = { λ _ _ h. h };

    ghost more = { λ _ _ _ _ _ _ h. h };

    ghost whole = { λ _ _ _ _ _ _ _ h _. h };

    fn iteration_order(&self) -> IterationOrder {
        self.order
    }

    #[tactic(auto, using(crate::proofs::Reaching::reads_none, crate::proofs::Calls::reads_at_none))]
    fn init(&mut self, _alloc: Global, _env: &mut E) -> Result<(), SlateDBError> {
        Ok(())
    }

    #[tactic(auto, using(crate::proofs::Reaching::reads_none, crate::proofs::Calls::reads_at_none))]
    fn next(&mut self, _alloc: Global, _env: &mut E) -> Result<Option<RowEntry>, SlateDBError> {
        Ok(self.rows.pop_front())
    }

    #[tactic(auto, using(crate::proofs::Reaching::reads_none, crate::proofs::Calls::reads_at_none, crate::proofs::IterationLaws::drops_first, crate::proofs::IterationLaws::fewer_behind, crate::proofs::IterationLaws::drops_none, crate::proofs::IterationLaws::in_order_dropped))]
    fn seek(&mut self, _alloc: Global, key: &[u8], _env: &mut E) -> Result<(), SlateDBError> {
        while self.begins_before(key) {
            self.drop_first();
        }
        Ok(())
    }
}
