//! An iterator over rows of a table.
ghost use Rattle.std.specs.Prelude.{◌≡◌, ◌++◌, [], IfOk, IsOkUnless, OnErr, OnOk};
ghost use Rattle.slate_types.specs.declared.error.SlateDBError.{SlateDBError};
ghost use Rattle.slate_types.specs.declared.iter.IterationOrder.{IterationOrder};
ghost use Rattle.slate_types.specs.Iteration.{begins_before, IsInOrder, TakesRow};
ghost use Rattle.slate_mem.specs.Slots.{standing};

use crate::slots::Slot;
use slate_types::{IterationOrder, Outside, RowEntry, RowEntryIterator, SlateDBError};
use std::alloc::{AllocError, Global};
use std::collections::VecDeque;
use std::marker::Model;

/// An iterator over rows of a table. It shares their slots, and copies rows as it comes to them, or owns copies of them.
#[derive(Drop)]
pub struct MemTableIterator {
    /// Copies of the next rows.
    copies: VecDeque<RowEntry>,
    /// The slots of the rows behind them.
    behind: VecDeque<Slot>,
    order: IterationOrder,
}

impl Model for MemTableIterator {
    ghost use Rattle.std.specs.Prelude.{◌++◌};
    ghost use Rattle.slate_types.specs.Iteration.{RowList};
    ghost use Rattle.slate_mem.specs.Slots.{standing};

    ghost Value = { RowList };

    ghost view = { λ it. record { rows = it.copies.items ++ standing it.behind.items; order = it.order } };
}

/// Copies of the rows of the next slot that has some.
fn page(alloc: Global, slots: &mut VecDeque<Slot>) -> Result<Vec<RowEntry>, AllocError>
    ensures rows { IfOk result (λ page. page.items ++ standing slots.new.items ≡ standing slots.old.items) }
    ensures ends { IfOk result (λ page. page.items ≡ [] → standing slots.new.items ≡ []) }
    ensures same { OnErr result (standing slots.new.items ≡ standing slots.old.items) }
{
    let mut page = Vec::new(alloc);
    while let Some(slot) = slots.front() {
        slot.copy_to(&mut page)?;
        drop(slots.pop_front());
        if !page.as_slice().is_empty() {
            return Ok(page);
        }
    }
    Ok(page)
}

/// Copies the next rows where no copy is left. The one error is `OutOfMemory`.
fn fill(
    alloc: Global,
    copies: &mut VecDeque<RowEntry>,
    behind: &mut VecDeque<Slot>,
) -> Result<(), SlateDBError>
    ensures rows { copies.new.items ++ standing behind.new.items ≡ copies.old.items ++ standing behind.old.items }
    ensures ends { OnOk result (copies.new.items ≡ [] → standing behind.new.items ≡ []) }
    ensures cause { IsOkUnless result SlateDBError.OutOfMemory }
{
    if let Some(_row) = copies.front() {
        return Ok(());
    }
    let page = page(alloc, behind)?;
    *copies = VecDeque::from_vec(page);
    Ok(())
}

/// Whether the order puts the first row before the key.
fn front_before(copies: &VecDeque<RowEntry>, order: IterationOrder, key: &[u8]) -> bool
    ensures { result ≡ begins_before order key.now copies.now.items }
{
    match copies.front() {
        Some(row) => order.puts_before(row.key.as_slice(), key),
        None => false,
    }
}

impl MemTableIterator {
    /// An iterator over rows that were copied. Takes no memory.
    pub(crate) fn of_rows(
        alloc: Global,
        rows: Vec<RowEntry>,
        order: IterationOrder,
    ) -> MemTableIterator
        ensures { result ≡ record { rows = rows.items; order = order } }
    {
        MemTableIterator {
            copies: VecDeque::from_vec(rows),
            behind: VecDeque::new(alloc),
            order,
        }
    }

    /// An iterator over the rows of slots, keys upwards. Takes no memory.
    pub(crate) fn of_slots(alloc: Global, slots: Vec<Slot>) -> MemTableIterator
        ensures { result ≡ record { rows = standing slots.items; order = IterationOrder.Ascending } }
    {
        MemTableIterator {
            copies: VecDeque::new(alloc),
            behind: VecDeque::from_vec(slots),
            order: IterationOrder::Ascending,
        }
    }

    /// Takes off the first row, where there is one. The one error is `OutOfMemory`, and then none is taken.
    fn pop(&mut self, alloc: Global) -> Result<Option<RowEntry>, SlateDBError>
        ensures taken { IfOk result (λ answer. TakesRow self.old.rows answer self.new.rows) }
        ensures order { self.new.order ≡ self.old.order }
        ensures same { OnErr result (self.new ≡ self.old) }
        ensures cause { IsOkUnless result SlateDBError.OutOfMemory }
    {
        fill(alloc, &mut self.copies, &mut self.behind)?;
        Ok(self.copies.pop_front())
    }

    /// Whether the order puts the first row before the key. The one error is `OutOfMemory`.
    fn begins_before(&mut self, alloc: Global, key: &[u8]) -> Result<bool, SlateDBError>
        ensures same { self.new ≡ self.old }
        ensures test { IfOk result (λ is. is ≡ begins_before self.old.order key.now self.old.rows) }
        ensures cause { IsOkUnless result SlateDBError.OutOfMemory }
    {
        fill(alloc, &mut self.copies, &mut self.behind)?;
        Ok(front_before(&self.copies, self.order, key))
    }
}

impl<E: Outside> RowEntryIterator<E> for MemTableIterator {
    ghost use Rattle.std.specs.Prelude.{length};
    ghost use Rattle.slate_types.specs.Iteration.{drop_before, TakesRow};
    ghost use Rattle.slate_mem.specs.Unread.{StaysBefore};

    ghost rest = { λ it _. it.rows };

    ghost sound = { λ it _. IsInOrder it.order it.rows };

    ghost order = { λ it. it.order };

    ghost bound = { λ it. length it.rows };

    ghost refuses = { λ _ _ _ _ _. ⊥ };

    ghost begins = { λ before _ _ after. after ≡ before };

    ghost takes = { λ before _ _ answer after. TakesRow before.rows answer after.rows };

    ghost seeks = { λ before _ _ key after. after.rows ≡ drop_before before.order key before.rows };

    ghost stays = { λ before _ _ at _ after. StaysBefore at before after };

    ghost within = { λ _ _. Unit {0} };

    ghost unbegun = { λ _. ⊥ };

    ghost rising = { λ _ _ h. h };

    ghost more = { λ _ _ _ _ _ _ h. h };

    ghost whole = { λ _ _ _ _ _ _ _ h _. h };

    fn iteration_order(&self) -> IterationOrder {
        self.order
    }

    #[tactic(auto, using(slate_types::proofs::Reaching::reads_none, slate_types::proofs::Calls::reads_at_none))]
    fn init(&mut self, _alloc: Global, _env: &mut E) -> Result<(), SlateDBError> {
        Ok(())
    }

    #[tactic(auto, using(slate_types::proofs::Reaching::reads_none, slate_types::proofs::Calls::reads_at_none))]
    fn next(&mut self, alloc: Global, _env: &mut E) -> Result<Option<RowEntry>, SlateDBError> {
        self.pop(alloc)
    }

    #[tactic(auto, using(slate_types::proofs::Reaching::reads_none, slate_types::proofs::Calls::reads_at_none, slate_types::proofs::IterationLaws::drops_first, slate_types::proofs::IterationLaws::fewer_behind, slate_types::proofs::IterationLaws::drops_none, slate_types::proofs::IterationLaws::in_order_dropped))]
    fn seek(&mut self, alloc: Global, key: &[u8], _env: &mut E) -> Result<(), SlateDBError> {
        while self.begins_before(alloc, key)? {
            drop(self.pop(alloc)?);
        }
        Ok(())
    }
}
