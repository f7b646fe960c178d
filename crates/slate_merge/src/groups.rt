//! Rows of a source, grouped by their keys.
ghost use Rattle.std.specs.Prelude.{◌≡◌, ◌<◌, ◌≤◌, ◌+◌, ◌++◌, ◌∷◌, List, [], length, vec_len, vec_capacity, true, false, Option, Some, None, IfOk, IfErr, IsSome, OnOk, ℕ};
ghost use Rattle.slate_types.specs.declared.iter.IterationOrder.{IterationOrder};
ghost use Rattle.slate_types.specs.Iteration.{drop_before};
ghost use Rattle.slate_types.specs.Outside.{IsStill, OnlyReads};
ghost use Rattle.slate_types.specs.Steps.{Step};
ghost use Rattle.slate_types.specs.World.{World, Sees, ReadsAt};
ghost use Rattle.slate_merge.specs.Answering.{AnswersBy, IsFaultOr};
ghost use Rattle.slate_merge.specs.Handing.{HandsHeld, SeeksHeld, held_of, refuses_held};
ghost use Rattle.slate_merge.specs.Groups.{IsOneKey, StandsApart, Stands, Seeks, no_rows, refuses_grouped, rest_grouped, rows_in_groups, sound_grouped, stays_at};

use slate_types::{IterationOrder, Outside, RowEntry, RowEntryIterator, SlateDBError};
use std::alloc::Global;
use std::mem;

/// Rows that have come from a source, and weren't handed out.
#[derive(Drop)]
pub struct Groups {
    /// Rows of one key, all of them that are left, as they came: the newest one is the last.
    pub ready: Vec<RowEntry>,

    /// The rows of the next key that have come.
    pub gathered: Vec<RowEntry>,
}

/// Whether a row is of another key than the rows, of which there are some.
fn is_apart(rows: &[RowEntry], row: &RowEntry) -> bool
    ensures apart { result ≡ true → StandsApart rows.now (row.now ∷ []) × (0 < length rows.now) }
    ensures same { result ≡ false → IsOneKey rows.now → IsOneKey (rows.now ++ row.now ∷ []) }
{
    match rows.first() {
        Some(first) => row.key != first.key,
        None => false,
    }
}

/// Whether there are rows, of one key, which downwards stands at a key or behind it.
fn stays(rows: &[RowEntry], key: &[u8]) -> bool
    ensures { result ≡ stays_at key.now rows.now }
{
    match rows.first() {
        Some(row) => !IterationOrder::Descending.puts_before(row.key.as_slice(), key),
        None => false,
    }
}

impl Groups {
    /// Makes the rows ready that were gathered. The row behind them is the first of the next key.
    fn turn(&mut self, row: RowEntry)
        requires none { self.old.ready.items ≡ [] }
        requires room { vec_len self.old.ready < vec_capacity self.old.ready }
        ensures ready { self.new.ready.items ≡ self.old.gathered.items }
        ensures gathered { self.new.gathered.items ≡ row ∷ [] }
    {
        self.ready.push_reserved(row);
        mem::swap(&mut self.ready, &mut self.gathered);
    }

    /// Gathers the rows of the next key downwards, and makes them ready. The source is spent where there is none.
    fn gather<E: Outside, I: RowEntryIterator<E>>(
        &mut self,
        alloc: Global,
        iterator: &mut I,
        env: &mut E,
    ) -> Result<(), SlateDBError>
        requires none { self.old.ready.items ≡ [] }
        requires downwards { I.order iterator.old ≡ IterationOrder.Descending }
        ensures stands { OnOk result (Stands (rest_grouped I.rest I.order) (sound_grouped I.rest I.sound I.order) (refuses_grouped I.refuses) (E.reach env.old) (E.reach env.new) (iterator.old, self.old) (iterator.new, self.new)) }
        ensures spent { (w : World) → Sees w (E.reach env.old) (E.reach env.new) → sound_grouped I.rest I.sound I.order (iterator.old, self.old) w →
            OnOk result (self.new.ready.items ≡ [] → rest_grouped I.rest I.order (iterator.new, self.new) w ≡ []) }
        ensures cause { IfErr result (λ e. IsFaultOr I.refuses (E.reach env.old) (E.reach env.new) iterator.old None e) }
        ensures no_larger { OnOk result (I.bound iterator.new + rows_in_groups self.new ≤ I.bound iterator.old + rows_in_groups self.old) }
        ensures came { OnOk result (AnswersBy (λ x m reads y. HandsHeld I.takes x m reads None y) (refuses_held I.refuses) (E.reach env.old) (E.reach env.new) (iterator.old, held_of self.old) (iterator.new, held_of self.new)) }
        ensures order { I.order iterator.new ≡ I.order iterator.old }
        ensures within { (paths : List (List ℕ)) → I.within iterator.old paths → ReadsAt paths (E.reach env.old) (E.reach env.new) × I.within iterator.new paths }
        ensures reads { OnlyReads (E.reach env.old) (E.reach env.new) }
        ensures counts { IsStill (E.reach env.old).faults (E.reach env.new).faults result }
    {
        self.ready.reserve(1)?;
        loop {
            self.gathered.reserve(1)?;
            match iterator.next(alloc, env)? {
                Some(row) => {
                    if is_apart(self.gathered.as_slice(), &row) {
                        self.turn(row);
                        return Ok(());
                    }
                    self.gathered.push_reserved(row);
                }
                None => {
                    mem::swap(&mut self.ready, &mut self.gathered);
                    return Ok(());
                }
            }
        }
    }

    /// The next row, the newest of its key first.
    pub(crate) fn next<E: Outside, I: RowEntryIterator<E>>(
        &mut self,
        alloc: Global,
        iterator: &mut I,
        env: &mut E,
    ) -> Result<Option<RowEntry>, SlateDBError>
        ensures step { IfOk result (λ answer. Step (rest_grouped I.rest I.order) (sound_grouped I.rest I.sound I.order) (refuses_grouped I.refuses) no_rows (E.reach env.old) (E.reach env.new) (iterator.old, self.old) answer (iterator.new, self.new)) }
        ensures cause { IfErr result (λ e. IsFaultOr I.refuses (E.reach env.old) (E.reach env.new) iterator.old None e) }
        ensures smaller { IfOk result (λ answer. IsSome answer → I.bound iterator.new + rows_in_groups self.new < I.bound iterator.old + rows_in_groups self.old) }
        ensures no_larger { OnOk result (I.bound iterator.new + rows_in_groups self.new ≤ I.bound iterator.old + rows_in_groups self.old) }
        ensures hands { IfOk result (λ answer. AnswersBy (λ x m reads y. HandsHeld I.takes x m reads answer y) (refuses_held I.refuses) (E.reach env.old) (E.reach env.new) (iterator.old, held_of self.old) (iterator.new, held_of self.new)) }
        ensures order { I.order iterator.new ≡ I.order iterator.old }
        ensures within { (paths : List (List ℕ)) → I.within iterator.old paths → ReadsAt paths (E.reach env.old) (E.reach env.new) × I.within iterator.new paths }
        ensures reads { OnlyReads (E.reach env.old) (E.reach env.new) }
        ensures counts { IsStill (E.reach env.old).faults (E.reach env.new).faults result }
    {
        match iterator.iteration_order() {
            IterationOrder::Ascending => return iterator.next(alloc, env),
            IterationOrder::Descending => {}
        }
        if let Some(row) = self.ready.pop() {
            return Ok(Some(row));
        }
        self.gather(alloc, iterator, env)?;
        Ok(self.ready.pop())
    }

    /// Takes off the rows that the order puts before a key.
    pub(crate) fn seek<E: Outside, I: RowEntryIterator<E>>(
        &mut self,
        alloc: Global,
        iterator: &mut I,
        key: &[u8],
        env: &mut E,
    ) -> Result<(), SlateDBError>
        ensures sought { OnOk result (Seeks (rest_grouped I.rest I.order) (sound_grouped I.rest I.sound I.order) (refuses_grouped I.refuses) (I.order iterator.old) key.now (E.reach env.old) (E.reach env.new) (iterator.old, self.old) (iterator.new, self.new)) }
        ensures cause { IfErr result (λ e. IsFaultOr I.refuses (E.reach env.old) (E.reach env.new) iterator.old (Some key.now) e) }
        ensures no_larger { OnOk result (I.bound iterator.new + rows_in_groups self.new ≤ I.bound iterator.old + rows_in_groups self.old) }
        ensures held { OnOk result (AnswersBy (λ x m reads y. SeeksHeld I.seeks x m reads key.now y) (refuses_held I.refuses) (E.reach env.old) (E.reach env.new) (iterator.old, held_of self.old) (iterator.new, held_of self.new)) }
        ensures order { I.order iterator.new ≡ I.order iterator.old }
        ensures within { (paths : List (List ℕ)) → I.within iterator.old paths → ReadsAt paths (E.reach env.old) (E.reach env.new) × I.within iterator.new paths }
        ensures reads { OnlyReads (E.reach env.old) (E.reach env.new) }
        ensures counts { IsStill (E.reach env.old).faults (E.reach env.new).faults result }
    {
        match iterator.iteration_order() {
            IterationOrder::Ascending => return iterator.seek(alloc, key, env),
            IterationOrder::Descending => {}
        }
        if stays(self.ready.as_slice(), key) {
            return Ok(());
        }
        self.ready.clear();
        if stays(self.gathered.as_slice(), key) {
            return Ok(());
        }
        self.gathered.clear();
        iterator.seek(alloc, key, env)
    }
}
