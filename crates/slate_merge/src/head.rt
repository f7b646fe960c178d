//! A source of a merge with the row that it gives next.
ghost use Rattle.std.specs.Prelude.{◌≡◌, IfOk, IsOkUnless};
ghost use Rattle.slate_types.specs.declared.error.SlateDBError.{SlateDBError};
ghost use Rattle.slate_types.specs.declared.iter.IterationOrder.{IterationOrder};
ghost use Rattle.slate_types.specs.declared.types.RowEntry.{RowEntry};
ghost use Rattle.slate_types.specs.RowTurns.{key_order};
ghost use Rattle.slate_merge.specs.Orders.{order_rank};

use slate_types::{
    IterationOrder, Outside, RowEntry, RowEntryIterator, SlateDBError, compare_keys,
};
use std::alloc::Global;
use std::cmp::Ordering;
use std::marker::Model;
use std::mem;

/// A source in a box, so that a heap moves an address and not the source. Contracts see the source.
#[derive(Drop)]
pub struct BoxedSource<I> {
    source: Box<I>,
}

impl<I> Model for BoxedSource<I> {
    ghost Value = { I };

    ghost view = { λ s. s.source.value };
}

impl<I: Drop> BoxedSource<I> {
    pub fn new(alloc: Global, source: I) -> Result<BoxedSource<I>, SlateDBError>
        ensures source { IfOk result (λ s. s ≡ source) }
        ensures cause { IsOkUnless result SlateDBError.OutOfMemory }
    {
        let source = Box::new(alloc, source)?;
        Ok(BoxedSource { source })
    }
}

/// It is read as the source is.
impl<E: Outside, I: RowEntryIterator<E>> RowEntryIterator<E> for BoxedSource<I> {
    ghost rest = { I.rest };

    ghost sound = { I.sound };

    ghost order = { I.order };

    ghost bound = { I.bound };

    ghost refuses = { I.refuses };

    ghost begins = { I.begins };

    ghost takes = { I.takes };

    ghost seeks = { I.seeks };

    ghost stays = { I.stays };

    ghost within = { I.within };

    ghost unbegun = { I.unbegun };

    ghost rising = { I.rising };

    ghost more = { I.more };

    ghost whole = { I.whole };

    fn iteration_order(&self) -> IterationOrder {
        self.source.iteration_order()
    }

    fn init(&mut self, alloc: Global, env: &mut E) -> Result<(), SlateDBError> {
        self.source.init(alloc, env)
    }

    fn next(&mut self, alloc: Global, env: &mut E) -> Result<Option<RowEntry>, SlateDBError> {
        self.source.next(alloc, env)
    }

    fn seek(&mut self, alloc: Global, key: &[u8], env: &mut E) -> Result<(), SlateDBError> {
        self.source.seek(alloc, key, env)
    }
}

/// A row in a box, so that a heap moves an address and not the row. Contracts see the row.
#[derive(Drop)]
pub struct BoxedRow {
    row: Box<RowEntry>,
}

impl Model for BoxedRow {
    ghost Value = { RowEntry };

    ghost view = { λ b. b.row.value };
}

impl BoxedRow {
    /// Puts a row into a box of its own.
    pub fn new(alloc: Global, row: RowEntry) -> Result<BoxedRow, SlateDBError>
        ensures row { IfOk result (λ b. b ≡ row) }
        ensures cause { IsOkUnless result SlateDBError.OutOfMemory }
    {
        let row = Box::new(alloc, row)?;
        Ok(BoxedRow { row })
    }

    /// Shows the row.
    #[inline(always)]
    pub fn as_row(&self) -> &RowEntry
        ensures { result.now ≡ self.now }
    {
        &self.row
    }

    /// Puts a row into the box, and answers the one that was there.
    #[inline(always)]
    pub fn replace(&mut self, row: RowEntry) -> RowEntry
        ensures row { result ≡ self.old }
        ensures after { self.new ≡ row }
    {
        mem::replace(&mut self.row, row)
    }

    /// Takes the row out of its box.
    pub fn into_row(self) -> RowEntry
        ensures { result ≡ self }
    {
        let BoxedRow { row } = self;
        Box::into_inner(row)
    }
}

/// A source that has begun, with its first row, which was taken off.
#[derive(Drop)]
pub struct Head<I> {
    /// The row, which comes next of this source.
    pub row: BoxedRow,

    /// How many sources stand behind this one in the list of sources.
    pub behind: usize,

    /// The order in which the source's rows come.
    pub order: IterationOrder,

    /// The source behind its first row.
    pub source: BoxedSource<I>,
}

fn rank(order: IterationOrder) -> u8
    ensures { result ≡ order_rank order }
{
    match order {
        IterationOrder::Ascending => 0,
        IterationOrder::Descending => 1,
    }
}

/// Compares two keys in an order: the key that comes first is the lesser.
fn compare_in(order: IterationOrder, a: &[u8], b: &[u8]) -> Ordering
    ensures { result ≡ key_order order a.now b.now }
{
    match order {
        IterationOrder::Ascending => compare_keys(a, b),
        IterationOrder::Descending => compare_keys(b, a),
    }
}

/// The greatest head is that whose row comes first: a heap gives the greatest.
impl<I> Ord for Head<I> {
    ghost use Rattle.std.proofs.Common.{rules};
    ghost use Rattle.std.specs.Cmp.Rules.{comparing};
    ghost use Rattle.slate_merge.specs.Heads.{head_cmp, head_total};

    ghost cmp = { head_cmp };

    ghost total = { head_total };

    ghost matches_partial_cmp = { Prim.search (comparing, rules) };

    ghost matches_eq = { Prim.search (comparing, rules) };

    fn cmp(&self, other: &Head<I>) -> Ordering {
        let (row, other_row) = (self.row.as_row(), other.row.as_row());
        let keys = compare_in(self.order, other_row.key.as_slice(), row.key.as_slice());
        let places = row
            .seq
            .cmp(&other_row.seq)
            .then(self.behind.cmp(&other.behind));
        rank(other.order)
            .cmp(&rank(self.order))
            .then(keys.then(places))
    }
}

impl<I> PartialOrd for Head<I> {
    ghost use Rattle.std.proofs.Common.{refl};
    ghost use Rattle.std.specs.Cmp.{partial_order_from_agreeing_total};
    ghost use Rattle.std.specs.Ordering.{as_partial_cmp};
    ghost use Rattle.slate_merge.specs.Heads.{head_cmp, head_total};

    ghost partial_cmp = { as_partial_cmp head_cmp };

    ghost laws = { partial_order_from_agreeing_total head_cmp head_total (λ _ _. refl) (λ _ _. refl) };

    fn partial_cmp(&self, other: &Head<I>) -> Option<Ordering> {
        Some(self.cmp(other))
    }
}

impl<I> PartialEq for Head<I> {
    ghost use Rattle.std.specs.Cmp.{partial_equiv_from_equiv, eq_by_cmp_equiv};
    ghost use Rattle.std.specs.Ordering.{eq_by_cmp};
    ghost use Rattle.slate_merge.specs.Heads.{head_cmp, head_total};

    ghost eq = { eq_by_cmp head_cmp };

    ghost laws = { partial_equiv_from_equiv (eq_by_cmp_equiv head_total) };

    fn eq(&self, other: &Head<I>) -> bool {
        self.cmp(other).is_eq()
    }
}

impl<I> Eq for Head<I> {
    ghost use Rattle.std.specs.Cmp.{eq_by_cmp_equiv};
    ghost use Rattle.slate_merge.specs.Heads.{head_total};

    ghost laws = { eq_by_cmp_equiv head_total };
}
