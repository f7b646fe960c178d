//! The rows of a block of version 2, one at a time.
ghost use Rattle.std.specs.Prelude.{◌≡◌, ◌⊎◌, ◌↔◌, List, [], Ok, Err, Some, length, slice_get, IsOk, IsTrue, IfOk, IfErr, OnOk, OnErr};
ghost use Rattle.slate_types.specs.declared.types.RowEntry.{RowEntry};
ghost use Rattle.slate_types.specs.Iteration.{drop_before, in_order};
ghost use Rattle.slate_block.specs.Walks.{block_reads, block_rows, reads_v2};
ghost use Rattle.slate_block.specs.BlockWalks.{left, rising_rows, rows_of, BeginsRead, Blames, IsBlockDamage, IsPast, IsRising, IsSought, Refuses, StopsAt, TakesLeft, TakesRead};
ghost use Rattle.slate_block.specs.WholeWalks.{none_refused};
ghost use Rattle.slate_block.specs.GroupWalks.{walk_in};

use crate::block_like::BlockLike;
use crate::descending_block_iterator_v2::DescendingBlockIteratorV2;
use crate::fields::corrupt;
use crate::places::are_named;
use crate::walk_v2::{BlockPlace, next_of_block, seek_key};
use slate_types::{IterationOrder, Outside, RowEntry, RowEntryIterator, SlateDBError};
use std::alloc::Global;
use std::marker::Model;

/// The rows of a block by key upwards.
#[derive(Drop)]
struct AscendingState<B: BlockLike> {
    block: B,
    place: BlockPlace,
}

impl<B: BlockLike> Model for AscendingState<B> {
    ghost use Rattle.slate_types.specs.declared.iter.IterationOrder.TheVariants.{Ascending};
    ghost use Rattle.slate_block.specs.BlockWalks.{ReadsLeft};
    ghost use Rattle.slate_block.specs.GroupWalks.{left_v2};

    ghost Value = { ReadsLeft };

    ghost view = { λ s. record { reads = left_v2 (B.body_bytes s.block) (B.row_offsets s.block) s.place; order = Ascending } };
}

impl<B: BlockLike> AscendingState<B> {
    /// Upwards.
    fn iteration_order(&self) -> IterationOrder
        ensures { result ≡ self.now.order }
    {
        // What contracts see of it is known once a field is read.
        let _place = &self.place;
        IterationOrder::Ascending
    }

    #[inline(always)]
    fn next_row(&mut self, alloc: Global) -> Result<Option<RowEntry>, SlateDBError>
        ensures read { IfOk result (λ answer. TakesRead self.old.reads answer self.new.reads) }
        ensures rows { IfOk result (λ answer. TakesLeft (left self.old) answer (left self.new)) }
        ensures order { self.new.order ≡ self.old.order }
        ensures cause { IfErr result (λ e. (e ≡ SlateDBError.OutOfMemory) ⊎ (slice_get self.old.reads 0 ≡ Some (Err e))) }
        ensures damage { IfErr result (λ e. (e ≡ SlateDBError.OutOfMemory) ⊎ IsBlockDamage e) }
        ensures unchanged { OnErr result (self.new ≡ self.old) }
    {
        let (body, offsets) = (self.block.body(), self.block.offsets());
        if self.place.is_at_end(offsets) {
            return Ok(None);
        }
        let (row, place) = next_of_block(alloc, body, offsets, &self.place)?;
        self.place = place;
        Ok(Some(row))
    }

    fn skip_before(&mut self, alloc: Global, key: &[u8]) -> Result<(), SlateDBError>
        ensures rows { IsRising self.old.order (left self.old) → OnOk result (left self.new ≡ Ok (drop_before self.old.order key.now (rows_of (left self.old)))) }
        ensures past { OnOk result (IsPast self.old.order key.now self.old.reads self.new.reads) }
        ensures stops { OnOk result (StopsAt self.old.order key.now self.new.reads) }
        ensures read { OnOk result (BeginsRead self.new.reads) }
        ensures order { self.new.order ≡ self.old.order }
        ensures cause { IfErr result (λ e. (e ≡ SlateDBError.OutOfMemory) ⊎ Refuses self.old.reads e) }
        ensures unchanged { OnErr result (self.new ≡ self.old) }
    {
        self.place = seek_key(
            alloc,
            self.block.body(),
            self.block.offsets(),
            &self.place,
            key,
        )?;
        Ok(())
    }
}

#[derive(Drop)]
enum BlockIteratorInner<B: BlockLike> {
    Ascending(AscendingState<B>),
    Descending(DescendingBlockIteratorV2<B>),
}

/// The rows of a block of version 2 that are left, in an order. After a refusal it stands where it stood.
#[derive(Drop)]
pub struct BlockIteratorV2<B: BlockLike> {
    inner: BlockIteratorInner<B>,
}

impl<B: BlockLike> Model for BlockIteratorV2<B> {
    ghost use Rattle.slate_block.specs.BlockWalks.{ReadsLeft};
    ghost use Rattle.slate_block.specs.EitherOrder.{walk_of};

    ghost Value = { ReadsLeft };

    ghost view = { λ it. walk_of it.inner };
}

impl<B: BlockLike> BlockIteratorV2<B> {
    /// All rows of the block, in the order; downwards they come in exactly the reversed order. It refuses exactly this:
    /// `CorruptTable` at 0 where the offsets don't begin at 0, or are more than 65535. What else fails is refused when the
    /// walk comes there: upwards a row that fails, downwards a group of which a row fails, by the first one.
    pub fn new(alloc: Global, block: B, order: IterationOrder) -> Result<Self, SlateDBError>
        ensures reads { IfOk result (λ it. it.reads ≡ walk_in order (B.body_bytes block) (B.row_offsets block)) }
        ensures rows { IfOk result (λ it. (rows : List RowEntry) → block_rows 2 (B.body_bytes block) (B.row_offsets block) ≡ Ok rows → left it ≡ Ok (in_order order rows)) }
        ensures only { IfOk result (λ it. (rows : List RowEntry) → left it ≡ Ok (in_order order rows) → block_rows 2 (B.body_bytes block) (B.row_offsets block) ≡ Ok rows) }
        ensures order { IfOk result (λ it. it.order ≡ order) }
        ensures begins { IfOk result (λ _. IsOk (block_reads 2 (B.body_bytes block) (B.row_offsets block))) }
        ensures cause { IfErr result (λ e. block_reads 2 (B.body_bytes block) (B.row_offsets block) ≡ Err e) }
        ensures damage { IfErr result IsBlockDamage }
    {
        if let IterationOrder::Descending = order {
            let rows = DescendingBlockIteratorV2::new(alloc, block)?;
            let inner = BlockIteratorInner::Descending(rows);
            return Ok(BlockIteratorV2 { inner });
        }
        if !are_named(block.offsets()) {
            return Err(corrupt(0));
        }
        let place = BlockPlace::before_group(0);
        let inner = BlockIteratorInner::Ascending(AscendingState { block, place });
        Ok(BlockIteratorV2 { inner })
    }

    /// Whether no row is left.
    #[tactic(auto, using(crate::proofs::GroupSteps::left_none))]
    pub fn is_empty(&self) -> bool
        ensures { IsTrue result ↔ (self.now.reads ≡ []) }
    {
        match &self.inner {
            BlockIteratorInner::Ascending(state) => state.place.is_at_end(state.block.offsets()),
            BlockIteratorInner::Descending(rows) => rows.is_empty(),
        }
    }

    /// The first row of those that are left, which is taken off, or `None` where none is left. `CorruptTable` with the
    /// place of the first field that fails in the rows' part, or `InvalidRowFlags`; or `OutOfMemory`.
    #[inline(always)]
    pub fn next_row(&mut self, alloc: Global) -> Result<Option<RowEntry>, SlateDBError>
        ensures read { IfOk result (λ answer. TakesRead self.old.reads answer self.new.reads) }
        ensures rows { IfOk result (λ answer. TakesLeft (left self.old) answer (left self.new)) }
        ensures order { self.new.order ≡ self.old.order }
        ensures cause { IfErr result (λ e. (e ≡ SlateDBError.OutOfMemory) ⊎ (slice_get self.old.reads 0 ≡ Some (Err e))) }
        ensures damage { IfErr result (λ e. (e ≡ SlateDBError.OutOfMemory) ⊎ IsBlockDamage e) }
        ensures unchanged { OnErr result (self.new ≡ self.old) }
    {
        match &mut self.inner {
            BlockIteratorInner::Ascending(state) => state.next_row(alloc),
            BlockIteratorInner::Descending(rows) => rows.next_row(alloc),
        }
    }

    /// Takes off exactly the leading rows that the order puts before the key, where the rows come in the order. Where some
    /// are refused or stand out of order, the last row that it takes off is read and comes before the key, and it stops where
    /// the next one is read and doesn't. So where those that are read come in the order, it takes off exactly those of them
    /// that come before the key. An `Err` takes none off: it is the refusal of a row that is left, or `OutOfMemory`.
    pub fn skip_before(&mut self, alloc: Global, key: &[u8]) -> Result<(), SlateDBError>
        ensures rows { IsRising self.old.order (left self.old) → OnOk result (left self.new ≡ Ok (drop_before self.old.order key.now (rows_of (left self.old)))) }
        ensures past { OnOk result (IsPast self.old.order key.now self.old.reads self.new.reads) }
        ensures stops { OnOk result (StopsAt self.old.order key.now self.new.reads) }
        ensures read { OnOk result (BeginsRead self.new.reads) }
        ensures order { self.new.order ≡ self.old.order }
        ensures cause { IfErr result (λ e. (e ≡ SlateDBError.OutOfMemory) ⊎ Refuses self.old.reads e) }
        ensures unchanged { OnErr result (self.new ≡ self.old) }
    {
        match &mut self.inner {
            BlockIteratorInner::Ascending(state) => state.skip_before(alloc, key),
            BlockIteratorInner::Descending(rows) => rows.skip_before(alloc, key),
        }
    }
}

impl<E: Outside, B: BlockLike> RowEntryIterator<E> for BlockIteratorV2<B> {
    ghost rest = { λ it _. rows_of (left it) };

    ghost sound = { λ it _. IsRising it.order (left it) };

    ghost order = { λ it. it.order };

    ghost bound = { λ it. length it.reads };

    ghost refuses = { λ it _ _ _ e. Refuses it.reads e };

    ghost begins = { λ before _ _ after. after ≡ before };

    ghost takes = { λ before _ _ answer after. TakesRead before.reads answer after.reads };

    ghost seeks = { λ before _ _ key after. IsSought key before after × BeginsRead after.reads };

    ghost stays = { λ before _ _ at e after. (after ≡ before) × Blames at before e };

    ghost within = { λ _ _. Unit {0} };

    ghost unbegun = { λ _. ⊥ };

    ghost rising = { λ it _ h. rising_rows it.order (left it) h };

    ghost more = { λ _ _ _ _ _ _ h. h };

    ghost whole = { λ it _ _ _ e h _ r _. none_refused it e h r };

    fn iteration_order(&self) -> IterationOrder {
        match &self.inner {
            BlockIteratorInner::Ascending(state) => state.iteration_order(),
            BlockIteratorInner::Descending(rows) => RowEntryIterator::<E>::iteration_order(rows),
        }
    }

    fn init(&mut self, _alloc: Global, _env: &mut E) -> Result<(), SlateDBError> {
        Ok(())
    }

    fn next(&mut self, alloc: Global, _env: &mut E) -> Result<Option<RowEntry>, SlateDBError> {
        self.next_row(alloc)
    }

    fn seek(&mut self, alloc: Global, key: &[u8], _env: &mut E) -> Result<(), SlateDBError> {
        self.skip_before(alloc, key)
    }
}
