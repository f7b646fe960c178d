//! The rows of a block of version 1, one at a time.
ghost use Rattle.std.specs.Prelude.{◌≡◌, ◌↔◌, ◌+◌, ◌≤◌, ◌<◌, ◌⊎◌, ℕ, List, [], Ok, Err, Some, length, drop, take, true, false, slice_get, IsTrue, IfOk, IfErr, IfSome, OnOk, OnErr};
ghost use Rattle.slate_types.specs.declared.types.RowEntry.{RowEntry};
ghost use Rattle.slate_types.specs.Iteration.{comes_before, drop_before, in_order};
ghost use Rattle.slate_block.specs.Walks.{block_reads, block_rows};
ghost use Rattle.slate_block.specs.BlockWalks.{left, place_in, rows_of, Blames, IsBlockDamage, IsPast, IsRising, IsSought, Refuses, StopsAt, TakesLeft, TakesRead, rising_rows};
ghost use Rattle.slate_block.specs.WholeWalks.{none_refused};

use crate::block_like::BlockLike;
use crate::key_parts::is_before_at;
use crate::places::{block_key, place_behind, row_upto};
use bytes::Bytes;
use slate_types::{IterationOrder, Outside, RowEntry, RowEntryIterator, SlateDBError};
use std::alloc::Global;
use std::marker::Model;

/// The rows of a block of version 1 that are left, in an order. After a refusal it stands where it stood.
#[derive(Drop)]
pub struct BlockIterator<B: BlockLike> {
    block: B,
    first_key: Bytes,
    /// The rows that are left are those from `start` on and before `end`.
    start: usize,
    end: usize,
    order: IterationOrder,
}

impl<B: BlockLike> Model for BlockIterator<B> {
    ghost use Rattle.std.specs.Prelude.{◌≤◌, length, slice_range};
    ghost use Rattle.slate_types.specs.Iteration.{in_order};
    ghost use Rattle.slate_block.specs.Walks.{reads_v1};
    ghost use Rattle.slate_block.specs.BlockWalks.{ReadsLeft};

    ghost Value = { ReadsLeft };

    ghost view = { λ it. record { reads = in_order it.order (slice_range (reads_v1 (B.body_bytes it.block) it.first_key (B.row_offsets it.block) (length (B.body_bytes it.block))) it.start it.end); order = it.order } };

    ghost invariant = { λ it. (it.start ≤ it.end) × (it.end ≤ length (B.row_offsets it.block)) };
}

/// Where in a block the row stands that is at an index of those from the start on and before the end.
fn place_in(order: IterationOrder, start: usize, end: usize, index: usize) -> usize
    requires { start + index < end }
    ensures { result ≡ place_in order start end index }
{
    match order {
        IterationOrder::Ascending => start + index,
        IterationOrder::Descending => end - 1 - index,
    }
}

impl<B: BlockLike> BlockIterator<B> {
    /// All rows of the block, in the order. It refuses exactly these, or with `OutOfMemory`: `CorruptTable` at 0 where the
    /// offsets don't begin at 0 or are more than 65535, and `CorruptTable` or `InvalidRowFlags` where the first row, by
    /// whose key the others are read, isn't one that shares nothing. What else fails is refused when the walk comes there.
    pub fn new(alloc: Global, block: B, order: IterationOrder) -> Result<Self, SlateDBError>
        ensures reads { IfOk result (λ it. block_reads 1 (B.body_bytes block) (B.row_offsets block) ≡ Ok (in_order order it.reads)) }
        ensures rows { IfOk result (λ it. (rows : List RowEntry) → block_rows 1 (B.body_bytes block) (B.row_offsets block) ≡ Ok rows → left it ≡ Ok (in_order order rows)) }
        ensures only { IfOk result (λ it. (rows : List RowEntry) → left it ≡ Ok (in_order order rows) → block_rows 1 (B.body_bytes block) (B.row_offsets block) ≡ Ok rows) }
        ensures order { IfOk result (λ it. it.order ≡ order) }
        ensures cause { IfErr result (λ e. (e ≡ SlateDBError.OutOfMemory) ⊎ (block_reads 1 (B.body_bytes block) (B.row_offsets block) ≡ Err e)) }
        ensures damage { IfErr result (λ e. (e ≡ SlateDBError.OutOfMemory) ⊎ IsBlockDamage e) }
    {
        let first_key = block_key(alloc, block.body(), block.offsets())?;
        let end = block.offsets().len();
        Ok(BlockIterator {
            block,
            first_key,
            start: 0,
            end,
            order,
        })
    }

    /// Whether no row is left.
    pub fn is_empty(&self) -> bool
        ensures { IsTrue result ↔ (self.now.reads ≡ []) }
    {
        self.rows_left() == 0
    }

    #[tactic(auto, using(crate::proofs::WalkLaws::reads_left))]
    fn rows_left(&self) -> usize
        ensures { result ≡ length self.now.reads }
    {
        self.end - self.start
    }

    /// The row at an index of those that are left.
    fn row(&self, alloc: Global, index: usize) -> Result<RowEntry, SlateDBError>
        requires { index < length self.now.reads }
        ensures found { IfOk result (λ row. slice_get self.now.reads index ≡ Some (Ok row)) }
        ensures cause { IfErr result (λ e. (e ≡ SlateDBError.OutOfMemory) ⊎ (slice_get self.now.reads index ≡ Some (Err e))) }
        ensures damage { IfErr result (λ e. (e ≡ SlateDBError.OutOfMemory) ⊎ IsBlockDamage e) }
    {
        let place = place_in(self.order, self.start, self.end, index);
        let (body, offsets) = (self.block.body(), self.block.offsets());
        let upto = place_behind(body, offsets, place);
        row_upto(
            alloc,
            body,
            self.first_key.as_slice(),
            offsets[place] as usize,
            upto,
        )
    }

    /// Takes so many rows off.
    fn skip(&mut self, count: usize)
        requires { count ≤ length self.old.reads }
        ensures reads { self.new.reads ≡ drop count self.old.reads }
        ensures order { self.new.order ≡ self.old.order }
    {
        match self.order {
            IterationOrder::Ascending => self.start += count,
            IterationOrder::Descending => self.end -= count,
        }
    }

    /// The first row of those that are left, which is taken off, or `None` where none is left. `CorruptTable` with the
    /// place of the first field that fails in the rows' part, or `InvalidRowFlags`; or `OutOfMemory`.
    pub fn next_row(&mut self, alloc: Global) -> Result<Option<RowEntry>, SlateDBError>
        ensures read { IfOk result (λ answer. TakesRead self.old.reads answer self.new.reads) }
        ensures rows { IfOk result (λ answer. TakesLeft (left self.old) answer (left self.new)) }
        ensures order { self.new.order ≡ self.old.order }
        ensures cause { IfErr result (λ e. (e ≡ SlateDBError.OutOfMemory) ⊎ (slice_get self.old.reads 0 ≡ Some (Err e))) }
        ensures damage { IfErr result (λ e. (e ≡ SlateDBError.OutOfMemory) ⊎ IsBlockDamage e) }
        ensures unchanged { OnErr result (self.new ≡ self.old) }
    {
        if self.is_empty() {
            return Ok(None);
        }
        let row = self.row(alloc, 0)?;
        self.skip(1);
        Ok(Some(row))
    }

    /// How many leading rows a search finds before the key: the order puts the last of them before it, and the row behind
    /// them not.
    fn rows_before(&self, alloc: Global, key: &[u8]) -> Result<usize, SlateDBError>
        ensures within { IfOk result (λ count. count ≤ length self.now.reads) }
        ensures last { IfOk result (λ count. (index : ℕ) (row : RowEntry) → index + 1 ≡ count → slice_get self.now.reads index ≡ Some (Ok row) → comes_before self.now.order row.key key.now ≡ true) }
        ensures next { IfOk result (λ count. (row : RowEntry) → slice_get self.now.reads count ≡ Some (Ok row) → comes_before self.now.order row.key key.now ≡ false) }
        ensures cause { IfErr result (λ e. (e ≡ SlateDBError.OutOfMemory) ⊎ Refuses self.now.reads e) }
    {
        let mut low = 0;
        let mut high = self.rows_left();
        while low < high {
            let middle = low + (high - low) / 2;
            if self.is_before(alloc, middle, key)? {
                low = middle + 1;
            } else {
                high = middle;
            }
        }
        Ok(low)
    }

    /// Whether the order puts the row at an index before the key. Only where its key doesn't tell, the whole row is read.
    fn is_before(&self, alloc: Global, index: usize, key: &[u8]) -> Result<bool, SlateDBError>
        requires { index < length self.now.reads }
        ensures before { IfOk result (λ before. (row : RowEntry) → slice_get self.now.reads index ≡ Some (Ok row) → before ≡ comes_before self.now.order row.key key.now) }
        ensures cause { IfErr result (λ e. (e ≡ SlateDBError.OutOfMemory) ⊎ Refuses self.now.reads e) }
    {
        let place = place_in(self.order, self.start, self.end, index);
        let (body, offsets) = (self.block.body(), self.block.offsets());
        let first = self.first_key.as_slice();
        if let Some(before) = is_before_at(self.order, body, first, offsets, place, key) {
            return Ok(before);
        }
        let row = self.row(alloc, index)?;
        let before = self.order.puts_before(row.key.as_slice(), key);
        drop(row);
        Ok(before)
    }

    /// Takes off exactly the leading rows that the order puts before the key, where the rows come in the order. Where some
    /// are refused or stand out of order, the last row that it takes off is read and comes before the key, and it stops where
    /// the next one, where it is read, doesn't. So where those that are read come in the order, it takes off none of them
    /// that doesn't come before the key. An `Err` takes none off: it is the refusal of a row that is left, or `OutOfMemory`.
    pub fn skip_before(&mut self, alloc: Global, key: &[u8]) -> Result<(), SlateDBError>
        ensures rows { IsRising self.old.order (left self.old) → OnOk result (left self.new ≡ Ok (drop_before self.old.order key.now (rows_of (left self.old)))) }
        ensures past { OnOk result (IsPast self.old.order key.now self.old.reads self.new.reads) }
        ensures stops { OnOk result (StopsAt self.old.order key.now self.new.reads) }
        ensures order { self.new.order ≡ self.old.order }
        ensures cause { IfErr result (λ e. (e ≡ SlateDBError.OutOfMemory) ⊎ Refuses self.old.reads e) }
        ensures unchanged { OnErr result (self.new ≡ self.old) }
    {
        let count = self.rows_before(alloc, key)?;
        if count == 0 {
            return Ok(());
        }
        // A key that stands there doesn't make a row: the last one is read whole.
        let last = self.row(alloc, count - 1)?;
        drop(last);
        self.skip(count);
        Ok(())
    }
}

impl<E: Outside, B: BlockLike> RowEntryIterator<E> for BlockIterator<B> {
    ghost rest = { λ it _. rows_of (left it) };

    ghost sound = { λ it _. IsRising it.order (left it) };

    ghost order = { λ it. it.order };

    ghost bound = { λ it. length it.reads };

    ghost refuses = { λ it _ _ _ e. Refuses it.reads e };

    ghost begins = { λ before _ _ after. after ≡ before };

    ghost takes = { λ before _ _ answer after. TakesRead before.reads answer after.reads };

    ghost seeks = { λ before _ _ key after. IsSought key before after };

    ghost stays = { λ before _ _ at e after. (after ≡ before) × Blames at before e };

    ghost within = { λ _ _. Unit {0} };

    ghost unbegun = { λ _. ⊥ };

    ghost rising = { λ it _ h. rising_rows it.order (left it) h };

    ghost more = { λ _ _ _ _ _ _ h. h };

    ghost whole = { λ it _ _ _ e h _ r _. none_refused it e h r };

    fn iteration_order(&self) -> IterationOrder {
        self.order
    }

    fn init(&mut self, _alloc: Global, _env: &mut E) -> Result<(), SlateDBError> {
        Ok(())
    }

    fn next(&mut self, alloc: Global, _env: &mut E) -> Result<Option<RowEntry>, SlateDBError> {
        self.next_row(alloc)
    }

    fn seek(&mut self, alloc: Global, key: &[u8], _env: &mut E) -> Result<(), SlateDBError> {
        self.skip_before(alloc, key)
    }
}
