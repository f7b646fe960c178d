//! The rows of a block of version 2 by key downwards.
ghost use Rattle.std.specs.Prelude.{◌≡◌, ◌⊎◌, ◌↔◌, List, [], Ok, Err, Some, length, slice_get, reverse, IsOk, IsTrue, IfOk, IfErr, OnOk, OnErr};
ghost use Rattle.slate_types.specs.declared.types.RowEntry.{RowEntry};
ghost use Rattle.slate_types.specs.Iteration.{drop_before};
ghost use Rattle.slate_block.specs.Walks.{block_reads, block_rows};
ghost use Rattle.slate_block.specs.BlockWalks.{left, rising_rows, rows_of, BeginsRead, Blames, IsBlockDamage, IsPast, IsRising, IsSought, Refuses, StopsAt, TakesLeft, TakesRead};
ghost use Rattle.slate_block.specs.WholeWalks.{none_refused};
ghost use Rattle.slate_block.specs.GroupWalks.{reads_back};

use crate::block_like::BlockLike;
use crate::fields::corrupt;
use crate::places::are_named;
use crate::walk_back_v2::{before_key, group_rows, groups_to_search, rows_upto_key};
use slate_types::{IterationOrder, Outside, RowEntry, RowEntryIterator, SlateDBError};
use std::alloc::Global;
use std::marker::Model;

/// The rows of a block of version 2 that are left, by key downwards: in exactly the reversed order of the block, also where
/// keys are equal. It reads a group at once, from the last to the first. After a refusal it stands where it stood.
#[derive(Drop)]
pub struct DescendingBlockIteratorV2<B: BlockLike> {
    block: B,
    /// The number of groups that were not read.
    groups: usize,
    /// The rows that are left of the group that was read last.
    rows: Vec<RowEntry>,
}

impl<B: BlockLike> Model for DescendingBlockIteratorV2<B> {
    ghost use Rattle.std.specs.Prelude.{◌≤◌, length};
    ghost use Rattle.slate_types.specs.declared.iter.IterationOrder.TheVariants.{Descending};
    ghost use Rattle.slate_block.specs.BlockWalks.{ReadsLeft};
    ghost use Rattle.slate_block.specs.GroupWalks.{left_back};

    ghost Value = { ReadsLeft };

    ghost view = { λ it. record { reads = left_back (B.body_bytes it.block) (B.row_offsets it.block) it.groups it.rows.items; order = Descending } };

    ghost invariant = { λ it. it.groups ≤ length (B.row_offsets it.block) };
}

impl<B: BlockLike> DescendingBlockIteratorV2<B> {
    /// All rows of the block. It refuses exactly this: `CorruptTable` at 0 where the offsets don't begin at 0, or are more
    /// than 65535. What else fails is refused when the walk comes to its group: by the first row of the group that fails.
    pub fn new(alloc: Global, block: B) -> Result<Self, SlateDBError>
        ensures reads { IfOk result (λ it. it.reads ≡ reads_back (length (B.row_offsets block)) (B.body_bytes block) (B.row_offsets block)) }
        ensures rows { IfOk result (λ it. (rows : List RowEntry) → block_rows 2 (B.body_bytes block) (B.row_offsets block) ≡ Ok rows → left it ≡ Ok (reverse rows)) }
        ensures only { IfOk result (λ it. (rows : List RowEntry) → left it ≡ Ok (reverse rows) → block_rows 2 (B.body_bytes block) (B.row_offsets block) ≡ Ok rows) }
        ensures order { IfOk result (λ it. it.order ≡ IterationOrder.Descending) }
        ensures begins { IfOk result (λ _. IsOk (block_reads 2 (B.body_bytes block) (B.row_offsets block))) }
        ensures cause { IfErr result (λ e. block_reads 2 (B.body_bytes block) (B.row_offsets block) ≡ Err e) }
        ensures damage { IfErr result IsBlockDamage }
    {
        if !are_named(block.offsets()) {
            return Err(corrupt(0));
        }
        let groups = block.offsets().len();
        Ok(DescendingBlockIteratorV2 {
            block,
            groups,
            rows: Vec::new(alloc),
        })
    }

    /// Whether no row is left.
    #[tactic(auto, using(crate::proofs::BackLaws::no_rows_back, crate::proofs::BackLaws::some_groups))]
    pub fn is_empty(&self) -> bool
        ensures { IsTrue result ↔ (self.now.reads ≡ []) }
    {
        self.groups == 0 && self.rows.is_empty()
    }

    /// The first row of those that are left, which is taken off, or `None` where none is left. `CorruptTable` with the
    /// place of the first field that fails in the rows' part, or `InvalidRowFlags`; or `OutOfMemory`.
    pub fn next_row(&mut self, alloc: Global) -> Result<Option<RowEntry>, SlateDBError>
        ensures read { IfOk result (λ answer. TakesRead self.old.reads answer self.new.reads) }
        ensures rows { IfOk result (λ answer. TakesLeft (left self.old) answer (left self.new)) }
        ensures order { self.new.order ≡ self.old.order }
        ensures cause { IfErr result (λ e. (e ≡ SlateDBError.OutOfMemory) ⊎ (slice_get self.old.reads 0 ≡ Some (Err e))) }
        ensures damage { IfErr result (λ e. (e ≡ SlateDBError.OutOfMemory) ⊎ IsBlockDamage e) }
        ensures unchanged { OnErr result (self.new ≡ self.old) }
    {
        if !self.rows.is_empty() {
            return Ok(self.rows.pop());
        }
        if self.groups == 0 {
            return Ok(None);
        }
        let (body, offsets) = (self.block.body(), self.block.offsets());
        self.rows = group_rows(alloc, body, offsets, self.groups - 1)?;
        self.groups -= 1;
        Ok(self.rows.pop())
    }

    /// Takes off exactly the leading rows that come after the key, where the rows come in order. Where some are refused or
    /// stand out of order, the last row that it takes off is read and comes after the key, and it stops where the next one is
    /// read and doesn't. So where those that are read come in order, it takes off exactly those of them that come after the
    /// key. An `Err` takes none off: it is the refusal of a row that is left, or `OutOfMemory`.
    pub fn skip_before(&mut self, alloc: Global, key: &[u8]) -> Result<(), SlateDBError>
        ensures rows { IsRising self.old.order (left self.old) → OnOk result (left self.new ≡ Ok (drop_before self.old.order key.now (rows_of (left self.old)))) }
        ensures past { OnOk result (IsPast self.old.order key.now self.old.reads self.new.reads) }
        ensures stops { OnOk result (StopsAt self.old.order key.now self.new.reads) }
        ensures read { OnOk result (BeginsRead self.new.reads) }
        ensures order { self.new.order ≡ self.old.order }
        ensures cause { IfErr result (λ e. (e ≡ SlateDBError.OutOfMemory) ⊎ Refuses self.old.reads e) }
        ensures unchanged { OnErr result (self.new ≡ self.old) }
    {
        let kept = rows_upto_key(&self.rows, key);
        if kept > 0 {
            self.rows.truncate(kept);
            return Ok(());
        }
        let (body, offsets) = (self.block.body(), self.block.offsets());
        let upto = groups_to_search(alloc, body, offsets, self.groups, key)?;
        let (groups, rows) = before_key(alloc, body, offsets, upto, key)?;
        self.groups = groups;
        self.rows = rows;
        Ok(())
    }
}

impl<E: Outside, B: BlockLike> RowEntryIterator<E> for DescendingBlockIteratorV2<B> {
    ghost rest = { λ it _. rows_of (left it) };

    ghost sound = { λ it _. IsRising it.order (left it) };

    ghost order = { λ it. it.order };

    ghost bound = { λ it. length it.reads };

    ghost refuses = { λ it _ _ _ e. Refuses it.reads e };

    ghost begins = { λ before _ _ after. after ≡ before };

    ghost takes = { λ before _ _ answer after. TakesRead before.reads answer after.reads };

    ghost seeks = { λ before _ _ key after. IsSought key before after × BeginsRead after.reads };

    ghost stays = { λ before _ _ at e after. (after ≡ before) × Blames at before e };

    ghost within = { λ _ _. Unit {0} };

    ghost unbegun = { λ _. ⊥ };

    ghost rising = { λ it _ h. rising_rows it.order (left it) h };

    ghost more = { λ _ _ _ _ _ _ h. h };

    ghost whole = { λ it _ _ _ e h _ r _. none_refused it e h r };

    fn iteration_order(&self) -> IterationOrder {
        // What contracts see of it is known once a field is read.
        let _groups = self.groups;
        IterationOrder::Descending
    }

    fn init(&mut self, _alloc: Global, _env: &mut E) -> Result<(), SlateDBError> {
        Ok(())
    }

    fn next(&mut self, alloc: Global, _env: &mut E) -> Result<Option<RowEntry>, SlateDBError> {
        self.next_row(alloc)
    }

    fn seek(&mut self, alloc: Global, key: &[u8], _env: &mut E) -> Result<(), SlateDBError> {
        self.skip_before(alloc, key)
    }
}
