//! The rows of a block of any version, one at a time.
ghost use Rattle.std.specs.Prelude.{◌≡◌, ◌<◌, ◌⊎◌, ◌↔◌, List, [], Ok, Err, Some, length, slice_get, IsOk, IsSome, IsTrue, IfOk, IfErr, OnOk, OnErr};
ghost use Rattle.slate_types.specs.declared.types.RowEntry.{RowEntry};
ghost use Rattle.slate_types.specs.Iteration.{drop_before, in_order};
ghost use Rattle.slate_block.specs.BlockSpelling.{IsKnown, IsSecond};
ghost use Rattle.slate_block.specs.Walks.{block_reads, block_rows};
ghost use Rattle.slate_block.specs.BlockWalks.{left, rising_rows, rows_of, Blames, IsBlockDamage, IsPast, IsRising, IsSought, Refuses, StopsAt, TakesLeft, TakesRead};
ghost use Rattle.slate_block.specs.WholeWalks.{none_refused};
ghost use Rattle.slate_block.specs.GroupWalks.{walk_in};
ghost use Rattle.slate_block.specs.EitherVersion.{left_of};

use crate::block_iterator::BlockIterator;
use crate::block_iterator_v2::BlockIteratorV2;
use crate::block_like::BlockLike;
use slate_types::{IterationOrder, Outside, RowEntry, RowEntryIterator, SlateDBError};
use std::alloc::Global;

/// The rows of a block that are left, in an order. After a refusal it stands where it stood.
#[derive(Drop)]
pub enum DataBlockIterator<B: BlockLike> {
    V1(BlockIterator<B>),
    V2(BlockIteratorV2<B>),
}

impl<B: BlockLike> DataBlockIterator<B> {
    /// All rows of a block of this version, in the order. `InvalidVersion` exactly for versions other than 1, 2 and 3;
    /// otherwise it refuses exactly as the version's iterator does, in version 3 that of version 2.
    pub fn new(
        alloc: Global,
        block: B,
        version: u16,
        order: IterationOrder,
    ) -> Result<Self, SlateDBError>
        ensures v1 { IfOk result (λ it. version ≡ 1 → block_reads 1 (B.body_bytes block) (B.row_offsets block) ≡ Ok (in_order order (left_of it).reads)) }
        ensures v2 { IfOk result (λ it. IsSecond version → (left_of it).reads ≡ walk_in order (B.body_bytes block) (B.row_offsets block)) }
        ensures rows { IfOk result (λ it. (rows : List RowEntry) → block_rows version (B.body_bytes block) (B.row_offsets block) ≡ Ok rows → left (left_of it) ≡ Ok (in_order order rows)) }
        ensures only { IfOk result (λ it. (rows : List RowEntry) → left (left_of it) ≡ Ok (in_order order rows) → block_rows version (B.body_bytes block) (B.row_offsets block) ≡ Ok rows) }
        ensures upwards { IfOk result (λ it. order ≡ IterationOrder.Ascending → left (left_of it) ≡ block_rows version (B.body_bytes block) (B.row_offsets block)) }
        ensures order { IfOk result (λ it. (left_of it).order ≡ order) }
        ensures version { (IsKnown version → ⊥) → result ≡ Err (SlateDBError.InvalidVersion version) }
        ensures begins { IfOk result (λ _. IsOk (block_reads version (B.body_bytes block) (B.row_offsets block))) }
        ensures cause { IsKnown version → IfErr result (λ e. (e ≡ SlateDBError.OutOfMemory) ⊎ (block_reads version (B.body_bytes block) (B.row_offsets block) ≡ Err e)) }
        ensures damage { IsKnown version → IfErr result (λ e. (e ≡ SlateDBError.OutOfMemory) ⊎ IsBlockDamage e) }
    {
        match version {
            1 => Ok(DataBlockIterator::V1(BlockIterator::new(alloc, block, order)?)),
            2 | 3 => Ok(DataBlockIterator::V2(BlockIteratorV2::new(alloc, block, order)?)),
            _ => Err(SlateDBError::InvalidVersion {
                actual_version: version,
            }),
        }
    }

    /// Whether no row is left.
    pub fn is_empty(&self) -> bool
        ensures { IsTrue result ↔ ((left_of self.now).reads ≡ []) }
    {
        match self {
            DataBlockIterator::V1(rows) => rows.is_empty(),
            DataBlockIterator::V2(rows) => rows.is_empty(),
        }
    }

    /// The first row of those that are left, which is taken off, or `None` where none is left. `CorruptTable` with the
    /// place of the first field that fails in the rows' part, or `InvalidRowFlags`; or `OutOfMemory`.
    #[inline(always)]
    pub fn next_row(&mut self, alloc: Global) -> Result<Option<RowEntry>, SlateDBError>
        ensures read { IfOk result (λ answer. TakesRead (left_of self.old).reads answer (left_of self.new).reads) }
        ensures rows { IfOk result (λ answer. TakesLeft (left (left_of self.old)) answer (left (left_of self.new))) }
        ensures smaller { IfOk result (λ answer. IsSome answer → length (left_of self.new).reads < length (left_of self.old).reads) }
        ensures order { (left_of self.new).order ≡ (left_of self.old).order }
        ensures cause { IfErr result (λ e. (e ≡ SlateDBError.OutOfMemory) ⊎ (slice_get (left_of self.old).reads 0 ≡ Some (Err e))) }
        ensures damage { IfErr result (λ e. (e ≡ SlateDBError.OutOfMemory) ⊎ IsBlockDamage e) }
        ensures unchanged { OnErr result (self.new ≡ self.old) }
    {
        match self {
            DataBlockIterator::V1(rows) => rows.next_row(alloc),
            DataBlockIterator::V2(rows) => rows.next_row(alloc),
        }
    }

    /// Takes off exactly the leading rows that the order puts before the key, where the rows come in the order. Where some
    /// are refused or stand out of order, the last row that it takes off is read and comes before the key, and it stops where
    /// the next one, where it is read, doesn't. So where those that are read come in the order, it takes off none of them
    /// that doesn't come before the key. An `Err` takes none off: it is the refusal of a row that is left, or `OutOfMemory`.
    pub fn skip_before(&mut self, alloc: Global, key: &[u8]) -> Result<(), SlateDBError>
        ensures rows { IsRising (left_of self.old).order (left (left_of self.old)) → OnOk result (left (left_of self.new) ≡ Ok (drop_before (left_of self.old).order key.now (rows_of (left (left_of self.old))))) }
        ensures past { OnOk result (IsPast (left_of self.old).order key.now (left_of self.old).reads (left_of self.new).reads) }
        ensures stops { OnOk result (StopsAt (left_of self.old).order key.now (left_of self.new).reads) }
        ensures order { (left_of self.new).order ≡ (left_of self.old).order }
        ensures cause { IfErr result (λ e. (e ≡ SlateDBError.OutOfMemory) ⊎ Refuses (left_of self.old).reads e) }
        ensures unchanged { OnErr result (self.new ≡ self.old) }
    {
        match self {
            DataBlockIterator::V1(rows) => rows.skip_before(alloc, key),
            DataBlockIterator::V2(rows) => rows.skip_before(alloc, key),
        }
    }
}

impl<E: Outside, B: BlockLike> RowEntryIterator<E> for DataBlockIterator<B> {
    ghost rest = { λ it _. rows_of (left (left_of it)) };

    ghost sound = { λ it _. IsRising (left_of it).order (left (left_of it)) };

    ghost order = { λ it. (left_of it).order };

    ghost bound = { λ it. length (left_of it).reads };

    ghost refuses = { λ it _ _ _ e. Refuses (left_of it).reads e };

    ghost begins = { λ before _ _ after. after ≡ before };

    ghost takes = { λ before _ _ answer after. TakesRead (left_of before).reads answer (left_of after).reads };

    ghost seeks = { λ before _ _ key after. IsSought key (left_of before) (left_of after) };

    ghost stays = { λ before _ _ at e after. (after ≡ before) × Blames at (left_of before) e };

    ghost within = { λ _ _. Unit {0} };

    ghost unbegun = { λ _. ⊥ };

    ghost rising = { λ it _ h. rising_rows (left_of it).order (left (left_of it)) h };

    ghost more = { λ _ _ _ _ _ _ h. h };

    ghost whole = { λ it _ _ _ e h _ r _. none_refused (left_of it) e h r };

    fn iteration_order(&self) -> IterationOrder {
        match self {
            DataBlockIterator::V1(rows) => RowEntryIterator::<E>::iteration_order(rows),
            DataBlockIterator::V2(rows) => RowEntryIterator::<E>::iteration_order(rows),
        }
    }

    fn init(&mut self, _alloc: Global, _env: &mut E) -> Result<(), SlateDBError> {
        Ok(())
    }

    fn next(&mut self, alloc: Global, _env: &mut E) -> Result<Option<RowEntry>, SlateDBError> {
        self.next_row(alloc)
    }

    fn seek(&mut self, alloc: Global, key: &[u8], _env: &mut E) -> Result<(), SlateDBError> {
        self.skip_before(alloc, key)
    }
}
