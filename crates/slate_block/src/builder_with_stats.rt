//! Blocks, built row by row, whose rows are counted by their kinds.
ghost use Rattle.std.specs.Prelude.{◌≡◌, ◌≤◌, ◌<◌, ◌+◌, ◌^◌, ◌↔◌, ◌⊎◌, ◌==◌, ◌++◌, [], ◌∷◌, true, false, Ok, Err, List, length, IfOk, IfErr, OnOk, OnErr};
ghost use Rattle.slate_types.specs.declared.types.RowEntry.{RowEntry};
ghost use Rattle.slate_block.specs.BlockSpelling.{FitsBlock, block_bytes};
ghost use Rattle.slate_block.specs.Building.{CanTake, with_row};
ghost use Rattle.slate_block.specs.Counting.{stats_of, sum_of, counted_rows};
ghost use Rattle.slate_block.specs.Fitting.{fits_in};

use crate::block::BlockStats;
use crate::builder::BlockBuilder;
use bytes::Bytes;
use slate_types::{RowEntry, SlateDBError, ValueDeletable};
use std::alloc::Global;
use std::marker::Model;

/// A builder that counts the rows that it takes. Contracts see the builder and the counts.
#[derive(Drop)]
pub struct BlockBuilderWithStats {
    builder: BlockBuilder,
    stats: BlockStats,
}

impl Model for BlockBuilderWithStats {
    ghost use Rattle.std.specs.Prelude.{◌≤◌, length};
    ghost use Rattle.slate_block.specs.Counting.{Counting, counted_rows};

    ghost Value = { Counting };

    ghost view = { λ b. record { builder = b.builder; stats = b.stats } };

    ghost invariant = { λ b. counted_rows b.stats ≤ length b.builder.rows };
}

impl BlockBuilderWithStats {
    /// Counts from here on: rows that the builder took before aren't counted.
    pub fn new(builder: BlockBuilder) -> BlockBuilderWithStats
        ensures builder { result.builder ≡ builder }
        ensures stats { result.stats ≡ stats_of [] }
    {
        BlockBuilderWithStats {
            builder,
            stats: BlockStats::default(),
        }
    }

    /// Whether a row fits behind those that were taken. The first row always does.
    pub fn would_fit(&self, entry: &RowEntry) -> bool
        requires { CanTake entry.now }
        ensures { result ≡ fits_in self.now.builder.size self.now.builder.version self.now.builder.rows entry.now }
    {
        self.builder.would_fit(entry)
    }

    /// Whether no row was taken.
    pub fn is_empty(&self) -> bool
        ensures { result ≡ (length self.now.builder.rows == 0) }
    {
        self.builder.is_empty()
    }

    /// Takes and counts a row, or answers false exactly where it doesn't fit. `EmptyKey` exactly for an empty key, or
    /// `OutOfMemory`.
    pub fn add(&mut self, entry: RowEntry) -> Result<bool, SlateDBError>
        requires { CanTake entry }
        ensures empty { (result ≡ Err SlateDBError.EmptyKey) ↔ (length entry.key ≡ 0) }
        ensures fits { IfOk result (λ is_taken. is_taken ≡ fits_in self.old.builder.size self.old.builder.version self.old.builder.rows entry) }
        ensures taken { result ≡ Ok true → self.new.builder ≡ with_row self.old.builder entry }
        ensures counted { (counted : List RowEntry) → result ≡ Ok true → self.old.stats ≡ stats_of counted → self.new.stats ≡ stats_of (counted ++ entry ∷ []) }
        ensures refused { result ≡ Ok false → self.new ≡ self.old }
        ensures unchanged { OnErr result (self.new ≡ self.old) }
        ensures few { result ≡ Ok true → length self.new.builder.rows < 2 ^ 16 }
        ensures cause { IfErr result (λ e. (e ≡ SlateDBError.EmptyKey) ⊎ (e ≡ SlateDBError.OutOfMemory)) }
    {
        let one = stats_of_row(&entry);
        let is_taken = self.builder.add(entry);
        if let Ok(true) = is_taken {
            self.stats = sum_of(self.stats, one);
        }
        is_taken
    }

    /// The counts of the rows that were taken and counted.
    pub fn stats(&self) -> BlockStats
        ensures { result ≡ self.now.stats }
    {
        self.stats
    }

    /// The bytes of the block of the rows that were taken. `EmptyBlock` exactly where there are none, or `OutOfMemory`.
    pub fn encode(&self, alloc: Global) -> Result<Bytes, SlateDBError>
        ensures empty { (result ≡ Err SlateDBError.EmptyBlock) ↔ (self.now.builder.rows ≡ []) }
        ensures bytes { IfOk result (λ bytes. bytes ≡ block_bytes self.now.builder.version self.now.builder.rows) }
        ensures fits { OnOk result (FitsBlock self.now.builder.version self.now.builder.rows) }
        ensures cause { IfErr result (λ e. (e ≡ SlateDBError.EmptyBlock) ⊎ (e ≡ SlateDBError.OutOfMemory)) }
    {
        self.builder.encode(alloc)
    }

    /// The builder, and the counts of the rows that were taken and counted.
    pub fn into_parts(self) -> (BlockBuilder, BlockStats)
        ensures builder { result.0 ≡ self.builder }
        ensures stats { result.1 ≡ self.stats }
    {
        let BlockBuilderWithStats { builder, stats } = self;
        (builder, stats)
    }
}

/// The counts of one row.
fn stats_of_row(entry: &RowEntry) -> BlockStats
    ensures value { result ≡ stats_of (entry.now ∷ []) }
    ensures one { counted_rows result ≡ 1 }
{
    let none = BlockStats::default();
    match entry.value {
        ValueDeletable::Value(_) => BlockStats {
            num_puts: 1,
            ..none
        },
        ValueDeletable::Tombstone => BlockStats {
            num_deletes: 1,
            ..none
        },
        ValueDeletable::Merge(_) => BlockStats {
            num_merges: 1,
            ..none
        },
    }
}

/// The counts of both.
fn sum_of(a: BlockStats, b: BlockStats) -> BlockStats
    requires { counted_rows a + counted_rows b < 2 ^ 16 }
    ensures { result ≡ sum_of a b }
{
    BlockStats {
        num_puts: a.num_puts + b.num_puts,
        num_deletes: a.num_deletes + b.num_deletes,
        num_merges: a.num_merges + b.num_merges,
    }
}
