//! The statistics of a table: how many rows of each kind it has, and how many bytes of keys and values.
ghost use Rattle.std.specs.Prelude.{◌≡◌, ◌≤◌, ◌<◌, ◌+◌, ◌-◌, ◌^◌, ◌++◌, ◌⊎◌, ℕ, List, Some, Ok, Err, length, min, map, flat_map, slice_index, OnOk, IfOk, IfErr, IsOkUnless};
ghost use Rattle.std.specs.Int.{w64};
ghost use Rattle.std.specs.List.{AllByRecursion};
ghost use Rattle.slate_block.specs.RowSpelling.{be16, be64};
ghost use Rattle.slate_block.specs.RowReading.{refusal};
ghost use Rattle.slate_table.specs.Decoded.{Stats, FitCounts, IsStats, counts_bytes};
ghost use Rattle.slate_table.specs.StatsReading.{
  counts_of,
  stats_of,
  totals_bytes,
  FitTotals,
  three_numbers,
  block_stats_field,
  block_stats_from,
  stats_in,
};

use crate::writing::{append_numbers, append_u16, append_u32};
use bytes::Bytes;
use slate_block::BlockStats;
use slate_block::fields::{corrupt, u16_field, u32_field, u64_field};
use slate_types::SlateDBError;
use std::alloc::Global;

/// How many bytes the counts of a block have.
const BLOCK_STATS_SIZE: usize = 6;

/// How many rows of each kind a table has and each of its blocks, how many bytes its keys have, and how many its values
/// and merge operands.
#[derive(PartialEq, Eq, Drop)]
pub struct SstStats {
    pub num_puts: u64,
    pub num_deletes: u64,
    pub num_merges: u64,
    pub raw_key_size: u64,
    pub raw_val_size: u64,
    /// One for each block, in the blocks' order.
    pub block_stats: Vec<BlockStats>,
}

impl SstStats {
    /// How many rows there are, or `u64::MAX` where there are more.
    pub fn num_rows(&self) -> u64
        ensures { result ≡ min (self.now.num_puts + self.now.num_deletes + self.now.num_merges) (2 ^ 64 - 1) }
    {
        self.num_puts
            .saturating_add(self.num_deletes)
            .saturating_add(self.num_merges)
    }

    /// The bytes of the statistics. The one error is `OutOfMemory`.
    pub fn encode(&self, alloc: Global) -> Result<Bytes, SlateDBError>
        requires { length self.now.block_stats.items < 2 ^ 32 }
        ensures spelling { IfOk result (λ bytes. IsStats bytes (stats_of self.now)) }
        ensures cause { IsOkUnless result SlateDBError.OutOfMemory }
    {
        let mut out = Vec::new(alloc);
        append_totals(&mut out, self)?;
        append_block_stats(&mut out, &self.block_stats)?;
        Bytes::from_vec(out).map_err(SlateDBError::from)
    }

    /// The statistics from their bytes. `CorruptTable` with the place of the first field that the bytes end in, or of what
    /// is left over: exactly where the bytes are no statistics; or `OutOfMemory`.
    pub fn decode(alloc: Global, bytes: Bytes) -> Result<SstStats, SlateDBError>
        ensures found { IfOk result (λ stats. IsStats bytes (stats_of stats)) }
        ensures only { (stats : Stats) → IsStats bytes stats → IsOkUnless result SlateDBError.OutOfMemory }
        ensures cause { IfErr result (λ e. (e ≡ SlateDBError.OutOfMemory) ⊎ (refusal (stats_in bytes) ≡ Some e)) }
    {
        let stats = read_stats(alloc, bytes.as_slice());
        drop(bytes);
        stats
    }
}

/// Appends all that stands before the counts of the blocks.
fn append_totals(out: &mut Vec<u8>, stats: &SstStats) -> Result<(), SlateDBError>
    requires { length stats.now.block_stats.items < 2 ^ 32 }
    ensures appended { OnOk result (out.new.items ≡ out.old.items ++ totals_bytes (stats_of stats.now)) }
    ensures fit { OnOk result (FitTotals (stats_of stats.now)) }
    ensures cause { IsOkUnless result SlateDBError.OutOfMemory }
{
    let totals = [
        stats.num_puts,
        stats.num_deletes,
        stats.num_merges,
        stats.raw_key_size,
        stats.raw_val_size,
    ];
    append_numbers(out, &totals)?;
    append_u32(out, stats.block_stats.len() as u32)
}

fn append_block_stats(out: &mut Vec<u8>, blocks: &[BlockStats]) -> Result<(), SlateDBError>
    ensures appended { OnOk result (out.new.items ≡ out.old.items ++ flat_map (λ b. counts_bytes be16 (counts_of b)) blocks.now) }
    ensures fit { OnOk result (AllByRecursion (FitCounts 16) (map counts_of blocks.now)) }
    ensures cause { IsOkUnless result SlateDBError.OutOfMemory }
{
    for block in blocks {
        append_counts(out, *block)?;
    }
    Ok(())
}

fn append_counts(out: &mut Vec<u8>, block: BlockStats) -> Result<(), SlateDBError>
    ensures appended { OnOk result (out.new.items ≡ out.old.items ++ counts_bytes be16 (counts_of block)) }
    ensures fit { OnOk result (FitCounts 16 (counts_of block)) }
    ensures cause { IsOkUnless result SlateDBError.OutOfMemory }
{
    append_u16(out, block.num_puts)?;
    append_u16(out, block.num_deletes)?;
    append_u16(out, block.num_merges)
}

#[tactic(auto, unfolding(crate::specs::StatsReading::stats_in))]
fn read_stats(alloc: Global, bytes: &[u8]) -> Result<SstStats, SlateDBError>
    ensures found { IfOk result (λ stats. stats_in bytes.now ≡ Ok (stats_of stats)) }
    ensures cause { IfErr result (λ e. (e ≡ SlateDBError.OutOfMemory) ⊎ (stats_in bytes.now ≡ Err e)) }
    ensures bytes { IfOk result (λ _. (i : ℕ) → slice_index bytes.now i < 256) }
{
    let ((num_puts, num_deletes, num_merges), at) = three_numbers(bytes, 0)?;
    let (raw_key_size, at) = u64_field(bytes, at)?;
    let (raw_val_size, at) = u64_field(bytes, at)?;
    let (count, at) = u32_field(bytes, at)?;
    let (block_stats, at) = block_stats_from(alloc, count as usize, bytes, at)?;
    if at < bytes.len() {
        return Err(corrupt(at));
    }
    Ok(SstStats {
        num_puts,
        num_deletes,
        num_merges,
        raw_key_size,
        raw_val_size,
        block_stats,
    })
}

#[tactic(auto, unfolding(crate::specs::StatsReading::three_numbers))]
fn three_numbers(bytes: &[u8], at: usize) -> Result<((u64, u64, u64), usize), SlateDBError>
    requires { at ≤ length bytes.now }
    ensures value { result ≡ three_numbers w64 bytes.now at }
    ensures within { IfOk result (λ field. field.1 ≤ length bytes.now) }
{
    let (first, at) = u64_field(bytes, at)?;
    let (second, at) = u64_field(bytes, at)?;
    let (third, at) = u64_field(bytes, at)?;
    Ok(((first, second, third), at))
}

/// The counts of so many blocks.
fn block_stats_from(
    alloc: Global,
    count: usize,
    bytes: &[u8],
    at: usize,
) -> Result<(Vec<BlockStats>, usize), SlateDBError>
    requires { at ≤ length bytes.now }
    ensures found { IfOk result (λ found. block_stats_from count bytes.now at ≡ Ok (found.0.items, found.1)) }
    ensures cause { IfErr result (λ e. (e ≡ SlateDBError.OutOfMemory) ⊎ (block_stats_from count bytes.now at ≡ Err e)) }
    ensures within { IfOk result (λ found. found.1 ≤ length bytes.now) }
{
    let mut blocks = Vec::with_capacity(alloc, count.min(bytes.len() / BLOCK_STATS_SIZE))?;
    let mut at = at;
    for _ in 0..count {
        let (block, next) = block_stats_field(bytes, at)?;
        blocks.push(block)?;
        at = next;
    }
    Ok((blocks, at))
}

#[tactic(auto, unfolding(crate::specs::StatsReading::block_stats_field, crate::specs::StatsReading::three_numbers))]
fn block_stats_field(bytes: &[u8], at: usize) -> Result<(BlockStats, usize), SlateDBError>
    requires { at ≤ length bytes.now }
    ensures value { result ≡ block_stats_field bytes.now at }
    ensures within { IfOk result (λ field. field.1 ≤ length bytes.now) }
{
    let (num_puts, at) = u16_field(bytes, at)?;
    let (num_deletes, at) = u16_field(bytes, at)?;
    let (num_merges, at) = u16_field(bytes, at)?;
    let block = BlockStats {
        num_puts,
        num_deletes,
        num_merges,
    };
    Ok((block, at))
}
