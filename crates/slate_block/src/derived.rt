//! What derived calls answer: blocks and counts are equal exactly where their fields are, and counts begin at 0.
ghost use Rattle.std.specs.Prelude.{◌≡◌, ◌↔◌, IsTrue, []};
ghost use Rattle.slate_block.specs.Counting.{stats_of};

use crate::block::{Block, BlockStats};

/// Of blocks.
pub fn equal_blocks(a: &Block, b: &Block) -> bool
    ensures { IsTrue result ↔ ((a.now.body ≡ b.now.body) × (a.now.offsets.items ≡ b.now.offsets.items)) }
{
    a == b
}

/// Of the counts of a block's rows.
pub fn equal_stats(a: BlockStats, b: BlockStats) -> bool
    ensures { IsTrue result ↔ (a ≡ b) }
{
    a == b
}

/// Nothing is counted.
pub fn default_stats() -> BlockStats
    ensures { result ≡ stats_of [] }
{
    BlockStats::default()
}
