//! What derived calls answer. Values are equal exactly where their fields are.
ghost use Rattle.std.specs.Prelude.{◌≡◌, ◌↔◌, IsTrue};

use crate::sst_stats::SstStats;

/// Of statistics of tables.
pub fn equal_sst_stats(a: &SstStats, b: &SstStats) -> bool
    ensures { IsTrue result ↔ ((a.now.num_puts ≡ b.now.num_puts) × (a.now.num_deletes ≡ b.now.num_deletes) × (a.now.num_merges ≡ b.now.num_merges)
        × (a.now.raw_key_size ≡ b.now.raw_key_size) × (a.now.raw_val_size ≡ b.now.raw_val_size) × (a.now.block_stats.items ≡ b.now.block_stats.items)) }
{
    a == b
}
