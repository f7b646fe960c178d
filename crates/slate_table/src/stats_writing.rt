//! The statistics of a table that is built.
ghost use Rattle.std.specs.Prelude.{◌≡◌, ◌≤◌, ◌<◌, ◌+◌, ◌-◌, ◌^◌, length, if◌then◌else◌, IfOk, IsOkUnless};
ghost use Rattle.std.specs.List.{count_by};
ghost use Rattle.slate_types.specs.Rows.{is_put, is_tombstone, is_operand};
ghost use Rattle.slate_table.specs.TableEnd.{counted_bytes};

use crate::sst_stats::SstStats;
use bytes::Bytes;
use slate_block::BlockStats;
use slate_types::{RowEntry, SlateDBError, ValueDeletable};
use std::alloc::Global;

/// How many rows of each kind there are.
#[derive(Clone, Copy)]
struct RowCounts {
    puts: u64,
    deletes: u64,
    merges: u64,
}

/// The bytes of the statistics of rows, whose keys and values have so many bytes, in blocks of which these are the counts. The
/// one error is `OutOfMemory`.
pub fn encode_stats(
    alloc: Global,
    rows: &[RowEntry],
    raw_key_size: u64,
    raw_val_size: u64,
    block_stats: Vec<BlockStats>,
) -> Result<Bytes, SlateDBError>
    requires few { length block_stats.items < 2 ^ 32 }
    ensures bytes { IfOk result (λ bytes. bytes ≡ counted_bytes rows.now raw_key_size raw_val_size block_stats.items) }
    ensures cause { IsOkUnless result SlateDBError.OutOfMemory }
{
    let counts = count_rows(rows);
    let stats = SstStats {
        num_puts: counts.puts,
        num_deletes: counts.deletes,
        num_merges: counts.merges,
        raw_key_size,
        raw_val_size,
        block_stats,
    };
    stats.encode(alloc)
}

fn count_rows(rows: &[RowEntry]) -> RowCounts
    ensures puts { result.puts ≡ count_by is_put rows.now }
    ensures deletes { result.deletes ≡ count_by is_tombstone rows.now }
    ensures merges { result.merges ≡ count_by is_operand rows.now }
{
    let mut counts = RowCounts {
        puts: 0,
        deletes: 0,
        merges: 0,
    };
    for row in rows {
        counts = with_row(counts, row);
    }
    counts
}

fn with_row(counts: RowCounts, row: &RowEntry) -> RowCounts
    requires puts { counts.puts < 2 ^ 64 - 1 }
    requires deletes { counts.deletes < 2 ^ 64 - 1 }
    requires merges { counts.merges < 2 ^ 64 - 1 }
    ensures puts { result.puts ≡ counts.puts + (if is_put row.now then 1 else 0) }
    ensures deletes { result.deletes ≡ counts.deletes + (if is_tombstone row.now then 1 else 0) }
    ensures merges { result.merges ≡ counts.merges + (if is_operand row.now then 1 else 0) }
{
    match row.value {
        ValueDeletable::Value(_) => RowCounts {
            puts: counts.puts + 1,
            ..counts
        },
        ValueDeletable::Tombstone => RowCounts {
            deletes: counts.deletes + 1,
            ..counts
        },
        ValueDeletable::Merge(_) => RowCounts {
            merges: counts.merges + 1,
            ..counts
        },
    }
}
