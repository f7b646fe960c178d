//! What is counted of a table's rows.
ghost use Rattle.std.specs.Prelude.{◌≡◌, ◌≤◌, ◌+◌, ◌-◌, ◌^◌, Some, max, min, length};
ghost use Rattle.std.specs.List.{sum_by};
ghost use Rattle.slate_types.specs.Rows as row_words;
ghost use Rattle.slate_types.specs.Fold.{greatest_seq, latest_creation};
ghost use Rattle.slate_mem.specs.Slots.{rows_in, standing};
ghost use Rattle.slate_mem.specs.Table as table;

use crate::slots::Slot;
use slate_types::RowEntry;

/// The number of rows, the bytes that they are estimated at, their greatest creation in milliseconds, and their
/// last and first sequence.
#[derive(Clone, Copy)]
pub struct KVTableMetadata {
    pub entry_num: usize,
    pub entries_size_in_bytes: u64,
    pub last_tick: i64,
    pub last_seq: u64,
    pub first_seq: u64,
}

/// What is counted of the rows of slots.
pub(crate) fn count_rows(slots: &[Slot]) -> KVTableMetadata
    ensures entries { result.entry_num ≡ min (length (standing slots.now)) (2 ^ 64 - 1) }
    ensures bytes { result.entries_size_in_bytes ≡ min (sum_by row_words.estimated_size (standing slots.now)) (2 ^ 64 - 1) }
    ensures tick { result.last_tick ≡ table.last_tick (standing slots.now) }
    ensures last { result.last_seq ≡ greatest_seq 0 (standing slots.now) }
    ensures first { result.first_seq ≡ table.first_seq (standing slots.now) }
{
    let mut count = Count {
        rows: 0,
        bytes: 0,
        tick: None,
        last: 0,
        first: None,
    };
    for slot in slots {
        count_in_slot(&mut count, slot);
    }
    KVTableMetadata {
        entry_num: count.rows,
        entries_size_in_bytes: count.bytes,
        last_tick: count.tick.unwrap_or(i64::MIN),
        last_seq: count.last,
        first_seq: count.first.unwrap_or(0),
    }
}

#[derive(Clone, Copy)]
struct Count {
    rows: usize,
    bytes: u64,
    tick: Option<i64>,
    last: u64,
    first: Option<u64>,
}

fn count_in_slot(count: &mut Count, slot: &Slot)
    requires rows { count.old.rows ≤ 2 ^ 64 - 1 }
    requires bytes { count.old.bytes ≤ 2 ^ 64 - 1 }
    ensures rows { count.new.rows ≡ min (count.old.rows + length (rows_in slot.now)) (2 ^ 64 - 1) }
    ensures bytes { count.new.bytes ≡ min (count.old.bytes + sum_by row_words.estimated_size (rows_in slot.now)) (2 ^ 64 - 1) }
    ensures tick { count.new.tick ≡ latest_creation count.old.tick (rows_in slot.now) }
    ensures last { count.new.last ≡ greatest_seq count.old.last (rows_in slot.now) }
    ensures first { count.new.first ≡ table.least_seq count.old.first (rows_in slot.now) }
{
    let end = slot.stored().len();
    let mut at = 0;
    while at < end {
        if let Some(row) = slot.row_at(at) {
            count_row(count, row);
        }
        at += 1;
    }
}

fn count_row(count: &mut Count, row: &RowEntry)
    ensures rows { count.new.rows ≡ min (count.old.rows + 1) (2 ^ 64 - 1) }
    ensures bytes { count.new.bytes ≡ min (count.old.bytes + row_words.estimated_size row.now) (2 ^ 64 - 1) }
    ensures tick { count.new.tick ≡ row_words.latest count.old.tick row.now.create_ts }
    ensures last { count.new.last ≡ max count.old.last row.now.seq }
    ensures first { count.new.first ≡ Some (table.lesser count.old.first row.now.seq) }
{
    count.rows = count.rows.saturating_add(1);
    count.bytes = count.bytes.saturating_add(row.estimated_size());
    count.tick = later(count.tick, row.create_ts);
    count.last = count.last.max(row.seq);
    count.first = Some(lesser(count.first, row.seq));
}

/// The later of two stamps, of which either may be absent.
pub(crate) fn later(a: Option<i64>, b: Option<i64>) -> Option<i64>
    ensures { result ≡ row_words.latest a b }
{
    match (a, b) {
        (Some(x), Some(y)) => Some(x.max(y)),
        (Some(x), None) => Some(x),
        (None, b) => b,
    }
}

/// The lesser of two sequences, of which the first may be absent.
fn lesser(a: Option<u64>, b: u64) -> u64
    ensures { result ≡ table.lesser a b }
{
    match a {
        Some(n) => n.min(b),
        None => b,
    }
}
