//! The rows of a key, newest first, to the first that decides.
ghost use Rattle.std.specs.Prelude.{◌≡◌, ◌⊎◌, true, false, List, [], ◌∷◌, ◌++◌, map, None, IfOk, IfErr, OnOk, IsOkUnless};
ghost use Rattle.std.specs.List.{AllByRecursion};
ghost use Rattle.slate_types.specs.declared.error.SlateDBError.{SlateDBError};
ghost use Rattle.slate_types.specs.declared.iter.IterationOrder.{IterationOrder};
ghost use Rattle.slate_types.specs.declared.types.RowEntry.{RowEntry};
ghost use Rattle.slate_types.specs.Iteration.{IsInOrder, NoneBefore};
ghost use Rattle.slate_types.specs.Outside.{Act, no_parts};
ghost use Rattle.slate_types.specs.Rows.{is_operand};
ghost use Rattle.slate_types.specs.World.{nothing};
ghost use Rattle.slate_mem.specs.Table.{newest};
ghost use Rattle.slate_mem.specs.Lookup.{is_decided, newest_first, Brings, IsRowUpTo};

use crate::{ImmutableMemtable, MemTable};
use bytes::Bytes;
use slate_types::{RowEntry, RowEntryIterator, SlateDBError, ValueDeletable};
use std::alloc::{AllocError, Global};

/// Whether a row is an operand.
pub(crate) fn is_merge(row: &RowEntry) -> bool
    ensures { result ≡ is_operand row.now }
{
    matches!(row.value, ValueDeletable::Merge(_))
}

/// Whether the last of some rows, newest first, is no operand.
pub fn is_decided(rows: &[RowEntry]) -> bool
    ensures { result ≡ is_decided rows.now }
{
    match rows.last() {
        Some(row) => !is_merge(row),
        None => false,
    }
}

/// Adds the rows of the key in frozen memtables, of which the newest stands last, behind those that were found in newer
/// ones.
pub fn newest_of_frozen(
    alloc: Global,
    newer: Vec<RowEntry>,
    frozen: &[ImmutableMemtable],
    key: &Bytes,
    max_seq: u64,
) -> Result<Vec<RowEntry>, SlateDBError>
    ensures found { IfOk result (λ all. (above : List RowEntry) → newer.items ≡ newest key.now max_seq above → all.items ≡ newest key.now max_seq (above ++ newest_first (map (λ t. t.rows) frozen.now))) }
    ensures cause { IsOkUnless result SlateDBError.OutOfMemory }
{
    let mut found = newer;
    let mut i = frozen.len();
    while i > 0 && !is_decided(&found) {
        i -= 1;
        let mut more = frozen[i].rows_of_key(alloc, key, max_seq)?;
        found.append(&mut more)?;
    }
    Ok(found)
}

/// The rows of the key in memory: in the active memtable, and behind it in frozen ones, of which the newest stands last.
pub fn newest_of_memory(
    alloc: Global,
    active: &MemTable,
    frozen: &[ImmutableMemtable],
    key: &Bytes,
    max_seq: u64,
) -> Result<Vec<RowEntry>, SlateDBError>
    ensures found { IfOk result (λ found. found.items ≡ newest key.now max_seq (active.now.rows ++ newest_first (map (λ t. t.rows) frozen.now))) }
    ensures cause { IsOkUnless result SlateDBError.OutOfMemory }
{
    let found = active.rows_of_key(alloc, key, max_seq)?;
    newest_of_frozen(alloc, found, frozen, key, max_seq)
}

/// The rows of the key of an iterator that stands at the key or behind it.
pub fn newest_of_walk<I: RowEntryIterator<()>>(
    alloc: Global,
    rows: &mut I,
    key: &[u8],
    max_seq: u64,
) -> Result<Vec<RowEntry>, SlateDBError>
    ensures found { I.sound rows.old nothing → I.order rows.old ≡ IterationOrder.Ascending → NoneBefore IterationOrder.Ascending key.now (I.rest rows.old nothing) → IfOk result (λ found. found.items ≡ newest key.now max_seq (I.rest rows.old nothing)) }
    ensures asked { IfOk result (λ found. AllByRecursion (IsRowUpTo key.now max_seq) found.items) }
    ensures brought { IfOk result (λ found. Brings (λ before answer after. (reads : List Act) × I.takes before no_parts reads answer after) rows.old found.items) }
    ensures cause { IfErr result (λ e. (e ≡ SlateDBError.OutOfMemory) ⊎ I.refuses rows.old no_parts [] None e) }
{
    let mut found = Vec::new(alloc);
    while let Some(row) = rows.next(alloc, &mut ())? {
        let goes_on = take_row(&mut found, row, key, max_seq)?;
        if !goes_on {
            return Ok(found);
        }
    }
    Ok(found)
}

/// Takes a row of the key with a sequence of at most `max_seq`, and says whether rows behind it may count.
fn take_row(
    found: &mut Vec<RowEntry>,
    row: RowEntry,
    key: &[u8],
    max_seq: u64,
) -> Result<bool, AllocError>
    ensures row { OnOk result ((found.new.items ≡ found.old.items) ⊎ (found.new.items ≡ found.old.items ++ (row ∷ []))) }
    ensures asked { OnOk result (AllByRecursion (IsRowUpTo key.now max_seq) found.old.items → AllByRecursion (IsRowUpTo key.now max_seq) found.new.items) }
    ensures goes_on { IfOk result (λ more. more ≡ true → (rows : List RowEntry) → found.old.items ++ newest key.now max_seq (row ∷ rows) ≡ found.new.items ++ newest key.now max_seq rows) }
    ensures ends { IfOk result (λ more. more ≡ false → (rows : List RowEntry) → NoneBefore IterationOrder.Ascending key.now (row ∷ rows) → IsInOrder IterationOrder.Ascending (row ∷ rows) → found.old.items ++ newest key.now max_seq (row ∷ rows) ≡ found.new.items) }
{
    if row.key.as_slice() != key {
        drop(row);
        return Ok(false);
    }
    if row.seq > max_seq {
        drop(row);
        return Ok(true);
    }
    let goes_on = is_merge(&row);
    found.push(row)?;
    Ok(goes_on)
}
