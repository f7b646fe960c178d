//! Rows in order, a few to a slot, which readers share.
ghost use Rattle.std.specs.Prelude.{◌≡◌, ◌≢◌, ◌<◌, ◌≤◌, ◌+◌, ◌++◌, ◌∷◌, ◌↔◌, ◌&&◌, ◌==◌, true, false, not, nat_le, filter, List, [], length, take, drop, set, slice_get, Some, None, option_copied, option_to_list, IfOk, IfSome, IfNone, IsTrue, OnOk, OnErr};
ghost use Rattle.std.specs.List.{AllByRecursion, insert, list_all, list_any};
ghost use Rattle.std.specs.Ordering.{is_eq, is_gt, is_lt};
ghost use Rattle.slate_types.specs.Rows.{sequenced, sequenced_cmp};
ghost use Rattle.slate_types.specs.Keys.{in_range};
ghost use Rattle.slate_types.specs.declared.types.RowEntry.{RowEntry};
ghost use Rattle.slate_mem.specs.Table.{newest, put_row};
ghost use Rattle.slate_mem.specs.Slots.{AreBefore, AreHalves, AreMarked, HasTaken, IsFirstSlot, IsFilled, IsFirst, IsGapFor, IsPlaceIn, IsSameSlot, IsSlotFor, IsSlots, NoneLater, RowsRise, WithPut, WithSomePut, all_slot_rows, is_gone, is_standing, rows_from, rows_in, standing, slot_rows};

use crate::lookup::is_merge;
use bytes::Bytes;
use slate_types::{BytesRange, RowEntry};
use std::alloc::{AllocError, Global};
use std::cmp::Ordering;
use std::mem;
use std::ops::Bound;
use std::sync::Arc;

/// The most rows that a slot is given.
const SLOT_ROWS: usize = 32;

/// Rows by key upwards, and within a key by sequence downwards, some of which may be marked as gone. Who shares them has marks
/// of their own.
#[derive(Drop)]
pub(crate) struct Slot {
    rows: Arc<Vec<RowEntry>, Global>,
    gone: Option<[bool; SLOT_ROWS]>,
}

impl Slot {
    /// A slot of rows that all count.
    fn of_rows(alloc: Global, rows: Vec<RowEntry>) -> Result<Slot, AllocError>
        ensures stored { IfOk result (λ s. slot_rows s ≡ rows.items) }
        ensures whole { IfOk result (λ s. s.gone ≡ None) }
    {
        Ok(Slot {
            rows: Arc::new(alloc, rows)?,
            gone: None,
        })
    }

    /// The same rows once more, with marks of their own.
    fn share(&self) -> Result<Slot, AllocError>
        ensures stored { IfOk result (λ s. slot_rows s ≡ slot_rows self.now) }
        ensures marks { IfOk result (λ s. s.gone ≡ self.now.gone) }
    {
        Ok(Slot {
            rows: Arc::try_clone(&self.rows)?,
            gone: self.gone,
        })
    }

    /// The rows, with those that are gone.
    pub(crate) fn stored(&self) -> &[RowEntry]
        ensures { result.now ≡ slot_rows self.now }
    {
        self.rows.as_slice()
    }

    /// The row at an index, where it counts.
    pub(crate) fn row_at(&self, at: usize) -> Option<&RowEntry>
        requires { at < length (slot_rows self.now) }
        ensures row { rows_from self.now at ≡ option_to_list (option_copied result) ++ rows_from self.now (at + 1) }
        ensures value { IfSome result (λ row. slice_get (slot_rows self.now) at ≡ Some row.now) }
    {
        if self.is_gone(at) {
            None
        } else {
            Some(&self.rows[at])
        }
    }

    fn is_gone(&self, at: usize) -> bool
        ensures { result ≡ is_gone self.now.gone at }
    {
        match &self.gone {
            None => false,
            Some(gone) => is_set(gone.as_slice(), at),
        }
    }

    /// Marks as gone the rows of a sequence.
    fn take_back(&mut self, seq: u64)
        ensures stored { slot_rows self.new ≡ slot_rows self.old }
        ensures rows { IsFilled self.old → rows_in self.new ≡ filter (λ r. not (r.seq == seq)) (rows_in self.old) }
    {
        if !has_seq(self.stored(), seq) {
            return;
        }
        let mut gone = self.gone.unwrap_or([false; SLOT_ROWS]);
        mark_seq(self.stored(), &mut gone, seq);
        self.gone = Some(gone);
    }

    /// The same rows once more, of which those count that count here, have keys in the range, and sequences of at most `seq`.
    fn cut(&self, range: &BytesRange, seq: u64) -> Result<Slot, AllocError>
        ensures stored { IfOk result (λ s. slot_rows s ≡ slot_rows self.now) }
        ensures rows { IsFilled self.now → IfOk result (λ s. rows_in s ≡ filter (λ r. in_range range.now r.key && nat_le r.seq seq) (rows_in self.now)) }
    {
        let mut gone = self.gone.unwrap_or([false; SLOT_ROWS]);
        mark_outside(self.stored(), &mut gone, range, seq);
        let mut slot = self.share()?;
        slot.gone = Some(gone);
        Ok(slot)
    }

    /// Whether its first and its last key are in the range.
    fn is_within(&self, range: &BytesRange) -> bool
        requires { 0 < length (slot_rows self.now) }
        ensures { result ≡ true → RowsRise (slot_rows self.now) → AllByRecursion (λ r. in_range range.now r.key ≡ true) (slot_rows self.now) }
    {
        let rows = self.stored();
        let last = rows.len() - 1;
        range.contains(rows[0].key.as_slice()) && range.contains(rows[last].key.as_slice())
    }

    /// Adds copies of the rows that count.
    pub(crate) fn copy_to(&self, found: &mut Vec<RowEntry>) -> Result<(), AllocError>
        ensures { OnOk result (found.new.items ≡ found.old.items ++ rows_in self.now) }
    {
        let count = self.stored().len();
        found.reserve(count)?;
        let mut at = 0;
        while at < count {
            if let Some(row) = self.row_at(at) {
                found.push(row.clone()?)?;
            }
            at += 1;
        }
        Ok(())
    }
}

/// Whether a mark is set.
fn is_set(marks: &[bool], at: usize) -> bool
    ensures { result ≡ is_gone (Some marks.now) at }
{
    at < marks.len() && marks[at]
}

/// Whether a row has the sequence.
fn has_seq(rows: &[RowEntry], seq: u64) -> bool
    ensures { result ≡ list_any (λ r. r.seq == seq) rows.now }
{
    for row in rows {
        if row.seq == seq {
            return true;
        }
    }
    false
}

/// Marks the rows of a sequence.
fn mark_seq(rows: &[RowEntry], gone: &mut [bool; SLOT_ROWS], seq: u64)
    ensures { length rows.now ≤ 32 → AreMarked (λ r. not (r.seq == seq)) rows.now (Some gone.old) (Some gone.new) }
{
    let count = rows.len().min(SLOT_ROWS);
    let mut at = 0;
    while at < count {
        if rows[at].seq == seq {
            gone[at] = true;
        }
        at += 1;
    }
}

/// Marks the rows with keys out of the range, and those with sequences above `seq`.
fn mark_outside(rows: &[RowEntry], gone: &mut [bool; SLOT_ROWS], range: &BytesRange, seq: u64)
    ensures { length rows.now ≤ 32 → AreMarked (λ r. in_range range.now r.key && nat_le r.seq seq) rows.now (Some gone.old) (Some gone.new) }
{
    let count = rows.len().min(SLOT_ROWS);
    let mut at = 0;
    while at < count {
        if !is_seen(&rows[at], range, seq) {
            gone[at] = true;
        }
        at += 1;
    }
}

/// Whether a row has a key in the range, and a sequence of at most `seq`.
fn is_seen(row: &RowEntry, range: &BytesRange, seq: u64) -> bool
    ensures { result ≡ (in_range range.now row.now.key && nat_le row.now.seq seq) }
{
    range.contains(row.key.as_slice()) && row.seq <= seq
}

/// How a key with a sequence stands to a row.
fn place_cmp(key: &[u8], seq: u64, row: &RowEntry) -> Ordering
    ensures { result ≡ sequenced_cmp (record { user_key = key.now; seq = seq }) (sequenced row.now) }
{
    key.cmp(row.key.as_slice()).then(row.seq.cmp(&seq))
}

/// Whether a key with a sequence stands behind a row.
fn is_above(key: &[u8], seq: u64, row: &RowEntry) -> bool
    ensures { result ≡ is_gt (sequenced_cmp (record { user_key = key.now; seq = seq }) (sequenced row.now)) }
{
    place_cmp(key, seq, row).is_gt()
}

/// Whether a row stands at a key with a sequence.
fn is_at(key: &[u8], seq: u64, row: &RowEntry) -> bool
    ensures { result ≡ is_eq (sequenced_cmp (record { user_key = key.now; seq = seq }) (sequenced row.now)) }
{
    place_cmp(key, seq, row).is_eq()
}

/// Whether a row of the same key and sequence stands at an index.
fn stands_at(rows: &[RowEntry], at: usize, row: &RowEntry) -> bool
    ensures { result ≡ is_standing (sequenced row.now) (slice_get rows.now at) }
{
    match rows.get(at) {
        Some(other) => is_at(row.key.as_slice(), row.seq, other),
        None => false,
    }
}

/// How many of the rows stand before a key with a sequence, found by halves.
fn place_in(rows: &[RowEntry], key: &[u8], seq: u64) -> usize
    requires { RowsRise rows.now }
    ensures { IsPlaceIn (record { user_key = key.now; seq = seq }) rows.now result }
{
    let mut low = 0;
    let mut high = rows.len();
    while low < high {
        let middle = low + (high - low) / 2;
        if is_above(key, seq, &rows[middle]) {
            low = middle + 1;
        } else {
            high = middle;
        }
    }
    low
}

/// Whether a slot begins behind a key with a sequence.
fn begins_behind(slot: &Slot, key: &[u8], seq: u64) -> bool
    requires { 0 < length (slot_rows slot.now) }
    ensures { IsFirst (slot_rows slot.now) (λ r. is_lt (sequenced_cmp (record { user_key = key.now; seq = seq }) (sequenced r)) ≡ result) }
{
    place_cmp(key, seq, &slot.rows[0]).is_lt()
}

/// The last slot that doesn't begin behind a key with a sequence, or else the first, found by halves.
fn slot_at(slots: &[Slot], key: &[u8], seq: u64) -> usize
    requires { IsSlots slots.now }
    ensures { IsSlotFor (record { user_key = key.now; seq = seq }) slots.now result }
{
    let mut low = 0;
    let mut high = slots.len();
    while low < high {
        let middle = low + (high - low) / 2;
        if begins_behind(&slots[middle], key, seq) {
            high = middle;
        } else {
            low = middle + 1;
        }
    }
    low.saturating_sub(1)
}

/// Puts a row among rows that rise, in place of one of the same key and sequence, where there is room. Else it is given back.
fn put_among(rows: &mut Vec<RowEntry>, row: RowEntry) -> Option<RowEntry>
    requires rises { RowsRise rows.old.items }
    requires few { length rows.old.items ≤ 32 }
    ensures put { IfNone result (rows.new.items ≡ put_row rows.old.items row) }
    ensures few { length rows.new.items ≤ 32 }
    ensures same { IfSome result (λ back. (rows.new.items ≡ rows.old.items) × (back ≡ row)) }
{
    let at = place_in(rows, row.key.as_slice(), row.seq);
    if stands_at(rows, at, &row) {
        drop(mem::replace(&mut rows[at], row));
        return None;
    }
    if rows.len() >= SLOT_ROWS {
        return Some(row);
    }
    match rows.insert(at, row) {
        Ok(()) => None,
        Err(failed) => Some(failed.value),
    }
}

/// Puts a row in a slot as it stands, where nobody shares its rows, they all count, and there is room. Else it is given back.
fn put_in_slot(slot: &mut Slot, row: RowEntry) -> Option<RowEntry>
    requires rises { RowsRise (slot_rows slot.old) }
    requires few { length (slot_rows slot.old) ≤ 32 }
    ensures put { IfNone result (HasTaken slot.old row slot.new) }
    ensures same { IfSome result (λ back. IsSameSlot slot.old slot.new × (back ≡ row)) }
{
    if slot.gone.is_some() {
        return Some(row);
    }
    match Arc::get_mut(&mut slot.rows) {
        Some(rows) => put_among(rows, row),
        None => Some(row),
    }
}

/// A slot of one row, with room for more.
fn lone_slot(alloc: Global, row: RowEntry) -> Result<Slot, AllocError>
    ensures stored { IfOk result (λ s. slot_rows s ≡ row ∷ []) }
    ensures whole { IfOk result (λ s. s.gone ≡ None) }
{
    let mut rows = match Vec::with_capacity(alloc, SLOT_ROWS) {
        Ok(rows) => rows,
        Err(error) => {
            drop(row);
            return Err(error);
        }
    };
    rows.push(row)?;
    Slot::of_rows(alloc, rows)
}

/// Puts a slot of one row in a gap.
fn put_alone(
    alloc: Global,
    slots: &mut Vec<Slot>,
    at: usize,
    row: RowEntry,
) -> Result<(), AllocError>
    requires slots { IsSlots slots.old.items }
    requires place { IsGapFor (sequenced row) slots.old.items at }
    ensures put { OnOk result (WithPut slots.old.items (row ∷ []) slots.new.items) }
    ensures same { OnErr result (slots.new.items ≡ slots.old.items) }
{
    let slot = lone_slot(alloc, row)?;
    slots.insert(at, slot)?;
    Ok(())
}

/// The rows of a slot with one more, in one slot, or in two where it is full.
fn with_row(alloc: Global, slot: &Slot, row: RowEntry) -> Result<(Slot, Option<Slot>), AllocError>
    requires rises { RowsRise (slot_rows slot.now) }
    requires filled { IsFilled slot.now }
    ensures { IfOk result (λ all. AreHalves (put_row (rows_in slot.now) row) all.0 all.1) }
{
    let rows = match rows_with(alloc, slot, row) {
        Ok(rows) => rows,
        Err(error) => return Err(error),
    };
    in_halves(alloc, rows)
}

/// Copies of the rows of a slot with one more.
fn rows_with(alloc: Global, slot: &Slot, row: RowEntry) -> Result<Vec<RowEntry>, AllocError>
    requires rises { RowsRise (slot_rows slot.now) }
    ensures { IfOk result (λ rows. rows.items ≡ put_row (rows_in slot.now) row) }
{
    let mut rows = match copied(alloc, slot) {
        Ok(rows) => rows,
        Err(error) => {
            drop(row);
            return Err(error);
        }
    };
    put_in_list(&mut rows, row)?;
    Ok(rows)
}

/// Copies of the rows of a slot, with room for one more.
fn copied(alloc: Global, slot: &Slot) -> Result<Vec<RowEntry>, AllocError>
    ensures { IfOk result (λ rows. rows.items ≡ rows_in slot.now) }
{
    let mut rows = Vec::with_capacity(alloc, SLOT_ROWS + 1)?;
    slot.copy_to(&mut rows)?;
    Ok(rows)
}

/// Puts a row in a list of rows that rise, in place of one of the same key and sequence.
fn put_in_list(rows: &mut Vec<RowEntry>, row: RowEntry) -> Result<(), AllocError>
    requires { RowsRise rows.old.items }
    ensures { OnOk result (rows.new.items ≡ put_row rows.old.items row) }
{
    let at = place_in(rows, row.key.as_slice(), row.seq);
    if stands_at(rows, at, &row) {
        drop(mem::replace(&mut rows[at], row));
        return Ok(());
    }
    rows.insert(at, row)?;
    Ok(())
}

/// Rows in one slot, or in two where they are more than a slot has.
fn in_halves(alloc: Global, mut rows: Vec<RowEntry>) -> Result<(Slot, Option<Slot>), AllocError>
    requires { (0 < length rows.items) × (length rows.items ≤ 33) }
    ensures { IfOk result (λ all. AreHalves rows.items all.0 all.1) }
{
    if rows.len() <= SLOT_ROWS {
        return Ok((Slot::of_rows(alloc, rows)?, None));
    }
    let high = match rows.split_off(SLOT_ROWS / 2) {
        Ok(high) => high,
        Err(error) => {
            drop(rows);
            return Err(error);
        }
    };
    two_slots(alloc, rows, high)
}

fn two_slots(
    alloc: Global,
    low: Vec<RowEntry>,
    high: Vec<RowEntry>,
) -> Result<(Slot, Option<Slot>), AllocError>
    requires { (0 < length low.items) × (length low.items ≤ 32) × (0 < length high.items) × (length high.items ≤ 32) }
    ensures { IfOk result (λ all. AreHalves (low.items ++ high.items) all.0 all.1) }
{
    let low = match Slot::of_rows(alloc, low) {
        Ok(low) => low,
        Err(error) => {
            drop(high);
            return Err(error);
        }
    };
    match Slot::of_rows(alloc, high) {
        Ok(high) => Ok((low, Some(high))),
        Err(error) => {
            drop(low);
            Err(error)
        }
    }
}

/// Puts a row in new slots in place of one.
fn put_anew(
    alloc: Global,
    slots: &mut Vec<Slot>,
    at: usize,
    row: RowEntry,
) -> Result<(), AllocError>
    requires slots { IsSlots slots.old.items }
    requires within { at < length slots.old.items }
    requires place { IsSlotFor (sequenced row) slots.old.items at }
    ensures put { OnOk result (WithPut slots.old.items (row ∷ []) slots.new.items) }
    ensures same { OnErr result (slots.new.items ≡ slots.old.items) }
{
    let (low, high) = with_row(alloc, &slots[at], row)?;
    match high {
        None => {
            put_one(slots, at, low);
            Ok(())
        }
        Some(high) => put_two(slots, at, low, high),
    }
}

/// Puts a slot in place of one.
fn put_one(slots: &mut Vec<Slot>, at: usize, slot: Slot)
    requires { at < length slots.old.items }
    ensures { slots.new.items ≡ set slots.old.items at slot }
{
    drop(mem::replace(&mut slots[at], slot));
}

/// Puts two slots in place of one.
fn put_two(slots: &mut Vec<Slot>, at: usize, low: Slot, high: Slot) -> Result<(), AllocError>
    requires { at < length slots.old.items }
    ensures put { OnOk result (slots.new.items ≡ set (insert slots.old.items (at + 1) high) at low) }
    ensures same { OnErr result (slots.new.items ≡ slots.old.items) }
{
    if let Err(error) = slots.insert(at + 1, high) {
        drop(low);
        return Err(error.into());
    }
    put_one(slots, at, low);
    Ok(())
}

/// Whether a slot is full, and all its rows stand before a key with a sequence.
fn is_passed(slot: &Slot, key: &[u8], seq: u64) -> bool
    requires { RowsRise (slot_rows slot.now) }
    ensures { result ≡ true → AreBefore (record { user_key = key.now; seq = seq }) (slot_rows slot.now) }
{
    let rows = slot.stored();
    match rows.last() {
        Some(last) => rows.len() >= SLOT_ROWS && is_above(key, seq, last),
        None => false,
    }
}

/// Puts a row that finds no place in its slot as it stands.
fn put_apart(
    alloc: Global,
    slots: &mut Vec<Slot>,
    at: usize,
    row: RowEntry,
) -> Result<(), AllocError>
    requires slots { IsSlots slots.old.items }
    requires within { at < length slots.old.items }
    requires place { IsSlotFor (sequenced row) slots.old.items at }
    ensures put { OnOk result (WithPut slots.old.items (row ∷ []) slots.new.items) }
    ensures same { OnErr result (slots.new.items ≡ slots.old.items) }
{
    if is_passed(&slots[at], row.key.as_slice(), row.seq) {
        put_alone(alloc, slots, at + 1, row)
    } else {
        put_anew(alloc, slots, at, row)
    }
}

/// Puts a row in its slot as it stands, or else apart.
fn put_at(alloc: Global, slots: &mut Vec<Slot>, at: usize, row: RowEntry) -> Result<(), AllocError>
    requires slots { IsSlots slots.old.items }
    requires within { at < length slots.old.items }
    requires place { IsSlotFor (sequenced row) slots.old.items at }
    ensures put { OnOk result (WithPut slots.old.items (row ∷ []) slots.new.items) }
    ensures same { OnErr result (WithPut slots.old.items [] slots.new.items) }
{
    match put_in_slot(&mut slots[at], row) {
        None => Ok(()),
        Some(row) => put_apart(alloc, slots, at, row),
    }
}

/// Puts a row in place of one of the same key and sequence. After a refusal all is as it was.
pub(crate) fn put_row(alloc: Global, slots: &mut Vec<Slot>, row: RowEntry) -> Result<(), AllocError>
    requires { IsSlots slots.old.items }
    ensures put { OnOk result (WithPut slots.old.items (row ∷ []) slots.new.items) }
    ensures same { OnErr result (WithPut slots.old.items [] slots.new.items) }
{
    if slots.is_empty() {
        return put_alone(alloc, slots, 0, row);
    }
    let at = slot_at(slots, row.key.as_slice(), row.seq);
    put_at(alloc, slots, at, row)
}

/// Whether all rows have the sequence.
fn have_seq(rows: &[RowEntry], seq: u64) -> bool
    ensures { result ≡ list_all (λ r. r.seq == seq) rows.now }
{
    for row in rows {
        if row.seq != seq {
            return false;
        }
    }
    true
}

/// Puts all rows, or none. No row has a sequence above `last`.
pub(crate) fn put_each(
    alloc: Global,
    slots: &mut Vec<Slot>,
    last: u64,
    mut rows: Vec<RowEntry>,
) -> Result<(), AllocError>
    requires slots { IsSlots slots.old.items }
    requires low { NoneLater last (standing slots.old.items) }
    ensures put { OnOk result (WithPut slots.old.items rows.items slots.new.items) }
    ensures same { OnErr result (WithPut slots.old.items [] slots.new.items) }
{
    if rows.len() > 1 {
        return put_many(alloc, slots, last, rows);
    }
    let row = rows.pop();
    drop(rows);
    match row {
        Some(row) => put_row(alloc, slots, row),
        None => Ok(()),
    }
}

/// As `put_each`, where there are several.
fn put_many(
    alloc: Global,
    slots: &mut Vec<Slot>,
    last: u64,
    rows: Vec<RowEntry>,
) -> Result<(), AllocError>
    requires slots { IsSlots slots.old.items }
    requires low { NoneLater last (standing slots.old.items) }
    ensures put { OnOk result (WithPut slots.old.items rows.items slots.new.items) }
    ensures same { OnErr result (WithPut slots.old.items [] slots.new.items) }
{
    let seq = match rows.first() {
        Some(row) => row.seq,
        None => 0,
    };
    if seq > last && have_seq(&rows, seq) {
        return put_later(alloc, slots, last, seq, rows);
    }
    put_aside(alloc, slots, rows)
}

/// Puts all rows, or none, which have one sequence, above that of each row that stands there.
fn put_later(
    alloc: Global,
    slots: &mut Vec<Slot>,
    last: u64,
    seq: u64,
    rows: Vec<RowEntry>,
) -> Result<(), AllocError>
    requires slots { IsSlots slots.old.items }
    requires low { NoneLater last (standing slots.old.items) }
    requires later { last < seq }
    requires one { list_all (λ r. r.seq == seq) rows.items ≡ true }
    ensures put { OnOk result (WithPut slots.old.items rows.items slots.new.items) }
    ensures same { OnErr result (WithPut slots.old.items [] slots.new.items) }
{
    match put_in_turn(alloc, slots, rows) {
        Ok(()) => Ok(()),
        Err(error) => {
            take_back(slots, seq);
            Err(error)
        }
    }
}

/// Puts rows one after the other, to the first that is refused.
fn put_in_turn(alloc: Global, slots: &mut Vec<Slot>, rows: Vec<RowEntry>) -> Result<(), AllocError>
    requires { IsSlots slots.old.items }
    ensures put { OnOk result (WithPut slots.old.items rows.items slots.new.items) }
    ensures some { OnErr result (WithSomePut slots.old.items rows.items slots.new.items) }
{
    for row in rows {
        put_row(alloc, slots, row)?;
    }
    Ok(())
}

/// Puts all rows, or none: in slots beside, which come in place of these.
fn put_aside(alloc: Global, slots: &mut Vec<Slot>, rows: Vec<RowEntry>) -> Result<(), AllocError>
    requires { IsSlots slots.old.items }
    ensures put { OnOk result (WithPut slots.old.items rows.items slots.new.items) }
    ensures same { OnErr result (WithPut slots.old.items [] slots.new.items) }
{
    let mut all = share_all(alloc, slots)?;
    match put_in_turn(alloc, &mut all, rows) {
        Ok(()) => {
            *slots = all;
            Ok(())
        }
        Err(error) => {
            drop(all);
            Err(error)
        }
    }
}

/// The same slots once more.
fn share_all(alloc: Global, slots: &[Slot]) -> Result<Vec<Slot>, AllocError>
    ensures rows { IfOk result (λ all. standing all.items ≡ standing slots.now) }
    ensures slots { IsSlots slots.now → IfOk result (λ all. IsSlots all.items) }
{
    let mut all = Vec::with_capacity(alloc, slots.len())?;
    for slot in slots {
        all.push(slot.share()?)?;
    }
    Ok(all)
}

/// Takes the rows of a sequence out. It takes no memory.
pub(crate) fn take_back(slots: &mut Vec<Slot>, seq: u64)
    requires { IsSlots slots.old.items }
    ensures rows { standing slots.new.items ≡ filter (λ r. not (r.seq == seq)) (standing slots.old.items) }
    ensures slots { IsSlots slots.new.items }
{
    let mut at = 0;
    while at < slots.len() {
        slots[at].take_back(seq);
        at += 1;
    }
}

/// The slots of the rows whose keys are in the range and whose sequences are at most `seq`. No row has a sequence above `last`.
pub(crate) fn share_range(
    alloc: Global,
    slots: &[Slot],
    range: &BytesRange,
    seq: u64,
    last: u64,
) -> Result<Vec<Slot>, AllocError>
    requires slots { IsSlots slots.now }
    requires low { NoneLater last (standing slots.now) }
    ensures rows { IfOk result (λ found. standing found.items ≡ filter (λ r. in_range range.now r.key && nat_le r.seq seq) (standing slots.now)) }
    ensures slots { IfOk result (λ found. IsSlots found.items) }
{
    let mut found = Vec::new(alloc);
    let mut at = first_slot(slots, range);
    while at < slots.len() {
        if !goes_on(&found, &slots[at], range) {
            return Ok(found);
        }
        found.push(part_of(&slots[at], range, seq, last)?)?;
        at += 1;
    }
    Ok(found)
}

/// Whether a slot may have rows of a range of which the slots before it were found.
fn goes_on(found: &[Slot], slot: &Slot, range: &BytesRange) -> bool
    requires { 0 < length (slot_rows slot.now) }
    ensures { result ≡ false → (0 < length found.now) × IsFirst (slot_rows slot.now) (λ r. in_range range.now r.key ≡ false) }
{
    found.is_empty() || begins_within(slot, range)
}

/// Whether the first key of a slot is in the range.
fn begins_within(slot: &Slot, range: &BytesRange) -> bool
    requires { 0 < length (slot_rows slot.now) }
    ensures { IsFirst (slot_rows slot.now) (λ r. in_range range.now r.key ≡ result) }
{
    let rows = slot.stored();
    range.contains(rows[0].key.as_slice())
}

/// The slot once more, of which those rows count whose keys are in the range and whose sequences are at most `seq`.
fn part_of(slot: &Slot, range: &BytesRange, seq: u64, last: u64) -> Result<Slot, AllocError>
    requires filled { IsFilled slot.now }
    requires rises { RowsRise (slot_rows slot.now) }
    requires low { NoneLater last (rows_in slot.now) }
    ensures stored { IfOk result (λ s. slot_rows s ≡ slot_rows slot.now) }
    ensures rows { IfOk result (λ s. rows_in s ≡ filter (λ r. in_range range.now r.key && nat_le r.seq seq) (rows_in slot.now)) }
{
    if last <= seq && slot.is_within(range) {
        slot.share()
    } else {
        slot.cut(range, seq)
    }
}

/// The slot from which on there may be rows of a range.
fn first_slot(slots: &[Slot], range: &BytesRange) -> usize
    requires { IsSlots slots.now }
    ensures { IsFirstSlot range.now.start slots.now result }
{
    match &range.start {
        Bound::Included(key) => slot_at(slots, key.as_slice(), u64::MAX),
        Bound::Excluded(key) => slot_at(slots, key.as_slice(), 0),
        Bound::Unbounded => 0,
    }
}

/// The rows of a key with sequences of at most `max_seq`, newest first, to the first that is no merge.
pub(crate) fn newest_rows(
    alloc: Global,
    slots: &[Slot],
    key: &Bytes,
    max_seq: u64,
) -> Result<Vec<RowEntry>, AllocError>
    requires { IsSlots slots.now }
    ensures { IfOk result (λ rows. rows.items ≡ newest key.now max_seq (standing slots.now)) }
{
    let mut found = Vec::new(alloc);
    let mut at = slot_at(slots, key.as_slice(), max_seq);
    while at < slots.len() {
        let goes_on = newest_in_slot(&mut found, &slots[at], key, max_seq)?;
        if !goes_on {
            return Ok(found);
        }
        at += 1;
    }
    Ok(found)
}

/// Adds those of a slot, and says whether rows behind it may count.
fn newest_in_slot(
    found: &mut Vec<RowEntry>,
    slot: &Slot,
    key: &Bytes,
    max_seq: u64,
) -> Result<bool, AllocError>
    requires { RowsRise (slot_rows slot.now) }
    ensures goes_on { IfOk result (λ more. more ≡ true → (rows : List RowEntry) → found.old.items ++ newest key.now max_seq (rows_in slot.now ++ rows) ≡ found.new.items ++ newest key.now max_seq rows) }
    ensures ends { IfOk result (λ more. more ≡ false → (rows : List RowEntry) → RowsRise (slot_rows slot.now ++ rows) → found.old.items ++ newest key.now max_seq (rows_in slot.now ++ rows) ≡ found.new.items) }
{
    let rows = slot.stored();
    let mut at = place_in(rows, key.as_slice(), max_seq);
    while at < rows.len() {
        if rows[at].key != *key {
            return Ok(false);
        }
        if let Some(row) = slot.row_at(at) {
            found.push(row.clone()?)?;
            if !is_merge(row) {
                return Ok(false);
            }
        }
        at += 1;
    }
    Ok(true)
}

/// Copies of all rows.
pub(crate) fn copies(alloc: Global, slots: &[Slot]) -> Result<Vec<RowEntry>, AllocError>
    ensures { IfOk result (λ rows. rows.items ≡ standing slots.now) }
{
    let mut found = Vec::new(alloc);
    for slot in slots {
        slot.copy_to(&mut found)?;
    }
    Ok(found)
}

/// Whether no row counts.
pub(crate) fn are_empty(slots: &[Slot]) -> bool
    ensures { IsTrue result ↔ (standing slots.now ≡ []) }
{
    for slot in slots {
        if has_row(slot) {
            return false;
        }
    }
    true
}

fn has_row(slot: &Slot) -> bool
    ensures some { result ≡ true → rows_in slot.now ≢ [] }
    ensures none { result ≡ false → rows_in slot.now ≡ [] }
{
    let count = slot.stored().len();
    let mut at = 0;
    while at < count {
        if let Some(_row) = slot.row_at(at) {
            return true;
        }
        at += 1;
    }
    false
}
