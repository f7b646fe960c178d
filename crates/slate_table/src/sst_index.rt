//! The index of a table: where each block's section begins, and a separator before its keys.
ghost use Rattle.std.specs.Prelude.{◌≡◌, ◌≤◌, ◌<◌, ◌==◌, ◌⊎◌, ℕ, Bool, List, Option, Ok, Err, Some, None, true, false, length, map, slice_get, slice_index, IfOk, IfErr, IsOkUnless, IsSorted, option_map};
ghost use Rattle.std.specs.List.{AllByRecursion};
ghost use Rattle.std.specs.Iterator.{YieldsFirstBy, item_count};
ghost use Rattle.slate_block.specs.RowReading.{refusal};
ghost use Rattle.slate_types.specs.Keys.{key_cmp};
ghost use Rattle.slate_table.specs.Decoded.{IsIndex};
ghost use Rattle.slate_table.specs.IndexReading.{
  is_next_offset,
  is_next_key,
  offset_field,
  separator_field,
  entry_field,
  entries_from,
  counted,
  index_of,
  index_keys,
  borrowed_entry,
  entry_in,
  LiesIn,
};

use bytes::Bytes;
use slate_block::fields::{block_field, corrupt, u16_field, u32_field, u64_field};
use slate_types::{RangePartitionedKeySpace, SlateDBError, compare_keys};
use std::alloc::Global;
use std::marker::Model;

/// The offset of a block, and where its separator lies in the bytes of an index.
#[derive(Clone, Copy)]
struct EntryPlace {
    offset: u64,
    start: usize,
    end: usize,
}

/// The offset and the separator of each block of a table, in their order. The separators stay where they lie in the bytes that
/// they were read from.
#[derive(Drop)]
pub struct SstIndex {
    bytes: Bytes,
    places: Vec<EntryPlace>,
    ghost within: { (i : ℕ) (place : _) → slice_get places.items i ≡ Some place → LiesIn bytes place },
    ghost rising: { IsSorted key_cmp (index_keys (map (entry_in bytes) places.items)) },
}

impl SstIndex {
    ghost use Rattle.slate_table.specs.IndexValue.{entries_of};

    /// The index of blocks that end at a place, from its bytes. `CorruptTable` with the place of the first field that fails,
    /// or of what is left over: exactly where the bytes are no count and so many offsets and separators, or there is no
    /// block, or an offset is past the end, or the offsets don't rise from 0, or separators fall; or `OutOfMemory`.
    pub fn decode(alloc: Global, bytes: Bytes, end: u64) -> Result<SstIndex, SlateDBError>
        ensures found { IfOk result (λ index. IsIndex end bytes (entries_of index)) }
        ensures only { (entries : List (ℕ × List ℕ)) → IsIndex end bytes entries → IsOkUnless result SlateDBError.OutOfMemory }
        ensures cause { IfErr result (λ e. (e ≡ SlateDBError.OutOfMemory) ⊎ (refusal (index_of end bytes) ≡ Some e)) }
    {
        match read_entries(alloc, end, bytes.as_slice()) {
            Ok(places) => Ok(SstIndex { bytes, places }),
            Err(error) => {
                drop(bytes);
                Err(error)
            }
        }
    }

    /// How many blocks there are.
    pub fn len(&self) -> usize
        ensures { result ≡ length (entries_of self.now) }
    {
        self.places.len()
    }

    /// Whether there is no block, which no table's index is.
    pub fn is_empty(&self) -> bool
        ensures { result ≡ (length (entries_of self.now) == 0) }
    {
        self.places.is_empty()
    }

    /// The offset and the separator of a block, or `None` exactly where there is no such block.
    pub fn get(&self, index: usize) -> Option<(u64, &[u8])>
        ensures { option_map borrowed_entry result ≡ slice_get (entries_of self.now) index }
    {
        match self.places.get(index) {
            Some(place) => Some((place.offset, separator_at(self.bytes.as_slice(), *place))),
            None => None,
        }
    }

    /// The offsets and the separators in their order.
    pub fn iter(&self) -> SstIndexIter<'_>
        ensures { result ≡ entries_of self.now }
    {
        SstIndexIter { index: self, at: 0 }
    }

    /// The length of the front of blocks whose separators pass a test, found by halves. The test must pass no separator behind
    /// one that it fails.
    pub fn partition_point<P: Fn(&[u8]) -> bool>(&self, pred: P) -> usize
        requires callable { P.IsAlwaysCallable pred }
        requires prefix { (i j : ℕ) (k l : _) (s : Bool) → i ≤ j → slice_get (index_keys (entries_of self.now)) i ≡ Some k.now → slice_get (index_keys (entries_of self.now)) j ≡ Some l.now → P.post pred l true → P.post pred k s → s ≡ true }
        ensures within { result ≤ length (entries_of self.now) }
        ensures before { (i : ℕ) (k : _) (s : Bool) → i < result → slice_get (index_keys (entries_of self.now)) i ≡ Some k.now → P.post pred k s → s ≡ true }
        ensures after { (i : ℕ) (k : _) (s : Bool) → result ≤ i → slice_get (index_keys (entries_of self.now)) i ≡ Some k.now → P.post pred k s → s ≡ false }
    {
        slate_types::partition_point(self, pred)
    }
}

impl RangePartitionedKeySpace for SstIndex {
    ghost use Rattle.slate_table.specs.IndexValue.{entries_of};

    ghost first_keys = { λ index. index_keys (entries_of index) };

    ghost rising = { λ index. index.rising };

    fn partitions(&self) -> usize {
        self.places.len()
    }

    fn partition_first_key(&self, partition: usize) -> &[u8] {
        separator_at(self.bytes.as_slice(), self.places[partition])
    }
}

/// The offsets and the separators of an index, in their order.
#[derive(Drop)]
pub struct SstIndexIter<'a> {
    index: &'a SstIndex,
    at: usize,
}

impl<'a> Model for SstIndexIter<'a> {
    ghost use Rattle.std.specs.Prelude.{ℕ, List, drop};
    ghost use Rattle.slate_table.specs.IndexValue.{entries_of};

    ghost Value = { List (ℕ × List ℕ) };

    ghost view = { λ iter. drop iter.at (entries_of iter.index.now) };
}

impl<'a> Iterator for SstIndexIter<'a> {
    type Item = (u64, &'a [u8]);

    ghost next_gives = { YieldsFirstBy borrowed_entry (λ entries. entries) };

    ghost remaining = { item_count (λ entries. entries) };

    fn next(&mut self) -> Option<(u64, &'a [u8])> {
        if self.at >= self.index.len() {
            return None;
        }
        let entry = self.index.get(self.at);
        self.at += 1;
        entry
    }

    fn size_hint(&self) -> (usize, Option<usize>) {
        let len = self.len();
        (len, Some(len))
    }
}

impl<'a> ExactSizeIterator for SstIndexIter<'a> {
    fn len(&self) -> usize {
        self.index.len().saturating_sub(self.at)
    }
}

/// The separator at a place.
fn separator_at(bytes: &[u8], place: EntryPlace) -> &[u8]
    requires { LiesIn bytes.now place }
    ensures { result.now ≡ (entry_in bytes.now place).1 }
{
    &bytes[place.start..place.end]
}

/// Whether an offset can stand behind the last entry.
fn is_next_offset(last: Option<(u64, &[u8])>, offset: u64) -> bool
    ensures { result ≡ is_next_offset (option_map borrowed_entry last.entry) offset }
{
    match last {
        Some(last) => last.0 < offset,
        None => offset == 0,
    }
}

/// Whether a separator can stand behind the last entry.
fn is_next_key(last: Option<(u64, &[u8])>, key: &[u8]) -> bool
    ensures { result ≡ is_next_key (option_map borrowed_entry last.entry) key.now }
{
    match last {
        Some(last) => compare_keys(last.1, key).is_le(),
        None => true,
    }
}

#[tactic(auto, unfolding(crate::specs::IndexReading::offset_field))]
fn offset_field(
    end: u64,
    last: Option<(u64, &[u8])>,
    bytes: &[u8],
    at: usize,
) -> Result<(u64, usize), SlateDBError>
    requires { at ≤ length bytes.now }
    ensures value { result ≡ offset_field end (option_map borrowed_entry last.entry) bytes.now at }
    ensures within { IfOk result (λ field. field.1 ≤ length bytes.now) }
{
    let (offset, next) = u64_field(bytes, at)?;
    if is_next_offset(last, offset) && offset <= end {
        return Ok((offset, next));
    }
    Err(corrupt(at))
}

#[tactic(auto, unfolding(crate::specs::IndexReading::separator_field))]
fn separator_field(
    last: Option<(u64, &[u8])>,
    bytes: &[u8],
    at: usize,
) -> Result<(usize, usize), SlateDBError>
    requires { at ≤ length bytes.now }
    ensures value { result ≡ separator_field (option_map borrowed_entry last.entry) bytes.now at }
    ensures within { IfOk result (λ field. (field.0 ≤ field.1) × (field.1 ≤ length bytes.now)) }
{
    let (len, at) = u16_field(bytes, at)?;
    let (start, end) = block_field(len as usize, bytes, at)?;
    if is_next_key(last, &bytes[start..end]) {
        return Ok((start, end));
    }
    Err(corrupt(start))
}

/// Where the entry lies that stands at a place behind the last one. It ends with its separator.
#[tactic(auto, unfolding(crate::specs::IndexReading::entry_field))]
fn entry_field(
    end: u64,
    last: Option<(u64, &[u8])>,
    bytes: &[u8],
    at: usize,
) -> Result<EntryPlace, SlateDBError>
    requires { at ≤ length bytes.now }
    ensures found { IfOk result (λ place. entry_field end (option_map borrowed_entry last.entry) bytes.now at ≡ Ok (entry_in bytes.now place, place.end)) }
    ensures cause { IfErr result (λ e. entry_field end (option_map borrowed_entry last.entry) bytes.now at ≡ Err e) }
    ensures within { IfOk result (λ place. LiesIn bytes.now place) }
{
    let (offset, at) = offset_field(end, last, bytes, at)?;
    let (start, end) = separator_field(last, bytes, at)?;
    Ok(EntryPlace { offset, start, end })
}

#[tactic(auto, unfolding(crate::specs::IndexReading::counted))]
fn counted(bytes: &[u8]) -> Result<(u32, usize), SlateDBError>
    ensures value { result ≡ counted bytes.now }
    ensures within { IfOk result (λ field. field.1 ≤ length bytes.now) }
    ensures bytes { IfOk result (λ _. (i : ℕ) → slice_index bytes.now i < 256) }
{
    let (count, at) = u32_field(bytes, 0)?;
    if count == 0 {
        return Err(corrupt(0));
    }
    Ok((count, at))
}

/// So many entries from a place on, and the place behind them.
fn entries_from(
    alloc: Global,
    count: u32,
    end: u64,
    bytes: &[u8],
    at: usize,
) -> Result<(Vec<EntryPlace>, usize), SlateDBError>
    requires { at ≤ length bytes.now }
    ensures found { IfOk result (λ found. entries_from count end None bytes.now at ≡ Ok (map (entry_in bytes.now) found.0.items, found.1)) }
    ensures within { IfOk result (λ found. AllByRecursion (LiesIn bytes.now) found.0.items) }
    ensures cause { IfErr result (λ e. (e ≡ SlateDBError.OutOfMemory) ⊎ (entries_from count end None bytes.now at ≡ Err e)) }
{
    let mut places = Vec::new(alloc);
    let mut last = None;
    let mut at = at;
    for _ in 0..count {
        let place = entry_field(end, last, bytes, at)?;
        places.push(place)?;
        last = Some((place.offset, separator_at(bytes, place)));
        at = place.end;
    }
    Ok((places, at))
}

#[tactic(auto, unfolding(crate::specs::IndexReading::index_of))]
fn read_entries(alloc: Global, end: u64, bytes: &[u8]) -> Result<Vec<EntryPlace>, SlateDBError>
    ensures found { IfOk result (λ places. index_of end bytes.now ≡ Ok (map (entry_in bytes.now) places.items)) }
    ensures within { IfOk result (λ places. AllByRecursion (LiesIn bytes.now) places.items) }
    ensures cause { IfErr result (λ e. (e ≡ SlateDBError.OutOfMemory) ⊎ (index_of end bytes.now ≡ Err e)) }
    ensures bytes { IfOk result (λ _. (i : ℕ) → slice_index bytes.now i < 256) }
{
    let (count, at) = counted(bytes)?;
    let (places, at) = entries_from(alloc, count, end, bytes, at)?;
    if at == bytes.len() {
        return Ok(places);
    }
    Err(corrupt(at))
}
