//! Rows where they stand in a block's rows' part.
ghost use Rattle.std.specs.Prelude.{◌≡◌, ◌+◌, ◌<◌, ◌≤◌, ◌^◌, ◌⊎◌, ℕ, true, false, Some, Ok, Err, length, drop, slice_get, slice_range, IfOk, IfErr};
ghost use Rattle.slate_block.specs.Damage.{AreWithin, IsDamageIn};
ghost use Rattle.slate_block.specs.Walks.{moved, between, next_place, row_upto, is_restored, reads_v1, first_key_v1, are_named, block_reads};
ghost use Rattle.slate_block.specs.BlockWalks.{IsBlockDamage};
ghost use Rattle.slate_block.specs.PlacedRows.{fields_of, row_in, suffix_of, whole_of};

use crate::fields::{RowFields, corrupt, fields_v1, fields_v2};
use crate::keys::{is_restored, restored_key};
use crate::row::{read_expiry, row_parts};
use crate::rows_part::Version;
use bytes::Bytes;
use slate_types::{RowEntry, SlateDBError};
use std::alloc::Global;

/// The greatest number of rows that a block names.
const MAX_ROWS: usize = 65535;

/// A refusal of bytes that begin at a place, with its place in the whole.
fn moved(at: usize, error: SlateDBError) -> SlateDBError
    requires { (place : ℕ) → error ≡ SlateDBError.CorruptTable place → at + place < 2 ^ 64 }
    ensures { result ≡ moved at error }
{
    match error {
        SlateDBError::CorruptTable { place } => corrupt(at + place as usize),
        other => other,
    }
}

/// The bytes between two places, which share the buffer.
#[tactic(auto, unfolding(crate::specs::Walks::between))]
#[inline(always)]
fn between(body: &Bytes, from: usize, upto: usize) -> Result<Bytes, SlateDBError>
    ensures found { IfOk result (λ bytes. between body.now from upto ≡ Ok bytes) }
    ensures within { IfOk result (λ bytes. from + length bytes < 2 ^ 64) }
    ensures cause { IfErr result (λ e. (e ≡ SlateDBError.OutOfMemory) ⊎ (between body.now from upto ≡ Err e)) }
    ensures damage { IfErr result (λ e. (e ≡ SlateDBError.OutOfMemory) ⊎ IsBlockDamage e) }
{
    if from <= upto && upto <= body.len() {
        return body.slice(from..upto).map_err(SlateDBError::from);
    }
    Err(corrupt(from))
}

/// The length that the row shares which begins the bytes, and its other fields. A tombstone of version 1 has no expiry.
#[tactic(auto, unfolding(crate::specs::PlacedRows::fields_of))]
fn fields_of(version: Version, bytes: &[u8]) -> Result<(u32, RowFields), SlateDBError>
    ensures value { result ≡ fields_of version bytes.now }
    ensures damage { IfErr result (IsDamageIn (length bytes.now)) }
    ensures within { IfOk result (λ row. AreWithin row.1 bytes.now) }
{
    match version {
        Version::V1 => {
            let (shared, mut fields) = fields_v1(bytes)?;
            fields.expire_ts = read_expiry(fields.flags, fields.expire_ts);
            Ok((u32::from(shared), fields))
        }
        Version::V2 | Version::V3 => fields_v2(bytes),
    }
}

/// The row with these fields, which stand in bytes that begin at a place, and the place behind it. A front of its key stands
/// in the other key.
#[inline(always)]
fn whole_row(
    alloc: Global,
    bytes: &Bytes,
    other: &[u8],
    from: usize,
    shared: usize,
    fields: &RowFields,
) -> Result<(RowEntry, usize), SlateDBError>
    requires place { from + length bytes.now < 2 ^ 64 }
    requires within { AreWithin fields.now bytes.now }
    ensures found { IfOk result (λ found. (is_restored shared other.now (suffix_of bytes.now fields.now) ≡ true) × (found.0 ≡ whole_of bytes.now other.now shared fields.now) × (found.1 ≡ from + fields.now.end)) }
    ensures cause { IfErr result (λ e. (e ≡ SlateDBError.OutOfMemory) ⊎ ((is_restored shared other.now (suffix_of bytes.now fields.now) ≡ false) × (e ≡ SlateDBError.CorruptTable from))) }
{
    let (suffix, value) = row_parts(bytes, fields)?;
    let restored = restored_key(alloc, shared, other, &suffix);
    drop(suffix);
    match restored {
        Ok(key) => {
            let row = RowEntry {
                key,
                value,
                seq: fields.seq,
                create_ts: fields.create_ts,
                expire_ts: fields.expire_ts,
            };
            Ok((row, from + fields.end))
        }
        Err(error) => {
            drop(value);
            Err(moved(from, error))
        }
    }
}

/// The row between two places, and the place behind it. Its key is restored from the other key.
pub fn row_in(
    version: Version,
    alloc: Global,
    body: &Bytes,
    other: &[u8],
    from: usize,
    upto: usize,
) -> Result<(RowEntry, usize), SlateDBError>
    ensures found { IfOk result (λ found. row_in version body.now other.now from upto ≡ Ok found) }
    ensures cause { IfErr result (λ e. (e ≡ SlateDBError.OutOfMemory) ⊎ (row_in version body.now other.now from upto ≡ Err e)) }
    ensures damage { IfErr result (λ e. (e ≡ SlateDBError.OutOfMemory) ⊎ IsBlockDamage e) }
{
    let bytes = between(body, from, upto)?;
    let row = match fields_of(version, bytes.as_slice()) {
        Ok((shared, fields)) => whole_row(alloc, &bytes, other, from, shared as usize, &fields),
        Err(error) => Err(moved(from, error)),
    };
    drop(bytes);
    row
}

/// The length that the row of version 2 between two places shares with the other key, and its other fields.
pub(crate) fn placed_fields(
    body: &Bytes,
    other: &[u8],
    from: usize,
    upto: usize,
) -> Result<(usize, RowFields), SlateDBError>
    ensures found { IfOk result (λ row. row_in Version.V2 body.now other.now from upto ≡ Ok (whole_of (slice_range body.now from upto) other.now row.0 row.1, from + row.1.end)) }
    ensures places { IfOk result (λ row. (from ≤ upto) × (upto ≤ length body.now) × (row.0 ≤ length other.now)) }
    ensures within { IfOk result (λ row. AreWithin row.1 (slice_range body.now from upto)) }
    ensures cause { IfErr result (λ e. row_in Version.V2 body.now other.now from upto ≡ Err e) }
    ensures damage { IfErr result IsBlockDamage }
{
    if from > upto || upto > body.len() {
        return Err(corrupt(from));
    }
    let bytes = &body.as_slice()[from..upto];
    let (shared, fields) = match fields_v2(bytes) {
        Ok(row) => row,
        Err(error) => return Err(moved(from, error)),
    };
    let shared = shared as usize;
    if !is_restored(shared, other, &bytes[fields.suffix_at..fields.suffix_end]) {
        return Err(corrupt(from));
    }
    Ok((shared, fields))
}

/// The row between two places, which it fills.
#[tactic(auto, unfolding(crate::specs::Walks::row_upto))]
pub fn row_upto(
    alloc: Global,
    body: &Bytes,
    other: &[u8],
    at: usize,
    upto: usize,
) -> Result<RowEntry, SlateDBError>
    ensures found { IfOk result (λ row. row_upto body.now other.now at upto ≡ Ok row) }
    ensures cause { IfErr result (λ e. (e ≡ SlateDBError.OutOfMemory) ⊎ (row_upto body.now other.now at upto ≡ Err e)) }
    ensures damage { IfErr result (λ e. (e ≡ SlateDBError.OutOfMemory) ⊎ IsBlockDamage e) }
{
    let (row, end) = row_in(Version::V1, alloc, body, other, at, upto)?;
    if end == upto {
        return Ok(row);
    }
    drop(row);
    Err(corrupt(end))
}

/// Where the row or the group behind the one at an index begins, or where the rows' part ends.
pub fn place_behind(body: &Bytes, offsets: &[u16], index: usize) -> usize
    requires { index < length offsets.now }
    ensures { result ≡ next_place (length body.now) (drop (index + 1) offsets.now) }
{
    if index + 1 < offsets.len() {
        return offsets[index + 1] as usize;
    }
    body.len()
}

/// Whether the offsets are as many as a block can name, and begin at 0.
pub fn are_named(offsets: &[u16]) -> bool
    ensures { result ≡ are_named offsets.now }
{
    match offsets.first() {
        Some(first) => *first == 0 && offsets.len() <= MAX_ROWS,
        None => false,
    }
}

/// The key by which all rows of the block are read: its first row's, which shares nothing.
#[tactic(auto, unfolding(crate::specs::Walks::block_reads_v1, crate::specs::Walks::block_reads, crate::specs::Walks::first_key_v1))]
pub fn block_key(alloc: Global, body: &Bytes, offsets: &[u16]) -> Result<Bytes, SlateDBError>
    ensures reads { IfOk result (λ key. block_reads 1 body.now offsets.now ≡ Ok (reads_v1 body.now key offsets.now (length body.now))) }
    ensures cause { IfErr result (λ e. (e ≡ SlateDBError.OutOfMemory) ⊎ (block_reads 1 body.now offsets.now ≡ Err e)) }
    ensures damage { IfErr result (λ e. (e ≡ SlateDBError.OutOfMemory) ⊎ IsBlockDamage e) }
{
    if !are_named(offsets) {
        return Err(corrupt(0));
    }
    let upto = place_behind(body, offsets, 0);
    let row = row_upto(alloc, body, &[], offsets[0] as usize, upto)?;
    drop(row.value);
    Ok(row.key)
}
