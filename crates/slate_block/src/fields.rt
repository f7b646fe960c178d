//! Fields of rows and of what stands beside them, read where they stand. A field that fails is refused with the place of its first byte.
ghost use Rattle.std.specs.Prelude.{◌≡◌, ◌≤◌, ◌<◌, ℕ, length, slice_index, IfOk, IfErr};
ghost use Rattle.std.specs.Int.{w16, w32, w64};
ghost use Rattle.slate_block.specs.Damage.{
  varint_field,
  number_field,
  block_field,
  stamp_field,
  head_layout,
  stamps_layout,
  value_layout,
  layout_v1,
  key_layout_v1,
  key_layout_v2,
  layout_v2,
  length_agrees,
  AreWithin,
  IsDamageIn,
};

use crate::flags::RowFlags;
use crate::varint::first_varint;
use bitflags::Flags;
use slate_types::SlateDBError;

/// The fields of a row of version 2 up to the suffix of its key.
#[derive(Clone, Copy)]
pub struct KeyFields {
    pub shared_bytes: u32,
    pub value_len_at: usize,
    pub value_len: u32,
    pub suffix_at: usize,
    pub suffix_end: usize,
}

/// The fields of a row behind the length that it shares.
#[derive(Clone, Copy)]
pub struct RowFields {
    pub suffix_at: usize,
    pub suffix_end: usize,
    pub value_at: usize,
    pub value_end: usize,
    pub seq: u64,
    pub flags: RowFlags,
    pub expire_ts: Option<i64>,
    pub create_ts: Option<i64>,
    pub end: usize,
}

/// Why a field at a place is refused.
pub fn corrupt(place: usize) -> SlateDBError
    ensures { result ≡ SlateDBError.CorruptTable place }
{
    SlateDBError::CorruptTable {
        place: place as u64,
    }
}

#[tactic(auto, unfolding(crate::specs::Damage::varint_field))]
fn varint_field(bytes: &[u8], at: usize) -> Result<(u32, usize), SlateDBError>
    requires { at ≤ length bytes.now }
    ensures value { result ≡ varint_field bytes.now at }
    ensures damage { IfErr result (IsDamageIn (length bytes.now)) }
    ensures within { IfOk result (λ field. field.1 ≤ length bytes.now) }
{
    match first_varint(&bytes[at..]) {
        Some((value, len)) => Ok((value, at + len)),
        None => Err(corrupt(at)),
    }
}

/// A number of two bytes, and the place behind it. `CorruptTable` with the place where the bytes end before.
#[tactic(auto, unfolding(crate::specs::Damage::number_field))]
pub fn u16_field(bytes: &[u8], at: usize) -> Result<(u16, usize), SlateDBError>
    requires { at ≤ length bytes.now }
    ensures value { result ≡ number_field w16 bytes.now at }
    ensures damage { IfErr result (IsDamageIn (length bytes.now)) }
    ensures within { IfOk result (λ field. field.1 ≤ length bytes.now) }
{
    match bytes[at..].first_chunk::<2>() {
        Some(number) => Ok((u16::from_be_bytes(*number), at + 2)),
        None => Err(corrupt(at)),
    }
}

/// A number of four bytes, and the place behind it. `CorruptTable` with the place where the bytes end before.
#[tactic(auto, unfolding(crate::specs::Damage::number_field))]
pub fn u32_field(bytes: &[u8], at: usize) -> Result<(u32, usize), SlateDBError>
    requires { at ≤ length bytes.now }
    ensures value { result ≡ number_field w32 bytes.now at }
    ensures damage { IfErr result (IsDamageIn (length bytes.now)) }
    ensures within { IfOk result (λ field. field.1 ≤ length bytes.now) }
{
    match bytes[at..].first_chunk::<4>() {
        Some(number) => Ok((u32::from_be_bytes(*number), at + 4)),
        None => Err(corrupt(at)),
    }
}

/// A number of eight bytes, and the place behind it. `CorruptTable` with the place where the bytes end before.
#[tactic(auto, unfolding(crate::specs::Damage::number_field))]
pub fn u64_field(bytes: &[u8], at: usize) -> Result<(u64, usize), SlateDBError>
    requires { at ≤ length bytes.now }
    ensures value { result ≡ number_field w64 bytes.now at }
    ensures damage { IfErr result (IsDamageIn (length bytes.now)) }
    ensures within { IfOk result (λ field. field.1 ≤ length bytes.now) }
{
    match bytes[at..].first_chunk::<8>() {
        Some(number) => Ok((u64::from_be_bytes(*number), at + 8)),
        None => Err(corrupt(at)),
    }
}

/// So many bytes: their place, and the place behind them. `CorruptTable` with the place where the bytes end before.
#[tactic(auto, unfolding(crate::specs::Damage::block_field))]
pub fn block_field(len: usize, bytes: &[u8], at: usize) -> Result<(usize, usize), SlateDBError>
    requires { at ≤ length bytes.now }
    ensures value { result ≡ block_field len bytes.now at }
    ensures damage { IfErr result (IsDamageIn (length bytes.now)) }
    ensures within { IfOk result (λ field. (field.0 ≤ field.1) × (field.1 ≤ length bytes.now)) }
{
    if bytes.len() - at < len {
        return Err(corrupt(at));
    }
    Ok((at, at + len))
}

#[tactic(auto, unfolding(crate::specs::Damage::stamp_field))]
fn stamp_field(
    is_there: bool,
    bytes: &[u8],
    at: usize,
) -> Result<(Option<i64>, usize), SlateDBError>
    requires { at ≤ length bytes.now }
    ensures value { result ≡ stamp_field is_there bytes.now at }
    ensures damage { IfErr result (IsDamageIn (length bytes.now)) }
    ensures within { IfOk result (λ field. field.1 ≤ length bytes.now) }
{
    if !is_there {
        return Ok((None, at));
    }
    let (bits, end) = u64_field(bytes, at)?;
    Ok((Some(bits.cast_signed()), end))
}

fn head_fields(bytes: &[u8], at: usize) -> Result<((u64, RowFlags), usize), SlateDBError>
    requires { at ≤ length bytes.now }
    ensures value { result ≡ head_layout bytes.now at }
    ensures damage { IfErr result (IsDamageIn (length bytes.now)) }
    ensures within { IfOk result (λ field. field.1 ≤ length bytes.now) }
{
    let (seq, at) = u64_field(bytes, at)?;
    let Some(byte) = bytes.get(at) else {
        return Err(corrupt(at));
    };
    match RowFlags::from_byte(*byte) {
        Some(flags) => Ok(((seq, flags), at + 1)),
        None => Err(SlateDBError::InvalidRowFlags {
            encoded_bits: *byte,
        }),
    }
}

#[tactic(auto, unfolding(crate::specs::Damage::stamps_layout))]
fn stamp_fields(
    flags: RowFlags,
    bytes: &[u8],
    at: usize,
) -> Result<((Option<i64>, Option<i64>), usize), SlateDBError>
    requires { at ≤ length bytes.now }
    ensures value { result ≡ stamps_layout flags bytes.now at }
    ensures damage { IfErr result (IsDamageIn (length bytes.now)) }
    ensures within { IfOk result (λ field. field.1 ≤ length bytes.now) }
{
    let (expire_ts, at) = stamp_field(flags.contains(RowFlags::HAS_EXPIRE_TS), bytes, at)?;
    let (create_ts, at) = stamp_field(flags.contains(RowFlags::HAS_CREATE_TS), bytes, at)?;
    Ok(((expire_ts, create_ts), at))
}

#[tactic(auto, unfolding(crate::specs::Damage::value_layout))]
fn value_fields(is_tombstone: bool, bytes: &[u8], at: usize) -> Result<(usize, usize), SlateDBError>
    requires { at ≤ length bytes.now }
    ensures value { result ≡ value_layout is_tombstone bytes.now at }
    ensures damage { IfErr result (IsDamageIn (length bytes.now)) }
    ensures within { IfOk result (λ field. (field.0 ≤ field.1) × (field.1 ≤ length bytes.now)) }
{
    if is_tombstone {
        return Ok((at, at));
    }
    let (len, at) = u32_field(bytes, at)?;
    block_field(len as usize, bytes, at)
}

/// The fields of the row of version 1 that begins the bytes.
pub fn fields_v1(bytes: &[u8]) -> Result<(u16, RowFields), SlateDBError>
    ensures value { result ≡ layout_v1 bytes.now }
    ensures damage { IfErr result (IsDamageIn (length bytes.now)) }
    ensures within { IfOk result (λ row. AreWithin row.1 bytes.now) }
    ensures bytes { IfOk result (λ _. (i : ℕ) → slice_index bytes.now i < 256) }
{
    let (shared, (suffix_at, suffix_end)) = key_fields_v1(bytes)?;
    let ((seq, flags), at) = head_fields(bytes, suffix_end)?;
    let ((expire_ts, create_ts), at) = stamp_fields(flags, bytes, at)?;
    let (value_at, value_end) = value_fields(flags.contains(RowFlags::TOMBSTONE), bytes, at)?;
    let fields = RowFields {
        suffix_at,
        suffix_end,
        value_at,
        value_end,
        seq,
        flags,
        expire_ts,
        create_ts,
        end: value_end,
    };
    Ok((shared, fields))
}

/// The fields of the row of version 1 that begins the bytes, up to the suffix of its key: the length that it shares, and
/// where the suffix stands.
#[tactic(auto, unfolding(crate::specs::Damage::key_layout_v1))]
pub fn key_fields_v1(bytes: &[u8]) -> Result<(u16, (usize, usize)), SlateDBError>
    ensures value { result ≡ key_layout_v1 bytes.now }
    ensures damage { IfErr result (IsDamageIn (length bytes.now)) }
    ensures within { IfOk result (λ key. (key.1.0 ≤ key.1.1) × (key.1.1 ≤ length bytes.now)) }
{
    let (shared, at) = u16_field(bytes, 0)?;
    let (suffix_len, at) = u16_field(bytes, at)?;
    let suffix = block_field(suffix_len as usize, bytes, at)?;
    Ok((shared, suffix))
}

/// The fields of the row of version 2 that begins the bytes, up to the suffix of its key.
pub fn key_fields_v2(bytes: &[u8]) -> Result<KeyFields, SlateDBError>
    ensures value { result ≡ key_layout_v2 bytes.now }
    ensures damage { IfErr result (IsDamageIn (length bytes.now)) }
    ensures within { IfOk result (λ key. (key.suffix_at ≤ key.suffix_end) × (key.suffix_end ≤ length bytes.now)) }
    ensures value_within { IfOk result (λ key. key.value_len_at ≤ length bytes.now) }
    ensures bytes { IfOk result (λ _. (i : ℕ) → slice_index bytes.now i < 256) }
{
    let (shared_bytes, at) = varint_field(bytes, 0)?;
    let (suffix_len, value_len_at) = varint_field(bytes, at)?;
    let (value_len, at) = varint_field(bytes, value_len_at)?;
    let (suffix_at, suffix_end) = block_field(suffix_len as usize, bytes, at)?;
    Ok(KeyFields {
        shared_bytes,
        value_len_at,
        value_len,
        suffix_at,
        suffix_end,
    })
}

/// The fields of the row of version 2 that begins the bytes.
#[tactic(auto, unfolding(crate::specs::Damage::layout_v2, crate::specs::Damage::length_agrees))]
pub fn fields_v2(bytes: &[u8]) -> Result<(u32, RowFields), SlateDBError>
    ensures value { result ≡ layout_v2 bytes.now }
    ensures damage { IfErr result (IsDamageIn (length bytes.now)) }
    ensures within { IfOk result (λ row. AreWithin row.1 bytes.now) }
    ensures bytes { IfOk result (λ _. (i : ℕ) → slice_index bytes.now i < 256) }
{
    let key = key_fields_v2(bytes)?;
    let (value_at, value_end) = block_field(key.value_len as usize, bytes, key.suffix_end)?;
    let ((seq, flags), at) = head_fields(bytes, value_end)?;
    if flags.contains(RowFlags::TOMBSTONE) && key.value_len > 0 {
        return Err(corrupt(key.value_len_at));
    }
    let ((expire_ts, create_ts), end) = stamp_fields(flags, bytes, at)?;
    let fields = RowFields {
        suffix_at: key.suffix_at,
        suffix_end: key.suffix_end,
        value_at,
        value_end,
        seq,
        flags,
        expire_ts,
        create_ts,
        end,
    };
    Ok((key.shared_bytes, fields))
}
