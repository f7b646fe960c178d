//! Rows of version 2 as bytes.
ghost use Rattle.std.specs.Prelude.{◌≡◌, ◌≤◌, ◌⊎◌, ◌++◌, ℕ, List, Some, Ok, Err, ◌<◌, slice_index, length, OnOk, OnErr, IfOk, IfErr, IsOkUnless};
ghost use Rattle.slate_block.specs.declared.row.SstRowEntryV2.{SstRowEntryV2};
ghost use Rattle.slate_block.specs.Damage.{IsDamageIn};
ghost use Rattle.slate_block.specs.RowSpelling.{v2_bytes, FitsV2};
ghost use Rattle.slate_block.specs.RowReading.{row_v2_of, key_v2_of, refusal, BeginsV2, BeginsKeyV2};

use crate::fields::{fields_v2, key_fields_v2};
use crate::row::{SstRowEntryV2, row_parts};
use crate::varint::put_varint;
use crate::writing::{MAX_FIELDS_LEN, put, put_meta, value_bytes};
use bytes::{Buf, Bytes};
use slate_types::{SlateDBError, ValueDeletable};
use std::alloc::AllocError;

/// Reads and writes rows of version 2.
pub struct SstRowCodecV2;

impl SstRowCodecV2 {
    /// Appends the row. `OutOfMemory` leaves `out` as it was.
    pub fn encode(out: &mut Vec<u8>, row: &SstRowEntryV2) -> Result<(), SlateDBError>
        requires { FitsV2 row.now }
        ensures appended { OnOk result (out.new.items ≡ out.old.items ++ v2_bytes row.now) }
        ensures unchanged { OnErr result (out.new.items ≡ out.old.items) }
        ensures cause { IsOkUnless result SlateDBError.OutOfMemory }
    {
        let (suffix, value) = (row.key_suffix.as_slice(), &row.value);
        let (expire_ts, create_ts) = (row.expire_ts, row.create_ts);
        append_row(
            out,
            row.shared_bytes,
            suffix,
            row.seq,
            value,
            expire_ts,
            create_ts,
        )
        .map_err(SlateDBError::from)
    }

    /// Takes the row off that begins the input; its suffix and its value share the input's buffer. An `Err` leaves the input
    /// as it was: `InvalidRowFlags` where the byte in the place of the flags is none, `CorruptTable` with the place of
    /// the first field that fails otherwise, or `OutOfMemory`.
    pub fn decode(input: &mut Bytes) -> Result<SstRowEntryV2, SlateDBError>
        ensures found { IfOk result (λ row. BeginsV2 row input.old input.new) }
        ensures only { (row : SstRowEntryV2) (rest : List ℕ) → BeginsV2 row input.old rest → IsOkUnless result SlateDBError.OutOfMemory }
        ensures cause { IfErr result (λ e. (e ≡ SlateDBError.OutOfMemory) ⊎ (refusal (row_v2_of input.old) ≡ Some e)) }
        ensures unchanged { OnErr result (input.new ≡ input.old) }
    {
        let (shared_bytes, fields) = fields_v2(input.as_slice())?;
        let (key_suffix, value) = row_parts(input, &fields)?;
        input.advance(fields.end);
        Ok(SstRowEntryV2 {
            shared_bytes,
            key_suffix,
            seq: fields.seq,
            expire_ts: fields.expire_ts,
            create_ts: fields.create_ts,
            value,
        })
    }

    /// Takes off what stands before the value of the row that begins the input: the length that it shares, and the suffix of
    /// its key, which shares the input's buffer. An `Err` leaves the input as it was: `CorruptTable` with the place of
    /// the first field that fails, or `OutOfMemory`.
    pub fn decode_key_only(input: &mut Bytes) -> Result<(u32, Bytes), SlateDBError>
        ensures found { IfOk result (λ key. BeginsKeyV2 key input.old input.new) }
        ensures only { (key : ℕ × List ℕ) (rest : List ℕ) → BeginsKeyV2 key input.old rest → IsOkUnless result SlateDBError.OutOfMemory }
        ensures cause { IfErr result (λ e. (e ≡ SlateDBError.OutOfMemory) ⊎ (refusal (key_v2_of input.old) ≡ Some e)) }
        ensures unchanged { OnErr result (input.new ≡ input.old) }
    {
        let key = key_fields_v2(input.as_slice())?;
        let key_suffix = input.slice(key.suffix_at..key.suffix_end)?;
        input.advance(key.suffix_end);
        Ok((key.shared_bytes, key_suffix))
    }
}

/// Appends the row of these parts. `AllocError` leaves `out` as it was.
pub(crate) fn append_row(
    out: &mut Vec<u8>,
    shared: u32,
    suffix: &[u8],
    seq: u64,
    value: &ValueDeletable,
    expire_ts: Option<i64>,
    create_ts: Option<i64>,
) -> Result<(), AllocError>
    requires { FitsV2 (record { shared_bytes = shared; key_suffix = suffix.now; seq = seq; expire_ts = expire_ts; create_ts = create_ts; value = value.now }) }
    ensures appended { OnOk result (out.new.items ≡ out.old.items ++ v2_bytes (record { shared_bytes = shared; key_suffix = suffix.now; seq = seq; expire_ts = expire_ts; create_ts = create_ts; value = value.now })) }
    ensures unchanged { OnErr result (out.new.items ≡ out.old.items) }
{
    let bytes = value_bytes(value);
    out.reserve(suffix.len() + bytes.len() + MAX_FIELDS_LEN)?;
    put_varint(out, shared);
    put_varint(out, suffix.len() as u32);
    put_varint(out, bytes.len() as u32);
    put(out, suffix);
    put(out, bytes);
    put_meta(out, seq, value, expire_ts, create_ts);
    Ok(())
}
