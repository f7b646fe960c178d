//! Rows of version 1 as bytes.
ghost use Rattle.std.specs.Prelude.{◌≡◌, ◌≤◌, ◌<◌, ◌⊎◌, ◌++◌, ℕ, List, Some, Ok, Err, length, slice_index, OnOk, OnErr, IfOk, IfErr, IsOkUnless};
ghost use Rattle.slate_block.specs.declared.row.SstRowEntry.{SstRowEntry};
ghost use Rattle.slate_block.specs.Damage.{IsDamageIn};
ghost use Rattle.slate_block.specs.RowSpelling.{v1_bytes, FitsV1};
ghost use Rattle.slate_block.specs.RowReading.{row_v1_of, refusal, BeginsV1};

use crate::fields::fields_v1;
use crate::row::{SstRowEntry, read_expiry, row_parts};
use crate::writing::{MAX_FIELDS_LEN, put, put_meta, put_value_v1, value_bytes};
use bytes::{Buf, Bytes};
use slate_types::{SlateDBError, ValueDeletable};
use std::alloc::AllocError;

/// Reads and writes rows of version 1.
pub struct SstRowCodecV0;

impl SstRowCodecV0 {
    /// Appends the row. A tombstone's expiry is written, though no reader gives it. `OutOfMemory` leaves `out` as it was.
    pub fn encode(out: &mut Vec<u8>, row: &SstRowEntry) -> Result<(), SlateDBError>
        requires { FitsV1 row.now }
        ensures appended { OnOk result (out.new.items ≡ out.old.items ++ v1_bytes row.now) }
        ensures unchanged { OnErr result (out.new.items ≡ out.old.items) }
        ensures cause { IsOkUnless result SlateDBError.OutOfMemory }
    {
        let (suffix, value) = (row.key_suffix.as_slice(), &row.value);
        let (expire_ts, create_ts) = (row.expire_ts, row.create_ts);
        append_row(
            out,
            row.key_prefix_len,
            suffix,
            row.seq,
            value,
            expire_ts,
            create_ts,
        )
        .map_err(SlateDBError::from)
    }

    /// Takes the row off that begins the input; its suffix and its value share the input's buffer. A tombstone is read
    /// without its expiry. An `Err` leaves the input as it was: `InvalidRowFlags` where the byte in the place of the flags
    /// is none, `CorruptTable` with the place of the first field that fails otherwise, or `OutOfMemory`.
    pub fn decode(input: &mut Bytes) -> Result<SstRowEntry, SlateDBError>
        ensures found { IfOk result (λ row. BeginsV1 row input.old input.new) }
        ensures only { (row : SstRowEntry) (rest : List ℕ) → BeginsV1 row input.old rest → IsOkUnless result SlateDBError.OutOfMemory }
        ensures cause { IfErr result (λ e. (e ≡ SlateDBError.OutOfMemory) ⊎ (refusal (row_v1_of input.old) ≡ Some e)) }
        ensures unchanged { OnErr result (input.new ≡ input.old) }
    {
        let (key_prefix_len, fields) = fields_v1(input.as_slice())?;
        let (key_suffix, value) = row_parts(input, &fields)?;
        input.advance(fields.end);
        Ok(SstRowEntry {
            key_prefix_len,
            key_suffix,
            seq: fields.seq,
            expire_ts: read_expiry(fields.flags, fields.expire_ts),
            create_ts: fields.create_ts,
            value,
        })
    }
}

/// Appends the row of these parts. `AllocError` leaves `out` as it was.
pub(crate) fn append_row(
    out: &mut Vec<u8>,
    shared: u16,
    suffix: &[u8],
    seq: u64,
    value: &ValueDeletable,
    expire_ts: Option<i64>,
    create_ts: Option<i64>,
) -> Result<(), AllocError>
    requires { FitsV1 (record { key_prefix_len = shared; key_suffix = suffix.now; seq = seq; expire_ts = expire_ts; create_ts = create_ts; value = value.now }) }
    ensures appended { OnOk result (out.new.items ≡ out.old.items ++ v1_bytes (record { key_prefix_len = shared; key_suffix = suffix.now; seq = seq; expire_ts = expire_ts; create_ts = create_ts; value = value.now })) }
    ensures unchanged { OnErr result (out.new.items ≡ out.old.items) }
{
    out.reserve(suffix.len() + value_bytes(value).len() + MAX_FIELDS_LEN)?;
    put(out, &shared.to_be_bytes());
    put(out, &(suffix.len() as u16).to_be_bytes());
    put(out, suffix);
    put_meta(out, seq, value, expire_ts, create_ts);
    put_value_v1(out, value);
    Ok(())
}
