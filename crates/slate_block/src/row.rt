//! Rows as a block holds them: each leaves out a front of its key that stands elsewhere.

ghost use Rattle.std.specs.Prelude.{◌≡◌, ◌⊎◌, slice_range, OnOk, IfOk, IfErr, IsOkUnless};
ghost use Rattle.slate_block.specs.RowSpelling.{flags};
ghost use Rattle.slate_block.specs.Damage.{AreWithin};
ghost use Rattle.slate_block.specs.RowReading.{expiry_of, fields_value};
ghost use Rattle.slate_block.specs.BlockSpelling.{whole_key};
ghost use Rattle.slate_block.specs.WholeKeys.{IsRestored};

use crate::fields::RowFields;
use crate::flags::RowFlags;
use crate::keys::restored_key;
use crate::value::value_of;
use bitflags::Flags;
use bytes::Bytes;
use slate_types::{SlateDBError, ValueDeletable};
use std::alloc::{AllocError, Global};

/// A row of version 1. The front that is left out is the block's first key's.
#[derive(Drop)]
pub struct SstRowEntry {
    /// How many bytes of the block's first key come before the suffix.
    pub key_prefix_len: u16,
    pub key_suffix: Bytes,
    pub seq: u64,
    /// Milliseconds.
    pub expire_ts: Option<i64>,
    /// Milliseconds.
    pub create_ts: Option<i64>,
    pub value: ValueDeletable,
}

impl SstRowEntry {
    /// What the row is and has.
    pub fn flags(&self) -> RowFlags
        ensures { result.0 ≡ flags self.now.value self.now.expire_ts self.now.create_ts }
    {
        RowFlags::of_row(&self.value, self.expire_ts, self.create_ts)
    }

    /// The row's key, by the block's first key. `CorruptTable` at 0 exactly where the front that is left out is longer than that
    /// key, and where the whole is empty or longer than 65535 bytes; or `OutOfMemory`.
    pub fn restore_full_key(&self, alloc: Global, first: &[u8]) -> Result<Bytes, SlateDBError>
        ensures key { IfOk result (λ key. key ≡ whole_key self.now.key_prefix_len first.now self.now.key_suffix) }
        ensures valid { OnOk result (IsRestored self.now.key_prefix_len first.now self.now.key_suffix) }
        ensures only { IsRestored self.now.key_prefix_len first.now self.now.key_suffix → IsOkUnless result SlateDBError.OutOfMemory }
        ensures cause { IfErr result (λ e. (e ≡ SlateDBError.OutOfMemory) ⊎ (e ≡ SlateDBError.CorruptTable 0)) }
    {
        let shared = self.key_prefix_len as usize;
        restored_key(alloc, shared, first, &self.key_suffix)
    }
}

/// A row of version 2. The front that is left out is the key's before it, and none at a restart.
#[derive(Drop)]
pub struct SstRowEntryV2 {
    /// How many bytes of the key before come before the suffix.
    pub shared_bytes: u32,
    pub key_suffix: Bytes,
    pub seq: u64,
    /// Milliseconds.
    pub expire_ts: Option<i64>,
    /// Milliseconds.
    pub create_ts: Option<i64>,
    pub value: ValueDeletable,
}

impl SstRowEntryV2 {
    /// What the row is and has.
    pub fn flags(&self) -> RowFlags
        ensures { result.0 ≡ flags self.now.value self.now.expire_ts self.now.create_ts }
    {
        RowFlags::of_row(&self.value, self.expire_ts, self.create_ts)
    }

    /// The row's key, by the key before it. `CorruptTable` at 0 exactly where the front that is left out is longer than that
    /// key, and where the whole is empty or longer than 65535 bytes; or `OutOfMemory`.
    pub fn restore_full_key(&self, alloc: Global, previous: &[u8]) -> Result<Bytes, SlateDBError>
        ensures key { IfOk result (λ key. key ≡ whole_key self.now.shared_bytes previous.now self.now.key_suffix) }
        ensures valid { OnOk result (IsRestored self.now.shared_bytes previous.now self.now.key_suffix) }
        ensures only { IsRestored self.now.shared_bytes previous.now self.now.key_suffix → IsOkUnless result SlateDBError.OutOfMemory }
        ensures cause { IfErr result (λ e. (e ≡ SlateDBError.OutOfMemory) ⊎ (e ≡ SlateDBError.CorruptTable 0)) }
    {
        let shared = self.shared_bytes as usize;
        restored_key(alloc, shared, previous, &self.key_suffix)
    }
}

/// The suffix and the value of the row with these fields, which share the buffer.
pub(crate) fn row_parts(
    bytes: &Bytes,
    fields: &RowFields,
) -> Result<(Bytes, ValueDeletable), AllocError>
    requires { AreWithin fields.now bytes.now }
    ensures { IfOk result (λ parts. (parts.0 ≡ slice_range bytes.now fields.now.suffix_at fields.now.suffix_end) × (parts.1 ≡ fields_value bytes.now fields.now)) }
{
    let suffix = bytes.slice(fields.suffix_at..fields.suffix_end)?;
    let value = bytes.slice(fields.value_at..fields.value_end)?;
    Ok((suffix, value_of(fields.flags, value)))
}

/// A tombstone of version 1 has no expiry.
pub(crate) fn read_expiry(flags: RowFlags, expire_ts: Option<i64>) -> Option<i64>
    ensures { result ≡ expiry_of flags expire_ts }
{
    if flags.contains(RowFlags::TOMBSTONE) {
        return None;
    }
    expire_ts
}
