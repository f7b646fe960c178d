//! The bytes of an index.
ghost use Rattle.std.specs.Prelude.{◌≡◌, ◌<◌, ◌^◌, ◌++◌, length, OnOk, IfOk, IsOkUnless};
ghost use Rattle.std.specs.List.{AllByRecursion};
ghost use Rattle.slate_block.specs.RowSpelling.{be16, be64};
ghost use Rattle.slate_table.specs.Parts.{index_bytes};

use crate::writing::{append_short, append_u32, append_u64};
use bytes::Bytes;
use slate_types::SlateDBError;
use std::alloc::Global;

/// The index of blocks that begin at these places and have these separators. The one error is `OutOfMemory`.
pub fn encode_index(
    alloc: Global,
    offsets: &[u64],
    separators: &[Bytes],
) -> Result<Bytes, SlateDBError>
    requires few { length offsets.now < 2 ^ 32 }
    requires paired { length separators.now ≡ length offsets.now }
    requires short { AllByRecursion (λ k. length k < 2 ^ 16) separators.now }
    ensures bytes { IfOk result (λ bytes. bytes ≡ index_bytes offsets.now separators.now) }
    ensures cause { IsOkUnless result SlateDBError.OutOfMemory }
{
    let mut out = Vec::new(alloc);
    append_u32(&mut out, offsets.len() as u32)?;
    for at in 0..offsets.len() {
        append_entry(&mut out, offsets[at], separators[at].as_slice())?;
    }
    Bytes::from_vec(out).map_err(SlateDBError::from)
}

fn append_entry(out: &mut Vec<u8>, offset: u64, separator: &[u8]) -> Result<(), SlateDBError>
    requires { length separator.now < 2 ^ 16 }
    ensures appended { OnOk result (out.new.items ≡ out.old.items ++ (be64 offset ++ (be16 (length separator.now) ++ separator.now))) }
    ensures cause { IsOkUnless result SlateDBError.OutOfMemory }
{
    append_u64(out, offset)?;
    append_short(out, separator)
}
