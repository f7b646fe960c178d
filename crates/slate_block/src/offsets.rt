//! The offsets of a block, read from its bytes.
ghost use Rattle.std.specs.Prelude.{◌≡◌, ◌≤◌, ◌<◌, ◌⊎◌, ℕ, min, Ok, Err, length, slice_index, IfOk, IfErr};
ghost use Rattle.slate_block.specs.BlockReading.{counted_offsets, offset_field, offsets_from};

use crate::fields::{corrupt, u16_field};
use slate_types::SlateDBError;
use std::alloc::Global;

/// The length of the rows' part of a block's bytes, and the number of the offsets behind it.
#[tactic(auto, unfolding(crate::specs::BlockReading::counted_offsets))]
pub fn counted_offsets(bytes: &[u8]) -> Result<(usize, usize), SlateDBError>
    ensures value { result ≡ counted_offsets bytes.now }
    ensures within { IfOk result (λ counted. counted.0 ≤ length bytes.now) }
    ensures bytes { IfOk result (λ _. (i : ℕ) → slice_index bytes.now i < 256) }
{
    if bytes.len() < 2 {
        return Err(corrupt(0));
    }
    let count_at = bytes.len() - 2;
    let (count, _) = u16_field(bytes, count_at)?;
    let count = count as usize;
    if count == 0 {
        return Err(corrupt(count_at));
    }
    if count_at < 2 * count {
        return Err(corrupt(count_at));
    }
    Ok((count_at - 2 * count, count))
}

#[tactic(auto, unfolding(crate::specs::BlockReading::offset_field))]
fn offset_field(
    low: usize,
    high: usize,
    bytes: &[u8],
    at: usize,
) -> Result<(u16, usize), SlateDBError>
    requires { at ≤ length bytes.now }
    ensures value { result ≡ offset_field low high bytes.now at }
    ensures within { IfOk result (λ field. field.1 ≤ length bytes.now) }
{
    let (offset, next) = u16_field(bytes, at)?;
    if (offset as usize) < low {
        return Err(corrupt(at));
    }
    if (offset as usize) < high {
        return Ok((offset, next));
    }
    Err(corrupt(at))
}

/// So many offsets. The first is 0, each later one past the one before it, and all are below the end.
pub fn offsets_from(
    alloc: Global,
    count: usize,
    end: usize,
    bytes: &[u8],
) -> Result<Vec<u16>, SlateDBError>
    requires { end ≤ length bytes.now }
    ensures found { IfOk result (λ offsets. offsets_from count 0 (min 1 end) end bytes.now end ≡ Ok offsets.items) }
    ensures cause { IfErr result (λ e. (e ≡ SlateDBError.OutOfMemory) ⊎ (offsets_from count 0 (min 1 end) end bytes.now end ≡ Err e)) }
{
    let mut offsets = Vec::with_capacity(alloc, count)?;
    let mut low = 0;
    let mut high = end.min(1);
    let mut at = end;
    for _ in 0..count {
        let (offset, next) = offset_field(low, high, bytes, at)?;
        offsets.push_reserved(offset);
        low = offset as usize + 1;
        high = end;
        at = next;
    }
    Ok(offsets)
}
