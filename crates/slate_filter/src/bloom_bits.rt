//! The bytes of a filter.
ghost use Rattle.std.specs.Prelude.{◌≡◌, ◌≤◌, ◌<◌, ◌-◌, ◌^◌, nat_lt, if◌then◌else◌, Some, None, Option, ℕ, length, vec_items, vec_len, IfOk, IsOkUnless};
ghost use Rattle.std.specs.Option.{option_map, ForSome};
ghost use Rattle.slate_filter.specs.Bloom.{bit_bytes_len, bloom_estimate, bloom_parts, probe_count};
ghost use Rattle.slate_filter.specs.Building.{bits_of, encoded};

use crate::probes::{optimal_num_probes, set_all};
use slate_types::SlateDBError;
use std::alloc::{AllocError, Global};

/// A filter has no more bit bytes than these.
const MAX_BIT_BYTES: u128 = 536_870_911;

/// How many bit bytes so many hashes take, where they aren't too many.
pub(crate) fn bit_bytes_len(hashes: usize, bits_per_key: u32) -> Option<usize>
    ensures { result ≡ (if nat_lt (2 ^ 29 - 1) (bit_bytes_len hashes bits_per_key) then None else Some (bit_bytes_len hashes bits_per_key)) }
{
    let len = (hashes as u128 * u128::from(bits_per_key) + 7) / 8;
    if len > MAX_BIT_BYTES {
        None
    } else {
        Some(len as usize)
    }
}

/// Bit bytes with the probes of the hashes set, where they aren't too many.
pub(crate) fn filter_bits(
    alloc: Global,
    hashes: &[u64],
    bits_per_key: u32,
) -> Result<Option<Vec<u8>>, AllocError>
    requires { 1 ≤ bits_per_key }
    ensures bits { IfOk result (λ bits. option_map vec_items bits ≡ bits_of bits_per_key hashes.now) }
    ensures few { IfOk result (λ bits. ForSome bits (λ b. vec_len b < 2 ^ 29)) }
{
    let Some(len) = bit_bytes_len(hashes.len(), bits_per_key) else {
        return Ok(None);
    };
    let mut bits = vec![in alloc; 0u8; len]?;
    set_all(
        hashes,
        optimal_num_probes(bits_per_key),
        bits.as_mut_slice(),
    );
    Ok(Some(bits))
}

/// The number of probes, and the bit bytes.
pub(crate) fn encoded(alloc: Global, count: u16, bits: &[u8]) -> Result<Vec<u8>, AllocError>
    requires { length bits.now < 2 ^ 29 }
    ensures { IfOk result (λ bytes. bytes.items ≡ encoded count bits.now) }
{
    let mut bytes = Vec::with_capacity(alloc, bits.len() + 2)?;
    let [high, low] = count.to_be_bytes();
    bytes.push_reserved(high);
    bytes.push_reserved(low);
    bytes.extend_from_slice(bits)?;
    Ok(bytes)
}

/// The bytes of a filter of the hashes, where they aren't too many.
pub(crate) fn built(
    alloc: Global,
    hashes: &[u64],
    bits_per_key: u32,
) -> Result<Option<Vec<u8>>, AllocError>
    requires { 1 ≤ bits_per_key }
    ensures { IfOk result (λ bytes. option_map vec_items bytes ≡ option_map (encoded (probe_count bits_per_key)) (bits_of bits_per_key hashes.now)) }
{
    let Some(bits) = filter_bits(alloc, hashes, bits_per_key)? else {
        return Ok(None);
    };
    let bytes = encoded(alloc, optimal_num_probes(bits_per_key), bits.as_slice())?;
    Ok(Some(bytes))
}

/// The number of probes and the bit bytes of a filter. `None` exactly for fewer than 2 bytes, and for more than 2^29 + 1.
pub(crate) fn parts(filter: &[u8]) -> Option<(u16, &[u8])>
    ensures { option_map (λ p. (p.0, p.1.now)) result ≡ bloom_parts filter.now }
{
    if filter.len() < 2 || filter.len() > MAX_BIT_BYTES as usize + 2 {
        return None;
    }
    Some((u16::from_be_bytes([filter[0], filter[1]]), &filter[2..]))
}

/// About how long a filter of so many keys is.
pub(crate) fn estimate(keys: u32, bits_per_key: u32) -> u64
    ensures { result ≡ bloom_estimate keys bits_per_key }
{
    2 + (u64::from(keys) * u64::from(bits_per_key) + 7) / 8
}
