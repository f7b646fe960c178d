//! The bits of a filter, and which of them a hash has.
ghost use Rattle.std.specs.Prelude.{◌≡◌, ◌+◌, ◌*◌, ◌-◌, ◌/◌, ◌%◌, ◌^◌, ◌<◌, ◌≤◌, ◌==◌, ◌||◌, ℕ, Bool, length, IfOk, IsOkUnless, min, replicate, slice_index};
ghost use Rattle.std.specs.List.{flat_map, list_any};
ghost use Rattle.slate_filter.specs.Bloom.{bits_from, is_held, is_set, probe_count, probes};

use crate::hash::filter_hash;
use slate_types::SlateDBError;
use std::alloc::Global;

/// The low half of a hash, and what one more high half counts.
const HALF: u64 = 0x1_0000_0000;

/// So many bits of those of a hash, in the order in which they are tested. A bit may come more than once.
pub fn probes_for_key(
    alloc: Global,
    hash: u64,
    count: u16,
    bits: u32,
) -> Result<Vec<u32>, SlateDBError>
    requires { 0 < bits }
    ensures probes { IfOk result (λ found. found.items ≡ probes hash count bits) }
    ensures cause { IsOkUnless result SlateDBError.OutOfMemory }
{
    let mut found = Vec::with_capacity(alloc, count as usize)?;
    let mut probe = first_probe(hash, bits);
    let mut step = first_step(hash, bits);
    for i in 0..count {
        found.push_reserved(probe);
        step = next_step(step, i, bits);
        probe = next_probe(probe, step, bits);
    }
    Ok(found)
}

/// Whether all bits of the hash of a string are set. Where there is no bit at all, none is.
pub(crate) fn is_held(count: u16, bits: &[u8], string: &[u8]) -> bool
    requires { length bits.now < 2 ^ 29 }
    ensures { result ≡ is_held count bits.now string.now }
{
    if bits.is_empty() {
        return false;
    }
    let hash = filter_hash(string);
    let len = 8 * bits.len() as u32;
    let mut probe = first_probe(hash, len);
    let mut step = first_step(hash, len);
    for i in 0..count {
        if !check_bit(probe as usize, bits) {
            return false;
        }
        step = next_step(step, i, len);
        probe = next_probe(probe, step, len);
    }
    true
}

/// Sets the bits of a hash, and changes no other.
pub(crate) fn set_probes(hash: u64, count: u16, bits: &mut [u8])
    requires some { 0 < length bits.old }
    requires few { length bits.old < 2 ^ 29 }
    ensures set { (b : ℕ) → is_set bits.new b ≡ (is_set bits.old b || list_any (λ p. p == b) (probes hash count (8 * length bits.old))) }
{
    let len = 8 * bits.len() as u32;
    let mut probe = first_probe(hash, len);
    let mut step = first_step(hash, len);
    for i in 0..count {
        set_bit(probe as usize, bits);
        step = next_step(step, i, len);
        probe = next_probe(probe, step, len);
    }
}

/// Sets the bits of all hashes in bytes that are zeros.
pub(crate) fn set_all(hashes: &[u64], count: u16, bits: &mut [u8])
    requires some { 0 < length hashes.now → 0 < length bits.old }
    requires few { length bits.old < 2 ^ 29 }
    requires zeros { bits.old ≡ replicate (length bits.old) 0 }
    ensures { bits.new ≡ bits_from (length bits.old) 0 (flat_map (λ hash. probes hash count (8 * length bits.old)) hashes.now) }
{
    for hash in hashes {
        set_probes(*hash, count, bits);
    }
    are_bytes(bits);
}

/// Each number is that of a byte.
#[inline(always)]
fn are_bytes(bytes: &[u8])
    ensures { (i : ℕ) → slice_index bytes.now i < 256 }
{
    let _ = bytes;
}

/// Whether a bit is set. Bits are counted from the lowest of the first byte.
#[inline(always)]
pub fn check_bit(bit: usize, buf: &[u8]) -> bool
    requires { bit < 8 * length buf.now }
    ensures { result ≡ is_set buf.now bit }
{
    (buf[bit / 8] >> (bit % 8)) % 2 == 1
}

/// Sets a bit, and changes no other.
#[inline(always)]
pub fn set_bit(bit: usize, buf: &mut [u8])
    requires { bit < 8 * length buf.old }
    ensures { (b : ℕ) → is_set buf.new b ≡ (is_set buf.old b || bit == b) }
{
    let at = bit / 8;
    buf[at] |= 1u8 << (bit % 8);
}

/// The number of probes for so many bits per key: about ln 2 of them, in hundredths, and at most 65535.
pub fn optimal_num_probes(bits_per_key: u32) -> u16
    ensures { result ≡ probe_count bits_per_key }
{
    (u64::from(bits_per_key) * 69 / 100).min(65535) as u16
}

#[inline(always)]
fn first_probe(hash: u64, bits: u32) -> u32
    requires { 0 < bits }
    ensures value { result ≡ hash % 2 ^ 32 % bits }
    ensures below { result < bits }
{
    (hash % HALF) as u32 % bits
}

#[inline(always)]
fn first_step(hash: u64, bits: u32) -> u32
    requires { 0 < bits }
    ensures value { result ≡ hash / 2 ^ 32 % bits }
    ensures below { result < bits }
{
    (hash / HALF) as u32 % bits
}

/// A step grows by the number of probes before it. It is divided only where it is past the last bit.
#[inline(always)]
fn next_step(step: u32, before: u16, bits: u32) -> u32
    requires { step < bits }
    ensures value { result ≡ (step + before) % bits }
    ensures below { result < bits }
{
    let sum = u64::from(step) + u64::from(before);
    let bits = u64::from(bits);
    if sum < bits {
        sum as u32
    } else {
        (sum % bits) as u32
    }
}

#[inline(always)]
fn next_probe(probe: u32, step: u32, bits: u32) -> u32
    requires probe { probe < bits }
    requires step { step < bits }
    ensures value { result ≡ (probe + step) % bits }
    ensures below { result < bits }
{
    let sum = u64::from(probe) + u64::from(step);
    let bits = u64::from(bits);
    if sum < bits {
        sum as u32
    } else {
        (sum - bits) as u32
    }
}
