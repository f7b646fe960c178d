//! Numbers of 32 bits in groups of 7 bits, the low group first.
ghost use Rattle.std.specs.Prelude.{◌≡◌, ◌≤◌, ◌<◌, ◌^◌, ◌+◌, ◌++◌, Some, ℕ, List, length, take, vec_len, vec_capacity, OnOk, OnErr, IfSome, IfOk, IfErr, IsOkUnless};
ghost use Rattle.std.specs.Result.{result_ok};
ghost use Rattle.slate_block.specs.Damage.{front_varint, of_32_bits};
ghost use Rattle.slate_block.specs.Groups.{completed};
ghost use Rattle.slate_block.specs.Varint.{varint, IsVarint};

use crate::writing::put;
use slate_types::SlateDBError;

/// The longest spelling has five groups.
const MAX_VARINT_LEN: usize = 5;

/// How many bytes the spelling of a number has: 1 to 5.
pub fn varint_len(value: u32) -> usize
    ensures value { result ≡ length (varint value) }
    ensures spelling { (text : List ℕ) → IsVarint text value → length text ≡ result }
    ensures least { 1 ≤ result }
    ensures most { result ≤ 5 }
{
    match value {
        0..=0x7f => 1,
        0x80..=0x3fff => 2,
        0x4000..=0x1f_ffff => 3,
        0x20_0000..=0xfff_ffff => 4,
        _ => 5,
    }
}

/// Appends the spelling of a number. `OutOfMemory` leaves `out` as it was.
pub fn encode_varint(out: &mut Vec<u8>, value: u32) -> Result<(), SlateDBError>
    ensures appended { OnOk result (out.new.items ≡ out.old.items ++ varint value) }
    ensures unchanged { OnErr result (out.new.items ≡ out.old.items) }
    ensures cause { IsOkUnless result SlateDBError.OutOfMemory }
{
    out.reserve(MAX_VARINT_LEN)?;
    put_varint(out, value);
    Ok(())
}

/// The same, where there is room for the longest.
#[tactic(auto, unfolding(crate::specs::Varint::varint))]
pub(crate) fn put_varint(out: &mut Vec<u8>, value: u32)
    requires { vec_len out.old + 5 ≤ vec_capacity out.old }
    ensures appended { out.new.items ≡ out.old.items ++ varint value }
    ensures len { vec_len out.new ≤ vec_len out.old + 5 }
    ensures capacity { vec_capacity out.old ≤ vec_capacity out.new }
{
    let mut groups = [0u8; MAX_VARINT_LEN];
    let mut len = 0;
    let mut rest = value;
    while rest >= 128 {
        groups[len] = (rest % 128) as u8 + 128;
        rest /= 128;
        len += 1;
    }
    groups[len] = rest as u8;
    put(out, &groups[..len + 1]);
}

/// The number whose spelling begins the input, and how many bytes it has. `CorruptTable` exactly where no spelling begins
/// the input: where it is longer than the shortest, past 32 bits, or cut.
pub fn decode_varint(input: &[u8]) -> Result<(u32, usize), SlateDBError>
    ensures within { IfOk result (λ found. found.1 ≤ length input.now) }
    ensures found { IfOk result (λ found. IsVarint (take found.1 input.now) found.0) }
    ensures none { IfErr result (λ e. (n used : ℕ) → IsVarint (take used input.now) n → ⊥) }
    ensures cause { IfErr result (λ e. e ≡ SlateDBError.CorruptTable 0) }
    ensures exact { result_ok result ≡ front_varint input.now }
{
    first_varint(input).ok_or(SlateDBError::CorruptTable { place: 0 })
}

/// The same as an option.
pub(crate) fn first_varint(input: &[u8]) -> Option<(u32, usize)>
    ensures value { result ≡ front_varint input.now }
    ensures within { IfSome result (λ found. found.1 ≤ length input.now) }
{
    let mut low: u64 = 0;
    let mut weight: u64 = 1;
    for (index, byte) in input.iter().enumerate() {
        if index == MAX_VARINT_LEN {
            return None;
        }
        let group = u64::from(*byte);
        if group < 128 {
            return last_group(low, weight, group, index);
        }
        low += (group - 128) * weight;
        weight *= 128;
    }
    None
}

/// The number whose last group this is, and its length, where that is its shortest spelling and it has 32 bits.
fn last_group(low: u64, weight: u64, group: u64, index: usize) -> Option<(u32, usize)>
    requires weight { weight ≤ 2 ^ 28 }
    requires low { low < weight }
    requires group { group < 128 }
    requires index { index < 5 }
    ensures { result ≡ of_32_bits (completed weight low index (Some (group, 1))) }
{
    if index > 0 && group == 0 {
        return None;
    }
    let value = u32::try_from(low + weight * group).ok()?;
    Some((value, index + 1))
}
