//! The order of keys, eight bytes a step.
ghost use Rattle.std.specs.Prelude.{◌≡◌, ◌+◌, ◌≤◌, length, take, drop};
ghost use Rattle.std.specs.Int.{w64, from_be_bytes};
ghost use Rattle.slate_types.specs.Keys.{key_cmp};

use std::cmp::Ordering;

/// The order of two keys. Keys of eight bytes and more are read by words, of which the last one of the shorter key
/// may lie over the one before.
pub fn compare_keys(a: &[u8], b: &[u8]) -> Ordering
    ensures { result ≡ key_cmp a.now b.now }
{
    let both = a.len().min(b.len());
    if both < 8 {
        return a.cmp(b);
    }
    let last = both - 8;
    let mut at = 0;
    while at < last {
        let (x, y) = (word_at(a, at), word_at(b, at));
        if x != y {
            return x.cmp(&y);
        }
        at = (at + 8).min(last);
    }
    let (z, w) = (word_at(a, last), word_at(b, last));
    if z != w {
        return z.cmp(&w);
    }
    a.len().cmp(&b.len())
}

/// Eight bytes as a number, the first byte the highest.
fn word_at(bytes: &[u8], at: usize) -> u64
    requires { at + 8 ≤ length bytes.now }
    ensures { result ≡ from_be_bytes w64 (take 8 (drop at bytes.now)) }
{
    u64::from_be_bytes([
        bytes[at],
        bytes[at + 1],
        bytes[at + 2],
        bytes[at + 3],
        bytes[at + 4],
        bytes[at + 5],
        bytes[at + 6],
        bytes[at + 7],
    ])
}
