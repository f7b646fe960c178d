//! What a filter lets through.
ghost use Rattle.std.specs.Prelude.{◌≡◌, ◌≤◌, ◌<◌, ◌^◌, ℕ, Option, length};
ghost use Rattle.std.specs.Option.{option_map, ForSome};
ghost use Rattle.slate_filter.specs.Bloom.{bloom_holds, front, held_or_open};

use crate::probes::is_held;
use slate_types::{PrefixExtractor, PrefixTarget};

/// Whether bits let a target through. The key is tested, or the prefix; without one the target is let through.
pub(crate) fn holds<X: PrefixExtractor>(
    whole: bool,
    extractor: &Option<X>,
    count: u16,
    bits: &[u8],
    target: &PrefixTarget,
) -> bool
    requires { length bits.now < 2 ^ 29 }
    ensures { (n : ℕ) → result ≡ bloom_holds (record { bits_per_key = n; whole = whole; lengths = option_map X.lengths extractor.now }) count bits.now target.now }
{
    match target {
        PrefixTarget::Point(key) if whole => is_held(count, bits, key.as_slice()),
        _ => match extractor {
            Some(extractor) => {
                front_is_held(count, bits, target.as_bytes(), extractor.prefix_len(target))
            }
            None => true,
        },
    }
}

/// Whether bits let so many first bytes of a target through, which they do where there is no prefix.
pub(crate) fn front_is_held(count: u16, bits: &[u8], bytes: &[u8], len: Option<usize>) -> bool
    requires few { length bits.now < 2 ^ 29 }
    requires within { ForSome len (λ n. n ≤ length bytes.now) }
    ensures { result ≡ held_or_open count bits.now (front bytes.now len) }
{
    match len {
        Some(len) => is_held(count, bits, &bytes[..len]),
        None => true,
    }
}
