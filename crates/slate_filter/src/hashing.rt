//! What a filter hashes of keys.
ghost use Rattle.std.specs.Prelude.{◌≡◌, ◌≤◌, ◌<◌, ◌+◌, ◌++◌, [], ◌∷◌, ℕ, None, if◌then◌else◌, length, map, option_copied, vec_len, vec_capacity, IfOk, OnOk, OnErr};
ghost use Rattle.std.specs.Option.{option_map, ForSome};
ghost use Rattle.slate_types.specs.declared.filter_policy.PrefixTarget.TheVariants.{Point};
ghost use Rattle.slate_filter.specs.Bloom.{front, if_other, new_prefix, prefix_of};
ghost use Rattle.slate_filter.specs.Hash.{filter_hash};

use crate::hash::filter_hash;
use bytes::Bytes;
use slate_types::{PrefixExtractor, PrefixTarget};
use std::alloc::{AllocError, Global};

/// The prefix that an extractor gives a key, sharing the key's buffer.
pub(crate) fn shared_prefix<X: PrefixExtractor>(
    extractor: &Option<X>,
    key: &Bytes,
) -> Result<Option<Bytes>, AllocError>
    ensures { IfOk result (λ prefix. prefix ≡ prefix_of (option_map X.lengths extractor.now) (Point key.now)) }
{
    match key_prefix_len(extractor, key)? {
        Some(len) => Ok(Some(key.slice(..len)?)),
        None => Ok(None),
    }
}

fn key_prefix_len<X: PrefixExtractor>(
    extractor: &Option<X>,
    key: &Bytes,
) -> Result<Option<usize>, AllocError>
    ensures front { IfOk result (λ len. front key.now len ≡ prefix_of (option_map X.lengths extractor.now) (Point key.now)) }
    ensures within { IfOk result (λ len. ForSome len (λ n. n ≤ length key.now)) }
{
    match extractor {
        Some(extractor) => {
            let target = PrefixTarget::Point(key.clone()?);
            let len = extractor.prefix_len(&target);
            drop(target);
            Ok(len)
        }
        None => Ok(None),
    }
}

/// So many first bytes.
pub(crate) fn front(bytes: &[u8], len: Option<usize>) -> Option<&[u8]>
    requires { ForSome len (λ n. n ≤ length bytes.now) }
    ensures { option_copied result ≡ front bytes.now len }
{
    match len {
        Some(len) => Some(&bytes[..len]),
        None => None,
    }
}

/// Adds the hashes of a key and its prefix, the prefix only where it isn't the one hashed last. A refusal adds none.
pub(crate) fn add_hashes(
    hashes: &mut Vec<u64>,
    whole: bool,
    last: Option<&[u8]>,
    prefix: Option<&[u8]>,
    key: &[u8],
) -> Result<(), AllocError>
    ensures added { OnOk result (hashes.new.items ≡ hashes.old.items ++ map filter_hash (new_prefix (option_copied last.entry) (option_copied prefix.entry) ++ (if whole then key.now ∷ [] else []))) }
    ensures same { OnErr result (hashes.new.items ≡ hashes.old.items) }
{
    hashes.reserve(2)?;
    if let Some(prefix) = prefix {
        add_prefix(hashes, last, prefix);
    }
    if whole {
        hashes.push_reserved(filter_hash(key));
    }
    Ok(())
}

fn add_prefix(hashes: &mut Vec<u64>, last: Option<&[u8]>, prefix: &[u8])
    requires { vec_len hashes.old < vec_capacity hashes.old }
    ensures added { hashes.new.items ≡ hashes.old.items ++ map filter_hash (if_other prefix.now (option_copied last.entry)) }
    ensures len { vec_len hashes.new ≤ vec_len hashes.old + 1 }
    ensures capacity { vec_capacity hashes.new ≡ vec_capacity hashes.old }
{
    match last {
        Some(last) if last == prefix => {}
        _ => hashes.push_reserved(filter_hash(prefix)),
    }
}
