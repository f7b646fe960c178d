//! The tests of segment prefixes, which may not nest: of two that differ neither begins the other.
ghost use Rattle.std.specs.Prelude.{◌≡◌, ◌⊎◌, ◌++◌, None, Some, find, option_copied, option_map, IfOk, IfErr, OnOk};
ghost use Rattle.std.specs.BTreeSet as set;
ghost use Rattle.slate_types.specs.declared.error.SlateDBError.{SlateDBError};
ghost use Rattle.slate_types.specs.Keys.{key_cmp, keys_set};
ghost use Rattle.slate_mem.specs.KeyTests.{nest, nest_refusal, nest_refusals};
ghost use Rattle.slate_mem.specs.Refusals.{first_refusal};
ghost use Rattle.slate_mem.specs.Segments.{IsFirstFront, lesser};

use bytes::Bytes;
use slate_types::SlateDBError;
use std::alloc::AllocError;
use std::collections::BTreeSet;
use std::ops::Bound;

/// Tests the prefixes of a batch against each other and against those that are recorded. `InvalidSegmentPrefix` with the
/// least of the batch that nests with another of either, and the least such other. Else `OutOfMemory`.
pub fn test_segments(recorded: &BTreeSet<Bytes>, own: &BTreeSet<Bytes>) -> Result<(), SlateDBError>
    ensures fine { OnOk result (first_refusal (nest_refusals recorded.now.keys own.now.keys) ≡ None) }
    ensures cause { IfErr result (λ e. (e ≡ SlateDBError.OutOfMemory) ⊎ (first_refusal (nest_refusals recorded.now.keys own.now.keys) ≡ Some e)) }
{
    for prefix in own {
        test_both(recorded, own, prefix)?;
    }
    Ok(())
}

/// Tests one prefix against those of two sets.
fn test_both(
    recorded: &BTreeSet<Bytes>,
    own: &BTreeSet<Bytes>,
    prefix: &Bytes,
) -> Result<(), SlateDBError>
    ensures fine { OnOk result (nest_refusal (keys_set (recorded.now.keys ++ own.now.keys)) prefix.now ≡ None) }
    ensures cause { IfErr result (λ e. (e ≡ SlateDBError.OutOfMemory) ⊎ (nest_refusal (keys_set (recorded.now.keys ++ own.now.keys)) prefix.now ≡ Some e)) }
{
    let recorded = least_nesting(recorded, prefix)?;
    let own = least_nesting(own, prefix)?;
    test_other(prefix, lesser(recorded, own))
}

/// `InvalidSegmentPrefix` where there is another prefix that nests with this one.
pub(crate) fn test_other(prefix: &Bytes, other: Option<&Bytes>) -> Result<(), SlateDBError>
    ensures fine { OnOk result (option_copied other.entry ≡ None) }
    ensures cause { IfErr result (λ e. (e ≡ SlateDBError.OutOfMemory) ⊎ (option_map (λ q. SlateDBError.InvalidSegmentPrefix prefix.now q) (option_copied other.entry) ≡ Some e)) }
{
    match other {
        Some(other) => Err(SlateDBError::InvalidSegmentPrefix {
            prefix: prefix.clone()?,
            conflict: other.clone()?,
        }),
        None => Ok(()),
    }
}

/// The lesser of two prefixes, each where there is one.
fn lesser<'a>(first: Option<&'a Bytes>, second: Option<&'a Bytes>) -> Option<&'a Bytes>
    ensures { option_copied result ≡ lesser (option_copied first.entry) (option_copied second.entry) }
{
    match (first, second) {
        (None, second) => second,
        (first, None) => first,
        (Some(first), Some(second)) => Some(if second < first { second } else { first }),
    }
}

/// The least of the prefixes that differs from this one, and that it begins with or that begins with it.
pub fn least_nesting<'a>(
    prefixes: &'a BTreeSet<Bytes>,
    prefix: &Bytes,
) -> Result<Option<&'a Bytes>, AllocError>
    ensures least { IfOk result (λ other. option_copied other ≡ find (nest prefix.now) prefixes.now.keys) }
    ensures rising { IfOk result (λ other. set.IsOrdered key_cmp prefixes.now) }
{
    let _count = prefixes.len();
    match first_front(prefixes, prefix)? {
        Some(front) => Ok(Some(front)),
        None => Ok(next_longer(prefixes, prefix)),
    }
}

/// The shortest of the prefixes that this one begins with, and differs from.
fn first_front<'a>(
    prefixes: &'a BTreeSet<Bytes>,
    prefix: &Bytes,
) -> Result<Option<&'a Bytes>, AllocError>
    ensures { IfOk result (λ front. IsFirstFront prefix.now prefixes.now.keys (option_copied front)) }
{
    for len in 0..prefix.len() {
        let front = prefix.slice(..len)?;
        if let Some(found) = prefixes.get(&front) {
            return Ok(Some(found));
        }
    }
    Ok(None)
}

/// The least of the prefixes that begins with this one, and differs from it.
fn next_longer<'a>(prefixes: &'a BTreeSet<Bytes>, prefix: &Bytes) -> Option<&'a Bytes>
    requires { IsFirstFront prefix.now prefixes.now.keys None }
    ensures { option_copied result ≡ find (nest prefix.now) prefixes.now.keys }
{
    let mut longer = prefixes.range((Bound::Excluded(prefix), Bound::Unbounded));
    let Some(next) = longer.next() else {
        return None;
    };
    if next.as_slice().starts_with(prefix.as_slice()) {
        Some(next)
    } else {
        None
    }
}
