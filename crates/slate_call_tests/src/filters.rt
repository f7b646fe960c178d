// The probes of a hash, bits that are set, and Bloom filters of keys and of prefixes.
ghost use Rattle.std.specs.Prelude.{◌<◌};

use bytes::Bytes;
use slate_filter::{
    BloomFilter, BloomFilterBuilder, BloomFilterPolicy, FilterPolicy, FixedExtractor,
    optimal_num_probes, probes_for_key, set_bit,
};
use slate_types::{FilterQuery, SlateDBError};
use std::alloc::Global;

const PROBES: &[u32] = &[928559, 107781, 287004, 466229, 645457, 824689, 3926];

fn are_probes(alloc: Global) -> bool {
    match probes_for_key(alloc, 0xdf77_ef56_dead_beef, 7, 1_000_000).ok() {
        Some(probes) => probes.as_slice() == PROBES,
        None => false,
    }
}

#[test]
fn a_hash_has_its_probes(rt: HostRuntime) {
    assert!(rt; are_probes(rt.alloc()));
}

fn with_bit(bit: usize) -> [u8; 3]
    requires { bit < 24 }
{
    let mut bits = [0xf0, 0xab, 0x9c];
    set_bit(bit, &mut bits);
    bits
}

#[test]
fn bits_are_set(rt: HostRuntime) {
    assert!(rt; with_bit(3) == [0xf8, 0xab, 0x9c] && with_bit(10) == [0xf0, 0xaf, 0x9c]);
}

type Filter = BloomFilter<FixedExtractor>;

// Builds the filter of the keys a and b and of prefixes of four bytes, which neither key has.
fn of_two_keys(alloc: Global, whole_keys: bool) -> Option<Filter> {
    let extractor = FixedExtractor::new(alloc, 4).ok()?;
    let mut builder = BloomFilterBuilder::new(alloc, 10, whole_keys, Some(extractor)).ok()?;
    let first = builder.add_key(&Bytes::from_static(b"a")).ok();
    let second = builder.add_key(&Bytes::from_static(b"b")).ok();
    let filter = builder.build().ok().flatten();
    first.and(second).and(filter)
}

fn has_point(filter: &Filter, key: &'static [u8]) -> bool {
    let query = FilterQuery::point(Bytes::from_static(key));
    let has_point = filter.might_match(&query);
    drop(query);
    has_point
}

fn has_prefix(filter: &Filter, prefix: &'static [u8]) -> bool {
    let query = FilterQuery::prefix(Bytes::from_static(prefix));
    let has_prefix = filter.might_match(&query);
    drop(query);
    has_prefix
}

// Checks that the filter denies each prefix of four bytes, and no shorter one.
fn denies_prefixes(filter: &Filter) -> bool {
    !has_prefix(filter, b"aaaa")
        && !has_point(filter, b"aaaa_key")
        && has_prefix(filter, b"a")
        && has_point(filter, b"a")
}

// Decodes the bytes as a filter of prefixes of four bytes alone.
fn decoded(alloc: Global, bytes: &[u8]) -> Result<Filter, SlateDBError> {
    let extractor = FixedExtractor::new(alloc, 4)?;
    BloomFilter::decode(alloc, bytes, false, Some(extractor))
}

fn is_encoded(alloc: Global, filter: &Filter, bytes: &[u8]) -> bool {
    match filter.encode(alloc).ok() {
        Some(encoded) => encoded.as_slice() == bytes,
        None => false,
    }
}

fn is_of_prefixes(alloc: Global, filter: Option<Filter>) -> bool {
    let Some(mut filter) = filter else {
        return false;
    };
    let is_clamped = filter.clamp_allocated_size().is_ok();
    let is_of_prefixes = is_clamped
        && filter.size() == 0
        && is_encoded(alloc, &filter, b"\x00\x06")
        && denies_prefixes(&filter);
    drop(filter);
    is_of_prefixes
}

#[test]
fn filters_of_prefixes_are_built_and_decoded(rt: HostRuntime) {
    assert!(rt;
        is_of_prefixes(rt.alloc(), of_two_keys(rt.alloc(), false))
            && is_of_prefixes(rt.alloc(), decoded(rt.alloc(), b"\x00\x06").ok())
    );
}

fn has_its_keys(alloc: Global) -> bool {
    let Some(filter) = of_two_keys(alloc, true) else {
        return false;
    };
    let has_both = has_point(&filter, b"a") && has_point(&filter, b"b");
    drop(filter);
    has_both
}

#[test]
fn filters_of_whole_keys_are_built(rt: HostRuntime) {
    assert!(rt; has_its_keys(rt.alloc()));
}

fn is_refused(alloc: Global) -> bool {
    let refused = decoded(alloc, b"\x00");
    matches!(refused, Err(SlateDBError::InvalidFilterBlock { len: 1 }))
}

#[test]
fn one_byte_is_no_filter(rt: HostRuntime) {
    assert!(rt; is_refused(rt.alloc()));
}

// A number of keys, and how many bytes their filter has by ten bits a key.
const SIZES: &[(u32, u64)] = &[(0, 2), (1, 4), (100, 127)];

// Bits a key, and how many probes these make.
const COUNTS: &[(u32, u16)] = &[(1, 0), (10, 6), (100, 69)];

fn are_sizes() -> bool {
    for (num_keys, size) in SIZES {
        if Filter::estimate_encoded_size(*num_keys, 10) != *size {
            return false;
        }
    }
    true
}

fn are_counts() -> bool {
    for (bits_per_key, count) in COUNTS {
        if optimal_num_probes(*bits_per_key) != *count {
            return false;
        }
    }
    true
}

#[test]
fn filters_are_estimated(rt: HostRuntime) {
    assert!(rt; are_sizes() && are_counts());
}

type Policy = BloomFilterPolicy<FixedExtractor>;

fn is_estimated(alloc: Global) -> bool {
    let Some(policy) = Policy::new(alloc, 10).ok() else {
        return false;
    };
    let is_estimated = policy.bits_per_key() == 10 && policy.estimate_size(100) == 127;
    drop(policy);
    is_estimated
}

#[test]
fn a_policy_estimates_its_filters(rt: HostRuntime) {
    assert!(rt; is_estimated(rt.alloc()));
}
