// Ranges of keys with sequences, the prefixes that an extractor gives, and the partitions of keys.
use bytes::Bytes;
use slate_filter::LastColonExtractor;
use slate_mem::KVTableInternalKeyRange;
use slate_table::SstIndex;
use slate_types::{
    BytesRange, PrefixExtractor, PrefixTarget, RangePartitionedKeySpace, SequencedKey,
    first_partition_including_key, last_partition_including_key,
};
use std::alloc::Global;
use std::ops::Bound;

fn is_place(bound: &Bound<SequencedKey>, key: &[u8], seq: u64) -> bool {
    match bound {
        Bound::Included(place) => place.user_key.as_slice() == key && place.seq == seq,
        _ => false,
    }
}

fn range_of_key(alloc: Global) -> Option<KVTableInternalKeyRange> {
    let range = BytesRange::from_slice(alloc, Bound::Included(b"k"), Bound::Included(b"k")).ok()?;
    let places = KVTableInternalKeyRange::from_range(&range);
    drop(range);
    places.ok()
}

// Checks that the range of one key begins at its newest row and ends at its oldest.
fn has_all_sequences(alloc: Global) -> bool {
    let Some(places) = range_of_key(alloc) else {
        return false;
    };
    let has_all = is_place(&places.start, b"k", u64::MAX) && is_place(&places.end, b"k", 0);
    drop(places);
    has_all
}

#[test]
fn a_key_has_all_its_sequences(rt: HostRuntime) {
    assert!(rt; has_all_sequences(rt.alloc()));
}

fn prefix_len(key: &'static [u8]) -> Option<usize> {
    let target = PrefixTarget::Point(Bytes::from_static(key));
    let len = LastColonExtractor::new().prefix_len(&target);
    drop(target);
    len
}

#[test]
fn the_last_colon_ends_a_prefix(rt: HostRuntime) {
    assert!(rt; prefix_len(b"a:b:c") == Some(4) && prefix_len(b"abc").is_none());
}

// The index of two blocks, at 0 and at 9, whose first keys are aaaa and bbbb.
const INDEX: &[u8] = b"\x00\x00\x00\x02\
\x00\x00\x00\x00\x00\x00\x00\x00\x00\x04aaaa\
\x00\x00\x00\x00\x00\x00\x00\x09\x00\x04bbbb";

// A key, and the first and the last of these blocks that can hold it.
type Case = (&'static [u8], Option<usize>, Option<usize>);

const CASES: &[Case] = &[
    (b"\x00\x00\x00", None, None),
    (b"aaaa", Some(0), Some(0)),
    (b"bbbb", Some(0), Some(1)),
    (b"bbbbbla", Some(1), Some(1)),
];

fn is_found<K: RangePartitionedKeySpace>(space: &K, case: &Case) -> bool {
    first_partition_including_key(space, case.0) == case.1
        && last_partition_including_key(space, case.0) == case.2
}

fn are_found(alloc: Global) -> bool {
    let Some(index) = SstIndex::decode(alloc, Bytes::from_static(INDEX), 20).ok() else {
        return false;
    };
    let mut are_found = true;
    for case in CASES {
        are_found = are_found && is_found(&index, case);
    }
    drop(index);
    are_found
}

#[test]
fn blocks_of_keys_are_found(rt: HostRuntime) {
    assert!(rt; are_found(rt.alloc()));
}
