// Ranges: that calls succeed, and what they give.
use slate_types::{ByteRangeBounds, BytesRange};
use std::alloc::Global;
use std::ops::Bound;

// Whether a range begins and ends there.
fn is_range(range: Option<BytesRange>, start: Bound<&[u8]>, end: Bound<&[u8]>) -> bool {
    let Some(range) = range else { return false };
    let is_same = range.start_bound() == start && range.end_bound() == end;
    drop(range);
    is_same
}

// Behind a key that the prefix is taken off.
fn behind(alloc: Global, prefix: &[u8], start: &[u8]) -> Option<BytesRange> {
    let past: (Bound<&[u8]>, Bound<&[u8]>) = (Bound::Excluded(start), Bound::Unbounded);
    BytesRange::from_prefix_and_subrange(alloc, prefix, &past).ok()
}

// What a range from a key on has in common with that of all keys.
fn common(alloc: Global, start: &[u8]) -> Option<BytesRange> {
    let range = BytesRange::from_slice(alloc, Bound::Included(start), Bound::Unbounded);
    let Some(range) = range.ok() else { return None };
    let all = BytesRange::unbounded();
    let both = range.intersect(&all).ok();
    drop((range, all));
    both.flatten()
}

fn are_ranges(alloc: Global) -> bool {
    let prefixed = BytesRange::from_prefix(alloc, b"p").ok();
    is_range(prefixed, Bound::Included(b"p"), Bound::Excluded(b"q"))
        && is_range(
            behind(alloc, b"ab", b"x"),
            Bound::Excluded(b"abx"),
            Bound::Excluded(b"ac"),
        )
        && is_range(common(alloc, b"c"), Bound::Included(b"c"), Bound::Unbounded)
}

#[test]
fn prefixes_have_ranges(rt: HostRuntime) {
    assert!(rt; are_ranges(rt.alloc()));
}
