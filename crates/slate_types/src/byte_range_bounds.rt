//! Ranges of borrowed keys, by their bounds.
ghost use Rattle.std.specs.Prelude.{◌≡◌, List, ℕ};
ghost use Rattle.std.specs.declared.ops.Bound.{Bound};
ghost use Rattle.std.specs.declared.ops.Bound.TheVariants.{Included, Excluded, Unbounded};
ghost use Rattle.slate_types.specs.Keys.{bound_now};

use crate::bytes_range::BytesRange;
use bytes::Bytes;
use std::ops::{Bound, Range, RangeFrom, RangeFull, RangeInclusive, RangeTo, RangeToInclusive};

/// What can be given as a range of keys.
pub trait ByteRangeBounds {
    /// The bound below.
    ghost start: { Self → Bound (List ℕ) };

    /// The bound above.
    ghost end: { Self → Bound (List ℕ) };

    /// The bound below, borrowed.
    fn start_bound(&self) -> Bound<&[u8]>
        ensures { bound_now result ≡ start self.now };

    /// The bound above, borrowed.
    fn end_bound(&self) -> Bound<&[u8]>
        ensures { bound_now result ≡ end self.now };
}

impl ByteRangeBounds for Range<&[u8]> {
    ghost start = { λ r. Included r.start.now };

    ghost end = { λ r. Excluded r.end.now };

    fn start_bound(&self) -> Bound<&[u8]> {
        Bound::Included(self.start)
    }

    fn end_bound(&self) -> Bound<&[u8]> {
        Bound::Excluded(self.end)
    }
}

impl ByteRangeBounds for RangeInclusive<&[u8]> {
    ghost use Rattle.std.specs.declared.ops.Bound.TheVariants.{Included};
    ghost use Rattle.std.specs.Range.{range_inclusive_start, range_inclusive_end};

    ghost start = { λ r. Included (range_inclusive_start r).now };

    ghost end = { λ r. Included (range_inclusive_end r).now };

    fn start_bound(&self) -> Bound<&[u8]> {
        Bound::Included(*self.start())
    }

    fn end_bound(&self) -> Bound<&[u8]> {
        Bound::Included(*self.end())
    }
}

impl ByteRangeBounds for RangeFrom<&[u8]> {
    ghost start = { λ r. Included r.start.now };

    ghost end = { λ _. Unbounded };

    fn start_bound(&self) -> Bound<&[u8]> {
        Bound::Included(self.start)
    }

    fn end_bound(&self) -> Bound<&[u8]> {
        Bound::Unbounded
    }
}

impl ByteRangeBounds for RangeTo<&[u8]> {
    ghost start = { λ _. Unbounded };

    ghost end = { λ r. Excluded r.end.now };

    fn start_bound(&self) -> Bound<&[u8]> {
        Bound::Unbounded
    }

    fn end_bound(&self) -> Bound<&[u8]> {
        Bound::Excluded(self.end)
    }
}

impl ByteRangeBounds for RangeToInclusive<&[u8]> {
    ghost start = { λ _. Unbounded };

    ghost end = { λ r. Included r.end.now };

    fn start_bound(&self) -> Bound<&[u8]> {
        Bound::Unbounded
    }

    fn end_bound(&self) -> Bound<&[u8]> {
        Bound::Included(self.end)
    }
}

impl ByteRangeBounds for RangeFull {
    ghost start = { λ _. Unbounded };

    ghost end = { λ _. Unbounded };

    fn start_bound(&self) -> Bound<&[u8]> {
        Bound::Unbounded
    }

    fn end_bound(&self) -> Bound<&[u8]> {
        Bound::Unbounded
    }
}

impl ByteRangeBounds for BytesRange {
    ghost start = { λ r. r.start };

    ghost end = { λ r. r.end };

    fn start_bound(&self) -> Bound<&[u8]> {
        borrowed(&self.start)
    }

    fn end_bound(&self) -> Bound<&[u8]> {
        borrowed(&self.end)
    }
}

/// The bound on the bytes that it holds.
fn borrowed(bound: &Bound<Bytes>) -> Bound<&[u8]>
    ensures { bound_now result ≡ bound.now }
{
    match bound {
        Bound::Included(key) => Bound::Included(key.as_slice()),
        Bound::Excluded(key) => Bound::Excluded(key.as_slice()),
        Bound::Unbounded => Bound::Unbounded,
    }
}

impl ByteRangeBounds for (Bound<&[u8]>, Bound<&[u8]>) {
    ghost start = { λ r. bound_now r.0 };

    ghost end = { λ r. bound_now r.1 };

    fn start_bound(&self) -> Bound<&[u8]> {
        self.0
    }

    fn end_bound(&self) -> Bound<&[u8]> {
        self.1
    }
}
