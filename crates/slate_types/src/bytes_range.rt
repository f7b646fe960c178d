//! Ranges of keys.
ghost use Rattle.std.specs.Prelude.{◌≡◌, ◌<◌, ◌≤◌, ◌-◌, ◌++◌, get_or, ◌⊎◌, if◌then◌else◌, IsTrue, IfOk, IfErr, Some, None, length, take, option_copied};
ghost use Rattle.slate_types.specs.Keys as keys;
ghost use Rattle.slate_types.specs.Keys.{bound_now, common_range, in_range, is_refused, is_past_start, is_before_end, point_of, prefix_range, prefix_start, prefix_end, prefix_subrange, range_of, successor, whole};
ghost use Rattle.slate_types.specs.Partitions.{counts};

use crate::byte_range_bounds::ByteRangeBounds;
use crate::error::SlateDBError;
use crate::iter::IterationOrder;
use crate::key_order::compare_keys;
use bytes::Bytes;
use std::alloc::{AllocError, Global};
use std::ops::{Bound, RangeFull};

/// The keys between two bounds. Bounds that leave none are refused where a range is made.
#[derive(Clone, PartialEq, Eq, Drop)]
pub struct BytesRange {
    pub start: Bound<Bytes>,
    pub end: Bound<Bytes>,
}

impl BytesRange {
    /// The range of two bounds. Refuses by `InvalidRange` exactly where both are given and the start is past
    /// the end, or they are equal and one is excluded.
    pub fn new(start: Bound<Bytes>, end: Bound<Bytes>) -> Result<BytesRange, SlateDBError>
        ensures range { IfOk result (λ r. range_of start end ≡ Some r) }
        ensures refused { IfErr result (λ e. (e ≡ SlateDBError.InvalidRange) × IsTrue (is_refused start end)) }
    {
        BytesRange::try_new(start, end).ok_or(SlateDBError::InvalidRange)
    }

    /// The range of two bounds, or `None` exactly where `new` refuses them.
    pub fn try_new(start: Bound<Bytes>, end: Bound<Bytes>) -> Option<BytesRange>
        ensures { result ≡ range_of start end }
    {
        let leaves_some = !leaves_none(&start, &end);
        leaves_some.then_some(BytesRange { start, end })
    }

    /// The range of all keys.
    pub fn unbounded() -> BytesRange
        ensures { result ≡ whole }
    {
        BytesRange {
            start: Bound::Unbounded,
            end: Bound::Unbounded,
        }
    }

    /// The range of two borrowed bounds, which are copied. Refuses by `InvalidRange` exactly where `new` does.
    pub fn from_slice(
        alloc: Global,
        start: Bound<&[u8]>,
        end: Bound<&[u8]>,
    ) -> Result<BytesRange, SlateDBError>
        ensures range { IfOk result (λ r. range_of (bound_now start.entry) (bound_now end.entry) ≡ Some r) }
        ensures refused { IfErr result (λ e. (e ≡ SlateDBError.OutOfMemory) ⊎ ((e ≡ SlateDBError.InvalidRange) × IsTrue (is_refused (bound_now start.entry) (bound_now end.entry)))) }
    {
        BytesRange::from_prefix_and_subrange(alloc, &[], &(start, end))
    }

    /// The range of the keys that begin with a prefix: from the prefix on to before its increment. It has no
    /// end where each byte is 255, and neither bound where there is no byte.
    pub fn from_prefix(alloc: Global, prefix: &[u8]) -> Result<BytesRange, SlateDBError>
        ensures range { IfOk result (λ r. r ≡ prefix_range prefix.now) }
        ensures memory { IfErr result (λ e. e ≡ SlateDBError.OutOfMemory) }
    {
        BytesRange::from_prefix_and_subrange(alloc, prefix, &RangeFull)
    }

    /// The range of the keys that are a prefix and then a key of a subrange. The prefix stands before each
    /// bound that the subrange gives, and an open bound is that of `from_prefix`. Refuses by `InvalidRange`
    /// exactly where `new` refuses these bounds.
    pub fn from_prefix_and_subrange<B: ByteRangeBounds>(
        alloc: Global,
        prefix: &[u8],
        subrange: &B,
    ) -> Result<BytesRange, SlateDBError>
        ensures range { IfOk result (λ r. prefix_subrange prefix.now (B.start subrange.now) (B.end subrange.now) ≡ Some r) }
        ensures refused { IfErr result (λ e. (e ≡ SlateDBError.OutOfMemory) ⊎ ((e ≡ SlateDBError.InvalidRange) × (prefix_subrange prefix.now (B.start subrange.now) (B.end subrange.now) ≡ None))) }
    {
        let start = behind(alloc, prefix, subrange.start_bound(), false)?;
        match behind(alloc, prefix, subrange.end_bound(), true) {
            Ok(end) => BytesRange::new(start, end),
            Err(error) => {
                drop(start);
                Err(error.into())
            }
        }
    }

    /// The range of the keys that are in both, or `None` exactly where `new` refuses its bounds.
    pub fn intersect(&self, other: &BytesRange) -> Result<Option<BytesRange>, SlateDBError>
        ensures range { IfOk result (λ r. r ≡ common_range self.now other.now) }
        ensures memory { IfErr result (λ e. e ≡ SlateDBError.OutOfMemory) }
    {
        let start = narrower(&self.start, &other.start, IterationOrder::Ascending)?;
        match narrower(&self.end, &other.end, IterationOrder::Descending) {
            Ok(end) => Ok(BytesRange::try_new(start, end)),
            Err(error) => {
                drop(start);
                Err(error.into())
            }
        }
    }

    /// Whether `new` refuses the bounds, so that no key passes both.
    pub fn leaves_none(&self) -> bool
        ensures { result ≡ is_refused self.now.start self.now.end }
    {
        leaves_none(&self.start, &self.end)
    }

    /// Whether the key passes both bounds.
    pub fn contains(&self, key: &[u8]) -> bool
        ensures { result ≡ in_range self.now key.now }
    {
        passes_start(&self.start, key) && passes_end(&self.end, key)
    }

    /// The key, where both bounds include the same one, else `None`.
    pub fn as_point(&self) -> Option<&Bytes>
        ensures { option_copied result ≡ point_of self.now }
    {
        match (&self.start, &self.end) {
            (Bound::Included(start), Bound::Included(end)) => (start == end).then_some(start),
            _ => None,
        }
    }
}

/// Whether `a` stands before `b`, or, where `upto` counts equal keys too, not past it.
pub(crate) fn is_before(a: &[u8], b: &[u8], upto: bool) -> bool
    ensures { result ≡ counts upto a.now b.now }
{
    let order = compare_keys(a, b);
    if upto { order.is_le() } else { order.is_lt() }
}

/// Whether the key is not below the start.
fn passes_start(start: &Bound<Bytes>, key: &[u8]) -> bool
    ensures { result ≡ is_past_start start.now key.now }
{
    match start {
        Bound::Included(a) => is_before(a.as_slice(), key, true),
        Bound::Excluded(a) => is_before(a.as_slice(), key, false),
        Bound::Unbounded => true,
    }
}

/// Whether the key is not past the end.
fn passes_end(end: &Bound<Bytes>, key: &[u8]) -> bool
    ensures { result ≡ is_before_end end.now key.now }
{
    match end {
        Bound::Included(b) => is_before(key, b.as_slice(), true),
        Bound::Excluded(b) => is_before(key, b.as_slice(), false),
        Bound::Unbounded => true,
    }
}

/// Whether both bounds are given and leave no range.
fn leaves_none(start: &Bound<Bytes>, end: &Bound<Bytes>) -> bool
    ensures { result ≡ is_refused start.now end.now }
{
    match (start, end) {
        (Bound::Included(a), Bound::Included(b)) => is_before(b.as_slice(), a.as_slice(), false),
        (Bound::Included(a) | Bound::Excluded(a), Bound::Included(b) | Bound::Excluded(b)) => {
            is_before(b.as_slice(), a.as_slice(), true)
        }
        _ => false,
    }
}

/// A copy of the bound that lets fewer keys through: of starts the later one, of ends the earlier one.
fn narrower(
    a: &Bound<Bytes>,
    b: &Bound<Bytes>,
    order: IterationOrder,
) -> Result<Bound<Bytes>, AllocError>
    ensures start { order ≡ IterationOrder.Ascending → IfOk result (λ bound. bound ≡ keys.later_start a.now b.now) }
    ensures end { order ≡ IterationOrder.Descending → IfOk result (λ bound. bound ≡ keys.earlier_end a.now b.now) }
{
    let second = match (a, b) {
        (_, Bound::Unbounded) => false,
        (Bound::Unbounded, _) => true,
        (Bound::Included(x), Bound::Excluded(y)) => !order.puts_before(y.as_slice(), x.as_slice()),
        (Bound::Included(x) | Bound::Excluded(x), Bound::Included(y) | Bound::Excluded(y)) => {
            order.puts_before(x.as_slice(), y.as_slice())
        }
    };
    let bound = if second { b } else { a };
    bound.clone()
}

/// One byte string after another.
fn joined(alloc: Global, front: &[u8], back: &[u8]) -> Result<Bytes, AllocError>
    ensures { IfOk result (λ k. k ≡ front.now ++ back.now) }
{
    let mut bytes = Vec::with_capacity(alloc, front.len() + back.len())?;
    bytes.extend_from_slice(front)?;
    bytes.extend_from_slice(back)?;
    Bytes::from_vec(bytes).map_err(AllocError::from)
}

/// How many bytes are left of a prefix without its trailing bytes 255.
fn kept_len(prefix: &[u8]) -> usize
    ensures within { result ≤ length prefix.now }
    ensures same { successor (take result prefix.now) ≡ successor prefix.now }
    ensures last { 0 < result → get_or prefix.now (result - 1) 0 < 255 }
{
    let mut len = prefix.len();
    while len > 0 && prefix[len - 1] == u8::MAX {
        len -= 1;
    }
    len
}

/// The end of the range of a prefix: its increment, where it has one.
fn end_of_prefix(alloc: Global, prefix: &[u8]) -> Result<Bound<Bytes>, AllocError>
    ensures { IfOk result (λ b. b ≡ prefix_end prefix.now) }
{
    let len = kept_len(prefix);
    if len == 0 {
        return Ok(Bound::Unbounded);
    }
    let last = prefix[len - 1] + 1;
    Ok(Bound::Excluded(joined(alloc, &prefix[..len - 1], &[last])?))
}

/// A bound of the range of a prefix and a subrange with this bound, which is its start or its end.
fn behind(
    alloc: Global,
    prefix: &[u8],
    bound: Bound<&[u8]>,
    is_end: bool,
) -> Result<Bound<Bytes>, AllocError>
    ensures { IfOk result (λ b. b ≡ keys.behind prefix.now (bound_now bound.entry) (if is_end then prefix_end prefix.now else prefix_start prefix.now)) }
{
    match bound {
        Bound::Included(key) => joined(alloc, prefix, key).map(Bound::Included),
        Bound::Excluded(key) => joined(alloc, prefix, key).map(Bound::Excluded),
        Bound::Unbounded if is_end => end_of_prefix(alloc, prefix),
        Bound::Unbounded if prefix.is_empty() => Ok(Bound::Unbounded),
        Bound::Unbounded => Bytes::copy_from_slice(alloc, prefix).map(Bound::Included),
    }
}
