//! Keys in partitions, as the rows of a table in its blocks, and searches by the partitions' first keys.
//! Each search reads a number of first keys that grows with the logarithm of the number of partitions.
ghost use Rattle.std.specs.Prelude.{◌≡◌, ◌<◌, ◌≤◌, ℕ, Bool, true, false, List, length, slice_get, Some, unwrap_or, IsSorted};
ghost use Rattle.slate_types.specs.Keys.{bound_now, in_range, is_refused, key_cmp};
ghost use Rattle.slate_types.specs.Partitions as partitions;
ghost use Rattle.slate_types.specs.Partitions.{CanHold, covering_end, covering_start, first_including, last_including, past_unless_at};

use crate::bytes_range::is_before;
use std::ops::{Bound, Range};

/// Keys in partitions that follow one another. A partition's keys are not below its first key, nor below
/// any key of the partitions before it, and a key may stand in several.
pub trait RangePartitionedKeySpace {
    /// The first keys of the partitions.
    ghost first_keys: { Self → List (List ℕ) };

    /// The number of partitions.
    fn partitions(&self) -> usize
        ensures { result ≡ length (first_keys self.now) };

    /// The first key of a partition.
    fn partition_first_key(&self, partition: usize) -> &[u8]
        requires { partition < length (first_keys self.now) }
        ensures { slice_get (first_keys self.now) partition ≡ Some result.now };

    /// First keys don't fall.
    ghost rising: { (space : Self) → IsSorted key_cmp (first_keys space) };
}

/// The number of partitions whose first keys pass a test that no first key passes behind one that fails.
pub fn partition_point<K: RangePartitionedKeySpace, P: Fn(&[u8]) -> bool>(
    space: &K,
    pred: P,
) -> usize
    requires callable { P.IsAlwaysCallable pred }
    requires front { (i j : ℕ) (k l : _) (passes : Bool) → i ≤ j → slice_get (K.first_keys space.now) i ≡ Some k.now → slice_get (K.first_keys space.now) j ≡ Some l.now → P.post pred l true → P.post pred k passes → passes ≡ true }
    ensures within { result ≤ length (K.first_keys space.now) }
    ensures before { (i : ℕ) (k : _) (passes : Bool) → i < result → slice_get (K.first_keys space.now) i ≡ Some k.now → P.post pred k passes → passes ≡ true }
    ensures behind { (i : ℕ) (k : _) (passes : Bool) → result ≤ i → slice_get (K.first_keys space.now) i ≡ Some k.now → P.post pred k passes → passes ≡ false }
{
    let mut low = 0;
    let mut high = space.partitions();
    while low < high {
        let middle = low + (high - low) / 2;
        if pred(space.partition_first_key(middle)) {
            low = middle + 1;
        } else {
            high = middle;
        }
    }
    low
}

/// The first partition that can hold the key: the last of those that begin below it, else the first where it
/// begins at the key. `None` exactly where no partition can hold it.
pub fn first_partition_including_key<K: RangePartitionedKeySpace>(
    space: &K,
    key: &[u8],
) -> Option<usize>
    ensures { result ≡ first_including (K.first_keys space.now) key.now }
{
    match count_to(space, key, false).checked_sub(1) {
        Some(partition) => Some(partition),
        None => begins_at(space, 0, key).then_some(0),
    }
}

/// The first partition that can hold keys from this one on, which is 0 where no partition can hold the key.
pub fn first_partition_including_or_after_key<K: RangePartitionedKeySpace>(
    space: &K,
    key: &[u8],
) -> usize
    ensures { result ≡ unwrap_or (first_including (K.first_keys space.now) key.now) 0 }
{
    first_partition_including_key(space, key).unwrap_or(0)
}

/// The last partition that can hold the key: the last of those that don't begin past it. `None` exactly where
/// there is none.
pub fn last_partition_including_key<K: RangePartitionedKeySpace>(
    space: &K,
    key: &[u8],
) -> Option<usize>
    ensures { result ≡ last_including (K.first_keys space.now) key.now }
{
    count_to(space, key, true).checked_sub(1)
}

/// Partitions of the keys between two bounds that make a range. Each partition that can hold such a key is
/// among them.
pub fn partitions_covering_range<K: RangePartitionedKeySpace>(
    space: &K,
    start: Bound<&[u8]>,
    end: Bound<&[u8]>,
) -> Range<usize>
    requires { is_refused (bound_now start) (bound_now end) ≡ false }
    ensures start { result.start ≡ covering_start (K.first_keys space.now) (bound_now start.entry) }
    ensures end { result.end ≡ covering_end (K.first_keys space.now) result.start (bound_now end.entry) }
    ensures ordered { result.start ≤ result.end }
    ensures within { result.end ≤ length (K.first_keys space.now) }
    ensures each { (i : ℕ) (k : List ℕ) → CanHold (K.first_keys space.now) i k → in_range (record { start = bound_now start.entry; end = bound_now end.entry }) k ≡ true → (result.start ≤ i) × (i < result.end) }
{
    let first = first_covering(space, start);
    first..end_covering(space, first, end)
}

/// The first partition that can hold keys past the start.
fn first_covering<K: RangePartitionedKeySpace>(space: &K, start: Bound<&[u8]>) -> usize
    ensures { result ≡ covering_start (K.first_keys space.now) (bound_now start.entry) }
{
    match start {
        Bound::Included(key) | Bound::Excluded(key) => {
            first_partition_including_or_after_key(space, key)
        }
        Bound::Unbounded => 0,
    }
}

/// The number one past the partitions that can hold keys before the end, or the first one's where there is none.
fn end_covering<K: RangePartitionedKeySpace>(space: &K, first: usize, end: Bound<&[u8]>) -> usize
    ensures { result ≡ covering_end (K.first_keys space.now) first (bound_now end.entry) }
{
    match end {
        Bound::Included(key) => match count_to(space, key, true) {
            0 => first,
            count => count,
        },
        Bound::Excluded(key) => end_before(space, first, key),
        Bound::Unbounded => space.partitions(),
    }
}

/// The end before an excluded key.
fn end_before<K: RangePartitionedKeySpace>(space: &K, first: usize, key: &[u8]) -> usize
    ensures { result ≡ past_unless_at (K.first_keys space.now) key.now first (last_including (K.first_keys space.now) key.now) }
{
    match count_to(space, key, true) {
        0 => first,
        count if begins_at(space, count - 1, key) => count - 1,
        count => count,
    }
}

/// How many first keys are below the key, or not past it where `upto` counts a first key that is the key.
fn count_to<K: RangePartitionedKeySpace>(space: &K, key: &[u8], upto: bool) -> usize
    ensures { result ≡ partitions.count_to upto (K.first_keys space.now) key.now }
{
    partition_point(
        space,
        |first| -> bool
            ensures { result ≡ partitions.counts upto first.now key.entry.now }
        { is_before(first, key, upto) },
    )
}

/// Whether there is such a partition, and the key is its first.
fn begins_at<K: RangePartitionedKeySpace>(space: &K, partition: usize, key: &[u8]) -> bool
    ensures { result ≡ partitions.begins_at (K.first_keys space.now) partition key.now }
{
    partition < space.partitions() && space.partition_first_key(partition) == key
}
