//! Ranges of keys as ranges of keys with sequences.
ghost use Rattle.std.specs.Prelude.{◌≡◌, IfOk, IsOkUnless};
ghost use Rattle.slate_types.specs.declared.error.SlateDBError.{SlateDBError};
ghost use Rattle.slate_mem.specs.KeyRange as places;

use bytes::Bytes;
use slate_types::{BytesRange, SequencedKey, SlateDBError};
use std::alloc::AllocError;
use std::ops::Bound;

/// The keys with sequences between two bounds.
#[derive(Drop)]
pub struct KVTableInternalKeyRange {
    pub start: Bound<SequencedKey>,
    pub end: Bound<SequencedKey>,
}

impl KVTableInternalKeyRange {
    /// All sequences of the keys of a range. Each bound keeps its kind and its key, and has the greatest sequence
    /// where it is an included start or an excluded end, else the sequence 0. The one error is `OutOfMemory`.
    pub fn from_range(range: &BytesRange) -> Result<KVTableInternalKeyRange, SlateDBError>
        ensures start { IfOk result (λ r. r.start ≡ places.first_place range.now.start) }
        ensures end { IfOk result (λ r. r.end ≡ places.last_place range.now.end) }
        ensures cause { IsOkUnless result SlateDBError.OutOfMemory }
    {
        let start = at_sequences(&range.start, u64::MAX, 0)?;
        match at_sequences(&range.end, 0, u64::MAX) {
            Ok(end) => Ok(KVTableInternalKeyRange { start, end }),
            Err(error) => {
                drop(start);
                Err(error.into())
            }
        }
    }
}

/// The bound with the first sequence where it is included, and with the second where it is excluded.
fn at_sequences(
    bound: &Bound<Bytes>,
    included: u64,
    excluded: u64,
) -> Result<Bound<SequencedKey>, AllocError>
    ensures { IfOk result (λ place. place ≡ places.at_sequences bound.now included excluded) }
{
    Ok(match bound {
        Bound::Included(key) => Bound::Included(SequencedKey::new(key.clone()?, included)),
        Bound::Excluded(key) => Bound::Excluded(SequencedKey::new(key.clone()?, excluded)),
        Bound::Unbounded => Bound::Unbounded,
    })
}
