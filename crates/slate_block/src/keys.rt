//! Fronts that keys share, and keys whose front was left out.
ghost use Rattle.std.specs.Prelude.{◌≡◌, ◌≤◌, ◌⊎◌, ◌++◌, nat_eq, length, min, take, OnOk, IfOk, IfErr, IsOkUnless};
ghost use Rattle.std.specs.List.{common_prefix_len};
ghost use Rattle.slate_block.specs.BlockSpelling.{whole_key};
ghost use Rattle.slate_block.specs.WholeKeys.{IsRestored};
ghost use Rattle.slate_block.specs.Walks.{is_restored};

use crate::writing::put;
use bytes::Bytes;
use slate_types::SlateDBError;
use std::alloc::Global;

/// Bytes that are compared at once.
const CHUNK: usize = 8;

/// The greatest length of a key.
const MAX_KEY_LEN: usize = 65535;

/// The length of the longest front that both share.
pub fn compute_prefix(lhs: &[u8], rhs: &[u8]) -> usize
    ensures { result ≡ common_prefix_len nat_eq lhs.now rhs.now }
{
    let len = lhs.len().min(rhs.len());
    let mut at = shared_chunks(lhs, rhs);
    while at < len && lhs[at] == rhs[at] {
        at += 1;
    }
    at
}

/// A shared front, chunk by chunk.
fn shared_chunks(lhs: &[u8], rhs: &[u8]) -> usize
    ensures within { result ≤ min (length lhs.now) (length rhs.now) }
    ensures shared { take result lhs.now ≡ take result rhs.now }
{
    let len = lhs.len().min(rhs.len());
    let mut at = 0;
    while CHUNK <= len - at && lhs[at..at + CHUNK] == rhs[at..at + CHUNK] {
        at += CHUNK;
    }
    at
}

/// Whether so many bytes of another key and a suffix are a key.
pub(crate) fn is_restored(shared: usize, other: &[u8], suffix: &[u8]) -> bool
    ensures { result ≡ is_restored shared other.now suffix.now }
{
    shared <= other.len() && 0 < shared + suffix.len() && shared + suffix.len() <= MAX_KEY_LEN
}

/// The key of so many bytes of another key and the suffix, whose buffer it shares where it is the suffix alone.
/// `CorruptTable` at 0 where the other has fewer bytes, and where the whole is empty or longer than a key; or `OutOfMemory`.
pub fn restored_key(
    alloc: Global,
    shared: usize,
    other: &[u8],
    suffix: &Bytes,
) -> Result<Bytes, SlateDBError>
    ensures key { IfOk result (λ key. key ≡ whole_key shared other.now suffix.now) }
    ensures valid { OnOk result (IsRestored shared other.now suffix.now) }
    ensures only { IsRestored shared other.now suffix.now → IsOkUnless result SlateDBError.OutOfMemory }
    ensures cause { IfErr result (λ e. (e ≡ SlateDBError.OutOfMemory) ⊎ (e ≡ SlateDBError.CorruptTable 0)) }
{
    if shared > other.len() {
        return Err(SlateDBError::CorruptTable { place: 0 });
    }
    let len = shared + suffix.len();
    if len == 0 || len > MAX_KEY_LEN {
        return Err(SlateDBError::CorruptTable { place: 0 });
    }
    if shared == 0 {
        return suffix.clone().map_err(SlateDBError::from);
    }
    let mut key = Vec::with_capacity(alloc, len)?;
    put(&mut key, &other[..shared]);
    put(&mut key, suffix.as_slice());
    Bytes::from_vec(key).map_err(SlateDBError::from)
}
