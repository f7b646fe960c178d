//! Keys of rows of version 1, compared where they stand: a front of the block's first key, and a suffix.
ghost use Rattle.std.specs.Prelude.{◌≡◌, ◌<◌, ◌++◌, ℕ, Some, Ok, length, slice_get, IfSome};
ghost use Rattle.slate_types.specs.declared.types.RowEntry.{RowEntry};
ghost use Rattle.slate_types.specs.Iteration.{comes_before};
ghost use Rattle.slate_types.specs.Keys.{key_cmp};
ghost use Rattle.slate_block.specs.declared.row.SstRowEntry.{SstRowEntry};
ghost use Rattle.slate_block.specs.BlockSpelling.{whole_key};
ghost use Rattle.slate_block.specs.RowReading.{row_v1_of};
ghost use Rattle.slate_block.specs.Walks.{reads_v1};

use crate::fields::key_fields_v1;
use crate::places::place_behind;
use bytes::Bytes;
use slate_types::IterationOrder;
use std::cmp::Ordering;

/// The order of the key of two parts and another key.
pub(crate) fn cmp_parts(front: &[u8], suffix: &[u8], key: &[u8]) -> Ordering
    ensures { result ≡ key_cmp (front.now ++ suffix.now) key.now }
{
    let len = front.len().min(key.len());
    front.cmp(&key[..len]).then(suffix.cmp(&key[len..]))
}

/// Whether the order puts the key of a block's row before the key, or `None` where the row is refused, and where only the
/// whole of it tells.
pub fn is_before_at(
    order: IterationOrder,
    body: &Bytes,
    first: &[u8],
    offsets: &[u16],
    index: usize,
    key: &[u8],
) -> Option<bool>
    requires { index < length offsets.now }
    ensures { IfSome result (λ before. (row : RowEntry) → slice_get (reads_v1 body.now first.now offsets.now (length body.now)) index ≡ Some (Ok row) → before ≡ comes_before order row.key key.now) }
{
    let from = offsets[index] as usize;
    let upto = place_behind(body, offsets, index);
    if upto < from || body.len() < upto {
        return None;
    }
    let bytes = &body.as_slice()[from..upto];
    let (shared, (suffix_at, suffix_end)) = key_fields_v1(bytes).ok()?;
    let shared = shared as usize;
    if shared > first.len() {
        return None;
    }
    let parts = cmp_parts(&first[..shared], &bytes[suffix_at..suffix_end], key);
    Some(match order {
        IterationOrder::Ascending => parts.is_lt(),
        IterationOrder::Descending => parts.is_gt(),
    })
}
