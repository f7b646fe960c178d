//! The value of a row, as its bytes say it.
ghost use Rattle.std.specs.Prelude.{◌≡◌};
ghost use Rattle.slate_block.specs.RowReading.{value_of};

use crate::flags::RowFlags;
use bitflags::Flags;
use bytes::Bytes;
use slate_types::ValueDeletable;

/// The value of a row with these flags.
pub fn value_of(flags: RowFlags, bytes: Bytes) -> ValueDeletable
    ensures { result ≡ value_of flags bytes }
{
    if flags.contains(RowFlags::TOMBSTONE) {
        drop(bytes);
        return ValueDeletable::Tombstone;
    }
    if flags.contains(RowFlags::MERGE_OPERAND) {
        return ValueDeletable::Merge(bytes);
    }
    ValueDeletable::Value(bytes)
}
