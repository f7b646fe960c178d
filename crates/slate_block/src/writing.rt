//! The parts of a row, written behind one another.
ghost use Rattle.std.specs.Prelude.{◌≡◌, ◌+◌, ◌≤◌, ◌<◌, ◌^◌, ◌++◌, length, vec_len, vec_capacity};
ghost use Rattle.slate_types.specs.Rows.{bytes_of};
ghost use Rattle.slate_block.specs.RowSpelling.{stamp_bytes, meta_bytes, v1_value, be32};

use crate::flags::RowFlags;
use slate_types::ValueDeletable;

/// What a row has beside the suffix of its key and its value is no longer than this, in any version.
pub const MAX_FIELDS_LEN: usize = 40;

/// Appends bytes for which there is room.
pub fn put(out: &mut Vec<u8>, bytes: &[u8])
    requires { vec_len out.old + length bytes.now ≤ vec_capacity out.old }
    ensures appended { out.new.items ≡ out.old.items ++ bytes.now }
    ensures len { vec_len out.new ≡ vec_len out.old + length bytes.now }
    ensures capacity { vec_capacity out.old ≤ vec_capacity out.new }
{
    out.extend_from_slice(bytes).unwrap();
}

/// The bytes of a value or of a merge operand, and none of a tombstone.
pub fn value_bytes(value: &ValueDeletable) -> &[u8]
    ensures { result.now ≡ bytes_of value.now }
{
    match value {
        ValueDeletable::Value(bytes) | ValueDeletable::Merge(bytes) => bytes.as_slice(),
        ValueDeletable::Tombstone => &[],
    }
}

fn put_stamp(out: &mut Vec<u8>, stamp: Option<i64>)
    requires { vec_len out.old + 8 ≤ vec_capacity out.old }
    ensures appended { out.new.items ≡ out.old.items ++ stamp_bytes stamp }
    ensures len { vec_len out.new ≤ vec_len out.old + 8 }
    ensures capacity { vec_capacity out.old ≤ vec_capacity out.new }
{
    if let Some(stamp) = stamp {
        put(out, &stamp.to_be_bytes());
    }
}

/// Appends the sequence, the flags and the stamps of a row, for which there is room.
pub fn put_meta(
    out: &mut Vec<u8>,
    seq: u64,
    value: &ValueDeletable,
    expire_ts: Option<i64>,
    create_ts: Option<i64>,
)
    requires { vec_len out.old + 25 ≤ vec_capacity out.old }
    ensures appended { out.new.items ≡ out.old.items ++ meta_bytes seq value.now expire_ts create_ts }
    ensures len { vec_len out.new ≤ vec_len out.old + 25 }
    ensures capacity { vec_capacity out.old ≤ vec_capacity out.new }
{
    put(out, &seq.to_be_bytes());
    out.push_reserved(RowFlags::of_row(value, expire_ts, create_ts).0);
    put_stamp(out, expire_ts);
    put_stamp(out, create_ts);
}

/// Appends the value of a row of version 1, with its length, for which there is room; nothing for a tombstone.
pub fn put_value_v1(out: &mut Vec<u8>, value: &ValueDeletable)
    requires len { length (bytes_of value.now) < 2 ^ 32 }
    requires room { vec_len out.old + 4 + length (bytes_of value.now) ≤ vec_capacity out.old }
    ensures { out.new.items ≡ out.old.items ++ v1_value value.now }
{
    if !value.is_tombstone() {
        let bytes = value_bytes(value);
        put(out, &(bytes.len() as u32).to_be_bytes());
        put(out, bytes);
    }
}
