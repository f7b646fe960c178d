// Numbers in groups of bits, the sizes of rows and blocks, and a block of one key's rows.
ghost use Rattle.std.specs.Prelude.{◌≤◌};
ghost use Rattle.slate_block.specs.Building.{CanTake};

use bytes::Bytes;
use slate_block::{
    Block, BlockBuilder, DataBlockIterator, SstRowCodecV2, compute_prefix, decode_varint,
    encode_varint, varint_len,
};
use slate_lower_tests::listing::{is_bytes, walked};
use slate_types::{IterationOrder, RowEntry, SlateDBError, ValueDeletable};
use std::alloc::Global;

// A number and its one spelling.
const SPELLINGS: &[(u32, &[u8])] = &[
    (0, b"\x00"),
    (127, b"\x7f"),
    (300, b"\xac\x02"),
    (16384, b"\x80\x80\x01"),
    (4294967295, b"\xff\xff\xff\xff\x0f"),
];

fn is_written(alloc: Global, number: u32, spelling: &[u8]) -> bool {
    let mut out = Vec::new(alloc);
    let is_written = encode_varint(&mut out, number).is_ok();
    is_written && out.as_slice() == spelling && varint_len(number) == spelling.len()
}

fn is_read(number: u32, spelling: &[u8]) -> bool {
    decode_varint(spelling).ok() == Some((number, spelling.len()))
}

fn are_spelled(alloc: Global) -> bool {
    for (number, spelling) in SPELLINGS {
        if !is_written(alloc, *number, spelling) || !is_read(*number, spelling) {
            return false;
        }
    }
    true
}

#[test]
fn numbers_are_spelled(rt: HostRuntime) {
    assert!(rt; are_spelled(rt.alloc()));
}

fn is_corrupt(spelling: &[u8]) -> bool {
    matches!(
        decode_varint(spelling),
        Err(SlateDBError::CorruptTable { .. })
    )
}

#[test]
fn longer_spellings_are_refused(rt: HostRuntime) {
    assert!(rt; is_corrupt(b"\x80\x00") && is_corrupt(b"\xff\xff\xff\xff\x1f"));
}

// A row in version 2: it shares three bytes of its key, abc is the rest, and xyz its value.
const ROW: &[u8] = b"\x03\x03\x03abcxyz\x00\x00\x00\x00\x00\x00\x00\x01\x00";

// Checks that the lengths and the rest of the key are taken, which have six bytes.
fn takes_the_key() -> bool {
    let mut input = Bytes::from_static(ROW);
    let front = SstRowCodecV2::decode_key_only(&mut input).ok();
    let is_left = input.as_slice() == b"xyz\x00\x00\x00\x00\x00\x00\x00\x01\x00".as_slice();
    drop(input);
    match front {
        Some((shared, suffix)) => is_bytes(Some(suffix), b"abc") && shared == 3 && is_left,
        None => false,
    }
}

#[test]
fn a_key_is_read_alone(rt: HostRuntime) {
    assert!(rt; takes_the_key());
}

// Returns the size of a row of the key hello that shares so many bytes.
fn size_of(value: ValueDeletable, shared: usize) -> u64
    requires { shared ≤ 5 }
{
    let row = RowEntry {
        key: Bytes::from_static(b"hello"),
        value,
        seq: 1,
        create_ts: None,
        expire_ts: None,
    };
    let size = row.encoded_size(shared);
    drop(row);
    size
}

fn value() -> ValueDeletable {
    ValueDeletable::Value(Bytes::from_static(b"val"))
}

fn are_sizes_of_deletions() -> bool {
    size_of(ValueDeletable::Tombstone, 0) == 18
        && size_of(ValueDeletable::Tombstone, 2) == 16
        && size_of(ValueDeletable::Tombstone, 4) == 14
}

fn are_sizes_of_values() -> bool {
    size_of(value(), 0) == 25 && size_of(value(), 2) == 23 && size_of(value(), 4) == 21
}

#[test]
fn rows_have_sizes(rt: HostRuntime) {
    assert!(rt; are_sizes_of_deletions() && are_sizes_of_values());
}

#[test]
fn blocks_are_estimated(rt: HostRuntime) {
    assert!(rt;
        Block::estimate_encoded_size(0, 0, 0) == 0 && Block::estimate_encoded_size(1, 100, 1) == 106
    );
}

#[test]
fn prefixes_are_shared(rt: HostRuntime) {
    assert!(rt;
        compute_prefix(b"1", b"11") == 1
            && compute_prefix(b"222", b"111") == 0
            && compute_prefix(b"1234567", b"123456789") == 7
    );
}

// A row of the key k, without a value.
fn version_of_key(seq: u64) -> RowEntry
    ensures { CanTake result }
{
    RowEntry {
        key: Bytes::from_static(b"k"),
        value: ValueDeletable::Tombstone,
        seq,
        create_ts: None,
        expire_ts: None,
    }
}

// Builds a block in version 2 of forty rows of the key, the newest first.
fn block_of_one_key(alloc: Global) -> Option<Block> {
    let mut builder = BlockBuilder::new_v2(alloc, 4096).ok()?;
    let mut are_taken = true;
    for before in 0..40 {
        are_taken = builder.add(version_of_key(40 - before)).ok() == Some(true) && are_taken;
    }
    let block = builder.build().ok();
    if are_taken { block } else { None }
}

// Checks that these are the rows of the sequences 1 to 40, in this order.
fn rise_from_one(rows: &[RowEntry]) -> bool {
    for (row, seq) in rows.iter().zip(1..41) {
        if row.seq != seq {
            return false;
        }
    }
    rows.len() == 40
}

// Checks that the rows are walked downwards from the last, or from the key.
fn is_walked(alloc: Global, key: Option<&[u8]>) -> bool {
    let Some(block) = block_of_one_key(alloc) else {
        return false;
    };
    let rows = DataBlockIterator::new(alloc, &block, 2, IterationOrder::Descending);
    let rows = walked(alloc, rows, key);
    drop(block);
    match rows {
        Some(rows) => rise_from_one(rows.as_slice()),
        None => false,
    }
}

#[test]
fn rows_of_one_key_are_walked_downwards(rt: HostRuntime) {
    assert!(rt; is_walked(rt.alloc(), None) && is_walked(rt.alloc(), Some(b"k")));
}
