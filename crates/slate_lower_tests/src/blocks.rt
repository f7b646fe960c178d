// Rows and blocks as bytes that were written elsewhere, and a block that is built row by row.
ghost use Rattle.std.specs.Prelude.{◌<◌, ◌^◌, length};
ghost use Rattle.slate_block.specs.Building.{CanTake};

use crate::listing::is_bytes;
use bytes::Bytes;
use slate_block::{Block, BlockBuilder, SstRowCodecV0, SstRowCodecV2};
use slate_types::{RowEntry, ValueDeletable};
use std::alloc::Global;

const ROW_OF_V1: &[u8] = b"\x00\x05\x00\x05merge\x00\x00\x00\x00\x00\x00\x00\x01\x0e\
\x00\x00\x00\x00\x00\x00\x00\x01\x00\x00\x00\x00\x00\x00\x00\x02\x00\x00\x00\x05value";

const ROW_OF_V2: &[u8] = b"\x03\x03\x03abcxyz\x00\x00\x00\x00\x00\x00\x00\x01\x00";

// A block of the row a at 1 with the value 1, created at 0, in version 1.
const BLOCK_OF_V1: &[u8] =
    b"\x00\x00\x00\x01a\x00\x00\x00\x00\x00\x00\x00\x01\x04\x00\x00\x00\x00\x00\x00\x00\x00\x00\x00\x00\x011\x00\x00\x00\x01";

// A block of the rows abc and abd at 1 with the values x and y, in version 2.
const BLOCK_OF_V2: &[u8] =
    b"\x00\x03\x01abcx\x00\x00\x00\x00\x00\x00\x00\x01\x00\x02\x01\x01dy\x00\x00\x00\x00\x00\x00\x00\x01\x00\x00\x00\x00\x01";

// Whether the bytes are one row, which is written as they are, and has this key behind the first of its block.
fn is_row_of_v1(alloc: Global, bytes: &'static [u8], first: &[u8], key: &[u8]) -> bool {
    let mut input = Bytes::from_static(bytes);
    let row = SstRowCodecV0::decode(&mut input).ok();
    let is_all = input.is_empty();
    drop(input);
    let Some(row) = row else { return false };
    let mut out = Vec::new(alloc);
    let written = SstRowCodecV0::encode(&mut out, &row).ok();
    let found = row.restore_full_key(alloc, first).ok();
    drop(row);
    is_bytes(found, key) && is_all && written.is_some() && out.as_slice() == bytes
}

// The same in version 2, where the key lies behind that of the row before.
fn is_row_of_v2(alloc: Global, bytes: &'static [u8], previous: &[u8], key: &[u8]) -> bool {
    let mut input = Bytes::from_static(bytes);
    let row = SstRowCodecV2::decode(&mut input).ok();
    let is_all = input.is_empty();
    drop(input);
    let Some(row) = row else { return false };
    let mut out = Vec::new(alloc);
    let written = SstRowCodecV2::encode(&mut out, &row).ok();
    let found = row.restore_full_key(alloc, previous).ok();
    drop(row);
    is_bytes(found, key) && is_all && written.is_some() && out.as_slice() == bytes
}

// Whether the row shares so much of a key, and has this suffix.
fn has_front(bytes: &'static [u8], shared: u32, suffix: &[u8]) -> bool {
    let mut input = Bytes::from_static(bytes);
    let front = SstRowCodecV2::decode_key_only(&mut input).ok();
    drop(input);
    match front {
        Some((len, key)) => is_bytes(Some(key), suffix) && len == shared,
        None => false,
    }
}

// Whether a block's bytes are written again, with its rows before the two bytes each of its one offset and its count.
fn is_copied_block(alloc: Global, bytes: &'static [u8]) -> bool {
    match Block::decode(alloc, Bytes::from_static(bytes)).ok() {
        Some(block) => {
            let len = block.body.len();
            is_bytes(encoded(alloc, block), bytes) && len.saturating_add(4) == bytes.len()
        }
        None => false,
    }
}

fn encoded(alloc: Global, block: Block) -> Option<Bytes>
    requires { length block.offsets.items < 2 ^ 16 }
{
    let bytes = block.encode(alloc);
    drop(block);
    bytes.ok()
}

#[test]
fn rows_are_read_and_written(rt: HostRuntime) {
    assert!(rt; is_row_of_v1(rt.alloc(), ROW_OF_V1, b"happybeefdata", b"happymerge"));
}

#[test]
fn rows_of_v2_are_read_and_written(rt: HostRuntime) {
    assert!(rt;
        is_row_of_v2(rt.alloc(), ROW_OF_V2, b"key of the row before", b"keyabc")
            && has_front(ROW_OF_V2, 3, b"abc")
    );
}

#[test]
fn blocks_are_taken_apart(rt: HostRuntime) {
    assert!(rt;
        is_copied_block(rt.alloc(), BLOCK_OF_V1) && is_copied_block(rt.alloc(), BLOCK_OF_V2)
    );
}

/// The row a at 1 with the value 1, created at 0.
pub fn row() -> RowEntry
    ensures { CanTake result }
{
    RowEntry {
        key: Bytes::from_static(b"a"),
        value: ValueDeletable::Value(Bytes::from_static(b"1")),
        seq: 1,
        create_ts: Some(0),
        expire_ts: None,
    }
}

fn built(alloc: Global) -> Option<Bytes> {
    let Some(mut builder) = BlockBuilder::new_v1(alloc, 4096).ok() else {
        return None;
    };
    let taken = builder.add(row()).ok();
    match builder.build().ok() {
        Some(block) => taken.and(encoded(alloc, block)),
        None => None,
    }
}

#[test]
fn blocks_are_built(rt: HostRuntime) {
    assert!(rt; is_bytes(built(rt.alloc()), BLOCK_OF_V1));
}
