// Blocks of both versions, walked and sought in both orders.
use crate::listing::{Row, are_rows, walked};
use bytes::Bytes;
use slate_block::{Block, DataBlockIterator};
use slate_types::IterationOrder;
use std::alloc::Global;

// The rows a at 2, a at 1 and b at 3, with the values x, y and z, in version 1.
const BLOCK_OF_V1: &[u8] = b"\x00\x00\x00\x01a\x00\x00\x00\x00\x00\x00\x00\x02\x00\x00\x00\x00\x01x\
\x00\x01\x00\x00\x00\x00\x00\x00\x00\x00\x00\x01\x00\x00\x00\x00\x01y\
\x00\x00\x00\x01b\x00\x00\x00\x00\x00\x00\x00\x03\x00\x00\x00\x00\x01z\x00\x00\x00\x13\x00\x25\x00\x03";

// The rows abc and abd at 1 with the values x and y, in version 2. The second shares two bytes.
const BLOCK_OF_V2: &[u8] =
    b"\x00\x03\x01abcx\x00\x00\x00\x00\x00\x00\x00\x01\x00\x02\x01\x01dy\x00\x00\x00\x00\x00\x00\x00\x01\x00\x00\x00\x00\x01";

// A block and its version, an order, a key to seek, and the rows of the walk.
type Case = (
    &'static [u8],
    u16,
    IterationOrder,
    Option<&'static [u8]>,
    &'static [Row],
);

const UP: IterationOrder = IterationOrder::Ascending;

const DOWN: IterationOrder = IterationOrder::Descending;

const A_2: Row = (b"a", 'v', b"x", 2, None, None);

const A_1: Row = (b"a", 'v', b"y", 1, None, None);

const B_3: Row = (b"b", 'v', b"z", 3, None, None);

const ABC: Row = (b"abc", 'v', b"x", 1, None, None);

const ABD: Row = (b"abd", 'v', b"y", 1, None, None);

const CASES: &[Case] = &[
    (BLOCK_OF_V1, 1, UP, None, &[A_2, A_1, B_3]),
    (BLOCK_OF_V1, 1, DOWN, None, &[B_3, A_1, A_2]),
    (BLOCK_OF_V1, 1, UP, Some(b"b"), &[B_3]),
    (BLOCK_OF_V1, 1, DOWN, Some(b"a"), &[A_1, A_2]),
    (BLOCK_OF_V2, 2, UP, None, &[ABC, ABD]),
    (BLOCK_OF_V2, 2, DOWN, Some(b"abd"), &[ABD, ABC]),
];

fn is_walked(alloc: Global, case: &Case) -> bool {
    let Some(block) = Block::decode(alloc, Bytes::from_static(case.0)).ok() else {
        return false;
    };
    let rows = DataBlockIterator::new(alloc, &block, case.1, case.2);
    let rows = walked(alloc, rows, case.3);
    drop(block);
    are_rows(alloc, rows, case.4)
}

fn are_walked(alloc: Global) -> bool {
    for case in CASES {
        if !is_walked(alloc, case) {
            return false;
        }
    }
    true
}

#[test]
fn blocks_are_walked(rt: HostRuntime) {
    assert!(rt; are_walked(rt.alloc()));
}
