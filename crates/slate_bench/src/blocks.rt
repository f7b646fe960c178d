//! Encoding and decoding blocks of 4 KiB.
ghost use Rattle.std.specs.Prelude.{OnOk};
ghost use Rattle.slate_block.specs.Building.{CanTake};

use crate::report::{Report, name_of};
use crate::sums::Sums;
use anyhow::Error;
use bytes::Bytes;
use slate_block::{Block, BlockBuilder};
use slate_types::{RowEntry, SlateDBError};
use std::alloc::Global;
use std::mem;

/// The size of a block in bytes.
pub const BLOCK_SIZE: u32 = 4096;

/// The greatest length of a key.
const MAX_KEY_LEN: usize = 65535;

/// The greatest length of a value.
const MAX_VALUE_LEN: usize = 4_294_967_295;

/// Encodes the rows into blocks and decodes these, and reports both. `version` is 1 or 2.
pub fn measure(report: &Report, rows: &[RowEntry], version: u16) -> Result<(), Error> {
    let start = report.start()?;
    let blocks = encode_blocks(report.alloc(), rows, version)?;
    let done = counts(report.alloc(), rows.len(), &blocks);
    report.finish(name_of(version, "encode v1", "encode v2"), done, start)?;
    let start = report.start()?;
    let done = decode_blocks(report.alloc(), &blocks, version);
    report.finish(name_of(version, "decode v1", "decode v2"), done, start)
}

/// What is said of blocks that hold so many rows.
fn counts(alloc: Global, rows: usize, blocks: &[Bytes]) -> Result<String, SlateDBError> {
    format!(in alloc;
        "{rows} rows, {} blocks, {} bytes",
        blocks.len(),
        bytes_in(blocks)
    )
    .map_err(SlateDBError::from)
}

fn new_builder(alloc: Global, version: u16) -> Result<BlockBuilder, SlateDBError> {
    if version == 1 {
        BlockBuilder::new_v1(alloc, BLOCK_SIZE)
    } else {
        BlockBuilder::new_v2(alloc, BLOCK_SIZE)
    }
}

/// The blocks of the rows, each with as many as fit.
fn encode_blocks(
    alloc: Global,
    rows: &[RowEntry],
    version: u16,
) -> Result<Vec<Bytes>, SlateDBError> {
    let mut blocks = Vec::new(alloc);
    let mut builder = new_builder(alloc, version)?;
    for row in rows {
        add_in_turn(alloc, &mut blocks, &mut builder, row, version)?;
    }
    blocks.push(encode(alloc, builder)?)?;
    Ok(blocks)
}

/// Adds a row to the block, or where it doesn't fit ends the block and adds the row to the next one.
fn add_in_turn(
    alloc: Global,
    blocks: &mut Vec<Bytes>,
    builder: &mut BlockBuilder,
    row: &RowEntry,
    version: u16,
) -> Result<(), SlateDBError> {
    if add(builder, row)? {
        return Ok(());
    }
    let full = mem::replace(builder, new_builder(alloc, version)?);
    blocks.push(encode(alloc, full)?)?;
    add(builder, row).map(drop)
}

/// Adds a row, or answers false where it doesn't fit. Refuses as `check_lengths` does, or by `OutOfMemory`.
fn add(builder: &mut BlockBuilder, row: &RowEntry) -> Result<bool, SlateDBError> {
    check_lengths(row)?;
    builder.add(row.clone()?)
}

/// Refuses a row that no block takes, by `KeyTooLong` or `ValueTooLong`.
pub fn check_lengths(row: &RowEntry) -> Result<(), SlateDBError>
    ensures { OnOk result (CanTake row.now) }
{
    let key_len = row.key.len();
    if key_len > MAX_KEY_LEN {
        return Err(SlateDBError::KeyTooLong {
            len: key_len as u64,
        });
    }
    let value_len = row.value.len();
    if value_len > MAX_VALUE_LEN {
        return Err(SlateDBError::ValueTooLong {
            len: value_len as u64,
        });
    }
    Ok(())
}

fn encode(alloc: Global, builder: BlockBuilder) -> Result<Bytes, SlateDBError> {
    builder.build()?.encode(alloc)
}

/// How many bytes the blocks have.
fn bytes_in(blocks: &[Bytes]) -> u64 {
    let mut len = 0u64;
    for block in blocks {
        len = len.saturating_add(block.len() as u64);
    }
    len
}

/// Reads the rows of all blocks, and says what was read.
fn decode_blocks(alloc: Global, blocks: &[Bytes], version: u16) -> Result<String, SlateDBError> {
    let mut sums = Sums::default();
    for bytes in blocks {
        let block = Block::decode(alloc, bytes.clone()?)?;
        sums.take_block(alloc, block, version)?;
    }
    sums.text(alloc)
}
