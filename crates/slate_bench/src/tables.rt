//! Building a table, putting it into a store in memory, and reading it from there.
ghost use Rattle.std.specs.Prelude.{◌≡◌, ◌≤◌, ◌+◌, length, OnOk};

use crate::blocks;
use crate::report::{Report, name_of};
use crate::sums::Sums;
use anyhow::Error;
use bytes::Bytes;
use slate_block::Block;
use slate_store::MemoryStore;
use slate_table::{
    EncodedSsTable, EncodedSsTableBuilder, SsTableFormat, SsTableHandle, SstIndex, TableStore,
};
use slate_types::{BlockFormat, BlockTransformer, RowEntry, SlateDBError, TransformError, Ulid};
use std::alloc::Global;
use std::time::Instant;

/// The folder of the tables.
pub const ROOT: &str = "db";

/// No transformer is used.
#[derive(Drop)]
struct Plain;

impl BlockTransformer for Plain {
    ghost encoded = { λ _ bytes. bytes };

    ghost decoded = { λ _ bytes. bytes };

    ghost faults = { λ _. 0 };

    fn encode(&mut self, _alloc: Global, bytes: Bytes) -> Result<Bytes, TransformError> {
        Ok(bytes)
    }

    fn decode(&mut self, _alloc: Global, bytes: Bytes) -> Result<Bytes, TransformError> {
        Ok(bytes)
    }
}

/// Builds the table of the rows, stores it and reads all of it, and reports both. `version` is 1 or 2.
pub fn measure(report: &Report, rows: &[RowEntry], version: u16) -> Result<(), Error> {
    let start = report.start()?;
    let table = build(report.alloc(), rows, version, Ulid(1))?;
    let mut store = MemoryStore::new(report.alloc(), Vec::new(report.alloc()));
    let measured = measure_in(report, &mut store, &table, rows.len(), version, start);
    // The table stands until it was read, beside its bytes in the store.
    drop((table, store));
    measured
}

fn measure_in(
    report: &Report,
    store: &mut MemoryStore,
    table: &EncodedSsTable,
    rows: usize,
    version: u16,
    start: Instant,
) -> Result<(), Error> {
    let handle = TableStore::put_table(report.alloc(), store, ROOT, table.id(), table)?;
    let done = counts(report.alloc(), rows, table);
    let name = name_of(version, "build table v1", "build table v2");
    let measured = match report.finish(name, done, start) {
        Ok(()) => measure_reading(report, store, &handle, version),
        Err(error) => Err(error),
    };
    drop(handle);
    measured
}

/// What is said of a table that holds so many rows.
fn counts(alloc: Global, rows: usize, table: &EncodedSsTable) -> Result<String, SlateDBError> {
    let bytes = table.remaining_as_bytes()?;
    let len = bytes.len();
    drop(bytes);
    format!(in alloc; "{rows} rows, {len} bytes").map_err(SlateDBError::from)
}

fn measure_reading(
    report: &Report,
    store: &mut MemoryStore,
    handle: &SsTableHandle,
    version: u16,
) -> Result<(), Error> {
    let start = report.start()?;
    let done = read(report.alloc(), store, handle);
    let name = name_of(version, "read table v1", "read table v2");
    report.finish(name, done, start)
}

/// The table of an id and of the rows, in blocks of 4 KiB. `version` is 1 or 2. Refuses by `EmptyBlock` where there is no row, and as `add` does.
pub fn build(
    alloc: Global,
    rows: &[RowEntry],
    version: u16,
    id: Ulid,
) -> Result<EncodedSsTable, SlateDBError> {
    if rows.is_empty() {
        return Err(SlateDBError::EmptyBlock);
    }
    let mut builder = EncodedSsTableBuilder::new(alloc, &format_of(version), id)?;
    add_all(alloc, &mut builder, rows)?;
    builder.build(alloc, &mut None::<Plain>, &[])
}

fn format_of(version: u16) -> SsTableFormat
    ensures { result.block_size ≡ 4096 }
{
    SsTableFormat {
        block_size: blocks::BLOCK_SIZE,
        min_filter_keys: 0,
        block_format: if version == 1 {
            BlockFormat::V1
        } else {
            BlockFormat::V2
        },
        compression_codec: None,
    }
}

/// Adds rows, one behind the other. Refuses as `add` does.
fn add_all(
    alloc: Global,
    builder: &mut EncodedSsTableBuilder,
    rows: &[RowEntry],
) -> Result<(), SlateDBError>
    ensures rows { OnOk result (length rows.now ≤ length builder.new.rows) }
{
    for row in rows {
        add(alloc, builder, row)?;
    }
    Ok(())
}

/// Adds a row. Refuses it as `blocks::check_lengths` does, and by `InvalidSequenceOrder` where it doesn't follow the others.
fn add(
    alloc: Global,
    builder: &mut EncodedSsTableBuilder,
    row: &RowEntry,
) -> Result<(), SlateDBError>
    ensures rows { OnOk result (length builder.new.rows ≡ length builder.old.rows + 1) }
{
    blocks::check_lengths(row)?;
    if !builder.follows(row) {
        return Err(SlateDBError::InvalidSequenceOrder {
            current_seq: row.seq,
            next_seq: row.seq,
        });
    }
    builder
        .add(alloc, row.clone()?, &mut None::<Plain>)
        .map(drop)
}

/// Reads the rows of a table, block by block, and says what was read.
fn read(
    alloc: Global,
    store: &mut MemoryStore,
    table: &SsTableHandle,
) -> Result<String, SlateDBError> {
    let index = TableStore::read_index(alloc, store, ROOT, table, &mut None::<Plain>)?;
    let done = read_indexed(alloc, store, table, &index);
    drop(index);
    done
}

/// Reads the rows of a table that has the index, and says what was read.
fn read_indexed(
    alloc: Global,
    store: &mut MemoryStore,
    table: &SsTableHandle,
    index: &SstIndex,
) -> Result<String, SlateDBError> {
    let mut sums = Sums::default();
    for at in 0..index.len() {
        let blocks = TableStore::read_blocks(
            alloc,
            store,
            ROOT,
            table,
            index,
            at..at + 1,
            &mut None::<Plain>,
        )?;
        take_blocks(alloc, blocks, table.format_version, &mut sums)?;
    }
    sums.text(alloc)
}

/// Counts the rows of blocks.
fn take_blocks(
    alloc: Global,
    blocks: Vec<Block>,
    version: u16,
    sums: &mut Sums,
) -> Result<(), SlateDBError> {
    for block in blocks {
        sums.take_block(alloc, block, version)?;
    }
    Ok(())
}
