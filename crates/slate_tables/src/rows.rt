//! The rows of a table, block by block.
ghost use Rattle.std.specs.Prelude.{◌≡◌, ◌<◌, ◌⊎◌, string_bytes, length, Ok, Err, IfOk, IfErr};
ghost use Rattle.slate_types.specs.Outside.{IsFault, IsStill, OnlyReads, Reach};
ghost use Rattle.slate_types.specs.Refusing.{IsDamage};
ghost use Rattle.slate_block.specs.BlockWalks.{left};
ghost use Rattle.slate_block.specs.EitherVersion.{left_of};
ghost use Rattle.slate_block.specs.ReadingLaws.{EachIsAByte};
ghost use Rattle.slate_table.specs.FileReading.{rows_in};
ghost use Rattle.slate_table.specs.IndexValue.{entries_of};
ghost use Rattle.slate_tables.specs.Finds.{FindsBlock, FindsRowsOf, RefusesBlockAt, RefusesRowsOf};
ghost use Rattle.slate_tables.specs.Finds.{asked_of, reader_reach};

use slate_block::{Block, DataBlockIterator};
use slate_store::Store;
use slate_table::{SsTableHandle, SstIndex, SstReader, TableStore};
use slate_types::{BlockTransformer, IterationOrder, RowEntry, SlateDBError};
use std::alloc::Global;

/// Returns the rows of a block, by one read of its section, which the index names. `StoreFault`,
/// only if the store's count of faults rose; `CorruptTable` at 0 if the section isn't there in full
/// or is shorter than a checksum, then `ChecksumMismatch`, then `BlockTransformError`, only if the
/// transformer's count rose, then `CorruptTable` or `InvalidRowFlags` at the first field that is no
/// block's; or `OutOfMemory`.
pub fn block_rows<S: Store, T: BlockTransformer>(
    alloc: Global,
    reader: &mut SstReader<S, T>,
    table: &SsTableHandle,
    index: &SstIndex,
    block: usize,
) -> Result<Vec<RowEntry>, SlateDBError>
    requires { block < length (entries_of index.now) }
    ensures found { let reach = reader_reach S.Store T.BlockTransformer in
        (begun : Reach) → OnlyReads begun (reach reader.old) →
        IfOk result (λ rows. FindsRowsOf
        (asked_of begun (string_bytes reader.old.root_path) (reach reader.new).acts) table.now
        (entries_of index.now) block rows.items) }
    ensures cause { let reach = reader_reach S.Store T.BlockTransformer in
        (begun : Reach) → OnlyReads begun (reach reader.old) →
        IfErr result (λ e. IsFault (reach reader.old) (reach reader.new) e
        ⊎ (IsDamage e × RefusesRowsOf
        (asked_of begun (string_bytes reader.old.root_path) (reach reader.new).acts) table.now
        (entries_of index.now) block e)) }
    ensures root { reader.new.root_path ≡ reader.old.root_path }
    ensures reads { let reach = reader_reach S.Store T.BlockTransformer in
        OnlyReads (reach reader.old) (reach reader.new) }
    ensures counts { let reach = reader_reach S.Store T.BlockTransformer in
        IsStill (reach reader.old).faults (reach reader.new).faults result }
{
    match one_block(alloc, reader, table, index, block) {
        Ok(found) => {
            let rows = rows_of_block(alloc, &found, table.format_version);
            drop(found);
            rows
        }
        Err(error) => Err(error),
    }
}

/// A block, by one read of its section.
fn one_block<S: Store, T: BlockTransformer>(
    alloc: Global,
    reader: &mut SstReader<S, T>,
    table: &SsTableHandle,
    index: &SstIndex,
    block: usize,
) -> Result<Block, SlateDBError>
    requires { block < length (entries_of index.now) }
    ensures found { let reach = reader_reach S.Store T.BlockTransformer in
        (begun : Reach) → OnlyReads begun (reach reader.old) →
        IfOk result (λ found. FindsBlock
        (asked_of begun (string_bytes reader.old.root_path) (reach reader.new).acts) table.now
        (entries_of index.now) block found) }
    ensures cause { let reach = reader_reach S.Store T.BlockTransformer in
        (begun : Reach) → OnlyReads begun (reach reader.old) →
        IfErr result (λ e. IsFault (reach reader.old) (reach reader.new) e
        ⊎ (IsDamage e × RefusesBlockAt
        (asked_of begun (string_bytes reader.old.root_path) (reach reader.new).acts) table.now
        (entries_of index.now) block e)) }
    ensures root { reader.new.root_path ≡ reader.old.root_path }
    ensures reads { let reach = reader_reach S.Store T.BlockTransformer in
        OnlyReads (reach reader.old) (reach reader.new) }
    ensures counts { let reach = reader_reach S.Store T.BlockTransformer in
        IsStill (reach reader.old).faults (reach reader.new).faults result }
{
    let root = reader.root_path.as_str();
    let transformer = &mut reader.transformer;
    let store = &mut reader.store;
    match TableStore::read_blocks(
        alloc,
        store,
        root,
        table,
        index,
        block..block + 1,
        transformer,
    ) {
        Ok(mut found) => {
            let only = found.pop().unwrap();
            drop(found);
            Ok(only)
        }
        Err(error) => Err(error),
    }
}

/// The rows of a block of this version.
fn rows_of_block(alloc: Global, block: &Block, version: u16) -> Result<Vec<RowEntry>, SlateDBError>
    ensures rows { IfOk result (λ rows. rows_in version block.now ≡ Ok rows.items) }
    ensures bytes { EachIsAByte block.now.body }
    ensures cause { IfErr result (λ e. (e ≡ SlateDBError.OutOfMemory)
        ⊎ (rows_in version block.now ≡ Err e)) }
    ensures damage { IfErr result (λ e. (e ≡ SlateDBError.OutOfMemory) ⊎ IsDamage e) }
{
    are_bytes(block.body.as_slice());
    let mut walk = DataBlockIterator::new(alloc, block, version, IterationOrder::Ascending)?;
    all_rows(alloc, &mut walk)
}

/// Each number of bytes is a byte.
fn are_bytes(bytes: &[u8])
    ensures { EachIsAByte bytes.now }
{}

/// All rows that a walk has left.
fn all_rows(
    alloc: Global,
    walk: &mut DataBlockIterator<&Block>,
) -> Result<Vec<RowEntry>, SlateDBError>
    ensures rows { IfOk result (λ rows. left (left_of walk.old) ≡ Ok rows.items) }
    ensures cause { IfErr result (λ e. (e ≡ SlateDBError.OutOfMemory)
        ⊎ (left (left_of walk.old) ≡ Err e)) }
    ensures damage { IfErr result (λ e. (e ≡ SlateDBError.OutOfMemory) ⊎ IsDamage e) }
{
    let mut rows = Vec::new(alloc);
    while let Some(row) = walk.next_row(alloc)? {
        rows.push(row)?;
    }
    Ok(rows)
}
