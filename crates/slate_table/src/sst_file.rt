//! Tables that were opened, read part by part.
ghost use Rattle.std.specs.Prelude.{◌≡◌, ◌≤◌, ◌<◌, ◌⊎◌, ◌↔◌, string_bytes, Some, None, Err, Ok, length, OnOk, OnErr, IfOk, IfErr, IfSome};
ghost use Rattle.slate_types.specs.Faults.{faults_of};
ghost use Rattle.slate_block.specs.BlockWalks.{left};
ghost use Rattle.slate_block.specs.EitherVersion.{left_of};
ghost use Rattle.slate_block.specs.ReadingLaws.{EachIsAByte};
ghost use Rattle.slate_table.specs.Paths.{path_of};
ghost use Rattle.slate_table.specs.SectionReading.{changed_by};
ghost use Rattle.slate_table.specs.IndexValue.{entries_of};
ghost use Rattle.slate_table.specs.StatsReading.{stats_of};
ghost use Rattle.slate_table.specs.Reading.{ReadsIndex, ReadsStats, of_index, of_stats, Fits, IsStoreFault, FailsDecoding, IsIndexRead, RefusesIndex, IsStatsRead, RefusesStats};
ghost use Rattle.slate_table.specs.Opening.{IsMeasured};
ghost use Rattle.slate_table.specs.FileReading.{rows_in, ReadsRows, RefusesReadRows, FailsReadRows, MayReadRows, ReadsFittingIndex};

use crate::info::{ObjectMetadata, SsTableHandle, SsTableInfo};
use crate::opening::object_len;
use crate::section::STATS_KIND;
use crate::sst_index::SstIndex;
use crate::sst_reader::SstReader;
use crate::sst_stats::SstStats;
use crate::table_store::{TableStore, read_block, read_part};
use slate_block::fields::corrupt;
use slate_block::{Block, DataBlockIterator};
use slate_store::Store;
use slate_types::{BlockTransformer, IterationOrder, RowEntry, SlateDBError, Ulid};
use std::alloc::Global;

/// A table that was opened. Its parts are read anew by each call, through the reader that is handed in.
#[derive(Drop)]
pub struct SstFile {
    pub handle: SsTableHandle,
}

impl SstFile {
    /// The id of the table.
    pub fn id(&self) -> Ulid
        ensures { result ≡ self.now.handle.id }
    {
        self.handle.id
    }

    /// The first and the last key, and where the sections lie.
    pub fn info(&self) -> &SsTableInfo
        ensures { result.now ≡ self.now.handle.info }
    {
        &self.handle.info
    }

    /// The id and the size in bytes of the table's object, by one call of the store. `StoreFault`, only where the store's count
    /// of faults rose; `CorruptTable` at 0 where there is no object; or `OutOfMemory`.
    pub fn metadata<S: Store, T: BlockTransformer>(
        &self,
        alloc: Global,
        reader: &mut SstReader<S, T>,
    ) -> Result<ObjectMetadata, SlateDBError>
        ensures size { IfOk result (λ metadata. IsMeasured (S.objects reader.old.store) (S.acts reader.old.store) (S.acts reader.new.store) (path_of (string_bytes reader.old.root_path) self.now.handle.id.0) (Some metadata.size)) }
        ensures id { IfOk result (λ metadata. metadata.id ≡ self.now.handle.id) }
        ensures cause { IfErr result (λ e. IsStoreFault (S.faults reader.old.store) (S.faults reader.new.store) e ⊎ (IsMeasured (S.objects reader.old.store) (S.acts reader.old.store) (S.acts reader.new.store) (path_of (string_bytes reader.old.root_path) self.now.handle.id.0) None × (e ≡ SlateDBError.CorruptTable 0))) }
        ensures once { OnErr result ((S.acts reader.new.store ≡ S.acts reader.old.store) ⊎ IsMeasured (S.objects reader.old.store) (S.acts reader.old.store) (S.acts reader.new.store) (path_of (string_bytes reader.old.root_path) self.now.handle.id.0) None) }
        ensures objects { S.objects reader.new.store ≡ S.objects reader.old.store }
        ensures root { reader.new.root_path ≡ reader.old.root_path }
        ensures transformer { reader.new.transformer ≡ reader.old.transformer }
        ensures later { S.faults reader.old.store ≤ S.faults reader.new.store }
        ensures still { (result ≡ Err SlateDBError.StoreFault) ⊎ (S.faults reader.new.store ≡ S.faults reader.old.store) }
    {
        let id = self.handle.id;
        let size = object_len(alloc, &mut reader.store, reader.root_path.as_str(), id)?;
        match size {
            Some(size) => Ok(ObjectMetadata { id, size }),
            None => Err(corrupt(0)),
        }
    }

    /// The statistics, by one read of their section, and `None` exactly where that has the length 0, without a read.
    /// `StoreFault`, only where the store's count of faults rose; `CorruptTable` at 0 where the section isn't there or is
    /// shorter than a checksum, then `ChecksumMismatch`, then `BlockTransformError`, only where the transformer's count rose,
    /// then `CorruptTable` where the part is no statistics; or `OutOfMemory`.
    pub fn stats<S: Store, T: BlockTransformer>(
        &self,
        alloc: Global,
        reader: &mut SstReader<S, T>,
    ) -> Result<Option<SstStats>, SlateDBError>
        ensures none { (result ≡ Ok None) ↔ (self.now.handle.info.stats_len ≡ 0) }
        ensures unread { self.now.handle.info.stats_len ≡ 0 → S.acts reader.new.store ≡ S.acts reader.old.store }
        ensures found { let reads = ReadsStats (S.objects reader.old.store) (S.acts reader.old.store) (S.acts reader.new.store) (string_bytes reader.old.root_path) self.now.handle in
            IfOk result (λ answer. IfSome answer (λ stats. reads (λ answer. IsStatsRead (changed_by T.decoded reader.old.transformer) (of_stats self.now.handle answer) (stats_of stats)))) }
        ensures cause { let reads = ReadsStats (S.objects reader.old.store) (S.acts reader.old.store) (S.acts reader.new.store) (string_bytes reader.old.root_path) self.now.handle in
            IfErr result (λ e. IsStoreFault (S.faults reader.old.store) (S.faults reader.new.store) e
            ⊎ reads (λ answer. FailsDecoding (faults_of T.faults reader.old.transformer) (faults_of T.faults reader.new.transformer) (of_stats self.now.handle answer) e)
            ⊎ reads (λ answer. RefusesStats (changed_by T.decoded reader.old.transformer) (of_stats self.now.handle answer) e)) }
        ensures once { let reads = ReadsStats (S.objects reader.old.store) (S.acts reader.old.store) (S.acts reader.new.store) (string_bytes reader.old.root_path) self.now.handle in
            OnErr result ((S.acts reader.new.store ≡ S.acts reader.old.store)
            ⊎ reads (λ _. Unit {0})) }
        ensures unasked { let reads = ReadsStats (S.objects reader.old.store) (S.acts reader.old.store) (S.acts reader.new.store) (string_bytes reader.old.root_path) self.now.handle in
            (reader.new.transformer ≡ reader.old.transformer)
            ⊎ reads (λ answer. Fits (of_stats self.now.handle answer)) }
        ensures unanswered { result ≡ Err SlateDBError.StoreFault → reader.new.transformer ≡ reader.old.transformer }
        ensures objects { S.objects reader.new.store ≡ S.objects reader.old.store }
        ensures root { reader.new.root_path ≡ reader.old.root_path }
        ensures same_encoded { changed_by T.encoded reader.new.transformer ≡ changed_by T.encoded reader.old.transformer }
        ensures same_decoded { changed_by T.decoded reader.new.transformer ≡ changed_by T.decoded reader.old.transformer }
        ensures later { S.faults reader.old.store ≤ S.faults reader.new.store }
        ensures still { (result ≡ Err SlateDBError.StoreFault) ⊎ (S.faults reader.new.store ≡ S.faults reader.old.store) }
        ensures later_transformer { faults_of T.faults reader.old.transformer ≤ faults_of T.faults reader.new.transformer }
        ensures still_transformer { (result ≡ Err SlateDBError.BlockTransformError) ⊎ (faults_of T.faults reader.new.transformer ≡ faults_of T.faults reader.old.transformer) }
    {
        let place = (self.handle.info.stats_offset, self.handle.info.stats_len);
        if place.1 == 0 {
            return Ok(None);
        }
        let root = reader.root_path.as_str();
        let transformer = &mut reader.transformer;
        let store = &mut reader.store;
        let part = read_part(
            alloc,
            store,
            root,
            &self.handle,
            STATS_KIND,
            place,
            transformer,
        )?;
        SstStats::decode(alloc, part).map(Some)
    }

    /// The index, by one read of its section. It is refused as by `TableStore::read_index`.
    pub fn index<S: Store, T: BlockTransformer>(
        &self,
        alloc: Global,
        reader: &mut SstReader<S, T>,
    ) -> Result<SstIndex, SlateDBError>
        ensures found { let reads = ReadsIndex (S.objects reader.old.store) (S.acts reader.old.store) (S.acts reader.new.store) (string_bytes reader.old.root_path) self.now.handle in
            IfOk result (λ index. reads (λ answer. IsIndexRead (changed_by T.decoded reader.old.transformer) self.now.handle.info.filter_offset (of_index self.now.handle answer) (entries_of index))) }
        ensures cause { let reads = ReadsIndex (S.objects reader.old.store) (S.acts reader.old.store) (S.acts reader.new.store) (string_bytes reader.old.root_path) self.now.handle in
            IfErr result (λ e. IsStoreFault (S.faults reader.old.store) (S.faults reader.new.store) e
            ⊎ reads (λ answer. FailsDecoding (faults_of T.faults reader.old.transformer) (faults_of T.faults reader.new.transformer) (of_index self.now.handle answer) e)
            ⊎ reads (λ answer. RefusesIndex (changed_by T.decoded reader.old.transformer) self.now.handle.info.filter_offset (of_index self.now.handle answer) e)) }
        ensures once { let reads = ReadsIndex (S.objects reader.old.store) (S.acts reader.old.store) (S.acts reader.new.store) (string_bytes reader.old.root_path) self.now.handle in
            OnErr result ((S.acts reader.new.store ≡ S.acts reader.old.store)
            ⊎ reads (λ _. Unit {0})) }
        ensures unasked { let reads = ReadsIndex (S.objects reader.old.store) (S.acts reader.old.store) (S.acts reader.new.store) (string_bytes reader.old.root_path) self.now.handle in
            (reader.new.transformer ≡ reader.old.transformer)
            ⊎ reads (λ answer. Fits (of_index self.now.handle answer)) }
        ensures unanswered { result ≡ Err SlateDBError.StoreFault → reader.new.transformer ≡ reader.old.transformer }
        ensures objects { S.objects reader.new.store ≡ S.objects reader.old.store }
        ensures root { reader.new.root_path ≡ reader.old.root_path }
        ensures same_encoded { changed_by T.encoded reader.new.transformer ≡ changed_by T.encoded reader.old.transformer }
        ensures same_decoded { changed_by T.decoded reader.new.transformer ≡ changed_by T.decoded reader.old.transformer }
        ensures later { S.faults reader.old.store ≤ S.faults reader.new.store }
        ensures still { (result ≡ Err SlateDBError.StoreFault) ⊎ (S.faults reader.new.store ≡ S.faults reader.old.store) }
        ensures later_transformer { faults_of T.faults reader.old.transformer ≤ faults_of T.faults reader.new.transformer }
        ensures still_transformer { (result ≡ Err SlateDBError.BlockTransformError) ⊎ (faults_of T.faults reader.new.transformer ≡ faults_of T.faults reader.old.transformer) }
    {
        let root = reader.root_path.as_str();
        let transformer = &mut reader.transformer;
        TableStore::read_index(alloc, &mut reader.store, root, &self.handle, transformer)
    }

    /// The rows of a block, by one read of the index and one of the block. The index is refused as by `index`; then
    /// `BlockOutOfRange` exactly at or past the number of blocks; then the block is refused as by `TableStore::read_blocks`,
    /// and a row in it as by a walk upwards: `CorruptTable` with the place of the first field that fails in the rows' part, or
    /// `InvalidRowFlags`. A handle of another version than 1, 2 and 3 gets `InvalidVersion` once the block was read.
    pub fn read_block<S: Store, T: BlockTransformer>(
        &self,
        alloc: Global,
        reader: &mut SstReader<S, T>,
        block: usize,
    ) -> Result<Vec<RowEntry>, SlateDBError>
        ensures found { IfOk result (λ rows. ReadsRows (changed_by T.decoded reader.old.transformer) (S.objects reader.old.store) (S.acts reader.old.store) (S.acts reader.new.store) (path_of (string_bytes reader.old.root_path) self.now.handle.id.0) self.now.handle block rows.items) }
        ensures cause { IfErr result (λ e. IsStoreFault (S.faults reader.old.store) (S.faults reader.new.store) e ⊎ FailsReadRows (changed_by T.decoded reader.old.transformer) (S.objects reader.old.store) (S.acts reader.old.store) (S.acts reader.new.store) (path_of (string_bytes reader.old.root_path) self.now.handle.id.0) self.now.handle block (faults_of T.faults reader.old.transformer) (faults_of T.faults reader.new.transformer) e ⊎ RefusesReadRows (changed_by T.decoded reader.old.transformer) (S.objects reader.old.store) (S.acts reader.old.store) (S.acts reader.new.store) (path_of (string_bytes reader.old.root_path) self.now.handle.id.0) self.now.handle block e) }
        ensures twice { OnErr result (MayReadRows (changed_by T.decoded reader.old.transformer) (S.objects reader.old.store) (S.acts reader.old.store) (S.acts reader.new.store) (path_of (string_bytes reader.old.root_path) self.now.handle.id.0) self.now.handle block) }
        ensures unasked { (reader.new.transformer ≡ reader.old.transformer) ⊎ ReadsFittingIndex (S.objects reader.old.store) (S.acts reader.old.store) (S.acts reader.new.store) (path_of (string_bytes reader.old.root_path) self.now.handle.id.0) self.now.handle block }
        ensures objects { S.objects reader.new.store ≡ S.objects reader.old.store }
        ensures root { reader.new.root_path ≡ reader.old.root_path }
        ensures same_encoded { changed_by T.encoded reader.new.transformer ≡ changed_by T.encoded reader.old.transformer }
        ensures same_decoded { changed_by T.decoded reader.new.transformer ≡ changed_by T.decoded reader.old.transformer }
        ensures later { S.faults reader.old.store ≤ S.faults reader.new.store }
        ensures still { (result ≡ Err SlateDBError.StoreFault) ⊎ (S.faults reader.new.store ≡ S.faults reader.old.store) }
        ensures later_transformer { faults_of T.faults reader.old.transformer ≤ faults_of T.faults reader.new.transformer }
        ensures still_transformer { (result ≡ Err SlateDBError.BlockTransformError) ⊎ (faults_of T.faults reader.new.transformer ≡ faults_of T.faults reader.old.transformer) }
    {
        let index = self.index(alloc, reader)?;
        test_block(&index, block)?;
        let root = reader.root_path.as_str();
        let transformer = &mut reader.transformer;
        let store = &mut reader.store;
        let found = read_block(alloc, store, root, &self.handle, &index, block, transformer)?;
        let rows = rows_of_block(alloc, &found, self.handle.format_version);
        drop(found);
        rows
    }
}

/// `BlockOutOfRange` exactly at or past the number of blocks.
fn test_block(index: &SstIndex, block: usize) -> Result<(), SlateDBError>
    ensures within { OnOk result (block < length (entries_of index.now)) }
    ensures past { IfErr result (λ e. (length (entries_of index.now) ≤ block) × (e ≡ SlateDBError.BlockOutOfRange block (length (entries_of index.now)))) }
{
    let blocks = index.len();
    if block < blocks {
        return Ok(());
    }
    Err(SlateDBError::BlockOutOfRange {
        block: block as u64,
        blocks: blocks as u64,
    })
}

/// The rows of a block of this version.
fn rows_of_block(alloc: Global, block: &Block, version: u16) -> Result<Vec<RowEntry>, SlateDBError>
    ensures rows { IfOk result (λ rows. rows_in version block.now ≡ Ok rows.items) }
    ensures bytes { EachIsAByte block.now.body }
    ensures cause { IfErr result (λ e. (e ≡ SlateDBError.OutOfMemory) ⊎ (rows_in version block.now ≡ Err e)) }
{
    are_bytes(block.body.as_slice());
    let mut walk = DataBlockIterator::new(alloc, block, version, IterationOrder::Ascending)?;
    all_rows(alloc, &mut walk)
}

/// Each number of bytes is a byte.
fn are_bytes(bytes: &[u8])
    ensures { EachIsAByte bytes.now }
{}

/// All rows that a walk has left.
fn all_rows(
    alloc: Global,
    walk: &mut DataBlockIterator<&Block>,
) -> Result<Vec<RowEntry>, SlateDBError>
    ensures rows { IfOk result (λ rows. left (left_of walk.old) ≡ Ok rows.items) }
    ensures cause { IfErr result (λ e. (e ≡ SlateDBError.OutOfMemory) ⊎ (left (left_of walk.old) ≡ Err e)) }
{
    let mut rows = Vec::new(alloc);
    while let Some(row) = walk.next_row(alloc)? {
        rows.push(row)?;
    }
    Ok(rows)
}
