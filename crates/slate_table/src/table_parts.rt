//! What a table builder keeps.
ghost use Rattle.std.specs.Prelude.{◌≡◌, ◌≤◌, ◌<◌, ◌+◌, ◌^◌, ◌⊎◌, ◌==◌, ◌++◌, ◌∷◌, ◌↔◌, if◌then◌else◌, List, [], Ok, Err, true, false, length, map, vec_len, vec_capacity, OnOk, OnErr, IfOk, IfErr, IsOkUnless};
ghost use Rattle.slate_block.specs.Building.{CanTake, with_row};
ghost use Rattle.slate_block.specs.Fitting.{fits_in};
ghost use Rattle.slate_types.specs.declared.types.RowEntry.{RowEntry};
ghost use Rattle.slate_filter.specs.Laws.{AreValidNames};
ghost use Rattle.slate_filter.specs.Policy.{filters_of};
ghost use Rattle.slate_block.specs.BlockSpelling.{FitsBlock, block_bytes};
ghost use Rattle.slate_block.specs.Counting.{stats_of};
ghost use Rattle.slate_table.specs.Parts.{summed};
ghost use Rattle.slate_table.specs.TableBuilding.{max_blocks};
ghost use Rattle.slate_table.specs.SectionReading.{changed_by};
ghost use Rattle.slate_table.specs.Asking.{Asks};
ghost use Rattle.slate_table.specs.Table.{some_first, some_last};
ghost use Rattle.slate_table.specs.Decoded.{FitsShort};
ghost use Rattle.slate_table.specs.TableParts.{version_of, cover_behind, separator_behind, fits_parts, ended_size, HasSectionRoom, HasSums, IsAdded, IsBegun, IsEnded, IsEndedBy, IsFull, IsKept, IsSame, IsWritten, Stands};
ghost use Rattle.slate_table.specs.InfoReading.{seen_info};
ghost use Rattle.slate_table.specs.TableEnd.{EndsAt, IsFiltered, IsReady, IsSealed, IsFinished};

use crate::encoded_table::EncodedSsTable;
use crate::filters_writing::{append_filter_section, filters_of_rows};
use crate::index_writing::encode_index;
use crate::info::SsTableInfo;
use crate::section::{
    BLOCK_KIND, CHECKSUM_SIZE, FILTERS_KIND, INDEX_KIND, STATS_KIND, SectionPlace, encoded,
    put_summed, seal_section,
};
use crate::separator::separator;
use crate::stats_writing::encode_stats;
use crate::table_end::{SectionOffsets, append_end};
use bytes::Bytes;
use slate_block::{BlockBuilder, BlockBuilderWithStats, BlockStats};
use slate_filter::FilterPolicy;
use slate_types::{BlockFormat, BlockTransformer, RowEntry, SlateDBError, Ulid};
use std::alloc::Global;
use std::mem;

/// The greatest number of blocks in a table.
const MAX_BLOCKS: usize = 4294967295;

/// The rows that were added, the sections of the blocks that were ended, and the block behind them.
#[derive(Drop)]
pub struct TableParts {
    pub block_size: u32,
    pub format: BlockFormat,
    pub id: Ulid,
    pub rows: Vec<RowEntry>,
    pub block: BlockBuilderWithStats,
    /// The sections of the blocks that were ended, and where they begin.
    pub bytes: Vec<u8>,
    pub offsets: Vec<u64>,
    /// One for each block, and for the one behind those that were ended once it has a row.
    pub separators: Vec<Bytes>,
    pub block_stats: Vec<BlockStats>,
    pub raw_key_size: u64,
    pub raw_val_size: u64,
}

/// A block of the format, with no row.
pub fn new_block(
    alloc: Global,
    format: BlockFormat,
    block_size: u32,
) -> Result<BlockBuilderWithStats, SlateDBError>
    requires some { 0 < block_size }
    requires few { block_size ≤ 65535 }
    ensures builder { IfOk result (λ block. block.builder ≡ record { version = version_of format; size = block_size; rows = [] }) }
    ensures counts { IfOk result (λ block. block.stats ≡ stats_of []) }
    ensures cause { IsOkUnless result SlateDBError.OutOfMemory }
{
    let builder = match format {
        BlockFormat::V1 => BlockBuilder::new_v1(alloc, block_size),
        BlockFormat::V2 => BlockBuilder::new_v2(alloc, block_size),
        BlockFormat::V3 => BlockBuilder::new_v3(alloc, block_size),
        BlockFormat::Latest => BlockBuilder::new_latest(alloc, block_size),
    };
    builder.map(BlockBuilderWithStats::new)
}

impl TableParts {
    /// Where a section of a kind stands that is appended next.
    fn next_place(&self, kind: u8) -> SectionPlace
        ensures { result ≡ record { version = version_of self.now.format; id = self.now.id; kind = kind; offset = length self.now.bytes.items } }
    {
        SectionPlace {
            version: version_number(self.format),
            id: self.id,
            kind,
            offset: self.bytes.len() as u64,
        }
    }

    /// `EmptyKey` exactly for an empty key, and then `LimitReached` exactly where a row would make a block too many.
    pub fn test(&self, entry: &RowEntry) -> Result<(), SlateDBError>
        requires { CanTake entry.now }
        ensures empty { (result ≡ Err SlateDBError.EmptyKey) ↔ (length entry.now.key ≡ 0) }
        ensures some { OnOk result (0 < length entry.now.key) }
        ensures room { OnOk result (fits_parts self.now entry.now ≡ false → length self.now.separators.items + 1 < 2 ^ 32) }
        ensures past { IfErr result (λ e. (e ≡ SlateDBError.EmptyKey) ⊎ ((e ≡ SlateDBError.LimitReached max_blocks) × IsFull self.now entry.now)) }
    {
        if entry.key.is_empty() {
            return Err(SlateDBError::EmptyKey);
        }
        if self.separators.len() >= MAX_BLOCKS && !self.block.would_fit(entry) {
            return Err(SlateDBError::LimitReached {
                limit: MAX_BLOCKS as u64,
            });
        }
        Ok(())
    }

    /// Takes a row behind the others, and ends the block where it doesn't fit: then it answers the length of its section. An
    /// error leaves all as it was.
    pub fn add<T: BlockTransformer>(
        &mut self,
        alloc: Global,
        entry: RowEntry,
        transformer: &mut Option<T>,
    ) -> Result<Option<u64>, SlateDBError>
        requires some { 0 < self.old.block_size }
        requires few { self.old.block_size ≤ 65535 }
        requires lengths { CanTake entry }
        requires key { 0 < length entry.key }
        requires sums { HasSums self.old entry }
        ensures added { OnOk result (IsAdded (changed_by T.encoded transformer.old) self.old entry self.new) }
        ensures same { OnErr result (IsSame self.old self.new) }
        ensures size { IfOk result (λ size. size ≡ ended_size (changed_by T.encoded transformer.old) self.old entry) }
        ensures asks { Asks T.encoded T.decoded T.faults transformer.old transformer.new result }
        ensures unasked { fits_parts self.old entry ≡ true → transformer.new ≡ transformer.old }
        ensures fault { result ≡ Err SlateDBError.BlockTransformError → fits_parts self.old entry ≡ false }
    {
        match self.write(alloc, &entry, transformer) {
            Ok(size) => {
                self.keep(entry);
                Ok(size)
            }
            Err(error) => {
                drop(entry);
                Err(error)
            }
        }
    }

    /// Writes a row into the block, or into the next one, and makes room to keep it.
    fn write<T: BlockTransformer>(
        &mut self,
        alloc: Global,
        entry: &RowEntry,
        transformer: &mut Option<T>,
    ) -> Result<Option<u64>, SlateDBError>
        requires some { 0 < self.old.block_size }
        requires few { self.old.block_size ≤ 65535 }
        requires lengths { CanTake entry.now }
        requires key { 0 < length entry.now.key }
        ensures written { OnOk result (IsWritten (changed_by T.encoded transformer.old) self.old entry.now self.new) }
        ensures room { OnOk result (vec_len self.new.rows < vec_capacity self.new.rows) }
        ensures same { OnErr result (IsSame self.old self.new) }
        ensures size { IfOk result (λ size. size ≡ ended_size (changed_by T.encoded transformer.old) self.old entry.now) }
        ensures asks { Asks T.encoded T.decoded T.faults transformer.old transformer.new result }
        ensures unasked { fits_parts self.old entry.now ≡ true → transformer.new ≡ transformer.old }
        ensures fault { result ≡ Err SlateDBError.BlockTransformError → fits_parts self.old entry.now ≡ false }
    {
        self.rows.reserve(1)?;
        if self.block.would_fit(entry) {
            write_row(&mut self.block, &mut self.separators, &self.rows, entry)?;
            return Ok(None);
        }
        let stored = self.stored_block(alloc, transformer)?;
        let size = self.begin(alloc, stored.as_slice(), entry)?;
        Ok(Some(size))
    }

    /// The block, which has a row, as its section stores it.
    fn stored_block<T: BlockTransformer>(
        &self,
        alloc: Global,
        transformer: &mut Option<T>,
    ) -> Result<Bytes, SlateDBError>
        requires { 0 < length self.now.block.builder.rows }
        ensures stored { IfOk result (λ stored. stored ≡ changed_by T.encoded transformer.old (block_bytes self.now.block.builder.version self.now.block.builder.rows)) }
        ensures fits { OnOk result (FitsBlock self.now.block.builder.version self.now.block.builder.rows) }
        ensures asks { Asks T.encoded T.decoded T.faults transformer.old transformer.new result }
    {
        let part = self.block.encode(alloc)?;
        encoded(alloc, part, transformer)
    }

    /// Ends the block, which is stored so, and writes a row into the next one. It answers the length of the section.
    fn begin(&mut self, alloc: Global, stored: &[u8], entry: &RowEntry) -> Result<u64, SlateDBError>
        requires some { 0 < self.old.block_size }
        requires few { self.old.block_size ≤ 65535 }
        requires lengths { CanTake entry.now }
        requires key { 0 < length entry.now.key }
        ensures begun { OnOk result (IsBegun stored.now self.old entry.now self.new) }
        ensures rows { self.new.rows ≡ self.old.rows }
        ensures same { OnErr result (IsSame self.old self.new) }
        ensures size { IfOk result (λ size. size ≡ length (summed (cover_behind self.old) stored.now)) }
        ensures cause { IsOkUnless result SlateDBError.OutOfMemory }
    {
        let mut next = new_block(alloc, self.format, self.block_size)?;
        self.reserve_section(stored)?;
        write_row(&mut next, &mut self.separators, &self.rows, entry)?;
        Ok(self.end_with(stored, next))
    }

    /// Makes room for the section of a block that is stored so.
    fn reserve_section(&mut self, stored: &[u8]) -> Result<(), SlateDBError>
        ensures same { IsSame self.old self.new }
        ensures rows { self.new.rows ≡ self.old.rows }
        ensures separators { self.new.separators ≡ self.old.separators }
        ensures room { OnOk result (HasSectionRoom (length stored.now) self.new) }
        ensures cause { IsOkUnless result SlateDBError.OutOfMemory }
    {
        self.bytes.reserve(stored.len() + CHECKSUM_SIZE)?;
        self.offsets.reserve(1)?;
        self.block_stats.reserve(1)?;
        Ok(())
    }

    /// Appends the section of the block, which is stored so, and goes on with the next block. It answers the section's length.
    fn end_with(&mut self, stored: &[u8], next: BlockBuilderWithStats) -> u64
        requires { HasSectionRoom (length stored.now) self.old }
        ensures ended { IsEndedBy stored.now next self.old self.new }
        ensures rows { self.new.rows ≡ self.old.rows }
        ensures size { result ≡ length (summed (cover_behind self.old) stored.now) }
    {
        let begin = self.bytes.len();
        let place = self.next_place(BLOCK_KIND);
        put_summed(&mut self.bytes, place, stored);
        self.offsets.push_reserved(begin as u64);
        self.block_stats.push_reserved(self.block.stats());
        drop(mem::replace(&mut self.block, next));
        (self.bytes.len() - begin) as u64
    }

    /// Keeps a row that was written, for which there is room.
    fn keep(&mut self, entry: RowEntry)
        requires room { vec_len self.old.rows < vec_capacity self.old.rows }
        requires sums { HasSums self.old entry }
        ensures { IsKept self.old entry self.new }
    {
        self.raw_key_size += entry.key.len() as u64;
        self.raw_val_size += entry.value.len() as u64;
        self.rows.push_reserved(entry);
    }

    /// Ends the last block, which has a row.
    fn end_block<T: BlockTransformer>(
        &mut self,
        alloc: Global,
        transformer: &mut Option<T>,
    ) -> Result<(), SlateDBError>
        requires some { 0 < self.old.block_size }
        requires few { self.old.block_size ≤ 65535 }
        requires row { 0 < length self.old.block.builder.rows }
        ensures ended { OnOk result (IsEnded (changed_by T.encoded transformer.old) self.old self.new) }
        ensures asks { Asks T.encoded T.decoded T.faults transformer.old transformer.new result }
    {
        let stored = self.stored_block(alloc, transformer)?;
        let empty = new_block(alloc, self.format, self.block_size)?;
        let bytes = stored.as_slice();
        self.reserve_section(bytes)?;
        self.end_with(bytes, empty);
        Ok(())
    }

    /// Ends the last block, and gives the table, which has the filters of the policies where its rows are `min` or more.
    pub fn finish<T: BlockTransformer>(
        &mut self,
        alloc: Global,
        transformer: &mut Option<T>,
        policies: &[Box<dyn FilterPolicy>],
        min: u32,
    ) -> Result<EncodedSsTable, SlateDBError>
        requires stands { Stands self.old }
        requires row { 0 < length self.old.rows.items }
        requires names { AreValidNames (map (λ p. (meaning p).name) policies.now) }
        ensures finished { IfOk result (λ table. IsFinished (changed_by T.encoded transformer.old) (filters_of (map (λ p. meaning p) policies.now) min self.old.rows.items) self.old table.bytes table.info) }
        ensures version { IfOk result (λ table. table.version ≡ version_of self.old.format) }
        ensures id { IfOk result (λ table. table.id ≡ self.old.id) }
        ensures asks { Asks T.encoded T.decoded T.faults transformer.old transformer.new result }
    {
        self.end_block(alloc, transformer)?;
        let filters = self.bytes.len() as u64;
        self.append_filters(alloc, transformer, policies, min)?;
        let index = self.bytes.len() as u64;
        let stats = self.append_sections(alloc, transformer)?;
        let offsets = SectionOffsets {
            filters,
            index,
            stats,
        };
        self.close(alloc, offsets)
    }

    /// Appends the section of the filters of the rows, where there are any, once the last block was ended.
    fn append_filters<T: BlockTransformer>(
        &mut self,
        alloc: Global,
        transformer: &mut Option<T>,
        policies: &[Box<dyn FilterPolicy>],
        min: u32,
    ) -> Result<(), SlateDBError>
        requires names { AreValidNames (map (λ p. (meaning p).name) policies.now) }
        ensures filtered { OnOk result (IsFiltered (changed_by T.encoded transformer.old) (filters_of (map (λ p. meaning p) policies.now) min self.old.rows.items) self.old self.new) }
        ensures asks { Asks T.encoded T.decoded T.faults transformer.old transformer.new result }
    {
        let filters = filters_of_rows(alloc, policies, min, &self.rows)?;
        let place = self.next_place(FILTERS_KIND);
        append_filter_section(alloc, &mut self.bytes, place, &filters, transformer)
    }

    /// Appends the sections of the index and of the statistics behind those of the blocks and of the filters, and answers where the
    /// second begins.
    fn append_sections<T: BlockTransformer>(
        &mut self,
        alloc: Global,
        transformer: &mut Option<T>,
    ) -> Result<u64, SlateDBError>
        requires ready { IsReady self.old }
        ensures sealed { IfOk result (λ at. IsSealed (changed_by T.encoded transformer.old) self.old at self.new) }
        ensures asks { Asks T.encoded T.decoded T.faults transformer.old transformer.new result }
    {
        let index = encode_index(alloc, &self.offsets, &self.separators)?;
        let place = self.next_place(INDEX_KIND);
        seal_section(alloc, &mut self.bytes, place, index, transformer)?;
        let place = self.next_place(STATS_KIND);
        let block_stats = mem::replace(&mut self.block_stats, Vec::new(alloc));
        let stats = encode_stats(
            alloc,
            &self.rows,
            self.raw_key_size,
            self.raw_val_size,
            block_stats,
        )?;
        seal_section(alloc, &mut self.bytes, place, stats, transformer)?;
        Ok(place.offset)
    }

    /// The table, whose sections behind the blocks begin there, and whose info doesn't stand there yet.
    fn close(
        &mut self,
        alloc: Global,
        offsets: SectionOffsets,
    ) -> Result<EncodedSsTable, SlateDBError>
        requires first { FitsShort (some_first self.old.rows.items) }
        requires last { FitsShort (some_last self.old.rows.items) }
        requires filters { offsets.filters ≤ offsets.index }
        requires index { offsets.index ≤ offsets.stats }
        requires stats { offsets.stats ≤ length self.old.bytes.items }
        ensures ended { IfOk result (λ table. EndsAt (version_of self.old.format) self.old.id.0 self.old.rows.items offsets self.old.bytes.items table.bytes (seen_info table.info)) }
        ensures short { IfOk result (λ table. length table.bytes < 2 ^ 64) }
        ensures version { IfOk result (λ table. table.version ≡ version_of self.old.format) }
        ensures id { IfOk result (λ table. table.id ≡ self.old.id) }
        ensures cause { IsOkUnless result SlateDBError.OutOfMemory }
    {
        let version = version_number(self.format);
        let mut bytes = mem::replace(&mut self.bytes, Vec::new(alloc));
        let info = append_end(alloc, &mut bytes, version, self.id, &self.rows, offsets)?;
        frozen(bytes, info, version, self.id)
    }
}

/// The number of a format in the bytes of a table.
pub fn version_number(format: BlockFormat) -> u16
    ensures { result ≡ version_of format }
{
    match format {
        BlockFormat::V1 => 1,
        BlockFormat::V2 | BlockFormat::Latest => 2,
        BlockFormat::V3 => 3,
    }
}

/// The table of these bytes, which are shared from now on.
fn frozen(
    bytes: Vec<u8>,
    info: SsTableInfo,
    version: u16,
    id: Ulid,
) -> Result<EncodedSsTable, SlateDBError>
    ensures same { IfOk result (λ table. table.bytes ≡ bytes.items) }
    ensures info { IfOk result (λ table. table.info ≡ info) }
    ensures version { IfOk result (λ table. table.version ≡ version) }
    ensures id { IfOk result (λ table. table.id ≡ id) }
    ensures short { length bytes.items < 2 ^ 64 }
    ensures cause { IsOkUnless result SlateDBError.OutOfMemory }
{
    let _len = bytes.len();
    let mut bytes = bytes;
    bytes.shrink_to_fit();
    match Bytes::from_vec(bytes) {
        Ok(bytes) => Ok(EncodedSsTable::new(bytes, info, version, id)),
        Err(failed) => {
            drop(info);
            Err(SlateDBError::from(failed))
        }
    }
}

/// The separator of a block that begins with the key behind these rows.
fn separator_behind(rows: &[RowEntry], key: &Bytes) -> Result<Bytes, SlateDBError>
    ensures value { IfOk result (λ front. front ≡ separator_behind rows.now key.now) }
    ensures cause { IsOkUnless result SlateDBError.OutOfMemory }
{
    match rows.last() {
        Some(row) => separator(row.key.as_slice(), key),
        None => key.clone().map_err(SlateDBError::from),
    }
}

/// Writes a row that fits into the block, behind these rows. Where it is the block's first one, the block's separator is put behind
/// the others. `OutOfMemory` leaves both as they were.
fn write_row(
    block: &mut BlockBuilderWithStats,
    separators: &mut Vec<Bytes>,
    rows: &[RowEntry],
    entry: &RowEntry,
) -> Result<(), SlateDBError>
    requires lengths { CanTake entry.now }
    requires key { 0 < length entry.now.key }
    requires fits { fits_in block.old.builder.size block.old.builder.version block.old.builder.rows entry.now ≡ true }
    ensures begun { OnOk result (separators.new.items ≡ (if length block.old.builder.rows == 0 then separators.old.items ++ separator_behind rows.now entry.now.key ∷ [] else separators.old.items)) }
    ensures taken { OnOk result (block.new.builder ≡ with_row block.old.builder entry.now) }
    ensures counted { OnOk result ((counted : List RowEntry) → block.old.stats ≡ stats_of counted → block.new.stats ≡ stats_of (counted ++ entry.now ∷ [])) }
    ensures same_block { OnErr result (block.new ≡ block.old) }
    ensures same_separators { OnErr result (separators.new.items ≡ separators.old.items) }
    ensures cause { IsOkUnless result SlateDBError.OutOfMemory }
{
    if !block.is_empty() {
        return take_row(block, entry);
    }
    separators.reserve(1)?;
    let front = separator_behind(rows, &entry.key)?;
    take_row(block, entry)?;
    separators.push_reserved(front);
    Ok(())
}

/// Takes a row that fits into the block. `OutOfMemory` leaves it as it was.
fn take_row(block: &mut BlockBuilderWithStats, entry: &RowEntry) -> Result<(), SlateDBError>
    requires lengths { CanTake entry.now }
    requires key { 0 < length entry.now.key }
    requires fits { fits_in block.old.builder.size block.old.builder.version block.old.builder.rows entry.now ≡ true }
    ensures taken { OnOk result (block.new.builder ≡ with_row block.old.builder entry.now) }
    ensures counted { OnOk result ((counted : List RowEntry) → block.old.stats ≡ stats_of counted → block.new.stats ≡ stats_of (counted ++ entry.now ∷ [])) }
    ensures same { OnErr result (block.new ≡ block.old) }
    ensures cause { IsOkUnless result SlateDBError.OutOfMemory }
{
    let copy = entry.clone()?;
    block.add(copy)?;
    Ok(())
}
