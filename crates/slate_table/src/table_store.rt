//! The tables of a store, read part by part.
ghost use Rattle.std.specs.Prelude.{◌≡◌, ◌≤◌, ◌<◌, ◌+◌, ◌-◌, ◌⊎◌, [], Some, Err, Ok, true, false, length, map, OnOk, OnErr, IfOk, IfErr, IfSome, IsOkUnless};
ghost use Rattle.slate_types.specs.Faults.{faults_of};
ghost use Rattle.slate_types.specs.Outside.{Objects};
ghost use Rattle.slate_store.specs.Store.{Act, AddsAct, RefusesPut, TakesPut, part_of};
ghost use Rattle.slate_block.specs.RowReading.{refusal};
ghost use Rattle.slate_filter.specs.Named.{named_pair};
ghost use Rattle.slate_table.specs.Filtered.{asks_filters, IsAsked, RefusesQuery};
ghost use Rattle.slate_table.specs.Paths.{path_of};
ghost use Rattle.slate_table.specs.SectionReading.{changed_by};
ghost use Rattle.slate_table.specs.Asking.{Reaches, Stays};
ghost use Rattle.slate_table.specs.IndexValue.{entries_of};
ghost use Rattle.slate_table.specs.Reading.{
  IsRead,
  Reads,
  ReadsBlocks,
  ReadsFilters,
  ReadsIndex,
  IsStoreFault,
  of_block,
  of_blocks,
  of_filters,
  of_index,
  read_at,
  section_read,
  whole_answer,
  stored_in,
  IsPart,
  FailsDecoding,
  Fits,
  IsIndexRead,
  RefusesIndex,
  AreFiltersRead,
  RefusesFilters,
  IsBlockRead,
  RefusesBlock,
  block_start,
  blocks_size,
  block_answer,
  AreBlocksRead,
  RefusesBlocks,
  FailsBlocks,
  unchanged,
};

use crate::encoded_table::EncodedSsTable;
use crate::filters_reading::{ask_answer, ask_filters, decode_filters};
use crate::info::SsTableHandle;
use crate::paths::{LONGEST_ROOT, PATH_ROOM, short_path, table_path};
use crate::section::{BLOCK_KIND, FILTERS_KIND, INDEX_KIND, SectionPlace, open_section};
use crate::sst_index::SstIndex;
use bytes::Bytes;
use slate_block::Block;
use slate_block::fields::corrupt;
use slate_filter::{FilterPolicy, NamedFilter};
use slate_store::Store;
use slate_types::{BlockTransformer, FilterQuery, SlateDBError, Ulid};
use std::alloc::Global;
use std::ops::Range;

/// The tables of a store, each an object at its path below a root.
pub struct TableStore;

impl TableStore {
    /// Puts a table at the path of its id, by one put, and answers its handle. `StoreFault`, only where the store's count of faults rose,
    /// or `OutOfMemory`; then the store is as it was, or has the table and tells so.
    pub fn put_table<S: Store>(
        alloc: Global,
        store: &mut S,
        root: &str,
        id: Ulid,
        table: &EncodedSsTable,
    ) -> Result<SsTableHandle, SlateDBError>
        requires named { table.now.id.0 ≡ id.0 }
        ensures id { IfOk result (λ handle. handle.id ≡ id) }
        ensures info { IfOk result (λ handle. handle.info ≡ table.now.info) }
        ensures version { IfOk result (λ handle. handle.format_version ≡ table.now.version) }
        ensures taken { (os : Objects) → S.objects store.old ≡ Some os → OnOk result (TakesPut os (path_of root.now id.0) table.now.bytes (S.objects store.new)) }
        ensures refused { OnErr result (RefusesPut S.objects S.acts (path_of root.now id.0) table.now.bytes store.old store.new) }
        ensures act { OnOk result (AddsAct (S.acts store.old) (Act.put (path_of root.now id.0) table.now.bytes) (S.acts store.new)) }
        ensures cause { IfErr result (λ e. IsStoreFault (S.faults store.old) (S.faults store.new) e) }
        ensures later { S.faults store.old ≤ S.faults store.new }
        ensures still { (result ≡ Err SlateDBError.StoreFault) ⊎ (S.faults store.new ≡ S.faults store.old) }
    {
        let path = table_path(alloc, root, id)?;
        let info = table.info().clone()?;
        match store.put(alloc, path.as_str(), table.as_slice()) {
            Ok(()) => Ok(SsTableHandle {
                id,
                info,
                format_version: table.version(),
            }),
            Err(error) => {
                drop(info);
                Err(SlateDBError::from(error))
            }
        }
    }

    /// The index of a table, by one read of its section. `StoreFault`, only where the store's count of faults rose;
    /// `CorruptTable` at 0 where the section isn't there in full or is shorter than a checksum, then `ChecksumMismatch`, then
    /// `BlockTransformError`, only where the transformer's count rose, then `CorruptTable` where the part is no index of
    /// blocks that end where the filters begin; or `OutOfMemory`. Where the section isn't there in full, or its checksum doesn't fit,
    /// the transformer isn't asked.
    pub fn read_index<S: Store, T: BlockTransformer>(
        alloc: Global,
        store: &mut S,
        root: &str,
        table: &SsTableHandle,
        transformer: &mut Option<T>,
    ) -> Result<SstIndex, SlateDBError>
        ensures found { let reads = ReadsIndex (S.objects store.old) (S.acts store.old) (S.acts store.new) root.now table.now in
            IfOk result (λ index. reads (λ answer. IsIndexRead (changed_by T.decoded transformer.old) table.now.info.filter_offset (of_index table.now answer) (entries_of index))) }
        ensures cause { let reads = ReadsIndex (S.objects store.old) (S.acts store.old) (S.acts store.new) root.now table.now in
            IfErr result (λ e. IsStoreFault (S.faults store.old) (S.faults store.new) e
            ⊎ reads (λ answer. FailsDecoding (faults_of T.faults transformer.old) (faults_of T.faults transformer.new) (of_index table.now answer) e)
            ⊎ reads (λ answer. RefusesIndex (changed_by T.decoded transformer.old) table.now.info.filter_offset (of_index table.now answer) e)) }
        ensures once { let reads = ReadsIndex (S.objects store.old) (S.acts store.old) (S.acts store.new) root.now table.now in
            OnErr result ((S.acts store.new ≡ S.acts store.old)
            ⊎ reads (λ _. Unit {0})) }
        ensures unasked { let reads = ReadsIndex (S.objects store.old) (S.acts store.old) (S.acts store.new) root.now table.now in
            (transformer.new ≡ transformer.old)
            ⊎ reads (λ answer. Fits (of_index table.now answer)) }
        ensures unanswered { result ≡ Err SlateDBError.StoreFault → transformer.new ≡ transformer.old }
        ensures objects { S.objects store.new ≡ S.objects store.old }
        ensures same_encoded { changed_by T.encoded transformer.new ≡ changed_by T.encoded transformer.old }
        ensures same_decoded { changed_by T.decoded transformer.new ≡ changed_by T.decoded transformer.old }
        ensures later { S.faults store.old ≤ S.faults store.new }
        ensures still { (result ≡ Err SlateDBError.StoreFault) ⊎ (S.faults store.new ≡ S.faults store.old) }
        ensures later_transformer { faults_of T.faults transformer.old ≤ faults_of T.faults transformer.new }
        ensures still_transformer { (result ≡ Err SlateDBError.BlockTransformError) ⊎ (faults_of T.faults transformer.new ≡ faults_of T.faults transformer.old) }
    {
        let place = (table.info.index_offset, table.info.index_len);
        let part = read_part(alloc, store, root, table, INDEX_KIND, place, transformer)?;
        SstIndex::decode(alloc, part, table.info.filter_offset)
    }

    /// The filters of a table, by one read of their section, and none, without a read, where it has no such section. `StoreFault`,
    /// only where the store's count of faults rose; `CorruptTable` at 0 where the section isn't there in full or is shorter than a
    /// checksum, then `ChecksumMismatch`, then `BlockTransformError`, only where the transformer's count rose, then
    /// `InvalidFilterBlock` with the length of the part where that is no list of filters; or `OutOfMemory`.
    pub fn read_filters<S: Store, T: BlockTransformer>(
        alloc: Global,
        store: &mut S,
        root: &str,
        table: &SsTableHandle,
        transformer: &mut Option<T>,
    ) -> Result<Vec<NamedFilter>, SlateDBError>
        ensures none { table.now.info.filter_len ≡ 0 → (store.new ≡ store.old) × (transformer.new ≡ transformer.old) × IfOk result (λ filters. filters.items ≡ []) × OnErr result ⊥ }
        ensures found { let reads = ReadsFilters (S.objects store.old) (S.acts store.old) (S.acts store.new) root.now table.now in
            0 < table.now.info.filter_len → IfOk result (λ filters. reads (λ answer. AreFiltersRead (changed_by T.decoded transformer.old) (of_filters table.now answer) (map named_pair filters.items))) }
        ensures cause { let reads = ReadsFilters (S.objects store.old) (S.acts store.old) (S.acts store.new) root.now table.now in
            IfErr result (λ e. IsStoreFault (S.faults store.old) (S.faults store.new) e
            ⊎ reads (λ answer. FailsDecoding (faults_of T.faults transformer.old) (faults_of T.faults transformer.new) (of_filters table.now answer) e)
            ⊎ reads (λ answer. RefusesFilters (changed_by T.decoded transformer.old) (of_filters table.now answer) e)) }
        ensures once { let reads = ReadsFilters (S.objects store.old) (S.acts store.old) (S.acts store.new) root.now table.now in
            OnErr result ((S.acts store.new ≡ S.acts store.old)
            ⊎ reads (λ _. Unit {0})) }
        ensures unasked { let reads = ReadsFilters (S.objects store.old) (S.acts store.old) (S.acts store.new) root.now table.now in
            (transformer.new ≡ transformer.old)
            ⊎ reads (λ answer. Fits (of_filters table.now answer)) }
        ensures unanswered { result ≡ Err SlateDBError.StoreFault → transformer.new ≡ transformer.old }
        ensures objects { S.objects store.new ≡ S.objects store.old }
        ensures same_encoded { changed_by T.encoded transformer.new ≡ changed_by T.encoded transformer.old }
        ensures same_decoded { changed_by T.decoded transformer.new ≡ changed_by T.decoded transformer.old }
        ensures later { S.faults store.old ≤ S.faults store.new }
        ensures still { (result ≡ Err SlateDBError.StoreFault) ⊎ (S.faults store.new ≡ S.faults store.old) }
        ensures later_transformer { faults_of T.faults transformer.old ≤ faults_of T.faults transformer.new }
        ensures still_transformer { (result ≡ Err SlateDBError.BlockTransformError) ⊎ (faults_of T.faults transformer.new ≡ faults_of T.faults transformer.old) }
    {
        if table.info.filter_len == 0 {
            return Ok(Vec::new(alloc));
        }
        let place = (table.info.filter_offset, table.info.filter_len);
        let part = read_part(alloc, store, root, table, FILTERS_KIND, place, transformer)?;
        decode_filters(alloc, part)
    }

    /// Whether no filter of a table denies the query. Where there are policies and the table has a filter section, that is read,
    /// by one read; else nothing is read, and the answer is yes. Refuses as `read_filters` does, and by `InvalidFilterBlock`, with
    /// the length of the part, where a policy refuses the bytes of a filter.
    pub fn might_match<S: Store, T: BlockTransformer>(
        alloc: Global,
        store: &mut S,
        root: &str,
        table: &SsTableHandle,
        policies: &[Box<dyn FilterPolicy>],
        query: &FilterQuery,
        transformer: &mut Option<T>,
    ) -> Result<bool, SlateDBError>
        ensures none { asks_filters (map (λ p. meaning p) policies.now) table.now.info.filter_len ≡ false → (result ≡ Ok true) × (store.new ≡ store.old) × (transformer.new ≡ transformer.old) }
        ensures asked { let reads = ReadsFilters (S.objects store.old) (S.acts store.old) (S.acts store.new) root.now table.now in
            asks_filters (map (λ p. meaning p) policies.now) table.now.info.filter_len ≡ true → IfOk result (λ passes. reads (λ answer. IsAsked (changed_by T.decoded transformer.old) (map (λ p. meaning p) policies.now) query.now (of_filters table.now answer) passes)) }
        ensures cause { let reads = ReadsFilters (S.objects store.old) (S.acts store.old) (S.acts store.new) root.now table.now in
            IfErr result (λ e. IsStoreFault (S.faults store.old) (S.faults store.new) e
            ⊎ reads (λ answer. FailsDecoding (faults_of T.faults transformer.old) (faults_of T.faults transformer.new) (of_filters table.now answer) e)
            ⊎ reads (λ answer. RefusesQuery (changed_by T.decoded transformer.old) (map (λ p. meaning p) policies.now) query.now (of_filters table.now answer) e)) }
        ensures once { let reads = ReadsFilters (S.objects store.old) (S.acts store.old) (S.acts store.new) root.now table.now in
            OnErr result ((S.acts store.new ≡ S.acts store.old)
            ⊎ reads (λ _. Unit {0})) }
        ensures unasked { let reads = ReadsFilters (S.objects store.old) (S.acts store.old) (S.acts store.new) root.now table.now in
            (transformer.new ≡ transformer.old)
            ⊎ reads (λ answer. Fits (of_filters table.now answer)) }
        ensures unanswered { result ≡ Err SlateDBError.StoreFault → transformer.new ≡ transformer.old }
        ensures objects { S.objects store.new ≡ S.objects store.old }
        ensures same_encoded { changed_by T.encoded transformer.new ≡ changed_by T.encoded transformer.old }
        ensures same_decoded { changed_by T.decoded transformer.new ≡ changed_by T.decoded transformer.old }
        ensures later { S.faults store.old ≤ S.faults store.new }
        ensures still { (result ≡ Err SlateDBError.StoreFault) ⊎ (S.faults store.new ≡ S.faults store.old) }
        ensures later_transformer { faults_of T.faults transformer.old ≤ faults_of T.faults transformer.new }
        ensures still_transformer { (result ≡ Err SlateDBError.BlockTransformError) ⊎ (faults_of T.faults transformer.new ≡ faults_of T.faults transformer.old) }
    {
        if !asks_filters(policies, table.info.filter_len) {
            return Ok(true);
        }
        if transformer.is_none() {
            return ask_stored(alloc, store, root, table, policies, query);
        }
        let place = (table.info.filter_offset, table.info.filter_len);
        let part = read_part(alloc, store, root, table, FILTERS_KIND, place, transformer)?;
        let passes = ask_filters(policies, part.as_slice(), query);
        drop(part);
        passes
    }

    /// Some neighbouring blocks of a table, by one read of their sections, which the index names; and none, without a read, where
    /// the range is empty. `StoreFault`, only where the store's count of faults rose; then, of the first block that isn't read,
    /// `CorruptTable` at 0 where its section isn't there in full or is shorter than a checksum, `ChecksumMismatch`,
    /// `BlockTransformError`, only where the transformer's count rose, or `CorruptTable` where the part is no block; or
    /// `OutOfMemory`.
    pub fn read_blocks<S: Store, T: BlockTransformer>(
        alloc: Global,
        store: &mut S,
        root: &str,
        table: &SsTableHandle,
        index: &SstIndex,
        blocks: Range<usize>,
        transformer: &mut Option<T>,
    ) -> Result<Vec<Block>, SlateDBError>
        requires order { blocks.start ≤ blocks.end }
        requires within { blocks.end ≤ length (entries_of index.now) }
        ensures none { blocks.start ≡ blocks.end → (store.new ≡ store.old) × (transformer.new ≡ transformer.old) × IfOk result (λ found. found.items ≡ []) × OnErr result ⊥ }
        ensures found { let reads = ReadsBlocks (S.objects store.old) (S.acts store.old) (S.acts store.new) root.now table.now (entries_of index.now) blocks.start blocks.end in
            blocks.start < blocks.end → IfOk result (λ found. reads (λ answer. AreBlocksRead (changed_by T.decoded transformer.old) (of_blocks table.now (entries_of index.now) blocks.start answer) blocks.start found.items)) }
        ensures count { IfOk result (λ found. length found.items ≡ blocks.end - blocks.start) }
        ensures cause { let reads = ReadsBlocks (S.objects store.old) (S.acts store.old) (S.acts store.new) root.now table.now (entries_of index.now) blocks.start blocks.end in
            IfErr result (λ e. IsStoreFault (S.faults store.old) (S.faults store.new) e
            ⊎ reads (λ answer. FailsBlocks (changed_by T.decoded transformer.old) (of_blocks table.now (entries_of index.now) blocks.start answer) blocks.start blocks.end (faults_of T.faults transformer.old) (faults_of T.faults transformer.new) e)
            ⊎ reads (λ answer. RefusesBlocks (changed_by T.decoded transformer.old) (of_blocks table.now (entries_of index.now) blocks.start answer) blocks.start blocks.end e)) }
        ensures once { let reads = ReadsBlocks (S.objects store.old) (S.acts store.old) (S.acts store.new) root.now table.now (entries_of index.now) blocks.start blocks.end in
            OnErr result ((S.acts store.new ≡ S.acts store.old)
            ⊎ reads (λ _. Unit {0})) }
        ensures unasked { let reads = ReadsBlocks (S.objects store.old) (S.acts store.old) (S.acts store.new) root.now table.now (entries_of index.now) blocks.start blocks.end in
            (transformer.new ≡ transformer.old)
            ⊎ reads (λ answer. Fits (of_blocks table.now (entries_of index.now) blocks.start answer blocks.start)) }
        ensures unanswered { result ≡ Err SlateDBError.StoreFault → transformer.new ≡ transformer.old }
        ensures objects { S.objects store.new ≡ S.objects store.old }
        ensures same_encoded { changed_by T.encoded transformer.new ≡ changed_by T.encoded transformer.old }
        ensures same_decoded { changed_by T.decoded transformer.new ≡ changed_by T.decoded transformer.old }
        ensures later { S.faults store.old ≤ S.faults store.new }
        ensures still { (result ≡ Err SlateDBError.StoreFault) ⊎ (S.faults store.new ≡ S.faults store.old) }
        ensures later_transformer { faults_of T.faults transformer.old ≤ faults_of T.faults transformer.new }
        ensures still_transformer { (result ≡ Err SlateDBError.BlockTransformError) ⊎ (faults_of T.faults transformer.new ≡ faults_of T.faults transformer.old) }
    {
        if blocks.start >= blocks.end {
            return Ok(Vec::new(alloc));
        }
        let end = table.info.filter_offset;
        let start = block_start(index, end, blocks.start);
        let size = block_start(index, end, blocks.end).saturating_sub(start);
        let answer = read(alloc, store, root, table.id, (start, size))?;
        let found = each_block(alloc, &answer, table, index, blocks, transformer);
        drop(answer);
        found
    }
}

/// What a store answers to one read of a table, and `None` where its bytes have another length than was asked for.
pub(crate) fn read<S: Store>(
    alloc: Global,
    store: &mut S,
    root: &str,
    id: Ulid,
    place: (u64, u64),
) -> Result<Option<Bytes>, SlateDBError>
    ensures read { IfOk result (λ answer. IsRead (S.objects store.old) (S.acts store.old) (S.acts store.new) (path_of root.now id.0) place.0 place.1 answer) }
    ensures whole { IfOk result (λ answer. IfSome answer (λ bytes. length bytes ≡ place.1)) }
    ensures cause { IfErr result (λ e. IsStoreFault (S.faults store.old) (S.faults store.new) e) }
    ensures none { OnErr result (S.acts store.new ≡ S.acts store.old) }
    ensures reaches { Reaches S.objects S.faults store.old store.new result }
{
    if root.len() <= LONGEST_ROOT {
        let mut room = [0; PATH_ROOM];
        let path = short_path(&mut room, root, id);
        return read_at(alloc, store, path, place);
    }
    let path = table_path(alloc, root, id)?;
    read_at(alloc, store, path.as_str(), place)
}

/// What a store answers to one read of the object at a path, as `read` does.
fn read_at<S: Store>(
    alloc: Global,
    store: &mut S,
    path: &str,
    place: (u64, u64),
) -> Result<Option<Bytes>, SlateDBError>
    ensures read { IfOk result (λ answer. IsRead (S.objects store.old) (S.acts store.old) (S.acts store.new) path.now place.0 place.1 answer) }
    ensures whole { IfOk result (λ answer. IfSome answer (λ bytes. length bytes ≡ place.1)) }
    ensures cause { IfErr result (λ e. IsStoreFault (S.faults store.old) (S.faults store.new) e) }
    ensures none { OnErr result (S.acts store.new ≡ S.acts store.old) }
    ensures reaches { Reaches S.objects S.faults store.old store.new result }
{
    let answer = store.read_range(alloc, path, place.0, place.1)?;
    Ok(whole_answer(answer, place.1))
}

/// Bytes of this length, and `None` for those of another one.
fn whole_answer(answer: Option<Bytes>, size: u64) -> Option<Bytes>
    ensures value { result ≡ whole_answer size answer }
    ensures whole { IfSome result (λ bytes. length bytes ≡ size) }
{
    match answer {
        None => None,
        Some(bytes) => {
            if bytes.len() as u64 == size {
                return Some(bytes);
            }
            drop(bytes);
            None
        }
    }
}

/// The part of the section at a place that was read.
pub(crate) fn opened<T: BlockTransformer>(
    alloc: Global,
    answer: Option<Bytes>,
    place: SectionPlace,
    transformer: &mut Option<T>,
) -> Result<Bytes, SlateDBError>
    ensures found { IfOk result (λ part. IsPart (changed_by T.decoded transformer.old) (read_at place answer) part) }
    ensures cause { IfErr result (λ e. (e ≡ SlateDBError.OutOfMemory) ⊎ FailsDecoding (faults_of T.faults transformer.old) (faults_of T.faults transformer.new) (read_at place answer) e ⊎ (refusal (stored_in (read_at place answer)) ≡ Some e)) }
    ensures unasked { (transformer.new ≡ transformer.old) ⊎ Fits (read_at place answer) }
    ensures unanswered { result ≡ Err SlateDBError.StoreFault → transformer.new ≡ transformer.old }
    ensures stays { Stays T.encoded T.decoded T.faults transformer.old transformer.new result }
{
    match answer {
        None => Err(corrupt(0)),
        Some(bytes) => {
            let part = open_section(alloc, &bytes, place, transformer);
            drop(bytes);
            part
        }
    }
}

/// The part of a section of a kind, which begins there and has so many bytes, by one read.
pub(crate) fn read_part<S: Store, T: BlockTransformer>(
    alloc: Global,
    store: &mut S,
    root: &str,
    table: &SsTableHandle,
    kind: u8,
    place: (u64, u64),
    transformer: &mut Option<T>,
) -> Result<Bytes, SlateDBError>
    ensures found { let reads = Reads (S.objects store.old) (S.acts store.old) (S.acts store.new) (path_of root.now table.now.id.0) place.0 place.1 in
        IfOk result (λ part. reads (λ answer. IsPart (changed_by T.decoded transformer.old) (section_read table.now.format_version table.now.id.0 kind place.0 answer) part)) }
    ensures cause { let reads = Reads (S.objects store.old) (S.acts store.old) (S.acts store.new) (path_of root.now table.now.id.0) place.0 place.1 in
        IfErr result (λ e. IsStoreFault (S.faults store.old) (S.faults store.new) e
        ⊎ reads (λ answer. FailsDecoding (faults_of T.faults transformer.old) (faults_of T.faults transformer.new) (section_read table.now.format_version table.now.id.0 kind place.0 answer) e)
        ⊎ reads (λ answer. refusal (stored_in (section_read table.now.format_version table.now.id.0 kind place.0 answer)) ≡ Some e)) }
    ensures once { let reads = Reads (S.objects store.old) (S.acts store.old) (S.acts store.new) (path_of root.now table.now.id.0) place.0 place.1 in
        OnErr result ((S.acts store.new ≡ S.acts store.old)
        ⊎ reads (λ _. Unit {0})) }
    ensures unasked { let reads = Reads (S.objects store.old) (S.acts store.old) (S.acts store.new) (path_of root.now table.now.id.0) place.0 place.1 in
        (transformer.new ≡ transformer.old)
        ⊎ reads (λ answer. Fits (section_read table.now.format_version table.now.id.0 kind place.0 answer)) }
    ensures unanswered { result ≡ Err SlateDBError.StoreFault → transformer.new ≡ transformer.old }
    ensures reaches { Reaches S.objects S.faults store.old store.new result }
    ensures stays { Stays T.encoded T.decoded T.faults transformer.old transformer.new result }
{
    let answer = read(alloc, store, root, table.id, place)?;
    opened(alloc, answer, place_in(table, kind, place.0), transformer)
}

/// Whether no filter of a table denies the query, by one read of their section. Without a
/// transformer they are asked where they were read.
fn ask_stored<S: Store>(
    alloc: Global,
    store: &mut S,
    root: &str,
    table: &SsTableHandle,
    policies: &[Box<dyn FilterPolicy>],
    query: &FilterQuery,
) -> Result<bool, SlateDBError>
    ensures asked { let reads = ReadsFilters (S.objects store.old) (S.acts store.old) (S.acts store.new) root.now table.now in
        IfOk result (λ passes. reads (λ answer. IsAsked unchanged (map (λ p. meaning p) policies.now) query.now (of_filters table.now answer) passes)) }
    ensures cause { let reads = ReadsFilters (S.objects store.old) (S.acts store.old) (S.acts store.new) root.now table.now in
        IfErr result (λ e. IsStoreFault (S.faults store.old) (S.faults store.new) e
        ⊎ reads (λ answer. RefusesQuery unchanged (map (λ p. meaning p) policies.now) query.now (of_filters table.now answer) e)) }
    ensures once { let reads = ReadsFilters (S.objects store.old) (S.acts store.old) (S.acts store.new) root.now table.now in
        OnErr result ((S.acts store.new ≡ S.acts store.old)
        ⊎ reads (λ _. Unit {0})) }
    ensures reaches { Reaches S.objects S.faults store.old store.new result }
{
    let place = (table.info.filter_offset, table.info.filter_len);
    let answer = read(alloc, store, root, table.id, place)?;
    ask_answer(
        answer,
        place_in(table, FILTERS_KIND, place.0),
        policies,
        query,
    )
}

/// Whether a reader with these policies reads a filter section of this length.
fn asks_filters(policies: &[Box<dyn FilterPolicy>], len: u64) -> bool
    ensures { result ≡ asks_filters (map (λ p. meaning p) policies.now) len }
{
    !policies.is_empty() && len > 0
}

/// A block of a table, by one read of its section.
pub(crate) fn read_block<S: Store, T: BlockTransformer>(
    alloc: Global,
    store: &mut S,
    root: &str,
    table: &SsTableHandle,
    index: &SstIndex,
    block: usize,
    transformer: &mut Option<T>,
) -> Result<Block, SlateDBError>
    requires { block < length (entries_of index.now) }
    ensures found { let reads = ReadsBlocks (S.objects store.old) (S.acts store.old) (S.acts store.new) root.now table.now (entries_of index.now) block (block + 1) in
        IfOk result (λ found. reads (λ answer. IsBlockRead (changed_by T.decoded transformer.old) (of_block table.now (entries_of index.now) block answer) found)) }
    ensures cause { let reads = ReadsBlocks (S.objects store.old) (S.acts store.old) (S.acts store.new) root.now table.now (entries_of index.now) block (block + 1) in
        IfErr result (λ e. IsStoreFault (S.faults store.old) (S.faults store.new) e
        ⊎ reads (λ answer. FailsDecoding (faults_of T.faults transformer.old) (faults_of T.faults transformer.new) (of_block table.now (entries_of index.now) block answer) e)
        ⊎ reads (λ answer. RefusesBlock (changed_by T.decoded transformer.old) (of_block table.now (entries_of index.now) block answer) e)) }
    ensures once { let reads = ReadsBlocks (S.objects store.old) (S.acts store.old) (S.acts store.new) root.now table.now (entries_of index.now) block (block + 1) in
        OnErr result ((S.acts store.new ≡ S.acts store.old)
        ⊎ reads (λ _. Unit {0})) }
    ensures reaches { Reaches S.objects S.faults store.old store.new result }
    ensures stays { Stays T.encoded T.decoded T.faults transformer.old transformer.new result }
{
    let place = place_of_block(index, table.info.filter_offset, block);
    let answer = read(alloc, store, root, table.id, place)?;
    block_in(
        alloc,
        answer,
        place_in(table, BLOCK_KIND, place.0),
        transformer,
    )
}

/// Where a section of a table stands.
fn place_in(table: &SsTableHandle, kind: u8, offset: u64) -> SectionPlace
    ensures { result ≡ record { version = table.now.format_version; id = table.now.id; kind = kind; offset = offset } }
{
    SectionPlace {
        version: table.format_version,
        id: table.id,
        kind,
        offset,
    }
}

/// Where the section of a block begins, and how many bytes it has.
fn place_of_block(index: &SstIndex, end: u64, block: usize) -> (u64, u64)
    requires { block < length (entries_of index.now) }
    ensures start { result.0 ≡ block_start end (entries_of index.now) block }
    ensures size { result.1 ≡ blocks_size end (entries_of index.now) block (block + 1) }
{
    let start = block_start(index, end, block);
    let size = block_start(index, end, block + 1).saturating_sub(start);
    (start, size)
}

/// Where the section of a block begins, or the blocks' end behind the last one.
fn block_start(index: &SstIndex, end: u64, block: usize) -> u64
    ensures { result ≡ block_start end (entries_of index.now) block }
{
    match index.get(block) {
        Some((offset, _)) => offset,
        None => end,
    }
}

/// So many bytes from a place on, or `None` where they aren't there.
fn range_of(bytes: &Bytes, start: u64, len: u64) -> Result<Option<Bytes>, SlateDBError>
    ensures found { IfOk result (λ range. range ≡ part_of (Some bytes.now) start len) }
    ensures cause { IsOkUnless result SlateDBError.OutOfMemory }
{
    let whole = bytes.len() as u64;
    if start > whole || len > whole - start {
        return Ok(None);
    }
    let (start, end) = (start as usize, (start + len) as usize);
    bytes
        .slice(start..end)
        .map(Some)
        .map_err(SlateDBError::from)
}

/// The section of a block, from an answer that begins where the first one does.
fn section_of(
    answer: &Option<Bytes>,
    index: &SstIndex,
    end: u64,
    first: usize,
    block: usize,
) -> Result<Option<Bytes>, SlateDBError>
    requires { block < length (entries_of index.now) }
    ensures found { IfOk result (λ section. section ≡ block_answer end (entries_of index.now) first answer.now block) }
    ensures cause { IsOkUnless result SlateDBError.OutOfMemory }
{
    let start = block_start(index, end, block);
    let before = start.saturating_sub(block_start(index, end, first));
    let len = block_start(index, end, block + 1).saturating_sub(start);
    match answer {
        Some(bytes) => range_of(bytes, before, len),
        None => Ok(None),
    }
}

/// The block of the section at a place that was read.
fn block_in<T: BlockTransformer>(
    alloc: Global,
    answer: Option<Bytes>,
    place: SectionPlace,
    transformer: &mut Option<T>,
) -> Result<Block, SlateDBError>
    ensures found { IfOk result (λ block. IsBlockRead (changed_by T.decoded transformer.old) (read_at place answer) block) }
    ensures cause { IfErr result (λ e. (e ≡ SlateDBError.OutOfMemory) ⊎ FailsDecoding (faults_of T.faults transformer.old) (faults_of T.faults transformer.new) (read_at place answer) e ⊎ RefusesBlock (changed_by T.decoded transformer.old) (read_at place answer) e) }
    ensures unasked { (transformer.new ≡ transformer.old) ⊎ Fits (read_at place answer) }
    ensures stays { Stays T.encoded T.decoded T.faults transformer.old transformer.new result }
{
    let part = opened(alloc, answer, place, transformer)?;
    Block::decode(alloc, part)
}

/// The blocks of a range, from an answer that begins where the first one does.
fn each_block<T: BlockTransformer>(
    alloc: Global,
    answer: &Option<Bytes>,
    table: &SsTableHandle,
    index: &SstIndex,
    blocks: Range<usize>,
    transformer: &mut Option<T>,
) -> Result<Vec<Block>, SlateDBError>
    requires order { blocks.start ≤ blocks.end }
    requires within { blocks.end ≤ length (entries_of index.now) }
    ensures found { IfOk result (λ found. AreBlocksRead (changed_by T.decoded transformer.old) (of_blocks table.now (entries_of index.now) blocks.start answer.now) blocks.start found.items) }
    ensures count { IfOk result (λ found. length found.items ≡ blocks.end - blocks.start) }
    ensures cause { IfErr result (λ e. (e ≡ SlateDBError.OutOfMemory) ⊎ FailsBlocks (changed_by T.decoded transformer.old) (of_blocks table.now (entries_of index.now) blocks.start answer.now) blocks.start blocks.end (faults_of T.faults transformer.old) (faults_of T.faults transformer.new) e ⊎ RefusesBlocks (changed_by T.decoded transformer.old) (of_blocks table.now (entries_of index.now) blocks.start answer.now) blocks.start blocks.end e) }
    ensures unasked { (transformer.new ≡ transformer.old) ⊎ Fits (of_blocks table.now (entries_of index.now) blocks.start answer.now blocks.start) }
    ensures stays { Stays T.encoded T.decoded T.faults transformer.old transformer.new result }
{
    let first = blocks.start;
    let end = table.info.filter_offset;
    let mut found = Vec::new(alloc);
    for at in first..blocks.end {
        let section = section_of(answer, index, end, first, at)?;
        let place = place_in(table, BLOCK_KIND, block_start(index, end, at));
        let block = block_in(alloc, section, place, transformer)?;
        found.push(block)?;
    }
    Ok(found)
}
