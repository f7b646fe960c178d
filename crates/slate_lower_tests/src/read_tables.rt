// What readers answer of the table of one row, whole and damaged.
use crate::listing::{Row, are_rows, one};
use crate::tables::{ID, TABLE, TABLE_OF_V3};
use bytes::Bytes;
use slate_language::Xor;
use slate_read::{SegmentMergeIterator, SortedRun, SstIteratorOptions};
use slate_store::{Env, MemoryStore, Store};
use slate_table::{SsTableHandle, SsTableInfo, SstFile, SstIndex, SstReader};
use slate_types::{
    BytesRange, NoOperator, RowEntry, RowEntryIterator, SlateDBError, Ulid, collect_rows,
};
use std::alloc::Global;

const PATH: &str = "db/compacted/00000000000000010000000000000000.sst";

// The first table of the second flush.
const SECOND_ID: Ulid = Ulid(36893488147419103232);

const SECOND_PATH: &str = "db/compacted/00000000000000020000000000000000.sst";

const ROWS: &[Row] = &[(b"a", 'v', b"1", 1, Some(0), None)];

// What a reader is answered of the whole table.
const WHOLE: &str = "Ok(true)";

// What a reader is answered under another id than that which the checksums of version 3 cover.
const OF_ANOTHER: &str = "Err(ChecksumMismatch { stored: 2436250345, computed: 1285686983 })";

type Reader = SstReader<MemoryStore, Xor>;

// A path, and the id that it has.
type Place = (&'static str, Ulid);

const FIRST: Place = (PATH, ID);

const SECOND: Place = (SECOND_PATH, SECOND_ID);

// A length, a place and the bits that change there, and what is answered then.
const DAMAGES: &[(usize, usize, u8, &str)] = &[
    (182, 0, 0, WHOLE),
    (181, 0, 0, "Err(InvalidVersion { actual_version: 27648 })"),
    (182, 181, 3, "Err(CorruptTable { place: 0 })"),
    (
        182,
        4,
        0x01,
        "Err(ChecksumMismatch { stored: 3827995144, computed: 2326169929 })",
    ),
    (10, 0, 0, "Err(EmptySSTable { len: 10 })"),
    (182, 179, 0xc4, "Err(EmptyBlockMeta { len: 4 })"),
];

// Whether a reader answers of a file what was written: its size, count of rows, first and last key, index and first block.
fn is_whole(
    alloc: Global,
    reader: &mut Reader,
    file: &SstFile,
    len: usize,
) -> Result<bool, SlateDBError> {
    let size = file.metadata(alloc, reader)?.size;
    let count = match file.stats(alloc, reader)? {
        Some(stats) => stats.num_rows(),
        None => 0,
    };
    let has_block = has_block(file.index(alloc, reader)?);
    let rows = file.read_block(alloc, reader, 0)?;
    let has_rows = are_rows(alloc, Some(rows), ROWS);
    Ok(size == len as u64 && count == 1 && has_ends(file.info()) && has_block && has_rows)
}

// The first block lies at 0, and a separates it.
fn has_block(index: SstIndex) -> bool {
    let has_block = matches!(index.get(0), Some((0, b"a")));
    drop(index);
    has_block
}

fn has_ends(info: &SsTableInfo) -> bool {
    let key = Some(Bytes::from_static(b"a"));
    let has_ends = info.first_entry == key && info.last_entry == key;
    drop(key);
    has_ends
}

fn answer_of_reader(
    alloc: Global,
    reader: &mut Reader,
    id: Ulid,
    len: usize,
) -> Result<bool, SlateDBError> {
    let file = reader.open(alloc, id)?;
    let answered = is_whole(alloc, reader, &file, len);
    drop(file);
    answered
}

// Whether the table over a store in memory with these bytes at its path is whole, or how it is refused. This call of the store fails.
fn answer_of(alloc: Global, bytes: &[u8], call: u64) -> Option<String> {
    answer_at(alloc, FIRST, bytes, call)
}

// The same at another path, under the id that it has.
fn answer_at(alloc: Global, place: Place, bytes: &[u8], call: u64) -> Option<String> {
    let mut store = MemoryStore::new(alloc, one(alloc, call));
    let put = store.put(alloc, place.0, bytes).ok();
    let Some(mut reader) = Reader::new(alloc, "db", store, None).ok() else {
        return None;
    };
    let answered = answer_of_reader(alloc, &mut reader, place.1, bytes.len());
    drop(reader);
    let text = format!(in alloc; "{answered:?}").ok();
    drop(answered);
    put.and(text)
}

// The same of the table, cut to a length, with these bits changed at a place.
fn answer_of_damaged(alloc: Global, len: usize, at: usize, bits: u8) -> Option<String> {
    let Some(mut bytes) = TABLE.to_vec(alloc).ok() else {
        return None;
    };
    bytes.truncate(len);
    if let Some(byte) = bytes.get_mut(at) {
        *byte ^= bits;
    }
    answer_of(alloc, bytes.as_slice(), 0)
}

fn is_text(answer: Option<String>, expected: &str) -> bool {
    match answer {
        Some(text) => text.as_str() == expected,
        None => false,
    }
}

fn are_named(alloc: Global) -> bool {
    for (len, at, bits, expected) in DAMAGES {
        if !is_text(answer_of_damaged(alloc, *len, *at, *bits), expected) {
            return false;
        }
    }
    true
}

#[test]
fn damage_is_named(rt: HostRuntime) {
    assert!(rt; are_named(rt.alloc()));
}

// How a table is refused that isn't there.
fn answer_of_nothing(alloc: Global) -> Option<String> {
    let store = MemoryStore::new(alloc, Vec::new(alloc));
    let mut reader = Reader::new(alloc, "db", store, None).ok()?;
    let answered = answer_of_reader(alloc, &mut reader, ID, 0);
    drop(reader);
    let text = format!(in alloc; "{answered:?}").ok();
    drop(answered);
    text
}

#[test]
fn a_missing_table_is_named(rt: HostRuntime) {
    assert!(rt;
        is_text(
            answer_of_nothing(rt.alloc()),
            "Err(CorruptTable { place: 0 })"
        )
    );
}

// Whether the table is whole or named as damaged, with the byte at a place changed.
fn is_well_with(alloc: Global, at: usize) -> bool {
    match answer_of_damaged(alloc, TABLE.len(), at, 0x11) {
        Some(answered) => answered.as_str() == WHOLE || answered.as_str().contains(" { "),
        None => false,
    }
}

fn is_well_with_each(alloc: Global) -> bool {
    for at in 0..TABLE.len() {
        if !is_well_with(alloc, at) {
            return false;
        }
    }
    true
}

#[test]
fn no_changed_byte_changes_an_answer(rt: HostRuntime) {
    assert!(rt; is_well_with_each(rt.alloc()));
}

// In version 3 the checksums cover the table's id.
fn is_read_under_its_id(alloc: Global) -> bool {
    is_text(answer_of(alloc, TABLE_OF_V3, 0), WHOLE)
        && is_text(answer_at(alloc, SECOND, TABLE, 0), WHOLE)
        && is_text(answer_at(alloc, SECOND, TABLE_OF_V3, 0), OF_ANOTHER)
}

#[test]
fn a_table_of_version_3_is_read_under_its_id(rt: HostRuntime) {
    assert!(rt; is_read_under_its_id(rt.alloc()));
}

// A run of the table, whose keys begin with a.
fn run_of_table(alloc: Global, store: MemoryStore) -> Result<SortedRun, SlateDBError> {
    let mut reader = Reader::new(alloc, "db", store, None)?;
    let file = reader.open(alloc, ID);
    drop(reader);
    let file = file?;
    let info: Result<_, _> = file.info().clone();
    drop(file);
    let table = SsTableHandle {
        id: ID,
        info: info?,
        format_version: 1,
    };
    Ok(SortedRun {
        prefix: Bytes::from_static(b"a"),
        tables: one(alloc, table),
    })
}

fn stored(alloc: Global) -> Option<MemoryStore> {
    let mut store = MemoryStore::new(alloc, Vec::new(alloc));
    let put = store.put(alloc, PATH, TABLE).ok();
    put.and(Some(store))
}

// The rows that the runs of segments bring: that of the table, and none.
fn segment_rows(alloc: Global) -> Option<Vec<RowEntry>> {
    let run = run_of_table(alloc, stored(alloc)?).ok()?;
    let options = SstIteratorOptions::default();
    let runs = one(alloc, run);
    let rows = SegmentMergeIterator::new(alloc, BytesRange::unbounded(), runs, options, &[]);
    let mut rows = rows.ok()?;
    let mut store = stored(alloc)?;
    let mut env: Env<'_, MemoryStore, NoOperator, Xor> = Env {
        store: &mut store,
        operator: None,
        transformer: None,
    };
    let begun = rows.init(alloc, &mut env).ok();
    let found = collect_rows(alloc, &mut rows, &mut env).ok();
    drop((rows, env));
    drop(store);
    begun.and(found)
}

#[test]
fn segments_bring_their_rows(rt: HostRuntime) {
    assert!(rt; are_rows(rt.alloc(), segment_rows(rt.alloc()), ROWS));
}

// The first call puts the table, and eight read it.
fn fails_at_each_call(alloc: Global) -> bool {
    for call in 2..10 {
        if !is_text(answer_of(alloc, TABLE, call), "Err(StoreFault)") {
            return false;
        }
    }
    is_text(answer_of(alloc, TABLE, 10), WHOLE)
}

#[test]
fn each_call_may_fail(rt: HostRuntime) {
    assert!(rt; fails_at_each_call(rt.alloc()));
}
