//! Lists of few items, rows of a walk, and answers beside what is expected.
use bytes::Bytes;
use slate_types::{RowEntry, RowEntryIterator, SlateDBError, ValueDeletable, collect_rows};
use std::alloc::Global;

/// A row: its key, what it is, its bytes, its sequence, its creation and its expiry.
pub type Row = (
    &'static [u8],
    char,
    &'static [u8],
    u64,
    Option<i64>,
    Option<i64>,
);

/// What it is: a value, a merge, or else a deletion.
pub fn row(row: &Row) -> RowEntry {
    RowEntry {
        key: Bytes::from_static(row.0),
        value: match row.1 {
            'v' => ValueDeletable::Value(Bytes::from_static(row.2)),
            'm' => ValueDeletable::Merge(Bytes::from_static(row.2)),
            _ => ValueDeletable::Tombstone,
        },
        seq: row.3,
        create_ts: row.4,
        expire_ts: row.5,
    }
}

/// A list of one item. It is empty where memory is wanting, which its test then sees.
pub fn one<T: Drop>(alloc: Global, item: T) -> Vec<T> {
    let mut items = Vec::new(alloc);
    drop(items.push(item));
    items
}

/// The rows that are left of a walk, behind a seek where there is a key.
pub fn walked<I: RowEntryIterator<()>>(
    alloc: Global,
    rows: Result<I, SlateDBError>,
    key: Option<&[u8]>,
) -> Option<Vec<RowEntry>> {
    let Some(mut rows) = rows.ok() else {
        return None;
    };
    let ready = rows.init(alloc, &mut ()).ok();
    let sought = match key {
        Some(key) => rows.seek(alloc, key, &mut ()).ok(),
        None => ready,
    };
    let rows = collect_rows(alloc, &mut rows, &mut ()).ok();
    ready.and(sought).and(rows)
}

/// Whether both are answered, and the same.
pub fn are_same_rows(answer: Option<Vec<RowEntry>>, other: Option<Vec<RowEntry>>) -> bool {
    answer.is_some() && answer == other
}

/// Whether just these rows are answered.
pub fn are_rows(alloc: Global, answer: Option<Vec<RowEntry>>, expected: &[Row]) -> bool {
    let mut rows = Vec::new(alloc);
    for expected in expected {
        drop(rows.push(row(expected)));
    }
    are_same_rows(answer, Some(rows))
}

/// Whether these bytes are answered.
pub fn is_bytes(answer: Option<Bytes>, expected: &[u8]) -> bool {
    let Some(bytes) = answer else { return false };
    let is_same = bytes.as_slice() == expected;
    drop(bytes);
    is_same
}
