// Iterators over rows of others and over the rows of a table.
use crate::tables::{A_1, B_2, B_3, C_5, four_rows};
use bytes::Bytes;
use slate_lower_tests::listing::{Row, are_rows, row, walked};
use slate_read::{
    EmptyIterator, FilterIterator, InternalSstIterator, MergeIterator,
    MergeOperatorRequiredIterator, SstIterator, SstIteratorOptions,
};
use slate_store::{Env, MemoryStore};
use slate_types::{
    BytesRange, IterationOrder, NoOperator, NoTransformer, RowEntry, RowEntryIterator,
    RowsIterator, SlateDBError, TrackedRowEntryIterator, collect_rows,
};
use std::alloc::Global;
use std::ops::Bound;

fn source(alloc: Global, rows: &[Row]) -> RowsIterator {
    let mut made = Vec::new(alloc);
    for one in rows {
        drop(made.push(row(one)));
    }
    RowsIterator::new(made, IterationOrder::Ascending)
}

const A_5: Row = (b"a", 'v', b"", 5, None, None);

const B_10: Row = (b"b", 'v', b"", 10, None, None);

const C_10: Row = (b"c", 'v', b"", 10, None, None);

const D_8: Row = (b"d", 'v', b"", 8, None, None);

fn keeps_up_to_nine(alloc: Global) -> bool {
    let rows = source(alloc, &[A_5, B_10, B_2, C_10, D_8]);
    let rows = FilterIterator::new_with_max_seq(alloc, rows, Some(9));
    are_rows(alloc, walked(alloc, rows, None), &[A_5, B_2, D_8])
}

#[test]
fn rows_above_a_sequence_are_dropped(rt: HostRuntime) {
    assert!(rt; keeps_up_to_nine(rt.alloc()));
}

fn is_empty(alloc: Global, key: Option<&[u8]>) -> bool {
    are_rows(alloc, walked(alloc, Ok(EmptyIterator::new()), key), &[])
}

#[test]
fn an_empty_iterator_has_no_rows(rt: HostRuntime) {
    assert!(rt; is_empty(rt.alloc(), None) && is_empty(rt.alloc(), Some(b"a")));
}

const NEW_A: Row = (b"a", 'v', b"22", 2, None, None);

const OLD_A: Row = (b"a", 'v', b"11", 1, None, None);

const ONLY_B: Row = (b"b", 'v', b"3", 1, None, None);

fn merged(alloc: Global) -> MergeIterator<RowsIterator> {
    let mut sources = Vec::new(alloc);
    drop(sources.push(source(alloc, &[NEW_A])));
    drop(sources.push(source(alloc, &[OLD_A, ONLY_B])));
    MergeIterator::new(sources).with_dedup(true)
}

fn bytes_of(rows: &MergeIterator<RowsIterator>) -> u64 {
    TrackedRowEntryIterator::<()>::bytes_processed(rows)
}

// Returns how many bytes were processed after the first row and after the second.
fn processed(alloc: Global) -> Result<(u64, u64), SlateDBError> {
    let mut rows = merged(alloc);
    rows.init(alloc, &mut ())?;
    drop(rows.next(alloc, &mut ())?);
    let first = bytes_of(&rows);
    drop(rows.next(alloc, &mut ())?);
    Ok((first, bytes_of(&rows)))
}

#[test]
fn bytes_of_a_merge_are_counted(rt: HostRuntime) {
    assert!(rt; processed(rt.alloc()).ok() == Some((6, 8)));
}

type Required = MergeOperatorRequiredIterator<RowsIterator>;

const OPERAND: Row = (b"c", 'm', b"4", 4, None, None);

fn is_row(answer: Result<Option<RowEntry>, SlateDBError>, expected: &Row) -> bool {
    match answer.ok().flatten() {
        Some(found) => found.key.as_slice() == expected.0 && found.seq == expected.3,
        None => false,
    }
}

fn needs_operator(answer: Result<Option<RowEntry>, SlateDBError>) -> bool {
    matches!(answer, Err(SlateDBError::MergeOperatorMissing))
}

// Checks that a row that is no operand comes after a seek, and the operand after it is refused.
fn refuses_operands(alloc: Global) -> bool {
    let rows = Required::new(source(alloc, &[A_1, B_2, OPERAND]));
    let Some(mut rows) = rows.ok() else {
        return false;
    };
    let has_begun = rows.init(alloc, &mut ()).is_ok();
    let has_sought = rows.seek(alloc, b"b", &mut ()).is_ok();
    let has_row = is_row(rows.next(alloc, &mut ()), &B_2);
    let is_refused = needs_operator(rows.next(alloc, &mut ()));
    drop(rows);
    has_begun && has_sought && has_row && is_refused
}

#[test]
fn operands_need_an_operator(rt: HostRuntime) {
    assert!(rt; refuses_operands(rt.alloc()));
}

type Outer<'a> = Env<'a, MemoryStore, NoOperator, NoTransformer>;

// Returns the rows that are left of a walk over the store after a seek to b.
fn sought<'a, I: RowEntryIterator<Outer<'a>>>(
    alloc: Global,
    rows: Result<I, SlateDBError>,
    env: &mut Outer<'a>,
) -> Option<Vec<RowEntry>> {
    let mut rows = rows.ok()?;
    let begun = rows.init(alloc, env).ok();
    let sought = rows.seek(alloc, b"b", env).ok();
    let rows = collect_rows(alloc, &mut rows, env).ok();
    begun.and(sought).and(rows)
}

fn outer(store: &mut MemoryStore) -> Outer<'_> {
    Env {
        store,
        operator: None,
        transformer: None,
    }
}

fn sought_upwards(alloc: Global) -> Option<Vec<RowEntry>> {
    let (mut store, table) = four_rows(alloc)?;
    let options = SstIteratorOptions::default();
    let rows = InternalSstIterator::new(alloc, BytesRange::unbounded(), table, options);
    let rows = sought(alloc, rows, &mut outer(&mut store));
    drop(store);
    rows
}

#[test]
fn rows_of_a_table_are_walked(rt: HostRuntime) {
    assert!(rt; are_rows(rt.alloc(), sought_upwards(rt.alloc()), &[B_3, B_2, C_5]));
}

fn sought_downwards(alloc: Global) -> Option<Vec<RowEntry>> {
    let range = BytesRange::from_slice(alloc, Bound::Included(b"b"), Bound::Unbounded).ok()?;
    let (mut store, table) = four_rows(alloc)?;
    let options = SstIteratorOptions {
        order: IterationOrder::Descending,
        ..Default::default()
    };
    let rows = SstIterator::new(alloc, range, table, options, &[]);
    let rows = sought(alloc, rows, &mut outer(&mut store));
    drop(store);
    rows
}

#[test]
fn rows_of_a_table_are_walked_downwards(rt: HostRuntime) {
    assert!(rt; are_rows(rt.alloc(), sought_downwards(rt.alloc()), &[B_3, B_2]));
}
