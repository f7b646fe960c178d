// Iterators over others: filters, rows looked at, and merges.
use crate::listing::{Row, are_rows, row, walked};
use slate_merge::filter_iterator::{FilterIterator, MaxSeq};
use slate_merge::merge_iterator::MergeIterator;
use slate_merge::peeking_iterator::PeekingIterator;
use slate_types::{
    IterationOrder, RowEntry, RowEntryIterator, RowsIterator, SlateDBError, TrackedRowEntryIterator,
};
use std::alloc::Global;

const UP: IterationOrder = IterationOrder::Ascending;

const DOWN: IterationOrder = IterationOrder::Descending;

const A_1: Row = (b"a", 'v', b"xy", 1, None, None);

const A_4: Row = (b"a", 'v', b"z", 4, None, None);

const B_3: Row = (b"b", 'v', b"y", 3, None, None);

const B_5: Row = (b"b", 'v', b"y", 5, None, None);

const C_2: Row = (b"c", 'v', b"z", 2, None, None);

const C_3: Row = (b"c", 'v', b"z", 3, None, None);

fn source(alloc: Global, rows: &[Row], order: IterationOrder) -> RowsIterator {
    let mut made = Vec::new(alloc);
    for one in rows {
        drop(made.push(row(one)));
    }
    RowsIterator::new(made, order)
}

fn keeps_up_to(alloc: Global, max_seq: Option<u64>, expected: &[Row]) -> bool {
    let rows = source(alloc, &[A_1, B_5, C_3], UP);
    let rows = FilterIterator::new(alloc, rows, MaxSeq { max_seq });
    are_rows(alloc, walked(alloc, rows, None), expected)
}

#[test]
fn filters_drop_rows_above_a_sequence(rt: HostRuntime) {
    assert!(rt; keeps_up_to(rt.alloc(), Some(3), &[A_1, C_3]));
}

#[test]
fn filters_without_a_sequence_keep_all(rt: HostRuntime) {
    assert!(rt; keeps_up_to(rt.alloc(), None, &[A_1, B_5, C_3]));
}

// The rows of the sources, an order, whether older rows are dropped, a key to seek, and the rows of the merge.
type Case = (
    &'static [&'static [Row]],
    IterationOrder,
    bool,
    Option<&'static [u8]>,
    &'static [Row],
);

const CASES: &[Case] = &[
    (&[], UP, true, None, &[]),
    (&[&[], &[]], UP, true, None, &[]),
    (
        &[&[A_1, C_2], &[A_4, B_3]],
        UP,
        true,
        None,
        &[A_4, B_3, C_2],
    ),
    (
        &[&[A_1, C_2], &[A_4, B_3]],
        UP,
        false,
        None,
        &[A_4, A_1, B_3, C_2],
    ),
    (
        &[&[A_1, C_2], &[A_4, B_3]],
        UP,
        true,
        Some(b"b"),
        &[B_3, C_2],
    ),
    (
        &[&[C_2, A_1], &[B_3, A_4]],
        DOWN,
        true,
        None,
        &[C_2, B_3, A_4],
    ),
    (
        &[&[C_2, A_1], &[B_3, A_4]],
        DOWN,
        false,
        Some(b"b"),
        &[B_3, A_4, A_1],
    ),
];

fn merge(alloc: Global, case: &Case) -> MergeIterator<RowsIterator> {
    let mut sources = Vec::new(alloc);
    for rows in case.0 {
        drop(sources.push(source(alloc, rows, case.1)));
    }
    MergeIterator::new_with_order(sources, case.1).with_dedup(case.2)
}

fn are_merged(alloc: Global) -> bool {
    for case in CASES {
        let rows = Ok(merge(alloc, case));
        if !are_rows(alloc, walked(alloc, rows, case.3), case.4) {
            return false;
        }
    }
    true
}

#[test]
fn sources_are_merged(rt: HostRuntime) {
    assert!(rt; are_merged(rt.alloc()));
}

// The first row of the merge, with the older one that it hides, has 2 + 3 bytes.
fn counts_duplicates(alloc: Global) -> Result<bool, SlateDBError> {
    let mut rows = merge(alloc, &CASES[2]);
    rows.init(alloc, &mut ())?;
    drop(rows.next(alloc, &mut ())?);
    Ok(TrackedRowEntryIterator::<()>::bytes_processed(&rows) == 5)
}

#[test]
fn hidden_rows_are_counted(rt: HostRuntime) {
    assert!(rt; counts_duplicates(rt.alloc()).unwrap_or(false));
}

fn is_row(answer: Option<&RowEntry>, expected: &Row) -> bool {
    let Some(answer) = answer else { return false };
    answer.key.as_slice() == expected.0 && answer.seq == expected.3
}

// Two looks and a seek to its key leave the row that was read ahead.
fn looks_ahead(alloc: Global) -> Result<bool, SlateDBError> {
    let mut rows = PeekingIterator::new(source(alloc, &[A_1, C_2], UP))?;
    rows.init(alloc, &mut ())?;
    rows.read_ahead(alloc, &mut ())?;
    let once = is_row(rows.ahead(), &A_1);
    rows.read_ahead(alloc, &mut ())?;
    let twice = is_row(rows.ahead(), &A_1);
    rows.seek(alloc, b"a", &mut ())?;
    let first = is_row(rows.next(alloc, &mut ())?.as_ref(), &A_1);
    let second = is_row(rows.next(alloc, &mut ())?.as_ref(), &C_2);
    Ok(once && twice && first && second)
}

#[test]
fn rows_are_looked_at(rt: HostRuntime) {
    assert!(rt; looks_ahead(rt.alloc()).unwrap_or(false));
}
