// Iterators that fold operands.
use crate::listing::{Row, are_rows, row};
use crate::parts::Concat;
use slate_merge::merge_iterator::MergeIterator;
use slate_merge::operator_iterator::MergeOperatorIterator;
use slate_store::{Env, MemoryStore};
use slate_types::{
    IterationOrder, NoTransformer, RowEntry, RowEntryIterator, RowsIterator, SlateDBError,
    collect_rows,
};
use std::alloc::Global;

type Parts<'a> = Env<'a, MemoryStore, Concat, NoTransformer>;

const A_VALUE: Row = (b"a", 'v', b"x", 2, None, Some(20));

const A_OLD: Row = (b"a", 'v', b"old", 1, None, None);

const A_Y: Row = (b"a", 'm', b"y", 4, Some(7), Some(20));

const A_Z: Row = (b"a", 'm', b"z", 5, Some(1), Some(9));

const B_DELETION: Row = (b"b", 'd', b"", 1, None, None);

const B_Y: Row = (b"b", 'm', b"y", 3, None, None);

const C_Y: Row = (b"c", 'm', b"y", 6, None, None);

const C_Z: Row = (b"c", 'm', b"z", 7, None, None);

const C_ENDING: Row = (b"c", 'm', b"z", 7, None, Some(30));

const C_VALUE: Row = (b"c", 'v', b"x", 2, None, Some(30));

// The rows of the sources, whether rows are folded whose expiries differ, the barrier, a key to seek, and the rows that come.
type Case = (
    &'static [&'static [Row]],
    bool,
    Option<u64>,
    Option<&'static [u8]>,
    &'static [Row],
);

const CASES: &[Case] = &[
    // Operands over a put, which are two sources' rows. The put hides nothing that is handed through.
    (
        &[&[A_Z, A_VALUE, A_OLD], &[A_Y, B_DELETION]],
        true,
        None,
        None,
        &[(b"a", 'v', b"xyz", 5, Some(7), Some(9)), A_OLD, B_DELETION],
    ),
    // The newest operand is above the barrier.
    (
        &[&[A_Z, A_Y, A_VALUE]],
        true,
        Some(4),
        None,
        &[A_Z, (b"a", 'v', b"xy", 4, Some(7), Some(20))],
    ),
    // A fold ends where expiries differ.
    (
        &[&[A_Z, A_Y, A_VALUE]],
        false,
        None,
        None,
        &[A_Z, (b"a", 'v', b"xy", 4, Some(7), Some(20))],
    ),
    // So it does before a greater sequence too: no row is folded that rises.
    (
        &[&[C_Y, C_ENDING, C_VALUE]],
        false,
        None,
        None,
        &[C_Y, (b"c", 'v', b"xz", 7, None, Some(30))],
    ),
    // Over a deletion operands are a value, and over nothing an operand.
    (
        &[&[B_Y, B_DELETION, C_Z, C_Y]],
        true,
        None,
        None,
        &[
            (b"b", 'v', b"y", 3, None, None),
            (b"c", 'm', b"yz", 7, None, None),
        ],
    ),
    // Rows of one sequence are folded in the order in which they come.
    (
        &[&[C_Z], &[C_Z]],
        true,
        None,
        None,
        &[(b"c", 'm', b"zz", 7, None, None)],
    ),
    (
        &[&[A_Z, A_Y, A_VALUE, B_Y, C_Z, C_Y]],
        true,
        None,
        Some(b"c"),
        &[(b"c", 'm', b"yz", 7, None, None)],
    ),
];

fn source(alloc: Global, rows: &[Row]) -> RowsIterator {
    let mut made = Vec::new(alloc);
    for one in rows {
        drop(made.push(row(one)));
    }
    RowsIterator::new(made, IterationOrder::Ascending)
}

fn merge(alloc: Global, sources: &[&[Row]]) -> MergeIterator<RowsIterator> {
    let mut made = Vec::new(alloc);
    for rows in sources {
        drop(made.push(source(alloc, rows)));
    }
    MergeIterator::new(made).with_dedup(false)
}

fn folded(alloc: Global, case: &Case, env: &mut Parts<'_>) -> Result<Vec<RowEntry>, SlateDBError> {
    let mut rows = MergeOperatorIterator::new(merge(alloc, case.0), case.1, case.2)?;
    rows.init(alloc, env)?;
    if let Some(key) = case.3 {
        rows.seek(alloc, key, env)?;
    }
    collect_rows(alloc, &mut rows, env)
}

fn are_folded(alloc: Global) -> bool {
    let mut store = MemoryStore::new(alloc, Vec::new(alloc));
    for case in CASES {
        let mut env: Parts<'_> = Env {
            store: &mut store,
            operator: Some(Concat),
            transformer: None,
        };
        let rows = folded(alloc, case, &mut env).ok();
        drop(env);
        if !are_rows(alloc, rows, case.4) {
            return false;
        }
    }
    true
}

#[test]
fn operands_are_folded(rt: HostRuntime) {
    assert!(rt; are_folded(rt.alloc()));
}

// Without an operator the rows before an operand come, and then it is refused, again and again.
fn refuses_operands(alloc: Global) -> Result<bool, SlateDBError> {
    let mut rows = MergeOperatorIterator::new(source(alloc, &[A_VALUE, B_Y, C_Y]), true, None)?;
    rows.init(alloc, &mut ())?;
    let first = rows.next(alloc, &mut ())?.is_some();
    let missing = rows.next(alloc, &mut ());
    let again = rows.seek(alloc, b"c", &mut ());
    Ok(
        first
            && matches!(missing, Err(SlateDBError::MergeOperatorMissing))
            && matches!(again, Err(SlateDBError::MergeOperatorMissing)),
    )
}

#[test]
fn operands_are_refused(rt: HostRuntime) {
    assert!(rt; refuses_operands(rt.alloc()).unwrap_or(false));
}

// The rows before an operand come, and then a row of a greater sequence that would be folded into it is refused, again and again.
fn refuses_rises(alloc: Global, given: &[Row], different: bool) -> Result<bool, SlateDBError> {
    let mut store = MemoryStore::new(alloc, Vec::new(alloc));
    let mut env: Parts<'_> = Env {
        store: &mut store,
        operator: Some(Concat),
        transformer: None,
    };
    let mut rows = MergeOperatorIterator::new(source(alloc, given), different, None)?;
    rows.init(alloc, &mut env)?;
    let first = rows.next(alloc, &mut env)?.is_some();
    let rise = rows.next(alloc, &mut env);
    let again = rows.seek(alloc, b"c", &mut env);
    Ok(
        first
            && matches!(
                rise,
                Err(SlateDBError::InvalidSequenceOrder {
                    current_seq: 6,
                    next_seq: 7,
                })
            )
            && matches!(
                again,
                Err(SlateDBError::InvalidSequenceOrder {
                    current_seq: 6,
                    next_seq: 7,
                })
            ),
    )
}

#[test]
fn rises_are_refused(rt: HostRuntime) {
    assert!(rt; refuses_rises(rt.alloc(), &[A_VALUE, C_Y, C_ENDING], true).unwrap_or(false));
    assert!(rt; refuses_rises(rt.alloc(), &[A_VALUE, C_Y, C_Z], false).unwrap_or(false));
}
