// Operands in batches, and the rows that they make.
use crate::listing::{Row, are_rows, row};
use crate::parts::Concat;
use bytes::Bytes;
use slate_filter::ColonExtractor;
use slate_mem::fold::has_merge;
use slate_mem::{WriteBatch, fold_for_flush};
use slate_types::{MergeOptions, NoOperator, RowEntry, SlateDBError, Ttl};
use std::alloc::Global;

// A put, a merge and a put of one key.
fn replaced(alloc: Global) -> Option<WriteBatch> {
    let mut batch = WriteBatch::new(alloc);
    let first = batch.put(b"k:", b"1").ok();
    let second = batch.merge(b"k:", b"2").ok();
    let third = batch.put(b"k:", b"3").ok();
    first.and(second).and(third).and(Some(batch))
}

// Whether one operation is kept, and the merge is remembered, by the batch and by its copy.
fn remembers(alloc: Global) -> bool {
    let Some(batch) = replaced(alloc) else {
        return false;
    };
    let copy = batch.try_clone().ok();
    let is_one = batch.op_count() == 1 && batch.has_merge_ops();
    drop(batch);
    let Some(copy) = copy else { return false };
    let is_same = copy.op_count() == 1 && copy.has_merge_ops();
    drop(copy);
    is_one && is_same
}

#[test]
fn replaced_merges_are_remembered(rt: HostRuntime) {
    assert!(rt; remembers(rt.alloc()));
}

// The rows of such a commit at 3, whose one prefix is the key.
fn replaced_rows(alloc: Global) -> Option<Vec<RowEntry>> {
    let batch = replaced(alloc)?;
    let operator = &mut Some(Concat);
    let entries = batch.extract_entries(alloc, 3, 40, None, operator, Some(&ColonExtractor::new()));
    drop(batch);
    let (rows, prefixes, bytes) = entries.ok()?;
    let is_whole = prefixes.contains(&Bytes::from_static(b"k:")) && bytes == 3;
    drop(prefixes);
    if is_whole {
        Some(rows)
    } else {
        drop(rows);
        None
    }
}

#[test]
fn replaced_merges_make_no_row(rt: HostRuntime) {
    assert!(rt;
        are_rows(
            rt.alloc(),
            replaced_rows(rt.alloc()),
            &[(b"k:", 'v', b"3", 3, Some(40), None)]
        )
    );
}

// A put and two merges of one key, a delete and a merge of another, and a lone merge.
fn fill(batch: &mut WriteBatch) -> Option<()> {
    let hour = MergeOptions {
        ttl: Ttl::ExpireAfter(3600000),
    };
    let put = batch.put(b"k", b"1").ok();
    let second = batch.merge(b"k", b"2").ok();
    let third = batch
        .merge_bytes_with_options(Bytes::from_static(b"k"), Bytes::from_static(b"3"), &hour)
        .ok();
    let delete = batch.delete(b"l").ok();
    let above = batch.merge_with_options(b"l", b"4", &hour).ok();
    let lone = batch.merge(b"m", b"5").ok();
    put.and(second).and(third).and(delete).and(above).and(lone)
}

fn filled(alloc: Global) -> Option<WriteBatch> {
    let mut batch = WriteBatch::new(alloc);
    fill(&mut batch).and(Some(batch))
}

// The rows of such a commit at 7.
fn extracted(alloc: Global) -> Option<Vec<RowEntry>> {
    let batch = filled(alloc)?;
    let entries = batch.fold_entries(alloc, 7, 40, None, &mut Some(Concat));
    drop(batch);
    let (rows, bytes) = entries.ok()?;
    if bytes != 8 {
        drop(rows);
        return None;
    }
    Some(rows)
}

const EXTRACTED: &[Row] = &[
    (b"k", 'v', b"123", 7, Some(40), Some(3600040)),
    (b"l", 'v', b"4", 7, Some(40), Some(3600040)),
    (b"m", 'm', b"5", 7, Some(40), None),
];

#[test]
fn operands_are_extracted(rt: HostRuntime) {
    assert!(rt; are_rows(rt.alloc(), extracted(rt.alloc()), EXTRACTED));
}

// Whether a merge is refused for its key, and the batch is as it was.
fn is_refused(alloc: Global, key: &[u8]) -> bool {
    let mut batch = WriteBatch::new(alloc);
    let refusal = batch.merge(key, b"1");
    let is_as_before = batch.is_empty() && !batch.has_merge_ops();
    drop(batch);
    is_as_before && matches!(refusal, Err(SlateDBError::EmptyKey))
}

#[test]
fn merges_are_refused(rt: HostRuntime) {
    assert!(rt; is_refused(rt.alloc(), b""));
}

const STORED: &[Row] = &[
    (b"a", 'm', b"4", 9, Some(4), None),
    (b"a", 'm', b"3", 8, Some(3), Some(70)),
    (b"a", 'm', b"2", 7, Some(5), Some(60)),
    (b"a", 'v', b"1", 6, Some(1), None),
    (b"a", 'v', b"0", 5, Some(0), None),
    (b"b", 'm', b"2", 4, None, None),
    (b"b", 'd', b"", 3, None, None),
    (b"c", 'd', b"", 2, None, None),
];

const FLUSHED: &[Row] = &[
    (b"a", 'm', b"4", 9, Some(4), None),
    (b"a", 'v', b"123", 8, Some(5), Some(60)),
    (b"b", 'v', b"2", 4, None, None),
    (b"c", 'd', b"", 2, None, None),
];

fn rows_of(alloc: Global, rows: &[Row]) -> Option<Vec<RowEntry>> {
    let mut all = Vec::new(alloc);
    for expected in rows {
        all.push(row(expected)).ok()?;
    }
    Some(all)
}

fn flushed(alloc: Global) -> Option<Vec<RowEntry>> {
    let rows = rows_of(alloc, STORED)?;
    fold_for_flush(alloc, rows, 8, &mut Some(Concat)).ok()
}

#[test]
fn operands_are_folded_up_to_the_barrier(rt: HostRuntime) {
    assert!(rt; are_rows(rt.alloc(), flushed(rt.alloc()), FLUSHED));
}

// Without operands, and without an operator.
fn plain(alloc: Global) -> Option<Vec<RowEntry>> {
    let rows = rows_of(alloc, &STORED[3..5])?;
    if has_merge(&rows) {
        drop(rows);
        return None;
    }
    fold_for_flush(alloc, rows, 8, &mut None::<NoOperator>).ok()
}

#[test]
fn plain_rows_are_folded(rt: HostRuntime) {
    assert!(rt; are_rows(rt.alloc(), plain(rt.alloc()), &STORED[3..4]));
}
