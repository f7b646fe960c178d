// Tables built by one worker and by three, and by two that wait for each other.
ghost use Rattle.std.specs.Prelude.{◌≡◌, ◌^◌, ◌<◌, length, map, None, Some, IfSome};
ghost use Rattle.std.specs.List.{AllByRecursion};
ghost use Rattle.slate_types.specs.Config.{IsValid};
ghost use Rattle.slate_filter.specs.Laws.{AreValidNames};
ghost use Rattle.slate_table.specs.SectionReading.{changed_by};
ghost use Rattle.slate_table.specs.Table.{AreInOrder};
ghost use Rattle.slate_db.specs.Layers.{FitsMemory};
ghost use Rattle.slate_shared.specs.Encoded.{AreOfOneEncoding};

use crate::gates::Meeting;
use bytes::Bytes;
use slate_db::laws::Laws;
use slate_filter::FilterPolicy;
use slate_language::Xor;
use slate_shared::{EncodeWorker, FlushPlan, Plain, encode_segments};
use slate_table::EncodedSsTable;
use slate_types::{BlockFormat, BlockTransformer, NoExtractor, RowEntry, ValueDeletable};
use std::alloc::Global;
use std::sync::atomic::AtomicU64;
use std::thread::Threads;

// A row of a key, at 1.
fn row(key: &'static [u8]) -> RowEntry
    requires { (0 < length key.now) × (length key.now < 2 ^ 16) }
    ensures key { result.key ≡ key.now }
    ensures fits { FitsMemory result }
{
    RowEntry {
        key: Bytes::from_static(key),
        value: ValueDeletable::Value(Bytes::from_static(b"1")),
        seq: 1,
        create_ts: Some(0),
        expire_ts: None,
    }
}

// Rows of five keys, for the first flush.
fn plan(alloc: Global) -> Option<FlushPlan>
    ensures { IfSome result (λ plan. AreInOrder plan.rows.items × AllByRecursion FitsMemory plan.rows.items) }
{
    let mut rows = Vec::with_capacity(alloc, 5).ok()?;
    rows.push_reserved(row(b"a"));
    rows.push_reserved(row(b"b"));
    rows.push_reserved(row(b"c"));
    rows.push_reserved(row(b"d"));
    rows.push_reserved(row(b"e"));
    Some(FlushPlan { rows, number: 1 })
}

// Laws by which each key has a table of its own.
fn laws(alloc: Global) -> Laws<NoExtractor>
    ensures valid { IsValid result.options }
    ensures names { AreValidNames (map (λ p. (meaning (p.vtable, p.value)).name) result.policies.items) }
{
    let mut laws = Plain::laws(alloc);
    laws.options.table_bytes = 1;
    laws
}

// The tables that these workers build.
fn tables<R: Threads + Sync, T: BlockTransformer + Send>(
    rt: &R,
    alloc: Global,
    workers: &mut [EncodeWorker<T>],
) -> Option<Vec<EncodedSsTable>>
    requires { AreOfOneEncoding (map (λ w. changed_by T.encoded w.transformer) workers.old) }
{
    let plan = plan(alloc)?;
    let laws = laws(alloc);
    let tables = encode_segments(rt, alloc, &plan, &laws, workers).ok();
    drop((plan, laws));
    tables
}

fn worker() -> EncodeWorker<Xor>
    ensures { result.transformer ≡ Some (record { mask = 7 }) }
{
    EncodeWorker {
        transformer: Some(Xor { mask: 7 }),
    }
}

// Whether tables have the same ids and bytes.
fn is_same(table: &EncodedSsTable, other: &EncodedSsTable) -> bool {
    match (table.remaining_as_bytes(), other.remaining_as_bytes()) {
        (Ok(bytes), Ok(other_bytes)) => table.id().0 == other.id().0 && bytes == other_bytes,
        _ => false,
    }
}

// Whether they have, place by place, and are so many.
fn are_alike(tables: &[EncodedSsTable], others: &[EncodedSsTable], count: usize) -> bool {
    if tables.len() != count || others.len() != count {
        return false;
    }
    for (table, other) in tables.iter().zip(others.iter()) {
        if !is_same(table, other) {
            return false;
        }
    }
    true
}

// Whether one worker and three build the same five tables.
fn are_same_tables<R: Threads + Sync>(rt: &R, alloc: Global) -> bool {
    let one = tables(rt, alloc, &mut [worker()]);
    let three = tables(rt, alloc, &mut [worker(), worker(), worker()]);
    match (one, three) {
        (Some(one), Some(three)) => are_alike(&one, &three, 5),
        _ => false,
    }
}

#[test]
fn one_worker_and_three_build_the_same_tables(rt: HostRuntime) {
    assert!(rt; are_same_tables(&rt, rt.alloc()));
}

// All bytes of the table of the row a in version 1, which were written elsewhere: its block, index, statistics and info, each with its
// checksum, and its last bytes.
const TABLE: &[u8] = b"\
\x00\x00\x00\x01a\x00\x00\x00\x00\x00\x00\x00\x01\x04\x00\x00\x00\x00\x00\x00\x00\x00\x00\x00\x00\x011\x00\x00\x00\x01\xe4\x2a\x92\x08\
\x00\x00\x00\x01\x00\x00\x00\x00\x00\x00\x00\x00\x00\x01a\x6f\xd8\x2f\x07\
\x00\x00\x00\x00\x00\x00\x00\x01\x00\x00\x00\x00\x00\x00\x00\x00\x00\x00\x00\x00\x00\x00\x00\x00\x00\x00\x00\x00\x00\x00\x00\x01\x00\x00\x00\x00\x00\x00\x00\x01\x00\x00\x00\x01\x00\x01\x00\x00\x00\x00\xd5\xef\xf7\x79\
\x00\x01\x01\x00\x01a\x01\x00\x01a\x00\x00\x00\x00\x00\x00\x00\x23\x00\x00\x00\x00\x00\x00\x00\x13\x00\x00\x00\x00\x00\x00\x00\x23\x00\x00\x00\x00\x00\x00\x00\x00\x00\x00\x00\x00\x00\x00\x00\x36\x00\x00\x00\x00\x00\x00\x00\x36\x00\x01\xaa\xfc\xdf\xa4\
\x00\x00\x00\x00\x00\x00\x00\x6c\x00\x01";

// The row a alone, for the first flush.
fn plan_of_one(alloc: Global) -> Option<FlushPlan>
    ensures { IfSome result (λ plan. AreInOrder plan.rows.items × AllByRecursion FitsMemory plan.rows.items) }
{
    let mut rows = Vec::with_capacity(alloc, 1).ok()?;
    rows.push_reserved(row(b"a"));
    Some(FlushPlan { rows, number: 1 })
}

// Laws by which tables are of version 1.
fn laws_of_version_1(alloc: Global) -> Laws<NoExtractor>
    ensures valid { IsValid result.options }
    ensures names { AreValidNames (map (λ p. (meaning (p.vtable, p.value)).name) result.policies.items) }
{
    let mut laws = Plain::laws(alloc);
    laws.options.block_format = BlockFormat::V1;
    laws
}

// What these workers build of the row a in version 1.
fn tables_of_one<R: Threads + Sync>(
    rt: &R,
    alloc: Global,
    workers: &mut [EncodeWorker<Xor>],
) -> Option<Vec<EncodedSsTable>>
    requires { AreOfOneEncoding (map (λ w. changed_by ⟦<Xor as BlockTransformer>⟧.encoded w.transformer) workers.old) }
{
    let plan = plan_of_one(alloc)?;
    let laws = laws_of_version_1(alloc);
    let tables = encode_segments(rt, alloc, &plan, &laws, workers).ok();
    drop((plan, laws));
    tables
}

fn plain_worker() -> EncodeWorker<Xor>
    ensures { result.transformer ≡ None }
{
    EncodeWorker { transformer: None }
}

// Whether it is one table, and of these bytes.
fn is_one(tables: Option<Vec<EncodedSsTable>>, bytes: &[u8]) -> bool {
    let Some(tables) = tables else {
        return false;
    };
    match tables.as_slice() {
        [table] => has_bytes(table, bytes),
        _ => false,
    }
}

fn has_bytes(table: &EncodedSsTable, bytes: &[u8]) -> bool {
    match table.remaining_as_bytes() {
        Ok(found) => found.as_slice() == bytes,
        Err(_) => false,
    }
}

// Whether one worker and three build the table that was written elsewhere.
fn is_table<R: Threads + Sync>(rt: &R, alloc: Global) -> bool {
    let one = tables_of_one(rt, alloc, &mut [plain_worker()]);
    let three = tables_of_one(
        rt,
        alloc,
        &mut [plain_worker(), plain_worker(), plain_worker()],
    );
    is_one(one, TABLE) && is_one(three, TABLE)
}

#[test]
fn one_worker_and_three_build_a_known_table(rt: HostRuntime) {
    assert!(rt; is_table(&rt, rt.alloc()));
}

// A worker whose transformer meets another one.
fn meets<'a>(mine: &'a AtomicU64, other: &'a AtomicU64) -> EncodeWorker<Meeting<'a>> {
    EncodeWorker {
        transformer: Some(Meeting {
            mine,
            other,
            faults: 0,
        }),
    }
}

// Whether two workers build the tables, of which each waits for a call of the other's transformer.
fn work_at_once<R: Threads + Sync>(rt: &R, alloc: Global) -> bool {
    let first = AtomicU64::new(0);
    let second = AtomicU64::new(0);
    let mut workers = [meets(&first, &second), meets(&second, &first)];
    match tables(rt, alloc, &mut workers) {
        Some(tables) => tables.len() == 5,
        None => false,
    }
}

#[test]
fn two_workers_build_tables_at_once(rt: HostRuntime) {
    assert!(rt; work_at_once(&rt, rt.alloc()));
}
