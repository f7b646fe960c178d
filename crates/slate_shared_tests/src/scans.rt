// Scans through one pass, as a script of one thread has them: what they show, and what they track.
ghost use Rattle.std.specs.Prelude.{◌≡◌, IfSome};
ghost use Rattle.slate_shared.specs.Given.{ArePlain};
ghost use Rattle.slate_shared_tests.specs.Scanning.{IsScanIn};

use crate::calls::{Row, commit, is_flushed, is_row, opened, outer, put};
use crate::gates::{GateStore, Gates};
use crate::rows::is_conflict;
use slate_db::laws::Laws;
use slate_db::scan::TxnIterator;
use slate_shared::{Database, DbTransaction, Pass, Plain, WriteHandle};
use slate_types::{IsolationLevel, IterationOrder, NoExtractor, ScanOptions, SlateDBError};
use std::alloc::Global;
use std::sync::Wait;

// A step of a scan: to the next row, or to its end; or to a key.
enum Step {
    Next(Option<Row<'static>>),
    Seek(&'static [u8]),
}

// A scan of all keys: its order, and its steps.
type Walk = (IterationOrder, &'static [Step]);

// A step of a script of one thread: a put with its sequence, or what a freeze or a flush answers.
enum Write {
    Put(Row<'static>),
    Freeze(u64),
    Flush(u64),
}

// What is written, the level of a transaction that begins then and has no operations, its scan, what is written behind that, one more
// scan, and the commit with which its own conflicts.
type Case = (
    &'static [Write],
    IsolationLevel,
    Walk,
    &'static [Write],
    Walk,
    Option<u64>,
);

// Opens a scan of all keys.
fn scan<'a, R: Wait>(
    rt: &R,
    db: &Database<Plain>,
    txn: &mut DbTransaction<Plain>,
    order: IterationOrder,
    store: &mut GateStore<'_>,
    laws: &'a Laws<NoExtractor>,
) -> Option<TxnIterator<'a>>
    requires table { txn.old.table ≡ db.now }
    requires laws { ArePlain laws.now.options laws.now.segments laws.now.policies.items }
    ensures same { txn.new.table ≡ txn.old.table }
    ensures within { IfSome result (IsScanIn txn.new) }
{
    let options = ScanOptions {
        order,
        filter_context: None,
    };
    let mut env = outer(store);
    txn.scan_with_options(rt, db, &(..), &options, &mut env, laws)
        .ok()
}

// Whether a scan takes a step.
fn is_step(
    txn: &mut DbTransaction<Plain>,
    it: &mut TxnIterator<'_>,
    store: &mut GateStore<'_>,
    step: &Step,
) -> bool
    requires { IsScanIn txn.old it.old }
    ensures same { txn.new.table ≡ txn.old.table }
    ensures within { IsScanIn txn.new it.new }
{
    let mut env = outer(store);
    match step {
        Step::Next(row) => is_row(txn.next(it, &mut env), *row),
        Step::Seek(key) => txn.seek(it, key, &mut env).is_ok(),
    }
}

fn are_steps(
    txn: &mut DbTransaction<Plain>,
    it: &mut TxnIterator<'_>,
    store: &mut GateStore<'_>,
    steps: &[Step],
) -> bool
    requires { IsScanIn txn.old it.old }
    ensures { txn.new.table ≡ txn.old.table }
{
    for step in steps {
        if !is_step(txn, it, store, step) {
            return false;
        }
    }
    true
}

// Whether a transaction makes such a scan.
fn walks<R: Wait>(
    rt: &R,
    db: &Database<Plain>,
    txn: &mut DbTransaction<Plain>,
    store: &mut GateStore<'_>,
    laws: &Laws<NoExtractor>,
    walk: Walk,
) -> bool
    requires table { txn.old.table ≡ db.now }
    requires laws { ArePlain laws.now.options laws.now.segments laws.now.policies.items }
    ensures { txn.new.table ≡ txn.old.table }
{
    let Some(mut it) = scan(rt, db, txn, walk.0, store, laws) else {
        return false;
    };
    let walked = are_steps(txn, &mut it, store, walk.1);
    drop(it);
    walked
}

fn is_written<R: Wait>(
    rt: &R,
    alloc: Global,
    db: &Database<Plain>,
    pass: &mut Pass<Plain>,
    store: &mut GateStore<'_>,
    laws: &Laws<NoExtractor>,
    write: &Write,
) -> bool
    requires table { pass.old.table ≡ db.now }
    requires laws { ArePlain laws.now.options laws.now.segments laws.now.policies.items }
    ensures same { (pass.new.table ≡ pass.old.table) × (pass.new.parts ≡ pass.old.parts) }
{
    match write {
        Write::Put(row) => put(rt, alloc, db, pass, store, laws, (row.0, row.1)) == Some(row.2),
        Write::Freeze(seq) => pass.freeze(rt, db).ok() == Some(*seq),
        Write::Flush(seq) => is_flushed(rt, db, pass, store, laws, *seq),
    }
}

fn are_written<R: Wait>(
    rt: &R,
    alloc: Global,
    db: &Database<Plain>,
    pass: &mut Pass<Plain>,
    store: &mut GateStore<'_>,
    laws: &Laws<NoExtractor>,
    writes: &[Write],
) -> bool
    requires table { pass.old.table ≡ db.now }
    requires laws { ArePlain laws.now.options laws.now.segments laws.now.policies.items }
    ensures same { (pass.new.table ≡ pass.old.table) × (pass.new.parts ≡ pass.old.parts) }
{
    for write in writes {
        if !is_written(rt, alloc, db, pass, store, laws, write) {
            return false;
        }
    }
    true
}

// Whether a commit of no operations was refused for a conflict with this commit, or for none ended.
fn is_end(ended: Result<Option<WriteHandle<Plain>>, SlateDBError>, conflict: Option<u64>) -> bool {
    match conflict {
        Some(seq) => is_conflict(ended, seq),
        None => matches!(ended, Ok(None)),
    }
}

// Whether all of it comes so.
fn ends_so<R: Wait>(
    rt: &R,
    alloc: Global,
    db: &Database<Plain>,
    pass: &mut Pass<Plain>,
    store: &mut GateStore<'_>,
    laws: &Laws<NoExtractor>,
    case: &Case,
) -> bool
    requires table { pass.old.table ≡ db.now }
    requires laws { ArePlain laws.now.options laws.now.segments laws.now.policies.items }
{
    let before = are_written(rt, alloc, db, pass, store, laws, case.0);
    let Some(mut txn) = pass.begin(rt, db, case.1).ok() else {
        return false;
    };
    let first = walks(rt, db, &mut txn, store, laws, case.2);
    let between = are_written(rt, alloc, db, pass, store, laws, case.3);
    let second = walks(rt, db, &mut txn, store, laws, case.4);
    let ended = commit(rt, db, pass, txn, store, laws);
    before && first && between && second && is_end(ended, case.5)
}

fn is_so<R: Wait>(rt: &R, alloc: Global, case: &Case) -> bool {
    let laws = Plain::laws(alloc);
    let Some((db, mut pass)) = opened(alloc, &laws) else {
        return false;
    };
    let gates = Gates::new();
    let mut store = GateStore::new(alloc, &gates, Vec::new(alloc));
    ends_so(rt, alloc, &db, &mut pass, &mut store, &laws, case)
}

// Whether each of them is so, in a database of its own.
fn are_so<R: Wait>(rt: &R, alloc: Global, cases: &[Case]) -> bool {
    for case in cases {
        if !is_so(rt, alloc, case) {
            return false;
        }
    }
    true
}

const UP: IterationOrder = IterationOrder::Ascending;

const DOWN: IterationOrder = IterationOrder::Descending;

const SI: IsolationLevel = IsolationLevel::Snapshot;

const SSI: IsolationLevel = IsolationLevel::SerializableSnapshot;

const END: Step = Step::Next(None);

const NONE: Walk = (UP, &[END]);

// One that takes no step.
const OPENED: Walk = (UP, &[]);

const C_1: Write = Write::Put((b"c", b"1", 1));

const FIVE: &[Write] = &[
    Write::Put((b"a", b"1", 1)),
    Write::Put((b"b", b"1", 2)),
    Write::Put((b"b", b"2", 3)),
    Write::Put((b"b", b"3", 4)),
    Write::Put((b"c", b"1", 5)),
    Write::Flush(5),
];

const MORE: &[Write] = &[
    Write::Put((b"b", b"4", 6)),
    Write::Put((b"d", b"1", 7)),
    Write::Flush(7),
];

const A: Step = Step::Next(Some((b"a", b"1", 1)));

const B: Step = Step::Next(Some((b"b", b"3", 4)));

const C: Step = Step::Next(Some((b"c", b"1", 5)));

const FALLING: &[Step] = &[C, Step::Seek(b"b"), B, A, END];

const RISING: &[Step] = &[A, B, Step::Seek(b"c"), C, END];

const STARTS: &[Case] = &[
    (
        &[],
        SSI,
        NONE,
        &[C_1, Write::Freeze(1), Write::Flush(1)],
        NONE,
        Some(1),
    ),
    (&[], SI, OPENED, FIVE, NONE, None),
    (FIVE, SI, (DOWN, FALLING), MORE, (UP, RISING), None),
];

#[test]
fn scans_are_of_their_start(rt: HostRuntime) {
    assert!(rt; are_so(&rt, rt.alloc(), STARTS));
}

const TWO: &[Write] = &[Write::Put((b"a", b"1", 1)), Write::Put((b"m", b"1", 2))];

const M: Step = Step::Next(Some((b"m", b"1", 2)));

const TO_K: Walk = (UP, &[Step::Seek(b"k")]);

const PUT_A: &[Write] = &[Write::Put((b"a", b"2", 3))];

const PUT_B: &[Write] = &[Write::Put((b"b", b"1", 3))];

const PUT_L: &[Write] = &[Write::Put((b"l", b"1", 3))];

const PUT_Z: &[Write] = &[Write::Put((b"z", b"1", 3))];

const PARTS: &[Case] = &[
    (TWO, SSI, (UP, &[A]), PUT_Z, OPENED, None),
    (TWO, SSI, (UP, &[A, M]), PUT_Z, OPENED, None),
    (TWO, SSI, (UP, &[A, M, END]), PUT_Z, OPENED, Some(3)),
    (TWO, SSI, (DOWN, &[M]), PUT_Z, OPENED, Some(3)),
    (TWO, SSI, TO_K, PUT_B, OPENED, Some(3)),
    (TWO, SSI, TO_K, PUT_L, OPENED, None),
    (TWO, SSI, OPENED, PUT_A, OPENED, None),
];

#[test]
fn a_scan_tracks_the_part_that_it_read(rt: HostRuntime) {
    assert!(rt; are_so(&rt, rt.alloc(), PARTS));
}
