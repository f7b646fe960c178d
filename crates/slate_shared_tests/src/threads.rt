// Threads that read, write and commit at once.
ghost use Rattle.std.specs.Prelude.{◌≡◌, ◌<◌};
ghost use Rattle.slate_shared.specs.Given.{ArePlain};

use crate::calls::{Ended, Row, commit, gets, is_flushed, opened, put, sees, writes_meanwhile};
use crate::gates::{GateStore, Gates, Waiting};
use slate_db::laws::Laws;
use slate_shared::{Database, Pass, Plain};
use slate_types::{IsolationLevel, NoExtractor, SlateDBError};
use std::alloc::Global;
use std::sync::Wait;
use std::thread;
use std::thread::Threads;

// What a get finds, and what another thread does once it waits.
fn read_and_write<R: Threads + Wait + Sync>(
    rt: &R,
    alloc: Global,
    db: &Database<Plain>,
    passes: (Pass<Plain>, Pass<Plain>),
    store: &mut GateStore<'_>,
    gates: &Gates,
    laws: &Laws<NoExtractor>,
) -> (Ended<bool>, Ended<bool>)
    requires table { (passes.0.table ≡ db.now) × (passes.1.table ≡ db.now) }
    requires laws { ArePlain laws.now.options laws.now.segments laws.now.policies.items }
    ensures same { (result.0.0.table ≡ db.now) × (result.1.0.table ≡ db.now) }
{
    let (mut pass, mut other) = passes;
    thread::join(
        rt,
        move || -> Ended<bool>
            requires { (pass.table ≡ db.now) × ArePlain laws.now.options laws.now.segments laws.now.policies.items }
            ensures { result.0.table ≡ db.entry.now }
        {
            let seen = sees(rt, db, &mut pass, store, laws, 1, (b"a", b"1", 1));
            (pass, seen)
        },
        move || -> Ended<bool>
            requires { (other.table ≡ db.now) × ArePlain laws.now.options laws.now.segments laws.now.policies.items }
            ensures { result.0.table ≡ db.entry.now }
        {
            let written = writes_meanwhile(rt, alloc, db, &mut other, gates, laws);
            (other, written)
        },
    )
}

// Whether a get from a stored table goes on while another thread's commit is written.
fn reads_beside<R: Threads + Wait + Sync>(
    rt: &R,
    alloc: Global,
    db: &Database<Plain>,
    pass: Pass<Plain>,
    store: &mut GateStore<'_>,
    gates: &Gates,
    laws: &Laws<NoExtractor>,
) -> bool
    requires table { pass.table ≡ db.now }
    requires parts { 1 < pass.parts }
    requires laws { ArePlain laws.now.options laws.now.segments laws.now.policies.items }
{
    let mut pass = pass;
    let seq = put(rt, alloc, db, &mut pass, store, laws, (b"a", b"1"));
    let flushed = is_flushed(rt, db, &mut pass, store, laws, 1);
    store.waits(Waiting::Reads);
    let other = pass.split(db);
    let passes = (pass, other);
    let ((mut pass, seen), (other, written)) = read_and_write(
        rt, alloc, db, passes, store, gates, laws,
    );
    pass.join(db, other);
    seq == Some(1) && flushed && seen && written
}

fn is_read_beside<R: Threads + Wait + Sync>(rt: &R, alloc: Global) -> bool {
    let laws = Plain::laws(alloc);
    let Some((db, pass)) = opened(alloc, &laws) else {
        return false;
    };
    let gates = Gates::new();
    let mut store = GateStore::new(alloc, &gates, Vec::new(alloc));
    reads_beside(rt, alloc, &db, pass, &mut store, &gates, &laws)
}

#[test]
fn a_get_reads_while_another_thread_commits(rt: HostRuntime) {
    assert!(rt; is_read_beside(&rt, rt.alloc()));
}

// Whether a thread sees what it wrote, whatever another one did.
fn sees_its_own<R: Wait>(
    rt: &R,
    alloc: Global,
    db: &Database<Plain>,
    pass: &mut Pass<Plain>,
    gates: &Gates,
    laws: &Laws<NoExtractor>,
    key: &[u8],
) -> bool
    requires table { pass.old.table ≡ db.now }
    requires laws { ArePlain laws.now.options laws.now.segments laws.now.policies.items }
    ensures same { (pass.new.table ≡ pass.old.table) × (pass.new.parts ≡ pass.old.parts) }
{
    let mut store = GateStore::new(alloc, gates, Vec::new(alloc));
    let Some(seq) = put(rt, alloc, db, pass, &mut store, laws, (key, b"1")) else {
        return false;
    };
    finds(rt, db, pass, &mut store, laws, (key, b"1", seq))
}

// Whether a transaction that begins now gets the row.
fn finds<R: Wait>(
    rt: &R,
    db: &Database<Plain>,
    pass: &mut Pass<Plain>,
    store: &mut GateStore<'_>,
    laws: &Laws<NoExtractor>,
    row: Row<'_>,
) -> bool
    requires table { pass.old.table ≡ db.now }
    requires laws { ArePlain laws.now.options laws.now.segments laws.now.policies.items }
    ensures same { (pass.new.table ≡ pass.old.table) × (pass.new.parts ≡ pass.old.parts) }
{
    let Some(mut txn) = pass.begin(rt, db, IsolationLevel::Snapshot).ok() else {
        return false;
    };
    let is_later = row.2 <= txn.seqnum();
    let is_got = gets(rt, db, &mut txn, store, laws, row.0, Some(row));
    txn.rollback(rt, db, pass);
    is_later && is_got
}

// What each of two threads sees of what it wrote.
fn see_by_two<R: Threads + Wait + Sync>(
    rt: &R,
    alloc: Global,
    db: &Database<Plain>,
    passes: (Pass<Plain>, Pass<Plain>),
    gates: &Gates,
    laws: &Laws<NoExtractor>,
) -> (Ended<bool>, Ended<bool>)
    requires table { (passes.0.table ≡ db.now) × (passes.1.table ≡ db.now) }
    requires laws { ArePlain laws.now.options laws.now.segments laws.now.policies.items }
    ensures same { (result.0.0.table ≡ db.now) × (result.1.0.table ≡ db.now) }
{
    let (mut pass, mut other) = passes;
    thread::join(
        rt,
        move || -> Ended<bool>
            requires { (pass.table ≡ db.now) × ArePlain laws.now.options laws.now.segments laws.now.policies.items }
            ensures { result.0.table ≡ db.entry.now }
        {
            let seen = sees_its_own(rt, alloc, db, &mut pass, gates, laws, b"a");
            (pass, seen)
        },
        move || -> Ended<bool>
            requires { (other.table ≡ db.now) × ArePlain laws.now.options laws.now.segments laws.now.policies.items }
            ensures { result.0.table ≡ db.entry.now }
        {
            let seen = sees_its_own(rt, alloc, db, &mut other, gates, laws, b"b");
            (other, seen)
        },
    )
}

// Whether two threads at once each see what they wrote.
fn see_their_own<R: Threads + Wait + Sync>(rt: &R, alloc: Global) -> bool {
    let laws = Plain::laws(alloc);
    let Some((db, mut pass)) = opened(alloc, &laws) else {
        return false;
    };
    let gates = Gates::new();
    let other = pass.split(&db);
    let passes = (pass, other);
    let ((mut pass, first), (other, second)) = see_by_two(rt, alloc, &db, passes, &gates, &laws);
    pass.join(&db, other);
    first && second
}

#[test]
fn a_thread_reads_what_it_wrote(rt: HostRuntime) {
    assert!(rt; see_their_own(&rt, rt.alloc()));
}

// The sequence of a commit, where it has one.
type Commit = Result<Option<u64>, SlateDBError>;

// What a commit answers of a transaction that reads a key and puts it, once another thread's has done so too.
fn ends<R: Wait>(
    rt: &R,
    alloc: Global,
    db: &Database<Plain>,
    pass: &mut Pass<Plain>,
    gates: &Gates,
    laws: &Laws<NoExtractor>,
    is_first: bool,
) -> Commit
    requires table { pass.old.table ≡ db.now }
    requires laws { ArePlain laws.now.options laws.now.segments laws.now.policies.items }
    ensures same { (pass.new.table ≡ pass.old.table) × (pass.new.parts ≡ pass.old.parts) }
{
    let mut store = GateStore::new(alloc, gates, Vec::new(alloc));
    let mut txn = pass.begin(rt, db, IsolationLevel::SerializableSnapshot)?;
    let is_none = gets(rt, db, &mut txn, &mut store, laws, b"a", None);
    let is_put = txn.put(b"a", b"1").is_ok();
    let have_met = gates.have_met(is_first);
    let ended = commit(rt, db, pass, txn, &mut store, laws);
    match ended {
        Ok(Some(handle)) if is_none && is_put && have_met => Ok(Some(handle.seqnum())),
        Ok(_) => Ok(None),
        Err(error) => Err(error),
    }
}

// Whether of two commits one has the first sequence and one conflicts with it.
fn is_one_conflict(first: Commit, second: Commit) -> bool {
    match (first, second) {
        (Ok(Some(1)), Err(SlateDBError::TransactionConflict { seq: 1 })) => true,
        (Err(SlateDBError::TransactionConflict { seq: 1 }), Ok(Some(1))) => true,
        _ => false,
    }
}

// What the commits of two threads answer.
fn end_by_two<R: Threads + Wait + Sync>(
    rt: &R,
    alloc: Global,
    db: &Database<Plain>,
    passes: (Pass<Plain>, Pass<Plain>),
    gates: &Gates,
    laws: &Laws<NoExtractor>,
) -> (Ended<Commit>, Ended<Commit>)
    requires table { (passes.0.table ≡ db.now) × (passes.1.table ≡ db.now) }
    requires laws { ArePlain laws.now.options laws.now.segments laws.now.policies.items }
    ensures same { (result.0.0.table ≡ db.now) × (result.1.0.table ≡ db.now) }
{
    let (mut pass, mut other) = passes;
    thread::join(
        rt,
        move || -> Ended<Commit>
            requires { (pass.table ≡ db.now) × ArePlain laws.now.options laws.now.segments laws.now.policies.items }
            ensures { result.0.table ≡ db.entry.now }
        {
            let ended = ends(rt, alloc, db, &mut pass, gates, laws, true);
            (pass, ended)
        },
        move || -> Ended<Commit>
            requires { (other.table ≡ db.now) × ArePlain laws.now.options laws.now.segments laws.now.policies.items }
            ensures { result.0.table ≡ db.entry.now }
        {
            let ended = ends(rt, alloc, db, &mut other, gates, laws, false);
            (other, ended)
        },
    )
}

// Whether of two serializable transactions that read and put one key one conflicts.
fn is_conflict<R: Threads + Wait + Sync>(rt: &R, alloc: Global) -> bool {
    let laws = Plain::laws(alloc);
    let Some((db, mut pass)) = opened(alloc, &laws) else {
        return false;
    };
    let gates = Gates::new();
    let other = pass.split(&db);
    let passes = (pass, other);
    let ((mut pass, first), (other, second)) = end_by_two(rt, alloc, &db, passes, &gates, &laws);
    pass.join(&db, other);
    is_one_conflict(first, second)
}

#[test]
fn of_two_conflicting_threads_one_commits(rt: HostRuntime) {
    assert!(rt; is_conflict(&rt, rt.alloc()));
}

// How many of ten puts are written.
fn writes_ten<R: Wait>(
    rt: &R,
    alloc: Global,
    db: &Database<Plain>,
    pass: &mut Pass<Plain>,
    gates: &Gates,
    laws: &Laws<NoExtractor>,
) -> u64
    requires table { pass.old.table ≡ db.now }
    requires laws { ArePlain laws.now.options laws.now.segments laws.now.policies.items }
    ensures same { (pass.new.table ≡ pass.old.table) × (pass.new.parts ≡ pass.old.parts) }
{
    let mut store = GateStore::new(alloc, gates, Vec::new(alloc));
    let mut count: u64 = 0;
    for _turn in 0..10 {
        if put(rt, alloc, db, pass, &mut store, laws, (b"a", b"1")).is_some() {
            count = count.saturating_add(1);
        }
    }
    count
}

// How many events the journal has.
fn events<R: Wait>(rt: &R, db: &Database<Plain>, pass: &mut Pass<Plain>) -> Option<usize>
    requires table { pass.old.table ≡ db.now }
    ensures same { (pass.new.table ≡ pass.old.table) × (pass.new.parts ≡ pass.old.parts) }
{
    let journal = pass.journal(rt, db).ok()?;
    Some(journal.len())
}

// How many puts each of two threads writes.
fn write_by_two<R: Threads + Wait + Sync>(
    rt: &R,
    alloc: Global,
    db: &Database<Plain>,
    passes: (Pass<Plain>, Pass<Plain>),
    gates: &Gates,
    laws: &Laws<NoExtractor>,
) -> (Ended<u64>, Ended<u64>)
    requires table { (passes.0.table ≡ db.now) × (passes.1.table ≡ db.now) }
    requires laws { ArePlain laws.now.options laws.now.segments laws.now.policies.items }
    ensures same { (result.0.0.table ≡ db.now) × (result.1.0.table ≡ db.now) }
{
    let (mut pass, mut other) = passes;
    thread::join(
        rt,
        move || -> Ended<u64>
            requires { (pass.table ≡ db.now) × ArePlain laws.now.options laws.now.segments laws.now.policies.items }
            ensures { result.0.table ≡ db.entry.now }
        {
            let count = writes_ten(rt, alloc, db, &mut pass, gates, laws);
            (pass, count)
        },
        move || -> Ended<u64>
            requires { (other.table ≡ db.now) × ArePlain laws.now.options laws.now.segments laws.now.policies.items }
            ensures { result.0.table ≡ db.entry.now }
        {
            let count = writes_ten(rt, alloc, db, &mut other, gates, laws);
            (other, count)
        },
    )
}

// Whether the journal has an event for each write of two threads.
fn are_counted<R: Threads + Wait + Sync>(rt: &R, alloc: Global) -> bool {
    let laws = Plain::laws(alloc);
    let Some((db, mut pass)) = opened(alloc, &laws) else {
        return false;
    };
    let gates = Gates::new();
    let other = pass.split(&db);
    let passes = (pass, other);
    let ((mut pass, first), (other, second)) = write_by_two(rt, alloc, &db, passes, &gates, &laws);
    pass.join(&db, other);
    first == 10 && second == 10 && events(rt, &db, &mut pass) == Some(20)
}

#[test]
fn two_threads_writes_stand_in_one_journal(rt: HostRuntime) {
    assert!(rt; are_counted(&rt, rt.alloc()));
}

// Whether a pass finds in the journal what another one wrote.
fn is_found<R: Wait>(rt: &R, alloc: Global) -> bool {
    let laws = Plain::laws(alloc);
    let Some((db, mut pass)) = opened(alloc, &laws) else {
        return false;
    };
    let gates = Gates::new();
    let mut store = GateStore::new(alloc, &gates, Vec::new(alloc));
    let mut other = pass.split(&db);
    let before = events(rt, &db, &mut other);
    let seq = put(rt, alloc, &db, &mut pass, &mut store, &laws, (b"a", b"1"));
    before == Some(0) && seq == Some(1) && events(rt, &db, &mut other) == Some(1)
}

#[test]
fn a_look_finds_what_another_pass_wrote(rt: HostRuntime) {
    assert!(rt; is_found(&rt, rt.alloc()));
}
