// Two threads that put one record.
ghost use Rattle.std.specs.Prelude.{◌≡◌, ◌≤◌, true, length};
ghost use Rattle.slate_shared.specs.Given.{ArePlain};
ghost use Rattle.slate_index.specs.Names.{is_plain_name};

use crate::calls::{Ended, Outcome, opened, outer};
use bytes::Bytes;
use slate_db::engine::Core;
use slate_db::laws::Laws;
use slate_index::audit::audit;
use slate_index::{Comma, IndexError, Name, lookup, put_record_shared};
use slate_shared::{Database, Pass, Plain};
use slate_store::MemoryStore;
use slate_txn::journal::Journal;
use slate_types::{NoExtractor, SlateDBError};
use std::alloc::Global;
use std::sync::Wait;
use std::thread;
use std::thread::Threads;

// The name of these bytes.
fn name(text: &'static [u8]) -> Name
    requires { is_plain_name text.now ≡ true }
{
    match Name::new(Bytes::from_static(text)) {
        Some(name) => name,
        None => unreachable!(),
    }
}

fn outcome(answer: Result<u64, IndexError>) -> Outcome {
    match answer {
        Ok(seq) => Outcome::Committed(seq),
        Err(IndexError::Db(SlateDBError::TransactionConflict { .. })) => Outcome::Conflict,
        Err(_) => Outcome::Refused,
    }
}

// What one attempt at a put of the record r1 comes to.
fn attempt<R: Wait>(
    rt: &R,
    alloc: Global,
    db: &Database<Plain>,
    pass: &mut Pass<Plain>,
    laws: &Laws<NoExtractor>,
    value: &'static [u8],
) -> Outcome
    requires table { pass.old.table ≡ db.now }
    requires laws { ArePlain laws.now.options laws.now.segments laws.now.policies.items }
    ensures same { (pass.new.table ≡ pass.old.table) × (pass.new.parts ≡ pass.old.parts) }
{
    let id = name(b"r1");
    let value = Bytes::from_static(value);
    let mut store = MemoryStore::new(alloc, Vec::new(alloc));
    let mut env = outer(&mut store);
    outcome(put_record_shared(rt, db, pass, &Comma, &id, &value, 0, &mut env, laws))
}

// What the put comes to. A conflict is with the other thread's put, which commits once: so one of two attempts has none.
fn puts<R: Wait>(
    rt: &R,
    alloc: Global,
    db: &Database<Plain>,
    pass: &mut Pass<Plain>,
    laws: &Laws<NoExtractor>,
    value: &'static [u8],
) -> Outcome
    requires table { pass.old.table ≡ db.now }
    requires laws { ArePlain laws.now.options laws.now.segments laws.now.policies.items }
    ensures same { (pass.new.table ≡ pass.old.table) × (pass.new.parts ≡ pass.old.parts) }
{
    match attempt(rt, alloc, db, pass, laws, value) {
        Outcome::Conflict => attempt(rt, alloc, db, pass, laws, value),
        ended => ended,
    }
}

// What the puts of two threads come to, each with fields of its own.
fn put_by_two<R: Threads + Wait + Sync>(
    rt: &R,
    alloc: Global,
    db: &Database<Plain>,
    passes: (Pass<Plain>, Pass<Plain>),
    laws: &Laws<NoExtractor>,
) -> (Ended<Outcome>, Ended<Outcome>)
    requires table { (passes.0.table ≡ db.now) × (passes.1.table ≡ db.now) }
    requires laws { ArePlain laws.now.options laws.now.segments laws.now.policies.items }
    ensures same { (result.0.0.table ≡ db.now) × (result.1.0.table ≡ db.now) }
{
    let (mut pass, mut other) = passes;
    thread::join(
        rt,
        move || -> Ended<Outcome>
            requires { (pass.table ≡ db.now) × ArePlain laws.now.options laws.now.segments laws.now.policies.items }
            ensures { result.0.table ≡ db.entry.now }
        {
            let outcome = puts(rt, alloc, db, &mut pass, laws, b"red,5");
            (pass, outcome)
        },
        move || -> Ended<Outcome>
            requires { (other.table ≡ db.now) × ArePlain laws.now.options laws.now.segments laws.now.policies.items }
            ensures { result.0.table ≡ db.entry.now }
        {
            let outcome = puts(rt, alloc, db, &mut other, laws, b"blue,7");
            (other, outcome)
        },
    )
}

// Whether all commits are changes of records.
fn is_audited(journal: &Journal) -> bool {
    match audit(journal, &Comma) {
        Ok(()) => true,
        Err(_) => false,
    }
}

// How many records are found by a field.
fn count(
    alloc: Global,
    core: &mut Core,
    laws: &Laws<NoExtractor>,
    number: u8,
    field: &'static [u8],
) -> Option<usize>
    requires laws { ArePlain laws.now.options laws.now.segments laws.now.policies.items }
    requires short { length field.now ≤ 1024 }
{
    let field = Bytes::from_static(field);
    let mut store = MemoryStore::new(alloc, Vec::new(alloc));
    let mut env = outer(&mut store);
    match lookup(core, number, &field, &mut env, laws) {
        Ok(ids) => Some(ids.len()),
        Err(_) => None,
    }
}

// How many are found by each field of one value.
fn counts(
    alloc: Global,
    core: &mut Core,
    laws: &Laws<NoExtractor>,
    first: &'static [u8],
    second: &'static [u8],
) -> (Option<usize>, Option<usize>)
    requires laws { ArePlain laws.now.options laws.now.segments laws.now.policies.items }
    requires short { (length first.now ≤ 1024) × (length second.now ≤ 1024) }
{
    let first = count(alloc, core, laws, 0, first);
    let second = count(alloc, core, laws, 1, second);
    (first, second)
}

// Whether the fields of the later put are found, and those of the earlier one aren't.
fn is_last_found(
    alloc: Global,
    core: &mut Core,
    laws: &Laws<NoExtractor>,
    first: Outcome,
    second: Outcome,
) -> bool
    requires laws { ArePlain laws.now.options laws.now.segments laws.now.policies.items }
{
    let red = counts(alloc, core, laws, b"red", b"5");
    let blue = counts(alloc, core, laws, b"blue", b"7");
    match (first, second) {
        (Outcome::Committed(1), Outcome::Committed(2)) => is_one(blue) && is_none(red),
        (Outcome::Committed(2), Outcome::Committed(1)) => is_one(red) && is_none(blue),
        _ => false,
    }
}

fn is_one(counts: (Option<usize>, Option<usize>)) -> bool {
    counts.0 == Some(1) && counts.1 == Some(1)
}

fn is_none(counts: (Option<usize>, Option<usize>)) -> bool {
    counts.0 == Some(0) && counts.1 == Some(0)
}

// Whether of two threads' puts of one record the later one stands, with its entries and no others.
fn is_kept_by_two<R: Threads + Wait + Sync>(rt: &R, alloc: Global) -> bool {
    let laws = Plain::laws(alloc);
    let Some((db, mut pass)) = opened(alloc, &laws) else {
        return false;
    };
    let other = pass.split(&db);
    let ((mut pass, first), (other, second)) = put_by_two(rt, alloc, &db, (pass, other), &laws);
    pass.join(&db, other);
    let mut core = db.close(rt, pass);
    let is_audited = is_audited(core.journal());
    let is_found = is_last_found(alloc, &mut core, &laws, first, second);
    core.close();
    is_audited && is_found
}

#[test]
fn two_threads_put_one_record(rt: HostRuntime) {
    assert!(rt; is_kept_by_two(&rt, rt.alloc()));
}
