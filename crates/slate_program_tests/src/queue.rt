// Threads and passes that share a queue of jobs.
ghost use Rattle.std.specs.Prelude.{◌≡◌, [], List};
ghost use Rattle.slate_types.specs.Config.{defaults};
ghost use Rattle.slate_types.specs.declared.config.IsolationLevel.{IsolationLevel};
ghost use Rattle.slate_txn.specs.declared.event.Event.{Event};
ghost use Rattle.slate_shared.specs.Given.{ArePlain};
ghost use Rattle.slate_steps.specs.Attempts.{IsAttempt};

use crate::calls::{Ended, opened, outer};
use bytes::Bytes;
use slate_db::laws::Laws;
use slate_queue::{Claim, QueueError, add_shared, audit, claim_shared};
use slate_shared::{Database, DbTransaction, Pass, Plain};
use slate_steps::on_pass::{begin, next, put, scan_prefix};
use slate_store::MemoryStore;
use slate_txn::journal::Journal;
use slate_types::{IsolationLevel, KeyValue, NoExtractor, SlateDBError};
use std::alloc::Global;
use std::sync::Wait;
use std::thread;
use std::thread::Threads;

// The id of a job that is added.
fn added<R: Wait>(
    rt: &R,
    alloc: Global,
    db: &Database<Plain>,
    pass: &mut Pass<Plain>,
    laws: &Laws<NoExtractor>,
) -> Option<u64>
    requires table { pass.old.table ≡ db.now }
    requires laws { ArePlain laws.now.options laws.now.segments laws.now.policies.items }
    ensures same { (pass.new.table ≡ pass.old.table) × (pass.new.parts ≡ pass.old.parts) }
{
    let payload = Bytes::from_static(b"x");
    let mut store = MemoryStore::new(alloc, Vec::new(alloc));
    let mut env = outer(&mut store);
    match add_shared(rt, db, pass, &payload, 0, &mut env, laws) {
        Ok(id) => Some(id),
        Err(_) => None,
    }
}

// How many of twenty jobs are added.
fn adds_twenty<R: Wait>(
    rt: &R,
    alloc: Global,
    db: &Database<Plain>,
    pass: &mut Pass<Plain>,
    laws: &Laws<NoExtractor>,
) -> u64
    requires table { pass.old.table ≡ db.now }
    requires laws { ArePlain laws.now.options laws.now.segments laws.now.policies.items }
    ensures same { (pass.new.table ≡ pass.old.table) × (pass.new.parts ≡ pass.old.parts) }
{
    let mut count: u64 = 0;
    for _turn in 0..20 {
        if added(rt, alloc, db, pass, laws).is_some() {
            count = count.saturating_add(1);
        }
    }
    count
}

// What a claim comes to: a job's id, no free job, a conflict with another thread's commit, or another refusal.
#[derive(Clone, Copy)]
enum ClaimOutcome {
    Claimed(u64),
    Idle,
    Conflict,
    Refused,
}

fn outcome(answer: Result<Option<Claim>, QueueError>) -> ClaimOutcome {
    match answer {
        Ok(Some(claim)) => ClaimOutcome::Claimed(claim.id),
        Ok(None) => ClaimOutcome::Idle,
        Err(QueueError::Db(SlateDBError::TransactionConflict { .. })) => ClaimOutcome::Conflict,
        Err(_) => ClaimOutcome::Refused,
    }
}

fn claims<R: Wait>(
    rt: &R,
    alloc: Global,
    db: &Database<Plain>,
    pass: &mut Pass<Plain>,
    laws: &Laws<NoExtractor>,
) -> ClaimOutcome
    requires table { pass.old.table ≡ db.now }
    requires laws { ArePlain laws.now.options laws.now.segments laws.now.policies.items }
    ensures same { (pass.new.table ≡ pass.old.table) × (pass.new.parts ≡ pass.old.parts) }
{
    let mut store = MemoryStore::new(alloc, Vec::new(alloc));
    let mut env = outer(&mut store);
    outcome(claim_shared(rt, db, pass, 0, 10, &mut env, laws))
}

// The ids that a worker claims until no job is free; None where a claim is refused. Each turn before is a claim, or a conflict with
// one of the other worker: so there are twenty of them at most. An id that isn't kept is missed in the end.
fn works<R: Wait>(
    rt: &R,
    alloc: Global,
    db: &Database<Plain>,
    pass: &mut Pass<Plain>,
    laws: &Laws<NoExtractor>,
) -> Option<Vec<u64>>
    requires table { pass.old.table ≡ db.now }
    requires laws { ArePlain laws.now.options laws.now.segments laws.now.policies.items }
    ensures same { (pass.new.table ≡ pass.old.table) × (pass.new.parts ≡ pass.old.parts) }
{
    let mut ids = Vec::new(alloc);
    for _turn in 0..21 {
        match claims(rt, alloc, db, pass, laws) {
            ClaimOutcome::Claimed(id) => drop(ids.push(id)),
            ClaimOutcome::Idle => return Some(ids),
            ClaimOutcome::Conflict => thread::yield_now(),
            ClaimOutcome::Refused => return None,
        }
    }
    None
}

// What each of two workers claims.
fn work_by_two<R: Threads + Wait + Sync>(
    rt: &R,
    alloc: Global,
    db: &Database<Plain>,
    passes: (Pass<Plain>, Pass<Plain>),
    laws: &Laws<NoExtractor>,
) -> (Ended<Option<Vec<u64>>>, Ended<Option<Vec<u64>>>)
    requires table { (passes.0.table ≡ db.now) × (passes.1.table ≡ db.now) }
    requires laws { ArePlain laws.now.options laws.now.segments laws.now.policies.items }
    ensures same { (result.0.0.table ≡ db.now) × (result.1.0.table ≡ db.now) }
{
    let (mut pass, mut other) = passes;
    thread::join(
        rt,
        move || -> Ended<Option<Vec<u64>>>
            requires { (pass.table ≡ db.now) × ArePlain laws.now.options laws.now.segments laws.now.policies.items }
            ensures { result.0.table ≡ db.entry.now }
        {
            let ids = works(rt, alloc, db, &mut pass, laws);
            (pass, ids)
        },
        move || -> Ended<Option<Vec<u64>>>
            requires { (other.table ≡ db.now) × ArePlain laws.now.options laws.now.segments laws.now.policies.items }
            ensures { result.0.table ≡ db.entry.now }
        {
            let ids = works(rt, alloc, db, &mut other, laws);
            (other, ids)
        },
    )
}

// Whether two lists have the numbers from 1 to 20, each once.
fn have_twenty(first: &[u64], second: &[u64]) -> bool {
    for id in 1..21 {
        if first.contains(&id) == second.contains(&id) {
            return false;
        }
    }
    first.len().saturating_add(second.len()) == 20
}

// Whether both workers have come to the end, and each job was claimed once.
fn are_claimed(first: Option<Vec<u64>>, second: Option<Vec<u64>>) -> bool {
    match (first, second) {
        (Some(first), Some(second)) => have_twenty(first.as_slice(), second.as_slice()),
        _ => false,
    }
}

// Whether all commits are those of a queue's calls.
fn is_audited(journal: &Journal) -> bool {
    match audit(journal) {
        Ok(()) => true,
        Err(_) => false,
    }
}

// Whether two workers claim twenty jobs, each once.
fn claim_each_once<R: Threads + Wait + Sync>(rt: &R, alloc: Global) -> bool {
    let laws = Plain::laws(alloc);
    let Some((db, mut pass)) = opened(alloc, &laws) else {
        return false;
    };
    let count = adds_twenty(rt, alloc, &db, &mut pass, &laws);
    let other = pass.split(&db);
    let ((mut pass, first), (other, second)) = work_by_two(rt, alloc, &db, (pass, other), &laws);
    pass.join(&db, other);
    let core = db.close(rt, pass);
    let is_audited = is_audited(core.journal());
    core.close();
    count == 20 && is_audited && are_claimed(first, second)
}

#[test]
fn two_workers_claim_each_job_once(rt: HostRuntime) {
    assert!(rt; claim_each_once(&rt, rt.alloc()));
}

// The key of job 1, and the job under its first lease, which ends at 10.
const FIRST: [u8; 9] = *b"j\0\0\0\0\0\0\0\x01";

const LEASED: [u8; 17] = *b"\0\0\0\0\0\0\0\x01\0\0\0\0\0\0\0\x0ax";

fn is_first(row: Result<Option<KeyValue>, SlateDBError>) -> bool {
    match row {
        Ok(Some(row)) => row.key.as_slice() == FIRST.as_slice(),
        _ => false,
    }
}

// Whether a transaction takes the steps of a claim of job 1: it scans the jobs to the first, and puts it under its next lease.
fn takes_first<R: Wait>(
    rt: &R,
    alloc: Global,
    db: &Database<Plain>,
    txn: &mut DbTransaction<Plain>,
    laws: &Laws<NoExtractor>,
) -> bool
    requires table { txn.old.table ≡ db.now }
    requires begun { (from : List Event) × IsAttempt defaults from IsolationLevel.SerializableSnapshot [] txn.old }
    requires laws { ArePlain laws.now.options laws.now.segments laws.now.policies.items }
    ensures same { txn.new.table ≡ txn.old.table }
{
    let mut store = MemoryStore::new(alloc, Vec::new(alloc));
    let mut env = outer(&mut store);
    let Ok(mut scan) = scan_prefix(rt, db, txn, b"j", &mut env, laws) else {
        return false;
    };
    let is_first = is_first(next(txn, &mut scan, &mut env));
    drop(scan);
    is_first && put(txn, FIRST.as_slice(), LEASED.as_slice()).is_ok()
}

// The sequence of a commit.
fn committed<R: Wait>(
    rt: &R,
    alloc: Global,
    db: &Database<Plain>,
    pass: &mut Pass<Plain>,
    txn: DbTransaction<Plain>,
    laws: &Laws<NoExtractor>,
) -> Option<u64>
    requires table { (txn.table ≡ db.now) × (pass.old.table ≡ db.now) }
    requires laws { ArePlain laws.now.options laws.now.segments laws.now.policies.items }
    ensures same { (pass.new.table ≡ pass.old.table) × (pass.new.parts ≡ pass.old.parts) }
{
    let mut store = MemoryStore::new(alloc, Vec::new(alloc));
    let mut env = outer(&mut store);
    let handle = txn.commit(rt, db, pass, 0, &mut env, laws).ok().flatten()?;
    Some(handle.seqnum())
}

// Whether a claim of job 1 is committed behind an add by another pass that came between its begin and its commit.
fn is_claimed<R: Wait>(
    rt: &R,
    alloc: Global,
    db: &Database<Plain>,
    pass: &mut Pass<Plain>,
    other: &mut Pass<Plain>,
    laws: &Laws<NoExtractor>,
) -> bool
    requires table { (pass.old.table ≡ db.now) × (other.old.table ≡ db.now) }
    requires laws { ArePlain laws.now.options laws.now.segments laws.now.policies.items }
    ensures same { (pass.new.table ≡ pass.old.table) × (other.new.table ≡ other.old.table) }
{
    let Some(mut txn) = begin(rt, db, pass, IsolationLevel::SerializableSnapshot).ok() else {
        return false;
    };
    let is_taken = takes_first(rt, alloc, db, &mut txn, laws);
    let new = added(rt, alloc, db, other, laws);
    let seq = committed(rt, alloc, db, pass, txn, laws);
    is_taken && new == Some(2) && seq == Some(3)
}

// Whether a claim and an add at once are both committed, and the journal is a queue's.
fn is_beside<R: Wait>(rt: &R, alloc: Global) -> bool {
    let laws = Plain::laws(alloc);
    let Some((db, mut pass)) = opened(alloc, &laws) else {
        return false;
    };
    let new = added(rt, alloc, &db, &mut pass, &laws);
    let mut other = pass.split(&db);
    let is_claimed = is_claimed(rt, alloc, &db, &mut pass, &mut other, &laws);
    pass.join(&db, other);
    let core = db.close(rt, pass);
    let is_audited = is_audited(core.journal());
    core.close();
    new == Some(1) && is_claimed && is_audited
}

#[test]
fn a_claim_and_an_add_both_commit(rt: HostRuntime) {
    assert!(rt; is_beside(&rt, rt.alloc()));
}
