//! Two workers that claim jobs.
ghost use Rattle.std.specs.Prelude.{◌≡◌, ◌+◌, IfOk, IsOkUnless};
ghost use Rattle.slate_types.specs.declared.error.SlateDBError.{SlateDBError};
ghost use Rattle.slate_shared.specs.Given.{ArePlain};
ghost use Rattle.slate_queue.specs.Commits.{IsQueueCommit};
ghost use Rattle.slate_threads.specs.Workers.{made_by};
ghost use Rattle.slate_services.specs.Claims.{claims_made};
ghost use Rattle.slate_services.specs.Jobs.{AreJobs};
ghost use Rattle.slate_services.specs.Plain.{IsCount, PlainWorked, plain_rules};

use bytes::Bytes;
use slate_db::laws::Laws;
use slate_queue::{Claim, QueueError, add_shared, claim_shared};
use slate_shared::{Database, Pass, Plain};
use slate_store::{Env, MemoryStore};
use slate_threads::close;
use slate_txn::journal::Journal;
use slate_types::{NoExtractor, NoOperator, NoTransformer, SlateDBError};
use std::alloc::Global;
use std::sync::Wait;
use std::thread;
use std::thread::Threads;

/// What a service of workers leaves.
#[derive(Drop)]
pub struct Claimed {
    /// The journal of all its commits.
    pub journal: Journal,
    /// How many jobs were added.
    pub added: u64,
    /// How many claims the first worker made.
    pub first: u64,
    /// How many the second made.
    pub second: u64,
}

/// A pass that comes back from a worker, and how many jobs were claimed by it.
type Worked = (Pass<Plain>, u64);

/// Adds a job, in one attempt.
fn attempt_add<R: Wait>(
    rt: &R,
    alloc: Global,
    db: &Database<Plain>,
    pass: &mut Pass<Plain>,
    laws: &Laws<NoExtractor>,
    payload: &Bytes,
) -> Result<u64, QueueError>
    requires table { pass.old.table ≡ db.now }
    requires laws { ArePlain laws.now.options laws.now.segments laws.now.policies.items }
    ensures { PlainWorked IsQueueCommit pass.old pass.new (made_by result) }
{
    let mut store = MemoryStore::new(alloc, Vec::new(alloc));
    let mut env: Env<'_, MemoryStore, NoOperator, NoTransformer> = Env {
        store: &mut store,
        operator: None,
        transformer: None,
    };
    add_shared(rt, db, pass, payload, 0, &mut env, laws)
}

/// Adds so many jobs, and gives how many were added.
fn add<R: Wait>(
    rt: &R,
    alloc: Global,
    db: &Database<Plain>,
    pass: &mut Pass<Plain>,
    laws: &Laws<NoExtractor>,
    payload: &Bytes,
    turns: u64,
) -> u64
    requires table { pass.old.table ≡ db.now }
    requires laws { ArePlain laws.now.options laws.now.segments laws.now.policies.items }
    ensures { PlainWorked IsQueueCommit pass.old pass.new result }
{
    let mut made = 0;
    for _turn in 0..turns {
        match attempt_add(rt, alloc, db, pass, laws, payload) {
            Ok(_) => made += 1,
            Err(_) => thread::yield_now(),
        }
    }
    made
}

/// Claims a free job until a moment in milliseconds from now, in one attempt.
fn attempt<R: Wait>(
    rt: &R,
    alloc: Global,
    db: &Database<Plain>,
    pass: &mut Pass<Plain>,
    laws: &Laws<NoExtractor>,
    now: i64,
    ms: u64,
) -> Result<Option<Claim>, QueueError>
    requires table { pass.old.table ≡ db.now }
    requires laws { ArePlain laws.now.options laws.now.segments laws.now.policies.items }
    ensures { PlainWorked IsQueueCommit pass.old pass.new (claims_made result) }
{
    let mut store = MemoryStore::new(alloc, Vec::new(alloc));
    let mut env: Env<'_, MemoryStore, NoOperator, NoTransformer> = Env {
        store: &mut store,
        operator: None,
        transformer: None,
    };
    claim_shared(rt, db, pass, now, ms, &mut env, laws)
}

/// Tries so many times to claim a job, and gives how many were claimed.
fn work<R: Wait>(
    rt: &R,
    alloc: Global,
    db: &Database<Plain>,
    pass: &mut Pass<Plain>,
    laws: &Laws<NoExtractor>,
    now: i64,
    ms: u64,
    turns: u64,
) -> u64
    requires table { pass.old.table ≡ db.now }
    requires laws { ArePlain laws.now.options laws.now.segments laws.now.policies.items }
    ensures { PlainWorked IsQueueCommit pass.old pass.new result }
{
    let mut made = 0;
    for _turn in 0..turns {
        match attempt(rt, alloc, db, pass, laws, now, ms) {
            Ok(Some(_)) => made += 1,
            Ok(None) | Err(_) => thread::yield_now(),
        }
    }
    made
}

/// Two workers claim jobs beside one another, each by a pass of its own, and hand their passes back.
fn work_beside<R: Threads + Wait + Sync>(
    rt: &R,
    alloc: Global,
    db: &Database<Plain>,
    passes: (Pass<Plain>, Pass<Plain>),
    laws: &Laws<NoExtractor>,
    now: i64,
    ms: u64,
    turns: u64,
) -> (Worked, Worked)
    requires table { (passes.0.table ≡ db.now) × (passes.1.table ≡ db.now) }
    requires laws { ArePlain laws.now.options laws.now.segments laws.now.policies.items }
    ensures first { PlainWorked IsQueueCommit passes.0 result.0.0 result.0.1 }
    ensures second { PlainWorked IsQueueCommit passes.1 result.1.0 result.1.1 }
{
    let (mut pass, mut other) = passes;
    thread::join(
        rt,
        move || -> Worked
            requires { (pass.table ≡ db.now)
                × ArePlain laws.now.options laws.now.segments laws.now.policies.items }
            ensures { PlainWorked IsQueueCommit pass result.0 result.1 }
        {
            let made = work(rt, alloc, db, &mut pass, laws, now, ms, turns);
            (pass, made)
        },
        move || -> Worked
            requires { (other.table ≡ db.now)
                × ArePlain laws.now.options laws.now.segments laws.now.policies.items }
            ensures { PlainWorked IsQueueCommit other result.0 result.1 }
        {
            let made = work(rt, alloc, db, &mut other, laws, now, ms, turns);
            (other, made)
        },
    )
}

/// Adds jobs of one payload, and then two workers claim jobs, so many times each, until a moment
/// in milliseconds from now. Gives the journal that they leave. Whatever the workers do beside
/// one another, in that journal all commits are a queue's; no lease of a job is claimed twice, so
/// that a job has one worker at a time; each commit would read the same just before it; and there
/// are as many commits as the threads were told. The one error is `OutOfMemory`.
pub fn claim_by_two<R: Threads + Wait + Sync>(
    rt: &R,
    alloc: Global,
    payload: &Bytes,
    jobs: u64,
    now: i64,
    ms: u64,
    turns: u64,
) -> Result<Claimed, SlateDBError>
    ensures jobs { IfOk result (λ left. AreJobs plain_rules left.journal.events) }
    ensures counted { IfOk result (λ left. IsCount left.journal.events
        (left.added + left.first + left.second)) }
    ensures cause { IsOkUnless result SlateDBError.OutOfMemory }
{
    let laws = Plain::laws(alloc);
    let (db, mut pass) = Database::<Plain>::new(alloc, &laws.options)?;
    let added = add(rt, alloc, &db, &mut pass, &laws, payload, jobs);
    let other = pass.split(&db);
    let ((mut pass, first), (other, second)) = work_beside(
        rt,
        alloc,
        &db,
        (pass, other),
        &laws,
        now,
        ms,
        turns,
    );
    pass.join(&db, other);
    let (core, copied) = close(rt, db, pass);
    core.close();
    Ok(Claimed {
        journal: copied?,
        added,
        first,
        second,
    })
}
