//! Two threads that put one record.
ghost use Rattle.std.specs.Prelude.{◌≡◌, ◌+◌, IfOk, IsOkUnless};
ghost use Rattle.slate_types.specs.declared.error.SlateDBError.{SlateDBError};
ghost use Rattle.slate_shared.specs.Given.{ArePlain};
ghost use Rattle.slate_index.specs.Journals.{change_kind};
ghost use Rattle.slate_threads.specs.Workers.{made_by};
ghost use Rattle.slate_services.specs.Plain.{IsCount, PlainWorked, plain_rules};
ghost use Rattle.slate_services.specs.Records.{AreIndexed};

use bytes::Bytes;
use slate_db::laws::Laws;
use slate_index::{Fields, IndexError, Name, put_record_shared};
use slate_shared::{Database, Pass, Plain};
use slate_store::{Env, MemoryStore};
use slate_threads::close;
use slate_txn::journal::Journal;
use slate_types::{NoExtractor, NoOperator, NoTransformer, SlateDBError};
use std::alloc::Global;
use std::sync::Wait;
use std::thread;
use std::thread::Threads;

/// What two threads that put a record leave.
#[derive(Drop)]
pub struct Recorded {
    /// The journal of all their commits.
    pub journal: Journal,
    /// How often the first thread put the record.
    pub first: u64,
    /// How often the second did.
    pub second: u64,
}

/// A pass that comes back from a thread, and how often the record was put by it.
type Worked = (Pass<Plain>, u64);

/// Tries once to put the record. While nobody flushes, an empty store is all that its reads need.
fn attempt<F: Fields, R: Wait>(
    rt: &R,
    alloc: Global,
    db: &Database<Plain>,
    pass: &mut Pass<Plain>,
    laws: &Laws<NoExtractor>,
    fields: &F,
    record: (&Name, &Bytes),
) -> Result<u64, IndexError>
    requires table { pass.old.table ≡ db.now }
    requires laws { ArePlain laws.now.options laws.now.segments laws.now.policies.items }
    ensures { PlainWorked (change_kind (F.model fields.now)) pass.old pass.new (made_by result) }
{
    let mut store = MemoryStore::new(alloc, Vec::new(alloc));
    let mut env: Env<'_, MemoryStore, NoOperator, NoTransformer> = Env {
        store: &mut store,
        operator: None,
        transformer: None,
    };
    let (id, value) = record;
    put_record_shared(rt, db, pass, fields, id, value, 0, &mut env, laws)
}

/// Tries so many times to put the record, and gives how often it was put. If it is refused, as
/// for a conflict, others go on first.
fn put<F: Fields, R: Wait>(
    rt: &R,
    alloc: Global,
    db: &Database<Plain>,
    pass: &mut Pass<Plain>,
    laws: &Laws<NoExtractor>,
    fields: &F,
    record: (&Name, &Bytes),
    turns: u64,
) -> u64
    requires table { pass.old.table ≡ db.now }
    requires laws { ArePlain laws.now.options laws.now.segments laws.now.policies.items }
    ensures { PlainWorked (change_kind (F.model fields.now)) pass.old pass.new result }
{
    let mut made = 0;
    for _turn in 0..turns {
        match attempt(rt, alloc, db, pass, laws, fields, record) {
            Ok(_) => made += 1,
            Err(_) => thread::yield_now(),
        }
    }
    made
}

/// Two threads put the record beside one another, each by a pass and with a value of its own, and hand
/// their passes back.
fn put_beside<F: Fields + Sync, R: Threads + Wait + Sync>(
    rt: &R,
    alloc: Global,
    db: &Database<Plain>,
    passes: (Pass<Plain>, Pass<Plain>),
    laws: &Laws<NoExtractor>,
    fields: &F,
    records: ((&Name, &Bytes), (&Name, &Bytes)),
    turns: u64,
) -> (Worked, Worked)
    requires table { (passes.0.table ≡ db.now) × (passes.1.table ≡ db.now) }
    requires laws { ArePlain laws.now.options laws.now.segments laws.now.policies.items }
    ensures first { PlainWorked (change_kind (F.model fields.now)) passes.0 result.0.0 result.0.1 }
    ensures second { PlainWorked (change_kind (F.model fields.now)) passes.1 result.1.0 result.1.1 }
{
    let (mut pass, mut other) = passes;
    let (first, second) = records;
    thread::join(
        rt,
        move || -> Worked
            requires { (pass.table ≡ db.now)
                × ArePlain laws.now.options laws.now.segments laws.now.policies.items }
            ensures { PlainWorked (change_kind (F.model fields.entry.now)) pass result.0 result.1 }
        {
            let made = put(rt, alloc, db, &mut pass, laws, fields, first, turns);
            (pass, made)
        },
        move || -> Worked
            requires { (other.table ≡ db.now)
                × ArePlain laws.now.options laws.now.segments laws.now.policies.items }
            ensures { PlainWorked (change_kind (F.model fields.entry.now)) other result.0 result.1 }
        {
            let made = put(rt, alloc, db, &mut other, laws, fields, second, turns);
            (other, made)
        },
    )
}

/// Two threads put one record, each with a value of its own, so many times. Gives the journal
/// that they leave. Whatever they do beside one another, in that journal all commits change
/// records; the entries are just those of the records, at each sequence; each commit would read
/// the same just before it; and there are as many commits as the threads were told. The one error
/// is `OutOfMemory`.
pub fn put_by_two<F: Fields + Sync, R: Threads + Wait + Sync>(
    rt: &R,
    alloc: Global,
    fields: &F,
    id: &Name,
    values: (&Bytes, &Bytes),
    turns: u64,
) -> Result<Recorded, SlateDBError>
    ensures indexed { IfOk result (λ left.
        AreIndexed (F.model fields.now) plain_rules left.journal.events) }
    ensures counted { IfOk result (λ left. IsCount left.journal.events (left.first + left.second)) }
    ensures cause { IsOkUnless result SlateDBError.OutOfMemory }
{
    let laws = Plain::laws(alloc);
    let (db, mut pass) = Database::<Plain>::new(alloc, &laws.options)?;
    let other = pass.split(&db);
    let records = ((id, values.0), (id, values.1));
    let ((mut pass, first), (other, second)) = put_beside(
        rt,
        alloc,
        &db,
        (pass, other),
        &laws,
        fields,
        records,
        turns,
    );
    pass.join(&db, other);
    let (core, copied) = close(rt, db, pass);
    core.close();
    Ok(Recorded {
        journal: copied?,
        first,
        second,
    })
}
