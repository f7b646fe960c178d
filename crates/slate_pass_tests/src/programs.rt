// A job that is finished and a record that is deleted, through a pass.
ghost use Rattle.std.specs.Prelude.{◌≡◌};
ghost use Rattle.slate_shared.specs.Given.{ArePlain};

use crate::calls::{opened, outer};
use bytes::Bytes;
use slate_db::laws::Laws;
use slate_index::{Comma, Name, delete_record_shared, put_record_shared};
use slate_queue::{Claim, QueueError, add_shared, claim_shared, finish_shared};
use slate_shared::{Database, Pass, Plain};
use slate_store::MemoryStore;
use slate_types::NoExtractor;
use std::alloc::Global;
use std::sync::Wait;

// Returns the id of a job that is added.
fn added<R: Wait>(
    rt: &R,
    db: &Database<Plain>,
    pass: &mut Pass<Plain>,
    store: &mut MemoryStore,
    laws: &Laws<NoExtractor>,
) -> Option<u64>
    requires table { pass.old.table ≡ db.now }
    requires laws { ArePlain laws.now.options laws.now.segments laws.now.policies.items }
    ensures same { (pass.new.table ≡ pass.old.table) × (pass.new.parts ≡ pass.old.parts) }
{
    let payload = Bytes::from_static(b"x");
    let mut env = outer(store);
    match add_shared(rt, db, pass, &payload, 0, &mut env, laws) {
        Ok(id) => Some(id),
        Err(_) => None,
    }
}

// Claims a job.
fn claimed<R: Wait>(
    rt: &R,
    db: &Database<Plain>,
    pass: &mut Pass<Plain>,
    store: &mut MemoryStore,
    laws: &Laws<NoExtractor>,
) -> Option<Claim>
    requires table { pass.old.table ≡ db.now }
    requires laws { ArePlain laws.now.options laws.now.segments laws.now.policies.items }
    ensures same { (pass.new.table ≡ pass.old.table) × (pass.new.parts ≡ pass.old.parts) }
{
    let mut env = outer(store);
    match claim_shared(rt, db, pass, 0, 10, &mut env, laws) {
        Ok(claim) => claim,
        Err(_) => None,
    }
}

// Finishes a job under a lease.
fn finish<R: Wait>(
    rt: &R,
    db: &Database<Plain>,
    pass: &mut Pass<Plain>,
    store: &mut MemoryStore,
    laws: &Laws<NoExtractor>,
    lease: u64,
) -> Result<(), QueueError>
    requires table { pass.old.table ≡ db.now }
    requires laws { ArePlain laws.now.options laws.now.segments laws.now.policies.items }
    ensures same { (pass.new.table ≡ pass.old.table) × (pass.new.parts ≡ pass.old.parts) }
{
    let mut env = outer(store);
    finish_shared(rt, db, pass, 1, lease, 0, &mut env, laws)
}

// Checks that a job is finished once, under the lease of its claim.
fn is_finished_once<R: Wait>(rt: &R, alloc: Global) -> bool {
    let laws = Plain::laws(alloc);
    let Some((db, mut pass)) = opened(alloc, &laws) else {
        return false;
    };
    let mut store = MemoryStore::new(alloc, Vec::new(alloc));
    let id = added(rt, &db, &mut pass, &mut store, &laws);
    let Some(claim) = claimed(rt, &db, &mut pass, &mut store, &laws) else {
        return false;
    };
    let lease = claim.lease;
    drop(claim);
    let first = finish(rt, &db, &mut pass, &mut store, &laws, lease);
    let second = finish(rt, &db, &mut pass, &mut store, &laws, lease);
    id == Some(1) && matches!(first, Ok(())) && matches!(second, Err(QueueError::NoJob { .. }))
}

#[test]
fn a_job_is_finished_once(rt: HostRuntime) {
    assert!(rt; is_finished_once(&rt, rt.alloc()));
}

// Returns the name of the record.
fn name() -> Option<Name> {
    Name::new(Bytes::from_static(b"r1"))
}

// Returns the sequence of a put of the record.
fn put<R: Wait>(
    rt: &R,
    db: &Database<Plain>,
    pass: &mut Pass<Plain>,
    store: &mut MemoryStore,
    laws: &Laws<NoExtractor>,
) -> Option<u64>
    requires table { pass.old.table ≡ db.now }
    requires laws { ArePlain laws.now.options laws.now.segments laws.now.policies.items }
    ensures same { (pass.new.table ≡ pass.old.table) × (pass.new.parts ≡ pass.old.parts) }
{
    let id = name()?;
    let value = Bytes::from_static(b"red,5");
    let mut env = outer(store);
    put_record_shared(rt, db, pass, &Comma, &id, &value, 0, &mut env, laws).ok()
}

// Returns the sequence of a deletion of the record.
fn delete<R: Wait>(
    rt: &R,
    db: &Database<Plain>,
    pass: &mut Pass<Plain>,
    store: &mut MemoryStore,
    laws: &Laws<NoExtractor>,
) -> Option<u64>
    requires table { pass.old.table ≡ db.now }
    requires laws { ArePlain laws.now.options laws.now.segments laws.now.policies.items }
    ensures same { (pass.new.table ≡ pass.old.table) × (pass.new.parts ≡ pass.old.parts) }
{
    let id = name()?;
    let mut env = outer(store);
    delete_record_shared(rt, db, pass, &Comma, &id, 0, &mut env, laws).ok()
}

// Checks that a record is deleted once.
fn is_deleted_once<R: Wait>(rt: &R, alloc: Global) -> bool {
    let laws = Plain::laws(alloc);
    let Some((db, mut pass)) = opened(alloc, &laws) else {
        return false;
    };
    let mut store = MemoryStore::new(alloc, Vec::new(alloc));
    let made = put(rt, &db, &mut pass, &mut store, &laws);
    let first = delete(rt, &db, &mut pass, &mut store, &laws);
    let second = delete(rt, &db, &mut pass, &mut store, &laws);
    made == Some(1) && first == Some(2) && second.is_none()
}

#[test]
fn a_record_is_deleted_once(rt: HostRuntime) {
    assert!(rt; is_deleted_once(&rt, rt.alloc()));
}
