//! Calls on a queue in a database that threads share, one attempt each. Two threads that claim one job conflict, and so do two that add:
//! a caller tries again after `TransactionConflict`. A claim reads jobs only up to the one that it takes, and so doesn't conflict with an
//! add.
ghost use Rattle.std.specs.Prelude.{◌≡◌, None, map};
ghost use Rattle.slate_types.specs.Config.{IsValid};
ghost use Rattle.slate_db.specs.Meaning.{segments_by};
ghost use Rattle.slate_shared.specs.Given.{AreGiven};
ghost use Rattle.slate_steps.specs.Reads.{IsStillBy};
ghost use Rattle.slate_queue.specs.Calls.{db_error};
ghost use Rattle.slate_queue.specs.OnPass.{AddsOn, ClaimsOn, FinishesOn};

mod adding;
mod claiming;
mod finishing;

use self::adding::add_job;
use self::claiming::claim_job;
use self::finishing::finish_job;
use crate::calls::LONGEST;
use crate::claims::Claim;
use crate::error::QueueError;
use bytes::Bytes;
use slate_db::laws::Laws;
use slate_filter::FilterPolicy;
use slate_shared::{Database, Parts, Pass};
use slate_steps::on_pass::{begin, commit, rollback};
use slate_store::{Env, EnvOf, Store};
use slate_types::{BlockTransformer, IsolationLevel, MergeOperator, Outside, PrefixExtractor};
use std::sync::Wait;

/// Adds a job, at a moment, and gives its id. It begins with lease number 0 and lease's end 0.
///
/// Refuses by `PayloadTooLong` above 2^32 - 17 bytes; by `BadJob` where the counter isn't 8 bytes, and then by `IdsSpent` where it is the
/// greatest number; and by `Db` as a read does, by `TransactionConflict`, by `SequenceExhausted`, by `LimitReached` and by want of memory.
/// Then nothing is added, and no transaction stays open. No failure of the store or of a part is passed over: each count of faults is as it
/// was, but for that of the one whose fault `Db` holds.
pub fn add_shared<
    P: Parts,
    R: Wait,
    S: Store,
    M: MergeOperator,
    T: BlockTransformer,
    X: PrefixExtractor,
>(
    rt: &R,
    db: &Database<P>,
    pass: &mut Pass<P>,
    payload: &Bytes,
    now: i64,
    env: &mut Env<'_, S, M, T>,
    laws: &Laws<X>,
) -> Result<u64, QueueError>
    requires table { pass.old.table ≡ db.now }
    requires meaning { let reach = ⟦<EnvOf<S, M, T> as Outside>⟧.reach in (reach env.old).meaning ≡ P.meaning }
    requires laws { AreGiven P.options P.segments P.policies laws.now.options (segments_by X.lengths laws.now.segments) (map (λ p. (⟦<dyn FilterPolicy as FilterPolicy>⟧ p.vtable).meaning p.value) laws.now.policies.items) }
    requires plain { laws.now.segments ≡ None }
    ensures called { let reach = ⟦<EnvOf<S, M, T> as Outside>⟧.reach in
        AddsOn payload.now now P.options P.meaning P.policies (reach env.old) (reach env.new) pass.old pass.new result }
    ensures counts { let reach = ⟦<EnvOf<S, M, T> as Outside>⟧.reach in IsStillBy db_error (reach env.old).faults (reach env.new).faults result }
    ensures same { (pass.new.table ≡ pass.old.table) × (pass.new.parts ≡ pass.old.parts) }
{
    if payload.len() > LONGEST {
        return Err(QueueError::PayloadTooLong {
            len: payload.len() as u64,
        });
    }
    let mut txn = match begin(rt, db, pass, IsolationLevel::SerializableSnapshot) {
        Ok(txn) => txn,
        Err(error) => return Err(QueueError::Db(error)),
    };
    match add_job(rt, db, &mut txn, payload, env, laws) {
        Ok(new) => match commit(rt, db, pass, txn, now, env, laws) {
            Ok(_) => Ok(new),
            Err(error) => Err(QueueError::Db(error)),
        },
        Err(error) => {
            rollback(rt, db, pass, txn);
            Err(error)
        }
    }
}

/// Deletes the job of this id, at a moment, where it was last claimed under this lease.
///
/// Refuses by `NoJob` where no job has the id; by `BadJob` where what stands at its key is no job; by `StaleLease` where it has another
/// lease number, or 0; and by `Db` as an add does. Then nothing is deleted, and no transaction stays open. No failure of the store or of a
/// part is passed over: each count of faults is as it was, but for that of the one whose fault `Db` holds.
pub fn finish_shared<
    P: Parts,
    R: Wait,
    S: Store,
    M: MergeOperator,
    T: BlockTransformer,
    X: PrefixExtractor,
>(
    rt: &R,
    db: &Database<P>,
    pass: &mut Pass<P>,
    id: u64,
    lease: u64,
    now: i64,
    env: &mut Env<'_, S, M, T>,
    laws: &Laws<X>,
) -> Result<(), QueueError>
    requires table { pass.old.table ≡ db.now }
    requires meaning { let reach = ⟦<EnvOf<S, M, T> as Outside>⟧.reach in (reach env.old).meaning ≡ P.meaning }
    requires laws { AreGiven P.options P.segments P.policies laws.now.options (segments_by X.lengths laws.now.segments) (map (λ p. (⟦<dyn FilterPolicy as FilterPolicy>⟧ p.vtable).meaning p.value) laws.now.policies.items) }
    requires plain { laws.now.segments ≡ None }
    ensures called { let reach = ⟦<EnvOf<S, M, T> as Outside>⟧.reach in
        FinishesOn id lease now P.options P.meaning P.policies
        (reach env.old) (reach env.new) pass.old pass.new result }
    ensures counts { let reach = ⟦<EnvOf<S, M, T> as Outside>⟧.reach in IsStillBy db_error (reach env.old).faults (reach env.new).faults result }
    ensures same { (pass.new.table ≡ pass.old.table) × (pass.new.parts ≡ pass.old.parts) }
{
    let mut txn = match begin(rt, db, pass, IsolationLevel::SerializableSnapshot) {
        Ok(txn) => txn,
        Err(error) => return Err(QueueError::Db(error)),
    };
    match finish_job(rt, db, &mut txn, id, lease, env, laws) {
        Ok(()) => match commit(rt, db, pass, txn, now, env, laws) {
            Ok(_) => Ok(()),
            Err(error) => Err(QueueError::Db(error)),
        },
        Err(error) => {
            rollback(rt, db, pass, txn);
            Err(error)
        }
    }
}

/// Claims the free job with the least id, at a moment: its lease number grows by one, and its lease ends so many milliseconds later, at
/// the last moment at most. None where no job is free. It reads jobs only up to the one that it takes.
///
/// Refuses by `LeasesSpent` where that job has the greatest lease number; by `BadJob` where what stands at the key of a job up to it is
/// none; and by `Db` as an add does. Then, and where no job is free, nothing is changed, and no transaction stays open. No failure of the
/// store or of a part is passed over: each count of faults is as it was, but for that of the one whose fault `Db` holds.
pub fn claim_shared<
    P: Parts,
    R: Wait,
    S: Store,
    M: MergeOperator,
    T: BlockTransformer,
    X: PrefixExtractor,
>(
    rt: &R,
    db: &Database<P>,
    pass: &mut Pass<P>,
    now: i64,
    ms: u64,
    env: &mut Env<'_, S, M, T>,
    laws: &Laws<X>,
) -> Result<Option<Claim>, QueueError>
    requires table { pass.old.table ≡ db.now }
    requires valid { IsValid laws.now.options }
    requires meaning { let reach = ⟦<EnvOf<S, M, T> as Outside>⟧.reach in (reach env.old).meaning ≡ P.meaning }
    requires laws { AreGiven P.options P.segments P.policies laws.now.options (segments_by X.lengths laws.now.segments) (map (λ p. (⟦<dyn FilterPolicy as FilterPolicy>⟧ p.vtable).meaning p.value) laws.now.policies.items) }
    requires plain { laws.now.segments ≡ None }
    ensures called { let reach = ⟦<EnvOf<S, M, T> as Outside>⟧.reach in
        ClaimsOn now ms P.options P.meaning P.policies (reach env.old) (reach env.new) pass.old pass.new result }
    ensures counts { let reach = ⟦<EnvOf<S, M, T> as Outside>⟧.reach in IsStillBy db_error (reach env.old).faults (reach env.new).faults result }
    ensures same { (pass.new.table ≡ pass.old.table) × (pass.new.parts ≡ pass.old.parts) }
{
    let mut txn = match begin(rt, db, pass, IsolationLevel::SerializableSnapshot) {
        Ok(txn) => txn,
        Err(error) => return Err(QueueError::Db(error)),
    };
    match claim_job(rt, db, &mut txn, now, ms, env, laws) {
        Ok(Some(claim)) => match commit(rt, db, pass, txn, now, env, laws) {
            Ok(_) => Ok(Some(claim)),
            Err(error) => {
                drop(claim);
                Err(QueueError::Db(error))
            }
        },
        Ok(None) => {
            rollback(rt, db, pass, txn);
            Ok(None)
        }
        Err(error) => {
            rollback(rt, db, pass, txn);
            Err(error)
        }
    }
}
