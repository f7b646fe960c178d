//! Calls on a queue in a core.
ghost use Rattle.std.specs.Prelude.{◌≡◌, None, map};
ghost use Rattle.slate_types.specs.Config.{IsValid};
ghost use Rattle.slate_db.specs.Meaning.{segments_by};
ghost use Rattle.slate_steps.specs.Reads.{IsStillBy};
ghost use Rattle.slate_queue.specs.Calls.{AddRefuses, CallsAs, ClaimEnds, ClaimRefuses, Commits, FinishRefuses, IsAddOf, IsFinishOf, claim_answer, db_error};
ghost use Rattle.slate_queue.specs.Jobs.{Answer, Call};

use crate::adding::add_job;
use crate::claiming::claim_job;
use crate::claims::Claim;
use crate::error::QueueError;
use crate::finishing::finish_job;
use bytes::Bytes;
use slate_db::engine::Core;
use slate_db::laws::Laws;
use slate_steps::transaction::{begin, commit, rollback};
use slate_store::{Env, EnvOf, Store};
use slate_types::{BlockTransformer, IsolationLevel, MergeOperator, Outside, PrefixExtractor};
use uuid::Uuid;

/// The longest payload.
pub(crate) const LONGEST: usize = 4_294_967_279;

/// Adds a job, at a moment, and gives its id. It begins with lease number 0 and lease's end 0.
///
/// Refuses by `PayloadTooLong` above 2^32 - 17 bytes; by `BadJob` where the counter isn't 8 bytes, and then by `IdsSpent` where it is the
/// greatest number; and by `Db` as a read does, by `SequenceExhausted`, by `LimitReached` and by want of memory. Then nothing is added, and
/// no transaction stays open. No failure of the store or of a part is passed over: each count of faults is as it was, but for that of the
/// one whose fault `Db` holds.
pub fn add<S: Store, M: MergeOperator, T: BlockTransformer, X: PrefixExtractor>(
    core: &mut Core,
    payload: &Bytes,
    now: i64,
    env: &mut Env<'_, S, M, T>,
    laws: &Laws<X>,
) -> Result<u64, QueueError>
    requires valid { IsValid laws.now.options }
    requires plain { laws.now.segments ≡ None }
    ensures called { let reach = ⟦<EnvOf<S, M, T> as Outside>⟧.reach in
        let policies = map (λ p. meaning (p.vtable, p.value)) laws.now.policies.items in
        CallsAs (λ id. Commits (IsAddOf payload.now id) now core.old core.new) Answer.Added (Call.Add payload.now)
        (AddRefuses payload.now policies (reach env.old) (reach env.new) core.old core.new)
        policies (segments_by X.lengths laws.now.segments) (reach env.old) (reach env.new) core.old core.new result }
    ensures counts { let reach = ⟦<EnvOf<S, M, T> as Outside>⟧.reach in IsStillBy db_error (reach env.old).faults (reach env.new).faults result }
{
    if payload.len() > LONGEST {
        return Err(QueueError::PayloadTooLong {
            len: payload.len() as u64,
        });
    }
    let id = match begin(core, IsolationLevel::SerializableSnapshot) {
        Ok(id) => id,
        Err(error) => return Err(QueueError::Db(error)),
    };
    match add_job(core, &id, payload, env, laws) {
        Ok(new) => match commit(core, &id, now, env, laws) {
            Ok(_) => Ok(new),
            Err(error) => Err(QueueError::Db(error)),
        },
        Err(error) => {
            rollback(core, &id);
            Err(error)
        }
    }
}

/// Deletes the job of this id, at a moment, where it was last claimed under this lease.
///
/// Refuses by `NoJob` where no job has the id; by `BadJob` where what stands at its key is no job; by `StaleLease` where it has another
/// lease number, or 0; and by `Db` as an add does. Then nothing is deleted, and no transaction stays open. No failure of the store or of a
/// part is passed over: each count of faults is as it was, but for that of the one whose fault `Db` holds.
pub fn finish<S: Store, M: MergeOperator, T: BlockTransformer, X: PrefixExtractor>(
    core: &mut Core,
    id: u64,
    lease: u64,
    now: i64,
    env: &mut Env<'_, S, M, T>,
    laws: &Laws<X>,
) -> Result<(), QueueError>
    requires valid { IsValid laws.now.options }
    requires plain { laws.now.segments ≡ None }
    ensures called { let reach = ⟦<EnvOf<S, M, T> as Outside>⟧.reach in
        let policies = map (λ p. meaning (p.vtable, p.value)) laws.now.policies.items in
        CallsAs (λ done. Commits (IsFinishOf id lease) now core.old core.new) (λ done. Answer.Finished) (Call.Finish id lease)
        (FinishRefuses id lease policies (reach env.old) (reach env.new) core.old core.new)
        policies (segments_by X.lengths laws.now.segments) (reach env.old) (reach env.new) core.old core.new result }
    ensures counts { let reach = ⟦<EnvOf<S, M, T> as Outside>⟧.reach in IsStillBy db_error (reach env.old).faults (reach env.new).faults result }
{
    let txn = match begin(core, IsolationLevel::SerializableSnapshot) {
        Ok(txn) => txn,
        Err(error) => return Err(QueueError::Db(error)),
    };
    match finish_job(core, &txn, id, lease, env, laws) {
        Ok(()) => match commit(core, &txn, now, env, laws) {
            Ok(_) => Ok(()),
            Err(error) => Err(QueueError::Db(error)),
        },
        Err(error) => {
            rollback(core, &txn);
            Err(error)
        }
    }
}

/// Claims the free job with the least id, at a moment: its lease number grows by one, and its lease ends so many milliseconds later, at
/// the last moment at most. None where no job is free. It reads jobs only up to the one that it takes.
///
/// Refuses by `LeasesSpent` where that job has the greatest lease number; by `BadJob` where what stands at the key of a job up to it is
/// none; and by `Db` as an add does. Then, and where no job is free, nothing is changed, and no transaction stays open. No failure of the
/// store or of a part is passed over: each count of faults is as it was, but for that of the one whose fault `Db` holds.
pub fn claim<S: Store, M: MergeOperator, T: BlockTransformer, X: PrefixExtractor>(
    core: &mut Core,
    now: i64,
    ms: u64,
    env: &mut Env<'_, S, M, T>,
    laws: &Laws<X>,
) -> Result<Option<Claim>, QueueError>
    requires valid { IsValid laws.now.options }
    requires plain { laws.now.segments ≡ None }
    ensures called { let reach = ⟦<EnvOf<S, M, T> as Outside>⟧.reach in
        let policies = map (λ p. meaning (p.vtable, p.value)) laws.now.policies.items in
        CallsAs (ClaimEnds now ms policies (reach env.old) (reach env.new) core.old core.new) claim_answer (Call.Claim now ms)
        (ClaimRefuses now policies (reach env.old) (reach env.new) core.old core.new)
        policies (segments_by X.lengths laws.now.segments) (reach env.old) (reach env.new) core.old core.new result }
    ensures counts { let reach = ⟦<EnvOf<S, M, T> as Outside>⟧.reach in IsStillBy db_error (reach env.old).faults (reach env.new).faults result }
{
    let id = match begin(core, IsolationLevel::SerializableSnapshot) {
        Ok(id) => id,
        Err(error) => return Err(QueueError::Db(error)),
    };
    match claim_job(core, &id, now, ms, env, laws) {
        Ok(Some(claim)) => match commit(core, &id, now, env, laws) {
            Ok(_) => Ok(Some(claim)),
            Err(error) => {
                drop(claim);
                Err(QueueError::Db(error))
            }
        },
        Ok(None) => {
            rollback(core, &id);
            Ok(None)
        }
        Err(error) => {
            rollback(core, &id);
            Err(error)
        }
    }
}
