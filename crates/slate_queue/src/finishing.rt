//! The steps of a finish.
ghost use Rattle.std.specs.Prelude.{◌≡◌, ◌⊎◌, ◌++◌, ◌∷◌, ℕ, List, [], None, Some, IfErr, OnErr, OnOk, map};
ghost use Rattle.slate_types.specs.declared.config.IsolationLevel.{IsolationLevel};
ghost use Rattle.slate_types.specs.declared.error.SlateDBError.{SlateDBError};
ghost use Rattle.slate_types.specs.Outside.{OnlyReads};
ghost use Rattle.slate_mem.specs.declared.WriteOp.{WriteOp};
ghost use Rattle.slate_mem.specs.Refusals.{op_refusal};
ghost use Rattle.slate_txn.specs.declared.event.TranscriptStep.{TranscriptStep};
ghost use Rattle.slate_txn.specs.declared.event.TranscriptStep.TheVariants as steps;
ghost use Rattle.slate_db.specs.Model.{CoreModel};
ghost use Rattle.slate_db.specs.Opened.{HasTransaction};
ghost use Rattle.slate_steps.specs.Reads.{IsStillBy};
ghost use Rattle.slate_steps.specs.Steps.{IsWithin};
ghost use Rattle.slate_queue.specs.declared.error.QueueError.{QueueError};
ghost use Rattle.slate_queue.specs.CallSteps.{FinishStops, Finishes, job_refusal, number_refusal, value_of};
ghost use Rattle.slate_queue.specs.Calls.{Attempts, db_error};
ghost use Rattle.slate_queue.specs.Stored.{job_key};
ghost use Rattle.slate_queue.specs.Standing.{job_in};

use crate::error::QueueError;
use crate::stored::{bad_job, job_key, job_lease};
use slate_db::engine::Core;
use slate_db::laws::Laws;
use slate_steps::transaction::{delete, get};
use slate_store::{Env, EnvOf, Store};
use slate_types::{BlockTransformer, KeyValue, MergeOperator, Outside, PrefixExtractor};
use std::alloc::Global;
use uuid::Uuid;

/// Reads a job, and deletes it where it was claimed under this lease.
pub(crate) fn finish_job<S: Store, M: MergeOperator, T: BlockTransformer, X: PrefixExtractor>(
    core: &mut Core,
    id: &Uuid,
    job: u64,
    lease: u64,
    env: &mut Env<'_, S, M, T>,
    laws: &Laws<X>,
) -> Result<(), QueueError>
    requires open { HasTransaction core.old id.now }
    ensures open { HasTransaction core.new id.now }
    ensures attempt { let reach = ⟦<EnvOf<S, M, T> as Outside>⟧.reach in
        let policies = map (λ p. meaning (p.vtable, p.value)) laws.now.policies.items in
        (c : CoreModel) → IsWithin c id.now IsolationLevel.SerializableSnapshot [] core.old →
        Attempts (λ done. Finishes job lease) (FinishStops job lease) policies (reach env.old) (reach env.new) c id.now core.new result }
    ensures counts { let reach = ⟦<EnvOf<S, M, T> as Outside>⟧.reach in IsStillBy db_error (reach env.old).faults (reach env.new).faults result }
    ensures reads { let reach = ⟦<EnvOf<S, M, T> as Outside>⟧.reach in OnlyReads (reach env.old) (reach env.new) }
{
    let alloc = core.journal().alloc();
    let key = job_key(job);
    let answer = match get(core, id, &key, env, laws) {
        Ok(answer) => answer,
        Err(error) => return Err(QueueError::Db(error)),
    };
    let tested = test_lease(alloc, &answer, &key, job, lease);
    drop(answer);
    match tested {
        Ok(()) => delete_job(core, id, &key),
        Err(error) => Err(error),
    }
}

/// Whether what was read at the key is a job that was claimed under this lease.
pub(crate) fn test_lease(
    alloc: Global,
    answer: &Option<KeyValue>,
    key: &[u8],
    job: u64,
    lease: u64,
) -> Result<(), QueueError>
    requires { key.now ≡ job_key job }
    ensures claimed { OnOk result (job_refusal job lease (job_in (value_of answer.now)) ≡ None) }
    ensures refused { IfErr result (λ e. (e ≡ QueueError.Db SlateDBError.OutOfMemory) ⊎ (job_refusal job lease (job_in (value_of answer.now)) ≡ Some e)) }
{
    let Some(row) = answer else {
        return Err(QueueError::NoJob { id: job });
    };
    match job_lease(row.value.as_slice()) {
        None => Err(bad_job(alloc, key)),
        Some(head) => test_number(head.number, lease),
    }
}

fn test_number(current: u64, lease: u64) -> Result<(), QueueError>
    ensures claimed { OnOk result (number_refusal current lease ≡ None) }
    ensures refused { IfErr result (λ e. number_refusal current lease ≡ Some e) }
{
    if current == lease && lease != 0 {
        Ok(())
    } else {
        Err(QueueError::StaleLease { current })
    }
}

fn delete_job(core: &mut Core, id: &Uuid, key: &[u8]) -> Result<(), QueueError>
    requires open { HasTransaction core.old id.now }
    requires short { op_refusal key.now WriteOp.Delete ≡ None }
    ensures open { HasTransaction core.new id.now }
    ensures taken { (c : CoreModel) (level : IsolationLevel) (ts : List TranscriptStep) → IsWithin c id.now level ts core.old →
        OnOk result (IsWithin c id.now level (ts ++ (steps.Own key.now WriteOp.Delete ∷ [])) core.new) }
    ensures same { OnErr result (core.new ≡ core.old) }
    ensures cause { IfErr result (λ e. e ≡ QueueError.Db SlateDBError.OutOfMemory) }
{
    match delete(core, id, key) {
        Ok(()) => Ok(()),
        Err(error) => Err(QueueError::Db(error)),
    }
}
