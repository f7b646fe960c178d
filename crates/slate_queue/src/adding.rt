//! The steps of an add.
ghost use Rattle.std.specs.Prelude.{◌≡◌, ◌⊎◌, ◌++◌, ◌∷◌, ◌+◌, ◌<◌, ◌≤◌, ℕ, List, [], None, Some, IfErr, IfOk, OnOk, OnErr, length, map};
ghost use Rattle.slate_types.specs.declared.config.IsolationLevel.{IsolationLevel};
ghost use Rattle.slate_types.specs.declared.error.SlateDBError.{SlateDBError};
ghost use Rattle.slate_types.specs.Outside.{OnlyReads};
ghost use Rattle.slate_mem.specs.Batch.{Ops};
ghost use Rattle.slate_mem.specs.Refusals.{op_refusal};
ghost use Rattle.slate_txn.specs.declared.event.TranscriptStep.{TranscriptStep};
ghost use Rattle.slate_txn.specs.declared.event.TranscriptStep.TheVariants as steps;
ghost use Rattle.slate_db.specs.Model.{CoreModel};
ghost use Rattle.slate_db.specs.Opened.{HasTransaction};
ghost use Rattle.slate_steps.specs.Reads.{IsStillBy};
ghost use Rattle.slate_steps.specs.Steps.{IsWithin};
ghost use Rattle.slate_queue.specs.declared.error.QueueError.{QueueError};
ghost use Rattle.slate_queue.specs.CallSteps.{AddStops, Adds, Counts, counter_refusal, own_steps, value_of};
ghost use Rattle.slate_queue.specs.Calls.{Attempts, db_error};
ghost use Rattle.slate_queue.specs.Commits.{added, put_of};
ghost use Rattle.slate_queue.specs.Jobs.{last_number, longest, new_job};
ghost use Rattle.slate_queue.specs.Stored.{counter_in, job_bytes, job_key};

use crate::error::QueueError;
use crate::stored::{bad_job, job_key, job_value, number_bytes, number_in};
use bytes::Bytes;
use slate_db::engine::Core;
use slate_db::laws::Laws;
use slate_steps::transaction::{get, put};
use slate_store::{Env, EnvOf, Store};
use slate_types::{BlockTransformer, KeyValue, MergeOperator, Outside, PrefixExtractor};
use std::alloc::Global;
use uuid::Uuid;

/// Reads the counter, and puts the next and a job under it. Gives the job's id.
pub(crate) fn add_job<S: Store, M: MergeOperator, T: BlockTransformer, X: PrefixExtractor>(
    core: &mut Core,
    id: &Uuid,
    payload: &Bytes,
    env: &mut Env<'_, S, M, T>,
    laws: &Laws<X>,
) -> Result<u64, QueueError>
    requires open { HasTransaction core.old id.now }
    requires short { length payload.now ≤ longest }
    ensures open { HasTransaction core.new id.now }
    ensures attempt { let reach = ⟦<EnvOf<S, M, T> as Outside>⟧.reach in
        let policies = map (λ p. meaning (p.vtable, p.value)) laws.now.policies.items in
        (c : CoreModel) → IsWithin c id.now IsolationLevel.SerializableSnapshot [] core.old →
        Attempts (Adds payload.now) AddStops policies (reach env.old) (reach env.new) c id.now core.new result }
    ensures counts { let reach = ⟦<EnvOf<S, M, T> as Outside>⟧.reach in IsStillBy db_error (reach env.old).faults (reach env.new).faults result }
    ensures reads { let reach = ⟦<EnvOf<S, M, T> as Outside>⟧.reach in OnlyReads (reach env.old) (reach env.new) }
{
    let alloc = core.journal().alloc();
    match next_id(alloc, core, id, env, laws) {
        Ok(new) => match put_job(alloc, core, id, new, payload) {
            Ok(()) => Ok(new),
            Err(error) => Err(error),
        },
        Err(error) => Err(error),
    }
}

/// The id behind the counter.
fn next_id<S: Store, M: MergeOperator, T: BlockTransformer, X: PrefixExtractor>(
    alloc: Global,
    core: &mut Core,
    id: &Uuid,
    env: &mut Env<'_, S, M, T>,
    laws: &Laws<X>,
) -> Result<u64, QueueError>
    requires open { HasTransaction core.old id.now }
    ensures open { HasTransaction core.new id.now }
    ensures attempt { let reach = ⟦<EnvOf<S, M, T> as Outside>⟧.reach in
        let policies = map (λ p. meaning (p.vtable, p.value)) laws.now.policies.items in
        (c : CoreModel) → IsWithin c id.now IsolationLevel.SerializableSnapshot [] core.old →
        Attempts Counts AddStops policies (reach env.old) (reach env.new) c id.now core.new result }
    ensures counts { let reach = ⟦<EnvOf<S, M, T> as Outside>⟧.reach in IsStillBy db_error (reach env.old).faults (reach env.new).faults result }
    ensures reads { let reach = ⟦<EnvOf<S, M, T> as Outside>⟧.reach in OnlyReads (reach env.old) (reach env.new) }
{
    match get(core, id, b"n", env, laws) {
        Ok(answer) => id_behind(alloc, answer),
        Err(error) => Err(QueueError::Db(error)),
    }
}

/// The id behind the counter that was read.
pub(crate) fn id_behind(alloc: Global, answer: Option<KeyValue>) -> Result<u64, QueueError>
    ensures id { IfOk result (λ id. (counter : ℕ) × (counter_in (value_of answer) ≡ Some counter) × (counter < last_number) × (id ≡ counter + 1)) }
    ensures refused { IfErr result (λ e. (e ≡ QueueError.Db SlateDBError.OutOfMemory) ⊎ (counter_refusal (counter_in (value_of answer)) ≡ Some e)) }
{
    let counter = counter_of(&answer);
    drop(answer);
    match counter {
        Some(u64::MAX) => Err(QueueError::IdsSpent),
        Some(counter) => Ok(counter + 1),
        None => Err(bad_job(alloc, b"n")),
    }
}

fn counter_of(answer: &Option<KeyValue>) -> Option<u64>
    ensures { result ≡ counter_in (value_of answer.now) }
{
    match answer {
        Some(row) => number_in(row.value.as_slice()),
        None => Some(0),
    }
}

/// Puts the counter and the job.
fn put_job(
    alloc: Global,
    core: &mut Core,
    id: &Uuid,
    new: u64,
    payload: &Bytes,
) -> Result<(), QueueError>
    requires open { HasTransaction core.old id.now }
    requires short { length payload.now ≤ longest }
    ensures open { HasTransaction core.new id.now }
    ensures taken { (c : CoreModel) (level : IsolationLevel) (ts : List TranscriptStep) → IsWithin c id.now level ts core.old →
        OnOk result (IsWithin c id.now level (ts ++ own_steps (added new payload.now)) core.new) }
    ensures part { (c : CoreModel) (level : IsolationLevel) (ts : List TranscriptStep) → IsWithin c id.now level ts core.old →
        OnErr result ((some : Ops) × IsWithin c id.now level (ts ++ own_steps some) core.new) }
    ensures cause { IfErr result (λ e. e ≡ QueueError.Db SlateDBError.OutOfMemory) }
{
    match put_short(core, id, b"n", &number_bytes(new)) {
        Ok(()) => put_new(alloc, core, id, new, payload),
        Err(error) => Err(error),
    }
}

/// Puts the job alone.
fn put_new(
    alloc: Global,
    core: &mut Core,
    id: &Uuid,
    new: u64,
    payload: &Bytes,
) -> Result<(), QueueError>
    requires open { HasTransaction core.old id.now }
    requires short { length payload.now ≤ longest }
    ensures open { HasTransaction core.new id.now }
    ensures taken { (c : CoreModel) (level : IsolationLevel) (ts : List TranscriptStep) → IsWithin c id.now level ts core.old →
        OnOk result (IsWithin c id.now level (ts ++ (steps.Own (job_key new) (put_of (job_bytes (new_job payload.now))) ∷ [])) core.new) }
    ensures same { OnErr result (core.new ≡ core.old) }
    ensures cause { IfErr result (λ e. e ≡ QueueError.Db SlateDBError.OutOfMemory) }
{
    match job_value(alloc, 0, 0, payload.as_slice()) {
        Ok(value) => {
            let put = put_short(core, id, &job_key(new), value.as_slice());
            drop(value);
            put
        }
        Err(error) => Err(QueueError::from(error)),
    }
}

/// Puts a value that isn't refused.
pub(crate) fn put_short(
    core: &mut Core,
    id: &Uuid,
    key: &[u8],
    value: &[u8],
) -> Result<(), QueueError>
    requires open { HasTransaction core.old id.now }
    requires short { op_refusal key.now (put_of value.now) ≡ None }
    ensures open { HasTransaction core.new id.now }
    ensures taken { (c : CoreModel) (level : IsolationLevel) (ts : List TranscriptStep) → IsWithin c id.now level ts core.old →
        OnOk result (IsWithin c id.now level (ts ++ (steps.Own key.now (put_of value.now) ∷ [])) core.new) }
    ensures same { OnErr result (core.new ≡ core.old) }
    ensures cause { IfErr result (λ e. e ≡ QueueError.Db SlateDBError.OutOfMemory) }
{
    match put(core, id, key, value) {
        Ok(()) => Ok(()),
        Err(error) => Err(QueueError::Db(error)),
    }
}
