//! The steps of an add.
ghost use Rattle.std.specs.Prelude.{◌≡◌, ◌≤◌, ◌++◌, ◌∷◌, List, [], None, IfErr, OnOk, OnErr, length, map};
ghost use Rattle.slate_types.specs.declared.config.IsolationLevel.{IsolationLevel};
ghost use Rattle.slate_types.specs.declared.error.SlateDBError.{SlateDBError};
ghost use Rattle.slate_types.specs.Outside.{OnlyReads};
ghost use Rattle.slate_mem.specs.Batch.{Ops};
ghost use Rattle.slate_mem.specs.Refusals.{op_refusal};
ghost use Rattle.slate_txn.specs.declared.event.Event.{Event};
ghost use Rattle.slate_txn.specs.declared.event.TranscriptStep.{TranscriptStep};
ghost use Rattle.slate_txn.specs.declared.event.TranscriptStep.TheVariants as steps;
ghost use Rattle.slate_db.specs.Meaning.{segments_by};
ghost use Rattle.slate_shared.specs.Given.{AreGiven};
ghost use Rattle.slate_steps.specs.Attempts.{IsAttempt, IsVouchedThere};
ghost use Rattle.slate_steps.specs.Reads.{IsStillBy};
ghost use Rattle.slate_queue.specs.declared.error.QueueError.{QueueError};
ghost use Rattle.slate_queue.specs.CallSteps.{AddStops, Adds, Counts, own_steps};
ghost use Rattle.slate_queue.specs.Calls.{db_error};
ghost use Rattle.slate_queue.specs.Commits.{added, put_of};
ghost use Rattle.slate_queue.specs.Jobs.{longest, new_job};
ghost use Rattle.slate_queue.specs.OnPass.{AttemptsOn};
ghost use Rattle.slate_queue.specs.Stored.{job_bytes, job_key};

use crate::adding::id_behind;
use crate::error::QueueError;
use crate::stored::{job_key, job_value, number_bytes};
use bytes::Bytes;
use slate_db::laws::Laws;
use slate_filter::FilterPolicy;
use slate_shared::{Database, DbTransaction, Parts};
use slate_steps::on_pass::{get, put};
use slate_store::{Env, EnvOf, Store};
use slate_types::{BlockTransformer, MergeOperator, Outside, PrefixExtractor};
use std::alloc::Global;
use std::sync::Wait;

/// Reads the counter, and puts the next and a job under it. Gives the job's id.
pub(crate) fn add_job<
    P: Parts,
    R: Wait,
    S: Store,
    M: MergeOperator,
    T: BlockTransformer,
    X: PrefixExtractor,
>(
    rt: &R,
    db: &Database<P>,
    txn: &mut DbTransaction<P>,
    payload: &Bytes,
    env: &mut Env<'_, S, M, T>,
    laws: &Laws<X>,
) -> Result<u64, QueueError>
    requires table { txn.old.table ≡ db.now }
    requires meaning { let reach = ⟦<EnvOf<S, M, T> as Outside>⟧.reach in (reach env.old).meaning ≡ P.meaning }
    requires laws { AreGiven P.options P.segments P.policies laws.now.options (segments_by X.lengths laws.now.segments) (map (λ p. (⟦<dyn FilterPolicy as FilterPolicy>⟧ p.vtable).meaning p.value) laws.now.policies.items) }
    requires short { length payload.now ≤ longest }
    ensures attempt { let reach = ⟦<EnvOf<S, M, T> as Outside>⟧.reach in
        (from : List Event) → IsAttempt P.options from IsolationLevel.SerializableSnapshot [] txn.old →
        AttemptsOn (Adds payload.now) AddStops P.options P.meaning P.policies from (reach env.old) (reach env.new) txn.new result }
    ensures table { txn.new.table ≡ txn.old.table }
    ensures counts { let reach = ⟦<EnvOf<S, M, T> as Outside>⟧.reach in IsStillBy db_error (reach env.old).faults (reach env.new).faults result }
    ensures reads { let reach = ⟦<EnvOf<S, M, T> as Outside>⟧.reach in OnlyReads (reach env.old) (reach env.new) }
{
    let alloc = *laws.policies.allocator();
    match next_id(alloc, rt, db, txn, env, laws) {
        Ok(new) => match put_job(alloc, txn, new, payload) {
            Ok(()) => Ok(new),
            Err(error) => Err(error),
        },
        Err(error) => Err(error),
    }
}

/// The id behind the counter.
fn next_id<P: Parts, R: Wait, S: Store, M: MergeOperator, T: BlockTransformer, X: PrefixExtractor>(
    alloc: Global,
    rt: &R,
    db: &Database<P>,
    txn: &mut DbTransaction<P>,
    env: &mut Env<'_, S, M, T>,
    laws: &Laws<X>,
) -> Result<u64, QueueError>
    requires table { txn.old.table ≡ db.now }
    requires meaning { let reach = ⟦<EnvOf<S, M, T> as Outside>⟧.reach in (reach env.old).meaning ≡ P.meaning }
    requires laws { AreGiven P.options P.segments P.policies laws.now.options (segments_by X.lengths laws.now.segments) (map (λ p. (⟦<dyn FilterPolicy as FilterPolicy>⟧ p.vtable).meaning p.value) laws.now.policies.items) }
    ensures attempt { let reach = ⟦<EnvOf<S, M, T> as Outside>⟧.reach in
        (from : List Event) → IsAttempt P.options from IsolationLevel.SerializableSnapshot [] txn.old →
        AttemptsOn Counts AddStops P.options P.meaning P.policies from (reach env.old) (reach env.new) txn.new result }
    ensures table { txn.new.table ≡ txn.old.table }
    ensures counts { let reach = ⟦<EnvOf<S, M, T> as Outside>⟧.reach in IsStillBy db_error (reach env.old).faults (reach env.new).faults result }
    ensures reads { let reach = ⟦<EnvOf<S, M, T> as Outside>⟧.reach in OnlyReads (reach env.old) (reach env.new) }
{
    match get(rt, db, txn, b"n", env, laws) {
        Ok(answer) => id_behind(alloc, answer),
        Err(error) => Err(QueueError::Db(error)),
    }
}

/// Puts the counter and the job.
fn put_job<P: Parts>(
    alloc: Global,
    txn: &mut DbTransaction<P>,
    new: u64,
    payload: &Bytes,
) -> Result<(), QueueError>
    requires short { length payload.now ≤ longest }
    ensures taken { (from : List Event) (level : IsolationLevel) (ts : List TranscriptStep) → IsAttempt P.options from level ts txn.old →
        OnOk result (IsAttempt P.options from level (ts ++ own_steps (added new payload.now)) txn.new) }
    ensures part { (from : List Event) (level : IsolationLevel) (ts : List TranscriptStep) → IsAttempt P.options from level ts txn.old →
        OnErr result ((some : Ops) × IsAttempt P.options from level (ts ++ own_steps some) txn.new) }
    ensures sees { IsVouchedThere P.options P.meaning txn.old → IsVouchedThere P.options P.meaning txn.new }
    ensures more { (txn.new.table ≡ txn.old.table) × (txn.new.seen ≡ txn.old.seen) }
    ensures cause { IfErr result (λ e. e ≡ QueueError.Db SlateDBError.OutOfMemory) }
{
    match put_short(txn, b"n", &number_bytes(new)) {
        Ok(()) => put_new(alloc, txn, new, payload),
        Err(error) => Err(error),
    }
}

/// Puts the job alone.
fn put_new<P: Parts>(
    alloc: Global,
    txn: &mut DbTransaction<P>,
    new: u64,
    payload: &Bytes,
) -> Result<(), QueueError>
    requires short { length payload.now ≤ longest }
    ensures taken { (from : List Event) (level : IsolationLevel) (ts : List TranscriptStep) → IsAttempt P.options from level ts txn.old →
        OnOk result (IsAttempt P.options from level (ts ++ (steps.Own (job_key new) (put_of (job_bytes (new_job payload.now))) ∷ [])) txn.new) }
    ensures sees { IsVouchedThere P.options P.meaning txn.old → IsVouchedThere P.options P.meaning txn.new }
    ensures more { (txn.new.table ≡ txn.old.table) × (txn.new.seen ≡ txn.old.seen) }
    ensures same { OnErr result (txn.new ≡ txn.old) }
    ensures cause { IfErr result (λ e. e ≡ QueueError.Db SlateDBError.OutOfMemory) }
{
    match job_value(alloc, 0, 0, payload.as_slice()) {
        Ok(value) => {
            let put = put_short(txn, &job_key(new), value.as_slice());
            drop(value);
            put
        }
        Err(error) => Err(QueueError::from(error)),
    }
}

/// Puts a value that isn't refused.
pub(crate) fn put_short<P: Parts>(
    txn: &mut DbTransaction<P>,
    key: &[u8],
    value: &[u8],
) -> Result<(), QueueError>
    requires short { op_refusal key.now (put_of value.now) ≡ None }
    ensures taken { (from : List Event) (level : IsolationLevel) (ts : List TranscriptStep) → IsAttempt P.options from level ts txn.old →
        OnOk result (IsAttempt P.options from level (ts ++ (steps.Own key.now (put_of value.now) ∷ [])) txn.new) }
    ensures sees { IsVouchedThere P.options P.meaning txn.old → IsVouchedThere P.options P.meaning txn.new }
    ensures more { (txn.new.table ≡ txn.old.table) × (txn.new.seen ≡ txn.old.seen) }
    ensures same { OnErr result (txn.new ≡ txn.old) }
    ensures cause { IfErr result (λ e. e ≡ QueueError.Db SlateDBError.OutOfMemory) }
{
    match put(txn, key, value) {
        Ok(()) => Ok(()),
        Err(error) => Err(QueueError::Db(error)),
    }
}
