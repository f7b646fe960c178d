//! The steps of a finish.
ghost use Rattle.std.specs.Prelude.{◌≡◌, ◌++◌, ◌∷◌, List, [], None, IfErr, OnErr, OnOk, map};
ghost use Rattle.slate_types.specs.declared.config.IsolationLevel.{IsolationLevel};
ghost use Rattle.slate_types.specs.declared.error.SlateDBError.{SlateDBError};
ghost use Rattle.slate_types.specs.Outside.{OnlyReads};
ghost use Rattle.slate_mem.specs.declared.WriteOp.{WriteOp};
ghost use Rattle.slate_mem.specs.Refusals.{op_refusal};
ghost use Rattle.slate_txn.specs.declared.event.Event.{Event};
ghost use Rattle.slate_txn.specs.declared.event.TranscriptStep.{TranscriptStep};
ghost use Rattle.slate_txn.specs.declared.event.TranscriptStep.TheVariants as steps;
ghost use Rattle.slate_db.specs.Meaning.{segments_by};
ghost use Rattle.slate_shared.specs.Given.{AreGiven};
ghost use Rattle.slate_steps.specs.Attempts.{IsAttempt, IsVouchedThere};
ghost use Rattle.slate_steps.specs.Reads.{IsStillBy};
ghost use Rattle.slate_queue.specs.declared.error.QueueError.{QueueError};
ghost use Rattle.slate_queue.specs.CallSteps.{FinishStops, Finishes};
ghost use Rattle.slate_queue.specs.Calls.{db_error};
ghost use Rattle.slate_queue.specs.OnPass.{AttemptsOn};

use crate::error::QueueError;
use crate::finishing::test_lease;
use crate::stored::job_key;
use slate_db::laws::Laws;
use slate_filter::FilterPolicy;
use slate_shared::{Database, DbTransaction, Parts};
use slate_steps::on_pass::{delete, get};
use slate_store::{Env, EnvOf, Store};
use slate_types::{BlockTransformer, MergeOperator, Outside, PrefixExtractor};
use std::sync::Wait;

/// Reads a job, and deletes it where it was claimed under this lease.
pub(crate) fn finish_job<
    P: Parts,
    R: Wait,
    S: Store,
    M: MergeOperator,
    T: BlockTransformer,
    X: PrefixExtractor,
>(
    rt: &R,
    db: &Database<P>,
    txn: &mut DbTransaction<P>,
    job: u64,
    lease: u64,
    env: &mut Env<'_, S, M, T>,
    laws: &Laws<X>,
) -> Result<(), QueueError>
    requires table { txn.old.table ≡ db.now }
    requires meaning { let reach = ⟦<EnvOf<S, M, T> as Outside>⟧.reach in (reach env.old).meaning ≡ P.meaning }
    requires laws { AreGiven P.options P.segments P.policies laws.now.options (segments_by X.lengths laws.now.segments) (map (λ p. (⟦<dyn FilterPolicy as FilterPolicy>⟧ p.vtable).meaning p.value) laws.now.policies.items) }
    ensures attempt { let reach = ⟦<EnvOf<S, M, T> as Outside>⟧.reach in
        (from : List Event) → IsAttempt P.options from IsolationLevel.SerializableSnapshot [] txn.old →
        AttemptsOn (λ done. Finishes job lease) (FinishStops job lease) P.options P.meaning P.policies from (reach env.old) (reach env.new) txn.new result }
    ensures table { txn.new.table ≡ txn.old.table }
    ensures counts { let reach = ⟦<EnvOf<S, M, T> as Outside>⟧.reach in IsStillBy db_error (reach env.old).faults (reach env.new).faults result }
    ensures reads { let reach = ⟦<EnvOf<S, M, T> as Outside>⟧.reach in OnlyReads (reach env.old) (reach env.new) }
{
    let alloc = *laws.policies.allocator();
    let key = job_key(job);
    let answer = match get(rt, db, txn, &key, env, laws) {
        Ok(answer) => answer,
        Err(error) => return Err(QueueError::Db(error)),
    };
    let tested = test_lease(alloc, &answer, &key, job, lease);
    drop(answer);
    match tested {
        Ok(()) => delete_job(txn, &key),
        Err(error) => Err(error),
    }
}

fn delete_job<P: Parts>(txn: &mut DbTransaction<P>, key: &[u8]) -> Result<(), QueueError>
    requires short { op_refusal key.now WriteOp.Delete ≡ None }
    ensures taken { (from : List Event) (level : IsolationLevel) (ts : List TranscriptStep) → IsAttempt P.options from level ts txn.old →
        OnOk result (IsAttempt P.options from level (ts ++ (steps.Own key.now WriteOp.Delete ∷ [])) txn.new) }
    ensures sees { IsVouchedThere P.options P.meaning txn.old → IsVouchedThere P.options P.meaning txn.new }
    ensures more { (txn.new.table ≡ txn.old.table) × (txn.new.seen ≡ txn.old.seen) }
    ensures same { OnErr result (txn.new ≡ txn.old) }
    ensures cause { IfErr result (λ e. e ≡ QueueError.Db SlateDBError.OutOfMemory) }
{
    match delete(txn, key) {
        Ok(()) => Ok(()),
        Err(error) => Err(QueueError::Db(error)),
    }
}
