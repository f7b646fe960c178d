//! The steps of a claim.
ghost use Rattle.std.specs.Prelude.{◌≡◌, ◌++◌, ◌∷◌, ◌≤◌, ℕ, List, [], IfErr, IfOk, OnErr, OnOk, drop, length, map};
ghost use Rattle.slate_types.specs.Config.{IsValid};
ghost use Rattle.slate_types.specs.declared.config.IsolationLevel.{IsolationLevel};
ghost use Rattle.slate_types.specs.declared.error.SlateDBError.{SlateDBError};
ghost use Rattle.slate_types.specs.Outside.{OnlyReads};
ghost use Rattle.slate_txn.specs.declared.event.Event.{Event};
ghost use Rattle.slate_txn.specs.declared.event.TranscriptStep.{TranscriptStep};
ghost use Rattle.slate_db.specs.Meaning.{segments_by};
ghost use Rattle.slate_shared.specs.Given.{AreGiven};
ghost use Rattle.slate_steps.specs.Attempts.{IsAttempt, IsVouchedThere};
ghost use Rattle.slate_steps.specs.Reads.{IsStillBy};
ghost use Rattle.slate_queue.specs.declared.error.QueueError.{QueueError};
ghost use Rattle.slate_queue.specs.CallSteps.{ClaimStops, MayClaim, own_steps};
ghost use Rattle.slate_queue.specs.Calls.{db_error};
ghost use Rattle.slate_queue.specs.Commits.{put_of};
ghost use Rattle.slate_queue.specs.OnPass.{AttemptsOn};
ghost use Rattle.slate_queue.specs.PassWalks.{HaltsOn, IsUnderWay, RaisesOn, WalkGoes, WalkHalts, WalksToOn};
ghost use Rattle.slate_queue.specs.Standing.{longest_value};
ghost use Rattle.slate_queue.specs.Stored.{job_bytes, job_key};
ghost use Rattle.slate_queue.specs.Walks.{FindStops, IsFound, MayFind, RaiseStops};

use super::adding::put_short;
use crate::claiming::{FreeJob, Step, at_row};
use crate::claims::Claim;
use crate::error::QueueError;
use crate::stored::job_value;
use slate_db::laws::Laws;
use slate_db::scan::TxnIterator;
use slate_filter::FilterPolicy;
use slate_shared::{Database, DbTransaction, Parts};
use slate_steps::on_pass::{next, scan_prefix};
use slate_store::{Env, EnvOf, Store};
use slate_types::{
    BlockTransformer, KeyValue, MergeOperator, Outside, PrefixExtractor, SlateDBError,
};
use std::alloc::Global;
use std::sync::Wait;

/// Scans the jobs upwards to the first that is free at the moment, and puts it under its next lease.
pub(crate) fn claim_job<
    P: Parts,
    R: Wait,
    S: Store,
    M: MergeOperator,
    T: BlockTransformer,
    X: PrefixExtractor,
>(
    rt: &R,
    db: &Database<P>,
    txn: &mut DbTransaction<P>,
    now: i64,
    ms: u64,
    env: &mut Env<'_, S, M, T>,
    laws: &Laws<X>,
) -> Result<Option<Claim>, QueueError>
    requires table { txn.old.table ≡ db.now }
    requires begun { (from : List Event) × IsAttempt P.options from IsolationLevel.SerializableSnapshot [] txn.old }
    requires valid { IsValid laws.now.options }
    requires meaning { let reach = ⟦<EnvOf<S, M, T> as Outside>⟧.reach in (reach env.old).meaning ≡ P.meaning }
    requires laws { AreGiven P.options P.segments P.policies laws.now.options (segments_by X.lengths laws.now.segments) (map (λ p. (⟦<dyn FilterPolicy as FilterPolicy>⟧ p.vtable).meaning p.value) laws.now.policies.items) }
    ensures attempt { let reach = ⟦<EnvOf<S, M, T> as Outside>⟧.reach in
        (from : List Event) → IsAttempt P.options from IsolationLevel.SerializableSnapshot [] txn.old →
        AttemptsOn (MayClaim now ms) (ClaimStops now) P.options P.meaning P.policies from (reach env.old) (reach env.new) txn.new result }
    ensures table { txn.new.table ≡ txn.old.table }
    ensures counts { let reach = ⟦<EnvOf<S, M, T> as Outside>⟧.reach in IsStillBy db_error (reach env.old).faults (reach env.new).faults result }
    ensures reads { let reach = ⟦<EnvOf<S, M, T> as Outside>⟧.reach in OnlyReads (reach env.old) (reach env.new) }
{
    let alloc = *laws.policies.allocator();
    match find_free(alloc, rt, db, txn, now, env, laws) {
        Ok(Some(found)) => match raise(alloc, txn, now, ms, found) {
            Ok(claim) => Ok(Some(claim)),
            Err(error) => Err(error),
        },
        Ok(None) => Ok(None),
        Err(error) => Err(error),
    }
}

/// The first job of a scan of all that is free at the moment.
fn find_free<
    P: Parts,
    R: Wait,
    S: Store,
    M: MergeOperator,
    T: BlockTransformer,
    X: PrefixExtractor,
>(
    alloc: Global,
    rt: &R,
    db: &Database<P>,
    txn: &mut DbTransaction<P>,
    now: i64,
    env: &mut Env<'_, S, M, T>,
    laws: &Laws<X>,
) -> Result<Option<FreeJob>, QueueError>
    requires table { txn.old.table ≡ db.now }
    requires begun { (from : List Event) × IsAttempt P.options from IsolationLevel.SerializableSnapshot [] txn.old }
    requires valid { IsValid laws.now.options }
    requires meaning { let reach = ⟦<EnvOf<S, M, T> as Outside>⟧.reach in (reach env.old).meaning ≡ P.meaning }
    requires laws { AreGiven P.options P.segments P.policies laws.now.options (segments_by X.lengths laws.now.segments) (map (λ p. (⟦<dyn FilterPolicy as FilterPolicy>⟧ p.vtable).meaning p.value) laws.now.policies.items) }
    ensures attempt { let reach = ⟦<EnvOf<S, M, T> as Outside>⟧.reach in
        (from : List Event) → IsAttempt P.options from IsolationLevel.SerializableSnapshot [] txn.old →
        AttemptsOn (MayFind now) (FindStops now) P.options P.meaning P.policies from (reach env.old) (reach env.new) txn.new result }
    ensures table { txn.new.table ≡ txn.old.table }
    ensures counts { let reach = ⟦<EnvOf<S, M, T> as Outside>⟧.reach in IsStillBy db_error (reach env.old).faults (reach env.new).faults result }
    ensures reads { let reach = ⟦<EnvOf<S, M, T> as Outside>⟧.reach in OnlyReads (reach env.old) (reach env.new) }
{
    let mut scan = match scan_prefix(rt, db, txn, b"j", env, laws) {
        Ok(scan) => scan,
        Err(error) => return Err(QueueError::Db(error)),
    };
    let found = walk(alloc, txn, &mut scan, now, env);
    drop(scan);
    found
}

/// Walks over the rows of a scan to the first that is a free job.
fn walk<P: Parts, S: Store, M: MergeOperator, T: BlockTransformer>(
    alloc: Global,
    txn: &mut DbTransaction<P>,
    scan: &mut TxnIterator<'_>,
    now: i64,
    env: &mut Env<'_, S, M, T>,
) -> Result<Option<FreeJob>, QueueError>
    requires walking { IsUnderWay P.options txn.old scan.old }
    ensures to { let reach = ⟦<EnvOf<S, M, T> as Outside>⟧.reach in
        IfOk result (WalksToOn now P.options P.meaning (reach env.old) (reach env.new) txn.old txn.new scan.old) }
    ensures halts { let reach = ⟦<EnvOf<S, M, T> as Outside>⟧.reach in
        IfErr result (WalkHalts now P.options P.meaning (reach env.old) (reach env.new) txn.old txn.new scan.old) }
    ensures table { txn.new.table ≡ txn.old.table }
    ensures counts { let reach = ⟦<EnvOf<S, M, T> as Outside>⟧.reach in IsStillBy db_error (reach env.old).faults (reach env.new).faults result }
    ensures reads { let reach = ⟦<EnvOf<S, M, T> as Outside>⟧.reach in OnlyReads (reach env.old) (reach env.new) }
{
    for _ in 0..u64::MAX {
        match walk_on(alloc, txn, scan, now, env) {
            Ok(Step::Passed) => {}
            Ok(Step::Free(found)) => return Ok(Some(found)),
            Ok(Step::End) => return Ok(None),
            Err(error) => return Err(error),
        }
    }
    Err(QueueError::Db(SlateDBError::OutOfMemory))
}

/// What the walk does at the next row.
fn walk_on<P: Parts, S: Store, M: MergeOperator, T: BlockTransformer>(
    alloc: Global,
    txn: &mut DbTransaction<P>,
    scan: &mut TxnIterator<'_>,
    now: i64,
    env: &mut Env<'_, S, M, T>,
) -> Result<Step, QueueError>
    requires walking { IsUnderWay P.options txn.old scan.old }
    ensures walking { IsUnderWay P.options txn.new scan.new }
    ensures goes { let reach = ⟦<EnvOf<S, M, T> as Outside>⟧.reach in
        IfOk result (WalkGoes now P.options P.meaning (reach env.old) (reach env.new) txn.old txn.new scan.old scan.new) }
    ensures halts { let reach = ⟦<EnvOf<S, M, T> as Outside>⟧.reach in
        IfErr result (HaltsOn P.options P.meaning (reach env.old) (reach env.new) txn.old txn.new scan.old scan.new) }
    ensures table { txn.new.table ≡ txn.old.table }
    ensures counts { let reach = ⟦<EnvOf<S, M, T> as Outside>⟧.reach in IsStillBy db_error (reach env.old).faults (reach env.new).faults result }
    ensures reads { let reach = ⟦<EnvOf<S, M, T> as Outside>⟧.reach in OnlyReads (reach env.old) (reach env.new) }
{
    match next(txn, scan, env) {
        Ok(Some(row)) => at_row(alloc, now, row),
        Ok(None) => Ok(Step::End),
        Err(error) => Err(QueueError::Db(error)),
    }
}

/// Puts a free job under its next lease, which ends so many milliseconds after the moment, at the last moment at most.
fn raise<P: Parts>(
    alloc: Global,
    txn: &mut DbTransaction<P>,
    now: i64,
    ms: u64,
    found: FreeJob,
) -> Result<Claim, QueueError>
    requires found { IsFound now found }
    ensures raises { IfOk result (RaisesOn now ms P.options P.meaning found txn.old txn.new) }
    ensures stops { IfErr result (RaiseStops found) }
    ensures table { txn.new.table ≡ txn.old.table }
    ensures same { OnErr result (txn.new ≡ txn.old) }
{
    if found.lease == u64::MAX {
        let id = found.id;
        drop(found);
        return Err(QueueError::LeasesSpent { id });
    }
    let FreeJob {
        id: job,
        lease,
        row,
    } = found;
    let payload = match row.value.slice(16..) {
        Ok(payload) => payload,
        Err(error) => {
            drop(row);
            return Err(QueueError::from(error));
        }
    };
    let ends = now.saturating_add_unsigned(ms);
    let put = put_raised(alloc, txn, lease + 1, ends, &row);
    drop(row);
    match put {
        Ok(()) => Ok(Claim {
            id: job,
            lease: lease + 1,
            payload,
        }),
        Err(error) => {
            drop(payload);
            Err(error)
        }
    }
}

/// Puts the job of the row under a lease.
fn put_raised<P: Parts>(
    alloc: Global,
    txn: &mut DbTransaction<P>,
    lease: u64,
    ends: i64,
    row: &KeyValue,
) -> Result<(), QueueError>
    requires long { 16 ≤ length row.now.value }
    requires short { length row.now.value ≤ longest_value }
    requires key { (job : ℕ) × (row.now.key ≡ job_key job) }
    ensures taken { (from : List Event) (level : IsolationLevel) (ts : List TranscriptStep) → IsAttempt P.options from level ts txn.old →
        OnOk result (IsAttempt P.options from level (ts ++ own_steps ((row.now.key, put_of (job_bytes (record { lease = lease; ends = ends; payload = drop 16 row.now.value }))) ∷ [])) txn.new) }
    ensures sees { IsVouchedThere P.options P.meaning txn.old → IsVouchedThere P.options P.meaning txn.new }
    ensures more { (txn.new.table ≡ txn.old.table) × (txn.new.seen ≡ txn.old.seen) }
    ensures same { OnErr result (txn.new ≡ txn.old) }
    ensures cause { IfErr result (λ e. e ≡ QueueError.Db SlateDBError.OutOfMemory) }
{
    let (_, payload) = row.value.as_slice().split_at(16);
    match job_value(alloc, lease, ends, payload) {
        Ok(value) => {
            let put = put_short(txn, row.key.as_slice(), value.as_slice());
            drop(value);
            put
        }
        Err(error) => Err(QueueError::from(error)),
    }
}
