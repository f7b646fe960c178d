//! The steps of a claim.
ghost use Rattle.std.specs.Prelude.{◌≡◌, ◌⊎◌, ◌++◌, ◌∷◌, ◌≤◌, ℕ, List, [], IfErr, IfOk, OnErr, OnOk, drop, length, map};
ghost use Rattle.slate_types.specs.Config.{IsValid};
ghost use Rattle.slate_types.specs.declared.config.IsolationLevel.{IsolationLevel};
ghost use Rattle.slate_types.specs.declared.error.SlateDBError.{SlateDBError};
ghost use Rattle.slate_types.specs.Outside.{OnlyReads};
ghost use Rattle.slate_db.specs.Model.{CoreModel};
ghost use Rattle.slate_db.specs.Opened.{HasTransaction};
ghost use Rattle.slate_db.specs.Scans.{IsOpenScan, id_of, number_of};
ghost use Rattle.slate_txn.specs.declared.event.TranscriptStep.{TranscriptStep};
ghost use Rattle.slate_steps.specs.Reads.{IsStillBy};
ghost use Rattle.slate_steps.specs.Steps.{IsWithin};
ghost use Rattle.slate_queue.specs.declared.error.QueueError.{QueueError};
ghost use Rattle.slate_queue.specs.CallSteps.{ClaimStops, HasLease, IsBadRow, MayClaim, own_steps};
ghost use Rattle.slate_queue.specs.Calls.{Attempts, db_error};
ghost use Rattle.slate_queue.specs.Commits.{put_of};
ghost use Rattle.slate_queue.specs.Standing.{longest_value};
ghost use Rattle.slate_queue.specs.Stored.{job_bytes, job_key};
ghost use Rattle.slate_queue.specs.Walks.{FindStops, GoesTo, IsFound, IsStepAt, MayFind, RaiseStops, Raises, StopsAt, WalkStops, WalksTo};

use crate::adding::put_short;
use crate::claims::Claim;
use crate::error::QueueError;
use crate::stored::{LeaseHead, bad_job, is_free, job_id, job_lease, job_value};
use slate_db::engine::Core;
use slate_db::laws::Laws;
use slate_db::scan::TxnIterator;
use slate_steps::scan::{next, scan_prefix};
use slate_store::{Env, EnvOf, Store};
use slate_types::{
    BlockTransformer, KeyValue, MergeOperator, Outside, PrefixExtractor, SlateDBError,
};
use std::alloc::Global;
use uuid::Uuid;

/// A job that is free: its id, its lease's number, and its row.
#[derive(Drop)]
pub(crate) struct FreeJob {
    pub(crate) id: u64,
    pub(crate) lease: u64,
    pub(crate) row: KeyValue,
}

/// What a claim does at the next row.
#[derive(Drop)]
pub(crate) enum Step {
    /// It passes over it.
    Passed,
    /// It takes the job.
    Free(FreeJob),
    /// There is none.
    End,
}

/// Scans the jobs upwards to the first that is free at the moment, and puts it under its next lease.
pub(crate) fn claim_job<S: Store, M: MergeOperator, T: BlockTransformer, X: PrefixExtractor>(
    core: &mut Core,
    id: &Uuid,
    now: i64,
    ms: u64,
    env: &mut Env<'_, S, M, T>,
    laws: &Laws<X>,
) -> Result<Option<Claim>, QueueError>
    requires open { HasTransaction core.old id.now }
    requires within { (c : CoreModel) × IsWithin c id.now IsolationLevel.SerializableSnapshot [] core.old }
    requires valid { IsValid laws.now.options }
    ensures open { HasTransaction core.new id.now }
    ensures attempt { let reach = ⟦<EnvOf<S, M, T> as Outside>⟧.reach in
        let policies = map (λ p. meaning (p.vtable, p.value)) laws.now.policies.items in
        (c : CoreModel) → IsWithin c id.now IsolationLevel.SerializableSnapshot [] core.old →
        Attempts (MayClaim now ms) (ClaimStops now) policies (reach env.old) (reach env.new) c id.now core.new result }
    ensures counts { let reach = ⟦<EnvOf<S, M, T> as Outside>⟧.reach in IsStillBy db_error (reach env.old).faults (reach env.new).faults result }
    ensures reads { let reach = ⟦<EnvOf<S, M, T> as Outside>⟧.reach in OnlyReads (reach env.old) (reach env.new) }
{
    let alloc = core.journal().alloc();
    match find_free(alloc, core, id, now, env, laws) {
        Ok(Some(found)) => match raise(alloc, core, id, now, ms, found) {
            Ok(claim) => Ok(Some(claim)),
            Err(error) => Err(error),
        },
        Ok(None) => Ok(None),
        Err(error) => Err(error),
    }
}

/// The first job of a scan of all that is free at the moment.
fn find_free<S: Store, M: MergeOperator, T: BlockTransformer, X: PrefixExtractor>(
    alloc: Global,
    core: &mut Core,
    id: &Uuid,
    now: i64,
    env: &mut Env<'_, S, M, T>,
    laws: &Laws<X>,
) -> Result<Option<FreeJob>, QueueError>
    requires open { HasTransaction core.old id.now }
    requires within { (c : CoreModel) × IsWithin c id.now IsolationLevel.SerializableSnapshot [] core.old }
    requires valid { IsValid laws.now.options }
    ensures open { HasTransaction core.new id.now }
    ensures attempt { let reach = ⟦<EnvOf<S, M, T> as Outside>⟧.reach in
        let policies = map (λ p. meaning (p.vtable, p.value)) laws.now.policies.items in
        (c : CoreModel) → IsWithin c id.now IsolationLevel.SerializableSnapshot [] core.old →
        Attempts (MayFind now) (FindStops now) policies (reach env.old) (reach env.new) c id.now core.new result }
    ensures counts { let reach = ⟦<EnvOf<S, M, T> as Outside>⟧.reach in IsStillBy db_error (reach env.old).faults (reach env.new).faults result }
    ensures reads { let reach = ⟦<EnvOf<S, M, T> as Outside>⟧.reach in OnlyReads (reach env.old) (reach env.new) }
{
    let mut scan = match scan_prefix(alloc, core, id, b"j", env, laws) {
        Ok(scan) => scan,
        Err(error) => return Err(QueueError::Db(error)),
    };
    let found = walk(alloc, core, &mut scan, now, env);
    drop(scan);
    found
}

/// Walks over the rows of a scan to the first that is a free job.
fn walk<S: Store, M: MergeOperator, T: BlockTransformer>(
    alloc: Global,
    core: &mut Core,
    scan: &mut TxnIterator<'_>,
    now: i64,
    env: &mut Env<'_, S, M, T>,
) -> Result<Option<FreeJob>, QueueError>
    requires opened { IsOpenScan core.old scan.old }
    requires open { HasTransaction core.old (id_of scan.old) }
    requires first { number_of scan.old ≡ 0 }
    ensures open { HasTransaction core.new (id_of scan.old) }
    ensures to { let reach = ⟦<EnvOf<S, M, T> as Outside>⟧.reach in
        IfOk result (WalksTo now (reach env.old) (reach env.new) core.old core.new scan.old) }
    ensures stops { let reach = ⟦<EnvOf<S, M, T> as Outside>⟧.reach in
        IfErr result (WalkStops now (reach env.old) (reach env.new) core.old core.new scan.old) }
    ensures counts { let reach = ⟦<EnvOf<S, M, T> as Outside>⟧.reach in IsStillBy db_error (reach env.old).faults (reach env.new).faults result }
    ensures reads { let reach = ⟦<EnvOf<S, M, T> as Outside>⟧.reach in OnlyReads (reach env.old) (reach env.new) }
{
    for _ in 0..u64::MAX {
        match walk_on(alloc, core, scan, now, env) {
            Ok(Step::Passed) => {}
            Ok(Step::Free(found)) => return Ok(Some(found)),
            Ok(Step::End) => return Ok(None),
            Err(error) => return Err(error),
        }
    }
    Err(QueueError::Db(SlateDBError::OutOfMemory))
}

/// What the walk does at the next row.
fn walk_on<S: Store, M: MergeOperator, T: BlockTransformer>(
    alloc: Global,
    core: &mut Core,
    scan: &mut TxnIterator<'_>,
    now: i64,
    env: &mut Env<'_, S, M, T>,
) -> Result<Step, QueueError>
    requires opened { IsOpenScan core.old scan.old }
    requires open { HasTransaction core.old (id_of scan.old) }
    requires first { number_of scan.old ≡ 0 }
    ensures opened { IsOpenScan core.new scan.new }
    ensures open { HasTransaction core.new (id_of scan.old) }
    ensures goes { let reach = ⟦<EnvOf<S, M, T> as Outside>⟧.reach in
        IfOk result (GoesTo now (reach env.old) (reach env.new) core.old core.new scan.old scan.new) }
    ensures stops { let reach = ⟦<EnvOf<S, M, T> as Outside>⟧.reach in
        IfErr result (StopsAt (reach env.old) (reach env.new) core.old core.new scan.old scan.new) }
    ensures counts { let reach = ⟦<EnvOf<S, M, T> as Outside>⟧.reach in IsStillBy db_error (reach env.old).faults (reach env.new).faults result }
    ensures reads { let reach = ⟦<EnvOf<S, M, T> as Outside>⟧.reach in OnlyReads (reach env.old) (reach env.new) }
{
    match next(core, scan, env) {
        Ok(Some(row)) => at_row(alloc, now, row),
        Ok(None) => Ok(Step::End),
        Err(error) => Err(QueueError::Db(error)),
    }
}

/// What a claim at the moment does at the row.
pub(crate) fn at_row(alloc: Global, now: i64, row: KeyValue) -> Result<Step, QueueError>
    ensures step { IfOk result (IsStepAt now row) }
    ensures bad { IfErr result (λ e. (e ≡ QueueError.Db SlateDBError.OutOfMemory) ⊎ IsBadRow row e) }
{
    let Some(id) = job_id(row.key.as_slice()) else {
        drop(row);
        return Ok(Step::Passed);
    };
    match job_lease(row.value.as_slice()) {
        Some(lease) => Ok(at_job(now, id, lease, row)),
        None => {
            let bad = bad_job(alloc, row.key.as_slice());
            drop(row);
            Err(bad)
        }
    }
}

fn at_job(now: i64, id: u64, lease: LeaseHead, row: KeyValue) -> Step
    requires key { row.key ≡ job_key id }
    requires lease { HasLease row.value lease }
    ensures { IsStepAt now row result }
{
    if is_free(now, lease) {
        Step::Free(FreeJob {
            id,
            lease: lease.number,
            row,
        })
    } else {
        drop(row);
        Step::Passed
    }
}

/// Puts a free job under its next lease, which ends so many milliseconds after the moment, at the last moment at most.
fn raise(
    alloc: Global,
    core: &mut Core,
    id: &Uuid,
    now: i64,
    ms: u64,
    found: FreeJob,
) -> Result<Claim, QueueError>
    requires open { HasTransaction core.old id.now }
    requires found { IsFound now found }
    ensures open { HasTransaction core.new id.now }
    ensures raises { IfOk result (Raises now ms found core.old core.new id.now) }
    ensures stops { IfErr result (RaiseStops found) }
    ensures same { OnErr result (core.new ≡ core.old) }
{
    if found.lease == u64::MAX {
        let id = found.id;
        drop(found);
        return Err(QueueError::LeasesSpent { id });
    }
    let FreeJob {
        id: job,
        lease,
        row,
    } = found;
    let payload = match row.value.slice(16..) {
        Ok(payload) => payload,
        Err(error) => {
            drop(row);
            return Err(QueueError::from(error));
        }
    };
    let ends = now.saturating_add_unsigned(ms);
    let put = put_raised(alloc, core, id, lease + 1, ends, &row);
    drop(row);
    match put {
        Ok(()) => Ok(Claim {
            id: job,
            lease: lease + 1,
            payload,
        }),
        Err(error) => {
            drop(payload);
            Err(error)
        }
    }
}

/// Puts the job of the row under a lease.
fn put_raised(
    alloc: Global,
    core: &mut Core,
    id: &Uuid,
    lease: u64,
    ends: i64,
    row: &KeyValue,
) -> Result<(), QueueError>
    requires open { HasTransaction core.old id.now }
    requires long { 16 ≤ length row.now.value }
    requires short { length row.now.value ≤ longest_value }
    requires key { (job : ℕ) × (row.now.key ≡ job_key job) }
    ensures open { HasTransaction core.new id.now }
    ensures taken { (c : CoreModel) (level : IsolationLevel) (ts : List TranscriptStep) → IsWithin c id.now level ts core.old →
        OnOk result (IsWithin c id.now level (ts ++ own_steps ((row.now.key, put_of (job_bytes (record { lease = lease; ends = ends; payload = drop 16 row.now.value }))) ∷ [])) core.new) }
    ensures same { OnErr result (core.new ≡ core.old) }
    ensures cause { IfErr result (λ e. e ≡ QueueError.Db SlateDBError.OutOfMemory) }
{
    let (_, payload) = row.value.as_slice().split_at(16);
    match job_value(alloc, lease, ends, payload) {
        Ok(value) => {
            let put = put_short(core, id, row.key.as_slice(), value.as_slice());
            drop(value);
            put
        }
        Err(error) => Err(QueueError::from(error)),
    }
}
