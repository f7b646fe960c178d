//! The rows that a line's scan hands out.
ghost use Rattle.std.specs.Prelude.{◌≡◌, [], IfOk, IfErr, OnOk, IsSome, false, map};
ghost use Rattle.slate_types.specs.Config.{IsValid};
ghost use Rattle.slate_types.specs.Keys.{is_refused};
ghost use Rattle.slate_types.specs.Outside.{IsFault, IsStill, OnlyReads};
ghost use Rattle.slate_txn.specs.declared.line.ScanStep.TheVariants.{Rows};
ghost use Rattle.slate_txn.specs.Step.{reader};
ghost use Rattle.slate_db.specs.Readable.{IsAnswered};
ghost use Rattle.slate_db.specs.Scans.{IsOpenScan, IsScanError, id_of, number_of, scan_of};
ghost use Rattle.slate_script.specs.Scanning.{BeginsWith, Fails, HasScanned, IsNoted, Took};
ghost use Rattle.slate_script.specs.Walking.{TakesStep, TakesSteps, Walks};

use bytes::Bytes;
use slate_db::engine::Core;
use slate_db::laws::Laws;
use slate_db::scan::TxnIterator;
use slate_store::{Env, EnvOf, Store};
use slate_txn::line::ScanStep;
use slate_types::{
    BlockTransformer, BytesRange, IterationOrder, KeyValue, MergeOperator, Outside,
    PrefixExtractor, ScanOptions, SlateDBError,
};
use std::alloc::Global;
use uuid::Uuid;

/// The rows that steps hand out of a scan of an open transaction or snapshot over a range, in an order; without steps all rows.
/// The keys of the range begin with the prefix, where one is given.
pub(crate) fn scan_rows<S: Store, M: MergeOperator, T: BlockTransformer, X: PrefixExtractor>(
    alloc: Global,
    core: &mut Core,
    id: &Uuid,
    order: IterationOrder,
    range: BytesRange,
    prefix: Option<Bytes>,
    steps: &[ScanStep],
    env: &mut Env<'_, S, M, T>,
    laws: &Laws<X>,
) -> Result<Vec<KeyValue>, SlateDBError>
    requires open { IsSome (reader core.old.state id.now) }
    requires range { is_refused range.start range.end ≡ false }
    requires prefix { BeginsWith prefix range }
    requires valid { IsValid laws.now.options }
    ensures noted { IsNoted core.old core.new id.now }
    ensures scanned { let reach = ⟦<EnvOf<S, M, T> as Outside>⟧.reach in
        let policies = map (λ p. meaning (p.vtable, p.value)) laws.now.policies.items in
        IfOk result (λ v. HasScanned policies (reach env.old) (reach env.new) core.old core.new
        id.now order range steps.now v.items) }
    ensures undamaged { let reach = ⟦<EnvOf<S, M, T> as Outside>⟧.reach in
        let policies = map (λ p. meaning (p.vtable, p.value)) laws.now.policies.items in
        IsAnswered policies (reach env.old) (reach env.new) core.old →
        IfErr result (IsFault (reach env.old) (reach env.new)) }
    ensures cause { let reach = ⟦<EnvOf<S, M, T> as Outside>⟧.reach in
        let policies = map (λ p. meaning (p.vtable, p.value)) laws.now.policies.items in
        IfErr result (IsScanError policies (reach env.old) (reach env.new) core.old) }
    ensures reads { let reach = ⟦<EnvOf<S, M, T> as Outside>⟧.reach in OnlyReads (reach env.old) (reach env.new) }
    ensures still { let reach = ⟦<EnvOf<S, M, T> as Outside>⟧.reach in
        IsStill (reach env.old).faults (reach env.new).faults result }
{
    let options = ScanOptions {
        order,
        filter_context: None,
    };
    let opened = core.scan(id, range, prefix, &options, env, laws);
    drop(options);
    let mut scan = opened?;
    let rows = walk(alloc, core, &mut scan, steps, env);
    drop(scan);
    rows
}

/// The rows that the steps hand out; without steps all.
fn walk<S: Store, M: MergeOperator, T: BlockTransformer>(
    alloc: Global,
    core: &mut Core,
    scan: &mut TxnIterator<'_>,
    steps: &[ScanStep],
    env: &mut Env<'_, S, M, T>,
) -> Result<Vec<KeyValue>, SlateDBError>
    requires { IsOpenScan core.old scan.old }
    ensures noted { IsNoted core.old core.new (id_of scan.old) }
    ensures took { let reach = ⟦<EnvOf<S, M, T> as Outside>⟧.reach in
        let means = Walks (number_of scan.old) (scan_of scan.old).order steps.now in
        IfOk result (λ v. Took means (reach env.old) (reach env.new) core.old core.new scan.old scan.new [] v.items) }
    ensures refused { let reach = ⟦<EnvOf<S, M, T> as Outside>⟧.reach in
        IfErr result (Fails (reach env.old) (reach env.new) scan.old) }
    ensures reads { let reach = ⟦<EnvOf<S, M, T> as Outside>⟧.reach in OnlyReads (reach env.old) (reach env.new) }
    ensures still { let reach = ⟦<EnvOf<S, M, T> as Outside>⟧.reach in
        IsStill (reach env.old).faults (reach env.new).faults result }
{
    let mut rows = Vec::new(alloc);
    take(core, scan, steps, &mut rows, env)?;
    Ok(rows)
}

/// Takes what the steps ask for, and without steps all rows.
fn take<S: Store, M: MergeOperator, T: BlockTransformer>(
    core: &mut Core,
    scan: &mut TxnIterator<'_>,
    steps: &[ScanStep],
    rows: &mut Vec<KeyValue>,
    env: &mut Env<'_, S, M, T>,
) -> Result<(), SlateDBError>
    requires { IsOpenScan core.old scan.old }
    ensures noted { IsNoted core.old core.new (id_of scan.old) }
    ensures took { let reach = ⟦<EnvOf<S, M, T> as Outside>⟧.reach in
        let means = Walks (number_of scan.old) (scan_of scan.old).order steps.now in
        OnOk result (Took means (reach env.old) (reach env.new) core.old core.new scan.old scan.new
        rows.old.items rows.new.items) }
    ensures refused { let reach = ⟦<EnvOf<S, M, T> as Outside>⟧.reach in
        IfErr result (Fails (reach env.old) (reach env.new) scan.old) }
    ensures reads { let reach = ⟦<EnvOf<S, M, T> as Outside>⟧.reach in OnlyReads (reach env.old) (reach env.new) }
    ensures still { let reach = ⟦<EnvOf<S, M, T> as Outside>⟧.reach in
        IsStill (reach env.old).faults (reach env.new).faults result }
{
    if steps.is_empty() {
        take_rows(core, scan, u64::MAX, rows, env)
    } else {
        take_steps(core, scan, steps, rows, env)
    }
}

/// Takes what the steps ask for, one after the other.
fn take_steps<S: Store, M: MergeOperator, T: BlockTransformer>(
    core: &mut Core,
    scan: &mut TxnIterator<'_>,
    steps: &[ScanStep],
    rows: &mut Vec<KeyValue>,
    env: &mut Env<'_, S, M, T>,
) -> Result<(), SlateDBError>
    requires { IsOpenScan core.old scan.old }
    ensures noted { IsNoted core.old core.new (id_of scan.old) }
    ensures took { let reach = ⟦<EnvOf<S, M, T> as Outside>⟧.reach in
        let means = TakesSteps (number_of scan.old) (scan_of scan.old).order steps.now in
        OnOk result (Took means (reach env.old) (reach env.new) core.old core.new scan.old scan.new
        rows.old.items rows.new.items) }
    ensures refused { let reach = ⟦<EnvOf<S, M, T> as Outside>⟧.reach in
        IfErr result (Fails (reach env.old) (reach env.new) scan.old) }
    ensures reads { let reach = ⟦<EnvOf<S, M, T> as Outside>⟧.reach in OnlyReads (reach env.old) (reach env.new) }
    ensures still { let reach = ⟦<EnvOf<S, M, T> as Outside>⟧.reach in
        IsStill (reach env.old).faults (reach env.new).faults result }
{
    for step in steps {
        take_step(core, scan, step, rows, env)?;
    }
    Ok(())
}

/// Takes what one step asks for.
fn take_step<S: Store, M: MergeOperator, T: BlockTransformer>(
    core: &mut Core,
    scan: &mut TxnIterator<'_>,
    step: &ScanStep,
    rows: &mut Vec<KeyValue>,
    env: &mut Env<'_, S, M, T>,
) -> Result<(), SlateDBError>
    requires { IsOpenScan core.old scan.old }
    ensures noted { IsNoted core.old core.new (id_of scan.old) }
    ensures took { let reach = ⟦<EnvOf<S, M, T> as Outside>⟧.reach in
        let means = TakesStep (number_of scan.old) (scan_of scan.old).order step.now in
        OnOk result (Took means (reach env.old) (reach env.new) core.old core.new scan.old scan.new
        rows.old.items rows.new.items) }
    ensures refused { let reach = ⟦<EnvOf<S, M, T> as Outside>⟧.reach in
        IfErr result (Fails (reach env.old) (reach env.new) scan.old) }
    ensures reads { let reach = ⟦<EnvOf<S, M, T> as Outside>⟧.reach in OnlyReads (reach env.old) (reach env.new) }
    ensures still { let reach = ⟦<EnvOf<S, M, T> as Outside>⟧.reach in
        IsStill (reach env.old).faults (reach env.new).faults result }
{
    match step {
        ScanStep::Rows(count) => take_rows(core, scan, *count, rows, env),
        ScanStep::Seek(key) => core.seek(scan, key.as_slice(), env),
    }
}

/// Takes up to so many rows, and ends where none is left.
fn take_rows<S: Store, M: MergeOperator, T: BlockTransformer>(
    core: &mut Core,
    scan: &mut TxnIterator<'_>,
    count: u64,
    rows: &mut Vec<KeyValue>,
    env: &mut Env<'_, S, M, T>,
) -> Result<(), SlateDBError>
    requires { IsOpenScan core.old scan.old }
    ensures noted { IsNoted core.old core.new (id_of scan.old) }
    ensures took { let reach = ⟦<EnvOf<S, M, T> as Outside>⟧.reach in
        let means = TakesStep (number_of scan.old) (scan_of scan.old).order (Rows count) in
        OnOk result (Took means (reach env.old) (reach env.new) core.old core.new scan.old scan.new
        rows.old.items rows.new.items) }
    ensures refused { let reach = ⟦<EnvOf<S, M, T> as Outside>⟧.reach in
        IfErr result (Fails (reach env.old) (reach env.new) scan.old) }
    ensures reads { let reach = ⟦<EnvOf<S, M, T> as Outside>⟧.reach in OnlyReads (reach env.old) (reach env.new) }
    ensures still { let reach = ⟦<EnvOf<S, M, T> as Outside>⟧.reach in
        IsStill (reach env.old).faults (reach env.new).faults result }
{
    for _ in 0..count {
        let Some(row) = core.next(scan, env)? else {
            break;
        };
        rows.push(row)?;
    }
    Ok(())
}
