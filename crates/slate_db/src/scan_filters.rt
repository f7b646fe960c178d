//! What a scan asks the filters of tables, and the tables that they leave to it.
ghost use Rattle.std.specs.Prelude.{◌≡◌, ◌++◌, ◌∷◌, [], ℕ, List, Some, false, map, nat_eq, true, IfOk, IfErr, IsOkUnless, OnOk};
ghost use Rattle.std.specs.List.{starts_with};
ghost use Rattle.slate_types.specs.declared.error.SlateDBError.{SlateDBError};
ghost use Rattle.slate_types.specs.Keys.{in_range};
ghost use Rattle.slate_types.specs.Outside.{IsStill, OnlyReads};
ghost use Rattle.slate_db.specs.Installs.{handles_of};
ghost use Rattle.slate_db.specs.ScanFilters.{AddsLeft, AddsRun, AsksTable, Covers, FailsAsking, RunsAreLeft, TablesAreLeft, scan_query};

use crate::flush::ROOT;
use crate::open_scan::{copy_contexts, copy_handle};
use slate_filter::FilterPolicy;
use slate_read::run_walk::can_reach;
use slate_read::{SortedRun, SstIteratorOptions};
use slate_store::{Env, EnvOf, Store};
use slate_table::{SsTableHandle, TableStore};
use slate_types::{
    BlockTransformer, BytesRange, FilterQuery, MergeOperator, Outside, PrefixTarget, SlateDBError,
};
use std::alloc::{AllocError, Global};

/// What a scan asks the filters of tables: for the key where its range is a point, else for the prefix of its keys where it is
/// given one, else nothing.
pub(crate) fn scan_query(
    range: &BytesRange,
    options: &SstIteratorOptions,
) -> Result<Option<FilterQuery>, SlateDBError>
    ensures query { IfOk result (λ query. query ≡ scan_query range.now options.now.prefix options.now.filter_context) }
    ensures cause { IsOkUnless result SlateDBError.OutOfMemory }
{
    let target = match (range.as_point(), &options.prefix) {
        (Some(key), _) => PrefixTarget::Point(key.clone()?),
        (None, Some(prefix)) => PrefixTarget::Prefix(prefix.clone()?),
        (None, None) => return Ok(None),
    };
    let context = copy_contexts(&options.filter_context)?;
    Ok(Some(FilterQuery { target, context }))
}

/// Whether a table is left to a scan, by its first and its last key and by its filters. One that can't hold a key of the range isn't
/// asked.
fn is_left<S: Store, M: MergeOperator, T: BlockTransformer>(
    alloc: Global,
    table: &SsTableHandle,
    range: &BytesRange,
    policies: &[Box<dyn FilterPolicy>],
    query: &Option<FilterQuery>,
    env: &mut Env<'_, S, M, T>,
) -> Result<bool, SlateDBError>
    requires { Covers query.now range.now }
    ensures asks { let reach = ⟦<EnvOf<S, M, T> as Outside>⟧.reach in
        AsksTable (map (λ p. meaning p) policies.now) query.now (reach env.old) (reach env.new)
        range.now table.now result }
    ensures refused { let reach = ⟦<EnvOf<S, M, T> as Outside>⟧.reach in IfErr result (FailsAsking (map (λ p. meaning p) policies.now) query.now (reach env.old) (reach env.new) (table.now ∷ [])) }
    ensures reads { let reach = ⟦<EnvOf<S, M, T> as Outside>⟧.reach in OnlyReads (reach env.old) (reach env.new) }
    ensures still { let reach = ⟦<EnvOf<S, M, T> as Outside>⟧.reach in
        IsStill (reach env.old).faults (reach env.new).faults result }
{
    if !can_reach(range, &table.info) {
        return Ok(false);
    }
    let Some(query) = query else {
        return Ok(true);
    };
    TableStore::might_match(
        alloc,
        env.store,
        ROOT,
        table,
        policies,
        query,
        &mut env.transformer,
    )
}

fn push_copy(handles: &mut Vec<SsTableHandle>, handle: &SsTableHandle) -> Result<(), AllocError>
    ensures { OnOk result (handles.new.items ≡ handles.old.items ++ handle.now ∷ []) }
{
    let copy = copy_handle(handle)?;
    handles.push(copy)?;
    Ok(())
}

/// Adds what is kept of a table, where it is left to a scan.
fn add_left<S: Store, M: MergeOperator, T: BlockTransformer>(
    alloc: Global,
    left: &mut Vec<SsTableHandle>,
    table: &SsTableHandle,
    range: &BytesRange,
    policies: &[Box<dyn FilterPolicy>],
    query: &Option<FilterQuery>,
    env: &mut Env<'_, S, M, T>,
) -> Result<(), SlateDBError>
    requires { Covers query.now range.now }
    ensures added { let reach = ⟦<EnvOf<S, M, T> as Outside>⟧.reach in OnOk result (AddsLeft (map (λ p. meaning p) policies.now) query.now (reach env.old) (reach env.new) range.now table.now left.old.items left.new.items) }
    ensures refused { let reach = ⟦<EnvOf<S, M, T> as Outside>⟧.reach in IfErr result (FailsAsking (map (λ p. meaning p) policies.now) query.now (reach env.old) (reach env.new) (table.now ∷ [])) }
    ensures reads { let reach = ⟦<EnvOf<S, M, T> as Outside>⟧.reach in OnlyReads (reach env.old) (reach env.new) }
    ensures still { let reach = ⟦<EnvOf<S, M, T> as Outside>⟧.reach in
        IsStill (reach env.old).faults (reach env.new).faults result }
{
    let passes = is_left(alloc, table, range, policies, query, env)?;
    if !passes {
        return Ok(());
    }
    push_copy(left, table)?;
    Ok(())
}

/// What is kept of the tables that are left to a scan.
fn tables_left<S: Store, M: MergeOperator, T: BlockTransformer>(
    alloc: Global,
    tables: &[SsTableHandle],
    range: &BytesRange,
    policies: &[Box<dyn FilterPolicy>],
    query: &Option<FilterQuery>,
    env: &mut Env<'_, S, M, T>,
) -> Result<Vec<SsTableHandle>, SlateDBError>
    requires { Covers query.now range.now }
    ensures left { let reach = ⟦<EnvOf<S, M, T> as Outside>⟧.reach in IfOk result (λ left. TablesAreLeft (map (λ p. meaning p) policies.now) query.now (reach env.old) (reach env.new) range.now tables.now left.items) }
    ensures refused { let reach = ⟦<EnvOf<S, M, T> as Outside>⟧.reach in IfErr result (FailsAsking (map (λ p. meaning p) policies.now) query.now (reach env.old) (reach env.new) tables.now) }
    ensures reads { let reach = ⟦<EnvOf<S, M, T> as Outside>⟧.reach in OnlyReads (reach env.old) (reach env.new) }
    ensures still { let reach = ⟦<EnvOf<S, M, T> as Outside>⟧.reach in
        IsStill (reach env.old).faults (reach env.new).faults result }
{
    let mut left = Vec::new(alloc);
    for table in tables {
        add_left(alloc, &mut left, table, range, policies, query, env)?;
    }
    Ok(left)
}

/// A copy of what is kept of a run, without the tables that aren't left to a scan.
fn run_left<S: Store, M: MergeOperator, T: BlockTransformer>(
    alloc: Global,
    run: &SortedRun,
    range: &BytesRange,
    policies: &[Box<dyn FilterPolicy>],
    query: &Option<FilterQuery>,
    env: &mut Env<'_, S, M, T>,
) -> Result<SortedRun, SlateDBError>
    requires { Covers query.now range.now }
    ensures left { let reach = ⟦<EnvOf<S, M, T> as Outside>⟧.reach in IfOk result (λ left. TablesAreLeft (map (λ p. meaning p) policies.now) query.now (reach env.old) (reach env.new) range.now run.now.tables.items left.tables.items) }
    ensures refused { let reach = ⟦<EnvOf<S, M, T> as Outside>⟧.reach in IfErr result (FailsAsking (map (λ p. meaning p) policies.now) query.now (reach env.old) (reach env.new) run.now.tables.items) }
    ensures reads { let reach = ⟦<EnvOf<S, M, T> as Outside>⟧.reach in OnlyReads (reach env.old) (reach env.new) }
    ensures still { let reach = ⟦<EnvOf<S, M, T> as Outside>⟧.reach in
        IsStill (reach env.old).faults (reach env.new).faults result }
{
    let prefix = run.prefix.clone()?;
    let tables = tables_left(alloc, run.tables.as_slice(), range, policies, query, env)?;
    Ok(SortedRun { prefix, tables })
}

/// Adds a run, where it has any table.
fn push_run(runs: &mut Vec<SortedRun>, run: SortedRun) -> Result<(), AllocError>
    ensures { OnOk result (AddsRun run runs.old.items runs.new.items) }
{
    if !run.tables.is_empty() {
        runs.push(run)?;
    }
    Ok(())
}

/// Copies of what is kept of the runs that have a table left to a scan, without the tables that aren't left to it. Each table that can
/// hold a key of the range is asked once, before its index is read, and a denied one costs one read.
pub(crate) fn runs_left<S: Store, M: MergeOperator, T: BlockTransformer>(
    alloc: Global,
    runs: &[SortedRun],
    range: &BytesRange,
    policies: &[Box<dyn FilterPolicy>],
    query: &Option<FilterQuery>,
    env: &mut Env<'_, S, M, T>,
) -> Result<Vec<SortedRun>, SlateDBError>
    requires { Covers query.now range.now }
    ensures left { let reach = ⟦<EnvOf<S, M, T> as Outside>⟧.reach in IfOk result (λ left. RunsAreLeft (map (λ p. meaning p) policies.now) query.now (reach env.old) (reach env.new) range.now runs.now left.items) }
    ensures refused { let reach = ⟦<EnvOf<S, M, T> as Outside>⟧.reach in IfErr result (FailsAsking (map (λ p. meaning p) policies.now) query.now (reach env.old) (reach env.new) (handles_of runs.now)) }
    ensures reads { let reach = ⟦<EnvOf<S, M, T> as Outside>⟧.reach in OnlyReads (reach env.old) (reach env.new) }
    ensures still { let reach = ⟦<EnvOf<S, M, T> as Outside>⟧.reach in
        IsStill (reach env.old).faults (reach env.new).faults result }
{
    let mut left = Vec::new(alloc);
    for run in runs {
        let one = run_left(alloc, run, range, policies, query, env)?;
        push_run(&mut left, one)?;
    }
    Ok(left)
}
