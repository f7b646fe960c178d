//! How a scan is opened: its sources, and the merge of them.
ghost use Rattle.std.specs.Prelude.{◌≡◌, ◌≢◌, ◌⊎◌, ◌∷◌, ◌<◌, ℕ, List, Option, None, Some, false, true, map, nat_eq, reverse, IfOk, IfErr, IsOkUnless};
ghost use Rattle.std.specs.List.{starts_with};
ghost use Rattle.slate_types.specs.declared.error.SlateDBError.{SlateDBError};
ghost use Rattle.slate_types.specs.declared.iter.IterationOrder.{IterationOrder};
ghost use Rattle.slate_types.specs.Keys.{in_range, is_refused};
ghost use Rattle.slate_types.specs.Outside.{IsStill, OnlyReads};
ghost use Rattle.slate_mem.specs.Batch.{Ops};
ghost use Rattle.slate_read.specs.SstOptions.{CanFetch};
ghost use Rattle.slate_txn.specs.Step.{Reader};
ghost use Rattle.slate_db.specs.Installs.{handles_of};
ghost use Rattle.slate_db.specs.Model.{CoreModel};
ghost use Rattle.slate_db.specs.OpenScans.{AreEach, AreScanSources, HasRows, IsMemorySource, IsRunSource, LeftSources};
ghost use Rattle.slate_db.specs.RangeShares.{IsOpened, IsReaderOf, StandsIn};
ghost use Rattle.slate_db.specs.ScanFilters.{FailsAsking, scan_query};
ghost use Rattle.slate_db.specs.Scanned.{HasOwn};
ghost use Rattle.slate_db.specs.Calls.Scan.{MergesSources};

use crate::scan::{DbIterator, ScanState};
use crate::scan_filters::{runs_left, scan_query};
use bytes::Bytes;
use slate_filter::FilterPolicy;
use slate_mem::{ImmutableMemtable, MemTable, MemTableIterator, WriteBatchIterator};
use slate_merge::{FilterIterator, MaxSeq, MergeIterator, MergeOperatorIterator};
use slate_read::{ReadSource, SortedRun, SortedRunIterator, SstIteratorOptions};
use slate_store::{Env, EnvOf, Store};
use slate_table::SsTableHandle;
use slate_types::{
    BlockTransformer, BytesRange, FilterContext, IterationOrder, MergeOperator, Options, Outside,
    RowEntryIterator, ScanOptions, SlateDBError,
};
use std::alloc::{AllocError, Global};

impl<'a> DbIterator<'a> {
    /// A scan of rows that were merged and are folded. Takes no memory.
    pub(crate) fn new(
        alloc: Global,
        rows: MergeOperatorIterator<MergeIterator<FilterIterator<ReadSource<'a>, MaxSeq>>>,
        range: BytesRange,
        order: IterationOrder,
    ) -> DbIterator<'a>
        ensures state { result.state ≡ ScanState.Walking rows.entry }
        ensures range { result.range ≡ range }
        ensures order { result.order ≡ order }
    {
        DbIterator {
            alloc,
            state: ScanState::Walking(rows),
            range,
            order,
        }
    }
}

// ---- how tables are read

/// A copy of what filters are told.
fn copy_context(context: &FilterContext) -> Result<FilterContext, AllocError>
    ensures { IfOk result (λ copy. copy ≡ context.now) }
{
    match context {
        FilterContext::Inline(bytes) => Ok(FilterContext::Inline(*bytes)),
        FilterContext::Bytes(bytes) => Ok(FilterContext::Bytes(bytes.clone()?)),
    }
}

/// The same, where there is any.
pub(crate) fn copy_contexts(
    context: &Option<FilterContext>,
) -> Result<Option<FilterContext>, AllocError>
    ensures { IfOk result (λ copy. copy ≡ context.now) }
{
    match context {
        Some(context) => Ok(Some(copy_context(context)?)),
        None => Ok(None),
    }
}

/// How a scan reads tables. `OutOfMemory` alone is refused.
pub fn table_options(
    prefix: Option<Bytes>,
    options: &ScanOptions,
    limits: &Options,
) -> Result<SstIteratorOptions, SlateDBError>
    requires tasks { 0 < limits.now.max_fetch_tasks }
    requires fetch { 0 < limits.now.target_bytes_to_fetch }
    ensures order { IfOk result (λ made. made.order ≡ options.now.order) }
    ensures prefix { IfOk result (λ made. made.prefix ≡ prefix) }
    ensures context { IfOk result (λ made. made.filter_context ≡ options.now.filter_context) }
    ensures fetches { IfOk result CanFetch }
    ensures cause { IsOkUnless result SlateDBError.OutOfMemory }
{
    let filter_context = copy_contexts(&options.filter_context)?;
    Ok(SstIteratorOptions {
        max_fetch_tasks: limits.max_fetch_tasks,
        target_bytes_to_fetch: limits.target_bytes_to_fetch,
        order: options.order,
        prefix,
        filter_context,
    })
}

fn copy_options(options: &SstIteratorOptions) -> Result<SstIteratorOptions, AllocError>
    ensures order { IfOk result (λ copy. copy.order ≡ options.now.order) }
    ensures fetches { CanFetch options.now → IfOk result CanFetch }
{
    let prefix = options.prefix.clone()?;
    let filter_context = copy_contexts(&options.filter_context)?;
    Ok(SstIteratorOptions {
        max_fetch_tasks: options.max_fetch_tasks,
        target_bytes_to_fetch: options.target_bytes_to_fetch,
        order: options.order,
        prefix,
        filter_context,
    })
}

// ---- what is kept of runs

pub(crate) fn copy_handle(handle: &SsTableHandle) -> Result<SsTableHandle, AllocError>
    ensures { IfOk result (λ copy. copy ≡ handle.now) }
{
    let info = handle.info.clone()?;
    Ok(SsTableHandle {
        id: handle.id,
        info,
        format_version: handle.format_version,
    })
}

/// A copy of what is kept of tables. It shares their keys.
fn copy_handles(alloc: Global, handles: &[SsTableHandle]) -> Result<Vec<SsTableHandle>, AllocError>
    ensures { IfOk result (λ copies. copies.items ≡ handles.now) }
{
    let mut copies = Vec::new(alloc);
    for handle in handles {
        let copy = copy_handle(handle)?;
        copies.push(copy)?;
    }
    Ok(copies)
}

pub(crate) fn copy_run(alloc: Global, run: &SortedRun) -> Result<SortedRun, AllocError>
    ensures { IfOk result (λ copy. copy.tables.items ≡ run.now.tables.items) }
{
    let prefix = run.prefix.clone()?;
    let tables = copy_handles(alloc, run.tables.as_slice())?;
    Ok(SortedRun { prefix, tables })
}

// ---- sources

/// The rows of a memtable up to a sequence.
fn memory_source<'a>(
    alloc: Global,
    rows: MemTableIterator,
    max_seq: Option<u64>,
) -> Result<FilterIterator<ReadSource<'a>, MaxSeq>, SlateDBError>
    ensures iterator { IfOk result (λ s. s.iterator ≡ ReadSource.Memory rows) }
    ensures predicate { IfOk result (λ s. s.predicate.max_seq ≡ max_seq) }
    ensures cause { IsOkUnless result SlateDBError.OutOfMemory }
{
    FilterIterator::new(alloc, ReadSource::Memory(rows), MaxSeq { max_seq })
}

/// The rows in memory, the newest memtable first.
fn memory_sources<'a>(
    alloc: Global,
    active: &MemTable,
    frozen: &[ImmutableMemtable],
    range: &BytesRange,
    order: IterationOrder,
    begin: u64,
) -> Result<Vec<FilterIterator<ReadSource<'a>, MaxSeq>>, SlateDBError>
    ensures each { IfOk result (λ made. AreEach (IsMemorySource range.now order begin) (active.now.rows ∷ reverse (map (λ t. t.rows) frozen.now)) made.items) }
    ensures cause { IsOkUnless result SlateDBError.OutOfMemory }
{
    let mut sources = Vec::new(alloc);
    let rows = active.range(alloc, range, order)?;
    let source = memory_source(alloc, rows, Some(begin))?;
    sources.push(source)?;
    let mut at = frozen.len();
    while at > 0 {
        at -= 1;
        let rows = frozen[at].range(alloc, range, order)?;
        let source = memory_source(alloc, rows, Some(begin))?;
        sources.push(source)?;
    }
    Ok(sources)
}

/// The rows of a run of tables up to a sequence.
fn run_source<'a>(
    alloc: Global,
    run: &SortedRun,
    range: &BytesRange,
    begin: u64,
    options: &SstIteratorOptions,
    policies: &'a [Box<dyn FilterPolicy>],
) -> Result<FilterIterator<ReadSource<'a>, MaxSeq>, SlateDBError>
    requires range { is_refused range.now.start range.now.end ≡ false }
    requires fetches { CanFetch options.now }
    ensures source { IfOk result (IsRunSource range.now options.now.order begin run.now) }
    ensures cause { IsOkUnless result SlateDBError.OutOfMemory }
{
    let within = range.clone()?;
    let tables = copy_run(alloc, run)?;
    let how = copy_options(options)?;
    let rows = SortedRunIterator::new(alloc, within, tables, how, policies)?;
    let max_seq = Some(begin);
    FilterIterator::new(alloc, ReadSource::Run(rows), MaxSeq { max_seq })
}

/// The rows of runs of tables, the newest first.
fn run_sources<'a>(
    alloc: Global,
    runs: &[SortedRun],
    range: &BytesRange,
    begin: u64,
    options: &SstIteratorOptions,
    policies: &'a [Box<dyn FilterPolicy>],
) -> Result<Vec<FilterIterator<ReadSource<'a>, MaxSeq>>, SlateDBError>
    requires range { is_refused range.now.start range.now.end ≡ false }
    requires fetches { CanFetch options.now }
    ensures each { IfOk result (λ made. AreEach (IsRunSource range.now options.now.order begin) (reverse runs.now) made.items) }
    ensures cause { IsOkUnless result SlateDBError.OutOfMemory }
{
    let mut sources = Vec::new(alloc);
    let mut at = runs.len();
    while at > 0 {
        at -= 1;
        let source = run_source(alloc, &runs[at], range, begin, options, policies)?;
        sources.push(source)?;
    }
    Ok(sources)
}

/// The sources of a scan: a transaction's own rows, and behind them those of the memtables and of some runs up to its begin, the
/// newest layer first.
fn scan_sources<'a>(
    alloc: Global,
    own: WriteBatchIterator,
    active: &MemTable,
    frozen: &[ImmutableMemtable],
    runs: &[SortedRun],
    range: &BytesRange,
    begin: u64,
    options: &SstIteratorOptions,
    policies: &'a [Box<dyn FilterPolicy>],
) -> Result<Vec<FilterIterator<ReadSource<'a>, MaxSeq>>, SlateDBError>
    requires range { is_refused range.now.start range.now.end ≡ false }
    requires fetches { CanFetch options.now }
    ensures sources { (ops : Ops) → HasRows options.now.order (HasOwn range.now ops) own → IfOk result (λ made. AreScanSources range.now options.now.order begin ops (active.now.rows ∷ reverse (map (λ t. t.rows) frozen.now)) (reverse runs.now) made.items) }
    ensures cause { IsOkUnless result SlateDBError.OutOfMemory }
{
    let own = FilterIterator::new(alloc, ReadSource::Batch(own), MaxSeq { max_seq: None })?;
    let mut sources = Vec::new(alloc);
    sources.push(own)?;
    let mut memory = memory_sources(alloc, active, frozen, range, options.order, begin)?;
    sources.append(&mut memory)?;
    let mut runs = run_sources(alloc, runs, range, begin, options, policies)?;
    sources.append(&mut runs)?;
    Ok(sources)
}

/// The same of all runs. Filters of stored tables are asked first. Tables that they deny and those whose keys don't reach the range
/// are left out: by lawful policies they have no row in the range. A run of which none is left has no source.
fn asked_sources<'a, S: Store, M: MergeOperator, T: BlockTransformer>(
    alloc: Global,
    own: WriteBatchIterator,
    active: &MemTable,
    frozen: &[ImmutableMemtable],
    runs: &[SortedRun],
    range: &BytesRange,
    begin: u64,
    options: &SstIteratorOptions,
    policies: &'a [Box<dyn FilterPolicy>],
    env: &mut Env<'_, S, M, T>,
) -> Result<Vec<FilterIterator<ReadSource<'a>, MaxSeq>>, SlateDBError>
    requires range { is_refused range.now.start range.now.end ≡ false }
    requires prefix { (p k : List ℕ) → options.now.prefix ≡ Some p → in_range range.now k ≡ true → starts_with nat_eq k p ≡ true }
    requires fetches { CanFetch options.now }
    ensures sources { let reach = ⟦<EnvOf<S, M, T> as Outside>⟧.reach in
        IfOk result (λ made. LeftSources (map (λ p. meaning p) policies.now) (scan_query range.now options.now.prefix options.now.filter_context) (reach env.old) (reach env.new) range.now options.now.order begin own active.now.rows (map (λ t. t.rows) frozen.now) runs.now made.items) }
    ensures refused { let reach = ⟦<EnvOf<S, M, T> as Outside>⟧.reach in
        IfErr result (FailsAsking (map (λ p. meaning p) policies.now) (scan_query range.now options.now.prefix options.now.filter_context) (reach env.old) (reach env.new) (handles_of runs.now)) }
    ensures reads { let reach = ⟦<EnvOf<S, M, T> as Outside>⟧.reach in OnlyReads (reach env.old) (reach env.new) }
    ensures still { let reach = ⟦<EnvOf<S, M, T> as Outside>⟧.reach in
        IsStill (reach env.old).faults (reach env.new).faults result }
{
    let query = scan_query(range, options)?;
    let left = runs_left(alloc, runs, range, policies, &query, env)?;
    let sources = scan_sources(
        alloc,
        own,
        active,
        frozen,
        left.as_slice(),
        range,
        begin,
        options,
        policies,
    )?;
    Ok(sources)
}

// ---- the merge

/// What a refused opening answers. No iterator refuses its own `init` for want of one, but what they promise doesn't say that.
fn refusal_of_opening(error: SlateDBError) -> SlateDBError
    ensures refusal { ((result ≡ error) × (error ≢ SlateDBError.IteratorNotInitialized)) ⊎ (result ≡ SlateDBError.OutOfMemory) }
    ensures waits { (result ≡ error) ⊎ (error ≡ SlateDBError.IteratorNotInitialized) }
{
    match error {
        SlateDBError::IteratorNotInitialized => SlateDBError::OutOfMemory,
        other => other,
    }
}

/// Opens sources, and merges their rows: of each key those to the first that is no operand, which are folded.
pub(crate) fn merged<'a, S: Store, M: MergeOperator, T: BlockTransformer>(
    alloc: Global,
    sources: Vec<FilterIterator<ReadSource<'a>, MaxSeq>>,
    order: IterationOrder,
    env: &mut Env<'_, S, M, T>,
) -> Result<
    MergeOperatorIterator<MergeIterator<FilterIterator<ReadSource<'a>, MaxSeq>>>,
    SlateDBError,
>
    ensures { let reach = ⟦<EnvOf<S, M, T> as Outside>⟧.reach in
        MergesSources order sources.entry.items (reach env.old) (reach env.new) result }
{
    let merge = MergeIterator::new_with_order(sources, order);
    let Ok(mut rows) = MergeOperatorIterator::new(merge, true, None) else {
        unreachable!()
    };
    match rows.init(alloc, env) {
        Ok(()) => Ok(rows),
        Err(error) => Err(refusal_of_opening(error)),
    }
}

/// Opens a scan of the rows in a range up to a sequence, of own operations and of layers.
pub(crate) fn opened_over<'a, S: Store, M: MergeOperator, T: BlockTransformer>(
    alloc: Global,
    own: WriteBatchIterator,
    active: &MemTable,
    frozen: &[ImmutableMemtable],
    runs: &[SortedRun],
    range: BytesRange,
    at: u64,
    how: SstIteratorOptions,
    policies: &'a [Box<dyn FilterPolicy>],
    env: &mut Env<'_, S, M, T>,
) -> Result<DbIterator<'a>, SlateDBError>
    requires range { is_refused range.start range.end ≡ false }
    requires prefix { (p k : List ℕ) → how.prefix ≡ Some p → in_range range k ≡ true → starts_with nat_eq k p ≡ true }
    requires fetches { CanFetch how }
    ensures opened { let reach = ⟦<EnvOf<S, M, T> as Outside>⟧.reach in
        (c : CoreModel) (id : List ℕ) (from : Reader) → StandsIn c range at active.now.rows (map (λ t. t.rows) frozen.now) runs.now → IsReaderOf c id from range how.order own →
        IsOpened (map (λ p. meaning p) policies.now) (scan_query range how.prefix how.filter_context) (reach env.old) (reach env.new) c at from.ops range how.order result }
    ensures range { IfOk result (λ it. it.range ≡ range) }
    ensures order { IfOk result (λ it. it.order ≡ how.order) }
    ensures reads { let reach = ⟦<EnvOf<S, M, T> as Outside>⟧.reach in OnlyReads (reach env.old) (reach env.new) }
    ensures still { let reach = ⟦<EnvOf<S, M, T> as Outside>⟧.reach in
        IsStill (reach env.old).faults (reach env.new).faults result }
{
    let order = how.order;
    let sources = asked_sources(
        alloc, own, active, frozen, runs, &range, at, &how, policies, env,
    )?;
    let rows = merged(alloc, sources, order, env)?;
    Ok(DbIterator::new(alloc, rows, range, order))
}
