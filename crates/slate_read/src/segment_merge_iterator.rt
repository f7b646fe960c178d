//! The rows of the runs of segments in a range.
ghost use Rattle.std.specs.Prelude.{◌≡◌, ◌||◌, IfOk, IfErr, false, nat_eq};
ghost use Rattle.std.specs.List.{starts_with};
ghost use Rattle.slate_types.specs.declared.error.SlateDBError.{SlateDBError};
ghost use Rattle.slate_types.specs.Keys.{is_before_end, is_refused, key_le};
ghost use Rattle.slate_merge.specs.MergeStates.{IsWaiting, Stays};
ghost use Rattle.slate_read.specs.RunIterators.{IsRunIterator};
ghost use Rattle.slate_read.specs.SegmentIterators.{AreRuns, IsSegmentMerge, can_begin, meets, met_runs, segment_bound, segment_order, segment_refuses, segment_rest, segment_sound, IsSegmentWithin};
ghost use Rattle.slate_read.specs.SegmentLaws.{segment_more, segment_rising, segment_whole};
ghost use Rattle.slate_read.specs.SourceBringing.{segments_begin, segments_seek, segments_take};
ghost use Rattle.slate_read.specs.SstOptions.{CanFetch};

use crate::sorted_run::SortedRun;
use crate::sorted_run_iterator::SortedRunIterator;
use crate::sst_iterator_options::SstIteratorOptions;
use bytes::Bytes;
use slate_filter::FilterPolicy;
use slate_merge::MergeIterator;
use slate_store::{Env, Store};
use slate_types::{
    BlockTransformer, ByteRangeBounds, BytesRange, FilterContext, IterationOrder, MergeOperator,
    RowEntry, RowEntryIterator, SlateDBError,
};
use std::alloc::{AllocError, Global};
use std::ops::Bound;

/// The rows of the runs of several segments in a range, by key in an order and by falling sequence within a key, and of one sequence
/// that of the newer run first. So segment follows segment, since the keys of each begin with its prefix, and no two prefixes
/// nest. A run whose prefix begins no key of the range is never read.
#[derive(Drop)]
pub struct SegmentMergeIterator<'a> {
    pub(crate) rows: MergeIterator<SortedRunIterator<'a>>,
}

impl<'a> SegmentMergeIterator<'a> {
    /// The rows of runs, newest first, in a range. Each key of a run begins with its prefix. Nothing is read yet. `OutOfMemory` alone
    /// is refused.
    pub fn new(
        alloc: Global,
        range: BytesRange,
        runs: Vec<SortedRun>,
        options: SstIteratorOptions,
        policies: &'a [Box<dyn FilterPolicy>],
    ) -> Result<SegmentMergeIterator<'a>, SlateDBError>
        requires range { is_refused range.start range.end ≡ false }
        requires fetches { CanFetch options }
        ensures rows { IfOk result (IsSegmentMerge range runs.items options.order) }
        ensures cause { IfErr result (λ e. e ≡ SlateDBError.OutOfMemory) }
    {
        let order = options.order;
        let sources = run_iterators(alloc, &range, runs, &options, policies)?;
        let rows = MergeIterator::new_with_order(sources, order).with_dedup(false);
        Ok(SegmentMergeIterator { rows })
    }
}

/// Whether a key that begins with the prefix can be in the range.
fn meets(range: &BytesRange, prefix: &[u8]) -> bool
    ensures { result ≡ meets range.now prefix.now }
{
    can_begin(range, prefix) && ends_behind(range, prefix)
}

/// Whether a range lets keys that begin with the prefix through its start.
fn can_begin(range: &BytesRange, prefix: &[u8]) -> bool
    ensures { result ≡ can_begin range.now.start prefix.now }
{
    match range.start_bound() {
        Bound::Included(start) => is_front_or_above(prefix, start),
        Bound::Excluded(start) => is_front_or_above(prefix, start),
        Bound::Unbounded => true,
    }
}

/// Whether a key begins with the prefix, or isn't above it.
fn is_front_or_above(prefix: &[u8], key: &[u8]) -> bool
    ensures { result ≡ (starts_with nat_eq key.now prefix.now || key_le key.now prefix.now) }
{
    key.starts_with(prefix) || !IterationOrder::Ascending.puts_before(prefix, key)
}

/// Whether a range goes on behind a key, or ends with it.
fn ends_behind(range: &BytesRange, key: &[u8]) -> bool
    ensures { result ≡ is_before_end range.now.end key.now }
{
    match range.end_bound() {
        Bound::Included(end) => !IterationOrder::Ascending.puts_before(end, key),
        Bound::Excluded(end) => IterationOrder::Ascending.puts_before(key, end),
        Bound::Unbounded => true,
    }
}

fn copy_context(context: &FilterContext) -> Result<FilterContext, AllocError>
    ensures { IfOk result (λ copy. copy ≡ context.now) }
{
    match context {
        FilterContext::Inline(bytes) => Ok(FilterContext::Inline(*bytes)),
        FilterContext::Bytes(bytes) => Ok(FilterContext::Bytes(bytes.clone()?)),
    }
}

fn copy_options(options: &SstIteratorOptions) -> Result<SstIteratorOptions, AllocError>
    ensures { IfOk result (λ copy. copy ≡ options.now) }
{
    let prefix = options.prefix.clone()?;
    let filter_context = match &options.filter_context {
        Some(context) => Some(copy_context(context)?),
        None => None,
    };
    Ok(SstIteratorOptions {
        max_fetch_tasks: options.max_fetch_tasks,
        target_bytes_to_fetch: options.target_bytes_to_fetch,
        order: options.order,
        prefix,
        filter_context,
    })
}

/// An iterator over each run whose prefix can begin keys of the range.
fn run_iterators<'a>(
    alloc: Global,
    range: &BytesRange,
    runs: Vec<SortedRun>,
    options: &SstIteratorOptions,
    policies: &'a [Box<dyn FilterPolicy>],
) -> Result<Vec<SortedRunIterator<'a>>, SlateDBError>
    requires range { is_refused range.now.start range.now.end ≡ false }
    requires fetches { CanFetch options.now }
    ensures each { IfOk result (λ made. AreRuns range.now options.now.order (met_runs range.now runs.items) made.items) }
    ensures cause { IfErr result (λ e. e ≡ SlateDBError.OutOfMemory) }
{
    let mut sources = Vec::new(alloc);
    for run in runs {
        if meets(range, run.prefix.as_slice()) {
            let source = run_iterator(alloc, range, run, options, policies)?;
            sources.push(source)?;
        }
    }
    Ok(sources)
}

fn run_iterator<'a>(
    alloc: Global,
    range: &BytesRange,
    run: SortedRun,
    options: &SstIteratorOptions,
    policies: &'a [Box<dyn FilterPolicy>],
) -> Result<SortedRunIterator<'a>, SlateDBError>
    requires range { is_refused range.now.start range.now.end ≡ false }
    requires fetches { CanFetch options.now }
    ensures rows { IfOk result (λ it. IsRunIterator range.now run options.now.order it.rows) }
    ensures cause { IfErr result (λ e. e ≡ SlateDBError.OutOfMemory) }
{
    let range = range.clone()?;
    let options = copy_options(options)?;
    SortedRunIterator::new(alloc, range, run, options, policies)
}

impl<S: Store, M: MergeOperator, T: BlockTransformer> RowEntryIterator<Env<'_, S, M, T>>
    for SegmentMergeIterator<'_> {
    ghost rest = { segment_rest };

    ghost sound = { segment_sound };

    ghost order = { segment_order };

    ghost bound = { segment_bound };

    ghost refuses = { segment_refuses };

    ghost begins = { segments_begin };

    ghost takes = { segments_take };

    ghost seeks = { segments_seek };

    ghost stays = { λ before _ _ at e after. Stays before.rows at e after.rows };

    ghost within = { IsSegmentWithin };

    ghost unbegun = { λ it. IsWaiting it.rows.state };

    ghost rising = { λ it w h. segment_rising it w h };

    ghost more = { λ it m done reads at e h. segment_more it m done reads at e h };

    ghost whole = { λ it w reads at e h k r. segment_whole it w reads at e h k r };

    fn iteration_order(&self) -> IterationOrder {
        <MergeIterator<SortedRunIterator<'_>> as RowEntryIterator<
            Env<'_, S, M, T>,
        >>::iteration_order(&self.rows)
    }

    fn init(&mut self, alloc: Global, env: &mut Env<'_, S, M, T>) -> Result<(), SlateDBError> {
        self.rows.init(alloc, env)
    }

    fn next(
        &mut self,
        alloc: Global,
        env: &mut Env<'_, S, M, T>,
    ) -> Result<Option<RowEntry>, SlateDBError> {
        self.rows.next(alloc, env)
    }

    fn seek(
        &mut self,
        alloc: Global,
        key: &[u8],
        env: &mut Env<'_, S, M, T>,
    ) -> Result<(), SlateDBError> {
        self.rows.seek(alloc, key, env)
    }
}
