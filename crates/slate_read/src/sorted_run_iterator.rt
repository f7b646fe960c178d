//! The rows of a run of stored tables in a range, with the policies of their filters.
ghost use Rattle.slate_read.specs.RunWalk.{IsRunWithin};
ghost use Rattle.std.specs.Prelude.{◌≡◌, IfOk, IfErr, false};
ghost use Rattle.slate_types.specs.declared.error.SlateDBError.{SlateDBError};
ghost use Rattle.slate_types.specs.Keys.{is_refused};
ghost use Rattle.slate_merge.specs.NewestFirst.{IsNew, Stays};
ghost use Rattle.slate_read.specs.RunBringing.{run_begins, run_seeks, run_takes};
ghost use Rattle.slate_read.specs.RunIterators.{IsRunIterator, run_iterator_bound, run_refuses, run_rest, run_sound};
ghost use Rattle.slate_read.specs.RunLaws.{run_iterator_more, run_iterator_rising, run_iterator_whole};
ghost use Rattle.slate_read.specs.SstOptions.{CanFetch};

use crate::fetch_limits::FetchLimits;
use crate::range_rows::InRange;
use crate::run_rows::newest_run_rows;
use crate::run_state::RunWalk;
use crate::sorted_run::SortedRun;
use crate::sst_iterator_options::SstIteratorOptions;
use slate_filter::FilterPolicy;
use slate_merge::{FilterIterator, NewestFirst};
use slate_store::{Env, Store};
use slate_types::{
    BlockTransformer, BytesRange, IterationOrder, MergeOperator, RowEntry, RowEntryIterator,
    SlateDBError,
};
use std::alloc::Global;
use std::marker::PhantomData;

/// The rows of a run of stored tables in a range, in an order, the newest of each key first: one table after another. A table is
/// opened when those before it are spent, and one that can't hold a key of the range, or that a seek passes over, never is. The
/// code holds one block at most, and what is read ahead, and reads each at most once; no clause says that. Filters of the tables
/// aren't asked here: who reads asks them first, and leaves out the tables that they deny.
#[derive(Drop)]
pub struct SortedRunIterator<'a> {
    pub(crate) rows: NewestFirst<FilterIterator<RunWalk, InRange>>,
    /// The policies of filters are borrowed for as long as it is used. None is asked here.
    policies: PhantomData<&'a ()>,
}

impl<'a> SortedRunIterator<'a> {
    /// The rows of a run in a range. Nothing is read yet. `OutOfMemory` alone is refused.
    pub fn new(
        alloc: Global,
        range: BytesRange,
        run: SortedRun,
        options: SstIteratorOptions,
        policies: &'a [Box<dyn FilterPolicy>],
    ) -> Result<SortedRunIterator<'a>, SlateDBError>
        requires range { is_refused range.start range.end ≡ false }
        requires fetches { CanFetch options }
        ensures rows { IfOk result (λ it. IsRunIterator range run options.order it.rows) }
        ensures cause { IfErr result (λ e. e ≡ SlateDBError.OutOfMemory) }
    {
        let _policies = policies;
        let limits = FetchLimits {
            tasks: options.max_fetch_tasks,
            bytes: options.target_bytes_to_fetch,
        };
        let rows = newest_run_rows(alloc, range, run, options.order, limits)?;
        Ok(SortedRunIterator {
            rows,
            policies: PhantomData,
        })
    }
}

impl<S: Store, M: MergeOperator, T: BlockTransformer> RowEntryIterator<Env<'_, S, M, T>>
    for SortedRunIterator<'_> {
    ghost rest = { λ it w. run_rest it.rows w };

    ghost sound = { λ it w. run_sound it.rows w };

    ghost order = { λ it. it.rows.iterator.iterator.order };

    ghost bound = { λ it. run_iterator_bound it.rows };

    ghost refuses = { λ it m reads at e. run_refuses it.rows m reads at e };

    ghost begins = { λ before m reads after. run_begins before.rows m reads after.rows };

    ghost takes = { λ before m reads answer after. run_takes before.rows m reads answer after.rows };

    ghost seeks = { λ before m reads key after. run_seeks before.rows m reads key after.rows };

    ghost stays = { λ before _ _ at e after. Stays before.rows at e after.rows };

    ghost within = { λ it paths. IsRunWithin it.rows.iterator.iterator paths };

    ghost unbegun = { λ it. IsNew it.rows.progress };

    ghost rising = { λ it w h. run_iterator_rising it.rows w h };

    ghost more = { λ it m done reads at e h. run_iterator_more it.rows m done reads at e h };

    ghost whole = { λ it w reads at e h k r. run_iterator_whole it.rows w reads at e h k r };

    fn iteration_order(&self) -> IterationOrder {
        <NewestFirst<FilterIterator<RunWalk, InRange>> as RowEntryIterator<
            Env<'_, S, M, T>,
        >>::iteration_order(&self.rows)
    }

    fn init(&mut self, alloc: Global, env: &mut Env<'_, S, M, T>) -> Result<(), SlateDBError> {
        self.rows.init(alloc, env)
    }

    #[inline(always)]
    fn next(
        &mut self,
        alloc: Global,
        env: &mut Env<'_, S, M, T>,
    ) -> Result<Option<RowEntry>, SlateDBError> {
        self.rows.next(alloc, env)
    }

    fn seek(
        &mut self,
        alloc: Global,
        key: &[u8],
        env: &mut Env<'_, S, M, T>,
    ) -> Result<(), SlateDBError> {
        self.rows.seek(alloc, key, env)
    }
}
