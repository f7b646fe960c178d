//! What a read of many sources takes its rows from.
ghost use Rattle.slate_read.specs.SourceBringing.{source_begins, source_seeks, source_takes};
ghost use Rattle.slate_read.specs.ReadSources.{IsSoundSource, order_of, rest_of, source_bound, source_more, source_refuses, source_rising, source_unbegun, source_whole, IsSourceWithin};

use crate::internal_sst_iterator::InternalSstIterator;
use crate::segment_merge_iterator::SegmentMergeIterator;
use crate::sorted_run_iterator::SortedRunIterator;
use crate::sst_iterator::SstIterator;
use slate_mem::{MemTableIterator, WriteBatchIterator};
use slate_merge::EmptyIterator;
use slate_store::{Env, Store};
use slate_types::{
    BlockTransformer, IterationOrder, MergeOperator, RowEntry, RowEntryIterator, SlateDBError,
};
use std::alloc::Global;

/// A source of rows: none, a table, a run of tables, the runs of segments, a batch or a memtable. It stands where sources of several kinds are merged.
#[derive(Drop)]
pub enum ReadSource<'a> {
    Empty(EmptyIterator),
    Internal(InternalSstIterator),
    Table(SstIterator<'a>),
    Run(SortedRunIterator<'a>),
    Segments(SegmentMergeIterator<'a>),
    Batch(WriteBatchIterator),
    Memory(MemTableIterator),
}

impl<S: Store, M: MergeOperator, T: BlockTransformer> RowEntryIterator<Env<'_, S, M, T>>
    for ReadSource<'_> {
    ghost rest = { rest_of };

    ghost sound = { IsSoundSource };

    ghost order = { order_of };

    ghost bound = { source_bound };

    ghost refuses = { source_refuses };

    ghost begins = { source_begins };

    ghost takes = { source_takes };

    ghost seeks = { source_seeks };

    ghost stays = { λ _ _ _ _ _ _. Unit {0} };

    ghost within = { IsSourceWithin };

    ghost unbegun = { source_unbegun };

    ghost rising = { λ it w h. source_rising it w h };

    ghost more = { λ it m done reads at e h. source_more it m done reads at e h };

    ghost whole = { λ it w reads at e h k r. source_whole it w reads at e h k r };

    fn iteration_order(&self) -> IterationOrder {
        match self {
            ReadSource::Empty(_) => IterationOrder::Ascending,
            ReadSource::Internal(rows) => {
                RowEntryIterator::<Env<'_, S, M, T>>::iteration_order(rows)
            }
            ReadSource::Table(rows) => RowEntryIterator::<Env<'_, S, M, T>>::iteration_order(rows),
            ReadSource::Run(rows) => RowEntryIterator::<Env<'_, S, M, T>>::iteration_order(rows),
            ReadSource::Segments(rows) => {
                RowEntryIterator::<Env<'_, S, M, T>>::iteration_order(rows)
            }
            ReadSource::Batch(rows) => RowEntryIterator::<Env<'_, S, M, T>>::iteration_order(rows),
            ReadSource::Memory(rows) => {
                RowEntryIterator::<Env<'_, S, M, T>>::iteration_order(rows)
            }
        }
    }

    fn init(&mut self, alloc: Global, env: &mut Env<'_, S, M, T>) -> Result<(), SlateDBError> {
        match self {
            ReadSource::Empty(rows) => rows.init(alloc, env),
            ReadSource::Internal(rows) => rows.init(alloc, env),
            ReadSource::Table(rows) => rows.init(alloc, env),
            ReadSource::Run(rows) => rows.init(alloc, env),
            ReadSource::Segments(rows) => rows.init(alloc, env),
            ReadSource::Batch(rows) => rows.init(alloc, env),
            ReadSource::Memory(rows) => rows.init(alloc, env),
        }
    }

    #[inline(always)]
    fn next(
        &mut self,
        alloc: Global,
        env: &mut Env<'_, S, M, T>,
    ) -> Result<Option<RowEntry>, SlateDBError> {
        match self {
            ReadSource::Empty(rows) => rows.next(alloc, env),
            ReadSource::Internal(rows) => rows.next(alloc, env),
            ReadSource::Table(rows) => rows.next(alloc, env),
            ReadSource::Run(rows) => rows.next(alloc, env),
            ReadSource::Segments(rows) => rows.next(alloc, env),
            ReadSource::Batch(rows) => rows.next(alloc, env),
            ReadSource::Memory(rows) => rows.next(alloc, env),
        }
    }

    fn seek(
        &mut self,
        alloc: Global,
        key: &[u8],
        env: &mut Env<'_, S, M, T>,
    ) -> Result<(), SlateDBError> {
        match self {
            ReadSource::Empty(rows) => rows.seek(alloc, key, env),
            ReadSource::Internal(rows) => rows.seek(alloc, key, env),
            ReadSource::Table(rows) => rows.seek(alloc, key, env),
            ReadSource::Run(rows) => rows.seek(alloc, key, env),
            ReadSource::Segments(rows) => rows.seek(alloc, key, env),
            ReadSource::Batch(rows) => rows.seek(alloc, key, env),
            ReadSource::Memory(rows) => rows.seek(alloc, key, env),
        }
    }
}
