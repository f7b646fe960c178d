//! The rows of a stored table in a range.
ghost use Rattle.slate_read.specs.TableWalk.{IsWalkWithin};
ghost use Rattle.std.specs.Prelude.{◌≡◌, IfOk, IfErr, false};
ghost use Rattle.slate_types.specs.declared.error.SlateDBError.{SlateDBError};
ghost use Rattle.slate_types.specs.Keys.{is_refused};
ghost use Rattle.slate_merge.specs.NewestFirst.{IsNew, Stays};
ghost use Rattle.slate_read.specs.SstBringing.{sst_begins, sst_seeks, sst_takes};
ghost use Rattle.slate_read.specs.SstIterators.{IsTableIterator, sst_bound, sst_refuses, sst_rest, sst_sound};
ghost use Rattle.slate_read.specs.SstLaws.{sst_more, sst_rising, sst_whole};
ghost use Rattle.slate_read.specs.SstOptions.{CanFetch};

use crate::range_rows::{InRange, newest_range_rows};
use crate::sst_iterator_options::SstIteratorOptions;
use crate::table_state::TableWalk;
use slate_merge::{FilterIterator, NewestFirst};
use slate_store::{Env, Store};
use slate_table::SsTableHandle;
use slate_types::{
    BlockTransformer, BytesRange, IterationOrder, MergeOperator, RowEntry, RowEntryIterator,
    SlateDBError,
};
use std::alloc::Global;

/// The rows of a stored table in a range, in an order, the newest of each key first. `init` reads the index, and the calls after it
/// read the blocks that can hold keys of the range. The code reads each at most once; no clause says
/// that.
#[derive(Drop)]
pub struct InternalSstIterator {
    pub(crate) rows: NewestFirst<FilterIterator<TableWalk, InRange>>,
}

impl InternalSstIterator {
    /// The rows of a table in a range. Nothing is read yet. `OutOfMemory` alone is refused.
    pub fn new(
        alloc: Global,
        range: BytesRange,
        table: SsTableHandle,
        options: SstIteratorOptions,
    ) -> Result<InternalSstIterator, SlateDBError>
        requires range { is_refused range.start range.end ≡ false }
        requires fetches { CanFetch options }
        ensures rows { IfOk result (λ it. IsTableIterator range table options.order it.rows) }
        ensures cause { IfErr result (λ e. e ≡ SlateDBError.OutOfMemory) }
    {
        let rows = newest_range_rows(alloc, range, table, options)?;
        Ok(InternalSstIterator { rows })
    }
}

impl<S: Store, M: MergeOperator, T: BlockTransformer> RowEntryIterator<Env<'_, S, M, T>>
    for InternalSstIterator {
    ghost rest = { λ it w. sst_rest it.rows w };

    ghost sound = { λ it w. sst_sound it.rows w };

    ghost order = { λ it. it.rows.iterator.iterator.order };

    ghost bound = { λ it. sst_bound it.rows };

    ghost refuses = { λ it m reads at e. sst_refuses it.rows m reads at e };

    ghost begins = { λ before m reads after. sst_begins before.rows m reads after.rows };

    ghost takes = { λ before m reads answer after. sst_takes before.rows m reads answer after.rows };

    ghost seeks = { λ before m reads key after. sst_seeks before.rows m reads key after.rows };

    ghost stays = { λ before _ _ at e after. Stays before.rows at e after.rows };

    ghost within = { λ it paths. IsWalkWithin it.rows.iterator.iterator paths };

    ghost unbegun = { λ it. IsNew it.rows.progress };

    ghost rising = { λ it w h. sst_rising it.rows w h };

    ghost more = { λ it m done reads at e h. sst_more it.rows m done reads at e h };

    ghost whole = { λ it w reads at e h k r. sst_whole it.rows w reads at e h k r };

    fn iteration_order(&self) -> IterationOrder {
        <NewestFirst<FilterIterator<TableWalk, InRange>> as RowEntryIterator<
            Env<'_, S, M, T>,
        >>::iteration_order(&self.rows)
    }

    fn init(&mut self, alloc: Global, env: &mut Env<'_, S, M, T>) -> Result<(), SlateDBError> {
        self.rows.init(alloc, env)
    }

    fn next(
        &mut self,
        alloc: Global,
        env: &mut Env<'_, S, M, T>,
    ) -> Result<Option<RowEntry>, SlateDBError> {
        self.rows.next(alloc, env)
    }

    fn seek(
        &mut self,
        alloc: Global,
        key: &[u8],
        env: &mut Env<'_, S, M, T>,
    ) -> Result<(), SlateDBError> {
        self.rows.seek(alloc, key, env)
    }
}
