//! The rows of a run of stored tables, as an iterator.
ghost use Rattle.slate_read.specs.RunBringing.{run_walk_begins, run_walk_seeks, run_walk_takes};
ghost use Rattle.slate_read.specs.RunWalk.{IsNewRun, IsSoundRunWalk, StaysRun, bound_run_in, refuses_of_run, rest_of_run, IsRunWithin};
ghost use Rattle.slate_read.specs.RunLaws.{run_more, run_rising, run_whole};

use crate::run_state::{RunState, RunWalk};
use slate_merge::kept::copy_of;
use slate_store::{Env, Store};
use slate_types::{
    BlockTransformer, IterationOrder, MergeOperator, RowEntry, RowEntryIterator, SlateDBError,
};
use std::alloc::Global;
use std::mem;

impl<S: Store, M: MergeOperator, T: BlockTransformer> RowEntryIterator<Env<'_, S, M, T>>
    for RunWalk {
    ghost rest = { rest_of_run };

    ghost sound = { IsSoundRunWalk };

    ghost order = { λ it. it.order };

    ghost bound = { λ it. bound_run_in it.state it.cursor };

    ghost refuses = { λ it m reads at e. refuses_of_run it m reads at e };

    ghost begins = { run_walk_begins };

    ghost takes = { run_walk_takes };

    ghost seeks = { run_walk_seeks };

    ghost stays = { λ before _ _ at e after. StaysRun before at e after };

    ghost within = { IsRunWithin };

    ghost unbegun = { λ it. IsNewRun it.state };

    ghost rising = { λ it w h. run_rising it.range it.order it.state it.cursor w h };

    ghost more = { λ it m done reads at e h. run_more it.state it.order it.cursor m done reads at e h };

    ghost whole = { λ it w reads at e h k r. run_whole it.range it.order it.state it.cursor w reads at e h k r };

    fn iteration_order(&self) -> IterationOrder {
        self.order
    }

    #[tactic(auto, using(slate_types::proofs::Reaching::reads_none))]
    fn init(&mut self, alloc: Global, env: &mut Env<'_, S, M, T>) -> Result<(), SlateDBError> {
        match &self.state {
            RunState::New => {}
            RunState::Going => return Ok(()),
            RunState::Refused(error) => return Err(copy_of(error)),
        }
        match self.cursor.begin(alloc, env, &self.range, self.order) {
            Ok(()) => {
                drop(mem::replace(&mut self.state, RunState::Going));
                Ok(())
            }
            Err(error) => Err(self.refuse(error)),
        }
    }

    #[tactic(auto, using(slate_types::proofs::Reaching::reads_none))]
    fn next(
        &mut self,
        alloc: Global,
        env: &mut Env<'_, S, M, T>,
    ) -> Result<Option<RowEntry>, SlateDBError> {
        match &self.state {
            RunState::New => return Err(SlateDBError::IteratorNotInitialized),
            RunState::Going => {}
            RunState::Refused(error) => return Err(copy_of(error)),
        }
        match self.cursor.advance(alloc, env, &self.range, self.order) {
            Ok(row) => Ok(row),
            Err(error) => Err(self.refuse(error)),
        }
    }

    #[tactic(auto, using(slate_types::proofs::Reaching::reads_none))]
    fn seek(
        &mut self,
        alloc: Global,
        key: &[u8],
        env: &mut Env<'_, S, M, T>,
    ) -> Result<(), SlateDBError> {
        match &self.state {
            RunState::New => return Err(SlateDBError::IteratorNotInitialized),
            RunState::Going => {}
            RunState::Refused(error) => return Err(copy_of(error)),
        }
        match self.cursor.seek(alloc, env, &self.range, self.order, key) {
            Ok(()) => Ok(()),
            Err(error) => Err(self.refuse(error)),
        }
    }
}
