//! The rows of a stored table, as an iterator.
ghost use Rattle.slate_read.specs.SstBringing.{walk_begins, walk_seeks, walk_takes};
ghost use Rattle.slate_read.specs.TableWalk.{bound_in, IsSoundWalk, IsUnopened, refuses_in, rest_of, Stays, IsWalkWithin};
ghost use Rattle.slate_read.specs.WalkLaws.{refuses_more, refuses_whole};

use crate::table_state::{TableState, TableWalk};
use crate::table_walk::open_index;
use slate_merge::kept::copy_of;
use slate_store::{Env, Store};
use slate_types::{
    BlockTransformer, IterationOrder, MergeOperator, RowEntry, RowEntryIterator, SlateDBError,
};
use std::alloc::Global;

impl<S: Store, M: MergeOperator, T: BlockTransformer> RowEntryIterator<Env<'_, S, M, T>>
    for TableWalk {
    ghost rest = { rest_of };

    ghost sound = { IsSoundWalk };

    ghost order = { λ it. it.order };

    ghost bound = { λ it. bound_in it.state };

    ghost refuses = { λ it p reads at e. refuses_in it.state it.table it.order p reads at e };

    ghost begins = { walk_begins };

    ghost takes = { walk_takes };

    ghost seeks = { walk_seeks };

    ghost stays = { λ before _ _ at e after. Stays before at e after };

    ghost within = { IsWalkWithin };

    ghost unbegun = { λ it. IsUnopened it.state };

    ghost rising = { λ _ _ h. h.rising };

    ghost more = { λ it p done reads at e h. refuses_more it.state it.table it.order p done reads at e h };

    ghost whole = { λ it w reads at e h k r. refuses_whole it.range it.table it.order it.state w reads at e h k r };

    fn iteration_order(&self) -> IterationOrder {
        self.order
    }

    #[tactic(auto, using(slate_types::proofs::Reaching::reads_none))]
    fn init(&mut self, alloc: Global, env: &mut Env<'_, S, M, T>) -> Result<(), SlateDBError> {
        match &self.state {
            TableState::New => {}
            TableState::Walking(_) => return Ok(()),
            TableState::Refused(error) => return Err(copy_of(error)),
        }
        match open_index(alloc, env, &self.table) {
            Ok(index) => {
                self.begin(alloc, index);
                Ok(())
            }
            Err(error) => Err(self.refuse(error)),
        }
    }

    #[tactic(auto, using(slate_types::proofs::Reaching::reads_none))]
    fn next(
        &mut self,
        alloc: Global,
        env: &mut Env<'_, S, M, T>,
    ) -> Result<Option<RowEntry>, SlateDBError> {
        let answer = match &mut self.state {
            TableState::New => return Err(SlateDBError::IteratorNotInitialized),
            TableState::Refused(error) => return Err(copy_of(error)),
            TableState::Walking(cursor) => cursor.advance(
                alloc,
                env,
                &self.table,
                self.order,
                self.limits,
            ),
        };
        match answer {
            Ok(row) => Ok(row),
            Err(error) => Err(self.refuse(error)),
        }
    }

    #[tactic(auto, using(slate_types::proofs::Reaching::reads_none))]
    fn seek(
        &mut self,
        alloc: Global,
        key: &[u8],
        env: &mut Env<'_, S, M, T>,
    ) -> Result<(), SlateDBError> {
        let answer = match &mut self.state {
            TableState::New => return Err(SlateDBError::IteratorNotInitialized),
            TableState::Refused(error) => return Err(copy_of(error)),
            TableState::Walking(cursor) => {
                cursor.seek(alloc, env, &self.table, self.order, self.limits, key)
            }
        };
        match answer {
            Ok(()) => Ok(()),
            Err(error) => Err(self.refuse(error)),
        }
    }
}
