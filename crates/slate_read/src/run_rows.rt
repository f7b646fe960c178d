//! The rows of a run of stored tables in a range, unopened.
ghost use Rattle.std.specs.Prelude.{◌≡◌, IfOk, IfErr, filter, false};
ghost use Rattle.slate_types.specs.declared.error.SlateDBError.{SlateDBError};
ghost use Rattle.slate_types.specs.Keys.{is_refused};
ghost use Rattle.slate_read.specs.RunIterators.{IsRunIterator, IsRunOf, reached};
ghost use Rattle.slate_read.specs.RunWalk.{can_reach};

use crate::fetch_limits::FetchLimits;
use crate::range_rows::InRange;
use crate::run_state::{RunCursor, RunState, RunWalk};
use crate::run_walk::can_reach;
use crate::sorted_run::SortedRun;
use slate_merge::{FilterIterator, NewestFirst};
use slate_table::SsTableHandle;
use slate_types::{BytesRange, IterationOrder, SlateDBError};
use std::alloc::Global;
use std::collections::VecDeque;

/// Drops the tables that can't hold a key of the range.
fn drop_outside(range: &BytesRange, tables: &mut Vec<SsTableHandle>)
    ensures { tables.new.items ≡ filter (λ h. can_reach range.now h.info) tables.old.items }
{
    tables.retain(
        |table| -> bool
            ensures test { result ≡ can_reach range.entry.now table.now.info }
        { can_reach(range, &table.info) },
    );
}

/// The tables of a run that can hold keys of the range, in the order.
fn reached(
    range: &BytesRange,
    order: IterationOrder,
    mut tables: Vec<SsTableHandle>,
) -> VecDeque<SsTableHandle>
    ensures { result.items ≡ reached range.now order tables.items }
{
    drop_outside(range, &mut tables);
    match order {
        IterationOrder::Ascending => VecDeque::from_vec(tables),
        IterationOrder::Descending => {
            tables.reverse();
            VecDeque::from_vec(tables)
        }
    }
}

/// The rows of a run of stored tables in the range, in the order, as they stand in the tables. Nothing is read yet.
pub fn run_rows(
    alloc: Global,
    range: BytesRange,
    run: SortedRun,
    order: IterationOrder,
    limits: FetchLimits,
) -> Result<FilterIterator<RunWalk, InRange>, SlateDBError>
    requires { is_refused range.start range.end ≡ false }
    ensures rows { IfOk result (λ it. IsRunOf range run.tables.items order it) }
    ensures cause { IfErr result (λ e. e ≡ SlateDBError.OutOfMemory) }
{
    let kept = range.clone()?;
    let SortedRun { prefix, tables } = run;
    drop(prefix);
    let cursor = RunCursor {
        ahead: None,
        current: None,
        tables: reached(&range, order, tables),
        limits,
    };
    let walk = RunWalk {
        range,
        order,
        cursor,
        state: RunState::New,
    };
    FilterIterator::new(alloc, walk, InRange { range: kept })
}

/// The rows of a run of stored tables in the range, in the order, the newest of each key first. Nothing is read yet.
pub(crate) fn newest_run_rows(
    alloc: Global,
    range: BytesRange,
    run: SortedRun,
    order: IterationOrder,
    limits: FetchLimits,
) -> Result<NewestFirst<FilterIterator<RunWalk, InRange>>, SlateDBError>
    requires { is_refused range.start range.end ≡ false }
    ensures rows { IfOk result (λ it. IsRunIterator range run order it) }
    ensures cause { IfErr result (λ e. e ≡ SlateDBError.OutOfMemory) }
{
    let kept = range.clone()?;
    let source = run_rows(alloc, range, run, order, limits)?;
    Ok(NewestFirst::over(kept, source))
}
