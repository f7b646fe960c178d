//! Where a walk over a run of tables stands.
ghost use Rattle.std.specs.Prelude.{◌≡◌, false};
ghost use Rattle.slate_types.specs.Keys.{is_refused};

use crate::fetch_limits::FetchLimits;
use crate::table_state::Cursor;
use slate_table::SsTableHandle;
use slate_types::{BytesRange, IterationOrder, RowEntry, SlateDBError};
use std::collections::VecDeque;

/// The table of a run that is open.
#[derive(Drop)]
pub struct OpenTable {
    /// What is kept of the table.
    pub table: SsTableHandle,
    /// Where the walk over it stands.
    pub cursor: Cursor,
    /// How many of its blocks are read ahead.
    pub limits: FetchLimits,
}

/// Where a walk over a run stands: in a table that is open, before those that aren't yet.
#[derive(Drop)]
pub struct RunCursor {
    /// A row that a seek read ahead of the others.
    pub ahead: Option<RowEntry>,
    /// The table that is open, or `None` before the first and between two.
    pub current: Option<OpenTable>,
    /// What is kept of the tables that weren't opened, the next one first.
    pub tables: VecDeque<SsTableHandle>,
    /// How many blocks of a table are read ahead.
    pub limits: FetchLimits,
}

/// A walk that wasn't begun, one that goes on, and one that was refused.
#[derive(Drop)]
pub enum RunState {
    New,
    Going,
    Refused(SlateDBError),
}

/// The rows of the blocks of a run that can hold keys of a range, in an order, one table after another.
#[derive(Drop)]
pub struct RunWalk {
    /// The range whose blocks are read. Their other rows come too.
    pub range: BytesRange,
    /// The order in which the tables and their rows come.
    pub order: IterationOrder,
    /// Where the walk stands.
    pub cursor: RunCursor,
    /// Whether it was begun, or refused.
    pub state: RunState,
    ghost fits: { is_refused range.start range.end ≡ false },
}
