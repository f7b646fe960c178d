//! The rows of a run of stored tables, table by table.
ghost use Rattle.std.specs.Prelude.{◌≡◌, ◌<◌, ◌≤◌, ◌+◌, ◌*◌, ℕ, List, length, Contains, [], None, false, true, IfOk, IfErr, IsNone, IsSome, OnOk};
ghost use Rattle.slate_types.specs.declared.error.SlateDBError.{SlateDBError};
ghost use Rattle.slate_types.specs.Keys.{is_refused};
ghost use Rattle.slate_types.specs.Outside.{IsStill, OnlyReads};
ghost use Rattle.slate_types.specs.Steps.{Step};
ghost use Rattle.slate_types.specs.World.{Made, ReadsAt};
ghost use Rattle.slate_types.proofs.Moves.{Moves};
ghost use Rattle.slate_table.specs.IndexValue.{entries_of};
ghost use Rattle.slate_merge.specs.Answering.{no_words};
ghost use Rattle.slate_merge.specs.Answering.{IsFaultOr};
ghost use Rattle.slate_merge.specs.NoMoreRows.{AddsNoneByCall, HandsAwayByCall};
ghost use Rattle.slate_read.specs.TableWalk.{BeginsAt, Sought, SoughtBehind, StepsBehind, bound_behind, max_blocks, max_reads, path_in, refuses_behind, refuses_index};
ghost use Rattle.slate_read.specs.Bringing.{brings_behind};
ghost use Rattle.slate_read.specs.RunBringing.{BringsOpen, brings_run};
ghost use Rattle.slate_read.specs.RunWalk.{FindsRow, IsCursorWithin, IsOpenWithin, IsSoundOpen, IsOpenRising, IsSoundRun, IsTableOpened, KeepsRun, OpensNext, PassesOver, bound_open, bound_run, can_reach, end_key, is_next_passed, is_passed, reaches_end, reaches_start, refuses_open, refuses_run, rest_open, rest_run};

use crate::fetch_limits::FetchLimits;
use crate::run_state::{OpenTable, RunCursor, RunState, RunWalk};
use crate::table_state::Cursor;
use crate::table_walk::open_index;
use bytes::Bytes;
use slate_merge::kept::copy_of;
use slate_merge::newest_first::is_below;
use slate_merge::peeking_iterator::is_ahead_kept;
use slate_store::{Env, EnvOf, Store};
use slate_table::{SsTableHandle, SsTableInfo, SstIndex};
use slate_types::{
    BlockTransformer, ByteRangeBounds, BytesRange, IterationOrder, MergeOperator, Outside,
    RowEntry, SlateDBError, partitions_covering_range,
};
use std::alloc::Global;
use std::collections::VecDeque;
use std::mem;
use std::ops::Bound;

/// Whether a table whose last key this is can hold a key from the range's start on.
fn reaches_start(range: &BytesRange, last: &Option<Bytes>) -> bool
    ensures { result ≡ reaches_start range.now last.now }
{
    match last {
        Some(last) => !is_below(range, last.as_slice()),
        None => true,
    }
}

/// Whether a table whose first key this is can hold a key up to the range's end.
fn reaches_end(range: &BytesRange, first: &Option<Bytes>) -> bool
    ensures { result ≡ reaches_end range.now first.now }
{
    let Some(first) = first else {
        return true;
    };
    let first = first.as_slice();
    match range.end_bound() {
        Bound::Included(end) => !IterationOrder::Ascending.puts_before(end, first),
        Bound::Excluded(end) => IterationOrder::Ascending.puts_before(first, end),
        Bound::Unbounded => true,
    }
}

/// Whether a table can hold a key of the range, by its first and its last key. One that names no such key can.
pub fn can_reach(range: &BytesRange, info: &SsTableInfo) -> bool
    ensures { result ≡ can_reach range.now info.now }
{
    reaches_start(range, &info.last_entry) && reaches_end(range, &info.first_entry)
}

/// Whether the order puts all keys of a table before a key, by the last of them in the order, where the table names it.
fn is_passed(order: IterationOrder, key: &[u8], info: &SsTableInfo) -> bool
    ensures { result ≡ is_passed order key.now info.now }
{
    let end = match order {
        IterationOrder::Ascending => &info.last_entry,
        IterationOrder::Descending => &info.first_entry,
    };
    match end {
        Some(end) => order.puts_before(end.as_slice(), key),
        None => false,
    }
}

/// Before the blocks of a table that can hold keys of the range.
fn cursor_over(alloc: Global, range: &BytesRange, index: SstIndex) -> Cursor
    requires { is_refused range.now.start range.now.end ≡ false }
    ensures { BeginsAt range.now (entries_of index) result }
{
    let covered = partitions_covering_range(&index, range.start_bound(), range.end_bound());
    Cursor {
        index,
        first: covered.start,
        stop: covered.end,
        ready: VecDeque::new(alloc),
        rows: None,
    }
}

/// Opens a table, by one read of its index.
fn open_table<S: Store, M: MergeOperator, T: BlockTransformer>(
    alloc: Global,
    env: &mut Env<'_, S, M, T>,
    table: SsTableHandle,
    range: &BytesRange,
    limits: FetchLimits,
) -> Result<OpenTable, SlateDBError>
    requires { is_refused range.now.start range.now.end ≡ false }
    ensures opened { let reach = ⟦<EnvOf<S, M, T> as Outside>⟧.reach in IfOk result (λ found. Made (reach env.old) (reach env.new) (λ reads. IsTableOpened range.now (reach env.old).meaning table reads found)) }
    ensures few { IfOk result (λ found. bound_behind found.cursor ≤ max_blocks * max_reads) }
    ensures cause { let reach = ⟦<EnvOf<S, M, T> as Outside>⟧.reach in IfErr result (λ e. IsFaultOr refuses_index (reach env.old) (reach env.new) table None e) }
    ensures within { let reach = ⟦<EnvOf<S, M, T> as Outside>⟧.reach in (paths : List (List ℕ)) → Contains paths (path_in table) → ReadsAt paths (reach env.old) (reach env.new) }
    ensures reads { let reach = ⟦<EnvOf<S, M, T> as Outside>⟧.reach in OnlyReads (reach env.old) (reach env.new) }
    ensures counts { let reach = ⟦<EnvOf<S, M, T> as Outside>⟧.reach in
        IsStill (reach env.old).faults (reach env.new).faults result }
{
    match open_index(alloc, env, &table) {
        Ok(index) => {
            let cursor = cursor_over(alloc, range, index);
            Ok(OpenTable {
                table,
                cursor,
                limits,
            })
        }
        Err(error) => {
            drop(table);
            Err(error)
        }
    }
}

impl OpenTable {
    /// The next row in the order.
    fn advance<S: Store, M: MergeOperator, T: BlockTransformer>(
        &mut self,
        alloc: Global,
        env: &mut Env<'_, S, M, T>,
        order: IterationOrder,
    ) -> Result<Option<RowEntry>, SlateDBError>
        ensures table { self.new.table ≡ self.old.table }
        ensures step { let reach = ⟦<EnvOf<S, M, T> as Outside>⟧.reach in IfOk result (λ answer. StepsBehind self.old.table order (reach env.old) (reach env.new) self.old.cursor answer self.new.cursor) }
        ensures cause { let reach = ⟦<EnvOf<S, M, T> as Outside>⟧.reach in IfErr result (λ e. IsFaultOr (refuses_behind self.old.table order) (reach env.old) (reach env.new) self.old.cursor None e) }
        ensures smaller { IfOk result (λ answer. IsSome answer → bound_behind self.new.cursor < bound_behind self.old.cursor) }
        ensures no_larger { OnOk result (bound_behind self.new.cursor ≤ bound_behind self.old.cursor) }
        ensures hands { let reach = ⟦<EnvOf<S, M, T> as Outside>⟧.reach in
            IfOk result (λ answer. HandsAwayByCall (brings_behind self.old.table order) (refuses_behind self.old.table order) (reach env.old) (reach env.new) self.old.cursor answer self.new.cursor) }
        ensures within { let reach = ⟦<EnvOf<S, M, T> as Outside>⟧.reach in (paths : List (List ℕ)) → Contains paths (path_in self.old.table) → ReadsAt paths (reach env.old) (reach env.new) }
        ensures reads { let reach = ⟦<EnvOf<S, M, T> as Outside>⟧.reach in OnlyReads (reach env.old) (reach env.new) }
        ensures counts { let reach = ⟦<EnvOf<S, M, T> as Outside>⟧.reach in
            IsStill (reach env.old).faults (reach env.new).faults result }
    {
        self.cursor
            .advance(alloc, env, &self.table, order, self.limits)
    }

    /// Takes off the rows that the order puts before a key.
    fn seek<S: Store, M: MergeOperator, T: BlockTransformer>(
        &mut self,
        alloc: Global,
        env: &mut Env<'_, S, M, T>,
        order: IterationOrder,
        key: &[u8],
    ) -> Result<(), SlateDBError>
        ensures table { self.new.table ≡ self.old.table }
        ensures sought { let reach = ⟦<EnvOf<S, M, T> as Outside>⟧.reach in OnOk result (SoughtBehind self.old.table order key.now (reach env.old) (reach env.new) self.old.cursor self.new.cursor) }
        ensures cause { let reach = ⟦<EnvOf<S, M, T> as Outside>⟧.reach in IfErr result (λ e. IsFaultOr (refuses_behind self.old.table order) (reach env.old) (reach env.new) self.old.cursor None e) }
        ensures no_larger { OnOk result (bound_behind self.new.cursor ≤ bound_behind self.old.cursor) }
        ensures adds { let reach = ⟦<EnvOf<S, M, T> as Outside>⟧.reach in OnOk result (AddsNoneByCall (brings_behind self.old.table order) (refuses_behind self.old.table order) (reach env.old) (reach env.new) self.old.cursor self.new.cursor) }
        ensures within { let reach = ⟦<EnvOf<S, M, T> as Outside>⟧.reach in (paths : List (List ℕ)) → Contains paths (path_in self.old.table) → ReadsAt paths (reach env.old) (reach env.new) }
        ensures reads { let reach = ⟦<EnvOf<S, M, T> as Outside>⟧.reach in OnlyReads (reach env.old) (reach env.new) }
        ensures counts { let reach = ⟦<EnvOf<S, M, T> as Outside>⟧.reach in
            IsStill (reach env.old).faults (reach env.new).faults result }
    {
        self.cursor
            .seek(alloc, env, &self.table, order, self.limits, key)
    }
}

/// The next row of the table that is open, where one is. A table that is spent is let go of.
#[inline(always)]
fn take_row<S: Store, M: MergeOperator, T: BlockTransformer>(
    alloc: Global,
    env: &mut Env<'_, S, M, T>,
    current: &mut Option<OpenTable>,
    order: IterationOrder,
) -> Result<Option<RowEntry>, SlateDBError>
    ensures step { let reach = ⟦<EnvOf<S, M, T> as Outside>⟧.reach in IfOk result (λ answer. Step (rest_open order) (IsSoundOpen order) (refuses_open order) no_words (reach env.old) (reach env.new) current.old answer current.new) }
    ensures spent { IfOk result (λ answer. IsNone answer → current.new ≡ None) }
    ensures cause { let reach = ⟦<EnvOf<S, M, T> as Outside>⟧.reach in IfErr result (λ e. IsFaultOr (refuses_open order) (reach env.old) (reach env.new) current.old None e) }
    ensures smaller { IfOk result (λ answer. IsSome answer → bound_open current.new < bound_open current.old) }
    ensures no_larger { OnOk result (bound_open current.new ≤ bound_open current.old) }
    ensures hands { let reach = ⟦<EnvOf<S, M, T> as Outside>⟧.reach in IfOk result (λ answer. HandsAwayByCall (BringsOpen order) (refuses_open order) (reach env.old) (reach env.new) current.old answer current.new) }
    ensures within { let reach = ⟦<EnvOf<S, M, T> as Outside>⟧.reach in (paths : List (List ℕ)) → IsOpenWithin current.old paths → ReadsAt paths (reach env.old) (reach env.new) × IsOpenWithin current.new paths }
    ensures reads { let reach = ⟦<EnvOf<S, M, T> as Outside>⟧.reach in OnlyReads (reach env.old) (reach env.new) }
    ensures counts { let reach = ⟦<EnvOf<S, M, T> as Outside>⟧.reach in
        IsStill (reach env.old).faults (reach env.new).faults result }
{
    let Some(table) = current else {
        return Ok(None);
    };
    match table.advance(alloc, env, order) {
        Ok(Some(row)) => Ok(Some(row)),
        Ok(None) => {
            drop(current.take());
            Ok(None)
        }
        Err(error) => Err(error),
    }
}

/// Takes off the rows that the order puts before a key of the table that is open, where one is.
fn skip_rows<S: Store, M: MergeOperator, T: BlockTransformer>(
    alloc: Global,
    env: &mut Env<'_, S, M, T>,
    current: &mut Option<OpenTable>,
    order: IterationOrder,
    key: &[u8],
) -> Result<(), SlateDBError>
    ensures sought { let reach = ⟦<EnvOf<S, M, T> as Outside>⟧.reach in OnOk result (Sought (rest_open order) (IsOpenRising order) (refuses_open order) order key.now (reach env.old) (reach env.new) current.old current.new) }
    ensures cause { let reach = ⟦<EnvOf<S, M, T> as Outside>⟧.reach in IfErr result (λ e. IsFaultOr (refuses_open order) (reach env.old) (reach env.new) current.old None e) }
    ensures no_larger { OnOk result (bound_open current.new ≤ bound_open current.old) }
    ensures adds { let reach = ⟦<EnvOf<S, M, T> as Outside>⟧.reach in OnOk result (AddsNoneByCall (BringsOpen order) (refuses_open order) (reach env.old) (reach env.new) current.old current.new) }
    ensures within { let reach = ⟦<EnvOf<S, M, T> as Outside>⟧.reach in (paths : List (List ℕ)) → IsOpenWithin current.old paths → ReadsAt paths (reach env.old) (reach env.new) × IsOpenWithin current.new paths }
    ensures reads { let reach = ⟦<EnvOf<S, M, T> as Outside>⟧.reach in OnlyReads (reach env.old) (reach env.new) }
    ensures counts { let reach = ⟦<EnvOf<S, M, T> as Outside>⟧.reach in
        IsStill (reach env.old).faults (reach env.new).faults result }
{
    match current {
        Some(table) => table.seek(alloc, env, order, key),
        None => Ok(()),
    }
}

/// The first row of the table that is open, where one is, behind those that the order puts before a key.
fn find_row<S: Store, M: MergeOperator, T: BlockTransformer>(
    alloc: Global,
    env: &mut Env<'_, S, M, T>,
    current: &mut Option<OpenTable>,
    order: IterationOrder,
    key: &[u8],
) -> Result<Option<RowEntry>, SlateDBError>
    ensures found { let reach = ⟦<EnvOf<S, M, T> as Outside>⟧.reach in IfOk result (λ answer. FindsRow order key.now (reach env.old) (reach env.new) current.old answer current.new) }
    ensures spent { IfOk result (λ answer. IsNone answer → current.new ≡ None) }
    ensures cause { let reach = ⟦<EnvOf<S, M, T> as Outside>⟧.reach in IfErr result (λ e. IsFaultOr (refuses_open order) (reach env.old) (reach env.new) current.old None e) }
    ensures smaller { IfOk result (λ answer. IsSome answer → bound_open current.new < bound_open current.old) }
    ensures no_larger { OnOk result (bound_open current.new ≤ bound_open current.old) }
    ensures hands { let reach = ⟦<EnvOf<S, M, T> as Outside>⟧.reach in IfOk result (λ answer. HandsAwayByCall (BringsOpen order) (refuses_open order) (reach env.old) (reach env.new) current.old answer current.new) }
    ensures within { let reach = ⟦<EnvOf<S, M, T> as Outside>⟧.reach in (paths : List (List ℕ)) → IsOpenWithin current.old paths → ReadsAt paths (reach env.old) (reach env.new) × IsOpenWithin current.new paths }
    ensures reads { let reach = ⟦<EnvOf<S, M, T> as Outside>⟧.reach in OnlyReads (reach env.old) (reach env.new) }
    ensures counts { let reach = ⟦<EnvOf<S, M, T> as Outside>⟧.reach in
        IsStill (reach env.old).faults (reach env.new).faults result }
{
    match skip_rows(alloc, env, current, order, key) {
        Ok(()) => take_row(alloc, env, current, order),
        Err(error) => Err(error),
    }
}

impl RunCursor {
    /// Opens the next table, by one read of its index, and answers whether there was one.
    fn open_next<S: Store, M: MergeOperator, T: BlockTransformer>(
        &mut self,
        alloc: Global,
        env: &mut Env<'_, S, M, T>,
        range: &BytesRange,
    ) -> Result<bool, SlateDBError>
        requires fits { is_refused range.now.start range.now.end ≡ false }
        ensures opened { let reach = ⟦<EnvOf<S, M, T> as Outside>⟧.reach in IfOk result (λ some. Made (reach env.old) (reach env.new) (λ reads. OpensNext range.now (reach env.old).meaning reads self.old some self.new)) }
        ensures cause { let reach = ⟦<EnvOf<S, M, T> as Outside>⟧.reach in (order : IterationOrder) → IfErr result (λ e. IsFaultOr (refuses_run order) (reach env.old) (reach env.new) self.old None e) }
        ensures fewer { IfOk result (λ some. some ≡ true → length self.new.tables.items + 1 ≡ length self.old.tables.items) }
        ensures no_larger { OnOk result (self.old.current ≡ None → bound_run self.new ≤ bound_run self.old) }
        ensures within { let reach = ⟦<EnvOf<S, M, T> as Outside>⟧.reach in (paths : List (List ℕ)) → IsCursorWithin self.old paths → ReadsAt paths (reach env.old) (reach env.new) × IsCursorWithin self.new paths }
        ensures reads { let reach = ⟦<EnvOf<S, M, T> as Outside>⟧.reach in OnlyReads (reach env.old) (reach env.new) }
        ensures counts { let reach = ⟦<EnvOf<S, M, T> as Outside>⟧.reach in
            IsStill (reach env.old).faults (reach env.new).faults result }
    {
        let Some(table) = self.tables.pop_front() else {
            return Ok(false);
        };
        match open_table(alloc, env, table, range, self.limits) {
            Ok(opened) => {
                drop(mem::replace(&mut self.current, Some(opened)));
                Ok(true)
            }
            Err(error) => Err(error),
        }
    }

    /// Opens the first table, where one is left and none is open.
    pub(crate) fn begin<S: Store, M: MergeOperator, T: BlockTransformer>(
        &mut self,
        alloc: Global,
        env: &mut Env<'_, S, M, T>,
        range: &BytesRange,
        order: IterationOrder,
    ) -> Result<(), SlateDBError>
        requires fits { is_refused range.now.start range.now.end ≡ false }
        ensures moved { let reach = ⟦<EnvOf<S, M, T> as Outside>⟧.reach in OnOk result (Moves (rest_run range.now order) (IsSoundRun range.now order) (refuses_run order) (reach env.old) (reach env.new) self.old self.new) }
        ensures cause { let reach = ⟦<EnvOf<S, M, T> as Outside>⟧.reach in IfErr result (λ e. IsFaultOr (refuses_run order) (reach env.old) (reach env.new) self.old None e) }
        ensures no_larger { OnOk result (bound_run self.new ≤ bound_run self.old) }
        ensures adds { let reach = ⟦<EnvOf<S, M, T> as Outside>⟧.reach in OnOk result (AddsNoneByCall (brings_run order) (refuses_run order) (reach env.old) (reach env.new) self.old self.new) }
        ensures within { let reach = ⟦<EnvOf<S, M, T> as Outside>⟧.reach in (paths : List (List ℕ)) → IsCursorWithin self.old paths → ReadsAt paths (reach env.old) (reach env.new) × IsCursorWithin self.new paths }
        ensures reads { let reach = ⟦<EnvOf<S, M, T> as Outside>⟧.reach in OnlyReads (reach env.old) (reach env.new) }
        ensures counts { let reach = ⟦<EnvOf<S, M, T> as Outside>⟧.reach in
            IsStill (reach env.old).faults (reach env.new).faults result }
    {
        if self.current.is_some() {
            return Ok(());
        }
        match self.open_next(alloc, env, range) {
            Ok(_) => Ok(()),
            Err(error) => Err(error),
        }
    }

    /// The next row in the order, where need be of the next table, which is then opened.
    pub(crate) fn advance<S: Store, M: MergeOperator, T: BlockTransformer>(
        &mut self,
        alloc: Global,
        env: &mut Env<'_, S, M, T>,
        range: &BytesRange,
        order: IterationOrder,
    ) -> Result<Option<RowEntry>, SlateDBError>
        requires fits { is_refused range.now.start range.now.end ≡ false }
        ensures step { let reach = ⟦<EnvOf<S, M, T> as Outside>⟧.reach in IfOk result (λ answer. Step (rest_run range.now order) (IsSoundRun range.now order) (refuses_run order) no_words (reach env.old) (reach env.new) self.old answer self.new) }
        ensures cause { let reach = ⟦<EnvOf<S, M, T> as Outside>⟧.reach in IfErr result (λ e. IsFaultOr (refuses_run order) (reach env.old) (reach env.new) self.old None e) }
        ensures smaller { IfOk result (λ answer. IsSome answer → bound_run self.new < bound_run self.old) }
        ensures no_larger { OnOk result (bound_run self.new ≤ bound_run self.old) }
        ensures hands { let reach = ⟦<EnvOf<S, M, T> as Outside>⟧.reach in IfOk result (λ answer. HandsAwayByCall (brings_run order) (refuses_run order) (reach env.old) (reach env.new) self.old answer self.new) }
        ensures within { let reach = ⟦<EnvOf<S, M, T> as Outside>⟧.reach in (paths : List (List ℕ)) → IsCursorWithin self.old paths → ReadsAt paths (reach env.old) (reach env.new) × IsCursorWithin self.new paths }
        ensures reads { let reach = ⟦<EnvOf<S, M, T> as Outside>⟧.reach in OnlyReads (reach env.old) (reach env.new) }
        ensures counts { let reach = ⟦<EnvOf<S, M, T> as Outside>⟧.reach in
            IsStill (reach env.old).faults (reach env.new).faults result }
    {
        if self.ahead.is_some() {
            return Ok(self.ahead.take());
        }
        loop {
            if let Some(row) = take_row(alloc, env, &mut self.current, order)? {
                return Ok(Some(row));
            }
            if !self.open_next(alloc, env, range)? {
                return Ok(None);
            }
        }
    }

    /// Whether the order puts all keys of the next table before a key.
    fn is_next_passed(&self, order: IterationOrder, key: &[u8]) -> bool
        ensures { result ≡ is_next_passed order key.now self.now.tables.items }
    {
        match self.tables.front() {
            Some(table) => is_passed(order, key, &table.info),
            None => false,
        }
    }

    /// Passes over the tables that hold only keys which the order puts before a key. None of them is read.
    fn pass_over(&mut self, order: IterationOrder, key: &[u8])
        ensures { PassesOver order key.now self.old self.new }
    {
        while self.is_next_passed(order, key) {
            drop(self.tables.pop_front());
        }
    }

    /// Takes off the rows that the order puts before a key, from the table that is open on.
    fn seek_tables<S: Store, M: MergeOperator, T: BlockTransformer>(
        &mut self,
        alloc: Global,
        env: &mut Env<'_, S, M, T>,
        range: &BytesRange,
        order: IterationOrder,
        key: &[u8],
    ) -> Result<(), SlateDBError>
        requires fits { is_refused range.now.start range.now.end ≡ false }
        requires none { self.old.ahead ≡ None }
        ensures sought { let reach = ⟦<EnvOf<S, M, T> as Outside>⟧.reach in OnOk result (Sought (rest_run range.now order) (IsSoundRun range.now order) (refuses_run order) order key.now (reach env.old) (reach env.new) self.old self.new) }
        ensures cause { let reach = ⟦<EnvOf<S, M, T> as Outside>⟧.reach in IfErr result (λ e. IsFaultOr (refuses_run order) (reach env.old) (reach env.new) self.old None e) }
        ensures no_larger { OnOk result (bound_run self.new ≤ bound_run self.old) }
        ensures adds { let reach = ⟦<EnvOf<S, M, T> as Outside>⟧.reach in OnOk result (AddsNoneByCall (brings_run order) (refuses_run order) (reach env.old) (reach env.new) self.old self.new) }
        ensures within { let reach = ⟦<EnvOf<S, M, T> as Outside>⟧.reach in (paths : List (List ℕ)) → IsCursorWithin self.old paths → ReadsAt paths (reach env.old) (reach env.new) × IsCursorWithin self.new paths }
        ensures reads { let reach = ⟦<EnvOf<S, M, T> as Outside>⟧.reach in OnlyReads (reach env.old) (reach env.new) }
        ensures counts { let reach = ⟦<EnvOf<S, M, T> as Outside>⟧.reach in
            IsStill (reach env.old).faults (reach env.new).faults result }
    {
        loop {
            if let Some(row) = find_row(alloc, env, &mut self.current, order, key)? {
                drop(mem::replace(&mut self.ahead, Some(row)));
                return Ok(());
            }
            self.pass_over(order, key);
            if !self.open_next(alloc, env, range)? {
                return Ok(());
            }
        }
    }

    /// Takes off the rows that the order puts before a key. Tables that hold only such keys aren't read.
    pub(crate) fn seek<S: Store, M: MergeOperator, T: BlockTransformer>(
        &mut self,
        alloc: Global,
        env: &mut Env<'_, S, M, T>,
        range: &BytesRange,
        order: IterationOrder,
        key: &[u8],
    ) -> Result<(), SlateDBError>
        requires fits { is_refused range.now.start range.now.end ≡ false }
        ensures sought { let reach = ⟦<EnvOf<S, M, T> as Outside>⟧.reach in OnOk result (Sought (rest_run range.now order) (IsSoundRun range.now order) (refuses_run order) order key.now (reach env.old) (reach env.new) self.old self.new) }
        ensures cause { let reach = ⟦<EnvOf<S, M, T> as Outside>⟧.reach in IfErr result (λ e. IsFaultOr (refuses_run order) (reach env.old) (reach env.new) self.old None e) }
        ensures no_larger { OnOk result (bound_run self.new ≤ bound_run self.old) }
        ensures adds { let reach = ⟦<EnvOf<S, M, T> as Outside>⟧.reach in OnOk result (AddsNoneByCall (brings_run order) (refuses_run order) (reach env.old) (reach env.new) self.old self.new) }
        ensures within { let reach = ⟦<EnvOf<S, M, T> as Outside>⟧.reach in (paths : List (List ℕ)) → IsCursorWithin self.old paths → ReadsAt paths (reach env.old) (reach env.new) × IsCursorWithin self.new paths }
        ensures reads { let reach = ⟦<EnvOf<S, M, T> as Outside>⟧.reach in OnlyReads (reach env.old) (reach env.new) }
        ensures counts { let reach = ⟦<EnvOf<S, M, T> as Outside>⟧.reach in
            IsStill (reach env.old).faults (reach env.new).faults result }
    {
        if is_ahead_kept(&self.ahead, order, key) {
            return Ok(());
        }
        drop(self.ahead.take());
        self.seek_tables(alloc, env, range, order, key)
    }

    /// Lets go of all that is left.
    fn close(&mut self)
        ensures current { self.new.current ≡ None }
        ensures tables { self.new.tables.items ≡ [] }
    {
        drop(self.ahead.take());
        drop(self.current.take());
        self.tables.clear();
    }
}

impl RunWalk {
    /// Keeps a refusal, which each later call then answers again, and lets go of what is left.
    pub(crate) fn refuse(&mut self, error: SlateDBError) -> SlateDBError
        ensures same { result ≡ error }
        ensures keeps { KeepsRun error self.new.state }
        ensures current { self.new.cursor.current ≡ None }
        ensures tables { self.new.cursor.tables.items ≡ [] }
        ensures range { self.new.range ≡ self.old.range }
        ensures order { self.new.order ≡ self.old.order }
    {
        let state = RunState::Refused(copy_of(&error));
        drop(mem::replace(&mut self.state, state));
        self.cursor.close();
        error
    }
}
