//! The rows of a stored table, block by block.
ghost use Rattle.std.specs.Prelude.{◌≡◌, ◌⊎◌, ◌<◌, ◌≤◌, ◌+◌, ◌-◌, ◌*◌, ◌++◌, ℕ, List, Option, option_to_list, drop, Some, None, Ok, Err, length, Contains, IfOk, IfErr, IsSome, OnOk, OnErr, true, false};
ghost use Rattle.slate_types.specs.declared.error.SlateDBError.{SlateDBError};
ghost use Rattle.slate_types.specs.Keys.{is_refused, key_lt};
ghost use Rattle.slate_types.specs.Partitions.{CanHold, covering_end, covering_start};
ghost use Rattle.slate_block.specs.BlockWalks.{TakesRead, Refuses};
ghost use Rattle.slate_block.specs.EitherVersion.{left_of};
ghost use Rattle.slate_block.specs.ReadingLaws.{EachIsAByte};
ghost use Rattle.slate_table.specs.IndexReading.{index_keys};
ghost use Rattle.slate_table.specs.IndexValue.{entries_of};
ghost use Rattle.slate_types.specs.Outside.{IsStill, OnlyReads};
ghost use Rattle.slate_types.specs.Refusing.{IsDamage};
ghost use Rattle.slate_types.specs.World.{Made, ReadsAt};
ghost use Rattle.slate_types.proofs.Moves.{Moves};
ghost use Rattle.slate_merge.specs.Answering.{IsFaultOr};
ghost use Rattle.slate_merge.specs.NoMoreRows.{AddsNoneByCall, HandsAwayByCall};
ghost use Rattle.slate_read.specs.Bringing.{brings_behind};
ghost use Rattle.slate_read.specs.TableWalk.{SkipsOpen, SoughtBehind, StepsBehind, Begins, IsIndexed, Keeps, bound_behind, max_blocks, IsSoundCursor, Jumps, Opens, refuses_behind, refuses_index, rest_after, next_first, next_stop, reads_in, RefusesLeft, RefusesReady, TakesOpen, RefusesRows, Walks, max_reads, path_in};

use crate::fetch_limits::FetchLimits;
use crate::table_state::{Cursor, TableState, TableWalk};
use slate_block::{Block, DataBlockIterator};
use slate_merge::kept::copy_of;
use slate_store::{Env, EnvOf, Store};
use slate_table::{SsTableHandle, SstIndex, TableStore};
use slate_types::{
    BlockTransformer, ByteRangeBounds, BytesRange, IterationOrder, MergeOperator, Outside,
    RowEntry, SlateDBError, partitions_covering_range,
};
use std::alloc::Global;
use std::collections::VecDeque;
use std::mem;
use std::ops::Bound;

/// The folder of the store's objects.
pub const ROOT: &str = "db";

/// The numbers of a slice of bytes are bytes.
fn are_bytes(bytes: &[u8])
    ensures { EachIsAByte bytes.now }
{}

/// A walk over a block.
fn walk_block(
    alloc: Global,
    block: Block,
    version: u16,
    order: IterationOrder,
) -> Result<DataBlockIterator<Block>, SlateDBError>
    ensures walks { IfOk result (λ it. Walks version order block (left_of it)) }
    ensures few { IfOk result (λ it. length (left_of it).reads ≤ max_reads) }
    ensures bytes { EachIsAByte block.body }
    ensures cause { IfErr result (λ e. (e ≡ SlateDBError.OutOfMemory) ⊎ (IsDamage e × RefusesRows version order block e)) }
{
    are_bytes(block.body.as_slice());
    DataBlockIterator::new(alloc, block, version, order)
}

/// The first block that can hold a key from this one on. Those before it hold lower keys alone.
fn first_from(index: &SstIndex, key: &[u8]) -> usize
    ensures { (i : ℕ) (k : List ℕ) → CanHold (index_keys (entries_of index.now)) i k → i < result → key_lt k key.now ≡ true }
{
    partitions_covering_range(index, Bound::Included(key), Bound::Unbounded).start
}

/// The number one past the last block that can hold a key up to this one. Those from there on hold higher keys alone.
fn end_upto(index: &SstIndex, key: &[u8]) -> usize
    ensures { (i : ℕ) (k : List ℕ) → CanHold (index_keys (entries_of index.now)) i k → result ≤ i → key_lt key.now k ≡ true }
{
    partitions_covering_range(index, Bound::Unbounded, Bound::Included(key)).end
}

impl Cursor {
    /// The next row of the block that is open, or `None` where it is spent, or none is open.
    #[inline(always)]
    fn row(&mut self, alloc: Global) -> Result<Option<RowEntry>, SlateDBError>
        ensures took { IfOk result (λ answer. TakesOpen self.old.rows answer self.new.rows) }
        ensures index { self.new.index ≡ self.old.index }
        ensures first { self.new.first ≡ self.old.first }
        ensures stop { self.new.stop ≡ self.old.stop }
        ensures ready { self.new.ready ≡ self.old.ready }
        ensures cause { IfErr result (λ e. (e ≡ SlateDBError.OutOfMemory) ⊎ (IsDamage e × RefusesLeft self.old.rows e)) }
        ensures same { OnErr result (self.new.rows ≡ self.old.rows) }
    {
        match &mut self.rows {
            Some(rows) => rows.next_row(alloc),
            None => Ok(None),
        }
    }

    /// Takes off the next block in the order, which was read ahead.
    fn take_block(&mut self, order: IterationOrder) -> Option<Block>
        requires { 0 < length self.old.ready.items }
        ensures some { IsSome result }
        ensures ready { self.old.ready.items ≡ option_to_list result ++ self.new.ready.items }
        ensures first { self.new.first ≡ next_first order self.old }
        ensures stop { self.new.stop ≡ next_stop order self.old }
        ensures index { self.new.index ≡ self.old.index }
        ensures rows { self.new.rows ≡ self.old.rows }
    {
        let block = self.ready.pop_front();
        match order {
            IterationOrder::Ascending => self.first += 1,
            IterationOrder::Descending => self.stop -= 1,
        }
        block
    }

    /// Opens the next block in the order, which was read ahead. Where that is refused the block is taken off all the same.
    fn open_ready(
        &mut self,
        alloc: Global,
        table: &SsTableHandle,
        order: IterationOrder,
    ) -> Result<(), SlateDBError>
        requires { 0 < length self.old.ready.items }
        ensures opened { OnOk result (Opens table.now order self.old self.new) }
        ensures cause { IfErr result (λ e. (e ≡ SlateDBError.OutOfMemory) ⊎ (IsDamage e × RefusesReady table.now.format_version order self.old.ready.items e)) }
        ensures fewer { self.new.stop - self.new.first + 1 ≡ self.old.stop - self.old.first }
    {
        match self.take_block(order) {
            Some(block) => {
                let rows = walk_block(alloc, block, table.format_version, order)?;
                self.rows = Some(rows);
                Ok(())
            }
            None => Ok(()),
        }
    }

    /// Opens the next block in the order. Where none is ready blocks are read first.
    fn open<S: Store, M: MergeOperator, T: BlockTransformer>(
        &mut self,
        alloc: Global,
        env: &mut Env<'_, S, M, T>,
        table: &SsTableHandle,
        order: IterationOrder,
        limits: FetchLimits,
    ) -> Result<(), SlateDBError>
        requires some { self.old.first < self.old.stop }
        requires spent { reads_in self.old.rows ≡ 0 }
        ensures moved { let reach = ⟦<EnvOf<S, M, T> as Outside>⟧.reach in OnOk result (Moves (rest_after table.now order) (IsSoundCursor table.now order) (refuses_behind table.now order) (reach env.old) (reach env.new) self.old self.new) }
        ensures cause { let reach = ⟦<EnvOf<S, M, T> as Outside>⟧.reach in IfErr result (λ e. IsFaultOr (refuses_behind table.now order) (reach env.old) (reach env.new) self.old None e) }
        ensures fewer { OnOk result (self.new.stop - self.new.first + 1 ≡ self.old.stop - self.old.first) }
        ensures small { OnOk result (reads_in self.new.rows ≤ max_reads) }
        ensures adds { let reach = ⟦<EnvOf<S, M, T> as Outside>⟧.reach in OnOk result (AddsNoneByCall (brings_behind table.now order) (refuses_behind table.now order) (reach env.old) (reach env.new) self.old self.new) }
        ensures within { let reach = ⟦<EnvOf<S, M, T> as Outside>⟧.reach in (paths : List (List ℕ)) → Contains paths (path_in table.now) → ReadsAt paths (reach env.old) (reach env.new) }
        ensures reads { let reach = ⟦<EnvOf<S, M, T> as Outside>⟧.reach in OnlyReads (reach env.old) (reach env.new) }
        ensures counts { let reach = ⟦<EnvOf<S, M, T> as Outside>⟧.reach in
            IsStill (reach env.old).faults (reach env.new).faults result }
    {
        self.fill(alloc, env, table, order, limits)?;
        self.open_ready(alloc, table, order)
    }

    /// The next row in the order, where need be of the next block, which is then opened.
    #[inline(always)]
    pub(crate) fn advance<S: Store, M: MergeOperator, T: BlockTransformer>(
        &mut self,
        alloc: Global,
        env: &mut Env<'_, S, M, T>,
        table: &SsTableHandle,
        order: IterationOrder,
        limits: FetchLimits,
    ) -> Result<Option<RowEntry>, SlateDBError>
        ensures step { let reach = ⟦<EnvOf<S, M, T> as Outside>⟧.reach in IfOk result (λ answer. StepsBehind table.now order (reach env.old) (reach env.new) self.old answer self.new) }
        ensures cause { let reach = ⟦<EnvOf<S, M, T> as Outside>⟧.reach in IfErr result (λ e. IsFaultOr (refuses_behind table.now order) (reach env.old) (reach env.new) self.old None e) }
        ensures smaller { IfOk result (λ answer. IsSome answer → bound_behind self.new < bound_behind self.old) }
        ensures no_larger { OnOk result (bound_behind self.new ≤ bound_behind self.old) }
        ensures hands { let reach = ⟦<EnvOf<S, M, T> as Outside>⟧.reach in IfOk result (λ answer. HandsAwayByCall (brings_behind table.now order) (refuses_behind table.now order) (reach env.old) (reach env.new) self.old answer self.new) }
        ensures within { let reach = ⟦<EnvOf<S, M, T> as Outside>⟧.reach in (paths : List (List ℕ)) → Contains paths (path_in table.now) → ReadsAt paths (reach env.old) (reach env.new) }
        ensures reads { let reach = ⟦<EnvOf<S, M, T> as Outside>⟧.reach in OnlyReads (reach env.old) (reach env.new) }
        ensures counts { let reach = ⟦<EnvOf<S, M, T> as Outside>⟧.reach in
            IsStill (reach env.old).faults (reach env.new).faults result }
    {
        loop {
            if let Some(row) = self.row(alloc)? {
                return Ok(Some(row));
            }
            if self.first >= self.stop {
                return Ok(None);
            }
            self.open(alloc, env, table, order, limits)?;
        }
    }

    /// Takes off the rows before a key in the block that is open, and answers whether one is left.
    fn skip(&mut self, alloc: Global, key: &[u8]) -> Result<bool, SlateDBError>
        ensures skipped { IfOk result (λ some. SkipsOpen key.now self.old.rows some self.new.rows) }
        ensures index { self.new.index ≡ self.old.index }
        ensures first { self.new.first ≡ self.old.first }
        ensures stop { self.new.stop ≡ self.old.stop }
        ensures ready { self.new.ready ≡ self.old.ready }
        ensures cause { IfErr result (λ e. (e ≡ SlateDBError.OutOfMemory) ⊎ (IsDamage e × RefusesLeft self.old.rows e)) }
    {
        match &mut self.rows {
            Some(rows) => {
                rows.skip_before(alloc, key)?;
                Ok(!rows.is_empty())
            }
            None => Ok(false),
        }
    }

    /// Lets go of the first blocks of those that are ready.
    fn drop_ready(&mut self, count: usize)
        ensures ready { self.new.ready.items ≡ drop count self.old.ready.items }
        ensures first { self.new.first ≡ self.old.first }
        ensures stop { self.new.stop ≡ self.old.stop }
        ensures index { self.new.index ≡ self.old.index }
        ensures rows { self.new.rows ≡ self.old.rows }
    {
        for _ in 0..count.min(self.ready.len()) {
            drop(self.ready.pop_front());
        }
    }

    /// Passes over the blocks that hold only keys which the order puts before a key.
    fn jump(&mut self, order: IterationOrder, key: &[u8])
        ensures { Jumps order key.now self.old self.new }
    {
        match order {
            IterationOrder::Ascending => {
                let start = first_from(&self.index, key);
                let first = self.first.max(start).min(self.stop);
                self.drop_ready(first - self.first);
                self.first = first;
            }
            IterationOrder::Descending => {
                let end = end_upto(&self.index, key);
                let stop = self.stop.min(end).max(self.first);
                self.drop_ready(self.stop - stop);
                self.stop = stop;
            }
        }
    }

    /// Takes off the rows that the order puts before a key, and opens block after block until one has another row.
    fn walk_to<S: Store, M: MergeOperator, T: BlockTransformer>(
        &mut self,
        alloc: Global,
        env: &mut Env<'_, S, M, T>,
        table: &SsTableHandle,
        order: IterationOrder,
        limits: FetchLimits,
        key: &[u8],
    ) -> Result<(), SlateDBError>
        ensures sought { let reach = ⟦<EnvOf<S, M, T> as Outside>⟧.reach in OnOk result (SoughtBehind table.now order key.now (reach env.old) (reach env.new) self.old self.new) }
        ensures cause { let reach = ⟦<EnvOf<S, M, T> as Outside>⟧.reach in IfErr result (λ e. IsFaultOr (refuses_behind table.now order) (reach env.old) (reach env.new) self.old (Some key.now) e) }
        ensures no_larger { OnOk result (bound_behind self.new ≤ bound_behind self.old) }
        ensures adds { let reach = ⟦<EnvOf<S, M, T> as Outside>⟧.reach in OnOk result (AddsNoneByCall (brings_behind table.now order) (refuses_behind table.now order) (reach env.old) (reach env.new) self.old self.new) }
        ensures within { let reach = ⟦<EnvOf<S, M, T> as Outside>⟧.reach in (paths : List (List ℕ)) → Contains paths (path_in table.now) → ReadsAt paths (reach env.old) (reach env.new) }
        ensures reads { let reach = ⟦<EnvOf<S, M, T> as Outside>⟧.reach in OnlyReads (reach env.old) (reach env.new) }
        ensures counts { let reach = ⟦<EnvOf<S, M, T> as Outside>⟧.reach in
            IsStill (reach env.old).faults (reach env.new).faults result }
    {
        loop {
            if self.skip(alloc, key)? {
                return Ok(());
            }
            if self.first >= self.stop {
                return Ok(());
            }
            self.open(alloc, env, table, order, limits)?;
        }
    }

    /// Takes off the rows that the order puts before a key. Blocks that the index puts before the key aren't read.
    pub(crate) fn seek<S: Store, M: MergeOperator, T: BlockTransformer>(
        &mut self,
        alloc: Global,
        env: &mut Env<'_, S, M, T>,
        table: &SsTableHandle,
        order: IterationOrder,
        limits: FetchLimits,
        key: &[u8],
    ) -> Result<(), SlateDBError>
        ensures sought { let reach = ⟦<EnvOf<S, M, T> as Outside>⟧.reach in OnOk result (SoughtBehind table.now order key.now (reach env.old) (reach env.new) self.old self.new) }
        ensures cause { let reach = ⟦<EnvOf<S, M, T> as Outside>⟧.reach in IfErr result (λ e. IsFaultOr (refuses_behind table.now order) (reach env.old) (reach env.new) self.old (Some key.now) e) }
        ensures no_larger { OnOk result (bound_behind self.new ≤ bound_behind self.old) }
        ensures adds { let reach = ⟦<EnvOf<S, M, T> as Outside>⟧.reach in OnOk result (AddsNoneByCall (brings_behind table.now order) (refuses_behind table.now order) (reach env.old) (reach env.new) self.old self.new) }
        ensures within { let reach = ⟦<EnvOf<S, M, T> as Outside>⟧.reach in (paths : List (List ℕ)) → Contains paths (path_in table.now) → ReadsAt paths (reach env.old) (reach env.new) }
        ensures reads { let reach = ⟦<EnvOf<S, M, T> as Outside>⟧.reach in OnlyReads (reach env.old) (reach env.new) }
        ensures counts { let reach = ⟦<EnvOf<S, M, T> as Outside>⟧.reach in
            IsStill (reach env.old).faults (reach env.new).faults result }
    {
        if self.skip(alloc, key)? {
            return Ok(());
        }
        self.jump(order, key);
        self.walk_to(alloc, env, table, order, limits, key)
    }
}

/// The index of a table, by one read of its section.
pub(crate) fn open_index<S: Store, M: MergeOperator, T: BlockTransformer>(
    alloc: Global,
    env: &mut Env<'_, S, M, T>,
    table: &SsTableHandle,
) -> Result<SstIndex, SlateDBError>
    ensures found { let reach = ⟦<EnvOf<S, M, T> as Outside>⟧.reach in IfOk result (λ index. Made (reach env.old) (reach env.new) (λ reads. IsIndexed (reach env.old).meaning table.now reads (entries_of index))) }
    ensures few { IfOk result (λ index. length (entries_of index) ≤ max_blocks) }
    ensures cause { let reach = ⟦<EnvOf<S, M, T> as Outside>⟧.reach in IfErr result (λ e. IsFaultOr refuses_index (reach env.old) (reach env.new) table.now None e) }
    ensures within { let reach = ⟦<EnvOf<S, M, T> as Outside>⟧.reach in (paths : List (List ℕ)) → Contains paths (path_in table.now) → ReadsAt paths (reach env.old) (reach env.new) }
    ensures reads { let reach = ⟦<EnvOf<S, M, T> as Outside>⟧.reach in OnlyReads (reach env.old) (reach env.new) }
    ensures counts { let reach = ⟦<EnvOf<S, M, T> as Outside>⟧.reach in
        IsStill (reach env.old).faults (reach env.new).faults result }
{
    TableStore::read_index(alloc, env.store, ROOT, table, &mut env.transformer)
}

impl TableWalk {
    /// Keeps a refusal, which each later call then answers again.
    pub(crate) fn refuse(&mut self, error: SlateDBError) -> SlateDBError
        ensures same { result ≡ error }
        ensures keeps { Keeps error self.new.state }
        ensures range { self.new.range ≡ self.old.range }
        ensures table { self.new.table ≡ self.old.table }
        ensures order { self.new.order ≡ self.old.order }
        ensures limits { self.new.limits ≡ self.old.limits }
    {
        let state = TableState::Refused(copy_of(&error));
        drop(mem::replace(&mut self.state, state));
        error
    }

    /// Begins the walk over the blocks that can hold keys of the range.
    pub(crate) fn begin(&mut self, alloc: Global, index: SstIndex)
        ensures state { Begins self.old.range (entries_of index) self.new.state }
        ensures range { self.new.range ≡ self.old.range }
        ensures table { self.new.table ≡ self.old.table }
        ensures order { self.new.order ≡ self.old.order }
        ensures limits { self.new.limits ≡ self.old.limits }
    {
        let covered = partitions_covering_range(
            &index,
            self.range.start_bound(),
            self.range.end_bound(),
        );
        let cursor = Cursor {
            index,
            first: covered.start,
            stop: covered.end,
            ready: VecDeque::new(alloc),
            rows: None,
        };
        drop(mem::replace(&mut self.state, TableState::Walking(cursor)));
    }
}
