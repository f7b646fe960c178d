//! Blocks of a stored table, read ahead.
ghost use Rattle.std.specs.Prelude.{◌≡◌, ◌<◌, ◌≤◌, ◌+◌, ◌-◌, ◌++◌, ℕ, List, length, Contains, IfErr, OnOk};
ghost use Rattle.slate_types.specs.declared.error.SlateDBError.{SlateDBError};
ghost use Rattle.slate_types.specs.Iteration.{in_order};
ghost use Rattle.slate_types.specs.Outside.{IsStill, OnlyReads};
ghost use Rattle.slate_types.specs.World.{Made, ReadsAt};
ghost use Rattle.slate_types.proofs.Moves.{Moves};
ghost use Rattle.slate_table.specs.IndexValue.{entries_of};
ghost use Rattle.slate_merge.specs.Answering.{IsFaultOr};
ghost use Rattle.slate_merge.specs.NoMoreRows.{AddsNoneByCall};
ghost use Rattle.slate_read.specs.Bringing.{brings_behind};
ghost use Rattle.slate_read.specs.TableWalk.{Fetches, IsEnough, IsNextFetch, IsSoundCursor, nth_block, path_in, refuses_behind, refuses_blocks, rest_after, size_of, start_of, unread_first, unread_size, unread_stop};

use crate::fetch_limits::FetchLimits;
use crate::table_state::Cursor;
use crate::table_walk::ROOT;
use slate_block::Block;
use slate_store::{Env, EnvOf, Store};
use slate_table::{SsTableHandle, SstIndex, TableStore};
use slate_types::{BlockTransformer, IterationOrder, MergeOperator, Outside, SlateDBError};
use std::alloc::Global;
use std::collections::VecDeque;
use std::ops::Range;

/// Where the section of a block begins, or the blocks' end behind the last one.
fn section_start(table: &SsTableHandle, index: &SstIndex, block: usize) -> u64
    ensures { result ≡ start_of table.now (entries_of index.now) block }
{
    match index.get(block) {
        Some((offset, _)) => offset,
        None => table.info.filter_offset,
    }
}

/// How many bytes the section of a block has.
fn section_len(table: &SsTableHandle, index: &SstIndex, block: usize) -> u64
    requires { block < length (entries_of index.now) }
    ensures { result ≡ size_of table.now (entries_of index.now) block }
{
    section_start(table, index, block + 1).saturating_sub(section_start(table, index, block))
}

/// The number of a block of a row of neighbours, by how many come before it in the order.
fn nth_block(order: IterationOrder, blocks: &Range<usize>, n: usize) -> usize
    requires { n < blocks.now.end - blocks.now.start }
    ensures block { result ≡ nth_block order blocks.now.start blocks.now.end n }
    ensures within { result < blocks.now.end }
{
    match order {
        IterationOrder::Ascending => blocks.start + n,
        IterationOrder::Descending => blocks.end - 1 - n,
    }
}

/// How many blocks one read takes of those that weren't read: the first one in the order, and more until their sections have so
/// many bytes, or none is left.
fn blocks_of_fetch(
    table: &SsTableHandle,
    index: &SstIndex,
    order: IterationOrder,
    unread: &Range<usize>,
    bytes: u64,
) -> usize
    requires some { unread.now.start < unread.now.end }
    requires within { unread.now.end ≤ length (entries_of index.now) }
    ensures { IsEnough (unread_size table.now (entries_of index.now) order unread.now.start unread.now.end) bytes (unread.now.end - unread.now.start) result }
{
    let all = unread.end - unread.start;
    let mut left = bytes;
    for count in 1..all {
        let size = section_len(table, index, nth_block(order, unread, count - 1));
        if left <= size {
            return count;
        }
        left -= size;
    }
    all
}

impl Cursor {
    /// The blocks that weren't read.
    fn unread(&self, order: IterationOrder) -> Range<usize>
        ensures start { result.start ≡ unread_first order self.now }
        ensures end { result.end ≡ unread_stop order self.now }
    {
        match order {
            IterationOrder::Ascending => self.first + self.ready.len()..self.stop,
            IterationOrder::Descending => self.first..self.stop - self.ready.len(),
        }
    }

    /// The blocks that the next read takes.
    fn next_fetch(&self, table: &SsTableHandle, order: IterationOrder, bytes: u64) -> Range<usize>
        requires { length self.now.ready.items < self.now.stop - self.now.first }
        ensures { IsNextFetch table.now order bytes self.now result.start result.end }
    {
        let unread = self.unread(order);
        let count = blocks_of_fetch(table, &self.index, order, &unread, bytes);
        match order {
            IterationOrder::Ascending => unread.start..unread.start + count,
            IterationOrder::Descending => unread.end - count..unread.end,
        }
    }

    /// Puts blocks that were read behind those that are ready.
    fn put_ready(
        &mut self,
        mut blocks: Vec<Block>,
        order: IterationOrder,
    ) -> Result<(), SlateDBError>
        requires { length self.old.ready.items + length blocks.items ≤ self.old.stop - self.old.first }
        ensures ready { OnOk result (self.new.ready.items ≡ self.old.ready.items ++ in_order order blocks.items) }
        ensures index { self.new.index ≡ self.old.index }
        ensures first { self.new.first ≡ self.old.first }
        ensures stop { self.new.stop ≡ self.old.stop }
        ensures rows { self.new.rows ≡ self.old.rows }
        ensures cause { IfErr result (λ e. e ≡ SlateDBError.OutOfMemory) }
    {
        match order {
            IterationOrder::Ascending => {}
            IterationOrder::Descending => blocks.reverse(),
        }
        let mut blocks = VecDeque::from_vec(blocks);
        let put = self.ready.append(&mut blocks);
        drop(blocks);
        put.map_err(SlateDBError::from)
    }

    /// Reads the next blocks in the order ahead, by one read.
    fn read_ahead<S: Store, M: MergeOperator, T: BlockTransformer>(
        &mut self,
        alloc: Global,
        env: &mut Env<'_, S, M, T>,
        table: &SsTableHandle,
        order: IterationOrder,
        bytes: u64,
    ) -> Result<(), SlateDBError>
        requires { length self.old.ready.items < self.old.stop - self.old.first }
        ensures fetched { let reach = ⟦<EnvOf<S, M, T> as Outside>⟧.reach in OnOk result (Made (reach env.old) (reach env.new) (λ reads. Fetches (reach env.old).meaning table.now order bytes reads self.old self.new)) }
        ensures cause { let reach = ⟦<EnvOf<S, M, T> as Outside>⟧.reach in IfErr result (λ e. IsFaultOr (refuses_blocks table.now order) (reach env.old) (reach env.new) self.old None e) }
        ensures within { let reach = ⟦<EnvOf<S, M, T> as Outside>⟧.reach in (paths : List (List ℕ)) → Contains paths (path_in table.now) → ReadsAt paths (reach env.old) (reach env.new) }
        ensures reads { let reach = ⟦<EnvOf<S, M, T> as Outside>⟧.reach in OnlyReads (reach env.old) (reach env.new) }
        ensures counts { let reach = ⟦<EnvOf<S, M, T> as Outside>⟧.reach in
            IsStill (reach env.old).faults (reach env.new).faults result }
    {
        let blocks = self.next_fetch(table, order, bytes);
        let index = &self.index;
        let transformer = &mut env.transformer;
        let found = TableStore::read_blocks(
            alloc,
            env.store,
            ROOT,
            table,
            index,
            blocks,
            transformer,
        )?;
        self.put_ready(found, order)
    }

    /// Reads blocks ahead, where none is ready, by as many reads as are made at a time.
    #[tactic(auto, using(crate::proofs::Bringings::adds_none, slate_types::proofs::Moves::moves_none, slate_types::proofs::Reaching::reads_none, slate_types::proofs::Calls::reads_at_none))]
    pub(crate) fn fill<S: Store, M: MergeOperator, T: BlockTransformer>(
        &mut self,
        alloc: Global,
        env: &mut Env<'_, S, M, T>,
        table: &SsTableHandle,
        order: IterationOrder,
        limits: FetchLimits,
    ) -> Result<(), SlateDBError>
        requires { self.old.first < self.old.stop }
        ensures moved { let reach = ⟦<EnvOf<S, M, T> as Outside>⟧.reach in OnOk result (Moves (rest_after table.now order) (IsSoundCursor table.now order) (refuses_behind table.now order) (reach env.old) (reach env.new) self.old self.new) }
        ensures cause { let reach = ⟦<EnvOf<S, M, T> as Outside>⟧.reach in IfErr result (λ e. IsFaultOr (refuses_behind table.now order) (reach env.old) (reach env.new) self.old None e) }
        ensures first { OnOk result (self.new.first ≡ self.old.first) }
        ensures stop { OnOk result (self.new.stop ≡ self.old.stop) }
        ensures rows { OnOk result (self.new.rows ≡ self.old.rows) }
        ensures some { OnOk result (0 < length self.new.ready.items) }
        ensures adds { let reach = ⟦<EnvOf<S, M, T> as Outside>⟧.reach in OnOk result (AddsNoneByCall (brings_behind table.now order) (refuses_behind table.now order) (reach env.old) (reach env.new) self.old self.new) }
        ensures within { let reach = ⟦<EnvOf<S, M, T> as Outside>⟧.reach in (paths : List (List ℕ)) → Contains paths (path_in table.now) → ReadsAt paths (reach env.old) (reach env.new) }
        ensures reads { let reach = ⟦<EnvOf<S, M, T> as Outside>⟧.reach in OnlyReads (reach env.old) (reach env.new) }
        ensures counts { let reach = ⟦<EnvOf<S, M, T> as Outside>⟧.reach in
            IsStill (reach env.old).faults (reach env.new).faults result }
    {
        if !self.ready.is_empty() {
            return Ok(());
        }
        self.read_ahead(alloc, env, table, order, limits.bytes)?;
        for _ in 1..limits.tasks {
            if self.ready.len() >= self.stop - self.first {
                return Ok(());
            }
            self.read_ahead(alloc, env, table, order, limits.bytes)?;
        }
        Ok(())
    }
}
