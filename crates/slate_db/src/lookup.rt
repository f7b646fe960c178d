//! The rows of a key in stored tables, newest first, to the first that decides.
ghost use Rattle.std.specs.Prelude.{◌≡◌, ◌⊎◌, ◌≤◌, ◌<◌, ◌++◌, ℕ, List, length, map, flat_map, false, Ok, Some, Contains, IfOk, IfErr, IsOkUnless};
ghost use Rattle.std.specs.List.{AllByRecursion};
ghost use Rattle.slate_types.specs.declared.error.SlateDBError.{SlateDBError};
ghost use Rattle.slate_types.specs.declared.filter_policy.PrefixTarget.{PrefixTarget};
ghost use Rattle.slate_types.specs.declared.iter.IterationOrder.{IterationOrder};
ghost use Rattle.slate_types.specs.declared.types.RowEntry.{RowEntry};
ghost use Rattle.slate_types.specs.Iteration.{IsInOrder};
ghost use Rattle.slate_types.specs.Partitions.{CanHold};
ghost use Rattle.slate_block.specs.declared.block.Block.{Block};
ghost use Rattle.slate_block.specs.BlockSpelling.{IsBlockOf};
ghost use Rattle.slate_block.specs.BlockWalks.{left, Refuses};
ghost use Rattle.slate_block.specs.EitherVersion.{left_of};
ghost use Rattle.slate_block.specs.ReadingLaws.{EachIsAByte};
ghost use Rattle.slate_mem.specs.Table.{newest};
ghost use Rattle.slate_table.specs.declared.info.SsTableHandle.{SsTableHandle};
ghost use Rattle.slate_table.specs.Filtered.{point_query};
ghost use Rattle.slate_table.specs.Finding.{encloses, AreBlocksOf};
ghost use Rattle.slate_table.specs.IndexReading.{index_keys};
ghost use Rattle.slate_table.specs.IndexValue.{entries_of};
ghost use Rattle.slate_table.specs.InfoReading.{seen_info};
ghost use Rattle.slate_db.specs.Installs.{handles_of};
ghost use Rattle.slate_mem.specs.Lookup.{IsRowUpTo, newest_first};
ghost use Rattle.slate_db.specs.Lookup.{IsUnknown};
ghost use Rattle.slate_db.specs.Model.{Rows};
ghost use Rattle.slate_db.specs.Shown.{Asking, IsRowOf, IsUnreadable, RefusesRow};
ghost use Rattle.slate_db.specs.Calls.Find.{FindsBehindFilters, FindsInTable, FindsRows, FiltersLetThrough};

use crate::flush::ROOT;
use crate::open_scan::copy_contexts;
use bytes::Bytes;
use slate_block::{Block, DataBlockIterator};
use slate_filter::FilterPolicy;
use slate_mem::lookup::{is_decided, newest_of_memory, newest_of_walk};
use slate_mem::{ImmutableMemtable, MemTable};
use slate_read::SortedRun;
use slate_store::{Env, EnvOf, Store};
use slate_table::{SsTableHandle, SsTableInfo, SstIndex, TableStore};
use slate_types::{
    BlockTransformer, FilterContext, FilterQuery, IterationOrder, MergeOperator, Outside, RowEntry,
    RowEntryIterator, SlateDBError, compare_keys, partitions_covering_range,
};
use std::alloc::Global;
use std::ops::{Bound, Range};

/// Whether the key stands between the first and the last key of a table.
fn encloses(info: &SsTableInfo, key: &[u8]) -> bool
    ensures { result ≡ encloses (seen_info info.now) key.now }
{
    match (&info.first_entry, &info.last_entry) {
        (Some(first), Some(last)) => {
            compare_keys(first.as_slice(), key).is_le()
                && compare_keys(key, last.as_slice()).is_le()
        }
        _ => false,
    }
}

/// The blocks that can hold the key.
#[tactic(auto, using(crate::proofs::Walks::not_past_itself, crate::proofs::Walks::point_holds))]
fn covering(index: &SstIndex, key: &[u8]) -> Range<usize>
    ensures order { result.start ≤ result.end }
    ensures within { result.end ≤ length (entries_of index.now) }
    ensures each { (i : ℕ) → CanHold (index_keys (entries_of index.now)) i key.now → (result.start ≤ i) × (i < result.end) }
{
    partitions_covering_range(index, Bound::Included(key), Bound::Included(key))
}

/// The numbers of a slice of bytes are bytes.
pub(crate) fn are_bytes(bytes: &[u8])
    ensures { EachIsAByte bytes.now }
{}

/// The rows of the key in a block.
fn newest_of_block(
    alloc: Global,
    block: Block,
    version: u16,
    key: &[u8],
    max_seq: u64,
) -> Result<Vec<RowEntry>, SlateDBError>
    ensures found { (rows : List RowEntry) → IsBlockOf block.body block.offsets.items version rows → IsInOrder IterationOrder.Ascending rows → IfOk result (λ found. found.items ≡ newest key.now max_seq rows) }
    ensures whole { (rows : List RowEntry) → IsBlockOf block.body block.offsets.items version rows → IsInOrder IterationOrder.Ascending rows → IfErr result (λ e. e ≡ SlateDBError.OutOfMemory) }
    ensures asked { IfOk result (λ found. AllByRecursion (IsRowUpTo key.now max_seq) found.items) }
    ensures rows { IfOk result (λ found. AllByRecursion (IsRowOf version block) found.items) }
    ensures cause { IfErr result (λ e. (e ≡ SlateDBError.OutOfMemory) ⊎ (IsUnreadable e × RefusesRow version block e) ⊎ IsUnknown version e) }
{
    are_bytes(block.body.as_slice());
    let mut rows = DataBlockIterator::new(alloc, block, version, IterationOrder::Ascending)?;
    let found = newest_from(alloc, &mut rows, key, max_seq);
    drop(rows);
    found
}

/// The rows of the key in what is left of a block.
fn newest_from(
    alloc: Global,
    rows: &mut DataBlockIterator<Block>,
    key: &[u8],
    max_seq: u64,
) -> Result<Vec<RowEntry>, SlateDBError>
    ensures found { (all : List RowEntry) → left (left_of rows.old) ≡ Ok all → (left_of rows.old).order ≡ IterationOrder.Ascending → IsInOrder IterationOrder.Ascending all → IfOk result (λ found. found.items ≡ newest key.now max_seq all) }
    ensures whole { (all : List RowEntry) → left (left_of rows.old) ≡ Ok all → IfErr result (λ e. e ≡ SlateDBError.OutOfMemory) }
    ensures asked { IfOk result (λ found. AllByRecursion (IsRowUpTo key.now max_seq) found.items) }
    ensures rows { IfOk result (λ found. AllByRecursion (λ r. Contains (left_of rows.old).reads (Ok r)) found.items) }
    ensures cause { IfErr result (λ e. (e ≡ SlateDBError.OutOfMemory) ⊎ Refuses (left_of rows.old).reads e) }
{
    rows.seek(alloc, key, &mut ())?;
    newest_of_walk(alloc, rows, key, max_seq)
}

/// The rows of the key in neighbouring blocks.
fn newest_of_blocks(
    alloc: Global,
    blocks: Vec<Block>,
    version: u16,
    key: &[u8],
    max_seq: u64,
) -> Result<Vec<RowEntry>, SlateDBError>
    ensures found { (lists : List Rows) → AreBlocksOf version blocks.items lists → AllByRecursion (IsInOrder IterationOrder.Ascending) lists → IfOk result (λ found. found.items ≡ newest key.now max_seq (flat_map (λ rows. rows) lists)) }
    ensures whole { (lists : List Rows) → AreBlocksOf version blocks.items lists → AllByRecursion (IsInOrder IterationOrder.Ascending) lists → IfErr result (λ e. e ≡ SlateDBError.OutOfMemory) }
    ensures asked { IfOk result (λ found. AllByRecursion (IsRowUpTo key.now max_seq) found.items) }
    ensures rows { IfOk result (λ found. AllByRecursion (λ r. (block : Block) × Contains blocks.items block × IsRowOf version block r) found.items) }
    ensures cause { IfErr result (λ e. (e ≡ SlateDBError.OutOfMemory) ⊎ ((block : Block) × Contains blocks.items block × IsUnreadable e × RefusesRow version block e) ⊎ IsUnknown version e) }
{
    let mut found = Vec::new(alloc);
    for block in blocks {
        let mut more = newest_of_block(alloc, block, version, key, max_seq)?;
        found.append(&mut more)?;
        if is_decided(&found) {
            return Ok(found);
        }
    }
    Ok(found)
}

/// The question of a get to the filters of tables.
pub fn query_of(key: &Bytes, context: &Option<FilterContext>) -> Result<FilterQuery, SlateDBError>
    ensures query { IfOk result (λ query. query ≡ point_query key.now context.now) }
    ensures cause { IsOkUnless result SlateDBError.OutOfMemory }
{
    let context = copy_contexts(context)?;
    match key.clone() {
        Ok(key) => Ok(FilterQuery::point(key).with_context(context)),
        Err(error) => {
            drop(context);
            Err(SlateDBError::from(error))
        }
    }
}

/// Whether the filters of a table let the query through.
fn lets_through<S: Store, M: MergeOperator, T: BlockTransformer>(
    alloc: Global,
    table: &SsTableHandle,
    policies: &[Box<dyn FilterPolicy>],
    query: &FilterQuery,
    env: &mut Env<'_, S, M, T>,
) -> Result<bool, SlateDBError>
    ensures { let reach = ⟦<EnvOf<S, M, T> as Outside>⟧.reach in
        let by : Asking = record { policies = map (λ p. meaning p) policies.now; query = query.now } in
        FiltersLetThrough by table.now (reach env.old) (reach env.new) result }
{
    TableStore::might_match(
        alloc,
        env.store,
        ROOT,
        table,
        policies,
        query,
        &mut env.transformer,
    )
}

/// The rows of the key in a table that encloses it.
fn newest_of_enclosing<S: Store, M: MergeOperator, T: BlockTransformer>(
    alloc: Global,
    table: &SsTableHandle,
    key: &[u8],
    max_seq: u64,
    env: &mut Env<'_, S, M, T>,
) -> Result<Vec<RowEntry>, SlateDBError>
    ensures { let reach = ⟦<EnvOf<S, M, T> as Outside>⟧.reach in
        FindsInTable table.now key.now max_seq (reach env.old) (reach env.new) result }
{
    let index = TableStore::read_index(alloc, env.store, ROOT, table, &mut env.transformer)?;
    let covered = covering(&index, key);
    if covered.start >= covered.end {
        drop(index);
        return Ok(Vec::new(alloc));
    }
    let blocks = TableStore::read_blocks(
        alloc,
        env.store,
        ROOT,
        table,
        &index,
        covered,
        &mut env.transformer,
    )?;
    newest_of_blocks(alloc, blocks, table.format_version, key, max_seq)
}

/// The rows of the key in a table, none where its filters deny the query, which is for the key. Then nothing else of it is read.
fn newest_of_table<S: Store, M: MergeOperator, T: BlockTransformer>(
    alloc: Global,
    table: &SsTableHandle,
    key: &[u8],
    max_seq: u64,
    policies: &[Box<dyn FilterPolicy>],
    query: &FilterQuery,
    env: &mut Env<'_, S, M, T>,
) -> Result<Vec<RowEntry>, SlateDBError>
    requires { query.now.target ≡ PrefixTarget.Point key.now }
    ensures { let reach = ⟦<EnvOf<S, M, T> as Outside>⟧.reach in
        let by : Asking = record { policies = map (λ p. meaning p) policies.now; query = query.now } in
        FindsBehindFilters by table.now key.now max_seq (reach env.old) (reach env.new) result }
{
    if !encloses(&table.info, key) {
        return Ok(Vec::new(alloc));
    }
    let passes = lets_through(alloc, table, policies, query, env)?;
    if !passes {
        let none = Vec::new(alloc);
        return Ok(none);
    }
    newest_of_enclosing(alloc, table, key, max_seq, env)
}

/// The rows of the key in memory, behind a reader's own.
pub(crate) fn newest_behind(
    alloc: Global,
    own: Vec<RowEntry>,
    active: &MemTable,
    frozen: &[ImmutableMemtable],
    key: &Bytes,
    max_seq: u64,
) -> Result<Vec<RowEntry>, SlateDBError>
    ensures found { IfOk result (λ all. all.items ≡ own.items ++ newest key.now max_seq (active.now.rows ++ newest_first (map (λ t. t.rows) frozen.now))) }
    ensures cause { IsOkUnless result SlateDBError.OutOfMemory }
{
    let mut found = newest_of_memory(alloc, active, frozen, key, max_seq)?;
    if own.is_empty() {
        return Ok(found);
    }
    let mut all = own;
    all.append(&mut found)?;
    Ok(all)
}

/// Adds the rows of the key in stored tables, of which the newest stands last, behind those that were found in newer layers, and
/// these behind own operands. Where the store holds the tables, or its acts tell that each read of this call was answered by them,
/// damage isn't answered. Else it is answered only where the last reads of this call show it, of the filters of a table, of its index, or of its blocks.
fn newest_of_tables<S: Store, M: MergeOperator, T: BlockTransformer>(
    alloc: Global,
    newer: Vec<RowEntry>,
    tables: &[SsTableHandle],
    key: &[u8],
    max_seq: u64,
    policies: &[Box<dyn FilterPolicy>],
    query: &FilterQuery,
    env: &mut Env<'_, S, M, T>,
) -> Result<Vec<RowEntry>, SlateDBError>
    requires { query.now.target ≡ PrefixTarget.Point key.now }
    ensures { let reach = ⟦<EnvOf<S, M, T> as Outside>⟧.reach in
        let by : Asking = record { policies = map (λ p. meaning p) policies.now; query = query.now } in
        FindsRows by tables.now key.now max_seq newer.items (reach env.old) (reach env.new) result }
{
    let mut found = newer;
    let mut i = tables.len();
    while i > 0 && !is_decided(&found) {
        i -= 1;
        let mut more = newest_of_table(alloc, &tables[i], key, max_seq, policies, query, env)?;
        found.append(&mut more)?;
    }
    Ok(found)
}

/// Adds the rows of the key in runs of stored tables, of which the newest stands last, as `newest_of_tables` does those in tables.
/// No call is made of a table that doesn't enclose the key.
pub fn newest_of_runs<S: Store, M: MergeOperator, T: BlockTransformer>(
    alloc: Global,
    newer: Vec<RowEntry>,
    runs: &[SortedRun],
    key: &[u8],
    max_seq: u64,
    policies: &[Box<dyn FilterPolicy>],
    query: &FilterQuery,
    env: &mut Env<'_, S, M, T>,
) -> Result<Vec<RowEntry>, SlateDBError>
    requires { query.now.target ≡ PrefixTarget.Point key.now }
    ensures { let reach = ⟦<EnvOf<S, M, T> as Outside>⟧.reach in
        let by : Asking = record { policies = map (λ p. meaning p) policies.now; query = query.now } in
        FindsRows by (handles_of runs.now) key.now max_seq newer.items (reach env.old) (reach
        env.new) result }
{
    let mut found = newer;
    let mut at = runs.len();
    while at > 0 && !is_decided(&found) {
        at -= 1;
        found = newest_of_tables(
            alloc,
            found,
            runs[at].tables.as_slice(),
            key,
            max_seq,
            policies,
            query,
            env,
        )?;
    }
    Ok(found)
}
