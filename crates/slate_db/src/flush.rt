//! The tables of a flush, in a run for each segment.
ghost use Rattle.std.specs.Prelude.{◌≡◌, ◌≤◌, ◌<◌, ◌⊎◌, ◌∷◌, ◌++◌, ℕ, List, [], map, reverse, OnOk, OnErr, IfOk, IfErr, IsOkUnless, None};
ghost use Rattle.std.specs.List.{AllByRecursion};
ghost use Rattle.slate_types.specs.Config.{IsValid};
ghost use Rattle.slate_types.specs.Faults.{faults_of};
ghost use Rattle.slate_types.specs.Outside.{IsStoreStill, IsTransformerStill, Puts};
ghost use Rattle.slate_block.specs.ReadingLaws.{EachIsAByte};
ghost use Rattle.slate_filter.specs.Laws.{AreValidNames};
ghost use Rattle.slate_table.specs.InfoReading.{seen_info};
ghost use Rattle.slate_table.specs.SectionReading.{changed_by, IsTransformFault};
ghost use Rattle.slate_block.specs.BlockSpelling.{IsKnown};
ghost use Rattle.slate_table.specs.Table.{IsBuilt};
ghost use Rattle.slate_table.specs.TableEnd.{HasInfo};
ghost use Rattle.slate_table.specs.TableParts.{version_of};
ghost use Rattle.slate_table.specs.Parts.{Encode};
ghost use Rattle.slate_table.specs.Reading.{IsStoreFault};
ghost use Rattle.slate_db.specs.Answered.{AddsActs, AddsPuts};
ghost use Rattle.slate_db.specs.Flushed.{layout_of, CanFlush, IsTableAt, IsTooLarge, Layout, MayTakeTables, StandInRuns};
ghost use Rattle.slate_db.specs.StoredParts.{ArePartsPut, CanBuild, IsLastRun, IsOneTable, IsTablePut};
ghost use Rattle.slate_db.specs.Installs.{handles_of};
ghost use Rattle.slate_db.specs.Meaning.{segments_by};
ghost use Rattle.slate_db.specs.Model.{Rows};
ghost use Rattle.slate_db.specs.Calls.Store.{StoresParts, StoresRows, StoresTable};

use crate::cut::{TableRows, cut_tables};
use crate::gather::rows_of_flush;
use crate::laws::Laws;
use crate::lookup::are_bytes;
use bytes::Bytes;
use slate_filter::FilterPolicy;
use slate_mem::ImmutableMemtable;
use slate_read::SortedRun;
use slate_store::{Env, EnvOf, Store};
use slate_table::{
    EncodedSsTable, EncodedSsTableBuilder, SsTableFormat, SsTableHandle, TableStore,
};
use slate_txn::TableList;
use slate_types::{
    BlockTransformer, MergeOperator, Outside, PrefixExtractor, RowEntry, SlateDBError, Ulid,
};
use std::alloc::Global;

/// The folder of the store's objects.
pub const ROOT: &str = "db";

/// Stores the rows of memtables, of which the newest stands last, as the tables of the flush with
/// this number, and gives what an install names, and the runs in which they stand: neighbouring
/// tables of one segment make a run. They are put from the last one to the first.
///
/// `StoreFault`, `BlockTransformError` and `Callback`, each only where its count of faults rose;
/// `MergeOperatorMissing` where one of the rows is an operand and there is no operator;
/// `LimitReached` where a table would have too many blocks; or `OutOfMemory`. Then the store is as
/// it was, or has some last of the tables: the first one only where it has all.
pub fn stored<S: Store, M: MergeOperator, T: BlockTransformer, X: PrefixExtractor>(
    alloc: Global,
    frozen: &[ImmutableMemtable],
    barrier: u64,
    number: u64,
    laws: &Laws<X>,
    env: &mut Env<'_, S, M, T>,
) -> Result<(TableList, Vec<SortedRun>), SlateDBError>
    requires valid { IsValid laws.now.options }
    requires names { AreValidNames (map (λ p. (meaning p).name) laws.now.policies.items) }
    requires ready { CanFlush (map (λ t. t.rows) frozen.now) }
    ensures { let reach = ⟦<EnvOf<S, M, T> as Outside>⟧.reach in
        let policies = map (λ p. meaning p) laws.now.policies.items in
        let layout = layout_of laws.now.options policies (segments_by X.lengths laws.now.segments)
        in
        let layers = map (λ t. t.rows) frozen.now in
        StoresRows layout number barrier layers (reach env.old) (reach env.new) result }
{
    let rows = rows_of_flush(alloc, frozen, barrier, &mut env.operator)?;
    let parts = cut_tables(alloc, rows, laws.options.table_bytes, &laws.segments)?;
    stored_runs(alloc, number, parts, laws, env)
}

/// A table that is stored.
#[derive(Drop)]
struct StoredTable {
    /// The prefix of its segment.
    prefix: Bytes,
    /// What an install names.
    table: (Ulid, Bytes),
    /// What is kept of it.
    handle: SsTableHandle,
}

/// Stores a table of each of these lists of rows, from the last one to the first, in a run for each
/// row of neighbouring lists of one prefix.
fn stored_runs<S: Store, M: MergeOperator, T: BlockTransformer, X: PrefixExtractor>(
    alloc: Global,
    number: u64,
    parts: Vec<TableRows>,
    laws: &Laws<X>,
    env: &mut Env<'_, S, M, T>,
) -> Result<(TableList, Vec<SortedRun>), SlateDBError>
    requires valid { IsValid laws.now.options }
    requires names { AreValidNames (map (λ p. (meaning p).name) laws.now.policies.items) }
    requires each { AllByRecursion CanBuild (map (λ t. t.rows.items) parts.items) }
    ensures stored { let reach = ⟦<EnvOf<S, M, T> as Outside>⟧.reach in
        let policies = map (λ p. meaning p) laws.now.policies.items in
        let layout = layout_of laws.now.options policies (segments_by X.lengths laws.now.segments)
        in
        let lists = map (λ t. t.rows.items) parts.items in
        IfOk result (λ a. ArePartsPut (reach env.old).meaning.encode layout number lists a.0
        (handles_of a.1.items) (reach env.old).objects (reach env.new).objects) }
    ensures acts { let reach = ⟦<EnvOf<S, M, T> as Outside>⟧.reach in
        IfOk result (λ a. AddsPuts a.0 (reach env.old).acts (reach env.new).acts) }
    ensures stand { IfOk result (λ a. StandInRuns (map (λ t. t.prefix) parts.items) a.1.items) }
    ensures leaves { let reach = ⟦<EnvOf<S, M, T> as Outside>⟧.reach in
        let policies = map (λ p. meaning p) laws.now.policies.items in
        let layout = layout_of laws.now.options policies (segments_by X.lengths laws.now.segments)
        in
        let lists = map (λ t. t.rows.items) parts.items in
        StoresParts layout number lists (reach env.old) (reach env.new)
        (env.new.operator ≡ env.old.operator) result }
{
    let stored = stored_tables(alloc, number, parts, laws, env)?;
    in_runs(alloc, stored)
}

/// Stores a table of each of these lists of rows, from the last one to the first: so tables of a
/// flush of which the first stands are whole. What is stored stands in the order of the puts.
fn stored_tables<S: Store, M: MergeOperator, T: BlockTransformer, X: PrefixExtractor>(
    alloc: Global,
    number: u64,
    parts: Vec<TableRows>,
    laws: &Laws<X>,
    env: &mut Env<'_, S, M, T>,
) -> Result<Vec<StoredTable>, SlateDBError>
    requires valid { IsValid laws.now.options }
    requires names { AreValidNames (map (λ p. (meaning p).name) laws.now.policies.items) }
    requires each { AllByRecursion CanBuild (map (λ t. t.rows.items) parts.items) }
    ensures stored { let reach = ⟦<EnvOf<S, M, T> as Outside>⟧.reach in
        let policies = map (λ p. meaning p) laws.now.policies.items in
        let layout = layout_of laws.now.options policies (segments_by X.lengths laws.now.segments)
        in
        let lists = map (λ t. t.rows.items) parts.items in
        IfOk result (λ a. ArePartsPut (reach env.old).meaning.encode layout number lists
        (map (λ t. t.table) (reverse a.items)) (map (λ t. t.handle) (reverse a.items))
        (reach env.old).objects (reach env.new).objects) }
    ensures acts { let reach = ⟦<EnvOf<S, M, T> as Outside>⟧.reach in
        IfOk result (λ a. AddsPuts (map (λ t. t.table) (reverse a.items)) (reach env.old).acts
        (reach env.new).acts) }
    ensures prefixes { IfOk result (λ a. map (λ t. t.prefix) (reverse a.items)
        ≡ map (λ t. t.prefix) parts.items) }
    ensures leaves { let reach = ⟦<EnvOf<S, M, T> as Outside>⟧.reach in
        let policies = map (λ p. meaning p) laws.now.policies.items in
        let layout = layout_of laws.now.options policies (segments_by X.lengths laws.now.segments)
        in
        let lists = map (λ t. t.rows.items) parts.items in
        StoresParts layout number lists (reach env.old) (reach env.new)
        (env.new.operator ≡ env.old.operator) result }
{
    let mut left = parts;
    let mut stored = Vec::with_capacity(alloc, left.len())?;
    while let Some(part) = left.pop() {
        let id = Ulid(number as u128 * 18446744073709551616 + left.len() as u128);
        let (table, handle) = stored_table(alloc, id, part.rows, laws, env)?;
        let prefix = part.prefix;
        stored.push_reserved(StoredTable {
            prefix,
            table,
            handle,
        });
    }
    Ok(stored)
}

/// What an install names of these tables, of which the first stands last, and their runs. The one
/// error is `OutOfMemory`.
fn in_runs(
    alloc: Global,
    stored: Vec<StoredTable>,
) -> Result<(TableList, Vec<SortedRun>), SlateDBError>
    ensures tables { IfOk result (λ a. a.0 ≡ map (λ t. t.table) (reverse stored.items)) }
    ensures handles { IfOk result (λ a. handles_of a.1.items
        ≡ map (λ t. t.handle) (reverse stored.items)) }
    ensures stand { IfOk result (λ a. StandInRuns (map (λ t. t.prefix) (reverse stored.items))
        a.1.items) }
    ensures cause { IsOkUnless result SlateDBError.OutOfMemory }
{
    let mut left = stored;
    let mut tables = Vec::with_capacity(alloc, left.len())?;
    let mut runs = Vec::new(alloc);
    while let Some(next) = left.pop() {
        tables.push_reserved(next.table);
        add_table(alloc, &mut runs, next.prefix, next.handle)?;
    }
    Ok((TableList::from_vec(tables), runs))
}

/// Adds what is kept of a table, of a segment with this prefix, to the last run where that is of the segment, and else to a
/// run of its own behind it. The one error is `OutOfMemory`.
fn add_table(
    alloc: Global,
    runs: &mut Vec<SortedRun>,
    prefix: Bytes,
    table: SsTableHandle,
) -> Result<(), SlateDBError>
    ensures handles { OnOk result (handles_of runs.new.items ≡ handles_of runs.old.items ++ table ∷ []) }
    ensures stand { (prefixes : List (List ℕ)) → StandInRuns prefixes runs.old.items → OnOk result (StandInRuns (prefixes ++ prefix ∷ []) runs.new.items) }
    ensures cause { IsOkUnless result SlateDBError.OutOfMemory }
{
    let mut run = last_run(alloc, runs, prefix);
    run.tables.push(table)?;
    runs.push(run)?;
    Ok(())
}

/// Takes the last run out where it has this prefix, and else makes one without tables.
fn last_run(alloc: Global, runs: &mut Vec<SortedRun>, prefix: Bytes) -> SortedRun
    ensures { IsLastRun prefix runs.old.items runs.new.items result }
{
    match runs.pop() {
        Some(run) => {
            if run.prefix == prefix {
                return run;
            }
            runs.push_reserved(run);
        }
        None => {}
    }
    let tables = Vec::new(alloc);
    SortedRun { prefix, tables }
}

/// Stores a table of these rows under this id, and gives what an install names and what is kept of it.
fn stored_table<S: Store, M: MergeOperator, T: BlockTransformer, X: PrefixExtractor>(
    alloc: Global,
    id: Ulid,
    rows: Vec<RowEntry>,
    laws: &Laws<X>,
    env: &mut Env<'_, S, M, T>,
) -> Result<((Ulid, Bytes), SsTableHandle), SlateDBError>
    requires valid { IsValid laws.now.options }
    requires names { AreValidNames (map (λ p. (meaning p).name) laws.now.policies.items) }
    requires ready { CanBuild rows.items }
    ensures { let reach = ⟦<EnvOf<S, M, T> as Outside>⟧.reach in
        let policies = map (λ p. meaning p) laws.now.policies.items in
        let layout = layout_of laws.now.options policies (segments_by X.lengths laws.now.segments)
        in
        StoresTable layout id rows.items (reach env.old) (reach env.new)
        (env.new.operator ≡ env.old.operator) result }
{
    let table = built(alloc, id, rows, laws, &mut env.transformer)?;
    let kept = put(alloc, id, &table, env.store);
    drop(table);
    kept
}

/// Puts the table of an id, and gives what an install names and what is kept of it.
fn put<S: Store>(
    alloc: Global,
    id: Ulid,
    table: &EncodedSsTable,
    store: &mut S,
) -> Result<((Ulid, Bytes), SsTableHandle), SlateDBError>
    requires { table.now.id.0 ≡ id.0 }
    ensures stored { (encode : Encode) (layout : Layout) (number place : ℕ) (rows : Rows) → IsTableAt encode layout number place rows (id, table.now.bytes) → IsKnown layout.version → table.now.version ≡ layout.version → HasInfo table.now.bytes layout.version id.0 (seen_info table.now.info)
        → IfOk result (λ a. IsTablePut encode layout number place rows a.0 a.1 (S.objects store.old) (S.objects store.new)) }
    ensures acts { IfOk result (λ a. AddsPuts (a.0 ∷ []) (S.acts store.old) (S.acts store.new)) }
    ensures adds { AddsActs (S.acts store.old) (S.acts store.new) }
    ensures refused { (encode : Encode) (layout : Layout) (number place : ℕ) (rows : Rows) → IsTableAt encode layout number place rows (id, table.now.bytes) → OnErr result (MayTakeTables (IsOneTable encode layout number place rows) (S.objects store.old) (S.objects store.new)) }
    ensures cause { IfErr result (λ e. IsStoreFault (S.faults store.old) (S.faults store.new) e) }
    ensures later { S.faults store.old ≤ S.faults store.new }
    ensures still { IsStoreStill (S.faults store.old) (S.faults store.new) result }
{
    let bytes = bytes_of(table)?;
    let handle = TableStore::put_table(alloc, store, ROOT, id, table)?;
    Ok(((id, bytes), handle))
}

/// The bytes of a table.
fn bytes_of(table: &EncodedSsTable) -> Result<Bytes, SlateDBError>
    ensures bytes { IfOk result (λ bytes. (bytes ≡ table.now.bytes) × EachIsAByte bytes) }
    ensures cause { IsOkUnless result SlateDBError.OutOfMemory }
{
    let bytes = table.remaining_as_bytes()?;
    are_bytes(bytes.as_slice());
    Ok(bytes)
}

/// The table of an id and of these rows, with the filters of the policies. `BlockTransformError`, only where the transformer's count of faults
/// rose; `LimitReached` where the table would have too many blocks; or `OutOfMemory`.
pub fn built<T: BlockTransformer, X: PrefixExtractor>(
    alloc: Global,
    id: Ulid,
    rows: Vec<RowEntry>,
    laws: &Laws<X>,
    transformer: &mut Option<T>,
) -> Result<EncodedSsTable, SlateDBError>
    requires valid { IsValid laws.now.options }
    requires names { AreValidNames (map (λ p. (meaning p).name) laws.now.policies.items) }
    requires ready { CanBuild rows.items }
    ensures built { IfOk result (λ table. IsBuilt (changed_by T.encoded transformer.old) (map (λ p. meaning p) laws.now.policies.items) laws.now.options.min_filter_keys laws.now.options.block_size (version_of laws.now.options.block_format) id.0 table.bytes rows.items) }
    ensures version { IfOk result (λ table. table.version ≡ version_of laws.now.options.block_format) }
    ensures id { IfOk result (λ table. table.id.0 ≡ id.0) }
    ensures info { IfOk result (λ table. HasInfo table.bytes (version_of laws.now.options.block_format) id.0 (seen_info table.info)) }
    ensures cause { IfErr result (λ e. IsTransformFault (faults_of T.faults transformer.old) (faults_of T.faults transformer.new) e ⊎ IsTooLarge (layout_of laws.now.options (map (λ p. meaning p) laws.now.policies.items) (segments_by X.lengths laws.now.segments)) rows.items e) }
    ensures same_encoded { changed_by T.encoded transformer.new ≡ changed_by T.encoded transformer.old }
    ensures same_decoded { changed_by T.decoded transformer.new ≡ changed_by T.decoded transformer.old }
    ensures later { faults_of T.faults transformer.old ≤ faults_of T.faults transformer.new }
    ensures still { IsTransformerStill (faults_of T.faults transformer.old) (faults_of T.faults transformer.new) result }
{
    let options = &laws.options;
    let format = SsTableFormat {
        block_size: options.block_size,
        min_filter_keys: options.min_filter_keys,
        block_format: options.block_format,
        compression_codec: options.compression_codec,
    };
    let mut builder = EncodedSsTableBuilder::new(alloc, &format, id)?;
    for row in rows {
        builder.add(alloc, row, transformer)?;
    }
    builder.build(alloc, transformer, laws.policies.as_slice())
}
