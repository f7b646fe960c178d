//! A reader of the tables of a store.
ghost use Rattle.std.specs.Prelude.{◌≡◌, ◌<◌, ◌≤◌, ◌⊎◌, ◌++◌, ◌∷◌, [], ℕ, List, Option, None, Some, Err};
ghost use Rattle.std.specs.Prelude.{false, length, slice_get, string_bytes, OnOk, IfOk, IfErr};
ghost use Rattle.slate_types.specs.declared.error.SlateDBError.{SlateDBError};
ghost use Rattle.slate_types.specs.declared.types.RowEntry.{RowEntry};
ghost use Rattle.slate_types.specs.Fold.{operator_at};
ghost use Rattle.slate_types.specs.Keys.{is_refused};
ghost use Rattle.slate_types.specs.Outside.{Act, IsFault, IsStill, Objects, OnlyReads};
ghost use Rattle.slate_types.specs.Refusing.{IsDamage, NoMore};
ghost use Rattle.slate_types.specs.World.{Checks, Made, Sees, World};
ghost use Rattle.slate_merge.specs.Merge.{all_rows};
ghost use Rattle.slate_read.specs.TableWalk.{root};
ghost use Rattle.slate_table.specs.Reading.{IsStoreFault};
ghost use Rattle.slate_table.specs.Stored.{stored};
ghost use Rattle.slate_txn.specs.Own.{only_key};
ghost use Rattle.slate_tables.specs.Exported.{IsExport, first_row};
ghost use Rattle.slate_tables.specs.Merging.{AreReadableTables, MatchEach, export_rows};
ghost use Rattle.slate_tables.specs.Merging.{export_sound};
ghost use Rattle.slate_tables.specs.Opened.{MayRefuse, WasOpened};
ghost use Rattle.slate_tables.specs.Reading.{IsRefusedRead, RefusesNew};

use crate::merging::{Export, merged, table_sources};
use bytes::Bytes;
use slate_store::{Env, EnvOf, Store};
use slate_table::{SsTableHandle, SstReader};
use slate_types::{
    BlockTransformer, BytesRange, IterationOrder, MergeOperator, Outside, RowEntry,
    RowEntryIterator, SlateDBError, Ulid,
};
use std::alloc::{AllocError, Global};
use std::ops::Bound;

/// The tables of a store, opened. Of each table its info is kept, and no rows.
#[derive(Drop)]
pub struct Tables {
    /// Oldest first.
    pub(crate) handles: Vec<SsTableHandle>,
}

impl Tables {
    /// Opens the tables of these ids, the oldest first, by three calls of the store each. They
    /// stand below the root `db`. `StoreFault`, only if the store's count of faults rose; what
    /// `SstReader::open` refuses one of them for; or `OutOfMemory`.
    pub fn open<S: Store, T: BlockTransformer>(
        alloc: Global,
        reader: &mut SstReader<S, T>,
        ids: &[Ulid],
    ) -> Result<Tables, SlateDBError>
        requires root { string_bytes reader.now.root_path ≡ root }
        ensures opened { IfOk result (λ tables.
            MatchEach (WasOpened (S.objects reader.old.store)) ids.now tables.handles.items) }
        ensures cause { IfErr result (λ e.
            IsStoreFault (S.faults reader.old.store) (S.faults reader.new.store) e
            ⊎ MayRefuse (S.objects reader.old.store) ids.now e) }
        ensures objects { S.objects reader.new.store ≡ S.objects reader.old.store }
        ensures root { reader.new.root_path ≡ reader.old.root_path }
        ensures transformer { reader.new.transformer ≡ reader.old.transformer }
        ensures later { S.faults reader.old.store ≤ S.faults reader.new.store }
        ensures still { (result ≡ Err SlateDBError.StoreFault)
            ⊎ (S.faults reader.new.store ≡ S.faults reader.old.store) }
    {
        let mut handles = Vec::new(alloc);
        let mut at = 0;
        while at < ids.len() {
            let id = id_at(ids, at);
            match open_handle(alloc, reader, &id) {
                Ok(handle) => handles.push(handle)?,
                Err(error) => return Err(error),
            }
            at += 1;
        }
        Ok(Tables { handles })
    }

    /// Returns the rows in a range, in an order: of each key the row that the rows of all tables
    /// fold to. The index of each table is read, and the first block that can hold keys of the
    /// range.
    ///
    /// In a world in which the tables are read, these are just the rows that they fold to, and no
    /// damage is answered. Else damage is answered only for what this call read.
    pub fn scan<S: Store, M: MergeOperator, T: BlockTransformer>(
        &self,
        alloc: Global,
        range: &BytesRange,
        order: IterationOrder,
        env: &mut Env<'_, S, M, T>,
    ) -> Result<Export, SlateDBError>
        requires range { is_refused range.now.start range.now.end ≡ false }
        ensures rows { let reach = ⟦<EnvOf<S, M, T> as Outside>⟧.reach in
            (w : World) (tables : List (List RowEntry)) →
            AreReadableTables w self.now.handles.items tables →
            Sees w (reach env.old) (reach env.new) → IfOk result (λ rows. export_sound rows w
            × IsExport (operator_at w.meaning.combine) order range.now (all_rows tables)
            (export_rows rows w)) }
        ensures checked { let reach = ⟦<EnvOf<S, M, T> as Outside>⟧.reach in
            (w : World) (tables : List (List RowEntry)) →
            AreReadableTables w self.now.handles.items tables →
            OnOk result (Checks w (reach env.old) (reach env.new)) }
        ensures undamaged { let reach = ⟦<EnvOf<S, M, T> as Outside>⟧.reach in
            (w : World) (tables : List (List RowEntry)) →
            AreReadableTables w self.now.handles.items tables →
            Sees w (reach env.old) (reach env.new) → IfErr result (λ e. ¬ IsDamage e) }
        ensures later { let reach = ⟦<EnvOf<S, M, T> as Outside>⟧.reach in
            let refuses = ⟦<Export as RowEntryIterator<EnvOf<S, M, T>>>⟧.refuses in
            IfOk result (λ rows. Made (reach env.old) (reach env.new) (λ reads.
            (more : List Act) (at : Option (List ℕ)) (e : SlateDBError) →
            refuses rows (reach env.old).meaning more at e →
            RefusesNew refuses self.now.handles.items range.now order (reach env.old).meaning
            (reads ++ more) at e)) }
        ensures cause { let reach = ⟦<EnvOf<S, M, T> as Outside>⟧.reach in
            let refuses = ⟦<Export as RowEntryIterator<EnvOf<S, M, T>>>⟧.refuses in
            IfErr result (IsRefusedRead refuses self.now.handles.items range.now order
            (reach env.old) (reach env.new)) }
        ensures reads { let reach = ⟦<EnvOf<S, M, T> as Outside>⟧.reach in
            OnlyReads (reach env.old) (reach env.new) }
        ensures counts { let reach = ⟦<EnvOf<S, M, T> as Outside>⟧.reach in
            IsStill (reach env.old).faults (reach env.new).faults result }
    {
        let sources = table_sources(alloc, self.handles.as_slice(), range, order)?;
        let rows = merged(alloc, sources, order);
        begin(alloc, rows, env)
    }

    /// Returns the row of a key: the one that the rows of all tables fold to. `None` if it has none,
    /// or was deleted. Of each table the index is read, and the blocks that can hold the key.
    ///
    /// In a world in which the tables are read, it is just that row, and no damage is answered.
    /// Else damage is answered only for what this call read.
    pub fn get<S: Store, M: MergeOperator, T: BlockTransformer>(
        &self,
        alloc: Global,
        key: &[u8],
        env: &mut Env<'_, S, M, T>,
    ) -> Result<Option<RowEntry>, SlateDBError>
        ensures row { let reach = ⟦<EnvOf<S, M, T> as Outside>⟧.reach in
            (w : World) (tables : List (List RowEntry)) →
            AreReadableTables w self.now.handles.items tables →
            Sees w (reach env.old) (reach env.new) → IfOk result (λ row.
            row ≡ stored (operator_at w.meaning.combine key.now) (all_rows tables) key.now) }
        ensures checked { let reach = ⟦<EnvOf<S, M, T> as Outside>⟧.reach in
            (w : World) (tables : List (List RowEntry)) →
            AreReadableTables w self.now.handles.items tables →
            OnOk result (Checks w (reach env.old) (reach env.new)) }
        ensures undamaged { let reach = ⟦<EnvOf<S, M, T> as Outside>⟧.reach in
            (w : World) (tables : List (List RowEntry)) →
            AreReadableTables w self.now.handles.items tables →
            Sees w (reach env.old) (reach env.new) → IfErr result (λ e. ¬ IsDamage e) }
        ensures cause { let reach = ⟦<EnvOf<S, M, T> as Outside>⟧.reach in
            let refuses = ⟦<Export as RowEntryIterator<EnvOf<S, M, T>>>⟧.refuses in
            IfErr result (IsRefusedRead refuses self.now.handles.items (only_key key.now)
            IterationOrder.Ascending (reach env.old) (reach env.new)) }
        ensures reads { let reach = ⟦<EnvOf<S, M, T> as Outside>⟧.reach in
            OnlyReads (reach env.old) (reach env.new) }
        ensures counts { let reach = ⟦<EnvOf<S, M, T> as Outside>⟧.reach in
            IsStill (reach env.old).faults (reach env.new).faults result }
    {
        let range = only_key(alloc, key)?;
        match self.scan(alloc, &range, IterationOrder::Ascending, env) {
            Ok(rows) => first_row(alloc, rows, env),
            Err(error) => Err(error),
        }
    }
}

/// Returns the range of one key.
fn only_key(alloc: Global, key: &[u8]) -> Result<BytesRange, AllocError>
    ensures range { IfOk result (λ range. range ≡ only_key key.now) }
    ensures some { IfOk result (λ range. is_refused range.start range.end ≡ false) }
{
    let start = Bytes::copy_from_slice(alloc, key)?;
    let end = start.clone()?;
    Ok(BytesRange {
        start: Bound::Included(start),
        end: Bound::Included(end),
    })
}

/// Takes the first row.
fn first_row<E: Outside, I: RowEntryIterator<E>>(
    alloc: Global,
    mut rows: I,
    env: &mut E,
) -> Result<Option<RowEntry>, SlateDBError>
    ensures row { (w : World) → Sees w (E.reach env.old) (E.reach env.new) → I.sound rows w →
        IfOk result (λ row. row ≡ first_row (I.rest rows w)) }
    ensures checked { (w : World) → I.sound rows w →
        OnOk result (Checks w (E.reach env.old) (E.reach env.new)) }
    ensures undamaged { (w : World) → Sees w (E.reach env.old) (E.reach env.new) → I.sound rows w →
        IfErr result (λ e. ¬ IsDamage e) }
    ensures read { IfOk result (λ _. Made (E.reach env.old) (E.reach env.new) (λ _. Unit {0})) }
    ensures cause { IfErr result (λ e. Made (E.reach env.old) (E.reach env.new) (λ reads.
        IsFault (E.reach env.old) (E.reach env.new) e
        ⊎ I.refuses rows (E.reach env.old).meaning reads None e)) }
    ensures reads { OnlyReads (E.reach env.old) (E.reach env.new) }
    ensures counts { IsStill (E.reach env.old).faults (E.reach env.new).faults result }
{
    let row = rows.next(alloc, env);
    drop(rows);
    row
}

/// Returns the id at a place.
fn id_at(ids: &[Ulid], at: usize) -> Ulid
    requires { at < length ids.now }
    ensures { slice_get ids.now at ≡ Some result }
{
    ids[at]
}

/// Opens one table.
fn open_handle<S: Store, T: BlockTransformer>(
    alloc: Global,
    reader: &mut SstReader<S, T>,
    id: &Ulid,
) -> Result<SsTableHandle, SlateDBError>
    requires { string_bytes reader.now.root_path ≡ root }
    ensures opened { IfOk result (WasOpened (S.objects reader.old.store) id.now) }
    ensures cause { IfErr result (λ e.
        IsStoreFault (S.faults reader.old.store) (S.faults reader.new.store) e
        ⊎ MayRefuse (S.objects reader.old.store) (id.now ∷ []) e) }
    ensures objects { S.objects reader.new.store ≡ S.objects reader.old.store }
    ensures root { reader.new.root_path ≡ reader.old.root_path }
    ensures transformer { reader.new.transformer ≡ reader.old.transformer }
    ensures later { S.faults reader.old.store ≤ S.faults reader.new.store }
    ensures still { (result ≡ Err SlateDBError.StoreFault)
        ⊎ (S.faults reader.new.store ≡ S.faults reader.old.store) }
{
    match reader.open(alloc, *id) {
        Ok(file) => Ok(file.handle),
        Err(error) => Err(error),
    }
}

/// Makes an iterator ready.
fn begin<E: Outside, I: RowEntryIterator<E>>(
    alloc: Global,
    mut rows: I,
    env: &mut E,
) -> Result<I, SlateDBError>
    ensures rows { (w : World) → Sees w (E.reach env.old) (E.reach env.new) → I.sound rows w →
        IfOk result (λ it. I.sound it w × (I.rest it w ≡ I.rest rows w)) }
    ensures checked { (w : World) → I.sound rows w →
        OnOk result (Checks w (E.reach env.old) (E.reach env.new)) }
    ensures undamaged { (w : World) → Sees w (E.reach env.old) (E.reach env.new) → I.sound rows w →
        IfErr result (λ e. ¬ IsDamage e) }
    ensures later { IfOk result (λ it. Made (E.reach env.old) (E.reach env.new) (λ reads.
        NoMore (I.refuses rows (E.reach env.old).meaning) reads
        (I.refuses it (E.reach env.old).meaning))) }
    ensures cause { IfErr result (λ e. Made (E.reach env.old) (E.reach env.new) (λ reads.
        IsFault (E.reach env.old) (E.reach env.new) e
        ⊎ I.refuses rows (E.reach env.old).meaning reads None e)) }
    ensures reads { OnlyReads (E.reach env.old) (E.reach env.new) }
    ensures counts { IsStill (E.reach env.old).faults (E.reach env.new).faults result }
{
    match rows.init(alloc, env) {
        Ok(()) => Ok(rows),
        Err(error) => Err(error),
    }
}
