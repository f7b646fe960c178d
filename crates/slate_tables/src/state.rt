//! The state that tables fold to, row by row.
ghost use Rattle.std.specs.Prelude.{◌≡◌, ◌≤◌, ℕ, List, Some, false, OnOk, IfOk, IfErr};
ghost use Rattle.slate_types.specs.declared.error.SlateDBError.{SlateDBError};
ghost use Rattle.slate_types.specs.declared.types.RowEntry.{RowEntry};
ghost use Rattle.slate_types.specs.Keys.{is_refused};
ghost use Rattle.slate_types.specs.Outside.{IsStill, Objects, OnlyReads};
ghost use Rattle.slate_types.specs.Refusing.{IsDamage};
ghost use Rattle.slate_merge.specs.Merge.{all_rows};
ghost use Rattle.slate_tables.specs.Opened.{AreHeldTables};
ghost use Rattle.slate_tables.specs.States.{IsUnwrittenAnswer, IsUnwrittenPart, IsUnwrittenState};
ghost use Rattle.slate_tables.specs.States.{WritesAnswer, WritesExport, WritesPart, WritesRange};
ghost use Rattle.slate_tables.specs.States.{WritesState};

use crate::export::{Form, Written, write_found, write_rows};
use crate::merging::Export;
use crate::reader::Tables;
use slate_store::{Env, EnvOf, Sink, Store};
use slate_types::{
    BlockTransformer, BytesRange, IterationOrder, MergeOperator, Outside, RowEntryIterator,
    SlateDBError,
};
use std::alloc::Global;

/// Writes the state that the tables fold to: each key's row as the line of a `get`, keys rising.
///
/// If the store's objects are told and hold the tables, these are just the rows of that state, and
/// no damage is answered. Whatever the store answers, damage is answered only for what this call
/// read. It puts nothing. After an error a front of the lines was written.
pub fn write_state<S: Store, M: MergeOperator, T: BlockTransformer, W: Sink>(
    alloc: Global,
    tables: &Tables,
    env: &mut Env<'_, S, M, T>,
    sink: &mut W,
) -> Result<Written, SlateDBError>
    ensures honest { let reach = ⟦<EnvOf<S, M, T> as Outside>⟧.reach in
        (os : Objects) (lists : List (List RowEntry)) (before : List ℕ) →
        (reach env.old).objects ≡ Some os →
        AreHeldTables (reach env.old).meaning os tables.now.handles.items lists →
        W.content sink.old ≡ Some before →
        IfOk result (WritesState (reach env.old).meaning (all_rows lists) before
        (W.content sink.new)) }
    ensures undamaged { let reach = ⟦<EnvOf<S, M, T> as Outside>⟧.reach in
        (os : Objects) (lists : List (List RowEntry)) → (reach env.old).objects ≡ Some os →
        AreHeldTables (reach env.old).meaning os tables.now.handles.items lists →
        IfErr result (λ e. ¬ IsDamage e) }
    ensures cause { let reach = ⟦<EnvOf<S, M, T> as Outside>⟧.reach in
        let refuses = ⟦<Export as RowEntryIterator<EnvOf<S, M, T>>>⟧.refuses in
        IfErr result (IsUnwrittenState Form.State refuses tables.now.handles.items
        (W.faults sink.old) (W.faults sink.new) (reach env.old) (reach env.new)) }
    ensures reads { let reach = ⟦<EnvOf<S, M, T> as Outside>⟧.reach in
        OnlyReads (reach env.old) (reach env.new) }
    ensures counts { let reach = ⟦<EnvOf<S, M, T> as Outside>⟧.reach in
        IsStill (reach env.old).faults (reach env.new).faults result }
    ensures later { W.faults sink.old ≤ W.faults sink.new }
    ensures still { OnOk result (W.faults sink.new ≡ W.faults sink.old) }
{
    write_tables(alloc, Form::State, tables, env, sink)
}

/// Writes the rows in a range of the state that the tables fold to, in an order: of each key of the
/// range that has one its row, as the line of a `get`, keys rising or falling.
///
/// If the store's objects are told and hold the tables, these are just the rows of that state in
/// the range, and no damage is answered. It puts nothing. After an error a front of the lines was
/// written.
pub fn write_range<S: Store, M: MergeOperator, T: BlockTransformer, W: Sink>(
    alloc: Global,
    tables: &Tables,
    range: &BytesRange,
    order: IterationOrder,
    env: &mut Env<'_, S, M, T>,
    sink: &mut W,
) -> Result<Written, SlateDBError>
    requires range { is_refused range.now.start range.now.end ≡ false }
    ensures honest { let reach = ⟦<EnvOf<S, M, T> as Outside>⟧.reach in
        (os : Objects) (lists : List (List RowEntry)) (before : List ℕ) →
        (reach env.old).objects ≡ Some os →
        AreHeldTables (reach env.old).meaning os tables.now.handles.items lists →
        W.content sink.old ≡ Some before →
        IfOk result (WritesRange (reach env.old).meaning order range.now (all_rows lists) before
        (W.content sink.new)) }
    ensures undamaged { let reach = ⟦<EnvOf<S, M, T> as Outside>⟧.reach in
        (os : Objects) (lists : List (List RowEntry)) → (reach env.old).objects ≡ Some os →
        AreHeldTables (reach env.old).meaning os tables.now.handles.items lists →
        IfErr result (λ e. ¬ IsDamage e) }
    ensures cause { let reach = ⟦<EnvOf<S, M, T> as Outside>⟧.reach in
        let refuses = ⟦<Export as RowEntryIterator<EnvOf<S, M, T>>>⟧.refuses in
        IfErr result (IsUnwrittenPart Form.State refuses tables.now.handles.items range.now order
        (W.faults sink.old) (W.faults sink.new) (reach env.old) (reach env.new)) }
    ensures reads { let reach = ⟦<EnvOf<S, M, T> as Outside>⟧.reach in
        OnlyReads (reach env.old) (reach env.new) }
    ensures counts { let reach = ⟦<EnvOf<S, M, T> as Outside>⟧.reach in
        IsStill (reach env.old).faults (reach env.new).faults result }
    ensures later { W.faults sink.old ≤ W.faults sink.new }
    ensures still { OnOk result (W.faults sink.new ≡ W.faults sink.old) }
{
    write_part(alloc, Form::State, tables, range, order, env, sink)
}

/// Writes the row of a key in the state that the tables fold to, as the answer of a `get`: its line,
/// or `none`.
///
/// If the store's objects are told and hold the tables, it is just the row of that state, and no
/// damage is answered. It puts nothing. After an error a front of the line was written.
pub fn write_row_of<S: Store, M: MergeOperator, T: BlockTransformer, W: Sink>(
    alloc: Global,
    tables: &Tables,
    key: &[u8],
    env: &mut Env<'_, S, M, T>,
    sink: &mut W,
) -> Result<(), SlateDBError>
    ensures honest { let reach = ⟦<EnvOf<S, M, T> as Outside>⟧.reach in
        (os : Objects) (lists : List (List RowEntry)) (before : List ℕ) →
        (reach env.old).objects ≡ Some os →
        AreHeldTables (reach env.old).meaning os tables.now.handles.items lists →
        W.content sink.old ≡ Some before →
        OnOk result (WritesAnswer (reach env.old).meaning key.now (all_rows lists) before
        (W.content sink.new)) }
    ensures undamaged { let reach = ⟦<EnvOf<S, M, T> as Outside>⟧.reach in
        (os : Objects) (lists : List (List RowEntry)) → (reach env.old).objects ≡ Some os →
        AreHeldTables (reach env.old).meaning os tables.now.handles.items lists →
        IfErr result (λ e. ¬ IsDamage e) }
    ensures cause { let reach = ⟦<EnvOf<S, M, T> as Outside>⟧.reach in
        let refuses = ⟦<Export as RowEntryIterator<EnvOf<S, M, T>>>⟧.refuses in
        IfErr result (IsUnwrittenAnswer refuses tables.now.handles.items key.now
        (W.faults sink.old) (W.faults sink.new) (reach env.old) (reach env.new)) }
    ensures reads { let reach = ⟦<EnvOf<S, M, T> as Outside>⟧.reach in
        OnlyReads (reach env.old) (reach env.new) }
    ensures counts { let reach = ⟦<EnvOf<S, M, T> as Outside>⟧.reach in
        IsStill (reach env.old).faults (reach env.new).faults result }
    ensures later { W.faults sink.old ≤ W.faults sink.new }
    ensures still { OnOk result (W.faults sink.new ≡ W.faults sink.old) }
{
    match tables.get(alloc, key, env) {
        Ok(row) => write_found(alloc, row, sink),
        Err(error) => Err(error),
    }
}

/// Writes the rows of the state that the tables fold to in a form, keys rising.
pub(crate) fn write_tables<S: Store, M: MergeOperator, T: BlockTransformer, W: Sink>(
    alloc: Global,
    form: Form,
    tables: &Tables,
    env: &mut Env<'_, S, M, T>,
    sink: &mut W,
) -> Result<Written, SlateDBError>
    ensures honest { let reach = ⟦<EnvOf<S, M, T> as Outside>⟧.reach in
        (os : Objects) (lists : List (List RowEntry)) (before : List ℕ) →
        (reach env.old).objects ≡ Some os →
        AreHeldTables (reach env.old).meaning os tables.now.handles.items lists →
        W.content sink.old ≡ Some before →
        IfOk result (WritesExport form (reach env.old).meaning (all_rows lists) before
        (W.content sink.new)) }
    ensures undamaged { let reach = ⟦<EnvOf<S, M, T> as Outside>⟧.reach in
        (os : Objects) (lists : List (List RowEntry)) → (reach env.old).objects ≡ Some os →
        AreHeldTables (reach env.old).meaning os tables.now.handles.items lists →
        IfErr result (λ e. ¬ IsDamage e) }
    ensures cause { let reach = ⟦<EnvOf<S, M, T> as Outside>⟧.reach in
        let refuses = ⟦<Export as RowEntryIterator<EnvOf<S, M, T>>>⟧.refuses in
        IfErr result (IsUnwrittenState form refuses tables.now.handles.items
        (W.faults sink.old) (W.faults sink.new) (reach env.old) (reach env.new)) }
    ensures reads { let reach = ⟦<EnvOf<S, M, T> as Outside>⟧.reach in
        OnlyReads (reach env.old) (reach env.new) }
    ensures counts { let reach = ⟦<EnvOf<S, M, T> as Outside>⟧.reach in
        IsStill (reach env.old).faults (reach env.new).faults result }
    ensures later { W.faults sink.old ≤ W.faults sink.new }
    ensures still { OnOk result (W.faults sink.new ≡ W.faults sink.old) }
{
    let range = BytesRange::unbounded();
    write_part(
        alloc,
        form,
        tables,
        &range,
        IterationOrder::Ascending,
        env,
        sink,
    )
}

/// Writes the rows in a range of the state that the tables fold to, in a form and an order.
fn write_part<S: Store, M: MergeOperator, T: BlockTransformer, W: Sink>(
    alloc: Global,
    form: Form,
    tables: &Tables,
    range: &BytesRange,
    order: IterationOrder,
    env: &mut Env<'_, S, M, T>,
    sink: &mut W,
) -> Result<Written, SlateDBError>
    requires range { is_refused range.now.start range.now.end ≡ false }
    ensures honest { let reach = ⟦<EnvOf<S, M, T> as Outside>⟧.reach in
        (os : Objects) (lists : List (List RowEntry)) (before : List ℕ) →
        (reach env.old).objects ≡ Some os →
        AreHeldTables (reach env.old).meaning os tables.now.handles.items lists →
        W.content sink.old ≡ Some before →
        IfOk result (WritesPart form (reach env.old).meaning order range.now (all_rows lists)
        before (W.content sink.new)) }
    ensures undamaged { let reach = ⟦<EnvOf<S, M, T> as Outside>⟧.reach in
        (os : Objects) (lists : List (List RowEntry)) → (reach env.old).objects ≡ Some os →
        AreHeldTables (reach env.old).meaning os tables.now.handles.items lists →
        IfErr result (λ e. ¬ IsDamage e) }
    ensures cause { let reach = ⟦<EnvOf<S, M, T> as Outside>⟧.reach in
        let refuses = ⟦<Export as RowEntryIterator<EnvOf<S, M, T>>>⟧.refuses in
        IfErr result (IsUnwrittenPart form refuses tables.now.handles.items range.now order
        (W.faults sink.old) (W.faults sink.new) (reach env.old) (reach env.new)) }
    ensures reads { let reach = ⟦<EnvOf<S, M, T> as Outside>⟧.reach in
        OnlyReads (reach env.old) (reach env.new) }
    ensures counts { let reach = ⟦<EnvOf<S, M, T> as Outside>⟧.reach in
        IsStill (reach env.old).faults (reach env.new).faults result }
    ensures later { W.faults sink.old ≤ W.faults sink.new }
    ensures still { OnOk result (W.faults sink.new ≡ W.faults sink.old) }
{
    match tables.scan(alloc, range, order, env) {
        Ok(mut rows) => {
            let written = write_rows(alloc, form, &mut rows, env, sink);
            drop(rows);
            written
        }
        Err(error) => Err(error),
    }
}
