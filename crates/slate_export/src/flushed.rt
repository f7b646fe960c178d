//! The state at the last flush of a run, exported of the tables that the run left.
ghost use Rattle.std.specs.Prelude.{◌≡◌, ℕ, List, Some, IfOk};
ghost use Rattle.slate_types.specs.declared.types.Ulid.{Ulid};
ghost use Rattle.slate_txn.specs.State.{Rules, State};
ghost use Rattle.slate_db.specs.Flushed.{Layout};
ghost use Rattle.slate_export.specs.Flushed.{LeftTables, MovesFlushed, WritesFlushed};

use slate_store::{Env, EnvOf, Sink, Store};
use slate_tables::{Tables, Written, write_script, write_state};
use slate_types::{BlockTransformer, MergeOperator, Outside, SlateDBError};
use std::alloc::Global;

/// Writes the state that the tables fold to, as `write_state` does. If these are the tables that a
/// run left, which answered `Ok`, it is the model's state at the run's last flush.
pub fn write_flushed_state<S: Store, M: MergeOperator, T: BlockTransformer, W: Sink>(
    alloc: Global,
    tables: &Tables,
    env: &mut Env<'_, S, M, T>,
    sink: &mut W,
) -> Result<Written, SlateDBError>
    ensures flushed { let reach = ⟦<EnvOf<S, M, T> as Outside>⟧.reach in
        (r : Rules) (layout : Layout) (s : State) (ids : List Ulid) (before : List ℕ) →
        LeftTables (reach env.old).meaning r layout (reach env.old).objects s ids
        tables.now.handles.items →
        W.content sink.old ≡ Some before →
        IfOk result (λ _. WritesFlushed r s before (W.content sink.new)) }
{
    write_state(alloc, tables, env, sink)
}

/// Writes a script of the state that the tables fold to, as `write_script` does. If these are the
/// tables that a run left, which answered `Ok`, it moves the model's state at the run's last flush
/// into a new store, but for sequences.
pub fn write_flushed_script<S: Store, M: MergeOperator, T: BlockTransformer, W: Sink>(
    alloc: Global,
    tables: &Tables,
    env: &mut Env<'_, S, M, T>,
    sink: &mut W,
) -> Result<Written, SlateDBError>
    ensures flushed { let reach = ⟦<EnvOf<S, M, T> as Outside>⟧.reach in
        (r : Rules) (layout : Layout) (s : State) (ids : List Ulid) (before : List ℕ) →
        LeftTables (reach env.old).meaning r layout (reach env.old).objects s ids
        tables.now.handles.items →
        W.content sink.old ≡ Some before →
        IfOk result (λ _. MovesFlushed (reach env.old).meaning r s before (W.content sink.new)) }
{
    write_script(alloc, tables, env, sink)
}
