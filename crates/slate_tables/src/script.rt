//! The state that tables fold to, as a script that loads it into a new store.
ghost use Rattle.std.specs.Prelude.{◌≡◌, ◌≤◌, ◌⊎◌, ◌++◌, ◌∷◌, [], ℕ, List, Some, OnOk, IfOk, IfErr};
ghost use Rattle.slate_types.specs.declared.error.SlateDBError.{SlateDBError};
ghost use Rattle.slate_types.specs.declared.types.RowEntry.{RowEntry};
ghost use Rattle.slate_types.specs.Faults.{Rose};
ghost use Rattle.slate_types.specs.Outside.{IsStill, Objects, OnlyReads};
ghost use Rattle.slate_types.specs.Refusing.{IsDamage};
ghost use Rattle.slate_merge.specs.Merge.{all_rows};
ghost use Rattle.slate_tables.specs.LoadText.{last_words};
ghost use Rattle.slate_tables.specs.Opened.{AreHeldTables};
ghost use Rattle.slate_tables.specs.States.{IsUnwrittenState, WritesScript};

use crate::export::{Form, Written};
use crate::merging::Export;
use crate::reader::Tables;
use crate::state::write_tables;
use itoa::Buffer;
use slate_store::{Env, EnvOf, Sink, Store, write_all};
use slate_types::{BlockTransformer, MergeOperator, Outside, RowEntryIterator, SlateDBError};
use std::alloc::{AllocError, Global};

/// Writes a script that loads the state to which the tables fold into a new store: for each row the
/// lines `now` and `write`, keys rising, between two comments. The last one counts the rows.
///
/// Run over a new store with the same operator, each line has its reply, and the state after it is
/// that of the tables, but for sequences. A row that ends before it was made is made at its end,
/// and counted as moved. The run's words must let the keys pass: without segments they do.
pub fn write_script<S: Store, M: MergeOperator, T: BlockTransformer, W: Sink>(
    alloc: Global,
    tables: &Tables,
    env: &mut Env<'_, S, M, T>,
    sink: &mut W,
) -> Result<Written, SlateDBError>
    ensures honest { let reach = ⟦<EnvOf<S, M, T> as Outside>⟧.reach in
        (os : Objects) (lists : List (List RowEntry)) (before : List ℕ) →
        (reach env.old).objects ≡ Some os →
        AreHeldTables (reach env.old).meaning os tables.now.handles.items lists →
        W.content sink.old ≡ Some before →
        IfOk result (WritesScript (reach env.old).meaning (all_rows lists) before
        (W.content sink.new)) }
    ensures undamaged { let reach = ⟦<EnvOf<S, M, T> as Outside>⟧.reach in
        (os : Objects) (lists : List (List RowEntry)) → (reach env.old).objects ≡ Some os →
        AreHeldTables (reach env.old).meaning os tables.now.handles.items lists →
        IfErr result (λ e. ¬ IsDamage e) }
    ensures cause { let reach = ⟦<EnvOf<S, M, T> as Outside>⟧.reach in
        let refuses = ⟦<Export as RowEntryIterator<EnvOf<S, M, T>>>⟧.refuses in
        IfErr result (IsUnwrittenState Form.Script refuses tables.now.handles.items
        (W.faults sink.old) (W.faults sink.new) (reach env.old) (reach env.new)) }
    ensures reads { let reach = ⟦<EnvOf<S, M, T> as Outside>⟧.reach in
        OnlyReads (reach env.old) (reach env.new) }
    ensures counts { let reach = ⟦<EnvOf<S, M, T> as Outside>⟧.reach in
        IsStill (reach env.old).faults (reach env.new).faults result }
    ensures later { W.faults sink.old ≤ W.faults sink.new }
    ensures still { OnOk result (W.faults sink.new ≡ W.faults sink.old) }
{
    match write_all(sink, b"# for a new store\n") {
        Ok(()) => match write_tables(alloc, Form::Script, tables, env, sink) {
            Ok(written) => write_last(alloc, written, sink),
            Err(error) => Err(error),
        },
        Err(error) => Err(error),
    }
}

/// Writes the last comment, and returns what it says. The errors are `OutOfMemory` and
/// `WriteFault`.
fn write_last<W: Sink>(
    alloc: Global,
    written: Written,
    sink: &mut W,
) -> Result<Written, SlateDBError>
    ensures text { (before : List ℕ) → W.content sink.old ≡ Some before →
        OnOk result (W.content sink.new ≡ Some (before
        ++ (last_words written.rows written.moved written.greatest_seq ++ (10 ∷ [])))) }
    ensures same { IfOk result (λ told. told ≡ written) }
    ensures cause { IfErr result (λ e. (e ≡ SlateDBError.OutOfMemory)
        ⊎ ((e ≡ SlateDBError.WriteFault) × Rose (W.faults sink.old) (W.faults sink.new))) }
    ensures later { W.faults sink.old ≤ W.faults sink.new }
    ensures still { OnOk result (W.faults sink.new ≡ W.faults sink.old) }
{
    match last_line(alloc, written) {
        Ok(line) => {
            let done = write_all(sink, line.as_slice());
            drop(line);
            match done {
                Ok(()) => Ok(written),
                Err(error) => Err(error),
            }
        }
        Err(error) => Err(SlateDBError::from(error)),
    }
}

/// Returns the last comment, with its line end. The one error is `OutOfMemory`.
fn last_line(alloc: Global, written: Written) -> Result<Vec<u8>, AllocError>
    ensures text { IfOk result (λ text. text.items ≡
        last_words written.rows written.moved written.greatest_seq ++ (10 ∷ [])) }
{
    let mut text = Vec::with_capacity(alloc, 64)?;
    text.extend_from_slice(b"# whole: rows ")?;
    text.extend_from_slice(Buffer::new().format(written.rows).as_bytes())?;
    text.extend_from_slice(b" moved ")?;
    text.extend_from_slice(Buffer::new().format(written.moved).as_bytes())?;
    text.extend_from_slice(b" seq=")?;
    text.extend_from_slice(Buffer::new().format(written.greatest_seq).as_bytes())?;
    text.push(b'\n')?;
    Ok(text)
}
