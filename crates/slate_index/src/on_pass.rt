//! Changes of records on a database that threads share, each by one attempt at a transaction.
ghost use Rattle.std.specs.Prelude.{◌≡◌, ◌⊎◌, ◌++◌, ◌∷◌, List, [], Some, None, Err, IfErr, IfSome, IsOkUnless, OnErr, OnOk, map, option_copied};
ghost use Rattle.std.specs.List.{AllByRecursion};
ghost use mathlib.Core.List.{IsPrefix};
ghost use Rattle.slate_types.specs.declared.config.IsolationLevel.{IsolationLevel};
ghost use Rattle.slate_types.specs.declared.error.SlateDBError.{SlateDBError};
ghost use Rattle.slate_types.specs.Outside.{OnlyReads};
ghost use Rattle.slate_mem.specs.Refusals.{value_refusal};
ghost use Rattle.slate_txn.specs.declared.event.Event.{Event};
ghost use Rattle.slate_txn.specs.declared.event.TranscriptStep.{TranscriptStep};
ghost use Rattle.slate_txn.specs.declared.event.TranscriptStep.TheVariants as steps;
ghost use Rattle.slate_db.specs.Meaning.{segments_by};
ghost use Rattle.slate_shared.specs.Given.{AreGiven};
ghost use Rattle.slate_steps.specs.Attempts.{IsAttempt, IsVouchedThere};
ghost use Rattle.slate_steps.specs.Reads.{IsStillBy};
ghost use Rattle.slate_index.specs.declared.error.IndexError.{IndexError};
ghost use Rattle.slate_index.specs.Attempting.{HasTakenThere, IsChangeAttempt, IsStoppedThere};
ghost use Rattle.slate_index.specs.Calls.{db_error};
ghost use Rattle.slate_index.specs.Changes.{change_puts};
ghost use Rattle.slate_index.specs.Commits.{change_ops, value_of};
ghost use Rattle.slate_index.specs.Refusals.{IsFine, delete_refusal, put_refusal};
ghost use Rattle.slate_index.specs.Shown.{steps_of};

use crate::entries::ops_of;
use crate::error::IndexError;
use crate::fields::Fields;
use crate::keys::record_key;
use crate::name::Name;
use crate::refusals::test_value;
use bytes::Bytes;
use slate_db::laws::Laws;
use slate_filter::FilterPolicy;
use slate_mem::WriteOp;
use slate_shared::{Database, DbTransaction, Parts, Pass};
use slate_steps::on_pass::{begin, commit, delete, get, put, rollback};
use slate_store::{Env, EnvOf, Store};
use slate_types::{
    BlockTransformer, IsolationLevel, KeyValue, MergeOperator, Outside, PrefixExtractor,
    SlateDBError,
};
use std::alloc::Global;
use std::sync::Wait;

/// Puts a record at a moment, by one attempt, and gives the sequence: of the entries of the value that stands those go that the new one
/// hasn't, and its own come.
///
/// Refuses before a transaction begins by `FieldTooLong`, where the value has a field of more than 1024 bytes, with the number of the
/// first, and by `Db` with `ValueTooLong` above 2^32 - 1 bytes. Then by `Db` with `LimitReached` where the journal has no place for two
/// events, with what a read is refused for, with `TransactionConflict`, and its greatest sequence, where another thread's commit since the
/// begin wrote a key that this one read or writes, with `SequenceExhausted` where no sequence is left, and with `OutOfMemory`. A refusal
/// commits nothing and leaves no transaction open. No failure of the store or of a part is passed over: each count of faults is as it was,
/// but for that of the one whose fault `Db` holds.
pub fn put_record_shared<
    F: Fields,
    P: Parts,
    R: Wait,
    S: Store,
    M: MergeOperator,
    T: BlockTransformer,
    X: PrefixExtractor,
>(
    rt: &R,
    db: &Database<P>,
    pass: &mut Pass<P>,
    fields: &F,
    id: &Name,
    value: &Bytes,
    now: i64,
    env: &mut Env<'_, S, M, T>,
    laws: &Laws<X>,
) -> Result<u64, IndexError>
    requires table { pass.old.table ≡ db.now }
    requires meaning { let reach = ⟦<EnvOf<S, M, T> as Outside>⟧.reach in (reach env.old).meaning ≡ P.meaning }
    requires laws { AreGiven P.options P.segments P.policies laws.now.options (segments_by X.lengths laws.now.segments) (map (λ p. (⟦<dyn FilterPolicy as FilterPolicy>⟧ p.vtable).meaning p.value) laws.now.policies.items) }
    requires whole { laws.now.segments ≡ None }
    ensures change { let reach = ⟦<EnvOf<S, M, T> as Outside>⟧.reach in
        IsChangeAttempt P.options P.meaning P.policies (F.model fields.now) id.now (Some value.now) now (reach env.old) (reach env.new) pass.old pass.new result }
    ensures counts { let reach = ⟦<EnvOf<S, M, T> as Outside>⟧.reach in IsStillBy db_error (reach env.old).faults (reach env.new).faults result }
    ensures first { let reach = ⟦<EnvOf<S, M, T> as Outside>⟧.reach in
        (e : IndexError) → put_refusal (F.model fields.now) value.now ≡ Some e →
        ((result ≡ Err e) ⊎ (result ≡ Err (IndexError.Db SlateDBError.OutOfMemory))) × (pass.new ≡ pass.old) × (reach env.new ≡ reach env.old) }
{
    match test_value(fields, value) {
        Ok(()) => change(rt, db, pass, fields, id, Some(value), now, env, laws),
        Err(error) => Err(error),
    }
}

/// Deletes a record with its entries, at a moment, by one attempt, and gives the sequence.
///
/// Refuses by `NoRecord` where there was no record with this id when the transaction began, and by `Db` as a put does. A refusal commits
/// nothing and leaves no transaction open. No failure of the store or of a part is passed over: each count of faults is as it was, but for
/// that of the one whose fault `Db` holds.
pub fn delete_record_shared<
    F: Fields,
    P: Parts,
    R: Wait,
    S: Store,
    M: MergeOperator,
    T: BlockTransformer,
    X: PrefixExtractor,
>(
    rt: &R,
    db: &Database<P>,
    pass: &mut Pass<P>,
    fields: &F,
    id: &Name,
    now: i64,
    env: &mut Env<'_, S, M, T>,
    laws: &Laws<X>,
) -> Result<u64, IndexError>
    requires table { pass.old.table ≡ db.now }
    requires meaning { let reach = ⟦<EnvOf<S, M, T> as Outside>⟧.reach in (reach env.old).meaning ≡ P.meaning }
    requires laws { AreGiven P.options P.segments P.policies laws.now.options (segments_by X.lengths laws.now.segments) (map (λ p. (⟦<dyn FilterPolicy as FilterPolicy>⟧ p.vtable).meaning p.value) laws.now.policies.items) }
    requires whole { laws.now.segments ≡ None }
    ensures change { let reach = ⟦<EnvOf<S, M, T> as Outside>⟧.reach in
        IsChangeAttempt P.options P.meaning P.policies (F.model fields.now) id.now None now (reach env.old) (reach env.new) pass.old pass.new result }
    ensures counts { let reach = ⟦<EnvOf<S, M, T> as Outside>⟧.reach in IsStillBy db_error (reach env.old).faults (reach env.new).faults result }
{
    change(rt, db, pass, fields, id, None, now, env, laws)
}

/// Changes a record to a value that isn't refused, or to none.
fn change<
    F: Fields,
    P: Parts,
    R: Wait,
    S: Store,
    M: MergeOperator,
    T: BlockTransformer,
    X: PrefixExtractor,
>(
    rt: &R,
    db: &Database<P>,
    pass: &mut Pass<P>,
    fields: &F,
    id: &Name,
    new: Option<&Bytes>,
    now: i64,
    env: &mut Env<'_, S, M, T>,
    laws: &Laws<X>,
) -> Result<u64, IndexError>
    requires table { pass.old.table ≡ db.now }
    requires meaning { let reach = ⟦<EnvOf<S, M, T> as Outside>⟧.reach in (reach env.old).meaning ≡ P.meaning }
    requires laws { AreGiven P.options P.segments P.policies laws.now.options (segments_by X.lengths laws.now.segments) (map (λ p. (⟦<dyn FilterPolicy as FilterPolicy>⟧ p.vtable).meaning p.value) laws.now.policies.items) }
    requires whole { laws.now.segments ≡ None }
    requires accepted { IfSome (option_copied new) (λ v. put_refusal (F.model fields.now) v ≡ None) }
    ensures change { let reach = ⟦<EnvOf<S, M, T> as Outside>⟧.reach in
        IsChangeAttempt P.options P.meaning P.policies (F.model fields.now) id.now (option_copied new.entry) now (reach env.old) (reach env.new) pass.old pass.new result }
    ensures counts { let reach = ⟦<EnvOf<S, M, T> as Outside>⟧.reach in IsStillBy db_error (reach env.old).faults (reach env.new).faults result }
{
    id.is_named();
    let mut txn = match begin(rt, db, pass, IsolationLevel::SerializableSnapshot) {
        Ok(txn) => txn,
        Err(error) => return Err(IndexError::Db(error)),
    };
    match take_steps(rt, db, &mut txn, fields, id, new, env, laws) {
        Ok(()) => match commit(rt, db, pass, txn, now, env, laws) {
            Ok(Some(seq)) => Ok(seq),
            Ok(None) => unreachable!(),
            Err(error) => Err(IndexError::Db(error)),
        },
        Err(error) => {
            rollback(rt, db, pass, txn);
            Err(error)
        }
    }
}

/// Reads the record, and puts and deletes what the change does, in a transaction that took no step yet.
fn take_steps<
    F: Fields,
    P: Parts,
    R: Wait,
    S: Store,
    M: MergeOperator,
    T: BlockTransformer,
    X: PrefixExtractor,
>(
    rt: &R,
    db: &Database<P>,
    txn: &mut DbTransaction<P>,
    fields: &F,
    id: &Name,
    new: Option<&Bytes>,
    env: &mut Env<'_, S, M, T>,
    laws: &Laws<X>,
) -> Result<(), IndexError>
    requires table { txn.old.table ≡ db.now }
    requires meaning { let reach = ⟦<EnvOf<S, M, T> as Outside>⟧.reach in (reach env.old).meaning ≡ P.meaning }
    requires laws { AreGiven P.options P.segments P.policies laws.now.options (segments_by X.lengths laws.now.segments) (map (λ p. (⟦<dyn FilterPolicy as FilterPolicy>⟧ p.vtable).meaning p.value) laws.now.policies.items) }
    requires accepted { IfSome (option_copied new) (λ v. put_refusal (F.model fields.now) v ≡ None) }
    ensures taken { let reach = ⟦<EnvOf<S, M, T> as Outside>⟧.reach in
        (from : List Event) → IsAttempt P.options from IsolationLevel.SerializableSnapshot [] txn.old →
        OnOk result (HasTakenThere P.options P.meaning P.policies (F.model fields.now) id.now (option_copied new.entry) from (reach env.old) (reach env.new) txn.new) }
    ensures stopped { let reach = ⟦<EnvOf<S, M, T> as Outside>⟧.reach in
        (from : List Event) → IsAttempt P.options from IsolationLevel.SerializableSnapshot [] txn.old →
        IfErr result (IsStoppedThere P.options P.meaning P.policies (F.model fields.now) id.now (option_copied new.entry) from (reach env.old) (reach env.new) txn.new) }
    ensures table { txn.new.table ≡ txn.old.table }
    ensures counts { let reach = ⟦<EnvOf<S, M, T> as Outside>⟧.reach in IsStillBy db_error (reach env.old).faults (reach env.new).faults result }
    ensures reads { let reach = ⟦<EnvOf<S, M, T> as Outside>⟧.reach in OnlyReads (reach env.old) (reach env.new) }
{
    let alloc = *laws.policies.allocator();
    let key = match record_key(alloc, id) {
        Ok(key) => key,
        Err(error) => return Err(IndexError::from(error)),
    };
    let found = get(rt, db, txn, key.as_slice(), env, laws);
    drop(key);
    match found {
        Ok(row) => take_change(alloc, txn, fields, id, row, new),
        Err(error) => Err(IndexError::Db(error)),
    }
}

/// Puts and deletes what the change does, from the row that stands.
fn take_change<F: Fields, P: Parts>(
    alloc: Global,
    txn: &mut DbTransaction<P>,
    fields: &F,
    id: &Name,
    row: Option<KeyValue>,
    new: Option<&Bytes>,
) -> Result<(), IndexError>
    requires accepted { IfSome (option_copied new) (λ v. value_refusal v ≡ None) }
    ensures passes { OnOk result (option_copied new.entry ≡ None → delete_refusal id.now (value_of row) ≡ None) }
    ensures taken { (from : List Event) (level : IsolationLevel) (ts : List TranscriptStep) → IsAttempt P.options from level ts txn.old →
        OnOk result (IsAttempt P.options from level (ts ++ steps_of (change_ops (change_puts (F.model fields.now) id.now (value_of row) (option_copied new.entry)))) txn.new) }
    ensures still { (from : List Event) (level : IsolationLevel) (ts : List TranscriptStep) → IsAttempt P.options from level ts txn.old → (us : List TranscriptStep) × IsAttempt P.options from level (ts ++ us) txn.new }
    ensures sees { IsVouchedThere P.options P.meaning txn.old → IsVouchedThere P.options P.meaning txn.new }
    ensures cause { IfErr result (λ e. ((option_copied new.entry ≡ None) × (delete_refusal id.now (value_of row) ≡ Some e)) ⊎ (e ≡ IndexError.Db SlateDBError.OutOfMemory)) }
    ensures more { (txn.new.table ≡ txn.old.table) × (txn.new.seen ≡ txn.old.seen) }
{
    id.is_named();
    let ops = ops_of(alloc, fields, id, &row, new);
    drop(row);
    match ops {
        Ok(ops) => take_ops(txn, ops.as_slice()).map_err(IndexError::Db),
        Err(error) => Err(error),
    }
}

/// Puts and deletes in an open transaction.
fn take_ops<P: Parts>(
    txn: &mut DbTransaction<P>,
    ops: &[(Bytes, WriteOp)],
) -> Result<(), SlateDBError>
    requires fine { AllByRecursion IsFine ops.now }
    ensures taken { (from : List Event) (level : IsolationLevel) (ts : List TranscriptStep) → IsAttempt P.options from level ts txn.old →
        OnOk result (IsAttempt P.options from level (ts ++ steps_of ops.now) txn.new) }
    ensures still { (from : List Event) (level : IsolationLevel) (ts : List TranscriptStep) → IsAttempt P.options from level ts txn.old → (us : List TranscriptStep) × IsAttempt P.options from level (ts ++ us) txn.new }
    ensures sees { IsVouchedThere P.options P.meaning txn.old → IsVouchedThere P.options P.meaning txn.new }
    ensures cause { IsOkUnless result SlateDBError.OutOfMemory }
    ensures more { (txn.new.table ≡ txn.old.table) × (txn.new.seen ≡ txn.old.seen) }
{
    for (key, op) in ops {
        match take_op(txn, key, op) {
            Ok(()) => {}
            Err(error) => return Err(error),
        }
    }
    Ok(())
}

fn take_op<P: Parts>(
    txn: &mut DbTransaction<P>,
    key: &Bytes,
    op: &WriteOp,
) -> Result<(), SlateDBError>
    requires fine { IsFine (key.now, op.now) }
    ensures taken { (from : List Event) (level : IsolationLevel) (ts : List TranscriptStep) → IsAttempt P.options from level ts txn.old →
        OnOk result (IsAttempt P.options from level (ts ++ (steps.Own key.now op.now ∷ [])) txn.new) }
    ensures sees { IsVouchedThere P.options P.meaning txn.old → IsVouchedThere P.options P.meaning txn.new }
    ensures same { OnErr result (txn.new ≡ txn.old) }
    ensures cause { IsOkUnless result SlateDBError.OutOfMemory }
    ensures more { (txn.new.table ≡ txn.old.table) × (txn.new.seen ≡ txn.old.seen) }
{
    match op {
        WriteOp::Put(value, _) => put(txn, key.as_slice(), value.as_slice()),
        WriteOp::Delete => delete(txn, key.as_slice()),
        WriteOp::Merge(_, _) => unreachable!(),
    }
}
