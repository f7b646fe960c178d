//! Changes of records, each by a transaction of its own.
ghost use Rattle.std.specs.Prelude.{◌≡◌, ◌⊎◌, ◌<◌, ◌^◌, ◌++◌, ◌∷◌, ℕ, List, [], Option, Some, None, Err, IfErr, IfOk, IfSome, IsOkUnless, OnErr, OnOk, map, option_copied};
ghost use Rattle.std.specs.List.{AllByRecursion};
ghost use Rattle.slate_types.specs.declared.config.IsolationLevel.{IsolationLevel};
ghost use Rattle.slate_types.specs.declared.error.SlateDBError.{SlateDBError};
ghost use Rattle.slate_types.specs.declared.types.KeyValue.{KeyValue};
ghost use Rattle.slate_types.specs.Outside.{OnlyReads};
ghost use Rattle.slate_mem.specs.Refusals.{value_refusal};
ghost use Rattle.slate_txn.specs.declared.event.TranscriptStep.{TranscriptStep};
ghost use Rattle.slate_txn.specs.declared.event.TranscriptStep.TheVariants as steps;
ghost use Rattle.slate_db.specs.Meaning.{segments_by};
ghost use Rattle.slate_db.specs.Model.{CoreModel};
ghost use Rattle.slate_db.specs.Opened.{HasTransaction};
ghost use Rattle.slate_steps.specs.Reads.{IsStillBy};
ghost use Rattle.slate_steps.specs.Steps.{IsWithin};
ghost use Rattle.slate_index.specs.declared.error.IndexError.{IndexError};
ghost use Rattle.slate_index.specs.Calls.{IsChangeCall, db_error};
ghost use Rattle.slate_index.specs.Changes.{change_puts};
ghost use Rattle.slate_index.specs.Commits.{change_ops, value_of};
ghost use Rattle.slate_index.specs.Refusals.{IsFine, delete_refusal, put_refusal};
ghost use Rattle.slate_index.specs.Shown.{steps_of};
ghost use Rattle.slate_index.specs.Taken.{HasTaken, IsStopped};

use crate::entries::ops_of;
use crate::error::IndexError;
use crate::fields::Fields;
use crate::keys::record_key;
use crate::name::Name;
use crate::refusals::test_value;
use bytes::Bytes;
use slate_db::engine::Core;
use slate_db::laws::Laws;
use slate_mem::WriteOp;
use slate_steps::transaction::{begin, commit, delete, get, put, rollback};
use slate_store::{Env, EnvOf, Store};
use slate_types::{
    BlockTransformer, IsolationLevel, KeyValue, MergeOperator, Outside, PrefixExtractor,
    SlateDBError,
};
use std::alloc::Global;
use uuid::Uuid;

/// Puts a record at a moment, and gives the sequence: of the entries of the value that stands those go that the new one hasn't, and
/// its own come.
///
/// Refuses before a transaction begins by `FieldTooLong`, where the value has a field of more than 1024 bytes, with the number of the
/// first, and by `Db` with `ValueTooLong` above 2^32 - 1 bytes. Then by `Db` with `LimitReached` where the journal has no place for two
/// events, with what a read is refused for, with `SequenceExhausted` where no sequence is left, and with `OutOfMemory`. A refusal commits
/// nothing and leaves no transaction open. No failure of the store or of a part is passed over: each count of faults is as it was, but for
/// that of the one whose fault `Db` holds.
pub fn put_record<F: Fields, S: Store, M: MergeOperator, X: PrefixExtractor, T: BlockTransformer>(
    core: &mut Core,
    fields: &F,
    id: &Name,
    value: &Bytes,
    now: i64,
    env: &mut Env<'_, S, M, T>,
    laws: &Laws<X>,
) -> Result<u64, IndexError>
    requires { laws.now.segments ≡ None }
    ensures change { let reach = ⟦<EnvOf<S, M, T> as Outside>⟧.reach in
        let policies = map (λ p. meaning (p.vtable, p.value)) laws.now.policies.items in
        let seg = segments_by X.lengths laws.now.segments in
        IsChangeCall policies seg (F.model fields.now) id.now (Some value.now) now (reach env.old) (reach env.new) core.old core.new result }
    ensures counts { let reach = ⟦<EnvOf<S, M, T> as Outside>⟧.reach in IsStillBy db_error (reach env.old).faults (reach env.new).faults result }
    ensures first { (e : IndexError) → put_refusal (F.model fields.now) value.now ≡ Some e → (result ≡ Err e) ⊎ (result ≡ Err (IndexError.Db SlateDBError.OutOfMemory)) }
{
    match test_value(fields, value) {
        Ok(()) => change(core, fields, id, Some(value), now, env, laws),
        Err(error) => Err(error),
    }
}

/// Deletes a record with its entries, at a moment, and gives the sequence.
///
/// Refuses by `NoRecord` where there is no record with this id, and by `Db` with `LimitReached` where the journal has no place for two
/// events, with what a read is refused for, with `SequenceExhausted` where no sequence is left, and with `OutOfMemory`. A refusal commits
/// nothing and leaves no transaction open. No failure of the store or of a part is passed over: each count of faults is as it was, but for
/// that of the one whose fault `Db` holds.
pub fn delete_record<
    F: Fields,
    S: Store,
    M: MergeOperator,
    X: PrefixExtractor,
    T: BlockTransformer,
>(
    core: &mut Core,
    fields: &F,
    id: &Name,
    now: i64,
    env: &mut Env<'_, S, M, T>,
    laws: &Laws<X>,
) -> Result<u64, IndexError>
    requires { laws.now.segments ≡ None }
    ensures change { let reach = ⟦<EnvOf<S, M, T> as Outside>⟧.reach in
        let policies = map (λ p. meaning (p.vtable, p.value)) laws.now.policies.items in
        let seg = segments_by X.lengths laws.now.segments in
        IsChangeCall policies seg (F.model fields.now) id.now None now (reach env.old) (reach env.new) core.old core.new result }
    ensures counts { let reach = ⟦<EnvOf<S, M, T> as Outside>⟧.reach in IsStillBy db_error (reach env.old).faults (reach env.new).faults result }
{
    change(core, fields, id, None, now, env, laws)
}

/// Changes a record to a value that isn't refused, or to none.
fn change<F: Fields, S: Store, M: MergeOperator, X: PrefixExtractor, T: BlockTransformer>(
    core: &mut Core,
    fields: &F,
    id: &Name,
    new: Option<&Bytes>,
    now: i64,
    env: &mut Env<'_, S, M, T>,
    laws: &Laws<X>,
) -> Result<u64, IndexError>
    requires whole { laws.now.segments ≡ None }
    requires accepted { IfSome (option_copied new) (λ v. put_refusal (F.model fields.now) v ≡ None) }
    ensures change { let reach = ⟦<EnvOf<S, M, T> as Outside>⟧.reach in
        let policies = map (λ p. meaning (p.vtable, p.value)) laws.now.policies.items in
        let seg = segments_by X.lengths laws.now.segments in
        IsChangeCall policies seg (F.model fields.now) id.now (option_copied new.entry) now (reach env.old) (reach env.new) core.old core.new result }
    ensures counts { let reach = ⟦<EnvOf<S, M, T> as Outside>⟧.reach in IsStillBy db_error (reach env.old).faults (reach env.new).faults result }
{
    id.is_named();
    let tx = match begin(core, IsolationLevel::SerializableSnapshot) {
        Ok(tx) => tx,
        Err(error) => return Err(IndexError::Db(error)),
    };
    match take_steps(core, &tx, fields, id, new, env, laws) {
        Ok(()) => match commit(core, &tx, now, env, laws) {
            Ok(Some(seq)) => {
                is_number(seq);
                Ok(seq)
            }
            Ok(None) => unreachable!(),
            Err(error) => Err(IndexError::Db(error)),
        },
        Err(error) => {
            rollback(core, &tx);
            Err(error)
        }
    }
}

/// That a sequence has 64 bits. It does nothing.
fn is_number(seq: u64)
    ensures { seq < 2 ^ 64 }
{
    let _ = seq;
}

/// Reads the record, and puts and deletes what the change does, in a transaction that took no step yet.
fn take_steps<F: Fields, S: Store, M: MergeOperator, X: PrefixExtractor, T: BlockTransformer>(
    core: &mut Core,
    tx: &Uuid,
    fields: &F,
    id: &Name,
    new: Option<&Bytes>,
    env: &mut Env<'_, S, M, T>,
    laws: &Laws<X>,
) -> Result<(), IndexError>
    requires open { HasTransaction core.old tx.now }
    requires accepted { IfSome (option_copied new) (λ v. put_refusal (F.model fields.now) v ≡ None) }
    ensures taken { let reach = ⟦<EnvOf<S, M, T> as Outside>⟧.reach in
        let policies = map (λ p. meaning (p.vtable, p.value)) laws.now.policies.items in
        (c : CoreModel) → IsWithin c tx.now IsolationLevel.SerializableSnapshot [] core.old →
        OnOk result (HasTaken policies (reach env.old) (reach env.new) (F.model fields.now) id.now (option_copied new.entry) c tx.now core.new) }
    ensures stopped { let reach = ⟦<EnvOf<S, M, T> as Outside>⟧.reach in
        let policies = map (λ p. meaning (p.vtable, p.value)) laws.now.policies.items in
        (c : CoreModel) → IsWithin c tx.now IsolationLevel.SerializableSnapshot [] core.old →
        IfErr result (IsStopped policies (reach env.old) (reach env.new) (F.model fields.now) id.now (option_copied new.entry) c tx.now core.new) }
    ensures open { HasTransaction core.new tx.now }
    ensures counts { let reach = ⟦<EnvOf<S, M, T> as Outside>⟧.reach in IsStillBy db_error (reach env.old).faults (reach env.new).faults result }
    ensures reads { let reach = ⟦<EnvOf<S, M, T> as Outside>⟧.reach in OnlyReads (reach env.old) (reach env.new) }
{
    let alloc = core.journal().alloc();
    let key = match record_key(alloc, id) {
        Ok(key) => key,
        Err(error) => return Err(IndexError::from(error)),
    };
    let found = get(core, tx, key.as_slice(), env, laws);
    drop(key);
    match found {
        Ok(row) => take_change(alloc, core, tx, fields, id, row, new),
        Err(error) => Err(IndexError::Db(error)),
    }
}

/// Puts and deletes what the change does, from the row that stands.
fn take_change<F: Fields>(
    alloc: Global,
    core: &mut Core,
    tx: &Uuid,
    fields: &F,
    id: &Name,
    row: Option<KeyValue>,
    new: Option<&Bytes>,
) -> Result<(), IndexError>
    requires open { HasTransaction core.old tx.now }
    requires accepted { IfSome (option_copied new) (λ v. value_refusal v ≡ None) }
    ensures passes { OnOk result (option_copied new.entry ≡ None → delete_refusal id.now (value_of row) ≡ None) }
    ensures taken { (c : CoreModel) (level : IsolationLevel) (ts : List TranscriptStep) → IsWithin c tx.now level ts core.old →
        OnOk result (IsWithin c tx.now level (ts ++ steps_of (change_ops (change_puts (F.model fields.now) id.now (value_of row) (option_copied new.entry)))) core.new) }
    ensures still { (c : CoreModel) (level : IsolationLevel) (ts : List TranscriptStep) → IsWithin c tx.now level ts core.old → (us : List TranscriptStep) × IsWithin c tx.now level (ts ++ us) core.new }
    ensures cause { IfErr result (λ e. ((option_copied new.entry ≡ None) × (delete_refusal id.now (value_of row) ≡ Some e)) ⊎ (e ≡ IndexError.Db SlateDBError.OutOfMemory)) }
    ensures open { HasTransaction core.new tx.now }
{
    id.is_named();
    let ops = ops_of(alloc, fields, id, &row, new);
    drop(row);
    match ops {
        Ok(ops) => take_ops(core, tx, ops.as_slice()).map_err(IndexError::Db),
        Err(error) => Err(error),
    }
}

/// Puts and deletes in an open transaction.
fn take_ops(core: &mut Core, tx: &Uuid, ops: &[(Bytes, WriteOp)]) -> Result<(), SlateDBError>
    requires open { HasTransaction core.old tx.now }
    requires fine { AllByRecursion IsFine ops.now }
    ensures taken { (c : CoreModel) (level : IsolationLevel) (ts : List TranscriptStep) → IsWithin c tx.now level ts core.old →
        OnOk result (IsWithin c tx.now level (ts ++ steps_of ops.now) core.new) }
    ensures still { (c : CoreModel) (level : IsolationLevel) (ts : List TranscriptStep) → IsWithin c tx.now level ts core.old → (us : List TranscriptStep) × IsWithin c tx.now level (ts ++ us) core.new }
    ensures cause { IsOkUnless result SlateDBError.OutOfMemory }
    ensures open { HasTransaction core.new tx.now }
{
    for (key, op) in ops {
        match take_op(core, tx, key, op) {
            Ok(()) => {}
            Err(error) => return Err(error),
        }
    }
    Ok(())
}

fn take_op(core: &mut Core, tx: &Uuid, key: &Bytes, op: &WriteOp) -> Result<(), SlateDBError>
    requires open { HasTransaction core.old tx.now }
    requires fine { IsFine (key.now, op.now) }
    ensures taken { (c : CoreModel) (level : IsolationLevel) (ts : List TranscriptStep) → IsWithin c tx.now level ts core.old →
        OnOk result (IsWithin c tx.now level (ts ++ (steps.Own key.now op.now ∷ [])) core.new) }
    ensures same { OnErr result (core.new ≡ core.old) }
    ensures cause { IsOkUnless result SlateDBError.OutOfMemory }
    ensures open { HasTransaction core.new tx.now }
{
    match op {
        WriteOp::Put(value, _) => put(core, tx, key.as_slice(), value.as_slice()),
        WriteOp::Delete => delete(core, tx, key.as_slice()),
        WriteOp::Merge(_, _) => unreachable!(),
    }
}
