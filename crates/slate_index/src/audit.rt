//! The audit of a journal: whether all its commits change records.
ghost use Rattle.std.specs.Prelude.{◌≡◌, ◌⊎◌, ◌++◌, ◌∷◌, ℕ, List, Option, true, false, Ok, None, option_copied, OnOk, IfErr, IfOk, IfSome, IsOkUnless};
ghost use Rattle.slate_mem.specs.Batch.{batch_keys};
ghost use Rattle.slate_types.specs.declared.config.IsolationLevel.{IsolationLevel};
ghost use Rattle.slate_types.specs.declared.error.SlateDBError.{SlateDBError};
ghost use Rattle.slate_txn.specs.Replay.{IsLegal};
ghost use Rattle.slate_txn.specs.declared.event.TranscriptStep.{TranscriptStep};
ghost use Rattle.slate_index.specs.declared.error.IndexError.{IndexError};
ghost use Rattle.slate_index.specs.Commits.{IsChange, IsPlainName, change_ops, value_of};
ghost use Rattle.slate_index.specs.Changes.{change_puts};
ghost use Rattle.slate_index.specs.Entries.{record_key};
ghost use Rattle.slate_index.specs.Journals.{AreChanges};
ghost use Rattle.slate_index.specs.Shown.{IsMadeOf, NamesForeign, ShowsChange, last_at, left_at, left_by, new_shown, steps_of, value_put};

use crate::entries::change_ops;
use crate::error::IndexError;
use crate::fields::Fields;
use crate::name::Name;
use bytes::Bytes;
use slate_mem::WriteOp;
use slate_txn::audit::{CommitForm, first_foreign};
use slate_txn::event::{Transcript, TranscriptStep};
use slate_txn::journal::Journal;
use slate_txn::list::{KeyList, OpList};
use slate_types::{IsolationLevel, KeyValue};
use std::alloc::{AllocError, Global};

/// Whether each commit with a sequence changes a record, and nothing was written outside transactions. Refuses by `ForeignCommit` with
/// the sequence of the first commit or write that isn't so, and by `OutOfMemory`. One pass over the journal.
pub fn audit<F: Fields>(journal: &Journal, fields: &F) -> Result<(), IndexError>
    ensures yes { (n0 : ℕ) → IsLegal n0 journal.now.events → OnOk result (AreChanges (F.model fields.now) journal.now.events) }
    ensures no { (n0 : ℕ) → IsLegal n0 journal.now.events → AreChanges (F.model fields.now) journal.now.events → IsOkUnless result (IndexError.Db SlateDBError.OutOfMemory) }
    ensures cause { (n0 : ℕ) → IsLegal n0 journal.now.events → IfErr result (λ e. (e ≡ IndexError.Db SlateDBError.OutOfMemory) ⊎ NamesForeign (F.model fields.now) journal.now.events e) }
{
    let found = first_foreign(journal, &Changes { fields })?;
    match found {
        None => Ok(()),
        Some(seq) => Err(IndexError::ForeignCommit { seq }),
    }
}

/// The commits that change records.
#[derive(Drop)]
struct Changes<'a, F: Fields> {
    fields: &'a F,
}

impl<F: Fields> CommitForm for Changes<'_, F> {
    ghost is = { λ form level now ops tracked ts. IsChange (F.model form.fields.now) level ops tracked ts };

    fn test(
        &self,
        alloc: Global,
        level: IsolationLevel,
        _now: i64,
        ops: &OpList,
        tracked: &KeyList,
        transcript: &Transcript,
    ) -> Result<bool, AllocError> {
        match level {
            IsolationLevel::SerializableSnapshot => {
                is_change(alloc, self.fields, ops, tracked, transcript.as_slice())
            }
            IsolationLevel::Snapshot => Ok(false),
        }
    }
}

/// Whether a serializable commit with these steps changes a record: whether it is the change that its steps show.
fn is_change<F: Fields>(
    alloc: Global,
    fields: &F,
    ops: &OpList,
    tracked: &KeyList,
    steps: &[TranscriptStep],
) -> Result<bool, AllocError>
    ensures yes { result ≡ Ok true → IsChange (F.model fields.now) IsolationLevel.SerializableSnapshot ops.now tracked.now steps.now }
    ensures no { result ≡ Ok false → IsChange (F.model fields.now) IsolationLevel.SerializableSnapshot ops.now tracked.now steps.now → ⊥ }
{
    match steps.split_first() {
        Some((first, own)) => is_change_by(alloc, fields, ops, tracked, first, own),
        None => Ok(false),
    }
}

/// The same, by the first step and the others.
fn is_change_by<F: Fields>(
    alloc: Global,
    fields: &F,
    ops: &OpList,
    tracked: &KeyList,
    first: &TranscriptStep,
    own: &[TranscriptStep],
) -> Result<bool, AllocError>
    ensures yes { result ≡ Ok true → IsChange (F.model fields.now) IsolationLevel.SerializableSnapshot ops.now tracked.now (first.now ∷ own.now) }
    ensures no { result ≡ Ok false → IsChange (F.model fields.now) IsolationLevel.SerializableSnapshot ops.now tracked.now (first.now ∷ own.now) → ⊥ }
{
    match first {
        TranscriptStep::Get { key, answer } => {
            is_change_from(alloc, fields, ops, tracked, key, answer, own)
        }
        _ => Ok(false),
    }
}

/// The same, by what the first step read.
fn is_change_from<F: Fields>(
    alloc: Global,
    fields: &F,
    ops: &OpList,
    tracked: &KeyList,
    key: &Bytes,
    answer: &Option<KeyValue>,
    own: &[TranscriptStep],
) -> Result<bool, AllocError>
    ensures yes { result ≡ Ok true → IsChange (F.model fields.now) IsolationLevel.SerializableSnapshot ops.now tracked.now (TranscriptStep.Get key.now answer.now ∷ own.now) }
    ensures no { result ≡ Ok false → IsChange (F.model fields.now) IsolationLevel.SerializableSnapshot ops.now tracked.now (TranscriptStep.Get key.now answer.now ∷ own.now) → ⊥ }
{
    let found = made_by(alloc, fields, key, answer, own)?;
    match found {
        Some(made) => is_made(alloc, OpList::from_vec(made), ops, tracked, own),
        None => Ok(false),
    }
}

/// Whether the own steps are these operations, and a commit of them keeps these and tracks all their keys.
fn is_made(
    alloc: Global,
    made: OpList,
    ops: &OpList,
    tracked: &KeyList,
    own: &[TranscriptStep],
) -> Result<bool, AllocError>
    ensures yes { result ≡ Ok true → IsMadeOf made ops.now tracked.now own.now }
    ensures no { result ≡ Ok false → IsMadeOf made ops.now tracked.now own.now → ⊥ }
{
    if are_steps_of(own, made.as_slice()) {
        is_left(alloc, &made, ops, tracked)
    } else {
        Ok(false)
    }
}

/// The operations of the change that a read and own steps show, where the read is of a record: from the value that was read to the one
/// that the own steps put.
fn made_by<F: Fields>(
    alloc: Global,
    fields: &F,
    key: &Bytes,
    answer: &Option<KeyValue>,
    own: &[TranscriptStep],
) -> Result<Option<Vec<(Bytes, WriteOp)>>, AllocError>
    ensures some { IfOk result (λ found. IfSome found (λ made. ShowsChange (F.model fields.now) key.now answer.now own.now made.items)) }
    ensures none { result ≡ Ok None → (id : List ℕ) → IsPlainName id → key.now ≡ record_key id → ⊥ }
{
    let found = id_in(alloc, key)?;
    match found {
        Some(id) => match made_of(alloc, fields, &id, answer, new_shown(key, own)) {
            Ok(made) => Ok(Some(made)),
            Err(error) => Err(error),
        },
        None => Ok(None),
    }
}

/// The operations of the change of a record from the value that was read.
fn made_of<F: Fields>(
    alloc: Global,
    fields: &F,
    id: &Name,
    answer: &Option<KeyValue>,
    new: Option<&Bytes>,
) -> Result<Vec<(Bytes, WriteOp)>, AllocError>
    ensures { IfOk result (λ made. made.items ≡ change_ops (change_puts (F.model fields.now) id.now (value_of answer.now) (option_copied new.entry))) }
{
    let old = match answer {
        Some(row) => Some(&row.value),
        None => None,
    };
    match change_ops(alloc, fields, id, old, new) {
        Ok(made) => Ok(made),
        Err(error) => {
            drop(error);
            Err(AllocError)
        }
    }
}

/// The id of the record that stands there, where its id is a name.
fn id_in(alloc: Global, key: &Bytes) -> Result<Option<Name>, AllocError>
    ensures some { IfOk result (λ found. IfSome found (λ id. IsPlainName id × (key.now ≡ record_key id))) }
    ensures none { result ≡ Ok None → (id : List ℕ) → IsPlainName id → key.now ≡ record_key id → ⊥ }
{
    match key.as_slice().strip_prefix(b"r:") {
        Some(id) => Ok(Name::new(Bytes::copy_from_slice(alloc, id)?)),
        None => Ok(None),
    }
}

/// The value that the first own operation of the key puts, where it puts one.
fn new_shown<'a>(key: &Bytes, own: &'a [TranscriptStep]) -> Option<&'a Bytes>
    ensures { option_copied result ≡ new_shown key.now own.now }
{
    for step in own {
        if let TranscriptStep::Own { key: other, op } = step {
            if other == key {
                return value_put(op);
            }
        }
    }
    None
}

fn value_put(op: &WriteOp) -> Option<&Bytes>
    ensures { option_copied result ≡ value_put op.now }
{
    match op {
        WriteOp::Put(value, _) => Some(value),
        _ => None,
    }
}

/// Whether the steps are these operations.
fn are_steps_of(steps: &[TranscriptStep], ops: &[(Bytes, WriteOp)]) -> bool
    ensures yes { result ≡ true → steps.now ≡ steps_of ops.now }
    ensures no { result ≡ false → steps.now ≡ steps_of ops.now → ⊥ }
{
    if steps.len() != ops.len() {
        return false;
    }
    for place in 0..ops.len() {
        let (key, op) = &ops[place];
        if !is_step_of(&steps[place], key, op) {
            return false;
        }
    }
    true
}

fn is_step_of(step: &TranscriptStep, key: &Bytes, op: &WriteOp) -> bool
    ensures yes { result ≡ true → step.now ≡ TranscriptStep.Own key.now op.now }
    ensures no { result ≡ false → step.now ≡ TranscriptStep.Own key.now op.now → ⊥ }
{
    match step {
        TranscriptStep::Own {
            key: other,
            op: own,
        } => other == key && own == op,
        _ => false,
    }
}

/// Whether a commit of these puts and deletes keeps these operations, and tracks all their keys.
fn is_left(
    alloc: Global,
    made: &OpList,
    ops: &OpList,
    tracked: &KeyList,
) -> Result<bool, AllocError>
    ensures yes { result ≡ Ok true → (ops.now ≡ left_by made.now) × (tracked.now ≡ batch_keys ops.now) }
    ensures no { result ≡ Ok false → ops.now ≡ left_by made.now → tracked.now ≡ batch_keys ops.now → ⊥ }
{
    let left = left_ops(alloc, made)?;
    if !are_ops(ops.as_slice(), left.as_slice()) {
        return Ok(false);
    }
    let keys = ops.keys(alloc)?;
    Ok(are_keys(tracked.as_slice(), keys.as_slice()))
}

/// Whether the operations are these.
fn are_ops(ops: &[(Bytes, WriteOp)], others: &[(Bytes, WriteOp)]) -> bool
    ensures yes { result ≡ true → ops.now ≡ others.now }
    ensures no { result ≡ false → ops.now ≡ others.now → ⊥ }
{
    if ops.len() != others.len() {
        return false;
    }
    for place in 0..ops.len() {
        if !is_op(&ops[place], &others[place]) {
            return false;
        }
    }
    true
}

fn is_op(op: &(Bytes, WriteOp), other: &(Bytes, WriteOp)) -> bool
    ensures yes { result ≡ true → op.now ≡ other.now }
    ensures no { result ≡ false → op.now ≡ other.now → ⊥ }
{
    op.0 == other.0 && op.1 == other.1
}

/// Whether the keys are these.
fn are_keys(keys: &[Bytes], others: &[Bytes]) -> bool
    ensures yes { result ≡ true → keys.now ≡ others.now }
    ensures no { result ≡ false → keys.now ≡ others.now → ⊥ }
{
    if keys.len() != others.len() {
        return false;
    }
    for place in 0..keys.len() {
        if !is_key(&keys[place], &others[place]) {
            return false;
        }
    }
    true
}

fn is_key(key: &Bytes, other: &Bytes) -> bool
    ensures yes { result ≡ true → key.now ≡ other.now }
    ensures no { result ≡ false → key.now ≡ other.now → ⊥ }
{
    key == other
}

/// What a batch keeps of these puts and deletes. It takes time that grows with the square of their number, which is at most 17.
fn left_ops(alloc: Global, made: &OpList) -> Result<Vec<(Bytes, WriteOp)>, AllocError>
    ensures { IfOk result (λ left. left.items ≡ left_by made.now) }
{
    let keys = made.keys(alloc)?;
    let mut left = Vec::new(alloc);
    for key in keys.as_slice() {
        push_left(&mut left, key, made.as_slice())?;
    }
    Ok(left)
}

/// Appends the last of the operations of the key.
fn push_left(
    left: &mut Vec<(Bytes, WriteOp)>,
    key: &Bytes,
    ops: &[(Bytes, WriteOp)],
) -> Result<(), AllocError>
    ensures { OnOk result (left.new.items ≡ left.old.items ++ left_at key.now ops.now) }
{
    match last_at(key, ops) {
        Some(op) => left
            .push((key.clone()?, op.clone()?))
            .map_err(AllocError::from),
        None => Ok(()),
    }
}

/// The last of the operations of the key.
fn last_at<'a>(key: &Bytes, ops: &'a [(Bytes, WriteOp)]) -> Option<&'a WriteOp>
    ensures { option_copied result ≡ last_at key.now ops.now }
{
    let mut last = None;
    for (other, op) in ops {
        if other == key {
            last = Some(op);
        }
    }
    last
}
