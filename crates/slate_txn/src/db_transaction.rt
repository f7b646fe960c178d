//! What a transaction owns: nothing of it is shared.
ghost use Rattle.std.specs.Prelude.{◌≡◌, ◌⊎◌, ◌<◌, ◌+◌, ◌++◌, ◌∷◌, ℕ, List, [], map, reverse, if◌then◌else◌, count_by, true, false, not, vec_len, vec_capacity, None, Some, Err, IfOk, IfErr, OnOk, OnErr, IsOkUnless};
ghost use Rattle.std.specs.List.{AllByRecursion};
ghost use Rattle.slate_types.specs.declared.error.SlateDBError.{SlateDBError};
ghost use Rattle.slate_types.specs.Iteration.{IsInOrder};
ghost use Rattle.slate_types.specs.Keys.{among, in_range};
ghost use Rattle.slate_types.specs.RowTurns.{AreInTurn, row_before};
ghost use Rattle.slate_types.specs.Rows.{of_key};
ghost use Rattle.slate_mem.specs.declared.WriteOp.{WriteOp};
ghost use Rattle.slate_mem.specs.Batch.{Ops, kept};
ghost use Rattle.slate_mem.specs.BatchModel.{IsBatchOf};
ghost use Rattle.slate_mem.specs.Refusals.{op_refusal};
ghost use Rattle.slate_mem.specs.RowOf.{own_row};
ghost use Rattle.slate_txn.specs.declared.event.TranscriptStep.TheVariants as steps;
ghost use Rattle.slate_txn.specs.Alone.{own_of};
ghost use Rattle.slate_txn.specs.Conflict.{conflict, conflict_of};
ghost use Rattle.slate_txn.specs.HandedOver.{Grown, HandsOver, IsConflict};
ghost use Rattle.slate_txn.specs.Managers.{StandsFor, untracked};
ghost use Rattle.slate_txn.specs.Named.{find_named};
ghost use Rattle.slate_txn.specs.State.{Commit, begun};
ghost use Rattle.slate_txn.specs.Step.{is_scan, with_op, with_marks, with_unmarks};
ghost use Rattle.slate_txn.specs.Tested.{CommitsAs, IsUntracked, IsTracked, tracked_of};
ghost use Rattle.slate_txn.specs.Own.{read_on, only_key};

use crate::hand_over::test_conflict;
use crate::reading::Reading;
use crate::row_room::RowRoom;
use crate::transaction_manager::{TransactionManager, append};
use crate::{KeyList, Transcript, TranscriptStep};
use bytes::Bytes;
use slate_mem::batch::{test_key, test_put};
use slate_mem::lookup::newest_of_walk;
use slate_mem::{WriteBatch, WriteBatchIterator, WriteOp};
use slate_types::{
    BytesRange, IsolationLevel, IterationOrder, KeyValue, MergeOptions, PutOptions, RowEntry,
    SlateDBError,
};
use std::alloc::{AllocError, Global};
use std::marker::Model;
use std::ops::Bound;
use uuid::Uuid;

/// What a transaction does and saw, apart from what is shared.
#[derive(Drop)]
pub struct DbTransactionInner {
    level: IsolationLevel,
    /// The sequence at which it began.
    begin: u64,
    /// Its own operations.
    batch: WriteBatch,
    /// The keys that it tracks as if they were read, at either level.
    marked: Vec<Bytes>,
    /// The keys that it doesn't track where it writes them.
    unmarked: Vec<Bytes>,
    /// What it has read, at the serializable level.
    reading: Reading,
    /// How many scans it opened.
    scans: u64,
    transcript: Vec<TranscriptStep>,
    /// Where the bytes of the next rows of the transcript go.
    room: RowRoom,
}

impl Model for DbTransactionInner {
    ghost use Rattle.slate_txn.specs.State.{Tx};
    ghost use Rattle.slate_txn.specs.OwnView.{own_view, IsOwnInside};

    ghost Value = { Tx };

    ghost view = { own_view };

    ghost invariant = { IsOwnInside };
}

impl DbTransactionInner {
    /// Of a transaction that began at a sequence, and did nothing yet. Takes no memory.
    pub fn new(alloc: Global, level: IsolationLevel, begin: u64) -> DbTransactionInner
        ensures { result ≡ begun level begin }
    {
        DbTransactionInner {
            level,
            begin,
            batch: WriteBatch::new(alloc),
            marked: Vec::new(alloc),
            unmarked: Vec::new(alloc),
            reading: Reading::new(alloc),
            scans: 0,
            transcript: Vec::new(alloc),
            room: RowRoom::new(alloc),
        }
    }

    /// The level at which it began.
    pub fn level(&self) -> IsolationLevel
        ensures { result ≡ self.now.level }
    {
        self.level
    }

    /// The sequence at which it began.
    pub fn begin(&self) -> u64
        ensures { result ≡ self.now.begin }
    {
        self.begin
    }

    /// The batch of its own operations.
    pub fn batch(&self) -> &WriteBatch
        ensures batch { IsBatchOf self.now.ops result.now }
        ensures own { self.now.ops ≡ own_of self.now.transcript }
    {
        &self.batch
    }

    /// Puts a value. Refuses by `EmptyKey`, by `KeyTooLong` above 65535 bytes, by `ValueTooLong` above 2^32 - 1 bytes, in this
    /// order, and by `OutOfMemory`, and then nothing is put.
    pub fn put(
        &mut self,
        alloc: Global,
        key: &[u8],
        value: &[u8],
        options: &PutOptions,
    ) -> Result<(), SlateDBError>
        ensures refused { (e : SlateDBError) → op_refusal key.now (WriteOp.Put value.now options.now) ≡ Some e → result ≡ Err e }
        ensures cause { IfErr result (λ e. (e ≡ SlateDBError.OutOfMemory) ⊎ (op_refusal key.now (WriteOp.Put value.now options.now) ≡ Some e)) }
        ensures fine { OnOk result (op_refusal key.now (WriteOp.Put value.now options.now) ≡ None) }
        ensures taken { OnOk result (self.new ≡ with_op key.now (WriteOp.Put value.now options.now) self.old) }
        ensures same { OnErr result (self.new ≡ self.old) }
    {
        test_put(key, value)?;
        let value = Bytes::copy_from_slice(alloc, value)?;
        self.operate(alloc, key, WriteOp::Put(value, *options))
    }

    /// Deletes the key. Refuses by `EmptyKey`, then by `KeyTooLong` above 65535 bytes, and by `OutOfMemory`, and then nothing is
    /// deleted.
    pub fn delete(&mut self, alloc: Global, key: &[u8]) -> Result<(), SlateDBError>
        ensures refused { (e : SlateDBError) → op_refusal key.now WriteOp.Delete ≡ Some e → result ≡ Err e }
        ensures cause { IfErr result (λ e. (e ≡ SlateDBError.OutOfMemory) ⊎ (op_refusal key.now WriteOp.Delete ≡ Some e)) }
        ensures fine { OnOk result (op_refusal key.now WriteOp.Delete ≡ None) }
        ensures taken { OnOk result (self.new ≡ with_op key.now WriteOp.Delete self.old) }
        ensures same { OnErr result (self.new ≡ self.old) }
    {
        test_key(key)?;
        self.operate(alloc, key, WriteOp::Delete)
    }

    /// Merges an operand behind its own operations of the key. Whether there is an operator is tested above. Refuses by
    /// `EmptyKey`, by `KeyTooLong` above 65535 bytes, by `ValueTooLong` above 2^32 - 1 bytes, in this order, and by
    /// `OutOfMemory`, and then nothing is merged.
    pub fn merge(
        &mut self,
        alloc: Global,
        key: &[u8],
        value: &[u8],
        options: &MergeOptions,
    ) -> Result<(), SlateDBError>
        ensures refused { (e : SlateDBError) → op_refusal key.now (WriteOp.Merge value.now options.now) ≡ Some e → result ≡ Err e }
        ensures cause { IfErr result (λ e. (e ≡ SlateDBError.OutOfMemory) ⊎ (op_refusal key.now (WriteOp.Merge value.now options.now) ≡ Some e)) }
        ensures fine { OnOk result (op_refusal key.now (WriteOp.Merge value.now options.now) ≡ None) }
        ensures taken { OnOk result (self.new ≡ with_op key.now (WriteOp.Merge value.now options.now) self.old) }
        ensures same { OnErr result (self.new ≡ self.old) }
    {
        test_put(key, value)?;
        let value = Bytes::copy_from_slice(alloc, value)?;
        self.operate(alloc, key, WriteOp::Merge(value, *options))
    }

    /// Takes an operation that no test refuses. Where memory is wanting nothing is taken.
    fn operate(&mut self, alloc: Global, key: &[u8], op: WriteOp) -> Result<(), SlateDBError>
        requires { op_refusal key.now op ≡ None }
        ensures taken { OnOk result (self.new ≡ with_op key.now op self.old) }
        ensures same { OnErr result (self.new ≡ self.old) }
        ensures cause { IsOkUnless result SlateDBError.OutOfMemory }
    {
        operate(alloc, &mut self.batch, &mut self.transcript, key, op)
    }

    /// Marks keys as read, at either level. Where memory is wanting none is marked.
    pub fn mark_read(&mut self, alloc: Global, keys: &[Bytes]) -> Result<(), SlateDBError>
        ensures marked { OnOk result (self.new ≡ with_marks keys.now self.old) }
        ensures same { OnErr result (self.new ≡ self.old) }
        ensures cause { IsOkUnless result SlateDBError.OutOfMemory }
    {
        let keys = copies(alloc, keys)?;
        append(&mut self.marked, keys).map_err(SlateDBError::from)
    }

    /// Takes keys out of what the transaction tracks where it writes them. Where memory is wanting none is taken out.
    pub fn unmark_write(&mut self, alloc: Global, keys: &[Bytes]) -> Result<(), SlateDBError>
        ensures unmarked { OnOk result (self.new ≡ with_unmarks keys.now self.old) }
        ensures same { OnErr result (self.new ≡ self.old) }
        ensures cause { IsOkUnless result SlateDBError.OutOfMemory }
    {
        let keys = copies(alloc, keys)?;
        append(&mut self.unmarked, keys).map_err(SlateDBError::from)
    }

    /// Notes a get of this key and its answer. At the serializable level the key counts as read from then on. Where memory is
    /// wanting nothing is noted.
    pub fn note_get(
        &mut self,
        alloc: Global,
        key: Bytes,
        answer: &Option<KeyValue>,
    ) -> Result<(), AllocError>
        ensures noted { OnOk result (self.new ≡ record self.old { transcript = self.old.transcript ++ steps.Get key answer.now ∷ [] }) }
        ensures same { OnErr result (self.new ≡ self.old) }
    {
        match unshared(alloc, &key, answer) {
            Ok(answer) => note(
                self.level,
                &mut self.reading,
                &mut self.transcript,
                TranscriptStep::Get { key, answer },
            ),
            Err(error) => {
                drop(key);
                Err(error)
            }
        }
    }

    /// Notes the opening of a scan, and gives its number among the transaction's scans, from 0. It has read nothing. Where
    /// memory is wanting nothing is noted.
    pub fn note_scan(
        &mut self,
        order: IterationOrder,
        range: &BytesRange,
    ) -> Result<u64, AllocError>
        ensures noted { OnOk result (self.new ≡ record self.old { transcript = self.old.transcript ++ steps.Scan order range.now ∷ [] }) }
        ensures number { IfOk result (λ n. n ≡ count_by is_scan self.old.transcript) }
        ensures same { OnErr result (self.new ≡ self.old) }
    {
        note_scan(
            self.level,
            &mut self.reading,
            &mut self.scans,
            &mut self.transcript,
            order,
            range,
        )
    }

    /// Notes what a scan handed out next: a row, or none at its end. At the serializable level its keys up to that row, or all
    /// of its range, count as read from then on. Where memory is wanting nothing is noted.
    pub fn note_next(
        &mut self,
        alloc: Global,
        scan: u64,
        answer: &Option<KeyValue>,
    ) -> Result<(), AllocError>
        requires { scan < count_by is_scan self.old.transcript }
        ensures noted { OnOk result (self.new ≡ record self.old { transcript = self.old.transcript ++ steps.Next scan answer.now ∷ [] }) }
        ensures same { OnErr result (self.new ≡ self.old) }
    {
        let answer = unshared_next(alloc, &mut self.room, answer)?;
        note(
            self.level,
            &mut self.reading,
            &mut self.transcript,
            TranscriptStep::Next { scan, answer },
        )
    }

    /// Notes a seek of a scan to a key. At the serializable level its keys up to that one count as read from then on. Where
    /// memory is wanting nothing is noted.
    pub fn note_seek(&mut self, alloc: Global, scan: u64, key: &[u8]) -> Result<(), AllocError>
        requires { scan < count_by is_scan self.old.transcript }
        ensures noted { OnOk result (self.new ≡ record self.old { transcript = self.old.transcript ++ steps.Seek scan key.now ∷ [] }) }
        ensures same { OnErr result (self.new ≡ self.old) }
    {
        let key = Bytes::copy_from_slice(alloc, key)?;
        note(
            self.level,
            &mut self.reading,
            &mut self.transcript,
            TranscriptStep::Seek { scan, key },
        )
    }

    /// Notes a view of a range, whose reads aren't noted one by one. At the serializable level all keys of the range count as
    /// read from then on. Where memory is wanting nothing is noted.
    pub fn note_view(&mut self, range: &BytesRange) -> Result<(), AllocError>
        ensures noted { OnOk result (self.new ≡ record self.old { transcript = self.old.transcript ++ steps.View range.now ∷ [] }) }
        ensures same { OnErr result (self.new ≡ self.old) }
    {
        note_view(self.level, &mut self.reading, &mut self.transcript, range)
    }

    /// The rows of its own operations of the key, newest first, to the first that is no merge. They stand above all sequences, and
    /// have no stamps. The one error is `OutOfMemory`.
    pub fn own_rows(&self, alloc: Global, key: &Bytes) -> Result<Vec<RowEntry>, SlateDBError>
        ensures rows { IfOk result (λ rows. rows.items ≡ map (own_row key.now) (reverse (kept self.now.ops key.now))) }
        ensures own { self.now.ops ≡ own_of self.now.transcript }
        ensures fine { AllByRecursion (λ o. op_refusal o.0 o.1 ≡ None) self.now.ops }
        ensures cause { IsOkUnless result SlateDBError.OutOfMemory }
    {
        own_rows(alloc, &self.batch, key)
    }

    /// The rows of its own operations of the keys in the range: keys in the order, and newest first within a key, to the first
    /// that is no merge. They stand above all sequences, and have no stamps. The one error is `OutOfMemory`.
    pub fn own_range(
        &self,
        alloc: Global,
        range: &BytesRange,
        order: IterationOrder,
    ) -> Result<WriteBatchIterator, SlateDBError>
        ensures rows { IfOk result (λ it. (k : List ℕ) → of_key k it.rows ≡ (if in_range range.now k then map (own_row k) (reverse (kept self.now.ops k)) else [])) }
        ensures turn { IfOk result (λ it. AreInTurn (row_before order) it.rows) }
        ensures in_order { IfOk result (λ it. IsInOrder order it.rows) }
        ensures order { IfOk result (λ it. it.order ≡ order) }
        ensures own { self.now.ops ≡ own_of self.now.transcript }
        ensures fine { AllByRecursion (λ o. op_refusal o.0 o.1 ≡ None) self.now.ops }
        ensures cause { IsOkUnless result SlateDBError.OutOfMemory }
    {
        own_range(alloc, &self.batch, range, order)
    }

    /// Tests the transaction against all commits since its begin, by its tracked writes, its marked keys and what it has read.
    /// The manager has tracked nothing of it so far, and then tracks all of these. Refuses by `TransactionConflict`, with
    /// the greatest sequence that conflicts, and by `OutOfMemory`.
    pub fn test(
        self,
        alloc: Global,
        manager: &mut TransactionManager,
        id: &Uuid,
    ) -> Result<Tested, SlateDBError>
        ensures grown { Grown id.now manager.old manager.new }
        ensures handed { IsUntracked manager.old id.now self → OnOk result (IsTracked manager.new id.now self) }
        ensures free { (cs : List Commit) → StandsFor manager.old cs → IsUntracked manager.old id.now self → OnOk result (conflict cs self ≡ None) }
        ensures met { (cs : List Commit) → StandsFor manager.old cs → IsUntracked manager.old id.now self → IfErr result (λ e. (e ≡ SlateDBError.OutOfMemory) ⊎ IsConflict (conflict cs self) e) }
        ensures commits { IfOk result (λ t. CommitsAs self t.batch t.tracked t.transcript) }
    {
        let DbTransactionInner {
            batch,
            marked,
            unmarked,
            reading,
            mut transcript,
            room,
            ..
        } = self;
        drop(room);
        let handed = handed(
            alloc,
            manager,
            id,
            &batch,
            unmarked.as_slice(),
            marked,
            reading,
        );
        drop(unmarked);
        match handed {
            Ok(tracked) => {
                // It is kept for good, and most transcripts are shorter than their room.
                transcript.shrink_to_fit();
                Ok(Tested {
                    batch,
                    tracked,
                    transcript: Transcript::from_vec(transcript),
                })
            }
            Err(error) => {
                drop(batch);
                drop(transcript);
                Err(error)
            }
        }
    }
}

/// What a transaction commits that conflicts with nothing.
#[derive(Drop)]
pub struct Tested {
    pub batch: WriteBatch,
    /// The keys of the batch that aren't unmarked, ascending.
    pub tracked: KeyList,
    pub transcript: Transcript,
}

/// Takes an operation that no test refuses, in the batch and in the transcript. Where memory is wanting nothing is taken.
fn operate(
    alloc: Global,
    batch: &mut WriteBatch,
    transcript: &mut Vec<TranscriptStep>,
    key: &[u8],
    op: WriteOp,
) -> Result<(), SlateDBError>
    requires { op_refusal key.now op ≡ None }
    ensures means { (ops : Ops) → IsBatchOf ops batch.old → OnOk result (IsBatchOf (ops ++ (key.now, op) ∷ []) batch.new) }
    ensures noted { OnOk result (transcript.new.items ≡ transcript.old.items ++ steps.Own key.now op ∷ []) }
    ensures same_batch { OnErr result (batch.new ≡ batch.old) }
    ensures same_steps { OnErr result (transcript.new.items ≡ transcript.old.items) }
    ensures cause { IsOkUnless result SlateDBError.OutOfMemory }
{
    let (key, step) = match own_step(alloc, key, &op, transcript) {
        Ok(made) => made,
        Err(error) => {
            drop(op);
            return Err(SlateDBError::from(error));
        }
    };
    if let Err(error) = take_op(batch, key, op) {
        drop(step);
        return Err(error);
    }
    transcript.push_reserved(step);
    Ok(())
}

/// Takes an operation that no test refuses: a put or a delete in place of all operations of its key, a merge behind them.
fn take_op(batch: &mut WriteBatch, key: Bytes, op: WriteOp) -> Result<(), SlateDBError>
    requires { op_refusal key op ≡ None }
    ensures means { (ops : Ops) → IsBatchOf ops batch.old → OnOk result (IsBatchOf (ops ++ (key, op) ∷ []) batch.new) }
    ensures same { OnErr result (batch.new ≡ batch.old) }
    ensures cause { IsOkUnless result SlateDBError.OutOfMemory }
{
    match op {
        WriteOp::Merge(value, options) => batch.merge_bytes_with_options(key, value, &options),
        WriteOp::Put(value, options) => batch.replace(key, WriteOp::Put(value, options)),
        WriteOp::Delete => batch.replace(key, WriteOp::Delete),
    }
}

/// The key, and the step of the operation, for which the transcript then has room.
fn own_step(
    alloc: Global,
    key: &[u8],
    op: &WriteOp,
    transcript: &mut Vec<TranscriptStep>,
) -> Result<(Bytes, TranscriptStep), AllocError>
    ensures key { IfOk result (λ made. made.0 ≡ key.now) }
    ensures step { IfOk result (λ made. made.1 ≡ steps.Own key.now op.now) }
    ensures room { OnOk result (vec_len transcript.new < vec_capacity transcript.new) }
    ensures items { transcript.new.items ≡ transcript.old.items }
{
    transcript.reserve(1)?;
    let op = op.clone()?;
    match twice(alloc, key) {
        Ok((key, same)) => Ok((key, TranscriptStep::Own { key: same, op })),
        Err(error) => {
            drop(op);
            Err(error)
        }
    }
}

/// The key, and once more.
fn twice(alloc: Global, key: &[u8]) -> Result<(Bytes, Bytes), AllocError>
    ensures { IfOk result (λ both. (both.0 ≡ key.now) × (both.1 ≡ key.now)) }
{
    let key = Bytes::copy_from_slice(alloc, key)?;
    match key.clone() {
        Ok(same) => Ok((key, same)),
        Err(error) => {
            drop(key);
            Err(error)
        }
    }
}

/// The same keys, which share their bytes.
fn copies(alloc: Global, keys: &[Bytes]) -> Result<Vec<Bytes>, AllocError>
    ensures { IfOk result (λ same. same.items ≡ keys.now) }
{
    let mut same = Vec::with_capacity(alloc, keys.len())?;
    for key in keys {
        same.push(key.clone()?)?;
    }
    Ok(same)
}

/// Adds a step, and what it read at the level. Where memory is wanting nothing is added.
fn note(
    level: IsolationLevel,
    reading: &mut Reading,
    transcript: &mut Vec<TranscriptStep>,
    step: TranscriptStep,
) -> Result<(), AllocError>
    ensures read { OnOk result (reading.new ≡ read_on level reading.old step) }
    ensures noted { OnOk result (transcript.new.items ≡ transcript.old.items ++ step ∷ []) }
    ensures same_reading { OnErr result (reading.new ≡ reading.old) }
    ensures same_steps { OnErr result (transcript.new.items ≡ transcript.old.items) }
{
    match track(level, reading, transcript, &step) {
        Ok(()) => {
            transcript.push_reserved(step);
            Ok(())
        }
        Err(error) => {
            drop(step);
            Err(error)
        }
    }
}

/// Makes room for one step, and reads what it reads at the level. Where memory is wanting nothing is read.
fn track(
    level: IsolationLevel,
    reading: &mut Reading,
    transcript: &mut Vec<TranscriptStep>,
    step: &TranscriptStep,
) -> Result<(), AllocError>
    ensures read { OnOk result (reading.new ≡ read_on level reading.old step.now) }
    ensures room { OnOk result (vec_len transcript.new < vec_capacity transcript.new) }
    ensures same { OnErr result (reading.new ≡ reading.old) }
    ensures items { transcript.new.items ≡ transcript.old.items }
{
    transcript.reserve(1)?;
    match level {
        IsolationLevel::Snapshot => Ok(()),
        IsolationLevel::SerializableSnapshot => reading.follow(step),
    }
}

/// Adds the opening of a scan, and counts it. Where memory is wanting nothing is added.
fn note_scan(
    level: IsolationLevel,
    reading: &mut Reading,
    scans: &mut u64,
    transcript: &mut Vec<TranscriptStep>,
    order: IterationOrder,
    range: &BytesRange,
) -> Result<u64, AllocError>
    requires { scans.old ≡ count_by is_scan transcript.old.items }
    ensures read { OnOk result (reading.new ≡ read_on level reading.old (steps.Scan order range.now)) }
    ensures noted { OnOk result (transcript.new.items ≡ transcript.old.items ++ steps.Scan order range.now ∷ []) }
    ensures number { IfOk result (λ n. n ≡ scans.old) }
    ensures counted { OnOk result (scans.new ≡ scans.old + 1) }
    ensures same_reading { OnErr result (reading.new ≡ reading.old) }
    ensures same_steps { OnErr result (transcript.new.items ≡ transcript.old.items) }
    ensures same_count { OnErr result (scans.new ≡ scans.old) }
{
    let range = range.clone()?;
    note(
        level,
        reading,
        transcript,
        TranscriptStep::Scan { order, range },
    )?;
    let number = *scans;
    *scans += 1;
    Ok(number)
}

/// Adds a view of a range. Where memory is wanting nothing is added.
fn note_view(
    level: IsolationLevel,
    reading: &mut Reading,
    transcript: &mut Vec<TranscriptStep>,
    range: &BytesRange,
) -> Result<(), AllocError>
    ensures read { OnOk result (reading.new ≡ read_on level reading.old (steps.View range.now)) }
    ensures noted { OnOk result (transcript.new.items ≡ transcript.old.items ++ steps.View range.now ∷ []) }
    ensures same_reading { OnErr result (reading.new ≡ reading.old) }
    ensures same_steps { OnErr result (transcript.new.items ≡ transcript.old.items) }
{
    let range = range.clone()?;
    note(level, reading, transcript, TranscriptStep::View { range })
}

/// The same answer without the buffers that it came in, of which it may be a small part. Its key shares `key` where they are equal.
fn unshared(
    alloc: Global,
    key: &Bytes,
    answer: &Option<KeyValue>,
) -> Result<Option<KeyValue>, AllocError>
    ensures { IfOk result (λ same. same ≡ answer.now) }
{
    match answer {
        Some(row) => unshared_row(alloc, key, row).map(Some),
        None => Ok(None),
    }
}

/// The same answer without the buffers that it came in, its row in a block of rows.
fn unshared_next(
    alloc: Global,
    room: &mut RowRoom,
    answer: &Option<KeyValue>,
) -> Result<Option<KeyValue>, AllocError>
    ensures { IfOk result (λ same. same ≡ answer.now) }
{
    match answer {
        Some(row) => room.copied(alloc, row).map(Some),
        None => Ok(None),
    }
}

fn unshared_row(alloc: Global, key: &Bytes, row: &KeyValue) -> Result<KeyValue, AllocError>
    ensures { IfOk result (λ same. same ≡ row.now) }
{
    let value = Bytes::copy_from_slice(alloc, row.value.as_slice())?;
    match unshared_key(alloc, key, &row.key) {
        Ok(key) => Ok(KeyValue {
            key,
            value,
            seq: row.seq,
            create_ts: row.create_ts,
            expire_ts: row.expire_ts,
        }),
        Err(error) => {
            drop(value);
            Err(error)
        }
    }
}

fn unshared_key(alloc: Global, key: &Bytes, same: &Bytes) -> Result<Bytes, AllocError>
    ensures { IfOk result (λ own. own ≡ same.now) }
{
    if key == same {
        return key.clone();
    }
    Bytes::copy_from_slice(alloc, same.as_slice())
}

/// The rows of a batch's operations of the key, newest first, to the first that is no merge.
fn own_rows(alloc: Global, batch: &WriteBatch, key: &Bytes) -> Result<Vec<RowEntry>, SlateDBError>
    ensures rows { IfOk result (λ rows. rows.items ≡ map (own_row key.now) (reverse (kept batch.now.ops key.now))) }
    ensures cause { IsOkUnless result SlateDBError.OutOfMemory }
{
    let range = only(key)?;
    let rows = WriteBatchIterator::new(
        alloc,
        batch,
        &range,
        IterationOrder::Ascending,
        u64::MAX,
        None,
        None,
    );
    drop(range);
    let mut rows = rows?;
    newest_of_walk(alloc, &mut rows, key.as_slice(), u64::MAX)
}

/// The rows of a batch's operations of the keys in the range.
fn own_range(
    alloc: Global,
    batch: &WriteBatch,
    range: &BytesRange,
    order: IterationOrder,
) -> Result<WriteBatchIterator, SlateDBError>
    ensures rows { IfOk result (λ it. (k : List ℕ) → of_key k it.rows ≡ (if in_range range.now k then map (own_row k) (reverse (kept batch.now.ops k)) else [])) }
    ensures turn { IfOk result (λ it. AreInTurn (row_before order) it.rows) }
    ensures in_order { IfOk result (λ it. IsInOrder order it.rows) }
    ensures order { IfOk result (λ it. it.order ≡ order) }
    ensures cause { IsOkUnless result SlateDBError.OutOfMemory }
{
    WriteBatchIterator::new(alloc, batch, range, order, u64::MAX, None, None)
}

/// The range of one key.
fn only(key: &Bytes) -> Result<BytesRange, AllocError>
    ensures { IfOk result (λ range. range ≡ only_key key.now) }
{
    let start = key.clone()?;
    match key.clone() {
        Ok(end) => Ok(BytesRange {
            start: Bound::Included(start),
            end: Bound::Included(end),
        }),
        Err(error) => {
            drop(start);
            Err(error)
        }
    }
}

/// Hands over what a conflict takes, and gives the tracked writes where there is none.
fn handed(
    alloc: Global,
    manager: &mut TransactionManager,
    id: &Uuid,
    batch: &WriteBatch,
    unmarked: &[Bytes],
    marked: Vec<Bytes>,
    reading: Reading,
) -> Result<KeyList, SlateDBError>
    ensures grown { Grown id.now manager.old manager.new }
    ensures handed { (n : ℕ) → find_named id.now manager.old.active ≡ Some (untracked n) → OnOk result (HandsOver n (tracked_of batch.now.ops unmarked.now) marked.items reading (find_named id.now manager.new.active)) }
    ensures free { (cs : List Commit) (n : ℕ) → StandsFor manager.old cs → find_named id.now manager.old.active ≡ Some (untracked n) → OnOk result (conflict_of cs n (tracked_of batch.now.ops unmarked.now ++ marked.items) reading ≡ None) }
    ensures met { (cs : List Commit) (n : ℕ) → StandsFor manager.old cs → find_named id.now manager.old.active ≡ Some (untracked n) → IfErr result (λ e. (e ≡ SlateDBError.OutOfMemory) ⊎ IsConflict (conflict_of cs n (tracked_of batch.now.ops unmarked.now ++ marked.items) reading) e) }
    ensures tracked { IfOk result (λ keys. keys ≡ tracked_of batch.now.ops unmarked.now) }
{
    match both_writes(alloc, batch, unmarked) {
        Ok((writes, tracked)) => match test_conflict(manager, id, writes, marked, reading) {
            Ok(()) => Ok(KeyList::from_vec(tracked)),
            Err(error) => {
                drop(tracked);
                Err(error)
            }
        },
        Err(error) => {
            drop(marked);
            drop(reading);
            Err(error)
        }
    }
}

/// The tracked writes, and once more.
fn both_writes(
    alloc: Global,
    batch: &WriteBatch,
    unmarked: &[Bytes],
) -> Result<(Vec<Bytes>, Vec<Bytes>), SlateDBError>
    ensures first { IfOk result (λ both. both.0.items ≡ tracked_of batch.now.ops unmarked.now) }
    ensures second { IfOk result (λ both. both.1.items ≡ tracked_of batch.now.ops unmarked.now) }
    ensures cause { IsOkUnless result SlateDBError.OutOfMemory }
{
    let keys = tracked_writes(batch, unmarked)?;
    match copies(alloc, keys.as_slice()) {
        Ok(same) => Ok((same, keys)),
        Err(error) => {
            drop(keys);
            Err(SlateDBError::from(error))
        }
    }
}

/// The keys of the batch that aren't unmarked, ascending.
fn tracked_writes(batch: &WriteBatch, unmarked: &[Bytes]) -> Result<Vec<Bytes>, SlateDBError>
    ensures keys { IfOk result (λ keys. keys.items ≡ tracked_of batch.now.ops unmarked.now) }
    ensures cause { IsOkUnless result SlateDBError.OutOfMemory }
{
    let mut keys = batch.keys()?;
    keys.retain(
        move |key| -> bool
            ensures test { result ≡ not (among key.now unmarked.entry.now) }
        { !unmarked.contains(key) },
    );
    Ok(keys)
}
