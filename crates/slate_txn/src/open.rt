//! The open transactions.
ghost use Rattle.std.specs.Prelude.{◌≡◌, ◌⊎◌, ◌<◌, ◌≤◌, ◌++◌, ◌∷◌, ℕ, List, [], if◌then◌else◌, count_by, None, Some, Ok, Err, IfErr, IfOk, IsSome, is_some, map, option_map, reverse, OnOk, OnErr, IsOkUnless};
ghost use Rattle.std.specs.BTreeMap.{insert_entry};
ghost use Rattle.std.specs.declared.cmp.Ordering.TheVariants.{Greater};
ghost use Rattle.std.specs.List.{AllByRecursion};
ghost use Rattle.slate_types.specs.declared.error.SlateDBError.{SlateDBError};
ghost use Rattle.slate_types.specs.Iteration.{IsInOrder};
ghost use Rattle.slate_types.specs.Keys.{in_range, key_cmp};
ghost use Rattle.slate_types.specs.RowTurns.{AreInTurn, row_before};
ghost use Rattle.slate_types.specs.Rows.{of_key};
ghost use Rattle.slate_mem.specs.declared.WriteOp.{WriteOp};
ghost use Rattle.slate_mem.specs.Batch.{kept};
ghost use Rattle.slate_mem.specs.Refusals.{op_refusal};
ghost use Rattle.slate_mem.specs.RowOf.{own_row};
ghost use Rattle.slate_txn.specs.declared.event.TranscriptStep.TheVariants as steps;
ghost use Rattle.slate_txn.specs.Alone.{own_of};
ghost use Rattle.slate_txn.specs.Named.{find_named, update_named, without};
ghost use Rattle.slate_txn.specs.State.{Tx, begun};
ghost use Rattle.slate_txn.specs.Step.{is_scan, with_op, with_marks, with_unmarks};
ghost use Rattle.slate_txn.specs.Open.{BeginsRise, least_begin};

use crate::DbTransactionInner;
use bytes::Bytes;
use slate_mem::{WriteBatch, WriteBatchIterator};
use slate_types::{
    BytesRange, IsolationLevel, IterationOrder, KeyValue, MergeOptions, PutOptions, RowEntry,
    SlateDBError,
};
use std::alloc::{AllocError, Global};
use std::collections::BTreeMap;
use std::marker::Model;
use std::mem;
use uuid::Uuid;

/// The open transactions, by their ids.
#[derive(Drop)]
pub struct OpenTransactions {
    by_id: BTreeMap<Uuid, DbTransactionInner>,
}

impl Model for OpenTransactions {
    ghost use Rattle.slate_txn.specs.Open.{Transactions, BeginsRise};

    ghost Value = { Transactions };

    ghost view = { λ s. s.by_id.entries };

    ghost invariant = { λ s. BeginsRise s.by_id.entries };
}

impl OpenTransactions {
    /// None. Takes no memory.
    pub fn new(alloc: Global) -> OpenTransactions
        ensures { result ≡ [] }
    {
        OpenTransactions {
            by_id: BTreeMap::new(alloc),
        }
    }

    /// Whether the id is that of an open transaction.
    pub fn is_open(&self, id: &Uuid) -> bool
        ensures { result ≡ is_some (find_named id.now self.now) }
    {
        self.by_id.contains_key(id)
    }

    /// Opens a transaction under an id past all others, at a sequence that none begins after. Where memory is wanting nothing is
    /// opened.
    pub fn begin(
        &mut self,
        alloc: Global,
        id: Uuid,
        level: IsolationLevel,
        begin: u64,
    ) -> Result<(), SlateDBError>
        requires past { AllByRecursion (λ p. key_cmp id p.0 ≡ Greater) self.old }
        requires newest { AllByRecursion (λ p. p.1.begin ≤ begin) self.old }
        ensures ok { OnOk result (self.new ≡ self.old ++ (id, begun level begin) ∷ []) }
        ensures same { OnErr result (self.new ≡ self.old) }
        ensures cause { IsOkUnless result SlateDBError.OutOfMemory }
    {
        open_at(alloc, &mut self.by_id, id, level, begin)
    }

    /// Takes out the open transaction with this id, and lets go of it.
    pub fn end(&mut self, id: &Uuid)
        ensures { self.new ≡ without id.now self.old }
    {
        take_out(&mut self.by_id, id);
    }

    /// Takes out the open transaction with this id, and gives it.
    pub fn take(&mut self, id: &Uuid) -> Option<DbTransactionInner>
        ensures taken { result ≡ find_named id.now self.old }
        ensures left { self.new ≡ without id.now self.old }
    {
        taken(&mut self.by_id, id)
    }

    /// Puts what a transaction did and saw in the place of what stands under its id, where it began too. It takes no memory.
    pub fn put_back(&mut self, id: &Uuid, own: DbTransactionInner)
        requires { option_map (λ t. t.begin) (find_named id.now self.old) ≡ Some own.begin }
        ensures { self.new ≡ update_named id.now (λ _. own) self.old }
    {
        put_over(&mut self.by_id, id, own);
    }

    /// The least begin, or the newest sequence.
    pub fn barrier(&self, newest: u64) -> u64
        requires { AllByRecursion (λ p. p.1.begin ≤ newest) self.now }
        ensures { result ≡ least_begin newest self.now }
    {
        barrier(&self.by_id, newest)
    }

    /// Where the open transaction with this id began.
    pub fn begin_of(&self, id: &Uuid) -> Option<u64>
        ensures { result ≡ option_map (λ t. t.begin) (find_named id.now self.now) }
    {
        begin_of(&self.by_id, id)
    }

    /// The rows of the open transaction's own operations of the key, newest first, to the first that is no merge. There are none
    /// for an unknown id. The one error is `OutOfMemory`.
    pub fn own_rows(
        &self,
        alloc: Global,
        id: &Uuid,
        key: &Bytes,
    ) -> Result<Vec<RowEntry>, SlateDBError>
        ensures rows { (t : Tx) → find_named id.now self.now ≡ Some t → IfOk result (λ rows. rows.items ≡ map (own_row key.now) (reverse (kept t.ops key.now))) }
        ensures none { find_named id.now self.now ≡ None → IfOk result (λ rows. rows.items ≡ []) }
        ensures own { (t : Tx) → find_named id.now self.now ≡ Some t → t.ops ≡ own_of t.transcript }
        ensures fine { (t : Tx) → find_named id.now self.now ≡ Some t → AllByRecursion (λ o. op_refusal o.0 o.1 ≡ None) t.ops }
        ensures cause { IsOkUnless result SlateDBError.OutOfMemory }
    {
        own_rows(alloc, &self.by_id, id, key)
    }

    /// The rows of the open transaction's own operations of the keys in the range: keys in the order, and newest first within a
    /// key, to the first that is no merge. There are none for an unknown id. The one error is `OutOfMemory`.
    pub fn own_range(
        &self,
        alloc: Global,
        id: &Uuid,
        range: &BytesRange,
        order: IterationOrder,
    ) -> Result<WriteBatchIterator, SlateDBError>
        ensures rows { (t : Tx) → find_named id.now self.now ≡ Some t → IfOk result (λ it. (k : List ℕ) → of_key k it.rows ≡ (if in_range range.now k then map (own_row k) (reverse (kept t.ops k)) else [])) }
        ensures none { find_named id.now self.now ≡ None → IfOk result (λ it. it.rows ≡ []) }
        ensures turn { IfOk result (λ it. AreInTurn (row_before order) it.rows) }
        ensures in_order { IfOk result (λ it. IsInOrder order it.rows) }
        ensures order { IfOk result (λ it. it.order ≡ order) }
        ensures own { (t : Tx) → find_named id.now self.now ≡ Some t → t.ops ≡ own_of t.transcript }
        ensures fine { (t : Tx) → find_named id.now self.now ≡ Some t → AllByRecursion (λ o. op_refusal o.0 o.1 ≡ None) t.ops }
        ensures cause { IsOkUnless result SlateDBError.OutOfMemory }
    {
        own_range(alloc, &self.by_id, id, range, order)
    }

    /// Puts a value in the open transaction with this id. Refuses by `EmptyKey`, by `KeyTooLong` above 65535 bytes, by
    /// `ValueTooLong` above 2^32 - 1 bytes, in this order, and by `OutOfMemory`, and then nothing is put.
    pub fn put(
        &mut self,
        alloc: Global,
        id: &Uuid,
        key: &[u8],
        value: &[u8],
        options: &PutOptions,
    ) -> Result<(), SlateDBError>
        requires { IsSome (find_named id.now self.old) }
        ensures refused { (e : SlateDBError) → op_refusal key.now (WriteOp.Put value.now options.now) ≡ Some e → result ≡ Err e }
        ensures cause { IfErr result (λ e. (e ≡ SlateDBError.OutOfMemory) ⊎ (op_refusal key.now (WriteOp.Put value.now options.now) ≡ Some e)) }
        ensures fine { OnOk result (op_refusal key.now (WriteOp.Put value.now options.now) ≡ None) }
        ensures taken { OnOk result (self.new ≡ update_named id.now (with_op key.now (WriteOp.Put value.now options.now)) self.old) }
        ensures same { OnErr result (self.new ≡ self.old) }
    {
        put(alloc, &mut self.by_id, id, key, value, options)
    }

    /// Deletes the key in the open transaction with this id. Refuses by `EmptyKey`, then by `KeyTooLong` above 65535 bytes, and by
    /// `OutOfMemory`, and then nothing is deleted.
    pub fn delete(&mut self, alloc: Global, id: &Uuid, key: &[u8]) -> Result<(), SlateDBError>
        requires { IsSome (find_named id.now self.old) }
        ensures refused { (e : SlateDBError) → op_refusal key.now WriteOp.Delete ≡ Some e → result ≡ Err e }
        ensures cause { IfErr result (λ e. (e ≡ SlateDBError.OutOfMemory) ⊎ (op_refusal key.now WriteOp.Delete ≡ Some e)) }
        ensures fine { OnOk result (op_refusal key.now WriteOp.Delete ≡ None) }
        ensures taken { OnOk result (self.new ≡ update_named id.now (with_op key.now WriteOp.Delete) self.old) }
        ensures same { OnErr result (self.new ≡ self.old) }
    {
        delete(alloc, &mut self.by_id, id, key)
    }

    /// Merges an operand behind the open transaction's own operations of the key. Whether there is an operator is tested above.
    /// Refuses by `EmptyKey`, by `KeyTooLong` above 65535 bytes, by `ValueTooLong` above 2^32 - 1 bytes, in this order, and by
    /// `OutOfMemory`, and then nothing is merged.
    pub fn merge(
        &mut self,
        alloc: Global,
        id: &Uuid,
        key: &[u8],
        value: &[u8],
        options: &MergeOptions,
    ) -> Result<(), SlateDBError>
        requires { IsSome (find_named id.now self.old) }
        ensures refused { (e : SlateDBError) → op_refusal key.now (WriteOp.Merge value.now options.now) ≡ Some e → result ≡ Err e }
        ensures cause { IfErr result (λ e. (e ≡ SlateDBError.OutOfMemory) ⊎ (op_refusal key.now (WriteOp.Merge value.now options.now) ≡ Some e)) }
        ensures fine { OnOk result (op_refusal key.now (WriteOp.Merge value.now options.now) ≡ None) }
        ensures taken { OnOk result (self.new ≡ update_named id.now (with_op key.now (WriteOp.Merge value.now options.now)) self.old) }
        ensures same { OnErr result (self.new ≡ self.old) }
    {
        merge(alloc, &mut self.by_id, id, key, value, options)
    }

    /// Marks keys as read by the open transaction with this id. Nothing happens for an unknown id. Where memory is wanting none is
    /// marked.
    pub fn mark_read(
        &mut self,
        alloc: Global,
        id: &Uuid,
        keys: &[Bytes],
    ) -> Result<(), SlateDBError>
        ensures marked { OnOk result (self.new ≡ update_named id.now (with_marks keys.now) self.old) }
        ensures same { OnErr result (self.new ≡ self.old) }
        ensures cause { IsOkUnless result SlateDBError.OutOfMemory }
    {
        mark_read(alloc, &mut self.by_id, id, keys)
    }

    /// Takes keys out of what the open transaction with this id tracks where it writes them. Nothing happens for an unknown id.
    /// Where memory is wanting none is taken out.
    pub fn unmark_write(
        &mut self,
        alloc: Global,
        id: &Uuid,
        keys: &[Bytes],
    ) -> Result<(), SlateDBError>
        ensures unmarked { OnOk result (self.new ≡ update_named id.now (with_unmarks keys.now) self.old) }
        ensures same { OnErr result (self.new ≡ self.old) }
        ensures cause { IsOkUnless result SlateDBError.OutOfMemory }
    {
        unmark_write(alloc, &mut self.by_id, id, keys)
    }

    /// Notes a get of this key and its answer in the open transaction with this id. Nothing happens for an unknown id. Where
    /// memory is wanting nothing is noted.
    pub fn note_get(
        &mut self,
        alloc: Global,
        id: &Uuid,
        key: Bytes,
        answer: &Option<KeyValue>,
    ) -> Result<(), AllocError>
        ensures ok { OnOk result (self.new ≡ update_named id.now (λ t. record t { transcript = t.transcript ++ steps.Get key answer.now ∷ [] }) self.old) }
        ensures err { OnErr result (self.new ≡ self.old) }
    {
        note_get(alloc, &mut self.by_id, id, key, answer)
    }

    /// Notes the opening of a scan in the open transaction with this id, and gives its number among the transaction's scans, from
    /// 0. For an unknown id nothing happens, and the number is 0. Where memory is wanting nothing is noted.
    pub fn note_scan(
        &mut self,
        id: &Uuid,
        order: IterationOrder,
        range: &BytesRange,
    ) -> Result<u64, AllocError>
        ensures ok { OnOk result (self.new ≡ update_named id.now (λ t. record t { transcript = t.transcript ++ steps.Scan order range.now ∷ [] }) self.old) }
        ensures number { (t : Tx) → find_named id.now self.old ≡ Some t → IfOk result (λ n. n ≡ count_by is_scan t.transcript) }
        ensures none { find_named id.now self.old ≡ None → result ≡ Ok 0 }
        ensures err { OnErr result (self.new ≡ self.old) }
    {
        note_scan(&mut self.by_id, id, order, range)
    }

    /// Notes what a scan of the open transaction with this id handed out next: a row, or none at its end. Nothing happens for an
    /// unknown id. Where memory is wanting nothing is noted.
    pub fn note_next(
        &mut self,
        alloc: Global,
        id: &Uuid,
        scan: u64,
        answer: &Option<KeyValue>,
    ) -> Result<(), AllocError>
        requires { (t : Tx) → find_named id.now self.old ≡ Some t → scan < count_by is_scan t.transcript }
        ensures ok { OnOk result (self.new ≡ update_named id.now (λ t. record t { transcript = t.transcript ++ steps.Next scan answer.now ∷ [] }) self.old) }
        ensures err { OnErr result (self.new ≡ self.old) }
    {
        note_next(alloc, &mut self.by_id, id, scan, answer)
    }

    /// Notes a seek to a key of a scan of the open transaction with this id. Nothing happens for an unknown id. Where memory is
    /// wanting nothing is noted.
    pub fn note_seek(
        &mut self,
        alloc: Global,
        id: &Uuid,
        scan: u64,
        key: &[u8],
    ) -> Result<(), AllocError>
        requires { (t : Tx) → find_named id.now self.old ≡ Some t → scan < count_by is_scan t.transcript }
        ensures ok { OnOk result (self.new ≡ update_named id.now (λ t. record t { transcript = t.transcript ++ steps.Seek scan key.now ∷ [] }) self.old) }
        ensures err { OnErr result (self.new ≡ self.old) }
    {
        note_seek(alloc, &mut self.by_id, id, scan, key)
    }

    /// Lets go of them.
    pub fn close(self) {
        drop(self);
    }
}

/// Opens a transaction under an id, at a sequence. Where memory is wanting nothing is opened.
fn open_at(
    alloc: Global,
    items: &mut BTreeMap<Uuid, DbTransactionInner>,
    id: Uuid,
    level: IsolationLevel,
    begin: u64,
) -> Result<(), SlateDBError>
    ensures ok { OnOk result (items.new.entries ≡ insert_entry key_cmp items.old.entries id (begun level begin)) }
    ensures err { OnErr result (items.new.entries ≡ items.old.entries) }
    ensures cause { IsOkUnless result SlateDBError.OutOfMemory }
{
    let none = items.insert(id, DbTransactionInner::new(alloc, level, begin))?;
    drop(none);
    Ok(())
}

/// Takes out the open transaction with this id.
fn take_out(items: &mut BTreeMap<Uuid, DbTransactionInner>, id: &Uuid)
    ensures { items.new.entries ≡ without id.now items.old.entries }
{
    drop(items.remove(id));
}

/// Takes out the open transaction with this id, and gives it.
fn taken(items: &mut BTreeMap<Uuid, DbTransactionInner>, id: &Uuid) -> Option<DbTransactionInner>
    ensures taken { result ≡ find_named id.now items.old.entries }
    ensures left { items.new.entries ≡ without id.now items.old.entries }
{
    items.remove(id)
}

/// Puts what a transaction did and saw in the place of what stands under this id.
fn put_over(items: &mut BTreeMap<Uuid, DbTransactionInner>, id: &Uuid, own: DbTransactionInner)
    ensures { items.new.entries ≡ update_named id.now (λ _. own) items.old.entries }
{
    match items.get_mut(id) {
        Some(place) => drop(mem::replace(place, own)),
        None => drop(own),
    }
}

/// The least begin, or the newest sequence. Begins rise with ids, so it is that of the first.
fn barrier(items: &BTreeMap<Uuid, DbTransactionInner>, newest: u64) -> u64
    requires rise { BeginsRise items.now.entries }
    requires within { AllByRecursion (λ p. p.1.begin ≤ newest) items.now.entries }
    ensures { result ≡ least_begin newest items.now.entries }
{
    match items.first_key_value() {
        Some((_, open)) => open.begin(),
        None => newest,
    }
}

/// Where the open transaction with this id began.
fn begin_of(items: &BTreeMap<Uuid, DbTransactionInner>, id: &Uuid) -> Option<u64>
    ensures { result ≡ option_map (λ t. t.begin) (find_named id.now items.now.entries) }
{
    match items.get(id) {
        Some(open) => Some(open.begin()),
        None => None,
    }
}

/// The rows of the open transaction's own operations of the key, and none for an unknown id.
fn own_rows(
    alloc: Global,
    items: &BTreeMap<Uuid, DbTransactionInner>,
    id: &Uuid,
    key: &Bytes,
) -> Result<Vec<RowEntry>, SlateDBError>
    ensures rows { (t : Tx) → find_named id.now items.now.entries ≡ Some t → IfOk result (λ rows. rows.items ≡ map (own_row key.now) (reverse (kept t.ops key.now))) }
    ensures none { find_named id.now items.now.entries ≡ None → IfOk result (λ rows. rows.items ≡ []) }
    ensures own { (t : Tx) → find_named id.now items.now.entries ≡ Some t → t.ops ≡ own_of t.transcript }
    ensures fine { (t : Tx) → find_named id.now items.now.entries ≡ Some t → AllByRecursion (λ o. op_refusal o.0 o.1 ≡ None) t.ops }
    ensures cause { IsOkUnless result SlateDBError.OutOfMemory }
{
    match items.get(id) {
        Some(open) => open.own_rows(alloc, key),
        None => Ok(Vec::new(alloc)),
    }
}

/// The rows of the open transaction's own operations of the keys in the range, and none for an unknown id.
fn own_range(
    alloc: Global,
    items: &BTreeMap<Uuid, DbTransactionInner>,
    id: &Uuid,
    range: &BytesRange,
    order: IterationOrder,
) -> Result<WriteBatchIterator, SlateDBError>
    ensures rows { (t : Tx) → find_named id.now items.now.entries ≡ Some t → IfOk result (λ it. (k : List ℕ) → of_key k it.rows ≡ (if in_range range.now k then map (own_row k) (reverse (kept t.ops k)) else [])) }
    ensures none { find_named id.now items.now.entries ≡ None → IfOk result (λ it. it.rows ≡ []) }
    ensures turn { IfOk result (λ it. AreInTurn (row_before order) it.rows) }
    ensures in_order { IfOk result (λ it. IsInOrder order it.rows) }
    ensures order { IfOk result (λ it. it.order ≡ order) }
    ensures own { (t : Tx) → find_named id.now items.now.entries ≡ Some t → t.ops ≡ own_of t.transcript }
    ensures fine { (t : Tx) → find_named id.now items.now.entries ≡ Some t → AllByRecursion (λ o. op_refusal o.0 o.1 ≡ None) t.ops }
    ensures cause { IsOkUnless result SlateDBError.OutOfMemory }
{
    match items.get(id) {
        Some(open) => open.own_range(alloc, range, order),
        None => no_rows(alloc, range, order),
    }
}

/// The rows in the range of a batch without operations.
fn no_rows(
    alloc: Global,
    range: &BytesRange,
    order: IterationOrder,
) -> Result<WriteBatchIterator, SlateDBError>
    ensures none { IfOk result (λ it. it.rows ≡ []) }
    ensures turn { IfOk result (λ it. AreInTurn (row_before order) it.rows) }
    ensures in_order { IfOk result (λ it. IsInOrder order it.rows) }
    ensures order { IfOk result (λ it. it.order ≡ order) }
    ensures cause { IsOkUnless result SlateDBError.OutOfMemory }
{
    let batch = WriteBatch::new(alloc);
    let rows = WriteBatchIterator::new(alloc, &batch, range, order, u64::MAX, None, None);
    drop(batch);
    rows
}

/// Puts a value in the open transaction with this id.
fn put(
    alloc: Global,
    items: &mut BTreeMap<Uuid, DbTransactionInner>,
    id: &Uuid,
    key: &[u8],
    value: &[u8],
    options: &PutOptions,
) -> Result<(), SlateDBError>
    requires { IsSome (find_named id.now items.old.entries) }
    ensures refused { (e : SlateDBError) → op_refusal key.now (WriteOp.Put value.now options.now) ≡ Some e → result ≡ Err e }
    ensures cause { IfErr result (λ e. (e ≡ SlateDBError.OutOfMemory) ⊎ (op_refusal key.now (WriteOp.Put value.now options.now) ≡ Some e)) }
    ensures fine { OnOk result (op_refusal key.now (WriteOp.Put value.now options.now) ≡ None) }
    ensures taken { OnOk result (items.new.entries ≡ update_named id.now (with_op key.now (WriteOp.Put value.now options.now)) items.old.entries) }
    ensures same { OnErr result (items.new.entries ≡ items.old.entries) }
{
    match items.get_mut(id) {
        Some(open) => open.put(alloc, key, value, options),
        None => unreachable!(),
    }
}

/// Deletes the key in the open transaction with this id.
fn delete(
    alloc: Global,
    items: &mut BTreeMap<Uuid, DbTransactionInner>,
    id: &Uuid,
    key: &[u8],
) -> Result<(), SlateDBError>
    requires { IsSome (find_named id.now items.old.entries) }
    ensures refused { (e : SlateDBError) → op_refusal key.now WriteOp.Delete ≡ Some e → result ≡ Err e }
    ensures cause { IfErr result (λ e. (e ≡ SlateDBError.OutOfMemory) ⊎ (op_refusal key.now WriteOp.Delete ≡ Some e)) }
    ensures fine { OnOk result (op_refusal key.now WriteOp.Delete ≡ None) }
    ensures taken { OnOk result (items.new.entries ≡ update_named id.now (with_op key.now WriteOp.Delete) items.old.entries) }
    ensures same { OnErr result (items.new.entries ≡ items.old.entries) }
{
    match items.get_mut(id) {
        Some(open) => open.delete(alloc, key),
        None => unreachable!(),
    }
}

/// Merges an operand in the open transaction with this id.
fn merge(
    alloc: Global,
    items: &mut BTreeMap<Uuid, DbTransactionInner>,
    id: &Uuid,
    key: &[u8],
    value: &[u8],
    options: &MergeOptions,
) -> Result<(), SlateDBError>
    requires { IsSome (find_named id.now items.old.entries) }
    ensures refused { (e : SlateDBError) → op_refusal key.now (WriteOp.Merge value.now options.now) ≡ Some e → result ≡ Err e }
    ensures cause { IfErr result (λ e. (e ≡ SlateDBError.OutOfMemory) ⊎ (op_refusal key.now (WriteOp.Merge value.now options.now) ≡ Some e)) }
    ensures fine { OnOk result (op_refusal key.now (WriteOp.Merge value.now options.now) ≡ None) }
    ensures taken { OnOk result (items.new.entries ≡ update_named id.now (with_op key.now (WriteOp.Merge value.now options.now)) items.old.entries) }
    ensures same { OnErr result (items.new.entries ≡ items.old.entries) }
{
    match items.get_mut(id) {
        Some(open) => open.merge(alloc, key, value, options),
        None => unreachable!(),
    }
}

/// Marks keys as read by the open transaction with this id.
fn mark_read(
    alloc: Global,
    items: &mut BTreeMap<Uuid, DbTransactionInner>,
    id: &Uuid,
    keys: &[Bytes],
) -> Result<(), SlateDBError>
    ensures marked { OnOk result (items.new.entries ≡ update_named id.now (with_marks keys.now) items.old.entries) }
    ensures same { OnErr result (items.new.entries ≡ items.old.entries) }
    ensures cause { IsOkUnless result SlateDBError.OutOfMemory }
{
    match items.get_mut(id) {
        Some(open) => open.mark_read(alloc, keys),
        None => Ok(()),
    }
}

/// Takes keys out of what the open transaction with this id tracks where it writes them.
fn unmark_write(
    alloc: Global,
    items: &mut BTreeMap<Uuid, DbTransactionInner>,
    id: &Uuid,
    keys: &[Bytes],
) -> Result<(), SlateDBError>
    ensures unmarked { OnOk result (items.new.entries ≡ update_named id.now (with_unmarks keys.now) items.old.entries) }
    ensures same { OnErr result (items.new.entries ≡ items.old.entries) }
    ensures cause { IsOkUnless result SlateDBError.OutOfMemory }
{
    match items.get_mut(id) {
        Some(open) => open.unmark_write(alloc, keys),
        None => Ok(()),
    }
}

/// Notes a get of this key and its answer in the open transaction with this id.
fn note_get(
    alloc: Global,
    items: &mut BTreeMap<Uuid, DbTransactionInner>,
    id: &Uuid,
    key: Bytes,
    answer: &Option<KeyValue>,
) -> Result<(), AllocError>
    ensures ok { OnOk result (items.new.entries ≡ update_named id.now (λ t. record t { transcript = t.transcript ++ steps.Get key answer.now ∷ [] }) items.old.entries) }
    ensures err { OnErr result (items.new.entries ≡ items.old.entries) }
{
    match items.get_mut(id) {
        Some(open) => open.note_get(alloc, key, answer),
        None => {
            drop(key);
            Ok(())
        }
    }
}

/// Notes the opening of a scan in the open transaction with this id, and gives its number, and 0 for an unknown id.
fn note_scan(
    items: &mut BTreeMap<Uuid, DbTransactionInner>,
    id: &Uuid,
    order: IterationOrder,
    range: &BytesRange,
) -> Result<u64, AllocError>
    ensures ok { OnOk result (items.new.entries ≡ update_named id.now (λ t. record t { transcript = t.transcript ++ steps.Scan order range.now ∷ [] }) items.old.entries) }
    ensures number { (t : Tx) → find_named id.now items.old.entries ≡ Some t → IfOk result (λ n. n ≡ count_by is_scan t.transcript) }
    ensures none { find_named id.now items.old.entries ≡ None → result ≡ Ok 0 }
    ensures err { OnErr result (items.new.entries ≡ items.old.entries) }
{
    match items.get_mut(id) {
        Some(open) => open.note_scan(order, range),
        None => Ok(0),
    }
}

/// Notes what a scan of the open transaction with this id handed out next.
fn note_next(
    alloc: Global,
    items: &mut BTreeMap<Uuid, DbTransactionInner>,
    id: &Uuid,
    scan: u64,
    answer: &Option<KeyValue>,
) -> Result<(), AllocError>
    requires { (t : Tx) → find_named id.now items.old.entries ≡ Some t → scan < count_by is_scan t.transcript }
    ensures ok { OnOk result (items.new.entries ≡ update_named id.now (λ t. record t { transcript = t.transcript ++ steps.Next scan answer.now ∷ [] }) items.old.entries) }
    ensures err { OnErr result (items.new.entries ≡ items.old.entries) }
{
    match items.get_mut(id) {
        Some(open) => open.note_next(alloc, scan, answer),
        None => Ok(()),
    }
}

/// Notes a seek of a scan of the open transaction with this id.
fn note_seek(
    alloc: Global,
    items: &mut BTreeMap<Uuid, DbTransactionInner>,
    id: &Uuid,
    scan: u64,
    key: &[u8],
) -> Result<(), AllocError>
    requires { (t : Tx) → find_named id.now items.old.entries ≡ Some t → scan < count_by is_scan t.transcript }
    ensures ok { OnOk result (items.new.entries ≡ update_named id.now (λ t. record t { transcript = t.transcript ++ steps.Seek scan key.now ∷ [] }) items.old.entries) }
    ensures err { OnErr result (items.new.entries ≡ items.old.entries) }
{
    match items.get_mut(id) {
        Some(open) => open.note_seek(alloc, scan, key),
        None => Ok(()),
    }
}
