//! A batch of operations, which are to become one commit.
ghost use Rattle.std.specs.Prelude.{◌≡◌, ◌⊎◌, ◌≤◌, ◌-◌, ◌^◌, ◌↔◌, ◌++◌, ◌∷◌, ℕ, List, [], true, false, min, length, map, filter_map, option_map, option_to_list, option_copied, Some, None, is_some, IsSome, IsTrue, OnOk, OnErr, IfOk, IfErr, IsOkUnless};
ghost use Rattle.std.specs.BTreeMap as map;
ghost use Rattle.std.specs.BTreeMap.{insert_entry, IsUnchanged};
ghost use Rattle.std.specs.Map.{keys_of};
ghost use Rattle.slate_mem.specs.KeyedOps.{entries_in};
ghost use Rattle.slate_types.specs.declared.error.SlateDBError.{SlateDBError};
ghost use Rattle.slate_types.specs.Keys.{key_cmp, keys_set};
ghost use Rattle.std.specs.List.{cons_option, AllByRecursion};
ghost use Rattle.std.specs.List.Sorted.{IsStrictlySortedBy};
ghost use Rattle.slate_mem.specs.Batch.{Ops, replaces, batch_keys, kept_ops};
ghost use Rattle.slate_mem.specs.Refusals.{first_refusal, key_refusals, value_refusal, op_refusal};
ghost use Rattle.slate_mem.specs.BatchModel.{no_ops, with_op, plain_put, plain_merge, holds_merge, IsBatchOf};
ghost use Rattle.slate_types.specs.Faults.{faults_of};
ghost use Rattle.slate_types.specs.Fold.{Combine, fold_rows, operator_at};
ghost use Rattle.slate_types.specs.Outside.{IsOperatorStill};
ghost use Rattle.slate_mem.specs.CommitRows.{commit_rows, row_bytes};
ghost use Rattle.slate_mem.specs.Kept.{listed, tagged, AreKept, HasMore, IsKept, IsWhole};
ghost use Rattle.slate_mem.specs.BatchRows.{folded_entries, stamped};
ghost use Rattle.slate_mem.specs.KeyTests.{entry_refusals, merges_refusal, point_lengths, prefix_by, prefixes, test_refusals};
ghost use Rattle.slate_mem.specs.Lookup.{IsCallback};

use crate::WriteOp;
use crate::batch_iterator::{Stamps, add_rows};
use crate::key_fold::add_folded;
use crate::key_tests::tested_prefix;
use crate::keyed_ops::KeyedOps;
use bytes::Bytes;
use slate_types::{
    MergeOperator, MergeOptions, NoOperator, PrefixExtractor, PutOptions, RowEntry, SlateDBError,
};
use smallvec::SmallVec;
use std::alloc::{AllocError, Global};
use std::collections::{BTreeMap, BTreeSet};
use std::marker::Model;
use std::slice;

/// Operations that are applied together. Of a key it keeps those from the last put or delete on, oldest first.
/// After a refusal it is as it was.
#[derive(Drop)]
pub struct WriteBatch {
    alloc: Global,
    ops: KeyedOps,
    has_merge_ops: bool,
}

impl Model for WriteBatch {
    ghost use Rattle.slate_mem.specs.BatchModel.{BatchModel};
    ghost use Rattle.slate_mem.specs.Kept.{listed, IsWhole};
    ghost use Rattle.slate_mem.specs.KeyedOps.{entries_in};

    ghost Value = { BatchModel };

    ghost view = { λ b. record { ops = listed (entries_in b.ops); held_merge = b.has_merge_ops } };

    ghost invariant = { λ b. IsWhole (entries_in b.ops) b.has_merge_ops };
}

impl WriteBatch {
    /// A batch without operations.
    pub fn new(alloc: Global) -> WriteBatch
        ensures { result ≡ no_ops }
    {
        WriteBatch {
            alloc,
            ops: KeyedOps::new(alloc),
            has_merge_ops: false,
        }
    }

    /// Puts a value with the default options, in place of all operations of the key. Refuses by `EmptyKey`,
    /// by `KeyTooLong` above 65535 bytes, by `ValueTooLong` above 2^32 - 1 bytes, in this order, and by
    /// `OutOfMemory`.
    pub fn put(&mut self, key: &[u8], value: &[u8]) -> Result<(), SlateDBError>
        ensures refused { (e : SlateDBError) → op_refusal key.now (plain_put value.now) ≡ Some e → result ≡ Err e }
        ensures cause { IfErr result (λ e. (e ≡ SlateDBError.OutOfMemory) ⊎ (op_refusal key.now (plain_put value.now) ≡ Some e)) }
        ensures taken { OnOk result (self.new ≡ with_op self.old key.now (plain_put value.now)) }
        ensures means { (ops : Ops) → IsBatchOf ops self.old → OnOk result (IsBatchOf (ops ++ ((key.now, plain_put value.now) ∷ [])) self.new) }
        ensures same { OnErr result (self.new ≡ self.old) }
    {
        self.put_with_options(key, value, &PutOptions::default())
    }

    /// Puts a value, in place of all operations of the key. Refuses as `put` does.
    pub fn put_with_options(
        &mut self,
        key: &[u8],
        value: &[u8],
        options: &PutOptions,
    ) -> Result<(), SlateDBError>
        ensures refused { (e : SlateDBError) → op_refusal key.now (WriteOp.Put value.now options.now) ≡ Some e → result ≡ Err e }
        ensures cause { IfErr result (λ e. (e ≡ SlateDBError.OutOfMemory) ⊎ (op_refusal key.now (WriteOp.Put value.now options.now) ≡ Some e)) }
        ensures taken { OnOk result (self.new ≡ with_op self.old key.now (WriteOp.Put value.now options.now)) }
        ensures means { (ops : Ops) → IsBatchOf ops self.old → OnOk result (IsBatchOf (ops ++ ((key.now, WriteOp.Put value.now options.now) ∷ [])) self.new) }
        ensures same { OnErr result (self.new ≡ self.old) }
    {
        test_put(key, value)?;
        let value = Bytes::copy_from_slice(self.alloc, value)?;
        self.replace_copied(key, WriteOp::Put(value, *options))
    }

    /// Puts a value that is held already, with the default options, and copies nothing. Refuses as `put` does.
    pub fn put_bytes(&mut self, key: Bytes, value: Bytes) -> Result<(), SlateDBError>
        ensures refused { (e : SlateDBError) → op_refusal key (plain_put value) ≡ Some e → result ≡ Err e }
        ensures cause { IfErr result (λ e. (e ≡ SlateDBError.OutOfMemory) ⊎ (op_refusal key (plain_put value) ≡ Some e)) }
        ensures taken { OnOk result (self.new ≡ with_op self.old key (plain_put value)) }
        ensures means { (ops : Ops) → IsBatchOf ops self.old → OnOk result (IsBatchOf (ops ++ ((key, plain_put value) ∷ [])) self.new) }
        ensures same { OnErr result (self.new ≡ self.old) }
    {
        self.put_bytes_with_options(key, value, &PutOptions::default())
    }

    /// Puts a value that is held already, and copies nothing. Refuses as `put` does.
    pub fn put_bytes_with_options(
        &mut self,
        key: Bytes,
        value: Bytes,
        options: &PutOptions,
    ) -> Result<(), SlateDBError>
        ensures refused { (e : SlateDBError) → op_refusal key (WriteOp.Put value options.now) ≡ Some e → result ≡ Err e }
        ensures cause { IfErr result (λ e. (e ≡ SlateDBError.OutOfMemory) ⊎ (op_refusal key (WriteOp.Put value options.now) ≡ Some e)) }
        ensures taken { OnOk result (self.new ≡ with_op self.old key (WriteOp.Put value options.now)) }
        ensures means { (ops : Ops) → IsBatchOf ops self.old → OnOk result (IsBatchOf (ops ++ ((key, WriteOp.Put value options.now) ∷ [])) self.new) }
        ensures same { OnErr result (self.new ≡ self.old) }
    {
        match test_put(key.as_slice(), value.as_slice()) {
            Ok(()) => self.replace(key, WriteOp::Put(value, *options)),
            Err(refusal) => {
                drop(key);
                drop(value);
                Err(refusal)
            }
        }
    }

    /// Deletes the key, in place of all its operations. Refuses by `EmptyKey`, then by `KeyTooLong` above 65535
    /// bytes, and by `OutOfMemory`.
    pub fn delete(&mut self, key: &[u8]) -> Result<(), SlateDBError>
        ensures refused { (e : SlateDBError) → op_refusal key.now WriteOp.Delete ≡ Some e → result ≡ Err e }
        ensures cause { IfErr result (λ e. (e ≡ SlateDBError.OutOfMemory) ⊎ (op_refusal key.now WriteOp.Delete ≡ Some e)) }
        ensures taken { OnOk result (self.new ≡ with_op self.old key.now WriteOp.Delete) }
        ensures means { (ops : Ops) → IsBatchOf ops self.old → OnOk result (IsBatchOf (ops ++ ((key.now, WriteOp.Delete) ∷ [])) self.new) }
        ensures same { OnErr result (self.new ≡ self.old) }
    {
        test_key(key)?;
        self.replace_copied(key, WriteOp::Delete)
    }

    /// Puts an operand with the default options behind the key's operations. Refuses as `put` does.
    pub fn merge(&mut self, key: &[u8], value: &[u8]) -> Result<(), SlateDBError>
        ensures refused { (e : SlateDBError) → op_refusal key.now (plain_merge value.now) ≡ Some e → result ≡ Err e }
        ensures cause { IfErr result (λ e. (e ≡ SlateDBError.OutOfMemory) ⊎ (op_refusal key.now (plain_merge value.now) ≡ Some e)) }
        ensures taken { OnOk result (self.new ≡ with_op self.old key.now (plain_merge value.now)) }
        ensures means { (ops : Ops) → IsBatchOf ops self.old → OnOk result (IsBatchOf (ops ++ ((key.now, plain_merge value.now) ∷ [])) self.new) }
        ensures same { OnErr result (self.new ≡ self.old) }
    {
        self.merge_with_options(key, value, &MergeOptions::default())
    }

    /// Puts an operand behind the key's operations. Refuses as `put` does.
    pub fn merge_with_options(
        &mut self,
        key: &[u8],
        value: &[u8],
        options: &MergeOptions,
    ) -> Result<(), SlateDBError>
        ensures refused { (e : SlateDBError) → op_refusal key.now (WriteOp.Merge value.now options.now) ≡ Some e → result ≡ Err e }
        ensures cause { IfErr result (λ e. (e ≡ SlateDBError.OutOfMemory) ⊎ (op_refusal key.now (WriteOp.Merge value.now options.now) ≡ Some e)) }
        ensures taken { OnOk result (self.new ≡ with_op self.old key.now (WriteOp.Merge value.now options.now)) }
        ensures means { (ops : Ops) → IsBatchOf ops self.old → OnOk result (IsBatchOf (ops ++ ((key.now, WriteOp.Merge value.now options.now) ∷ [])) self.new) }
        ensures same { OnErr result (self.new ≡ self.old) }
    {
        test_put(key, value)?;
        let value = Bytes::copy_from_slice(self.alloc, value)?;
        match Bytes::copy_from_slice(self.alloc, key) {
            Ok(key) => self.append(key, value, *options),
            Err(error) => {
                drop(value);
                Err(error.into())
            }
        }
    }

    /// Puts an operand that is held already behind the key's operations, and copies nothing. Refuses as `put` does.
    pub fn merge_bytes_with_options(
        &mut self,
        key: Bytes,
        value: Bytes,
        options: &MergeOptions,
    ) -> Result<(), SlateDBError>
        ensures refused { (e : SlateDBError) → op_refusal key (WriteOp.Merge value options.now) ≡ Some e → result ≡ Err e }
        ensures cause { IfErr result (λ e. (e ≡ SlateDBError.OutOfMemory) ⊎ (op_refusal key (WriteOp.Merge value options.now) ≡ Some e)) }
        ensures taken { OnOk result (self.new ≡ with_op self.old key (WriteOp.Merge value options.now)) }
        ensures means { (ops : Ops) → IsBatchOf ops self.old → OnOk result (IsBatchOf (ops ++ ((key, WriteOp.Merge value options.now) ∷ [])) self.new) }
        ensures same { OnErr result (self.new ≡ self.old) }
    {
        match test_put(key.as_slice(), value.as_slice()) {
            Ok(()) => self.append(key, value, *options),
            Err(refusal) => {
                drop(key);
                drop(value);
                Err(refusal)
            }
        }
    }

    /// Whether it has no operations.
    pub fn is_empty(&self) -> bool
        ensures { IsTrue result ↔ (self.now.ops ≡ []) }
    {
        self.ops.is_empty()
    }

    /// Whether it ever took a merge, even one that is replaced by now.
    pub fn has_merge_ops(&self) -> bool
        ensures { result ≡ self.now.held_merge }
    {
        self.has_merge_ops
    }

    /// How many operations it keeps, or the greatest number where they are more.
    pub fn op_count(&self) -> usize
        ensures { result ≡ min (length self.now.ops) (2 ^ 64 - 1) }
    {
        self.ops.count()
    }

    /// An equal batch, which shares keys and values. The one error is `OutOfMemory`.
    pub fn try_clone(&self) -> Result<WriteBatch, SlateDBError>
        ensures copy { IfOk result (λ copy. copy ≡ self.now) }
        ensures cause { IsOkUnless result SlateDBError.OutOfMemory }
    {
        Ok(WriteBatch {
            alloc: self.alloc,
            ops: self.ops.try_clone()?,
            has_merge_ops: self.has_merge_ops,
        })
    }

    /// Its keys, ascending, each once. The one error is `OutOfMemory`.
    pub fn keys(&self) -> Result<Vec<Bytes>, SlateDBError>
        ensures keys { IfOk result (λ keys. keys.items ≡ batch_keys self.now.ops) }
        ensures cause { IsOkUnless result SlateDBError.OutOfMemory }
    {
        Ok(self.ops.keys(self.alloc)?)
    }

    /// Its operations, each with its key: keys rising, and those of a key oldest first. They share keys and values. None
    /// is a merge where none was taken. The one error is `OutOfMemory`.
    pub fn ops(&self, alloc: Global) -> Result<Vec<(Bytes, WriteOp)>, SlateDBError>
        ensures ops { IfOk result (λ ops. ops.items ≡ self.now.ops) }
        ensures kept { kept_ops self.now.ops ≡ self.now.ops }
        ensures fine { AllByRecursion (λ o. op_refusal o.0 o.1 ≡ None) self.now.ops }
        ensures plain { self.now.held_merge ≡ false → holds_merge self.now.ops ≡ false }
        ensures cause { IsOkUnless result SlateDBError.OutOfMemory }
    {
        Ok(self.ops.list(alloc)?)
    }

    /// Its operations by key, oldest first within a key.
    pub(crate) fn entries(&self) -> &KeyedOps
        ensures ops { listed (entries_in result.now) ≡ self.now.ops }
        ensures whole { IsWhole (entries_in result.now) self.now.held_merge }
    {
        &self.ops
    }

    /// The rows of the batch as the commit `seq` of the moment `now`, by key, the segment prefixes of its keys, where there is an
    /// extractor, and how many bytes their keys and values have, or the greatest number where they are more. Refuses first as
    /// `test_entries` does, and has then called no operator; then as `fold_entries` does.
    pub fn extract_entries<M: MergeOperator, X: PrefixExtractor>(
        &self,
        alloc: Global,
        seq: u64,
        now: i64,
        default_ttl_millis: Option<u64>,
        operator: &mut Option<M>,
        extractor: Option<&X>,
    ) -> Result<(Vec<RowEntry>, BTreeSet<Bytes>, u64), SlateDBError>
        ensures fine { OnOk result (first_refusal (test_refusals (is_some operator.old) self.now.held_merge (point_lengths (option_map X.lengths (option_copied extractor.entry))) default_ttl_millis now self.now.ops) ≡ None) }
        ensures rows { IfOk result (λ e. e.0.items ≡ commit_rows (operator_at (option_map M.combine operator.old)) default_ttl_millis seq now self.now.ops) }
        ensures prefixes { IfOk result (λ e. e.1.keys ≡ keys_set (prefixes (point_lengths (option_map X.lengths (option_copied extractor.entry))) self.now.ops)) }
        ensures bytes { IfOk result (λ e. e.2 ≡ min (row_bytes e.0.items) (2 ^ 64 - 1)) }
        ensures uncalled { (e : SlateDBError) → first_refusal (test_refusals (is_some operator.old) self.now.held_merge (point_lengths (option_map X.lengths (option_copied extractor.entry))) default_ttl_millis now self.now.ops) ≡ Some e → operator.new ≡ operator.old }
        ensures same { option_map M.combine operator.new ≡ option_map M.combine operator.old }
        ensures later { faults_of M.faults operator.old ≤ faults_of M.faults operator.new }
        ensures still { IsOperatorStill (faults_of M.faults operator.old) (faults_of M.faults operator.new) result }
        ensures cause { IfErr result (λ e. (e ≡ SlateDBError.OutOfMemory) ⊎ ((first_refusal (test_refusals (is_some operator.old) self.now.held_merge (point_lengths (option_map X.lengths (option_copied extractor.entry))) default_ttl_millis now self.now.ops) ≡ Some e) ⊎ IsCallback (faults_of M.faults operator.old) (faults_of M.faults operator.new) e)) }
    {
        let has_operator = operator.is_some();
        let prefixes = self.test_entries(alloc, now, default_ttl_millis, has_operator, extractor)?;
        let (rows, bytes) = self.fold_entries(alloc, seq, now, default_ttl_millis, operator)?;
        Ok((rows, prefixes, bytes))
    }

    /// The rows of the batch as the commit `seq` of the moment `now`, by key, and how many bytes their keys and values have, or the
    /// greatest number where they are more. It tests nothing: `test_entries` does, and there is an operator where a merge was ever
    /// taken. The operator combines the operands of a key onto its value, or onto none; an operand that stands alone is
    /// taken as it is. `default_ttl_millis` is the database's time to live. `Callback` only where its count of faults rose, or
    /// `OutOfMemory`.
    pub fn fold_entries<M: MergeOperator>(
        &self,
        alloc: Global,
        seq: u64,
        now: i64,
        default_ttl_millis: Option<u64>,
        operator: &mut Option<M>,
    ) -> Result<(Vec<RowEntry>, u64), SlateDBError>
        requires { self.now.held_merge ≡ true → IsSome operator.old }
        ensures rows { IfOk result (λ e. e.0.items ≡ commit_rows (operator_at (option_map M.combine operator.old)) default_ttl_millis seq now self.now.ops) }
        ensures plain { self.now.held_merge ≡ false → IfOk result (λ e. (c : List ℕ → Combine) → e.0.items ≡ commit_rows c default_ttl_millis seq now self.now.ops) }
        ensures bytes { IfOk result (λ e. e.1 ≡ min (row_bytes e.0.items) (2 ^ 64 - 1)) }
        ensures same { option_map M.combine operator.new ≡ option_map M.combine operator.old }
        ensures later { faults_of M.faults operator.old ≤ faults_of M.faults operator.new }
        ensures still { IsOperatorStill (faults_of M.faults operator.old) (faults_of M.faults operator.new) result }
        ensures cause { IfErr result (λ e. (e ≡ SlateDBError.OutOfMemory) ⊎ IsCallback (faults_of M.faults operator.old) (faults_of M.faults operator.new) e) }
        ensures alone { operator.old ≡ None → IsOkUnless result SlateDBError.OutOfMemory }
    {
        let stamps = Stamps {
            seq,
            create_ts: Some(now),
            default_ttl_millis,
        };
        let rows = folded_by(alloc, &self.ops, &stamps, operator)?;
        let bytes = bytes_of(&rows);
        Ok((rows, bytes))
    }

    /// Tests the batch, which is to become a commit of the moment `now`, and gives the segment prefixes of its keys, where
    /// there is an extractor. Calls no operator. `MergeOperatorMissing` where a merge was ever taken and there is no
    /// operator. Then, upwards by key, `EmptySegmentPrefix` where the extractor gives the key no prefix, or an empty one,
    /// and `IncompatibleMergeTtls` where operations of the key that it keeps differ in expiry, with the newest one's and
    /// the first differing older one's. `default_ttl_millis` is the database's time to live. Else `OutOfMemory`.
    pub fn test_entries<X: PrefixExtractor>(
        &self,
        alloc: Global,
        now: i64,
        default_ttl_millis: Option<u64>,
        has_operator: bool,
        extractor: Option<&X>,
    ) -> Result<BTreeSet<Bytes>, SlateDBError>
        ensures operator { (e : SlateDBError) → merges_refusal has_operator self.now.held_merge ≡ Some e → result ≡ Err e }
        ensures fine { OnOk result (first_refusal (test_refusals has_operator self.now.held_merge (point_lengths (option_map X.lengths (option_copied extractor.entry))) default_ttl_millis now self.now.ops) ≡ None) }
        ensures prefixes { IfOk result (λ all. all.keys ≡ keys_set (prefixes (point_lengths (option_map X.lengths (option_copied extractor.entry))) self.now.ops)) }
        ensures cause { IfErr result (λ e. (e ≡ SlateDBError.OutOfMemory) ⊎ (first_refusal (test_refusals has_operator self.now.held_merge (point_lengths (option_map X.lengths (option_copied extractor.entry))) default_ttl_millis now self.now.ops) ≡ Some e)) }
    {
        match test_merges(has_operator, self.has_merge_ops) {
            Ok(()) => test_ops(alloc, &self.ops, default_ttl_millis, now, extractor),
            Err(refusal) => Err(refusal),
        }
    }

    /// Takes a put or a delete of a copy of the key, in place of all its operations.
    fn replace_copied(&mut self, key: &[u8], op: WriteOp) -> Result<(), SlateDBError>
        requires fine { op_refusal key.now op ≡ None }
        requires replaces { replaces op ≡ true }
        ensures taken { OnOk result (self.new ≡ with_op self.old key.now op) }
        ensures means { (ops : Ops) → IsBatchOf ops self.old → OnOk result (IsBatchOf (ops ++ ((key.now, op) ∷ [])) self.new) }
        ensures cause { IsOkUnless result SlateDBError.OutOfMemory }
        ensures same { OnErr result (self.new ≡ self.old) }
    {
        match Bytes::copy_from_slice(self.alloc, key) {
            Ok(key) => self.replace(key, op),
            Err(error) => {
                drop(op);
                Err(error.into())
            }
        }
    }

    /// Takes a put or a delete that no test refuses, in place of all operations of its key, and copies nothing. The one error is
    /// `OutOfMemory`.
    pub fn replace(&mut self, key: Bytes, op: WriteOp) -> Result<(), SlateDBError>
        requires fine { op_refusal key op ≡ None }
        requires replaces { replaces op ≡ true }
        ensures taken { OnOk result (self.new ≡ with_op self.old key op) }
        ensures means { (ops : Ops) → IsBatchOf ops self.old → OnOk result (IsBatchOf (ops ++ ((key, op) ∷ [])) self.new) }
        ensures cause { IsOkUnless result SlateDBError.OutOfMemory }
        ensures same { OnErr result (self.new ≡ self.old) }
    {
        Ok(self.ops.replace(self.alloc, key, op)?)
    }

    /// Takes an operand that no test refuses, behind the operations of its key, and copies nothing. The one error is
    /// `OutOfMemory`.
    fn append(
        &mut self,
        key: Bytes,
        value: Bytes,
        options: MergeOptions,
    ) -> Result<(), SlateDBError>
        requires { op_refusal key (WriteOp.Merge value options) ≡ None }
        ensures taken { OnOk result (self.new ≡ with_op self.old key (WriteOp.Merge value options)) }
        ensures means { (ops : Ops) → IsBatchOf ops self.old → OnOk result (IsBatchOf (ops ++ ((key, WriteOp.Merge value options) ∷ [])) self.new) }
        ensures cause { IsOkUnless result SlateDBError.OutOfMemory }
        ensures same { OnErr result (self.new ≡ self.old) }
    {
        self.ops
            .add(self.alloc, key, WriteOp::Merge(value, options))?;
        self.has_merge_ops = true;
        Ok(())
    }
}

/// Puts an operation behind those of its key.
pub(crate) fn add_op(
    alloc: Global,
    ops: &mut BTreeMap<Bytes, SmallVec<WriteOp, 1>>,
    key: Bytes,
    op: WriteOp,
) -> Result<(), AllocError>
    ensures more { OnOk result (HasMore ops.old.entries ops.new.entries key op) }
    ensures same { OnErr result (ops.new.entries ≡ ops.old.entries) }
{
    match ops.get_mut(&key) {
        Some(list) => {
            drop(key);
            push_op(list, op)
        }
        None => {
            let list = SmallVec::from_buf(alloc, [op]);
            drop(ops.insert(key, list)?);
            Ok(())
        }
    }
}

/// Puts an operation behind others.
fn push_op(list: &mut SmallVec<WriteOp, 1>, op: WriteOp) -> Result<(), AllocError>
    ensures ok { OnOk result (list.new.items ≡ list.old.items ++ (op ∷ [])) }
    ensures err { OnErr result (list.new ≡ list.old) }
{
    list.push(op).map_err(AllocError::from)
}

/// `EmptyKey` exactly at an empty key, and `KeyTooLong` exactly above 65535 bytes.
pub fn test_key(key: &[u8]) -> Result<(), SlateDBError>
    ensures refused { (e : SlateDBError) → first_refusal (key_refusals key.now) ≡ Some e → result ≡ Err e }
    ensures cause { IfErr result (λ e. first_refusal (key_refusals key.now) ≡ Some e) }
    ensures fine { OnOk result (first_refusal (key_refusals key.now) ≡ None) }
{
    if key.is_empty() {
        return Err(SlateDBError::EmptyKey);
    }
    if key.len() > 65535 {
        return Err(SlateDBError::KeyTooLong {
            len: key.len() as u64,
        });
    }
    Ok(())
}

/// What `test_key` refuses, then what `test_value` does.
pub fn test_put(key: &[u8], value: &[u8]) -> Result<(), SlateDBError>
    ensures refused { (e : SlateDBError) → op_refusal key.now (plain_put value.now) ≡ Some e → result ≡ Err e }
    ensures cause { IfErr result (λ e. op_refusal key.now (plain_put value.now) ≡ Some e) }
    ensures fine { OnOk result (op_refusal key.now (plain_put value.now) ≡ None) }
{
    match test_key(key) {
        Ok(()) => test_value(value),
        Err(refusal) => Err(refusal),
    }
}

/// `ValueTooLong` exactly above 2^32 - 1 bytes.
fn test_value(value: &[u8]) -> Result<(), SlateDBError>
    ensures refused { (e : SlateDBError) → value_refusal value.now ≡ Some e → result ≡ Err e }
    ensures cause { IfErr result (λ e. value_refusal value.now ≡ Some e) }
    ensures fine { OnOk result (value_refusal value.now ≡ None) }
{
    if value.len() > 4294967295 {
        return Err(SlateDBError::ValueTooLong {
            len: value.len() as u64,
        });
    }
    Ok(())
}

/// How many operations the keys have together.
pub(crate) fn count_ops(ops: &BTreeMap<Bytes, SmallVec<WriteOp, 1>>) -> usize
    ensures { result ≡ min (length (listed ops.now.entries)) (2 ^ 64 - 1) }
{
    let mut count = 0usize;
    for list in ops.values() {
        count = count.saturating_add(list.len());
    }
    count
}

/// Copies of the operations, each with its key.
pub(crate) fn list_ops(
    alloc: Global,
    ops: &BTreeMap<Bytes, SmallVec<WriteOp, 1>>,
) -> Result<Vec<(Bytes, WriteOp)>, AllocError>
    ensures ops { IfOk result (λ all. all.items ≡ listed ops.now.entries) }
{
    let mut all = Vec::with_capacity(alloc, ops.len())?;
    for (key, list) in ops {
        add_ops(&mut all, key, list.as_slice())?;
    }
    Ok(all)
}

/// Adds copies of a key's operations.
pub(crate) fn add_ops(
    all: &mut Vec<(Bytes, WriteOp)>,
    key: &Bytes,
    ops: &[WriteOp],
) -> Result<(), AllocError>
    ensures ops { OnOk result (all.new.items ≡ all.old.items ++ tagged key.now ops.now) }
{
    for op in ops {
        let key = key.clone()?;
        match op.clone() {
            Ok(op) => all.push((key, op))?,
            Err(error) => {
                drop(key);
                return Err(error);
            }
        }
    }
    Ok(())
}

/// Copies of the keys.
pub(crate) fn list_keys(
    alloc: Global,
    ops: &BTreeMap<Bytes, SmallVec<WriteOp, 1>>,
) -> Result<Vec<Bytes>, AllocError>
    ensures keys { IfOk result (λ keys. keys.items ≡ map.keys ops.now) }
{
    let mut keys = Vec::new(alloc);
    for key in ops.keys() {
        keys.push(key.clone()?)?;
    }
    Ok(keys)
}

/// `MergeOperatorMissing` where a merge was taken and there is no operator.
fn test_merges(has_operator: bool, held_merge: bool) -> Result<(), SlateDBError>
    ensures refused { (e : SlateDBError) → merges_refusal has_operator held_merge ≡ Some e → result ≡ Err e }
    ensures fine { OnOk result (merges_refusal has_operator held_merge ≡ None) }
    ensures cause { IfErr result (λ e. merges_refusal has_operator held_merge ≡ Some e) }
{
    if held_merge && !has_operator {
        return Err(SlateDBError::MergeOperatorMissing);
    }
    Ok(())
}

/// Tests the keys, upwards, and gives their segment prefixes.
fn test_ops<X: PrefixExtractor>(
    alloc: Global,
    ops: &KeyedOps,
    default_ttl_millis: Option<u64>,
    now: i64,
    extractor: Option<&X>,
) -> Result<BTreeSet<Bytes>, SlateDBError>
    ensures fine { OnOk result (first_refusal (entry_refusals (point_lengths (option_map X.lengths (option_copied extractor.entry))) default_ttl_millis now (entries_in ops.now)) ≡ None) }
    ensures prefixes { IfOk result (λ all. all.keys ≡ keys_set (filter_map (prefix_by (point_lengths (option_map X.lengths (option_copied extractor.entry)))) (keys_of (entries_in ops.now)))) }
    ensures cause { IfErr result (λ e. (e ≡ SlateDBError.OutOfMemory) ⊎ (first_refusal (entry_refusals (point_lengths (option_map X.lengths (option_copied extractor.entry))) default_ttl_millis now (entries_in ops.now)) ≡ Some e)) }
{
    match ops {
        KeyedOps::Lone(key, op) => {
            let mut prefixes = BTreeSet::new(alloc);
            let ops = slice::from_ref(op);
            let prefix = tested_prefix(key, ops, default_ttl_millis, now, extractor)?;
            add_prefix(&mut prefixes, prefix)?;
            Ok(prefixes)
        }
        KeyedOps::Map(ops) => test_keys(alloc, ops, default_ttl_millis, now, extractor),
    }
}

/// Tests the keys of a map, upwards, and gives their segment prefixes.
fn test_keys<X: PrefixExtractor>(
    alloc: Global,
    ops: &BTreeMap<Bytes, SmallVec<WriteOp, 1>>,
    default_ttl_millis: Option<u64>,
    now: i64,
    extractor: Option<&X>,
) -> Result<BTreeSet<Bytes>, SlateDBError>
    ensures fine { OnOk result (first_refusal (entry_refusals (point_lengths (option_map X.lengths (option_copied extractor.entry))) default_ttl_millis now ops.now.entries) ≡ None) }
    ensures prefixes { IfOk result (λ all. all.keys ≡ keys_set (filter_map (prefix_by (point_lengths (option_map X.lengths (option_copied extractor.entry)))) (map.keys ops.now))) }
    ensures cause { IfErr result (λ e. (e ≡ SlateDBError.OutOfMemory) ⊎ (first_refusal (entry_refusals (point_lengths (option_map X.lengths (option_copied extractor.entry))) default_ttl_millis now ops.now.entries) ≡ Some e)) }
{
    let mut prefixes = BTreeSet::new(alloc);
    for (key, list) in ops {
        let prefix = tested_prefix(key, list.as_slice(), default_ttl_millis, now, extractor)?;
        add_prefix(&mut prefixes, prefix)?;
    }
    Ok(prefixes)
}

/// Adds a prefix, where there is one.
pub(crate) fn add_prefix(
    prefixes: &mut BTreeSet<Bytes>,
    prefix: Option<Bytes>,
) -> Result<(), AllocError>
    ensures keys { OnOk result ((ps : List (List ℕ)) → IsStrictlySortedBy key_cmp prefixes.old.keys → keys_set (ps ++ prefixes.new.keys) ≡ keys_set (cons_option prefix (ps ++ prefixes.old.keys))) }
    ensures rising { IsStrictlySortedBy key_cmp prefixes.old.keys → OnOk result (IsStrictlySortedBy key_cmp prefixes.new.keys) }
{
    match prefix {
        Some(prefix) => {
            prefixes.insert(prefix)?;
            Ok(())
        }
        None => Ok(()),
    }
}

/// The rows that the operations of each key fold to, keys rising, by an operator or none.
fn folded_by<M: MergeOperator>(
    alloc: Global,
    ops: &KeyedOps,
    stamps: &Stamps,
    operator: &mut Option<M>,
) -> Result<Vec<RowEntry>, SlateDBError>
    requires { AreKept (entries_in ops.now) }
    ensures rows { IfOk result (λ rows. rows.items ≡ folded_entries (operator_at (option_map M.combine operator.old)) stamps.now (entries_in ops.now)) }
    ensures same { option_map M.combine operator.new ≡ option_map M.combine operator.old }
    ensures later { faults_of M.faults operator.old ≤ faults_of M.faults operator.new }
    ensures still { IsOperatorStill (faults_of M.faults operator.old) (faults_of M.faults operator.new) result }
    ensures cause { IfErr result (λ e. (e ≡ SlateDBError.OutOfMemory) ⊎ IsCallback (faults_of M.faults operator.old) (faults_of M.faults operator.new) e) }
    ensures alone { operator.old ≡ None → IsOkUnless result SlateDBError.OutOfMemory }
{
    match operator {
        Some(operator) => folded_rows(alloc, ops, stamps, operator),
        None => folded_rows(alloc, ops, stamps, &mut NoOperator),
    }
}

/// The rows that the operations of each key fold to, keys rising.
fn folded_rows<M: MergeOperator>(
    alloc: Global,
    ops: &KeyedOps,
    stamps: &Stamps,
    operator: &mut M,
) -> Result<Vec<RowEntry>, SlateDBError>
    requires { AreKept (entries_in ops.now) }
    ensures rows { IfOk result (λ rows. rows.items ≡ folded_entries (M.combine operator.old) stamps.now (entries_in ops.now)) }
    ensures same { M.combine operator.new ≡ M.combine operator.old }
    ensures later { M.faults operator.old ≤ M.faults operator.new }
    ensures still { IsOperatorStill (M.faults operator.old) (M.faults operator.new) result }
    ensures cause { IfErr result (λ e. (e ≡ SlateDBError.OutOfMemory) ⊎ IsCallback (M.faults operator.old) (M.faults operator.new) e) }
{
    match ops {
        KeyedOps::Lone(key, op) => {
            let mut rows = Vec::with_capacity(alloc, 1)?;
            let mut own = Vec::new(alloc);
            add_key(
                alloc,
                &mut rows,
                &mut own,
                key,
                slice::from_ref(op),
                stamps,
                operator,
            )?;
            Ok(rows)
        }
        KeyedOps::Map(ops) => folded_keys(alloc, ops, stamps, operator),
    }
}

/// The same of a map.
fn folded_keys<M: MergeOperator>(
    alloc: Global,
    ops: &BTreeMap<Bytes, SmallVec<WriteOp, 1>>,
    stamps: &Stamps,
    operator: &mut M,
) -> Result<Vec<RowEntry>, SlateDBError>
    requires { AreKept ops.now.entries }
    ensures rows { IfOk result (λ rows. rows.items ≡ folded_entries (M.combine operator.old) stamps.now ops.now.entries) }
    ensures same { M.combine operator.new ≡ M.combine operator.old }
    ensures later { M.faults operator.old ≤ M.faults operator.new }
    ensures still { IsOperatorStill (M.faults operator.old) (M.faults operator.new) result }
    ensures cause { IfErr result (λ e. (e ≡ SlateDBError.OutOfMemory) ⊎ IsCallback (M.faults operator.old) (M.faults operator.new) e) }
{
    let mut rows = Vec::with_capacity(alloc, ops.len())?;
    let mut own = Vec::new(alloc);
    for (key, list) in ops {
        add_key(
            alloc,
            &mut rows,
            &mut own,
            key,
            list.as_slice(),
            stamps,
            operator,
        )?;
    }
    Ok(rows)
}

/// Adds the row that the operations of a key fold to. That of a lone operation is its own. The rows of more stand in a list on the
/// way, which is left empty.
fn add_key<M: MergeOperator>(
    alloc: Global,
    rows: &mut Vec<RowEntry>,
    own: &mut Vec<RowEntry>,
    key: &Bytes,
    ops: &[WriteOp],
    stamps: &Stamps,
    operator: &mut M,
) -> Result<(), SlateDBError>
    requires kept { IsKept ops.now }
    requires none { own.old.items ≡ [] }
    ensures row { OnOk result (rows.new.items ≡ rows.old.items
        ++ option_to_list (fold_rows (M.combine operator.old key.now) (map (stamped stamps.now key.now) ops.now))) }
    ensures none { OnOk result (own.new.items ≡ []) }
    ensures same { M.combine operator.new ≡ M.combine operator.old }
    ensures later { M.faults operator.old ≤ M.faults operator.new }
    ensures still { IsOperatorStill (M.faults operator.old) (M.faults operator.new) result }
    ensures cause { IfErr result (λ e. (e ≡ SlateDBError.OutOfMemory)
        ⊎ IsCallback (M.faults operator.old) (M.faults operator.new) e) }
{
    if ops.len() == 1 {
        return add_rows(rows, key, ops, stamps);
    }
    add_rows(own, key, ops, stamps)?;
    add_folded(alloc, rows, own, operator)
}

/// The bytes of keys and values, or the greatest number where they are more.
fn bytes_of(rows: &[RowEntry]) -> u64
    ensures { result ≡ min (row_bytes rows.now) (2 ^ 64 - 1) }
{
    let mut bytes = 0u64;
    for row in rows {
        bytes = bytes
            .saturating_add(row.key.len() as u64)
            .saturating_add(row.value.len() as u64);
    }
    bytes
}
