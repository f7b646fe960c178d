//! Operations by key, as a batch keeps them.
ghost use Rattle.std.specs.Prelude.{◌≡◌, ◌↔◌, ◌-◌, ◌^◌, List, [], ◌∷◌, min, length, IfOk, OnOk, OnErr, IsTrue};
ghost use Rattle.std.specs.List.Sorted.{IsStrictlySortedBy};
ghost use Rattle.std.specs.Map.{keys_of};
ghost use Rattle.std.specs.BTreeMap.{insert_entry};
ghost use Rattle.slate_types.specs.Keys.{key_cmp};
ghost use Rattle.slate_mem.specs.Kept.{listed, HasMore, IsCopied};
ghost use Rattle.slate_mem.specs.KeyedOps.{entries_in, one_op};
ghost use Rattle.slate_mem.specs.contracts.WriteOpClone.TheImpl as op_clone;

use crate::WriteOp;
use crate::batch::{add_op, add_ops, count_ops, list_keys, list_ops};
use bytes::Bytes;
use smallvec::SmallVec;
use std::alloc::{AllocError, Global};
use std::collections::BTreeMap;
use std::{mem, slice};

/// Operations by key, oldest first within a key. An operation that is alone takes no map, whose least node has room for many.
#[derive(Drop)]
pub(crate) enum KeyedOps {
    Lone(Bytes, WriteOp),
    Map(BTreeMap<Bytes, SmallVec<WriteOp, 1>>),
}

impl KeyedOps {
    /// No operations.
    pub(crate) fn new(alloc: Global) -> KeyedOps
        ensures { entries_in result ≡ [] }
    {
        KeyedOps::Map(BTreeMap::new(alloc))
    }

    /// Whether there are none.
    pub(crate) fn is_empty(&self) -> bool
        ensures { IsTrue result ↔ (entries_in self.now ≡ []) }
    {
        match self {
            KeyedOps::Lone(..) => false,
            KeyedOps::Map(ops) => ops.is_empty(),
        }
    }

    /// How many there are, or the greatest number where they are more.
    pub(crate) fn count(&self) -> usize
        ensures { result ≡ min (length (listed (entries_in self.now))) (2 ^ 64 - 1) }
    {
        match self {
            KeyedOps::Lone(..) => 1,
            KeyedOps::Map(ops) => count_ops(ops),
        }
    }

    /// Copies of them, which share keys and values.
    pub(crate) fn try_clone(&self) -> Result<KeyedOps, AllocError>
        ensures copy { IfOk result (λ copy. IsCopied op_clone.ghosts.is_clone (entries_in self.now) (entries_in copy)) }
    {
        match self {
            KeyedOps::Lone(key, op) => {
                let key = key.clone()?;
                match op.clone() {
                    Ok(op) => Ok(KeyedOps::Lone(key, op)),
                    Err(error) => {
                        drop(key);
                        Err(error)
                    }
                }
            }
            KeyedOps::Map(ops) => Ok(KeyedOps::Map(ops.clone()?)),
        }
    }

    /// Copies of the keys.
    pub(crate) fn keys(&self, alloc: Global) -> Result<Vec<Bytes>, AllocError>
        ensures keys { IfOk result (λ keys. keys.items ≡ keys_of (entries_in self.now)) }
    {
        match self {
            KeyedOps::Lone(key, _) => {
                let mut keys = Vec::with_capacity(alloc, 1)?;
                keys.push(key.clone()?)?;
                Ok(keys)
            }
            KeyedOps::Map(ops) => list_keys(alloc, ops),
        }
    }

    /// Copies of the operations, each with its key.
    pub(crate) fn list(&self, alloc: Global) -> Result<Vec<(Bytes, WriteOp)>, AllocError>
        ensures ops { IfOk result (λ all. all.items ≡ listed (entries_in self.now)) }
    {
        match self {
            KeyedOps::Lone(key, op) => {
                let mut all = Vec::with_capacity(alloc, 1)?;
                add_ops(&mut all, key, slice::from_ref(op))?;
                Ok(all)
            }
            KeyedOps::Map(ops) => list_ops(alloc, ops),
        }
    }

    /// Puts an operation in place of those of its key.
    pub(crate) fn replace(
        &mut self,
        alloc: Global,
        key: Bytes,
        op: WriteOp,
    ) -> Result<(), AllocError>
        ensures entries { OnOk result (entries_in self.new ≡ insert_entry key_cmp (entries_in self.old) key (one_op op)) }
        ensures rising { OnOk result (IsStrictlySortedBy key_cmp (keys_of (entries_in self.new))) }
        ensures same { OnErr result (entries_in self.new ≡ entries_in self.old) }
    {
        if self.is_empty() {
            drop(mem::replace(self, KeyedOps::Lone(key, op)));
            return Ok(());
        }
        let both = match self {
            KeyedOps::Lone(first, own) => {
                let mut both = map_of(alloc, first, own)?;
                replace_op(alloc, &mut both, key, op)?;
                both
            }
            KeyedOps::Map(all) => return replace_op(alloc, all, key, op),
        };
        drop(mem::replace(self, KeyedOps::Map(both)));
        Ok(())
    }

    /// Puts an operation behind those of its key.
    pub(crate) fn add(&mut self, alloc: Global, key: Bytes, op: WriteOp) -> Result<(), AllocError>
        ensures more { OnOk result (HasMore (entries_in self.old) (entries_in self.new) key op) }
        ensures same { OnErr result (entries_in self.new ≡ entries_in self.old) }
    {
        if self.is_empty() {
            drop(mem::replace(self, KeyedOps::Lone(key, op)));
            return Ok(());
        }
        let both = match self {
            KeyedOps::Lone(first, own) => {
                let mut both = map_of(alloc, first, own)?;
                add_op(alloc, &mut both, key, op)?;
                both
            }
            KeyedOps::Map(all) => return add_op(alloc, all, key, op),
        };
        drop(mem::replace(self, KeyedOps::Map(both)));
        Ok(())
    }
}

/// A map of copies of a key and its operation.
fn map_of(
    alloc: Global,
    key: &Bytes,
    op: &WriteOp,
) -> Result<BTreeMap<Bytes, SmallVec<WriteOp, 1>>, AllocError>
    ensures entry { IfOk result (λ ops. ops.entries ≡ (key.now, one_op op.now) ∷ []) }
{
    let mut ops = BTreeMap::new(alloc);
    let key = key.clone()?;
    match op.clone() {
        Ok(op) => replace_op(alloc, &mut ops, key, op)?,
        Err(error) => {
            drop(key);
            return Err(error);
        }
    }
    Ok(ops)
}

/// Puts an operation in place of those of its key.
fn replace_op(
    alloc: Global,
    ops: &mut BTreeMap<Bytes, SmallVec<WriteOp, 1>>,
    key: Bytes,
    op: WriteOp,
) -> Result<(), AllocError>
    ensures entries { OnOk result (ops.new.entries ≡ insert_entry key_cmp ops.old.entries key (one_op op)) }
    ensures rising { OnOk result (IsStrictlySortedBy key_cmp (keys_of ops.new.entries)) }
    ensures same { OnErr result (ops.new.entries ≡ ops.old.entries) }
{
    drop(ops.insert(key, SmallVec::from_buf(alloc, [op]))?);
    Ok(())
}
