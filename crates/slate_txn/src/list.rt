//! Lists that stand in events and lines. Contracts see each as the list of its items.
ghost use Rattle.std.specs.Prelude.{◌≡◌, IfOk};
ghost use Rattle.slate_mem.specs.Batch.{batch_keys};

use bytes::Bytes;
use slate_mem::WriteOp;
use slate_types::Ulid;
use std::alloc::{AllocError, Global};
use std::collections::BTreeSet;
use std::marker::Model;

/// Keys, as a mark, an unmark and a commit hold them.
#[derive(Drop)]
pub struct KeyList {
    items: Vec<Bytes>,
}

impl Model for KeyList {
    ghost use Rattle.std.specs.Prelude.{ℕ, List};

    ghost Value = { List (List ℕ) };

    ghost view = { λ l. l.items.items };
}

impl Clone for KeyList {
    ghost is_clone = { λ list copy. copy ≡ list };

    fn clone(&self) -> Result<KeyList, AllocError> {
        let items = Vec::from_clones(*self.items.allocator(), self.items.as_slice())?;
        Ok(KeyList { items })
    }
}

impl KeyList {
    /// The list of these keys. Takes no memory.
    pub fn from_vec(items: Vec<Bytes>) -> KeyList
        ensures { result ≡ items.items }
    {
        KeyList { items }
    }

    /// The keys, in their order.
    pub fn as_slice(&self) -> &[Bytes]
        ensures { result.now ≡ self.now }
    {
        self.items.as_slice()
    }
}

/// Operations, each with its key, oldest first.
#[derive(Drop)]
pub struct OpList {
    items: Vec<(Bytes, WriteOp)>,
}

impl Model for OpList {
    ghost use Rattle.slate_mem.specs.Batch.{Ops};

    ghost Value = { Ops };

    ghost view = { λ l. l.items.items };
}

impl Clone for OpList {
    ghost is_clone = { λ list copy. copy ≡ list };

    fn clone(&self) -> Result<OpList, AllocError> {
        let items = Vec::from_clones(*self.items.allocator(), self.items.as_slice())?;
        Ok(OpList { items })
    }
}

impl OpList {
    /// The list of these operations. Takes no memory.
    pub fn from_vec(items: Vec<(Bytes, WriteOp)>) -> OpList
        ensures { result ≡ items.items }
    {
        OpList { items }
    }

    /// The operations, oldest first.
    pub fn as_slice(&self) -> &[(Bytes, WriteOp)]
        ensures { result.now ≡ self.now }
    {
        self.items.as_slice()
    }

    /// The operations, oldest first. Takes no memory.
    pub fn into_vec(self) -> Vec<(Bytes, WriteOp)>
        ensures { result.items ≡ self }
    {
        self.items
    }

    /// The keys of the operations, rising, each once. They are shared.
    ///
    /// # Errors
    ///
    /// `AllocError` where memory is wanting.
    pub fn keys(&self, alloc: Global) -> Result<KeyList, AllocError>
        ensures keys { IfOk result (λ keys. keys ≡ batch_keys self.now) }
    {
        keys_of(alloc, self.as_slice())
    }
}

/// The keys of the operations, rising, each once.
fn keys_of(alloc: Global, ops: &[(Bytes, WriteOp)]) -> Result<KeyList, AllocError>
    ensures keys { IfOk result (λ keys. keys ≡ batch_keys ops.now) }
{
    let mut keys = BTreeSet::new(alloc);
    for (key, _) in ops {
        keys.insert(key.clone()?)?;
    }
    Ok(KeyList::from_vec(listed(alloc, keys)?))
}

/// The keys of the set, rising.
fn listed(alloc: Global, keys: BTreeSet<Bytes>) -> Result<Vec<Bytes>, AllocError>
    ensures keys { IfOk result (λ v. v.items ≡ keys.keys) }
{
    keys.into_iter().collect(alloc)
}

/// Tables, each with its id and its bytes as they were put.
#[derive(Drop)]
pub struct TableList {
    items: Vec<(Ulid, Bytes)>,
}

impl Model for TableList {
    ghost use Rattle.std.specs.Prelude.{ℕ, List};
    ghost use Rattle.slate_types.specs.declared.types.Ulid.{Ulid};

    ghost Value = { List (Ulid × List ℕ) };

    ghost view = { λ l. l.items.items };
}

impl Clone for TableList {
    ghost is_clone = { λ list copy. copy ≡ list };

    fn clone(&self) -> Result<TableList, AllocError> {
        let items = Vec::from_clones(*self.items.allocator(), self.items.as_slice())?;
        Ok(TableList { items })
    }
}

impl TableList {
    /// The list of these tables. Takes no memory.
    pub fn from_vec(items: Vec<(Ulid, Bytes)>) -> TableList
        ensures { result ≡ items.items }
    {
        TableList { items }
    }

    /// The tables, in the order in which they were put.
    pub fn as_slice(&self) -> &[(Ulid, Bytes)]
        ensures { result.now ≡ self.now }
    {
        self.items.as_slice()
    }
}
