//! A store in memory, whose calls fail where they are told to.
ghost use Rattle.std.specs.Prelude.{◌≡◌, [], Some, None, IfOk, OnOk, OnErr, IsOkUnless};
ghost use Rattle.slate_store.specs.Placed.{paths_in};
ghost use Rattle.slate_store.specs.Store.{len_of, object_at, part_of, with_object, IsRising};

use crate::faults::FaultPlan;
use crate::object_list::ObjectList;
use crate::{PathText, Store, StoreError};
use bytes::{ByteStr, Bytes};
use std::alloc::{AllocError, Global};
use std::marker::Model;

/// Keeps objects in memory. A call that fails changes nothing.
#[derive(Drop)]
pub struct MemoryStore {
    objects: ObjectList,
    plan: FaultPlan,
    last: usize,
}

impl Model for MemoryStore {
    ghost use Rattle.slate_store.specs.Memory.{MemoryStoreModel};

    ghost Value = { MemoryStoreModel };

    ghost view = { λ s. record { objects = s.objects; plan = record { failing = s.plan.failing.items; calls = s.plan.calls }; faults = s.plan.faults.count } };
}

impl MemoryStore {
    /// A store with no object. `failing` numbers the calls that fail, from 1.
    pub fn new(alloc: Global, failing: Vec<u64>) -> MemoryStore
        ensures objects { result.objects ≡ [] }
        ensures told { ⟦<MemoryStore as Store>⟧.objects result ≡ Some [] }
        ensures plan { result.plan ≡ record { failing = failing.items; calls = 0 } }
        ensures planned { ⟦<MemoryStore as Store>⟧.plan result ≡ Some result.plan }
        ensures faults { result.faults ≡ 0 }
        ensures counted { ⟦<MemoryStore as Store>⟧.faults result ≡ 0 }
    {
        MemoryStore {
            objects: ObjectList::new(alloc),
            plan: FaultPlan::new(failing),
            last: 0,
        }
    }
}

impl Store for MemoryStore {
    ghost objects = { λ s. Some s.objects };

    ghost acts = { λ _. None };

    ghost faults = { λ s. s.faults };

    ghost plan = { λ s. Some s.plan };

    fn put(&mut self, alloc: Global, path: &str, bytes: &[u8]) -> Result<(), StoreError> {
        self.plan.step()?;
        put_object(alloc, &mut self.objects, path, bytes)
    }

    /// Copies no byte of the object: the answer shares its memory.
    fn read_range(
        &mut self,
        alloc: Global,
        path: &str,
        start: u64,
        len: u64,
    ) -> Result<Option<Bytes>, StoreError> {
        self.plan.step()?;
        Ok(read_near(&self.objects, path, start, len, &mut self.last)?)
    }

    fn len(&mut self, alloc: Global, path: &str) -> Result<Option<u64>, StoreError> {
        self.plan.step()?;
        Ok(object_len(&self.objects, path))
    }

    fn list(&mut self, alloc: Global) -> Result<Vec<PathText>, StoreError> {
        self.plan.step()?;
        paths_of(alloc, &self.objects)
    }
}

/// Puts an object in place of one that was there. Where memory is wanting, nothing is done.
pub(crate) fn put_object(
    alloc: Global,
    objects: &mut ObjectList,
    path: &str,
    bytes: &[u8],
) -> Result<(), StoreError>
    ensures taken { OnOk result (objects.new ≡ with_object objects.old path.now bytes.now) }
    ensures refused { OnErr result (objects.new ≡ objects.old) }
    ensures memory { IsOkUnless result StoreError.OutOfMemory }
{
    let path = ByteStr::copy_from_str(alloc, path)?;
    match Bytes::copy_from_slice(alloc, bytes) {
        Ok(bytes) => {
            objects.insert(path, bytes)?;
            Ok(())
        }
        Err(error) => {
            drop(path);
            Err(error.into())
        }
    }
}

/// The length of the object at a path, and none of a missing one.
pub(crate) fn object_len(objects: &ObjectList, path: &str) -> Option<u64>
    ensures { result ≡ len_of (object_at objects.now path.now) }
{
    match objects.get(path) {
        Some(object) => Some(object.len() as u64),
        None => None,
    }
}

/// As `read_object`, of an object that is looked for where the last one was found.
fn read_near(
    objects: &ObjectList,
    path: &str,
    start: u64,
    len: u64,
    last: &mut usize,
) -> Result<Option<Bytes>, AllocError>
    ensures { IfOk result (λ range. range ≡ part_of (object_at objects.now path.now) start len) }
{
    match objects.get_near(path, last) {
        Some(object) => range_of(object, start, len),
        None => Ok(None),
    }
}

/// A range of the object at a path, and none of a missing one.
pub(crate) fn read_object(
    objects: &ObjectList,
    path: &str,
    start: u64,
    len: u64,
) -> Result<Option<Bytes>, AllocError>
    ensures { IfOk result (λ range. range ≡ part_of (object_at objects.now path.now) start len) }
{
    match objects.get(path) {
        Some(object) => range_of(object, start, len),
        None => Ok(None),
    }
}

/// A range of an object, and none past its end.
fn range_of(object: &Bytes, start: u64, len: u64) -> Result<Option<Bytes>, AllocError>
    ensures { IfOk result (λ range. range ≡ part_of (Some object.now) start len) }
{
    let whole = object.len() as u64;
    if start > whole || len > whole - start {
        return Ok(None);
    }
    let (start, end) = (start as usize, (start + len) as usize);
    object.slice(start..end).map(Some)
}

/// The paths of all objects, rising.
pub(crate) fn paths_of(alloc: Global, objects: &ObjectList) -> Result<Vec<PathText>, StoreError>
    ensures paths { IfOk result (λ paths. paths.items ≡ paths_in objects.now) }
    ensures order { IfOk result (λ paths. IsRising paths.items) }
    ensures memory { IsOkUnless result StoreError.OutOfMemory }
{
    let mut paths = Vec::new(alloc);
    let listed = objects.as_slice();
    for object in listed {
        let text = String::from_str(alloc, object.0.as_str())?;
        paths.push(PathText::from_string(text))?;
    }
    Ok(paths)
}
