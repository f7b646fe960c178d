//! Objects in memory.
ghost use Rattle.std.specs.Prelude.{◌≡◌, [], Ok, OnOk, OnErr, IsTrue};
ghost use Rattle.std.specs.Option.{option_copied};
ghost use Rattle.slate_store.specs.Placed.{paths_in, IsPathPlace};
ghost use Rattle.slate_store.specs.Store.{object_at, with_object, IsRising};

use bytes::{ByteStr, Bytes};
use slate_types::compare_keys;
use std::alloc::{AllocError, Global};
use std::cmp::Ordering;
use std::marker::Model;
use std::mem;

/// Objects by rising paths. A path is found by halves, and isn't copied for it.
#[derive(Drop)]
pub struct ObjectList {
    objects: Vec<(ByteStr, Bytes)>,
}

impl Model for ObjectList {
    ghost use Rattle.slate_types.specs.Outside.{Objects};
    ghost use Rattle.slate_store.specs.Placed.{paths_in};
    ghost use Rattle.slate_store.specs.Store.{IsRising};

    ghost Value = { Objects };

    ghost view = { λ l. l.objects.items };

    ghost invariant = { λ l. IsRising (paths_in l.objects.items) };
}

impl ObjectList {
    /// No object. Takes no memory.
    pub fn new(alloc: Global) -> ObjectList
        ensures { result ≡ [] }
    {
        ObjectList {
            objects: Vec::new(alloc),
        }
    }

    /// The object at a path.
    pub fn get(&self, path: &str) -> Option<&Bytes>
        ensures { option_copied result ≡ object_at self.now path.now }
    {
        match place(&self.objects, path) {
            Ok(at) => Some(&self.objects[at].1),
            Err(_) => None,
        }
    }

    /// The object at a path, which is looked for first just before the place of the one that was found last, and there:
    /// of a run of tables that is read, the next one mostly stands so.
    pub fn get_near(&self, path: &str, last: &mut usize) -> Option<&Bytes>
        ensures { option_copied result ≡ object_at self.now path.now }
    {
        match place_near(&self.objects, path, *last) {
            Ok(at) => {
                *last = at;
                Some(&self.objects[at].1)
            }
            Err(_) => None,
        }
    }

    /// Puts an object in place of one that was there. Where memory is wanting, nothing is done.
    pub fn insert(&mut self, path: ByteStr, bytes: Bytes) -> Result<(), AllocError>
        ensures taken { OnOk result (self.new ≡ with_object self.old path bytes) }
        ensures refused { OnErr result (self.new ≡ self.old) }
    {
        match place(&self.objects, path.as_str()) {
            Ok(at) => {
                drop(mem::replace(&mut self.objects[at], (path, bytes)));
                Ok(())
            }
            Err(at) => {
                self.objects.insert(at, (path, bytes))?;
                Ok(())
            }
        }
    }

    /// The objects, by rising paths.
    pub fn as_slice(&self) -> &[(ByteStr, Bytes)]
        ensures objects { result.now ≡ self.now }
        ensures order { IsRising (paths_in self.now) }
    {
        &self.objects
    }
}

/// The place of the object of a path, as `place` answers it, found without a search if it is the hint or the place before.
fn place_near(objects: &[(ByteStr, Bytes)], path: &str, hint: usize) -> Result<usize, usize>
    requires { IsRising (paths_in objects.now) }
    ensures { IsPathPlace objects.now path.now result }
{
    let before = hint.wrapping_sub(1);
    if stands_at(objects, path, before) {
        Ok(before)
    } else if stands_at(objects, path, hint) {
        Ok(hint)
    } else {
        place(objects, path)
    }
}

/// Whether the object of a path is at this place.
fn stands_at(objects: &[(ByteStr, Bytes)], path: &str, at: usize) -> bool
    ensures { IsTrue result → IsPathPlace objects.now path.now (Ok at) }
{
    match objects.get(at) {
        Some(object) => {
            compare_keys(object.0.as_str().as_bytes(), path.as_bytes()) == Ordering::Equal
        }
        None => false,
    }
}

/// The place of the object of a path, or, as an error, the place where it would stand.
fn place(objects: &[(ByteStr, Bytes)], path: &str) -> Result<usize, usize>
    requires { IsRising (paths_in objects.now) }
    ensures { IsPathPlace objects.now path.now result }
{
    let mut low = 0;
    let mut high = objects.len();
    while low < high {
        let middle = low + (high - low) / 2;
        match objects[middle].0.as_str().cmp(path) {
            Ordering::Less => low = middle + 1,
            Ordering::Equal => return Ok(middle),
            Ordering::Greater => high = middle,
        }
    }
    Err(low)
}
