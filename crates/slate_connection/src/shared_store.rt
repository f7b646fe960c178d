//! One store that threads share.
ghost use Rattle.std.specs.Prelude.{◌≡◌, ◌≤◌, ◌⊎◌, Err};
ghost use Rattle.slate_types.specs.Faults.{Rose};
ghost use Rattle.slate_store.specs.declared.store.StoreError.{StoreError};

use bytes::Bytes;
use slate_store::{PathText, Store, StoreError};
use std::alloc::Global;
use std::sync::{Mutex, Wait};

/// A thread's way to a store that other threads reach too: what one puts, the others read. Each
/// call takes the lock for as long as the store takes. Since others may put at any moment, it tells
/// no objects, and so nothing is said of what a read answers.
#[derive(Drop)]
pub struct SharedStore<'a, R: Wait, S: Store> {
    rt: &'a R,
    store: &'a Mutex<S>,
    faults: u64,
}

impl<'a, R: Wait, S: Store> SharedStore<'a, R, S> {
    /// Returns a way to the store under the lock, which counts the faults of its own calls.
    pub fn new(rt: &'a R, store: &'a Mutex<S>) -> SharedStore<'a, R, S> {
        SharedStore {
            rt,
            store,
            faults: 0,
        }
    }

    /// Counts a fault, if the answer is one, and hands the answer on.
    fn counted<A>(&mut self, answer: Result<A, StoreError>) -> Result<A, StoreError>
        ensures same { result ≡ answer }
        ensures later { self.old.faults ≤ self.new.faults }
        ensures still { (answer ≡ Err StoreError.Failed) ⊎ (self.new.faults ≡ self.old.faults) }
        ensures cause { answer ≡ Err StoreError.Failed → Rose self.old.faults self.new.faults }
    {
        if let Err(StoreError::Failed) = &answer {
            self.faults = self.faults.saturating_add(1);
        }
        answer
    }
}

impl<R: Wait, S: Store> Store for SharedStore<'_, R, S> {
    ghost use Rattle.std.specs.Prelude.{None};

    ghost objects = { λ _. None };

    ghost acts = { λ _. None };

    ghost faults = { λ s. s.faults };

    fn put(&mut self, alloc: Global, path: &str, bytes: &[u8]) -> Result<(), StoreError> {
        let answer = self.store.lock(self.rt).put(alloc, path, bytes);
        self.counted(answer)
    }

    fn read_range(
        &mut self,
        alloc: Global,
        path: &str,
        start: u64,
        len: u64,
    ) -> Result<Option<Bytes>, StoreError> {
        let answer = self.store.lock(self.rt).read_range(alloc, path, start, len);
        self.counted(answer)
    }

    fn len(&mut self, alloc: Global, path: &str) -> Result<Option<u64>, StoreError> {
        let answer = self.store.lock(self.rt).len(alloc, path);
        self.counted(answer)
    }

    fn list(&mut self, alloc: Global) -> Result<Vec<PathText>, StoreError> {
        let answer = self.store.lock(self.rt).list(alloc);
        self.counted(answer)
    }
}
