//! A store in memory that threads share.
ghost use Rattle.std.specs.Prelude.{◌≡◌, ◌≤◌, ◌⊎◌, None, Err};
ghost use Rattle.slate_types.specs.Faults.{Rose};

use bytes::Bytes;
use slate_store::{MemoryStore, PathText, Store, StoreError};
use std::alloc::Global;
use std::sync::{Mutex, Wait};

/// What a thread reaches of the store. Each call takes its lock.
#[derive(Drop)]
pub struct SharedStore<'a, R> {
    rt: &'a R,
    memory: &'a Mutex<MemoryStore>,
    faults: u64,
}

impl<'a, R: Wait> SharedStore<'a, R> {
    pub fn new(rt: &'a R, memory: &'a Mutex<MemoryStore>) -> SharedStore<'a, R> {
        SharedStore {
            rt,
            memory,
            faults: 0,
        }
    }

    // What the store answered: its faults are counted here too.
    fn noted<V: Drop>(&mut self, answer: Result<V, StoreError>) -> Result<V, StoreError>
        ensures later { self.old.faults ≤ self.new.faults }
        ensures still { (result ≡ Err StoreError.Failed) ⊎ (self.new.faults ≡ self.old.faults) }
        ensures cause { result ≡ Err StoreError.Failed → Rose self.old.faults self.new.faults }
    {
        match answer {
            Ok(value) => Ok(value),
            Err(StoreError::OutOfMemory) => Err(StoreError::OutOfMemory),
            Err(StoreError::Failed) => {
                self.faults = self.faults.saturating_add(1);
                Err(StoreError::Failed)
            }
        }
    }
}

impl<R: Wait> Store for SharedStore<'_, R> {
    ghost objects = { λ _. None };

    ghost acts = { λ _. None };

    ghost faults = { λ s. s.faults };

    fn put(&mut self, alloc: Global, path: &str, bytes: &[u8]) -> Result<(), StoreError> {
        let mut memory = self.memory.lock(self.rt);
        let done = memory.put(alloc, path, bytes);
        drop(memory);
        self.noted(done)
    }

    fn read_range(
        &mut self,
        alloc: Global,
        path: &str,
        start: u64,
        len: u64,
    ) -> Result<Option<Bytes>, StoreError> {
        let mut memory = self.memory.lock(self.rt);
        let range = memory.read_range(alloc, path, start, len);
        drop(memory);
        self.noted(range)
    }

    fn len(&mut self, alloc: Global, path: &str) -> Result<Option<u64>, StoreError> {
        let mut memory = self.memory.lock(self.rt);
        let len = memory.len(alloc, path);
        drop(memory);
        self.noted(len)
    }

    fn list(&mut self, alloc: Global) -> Result<Vec<PathText>, StoreError> {
        let mut memory = self.memory.lock(self.rt);
        let paths = memory.list(alloc);
        drop(memory);
        self.noted(paths)
    }
}
