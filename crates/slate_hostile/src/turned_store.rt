//! A store in memory that changes a byte.
ghost use Rattle.std.specs.Prelude.{None};

use bytes::Bytes;
use slate_store::{MemoryStore, PathText, Store, StoreError};
use std::alloc::Global;

/// Keeps objects as they are put, but one byte of one of them: so many were put before it, and these of its bits are turned.
#[derive(Drop)]
pub struct TurnedStore {
    memory: MemoryStore,
    at: usize,
    mask: u8,
    put: usize,
}

impl TurnedStore {
    pub fn new(alloc: Global, at: usize, mask: u8) -> TurnedStore {
        TurnedStore {
            memory: MemoryStore::new(alloc, Vec::new(alloc)),
            at,
            mask,
            put: 0,
        }
    }

    /// How many bytes were put.
    pub fn put_bytes(&self) -> usize {
        self.put
    }
}

/// Turns these bits of a byte, where it is there.
fn turn(bytes: &mut [u8], at: usize, mask: u8) {
    if at < bytes.len() {
        bytes[at] ^= mask;
    }
}

impl Store for TurnedStore {
    ghost objects = { λ _. None };

    ghost acts = { λ _. None };

    ghost faults = { λ s. s.memory.faults };

    fn put(&mut self, alloc: Global, path: &str, bytes: &[u8]) -> Result<(), StoreError> {
        let mut kept = bytes.to_vec(alloc)?;
        if let Some(at) = self.at.checked_sub(self.put) {
            turn(kept.as_mut_slice(), at, self.mask);
        }
        self.put = self.put.saturating_add(kept.len());
        let done = self.memory.put(alloc, path, kept.as_slice());
        drop(kept);
        done
    }

    fn read_range(
        &mut self,
        alloc: Global,
        path: &str,
        start: u64,
        len: u64,
    ) -> Result<Option<Bytes>, StoreError> {
        self.memory.read_range(alloc, path, start, len)
    }

    fn len(&mut self, alloc: Global, path: &str) -> Result<Option<u64>, StoreError> {
        self.memory.len(alloc, path)
    }

    fn list(&mut self, alloc: Global) -> Result<Vec<PathText>, StoreError> {
        self.memory.list(alloc)
    }
}
