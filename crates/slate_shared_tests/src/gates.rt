// What waits until another thread has come so far, for at most so many turns.
ghost use Rattle.std.specs.Prelude.{◌≡◌, ◌≤◌, ◌⊎◌, None, Err, IfOk};
ghost use Rattle.slate_types.specs.Faults.{Rose};

use bytes::Bytes;
use slate_store::{MemoryStore, PathText, Store, StoreError};
use slate_types::{BlockTransformer, TransformError};
use std::alloc::Global;
use std::sync::atomic::{AtomicU64, Ordering};
use std::thread;

const TURNS: u32 = 10_000_000;

/// Opens a gate.
pub fn open(gate: &AtomicU64) {
    gate.store(1, Ordering::SeqCst);
}

/// Whether a gate is opened within the turns.
pub fn is_passed(gate: &AtomicU64) -> bool {
    for _turn in 0..TURNS {
        if gate.load(Ordering::SeqCst) != 0 {
            return true;
        }
        thread::yield_now();
    }
    false
}

/// Two gates: the first is opened by a call that has come so far, the second by who lets it go on.
#[derive(Drop)]
pub struct Gates {
    begun: AtomicU64,
    free: AtomicU64,
}

impl Gates {
    /// Both shut.
    pub fn new() -> Gates {
        Gates {
            begun: AtomicU64::new(0),
            free: AtomicU64::new(0),
        }
    }

    /// Whether a call has come so far within the turns.
    pub fn has_begun(&self) -> bool {
        is_passed(&self.begun)
    }

    /// Lets the call go on.
    pub fn let_go(&self) {
        open(&self.free);
    }

    /// Whether two threads have both come here within the turns, of which one is the first.
    pub fn have_met(&self, is_first: bool) -> bool {
        if is_first {
            return self.is_let_go();
        }
        self.let_go();
        self.has_begun()
    }

    // Whether a call that has come so far is let go within the turns.
    fn is_let_go(&self) -> bool {
        open(&self.begun);
        is_passed(&self.free)
    }
}

/// Which calls of a store wait at its gates.
#[derive(Clone, Copy, PartialEq, Eq)]
pub enum Waiting {
    Nothing,
    Reads,
    Puts,
}

/// A store in memory that has gates. A call that waits there and isn't let go fails.
#[derive(Drop)]
pub struct GateStore<'a> {
    memory: MemoryStore,
    gates: &'a Gates,
    waiting: Waiting,
    faults: u64,
}

impl<'a> GateStore<'a> {
    /// A store without objects, no call of which waits. `failing` numbers the calls that fail, from 1.
    pub fn new(alloc: Global, gates: &'a Gates, failing: Vec<u64>) -> GateStore<'a> {
        GateStore {
            memory: MemoryStore::new(alloc, failing),
            gates,
            waiting: Waiting::Nothing,
            faults: 0,
        }
    }

    /// From now on such calls wait.
    pub fn waits(&mut self, waiting: Waiting) {
        self.waiting = waiting;
    }

    // Counts a fault, and gives it.
    fn raise(&mut self) -> StoreError
        ensures fault { result ≡ StoreError.Failed }
        ensures rose { Rose self.old.faults self.new.faults }
        ensures later { self.old.faults ≤ self.new.faults }
    {
        self.faults = self.faults.saturating_add(1);
        StoreError::Failed
    }

    // Waits, where such calls do.
    fn wait(&mut self, call: Waiting) -> Result<(), StoreError>
        ensures later { self.old.faults ≤ self.new.faults }
        ensures still { (result ≡ Err StoreError.Failed) ⊎ (self.new.faults ≡ self.old.faults) }
        ensures cause { result ≡ Err StoreError.Failed → Rose self.old.faults self.new.faults }
    {
        if call != self.waiting || self.gates.is_let_go() {
            return Ok(());
        }
        Err(self.raise())
    }

    // What the store in memory answered: its faults are counted here too.
    fn noted<V: Drop>(&mut self, answer: Result<V, StoreError>) -> Result<V, StoreError>
        ensures later { self.old.faults ≤ self.new.faults }
        ensures still { (result ≡ Err StoreError.Failed) ⊎ (self.new.faults ≡ self.old.faults) }
        ensures cause { result ≡ Err StoreError.Failed → Rose self.old.faults self.new.faults }
    {
        match answer {
            Ok(value) => Ok(value),
            Err(StoreError::OutOfMemory) => Err(StoreError::OutOfMemory),
            Err(StoreError::Failed) => Err(self.raise()),
        }
    }
}

impl Store for GateStore<'_> {
    ghost objects = { λ _. None };

    ghost acts = { λ _. None };

    ghost faults = { λ s. s.faults };

    fn put(&mut self, alloc: Global, path: &str, bytes: &[u8]) -> Result<(), StoreError> {
        self.wait(Waiting::Puts)?;
        let done = self.memory.put(alloc, path, bytes);
        self.noted(done)
    }

    fn read_range(
        &mut self,
        alloc: Global,
        path: &str,
        start: u64,
        len: u64,
    ) -> Result<Option<Bytes>, StoreError> {
        self.wait(Waiting::Reads)?;
        let range = self.memory.read_range(alloc, path, start, len);
        self.noted(range)
    }

    fn len(&mut self, alloc: Global, path: &str) -> Result<Option<u64>, StoreError> {
        let len = self.memory.len(alloc, path);
        self.noted(len)
    }

    fn list(&mut self, alloc: Global) -> Result<Vec<PathText>, StoreError> {
        let paths = self.memory.list(alloc);
        self.noted(paths)
    }
}

/// Leaves bytes as they are. Each call opens one gate and then waits at the other; where that isn't opened it fails.
#[derive(Drop)]
pub struct Meeting<'a> {
    pub mine: &'a AtomicU64,
    pub other: &'a AtomicU64,
    pub faults: u64,
}

impl Meeting<'_> {
    // The bytes, once the other has been called too.
    fn met(&mut self, bytes: Bytes) -> Result<Bytes, TransformError>
        ensures bytes { IfOk result (λ made. made ≡ bytes) }
        ensures later { self.old.faults ≤ self.new.faults }
        ensures still { (result ≡ Err TransformError.Failed) ⊎ (self.new.faults ≡ self.old.faults) }
        ensures cause { result ≡ Err TransformError.Failed → Rose self.old.faults self.new.faults }
    {
        open(self.mine);
        if is_passed(self.other) {
            return Ok(bytes);
        }
        drop(bytes);
        self.faults = self.faults.saturating_add(1);
        Err(TransformError::Failed)
    }
}

impl BlockTransformer for Meeting<'_> {
    ghost encoded = { λ _ bytes. bytes };

    ghost decoded = { λ _ bytes. bytes };

    ghost faults = { λ m. m.faults };

    fn encode(&mut self, _alloc: Global, bytes: Bytes) -> Result<Bytes, TransformError> {
        self.met(bytes)
    }

    fn decode(&mut self, _alloc: Global, bytes: Bytes) -> Result<Bytes, TransformError> {
        self.met(bytes)
    }
}
