//! Where objects stand.
ghost use Rattle.std.specs.Prelude.{◌≡◌, ◌≤◌, ◌⊎◌, ℕ, List, Option, Some, None, IfOk, OnOk, OnErr};
ghost use Rattle.slate_types.specs.Faults.{Rose};
ghost use Rattle.slate_types.specs.Outside.{Objects};
ghost use Rattle.slate_store.specs.Plan.{CountsCall, FailsAsPlanned, Plan};
ghost use Rattle.slate_store.specs.Store.{Act, AddsAct, AnswersLen, AnswersList, AnswersRead, IsRising, LeftAlone, RefusesPut, TakesPut};

use crate::{Failed, PathText};
use bytes::Bytes;
use slate_types::SlateDBError;
use std::alloc::{AllocError, AllocFailed, Global};
use thiserror::Error;

/// Keeps objects, each at its path: bytes that are put whole and read in ranges.
///
/// Objects are told by stores in memory, and not by real ones. Only where they are told is anything said of
/// answers, so a store that answers otherwise tells none.
pub trait Store: Drop {
    /// The objects, rising by path, where the store tells them.
    ghost objects: { Self → Option Objects };

    /// What was put, every read that was returned and every answer of `len`, oldest first, where the store
    /// tells them.
    ghost acts: { Self → Option (List Act) };

    /// The count of faults: it rises with each call that fails, and with no other. It stands still at its
    /// type's end.
    ghost faults: { Self → ℕ };

    /// Which calls are to fail, where the store tells it: then these fail, and no others.
    ghost plan: { Self → Option Plan } = { λ _. None };

    /// Puts the bytes at the path, in place of an object that was there, and changes nothing else. A put that
    /// is refused did that and told it, or did nothing and told nothing, as always where the store tells which calls are to fail.
    fn put(&mut self, alloc: Global, path: &str, bytes: &[u8]) -> Result<(), StoreError>
        ensures taken { (os : Objects) → objects self.old ≡ Some os → OnOk result (TakesPut os path.now bytes.now (objects self.new)) }
        ensures refused { OnErr result (RefusesPut objects acts path.now bytes.now self.old self.new) }
        ensures left { (p : Plan) → plan self.old ≡ Some p → OnErr result (LeftAlone objects acts self.old self.new) }
        ensures act { OnOk result (AddsAct (acts self.old) (Act.put path.now bytes.now) (acts self.new)) }
        ensures later { faults self.old ≤ faults self.new }
        ensures still { (result ≡ Err StoreError.Failed) ⊎ (faults self.new ≡ faults self.old) }
        ensures cause { result ≡ Err StoreError.Failed → Rose (faults self.old) (faults self.new) }
        ensures counted { CountsCall (plan self.old) (plan self.new) }
        ensures planned { FailsAsPlanned (plan self.old) (result ≡ Err StoreError.Failed) };

    /// So many bytes of the object from `start` on: none for a missing object, or for a range past its end.
    fn read_range(
        &mut self,
        alloc: Global,
        path: &str,
        start: u64,
        len: u64,
    ) -> Result<Option<Bytes>, StoreError>
        ensures answer { (os : Objects) → objects self.old ≡ Some os → IfOk result (λ answer. AnswersRead os path.now start len answer) }
        ensures objects { objects self.new ≡ objects self.old }
        ensures act { IfOk result (λ answer. AddsAct (acts self.old) (Act.read path.now start len answer) (acts self.new)) }
        ensures refused_act { OnErr result (acts self.new ≡ acts self.old) }
        ensures later { faults self.old ≤ faults self.new }
        ensures still { (result ≡ Err StoreError.Failed) ⊎ (faults self.new ≡ faults self.old) }
        ensures cause { result ≡ Err StoreError.Failed → Rose (faults self.old) (faults self.new) }
        ensures counted { CountsCall (plan self.old) (plan self.new) }
        ensures planned { FailsAsPlanned (plan self.old) (result ≡ Err StoreError.Failed) };

    /// How many bytes the object has: none for a missing object.
    fn len(&mut self, alloc: Global, path: &str) -> Result<Option<u64>, StoreError>
        ensures answer { (os : Objects) → objects self.old ≡ Some os → IfOk result (λ answer. AnswersLen os path.now answer) }
        ensures objects { objects self.new ≡ objects self.old }
        ensures act { IfOk result (λ answer. AddsAct (acts self.old) (Act.len path.now answer) (acts self.new)) }
        ensures refused_act { OnErr result (acts self.new ≡ acts self.old) }
        ensures later { faults self.old ≤ faults self.new }
        ensures still { (result ≡ Err StoreError.Failed) ⊎ (faults self.new ≡ faults self.old) }
        ensures cause { result ≡ Err StoreError.Failed → Rose (faults self.old) (faults self.new) }
        ensures counted { CountsCall (plan self.old) (plan self.new) }
        ensures planned { FailsAsPlanned (plan self.old) (result ≡ Err StoreError.Failed) };

    /// The paths of all objects, in byte order.
    fn list(&mut self, alloc: Global) -> Result<Vec<PathText>, StoreError>
        ensures answer { (os : Objects) → objects self.old ≡ Some os → IfOk result (λ paths. AnswersList os paths.items) }
        ensures order { (os : Objects) → objects self.old ≡ Some os → IfOk result (λ paths. IsRising paths.items) }
        ensures objects { objects self.new ≡ objects self.old }
        ensures acts { acts self.new ≡ acts self.old }
        ensures later { faults self.old ≤ faults self.new }
        ensures still { (result ≡ Err StoreError.Failed) ⊎ (faults self.new ≡ faults self.old) }
        ensures cause { result ≡ Err StoreError.Failed → Rose (faults self.old) (faults self.new) }
        ensures counted { CountsCall (plan self.old) (plan self.new) }
        ensures planned { FailsAsPlanned (plan self.old) (result ≡ Err StoreError.Failed) };
}

/// Why a store refused a call.
#[derive(Clone, Copy, Debug, PartialEq, Eq, Error)]
pub enum StoreError {
    /// It failed. Its count of faults has risen.
    #[error("the store failed")]
    Failed,
    /// Memory is wanting.
    #[error("out of memory")]
    OutOfMemory,
}

impl From<Failed> for StoreError {
    ghost use Rattle.std.specs.Prelude.{◌≡◌};
    ghost use Rattle.slate_store.specs.declared.store.StoreError.TheVariants as variants;

    ghost from_gives = { λ _ e. e ≡ variants.Failed };

    fn from(_failed: Failed) -> StoreError {
        StoreError::Failed
    }
}

impl From<AllocError> for StoreError {
    ghost use Rattle.std.specs.Prelude.{◌≡◌};
    ghost use Rattle.slate_store.specs.declared.store.StoreError.TheVariants.{OutOfMemory};

    ghost from_gives = { λ _ e. e ≡ OutOfMemory };

    fn from(_error: AllocError) -> StoreError {
        StoreError::OutOfMemory
    }
}

impl<T: Drop> From<AllocFailed<T>> for StoreError {
    ghost use Rattle.std.specs.Prelude.{◌≡◌};
    ghost use Rattle.slate_store.specs.declared.store.StoreError.TheVariants.{OutOfMemory};

    ghost from_gives = { λ _ e. e ≡ OutOfMemory };

    fn from(_failed: AllocFailed<T>) -> StoreError {
        StoreError::OutOfMemory
    }
}

impl From<StoreError> for SlateDBError {
    ghost use Rattle.std.specs.Prelude.{◌≡◌};
    ghost use Rattle.slate_store.specs.Store.{of_store};

    ghost from_gives = { λ error e. e ≡ of_store error };

    fn from(error: StoreError) -> SlateDBError {
        match error {
            StoreError::Failed => SlateDBError::StoreFault,
            StoreError::OutOfMemory => SlateDBError::OutOfMemory,
        }
    }
}
