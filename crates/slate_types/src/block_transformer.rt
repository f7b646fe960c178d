//! What changes the bytes of a table's parts on their way to the store and back.
ghost use Rattle.std.specs.Prelude.{◌≡◌, ◌≤◌, ◌⊎◌, ℕ, List, IfOk};
ghost use Rattle.slate_types.specs.Faults.{Rose};

use crate::error::SlateDBError;
use bytes::Bytes;
use std::alloc::{AllocError, AllocFailed, Global};
use std::fmt::{self, Display, Formatter, Write};
use thiserror::Error;

/// Why a transformer gives no bytes.
#[derive(Clone, Copy, Debug, Error)]
pub enum TransformError {
    /// It failed. Its count of faults has risen.
    Failed,
    /// Memory is wanting.
    OutOfMemory,
}

impl Display for TransformError {
    fn fmt<W: Write>(&self, f: &mut Formatter<W>) -> fmt::Result {
        f.write_str(match self {
            Self::Failed => "the block transformer failed",
            Self::OutOfMemory => "out of memory",
        })
    }
}

impl From<AllocError> for TransformError {
    ghost use Rattle.slate_types.specs.declared.block_transformer.TransformError.TheVariants.{OutOfMemory};

    ghost from_gives = { λ _ e. e ≡ OutOfMemory };

    fn from(_error: AllocError) -> TransformError {
        TransformError::OutOfMemory
    }
}

impl<T: Drop> From<AllocFailed<T>> for TransformError {
    ghost use Rattle.slate_types.specs.declared.block_transformer.TransformError.TheVariants.{OutOfMemory};

    ghost from_gives = { λ _ e. e ≡ OutOfMemory };

    fn from(_failed: AllocFailed<T>) -> TransformError {
        TransformError::OutOfMemory
    }
}

impl From<TransformError> for SlateDBError {
    ghost use Rattle.slate_types.specs.Refusals.{of_transformer};

    ghost from_gives = { λ error e. e ≡ of_transformer error };

    fn from(error: TransformError) -> SlateDBError {
        match error {
            TransformError::Failed => SlateDBError::BlockTransformError,
            TransformError::OutOfMemory => SlateDBError::OutOfMemory,
        }
    }
}

/// Changes bytes before they are stored, as by encryption, and changes them back once they are read. What
/// it makes of bytes is a function of the bytes alone, which no call changes.
pub trait BlockTransformer: Drop {
    /// What is stored for bytes.
    ghost encoded: { Self → List ℕ → List ℕ };

    /// What is read from stored bytes.
    ghost decoded: { Self → List ℕ → List ℕ };

    /// The count of faults: it rises only with a call that answers `Failed`. It stands still at its type's end.
    ghost faults: { Self → ℕ };

    /// The bytes to store. Answers `Failed` only where the count of faults rose.
    fn encode(&mut self, alloc: Global, bytes: Bytes) -> Result<Bytes, TransformError>
        ensures bytes { IfOk result (λ made. made ≡ encoded self.old bytes) }
        ensures same_encoded { encoded self.new ≡ encoded self.old }
        ensures same_decoded { decoded self.new ≡ decoded self.old }
        ensures later { faults self.old ≤ faults self.new }
        ensures still { (result ≡ Err TransformError.Failed) ⊎ (faults self.new ≡ faults self.old) }
        ensures cause { result ≡ Err TransformError.Failed → Rose (faults self.old) (faults self.new) };

    /// The bytes of stored ones. Answers `Failed` only where the count of faults rose.
    fn decode(&mut self, alloc: Global, bytes: Bytes) -> Result<Bytes, TransformError>
        ensures bytes { IfOk result (λ made. made ≡ decoded self.old bytes) }
        ensures same_encoded { encoded self.new ≡ encoded self.old }
        ensures same_decoded { decoded self.new ≡ decoded self.old }
        ensures later { faults self.old ≤ faults self.new }
        ensures still { (result ≡ Err TransformError.Failed) ⊎ (faults self.new ≡ faults self.old) }
        ensures cause { result ≡ Err TransformError.Failed → Rose (faults self.old) (faults self.new) };
}

/// Leaves bytes as they are. It stands where there is no transformer, and is never asked.
#[derive(Drop)]
pub struct NoTransformer;

impl BlockTransformer for NoTransformer {
    ghost encoded = { λ _ bytes. bytes };

    ghost decoded = { λ _ bytes. bytes };

    ghost faults = { λ _. 0 };

    fn encode(&mut self, _alloc: Global, bytes: Bytes) -> Result<Bytes, TransformError> {
        Ok(bytes)
    }

    fn decode(&mut self, _alloc: Global, bytes: Bytes) -> Result<Bytes, TransformError> {
        Ok(bytes)
    }
}
