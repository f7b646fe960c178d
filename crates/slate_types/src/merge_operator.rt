//! What makes one value of a value and the operands above it.
ghost use Rattle.std.specs.Prelude.{◌≡◌, ◌≤◌, ◌↔◌, ◌⊎◌, ℕ, List, [], Option, None, option_copied, IfOk};
ghost use Rattle.slate_types.specs.Faults.{Rose};
ghost use Rattle.slate_types.specs.Fold.{Combine, KeepsShort, merge_all};

use crate::error::SlateDBError;
use bytes::Bytes;
use std::alloc::{AllocError, AllocFailed, Global};
use std::fmt::{self, Display, Formatter, Write};
use thiserror::Error;

/// Why an operator gives no value.
#[derive(Debug, Drop, Error)]
pub enum MergeOperatorError {
    /// Neither an operand nor a value to merge.
    EmptyBatch,
    /// It failed. Its count of faults has risen.
    Callback { message: Bytes },
    /// Memory is wanting.
    OutOfMemory,
}

impl Display for MergeOperatorError {
    fn fmt<W: Write>(&self, f: &mut Formatter<W>) -> fmt::Result {
        match self {
            Self::EmptyBatch => f.write_str("nothing to merge"),
            Self::Callback { message } => write!(f, "the merge operator failed: {message:?}"),
            Self::OutOfMemory => f.write_str("out of memory"),
        }
    }
}

impl From<AllocError> for MergeOperatorError {
    ghost use Rattle.slate_types.specs.declared.merge_operator.MergeOperatorError.TheVariants.{OutOfMemory};

    ghost from_gives = { λ _ e. e ≡ OutOfMemory };

    fn from(_error: AllocError) -> MergeOperatorError {
        MergeOperatorError::OutOfMemory
    }
}

impl<T: Drop> From<AllocFailed<T>> for MergeOperatorError {
    ghost use Rattle.slate_types.specs.declared.merge_operator.MergeOperatorError.TheVariants.{OutOfMemory};

    ghost from_gives = { λ _ e. e ≡ OutOfMemory };

    fn from(_failed: AllocFailed<T>) -> MergeOperatorError {
        MergeOperatorError::OutOfMemory
    }
}

impl From<MergeOperatorError> for SlateDBError {
    ghost use Rattle.slate_types.specs.Refusals.{of_operator};

    ghost from_gives = { λ error e. e ≡ of_operator error };

    fn from(error: MergeOperatorError) -> SlateDBError {
        match error {
            MergeOperatorError::EmptyBatch => SlateDBError::EmptyBatch,
            MergeOperatorError::Callback { message } => SlateDBError::Callback { message },
            MergeOperatorError::OutOfMemory => SlateDBError::OutOfMemory,
        }
    }
}

/// Combines an operand onto what stands below it. What it makes of a key, an existing value and an operand
/// is a function of these alone, which no call changes.
pub trait MergeOperator: Drop {
    /// What it makes of a key, an existing value, where there is one, and an operand.
    ghost combine: { Self → List ℕ → Combine };

    /// The count of faults: it rises only with a call that answers `Callback`. It stands still at its type's end.
    ghost faults: { Self → ℕ };

    /// Combines the value onto the existing one. Answers `Callback` only where the count of faults rose,
    /// and never `EmptyBatch`.
    fn merge(
        &mut self,
        alloc: Global,
        key: &Bytes,
        existing_value: Option<&Bytes>,
        value: &Bytes,
    ) -> Result<Bytes, MergeOperatorError>
        ensures value { IfOk result (λ made. made ≡ combine self.old key.now (option_copied existing_value.entry) value.now) }
        ensures some { ¬ (result ≡ Err MergeOperatorError.EmptyBatch) }
        ensures same { combine self.new ≡ combine self.old }
        ensures later { faults self.old ≤ faults self.new }
        ensures still { ((message : List ℕ) × (result ≡ Err (MergeOperatorError.Callback message))) ⊎ (faults self.new ≡ faults self.old) }
        ensures cause { (message : List ℕ) → result ≡ Err (MergeOperatorError.Callback message) → Rose (faults self.old) (faults self.new) };

    /// Combines the operands onto the existing value one after the other, the oldest first. Answers
    /// `EmptyBatch` exactly where there is neither an operand nor an existing value, and `Callback` only
    /// where the count of faults rose.
    fn merge_batch(
        &mut self,
        alloc: Global,
        key: &Bytes,
        existing_value: Option<&Bytes>,
        operands: &[Bytes],
    ) -> Result<Bytes, MergeOperatorError>
        ensures value { IfOk result (λ made. merge_all (combine self.old key.now) (option_copied existing_value.entry) operands.now ≡ Some made) }
        ensures empty { (result ≡ Err MergeOperatorError.EmptyBatch) ↔ ((option_copied existing_value.entry ≡ None) × (operands.now ≡ [])) }
        ensures same { combine self.new ≡ combine self.old }
        ensures later { faults self.old ≤ faults self.new }
        ensures still { ((message : List ℕ) × (result ≡ Err (MergeOperatorError.Callback message))) ⊎ (faults self.new ≡ faults self.old) }
        ensures cause { (message : List ℕ) → result ≡ Err (MergeOperatorError.Callback message) → Rose (faults self.old) (faults self.new) }
    {
        let mut merged = existing_value.cloned()?;
        for operand in operands {
            let made = self.merge(alloc, key, merged.as_ref(), operand);
            drop(merged);
            merged = Some(made?);
        }
        merged.ok_or(MergeOperatorError::EmptyBatch)
    }

    /// Short values give a short one.
    ghost short: { (operator : Self) (key : List ℕ) → KeepsShort (combine operator key) };
}

/// Keeps the newest operand. It stands where there is no operator, and is never asked.
#[derive(Drop)]
pub struct NoOperator;

impl MergeOperator for NoOperator {
    ghost combine = { λ _ key existing value. value };

    ghost short = { λ operator key existing value given held. held };

    ghost faults = { λ _. 0 };

    fn merge(
        &mut self,
        _alloc: Global,
        _key: &Bytes,
        _existing_value: Option<&Bytes>,
        value: &Bytes,
    ) -> Result<Bytes, MergeOperatorError> {
        value.clone().map_err(MergeOperatorError::from)
    }
}
