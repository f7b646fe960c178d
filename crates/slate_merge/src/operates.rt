//! What folds operands.
ghost use Rattle.std.specs.Prelude.{◌≡◌, ◌⊎◌, ◌<◌, [], length, is_some, None, Some, IfOk, IfErr, option_copied};
ghost use Rattle.slate_types.specs.declared.error.SlateDBError.{SlateDBError};
ghost use Rattle.slate_types.specs.Fold.{merge_all, operator_at};
ghost use Rattle.slate_types.specs.Outside.{IsFault, IsStill, OnlyReads};
ghost use Rattle.slate_types.specs.World.{IsCall};

use bytes::Bytes;
use slate_store::{Env, Store};
use slate_types::{BlockTransformer, MergeOperator, Outside, SlateDBError};
use std::alloc::Global;

/// What calls reach outside, where there may be an operator among it.
pub trait Operates: Outside {
    /// Whether there is an operator.
    fn has_operator(&self) -> bool
        ensures { result ≡ is_some (Self.reach self.now).meaning.combine };

    /// Combines the operands onto the existing value, where there is one, the oldest first. It reads nothing. Answers
    /// `MergeOperatorMissing` only where there is no operator, and `Callback` only where the operator's count of faults rose.
    fn combine_all(
        &mut self,
        alloc: Global,
        key: &Bytes,
        existing: Option<&Bytes>,
        operands: &[Bytes],
    ) -> Result<Bytes, SlateDBError>
        requires { 0 < length operands.now }
        ensures value { IfOk result (λ made. merge_all (operator_at (Self.reach self.old).meaning.combine key.now) (option_copied existing.entry) operands.now ≡ Some made) }
        ensures cause { IfErr result (λ e. IsFault (Self.reach self.old) (Self.reach self.new) e ⊎ ((e ≡ SlateDBError.MergeOperatorMissing) × ((Self.reach self.old).meaning.combine ≡ None))) }
        ensures call { IsCall (Self.reach self.old) (Self.reach self.new) [] }
        ensures reads { OnlyReads (Self.reach self.old) (Self.reach self.new) }
        ensures counts { IsStill (Self.reach self.old).faults (Self.reach self.new).faults result };
}

/// No operator.
impl Operates for () {
    fn has_operator(&self) -> bool {
        false
    }

    #[tactic(auto, using(slate_types::proofs::Reaching::reads_none, slate_types::proofs::Calls::call_none))]
    fn combine_all(
        &mut self,
        _alloc: Global,
        _key: &Bytes,
        _existing: Option<&Bytes>,
        _operands: &[Bytes],
    ) -> Result<Bytes, SlateDBError> {
        Err(SlateDBError::MergeOperatorMissing)
    }
}

/// The operator that the caller hands in, where there is one.
impl<S: Store, M: MergeOperator, T: BlockTransformer> Operates for Env<'_, S, M, T> {
    fn has_operator(&self) -> bool {
        self.operator.is_some()
    }

    #[tactic(auto, using(slate_types::proofs::Reaching::reads_none, slate_types::proofs::Calls::call_none))]
    fn combine_all(
        &mut self,
        alloc: Global,
        key: &Bytes,
        existing: Option<&Bytes>,
        operands: &[Bytes],
    ) -> Result<Bytes, SlateDBError> {
        match &mut self.operator {
            Some(operator) => match operator.merge_batch(alloc, key, existing, operands) {
                Ok(made) => Ok(made),
                Err(error) => Err(SlateDBError::from(error)),
            },
            None => Err(SlateDBError::MergeOperatorMissing),
        }
    }
}
