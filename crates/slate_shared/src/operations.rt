//! Own operations of a transaction, which take no lock.
ghost use Rattle.std.specs.Prelude.{◌≡◌, ◌⊎◌, None, Some, Err, IfErr, IsSome, OnOk, OnErr};
ghost use Rattle.slate_types.specs.declared.error.SlateDBError.{SlateDBError};
ghost use Rattle.slate_mem.specs.BatchModel.{plain_put, plain_merge};
ghost use Rattle.slate_mem.specs.declared.WriteOp.{WriteOp};
ghost use Rattle.slate_mem.specs.Refusals.{op_refusal};
ghost use Rattle.slate_txn.specs.Step.{with_op};

use crate::parts::Parts;
use crate::txn::DbTransaction;
use slate_store::{Env, EnvOf, Store};
use slate_types::{
    BlockTransformer, MergeOperator, MergeOptions, Outside, PutOptions, SlateDBError,
};

impl<P: Parts> DbTransaction<P> {
    /// Puts a value with the default options. It takes no lock. Refuses as `put_with_options` does.
    pub fn put(&mut self, key: &[u8], value: &[u8]) -> Result<(), SlateDBError>
        ensures refused { (e : SlateDBError) → op_refusal key.now (plain_put value.now) ≡ Some e → result ≡ Err e }
        ensures cause { IfErr result (λ e. (e ≡ SlateDBError.OutOfMemory) ⊎ (op_refusal key.now (plain_put value.now) ≡ Some e)) }
        ensures taken { OnOk result (self.new ≡ record self.old { tx = with_op key.now (plain_put value.now) self.old.tx }) }
        ensures same { OnErr result (self.new ≡ self.old) }
    {
        self.put_with_options(key, value, &PutOptions::default())
    }

    /// Merges an operand with the default options. It takes no lock. Refuses as `merge_with_options` does.
    pub fn merge<S: Store, M: MergeOperator, T: BlockTransformer>(
        &mut self,
        key: &[u8],
        value: &[u8],
        env: &mut Env<'_, S, M, T>,
    ) -> Result<(), SlateDBError>
        requires parts { let reach = ⟦<EnvOf<S, M, T> as Outside>⟧.reach in (reach env.old).meaning ≡ P.meaning }
        ensures missing { P.meaning.combine ≡ None → result ≡ Err SlateDBError.MergeOperatorMissing }
        ensures refused { (e : SlateDBError) → IsSome P.meaning.combine → op_refusal key.now (plain_merge value.now) ≡ Some e → result ≡ Err e }
        ensures cause { IfErr result (λ e. (e ≡ SlateDBError.OutOfMemory) ⊎ ((e ≡ SlateDBError.MergeOperatorMissing) × (P.meaning.combine ≡ None)) ⊎ (op_refusal key.now (plain_merge value.now) ≡ Some e)) }
        ensures taken { OnOk result (self.new ≡ record self.old { tx = with_op key.now (plain_merge value.now) self.old.tx }) }
        ensures same { OnErr result (self.new ≡ self.old) }
        ensures outside { env.new ≡ env.old }
    {
        self.merge_with_options(key, value, &MergeOptions::default(), env)
    }

    /// Merges an operand behind its own operations of the key. It takes no lock, and calls no operator. Refuses by
    /// `MergeOperatorMissing` exactly where there is no operator; then by `EmptyKey`, by `KeyTooLong` above 65535 bytes, by
    /// `ValueTooLong` above 2^32 - 1 bytes, in this order, and by `OutOfMemory`, and then nothing is merged.
    pub fn merge_with_options<S: Store, M: MergeOperator, T: BlockTransformer>(
        &mut self,
        key: &[u8],
        value: &[u8],
        options: &MergeOptions,
        env: &mut Env<'_, S, M, T>,
    ) -> Result<(), SlateDBError>
        requires parts { let reach = ⟦<EnvOf<S, M, T> as Outside>⟧.reach in (reach env.old).meaning ≡ P.meaning }
        ensures missing { P.meaning.combine ≡ None → result ≡ Err SlateDBError.MergeOperatorMissing }
        ensures refused { (e : SlateDBError) → IsSome P.meaning.combine → op_refusal key.now (WriteOp.Merge value.now options.now) ≡ Some e → result ≡ Err e }
        ensures cause { IfErr result (λ e. (e ≡ SlateDBError.OutOfMemory) ⊎ ((e ≡ SlateDBError.MergeOperatorMissing) × (P.meaning.combine ≡ None)) ⊎ (op_refusal key.now (WriteOp.Merge value.now options.now) ≡ Some e)) }
        ensures taken { OnOk result (self.new ≡ record self.old { tx = with_op key.now (WriteOp.Merge value.now options.now) self.old.tx }) }
        ensures same { OnErr result (self.new ≡ self.old) }
        ensures outside { env.new ≡ env.old }
    {
        if env.operator.is_none() {
            return Err(SlateDBError::MergeOperatorMissing);
        }
        self.own.merge(self.alloc, key, value, options)
    }
}
