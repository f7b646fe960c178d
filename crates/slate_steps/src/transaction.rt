//! The calls on one transaction, but for scans.
ghost use Rattle.std.specs.Prelude.{◌≡◌, ◌≢◌, ◌⊎◌, ℕ, ◌-◌, ◌^◌, ◌++◌, ◌∷◌, List, [], Option, Some, None, false, Err, OnOk, OnErr, IfOk, IfErr, IsOk, map, option_map};
ghost use Rattle.slate_types.specs.declared.config.IsolationLevel.{IsolationLevel};
ghost use Rattle.slate_types.specs.declared.error.SlateDBError.{SlateDBError};
ghost use Rattle.slate_types.specs.Outside.{IsFault, IsStill, OnlyReads};
ghost use Rattle.slate_mem.specs.declared.WriteOp.{WriteOp};
ghost use Rattle.slate_mem.specs.BatchModel.{holds_merge, plain_put};
ghost use Rattle.slate_mem.specs.KeyTests.{Segments};
ghost use Rattle.slate_mem.specs.Refusals.{op_refusal};
ghost use Rattle.slate_txn.specs.declared.event.TranscriptStep.{TranscriptStep};
ghost use Rattle.slate_txn.specs.declared.event.TranscriptStep.TheVariants as steps;
ghost use Rattle.slate_txn.specs.Alone.{own_of};
ghost use Rattle.slate_db.specs.Log.{LIMIT};
ghost use Rattle.slate_db.specs.Flushed.{NoPlace};
ghost use Rattle.slate_db.specs.Meaning.{segments_by};
ghost use Rattle.slate_db.specs.Model.{CoreModel};
ghost use Rattle.slate_db.specs.Opened.{HasTransaction};
ghost use Rattle.slate_db.specs.Segmented.{IsSegmented};
ghost use Rattle.slate_db.specs.Settled.{IsSettledIn};
ghost use Rattle.slate_db.specs.Sound.{IsKept};
ghost use Rattle.slate_steps.specs.Reads.{IsChecked, IsReadError};
ghost use Rattle.slate_steps.specs.Steps.{HasCommitted, HasEnded, IsBeginError, IsWithin, Sees, newest};

use slate_db::engine::Core;
use slate_db::laws::Laws;
use slate_store::{Env, EnvOf, Store};
use slate_txn::laws::conflicts;
use slate_types::{
    BlockTransformer, IsolationLevel, KeyValue, MergeOperator, Outside, PrefixExtractor,
    PutOptions, ReadOptions, SlateDBError,
};
use uuid::Uuid;

/// Begins a transaction at the newest sequence, and gives its id. Refuses by `LimitReached` where the journal has no place for two
/// events, and by `OutOfMemory`, and then nothing is begun.
pub fn begin(core: &mut Core, level: IsolationLevel) -> Result<Uuid, SlateDBError>
    ensures within { IfOk result (λ id. IsWithin core.old id level [] core.new) }
    ensures open { IfOk result (λ id. HasTransaction core.new id) }
    ensures same { OnErr result (core.new ≡ core.old) }
    ensures limit { NoPlace 2 core.old → result ≡ Err (SlateDBError.LimitReached LIMIT) }
    ensures cause { IfErr result (IsBeginError core.old) }
{
    core.journal();
    let (id, _begin) = core.begin(level)?;
    Ok(id)
}

/// What the transaction sees at a key. Refuses as `Core::get` does, and then it took no step.
pub fn get<S: Store, M: MergeOperator, T: BlockTransformer, X: PrefixExtractor>(
    core: &mut Core,
    id: &Uuid,
    key: &[u8],
    env: &mut Env<'_, S, M, T>,
    laws: &Laws<X>,
) -> Result<Option<KeyValue>, SlateDBError>
    requires { HasTransaction core.old id.now }
    ensures within { (c : CoreModel) (level : IsolationLevel) (ts : List TranscriptStep) → IsWithin c id.now level ts core.old →
        IfOk result (λ a. IsWithin c id.now level (ts ++ (steps.Get key.now a ∷ [])) core.new) }
    ensures sees { let reach = ⟦<EnvOf<S, M, T> as Outside>⟧.reach in
        let policies = map (λ p. meaning (p.vtable, p.value)) laws.now.policies.items in
        (c : CoreModel) (level : IsolationLevel) (ts : List TranscriptStep) (g : Segments) → IsWithin c id.now level ts core.old →
        IsSettledIn policies g (reach env.old) c → Sees (reach env.old).meaning c ts →
        IfOk result (λ a. Sees (reach env.old).meaning c (ts ++ (steps.Get key.now a ∷ []))) }
    ensures checked { let reach = ⟦<EnvOf<S, M, T> as Outside>⟧.reach in
        let policies = map (λ p. meaning (p.vtable, p.value)) laws.now.policies.items in
        (c : CoreModel) (level : IsolationLevel) (ts : List TranscriptStep) (g : Segments) → IsWithin c id.now level ts core.old →
        IsChecked policies g (reach env.old) (reach env.new) c → Sees (reach env.old).meaning c ts →
        IfOk result (λ a. Sees (reach env.old).meaning c (ts ++ (steps.Get key.now a ∷ []))) }
    ensures undamaged { let reach = ⟦<EnvOf<S, M, T> as Outside>⟧.reach in
        let policies = map (λ p. meaning (p.vtable, p.value)) laws.now.policies.items in
        (c : CoreModel) (level : IsolationLevel) (ts : List TranscriptStep) (g : Segments) → IsWithin c id.now level ts core.old →
        IsSettledIn policies g (reach env.old) c → IfErr result (IsFault (reach env.old) (reach env.new)) }
    ensures cause { let reach = ⟦<EnvOf<S, M, T> as Outside>⟧.reach in
        let policies = map (λ p. meaning (p.vtable, p.value)) laws.now.policies.items in
        IfErr result (IsReadError policies (reach env.old) (reach env.new) core.old) }
    ensures open { HasTransaction core.new id.now }
    ensures same { OnErr result (core.new ≡ core.old) }
    ensures counts { let reach = ⟦<EnvOf<S, M, T> as Outside>⟧.reach in IsStill (reach env.old).faults (reach env.new).faults result }
    ensures reads { let reach = ⟦<EnvOf<S, M, T> as Outside>⟧.reach in OnlyReads (reach env.old) (reach env.new) }
{
    core.get(id, key, &ReadOptions::default(), env, laws)
}

/// Puts a value, with the default options. Refuses by `EmptyKey`, by `KeyTooLong` above 65535 bytes, by `ValueTooLong` above
/// 2^32 - 1 bytes, in this order, and by `OutOfMemory`, and then it took no step.
pub fn put(core: &mut Core, id: &Uuid, key: &[u8], value: &[u8]) -> Result<(), SlateDBError>
    requires { HasTransaction core.old id.now }
    ensures within { (c : CoreModel) (level : IsolationLevel) (ts : List TranscriptStep) → IsWithin c id.now level ts core.old →
        OnOk result (IsWithin c id.now level (ts ++ (steps.Own key.now (plain_put value.now) ∷ [])) core.new) }
    ensures cause { IfErr result (λ e. (e ≡ SlateDBError.OutOfMemory) ⊎ (op_refusal key.now (plain_put value.now) ≡ Some e)) }
    ensures test { (e : SlateDBError) → op_refusal key.now (plain_put value.now) ≡ Some e → result ≡ Err e }
    ensures open { HasTransaction core.new id.now }
    ensures same { OnErr result (core.new ≡ core.old) }
{
    core.put(id, key, value, &PutOptions::default())
}

/// Deletes a key. Refuses by `EmptyKey`, then by `KeyTooLong` above 65535 bytes, and by `OutOfMemory`, and then it took no step.
pub fn delete(core: &mut Core, id: &Uuid, key: &[u8]) -> Result<(), SlateDBError>
    requires { HasTransaction core.old id.now }
    ensures within { (c : CoreModel) (level : IsolationLevel) (ts : List TranscriptStep) → IsWithin c id.now level ts core.old →
        OnOk result (IsWithin c id.now level (ts ++ (steps.Own key.now WriteOp.Delete ∷ [])) core.new) }
    ensures cause { IfErr result (λ e. (e ≡ SlateDBError.OutOfMemory) ⊎ (op_refusal key.now WriteOp.Delete ≡ Some e)) }
    ensures test { (e : SlateDBError) → op_refusal key.now WriteOp.Delete ≡ Some e → result ≡ Err e }
    ensures open { HasTransaction core.new id.now }
    ensures same { OnErr result (core.new ≡ core.old) }
{
    core.delete(id, key)
}

/// Ends the transaction without a commit.
pub fn rollback(core: &mut Core, id: &Uuid)
    requires { HasTransaction core.old id.now }
    ensures ended { (c : CoreModel) (level : IsolationLevel) (ts : List TranscriptStep) → IsWithin c id.now level ts core.old →
        HasEnded c id.now level core.new }
{
    core.rollback(id)
}

/// Commits the transaction at a moment, and gives its sequence, or None where it put and deleted nothing. It ends either way.
///
/// Refuses as `Core::commit` does, and then nothing is committed. Where it merged nothing and there is no extractor, it asks no operator,
/// meets no conflict, and refuses by `SequenceExhausted` where no sequence is left, and by `OutOfMemory`.
pub fn commit<S: Store, M: MergeOperator, T: BlockTransformer, X: PrefixExtractor>(
    core: &mut Core,
    id: &Uuid,
    now: i64,
    env: &mut Env<'_, S, M, T>,
    laws: &Laws<X>,
) -> Result<Option<u64>, SlateDBError>
    requires { HasTransaction core.old id.now }
    ensures committed { (c : CoreModel) (level : IsolationLevel) (ts : List TranscriptStep) → IsWithin c id.now level ts core.old →
        IfOk result (λ n. HasCommitted c id.now level ts n now core.new) }
    ensures ended { (c : CoreModel) (level : IsolationLevel) (ts : List TranscriptStep) → IsWithin c id.now level ts core.old →
        OnErr result (HasEnded c id.now level core.new) }
    ensures kept { let reach = ⟦<EnvOf<S, M, T> as Outside>⟧.reach in
        (c : CoreModel) (level : IsolationLevel) (ts : List TranscriptStep) → IsWithin c id.now level ts core.old →
        IsKept (reach env.old).meaning c → IsKept (reach env.old).meaning core.new }
    ensures segmented { let g = segments_by X.lengths laws.now.segments in
        (c : CoreModel) (level : IsolationLevel) (ts : List TranscriptStep) → IsWithin c id.now level ts core.old →
        IsSegmented g c → IsSegmented g core.new }
    ensures cause { let reach = ⟦<EnvOf<S, M, T> as Outside>⟧.reach in
        (c : CoreModel) (level : IsolationLevel) (ts : List TranscriptStep) → IsWithin c id.now level ts core.old →
        laws.now.segments ≡ None → holds_merge (own_of ts) ≡ false →
        IfErr result (λ e. IsFault (reach env.old) (reach env.new) e ⊎ ((e ≡ SlateDBError.SequenceExhausted) × (newest c ≡ 2 ^ 64 - 2))) }
    ensures exhausted { (c : CoreModel) (level : IsolationLevel) (ts : List TranscriptStep) → IsWithin c id.now level ts core.old →
        own_of ts ≢ [] → newest c ≡ 2 ^ 64 - 2 → (result ≡ Err SlateDBError.SequenceExhausted) ⊎ (result ≡ Err SlateDBError.OutOfMemory) }
    ensures still { (c : CoreModel) (level : IsolationLevel) (ts : List TranscriptStep) → IsWithin c id.now level ts core.old →
        holds_merge (own_of ts) ≡ false → env.new ≡ env.old }
    ensures reads { let reach = ⟦<EnvOf<S, M, T> as Outside>⟧.reach in OnlyReads (reach env.old) (reach env.new) }
{
    conflicts();
    let seq = core.commit(id, now, env, laws);
    core.journal();
    seq
}
