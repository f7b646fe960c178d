//! Orders on a core.
ghost use Rattle.std.specs.Prelude.{◌≡◌, ◌≢◌, ◌⊎◌, ◌<◌, ◌^◌, ◌-◌, ◌+◌, ◌≤◌, ◌++◌, ◌∷◌, ℕ, List, [], Some, None, Ok, OnOk, OnErr, IfOk, IfErr, IsOkUnless, length, map};
ghost use Rattle.std.specs.List.{AllByRecursion, zip};
ghost use Rattle.slate_types.specs.declared.config.IsolationLevel.{IsolationLevel};
ghost use Rattle.slate_types.specs.declared.error.SlateDBError.{SlateDBError};
ghost use Rattle.slate_types.specs.declared.types.KeyValue.{KeyValue};
ghost use Rattle.slate_types.specs.Outside.{IsFault, OnlyReads, Reach};
ghost use Rattle.slate_filter.specs.Policy.{Policy};
ghost use Rattle.slate_mem.specs.KeyTests.{Segments};
ghost use Rattle.slate_txn.specs.declared.event.TranscriptStep.{TranscriptStep};
ghost use Rattle.slate_txn.specs.declared.event.TranscriptStep.TheVariants as steps;
ghost use Rattle.slate_txn.specs.Alone.{own_of};
ghost use Rattle.slate_db.specs.Load.{load, weight};
ghost use Rattle.slate_db.specs.Meaning.{segments_by};
ghost use Rattle.slate_db.specs.Model.{CoreModel};
ghost use Rattle.slate_db.specs.Opened.{HasTransaction};
ghost use Rattle.slate_db.specs.Segmented.{IsSegmented};
ghost use Rattle.slate_db.specs.SerialLaws.{IsVouchedCore};
ghost use Rattle.slate_db.specs.Settled.{IsSettledIn};
ghost use Rattle.slate_db.specs.Sound.{IsKept};
ghost use Rattle.slate_steps.specs.Reads.{IsChecked, IsFaultSettled, IsStillBy};
ghost use Rattle.slate_steps.specs.Steps.{HasEnded, IsWithin, Sees, newest};
ghost use Rattle.slate_stock.specs.declared.error.StockError.{StockError};
ghost use Rattle.slate_stock.specs.declared.order.Order.{Order};
ghost use Rattle.slate_stock.specs.Amounts.{Amounts};
ghost use Rattle.slate_stock.specs.Commits.{HasNames, IsAmount, amount_put, own_puts};
ghost use Rattle.slate_stock.specs.Journals.{IsOrders};
ghost use Rattle.slate_stock.specs.Orders.{first_of, form_refusals, order_keys, order_moves, order_refusal, order_step};
ghost use Rattle.slate_stock.specs.Running.{HasGot, HasOrdered, HasRead, HasTaken, HasTakenSome, IsDb, IsGetCause, IsGetTruth, IsIn, IsKey, IsLeft, IsOrderCause, IsOrderTruth, IsReadCause, IsReadTruth, IsTakeCause, IsTakeTruth, amounts_of, db_error};

use crate::amount::stored;
use crate::error::StockError;
use crate::keys::order_keys;
use crate::legs::answered;
use crate::moves::{form_refusal, moves};
use crate::order::Order;
use bytes::Bytes;
use slate_db::engine::Core;
use slate_db::laws::Laws;
use slate_steps::transaction::{begin, commit, get, put, rollback};
use slate_store::{Env, EnvOf, Store};
use slate_types::{
    BlockTransformer, IsolationLevel, KeyValue, MergeOperator, Outside, PrefixExtractor,
    SlateDBError,
};
use std::alloc::Global;
use uuid::Uuid;

/// Makes the order at a moment, in one serializable transaction on the core, and gives the commit's sequence.
///
/// Refuses in the order of `StockError`, and then nothing is committed: a transaction that began has ended. `Db` holds `OutOfMemory`,
/// what a read was refused for, `LimitReached` where the journal has no place for two events, or `SequenceExhausted` where no
/// sequence is left. Over a store that holds what was put, for lawful parts, the answer is the order's on the amounts in the core's
/// state, and `BadAmount` names a key whose value isn't 8 bytes long there; and so over one that tells its acts alone, and may lie, unless
/// a section slipped through whose checksum fits. No failure of the store or of a part is passed over: each count of faults is as it was,
/// but for that of the one whose fault `Db` holds.
pub fn run_order_core<S: Store, M: MergeOperator, T: BlockTransformer, X: PrefixExtractor>(
    core: &mut Core,
    order: &Order,
    now: i64,
    env: &mut Env<'_, S, M, T>,
    laws: &Laws<X>,
) -> Result<u64, StockError>
    requires segments { laws.now.segments ≡ None }
    ensures committed { let reach = ⟦<EnvOf<S, M, T> as Outside>⟧.reach in
        let policies = map (λ p. meaning (p.vtable, p.value)) laws.now.policies.items in
        IfOk result (λ n. HasOrdered policies (reach env.old) (reach env.new) core.old order.now now n core.new) }
    ensures left { OnErr result (IsLeft core.old core.new) }
    ensures cause { let reach = ⟦<EnvOf<S, M, T> as Outside>⟧.reach in
        let policies = map (λ p. meaning (p.vtable, p.value)) laws.now.policies.items in
        IfErr result (IsOrderCause policies (reach env.old) (reach env.new) core.old order.now) }
    ensures answer { let reach = ⟦<EnvOf<S, M, T> as Outside>⟧.reach in
        let policies = map (λ p. meaning (p.vtable, p.value)) laws.now.policies.items in
        let m = (reach env.old).meaning in
        (g : Segments) → IsChecked policies g (reach env.old) (reach env.new) core.old →
        IfOk result (λ n. (n ≡ newest core.old + 1) × ((after : Amounts) × (order_step (amounts_of m core.old) order.now ≡ Ok after) × ((k : List ℕ) → amounts_of m core.new k ≡ after k))) }
    ensures refused { let reach = ⟦<EnvOf<S, M, T> as Outside>⟧.reach in
        let policies = map (λ p. meaning (p.vtable, p.value)) laws.now.policies.items in
        (g : Segments) → IsChecked policies g (reach env.old) (reach env.new) core.old →
        IfErr result (IsOrderTruth (IsFaultSettled policies (reach env.old) (reach env.new) core.old) (reach env.old).meaning core.old order.now) }
    ensures exhausted { newest core.old ≡ 2 ^ 64 - 2 → IfOk result (λ _. ⊥) }
    ensures settled { let reach = ⟦<EnvOf<S, M, T> as Outside>⟧.reach in
        let policies = map (λ p. meaning (p.vtable, p.value)) laws.now.policies.items in
        let g = segments_by X.lengths laws.now.segments in
        IsSettledIn policies g (reach env.old) core.old → IsSettledIn policies g (reach env.new) core.new }
    ensures vouched { let reach = ⟦<EnvOf<S, M, T> as Outside>⟧.reach in
        let policies = map (λ p. meaning (p.vtable, p.value)) laws.now.policies.items in
        let m = (reach env.old).meaning in
        (g : Segments) → IsSettledIn policies g (reach env.old) core.old → IsVouchedCore m core.old → IsVouchedCore m core.new }
    ensures kept { let reach = ⟦<EnvOf<S, M, T> as Outside>⟧.reach in
        let m = (reach env.old).meaning in
        IsKept m core.old → IsKept m core.new }
    ensures orders { IsOrders core.old.events → IsOrders core.new.events }
    ensures grows { (weight core.new ≤ weight core.old + 2) × (load core.new ≤ load core.old + 4) }
    ensures counts { let reach = ⟦<EnvOf<S, M, T> as Outside>⟧.reach in IsStillBy db_error (reach env.old).faults (reach env.new).faults result }
    ensures reads { let reach = ⟦<EnvOf<S, M, T> as Outside>⟧.reach in OnlyReads (reach env.old) (reach env.new) }
{
    order.has_names();
    if let Some(error) = form_refusal(order) {
        return Err(error);
    }
    let alloc = core.journal().alloc();
    let keys = order_keys(alloc, order)?;
    let made = make_order(alloc, core, order, keys.as_slice(), now, env, laws);
    drop(keys);
    made
}

/// Makes an order that is refused by nothing that it shows alone.
fn make_order<S: Store, M: MergeOperator, T: BlockTransformer, X: PrefixExtractor>(
    alloc: Global,
    core: &mut Core,
    order: &Order,
    keys: &[Bytes],
    now: i64,
    env: &mut Env<'_, S, M, T>,
    laws: &Laws<X>,
) -> Result<u64, StockError>
    requires names { HasNames order.now }
    requires form { first_of (form_refusals order.now) ≡ None }
    requires keys { keys.now ≡ order_keys order.now }
    requires segments { laws.now.segments ≡ None }
    ensures committed { let reach = ⟦<EnvOf<S, M, T> as Outside>⟧.reach in
        let policies = map (λ p. meaning (p.vtable, p.value)) laws.now.policies.items in
        IfOk result (λ n. HasOrdered policies (reach env.old) (reach env.new) core.old order.now now n core.new) }
    ensures left { OnErr result (IsLeft core.old core.new) }
    ensures cause { let reach = ⟦<EnvOf<S, M, T> as Outside>⟧.reach in
        let policies = map (λ p. meaning (p.vtable, p.value)) laws.now.policies.items in
        IfErr result (IsOrderCause policies (reach env.old) (reach env.new) core.old order.now) }
    ensures refused { let reach = ⟦<EnvOf<S, M, T> as Outside>⟧.reach in
        let policies = map (λ p. meaning (p.vtable, p.value)) laws.now.policies.items in
        (g : Segments) → IsChecked policies g (reach env.old) (reach env.new) core.old →
        IfErr result (IsOrderTruth (IsFaultSettled policies (reach env.old) (reach env.new) core.old) (reach env.old).meaning core.old order.now) }
    ensures exhausted { newest core.old ≡ 2 ^ 64 - 2 → IfOk result (λ _. ⊥) }
    ensures kept { let reach = ⟦<EnvOf<S, M, T> as Outside>⟧.reach in
        let m = (reach env.old).meaning in
        IsKept m core.old → IsKept m core.new }
    ensures segmented { let g = segments_by X.lengths laws.now.segments in IsSegmented g core.old → IsSegmented g core.new }
    ensures counts { let reach = ⟦<EnvOf<S, M, T> as Outside>⟧.reach in IsStillBy db_error (reach env.old).faults (reach env.new).faults result }
    ensures reads { let reach = ⟦<EnvOf<S, M, T> as Outside>⟧.reach in OnlyReads (reach env.old) (reach env.new) }
{
    match begin(core, IsolationLevel::SerializableSnapshot) {
        Ok(id) => order_within(alloc, core, &id, order, keys, now, env, laws),
        Err(error) => Err(StockError::Db(error)),
    }
}

/// Makes an order in a transaction that took no step yet, and ends it either way.
fn order_within<S: Store, M: MergeOperator, T: BlockTransformer, X: PrefixExtractor>(
    alloc: Global,
    core: &mut Core,
    id: &Uuid,
    order: &Order,
    keys: &[Bytes],
    now: i64,
    env: &mut Env<'_, S, M, T>,
    laws: &Laws<X>,
) -> Result<u64, StockError>
    requires begun { (c : CoreModel) × IsWithin c id.now IsolationLevel.SerializableSnapshot [] core.old }
    requires names { HasNames order.now }
    requires form { first_of (form_refusals order.now) ≡ None }
    requires keys { keys.now ≡ order_keys order.now }
    requires segments { laws.now.segments ≡ None }
    ensures committed { let reach = ⟦<EnvOf<S, M, T> as Outside>⟧.reach in
        let policies = map (λ p. meaning (p.vtable, p.value)) laws.now.policies.items in
        (c : CoreModel) → IsWithin c id.now IsolationLevel.SerializableSnapshot [] core.old → IfOk result (λ n. HasOrdered policies (reach env.old) (reach env.new) c order.now now n core.new) }
    ensures ended { (c : CoreModel) → IsWithin c id.now IsolationLevel.SerializableSnapshot [] core.old → OnErr result (HasEnded c id.now IsolationLevel.SerializableSnapshot core.new) }
    ensures cause { let reach = ⟦<EnvOf<S, M, T> as Outside>⟧.reach in
        let policies = map (λ p. meaning (p.vtable, p.value)) laws.now.policies.items in
        (c : CoreModel) → IsWithin c id.now IsolationLevel.SerializableSnapshot [] core.old → IfErr result (IsOrderCause policies (reach env.old) (reach env.new) c order.now) }
    ensures refused { let reach = ⟦<EnvOf<S, M, T> as Outside>⟧.reach in
        let policies = map (λ p. meaning (p.vtable, p.value)) laws.now.policies.items in
        (c : CoreModel) (g : Segments) → IsWithin c id.now IsolationLevel.SerializableSnapshot [] core.old → IsChecked policies g (reach env.old) (reach env.new) c →
        IfErr result (IsOrderTruth (IsFaultSettled policies (reach env.old) (reach env.new) c) (reach env.old).meaning c order.now) }
    ensures exhausted { (c : CoreModel) → IsWithin c id.now IsolationLevel.SerializableSnapshot [] core.old → newest c ≡ 2 ^ 64 - 2 → IfOk result (λ _. ⊥) }
    ensures kept { let reach = ⟦<EnvOf<S, M, T> as Outside>⟧.reach in
        let m = (reach env.old).meaning in
        (c : CoreModel) → IsWithin c id.now IsolationLevel.SerializableSnapshot [] core.old → IsKept m c → IsKept m core.new }
    ensures segmented { let g = segments_by X.lengths laws.now.segments in
        (c : CoreModel) → IsWithin c id.now IsolationLevel.SerializableSnapshot [] core.old → IsSegmented g c → IsSegmented g core.new }
    ensures counts { let reach = ⟦<EnvOf<S, M, T> as Outside>⟧.reach in IsStillBy db_error (reach env.old).faults (reach env.new).faults result }
    ensures reads { let reach = ⟦<EnvOf<S, M, T> as Outside>⟧.reach in OnlyReads (reach env.old) (reach env.new) }
{
    match take_order(alloc, core, id, order, keys, env, laws) {
        Ok(()) => end_order(core, id, now, env, laws),
        Err(error) => {
            rollback(core, id);
            Err(error)
        }
    }
}

/// Commits what an order took.
fn end_order<S: Store, M: MergeOperator, T: BlockTransformer, X: PrefixExtractor>(
    core: &mut Core,
    id: &Uuid,
    now: i64,
    env: &mut Env<'_, S, M, T>,
    laws: &Laws<X>,
) -> Result<u64, StockError>
    requires open { HasTransaction core.old id.now }
    requires taken { HasTakenSome id.now core.old }
    requires segments { laws.now.segments ≡ None }
    ensures ordered { (policies : List Policy) (before after : Reach) (c : CoreModel) (order : Order) → HasTaken policies before after c id.now order core.old →
        IfOk result (λ n. HasOrdered policies before after c order now n core.new) }
    ensures ended { (c : CoreModel) (ts : List TranscriptStep) → IsWithin c id.now IsolationLevel.SerializableSnapshot ts core.old → OnErr result (HasEnded c id.now IsolationLevel.SerializableSnapshot core.new) }
    ensures cause { let reach = ⟦<EnvOf<S, M, T> as Outside>⟧.reach in
        (policies : List Policy) (before after : Reach) (c : CoreModel) (order : Order) → HasTaken policies before after c id.now order core.old →
        IfErr result (IsDb (λ x. IsFault (reach env.old) (reach env.new) x ⊎ ((x ≡ SlateDBError.SequenceExhausted) × (newest c ≡ 2 ^ 64 - 2)))) }
    ensures exhausted { (policies : List Policy) (before after : Reach) (c : CoreModel) (order : Order) → HasTaken policies before after c id.now order core.old →
        newest c ≡ 2 ^ 64 - 2 → IfOk result (λ _. ⊥) }
    ensures kept { let reach = ⟦<EnvOf<S, M, T> as Outside>⟧.reach in
        let m = (reach env.old).meaning in
        (c : CoreModel) (ts : List TranscriptStep) → IsWithin c id.now IsolationLevel.SerializableSnapshot ts core.old → IsKept m c → IsKept m core.new }
    ensures segmented { let g = segments_by X.lengths laws.now.segments in
        (c : CoreModel) (ts : List TranscriptStep) → IsWithin c id.now IsolationLevel.SerializableSnapshot ts core.old → IsSegmented g c → IsSegmented g core.new }
    ensures counts { let reach = ⟦<EnvOf<S, M, T> as Outside>⟧.reach in IsStillBy db_error (reach env.old).faults (reach env.new).faults result }
    ensures reads { let reach = ⟦<EnvOf<S, M, T> as Outside>⟧.reach in OnlyReads (reach env.old) (reach env.new) }
{
    match commit(core, id, now, env, laws) {
        Ok(Some(seq)) => Ok(seq),
        Ok(None) => unreachable!(),
        Err(error) => Err(StockError::Db(error)),
    }
}

/// Reads the amounts at the keys, and puts the new ones.
fn take_order<S: Store, M: MergeOperator, T: BlockTransformer, X: PrefixExtractor>(
    alloc: Global,
    core: &mut Core,
    id: &Uuid,
    order: &Order,
    keys: &[Bytes],
    env: &mut Env<'_, S, M, T>,
    laws: &Laws<X>,
) -> Result<(), StockError>
    requires open { HasTransaction core.old id.now }
    requires names { HasNames order.now }
    requires form { first_of (form_refusals order.now) ≡ None }
    requires keys { keys.now ≡ order_keys order.now }
    ensures taken { let reach = ⟦<EnvOf<S, M, T> as Outside>⟧.reach in
        let policies = map (λ p. meaning (p.vtable, p.value)) laws.now.policies.items in
        (c : CoreModel) → IsWithin c id.now IsolationLevel.SerializableSnapshot [] core.old → OnOk result (HasTaken policies (reach env.old) (reach env.new) c id.now order.now core.new) }
    ensures left { (c : CoreModel) → IsWithin c id.now IsolationLevel.SerializableSnapshot [] core.old → OnErr result (IsIn c id.now core.new) }
    ensures cause { let reach = ⟦<EnvOf<S, M, T> as Outside>⟧.reach in
        let policies = map (λ p. meaning (p.vtable, p.value)) laws.now.policies.items in
        (c : CoreModel) → IsWithin c id.now IsolationLevel.SerializableSnapshot [] core.old → IfErr result (IsTakeCause policies (reach env.old) (reach env.new) c id.now order.now) }
    ensures truth { let reach = ⟦<EnvOf<S, M, T> as Outside>⟧.reach in
        let policies = map (λ p. meaning (p.vtable, p.value)) laws.now.policies.items in
        (c : CoreModel) (g : Segments) → IsWithin c id.now IsolationLevel.SerializableSnapshot [] core.old → IsChecked policies g (reach env.old) (reach env.new) c →
        IfErr result (IsTakeTruth (IsFaultSettled policies (reach env.old) (reach env.new) c) (reach env.old).meaning c order.now) }
    ensures open { HasTransaction core.new id.now }
    ensures counts { let reach = ⟦<EnvOf<S, M, T> as Outside>⟧.reach in IsStillBy db_error (reach env.old).faults (reach env.new).faults result }
    ensures reads { let reach = ⟦<EnvOf<S, M, T> as Outside>⟧.reach in OnlyReads (reach env.old) (reach env.new) }
{
    match read_amounts(alloc, core, id, keys, env, laws) {
        Ok(amounts) => {
            let done = put_order(alloc, core, id, order, keys, amounts.as_slice());
            drop(amounts);
            done
        }
        Err(error) => Err(error),
    }
}

/// Puts the new amounts of an order, by those that stand at its keys.
fn put_order(
    alloc: Global,
    core: &mut Core,
    id: &Uuid,
    order: &Order,
    keys: &[Bytes],
    amounts: &[u64],
) -> Result<(), StockError>
    requires open { HasTransaction core.old id.now }
    requires names { HasNames order.now }
    requires form { first_of (form_refusals order.now) ≡ None }
    requires keys { keys.now ≡ order_keys order.now }
    requires known { length amounts.now ≡ length (order_keys order.now) }
    ensures put { (c : CoreModel) (ts : List TranscriptStep) (m : Amounts) → IsWithin c id.now IsolationLevel.SerializableSnapshot ts core.old → amounts.now ≡ map m (order_keys order.now) →
        OnOk result ((order_refusal m order.now ≡ None) × IsWithin c id.now IsolationLevel.SerializableSnapshot (ts ++ own_puts (order_moves m order.now)) core.new) }
    ensures left { (c : CoreModel) (ts : List TranscriptStep) → IsWithin c id.now IsolationLevel.SerializableSnapshot ts core.old → OnErr result (IsIn c id.now core.new) }
    ensures refused { (m : Amounts) → amounts.now ≡ map m (order_keys order.now) → IfErr result (λ e. (e ≡ StockError.Db SlateDBError.OutOfMemory) ⊎ (order_refusal m order.now ≡ Some e)) }
    ensures open { HasTransaction core.new id.now }
{
    match moves(alloc, order, amounts) {
        Ok(new) => {
            let done = put_amounts(alloc, core, id, keys, new.as_slice());
            drop(new);
            done
        }
        Err(error) => Err(error),
    }
}

/// Reads the amounts at the keys, in their order.
fn read_amounts<S: Store, M: MergeOperator, T: BlockTransformer, X: PrefixExtractor>(
    alloc: Global,
    core: &mut Core,
    id: &Uuid,
    keys: &[Bytes],
    env: &mut Env<'_, S, M, T>,
    laws: &Laws<X>,
) -> Result<Vec<u64>, StockError>
    requires open { HasTransaction core.old id.now }
    ensures read { let reach = ⟦<EnvOf<S, M, T> as Outside>⟧.reach in
        let policies = map (λ p. meaning (p.vtable, p.value)) laws.now.policies.items in
        (c : CoreModel) → IsWithin c id.now IsolationLevel.SerializableSnapshot [] core.old → IfOk result (λ ns. HasRead policies (reach env.old) (reach env.new) c id.now keys.now ns.items core.new) }
    ensures long { IfOk result (λ ns. length ns.items ≡ length keys.now) }
    ensures left { (c : CoreModel) → IsWithin c id.now IsolationLevel.SerializableSnapshot [] core.old → OnErr result (IsIn c id.now core.new) }
    ensures cause { let reach = ⟦<EnvOf<S, M, T> as Outside>⟧.reach in
        let policies = map (λ p. meaning (p.vtable, p.value)) laws.now.policies.items in
        (c : CoreModel) → IsWithin c id.now IsolationLevel.SerializableSnapshot [] core.old → IfErr result (IsReadCause policies (reach env.old) (reach env.new) c id.now keys.now) }
    ensures truth { let reach = ⟦<EnvOf<S, M, T> as Outside>⟧.reach in
        let policies = map (λ p. meaning (p.vtable, p.value)) laws.now.policies.items in
        (c : CoreModel) (g : Segments) → IsWithin c id.now IsolationLevel.SerializableSnapshot [] core.old → IsChecked policies g (reach env.old) (reach env.new) c →
        IfErr result (IsReadTruth (IsFaultSettled policies (reach env.old) (reach env.new) c) (reach env.old).meaning c keys.now) }
    ensures open { HasTransaction core.new id.now }
    ensures counts { let reach = ⟦<EnvOf<S, M, T> as Outside>⟧.reach in IsStillBy db_error (reach env.old).faults (reach env.new).faults result }
    ensures reads { let reach = ⟦<EnvOf<S, M, T> as Outside>⟧.reach in OnlyReads (reach env.old) (reach env.new) }
{
    let mut amounts = Vec::new(alloc);
    for key in keys {
        match read_amount(core, id, key, env, laws) {
            Ok(amount) => match amounts.push(amount) {
                Ok(()) => {}
                Err(error) => return Err(StockError::Db(SlateDBError::from(error))),
            },
            Err(error) => return Err(error),
        }
    }
    Ok(amounts)
}

/// Reads the amount at a key.
pub(crate) fn read_amount<S: Store, M: MergeOperator, T: BlockTransformer, X: PrefixExtractor>(
    core: &mut Core,
    id: &Uuid,
    key: &Bytes,
    env: &mut Env<'_, S, M, T>,
    laws: &Laws<X>,
) -> Result<u64, StockError>
    requires open { HasTransaction core.old id.now }
    ensures read { let reach = ⟦<EnvOf<S, M, T> as Outside>⟧.reach in
        let policies = map (λ p. meaning (p.vtable, p.value)) laws.now.policies.items in
        (c : CoreModel) (ts : List TranscriptStep) → IsWithin c id.now IsolationLevel.SerializableSnapshot ts core.old → IfOk result (λ n. HasGot policies (reach env.old) (reach env.new) c id.now ts key.now n core.new) }
    ensures left { (c : CoreModel) (ts : List TranscriptStep) → IsWithin c id.now IsolationLevel.SerializableSnapshot ts core.old → OnErr result (IsIn c id.now core.new) }
    ensures cause { let reach = ⟦<EnvOf<S, M, T> as Outside>⟧.reach in
        let policies = map (λ p. meaning (p.vtable, p.value)) laws.now.policies.items in
        (c : CoreModel) (ts : List TranscriptStep) → IsWithin c id.now IsolationLevel.SerializableSnapshot ts core.old → IfErr result (IsGetCause policies (reach env.old) (reach env.new) c id.now key.now) }
    ensures truth { let reach = ⟦<EnvOf<S, M, T> as Outside>⟧.reach in
        let policies = map (λ p. meaning (p.vtable, p.value)) laws.now.policies.items in
        (c : CoreModel) (ts : List TranscriptStep) (g : Segments) → IsWithin c id.now IsolationLevel.SerializableSnapshot ts core.old → own_of ts ≡ [] →
        IsChecked policies g (reach env.old) (reach env.new) c → Sees (reach env.old).meaning c ts →
        IfErr result (IsGetTruth (IsFaultSettled policies (reach env.old) (reach env.new) c) (reach env.old).meaning c key.now) }
    ensures open { HasTransaction core.new id.now }
    ensures counts { let reach = ⟦<EnvOf<S, M, T> as Outside>⟧.reach in IsStillBy db_error (reach env.old).faults (reach env.new).faults result }
    ensures reads { let reach = ⟦<EnvOf<S, M, T> as Outside>⟧.reach in OnlyReads (reach env.old) (reach env.new) }
{
    match get(core, id, key.as_slice(), env, laws) {
        Ok(found) => {
            let amount = amount_found(&found, key);
            drop(found);
            amount
        }
        Err(error) => Err(StockError::Db(error)),
    }
}

/// The amount that was found at a key.
pub(crate) fn amount_found(found: &Option<KeyValue>, key: &Bytes) -> Result<u64, StockError>
    ensures amount { IfOk result (λ n. IsAmount n found.now) }
    ensures cause { IfErr result (λ e. (e ≡ StockError.Db SlateDBError.OutOfMemory) ⊎ ((e ≡ StockError.BadAmount key.now) × ((row : KeyValue) × (found.now ≡ Some row) × (length row.value ≢ 8)))) }
{
    match answered(found) {
        Some(amount) => Ok(amount),
        None => Err(StockError::BadAmount { key: key.clone()? }),
    }
}

/// Puts the amounts at the keys, in their order.
fn put_amounts(
    alloc: Global,
    core: &mut Core,
    id: &Uuid,
    keys: &[Bytes],
    amounts: &[u64],
) -> Result<(), StockError>
    requires open { HasTransaction core.old id.now }
    requires keys { AllByRecursion IsKey keys.now }
    requires long { length amounts.now ≡ length keys.now }
    ensures put { (c : CoreModel) (ts : List TranscriptStep) → IsWithin c id.now IsolationLevel.SerializableSnapshot ts core.old → OnOk result (IsWithin c id.now IsolationLevel.SerializableSnapshot (ts ++ own_puts (zip keys.now amounts.now)) core.new) }
    ensures left { (c : CoreModel) (ts : List TranscriptStep) → IsWithin c id.now IsolationLevel.SerializableSnapshot ts core.old → OnErr result (IsIn c id.now core.new) }
    ensures cause { IsOkUnless result (StockError.Db SlateDBError.OutOfMemory) }
    ensures open { HasTransaction core.new id.now }
{
    for place in 0..keys.len() {
        match put_amount(alloc, core, id, &keys[place], amounts[place]) {
            Ok(()) => {}
            Err(error) => return Err(error),
        }
    }
    Ok(())
}

/// Puts an amount at a key.
fn put_amount(
    alloc: Global,
    core: &mut Core,
    id: &Uuid,
    key: &Bytes,
    amount: u64,
) -> Result<(), StockError>
    requires open { HasTransaction core.old id.now }
    requires key { IsKey key.now }
    ensures put { (c : CoreModel) (ts : List TranscriptStep) → IsWithin c id.now IsolationLevel.SerializableSnapshot ts core.old →
        OnOk result (IsWithin c id.now IsolationLevel.SerializableSnapshot (ts ++ (steps.Own key.now (amount_put amount) ∷ [])) core.new) }
    ensures same { OnErr result (core.new ≡ core.old) }
    ensures cause { IsOkUnless result (StockError.Db SlateDBError.OutOfMemory) }
    ensures open { HasTransaction core.new id.now }
{
    let value = stored(alloc, amount)?;
    let done = put(core, id, key.as_slice(), value.as_slice());
    drop(value);
    match done {
        Ok(()) => Ok(()),
        Err(error) => Err(StockError::Db(error)),
    }
}
