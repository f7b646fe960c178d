//! The sum of an asset's balances.
ghost use Rattle.std.specs.Prelude.{◌≡◌, ◌+◌, List, [], IfErr, IfOk, OnErr, map};
ghost use Rattle.slate_types.specs.Config.{IsValid};
ghost use Rattle.slate_types.specs.declared.config.IsolationLevel.{IsolationLevel};
ghost use Rattle.slate_types.specs.Outside.{IsFault, IsStill, OnlyReads};
ghost use Rattle.slate_types.specs.Rows.{key_value};
ghost use Rattle.slate_mem.specs.KeyTests.{Segments};
ghost use Rattle.slate_txn.specs.declared.event.TranscriptStep.{TranscriptStep};
ghost use Rattle.slate_txn.specs.Alone.{own_of};
ghost use Rattle.slate_db.specs.Model.{CoreModel};
ghost use Rattle.slate_db.specs.Opened.{HasTransaction};
ghost use Rattle.slate_db.specs.Settled.{IsSettledIn};
ghost use Rattle.slate_steps.specs.Reads.{IsReadError, IsStillBy};
ghost use Rattle.slate_steps.specs.Steps.{IsWithin};
ghost use Rattle.slate_stock.specs.Amounts.{amount_of, issued_key};
ghost use Rattle.slate_stock.specs.Running.{HasGot, IsIn, IsLeft, db_error};
ghost use Rattle.slate_stock.specs.Totals.{IsRowRefusal, IsSum, IsSumRefusal, IsTotal, IsTotalCause, IsTotalTruth, balance_rows, values_sum};

use crate::amount::amount;
use crate::error::StockError;
use crate::keys::{balance_head, issued_key};
use crate::moves::added;
use crate::name::Name;
use crate::on_core::read_amount;
use slate_db::engine::Core;
use slate_db::laws::Laws;
use slate_steps::rows::rows_with_prefix;
use slate_steps::transaction::{begin, rollback};
use slate_store::{Env, EnvOf, Store};
use slate_types::{
    BlockTransformer, IsolationLevel, KeyValue, MergeOperator, Outside, PrefixExtractor,
    SlateDBError,
};
use std::alloc::Global;
use uuid::Uuid;

/// The sum of an asset's balances, and what was issued of it.
#[derive(Clone, Copy)]
pub struct AssetTotal {
    pub sum: u64,
    pub issued: u64,
}

/// What the balances of an asset add up to, and what was issued of it, read in one transaction that ends without a commit.
///
/// Refuses by `BadAmount` of a value that isn't 8 bytes long, by `TooMuch` where the sum passes the greatest u64, and by `Db`, which holds
/// `OutOfMemory`, what a read was refused for, or `LimitReached` where the journal has no place for two events. Nothing is left open, and
/// no failure of the store or of a part is passed over: each count of faults is as it was, but for that of the one whose fault `Db` holds.
pub fn total<S: Store, M: MergeOperator, T: BlockTransformer, X: PrefixExtractor>(
    core: &mut Core,
    asset: &Name,
    env: &mut Env<'_, S, M, T>,
    laws: &Laws<X>,
) -> Result<AssetTotal, StockError>
    requires valid { IsValid laws.now.options }
    ensures total { let reach = ⟦<EnvOf<S, M, T> as Outside>⟧.reach in
        let policies = map (λ p. meaning (p.vtable, p.value)) laws.now.policies.items in
        (g : Segments) → IsSettledIn policies g (reach env.old) core.old → IfOk result (IsTotal (reach env.old).meaning core.old asset.now) }
    ensures refused { let reach = ⟦<EnvOf<S, M, T> as Outside>⟧.reach in
        let policies = map (λ p. meaning (p.vtable, p.value)) laws.now.policies.items in
        (g : Segments) → IsSettledIn policies g (reach env.old) core.old → IfErr result (IsTotalTruth (reach env.old) (reach env.new) core.old asset.now) }
    ensures cause { let reach = ⟦<EnvOf<S, M, T> as Outside>⟧.reach in
        let policies = map (λ p. meaning (p.vtable, p.value)) laws.now.policies.items in
        IfErr result (IsTotalCause policies (reach env.old) (reach env.new) core.old) }
    ensures left { IsLeft core.old core.new }
    ensures counts { let reach = ⟦<EnvOf<S, M, T> as Outside>⟧.reach in IsStillBy db_error (reach env.old).faults (reach env.new).faults result }
    ensures reads { let reach = ⟦<EnvOf<S, M, T> as Outside>⟧.reach in OnlyReads (reach env.old) (reach env.new) }
{
    let alloc = core.journal().alloc();
    match begin(core, IsolationLevel::SerializableSnapshot) {
        Ok(id) => {
            let total = total_within(alloc, core, &id, asset, env, laws);
            rollback(core, &id);
            total
        }
        Err(error) => Err(StockError::Db(error)),
    }
}

/// The total, read in a transaction that took no step yet.
fn total_within<S: Store, M: MergeOperator, T: BlockTransformer, X: PrefixExtractor>(
    alloc: Global,
    core: &mut Core,
    id: &Uuid,
    asset: &Name,
    env: &mut Env<'_, S, M, T>,
    laws: &Laws<X>,
) -> Result<AssetTotal, StockError>
    requires open { HasTransaction core.old id.now }
    requires valid { IsValid laws.now.options }
    ensures still { (c : CoreModel) → IsWithin c id.now IsolationLevel.SerializableSnapshot [] core.old → IsIn c id.now core.new }
    ensures total { let reach = ⟦<EnvOf<S, M, T> as Outside>⟧.reach in
        let policies = map (λ p. meaning (p.vtable, p.value)) laws.now.policies.items in
        (c : CoreModel) (g : Segments) → IsWithin c id.now IsolationLevel.SerializableSnapshot [] core.old → IsSettledIn policies g (reach env.old) c → IfOk result (IsTotal (reach env.old).meaning c asset.now) }
    ensures refused { let reach = ⟦<EnvOf<S, M, T> as Outside>⟧.reach in
        let policies = map (λ p. meaning (p.vtable, p.value)) laws.now.policies.items in
        (c : CoreModel) (g : Segments) → IsWithin c id.now IsolationLevel.SerializableSnapshot [] core.old → IsSettledIn policies g (reach env.old) c → IfErr result (IsTotalTruth (reach env.old) (reach env.new) c asset.now) }
    ensures cause { let reach = ⟦<EnvOf<S, M, T> as Outside>⟧.reach in
        let policies = map (λ p. meaning (p.vtable, p.value)) laws.now.policies.items in
        (c : CoreModel) → IsWithin c id.now IsolationLevel.SerializableSnapshot [] core.old → IfErr result (IsTotalCause policies (reach env.old) (reach env.new) c) }
    ensures counts { let reach = ⟦<EnvOf<S, M, T> as Outside>⟧.reach in IsStillBy db_error (reach env.old).faults (reach env.new).faults result }
    ensures reads { let reach = ⟦<EnvOf<S, M, T> as Outside>⟧.reach in OnlyReads (reach env.old) (reach env.new) }
{
    match issued_within(alloc, core, id, asset, env, laws) {
        Ok(issued) => match sum_within(alloc, core, id, asset, env, laws) {
            Ok(sum) => Ok(AssetTotal { sum, issued }),
            Err(error) => Err(error),
        },
        Err(error) => Err(error),
    }
}

/// What was issued of an asset, read in a transaction that took no step yet.
fn issued_within<S: Store, M: MergeOperator, T: BlockTransformer, X: PrefixExtractor>(
    alloc: Global,
    core: &mut Core,
    id: &Uuid,
    asset: &Name,
    env: &mut Env<'_, S, M, T>,
    laws: &Laws<X>,
) -> Result<u64, StockError>
    requires { HasTransaction core.old id.now }
    ensures read { let reach = ⟦<EnvOf<S, M, T> as Outside>⟧.reach in
        let policies = map (λ p. meaning (p.vtable, p.value)) laws.now.policies.items in
        (c : CoreModel) → IsWithin c id.now IsolationLevel.SerializableSnapshot [] core.old → IfOk result (λ n. HasGot policies (reach env.old) (reach env.new) c id.now [] (issued_key asset.now) n core.new) }
    ensures left { (c : CoreModel) → IsWithin c id.now IsolationLevel.SerializableSnapshot [] core.old → OnErr result (IsIn c id.now core.new) }
    ensures refused { let reach = ⟦<EnvOf<S, M, T> as Outside>⟧.reach in
        let policies = map (λ p. meaning (p.vtable, p.value)) laws.now.policies.items in
        (c : CoreModel) (g : Segments) → IsWithin c id.now IsolationLevel.SerializableSnapshot [] core.old → IsSettledIn policies g (reach env.old) c → IfErr result (IsTotalTruth (reach env.old) (reach env.new) c asset.now) }
    ensures cause { let reach = ⟦<EnvOf<S, M, T> as Outside>⟧.reach in
        let policies = map (λ p. meaning (p.vtable, p.value)) laws.now.policies.items in
        (c : CoreModel) → IsWithin c id.now IsolationLevel.SerializableSnapshot [] core.old → IfErr result (IsTotalCause policies (reach env.old) (reach env.new) c) }
    ensures open { HasTransaction core.new id.now }
    ensures counts { let reach = ⟦<EnvOf<S, M, T> as Outside>⟧.reach in IsStillBy db_error (reach env.old).faults (reach env.new).faults result }
    ensures reads { let reach = ⟦<EnvOf<S, M, T> as Outside>⟧.reach in OnlyReads (reach env.old) (reach env.new) }
{
    match issued_key(alloc, asset.as_slice()) {
        Ok(key) => {
            let issued = read_amount(core, id, &key, env, laws);
            drop(key);
            issued
        }
        Err(error) => Err(StockError::Db(SlateDBError::from(error))),
    }
}

/// The sum of an asset's balances, read in a transaction.
fn sum_within<S: Store, M: MergeOperator, T: BlockTransformer, X: PrefixExtractor>(
    alloc: Global,
    core: &mut Core,
    id: &Uuid,
    asset: &Name,
    env: &mut Env<'_, S, M, T>,
    laws: &Laws<X>,
) -> Result<u64, StockError>
    requires open { HasTransaction core.old id.now }
    requires valid { IsValid laws.now.options }
    ensures still { (c : CoreModel) (ts : List TranscriptStep) → IsWithin c id.now IsolationLevel.SerializableSnapshot ts core.old → IsIn c id.now core.new }
    ensures sum { let reach = ⟦<EnvOf<S, M, T> as Outside>⟧.reach in
        let policies = map (λ p. meaning (p.vtable, p.value)) laws.now.policies.items in
        (c : CoreModel) (ts : List TranscriptStep) (g : Segments) → IsWithin c id.now IsolationLevel.SerializableSnapshot ts core.old → own_of ts ≡ [] → IsSettledIn policies g (reach env.old) c →
        IfOk result (IsSum (reach env.old).meaning c asset.now) }
    ensures refused { let reach = ⟦<EnvOf<S, M, T> as Outside>⟧.reach in
        let policies = map (λ p. meaning (p.vtable, p.value)) laws.now.policies.items in
        (c : CoreModel) (ts : List TranscriptStep) (g : Segments) → IsWithin c id.now IsolationLevel.SerializableSnapshot ts core.old → own_of ts ≡ [] → IsSettledIn policies g (reach env.old) c →
        IfErr result (IsTotalTruth (reach env.old) (reach env.new) c asset.now) }
    ensures cause { let reach = ⟦<EnvOf<S, M, T> as Outside>⟧.reach in
        let policies = map (λ p. meaning (p.vtable, p.value)) laws.now.policies.items in
        (c : CoreModel) (ts : List TranscriptStep) → IsWithin c id.now IsolationLevel.SerializableSnapshot ts core.old → IfErr result (IsTotalCause policies (reach env.old) (reach env.new) c) }
    ensures counts { let reach = ⟦<EnvOf<S, M, T> as Outside>⟧.reach in IsStillBy db_error (reach env.old).faults (reach env.new).faults result }
    ensures reads { let reach = ⟦<EnvOf<S, M, T> as Outside>⟧.reach in OnlyReads (reach env.old) (reach env.new) }
{
    match balances_within(alloc, core, id, asset, env, laws) {
        Ok(rows) => {
            let sum = sum_of(rows.as_slice());
            drop(rows);
            sum
        }
        Err(error) => Err(StockError::Db(error)),
    }
}

/// The rows of an asset's balances, read in a transaction.
fn balances_within<S: Store, M: MergeOperator, T: BlockTransformer, X: PrefixExtractor>(
    alloc: Global,
    core: &mut Core,
    id: &Uuid,
    asset: &Name,
    env: &mut Env<'_, S, M, T>,
    laws: &Laws<X>,
) -> Result<Vec<KeyValue>, SlateDBError>
    requires open { HasTransaction core.old id.now }
    requires valid { IsValid laws.now.options }
    ensures still { (c : CoreModel) (ts : List TranscriptStep) → IsWithin c id.now IsolationLevel.SerializableSnapshot ts core.old → IsIn c id.now core.new }
    ensures found { let reach = ⟦<EnvOf<S, M, T> as Outside>⟧.reach in
        let policies = map (λ p. meaning (p.vtable, p.value)) laws.now.policies.items in
        (c : CoreModel) (ts : List TranscriptStep) (g : Segments) → IsWithin c id.now IsolationLevel.SerializableSnapshot ts core.old → own_of ts ≡ [] → IsSettledIn policies g (reach env.old) c →
        IfOk result (λ rows. rows.items ≡ map key_value (balance_rows (reach env.old).meaning c asset.now)) }
    ensures undamaged { let reach = ⟦<EnvOf<S, M, T> as Outside>⟧.reach in
        let policies = map (λ p. meaning (p.vtable, p.value)) laws.now.policies.items in
        (c : CoreModel) (ts : List TranscriptStep) (g : Segments) → IsWithin c id.now IsolationLevel.SerializableSnapshot ts core.old →
        IsSettledIn policies g (reach env.old) c → IfErr result (IsFault (reach env.old) (reach env.new)) }
    ensures cause { let reach = ⟦<EnvOf<S, M, T> as Outside>⟧.reach in
        let policies = map (λ p. meaning (p.vtable, p.value)) laws.now.policies.items in
        IfErr result (IsReadError policies (reach env.old) (reach env.new) core.old) }
    ensures counts { let reach = ⟦<EnvOf<S, M, T> as Outside>⟧.reach in IsStill (reach env.old).faults (reach env.new).faults result }
    ensures reads { let reach = ⟦<EnvOf<S, M, T> as Outside>⟧.reach in OnlyReads (reach env.old) (reach env.new) }
{
    match balance_head(alloc, asset.as_slice()) {
        Ok(head) => {
            let rows = rows_with_prefix(alloc, core, id, head.as_slice(), env, laws);
            drop(head);
            rows
        }
        Err(error) => Err(SlateDBError::from(error)),
    }
}

/// The sum of the amounts that rows have.
fn sum_of(rows: &[KeyValue]) -> Result<u64, StockError>
    ensures sum { IfOk result (λ n. n ≡ values_sum rows.now) }
    ensures refused { IfErr result (IsSumRefusal rows.now) }
{
    let mut sum = 0;
    for row in rows {
        match sum_with(sum, row) {
            Ok(more) => sum = more,
            Err(error) => return Err(error),
        }
    }
    Ok(sum)
}

/// The sum with the amount that one row more has.
fn sum_with(sum: u64, row: &KeyValue) -> Result<u64, StockError>
    ensures sum { IfOk result (λ n. n ≡ sum + amount_of row.now.value) }
    ensures refused { IfErr result (IsRowRefusal sum row.now) }
{
    match amount(row.value.as_slice()) {
        Some(more) => added(sum, more),
        None => Err(StockError::BadAmount {
            key: row.key.clone()?,
        }),
    }
}
