//! Orders on a database that threads share, each in one attempt.
ghost use Rattle.std.specs.Prelude.{◌≡◌, ◌⊎◌, ◌++◌, ◌∷◌, List, [], Some, None, Err, OnOk, OnErr, IfOk, IfErr, IsOkUnless, length, map};
ghost use Rattle.std.specs.List.{AllByRecursion, zip};
ghost use mathlib.Core.List.{IsPrefix};
ghost use Rattle.slate_types.specs.declared.config.IsolationLevel.{IsolationLevel};
ghost use Rattle.slate_types.specs.declared.error.SlateDBError.{SlateDBError};
ghost use Rattle.slate_types.specs.Outside.{IsFault, OnlyReads};
ghost use Rattle.slate_txn.specs.declared.event.Event.{Event};
ghost use Rattle.slate_txn.specs.declared.event.TranscriptStep.{TranscriptStep};
ghost use Rattle.slate_txn.specs.declared.event.TranscriptStep.TheVariants as steps;
ghost use Rattle.slate_txn.specs.Alone.{own_of};
ghost use Rattle.slate_txn.specs.Replay.{IsLegal};
ghost use Rattle.slate_db.specs.Meaning.{segments_by};
ghost use Rattle.slate_shared.specs.Given.{AreGiven};
ghost use Rattle.slate_steps.specs.Attempts.{HasEndedBehind, IsAttempt, IsFaultOn, IsRefusedBehind, IsStoreChecked, IsVouchedThere, SeesOnly};
ghost use Rattle.slate_steps.specs.Reads.{IsStillBy};
ghost use Rattle.slate_stock.specs.declared.error.StockError.{StockError};
ghost use Rattle.slate_stock.specs.declared.order.Order.{Order};
ghost use Rattle.slate_stock.specs.Amounts.{Amounts};
ghost use Rattle.slate_stock.specs.Attempting.{HasEndedOn, HasGotOn, HasOrderedOn, HasReadOn, HasSteppedOn, HasTakenOn, IsGetCauseOn, IsGetTruthOn, IsLeftOn, IsOpenFrom, IsOrderCauseOn, IsOrderTruthOn, IsReadsCauseOn, IsReadsTruthOn, IsTakeCauseOn, IsTakeTruthOn, OrdersGoOn};
ghost use Rattle.slate_stock.specs.Commits.{HasNames, amount_put, own_puts};
ghost use Rattle.slate_stock.specs.Orders.{first_of, form_refusals, order_keys, order_moves, order_refusal};
ghost use Rattle.slate_stock.specs.Running.{IsDb, IsKey, db_error};

use crate::amount::stored;
use crate::error::StockError;
use crate::keys::order_keys;
use crate::moves::{form_refusal, moves};
use crate::on_core::amount_found;
use crate::order::Order;
use bytes::Bytes;
use slate_db::laws::Laws;
use slate_filter::FilterPolicy;
use slate_shared::{Database, DbTransaction, Parts, Pass};
use slate_steps::on_pass::{begin, commit, get, put, rollback};
use slate_store::{Env, EnvOf, Store};
use slate_types::{
    BlockTransformer, IsolationLevel, MergeOperator, Outside, PrefixExtractor, SlateDBError,
};
use std::alloc::Global;
use std::sync::Wait;

/// Makes the order at a moment, in one serializable transaction, and gives the commit's sequence. It is one attempt: where another
/// thread's commit conflicts with it, it is refused, and a caller may try again.
///
/// Refuses in the order of `StockError`, and then the pass commits nothing, and a transaction that began has ended; what the order alone
/// shows is refused before one begins. `Db` holds `OutOfMemory`, what a read was refused for, `LimitReached` where the journal has no place
/// for two events, `TransactionConflict` with the greatest sequence that conflicts with this attempt, or `SequenceExhausted` where no
/// sequence is left. Over a store that holds the journal's tables, for lawful parts, the answer is the order's on the amounts at the start
/// of the attempt, and `BadAmount` names a key whose value isn't 8 bytes long there; and so over one that tells its acts alone, and may
/// lie, unless a section slipped through whose checksum fits. No failure of the store or of a part is passed over: each count of faults is
/// as it was, but for that of the one whose fault `Db` holds.
pub fn run_order<
    P: Parts,
    R: Wait,
    S: Store,
    M: MergeOperator,
    T: BlockTransformer,
    X: PrefixExtractor,
>(
    rt: &R,
    db: &Database<P>,
    pass: &mut Pass<P>,
    order: &Order,
    now: i64,
    env: &mut Env<'_, S, M, T>,
    laws: &Laws<X>,
) -> Result<u64, StockError>
    requires table { pass.old.table ≡ db.now }
    requires meaning { let reach = ⟦<EnvOf<S, M, T> as Outside>⟧.reach in (reach env.old).meaning ≡ P.meaning }
    requires laws { AreGiven P.options P.segments P.policies laws.now.options (segments_by X.lengths laws.now.segments) (map (λ p. (⟦<dyn FilterPolicy as FilterPolicy>⟧ p.vtable).meaning p.value) laws.now.policies.items) }
    requires segments { laws.now.segments ≡ None }
    ensures same { (pass.new.table ≡ pass.old.table) × (pass.new.parts ≡ pass.old.parts) }
    ensures committed { IfOk result (λ n. HasOrderedOn P.options order.now now n pass.old pass.new) }
    ensures only { OnErr result (SeesOnly pass.old pass.new) }
    ensures left { IfErr result (IsLeftOn P.options pass.old pass.new) }
    ensures cause { let reach = ⟦<EnvOf<S, M, T> as Outside>⟧.reach in
        IfErr result (IsOrderCauseOn P.options P.policies (reach env.old) (reach env.new) pass.old pass.new order.now) }
    ensures answer { let reach = ⟦<EnvOf<S, M, T> as Outside>⟧.reach in
        IsStoreChecked P.policies P.meaning pass.new.seen (reach env.old) (reach env.new) →
        IfOk result (λ n. HasSteppedOn P.options P.meaning order.now now n pass.old pass.new) }
    ensures refused { let reach = ⟦<EnvOf<S, M, T> as Outside>⟧.reach in
        IsStoreChecked P.policies P.meaning pass.new.seen (reach env.old) (reach env.new) →
        IfErr result (IsOrderTruthOn P.options P.meaning P.policies (reach env.old) (reach env.new) pass.old pass.new order.now) }
    ensures first { let reach = ⟦<EnvOf<S, M, T> as Outside>⟧.reach in
        (e : StockError) → first_of (form_refusals order.now) ≡ Some e → (result ≡ Err e) × (pass.new ≡ pass.old) × (reach env.new ≡ reach env.old) }
    ensures orders { OnOk result (OrdersGoOn pass.old pass.new) }
    ensures counts { let reach = ⟦<EnvOf<S, M, T> as Outside>⟧.reach in IsStillBy db_error (reach env.old).faults (reach env.new).faults result }
    ensures reads { let reach = ⟦<EnvOf<S, M, T> as Outside>⟧.reach in OnlyReads (reach env.old) (reach env.new) }
{
    order.has_names();
    if let Some(error) = form_refusal(order) {
        return Err(error);
    }
    let alloc = *laws.policies.allocator();
    let keys = order_keys(alloc, order)?;
    let made = make_order(alloc, rt, db, pass, order, keys.as_slice(), now, env, laws);
    drop(keys);
    made
}

/// Makes an order that is refused by nothing that it shows alone.
fn make_order<
    P: Parts,
    R: Wait,
    S: Store,
    M: MergeOperator,
    T: BlockTransformer,
    X: PrefixExtractor,
>(
    alloc: Global,
    rt: &R,
    db: &Database<P>,
    pass: &mut Pass<P>,
    order: &Order,
    keys: &[Bytes],
    now: i64,
    env: &mut Env<'_, S, M, T>,
    laws: &Laws<X>,
) -> Result<u64, StockError>
    requires table { pass.old.table ≡ db.now }
    requires meaning { let reach = ⟦<EnvOf<S, M, T> as Outside>⟧.reach in (reach env.old).meaning ≡ P.meaning }
    requires laws { AreGiven P.options P.segments P.policies laws.now.options (segments_by X.lengths laws.now.segments) (map (λ p. (⟦<dyn FilterPolicy as FilterPolicy>⟧ p.vtable).meaning p.value) laws.now.policies.items) }
    requires segments { laws.now.segments ≡ None }
    requires names { HasNames order.now }
    requires form { first_of (form_refusals order.now) ≡ None }
    requires keys { keys.now ≡ order_keys order.now }
    ensures committed { IfOk result (λ n. HasOrderedOn P.options order.now now n pass.old pass.new) }
    ensures only { OnErr result (SeesOnly pass.old pass.new) }
    ensures left { IfErr result (IsLeftOn P.options pass.old pass.new) }
    ensures cause { let reach = ⟦<EnvOf<S, M, T> as Outside>⟧.reach in
        IfErr result (IsOrderCauseOn P.options P.policies (reach env.old) (reach env.new) pass.old pass.new order.now) }
    ensures answer { let reach = ⟦<EnvOf<S, M, T> as Outside>⟧.reach in
        IsStoreChecked P.policies P.meaning pass.new.seen (reach env.old) (reach env.new) →
        IfOk result (λ n. HasSteppedOn P.options P.meaning order.now now n pass.old pass.new) }
    ensures refused { let reach = ⟦<EnvOf<S, M, T> as Outside>⟧.reach in
        IsStoreChecked P.policies P.meaning pass.new.seen (reach env.old) (reach env.new) →
        IfErr result (IsOrderTruthOn P.options P.meaning P.policies (reach env.old) (reach env.new) pass.old pass.new order.now) }
    ensures counts { let reach = ⟦<EnvOf<S, M, T> as Outside>⟧.reach in IsStillBy db_error (reach env.old).faults (reach env.new).faults result }
    ensures reads { let reach = ⟦<EnvOf<S, M, T> as Outside>⟧.reach in OnlyReads (reach env.old) (reach env.new) }
{
    match begin(rt, db, pass, IsolationLevel::SerializableSnapshot) {
        Ok(txn) => order_within(alloc, rt, db, pass, txn, order, keys, now, env, laws),
        Err(error) => Err(StockError::Db(error)),
    }
}

/// Makes an order in a transaction that took no step yet, and ends it either way.
fn order_within<
    P: Parts,
    R: Wait,
    S: Store,
    M: MergeOperator,
    T: BlockTransformer,
    X: PrefixExtractor,
>(
    alloc: Global,
    rt: &R,
    db: &Database<P>,
    pass: &mut Pass<P>,
    mut txn: DbTransaction<P>,
    order: &Order,
    keys: &[Bytes],
    now: i64,
    env: &mut Env<'_, S, M, T>,
    laws: &Laws<X>,
) -> Result<u64, StockError>
    requires table { (txn.table ≡ db.now) × (pass.old.table ≡ db.now) }
    requires begun { IsAttempt P.options pass.old.seen IsolationLevel.SerializableSnapshot [] txn }
    requires vouched { IsVouchedThere P.options P.meaning txn }
    requires meaning { let reach = ⟦<EnvOf<S, M, T> as Outside>⟧.reach in (reach env.old).meaning ≡ P.meaning }
    requires laws { AreGiven P.options P.segments P.policies laws.now.options (segments_by X.lengths laws.now.segments) (map (λ p. (⟦<dyn FilterPolicy as FilterPolicy>⟧ p.vtable).meaning p.value) laws.now.policies.items) }
    requires segments { laws.now.segments ≡ None }
    requires names { HasNames order.now }
    requires form { first_of (form_refusals order.now) ≡ None }
    requires keys { keys.now ≡ order_keys order.now }
    ensures committed { IfOk result (λ n. HasOrderedOn P.options order.now now n pass.old pass.new) }
    ensures only { OnErr result (SeesOnly pass.old pass.new) }
    ensures ended { OnErr result (HasEndedOn P.options pass.old pass.new) }
    ensures cause { let reach = ⟦<EnvOf<S, M, T> as Outside>⟧.reach in
        IfErr result (IsOrderCauseOn P.options P.policies (reach env.old) (reach env.new) pass.old pass.new order.now) }
    ensures answer { let reach = ⟦<EnvOf<S, M, T> as Outside>⟧.reach in
        IsStoreChecked P.policies P.meaning pass.new.seen (reach env.old) (reach env.new) →
        IfOk result (λ n. HasSteppedOn P.options P.meaning order.now now n pass.old pass.new) }
    ensures refused { let reach = ⟦<EnvOf<S, M, T> as Outside>⟧.reach in
        IsStoreChecked P.policies P.meaning pass.new.seen (reach env.old) (reach env.new) →
        IfErr result (IsOrderTruthOn P.options P.meaning P.policies (reach env.old) (reach env.new) pass.old pass.new order.now) }
    ensures counts { let reach = ⟦<EnvOf<S, M, T> as Outside>⟧.reach in IsStillBy db_error (reach env.old).faults (reach env.new).faults result }
    ensures reads { let reach = ⟦<EnvOf<S, M, T> as Outside>⟧.reach in OnlyReads (reach env.old) (reach env.new) }
{
    match take_order(alloc, rt, db, &mut txn, order, keys, env, laws) {
        Ok(()) => end_order(rt, db, pass, txn, now, env, laws),
        Err(error) => {
            rollback(rt, db, pass, txn);
            Err(error)
        }
    }
}

/// Commits what an order took.
fn end_order<
    P: Parts,
    R: Wait,
    S: Store,
    M: MergeOperator,
    T: BlockTransformer,
    X: PrefixExtractor,
>(
    rt: &R,
    db: &Database<P>,
    pass: &mut Pass<P>,
    txn: DbTransaction<P>,
    now: i64,
    env: &mut Env<'_, S, M, T>,
    laws: &Laws<X>,
) -> Result<u64, StockError>
    requires table { (txn.table ≡ db.now) × (pass.old.table ≡ db.now) }
    requires taken { (order : Order) × HasTakenOn P.options pass.old.seen order txn }
    requires meaning { let reach = ⟦<EnvOf<S, M, T> as Outside>⟧.reach in (reach env.old).meaning ≡ P.meaning }
    requires laws { AreGiven P.options P.segments P.policies laws.now.options (segments_by X.lengths laws.now.segments) (map (λ p. (⟦<dyn FilterPolicy as FilterPolicy>⟧ p.vtable).meaning p.value) laws.now.policies.items) }
    requires segments { laws.now.segments ≡ None }
    ensures ordered { (order : Order) → HasTakenOn P.options pass.old.seen order txn → IfOk result (λ n. HasOrderedOn P.options order now n pass.old pass.new) }
    ensures stepped { (order : Order) → HasTakenOn P.options pass.old.seen order txn → IsVouchedThere P.options P.meaning txn →
        IfOk result (λ n. HasSteppedOn P.options P.meaning order now n pass.old pass.new) }
    ensures only { OnErr result (SeesOnly pass.old pass.new) }
    ensures ended { OnErr result (HasEndedBehind txn pass.old pass.new) }
    ensures known { IsPrefix txn.seen pass.new.seen }
    ensures legal { IsLegal P.options.start_seq pass.new.seen }
    ensures cause { let reach = ⟦<EnvOf<S, M, T> as Outside>⟧.reach in
        IfErr result (IsDb (λ x. IsFault (reach env.old) (reach env.new) x ⊎ IsRefusedBehind P.options txn pass.old pass.new x)) }
    ensures counts { let reach = ⟦<EnvOf<S, M, T> as Outside>⟧.reach in IsStillBy db_error (reach env.old).faults (reach env.new).faults result }
    ensures reads { let reach = ⟦<EnvOf<S, M, T> as Outside>⟧.reach in OnlyReads (reach env.old) (reach env.new) }
{
    match commit(rt, db, pass, txn, now, env, laws) {
        Ok(Some(seq)) => Ok(seq),
        Ok(None) => unreachable!(),
        Err(error) => Err(StockError::Db(error)),
    }
}

/// Reads the amounts at the keys, and puts the new ones.
fn take_order<
    P: Parts,
    R: Wait,
    S: Store,
    M: MergeOperator,
    T: BlockTransformer,
    X: PrefixExtractor,
>(
    alloc: Global,
    rt: &R,
    db: &Database<P>,
    txn: &mut DbTransaction<P>,
    order: &Order,
    keys: &[Bytes],
    env: &mut Env<'_, S, M, T>,
    laws: &Laws<X>,
) -> Result<(), StockError>
    requires table { txn.old.table ≡ db.now }
    requires meaning { let reach = ⟦<EnvOf<S, M, T> as Outside>⟧.reach in (reach env.old).meaning ≡ P.meaning }
    requires laws { AreGiven P.options P.segments P.policies laws.now.options (segments_by X.lengths laws.now.segments) (map (λ p. (⟦<dyn FilterPolicy as FilterPolicy>⟧ p.vtable).meaning p.value) laws.now.policies.items) }
    requires names { HasNames order.now }
    requires form { first_of (form_refusals order.now) ≡ None }
    requires keys { keys.now ≡ order_keys order.now }
    ensures taken { (from : List Event) → IsAttempt P.options from IsolationLevel.SerializableSnapshot [] txn.old → OnOk result (HasTakenOn P.options from order.now txn.new) }
    ensures left { (from : List Event) → IsAttempt P.options from IsolationLevel.SerializableSnapshot [] txn.old → OnErr result (IsOpenFrom P.options from txn.new) }
    ensures sees { let reach = ⟦<EnvOf<S, M, T> as Outside>⟧.reach in
        (from : List Event) → IsAttempt P.options from IsolationLevel.SerializableSnapshot [] txn.old → IsStoreChecked P.policies P.meaning txn.new.seen (reach env.old) (reach env.new) →
        IsVouchedThere P.options P.meaning txn.old → OnOk result (IsVouchedThere P.options P.meaning txn.new) }
    ensures cause { let reach = ⟦<EnvOf<S, M, T> as Outside>⟧.reach in
        (from : List Event) → IsAttempt P.options from IsolationLevel.SerializableSnapshot [] txn.old →
        IfErr result (IsTakeCauseOn P.options P.policies (reach env.old) (reach env.new) from order.now txn.new) }
    ensures truth { let reach = ⟦<EnvOf<S, M, T> as Outside>⟧.reach in
        (from es : List Event) → IsAttempt P.options from IsolationLevel.SerializableSnapshot [] txn.old → IsStoreChecked P.policies P.meaning txn.new.seen (reach env.old) (reach env.new) →
        IsVouchedThere P.options P.meaning txn.old → IsPrefix txn.new.seen es → IsLegal P.options.start_seq es →
        IfErr result (IsTakeTruthOn (IsFaultOn P.policies P.meaning txn.new.seen (reach env.old) (reach env.new)) P.options P.meaning es txn.new.tx.begin order.now) }
    ensures more { (txn.new.table ≡ txn.old.table) × IsPrefix txn.old.seen txn.new.seen }
    ensures counts { let reach = ⟦<EnvOf<S, M, T> as Outside>⟧.reach in IsStillBy db_error (reach env.old).faults (reach env.new).faults result }
    ensures reads { let reach = ⟦<EnvOf<S, M, T> as Outside>⟧.reach in OnlyReads (reach env.old) (reach env.new) }
{
    match read_amounts(alloc, rt, db, txn, keys, env, laws) {
        Ok(amounts) => {
            let done = put_order(alloc, txn, order, keys, amounts.as_slice());
            drop(amounts);
            done
        }
        Err(error) => Err(error),
    }
}

/// Puts the new amounts of an order, by those that stand at its keys.
fn put_order<P: Parts>(
    alloc: Global,
    txn: &mut DbTransaction<P>,
    order: &Order,
    keys: &[Bytes],
    amounts: &[u64],
) -> Result<(), StockError>
    requires names { HasNames order.now }
    requires form { first_of (form_refusals order.now) ≡ None }
    requires keys { keys.now ≡ order_keys order.now }
    requires known { length amounts.now ≡ length (order_keys order.now) }
    ensures put { (from : List Event) (ts : List TranscriptStep) (m : Amounts) → IsAttempt P.options from IsolationLevel.SerializableSnapshot ts txn.old → amounts.now ≡ map m (order_keys order.now) →
        OnOk result ((order_refusal m order.now ≡ None) × IsAttempt P.options from IsolationLevel.SerializableSnapshot (ts ++ own_puts (order_moves m order.now)) txn.new) }
    ensures left { (from : List Event) (ts : List TranscriptStep) → IsAttempt P.options from IsolationLevel.SerializableSnapshot ts txn.old → OnErr result (IsOpenFrom P.options from txn.new) }
    ensures sees { IsVouchedThere P.options P.meaning txn.old → IsVouchedThere P.options P.meaning txn.new }
    ensures refused { (m : Amounts) → amounts.now ≡ map m (order_keys order.now) →
        IfErr result (λ e. (e ≡ StockError.Db SlateDBError.OutOfMemory) ⊎ ((txn.new ≡ txn.old) × (order_refusal m order.now ≡ Some e))) }
    ensures more { (txn.new.table ≡ txn.old.table) × (txn.new.seen ≡ txn.old.seen) }
{
    match moves(alloc, order, amounts) {
        Ok(new) => {
            let done = put_amounts(alloc, txn, keys, new.as_slice());
            drop(new);
            done
        }
        Err(error) => Err(error),
    }
}

/// Reads the amounts at the keys, in their order.
fn read_amounts<
    P: Parts,
    R: Wait,
    S: Store,
    M: MergeOperator,
    T: BlockTransformer,
    X: PrefixExtractor,
>(
    alloc: Global,
    rt: &R,
    db: &Database<P>,
    txn: &mut DbTransaction<P>,
    keys: &[Bytes],
    env: &mut Env<'_, S, M, T>,
    laws: &Laws<X>,
) -> Result<Vec<u64>, StockError>
    requires table { txn.old.table ≡ db.now }
    requires meaning { let reach = ⟦<EnvOf<S, M, T> as Outside>⟧.reach in (reach env.old).meaning ≡ P.meaning }
    requires laws { AreGiven P.options P.segments P.policies laws.now.options (segments_by X.lengths laws.now.segments) (map (λ p. (⟦<dyn FilterPolicy as FilterPolicy>⟧ p.vtable).meaning p.value) laws.now.policies.items) }
    ensures read { (from : List Event) → IsAttempt P.options from IsolationLevel.SerializableSnapshot [] txn.old → IfOk result (λ ns. HasReadOn P.options from keys.now ns.items txn.new) }
    ensures long { IfOk result (λ ns. length ns.items ≡ length keys.now) }
    ensures left { (from : List Event) → IsAttempt P.options from IsolationLevel.SerializableSnapshot [] txn.old → OnErr result (IsOpenFrom P.options from txn.new) }
    ensures sees { let reach = ⟦<EnvOf<S, M, T> as Outside>⟧.reach in
        (from : List Event) → IsAttempt P.options from IsolationLevel.SerializableSnapshot [] txn.old → IsStoreChecked P.policies P.meaning txn.new.seen (reach env.old) (reach env.new) →
        IsVouchedThere P.options P.meaning txn.old → OnOk result (IsVouchedThere P.options P.meaning txn.new) }
    ensures cause { let reach = ⟦<EnvOf<S, M, T> as Outside>⟧.reach in
        (from : List Event) → IsAttempt P.options from IsolationLevel.SerializableSnapshot [] txn.old →
        IfErr result (IsReadsCauseOn P.options P.policies (reach env.old) (reach env.new) from keys.now txn.new) }
    ensures truth { let reach = ⟦<EnvOf<S, M, T> as Outside>⟧.reach in
        (from es : List Event) → IsAttempt P.options from IsolationLevel.SerializableSnapshot [] txn.old → IsStoreChecked P.policies P.meaning txn.new.seen (reach env.old) (reach env.new) →
        IsVouchedThere P.options P.meaning txn.old → IsPrefix txn.new.seen es → IsLegal P.options.start_seq es →
        IfErr result (IsReadsTruthOn (IsFaultOn P.policies P.meaning txn.new.seen (reach env.old) (reach env.new)) P.options P.meaning es txn.new.tx.begin keys.now) }
    ensures more { (txn.new.table ≡ txn.old.table) × IsPrefix txn.old.seen txn.new.seen }
    ensures counts { let reach = ⟦<EnvOf<S, M, T> as Outside>⟧.reach in IsStillBy db_error (reach env.old).faults (reach env.new).faults result }
    ensures reads { let reach = ⟦<EnvOf<S, M, T> as Outside>⟧.reach in OnlyReads (reach env.old) (reach env.new) }
{
    let mut amounts = Vec::new(alloc);
    for key in keys {
        match read_amount(rt, db, txn, key, env, laws) {
            Ok(amount) => match amounts.push(amount) {
                Ok(()) => {}
                Err(error) => return Err(StockError::Db(SlateDBError::from(error))),
            },
            Err(error) => return Err(error),
        }
    }
    Ok(amounts)
}

/// Reads the amount at a key.
fn read_amount<
    P: Parts,
    R: Wait,
    S: Store,
    M: MergeOperator,
    T: BlockTransformer,
    X: PrefixExtractor,
>(
    rt: &R,
    db: &Database<P>,
    txn: &mut DbTransaction<P>,
    key: &Bytes,
    env: &mut Env<'_, S, M, T>,
    laws: &Laws<X>,
) -> Result<u64, StockError>
    requires table { txn.old.table ≡ db.now }
    requires meaning { let reach = ⟦<EnvOf<S, M, T> as Outside>⟧.reach in (reach env.old).meaning ≡ P.meaning }
    requires laws { AreGiven P.options P.segments P.policies laws.now.options (segments_by X.lengths laws.now.segments) (map (λ p. (⟦<dyn FilterPolicy as FilterPolicy>⟧ p.vtable).meaning p.value) laws.now.policies.items) }
    ensures read { (from : List Event) (ts : List TranscriptStep) → IsAttempt P.options from IsolationLevel.SerializableSnapshot ts txn.old →
        IfOk result (λ n. HasGotOn P.options from ts key.now n txn.new) }
    ensures left { (from : List Event) (ts : List TranscriptStep) → IsAttempt P.options from IsolationLevel.SerializableSnapshot ts txn.old → OnErr result (IsOpenFrom P.options from txn.new) }
    ensures sees { let reach = ⟦<EnvOf<S, M, T> as Outside>⟧.reach in
        (from : List Event) (ts : List TranscriptStep) → IsAttempt P.options from IsolationLevel.SerializableSnapshot ts txn.old →
        IsStoreChecked P.policies P.meaning txn.new.seen (reach env.old) (reach env.new) → IsVouchedThere P.options P.meaning txn.old → OnOk result (IsVouchedThere P.options P.meaning txn.new) }
    ensures cause { let reach = ⟦<EnvOf<S, M, T> as Outside>⟧.reach in
        (from : List Event) (ts : List TranscriptStep) → IsAttempt P.options from IsolationLevel.SerializableSnapshot ts txn.old →
        IfErr result (IsGetCauseOn P.options P.policies (reach env.old) (reach env.new) from key.now txn.new) }
    ensures truth { let reach = ⟦<EnvOf<S, M, T> as Outside>⟧.reach in
        (from es : List Event) (ts : List TranscriptStep) → IsAttempt P.options from IsolationLevel.SerializableSnapshot ts txn.old → own_of ts ≡ [] →
        IsStoreChecked P.policies P.meaning txn.new.seen (reach env.old) (reach env.new) → IsVouchedThere P.options P.meaning txn.old → IsPrefix txn.new.seen es → IsLegal P.options.start_seq es →
        IfErr result (IsGetTruthOn (IsFaultOn P.policies P.meaning txn.new.seen (reach env.old) (reach env.new)) P.options P.meaning es txn.new.tx.begin key.now) }
    ensures more { (txn.new.table ≡ txn.old.table) × IsPrefix txn.old.seen txn.new.seen }
    ensures counts { let reach = ⟦<EnvOf<S, M, T> as Outside>⟧.reach in IsStillBy db_error (reach env.old).faults (reach env.new).faults result }
    ensures reads { let reach = ⟦<EnvOf<S, M, T> as Outside>⟧.reach in OnlyReads (reach env.old) (reach env.new) }
{
    match get(rt, db, txn, key.as_slice(), env, laws) {
        Ok(found) => {
            let amount = amount_found(&found, key);
            drop(found);
            amount
        }
        Err(error) => Err(StockError::Db(error)),
    }
}

/// Puts the amounts at the keys, in their order.
fn put_amounts<P: Parts>(
    alloc: Global,
    txn: &mut DbTransaction<P>,
    keys: &[Bytes],
    amounts: &[u64],
) -> Result<(), StockError>
    requires keys { AllByRecursion IsKey keys.now }
    requires long { length amounts.now ≡ length keys.now }
    ensures put { (from : List Event) (ts : List TranscriptStep) → IsAttempt P.options from IsolationLevel.SerializableSnapshot ts txn.old →
        OnOk result (IsAttempt P.options from IsolationLevel.SerializableSnapshot (ts ++ own_puts (zip keys.now amounts.now)) txn.new) }
    ensures left { (from : List Event) (ts : List TranscriptStep) → IsAttempt P.options from IsolationLevel.SerializableSnapshot ts txn.old → OnErr result (IsOpenFrom P.options from txn.new) }
    ensures sees { IsVouchedThere P.options P.meaning txn.old → IsVouchedThere P.options P.meaning txn.new }
    ensures cause { IsOkUnless result (StockError.Db SlateDBError.OutOfMemory) }
    ensures more { (txn.new.table ≡ txn.old.table) × (txn.new.seen ≡ txn.old.seen) }
{
    for place in 0..keys.len() {
        match put_amount(alloc, txn, &keys[place], amounts[place]) {
            Ok(()) => {}
            Err(error) => return Err(error),
        }
    }
    Ok(())
}

/// Puts an amount at a key.
fn put_amount<P: Parts>(
    alloc: Global,
    txn: &mut DbTransaction<P>,
    key: &Bytes,
    amount: u64,
) -> Result<(), StockError>
    requires key { IsKey key.now }
    ensures put { (from : List Event) (ts : List TranscriptStep) → IsAttempt P.options from IsolationLevel.SerializableSnapshot ts txn.old →
        OnOk result (IsAttempt P.options from IsolationLevel.SerializableSnapshot (ts ++ (steps.Own key.now (amount_put amount) ∷ [])) txn.new) }
    ensures sees { IsVouchedThere P.options P.meaning txn.old → IsVouchedThere P.options P.meaning txn.new }
    ensures same { OnErr result (txn.new ≡ txn.old) }
    ensures cause { IsOkUnless result (StockError.Db SlateDBError.OutOfMemory) }
    ensures more { (txn.new.table ≡ txn.old.table) × (txn.new.seen ≡ txn.old.seen) }
{
    let value = stored(alloc, amount)?;
    let done = put(txn, key.as_slice(), value.as_slice());
    drop(value);
    match done {
        Ok(()) => Ok(()),
        Err(error) => Err(StockError::Db(error)),
    }
}
