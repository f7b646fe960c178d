//! One attempt at a transaction on a database that threads share.
ghost use Rattle.std.specs.Prelude.{◌≡◌, ◌⊎◌, ◌<◌, ◌++◌, ◌∷◌, ℕ, List, [], Err, None, Some, false, count_by, drop, map, IfErr, IfOk, OnErr, OnOk};
ghost use mathlib.Core.List.{IsPrefix};
ghost use Rattle.slate_types.specs.Config.{IsValid};
ghost use Rattle.slate_types.specs.declared.config.IsolationLevel.{IsolationLevel};
ghost use Rattle.slate_types.specs.declared.error.SlateDBError.{SlateDBError};
ghost use Rattle.slate_types.specs.declared.iter.IterationOrder.{IterationOrder};
ghost use Rattle.slate_types.specs.declared.types.RowEntry.{RowEntry};
ghost use Rattle.slate_types.specs.Keys.{prefix_range};
ghost use Rattle.slate_types.specs.Outside.{IsFault, IsStill, Objects, OnlyReads, Reach};
ghost use Rattle.slate_filter.specs.Policy.{Policy};
ghost use Rattle.slate_mem.specs.declared.WriteOp.{WriteOp};
ghost use Rattle.slate_mem.specs.BatchModel.{plain_put};
ghost use Rattle.slate_mem.specs.Refusals.{op_refusal};
ghost use Rattle.slate_txn.specs.declared.event.Event.{Event};
ghost use Rattle.slate_txn.specs.declared.event.TranscriptStep.{TranscriptStep};
ghost use Rattle.slate_txn.specs.declared.event.TranscriptStep.TheVariants as steps;
ghost use Rattle.slate_txn.specs.Alone.{first_left};
ghost use Rattle.slate_txn.specs.Replay.{IsLegal};
ghost use Rattle.slate_txn.specs.Step.{is_scan};
ghost use Rattle.slate_db.specs.Answered.{AnswersFrom};
ghost use Rattle.slate_db.specs.Meaning.{segments_by};
ghost use Rattle.slate_db.specs.Scans.{IsScanOf, id_of, number_of, scan_of};
ghost use Rattle.slate_shared.specs.Given.{AreGiven};
ghost use Rattle.slate_shared.specs.Scans.{rows_of_range};
ghost use Rattle.slate_steps.specs.Attempts.{HasCommittedBehind, HasEndedBehind, IsAttempt, IsReadErrorOn, IsReadingOn, IsRefusedBehind, IsScanSinceOn, IsStoreChecked, IsStoreTrue, IsUnbegun, IsVouchedThere, SeesMore, SeesOnly};
ghost use Rattle.slate_steps.specs.Reads.{IsUnslipped};

use slate_db::laws::Laws;
use slate_db::scan::TxnIterator;
use slate_filter::FilterPolicy;
use slate_shared::{Database, DbTransaction, Parts, Pass, WriteHandle};
use slate_store::{Env, EnvOf, Store};
use slate_types::{
    BlockTransformer, BytesRange, IsolationLevel, KeyValue, MergeOperator, Outside,
    PrefixExtractor, PutOptions, SlateDBError,
};
use std::ops::RangeFull;
use std::sync::Wait;

/// Begins a transaction at the newest sequence of a journal that begins with what the pass has seen. Refuses by `LimitReached` where
/// the journal has no place for two events, and by `OutOfMemory`. Then nothing is begun, and the pass has seen all of that journal.
pub fn begin<P: Parts, R: Wait>(
    rt: &R,
    db: &Database<P>,
    pass: &mut Pass<P>,
    level: IsolationLevel,
) -> Result<DbTransaction<P>, SlateDBError>
    requires table { pass.old.table ≡ db.now }
    ensures begun { IfOk result (λ t. (t.table ≡ db.now) × IsAttempt P.options pass.old.seen level [] t) }
    ensures legal { IfOk result (λ t. IsLegal P.options.start_seq t.seen) }
    ensures vouched { IfOk result (IsVouchedThere P.options P.meaning) }
    ensures same { OnOk result (pass.new ≡ pass.old) }
    ensures unbegun { IfErr result (IsUnbegun pass.old pass.new) }
{
    pass.begin(rt, db, level)
}

/// What the transaction sees at a key. Refuses as `DbTransaction::get` does, and then it took no step.
pub fn get<P: Parts, R: Wait, S: Store, M: MergeOperator, T: BlockTransformer, X: PrefixExtractor>(
    rt: &R,
    db: &Database<P>,
    txn: &mut DbTransaction<P>,
    key: &[u8],
    env: &mut Env<'_, S, M, T>,
    laws: &Laws<X>,
) -> Result<Option<KeyValue>, SlateDBError>
    requires table { txn.old.table ≡ db.now }
    requires meaning { let reach = ⟦<EnvOf<S, M, T> as Outside>⟧.reach in (reach env.old).meaning ≡ P.meaning }
    requires laws { AreGiven P.options P.segments P.policies laws.now.options (segments_by X.lengths laws.now.segments) (map (λ p. (⟦<dyn FilterPolicy as FilterPolicy>⟧ p.vtable).meaning p.value) laws.now.policies.items) }
    ensures within { (from : List Event) (level : IsolationLevel) (ts : List TranscriptStep) → IsAttempt P.options from level ts txn.old →
        IfOk result (λ a. IsAttempt P.options from level (ts ++ (steps.Get key.now a ∷ [])) txn.new) }
    ensures same { OnErr result (txn.new ≡ record txn.old { seen = txn.new.seen }) }
    ensures refused { (from : List Event) (level : IsolationLevel) (ts : List TranscriptStep) → IsAttempt P.options from level ts txn.old →
        OnErr result (IsAttempt P.options from level ts txn.new) }
    ensures sees { let reach = ⟦<EnvOf<S, M, T> as Outside>⟧.reach in
        (from : List Event) (level : IsolationLevel) (ts : List TranscriptStep) → IsAttempt P.options from level ts txn.old →
        IsStoreTrue P.policies P.meaning txn.new.seen (reach env.old) (reach env.new) →
        IsVouchedThere P.options P.meaning txn.old → IsVouchedThere P.options P.meaning txn.new }
    ensures checked { let reach = ⟦<EnvOf<S, M, T> as Outside>⟧.reach in
        (from : List Event) (level : IsolationLevel) (ts : List TranscriptStep) → IsAttempt P.options from level ts txn.old →
        IsStoreChecked P.policies P.meaning txn.new.seen (reach env.old) (reach env.new) →
        IsVouchedThere P.options P.meaning txn.old → OnOk result (IsVouchedThere P.options P.meaning txn.new) }
    ensures undamaged { let reach = ⟦<EnvOf<S, M, T> as Outside>⟧.reach in
        (from : List Event) (level : IsolationLevel) (ts : List TranscriptStep) → IsAttempt P.options from level ts txn.old →
        IsStoreTrue P.policies P.meaning txn.new.seen (reach env.old) (reach env.new) → IfErr result (IsFault (reach env.old) (reach env.new)) }
    ensures cause { let reach = ⟦<EnvOf<S, M, T> as Outside>⟧.reach in
        (from : List Event) (level : IsolationLevel) (ts : List TranscriptStep) → IsAttempt P.options from level ts txn.old →
        IfErr result (IsReadErrorOn P.options P.policies (reach env.old) (reach env.new) txn.new.seen) }
    ensures more { (txn.new.table ≡ txn.old.table) × (txn.new.id ≡ txn.old.id) × IsPrefix txn.old.seen txn.new.seen }
    ensures counts { let reach = ⟦<EnvOf<S, M, T> as Outside>⟧.reach in IsStill (reach env.old).faults (reach env.new).faults result }
    ensures reads { let reach = ⟦<EnvOf<S, M, T> as Outside>⟧.reach in OnlyReads (reach env.old) (reach env.new) }
{
    txn.get_key_value(rt, db, key, env, laws)
}

/// Puts a value, with the default options. It takes no lock. Refuses by `EmptyKey`, by `KeyTooLong` above 65535 bytes, by
/// `ValueTooLong` above 2^32 - 1 bytes, in this order, and by `OutOfMemory`, and then it took no step.
pub fn put<P: Parts>(
    txn: &mut DbTransaction<P>,
    key: &[u8],
    value: &[u8],
) -> Result<(), SlateDBError>
    ensures within { (from : List Event) (level : IsolationLevel) (ts : List TranscriptStep) → IsAttempt P.options from level ts txn.old →
        OnOk result (IsAttempt P.options from level (ts ++ (steps.Own key.now (plain_put value.now) ∷ [])) txn.new) }
    ensures sees { IsVouchedThere P.options P.meaning txn.old → IsVouchedThere P.options P.meaning txn.new }
    ensures cause { IfErr result (λ e. (e ≡ SlateDBError.OutOfMemory) ⊎ (op_refusal key.now (plain_put value.now) ≡ Some e)) }
    ensures test { (e : SlateDBError) → op_refusal key.now (plain_put value.now) ≡ Some e → result ≡ Err e }
    ensures more { (txn.new.table ≡ txn.old.table) × (txn.new.id ≡ txn.old.id) × (txn.new.seen ≡ txn.old.seen) }
    ensures same { OnErr result (txn.new ≡ txn.old) }
{
    txn.put_with_options(key, value, &PutOptions::default())
}

/// Deletes a key. It takes no lock. Refuses by `EmptyKey`, then by `KeyTooLong` above 65535 bytes, and by `OutOfMemory`, and then it took
/// no step.
pub fn delete<P: Parts>(txn: &mut DbTransaction<P>, key: &[u8]) -> Result<(), SlateDBError>
    ensures within { (from : List Event) (level : IsolationLevel) (ts : List TranscriptStep) → IsAttempt P.options from level ts txn.old →
        OnOk result (IsAttempt P.options from level (ts ++ (steps.Own key.now WriteOp.Delete ∷ [])) txn.new) }
    ensures sees { IsVouchedThere P.options P.meaning txn.old → IsVouchedThere P.options P.meaning txn.new }
    ensures cause { IfErr result (λ e. (e ≡ SlateDBError.OutOfMemory) ⊎ (op_refusal key.now WriteOp.Delete ≡ Some e)) }
    ensures test { (e : SlateDBError) → op_refusal key.now WriteOp.Delete ≡ Some e → result ≡ Err e }
    ensures more { (txn.new.table ≡ txn.old.table) × (txn.new.id ≡ txn.old.id) × (txn.new.seen ≡ txn.old.seen) }
    ensures same { OnErr result (txn.new ≡ txn.old) }
{
    txn.delete(key)
}

/// Opens a scan upwards over the keys that begin with a prefix. The filters of tables are asked for the prefix, unless it ends with byte
/// 255. Refuses as `DbTransaction::scan_prefix` does, and then the transaction took no step.
pub fn scan_prefix<
    'a,
    P: Parts,
    R: Wait,
    S: Store,
    M: MergeOperator,
    T: BlockTransformer,
    X: PrefixExtractor,
>(
    rt: &R,
    db: &Database<P>,
    txn: &mut DbTransaction<P>,
    prefix: &[u8],
    env: &mut Env<'_, S, M, T>,
    laws: &'a Laws<X>,
) -> Result<TxnIterator<'a>, SlateDBError>
    requires table { txn.old.table ≡ db.now }
    requires valid { IsValid laws.now.options }
    requires meaning { let reach = ⟦<EnvOf<S, M, T> as Outside>⟧.reach in (reach env.old).meaning ≡ P.meaning }
    requires laws { AreGiven P.options P.segments P.policies laws.now.options (segments_by X.lengths laws.now.segments) (map (λ p. (⟦<dyn FilterPolicy as FilterPolicy>⟧ p.vtable).meaning p.value) laws.now.policies.items) }
    ensures within { (from : List Event) (level : IsolationLevel) (ts : List TranscriptStep) → IsAttempt P.options from level ts txn.old →
        OnOk result (IsAttempt P.options from level (ts ++ (steps.Scan IterationOrder.Ascending (prefix_range prefix.now) ∷ [])) txn.new) }
    ensures same { OnErr result (txn.new ≡ record txn.old { seen = txn.new.seen }) }
    ensures refused { (from : List Event) (level : IsolationLevel) (ts : List TranscriptStep) → IsAttempt P.options from level ts txn.old →
        OnErr result (IsAttempt P.options from level ts txn.new) }
    ensures named { IfOk result (IsScanOf txn.old.id (count_by is_scan txn.old.tx.transcript) IterationOrder.Ascending (prefix_range prefix.now)) }
    ensures sees { (from : List Event) (level : IsolationLevel) (ts : List TranscriptStep) → IsAttempt P.options from level ts txn.old →
        IsVouchedThere P.options P.meaning txn.old → IsVouchedThere P.options P.meaning txn.new }
    ensures reading { let reach = ⟦<EnvOf<S, M, T> as Outside>⟧.reach in
        (from : List Event) (level : IsolationLevel) (ts : List TranscriptStep) → IsAttempt P.options from level ts txn.old →
        (true_store : IsStoreTrue P.policies P.meaning txn.new.seen (reach env.old) (reach env.new)) →
        IfOk result (λ it. IsReadingOn true_store.os P.options P.meaning txn.new it (rows_of_range P.options P.meaning txn.new.seen txn.old.tx IterationOrder.Ascending (prefix_range prefix.now))) }
    ensures checked { let reach = ⟦<EnvOf<S, M, T> as Outside>⟧.reach in
        (from : List Event) (level : IsolationLevel) (ts : List TranscriptStep) → IsAttempt P.options from level ts txn.old →
        (store : IsStoreChecked P.policies P.meaning txn.new.seen (reach env.old) (reach env.new)) →
        IfOk result (λ it. IsReadingOn store.os P.options P.meaning txn.new it
        (rows_of_range P.options P.meaning txn.new.seen txn.old.tx IterationOrder.Ascending (prefix_range prefix.now))) }
    ensures undamaged { let reach = ⟦<EnvOf<S, M, T> as Outside>⟧.reach in
        (from : List Event) (level : IsolationLevel) (ts : List TranscriptStep) → IsAttempt P.options from level ts txn.old →
        IsStoreTrue P.policies P.meaning txn.new.seen (reach env.old) (reach env.new) → IfErr result (IsFault (reach env.old) (reach env.new)) }
    ensures since { let reach = ⟦<EnvOf<S, M, T> as Outside>⟧.reach in
        (from : List Event) (level : IsolationLevel) (ts : List TranscriptStep) → IsAttempt P.options from level ts txn.old →
        IfOk result (IsScanSinceOn P.options (reach env.old) (reach env.new) txn.new.seen) }
    ensures cause { let reach = ⟦<EnvOf<S, M, T> as Outside>⟧.reach in
        (from : List Event) (level : IsolationLevel) (ts : List TranscriptStep) → IsAttempt P.options from level ts txn.old →
        IfErr result (IsReadErrorOn P.options P.policies (reach env.old) (reach env.new) txn.new.seen) }
    ensures more { (txn.new.table ≡ txn.old.table) × (txn.new.id ≡ txn.old.id) × IsPrefix txn.old.seen txn.new.seen }
    ensures counts { let reach = ⟦<EnvOf<S, M, T> as Outside>⟧.reach in IsStill (reach env.old).faults (reach env.new).faults result }
    ensures reads { let reach = ⟦<EnvOf<S, M, T> as Outside>⟧.reach in OnlyReads (reach env.old) (reach env.new) }
{
    txn.scan_prefix(rt, db, prefix, &RangeFull, env, laws)
}

/// The next row of a scan of the transaction, or `None` at its end. It takes no lock. Refuses as `DbTransaction::next` does, and then the
/// transaction took no step, and the scan answers the refusal again.
pub fn next<P: Parts, S: Store, M: MergeOperator, T: BlockTransformer>(
    txn: &mut DbTransaction<P>,
    it: &mut TxnIterator<'_>,
    env: &mut Env<'_, S, M, T>,
) -> Result<Option<KeyValue>, SlateDBError>
    requires { (id_of it.old ≡ txn.old.id) × (number_of it.old < count_by is_scan txn.old.tx.transcript) }
    ensures within { (from : List Event) (level : IsolationLevel) (ts : List TranscriptStep) → IsAttempt P.options from level ts txn.old →
        IfOk result (λ a. IsAttempt P.options from level (ts ++ (steps.Next (number_of it.old) a ∷ [])) txn.new) }
    ensures named { IsScanOf (id_of it.old) (number_of it.old) (scan_of it.old).order (scan_of it.old).range it.new }
    ensures reading { let reach = ⟦<EnvOf<S, M, T> as Outside>⟧.reach in
        (os : Objects) (rows : List RowEntry) → (reach env.old).meaning ≡ P.meaning → AnswersFrom os (reach env.old) (reach env.new) → IsReadingOn os P.options P.meaning txn.old it.old rows →
        IfOk result (λ a. (a ≡ first_left rows) × IsReadingOn os P.options P.meaning txn.new it.new (drop 1 rows)
        × (IsVouchedThere P.options P.meaning txn.old → IsVouchedThere P.options P.meaning txn.new)) }
    ensures checked { let reach = ⟦<EnvOf<S, M, T> as Outside>⟧.reach in
        (os : Objects) (rows : List RowEntry) → (reach env.old).meaning ≡ P.meaning →
        IsUnslipped P.meaning os (reach env.old) (reach env.new) → IsReadingOn os P.options P.meaning txn.old it.old rows →
        IfOk result (λ a. (a ≡ first_left rows) × IsReadingOn os P.options P.meaning txn.new it.new (drop 1 rows)
        × (IsVouchedThere P.options P.meaning txn.old → IsVouchedThere P.options P.meaning txn.new)) }
    ensures undamaged { let reach = ⟦<EnvOf<S, M, T> as Outside>⟧.reach in
        (os : Objects) (rows : List RowEntry) → (reach env.old).meaning ≡ P.meaning → AnswersFrom os (reach env.old) (reach env.new) → IsReadingOn os P.options P.meaning txn.old it.old rows →
        IfErr result (IsFault (reach env.old) (reach env.new)) }
    ensures since { let reach = ⟦<EnvOf<S, M, T> as Outside>⟧.reach in
        (from : Reach) (seen : List Event) → IsScanSinceOn P.options from (reach env.old) seen it.old → OnOk result (IsScanSinceOn P.options from (reach env.new) seen it.new) }
    ensures cause { let reach = ⟦<EnvOf<S, M, T> as Outside>⟧.reach in
        (from : Reach) (policies : List Policy) (seen : List Event) → OnlyReads from (reach env.old) → IsScanSinceOn P.options from (reach env.old) seen it.old →
        IfErr result (IsReadErrorOn P.options policies from (reach env.new) seen) }
    ensures more { (txn.new.table ≡ txn.old.table) × (txn.new.id ≡ txn.old.id) × (txn.new.seen ≡ txn.old.seen) }
    ensures same { OnErr result (txn.new ≡ txn.old) }
    ensures counts { let reach = ⟦<EnvOf<S, M, T> as Outside>⟧.reach in IsStill (reach env.old).faults (reach env.new).faults result }
    ensures reads { let reach = ⟦<EnvOf<S, M, T> as Outside>⟧.reach in OnlyReads (reach env.old) (reach env.new) }
{
    txn.next(it, env)
}

/// Ends the transaction without a commit.
pub fn rollback<P: Parts, R: Wait>(
    rt: &R,
    db: &Database<P>,
    pass: &mut Pass<P>,
    txn: DbTransaction<P>,
)
    requires table { (txn.table ≡ db.now) × (pass.old.table ≡ db.now) }
    ensures ended { HasEndedBehind txn pass.old pass.new }
    ensures vouched { IsVouchedThere P.options P.meaning txn → IsVouchedThere P.options P.meaning (record txn { seen = pass.new.seen }) }
    ensures only { SeesOnly pass.old pass.new }
    ensures known { IsPrefix txn.seen pass.new.seen }
    ensures legal { IsLegal P.options.start_seq pass.new.seen }
{
    txn.rollback(rt, db, pass)
}

/// Commits the transaction at a moment, behind a journal that begins with what it and the pass have seen, and gives its sequence, or None
/// where it put and deleted nothing. It ends either way.
///
/// Refuses as `DbTransaction::commit` does, and then nothing is committed. Where there is no extractor it refuses by
/// `TransactionConflict`, with the greatest sequence that conflicts, by `SequenceExhausted` where no sequence is left, and by
/// `OutOfMemory`.
pub fn commit<
    P: Parts,
    R: Wait,
    S: Store,
    M: MergeOperator,
    T: BlockTransformer,
    X: PrefixExtractor,
>(
    rt: &R,
    db: &Database<P>,
    pass: &mut Pass<P>,
    txn: DbTransaction<P>,
    now: i64,
    env: &mut Env<'_, S, M, T>,
    laws: &Laws<X>,
) -> Result<Option<u64>, SlateDBError>
    requires table { (txn.table ≡ db.now) × (pass.old.table ≡ db.now) }
    requires meaning { let reach = ⟦<EnvOf<S, M, T> as Outside>⟧.reach in (reach env.old).meaning ≡ P.meaning }
    requires laws { AreGiven P.options P.segments P.policies laws.now.options (segments_by X.lengths laws.now.segments) (map (λ p. (⟦<dyn FilterPolicy as FilterPolicy>⟧ p.vtable).meaning p.value) laws.now.policies.items) }
    ensures committed { (from : List Event) (level : IsolationLevel) (ts : List TranscriptStep) → IsAttempt P.options from level ts txn →
        IfOk result (λ n. HasCommittedBehind P.options txn n now pass.old pass.new) }
    ensures ended { OnErr result (HasEndedBehind txn pass.old pass.new) }
    ensures vouched { IsVouchedThere P.options P.meaning txn → IsVouchedThere P.options P.meaning (record txn { seen = pass.new.seen }) }
    ensures only { OnErr result (SeesOnly pass.old pass.new) }
    ensures known { IsPrefix txn.seen pass.new.seen }
    ensures legal { IsLegal P.options.start_seq pass.new.seen }
    ensures cause { let reach = ⟦<EnvOf<S, M, T> as Outside>⟧.reach in
        (from : List Event) (level : IsolationLevel) (ts : List TranscriptStep) → IsAttempt P.options from level ts txn → laws.now.segments ≡ None →
        IfErr result (λ e. IsFault (reach env.old) (reach env.new) e ⊎ IsRefusedBehind P.options txn pass.old pass.new e) }
    ensures still { (from : List Event) (level : IsolationLevel) (ts : List TranscriptStep) → IsAttempt P.options from level ts txn → env.new ≡ env.old }
    ensures reads { let reach = ⟦<EnvOf<S, M, T> as Outside>⟧.reach in OnlyReads (reach env.old) (reach env.new) }
{
    let outcome = txn.commit(rt, db, pass, now, env, laws);
    numbered(outcome)
}

/// The same, with the sequence in place of its handle.
fn numbered<P: Parts>(
    outcome: Result<Option<WriteHandle<P>>, SlateDBError>,
) -> Result<Option<u64>, SlateDBError>
    ensures { result ≡ outcome }
{
    match outcome {
        Ok(Some(handle)) => Ok(Some(handle.seqnum())),
        Ok(None) => Ok(None),
        Err(error) => Err(error),
    }
}
