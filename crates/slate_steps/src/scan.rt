//! Scans of one transaction.
ghost use Rattle.std.specs.Prelude.{◌≡◌, ◌⊎◌, ℕ, ◌++◌, ◌∷◌, List, [], Some, OnOk, OnErr, IfOk, IfErr, map, drop, count_by};
ghost use Rattle.slate_types.specs.Config.{IsValid};
ghost use Rattle.slate_types.specs.declared.config.IsolationLevel.{IsolationLevel};
ghost use Rattle.slate_types.specs.declared.error.SlateDBError.{SlateDBError};
ghost use Rattle.slate_types.specs.declared.iter.IterationOrder.{IterationOrder};
ghost use Rattle.slate_types.specs.declared.types.RowEntry.{RowEntry};
ghost use Rattle.slate_types.specs.Keys.{prefix_range};
ghost use Rattle.slate_types.specs.Outside.{IsFault, IsStill, Objects, OnlyReads, Reach};
ghost use Rattle.slate_mem.specs.KeyTests.{Segments};
ghost use Rattle.slate_filter.specs.Policy.{Policy};
ghost use Rattle.slate_txn.specs.declared.event.TranscriptStep.{TranscriptStep};
ghost use Rattle.slate_txn.specs.declared.event.TranscriptStep.TheVariants as steps;
ghost use Rattle.slate_txn.specs.Alone.{first_left, own_of};
ghost use Rattle.slate_txn.specs.Reads.{rows_seen};
ghost use Rattle.slate_txn.specs.Step.{is_scan};
ghost use Rattle.slate_db.specs.Meaning.{rules_of};
ghost use Rattle.slate_db.specs.Model.{CoreModel};
ghost use Rattle.slate_db.specs.Opened.{HasTransaction};
ghost use Rattle.slate_db.specs.Scans.{IsOpenScan, IsScanOf, id_of, number_of, scan_of};
ghost use Rattle.slate_db.specs.Settled.{IsSettledIn};
ghost use Rattle.slate_steps.specs.Reads.{IsChecked, IsMetBy, IsReadError, IsReading, IsScanSince};
ghost use Rattle.slate_steps.specs.Steps.{IsWithin, Sees, newest};

use slate_db::engine::Core;
use slate_db::laws::Laws;
use slate_db::scan::TxnIterator;
use slate_store::{Env, EnvOf, Store};
use slate_types::{
    BlockTransformer, BytesRange, IterationOrder, KeyValue, MergeOperator, Outside,
    PrefixExtractor, ScanOptions, SlateDBError,
};
use std::alloc::Global;
use uuid::Uuid;

/// Opens a scan of a transaction upwards over the keys that begin with a prefix. No filter of a table is asked. Refuses by want of
/// memory, by `StoreFault` and `BlockTransformError`, each only where its count of faults rose, and by damage of tables that its reads
/// show, and then the transaction took no step.
pub fn scan_prefix<'a, S: Store, M: MergeOperator, T: BlockTransformer, X: PrefixExtractor>(
    alloc: Global,
    core: &mut Core,
    id: &Uuid,
    prefix: &[u8],
    env: &mut Env<'_, S, M, T>,
    laws: &'a Laws<X>,
) -> Result<TxnIterator<'a>, SlateDBError>
    requires open { HasTransaction core.old id.now }
    requires valid { IsValid laws.now.options }
    ensures within { (c : CoreModel) (level : IsolationLevel) (ts : List TranscriptStep) → IsWithin c id.now level ts core.old →
        OnOk result (IsWithin c id.now level (ts ++ (steps.Scan IterationOrder.Ascending (prefix_range prefix.now) ∷ [])) core.new) }
    ensures named { (c : CoreModel) (level : IsolationLevel) (ts : List TranscriptStep) → IsWithin c id.now level ts core.old →
        IfOk result (IsScanOf id.now (count_by is_scan ts) IterationOrder.Ascending (prefix_range prefix.now)) }
    ensures reading { let reach = ⟦<EnvOf<S, M, T> as Outside>⟧.reach in
        let policies = map (λ p. meaning (p.vtable, p.value)) laws.now.policies.items in
        let m = (reach env.old).meaning in
        (c : CoreModel) (level : IsolationLevel) (ts : List TranscriptStep) (g : Segments) (os : Objects) → IsWithin c id.now level ts core.old →
        (reach env.old).objects ≡ Some os → IsSettledIn policies g (reach env.old) c →
        IfOk result (λ it. IsReading os m c (ts ++ (steps.Scan IterationOrder.Ascending (prefix_range prefix.now) ∷ [])) it
        (rows_seen (rules_of c.settings m) c.state.commits (newest c) (own_of ts) IterationOrder.Ascending (prefix_range prefix.now))) }
    ensures checked { let reach = ⟦<EnvOf<S, M, T> as Outside>⟧.reach in
        let policies = map (λ p. meaning (p.vtable, p.value)) laws.now.policies.items in
        let m = (reach env.old).meaning in
        (c : CoreModel) (level : IsolationLevel) (ts : List TranscriptStep) (g : Segments) → IsWithin c id.now level ts core.old →
        (store : IsChecked policies g (reach env.old) (reach env.new) c) →
        IfOk result (λ it. IsReading store.os m c (ts ++ (steps.Scan IterationOrder.Ascending (prefix_range prefix.now) ∷ [])) it
        (rows_seen (rules_of c.settings m) c.state.commits (newest c) (own_of ts) IterationOrder.Ascending (prefix_range prefix.now))) }
    ensures undamaged { let reach = ⟦<EnvOf<S, M, T> as Outside>⟧.reach in
        let policies = map (λ p. meaning (p.vtable, p.value)) laws.now.policies.items in
        (c : CoreModel) (level : IsolationLevel) (ts : List TranscriptStep) (g : Segments) → IsWithin c id.now level ts core.old →
        IsSettledIn policies g (reach env.old) c → IfErr result (IsFault (reach env.old) (reach env.new)) }
    ensures since { let reach = ⟦<EnvOf<S, M, T> as Outside>⟧.reach in IfOk result (IsScanSince (reach env.old) (reach env.new) core.old) }
    ensures cause { let reach = ⟦<EnvOf<S, M, T> as Outside>⟧.reach in
        let policies = map (λ p. meaning (p.vtable, p.value)) laws.now.policies.items in
        IfErr result (IsReadError policies (reach env.old) (reach env.new) core.old) }
    ensures open { HasTransaction core.new id.now }
    ensures opened { IfOk result (IsOpenScan core.new) }
    ensures same { OnErr result (core.new ≡ core.old) }
    ensures counts { let reach = ⟦<EnvOf<S, M, T> as Outside>⟧.reach in IsStill (reach env.old).faults (reach env.new).faults result }
    ensures reads { let reach = ⟦<EnvOf<S, M, T> as Outside>⟧.reach in OnlyReads (reach env.old) (reach env.new) }
{
    let range = BytesRange::from_prefix(alloc, prefix)?;
    core.scan(id, range, None, &ScanOptions::default(), env, laws)
}

/// The next row of a scan, or `None` at its end. Refuses as `Core::next` does, and then the transaction took no step, and the scan answers
/// the refusal again.
pub fn next<S: Store, M: MergeOperator, T: BlockTransformer>(
    core: &mut Core,
    it: &mut TxnIterator<'_>,
    env: &mut Env<'_, S, M, T>,
) -> Result<Option<KeyValue>, SlateDBError>
    requires { IsOpenScan core.old it.old }
    ensures within { (c : CoreModel) (level : IsolationLevel) (ts : List TranscriptStep) → IsWithin c (id_of it.old) level ts core.old →
        IfOk result (λ a. IsWithin c (id_of it.old) level (ts ++ (steps.Next (number_of it.old) a ∷ [])) core.new) }
    ensures named { IsScanOf (id_of it.old) (number_of it.old) (scan_of it.old).order (scan_of it.old).range it.new }
    ensures reading { let reach = ⟦<EnvOf<S, M, T> as Outside>⟧.reach in
        let m = (reach env.old).meaning in
        (c : CoreModel) (ts : List TranscriptStep) (os : Objects) (rows : List RowEntry) →
        (reach env.old).objects ≡ Some os → IsReading os m c ts it.old rows →
        IfOk result (λ a. (a ≡ first_left rows) × IsReading os m c (ts ++ (steps.Next (number_of it.old) a ∷ [])) it.new (drop 1 rows)
        × (Sees m c ts → Sees m c (ts ++ (steps.Next (number_of it.old) a ∷ [])))) }
    ensures checked { let reach = ⟦<EnvOf<S, M, T> as Outside>⟧.reach in
        let m = (reach env.old).meaning in
        (c : CoreModel) (ts : List TranscriptStep) (os : Objects) (rows : List RowEntry) →
        IsMetBy m os (reach env.old) (reach env.new) → IsReading os m c ts it.old rows →
        IfOk result (λ a. (a ≡ first_left rows) × IsReading os m c (ts ++ (steps.Next (number_of it.old) a ∷ [])) it.new (drop 1 rows)
        × (Sees m c ts → Sees m c (ts ++ (steps.Next (number_of it.old) a ∷ [])))) }
    ensures undamaged { let reach = ⟦<EnvOf<S, M, T> as Outside>⟧.reach in
        let m = (reach env.old).meaning in
        (c : CoreModel) (ts : List TranscriptStep) (os : Objects) (rows : List RowEntry) →
        (reach env.old).objects ≡ Some os → IsReading os m c ts it.old rows → IfErr result (IsFault (reach env.old) (reach env.new)) }
    ensures since { let reach = ⟦<EnvOf<S, M, T> as Outside>⟧.reach in
        (c : CoreModel) (from : Reach) → IsScanSince from (reach env.old) c it.old → OnOk result (IsScanSince from (reach env.new) c it.new) }
    ensures cause { let reach = ⟦<EnvOf<S, M, T> as Outside>⟧.reach in
        (c : CoreModel) (from : Reach) (policies : List Policy) → OnlyReads from (reach env.old) → IsScanSince from (reach env.old) c it.old →
        IfErr result (IsReadError policies from (reach env.new) c) }
    ensures open { HasTransaction core.old (id_of it.old) → HasTransaction core.new (id_of it.old) }
    ensures opened { IsOpenScan core.new it.new }
    ensures same { OnErr result (core.new ≡ core.old) }
    ensures counts { let reach = ⟦<EnvOf<S, M, T> as Outside>⟧.reach in IsStill (reach env.old).faults (reach env.new).faults result }
    ensures reads { let reach = ⟦<EnvOf<S, M, T> as Outside>⟧.reach in OnlyReads (reach env.old) (reach env.new) }
{
    core.next(it, env)
}
