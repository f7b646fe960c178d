//! All rows of a scan.
ghost use Rattle.std.specs.Prelude.{◌≡◌, ◌++◌, ℕ, List, Some, IfErr, IfOk, map};
ghost use Rattle.slate_types.specs.Config.{IsValid};
ghost use Rattle.slate_types.specs.declared.config.IsolationLevel.{IsolationLevel};
ghost use Rattle.slate_types.specs.declared.error.SlateDBError.{SlateDBError};
ghost use Rattle.slate_types.specs.declared.iter.IterationOrder.{IterationOrder};
ghost use Rattle.slate_types.specs.declared.types.RowEntry.{RowEntry};
ghost use Rattle.slate_types.specs.Keys.{prefix_range};
ghost use Rattle.slate_types.specs.Outside.{IsFault, IsStill, Objects, OnlyReads, Reach};
ghost use Rattle.slate_types.specs.Rows.{key_value};
ghost use Rattle.slate_filter.specs.Policy.{Policy};
ghost use Rattle.slate_mem.specs.KeyTests.{Segments};
ghost use Rattle.slate_txn.specs.declared.event.TranscriptStep.{TranscriptStep};
ghost use Rattle.slate_txn.specs.Alone.{own_of};
ghost use Rattle.slate_txn.specs.Reads.{rows_seen};
ghost use Rattle.slate_db.specs.Meaning.{rules_of};
ghost use Rattle.slate_db.specs.Model.{CoreModel};
ghost use Rattle.slate_db.specs.Opened.{HasTransaction};
ghost use Rattle.slate_db.specs.Scans.{IsOpenScan, id_of};
ghost use Rattle.slate_db.specs.Settled.{IsSettledIn};
ghost use Rattle.slate_steps.specs.Reads.{IsReadError, IsReading, IsScanSince};
ghost use Rattle.slate_steps.specs.Steps.{IsWithin, newest};
ghost use Rattle.slate_steps.specs.Walks.{HandsAllRows};

use crate::scan::{next, scan_prefix};
use slate_db::engine::Core;
use slate_db::laws::Laws;
use slate_db::scan::TxnIterator;
use slate_store::{Env, EnvOf, Store};
use slate_types::{
    BlockTransformer, KeyValue, MergeOperator, Outside, PrefixExtractor, SlateDBError,
};
use std::alloc::Global;
use uuid::Uuid;

/// The rows whose keys begin with a prefix, upwards, as a transaction sees them. Refuses as `scan_prefix` and `next` do.
pub fn rows_with_prefix<S: Store, M: MergeOperator, T: BlockTransformer, X: PrefixExtractor>(
    alloc: Global,
    core: &mut Core,
    id: &Uuid,
    prefix: &[u8],
    env: &mut Env<'_, S, M, T>,
    laws: &Laws<X>,
) -> Result<Vec<KeyValue>, SlateDBError>
    requires open { HasTransaction core.old id.now }
    requires valid { IsValid laws.now.options }
    ensures still { (c : CoreModel) (level : IsolationLevel) (ts : List TranscriptStep) → IsWithin c id.now level ts core.old → (us : List TranscriptStep) × IsWithin c id.now level (ts ++ us) core.new }
    ensures found { let reach = ⟦<EnvOf<S, M, T> as Outside>⟧.reach in
        let policies = map (λ p. meaning (p.vtable, p.value)) laws.now.policies.items in
        let m = (reach env.old).meaning in
        (c : CoreModel) (level : IsolationLevel) (ts : List TranscriptStep) (g : Segments) → IsWithin c id.now level ts core.old → IsSettledIn policies g (reach env.old) c →
        IfOk result (λ rows. rows.items ≡ map key_value (rows_seen (rules_of c.settings m) c.state.commits (newest c) (own_of ts) IterationOrder.Ascending (prefix_range prefix.now))) }
    ensures undamaged { let reach = ⟦<EnvOf<S, M, T> as Outside>⟧.reach in
        let policies = map (λ p. meaning (p.vtable, p.value)) laws.now.policies.items in
        (c : CoreModel) (level : IsolationLevel) (ts : List TranscriptStep) (g : Segments) → IsWithin c id.now level ts core.old →
        IsSettledIn policies g (reach env.old) c → IfErr result (IsFault (reach env.old) (reach env.new)) }
    ensures cause { let reach = ⟦<EnvOf<S, M, T> as Outside>⟧.reach in
        let policies = map (λ p. meaning (p.vtable, p.value)) laws.now.policies.items in
        IfErr result (IsReadError policies (reach env.old) (reach env.new) core.old) }
    ensures counts { let reach = ⟦<EnvOf<S, M, T> as Outside>⟧.reach in IsStill (reach env.old).faults (reach env.new).faults result }
    ensures reads { let reach = ⟦<EnvOf<S, M, T> as Outside>⟧.reach in OnlyReads (reach env.old) (reach env.new) }
{
    let mut scan = match scan_prefix(alloc, core, id, prefix, env, laws) {
        Ok(scan) => scan,
        Err(error) => return Err(error),
    };
    let rows = rows_left(alloc, core, &mut scan, env);
    drop(scan);
    rows
}

/// All rows that a scan has left.
fn rows_left<S: Store, M: MergeOperator, T: BlockTransformer>(
    alloc: Global,
    core: &mut Core,
    scan: &mut TxnIterator<'_>,
    env: &mut Env<'_, S, M, T>,
) -> Result<Vec<KeyValue>, SlateDBError>
    requires { IsOpenScan core.old scan.old }
    ensures still { (c : CoreModel) (level : IsolationLevel) (ts : List TranscriptStep) → IsWithin c (id_of scan.old) level ts core.old → (us : List TranscriptStep) × IsWithin c (id_of scan.old) level (ts ++ us) core.new }
    ensures found { let reach = ⟦<EnvOf<S, M, T> as Outside>⟧.reach in IfOk result (λ rows. HandsAllRows (reach env.old) scan.old rows.items) }
    ensures undamaged { let reach = ⟦<EnvOf<S, M, T> as Outside>⟧.reach in
        let m = (reach env.old).meaning in
        (c : CoreModel) (ts : List TranscriptStep) (os : Objects) (rows : List RowEntry) →
        (reach env.old).objects ≡ Some os → IsReading os m c ts scan.old rows → IfErr result (IsFault (reach env.old) (reach env.new)) }
    ensures cause { let reach = ⟦<EnvOf<S, M, T> as Outside>⟧.reach in
        (c : CoreModel) (from : Reach) (policies : List Policy) → OnlyReads from (reach env.old) → IsScanSince from (reach env.old) c scan.old →
        IfErr result (IsReadError policies from (reach env.new) c) }
    ensures counts { let reach = ⟦<EnvOf<S, M, T> as Outside>⟧.reach in IsStill (reach env.old).faults (reach env.new).faults result }
    ensures reads { let reach = ⟦<EnvOf<S, M, T> as Outside>⟧.reach in OnlyReads (reach env.old) (reach env.new) }
{
    let mut rows = Vec::new(alloc);
    for _ in 0..u64::MAX {
        match next(core, scan, env) {
            Ok(Some(row)) => match rows.push(row) {
                Ok(()) => {}
                Err(error) => return Err(SlateDBError::from(error)),
            },
            Ok(None) => return Ok(rows),
            Err(error) => return Err(error),
        }
    }
    Ok(rows)
}
