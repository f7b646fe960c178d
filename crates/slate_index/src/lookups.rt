//! Searches for records by a field.
ghost use Rattle.std.specs.Prelude.{◌≡◌, ◌⊎◌, ◌≤◌, ◌++◌, ℕ, List, [], Some, IfErr, IfOk, length, map};
ghost use Rattle.slate_types.specs.Config.{IsValid};
ghost use Rattle.slate_types.specs.declared.config.IsolationLevel.{IsolationLevel};
ghost use Rattle.slate_types.specs.declared.error.SlateDBError.{SlateDBError};
ghost use Rattle.slate_types.specs.declared.iter.IterationOrder.{IterationOrder};
ghost use Rattle.slate_types.specs.declared.types.RowEntry.{RowEntry};
ghost use Rattle.slate_types.specs.Keys.{AreBytes, prefix_range};
ghost use Rattle.slate_types.specs.Outside.{IsFault, IsStill, Objects, OnlyReads, Reach};
ghost use Rattle.slate_filter.specs.Policy.{Policy};
ghost use Rattle.slate_mem.specs.KeyTests.{Segments};
ghost use Rattle.slate_txn.specs.declared.event.TranscriptStep.{TranscriptStep};
ghost use Rattle.slate_txn.specs.Alone.{own_of};
ghost use Rattle.slate_txn.specs.Reads.{rows_seen};
ghost use Rattle.slate_db.specs.Meaning.{rules_of, segments_by};
ghost use Rattle.slate_db.specs.Model.{CoreModel};
ghost use Rattle.slate_db.specs.Opened.{HasTransaction};
ghost use Rattle.slate_db.specs.Scans.{IsOpenScan, id_of};
ghost use Rattle.slate_db.specs.Settled.{IsSettledIn};
ghost use Rattle.slate_steps.specs.Reads.{IsChecked, IsReadError, IsReading, IsScanSince, IsStillBy};
ghost use Rattle.slate_steps.specs.Steps.{IsWithin, newest};
ghost use Rattle.slate_index.specs.Calls.{db_error};
ghost use Rattle.slate_index.specs.Entries.{entry_prefix};
ghost use Rattle.slate_index.specs.Finds.{names_behind};
ghost use Rattle.slate_index.specs.Looking.{HasWalked, IsLookup};

use crate::error::IndexError;
use crate::keys::{entry_prefix, names_behind};
use crate::name::Name;
use bytes::Bytes;
use slate_db::engine::Core;
use slate_db::laws::Laws;
use slate_db::scan::TxnIterator;
use slate_steps::scan::{next, scan_prefix};
use slate_steps::transaction::{begin, rollback};
use slate_store::{Env, EnvOf, Store};
use slate_types::{
    BlockTransformer, IsolationLevel, KeyValue, MergeOperator, Outside, PrefixExtractor,
    SlateDBError,
};
use std::alloc::Global;
use uuid::Uuid;

/// The ids of the records that have the field in the index of this number, rising: each stands in an entry. An entry whose id is no name
/// is left out. It is read in a transaction that ends with the call.
///
/// Refuses by `Db` with `LimitReached` where the journal has no place for two events, with what a scan is refused for, and with
/// `OutOfMemory`. A refusal leaves no transaction open. No failure of the store or of a part is passed over: each count of faults is as it
/// was, but for that of the one whose fault `Db` holds.
pub fn lookup<S: Store, M: MergeOperator, X: PrefixExtractor, T: BlockTransformer>(
    core: &mut Core,
    number: u8,
    field: &Bytes,
    env: &mut Env<'_, S, M, T>,
    laws: &Laws<X>,
) -> Result<Vec<Name>, IndexError>
    requires valid { IsValid laws.now.options }
    requires short { length field.now ≤ 1024 }
    ensures lookup { let reach = ⟦<EnvOf<S, M, T> as Outside>⟧.reach in
        let policies = map (λ p. meaning (p.vtable, p.value)) laws.now.policies.items in
        let seg = segments_by X.lengths laws.now.segments in
        IsLookup policies seg number field.now (reach env.old) (reach env.new) core.old core.new result }
    ensures counts { let reach = ⟦<EnvOf<S, M, T> as Outside>⟧.reach in IsStillBy db_error (reach env.old).faults (reach env.new).faults result }
{
    are_bytes(field.as_slice());
    let tx = match begin(core, IsolationLevel::Snapshot) {
        Ok(tx) => tx,
        Err(error) => return Err(IndexError::Db(error)),
    };
    let ids = ids_in(core, &tx, number, field, env, laws);
    rollback(core, &tx);
    match ids {
        Ok(ids) => Ok(ids),
        Err(error) => Err(IndexError::Db(error)),
    }
}

/// The numbers of a slice of bytes are bytes. It does nothing.
fn are_bytes(bytes: &[u8])
    ensures { AreBytes bytes.now }
{
    let _ = bytes;
}

/// The ids in the entries with the field, as an open transaction sees them.
fn ids_in<S: Store, M: MergeOperator, X: PrefixExtractor, T: BlockTransformer>(
    core: &mut Core,
    tx: &Uuid,
    number: u8,
    field: &Bytes,
    env: &mut Env<'_, S, M, T>,
    laws: &Laws<X>,
) -> Result<Vec<Name>, SlateDBError>
    requires open { HasTransaction core.old tx.now }
    requires valid { IsValid laws.now.options }
    ensures still { (c : CoreModel) (level : IsolationLevel) (ts : List TranscriptStep) → IsWithin c tx.now level ts core.old → (us : List TranscriptStep) × IsWithin c tx.now level (ts ++ us) core.new }
    ensures found { let reach = ⟦<EnvOf<S, M, T> as Outside>⟧.reach in
        let policies = map (λ p. meaning (p.vtable, p.value)) laws.now.policies.items in
        let m = (reach env.old).meaning in
        (c : CoreModel) (level : IsolationLevel) (ts : List TranscriptStep) (g : Segments) → IsWithin c tx.now level ts core.old →
        IsChecked policies g (reach env.old) (reach env.new) c →
        IfOk result (λ ids. ids.items ≡ names_behind (entry_prefix number field.now) (map (λ r. r.key)
        (rows_seen (rules_of c.settings m) c.state.commits (newest c) (own_of ts) IterationOrder.Ascending (prefix_range (entry_prefix number field.now))))) }
    ensures undamaged { let reach = ⟦<EnvOf<S, M, T> as Outside>⟧.reach in
        let policies = map (λ p. meaning (p.vtable, p.value)) laws.now.policies.items in
        (c : CoreModel) (level : IsolationLevel) (ts : List TranscriptStep) (g : Segments) → IsWithin c tx.now level ts core.old →
        IsSettledIn policies g (reach env.old) c → IfErr result (IsFault (reach env.old) (reach env.new)) }
    ensures cause { let reach = ⟦<EnvOf<S, M, T> as Outside>⟧.reach in
        let policies = map (λ p. meaning (p.vtable, p.value)) laws.now.policies.items in
        IfErr result (IsReadError policies (reach env.old) (reach env.new) core.old) }
    ensures counts { let reach = ⟦<EnvOf<S, M, T> as Outside>⟧.reach in IsStill (reach env.old).faults (reach env.new).faults result }
    ensures reads { let reach = ⟦<EnvOf<S, M, T> as Outside>⟧.reach in OnlyReads (reach env.old) (reach env.new) }
{
    let alloc = core.journal().alloc();
    let prefix = match entry_prefix(alloc, number, field.as_slice()) {
        Ok(prefix) => prefix,
        Err(error) => return Err(SlateDBError::from(error)),
    };
    let ids = ids_behind(alloc, core, tx, prefix.as_slice(), env, laws);
    drop(prefix);
    ids
}

/// The ids behind the prefix, as an open transaction sees them.
fn ids_behind<S: Store, M: MergeOperator, X: PrefixExtractor, T: BlockTransformer>(
    alloc: Global,
    core: &mut Core,
    tx: &Uuid,
    prefix: &[u8],
    env: &mut Env<'_, S, M, T>,
    laws: &Laws<X>,
) -> Result<Vec<Name>, SlateDBError>
    requires open { HasTransaction core.old tx.now }
    requires valid { IsValid laws.now.options }
    ensures still { (c : CoreModel) (level : IsolationLevel) (ts : List TranscriptStep) → IsWithin c tx.now level ts core.old → (us : List TranscriptStep) × IsWithin c tx.now level (ts ++ us) core.new }
    ensures found { let reach = ⟦<EnvOf<S, M, T> as Outside>⟧.reach in
        let policies = map (λ p. meaning (p.vtable, p.value)) laws.now.policies.items in
        let m = (reach env.old).meaning in
        (c : CoreModel) (level : IsolationLevel) (ts : List TranscriptStep) (g : Segments) → IsWithin c tx.now level ts core.old →
        IsChecked policies g (reach env.old) (reach env.new) c →
        IfOk result (λ ids. ids.items ≡ names_behind prefix.now (map (λ r. r.key)
        (rows_seen (rules_of c.settings m) c.state.commits (newest c) (own_of ts) IterationOrder.Ascending (prefix_range prefix.now)))) }
    ensures undamaged { let reach = ⟦<EnvOf<S, M, T> as Outside>⟧.reach in
        let policies = map (λ p. meaning (p.vtable, p.value)) laws.now.policies.items in
        (c : CoreModel) (level : IsolationLevel) (ts : List TranscriptStep) (g : Segments) → IsWithin c tx.now level ts core.old →
        IsSettledIn policies g (reach env.old) c → IfErr result (IsFault (reach env.old) (reach env.new)) }
    ensures cause { let reach = ⟦<EnvOf<S, M, T> as Outside>⟧.reach in
        let policies = map (λ p. meaning (p.vtable, p.value)) laws.now.policies.items in
        IfErr result (IsReadError policies (reach env.old) (reach env.new) core.old) }
    ensures counts { let reach = ⟦<EnvOf<S, M, T> as Outside>⟧.reach in IsStill (reach env.old).faults (reach env.new).faults result }
    ensures reads { let reach = ⟦<EnvOf<S, M, T> as Outside>⟧.reach in OnlyReads (reach env.old) (reach env.new) }
{
    match keys_behind(alloc, core, tx, prefix, env, laws) {
        Ok(keys) => names_behind(alloc, prefix, keys),
        Err(error) => Err(error),
    }
}

/// The keys that begin with the prefix, as an open transaction sees them.
fn keys_behind<S: Store, M: MergeOperator, X: PrefixExtractor, T: BlockTransformer>(
    alloc: Global,
    core: &mut Core,
    tx: &Uuid,
    prefix: &[u8],
    env: &mut Env<'_, S, M, T>,
    laws: &Laws<X>,
) -> Result<Vec<Bytes>, SlateDBError>
    requires open { HasTransaction core.old tx.now }
    requires valid { IsValid laws.now.options }
    ensures still { (c : CoreModel) (level : IsolationLevel) (ts : List TranscriptStep) → IsWithin c tx.now level ts core.old → (us : List TranscriptStep) × IsWithin c tx.now level (ts ++ us) core.new }
    ensures found { let reach = ⟦<EnvOf<S, M, T> as Outside>⟧.reach in
        let policies = map (λ p. meaning (p.vtable, p.value)) laws.now.policies.items in
        let m = (reach env.old).meaning in
        (c : CoreModel) (level : IsolationLevel) (ts : List TranscriptStep) (g : Segments) → IsWithin c tx.now level ts core.old →
        IsChecked policies g (reach env.old) (reach env.new) c →
        IfOk result (λ keys. keys.items ≡ map (λ r. r.key) (rows_seen (rules_of c.settings m) c.state.commits (newest c) (own_of ts) IterationOrder.Ascending (prefix_range prefix.now))) }
    ensures undamaged { let reach = ⟦<EnvOf<S, M, T> as Outside>⟧.reach in
        let policies = map (λ p. meaning (p.vtable, p.value)) laws.now.policies.items in
        (c : CoreModel) (level : IsolationLevel) (ts : List TranscriptStep) (g : Segments) → IsWithin c tx.now level ts core.old →
        IsSettledIn policies g (reach env.old) c → IfErr result (IsFault (reach env.old) (reach env.new)) }
    ensures cause { let reach = ⟦<EnvOf<S, M, T> as Outside>⟧.reach in
        let policies = map (λ p. meaning (p.vtable, p.value)) laws.now.policies.items in
        IfErr result (IsReadError policies (reach env.old) (reach env.new) core.old) }
    ensures counts { let reach = ⟦<EnvOf<S, M, T> as Outside>⟧.reach in IsStill (reach env.old).faults (reach env.new).faults result }
    ensures reads { let reach = ⟦<EnvOf<S, M, T> as Outside>⟧.reach in OnlyReads (reach env.old) (reach env.new) }
{
    let mut scan = match scan_prefix(alloc, core, tx, prefix, env, laws) {
        Ok(scan) => scan,
        Err(error) => return Err(error),
    };
    let keys = keys_left(alloc, core, &mut scan, env);
    drop(scan);
    keys
}

/// The keys of all rows that a scan has left.
fn keys_left<S: Store, M: MergeOperator, T: BlockTransformer>(
    alloc: Global,
    core: &mut Core,
    scan: &mut TxnIterator<'_>,
    env: &mut Env<'_, S, M, T>,
) -> Result<Vec<Bytes>, SlateDBError>
    requires { IsOpenScan core.old scan.old }
    ensures still { (c : CoreModel) (level : IsolationLevel) (ts : List TranscriptStep) → IsWithin c (id_of scan.old) level ts core.old → (us : List TranscriptStep) × IsWithin c (id_of scan.old) level (ts ++ us) core.new }
    ensures found { let reach = ⟦<EnvOf<S, M, T> as Outside>⟧.reach in IfOk result (λ keys. HasWalked (reach env.old) (reach env.new) scan.old keys.items) }
    ensures undamaged { let reach = ⟦<EnvOf<S, M, T> as Outside>⟧.reach in
        let m = (reach env.old).meaning in
        (c : CoreModel) (ts : List TranscriptStep) (os : Objects) (rows : List RowEntry) →
        (reach env.old).objects ≡ Some os → IsReading os m c ts scan.old rows → IfErr result (IsFault (reach env.old) (reach env.new)) }
    ensures cause { let reach = ⟦<EnvOf<S, M, T> as Outside>⟧.reach in
        (c : CoreModel) (from : Reach) (policies : List Policy) → OnlyReads from (reach env.old) → IsScanSince from (reach env.old) c scan.old →
        IfErr result (IsReadError policies from (reach env.new) c) }
    ensures counts { let reach = ⟦<EnvOf<S, M, T> as Outside>⟧.reach in IsStill (reach env.old).faults (reach env.new).faults result }
    ensures reads { let reach = ⟦<EnvOf<S, M, T> as Outside>⟧.reach in OnlyReads (reach env.old) (reach env.new) }
{
    let mut keys = Vec::new(alloc);
    for _ in 0..u64::MAX {
        match next(core, scan, env) {
            Ok(Some(row)) => match keys.push(key_of(row)) {
                Ok(()) => {}
                Err(error) => return Err(SlateDBError::from(error)),
            },
            Ok(None) => return Ok(keys),
            Err(error) => return Err(error),
        }
    }
    Ok(keys)
}

fn key_of(row: KeyValue) -> Bytes
    ensures { result ≡ row.key }
{
    let KeyValue { key, .. } = row;
    key
}
