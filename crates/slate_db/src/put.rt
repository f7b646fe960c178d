//! The steps of a call that touch two parts of a core: both, or, where memory is wanting, neither.
ghost use Rattle.std.specs.Prelude.{◌≡◌, ◌⊎◌, ◌+◌, ◌<◌, ◌≤◌, ◌∷◌, ◌++◌, [], ℕ, List, None, IfOk, OnOk, OnErr, IsOkUnless};
ghost use Rattle.std.specs.declared.cmp.Ordering.TheVariants.{Greater};
ghost use Rattle.std.specs.List.{AllByRecursion};
ghost use Rattle.slate_types.specs.declared.error.SlateDBError.{SlateDBError};
ghost use Rattle.slate_types.specs.Keys.{key_cmp, keys_set};
ghost use Rattle.slate_mem.specs.Batch.{batch_keys};
ghost use Rattle.slate_mem.specs.Table.{put_rows};
ghost use Rattle.slate_txn.specs.Ids.{id_of};
ghost use Rattle.slate_txn.specs.Named.{find_named};
ghost use Rattle.slate_txn.specs.State.{begun};
ghost use Rattle.slate_db.specs.Calls.Put.{HasTracked, HasEnded, StandsTracked, StandsEnded};
ghost use Rattle.slate_db.specs.Layers.{AreLayers, AreRising, FitsMemory};
ghost use Rattle.slate_db.specs.Log.{LIMIT, IsLog, held_by, with_begin};
ghost use Rattle.slate_db.specs.Model.{versions_in};

use crate::layers::Layers;
use crate::log::Log;
use crate::segments::SegmentPrefixes;
use bytes::Bytes;
use slate_mem::WriteBatch;
use slate_txn::{OpenTransactions, TransactionManager};
use slate_types::{IsolationLevel, RowEntry, SlateDBError};
use std::alloc::Global;
use std::collections::BTreeSet;
use uuid::Uuid;

/// Opens a transaction under the next id, and notes it in the log.
pub(crate) fn enter(
    alloc: Global,
    transactions: &mut OpenTransactions,
    log: &mut Log,
    id: Uuid,
    level: IsolationLevel,
    start: u64,
) -> Result<(), SlateDBError>
    requires past { AllByRecursion (λ p. key_cmp id p.0 ≡ Greater) transactions.old }
    requires newest { AllByRecursion (λ p. p.1.begin ≤ start) transactions.old }
    requires fresh { find_named id transactions.old ≡ None }
    requires next { id ≡ id_of (log.old.ids + 1) }
    requires place { held_by log.old + 2 ≤ LIMIT }
    ensures log { OnOk result (log.new ≡ with_begin log.old level log.new.spare) }
    ensures whole { OnOk result (IsLog log.new) }
    ensures opened { OnOk result (transactions.new ≡ transactions.old ++ (id, begun level start) ∷ []) }
    ensures same_log { OnErr result (log.new ≡ log.old) }
    ensures same { OnErr result (transactions.new ≡ transactions.old) }
    ensures cause { IsOkUnless result SlateDBError.OutOfMemory }
{
    transactions.begin(alloc, id, level, start)?;
    if let Err(error) = log.push_begin(id, level) {
        transactions.end(&id);
        return Err(SlateDBError::from(error));
    }
    Ok(())
}

/// The keys of a batch that commits by itself, ascending. Where nothing is open the manager keeps none, so none is listed.
pub(crate) fn keys_to_track(
    alloc: Global,
    manager: &TransactionManager,
    batch: &WriteBatch,
) -> Result<Vec<Bytes>, SlateDBError>
    ensures keys { IfOk result (λ keys. (manager.now.active ≡ []) ⊎ (keys.items ≡ batch_keys batch.now.ops)) }
    ensures cause { IsOkUnless result SlateDBError.OutOfMemory }
{
    if manager.is_idle() {
        return Ok(Vec::new(alloc));
    }
    batch.keys()
}

/// Puts the rows of a batch that commits by itself, records its segment prefixes, and has the manager track its keys.
pub(crate) fn put_batch(
    alloc: Global,
    segments: &mut SegmentPrefixes,
    layers: &mut Layers,
    manager: &mut TransactionManager,
    rows: Vec<RowEntry>,
    keys: Vec<Bytes>,
    prefixes: &BTreeSet<Bytes>,
    seq: u64,
) -> Result<(), SlateDBError>
    requires whole { AreLayers layers.old }
    requires fit { AllByRecursion FitsMemory rows.items }
    requires rise { (k : List ℕ) → AreRising (versions_in k (layers.old.frozen ++ put_rows layers.old.active rows.items ∷ [])) }
    requires seqs { AllByRecursion (λ r. r.seq ≡ seq) rows.items }
    requires older { AllByRecursion (λ r. r.seq < seq) layers.old.active }
    requires later { manager.old.last < seq }
    ensures recorded { OnOk result (segments.new ≡ keys_set (segments.old ++ prefixes.now.keys)) }
    ensures put { OnOk result (layers.new ≡ record layers.old { active = put_rows layers.old.active rows.items }) }
    ensures whole { AreLayers layers.new }
    ensures committed { OnOk result (HasTracked seq manager.old manager.new) }
    ensures stands { OnOk result (StandsTracked seq keys.items manager.old manager.new) }
    ensures same_segments { OnErr result (segments.new ≡ segments.old) }
    ensures same_layers { OnErr result (layers.new ≡ layers.old) }
    ensures same { OnErr result (manager.new ≡ manager.old) }
    ensures cause { IsOkUnless result SlateDBError.OutOfMemory }
{
    let fresh = segments.record(alloc, prefixes)?;
    if let Err(error) = put_tracked(alloc, layers, manager, rows, keys, seq) {
        segments.take_back(&fresh);
        return Err(error);
    }
    Ok(())
}

/// Puts the rows of a batch that commits by itself, and has the manager track its keys.
fn put_tracked(
    alloc: Global,
    layers: &mut Layers,
    manager: &mut TransactionManager,
    rows: Vec<RowEntry>,
    keys: Vec<Bytes>,
    seq: u64,
) -> Result<(), SlateDBError>
    requires whole { AreLayers layers.old }
    requires fit { AllByRecursion FitsMemory rows.items }
    requires rise { (k : List ℕ) → AreRising (versions_in k (layers.old.frozen ++ put_rows layers.old.active rows.items ∷ [])) }
    requires seqs { AllByRecursion (λ r. r.seq ≡ seq) rows.items }
    requires older { AllByRecursion (λ r. r.seq < seq) layers.old.active }
    requires later { manager.old.last < seq }
    ensures put { OnOk result (layers.new ≡ record layers.old { active = put_rows layers.old.active rows.items }) }
    ensures whole { AreLayers layers.new }
    ensures committed { OnOk result (HasTracked seq manager.old manager.new) }
    ensures stands { OnOk result (StandsTracked seq keys.items manager.old manager.new) }
    ensures same_layers { OnErr result (layers.new ≡ layers.old) }
    ensures same { OnErr result (manager.new ≡ manager.old) }
    ensures cause { IsOkUnless result SlateDBError.OutOfMemory }
{
    if let Err(error) = layers.put(alloc, rows) {
        drop(keys);
        return Err(error);
    }
    if let Err(error) = manager.track_recent_committed_write_batch(keys, seq) {
        layers.take_back(alloc, seq);
        return Err(error);
    }
    Ok(())
}

/// Puts the rows of a transaction that commits, records its segment prefixes, and has the manager track what it hands over, and end it.
pub(crate) fn put_own(
    alloc: Global,
    segments: &mut SegmentPrefixes,
    layers: &mut Layers,
    manager: &mut TransactionManager,
    rows: Vec<RowEntry>,
    prefixes: &BTreeSet<Bytes>,
    id: &Uuid,
    seq: u64,
) -> Result<(), SlateDBError>
    requires whole { AreLayers layers.old }
    requires fit { AllByRecursion FitsMemory rows.items }
    requires rise { (k : List ℕ) → AreRising (versions_in k (layers.old.frozen ++ put_rows layers.old.active rows.items ∷ [])) }
    requires seqs { AllByRecursion (λ r. r.seq ≡ seq) rows.items }
    requires older { AllByRecursion (λ r. r.seq < seq) layers.old.active }
    requires later { manager.old.last < seq }
    ensures recorded { OnOk result (segments.new ≡ keys_set (segments.old ++ prefixes.now.keys)) }
    ensures put { OnOk result (layers.new ≡ record layers.old { active = put_rows layers.old.active rows.items }) }
    ensures whole { AreLayers layers.new }
    ensures committed { OnOk result (HasEnded id.now seq manager.old manager.new) }
    ensures stands { OnOk result (StandsEnded id.now seq manager.old manager.new) }
    ensures same_segments { OnErr result (segments.new ≡ segments.old) }
    ensures same_layers { OnErr result (layers.new ≡ layers.old) }
    ensures same { OnErr result (manager.new ≡ manager.old) }
    ensures cause { IsOkUnless result SlateDBError.OutOfMemory }
{
    let fresh = segments.record(alloc, prefixes)?;
    if let Err(error) = put_ended(alloc, layers, manager, rows, id, seq) {
        segments.take_back(&fresh);
        return Err(error);
    }
    Ok(())
}

/// Puts the rows of a transaction that commits, and has the manager track what it hands over, and end it.
fn put_ended(
    alloc: Global,
    layers: &mut Layers,
    manager: &mut TransactionManager,
    rows: Vec<RowEntry>,
    id: &Uuid,
    seq: u64,
) -> Result<(), SlateDBError>
    requires whole { AreLayers layers.old }
    requires fit { AllByRecursion FitsMemory rows.items }
    requires rise { (k : List ℕ) → AreRising (versions_in k (layers.old.frozen ++ put_rows layers.old.active rows.items ∷ [])) }
    requires seqs { AllByRecursion (λ r. r.seq ≡ seq) rows.items }
    requires older { AllByRecursion (λ r. r.seq < seq) layers.old.active }
    requires later { manager.old.last < seq }
    ensures put { OnOk result (layers.new ≡ record layers.old { active = put_rows layers.old.active rows.items }) }
    ensures whole { AreLayers layers.new }
    ensures committed { OnOk result (HasEnded id.now seq manager.old manager.new) }
    ensures stands { OnOk result (StandsEnded id.now seq manager.old manager.new) }
    ensures same_layers { OnErr result (layers.new ≡ layers.old) }
    ensures same { OnErr result (manager.new ≡ manager.old) }
    ensures cause { IsOkUnless result SlateDBError.OutOfMemory }
{
    layers.put(alloc, rows)?;
    if let Err(error) = manager.track_recent_committed_txn(id, seq) {
        layers.take_back(alloc, seq);
        return Err(error);
    }
    Ok(())
}
