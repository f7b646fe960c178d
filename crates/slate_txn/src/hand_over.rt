//! What a transaction hands over at its commit, and the test for conflicts that all commits share.
ghost use Rattle.std.specs.Prelude.{◌≡◌, ◌⊎◌, ◌&&◌, ◌||◌, ◌++◌, ℕ, List, Some, None, OnOk, IfErr, IsOkUnless};
ghost use Rattle.std.specs.List.{list_any};
ghost use Rattle.slate_types.specs.declared.error.SlateDBError.{SlateDBError};
ghost use Rattle.slate_types.specs.Keys.{in_range};
ghost use Rattle.slate_txn.specs.HandedOver.{Grown, SameKeys, TakesIn, HandsOver, IsConflict};
ghost use Rattle.slate_txn.specs.Conflict.{conflict_of};
ghost use Rattle.slate_txn.specs.Managers.{StandsFor, untracked};
ghost use Rattle.slate_txn.specs.Named.{find_named};
ghost use Rattle.slate_txn.specs.State.{Commit};
ghost use Rattle.slate_txn.specs.Tracking.{tracks};

use crate::reading::{Reading, Scanned};
use crate::transaction_manager::TransactionManager;
use bytes::Bytes;
use slate_types::{BytesRange, SlateDBError};
use uuid::Uuid;

/// Tests an open transaction that tracks nothing yet, as each is until its commit, against all commits since its start: by its
/// tracked writes, its marked keys and what it has read. The manager then tracks all of these. Refuses by
/// `TransactionConflict`, with the greatest sequence that conflicts, and by `OutOfMemory`. Then the transaction is to be dropped.
pub fn test_conflict(
    manager: &mut TransactionManager,
    id: &Uuid,
    writes: Vec<Bytes>,
    marked: Vec<Bytes>,
    reading: Reading,
) -> Result<(), SlateDBError>
    ensures grown { Grown id.now manager.old manager.new }
    ensures handed { (n : ℕ) → find_named id.now manager.old.active ≡ Some (untracked n) → OnOk result (HandsOver n writes.items marked.items reading (find_named id.now manager.new.active)) }
    ensures free { (cs : List Commit) (n : ℕ) → StandsFor manager.old cs → find_named id.now manager.old.active ≡ Some (untracked n) → OnOk result (conflict_of cs n (writes.items ++ marked.items) reading ≡ None) }
    ensures met { (cs : List Commit) (n : ℕ) → StandsFor manager.old cs → find_named id.now manager.old.active ≡ Some (untracked n) → IfErr result (λ e. (e ≡ SlateDBError.OutOfMemory) ⊎ IsConflict (conflict_of cs n (writes.items ++ marked.items) reading) e) }
{
    hand_over(manager, id, writes, marked, reading)?;
    match manager.check_has_conflict(id) {
        Some(seq) => Err(SlateDBError::TransactionConflict { seq }),
        None => Ok(()),
    }
}

/// Gives the manager all that a conflict takes of an open transaction. Where memory is wanting it has taken some.
fn hand_over(
    manager: &mut TransactionManager,
    id: &Uuid,
    writes: Vec<Bytes>,
    marked: Vec<Bytes>,
    reading: Reading,
) -> Result<(), SlateDBError>
    ensures grown { Grown id.now manager.old manager.new }
    ensures handed { (n : ℕ) → find_named id.now manager.old.active ≡ Some (untracked n) → OnOk result (HandsOver n writes.items marked.items reading (find_named id.now manager.new.active)) }
    ensures cause { IsOkUnless result SlateDBError.OutOfMemory }
{
    let Reading { keys, scans, views } = reading;
    manager.track_write_keys(id, writes)?;
    manager.track_read_keys(id, marked)?;
    manager.track_read_keys(id, keys)?;
    track_views(manager, id, views)?;
    track_scans(manager, id, scans.as_slice())
}

/// Tracks each of the ranges.
fn track_views(
    manager: &mut TransactionManager,
    id: &Uuid,
    views: Vec<BytesRange>,
) -> Result<(), SlateDBError>
    ensures grown { Grown id.now manager.old manager.new }
    ensures same { OnOk result (SameKeys (find_named id.now manager.old.active) (find_named id.now manager.new.active)) }
    ensures takes { OnOk result (TakesIn (λ k. list_any (λ r. in_range r k) views.items) (find_named id.now manager.old.active) (find_named id.now manager.new.active)) }
    ensures cause { IsOkUnless result SlateDBError.OutOfMemory }
{
    for range in views {
        manager.track_read_range(id, range)?;
    }
    Ok(())
}

/// Tracks what each of the scans has read.
fn track_scans(
    manager: &mut TransactionManager,
    id: &Uuid,
    scans: &[Scanned],
) -> Result<(), SlateDBError>
    ensures grown { Grown id.now manager.old manager.new }
    ensures same { OnOk result (SameKeys (find_named id.now manager.old.active) (find_named id.now manager.new.active)) }
    ensures takes { OnOk result (TakesIn (λ k. list_any (λ s. tracks s k) scans.now) (find_named id.now manager.old.active) (find_named id.now manager.new.active)) }
    ensures cause { IsOkUnless result SlateDBError.OutOfMemory }
{
    for scan in scans {
        track_scan(manager, id, scan)?;
    }
    Ok(())
}

/// Tracks what the scan has read.
fn track_scan(
    manager: &mut TransactionManager,
    id: &Uuid,
    scan: &Scanned,
) -> Result<(), SlateDBError>
    ensures grown { Grown id.now manager.old manager.new }
    ensures same { OnOk result (SameKeys (find_named id.now manager.old.active) (find_named id.now manager.new.active)) }
    ensures takes { OnOk result (TakesIn (tracks scan.now) (find_named id.now manager.old.active) (find_named id.now manager.new.active)) }
    ensures cause { IsOkUnless result SlateDBError.OutOfMemory }
{
    match scan.tracked()? {
        Some(range) => manager.track_read_range(id, range),
        None => Ok(()),
    }
}
