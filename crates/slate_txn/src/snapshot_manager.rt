//! The open snapshots.
ghost use Rattle.std.specs.Prelude.{◌≡◌, ◌≢◌, ◌⊎◌, ◌+◌, ◌-◌, ◌^◌, ◌<◌, ℕ, List, ◌++◌, ◌∷◌, [], Some, None, Err, IfOk, IfErr, OnErr, IsSome, is_some, unwrap_or};
ghost use Rattle.std.specs.List.{AllByRecursion};
ghost use Rattle.slate_types.specs.declared.error.SlateDBError.{SlateDBError};
ghost use Rattle.slate_txn.specs.Named.{find_named, without};
ghost use Rattle.slate_txn.specs.Ids.{id_of, snapshot_id, IsSnapshotOf};
ghost use Rattle.slate_txn.specs.Managers.{no_snapshots, least_seq, sooner_of};

use slate_types::SlateDBError;
use std::alloc::Global;
use std::collections::BTreeMap;
use std::marker::Model;
use uuid::Uuid;

/// Each id of a snapshot has this in its upper half: its highest bit is set, and that of a transaction's isn't.
const UPPER_HALF: u64 = 9223372036854775808;

/// Manages the open snapshots, each with the sequence that it shows.
#[derive(Drop)]
pub struct SnapshotManager {
    last_seq: u64,
    ids: u64,
    active_snapshots: BTreeMap<Uuid, u64>,
}

impl Model for SnapshotManager {
    ghost use Rattle.slate_txn.specs.Managers.{Snapshots};

    ghost Value = { Snapshots };

    ghost use Rattle.slate_txn.specs.SnapshotsView.{view_of, AreCounted};

    ghost view = { view_of };

    ghost invariant = { AreCounted };
}

impl SnapshotManager {
    /// A manager with nothing open. The number is the sequence of a snapshot that is given none. Takes no memory.
    pub fn new(alloc: Global, last_seq: u64) -> SnapshotManager
        ensures { result ≡ no_snapshots last_seq }
    {
        SnapshotManager {
            last_seq,
            ids: 0,
            active_snapshots: BTreeMap::new(alloc),
        }
    }

    /// Opens a snapshot at the sequence, or at the one that was given to `new`, and gives its id and that sequence.
    ///
    /// Refuses by `LimitReached` exactly where all ids were given out, and by `OutOfMemory`, and then nothing is opened.
    pub fn new_snapshot(&mut self, seq: Option<u64>) -> Result<(Uuid, u64), SlateDBError>
        ensures opened { IfOk result (λ a. (a.1 ≡ unwrap_or seq self.old.last) × (self.new ≡ record self.old { ids = self.old.ids + 1; active = self.old.active ++ (a.0, a.1) ∷ [] })) }
        ensures id { IfOk result (λ a. a.0 ≡ id_of (2 ^ 127 + (self.old.ids + 1))) }
        ensures fresh { IfOk result (λ a. find_named a.0 self.old.active ≡ None) }
        ensures apart { IfOk result (λ a. (n : ℕ) → n < 2 ^ 64 → a.0 ≢ id_of n) }
        ensures same { OnErr result (self.new ≡ self.old) }
        ensures limit { self.old.ids ≡ 2 ^ 64 - 1 → result ≡ Err (SlateDBError.LimitReached (2 ^ 64 - 1)) }
        ensures cause { IfErr result (λ e. (e ≡ SlateDBError.OutOfMemory) ⊎ ((e ≡ SlateDBError.LimitReached (2 ^ 64 - 1)) × (self.old.ids ≡ 2 ^ 64 - 1))) }
    {
        if self.ids == u64::MAX {
            return Err(SlateDBError::LimitReached { limit: u64::MAX });
        }
        let id = Uuid::from_u64_pair(UPPER_HALF, self.ids + 1);
        let seq = seq.unwrap_or(self.last_seq);
        let none = self.active_snapshots.insert(id, seq)?;
        drop(none);
        self.ids += 1;
        Ok((id, seq))
    }

    /// Whether the id is that of an open snapshot.
    pub fn is_live(&self, id: &Uuid) -> bool
        ensures { result ≡ is_some (find_named id.now self.now.active) }
    {
        self.active_snapshots.contains_key(id)
    }

    /// The sequence that an open snapshot shows, and `None` for an unknown id.
    pub fn seq_of(&self, id: &Uuid) -> Option<u64>
        ensures { result ≡ find_named id.now self.now.active }
    {
        self.active_snapshots.get(id).copied()
    }

    /// Forgets an open snapshot.
    pub fn drop_snapshot(&mut self, id: &Uuid)
        requires { IsSome (find_named id.now self.old.active) }
        ensures { self.new ≡ record self.old { active = without id.now self.old.active } }
    {
        drop(self.active_snapshots.remove(id));
    }

    /// Takes back the opening of the snapshot that was opened last, and its id: all others have earlier ids.
    pub fn take_back(&mut self, id: &Uuid)
        requires given { 0 < self.old.ids }
        requires newest { AllByRecursion (λ p. IsSnapshotOf (self.old.ids - 1) p.0) (without id.now self.old.active) }
        ensures { self.new ≡ record self.old { ids = self.old.ids - 1; active = without id.now self.old.active } }
    {
        drop(self.active_snapshots.remove(id));
        self.ids -= 1;
    }

    /// The least sequence of an open snapshot, and `None` exactly where nothing is open.
    pub fn min_active_seq(&self) -> Option<u64>
        ensures { result ≡ least_seq self.now.active }
    {
        least(&self.active_snapshots)
    }
}

/// The least of the sequences.
fn least(active: &BTreeMap<Uuid, u64>) -> Option<u64>
    ensures { result ≡ least_seq active.now.entries }
{
    let mut least = None;
    for (_, seq) in active {
        least = Some(sooner(least, *seq));
    }
    least
}

/// The lesser of a sequence and one that there may be.
fn sooner(least: Option<u64>, seq: u64) -> u64
    ensures { Some result ≡ sooner_of least seq }
{
    match least {
        Some(n) => n.min(seq),
        None => seq,
    }
}
