//! The open transactions, and what is kept of commits to tell which of them conflict.
ghost use Rattle.std.specs.Prelude.{◌≡◌, ◌⊎◌, ◌↔◌, ◌+◌, ◌-◌, ◌^◌, ◌<◌, ◌≤◌, ℕ, List, ◌++◌, ◌∷◌, [], true, false, nat_lt, length, bytes_eq, Some, None, Err, IfOk, IfErr, IsTrue, OnOk, OnErr, IsOkUnless};
ghost use Rattle.std.specs.BTreeMap as map;
ghost use Rattle.std.specs.List.{AllByRecursion, list_any};
ghost use Rattle.std.specs.Map.{keys_of};
ghost use Rattle.slate_types.specs.declared.error.SlateDBError.{SlateDBError};
ghost use Rattle.slate_types.specs.Keys.{key_cmp, among, in_range};
ghost use Rattle.slate_txn.specs.State.{Commit};
ghost use Rattle.slate_txn.specs.Named.{find_named, without, update_named};
ghost use Rattle.slate_txn.specs.Ids.{id_of, IsOfCount};
ghost use Rattle.slate_txn.specs.Managers.{Active, Manager, empty_manager, untracked, least_start, StandsFor, conflict_among, newest_kept, is_tracked, above, verdict, writes_at, IsWritten, written, IsCommitOf, with_commit, later as the_later};
ghost use Rattle.slate_txn.specs.ManagersView.{StartsRise, AreKept, placed, over, real, pruned};

use bytes::Bytes;
use slate_types::{BytesRange, SlateDBError};
use std::alloc::{AllocError, Global};
use std::collections::BTreeMap;
use std::collections::btree_map::Range;
use std::marker::Model;
use uuid::Uuid;

/// What is tracked of an open transaction.
#[derive(Drop)]
struct TransactionState {
    started_seq: u64,
    write_keys: Vec<Bytes>,
    read_keys: Vec<Bytes>,
    read_ranges: Vec<BytesRange>,
}

impl Model for TransactionState {
    ghost use Rattle.slate_txn.specs.Managers.{Active};

    ghost Value = { Active };

    ghost view = { λ s. record { start = s.started_seq; writes = s.write_keys.items; reads = s.read_keys.items; ranges = s.read_ranges.items } };
}

impl TransactionState {
    /// Of a transaction that begins at a sequence. Takes no memory.
    fn new(alloc: Global, started_seq: u64) -> TransactionState
        ensures { result ≡ untracked started_seq }
    {
        TransactionState {
            started_seq,
            write_keys: Vec::new(alloc),
            read_keys: Vec::new(alloc),
            read_ranges: Vec::new(alloc),
        }
    }
}

/// The later of two sequences, where there are any.
fn later(a: Option<u64>, b: Option<u64>) -> Option<u64>
    ensures { result ≡ the_later a b }
{
    match (a, b) {
        (Some(x), Some(y)) => Some(x.max(y)),
        (Some(x), None) => Some(x),
        (None, y) => y,
    }
}

/// The sequence, where it is above the start.
fn after(start: u64, seq: Option<u64>) -> Option<u64>
    ensures { result ≡ above start seq }
{
    match seq {
        Some(n) if start < n => Some(n),
        _ => None,
    }
}

/// The newest sequence above the start that is kept of one of the keys.
fn newest_of_keys(kept: &BTreeMap<Bytes, u64>, start: u64, keys: &[Bytes]) -> Option<u64>
    requires { map.IsOrdered key_cmp kept.now }
    ensures { result ≡ newest_kept (λ k. among k keys.now) start kept.now.entries }
{
    let mut newest = None;
    for key in keys {
        newest = later(newest, after(start, kept.get(key).copied()));
    }
    newest
}

/// The newest sequence above the start of some entries.
fn newest_of(entries: Range<'_, Bytes, u64>, start: u64) -> Option<u64>
    ensures { result ≡ newest_kept (λ _. true) start entries.entry }
{
    let mut newest = None;
    for (_, seq) in entries {
        newest = later(newest, after(start, Some(*seq)));
    }
    newest
}

/// The newest sequence above the start that is kept of a key in the range.
fn newest_in(kept: &BTreeMap<Bytes, u64>, start: u64, range: &BytesRange) -> Option<u64>
    ensures { result ≡ newest_kept (in_range range.now) start kept.now.entries }
{
    if range.leaves_none() {
        return None;
    }
    newest_of(
        kept.range((range.start.as_ref(), range.end.as_ref())),
        start,
    )
}

/// The newest sequence above the start that is kept of a key in one of the ranges.
fn newest_in_ranges(kept: &BTreeMap<Bytes, u64>, start: u64, ranges: &[BytesRange]) -> Option<u64>
    ensures { result ≡ newest_kept (λ k. list_any (λ r. in_range r k) ranges.now) start kept.now.entries }
{
    let mut newest = None;
    for range in ranges {
        newest = later(newest, newest_in(kept, start, range));
    }
    newest
}

/// The least start. Starts rise with ids, so it is that of the first.
fn least(active: &BTreeMap<Uuid, TransactionState>) -> Option<u64>
    requires { StartsRise active.now.entries }
    ensures { result ≡ least_start active.now.entries }
{
    match active.first_key_value() {
        Some((_, state)) => Some(state.started_seq),
        None => None,
    }
}

/// The newest sequence above the transaction's start that is kept of a key that it tracks.
fn conflict(kept: &BTreeMap<Bytes, u64>, state: &TransactionState) -> Option<u64>
    requires { map.IsOrdered key_cmp kept.now }
    ensures { result ≡ newest_kept (is_tracked state.now) state.now.start kept.now.entries }
{
    let start = state.started_seq;
    let of_writes = newest_of_keys(kept, start, state.write_keys.as_slice());
    let of_reads = newest_of_keys(kept, start, state.read_keys.as_slice());
    let of_ranges = newest_in_ranges(kept, start, state.read_ranges.as_slice());
    later(later(of_writes, of_reads), of_ranges)
}

/// Adds keys behind those of a list. Where memory is wanting the list is as it was.
pub(crate) fn append(items: &mut Vec<Bytes>, mut more: Vec<Bytes>) -> Result<(), AllocError>
    ensures ok { OnOk result (items.new.items ≡ items.old.items ++ more.items) }
    ensures err { OnErr result (items.new.items ≡ items.old.items) }
{
    if items.is_empty() {
        *items = more;
        return Ok(());
    }
    items.append(&mut more)
}

/// Adds a range behind those of a list. Where memory is wanting the list is as it was.
fn append_one(items: &mut Vec<BytesRange>, range: BytesRange) -> Result<(), AllocError>
    ensures ok { OnOk result (items.new.items ≡ items.old.items ++ range ∷ []) }
    ensures err { OnErr result (items.new.items ≡ items.old.items) }
{
    items.push(range).map_err(AllocError::from)
}

/// Adds to the keys that the open transaction with this id writes. Where memory is wanting all is as it was.
fn add_writes(
    active: &mut BTreeMap<Uuid, TransactionState>,
    id: &Uuid,
    keys: Vec<Bytes>,
) -> Result<(), AllocError>
    ensures ok { OnOk result (active.new.entries ≡ update_named id.now (λ t. record t { writes = t.writes ++ keys.items }) active.old.entries) }
    ensures err { OnErr result (active.new.entries ≡ active.old.entries) }
{
    match active.get_mut(id) {
        Some(state) => append(&mut state.write_keys, keys),
        None => {
            drop(keys);
            Ok(())
        }
    }
}

/// Adds to the keys that the open transaction with this id reads. Where memory is wanting all is as it was.
fn add_reads(
    active: &mut BTreeMap<Uuid, TransactionState>,
    id: &Uuid,
    keys: Vec<Bytes>,
) -> Result<(), AllocError>
    ensures ok { OnOk result (active.new.entries ≡ update_named id.now (λ t. record t { reads = t.reads ++ keys.items }) active.old.entries) }
    ensures err { OnErr result (active.new.entries ≡ active.old.entries) }
{
    match active.get_mut(id) {
        Some(state) => append(&mut state.read_keys, keys),
        None => {
            drop(keys);
            Ok(())
        }
    }
}

/// Adds to the ranges that the open transaction with this id reads. Where memory is wanting all is as it was.
fn add_range(
    active: &mut BTreeMap<Uuid, TransactionState>,
    id: &Uuid,
    range: BytesRange,
) -> Result<(), AllocError>
    ensures ok { OnOk result (active.new.entries ≡ update_named id.now (λ t. record t { ranges = t.ranges ++ range ∷ [] }) active.old.entries) }
    ensures err { OnErr result (active.new.entries ≡ active.old.entries) }
{
    match active.get_mut(id) {
        Some(state) => append_one(&mut state.read_ranges, range),
        None => {
            drop(range);
            Ok(())
        }
    }
}

/// Keeps the keys that the transaction writes, where another one is open too. Where memory is wanting all is as it was.
fn keep_own(
    active: &BTreeMap<Uuid, TransactionState>,
    kept: &mut BTreeMap<Bytes, u64>,
    id: &Uuid,
    seq: u64,
) -> Result<(), AllocError>
    requires kept { AreKept (seq - 1) kept.old.entries }
    requires later { 0 < seq }
    ensures found { OnOk result (IsWritten seq (writes_at (find_named id.now active.now.entries)) kept.old.entries kept.new.entries ⊎ ((length active.now.entries ≤ 1) × (kept.new.entries ≡ kept.old.entries))) }
    ensures kept { OnOk result (AreKept seq kept.new.entries) }
    ensures same { OnErr result (kept.new.entries ≡ kept.old.entries) }
{
    if active.len() <= 1 {
        return Ok(());
    }
    match active.get(id) {
        Some(state) => keep(kept, state.write_keys.as_slice(), seq),
        None => Ok(()),
    }
}

/// Keeps the keys of a batch, where a transaction is open. Where memory is wanting all is as it was.
fn keep_batch(
    active: &BTreeMap<Uuid, TransactionState>,
    kept: &mut BTreeMap<Bytes, u64>,
    keys: &[Bytes],
    seq: u64,
) -> Result<(), AllocError>
    requires kept { AreKept (seq - 1) kept.old.entries }
    requires later { 0 < seq }
    ensures found { OnOk result (IsWritten seq keys.now kept.old.entries kept.new.entries ⊎ ((active.now.entries ≡ []) × (kept.new.entries ≡ kept.old.entries))) }
    ensures kept { OnOk result (AreKept seq kept.new.entries) }
    ensures same { OnErr result (kept.new.entries ≡ kept.old.entries) }
{
    if active.is_empty() {
        return Ok(());
    }
    keep(kept, keys, seq)
}

/// What is kept of the commits above the least start, and nothing where nothing is open. It stays where that start didn't change.
fn prune(kept: &mut BTreeMap<Bytes, u64>, before: Option<u64>, start: Option<u64>)
    ensures { (kept.new.entries ≡ pruned start kept.old.entries) ⊎ ((before ≡ start) × (kept.new.entries ≡ kept.old.entries)) }
{
    if before == start {
        return;
    }
    match start {
        Some(start) => drop_up_to(kept, start),
        None => kept.clear(),
    }
}

/// Drops what is kept with a sequence at or below this one.
fn drop_up_to(kept: &mut BTreeMap<Bytes, u64>, start: u64)
    ensures { kept.new.entries ≡ pruned (Some start) kept.old.entries }
{
    kept.retain(
        move |_key, seq| -> bool
            ensures same { seq.new ≡ seq.old }
            ensures test { result ≡ nat_lt start seq.old }
        { *seq > start },
    );
}

/// Takes the key in with a sequence that is none, where it isn't there.
fn place(kept: &mut BTreeMap<Bytes, u64>, key: &Bytes) -> Result<(), AllocError>
    requires { map.IsOrdered key_cmp kept.old }
    ensures found { OnOk result ((k : List ℕ) → find_named k kept.new.entries ≡ placed (bytes_eq key.now k) (find_named k kept.old.entries)) }
    ensures real { real kept.new.entries ≡ real kept.old.entries }
    ensures rising { map.IsOrdered key_cmp kept.new }
{
    if kept.contains_key(key) {
        return Ok(());
    }
    let none = kept.insert(key.clone()?, 0)?;
    drop(none);
    Ok(())
}

/// Takes each of the keys in, those that aren't there with a sequence that is none.
fn place_all(kept: &mut BTreeMap<Bytes, u64>, keys: &[Bytes]) -> Result<(), AllocError>
    requires { map.IsOrdered key_cmp kept.old }
    ensures found { OnOk result ((k : List ℕ) → find_named k kept.new.entries ≡ placed (among k keys.now) (find_named k kept.old.entries)) }
    ensures real { real kept.new.entries ≡ real kept.old.entries }
    ensures rising { map.IsOrdered key_cmp kept.new }
{
    for key in keys {
        place(kept, key)?;
    }
    Ok(())
}

/// Sets the sequence of each of the keys that is there.
fn write_all(kept: &mut BTreeMap<Bytes, u64>, keys: &[Bytes], seq: u64)
    ensures found { (k : List ℕ) → find_named k kept.new.entries ≡ over seq (among k keys.now) (find_named k kept.old.entries) }
    ensures keys { keys_of kept.new.entries ≡ keys_of kept.old.entries }
{
    for key in keys {
        write(kept, key, seq);
    }
}

/// Sets the sequence of the key, where it is there.
fn write(kept: &mut BTreeMap<Bytes, u64>, key: &Bytes, seq: u64)
    ensures found { (k : List ℕ) → find_named k kept.new.entries ≡ over seq (bytes_eq key.now k) (find_named k kept.old.entries) }
    ensures keys { keys_of kept.new.entries ≡ keys_of kept.old.entries }
{
    if let Some(place) = kept.get_mut(key) {
        *place = seq;
    }
}

/// Keeps the sequence for one key, by one search. Where memory is wanting all is as it was.
fn keep_one(kept: &mut BTreeMap<Bytes, u64>, key: &Bytes, seq: u64) -> Result<(), AllocError>
    requires kept { AreKept (seq - 1) kept.old.entries }
    requires later { 0 < seq }
    ensures found { OnOk result (IsWritten seq (key.now ∷ []) kept.old.entries kept.new.entries) }
    ensures kept { OnOk result (AreKept seq kept.new.entries) }
    ensures same { OnErr result (kept.new.entries ≡ kept.old.entries) }
{
    let before = kept.insert(key.clone()?, seq)?;
    drop(before);
    Ok(())
}

/// Keeps the sequence for each of the keys. Where memory is wanting all is as it was.
fn keep(kept: &mut BTreeMap<Bytes, u64>, keys: &[Bytes], seq: u64) -> Result<(), AllocError>
    requires kept { AreKept (seq - 1) kept.old.entries }
    requires later { 0 < seq }
    ensures found { OnOk result ((k : List ℕ) → find_named k kept.new.entries ≡ written seq (among k keys.now) (find_named k kept.old.entries)) }
    ensures kept { OnOk result (AreKept seq kept.new.entries) }
    ensures same { OnErr result (kept.new.entries ≡ kept.old.entries) }
{
    if let [key] = keys {
        return keep_one(kept, key, seq);
    }
    if let Err(error) = place_all(kept, keys) {
        drop_up_to(kept, 0);
        return Err(error);
    }
    write_all(kept, keys, seq);
    Ok(())
}

/// Manages the open transactions, and tells which of them conflict with commits since they began. Of a key it keeps the
/// sequence of its last tracked write.
#[derive(Drop)]
pub struct TransactionManager {
    alloc: Global,
    last_seq: u64,
    ids: u64,
    active_txns: BTreeMap<Uuid, TransactionState>,
    recent_writes: BTreeMap<Bytes, u64>,
}

impl Model for TransactionManager {
    ghost use Rattle.slate_txn.specs.Managers.{Manager};

    ghost Value = { Manager };

    ghost use Rattle.slate_txn.specs.ManagersView.{view_of, IsTidyInside};

    ghost view = { view_of };

    ghost invariant = { IsTidyInside };
}

impl TransactionManager {
    /// A manager with nothing open, after a last sequence. Takes no memory.
    pub fn new(alloc: Global, last_seq: u64) -> TransactionManager
        ensures value { result ≡ empty_manager last_seq }
        ensures stands { StandsFor result [] }
    {
        TransactionManager {
            alloc,
            last_seq,
            ids: 0,
            active_txns: BTreeMap::new(alloc),
            recent_writes: BTreeMap::new(alloc),
        }
    }

    /// The least start of an open transaction, and `None` exactly where nothing is open.
    pub fn min_active_seq(&self) -> Option<u64>
        ensures { result ≡ least_start self.now.active }
    {
        least(&self.active_txns)
    }

    /// Whether nothing is open.
    pub fn is_idle(&self) -> bool
        ensures { IsTrue result ↔ (self.now.active ≡ []) }
    {
        self.active_txns.is_empty()
    }

    /// Opens a transaction at the last sequence, and gives its id and that sequence.
    ///
    /// Refuses by `LimitReached` exactly where all ids were given out, and by `OutOfMemory`, and then nothing is opened.
    pub fn new_transaction(&mut self) -> Result<(Uuid, u64), SlateDBError>
        ensures opened { IfOk result (λ a. (a.1 ≡ self.old.last) × (self.new ≡ record self.old { ids = self.old.ids + 1; active = self.old.active ++ (a.0, untracked a.1) ∷ [] })) }
        ensures id { IfOk result (λ a. a.0 ≡ id_of (self.old.ids + 1)) }
        ensures fresh { IfOk result (λ a. find_named a.0 self.old.active ≡ None) }
        ensures stands { OnOk result ((cs : List Commit) → StandsFor self.old cs → StandsFor self.new cs) }
        ensures same { OnErr result (self.new ≡ self.old) }
        ensures limit { self.old.ids ≡ 2 ^ 64 - 1 → result ≡ Err (SlateDBError.LimitReached (2 ^ 64 - 1)) }
        ensures cause { IfErr result (λ e. (e ≡ SlateDBError.OutOfMemory) ⊎ ((e ≡ SlateDBError.LimitReached (2 ^ 64 - 1)) × (self.old.ids ≡ 2 ^ 64 - 1))) }
    {
        if self.ids == u64::MAX {
            return Err(SlateDBError::LimitReached { limit: u64::MAX });
        }
        let id = Uuid::from_u128((self.ids + 1) as u128);
        let state = TransactionState::new(self.alloc, self.last_seq);
        let none = self.active_txns.insert(id, state)?;
        drop(none);
        self.ids += 1;
        Ok((id, self.last_seq))
    }

    /// Forgets an open transaction, and what is kept for it alone. Nothing happens for an unknown id.
    pub fn drop_txn(&mut self, id: &Uuid)
        ensures dropped { self.new ≡ record self.old { active = without id.now self.old.active; kept = self.new.kept } }
        ensures stands { (cs : List Commit) → StandsFor self.old cs → StandsFor self.new cs }
        ensures verdicts { (other : List ℕ) → bytes_eq id.now other ≡ false → verdict self.new other ≡ verdict self.old other }
    {
        let before = least(&self.active_txns);
        drop(self.active_txns.remove(id));
        let start = least(&self.active_txns);
        prune(&mut self.recent_writes, before, start);
    }

    /// Takes back the opening of the transaction that was opened last, and its id: all others have earlier ids.
    pub fn take_back(&mut self, id: &Uuid)
        requires given { 0 < self.old.ids }
        requires newest { AllByRecursion (λ p. IsOfCount (self.old.ids - 1) p.0) (without id.now self.old.active) }
        ensures value { self.new ≡ record self.old { ids = self.old.ids - 1; active = without id.now self.old.active; kept = self.new.kept } }
        ensures stands { (cs : List Commit) → StandsFor self.old cs → StandsFor self.new cs }
    {
        self.drop_txn(id);
        self.ids -= 1;
    }

    /// The greatest sequence since its start of a commit that tracks a key that the transaction tracks, whatever was pruned.
    /// `None` where there is none, and for an unknown id.
    pub fn check_has_conflict(&self, id: &Uuid) -> Option<u64>
        ensures whole { (cs : List Commit) → StandsFor self.now cs → result ≡ conflict_among cs (find_named id.now self.now.active) }
        ensures verdict { result ≡ verdict self.now id.now }
    {
        match self.active_txns.get(id) {
            Some(state) => conflict(&self.recent_writes, state),
            None => None,
        }
    }

    /// Tracks keys that an open transaction writes. Nothing happens for an unknown id. Refuses by `OutOfMemory`, and then
    /// nothing is tracked.
    pub fn track_write_keys(&mut self, id: &Uuid, keys: Vec<Bytes>) -> Result<(), SlateDBError>
        ensures tracked { OnOk result (self.new ≡ record self.old { active = update_named id.now (λ t. record t { writes = t.writes ++ keys.items }) self.old.active }) }
        ensures stands { (cs : List Commit) → StandsFor self.old cs → StandsFor self.new cs }
        ensures same { OnErr result (self.new ≡ self.old) }
        ensures cause { IsOkUnless result SlateDBError.OutOfMemory }
    {
        add_writes(&mut self.active_txns, id, keys).map_err(SlateDBError::from)
    }

    /// Tracks keys that an open transaction reads, or that it marks. Nothing happens for an unknown id. Refuses by `OutOfMemory`,
    /// and then nothing is tracked.
    pub fn track_read_keys(&mut self, id: &Uuid, keys: Vec<Bytes>) -> Result<(), SlateDBError>
        ensures tracked { OnOk result (self.new ≡ record self.old { active = update_named id.now (λ t. record t { reads = t.reads ++ keys.items }) self.old.active }) }
        ensures stands { (cs : List Commit) → StandsFor self.old cs → StandsFor self.new cs }
        ensures same { OnErr result (self.new ≡ self.old) }
        ensures cause { IsOkUnless result SlateDBError.OutOfMemory }
    {
        add_reads(&mut self.active_txns, id, keys).map_err(SlateDBError::from)
    }

    /// Tracks a range that an open transaction reads. Nothing happens for an unknown id. Refuses by `OutOfMemory`, and then nothing
    /// is tracked.
    pub fn track_read_range(&mut self, id: &Uuid, range: BytesRange) -> Result<(), SlateDBError>
        ensures tracked { OnOk result (self.new ≡ record self.old { active = update_named id.now (λ t. record t { ranges = t.ranges ++ range ∷ [] }) self.old.active }) }
        ensures stands { (cs : List Commit) → StandsFor self.old cs → StandsFor self.new cs }
        ensures same { OnErr result (self.new ≡ self.old) }
        ensures cause { IsOkUnless result SlateDBError.OutOfMemory }
    {
        add_range(&mut self.active_txns, id, range).map_err(SlateDBError::from)
    }

    /// Ends an open transaction by a commit at a sequence above the last, which becomes the last. The keys that it writes are
    /// tracked for the transactions that stay open. An unknown id adds no commit. Refuses by `OutOfMemory`, and then nothing is changed.
    pub fn track_recent_committed_txn(&mut self, id: &Uuid, seq: u64) -> Result<(), SlateDBError>
        requires { self.old.last < seq }
        ensures committed { OnOk result (self.new ≡ record self.old { last = seq; active = without id.now self.old.active; kept = self.new.kept }) }
        ensures stands { OnOk result ((cs : List Commit) (c : Commit) → IsCommitOf seq (writes_at (find_named id.now self.old.active)) c → StandsFor self.old cs → StandsFor self.new (with_commit cs c (find_named id.now self.old.active))) }
        ensures same { OnErr result (self.new ≡ self.old) }
        ensures cause { IsOkUnless result SlateDBError.OutOfMemory }
    {
        keep_own(&self.active_txns, &mut self.recent_writes, id, seq)?;
        self.last_seq = seq;
        self.drop_txn(id);
        Ok(())
    }

    /// Tracks the keys of a batch that was committed by itself, at a sequence above the last, which becomes the last. Refuses by
    /// `OutOfMemory`, and then nothing is changed.
    pub fn track_recent_committed_write_batch(
        &mut self,
        keys: Vec<Bytes>,
        seq: u64,
    ) -> Result<(), SlateDBError>
        requires { self.old.last < seq }
        ensures committed { OnOk result (self.new ≡ record self.old { last = seq; kept = self.new.kept }) }
        ensures stands { OnOk result ((cs : List Commit) (c : Commit) → IsCommitOf seq keys.items c → StandsFor self.old cs → StandsFor self.new (cs ++ c ∷ [])) }
        ensures same { OnErr result (self.new ≡ self.old) }
        ensures cause { IsOkUnless result SlateDBError.OutOfMemory }
    {
        let kept = keep_batch(
            &self.active_txns,
            &mut self.recent_writes,
            keys.as_slice(),
            seq,
        );
        drop(keys);
        kept?;
        self.last_seq = seq;
        Ok(())
    }
}
