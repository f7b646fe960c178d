// A plain list of commits and the manager of transactions have the same contract, and answer the same.
ghost use Rattle.std.specs.Prelude.{◌≡◌, ◌++◌, ◌∷◌, [], List, Some, OnOk, OnErr, IsOkUnless};
ghost use Rattle.std.specs.List.{list_any};
ghost use Rattle.slate_types.specs.declared.error.SlateDBError.{SlateDBError};
ghost use Rattle.slate_types.specs.Keys.{in_range};
ghost use Rattle.slate_txn.specs.Managers.{IsCommitOf, conflict_among, is_tracked, untracked, later as the_later};
ghost use Rattle.slate_txn.specs.State.{Commit};
ghost use Rattle.slate_lower_tests.specs.CommitList.{Lists, newest_tracked as the_newest};

use crate::listing::one;
use bytes::Bytes;
use slate_txn::{KeyList, TransactionManager};
use slate_types::{BytesRange, IsolationLevel, SlateDBError};
use std::alloc::Global;
use std::marker::Model;
use std::ops::Bound;
use uuid::Uuid;

/// What is tracked of an open transaction.
#[derive(Drop)]
struct Tracked {
    start: u64,
    writes: Vec<Bytes>,
    reads: Vec<Bytes>,
    ranges: Vec<BytesRange>,
}

impl Model for Tracked {
    ghost use Rattle.slate_txn.specs.Managers.{Active};

    ghost Value = { Active };

    ghost view = { λ t. record { start = t.start; writes = t.writes.items; reads = t.reads.items; ranges = t.ranges.items } };
}

impl Tracked {
    fn new(alloc: Global, start: u64) -> Tracked
        ensures { result ≡ untracked start }
    {
        Tracked {
            start,
            writes: Vec::new(alloc),
            reads: Vec::new(alloc),
            ranges: Vec::new(alloc),
        }
    }

    fn tracks(&self, key: &Bytes) -> bool
        ensures { result ≡ is_tracked self.now key.now }
    {
        self.writes.as_slice().contains(key)
            || self.reads.as_slice().contains(key)
            || is_in_one(self.ranges.as_slice(), key)
    }

    fn tracks_one(&self, keys: &[Bytes]) -> bool
        ensures { result ≡ list_any (is_tracked self.now) keys.now }
    {
        for key in keys {
            if self.tracks(key) {
                return true;
            }
        }
        false
    }
}

fn is_in_one(ranges: &[BytesRange], key: &Bytes) -> bool
    ensures { result ≡ list_any (λ r. in_range r key.now) ranges.now }
{
    for range in ranges {
        if range.contains(key.as_slice()) {
            return true;
        }
    }
    false
}

fn later(newest: Option<u64>, seq: u64) -> Option<u64>
    ensures { result ≡ the_later newest (Some seq) }
{
    match newest {
        Some(before) => Some(before.max(seq)),
        None => Some(seq),
    }
}

fn newest_of(commits: &[(u64, KeyList)], of: &Tracked) -> Option<u64>
    ensures { result ≡ the_newest (is_tracked of.now) of.now.start commits.now }
{
    let mut newest = None;
    for commit in commits {
        if commit.0 > of.start && of.tracks_one(commit.1.as_slice()) {
            newest = later(newest, commit.0);
        }
    }
    newest
}

/// All commits, each a sequence and the keys that it tracks. None is dropped.
#[derive(Drop)]
pub struct CommitList {
    commits: Vec<(u64, KeyList)>,
}

impl Model for CommitList {
    ghost use Rattle.slate_lower_tests.specs.CommitList.{Tracks};

    ghost Value = { Tracks };

    ghost view = { λ l. l.commits.items };
}

impl CommitList {
    fn new(alloc: Global) -> CommitList
        ensures { Lists result [] }
    {
        CommitList {
            commits: Vec::new(alloc),
        }
    }

    /// The greatest sequence since the start of a commit that tracks a key that the transaction tracks.
    fn check_has_conflict(&self, of: &Tracked) -> Option<u64>
        ensures whole { (cs : List Commit) → Lists self.now cs → result ≡ conflict_among cs (Some of.now) }
    {
        newest_of(self.commits.as_slice(), of)
    }

    /// Adds a commit that tracks these keys.
    fn track_recent_committed(&mut self, keys: Vec<Bytes>, seq: u64) -> Result<(), SlateDBError>
        ensures stands { OnOk result ((cs : List Commit) (c : Commit) → IsCommitOf seq keys.items c → Lists self.old cs → Lists self.new (cs ++ c ∷ [])) }
        ensures same { OnErr result (self.new ≡ self.old) }
        ensures cause { IsOkUnless result SlateDBError.OutOfMemory }
    {
        self.commits.push((seq, KeyList::from_vec(keys)))?;
        Ok(())
    }
}

#[derive(Drop)]
struct Open {
    id: Uuid,
    level: IsolationLevel,
    tracked: Tracked,
}

/// A manager and a list of the same commits, and all that was begun, in turn.
#[derive(Drop)]
struct Both {
    alloc: Global,
    manager: TransactionManager,
    list: CommitList,
    begun: Vec<Open>,
    seq: u64,
}

impl Model for Both {
    ghost use Rattle.std.specs.Prelude.{◌≡◌, ℕ};

    ghost Value = { ℕ };

    ghost view = { λ b. b.seq };

    ghost invariant = { λ b. b.manager.last ≡ b.seq };
}

// What happens, to the transaction of a number where one is named.
enum Step {
    Begin(IsolationLevel),
    Get(usize, &'static [u8]),
    // From a key to a key, both among those that are scanned.
    Scan(usize, &'static [u8], &'static [u8]),
    Put(usize, &'static [u8]),
    // What it conflicts with.
    Check(usize, Option<u64>),
    Commit(usize),
    Rollback(usize),
    Write(&'static [u8]),
}

fn range_of(alloc: Global, from: &[u8], to: &[u8]) -> Option<BytesRange> {
    BytesRange::from_slice(alloc, Bound::Included(from), Bound::Included(to)).ok()
}

impl Both {
    fn new(alloc: Global) -> Both {
        Both {
            alloc,
            manager: TransactionManager::new(alloc, 7),
            list: CommitList::new(alloc),
            begun: Vec::new(alloc),
            seq: 7,
        }
    }

    fn begin(&mut self, level: IsolationLevel) -> bool {
        let Some((id, start)) = self.manager.new_transaction().ok() else {
            return false;
        };
        let tracked = Tracked::new(self.alloc, start);
        self.begun.push(Open { id, level, tracked }).ok().is_some()
    }

    // At snapshot isolation what is read isn't tracked.
    fn get(&mut self, at: usize, key: &'static [u8]) -> bool {
        let Some(open) = self.begun.get_mut(at) else {
            return false;
        };
        if open.level == IsolationLevel::Snapshot {
            return true;
        }
        let keys = one(self.alloc, Bytes::from_static(key));
        let listed = open.tracked.reads.push(Bytes::from_static(key)).ok();
        let managed = self.manager.track_read_keys(&open.id, keys).ok();
        listed.and(managed).is_some()
    }

    fn scan(&mut self, at: usize, from: &'static [u8], to: &'static [u8]) -> bool {
        let Some(open) = self.begun.get_mut(at) else {
            return false;
        };
        if open.level == IsolationLevel::Snapshot {
            return true;
        }
        let listed = match range_of(self.alloc, from, to) {
            Some(range) => open.tracked.ranges.push(range).ok(),
            None => None,
        };
        let managed = match range_of(self.alloc, from, to) {
            Some(range) => self.manager.track_read_range(&open.id, range).ok(),
            None => None,
        };
        listed.and(managed).is_some()
    }

    fn put(&mut self, at: usize, key: &'static [u8]) -> bool {
        let Some(open) = self.begun.get_mut(at) else {
            return false;
        };
        let keys = one(self.alloc, Bytes::from_static(key));
        let listed = open.tracked.writes.push(Bytes::from_static(key)).ok();
        let managed = self.manager.track_write_keys(&open.id, keys).ok();
        listed.and(managed).is_some()
    }

    fn check(&self, at: usize, want: Option<u64>) -> bool {
        let Some(open) = self.begun.get(at) else {
            return false;
        };
        let managed = self.manager.check_has_conflict(&open.id);
        let listed = self.list.check_has_conflict(&open.tracked);
        managed == want && listed == want
    }

    fn commit(&mut self, at: usize) -> bool {
        let Some(open) = self.begun.get(at) else {
            return false;
        };
        let Some(keys) = open.tracked.writes.clone().ok() else {
            return false;
        };
        let Some(seq) = self.seq.checked_add(1) else {
            drop(keys);
            return false;
        };
        let listed = self.list.track_recent_committed(keys, seq).ok();
        let managed = self.manager.track_recent_committed_txn(&open.id, seq).ok();
        if managed.is_some() {
            self.seq = seq;
        }
        listed.and(managed).is_some()
    }

    fn write(&mut self, key: &'static [u8]) -> bool {
        let Some(seq) = self.seq.checked_add(1) else {
            return false;
        };
        let keys = one(self.alloc, Bytes::from_static(key));
        let listed = self.list.track_recent_committed(keys, seq).ok();
        let keys = one(self.alloc, Bytes::from_static(key));
        let managed = self
            .manager
            .track_recent_committed_write_batch(keys, seq)
            .ok();
        if managed.is_some() {
            self.seq = seq;
        }
        listed.and(managed).is_some()
    }

    fn rollback(&mut self, at: usize) -> bool {
        let Some(open) = self.begun.get(at) else {
            return false;
        };
        self.manager.drop_txn(&open.id);
        true
    }

    // Whether it can be done, and both answer what is wanted.
    fn take(&mut self, step: &Step) -> bool {
        match step {
            Step::Begin(level) => self.begin(*level),
            Step::Get(at, key) => self.get(*at, key),
            Step::Scan(at, from, to) => self.scan(*at, from, to),
            Step::Put(at, key) => self.put(*at, key),
            Step::Check(at, want) => self.check(*at, *want),
            Step::Commit(at) => self.commit(*at),
            Step::Rollback(at) => self.rollback(*at),
            Step::Write(key) => self.write(key),
        }
    }
}

// The last sequence is 7 at first. Beside a begin stand its number and where it begins, beside a commit its sequence.
const HISTORY: &[Step] = &[
    Step::Begin(IsolationLevel::SerializableSnapshot), // 0, at 7
    Step::Begin(IsolationLevel::Snapshot), // 1, at 7
    Step::Get(0, b"a"),
    Step::Get(1, b"a"),
    Step::Scan(0, b"c", b"e"),
    Step::Put(0, b"k"),
    Step::Put(1, b"b"),
    Step::Check(0, None),
    Step::Write(b"a"), // 8
    Step::Check(0, Some(8)),
    Step::Check(1, None),
    Step::Write(b"d"), // 9
    Step::Check(0, Some(9)),
    Step::Write(b"a"), // 10
    Step::Check(0, Some(10)),
    Step::Commit(1), // 11, of b
    Step::Check(0, Some(10)),
    // A commit doesn't conflict with who began behind it.
    Step::Begin(IsolationLevel::SerializableSnapshot), // 2, at 11
    Step::Put(2, b"b"),
    Step::Check(2, None),
    // Both ends are scanned.
    Step::Scan(2, b"e", b"g"),
    Step::Scan(2, b"m", b"m"),
    Step::Write(b"e"), // 12
    Step::Check(0, Some(12)),
    Step::Check(2, Some(12)),
    Step::Write(b"h"), // 13
    Step::Check(2, Some(12)),
    Step::Begin(IsolationLevel::Snapshot), // 3, at 13
    Step::Put(3, b"m"),
    Step::Commit(3), // 14, of m
    Step::Check(2, Some(14)),
    // The oldest goes, and what it alone needs. The next one needs the rest.
    Step::Rollback(0),
    Step::Check(2, Some(14)),
    Step::Begin(IsolationLevel::SerializableSnapshot), // 4, at 14
    Step::Get(4, b"b"),
    Step::Get(4, b"m"),
    Step::Check(4, None),
    Step::Rollback(2),
    Step::Check(4, None),
    Step::Write(b"b"), // 15
    Step::Check(4, Some(15)),
    // Nothing is open, and nothing is kept.
    Step::Rollback(4),
    Step::Write(b"z"), // 16
    Step::Begin(IsolationLevel::SerializableSnapshot), // 5, at 16
    Step::Scan(5, b"a", b"z"),
    Step::Put(5, b"a"),
    Step::Check(5, None),
    Step::Begin(IsolationLevel::Snapshot), // 6, at 16
    Step::Put(6, b"a"),
    Step::Commit(5), // 17, of a
    Step::Check(6, Some(17)),
];

fn are_both_right(alloc: Global) -> bool {
    let mut both = Both::new(alloc);
    for step in HISTORY {
        if !both.take(step) {
            return false;
        }
    }
    true
}

#[test]
fn a_list_has_the_same_conflicts(rt: HostRuntime) {
    assert!(rt; are_both_right(rt.alloc()));
}
