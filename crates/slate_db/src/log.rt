//! The log: all events so far, and what is counted of them.
ghost use Rattle.std.specs.Prelude.{◌≡◌, ◌+◌, ◌-◌, ◌^◌, ◌≤◌, ◌<◌, ◌∷◌, [], ℕ, List, length, IfErr, OnOk, OnErr, Err, IsSome};
ghost use Rattle.slate_types.specs.declared.error.SlateDBError.{SlateDBError};
ghost use Rattle.slate_txn.specs.Ids.{id_of, snapshot_id};
ghost use Rattle.slate_txn.specs.Named.{find_named};
ghost use Rattle.slate_txn.specs.Reads.{up_to};
ghost use Rattle.slate_txn.specs.Replay.{replay};
ghost use Rattle.slate_db.specs.Installs.{ArePlaced, installed};
ghost use Rattle.slate_db.specs.Log.{LIMIT, IsLog, IsWhollyKept, HasPlace, MayCommit, held_by, with_begin, with_snapshot, with_commit, with_end, with_release, with_freeze, with_write, with_install, with_install_through, with_flush};

use slate_txn::{Event, Journal, KeyList, OpList, TableList, Transcript};
use slate_types::{IsolationLevel, SlateDBError};
use std::alloc::{AllocError, Global};
use std::marker::Model;
use uuid::Uuid;

/// The journal's events, with one more for whatever is open, are no more than these.
pub const EVENTS: usize = 9223372036854775807;

/// The journal of a core, and what is counted of it. It keeps room for the end of whatever is open.
#[derive(Drop)]
pub struct Log {
    start_seq: u64,
    /// The newest sequence.
    last: u64,
    /// The newest sequence at the last flush.
    flushed: u64,
    /// How many ids of transactions were given.
    ids: u64,
    /// How many ids of snapshots were given.
    snapshot_ids: u64,
    /// How many installs were made.
    installs: u64,
    /// How many are open.
    ends: usize,
    journal: Journal,
}

impl Model for Log {
    ghost use Rattle.slate_db.specs.Log.{LogModel, IsLog};
    ghost use Rattle.slate_db.specs.LogView.{log_view};

    ghost Value = { LogModel };

    ghost view = { log_view };

    ghost invariant = { λ s. IsLog (log_view s) };
}

impl Log {
    /// The log of a core whose sequences start behind this one. Takes no memory.
    pub fn new(alloc: Global, start_seq: u64) -> Log
        requires { start_seq ≤ 18446744073709551614 }
        ensures start { (result.start ≡ start_seq) × (result.last ≡ start_seq) }
        ensures nothing { (result.commits ≡ []) × (result.events ≡ []) × (result.flushed ≡ 0) }
        ensures ids { (result.ids ≡ 0) × (result.snapshot_ids ≡ 0) }
        ensures whole { IsLog result }
    {
        Log {
            start_seq,
            last: start_seq,
            flushed: 0,
            ids: 0,
            snapshot_ids: 0,
            installs: 0,
            ends: 0,
            journal: Journal::new(alloc),
        }
    }

    /// The newest sequence.
    pub fn last(&self) -> u64
        ensures { result ≡ self.now.last }
    {
        self.last
    }

    /// The number of the next flush that stores something.
    pub fn next_install(&self) -> u64
        ensures { result ≡ self.now.installs + 1 }
    {
        self.installs + 1
    }

    /// `LimitReached` where the journal has no place for one or two events more.
    pub fn place(&self, more: usize) -> Result<(), SlateDBError>
        requires { more ≤ 2 }
        ensures place { OnOk result (held_by self.now + more ≤ LIMIT) }
        ensures limit { IfErr result (λ e. (e ≡ SlateDBError.LimitReached LIMIT) × (LIMIT < held_by self.now + more)) }
    {
        if self.journal.len() + self.ends > EVENTS - more {
            return Err(SlateDBError::LimitReached {
                limit: EVENTS as u64,
            });
        }
        Ok(())
    }

    /// Makes room for one event beside the ends. Where memory is wanting the log is as it was.
    pub fn reserve(&mut self) -> Result<(), AllocError>
        ensures value { self.new ≡ record self.old { spare = self.new.spare } }
        ensures room { OnOk result (self.old.ends + 1 ≤ self.new.spare) }
        ensures same { OnErr result (self.new ≡ self.old) }
        ensures whole { IsLog self.new }
    {
        self.journal.reserve(self.ends + 1)
    }

    /// Begins a transaction under the next id, at the newest sequence, and makes room for its end. Where memory is wanting the
    /// log is as it was.
    pub fn push_begin(&mut self, id: Uuid, level: IsolationLevel) -> Result<(), AllocError>
        requires next { id ≡ id_of (self.old.ids + 1) }
        requires place { held_by self.old + 2 ≤ LIMIT }
        ensures value { OnOk result (self.new ≡ with_begin self.old level self.new.spare) }
        ensures same { OnErr result (self.new ≡ self.old) }
        ensures whole { IsLog self.new }
    {
        self.journal.reserve(self.ends + 2)?;
        self.ids += 1;
        self.ends += 1;
        self.journal.push_reserved(Event::Begin {
            id,
            level,
            start: self.last,
        });
        Ok(())
    }

    /// Opens a snapshot under the next id of one, at the newest sequence, and makes room for its release. Where memory is wanting the
    /// log is as it was.
    pub fn push_snapshot(&mut self, id: Uuid) -> Result<(), AllocError>
        requires next { id ≡ snapshot_id (self.old.snapshot_ids + 1) }
        requires place { held_by self.old + 2 ≤ LIMIT }
        ensures value { OnOk result (self.new ≡ with_snapshot self.old self.new.spare) }
        ensures same { OnErr result (self.new ≡ self.old) }
        ensures whole { IsLog self.new }
    {
        self.journal.reserve(self.ends + 2)?;
        self.snapshot_ids += 1;
        self.ends += 1;
        self.journal
            .push_reserved(Event::Snapshot { id, seq: self.last });
        Ok(())
    }

    /// Releases an open snapshot, in the room that its opening made.
    pub fn push_release(&mut self, id: Uuid)
        requires { IsSome (find_named id (replay self.old.events).snapshots) }
        ensures value { self.new ≡ with_release self.old id self.new.spare }
        ensures whole { IsLog self.new }
    {
        self.ends -= 1;
        self.journal.push_reserved(Event::Release { id });
    }

    /// Ends an open transaction without a commit, in the room that its begin made.
    pub fn push_end(&mut self, id: Uuid)
        requires { IsSome (find_named id (replay self.old.events).txns) }
        ensures value { self.new ≡ with_end self.old id self.new.spare }
        ensures whole { IsLog self.new }
    {
        self.ends -= 1;
        self.journal.push_reserved(Event::End { id });
    }

    /// Notes a freeze, in the room that was made.
    pub fn push_freeze(&mut self)
        requires { HasPlace 1 self.old }
        ensures value { self.new ≡ with_freeze self.old self.new.spare }
        ensures whole { IsLog self.new }
    {
        self.journal.push_reserved(Event::Freeze);
    }

    /// Commits operations by themselves at the next sequence, in the room that was made.
    pub fn push_write(&mut self, now: i64, ops: OpList)
        requires place { HasPlace 1 self.old }
        requires next { self.old.last < 18446744073709551614 }
        requires kept { IsWhollyKept ops }
        ensures value { self.new ≡ with_write self.old now ops self.new.spare }
        ensures whole { IsLog self.new }
    {
        self.last += 1;
        self.journal.push_reserved(Event::Write {
            seq: self.last,
            now,
            ops,
        });
    }

    /// Commits a transaction and ends it, in the room that its begin made: at the next sequence, or without one where it has no
    /// operations.
    pub fn push_commit(
        &mut self,
        id: Uuid,
        seq: Option<u64>,
        now: i64,
        ops: OpList,
        tracked: KeyList,
        transcript: Transcript,
    )
        requires { MayCommit self.old id seq ops tracked transcript }
        ensures value { self.new ≡ with_commit self.old id seq now ops tracked transcript self.new.spare }
        ensures whole { IsLog self.new }
    {
        self.ends -= 1;
        self.last = seq.unwrap_or(self.last);
        self.journal.push_reserved(Event::Commit {
            id,
            seq,
            now,
            ops,
            tracked,
            transcript,
        });
    }

    /// Installs the tables of the next flush through the newest sequence, in the room that was made.
    pub fn push_install(&mut self, tables: TableList)
        requires place { HasPlace 1 self.old }
        requires tables { ArePlaced (self.old.installs + 1) 0 tables }
        ensures value { self.new ≡ with_install self.old tables self.new.spare }
        ensures whole { IsLog self.new }
    {
        self.installs += 1;
        self.flushed = self.last;
        self.journal.push_reserved(Event::Install {
            through: self.last,
            tables,
        });
    }

    /// Installs the tables of the next flush through a sequence, in the room that was made.
    pub fn push_install_through(&mut self, through: u64, tables: TableList)
        requires place { HasPlace 1 self.old }
        requires tables { ArePlaced (self.old.installs + 1) 0 tables }
        requires behind { installed self.old.events ≤ through }
        requires within { through ≤ self.old.last }
        ensures value { self.new ≡ with_install_through self.old through tables self.new.spare }
        ensures whole { IsLog self.new }
    {
        self.installs += 1;
        self.flushed = through;
        self.journal
            .push_reserved(Event::Install { through, tables });
    }

    /// A flush that finds nothing to install, since all is installed.
    pub fn note_flush(&mut self)
        requires { up_to (installed self.old.events) self.old.commits ≡ self.old.commits }
        ensures value { self.new ≡ with_flush self.old }
        ensures whole { IsLog self.new }
    {
        self.flushed = self.last;
    }

    /// All events so far.
    pub fn journal(&self) -> &Journal
        ensures { (result.now.events ≡ self.now.events) × (result.now.spare ≡ self.now.spare) }
    {
        &self.journal
    }

    /// Lets go of the events.
    pub fn close(self) {
        let Log { journal, .. } = self;
        journal.close();
    }
}
