//! Plain of transactions that threads share on one database.
ghost use Rattle.std.specs.Prelude.{◌≡◌, None};
ghost use Rattle.slate_shared.specs.Given.{ArePlain};

use crate::shared_store::SharedStore;
use slate_db::laws::Laws;
use slate_shared::{Database, DbTransaction, Pass, Plain};
use slate_store::Env;
use slate_types::{IsolationLevel, KeyValue, NoExtractor, NoOperator, NoTransformer, SlateDBError};
use std::alloc::AllocError;
use std::fmt::Write;
use std::sync::Wait;

/// How many keys the rounds draw from.
const KEYS: u64 = 1000;

/// How many of its rounds a thread does between two flushes.
const ROUNDS_PER_FLUSH: u64 = 64;

type Outer<'a, 's, R> = Env<'a, SharedStore<'s, R>, NoOperator, NoTransformer>;

/// The keys and the value of a round.
#[derive(Drop)]
struct Round {
    read: [u8; 4],
    written: [u8; 4],
    value: [u8; 12],
}

/// A thread's share of the rounds, and what came of it.
#[derive(Drop)]
pub struct Worker<'a, R> {
    pub pass: Pass<Plain>,
    pub store: SharedStore<'a, R>,
    /// Its number, from 0, at which its drawing begins.
    pub place: u64,
    pub rounds: u64,
    /// How many of its commits were refused for a conflict.
    pub conflicts: u64,
    /// How many of the gets of its commits found a row.
    pub hits: u64,
    /// A line for each attempt, where there is to be one.
    pub log: Option<String>,
    pub ended: Result<(), SlateDBError>,
}

impl<R: Wait> Worker<'_, R> {
    /// Does the rounds, up to the first refusal that is no conflict.
    pub fn work(&mut self, rt: &R, db: &Database<Plain>, laws: &Laws<NoExtractor>)
        requires table { self.old.pass.table ≡ db.now }
        requires laws { ArePlain laws.now.options laws.now.segments laws.now.policies.items }
        ensures same { self.new.pass.table ≡ self.old.pass.table }
    {
        self.ended = self.do_rounds(rt, db, laws);
    }

    fn do_rounds(
        &mut self,
        rt: &R,
        db: &Database<Plain>,
        laws: &Laws<NoExtractor>,
    ) -> Result<(), SlateDBError>
        requires table { self.old.pass.table ≡ db.now }
        requires laws { ArePlain laws.now.options laws.now.segments laws.now.policies.items }
        ensures same { self.new.pass.table ≡ self.old.pass.table }
    {
        let mut drawn = self.place;
        for done in 0..self.rounds {
            let read = draw(drawn);
            drawn = draw(read);
            let round = Round {
                read: key_of(read),
                written: key_of(drawn),
                value: value_of(self.place, done),
            };
            self.commit_round(rt, db, laws, &round)?;
            if done % ROUNDS_PER_FLUSH == ROUNDS_PER_FLUSH - 1 {
                self.flush(rt, db, laws)?;
            }
        }
        Ok(())
    }

    fn flush(
        &mut self,
        rt: &R,
        db: &Database<Plain>,
        laws: &Laws<NoExtractor>,
    ) -> Result<(), SlateDBError>
        requires table { self.old.pass.table ≡ db.now }
        requires laws { ArePlain laws.now.options laws.now.segments laws.now.policies.items }
        ensures same { self.new.pass.table ≡ self.old.pass.table }
    {
        let mut env = outer(&mut self.store);
        self.pass.flush(rt, db, &mut env, laws).map(drop)
    }

    // Tries a round again and again, until its commit doesn't conflict.
    fn commit_round(
        &mut self,
        rt: &R,
        db: &Database<Plain>,
        laws: &Laws<NoExtractor>,
        round: &Round,
    ) -> Result<(), SlateDBError>
        requires table { self.old.pass.table ≡ db.now }
        requires laws { ArePlain laws.now.options laws.now.segments laws.now.policies.items }
        ensures same { self.new.pass.table ≡ self.old.pass.table }
    {
        for _ in rt.forever() {
            if self.attempt(rt, db, laws, round)? {
                return Ok(());
            }
        }
        unreachable!()
    }

    // Whether an attempt commits.
    fn attempt(
        &mut self,
        rt: &R,
        db: &Database<Plain>,
        laws: &Laws<NoExtractor>,
        round: &Round,
    ) -> Result<bool, SlateDBError>
        requires table { self.old.pass.table ≡ db.now }
        requires laws { ArePlain laws.now.options laws.now.segments laws.now.policies.items }
        ensures same { self.new.pass.table ≡ self.old.pass.table }
    {
        let mut txn = self
            .pass
            .begin(rt, db, IsolationLevel::SerializableSnapshot)?;
        let start = txn.seqnum();
        let mut env = outer(&mut self.store);
        let found = txn.get_key_value(rt, db, &round.read, &mut env, laws);
        let put = txn.put(&round.written, &round.value);
        let ended = self.end(rt, db, laws, txn);
        self.note(round, start, found?, put.and(ended)?)
    }

    // The sequence of a commit, or that of what it conflicts with.
    fn end(
        &mut self,
        rt: &R,
        db: &Database<Plain>,
        laws: &Laws<NoExtractor>,
        txn: DbTransaction<Plain>,
    ) -> Result<Ended, SlateDBError>
        requires table { (self.old.pass.table ≡ db.now) × (txn.table ≡ db.now) }
        requires laws { ArePlain laws.now.options laws.now.segments laws.now.policies.items }
        ensures same { self.new.pass.table ≡ self.old.pass.table }
    {
        let mut env = outer(&mut self.store);
        match txn.commit(rt, db, &mut self.pass, 0, &mut env, laws) {
            Ok(Some(handle)) => Ok(Ended::Committed(handle.seqnum())),
            Ok(None) => Ok(Ended::Committed(0)),
            Err(SlateDBError::TransactionConflict { seq }) => Ok(Ended::Refused(seq)),
            Err(error) => Err(error),
        }
    }

    // Counts an attempt, and writes its line. Whether it committed.
    fn note(
        &mut self,
        round: &Round,
        start: u64,
        found: Option<KeyValue>,
        ended: Ended,
    ) -> Result<bool, SlateDBError>
        ensures same { self.new.pass ≡ self.old.pass }
    {
        if let Some(log) = &mut self.log {
            log_attempt(log, self.place, round, start, &found, ended)?;
        }
        match ended {
            Ended::Committed(_) => {
                self.hits = self.hits.saturating_add(u64::from(found.is_some()));
                Ok(true)
            }
            Ended::Refused(_) => {
                self.conflicts = self.conflicts.saturating_add(1);
                Ok(false)
            }
        }
    }
}

/// How an attempt ended: with its sequence, or with the sequence that it conflicts with.
#[derive(Clone, Copy)]
enum Ended {
    Committed(u64),
    Refused(u64),
}

fn outer<'a, 's, R: Wait>(store: &'a mut SharedStore<'s, R>) -> Outer<'a, 's, R>
    ensures plain { (result.operator ≡ None) × (result.transformer ≡ None) }
{
    Env {
        store,
        operator: None,
        transformer: None,
    }
}

// A line of an attempt.
fn log_attempt(
    log: &mut String,
    place: u64,
    round: &Round,
    start: u64,
    found: &Option<KeyValue>,
    ended: Ended,
) -> Result<(), AllocError> {
    write!(log, "attempt {place} {start} get ")?;
    push_text(log, &round.read)?;
    match found {
        Some(row) => {
            log.push_str(" ")?;
            push_text(log, &row.value)?;
            write!(log, " {}", row.seq)?;
        }
        None => log.push_str(" none")?,
    }
    log.push_str(" put ")?;
    push_text(log, &round.written)?;
    log.push_str(" ")?;
    push_text(log, &round.value)?;
    match ended {
        Ended::Committed(seq) => writeln!(log, " committed {seq}")?,
        Ended::Refused(seq) => writeln!(log, " conflict {seq}")?,
    }
    Ok(())
}

// Adds letters and digits.
pub fn push_text(log: &mut String, bytes: &[u8]) -> Result<(), AllocError> {
    for byte in bytes {
        log.push(char::from(*byte))?;
    }
    Ok(())
}

// The number that is drawn behind this one.
fn draw(x: u64) -> u64 {
    x.wrapping_mul(6364136223846793005)
        .wrapping_add(1442695040888963407)
}

// The key that a drawn number stands for.
fn key_of(drawn: u64) -> [u8; 4] {
    let number = (drawn >> 33) % KEYS;
    let mut key = *b"k000";
    let mut rest = number;
    for place in 0..3 {
        key[3 - place] = b'0' + (rest % 10) as u8;
        rest /= 10;
    }
    key
}

// A value that no other round has.
fn value_of(place: u64, done: u64) -> [u8; 12] {
    let mut value = *b"t00v00000000";
    let mut rest = done;
    for at in 0..8 {
        value[11 - at] = b'0' + (rest % 10) as u8;
        rest /= 10;
    }
    value[1] = b'0' + (place / 10 % 10) as u8;
    value[2] = b'0' + (place % 10) as u8;
    value
}
