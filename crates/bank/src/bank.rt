//! Accounts in a database.
ghost use Rattle.std.specs.Prelude.{◌≡◌, List, [], Option, IfOk, OnErr, option_map, pos};
ghost use Rattle.slate_types.specs.declared.config.IsolationLevel.{IsolationLevel as Level};
ghost use Rattle.slate_types.specs.declared.types.KeyValue.{KeyValue};
ghost use Rattle.slate_txn.specs.declared.event.TranscriptStep.{TranscriptStep};
ghost use Rattle.slate_steps.specs.Attempts.{SeesOnly};
ghost use Rattle.slate_connection.specs.Connected.{StaysIn, connected, plain_terms, taken};
ghost use Rattle.slate_connection.specs.Transacted.{CommitsSteps};
ghost use Rattle.bank.specs.Bank.{IsCount, IsTransfer, amount_of};

use bytes::Bytes;
use counters::counter_value;
use slate_connection::{Connection, Transact, TransactOptions, Transaction};
use slate_store::Store;
use slate_types::{IsolationLevel, SlateDBError};
use std::sync::Wait;

/// Returns a thousand attempts, since others may change the same accounts at the same time.
fn patient() -> TransactOptions
    ensures { (result.level ≡ Level.SerializableSnapshot) × (result.now ≡ pos 0) }
{
    TransactOptions {
        attempts: 1000,
        level: IsolationLevel::SerializableSnapshot,
        now: 0,
    }
}

/// Counts a visit, and returns the count. It is committed as one more than what the counter
/// was, and nothing else is. At `u64::MAX` a counter stays.
pub fn count<R: Wait, S: Store>(
    db: &mut Connection<'_, R, S>,
    key: &[u8],
) -> Result<u64, SlateDBError>
    ensures counted { IfOk result (λ n. (ts : List TranscriptStep)
        × CommitsSteps plain_terms Level.SerializableSnapshot (pos 0) (connected db.old)
        (connected db.new) ts
        × IsCount key.now n ts) }
    ensures same { (db.new.pass.table ≡ db.old.pass.table)
        × (db.new.pass.parts ≡ db.old.pass.parts) }
    ensures refused { OnErr result (SeesOnly db.old.pass db.new.pass) }
{
    db.transact(&patient(), |txn| add_one(txn, key))
}

fn add_one<D: Transact>(txn: &mut Transaction<'_, D>, key: &[u8]) -> Result<u64, SlateDBError>
    ensures stays { StaysIn D.terms D.seen txn.old.db txn.new.db }
    ensures took { taken (D.seen txn.old.db.now) ≡ [] →
        IfOk result (λ n. IsCount key.now n (taken (D.seen txn.new.db.now))) }
{
    let count = amount(&txn.get(key)?).saturating_add(1);
    txn.put(key, &count.to_be_bytes())?;
    Ok(count)
}

/// Moves an amount from one account to another, if it is there and the other has room for it. What
/// both have together stays the same.
pub fn transfer<R: Wait, S: Store>(
    db: &mut Connection<'_, R, S>,
    from: u8,
    to: u8,
    amount: u64,
) -> Result<bool, SlateDBError>
    ensures moved { IfOk result (λ moved. (ts : List TranscriptStep)
        × CommitsSteps plain_terms Level.SerializableSnapshot (pos 0) (connected db.old)
        (connected db.new) ts
        × IsTransfer moved from to amount ts) }
    ensures same { (db.new.pass.table ≡ db.old.pass.table)
        × (db.new.pass.parts ≡ db.old.pass.parts) }
    ensures refused { OnErr result (SeesOnly db.old.pass db.new.pass) }
{
    db.transact(&patient(), |txn| move_amount(txn, from, to, amount))
}

fn move_amount<D: Transact>(
    txn: &mut Transaction<'_, D>,
    from: u8,
    to: u8,
    amount: u64,
) -> Result<bool, SlateDBError>
    ensures stays { StaysIn D.terms D.seen txn.old.db txn.new.db }
    ensures took { taken (D.seen txn.old.db.now) ≡ [] →
        IfOk result (λ moved. IsTransfer moved from to amount (taken (D.seen txn.new.db.now))) }
{
    let source = self::amount(&txn.get(&[from])?);
    let target = self::amount(&txn.get(&[to])?);
    let (Some(left), Some(more)) = (source.checked_sub(amount), target.checked_add(amount)) else {
        return Ok(false);
    };
    if from == to {
        return Ok(false);
    }
    txn.put(&[from], &left.to_be_bytes())?;
    txn.put(&[to], &more.to_be_bytes())?;
    Ok(true)
}

/// Returns what a value says, and 0 if there is none.
fn amount(value: &Option<Bytes>) -> u64
    ensures { (row : Option KeyValue) → value.now ≡ option_map (λ r. r.value) row →
        result ≡ amount_of row }
{
    match value {
        Some(value) => counter_value(value.as_slice()),
        None => 0,
    }
}

/// Opens ten accounts with a hundred each.
pub fn open_accounts<R: Wait, S: Store>(db: &mut Connection<'_, R, S>) -> Result<(), SlateDBError>
    ensures same { (db.new.pass.table ≡ db.old.pass.table)
        × (db.new.pass.parts ≡ db.old.pass.parts) }
{
    db.transact(&patient(), |txn| put_accounts(txn))
}

fn put_accounts<D: Transact>(txn: &mut Transaction<'_, D>) -> Result<(), SlateDBError>
    ensures stays { StaysIn D.terms D.seen txn.old.db txn.new.db }
{
    for account in 0..10u8 {
        txn.put(&[account], &100u64.to_be_bytes())?;
    }
    Ok(())
}

/// Returns what all accounts have at one moment.
pub fn total<R: Wait, S: Store>(db: &mut Connection<'_, R, S>) -> Result<u64, SlateDBError>
    ensures same { (db.new.pass.table ≡ db.old.pass.table)
        × (db.new.pass.parts ≡ db.old.pass.parts) }
{
    db.transact(&patient(), |txn| add_up(txn))
}

fn add_up<D: Transact>(txn: &mut Transaction<'_, D>) -> Result<u64, SlateDBError>
    ensures stays { StaysIn D.terms D.seen txn.old.db txn.new.db }
{
    let mut sum = 0u64;
    for account in 0..10u8 {
        sum = sum.saturating_add(amount(&txn.get(&[account])?));
    }
    Ok(sum)
}
