//! A connection, and its calls that are no transaction of a closure.
ghost use Rattle.std.specs.Prelude.{◌≡◌, ℕ, ◌+◌, ◌<◌, ◌++◌, [], Err, None, Ok, Option, OnErr, OnOk, pos};
ghost use mathlib.Core.List.{IsPrefix};
ghost use Rattle.slate_types.specs.Config.{defaults};
ghost use Rattle.slate_types.specs.declared.error.SlateDBError.{SlateDBError};
ghost use Rattle.slate_types.specs.Outside.{IsFault, OnlyReads, Puts, no_parts};
ghost use Rattle.slate_mem.specs.BatchModel.{no_ops, plain_put, with_op};
ghost use Rattle.slate_mem.specs.declared.WriteOp.{WriteOp};
ghost use Rattle.slate_txn.specs.Settings.{settings_of};
ghost use Rattle.slate_shared.specs.Ended.{HasWritten};
ghost use Rattle.slate_shared.specs.Passes.{Opened};
ghost use Rattle.slate_steps.specs.Attempts.{SeesMore, SeesOnly};
ghost use Rattle.slate_connection.specs.Connected.{reach_in};

use crate::scan::rows_within;
use crate::transact::Transact;
use bytes::Bytes;
use slate_mem::WriteBatch;
use slate_shared::{Database, DbTransaction, Pass, Plain, WriteHandle};
use slate_steps::on_pass::{begin, rollback};
use slate_store::{Env, Store};
use slate_types::{
    BlockTransformer, ByteRangeBounds, IsolationLevel, KeyValue, MergeOperator, NoOperator,
    NoTransformer, PutOptions, ScanOptions, SlateDBError,
};
use std::alloc::Global;
use std::marker::Model;
use std::sync::Wait;

/// What a thread uses a plain database by: its pass, the transaction that is open by it, and its
/// store. What a call needs of these holds of each connection.
pub struct Connection<'a, R: Wait, S: Store> {
    rt: &'a R,
    alloc: Global,
    db: &'a Database<Plain>,
    pass: Pass<Plain>,
    txn: Option<DbTransaction<Plain>>,
    env: Env<'a, S, NoOperator, NoTransformer>,
}

impl<'a, R: Wait, S: Store> Model for Connection<'a, R, S> {
    ghost use Rattle.std.specs.Prelude.{◌≡◌, Some};
    ghost use Rattle.slate_types.specs.Outside.{no_parts};
    ghost use Rattle.slate_store.specs.Reach.{reach_of};
    ghost use Rattle.slate_shared.specs.Passes.{Opened};
    ghost use Rattle.slate_connection.specs.Connected.{PlainModel};

    ghost Value = { PlainModel };

    ghost view = { λ c. record { pass = c.pass; txn = c.txn; objects = S.objects c.env.store.now; acts = S.acts c.env.store.now; faults = S.faults c.env.store.now; store = c.env.store.ghost_name } };

    ghost invariant = { λ c. (c.pass.table ≡ c.db.now) × ((t : Opened) → c.txn ≡ Some t → t.table ≡ c.db.now) × ((reach_of S.Store ⟦<NoOperator as MergeOperator>⟧ ⟦<NoTransformer as BlockTransformer>⟧ c.env).meaning ≡ no_parts) };
}

impl<'a, R: Wait, S: Store> Connection<'a, R, S> {
    /// Returns a connection by a pass of the database, which reaches a store.
    pub fn new(
        rt: &'a R,
        alloc: Global,
        db: &'a Database<Plain>,
        pass: Pass<Plain>,
        store: &'a mut S,
    ) -> Connection<'a, R, S>
        requires table { pass.table ≡ db.now }
        ensures { (result.pass ≡ pass) × (result.txn ≡ None) }
    {
        Connection {
            rt,
            alloc,
            db,
            pass,
            txn: None,
            env: Env {
                store,
                operator: None,
                transformer: None,
            },
        }
    }

    /// Ends the connection, and returns its pass. What is open is rolled back.
    pub fn close(self) -> Pass<Plain>
        ensures { SeesOnly self.entry.pass result }
    {
        let Connection {
            rt,
            alloc: _,
            db,
            pass,
            txn,
            env,
        } = self;
        drop(env);
        let mut pass = pass;
        if let Some(txn) = txn {
            rollback(rt, db, &mut pass, txn);
        }
        pass
    }

    /// Returns a connection for another thread, which has seen the same and reaches a store of its
    /// own. Takes no memory and no lock.
    pub fn split<T: Store>(&mut self, store: &'a mut T) -> Connection<'a, R, T>
        requires parts { 1 < self.old.pass.parts }
        ensures same { (self.new.pass.table ≡ self.old.pass.table)
            × (self.new.pass.parts + 1 ≡ self.old.pass.parts)
            × (self.new.pass.seen ≡ self.old.pass.seen) × (self.new.pass.own ≡ self.old.pass.own) }
        ensures new { (result.pass.table ≡ self.old.pass.table) × (result.pass.parts ≡ 1)
            × (result.pass.seen ≡ self.old.pass.seen) × (result.pass.own ≡ [])
            × (result.txn ≡ None) }
        ensures still { (self.new.txn ≡ self.old.txn) × (reach_in self.new ≡ reach_in self.old) }
    {
        let pass = self.pass.split(self.db);
        Connection::new(self.rt, self.alloc, self.db, pass, store)
    }

    /// Takes in what another connection to the database has seen and done. What is open by that is
    /// rolled back.
    pub fn join<T: Store>(&mut self, other: Connection<'_, R, T>)
        requires table { other.pass.table ≡ self.old.pass.table }
        ensures table { self.new.pass.table ≡ self.old.pass.table }
        ensures seen { IsPrefix self.old.pass.seen self.new.pass.seen
            × IsPrefix other.entry.pass.seen self.new.pass.seen }
        ensures own { (self.new.pass.own ≡ self.old.pass.own ++ other.entry.pass.own)
            × (self.new.pass.parts ≡ self.old.pass.parts + other.entry.pass.parts) }
        ensures still { (self.new.txn ≡ self.old.txn) × (reach_in self.new ≡ reach_in self.old) }
    {
        self.pass.join(self.db, other.close());
    }

    /// Stores the rows in memory as tables, and returns the newest sequence. Refuses as
    /// `Pass::flush` does.
    pub fn flush(&mut self) -> Result<u64, SlateDBError>
        ensures more { SeesMore self.old.pass self.new.pass }
        ensures refused { OnErr result (self.new.pass.own ≡ self.old.pass.own) }
        ensures puts { Puts (reach_in self.old) (reach_in self.new) }
        ensures still { self.new.txn ≡ self.old.txn }
    {
        let laws = Plain::laws(self.alloc);
        self.pass.flush(self.rt, self.db, &mut self.env, &laws)
    }

    /// Commits a batch by itself at a moment in milliseconds. Refuses as `Pass::write` does, and
    /// then nothing is committed.
    pub fn write(
        &mut self,
        batch: WriteBatch,
        now: i64,
    ) -> Result<Option<WriteHandle<Plain>>, SlateDBError>
        ensures written { HasWritten (IsFault (reach_in self.old) (reach_in self.new)) no_parts None
            (settings_of defaults) now batch self.old.pass self.new.pass result }
        ensures same { (self.new.pass.table ≡ self.old.pass.table)
            × (self.new.pass.parts ≡ self.old.pass.parts) }
        ensures reads { OnlyReads (reach_in self.old) (reach_in self.new) }
        ensures still { self.new.txn ≡ self.old.txn }
    {
        let laws = Plain::laws(self.alloc);
        self.pass
            .write(self.rt, self.db, batch, now, &mut self.env, &laws)
    }

    /// Puts a value by a commit of its own, with the default options. Refuses as `WriteBatch::put`
    /// and `write` do, and then nothing is committed.
    pub fn put(&mut self, key: &[u8], value: &[u8]) -> Result<(), SlateDBError>
        ensures written { OnOk result ((n : Option ℕ)
            × HasWritten (IsFault (reach_in self.old) (reach_in self.new)) no_parts None
            (settings_of defaults) (pos 0) (with_op no_ops key.now (plain_put value.now))
            self.old.pass self.new.pass (Ok n)) }
        ensures same { (self.new.pass.table ≡ self.old.pass.table)
            × (self.new.pass.parts ≡ self.old.pass.parts) }
        ensures refused { OnErr result (SeesOnly self.old.pass self.new.pass) }
        ensures reads { OnlyReads (reach_in self.old) (reach_in self.new) }
        ensures still { self.new.txn ≡ self.old.txn }
    {
        let mut batch = WriteBatch::new(self.alloc);
        batch.put(key, value)?;
        self.write(batch, 0)?;
        Ok(())
    }

    /// Puts a value by a commit of its own. Refuses as `WriteBatch::put_with_options` and `write`
    /// do, and then nothing is committed.
    pub fn put_with(
        &mut self,
        key: &[u8],
        value: &[u8],
        options: &PutOptions,
    ) -> Result<(), SlateDBError>
        ensures written { OnOk result ((n : Option ℕ)
            × HasWritten (IsFault (reach_in self.old) (reach_in self.new)) no_parts None
            (settings_of defaults) (pos 0) (with_op no_ops key.now
            (WriteOp.Put value.now options.now)) self.old.pass self.new.pass (Ok n)) }
        ensures same { (self.new.pass.table ≡ self.old.pass.table)
            × (self.new.pass.parts ≡ self.old.pass.parts) }
        ensures refused { OnErr result (SeesOnly self.old.pass self.new.pass) }
        ensures reads { OnlyReads (reach_in self.old) (reach_in self.new) }
        ensures still { self.new.txn ≡ self.old.txn }
    {
        let mut batch = WriteBatch::new(self.alloc);
        batch.put_with_options(key, value, options)?;
        self.write(batch, 0)?;
        Ok(())
    }

    /// Deletes a key by a commit of its own. Refuses as `WriteBatch::delete` and `write` do, and
    /// then nothing is committed.
    pub fn delete(&mut self, key: &[u8]) -> Result<(), SlateDBError>
        ensures written { OnOk result ((n : Option ℕ)
            × HasWritten (IsFault (reach_in self.old) (reach_in self.new)) no_parts None
            (settings_of defaults) (pos 0) (with_op no_ops key.now WriteOp.Delete) self.old.pass
            self.new.pass (Ok n)) }
        ensures same { (self.new.pass.table ≡ self.old.pass.table)
            × (self.new.pass.parts ≡ self.old.pass.parts) }
        ensures refused { OnErr result (SeesOnly self.old.pass self.new.pass) }
        ensures reads { OnlyReads (reach_in self.old) (reach_in self.new) }
        ensures still { self.new.txn ≡ self.old.txn }
    {
        let mut batch = WriteBatch::new(self.alloc);
        batch.delete(key)?;
        self.write(batch, 0)?;
        Ok(())
    }

    /// Merges nothing: a plain database has no operator. Refuses by `MergeOperatorMissing`, and
    /// then nothing is committed.
    pub fn merge(&mut self, _key: &[u8], _operand: &[u8]) -> Result<(), SlateDBError>
        ensures missing { result ≡ Err SlateDBError.MergeOperatorMissing }
        ensures same { self.new ≡ self.old }
    {
        Err(SlateDBError::MergeOperatorMissing)
    }
}

impl<R: Wait, S: Store> Transact for Connection<'_, R, S> {
    ghost use Rattle.slate_connection.specs.Connected.{connected, plain_terms};

    ghost seen = { connected };

    ghost terms = { plain_terms };

    fn begin(&mut self, level: IsolationLevel) -> Result<(), SlateDBError> {
        self.end();
        let txn = begin(self.rt, self.db, &mut self.pass, level)?;
        if let Some(other) = self.txn.replace(txn) {
            rollback(self.rt, self.db, &mut self.pass, other);
        }
        Ok(())
    }

    fn commit(&mut self, now: i64) -> Result<Option<u64>, SlateDBError> {
        let Some(txn) = self.txn.take() else {
            return Err(not_open());
        };
        let laws = Plain::laws(self.alloc);
        let outcome = txn.commit(self.rt, self.db, &mut self.pass, now, &mut self.env, &laws);
        numbered(outcome)
    }

    fn end(&mut self) {
        if let Some(txn) = self.txn.take() {
            rollback(self.rt, self.db, &mut self.pass, txn);
        }
    }

    fn get_within(&mut self, key: &[u8]) -> Result<Option<KeyValue>, SlateDBError> {
        let laws = Plain::laws(self.alloc);
        match &mut self.txn {
            Some(txn) => txn.get_key_value(self.rt, self.db, key, &mut self.env, &laws),
            None => Err(not_open()),
        }
    }

    fn put_within(
        &mut self,
        key: &[u8],
        value: &[u8],
        options: &PutOptions,
    ) -> Result<(), SlateDBError> {
        match &mut self.txn {
            Some(txn) => txn.put_with_options(key, value, options),
            None => Err(not_open()),
        }
    }

    fn delete_within(&mut self, key: &[u8]) -> Result<(), SlateDBError> {
        match &mut self.txn {
            Some(txn) => txn.delete(key),
            None => Err(not_open()),
        }
    }

    fn scan_within<B: ByteRangeBounds>(
        &mut self,
        prefix: &[u8],
        range: &B,
        options: &ScanOptions,
        limit: u64,
    ) -> Result<Vec<KeyValue>, SlateDBError> {
        match &mut self.txn {
            Some(txn) => rows_within(
                self.rt,
                self.alloc,
                self.db,
                txn,
                prefix,
                range,
                options,
                limit,
                &mut self.env,
            ),
            None => Err(not_open()),
        }
    }
}

/// What is open is rolled back.
impl<R: Wait, S: Store> Drop for Connection<'_, R, S> {
    fn drop(self) {
        drop_pass(self.close());
    }
}

fn drop_pass(_pass: Pass<Plain>) {}

/// What a call answers if no transaction is open.
fn not_open() -> SlateDBError
    ensures { result ≡ SlateDBError.UnknownTransaction [] }
{
    SlateDBError::UnknownTransaction { name: Bytes::new() }
}

/// Returns the same, with the sequence in place of its handle.
fn numbered(
    outcome: Result<Option<WriteHandle<Plain>>, SlateDBError>,
) -> Result<Option<u64>, SlateDBError>
    ensures { result ≡ outcome }
{
    match outcome {
        Ok(Some(handle)) => Ok(Some(handle.seqnum())),
        Ok(None) => Ok(None),
        Err(error) => Err(error),
    }
}
