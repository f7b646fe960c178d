//! The core: the journal of a store, what is open in it, and the rows in memory.
ghost use Rattle.std.specs.Prelude.{◌≡◌, ◌+◌, ◌-◌, ◌^◌, ◌≤◌, ◌<◌, [], length, IfErr, OnOk, Err, IsSome, is_some, Option, None, Some, map, option_map};
ghost use Rattle.slate_types.specs.Config.{IsValid};
ghost use Rattle.slate_types.specs.declared.error.SlateDBError.{SlateDBError};
ghost use Rattle.slate_filter.specs.Laws.{AreValidNames};
ghost use Rattle.slate_types.specs.Outside.{Puts};
ghost use Rattle.slate_types.specs.World.{Made};
ghost use Rattle.slate_mem.specs.Table.{newest};
ghost use Rattle.slate_txn.specs.declared.event.Event.TheVariants as events;
ghost use Rattle.slate_txn.specs.declared.line.Line.TheVariants as lines;
ghost use Rattle.slate_txn.specs.Named.{find_named};
ghost use Rattle.slate_mem.specs.declared.WriteOp.{WriteOp};
ghost use Rattle.slate_mem.specs.Batch.{kept};
ghost use Rattle.slate_mem.specs.KeyTests.{Segments};
ghost use Rattle.slate_mem.specs.Refusals.{op_refusal};
ghost use Rattle.slate_txn.specs.Settings.{settings_of};
ghost use Rattle.slate_txn.specs.Open.{least_start};
ghost use Rattle.slate_txn.specs.State.{Tx, is_open, opening, last_of};
ghost use Rattle.slate_txn.specs.Step.{reader, with_op, with_marks, with_unmarks};
ghost use Rattle.slate_db.specs.Meaning.{Meaning, IsLawfulMeaning, segments_by};
ghost use Rattle.slate_db.specs.Flushed.{NoPlaceToFlush, events_of_flush, layout_of};
ghost use Rattle.slate_db.specs.Load.{weight};
ghost use Rattle.slate_db.specs.Model.{CoreModel, at, memory};
ghost use Rattle.slate_db.specs.Sound.{IsKept};
ghost use Rattle.slate_db.specs.Segmented.{IsSegmented};
ghost use Rattle.slate_db.specs.StoredState.{StoresState};
ghost use Rattle.slate_db.specs.Log.{LIMIT};
ghost use Rattle.slate_db.specs.Calls.Commit.{AsksNobody, CommitsOpen, commit_verdict};
ghost use Rattle.slate_db.specs.Calls.Common.{IsTransaction, given_by};
ghost use Rattle.slate_db.specs.Calls.Operate.{Marks, Merges, Operates};
ghost use Rattle.slate_db.specs.Opened.{HasTransaction};
ghost use Rattle.slate_db.specs.Calls.Flush.{FlushesAll, Installs};
ghost use Rattle.slate_db.specs.Calls.Open.{Begins, Freezes, IsJournal, Releases, RollsBack, TakesSnapshot};
ghost use Rattle.slate_db.specs.Calls.Write.{WritesBatch};

mod flights;
mod prepared;
mod reads;
mod shares;

use crate::commit::{self, make};
use crate::flush::stored;
use crate::laws::Laws;
use crate::layers::Layers;
use crate::log::Log;
use crate::put::{enter, keys_to_track, put_batch};
use crate::segments::SegmentPrefixes;
use crate::tested::{rows_of_batch, test_batch};
use bytes::Bytes;
use slate_mem::WriteBatch;
use slate_store::{Env, EnvOf, Store};
use slate_txn::{Journal, OpList, OpenTransactions, SnapshotManager, TransactionManager};
use slate_types::{
    BlockTransformer, IsolationLevel, MergeOperator, MergeOptions, Options, Outside,
    PrefixExtractor, PutOptions, SlateDBError,
};
use std::alloc::Global;
use std::marker::Model;
use uuid::Uuid;

/// A store on one thread: its log, the transactions that are open, and the layers of its rows. What it is given
/// of the outside it is given call by call.
#[derive(Drop)]
pub struct Core {
    alloc: Global,
    default_millis: Option<u64>,
    log: Log,
    manager: TransactionManager,
    transactions: OpenTransactions,
    snapshots: SnapshotManager,
    /// The segment prefixes of all commits so far.
    segments: SegmentPrefixes,
    layers: Layers,
}

impl Model for Core {
    ghost use Rattle.slate_db.specs.Model.{CoreModel};

    ghost Value = { CoreModel };

    ghost use Rattle.slate_db.specs.View.{view_of, IsWholeInside};

    ghost view = { view_of };

    ghost invariant = { IsWholeInside };
}

impl Core {
    /// A core with an empty journal. Takes no memory.
    pub fn new(alloc: Global, options: &Options) -> Core
        requires { options.now.start_seq ≤ 18446744073709551614 }
        ensures settings { result.settings ≡ settings_of options.now }
        ensures state { result.state ≡ opening }
        ensures journal { result.events ≡ [] }
        ensures kept { (m : Meaning) → IsKept m result }
        ensures segmented { (g : Segments) → IsSegmented g result }
        ensures memory { (result.active ≡ []) × (result.frozen ≡ []) }
        ensures floor { result.floor ≡ 0 }
    {
        Core {
            alloc,
            default_millis: options.default_ttl_millis,
            log: Log::new(alloc, options.start_seq),
            manager: TransactionManager::new(alloc, options.start_seq),
            transactions: OpenTransactions::new(alloc),
            snapshots: SnapshotManager::new(alloc, options.start_seq),
            segments: SegmentPrefixes::new(alloc),
            layers: Layers::new(alloc),
        }
    }

    /// Whether the id is that of an open transaction or of an open snapshot.
    pub fn is_open(&self, id: &Uuid) -> bool
        ensures { result ≡ is_open self.now.state id.now }
    {
        self.transactions.is_open(id) || self.snapshots.is_live(id)
    }

    /// Whether the id is that of an open transaction, as calls need it that write in one, commit it or roll it back.
    pub fn is_transaction(&self, id: &Uuid) -> bool
        ensures { result ≡ is_some (find_named id.now self.now.state.txns) }
    {
        self.transactions.is_open(id)
    }

    /// Whether the id is that of an open snapshot, as `release` needs it.
    pub fn is_snapshot(&self, id: &Uuid) -> bool
        ensures { result ≡ is_some (find_named id.now self.now.state.snapshots) }
    {
        self.snapshots.is_live(id)
    }

    /// The sequence that a reader with this id sees up to: that at which an open transaction began, or that of an open snapshot.
    fn start_of(&self, id: &Uuid) -> Option<u64>
        ensures { result ≡ option_map (λ from. from.at) (reader self.now.state id.now) }
    {
        match self.transactions.begin_of(id) {
            Some(begin) => Some(begin),
            None => self.snapshots.seq_of(id),
        }
    }

    /// The least sequence that an open transaction or an open snapshot still reads at, or the newest one.
    fn barrier(&self) -> u64
        ensures { result ≡ least_start (last_of self.now.settings.start_seq self.now.state.commits) self.now.state }
    {
        let begin = self.transactions.barrier(self.log.last());
        match self.snapshots.min_active_seq() {
            Some(seq) => seq.min(begin),
            None => begin,
        }
    }

    /// Opens a transaction at the newest sequence, and gives its id and that sequence. Room for the event of its end
    /// is made now. Refuses by `LimitReached` where the journal has no place for both events, and by `OutOfMemory`,
    /// and then nothing is opened.
    pub fn begin(&mut self, level: IsolationLevel) -> Result<(Uuid, u64), SlateDBError>
        ensures { Begins level self.old self.new result }
    {
        self.log.place(2)?;
        let (id, start) = self.manager.new_transaction()?;
        let transactions = &mut self.transactions;
        if let Err(error) = enter(self.alloc, transactions, &mut self.log, id, level, start) {
            self.manager.take_back(&id);
            return Err(error);
        }
        Ok((id, start))
    }

    /// Opens a snapshot of the rows at the newest sequence, and gives its id and that sequence. Room for the event of its release
    /// is made now. Refuses by `LimitReached` where the journal has no place for both events, and by `OutOfMemory`, and then
    /// nothing is opened.
    pub fn snapshot(&mut self) -> Result<(Uuid, u64), SlateDBError>
        ensures { TakesSnapshot self.old self.new result }
    {
        self.log.place(2)?;
        let (id, seq) = self.snapshots.new_snapshot(Some(self.log.last()))?;
        if let Err(error) = self.log.push_snapshot(id) {
            self.snapshots.take_back(&id);
            return Err(SlateDBError::from(error));
        }
        Ok((id, seq))
    }

    /// Releases an open snapshot, in the room that its opening made.
    pub fn release(&mut self, id: &Uuid)
        requires { IsSome (find_named id.now self.old.state.snapshots) }
        ensures { Releases id.now self.old self.new }
    {
        self.snapshots.drop_snapshot(id);
        self.log.push_release(*id);
    }

    /// Ends an open transaction without a commit, in the room that its begin made.
    pub fn rollback(&mut self, id: &Uuid)
        requires { IsSome (find_named id.now self.old.state.txns) }
        ensures { RollsBack id.now self.old self.new }
    {
        self.transactions.end(id);
        self.manager.drop_txn(id);
        self.log.push_end(*id);
    }

    /// Moves the active rows behind those that wait for a flush, and gives the newest sequence. Where there are none
    /// it changes nothing. Refuses by `LimitReached` where the journal has no place for the event, and by
    /// `OutOfMemory`, and then nothing is moved.
    pub fn freeze(&mut self) -> Result<u64, SlateDBError>
        ensures { Freezes self.old self.new result }
    {
        if self.layers.active().is_empty() {
            return Ok(self.log.last());
        }
        self.log.place(1)?;
        self.layers.reserve_freeze()?;
        self.log.reserve()?;
        self.layers.freeze();
        self.log.push_freeze();
        Ok(self.log.last())
    }

    /// CommitsOpen a batch by itself, at the next sequence, which it gives. An empty batch commits nothing, and is never
    /// refused. Refuses by `SequenceExhausted` where no sequence is left; by `MergeOperatorMissing` where the batch ever took a
    /// merge and there is no operator; upwards by key by `EmptySegmentPrefix` where the extractor gives the key no prefix, or an
    /// empty one, and by `IncompatibleMergeTtls` where operations of the key that it keeps differ in expiry; by
    /// `InvalidSegmentPrefix` with the least of its prefixes that nests with another of its own or of an earlier commit, and the
    /// least such other; by `LimitReached` where the journal has no place for the event; then by `Callback`, only where the
    /// operator's count of faults rose; and by `OutOfMemory`. Then nothing is committed, and no prefix is recorded.
    pub fn write<S: Store, M: MergeOperator, T: BlockTransformer, X: PrefixExtractor>(
        &mut self,
        batch: WriteBatch,
        now: i64,
        env: &mut Env<'_, S, M, T>,
        laws: &Laws<X>,
    ) -> Result<Option<u64>, SlateDBError>
        ensures { let reach = ⟦<EnvOf<S, M, T> as Outside>⟧.reach in
            let d = given_by (reach env.old) (segments_by X.lengths laws.now.segments) now in
            let alone = env.new ≡ record env.old { operator = env.new.operator } in
            WritesBatch d batch (reach env.old) (reach env.new) alone (env.new ≡ env.old) self.old
            self.new result }
    {
        if batch.is_empty() {
            return Ok(None);
        }
        if self.log.last() >= 18446744073709551614 {
            return Err(SlateDBError::SequenceExhausted);
        }
        let prefixes = test_batch(
            self.alloc,
            &batch,
            now,
            self.default_millis,
            &env.operator,
            &laws.segments,
            &self.segments,
        )?;
        self.log.place(1)?;
        self.log.reserve()?;
        let seq = self.log.last() + 1;
        let rows = rows_of_batch(
            self.alloc,
            &batch,
            seq,
            now,
            self.default_millis,
            &mut env.operator,
        )?;
        let ops = batch.ops(self.alloc)?;
        let keys = keys_to_track(self.alloc, &self.manager, &batch)?;
        put_batch(
            self.alloc,
            &mut self.segments,
            &mut self.layers,
            &mut self.manager,
            rows,
            keys,
            &prefixes,
            seq,
        )?;
        self.log.push_write(now, OpList::from_vec(ops));
        Ok(Some(seq))
    }

    /// Freezes, stores the rows that wait as tables with the filters of the policies, and gives the newest sequence. Each segment that
    /// the rows touch gets a run of tables of just its rows, in the order of the prefixes. Of each key the rows at or below the
    /// barrier, which is the least begin of an open transaction or sequence of an open snapshot, or else the newest sequence,
    /// become their fold. Where no rows are in memory no part is asked. Refuses by `LimitReached` where the journal has no place
    /// for the events, and then nothing is changed and no part is asked, or where a table would pass a limit; by `StoreFault`, `BlockTransformError` and
    /// `Callback`, each only where its count of faults rose, and then the rows are frozen; by `MergeOperatorMissing`, only where a
    /// row in memory is an operand and there is no operator; and by `OutOfMemory`. Else the rows are in memory as before, or frozen,
    /// and the store's objects are as they were, or have some last of the tables, which no event names.
    pub fn flush<S: Store, M: MergeOperator, T: BlockTransformer, X: PrefixExtractor>(
        &mut self,
        env: &mut Env<'_, S, M, T>,
        laws: &Laws<X>,
    ) -> Result<u64, SlateDBError>
        requires valid { IsValid laws.now.options }
        requires names { AreValidNames (map (λ p. (meaning p).name) laws.now.policies.items) }
        ensures { let reach = ⟦<EnvOf<S, M, T> as Outside>⟧.reach in
            let policies = map (λ p. meaning p) laws.now.policies.items in
            let layout = layout_of laws.now.options policies (segments_by X.lengths
            laws.now.segments) in
            FlushesAll layout (reach env.old) (reach env.new) (env.new ≡ env.old) self.old self.new
            result }
    {
        self.place_for_flush()?;
        self.freeze()?;
        if self.layers.frozen().is_empty() {
            self.log.note_flush();
            return Ok(self.log.last());
        }
        self.install(env, laws)
    }

    /// `LimitReached` where the journal has no place for the events of a flush.
    fn place_for_flush(&self) -> Result<(), SlateDBError>
        ensures place { OnOk result (weight self.now + events_of_flush self.now.active self.now.frozen ≤ LIMIT) }
        ensures limit { IfErr result (λ e. (e ≡ SlateDBError.LimitReached LIMIT) × NoPlaceToFlush self.now) }
    {
        self.log.place(self.layers.events_of_flush())
    }

    /// Stores the frozen rows as tables, in a run for each segment.
    fn install<S: Store, M: MergeOperator, T: BlockTransformer, X: PrefixExtractor>(
        &mut self,
        env: &mut Env<'_, S, M, T>,
        laws: &Laws<X>,
    ) -> Result<u64, SlateDBError>
        requires valid { IsValid laws.now.options }
        requires names { AreValidNames (map (λ p. (meaning p).name) laws.now.policies.items) }
        requires idle { self.old.active ≡ [] }
        requires some { 0 < length self.old.frozen }
        requires place { weight self.old + 1 ≤ LIMIT }
        ensures { let reach = ⟦<EnvOf<S, M, T> as Outside>⟧.reach in
            let policies = map (λ p. meaning p) laws.now.policies.items in
            let layout = layout_of laws.now.options policies (segments_by X.lengths
            laws.now.segments) in
            Installs layout (reach env.old) (reach env.new) self.old self.new result }
    {
        let barrier = self.barrier();
        self.log.reserve()?;
        let number = self.log.next_install();
        let put = stored(self.alloc, self.layers.frozen(), barrier, number, laws, env)?;
        self.layers.install(put.1, barrier)?;
        self.log.push_install(put.0);
        Ok(self.log.last())
    }

    /// Puts a value in an open transaction. Refuses by `EmptyKey`, by `KeyTooLong` above 65535 bytes, by `ValueTooLong` above
    /// 2^32 - 1 bytes, in this order, and by `OutOfMemory`, and then nothing is put.
    pub fn put(
        &mut self,
        id: &Uuid,
        key: &[u8],
        value: &[u8],
        options: &PutOptions,
    ) -> Result<(), SlateDBError>
        requires { HasTransaction self.old id.now }
        ensures { let line = lines.Put id.now key.now value.now options.now.ttl in
            let op = WriteOp.Put value.now options.now in
            Operates id.now line (with_op key.now op) (op_refusal key.now op) self.old self.new
            result }
    {
        self.transactions.put(self.alloc, id, key, value, options)
    }

    /// Deletes a key in an open transaction. Refuses by `EmptyKey`, then by `KeyTooLong` above 65535 bytes, and by `OutOfMemory`,
    /// and then nothing is deleted.
    pub fn delete(&mut self, id: &Uuid, key: &[u8]) -> Result<(), SlateDBError>
        requires { IsSome (find_named id.now self.old.state.txns) }
        ensures { let f = with_op key.now WriteOp.Delete in
            let refusal = op_refusal key.now WriteOp.Delete in
            Operates id.now (lines.Delete id.now key.now) f refusal self.old self.new result }
    {
        self.transactions.delete(self.alloc, id, key)
    }

    /// Puts an operand in an open transaction, behind its operations of the key. Refuses by `MergeOperatorMissing` exactly where
    /// there is no operator; then by `EmptyKey`, by `KeyTooLong` above 65535 bytes, by `ValueTooLong` above 2^32 - 1 bytes, in this
    /// order, and by `OutOfMemory`, and then nothing is put. Calls no operator.
    pub fn merge<S: Store, M: MergeOperator, T: BlockTransformer>(
        &mut self,
        id: &Uuid,
        key: &[u8],
        value: &[u8],
        options: &MergeOptions,
        env: &mut Env<'_, S, M, T>,
    ) -> Result<(), SlateDBError>
        requires { IsSome (find_named id.now self.old.state.txns) }
        ensures { let reach = ⟦<EnvOf<S, M, T> as Outside>⟧.reach in
            let line = lines.Merge id.now key.now value.now options.now.ttl in
            let op = WriteOp.Merge value.now options.now in
            Merges (reach env.old).meaning id.now line (with_op key.now op) (op_refusal key.now op)
            (env.new ≡ env.old) self.old self.new result }
    {
        if env.operator.is_none() {
            return Err(SlateDBError::MergeOperatorMissing);
        }
        self.transactions.merge(self.alloc, id, key, value, options)
    }

    /// Marks keys as read by an open transaction, at either level. Where memory is wanting none is marked.
    pub fn mark_read(&mut self, id: &Uuid, keys: &[Bytes]) -> Result<(), SlateDBError>
        requires { IsSome (find_named id.now self.old.state.txns) }
        ensures { Marks id.now (lines.Mark id.now keys.now) (with_marks keys.now) self.old self.new
            result }
    {
        self.transactions.mark_read(self.alloc, id, keys)
    }

    /// Takes keys out of what an open transaction tracks where it writes them. Where memory is wanting none is taken out.
    pub fn unmark_write(&mut self, id: &Uuid, keys: &[Bytes]) -> Result<(), SlateDBError>
        requires { IsSome (find_named id.now self.old.state.txns) }
        ensures { Marks id.now (lines.Unmark id.now keys.now) (with_unmarks keys.now) self.old
            self.new result }
    {
        self.transactions.unmark_write(self.alloc, id, keys)
    }

    /// CommitsOpen an open transaction at a moment, and gives its sequence, or None where it has no operations. It ends either way.
    /// Refuses by `TransactionConflict`, with the greatest sequence that conflicts, before all other tests; by
    /// `SequenceExhausted` where no sequence is left; by `MergeOperatorMissing` where it took a merge and there is no operator any
    /// more; upwards by key by `EmptySegmentPrefix` where the extractor gives the key no prefix, or an empty one, and by
    /// `IncompatibleMergeTtls` where operations of the key that it keeps differ in expiry; by `InvalidSegmentPrefix` with the
    /// least of its prefixes that nests with another of its own or of an earlier commit, and the least such other; then by
    /// `Callback`, only where the operator's count of faults rose; and by `OutOfMemory`. Then nothing is committed, and no prefix
    /// is recorded.
    pub fn commit<S: Store, M: MergeOperator, T: BlockTransformer, X: PrefixExtractor>(
        &mut self,
        id: &Uuid,
        now: i64,
        env: &mut Env<'_, S, M, T>,
        laws: &Laws<X>,
    ) -> Result<Option<u64>, SlateDBError>
        requires { HasTransaction self.old id.now }
        ensures commits { let reach = ⟦<EnvOf<S, M, T> as Outside>⟧.reach in
            let d = given_by (reach env.old) (segments_by X.lengths laws.now.segments) now in
            (t : Tx) → IsTransaction self.old id.now t →
            CommitsOpen d id.now t (reach env.old) (reach env.new) self.old self.new result }
        ensures outside { env.new ≡ record env.old { operator = env.new.operator } }
        ensures unasked { let reach = ⟦<EnvOf<S, M, T> as Outside>⟧.reach in
            let d = given_by (reach env.old) (segments_by X.lengths laws.now.segments) now in
            (t : Tx) → IsTransaction self.old id.now t → AsksNobody (commit_verdict d self.old t) t.ops →
            env.new ≡ env.old }
    {
        let Some(owned) = self.transactions.take(id) else {
            unreachable!()
        };
        let last = self.log.last();
        let made = make(
            self.alloc,
            self.default_millis,
            &mut self.segments,
            &mut self.layers,
            &mut self.manager,
            id,
            owned,
            last,
            now,
            &mut env.operator,
            &laws.segments,
        );
        match made {
            Ok(made) => {
                let commit::Made {
                    seq,
                    ops,
                    tracked,
                    transcript,
                } = made;
                self.log
                    .push_commit(*id, seq, now, ops, tracked, transcript);
                Ok(seq)
            }
            Err(error) => {
                self.manager.drop_txn(id);
                self.log.push_end(*id);
                Err(error)
            }
        }
    }

    /// All events so far, with room for the end of each open transaction. The tables that they name hold the state at the
    /// last flush. No commit lies between that flush and the last install, and each open transaction began, and each open snapshot
    /// stands, at or above the floor.
    pub fn journal(&self) -> &Journal
        ensures { IsJournal self.now result.now.events }
    {
        self.log.journal()
    }

    /// Lets go of the core. For lawful parts for which what is kept of the rows holds, the rows of the tables that the
    /// journal names are the state at the last flush.
    pub fn close(self)
        ensures stores { (m : Meaning) → IsLawfulMeaning m → IsKept m self → StoresState m self }
    {
        self.journal();
        let Core {
            log,
            transactions,
            ..
        } = self;
        log.close();
        transactions.close();
    }
}
