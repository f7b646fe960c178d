//! The core, the open names with their ids, and the moment.
ghost use Rattle.std.specs.Prelude.{◌≡◌, ◌≢◌, ◌⊎◌, ◌∷◌, ℕ, List, ◌++◌, [], map, Some, None, Ok, IfOk, IfErr, IfSome, IsSome, OnOk, IsTrue, false, drop};
ghost use Rattle.slate_types.specs.Config.{IsValid};
ghost use Rattle.slate_types.specs.Keys.{is_refused, prefix_subrange};
ghost use Rattle.slate_types.specs.Outside.{Objects, IsFault, IsStill, OnlyReads};
ghost use Rattle.std.specs.declared.ops.Bound.{Bound};
ghost use Rattle.slate_types.specs.declared.iter.IterationOrder.{IterationOrder};
ghost use Rattle.slate_types.specs.declared.config.Ttl.{Ttl};
ghost use Rattle.slate_filter.specs.Laws.{AreValidNames};
ghost use Rattle.slate_mem.specs.Batch.{Ops};
ghost use Rattle.slate_mem.specs.BatchModel.{IsBatchOf};
ghost use Rattle.slate_mem.specs.KeyTests.{Segments};
ghost use Rattle.slate_mem.specs.Refusals.{first_refusal, op_refusal};
ghost use Rattle.slate_txn.specs.declared.line.ScanStep.{ScanStep};
ghost use Rattle.slate_txn.specs.Named.{find_named};
ghost use Rattle.slate_txn.specs.Reply.{Refused};
ghost use Rattle.slate_txn.specs.Settings.{settings_of};
ghost use Rattle.slate_txn.specs.State.{State, opening};
ghost use Rattle.slate_txn.specs.Step.{reader};
ghost use Rattle.slate_db.specs.Checked.{OrSlips};
ghost use Rattle.slate_db.specs.Flushed.{layout_of};
ghost use Rattle.slate_db.specs.Load.{weight};
ghost use Rattle.slate_db.specs.Meaning.{Meaning, IsLawfulMeaning, segments_by};
ghost use Rattle.slate_db.specs.Readable.{IsAnswered, IsReadable};
ghost use Rattle.slate_db.specs.Scans.{IsScanError};
ghost use Rattle.slate_db.specs.Segmented.{IsSegmented};
ghost use Rattle.slate_db.specs.Sound.{IsKept, IsOperable};
ghost use Rattle.slate_db.specs.StoredState.{StoresState};
ghost use Rattle.slate_db.specs.Log.{AreFine};
ghost use Rattle.slate_language.specs.Answers.{reply_of};
ghost use Rattle.slate_script.specs.Calls.Line.{Answers, AnswersByGet, AnswersByRead, AnswersByScan, AnswersWithin, AnswersByWrite};
ghost use Rattle.slate_script.specs.Session.{StandsFor, Grows, IsDone, IsRefusal, StoresNothing, has_moment, held_load, line_load, reader_id, reader_under};
ghost use Rattle.slate_script.specs.Scanning.{BeginsWith, EndsBelow, ScansAs};

use crate::journal::entries;
use crate::scan::scan_rows;
use bytes::Bytes;
use slate_db::engine::Core;
use slate_db::laws::Laws;
use slate_language::Answer;
use slate_mem::{WriteBatch, WriteOp};
use slate_store::{Env, EnvOf, Store};
use slate_txn::line::{Line, StepList};
use slate_txn::list::{KeyList, OpList};
use slate_types::{
    BlockTransformer, BytesRange, IsolationLevel, IterationOrder, MergeOperator, MergeOptions,
    Options, Outside, PrefixExtractor, PutOptions, ReadOptions, SlateDBError, Ttl,
};
use std::alloc::Global;
use std::collections::BTreeMap;
use std::marker::Model;
use std::ops::Bound;
use uuid::Uuid;

/// The options of a get.
const NO_CONTEXT: ReadOptions = ReadOptions {
    filter_context: None,
};

/// Answers lines over a core. It keeps the names that are open, and the moment, which is 0 at first.
#[derive(Drop)]
pub struct Session {
    alloc: Global,
    core: Core,
    /// Those of transactions.
    names: BTreeMap<Bytes, Uuid>,
    snapshot_names: BTreeMap<Bytes, Uuid>,
    now: i64,
}

impl Model for Session {
    ghost use Rattle.std.specs.Prelude.{IsTrue};
    ghost use Rattle.slate_language.specs.Grammar.{is_moment};
    ghost use Rattle.slate_script.specs.Session.{SessionModel, NamesStand};

    ghost Value = { SessionModel };

    ghost view = { λ s.
        record { core = s.core; names = s.names.entries; snapshot_names = s.snapshot_names.entries; now = s.now } };

    ghost invariant = { λ s.
        NamesStand s.names.entries s.snapshot_names.entries s.core.state.txns s.core.state.snapshots
        × IsTrue (is_moment s.now) };
}

impl Session {
    /// Nothing is committed, and no name is open. Takes no memory.
    pub fn new(alloc: Global, options: &Options) -> Session
        requires { IsValid options.now }
        ensures opens { StandsFor result opening }
        ensures settings { result.core.settings ≡ settings_of options.now }
        ensures events { result.core.events ≡ [] }
        ensures kept { (m : Meaning) → IsKept m result.core }
        ensures segmented { (seg : Segments) → IsSegmented seg result.core }
        ensures holds { (weight result.core ≡ 0) × (held_load result ≡ 0) }
    {
        Session {
            alloc,
            core: Core::new(alloc, options),
            names: BTreeMap::new(alloc),
            snapshot_names: BTreeMap::new(alloc),
            now: 0,
        }
    }

    /// The answer to a line. Where the parts and the policies of filters are lawful, what is kept of the rows holds and the
    /// store has the journal's tables with the filters of these policies, it is that of the model's step, and no damage is
    /// answered; nor is it where the store's acts tell that each read of this call was answered by those tables. Where they tell
    /// otherwise, the answer is that of the model's step, or one of the reads returned a section of those tables that isn't what
    /// stands there, and whose checksum fits. A part's fault is answered only where its count rose in this call, and `LimitReached`
    /// only where the journal or memory holds more than a script can bring. No failure of the store or of a part is passed over: each
    /// count of faults is as it was, but for that of the one whose fault the error is. A line that gets a key asks filters before it
    /// reads blocks, and reads a block that has the key where its answer rests on a stored row. One that is answered puts nothing
    /// unless it flushes, and reads nothing unless it gets or scans; a get of a name that isn't open does neither.
    pub fn answer<S: Store, M: MergeOperator, T: BlockTransformer, X: PrefixExtractor>(
        &mut self,
        line: Line,
        env: &mut Env<'_, S, M, T>,
        laws: &Laws<X>,
    ) -> Result<Answer, SlateDBError>
        requires moment { IsTrue (has_moment line) }
        requires valid { IsValid laws.now.options }
        requires names { AreValidNames (map (λ p. (meaning (p.vtable, p.value)).name) laws.now.policies.items) }
        ensures { let reach = ⟦<EnvOf<S, M, T> as Outside>⟧.reach in
            let policies = map (λ p. meaning (p.vtable, p.value)) laws.now.policies.items in
            let layout = layout_of laws.now.options policies (segments_by X.lengths laws.now.segments) in
            Answers layout line (reach env.old) (reach env.new) self.old self.new result }
    {
        match line {
            Line::Get { name, key } => self.get(name, key, env, laws),
            Line::Scan {
                name,
                order,
                start,
                end,
                steps,
            } => self.scan(name, order, start, end, steps, env, laws),
            Line::Prefix {
                name,
                order,
                prefix,
                start,
                end,
                steps,
            } => self.prefix(name, order, prefix, start, end, steps, env, laws),
            Line::Flush => self.flush(env, laws),
            Line::Write { ops } => self.write(ops, env, laws),
            Line::Merge {
                name,
                key,
                value,
                ttl,
            } => self.merge(name, key, value, ttl, env),
            Line::Commit { name } => self.commit(name, env, laws),
            other => self.answer_within(other),
        }
    }

    /// The answer to a line that asks neither the store nor the operator.
    fn answer_within(&mut self, line: Line) -> Result<Answer, SlateDBError>
        requires moment { IsTrue (has_moment line) }
        requires no_get { (name key : List ℕ) → line ≢ Line.Get name key }
        requires no_scan { (name : List ℕ) (order : IterationOrder) (start end : Bound (List ℕ)) (sts : List ScanStep) →
            line ≢ Line.Scan name order start end sts }
        requires no_prefix { (name : List ℕ) (order : IterationOrder) (p : List ℕ) (start end : Bound (List ℕ)) →
            (sts : List ScanStep) →
            line ≢ Line.Prefix name order p start end sts }
        requires no_flush { line ≢ Line.Flush }
        requires no_write { (ops : Ops) → line ≢ Line.Write ops }
        requires no_merge { (name key value : List ℕ) (ttl : Ttl) → line ≢ Line.Merge name key value ttl }
        requires no_commit { (name : List ℕ) → line ≢ Line.Commit name }
        ensures { AnswersWithin line self.old self.new result }
    {
        match line {
            Line::Now { moment } => {
                self.now = moment;
                Ok(Answer::NowIs(moment))
            }
            Line::Begin { name, level } => self.begin(name, level),
            Line::Snapshot { name } => self.snapshot(name),
            Line::Rollback { name } => Ok(self.rollback(name)),
            Line::Freeze => self.freeze(),
            Line::Journal => self.journal(),
            Line::Put {
                name,
                key,
                value,
                ttl,
            } => self.put(name, key, value, ttl),
            Line::Delete { name, key } => self.delete(name, key),
            Line::Mark { name, keys } => self.mark(name, keys),
            Line::Unmark { name, keys } => self.unmark(name, keys),
            _ => unreachable!(),
        }
    }

    /// Ends the session. For lawful parts for which what is kept of the rows holds, the rows of the tables that the
    /// journal names are the state at the last flush.
    pub fn close(self)
        ensures stores { (m : Meaning) → IsLawfulMeaning m → IsKept m self.core → StoresState m self.core }
    {
        let Session { core, .. } = self;
        core.close();
    }

    /// The id that the name is read under: that of its transaction, or else that of its snapshot; `None` where it isn't open.
    fn reader_id(&self, name: &Bytes) -> Option<Uuid>
        ensures id { result ≡ reader_id self.entry.now name.now }
        ensures known { IfSome result (λ id. IsSome (reader self.entry.now.core.state id)) }
        ensures reads { (s : State) → StandsFor self.entry.now s →
            reader s name.now ≡ reader_under self.entry.now.core.state result }
    {
        let transaction = self.names.get(name).copied();
        let snapshot = self.snapshot_names.get(name).copied();
        transaction.or(snapshot)
    }

    /// Opens the name at the last commit, as a transaction.
    fn begin(&mut self, name: Bytes, level: IsolationLevel) -> Result<Answer, SlateDBError>
        ensures { AnswersWithin (Line.Begin name level) self.old self.new result }
    {
        if self.reader_id(&name).is_some() {
            return Ok(Answer::Refused(SlateDBError::DuplicateTransaction { name }));
        }
        let key = name.clone()?;
        let (id, start) = self.core.begin(level)?;
        self.names.insert(key, id)?;
        Ok(Answer::Begun { name, start })
    }

    /// Opens the name at the last commit, as a snapshot.
    fn snapshot(&mut self, name: Bytes) -> Result<Answer, SlateDBError>
        ensures { AnswersWithin (Line.Snapshot name) self.old self.new result }
    {
        if self.reader_id(&name).is_some() {
            return Ok(Answer::Refused(SlateDBError::DuplicateTransaction { name }));
        }
        let key = name.clone()?;
        let (id, seq) = self.core.snapshot()?;
        self.snapshot_names.insert(key, id)?;
        Ok(Answer::SnapshotAt { name, seq })
    }

    /// The row of the key in the state at the name's start. No block is read of a table whose filters weren't read before, or deny the key,
    /// and where the row takes one of a commit that was flushed, a block is read that has the key.
    fn get<S: Store, M: MergeOperator, T: BlockTransformer, X: PrefixExtractor>(
        &mut self,
        name: Bytes,
        key: Bytes,
        env: &mut Env<'_, S, M, T>,
        laws: &Laws<X>,
    ) -> Result<Answer, SlateDBError>
        ensures { let reach = ⟦<EnvOf<S, M, T> as Outside>⟧.reach in
            let policies = map (λ p. meaning (p.vtable, p.value)) laws.now.policies.items in
            AnswersByGet policies name key (reach env.old) (reach env.new) self.old self.new result }
    {
        let Some(id) = self.reader_id(&name) else {
            drop(key);
            return Ok(Answer::Refused(SlateDBError::UnknownTransaction { name }));
        };
        drop(name);
        let read = self.core.get(&id, key.as_slice(), &NO_CONTEXT, env, laws);
        drop(key);
        let row = read?;
        Ok(Answer::Found(row))
    }

    /// The rows that the steps hand out of a scan of the bounds in the state at the name's start, under its own operations.
    fn scan<S: Store, M: MergeOperator, T: BlockTransformer, X: PrefixExtractor>(
        &mut self,
        name: Bytes,
        order: IterationOrder,
        start: Bound<Bytes>,
        end: Bound<Bytes>,
        steps: StepList,
        env: &mut Env<'_, S, M, T>,
        laws: &Laws<X>,
    ) -> Result<Answer, SlateDBError>
        requires valid { IsValid laws.now.options }
        ensures { let reach = ⟦<EnvOf<S, M, T> as Outside>⟧.reach in
            let policies = map (λ p. meaning (p.vtable, p.value)) laws.now.policies.items in
            AnswersByRead policies (Line.Scan name order start end steps)
            (reach env.old) (reach env.new) self.old self.new result }
    {
        let range = BytesRange::try_new(start, end);
        self.scan_range(name, order, range, None, steps, env, laws)
    }

    /// The rows that the steps hand out of a scan of the keys that are the prefix and then a key between the bounds.
    fn prefix<S: Store, M: MergeOperator, T: BlockTransformer, X: PrefixExtractor>(
        &mut self,
        name: Bytes,
        order: IterationOrder,
        prefix: Bytes,
        start: Bound<Bytes>,
        end: Bound<Bytes>,
        steps: StepList,
        env: &mut Env<'_, S, M, T>,
        laws: &Laws<X>,
    ) -> Result<Answer, SlateDBError>
        requires valid { IsValid laws.now.options }
        ensures { let reach = ⟦<EnvOf<S, M, T> as Outside>⟧.reach in
            let policies = map (λ p. meaning (p.vtable, p.value)) laws.now.policies.items in
            AnswersByRead policies (Line.Prefix name order prefix start end steps)
            (reach env.old) (reach env.new) self.old self.new result }
    {
        let composed = composed_range(self.alloc, prefix.as_slice(), start, end);
        let range = match composed {
            Ok(range) => range,
            Err(error) => {
                drop((name, prefix));
                drop(steps);
                return Err(error);
            }
        };
        self.scan_range(name, order, range, asked(prefix), steps, env, laws)
    }

    /// The rows that the steps hand out of a scan of a range of keys that begin with the prefix, where one is given. A name that
    /// isn't open is refused first, and then bounds that leave no range.
    fn scan_range<S: Store, M: MergeOperator, T: BlockTransformer, X: PrefixExtractor>(
        &mut self,
        name: Bytes,
        order: IterationOrder,
        range: Option<BytesRange>,
        prefix: Option<Bytes>,
        steps: StepList,
        env: &mut Env<'_, S, M, T>,
        laws: &Laws<X>,
    ) -> Result<Answer, SlateDBError>
        requires range { IfSome range (λ r. is_refused r.start r.end ≡ false) }
        requires prefix { IfSome range (λ r. BeginsWith prefix r) }
        requires valid { IsValid laws.now.options }
        ensures scans { let reach = ⟦<EnvOf<S, M, T> as Outside>⟧.reach in
            let policies = map (λ p. meaning (p.vtable, p.value)) laws.now.policies.items in
            AnswersByScan policies name order range steps (reach env.old) (reach env.new) self.old self.new result }
        ensures stores { OnOk result ((m : Meaning) (seg : Segments) → StoresNothing m seg self.old self.new) }
        ensures grows { (line : Line) → line_load line ≡ 0 → OnOk result (Grows line self.old self.new) }
        ensures cause { let reach = ⟦<EnvOf<S, M, T> as Outside>⟧.reach in
            IfErr result (IsScanError (map (λ p. meaning (p.vtable, p.value)) laws.now.policies.items)
            (reach env.old) (reach env.new) self.old.core) }
        ensures undamaged { let reach = ⟦<EnvOf<S, M, T> as Outside>⟧.reach in
            IsAnswered (map (λ p. meaning (p.vtable, p.value)) laws.now.policies.items) (reach env.old) (reach env.new)
            self.old.core → IfErr result (IsFault (reach env.old) (reach env.new)) }
        ensures reads { let reach = ⟦<EnvOf<S, M, T> as Outside>⟧.reach in OnlyReads (reach env.old) (reach env.new) }
        ensures still { let reach = ⟦<EnvOf<S, M, T> as Outside>⟧.reach in
            IsStill (reach env.old).faults (reach env.new).faults result }
    {
        let Some(id) = self.reader_id(&name) else {
            drop((range, prefix));
            drop(steps);
            return Ok(Answer::Refused(SlateDBError::UnknownTransaction { name }));
        };
        drop(name);
        let Some(range) = range else {
            drop(prefix);
            drop(steps);
            return Ok(Answer::Refused(SlateDBError::InvalidRange));
        };
        let core = &mut self.core;
        let scanned = scan_rows(
            self.alloc,
            core,
            &id,
            order,
            range,
            prefix,
            steps.as_slice(),
            env,
            laws,
        );
        drop(steps);
        let rows = scanned?;
        Ok(Answer::Rows(rows))
    }

    /// Closes the name: its transaction ends, or its snapshot is released.
    fn rollback(&mut self, name: Bytes) -> Answer
        ensures { AnswersWithin (Line.Rollback name) self.old self.new (Ok result) }
    {
        let Some(id) = self.names.remove(&name) else {
            return self.release(name);
        };
        self.core.rollback(&id);
        Answer::Done
    }

    /// Closes the name, which is no transaction's.
    fn release(&mut self, name: Bytes) -> Answer
        requires { find_named name self.old.names ≡ None }
        ensures { AnswersWithin (Line.Rollback name) self.old self.new (Ok result) }
    {
        let Some(id) = self.snapshot_names.remove(&name) else {
            return Answer::Refused(SlateDBError::UnknownTransaction { name });
        };
        self.core.release(&id);
        Answer::Done
    }

    /// Puts the value among the own operations of the name's transaction.
    fn put(
        &mut self,
        name: Bytes,
        key: Bytes,
        value: Bytes,
        ttl: Ttl,
    ) -> Result<Answer, SlateDBError>
        ensures { AnswersWithin (Line.Put name key value ttl) self.old self.new result }
    {
        let Some(id) = self.names.get(&name) else {
            drop((key, value));
            return Ok(Answer::Refused(SlateDBError::UnknownTransaction { name }));
        };
        let id = *id;
        drop(name);
        let put = self
            .core
            .put(&id, key.as_slice(), value.as_slice(), &PutOptions { ttl });
        drop((key, value));
        done(put)
    }

    /// Puts the operand among the own operations of the name's transaction.
    fn merge<S: Store, M: MergeOperator, T: BlockTransformer>(
        &mut self,
        name: Bytes,
        key: Bytes,
        value: Bytes,
        ttl: Ttl,
        env: &mut Env<'_, S, M, T>,
    ) -> Result<Answer, SlateDBError>
        ensures { let reach = ⟦<EnvOf<S, M, T> as Outside>⟧.reach in
            (seg : Segments) →
            AnswersByWrite Unit seg (Line.Merge name key value ttl)
            (reach env.old) (reach env.new) self.old self.new result }
    {
        let Some(id) = self.names.get(&name) else {
            drop((key, value));
            return Ok(Answer::Refused(SlateDBError::UnknownTransaction { name }));
        };
        let id = *id;
        drop(name);
        let merge = self.core.merge(
            &id,
            key.as_slice(),
            value.as_slice(),
            &MergeOptions { ttl },
            env,
        );
        drop((key, value));
        done(merge)
    }

    /// Puts a delete of the key among the own operations of the name's transaction.
    fn delete(&mut self, name: Bytes, key: Bytes) -> Result<Answer, SlateDBError>
        ensures { AnswersWithin (Line.Delete name key) self.old self.new result }
    {
        let Some(id) = self.names.get(&name) else {
            drop(key);
            return Ok(Answer::Refused(SlateDBError::UnknownTransaction { name }));
        };
        let id = *id;
        drop(name);
        let delete = self.core.delete(&id, key.as_slice());
        drop(key);
        done(delete)
    }

    /// Makes the keys part of what the commit of the name's transaction conflicts by.
    fn mark(&mut self, name: Bytes, keys: KeyList) -> Result<Answer, SlateDBError>
        ensures { AnswersWithin (Line.Mark name keys) self.old self.new result }
    {
        let Some(id) = self.names.get(&name) else {
            drop(keys);
            return Ok(Answer::Refused(SlateDBError::UnknownTransaction { name }));
        };
        let id = *id;
        drop(name);
        let mark = self.core.mark_read(&id, keys.as_slice());
        drop(keys);
        done(mark)
    }

    /// Takes the keys out of what the commit of the name's transaction tracks.
    fn unmark(&mut self, name: Bytes, keys: KeyList) -> Result<Answer, SlateDBError>
        ensures { AnswersWithin (Line.Unmark name keys) self.old self.new result }
    {
        let Some(id) = self.names.get(&name) else {
            drop(keys);
            return Ok(Answer::Refused(SlateDBError::UnknownTransaction { name }));
        };
        let id = *id;
        drop(name);
        let unmark = self.core.unmark_write(&id, keys.as_slice());
        drop(keys);
        done(unmark)
    }

    /// Commits the name's transaction at the moment, and closes the name, whether the commit is refused or not.
    fn commit<S: Store, M: MergeOperator, T: BlockTransformer, X: PrefixExtractor>(
        &mut self,
        name: Bytes,
        env: &mut Env<'_, S, M, T>,
        laws: &Laws<X>,
    ) -> Result<Answer, SlateDBError>
        ensures { let reach = ⟦<EnvOf<S, M, T> as Outside>⟧.reach in
            let seg = segments_by X.lengths laws.now.segments in
            let given = IsOperable (reach env.old).meaning self.old.core × IsSegmented seg self.old.core in
            AnswersByWrite given seg (Line.Commit name) (reach env.old) (reach env.new) self.old self.new result }
    {
        let Some(id) = self.names.remove(&name) else {
            return Ok(Answer::Refused(SlateDBError::UnknownTransaction { name }));
        };
        drop(name);
        match self.core.commit(&id, self.now, env, laws) {
            Ok(seq) => Ok(Answer::Committed(seq)),
            Err(error) => refused(error),
        }
    }

    /// The commits so far.
    fn journal(&self) -> Result<Answer, SlateDBError>
        ensures { AnswersWithin Line.Journal self.entry.now self.entry.now result }
    {
        let entries = entries(self.alloc, self.core.journal().as_slice())?;
        Ok(Answer::Journal(entries))
    }

    /// Commits the operations as one batch, at the moment.
    fn write<S: Store, M: MergeOperator, T: BlockTransformer, X: PrefixExtractor>(
        &mut self,
        ops: OpList,
        env: &mut Env<'_, S, M, T>,
        laws: &Laws<X>,
    ) -> Result<Answer, SlateDBError>
        ensures { let reach = ⟦<EnvOf<S, M, T> as Outside>⟧.reach in
            let seg = segments_by X.lengths laws.now.segments in
            AnswersByWrite (IsSegmented seg self.old.core) seg (Line.Write ops)
            (reach env.old) (reach env.new) self.old self.new result }
    {
        let batch = match batch_of(self.alloc, ops) {
            Ok(batch) => batch,
            Err(error) => return refused(error),
        };
        match self.core.write(batch, self.now, env, laws) {
            Ok(seq) => Ok(Answer::Written(seq)),
            Err(error) => refused(error),
        }
    }

    /// Moves the rows in memory aside for a flush.
    fn freeze(&mut self) -> Result<Answer, SlateDBError>
        ensures { AnswersWithin Line.Freeze self.old self.new result }
    {
        let seq = self.core.freeze()?;
        Ok(Answer::Frozen(seq))
    }

    /// Stores the rows in memory as tables.
    fn flush<S: Store, M: MergeOperator, T: BlockTransformer, X: PrefixExtractor>(
        &mut self,
        env: &mut Env<'_, S, M, T>,
        laws: &Laws<X>,
    ) -> Result<Answer, SlateDBError>
        requires valid { IsValid laws.now.options }
        requires names { AreValidNames (map (λ p. (meaning (p.vtable, p.value)).name) laws.now.policies.items) }
        ensures { let reach = ⟦<EnvOf<S, M, T> as Outside>⟧.reach in
            let policies = map (λ p. meaning (p.vtable, p.value)) laws.now.policies.items in
            let layout = layout_of laws.now.options policies (segments_by X.lengths laws.now.segments) in
            Answers layout Line.Flush (reach env.old) (reach env.new) self.old self.new result }
    {
        let seq = self.core.flush(env, laws)?;
        Ok(Answer::Flushed(seq))
    }
}

/// The range of the keys that are the prefix and then a key between the bounds; `None` where these leave none. Refuses by
/// `OutOfMemory` alone.
fn composed_range(
    alloc: Global,
    prefix: &[u8],
    start: Bound<Bytes>,
    end: Bound<Bytes>,
) -> Result<Option<BytesRange>, SlateDBError>
    ensures range { IfOk result (λ o. o ≡ prefix_subrange prefix.now start end) }
    ensures cause { IfErr result (λ e. e ≡ SlateDBError.OutOfMemory) }
{
    let subrange = BytesRange { start, end };
    let composed = BytesRange::from_prefix_and_subrange(alloc, prefix, &subrange);
    drop(subrange);
    match composed {
        Ok(range) => Ok(Some(range)),
        Err(SlateDBError::InvalidRange) => Ok(None),
        Err(error) => Err(error),
    }
}

/// The prefix that filters are asked for, by which each key of its ranges begins. One that ends with byte 255 isn't asked for:
/// where its range ends tells that of lists of bytes alone.
fn asked(prefix: Bytes) -> Option<Bytes>
    ensures { IfSome result (λ p. (p ≡ prefix) × EndsBelow p) }
{
    match prefix.as_slice().last() {
        Some(&u8::MAX) => {
            drop(prefix);
            None
        }
        _ => Some(prefix),
    }
}

/// The batch of the operations. Refuses as the first operation does that is refused, and by `OutOfMemory`.
fn batch_of(alloc: Global, ops: OpList) -> Result<WriteBatch, SlateDBError>
    ensures batch { IfOk result (λ batch. IsBatchOf ops batch) }
    ensures fine { OnOk result (AreFine ops) }
    ensures refused { IfErr result (λ e.
        (e ≡ SlateDBError.OutOfMemory) ⊎ (first_refusal (map (λ o. op_refusal o.0 o.1) ops) ≡ Some e)) }
{
    let mut batch = WriteBatch::new(alloc);
    for (key, op) in ops.into_vec() {
        add(&mut batch, key, op)?;
    }
    Ok(batch)
}

/// Adds an operation to a batch.
fn add(batch: &mut WriteBatch, key: Bytes, op: WriteOp) -> Result<(), SlateDBError>
    ensures refused { IfErr result (λ e. (e ≡ SlateDBError.OutOfMemory) ⊎ (op_refusal key op ≡ Some e)) }
    ensures fine { OnOk result (op_refusal key op ≡ None) }
    ensures means { (ops : Ops) → IsBatchOf ops batch.old →
        OnOk result (IsBatchOf (ops ++ ((key, op) ∷ [])) batch.new) }
{
    match op {
        WriteOp::Put(value, options) => batch.put_bytes_with_options(key, value, &options),
        WriteOp::Delete => batch.delete(key.as_slice()),
        WriteOp::Merge(value, options) => batch.merge_bytes_with_options(key, value, &options),
    }
}

/// The answer to an operation in a transaction that ran to this end.
fn done(ran: Result<(), SlateDBError>) -> Result<Answer, SlateDBError>
    ensures { IsDone ran result }
{
    match ran {
        Ok(()) => Ok(Answer::Done),
        Err(error) => refused(error),
    }
}

/// The answer to a line that is refused by the error, and the error itself where no line is refused by it.
fn refused(error: SlateDBError) -> Result<Answer, SlateDBError>
    ensures reply { IfOk result (λ a. reply_of a ≡ Refused error) }
    ensures answered { OnOk result (IsRefusal error) }
    ensures other { IfErr result (λ e. (e ≡ error) × (IsRefusal error → ⊥)) }
{
    match error {
        SlateDBError::TransactionConflict { .. }
        | SlateDBError::EmptyKey
        | SlateDBError::KeyTooLong { .. }
        | SlateDBError::ValueTooLong { .. }
        | SlateDBError::SequenceExhausted
        | SlateDBError::MergeOperatorMissing
        | SlateDBError::IncompatibleMergeTtls { .. }
        | SlateDBError::EmptySegmentPrefix { .. }
        | SlateDBError::InvalidSegmentPrefix { .. } => Ok(Answer::Refused(error)),
        other => Err(other),
    }
}
