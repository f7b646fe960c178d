//! Transactions of closures.
ghost use Rattle.std.specs.Prelude.{◌≡◌, ◌⊎◌, ◌<◌, ◌++◌, ◌∷◌, [], ℕ, List, false, max, Err, None, Ok, Option, Some, option_map, IfErr, IfOk, OnErr, OnOk, pos};
ghost use mathlib.Core.List.{IsPrefix};
ghost use Rattle.slate_types.specs.declared.bytes_range.BytesRange.{BytesRange};
ghost use Rattle.slate_types.specs.declared.config.IsolationLevel.{IsolationLevel as Level};
ghost use Rattle.slate_types.specs.declared.error.SlateDBError.{SlateDBError};
ghost use Rattle.slate_types.specs.declared.types.KeyValue.{KeyValue};
ghost use Rattle.slate_types.specs.Keys.{prefix_subrange};
ghost use Rattle.slate_types.specs.Outside.{IsFault, OnlyReads};
ghost use Rattle.slate_mem.specs.BatchModel.{plain_put};
ghost use Rattle.slate_mem.specs.declared.WriteOp.{WriteOp};
ghost use Rattle.slate_mem.specs.Refusals.{op_refusal};
ghost use Rattle.slate_txn.specs.declared.event.Event.{Event};
ghost use Rattle.slate_txn.specs.declared.event.TranscriptStep.TheVariants as steps;
ghost use Rattle.slate_txn.specs.Replay.{IsLegal};
ghost use Rattle.slate_shared.specs.Passes.{Opened};
ghost use Rattle.slate_steps.specs.Attempts.{HasCommittedBehind, IsAttempt, IsReadErrorOn, IsRefusedBehind, IsUnbegun, SeesMore, SeesOnly};
ghost use Rattle.slate_connection.specs.Connected.{IsOpenAttempt, Stays, StaysIn, taken};
ghost use Rattle.slate_connection.specs.Scanned.{HasScanned, IsScanRefused, AddsScan};
ghost use Rattle.slate_connection.specs.Transacted.{AfterConflicts, HasRead, HasTransacted, IsLast, EndsByRefusal};

use bytes::Bytes;
use slate_types::{
    ByteRangeBounds, IsolationLevel, KeyValue, PutOptions, ScanOptions, SlateDBError,
};
use std::thread;

/// How a transaction of a closure is made.
#[derive(Drop)]
pub struct TransactOptions {
    /// How often it is tried at most, if other commits conflict with it. It is tried once at least.
    pub attempts: u64,
    pub level: IsolationLevel,
    /// The moment of its commit, in milliseconds.
    pub now: i64,
}

impl TransactOptions {
    /// Returns eight attempts at a serializable transaction at moment 0.
    pub fn new() -> TransactOptions
        ensures { (result.attempts ≡ 8) × (result.level ≡ Level.SerializableSnapshot)
            × (result.now ≡ pos 0) }
    {
        TransactOptions {
            attempts: 8,
            level: IsolationLevel::SerializableSnapshot,
            now: 0,
        }
    }
}

/// What makes transactions of closures. `transact` is for callers; the other calls are what it and
/// the handle are made of.
pub trait Transact {
    ghost use Rattle.slate_connection.specs.Connected.{ConnectionModel, Terms};

    ghost seen: { Self → ConnectionModel };

    ghost terms: { Terms };

    /// Opens a transaction. One that is open is rolled back first. Refuses as `Pass::begin` does,
    /// and then none is open.
    fn begin(&mut self, level: IsolationLevel) -> Result<(), SlateDBError>
        ensures only { SeesOnly (seen self.old).pass (seen self.new).pass }
        ensures begun { OnOk result ((t : Opened) × ((seen self.new).txn ≡ Some t)
            × IsAttempt terms.options (seen self.old).pass.seen level [] t) }
        ensures unbegun { IfErr result (IsUnbegun (seen self.old).pass (seen self.new).pass) }
        ensures none { OnErr result ((seen self.new).txn ≡ None) }
        ensures still { (seen self.new).reach ≡ (seen self.old).reach };

    /// Commits what is open at a moment, and returns its sequence, or `None` if it put and deleted
    /// nothing. It ends either way. Refuses as `DbTransaction::commit` does, and by
    /// `UnknownTransaction` if nothing is open, and then nothing is committed.
    fn commit(&mut self, now: i64) -> Result<Option<u64>, SlateDBError>
        ensures committed { (t : Opened) (from : List Event) (level : Level) →
            (seen self.old).txn ≡ Some t → IsOpenAttempt terms from level t →
            IfOk result (λ n. HasCommittedBehind terms.options t n now (seen self.old).pass
            (seen self.new).pass) }
        ensures legal { OnOk result (IsLegal terms.options.start_seq (seen self.new).pass.seen) }
        ensures refused { OnErr result (SeesOnly (seen self.old).pass (seen self.new).pass) }
        ensures cause { (t : Opened) (from : List Event) (level : Level) →
            (seen self.old).txn ≡ Some t → IsOpenAttempt terms from level t →
            IfErr result (λ e. IsFault (seen self.old).reach (seen self.new).reach e
            ⊎ IsRefusedBehind terms.options t (seen self.old).pass (seen self.new).pass e) }
        ensures none { (seen self.new).txn ≡ None }
        ensures reads { OnlyReads (seen self.old).reach (seen self.new).reach };

    /// Rolls back what is open.
    fn end(&mut self)
        ensures only { SeesOnly (seen self.old).pass (seen self.new).pass }
        ensures known { (t : Opened) → (seen self.old).txn ≡ Some t →
            IsPrefix t.seen (seen self.new).pass.seen }
        ensures none { (seen self.new).txn ≡ None }
        ensures still { (seen self.new).reach ≡ (seen self.old).reach };

    /// Returns the row that the open transaction sees at a key. Refuses as
    /// `DbTransaction::get_key_value` does, and by `UnknownTransaction` if nothing is open, and
    /// then it took no step.
    fn get_within(&mut self, key: &[u8]) -> Result<Option<KeyValue>, SlateDBError>
        ensures stays { Stays terms (seen self.old) (seen self.new) }
        ensures noted { IfOk result (λ a. taken (seen self.new) ≡ taken (seen self.old) ++
            (steps.Get key.now a ∷ [])) }
        ensures same { OnErr result (taken (seen self.new) ≡ taken (seen self.old)) }
        ensures cause { (t : Opened) (from : List Event) (level : Level) →
            (seen self.old).txn ≡ Some t → IsOpenAttempt terms from level t →
            IfErr result (λ e. (u : Opened) × ((seen self.new).txn ≡ Some u)
            × IsReadErrorOn terms.options terms.policies (seen self.old).reach (seen self.new).reach
            u.seen e) };

    /// Puts a value by the open transaction. Refuses as `DbTransaction::put_with_options` does, and
    /// by `UnknownTransaction` if nothing is open, and then it took no step.
    fn put_within(
        &mut self,
        key: &[u8],
        value: &[u8],
        options: &PutOptions,
    ) -> Result<(), SlateDBError>
        ensures stays { Stays terms (seen self.old) (seen self.new) }
        ensures noted { OnOk result (taken (seen self.new) ≡ taken (seen self.old) ++
            (steps.Own key.now (WriteOp.Put value.now options.now) ∷ [])) }
        ensures same { OnErr result ((seen self.new) ≡ (seen self.old)) }
        ensures cause { IfErr result (λ e. ((seen self.old).txn ≡ None)
            ⊎ (e ≡ SlateDBError.OutOfMemory)
            ⊎ (op_refusal key.now (WriteOp.Put value.now options.now) ≡ Some e)) }
        ensures test { (t : Opened) (e : SlateDBError) → (seen self.old).txn ≡ Some t →
            op_refusal key.now (WriteOp.Put value.now options.now) ≡ Some e → result ≡ Err e };

    /// Deletes a key by the open transaction. Refuses as `DbTransaction::delete` does, and by
    /// `UnknownTransaction` if nothing is open, and then it took no step.
    fn delete_within(&mut self, key: &[u8]) -> Result<(), SlateDBError>
        ensures stays { Stays terms (seen self.old) (seen self.new) }
        ensures noted { OnOk result (taken (seen self.new) ≡ taken (seen self.old) ++
            (steps.Own key.now WriteOp.Delete ∷ [])) }
        ensures same { OnErr result ((seen self.new) ≡ (seen self.old)) }
        ensures cause { IfErr result (λ e. ((seen self.old).txn ≡ None)
            ⊎ (e ≡ SlateDBError.OutOfMemory) ⊎ (op_refusal key.now WriteOp.Delete ≡ Some e)) }
        ensures test { (t : Opened) (e : SlateDBError) → (seen self.old).txn ≡ Some t →
            op_refusal key.now WriteOp.Delete ≡ Some e → result ≡ Err e };

    /// Begins a transaction, runs the closure on it, and commits it. If another thread's commit
    /// conflicts with it, it begins again, and the closure reads again, up to the number of
    /// attempts. If the closure refuses, or anything else does, the transaction is rolled back. No
    /// transaction stays open.
    ///
    /// At Ok the closure's last run is committed, and nothing else; at Err nothing is.
    final fn transact<A: Drop, F: FnMut(&mut Transaction<'_, Self>) -> Result<A, SlateDBError>>(
        &mut self,
        options: &TransactOptions,
        work: F,
    ) -> Result<A, SlateDBError>
        requires callable { (f : F) (t : _) → F.pre f t }
        requires stays { (f g : F) (s t : _) (r : _) → F.step f s r t g →
            StaysIn terms seen s.now.db t.now.db }
        ensures committed { IfOk result (HasTransacted (λ t. seen t.now.db.now) F.step terms
            options.entry.now.level options.entry.now.now (seen self.old) (seen self.new) work) }
        ensures tried { (n : ℕ) × (n < max 1 options.entry.now.attempts) × (mid : ConnectionModel)
            × (f : F)
            × AfterConflicts (λ t. seen t.now.db.now) F.step terms options.entry.now.level n
            (seen self.old) work mid f
            × IsLast (λ t. seen t.now.db.now) F.step terms options.entry.now.level mid
            (seen self.new) f result }
        ensures more { SeesMore (seen self.old).pass (seen self.new).pass }
        ensures refused { OnErr result (SeesOnly (seen self.old).pass (seen self.new).pass) }
        ensures none { (seen self.new).txn ≡ None }
        ensures reads { OnlyReads (seen self.old).reach (seen self.new).reach }
    {
        let mut work = work;
        for _tried in 1..options.attempts {
            let ended = attempt(self, options.level, options.now, &mut work);
            if is_settled(&ended) {
                return ended;
            }
            thread::yield_now();
        }
        attempt(self, options.level, options.now, &mut work)
    }

    /// Returns the row at a key, by a transaction of its own that commits nothing. Refuses as
    /// `begin` and `get_within` do.
    final fn get_row(&mut self, key: &[u8]) -> Result<Option<KeyValue>, SlateDBError>
        ensures read { IfOk result (λ a. HasRead terms (seen self.old) (seen self.new)
            (steps.Get key.now a ∷ [])) }
        ensures only { SeesOnly (seen self.old).pass (seen self.new).pass }
        ensures none { (seen self.new).txn ≡ None }
        ensures reads { OnlyReads (seen self.old).reach (seen self.new).reach }
    {
        self.begin(IsolationLevel::Snapshot)?;
        let found = self.get_within(key);
        self.end();
        found
    }

    /// Returns the value of that row.
    final fn get(&mut self, key: &[u8]) -> Result<Option<Bytes>, SlateDBError>
        ensures read { IfOk result (λ a. (row : Option KeyValue)
            × (a ≡ option_map (λ r. r.value) row)
            × HasRead terms (seen self.old) (seen self.new) (steps.Get key.now row ∷ [])) }
        ensures only { SeesOnly (seen self.old).pass (seen self.new).pass }
        ensures none { (seen self.new).txn ≡ None }
        ensures reads { OnlyReads (seen self.old).reach (seen self.new).reach }
    {
        match self.get_row(key) {
            Ok(Some(KeyValue { value, .. })) => Ok(Some(value)),
            Ok(None) => Ok(None),
            Err(error) => Err(error),
        }
    }

    /// Returns the first rows, up to a limit, that the open transaction sees at the keys that are a
    /// prefix and then a key between the bounds. It opens a scan, and takes row after row until
    /// so many are there or none is left. Refuses as `DbTransaction::scan_prefix_with_options` and
    /// `next` do, and by `UnknownTransaction` if nothing is open; then it may have taken steps.
    fn scan_within<B: ByteRangeBounds>(
        &mut self,
        prefix: &[u8],
        range: &B,
        options: &ScanOptions,
        limit: u64,
    ) -> Result<Vec<KeyValue>, SlateDBError>
        ensures stays { Stays terms (seen self.old) (seen self.new) }
        ensures noted { IfOk result (λ rows. (r : BytesRange)
            × (prefix_subrange prefix.now (B.start range.now) (B.end range.now) ≡ Some r)
            × AddsScan options.now.order r limit (taken (seen self.old)) (taken (seen self.new))
            rows.items) }
        ensures more { IsPrefix (taken (seen self.old)) (taken (seen self.new)) }
        ensures cause { (t : Opened) (from : List Event) (level : Level) →
            (seen self.old).txn ≡ Some t → IsOpenAttempt terms from level t →
            IfErr result (λ e. (u : Opened) × ((seen self.new).txn ≡ Some u) × IsScanRefused terms
            (prefix_subrange prefix.now (B.start range.now) (B.end range.now))
            (seen self.old).reach (seen self.new).reach u e) };

    /// Returns the first rows at the keys that are a prefix and then a key between the bounds, by
    /// a transaction of its own that commits nothing. Refuses as `begin` and `scan_within` do.
    final fn scan_prefix<B: ByteRangeBounds>(
        &mut self,
        prefix: &[u8],
        range: &B,
        options: &ScanOptions,
        limit: u64,
    ) -> Result<Vec<KeyValue>, SlateDBError>
        ensures read { IfOk result (λ rows. HasScanned terms
            (prefix_subrange prefix.now (B.start range.now) (B.end range.now)) options.now.order
            limit (seen self.old) (seen self.new) rows.items) }
        ensures only { SeesOnly (seen self.old).pass (seen self.new).pass }
        ensures none { (seen self.new).txn ≡ None }
        ensures reads { OnlyReads (seen self.old).reach (seen self.new).reach }
    {
        self.begin(IsolationLevel::Snapshot)?;
        let rows = self.scan_within(prefix, range, options, limit);
        self.end();
        rows
    }

    /// Returns the first rows in a range, so too.
    final fn scan<B: ByteRangeBounds>(
        &mut self,
        range: &B,
        options: &ScanOptions,
        limit: u64,
    ) -> Result<Vec<KeyValue>, SlateDBError>
        ensures read { IfOk result (λ rows. HasScanned terms
            (prefix_subrange [] (B.start range.now) (B.end range.now)) options.now.order
            limit (seen self.old) (seen self.new) rows.items) }
        ensures only { SeesOnly (seen self.old).pass (seen self.new).pass }
        ensures none { (seen self.new).txn ≡ None }
        ensures reads { OnlyReads (seen self.old).reach (seen self.new).reach }
    {
        self.scan_prefix(&[], range, options, limit)
    }
}

/// The open transaction of a connection, as it is lent to a closure.
#[derive(Drop)]
pub struct Transaction<'t, D> {
    db: &'t mut D,
}

impl<'t, D: Transact> Transaction<'t, D> {
    /// Returns the row that it sees at a key. Refuses as `DbTransaction::get_key_value` does.
    pub fn get_row(&mut self, key: &[u8]) -> Result<Option<KeyValue>, SlateDBError>
        ensures stays { StaysIn D.terms D.seen self.old.db self.new.db }
        ensures noted { IfOk result (λ a. taken (D.seen self.new.db.now) ≡ taken
            (D.seen self.old.db.now) ++ (steps.Get key.now a ∷ [])) }
        ensures same { OnErr result (taken (D.seen self.new.db.now) ≡ taken
            (D.seen self.old.db.now)) }
    {
        self.db.get_within(key)
    }

    /// Returns the value of that row.
    pub fn get(&mut self, key: &[u8]) -> Result<Option<Bytes>, SlateDBError>
        ensures stays { StaysIn D.terms D.seen self.old.db self.new.db }
        ensures noted { IfOk result (λ a. (row : Option KeyValue)
            × (a ≡ option_map (λ r. r.value) row)
            × (taken (D.seen self.new.db.now) ≡ taken (D.seen self.old.db.now) ++
            (steps.Get key.now row ∷ []))) }
        ensures same { OnErr result (taken (D.seen self.new.db.now) ≡ taken
            (D.seen self.old.db.now)) }
    {
        match self.db.get_within(key) {
            Ok(Some(KeyValue { value, .. })) => Ok(Some(value)),
            Ok(None) => Ok(None),
            Err(error) => Err(error),
        }
    }

    /// Puts a value, with the default options. Refuses as `DbTransaction::put` does, and then
    /// nothing is put.
    pub fn put(&mut self, key: &[u8], value: &[u8]) -> Result<(), SlateDBError>
        ensures stays { StaysIn D.terms D.seen self.old.db self.new.db }
        ensures noted { OnOk result (taken (D.seen self.new.db.now) ≡ taken (D.seen self.old.db.now)
            ++ (steps.Own key.now (plain_put value.now) ∷ [])) }
        ensures same { OnErr result (D.seen self.new.db.now ≡ D.seen self.old.db.now) }
    {
        self.db.put_within(key, value, &PutOptions::default())
    }

    /// Puts a value. Refuses as `DbTransaction::put_with_options` does, and then nothing is put.
    pub fn put_with(
        &mut self,
        key: &[u8],
        value: &[u8],
        options: &PutOptions,
    ) -> Result<(), SlateDBError>
        ensures stays { StaysIn D.terms D.seen self.old.db self.new.db }
        ensures noted { OnOk result (taken (D.seen self.new.db.now) ≡ taken (D.seen self.old.db.now)
            ++ (steps.Own key.now (WriteOp.Put value.now options.now) ∷ [])) }
        ensures same { OnErr result (D.seen self.new.db.now ≡ D.seen self.old.db.now) }
    {
        self.db.put_within(key, value, options)
    }

    /// Deletes a key. Refuses as `DbTransaction::delete` does, and then nothing is deleted.
    pub fn delete(&mut self, key: &[u8]) -> Result<(), SlateDBError>
        ensures stays { StaysIn D.terms D.seen self.old.db self.new.db }
        ensures noted { OnOk result (taken (D.seen self.new.db.now) ≡ taken (D.seen self.old.db.now)
            ++ (steps.Own key.now WriteOp.Delete ∷ [])) }
        ensures same { OnErr result (D.seen self.new.db.now ≡ D.seen self.old.db.now) }
    {
        self.db.delete_within(key)
    }

    /// Returns the first rows, up to a limit, that it sees at the keys that are a prefix and then a
    /// key between the bounds. It takes row after row until so many are there or none is left.
    /// Refuses as `DbTransaction::scan_prefix_with_options` and `next` do, and then it may have
    /// taken steps.
    pub fn scan_prefix<B: ByteRangeBounds>(
        &mut self,
        prefix: &[u8],
        range: &B,
        options: &ScanOptions,
        limit: u64,
    ) -> Result<Vec<KeyValue>, SlateDBError>
        ensures stays { StaysIn D.terms D.seen self.old.db self.new.db }
        ensures noted { IfOk result (λ rows. (r : BytesRange)
            × (prefix_subrange prefix.now (B.start range.now) (B.end range.now) ≡ Some r)
            × AddsScan options.now.order r limit (taken (D.seen self.old.db.now))
            (taken (D.seen self.new.db.now)) rows.items) }
        ensures more { IsPrefix (taken (D.seen self.old.db.now)) (taken (D.seen self.new.db.now)) }
    {
        self.db.scan_within(prefix, range, options, limit)
    }

    /// Returns the first rows in a range, so too.
    pub fn scan<B: ByteRangeBounds>(
        &mut self,
        range: &B,
        options: &ScanOptions,
        limit: u64,
    ) -> Result<Vec<KeyValue>, SlateDBError>
        ensures stays { StaysIn D.terms D.seen self.old.db self.new.db }
        ensures noted { IfOk result (λ rows. (r : BytesRange)
            × (prefix_subrange [] (B.start range.now) (B.end range.now) ≡ Some r)
            × AddsScan options.now.order r limit (taken (D.seen self.old.db.now))
            (taken (D.seen self.new.db.now)) rows.items) }
        ensures more { IsPrefix (taken (D.seen self.old.db.now)) (taken (D.seen self.new.db.now)) }
    {
        self.db.scan_within(&[], range, options, limit)
    }

    /// Merges nothing: the databases that connections serve have no operator. Refuses by
    /// `MergeOperatorMissing`, and then it took no step.
    pub fn merge(&mut self, _key: &[u8], _operand: &[u8]) -> Result<(), SlateDBError>
        ensures missing { result ≡ Err SlateDBError.MergeOperatorMissing }
        ensures stays { StaysIn D.terms D.seen self.old.db self.new.db }
        ensures same { D.seen self.new.db.now ≡ D.seen self.old.db.now }
    {
        Err(SlateDBError::MergeOperatorMissing)
    }
}

/// Tells whether it is no conflict, after which an attempt begins again.
fn is_settled<A>(ended: &Result<A, SlateDBError>) -> bool
    ensures { result ≡ false → (seq : _)
        × (ended.now ≡ Err (SlateDBError.TransactionConflict seq)) }
{
    !matches!(ended, Err(SlateDBError::TransactionConflict { .. }))
}

/// Makes one attempt.
fn attempt<D: Transact, A: Drop, F: FnMut(&mut Transaction<'_, D>) -> Result<A, SlateDBError>>(
    db: &mut D,
    level: IsolationLevel,
    now: i64,
    work: &mut F,
) -> Result<A, SlateDBError>
    requires callable { (f : F) (t : _) → F.pre f t }
    requires stays { (f g : F) (s t : _) (r : _) → F.step f s r t g →
        StaysIn D.terms D.seen s.now.db t.now.db }
    ensures committed { IfOk result (HasTransacted (λ t. D.seen t.now.db.now) F.step D.terms level
        now (D.seen db.old) (D.seen db.new) work.old) }
    ensures ran { IfOk result (λ a. (s : _) × (t : _) × F.step work.old s (Ok a) t work.new) }
    ensures cause { IfErr result (EndsByRefusal (λ t. D.seen t.now.db.now) F.step D.terms level
        (D.seen db.old) (D.seen db.new) work.old work.new) }
    ensures refused { OnErr result (SeesOnly (D.seen db.old).pass (D.seen db.new).pass) }
    ensures none { (D.seen db.new).txn ≡ None }
    ensures reads { OnlyReads (D.seen db.old).reach (D.seen db.new).reach }
{
    db.begin(level)?;
    match run(db, work) {
        Ok(answer) => {
            db.commit(now)?;
            Ok(answer)
        }
        Err(error) => {
            db.end();
            Err(error)
        }
    }
}

/// Calls the closure on what is open.
fn run<D: Transact, A: Drop, F: FnMut(&mut Transaction<'_, D>) -> Result<A, SlateDBError>>(
    db: &mut D,
    work: &mut F,
) -> Result<A, SlateDBError>
    requires callable { (f : F) (t : _) → F.pre f t }
    requires stays { (f g : F) (s t : _) (r : _) → F.step f s r t g →
        StaysIn D.terms D.seen s.now.db t.now.db }
    ensures stays { Stays D.terms (D.seen db.old) (D.seen db.new) }
    ensures ran { (s : _) × (t : _) × F.step work.old s result t work.new × (s.now.db.now ≡ db.old)
        × (t.now.db.now ≡ db.new) }
{
    let mut txn = Transaction { db };
    work(&mut txn)
}
