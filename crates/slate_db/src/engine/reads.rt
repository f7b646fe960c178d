//! The reads of a core: gets, and scans.
ghost use Rattle.std.specs.Prelude.{◌≡◌, ℕ, ◌-◌, ◌<◌, List, IfOk, OnOk, Err, IsSome, Option, None, Some, true, false, map, drop, nat_eq};
ghost use Rattle.std.specs.List.{AllByRecursion, starts_with};
ghost use Rattle.slate_types.specs.Config.{IsValid};
ghost use Rattle.slate_types.specs.declared.error.SlateDBError.{SlateDBError};
ghost use Rattle.slate_types.specs.declared.filter_policy.PrefixTarget.{PrefixTarget};
ghost use Rattle.slate_table.specs.Filtered.{point_query};
ghost use Rattle.slate_types.specs.Fold.{AreShort, shown};
ghost use Rattle.slate_types.specs.Rows.{is_operand};
ghost use Rattle.slate_types.specs.declared.types.KeyValue.{KeyValue};
ghost use Rattle.slate_types.specs.declared.types.RowEntry.{RowEntry};
ghost use Rattle.slate_types.specs.Iteration.{drop_before};
ghost use Rattle.slate_types.specs.Keys.{in_range, is_refused};
ghost use Rattle.slate_types.specs.Outside.{OnlyReads};
ghost use Rattle.slate_types.specs.World.{World, Sees};
ghost use Rattle.slate_mem.specs.Table.{newest};
ghost use Rattle.slate_txn.specs.declared.event.TranscriptStep.TheVariants as steps;
ghost use Rattle.slate_txn.specs.declared.line.Line.TheVariants as lines;
ghost use Rattle.slate_mem.specs.Batch.{kept};
ghost use Rattle.slate_txn.specs.State.{opening};
ghost use Rattle.slate_txn.specs.Step.{Reader, noted, reader, step};
ghost use Rattle.slate_db.specs.Meaning.{Meaning};
ghost use Rattle.slate_db.specs.Shown.{Asking};
ghost use Rattle.slate_db.specs.Readable.{IsOwnRow};
ghost use Rattle.slate_db.specs.Model.{at, memory};
ghost use Rattle.slate_db.specs.ScanFilters.{scan_query};
ghost use Rattle.slate_db.specs.Scans.{HasLeft, IsOpenScan, Leaves, id_of, number_of, scan_of};
ghost use Rattle.slate_read.specs.SstOptions.{CanFetch};
ghost use Rattle.slate_db.specs.Vouched.{IsVouchedFor};
ghost use Rattle.slate_db.specs.Calls.Common.{Notes};
ghost use Rattle.slate_db.specs.Calls.Get.{GetsKey, SeesKey};
ghost use Rattle.slate_db.specs.Calls.Scan.{OpensScan};
ghost use Rattle.slate_db.specs.Calls.Step.{LeavesList};
ghost use Rattle.slate_db.specs.KeyShares.{IsSeen};
ghost use Rattle.slate_db.specs.RangeShares.{IsOpened};
ghost use Rattle.slate_db.specs.TxnScans.{IsNext, IsSeek};

use crate::engine::Core;
use crate::key_share::seen_behind;
use crate::laws::Laws;
use crate::lookup::{newest_behind, query_of};
use crate::open_scan::{opened_over, table_options};
use crate::scan::{DbIterator, TxnIterator};
use bytes::Bytes;
use slate_filter::FilterPolicy;
use slate_mem::fold::answer;
use slate_mem::lookup::is_decided;
use slate_read::SstIteratorOptions;
use slate_store::{Env, EnvOf, Store};
use slate_txn::fold::fold_found;
use slate_types::{
    BlockTransformer, BytesRange, FilterContext, FilterQuery, KeyValue, MergeOperator, Outside,
    PrefixExtractor, ReadOptions, RowEntry, ScanOptions, SlateDBError,
};
use uuid::Uuid;

impl Core {
    /// The row that a reader at a sequence sees at a key, under the rows of its own operations, newest first, of which none decides.
    fn seen<S: Store, M: MergeOperator, T: BlockTransformer>(
        &self,
        own: Vec<RowEntry>,
        key: &Bytes,
        at: u64,
        policies: &[Box<dyn FilterPolicy>],
        query: &FilterQuery,
        env: &mut Env<'_, S, M, T>,
    ) -> Result<Option<RowEntry>, SlateDBError>
        requires query { query.now.target ≡ PrefixTarget.Point key.now }
        requires operands { AllByRecursion (λ r. is_operand r ≡ true) own.items }
        requires own { AllByRecursion (IsOwnRow self.now) own.items }
        requires keys { AllByRecursion (λ r. r.key ≡ key.now) own.items }
        requires short { AreShort own.items }
        ensures { let reach = ⟦<EnvOf<S, M, T> as Outside>⟧.reach in
            let by : Asking = record { policies = map (λ p. meaning p) policies.now; query = query.now } in
            IsSeen by (reach env.old) (reach env.new) self.now key.now at own.items result }
    {
        let near = newest_behind(
            self.alloc,
            own,
            self.layers.active(),
            self.layers.frozen(),
            key,
            at,
        )?;
        seen_behind(
            self.alloc,
            near,
            self.layers.runs(),
            key,
            at,
            policies,
            query,
            env,
        )
    }

    /// The row that an open transaction or an open snapshot sees at a key: own operations, which a snapshot has none of, lie above
    /// the rows at its start. Where one of these decides, nothing is read.
    fn seen_by<S: Store, M: MergeOperator, T: BlockTransformer>(
        &self,
        id: &Uuid,
        key: &Bytes,
        at: u64,
        policies: &[Box<dyn FilterPolicy>],
        query: &FilterQuery,
        env: &mut Env<'_, S, M, T>,
    ) -> Result<Option<RowEntry>, SlateDBError>
        requires open { IsSome (reader self.now.state id.now) }
        requires query { query.now.target ≡ PrefixTarget.Point key.now }
        ensures { let reach = ⟦<EnvOf<S, M, T> as Outside>⟧.reach in
            let by : Asking = record { policies = map (λ p. meaning p) policies.now; query = query.now } in
            let alone = env.new ≡ record env.old { operator = env.new.operator } in
            SeesKey by id.now key.now at (reach env.old) (reach env.new) alone self.now result }
    {
        let own = self.transactions.own_rows(self.alloc, id, key)?;
        if is_decided(&own) {
            return fold_found(self.alloc, own, &mut env.operator);
        }
        self.seen(own, key, at, policies, query, env)
    }

    /// The row that an open transaction or an open snapshot sees at a key, where the filters of tables are asked with this context.
    fn asked<S: Store, M: MergeOperator, T: BlockTransformer, X: PrefixExtractor>(
        &self,
        id: &Uuid,
        key: &Bytes,
        at: u64,
        context: &Option<FilterContext>,
        laws: &Laws<X>,
        env: &mut Env<'_, S, M, T>,
    ) -> Result<Option<RowEntry>, SlateDBError>
        requires { IsSome (reader self.now.state id.now) }
        ensures { let reach = ⟦<EnvOf<S, M, T> as Outside>⟧.reach in
            let policies = map (λ p. meaning p) laws.now.policies.items in
            let by : Asking = record { policies = policies; query = point_query key.now context.now } in
            let alone = env.new ≡ record env.old { operator = env.new.operator } in
            SeesKey by id.now key.now at (reach env.old) (reach env.new) alone self.now result }
    {
        let query = query_of(key, context)?;
        self.seen_by(id, key, at, laws.policies.as_slice(), &query, env)
    }

    /// What an open transaction or an open snapshot sees at a key, and `None` where that is nothing, as at a key that no row can
    /// have. Own operations lie above the rows at its start, and where one of them decides, no store is asked. A row that is found
    /// and damage that is shown stand in a table whose filters deny nothing, and where policies are set and the tables answer that
    /// the journal names, no block is read of one whose filters weren't read before, or deny the key. Where the answer takes a row of a commit that was
    /// flushed, a block was read that has the key. The answer is recorded in the
    /// transaction's transcript; a snapshot has none.
    ///
    /// Refuses by `StoreFault`, `BlockTransformError` and `Callback`, each only where its count of faults rose; by
    /// `MergeOperatorMissing`, only where there is no operator and an operand of the key was found, which each own one is that is
    /// kept, and else one up to the reader's sequence, in memory or in a block that was read; by `ChecksumMismatch`, `CorruptTable`, `InvalidFilterBlock` or `InvalidRowFlags`, only where the last reads of this call
    /// show it, of a table that the journal names; and by `OutOfMemory`. Then nothing is recorded. Neither damage nor a missing
    /// operator is answered where the store holds the tables that the journal names, nor where its acts tell that each read of this
    /// call was answered by them. Where the acts tell otherwise, an Ok rests on a section that slipped through: of such a table, other
    /// than it stands there, with a checksum that fits. Without an operator no row is answered where own operations leave the key open
    /// and its rows in memory come to an operand before one that decides.
    pub fn get<S: Store, M: MergeOperator, T: BlockTransformer, X: PrefixExtractor>(
        &mut self,
        id: &Uuid,
        key: &[u8],
        options: &ReadOptions,
        env: &mut Env<'_, S, M, T>,
        laws: &Laws<X>,
    ) -> Result<Option<KeyValue>, SlateDBError>
        requires { IsSome (reader self.old.state id.now) }
        ensures gets { let reach = ⟦<EnvOf<S, M, T> as Outside>⟧.reach in
            let policies = map (λ p. meaning p) laws.now.policies.items in
            let query = point_query key.now options.now.filter_context in
            let by : Asking = record { policies = policies; query = query } in
            let alone = env.new ≡ record env.old { operator = env.new.operator } in
            GetsKey by id.now key.now (reach env.old) (reach env.new) alone self.old self.new result }
        ensures notes { Notes id.now (steps.Get key.now) self.old self.new result }
    {
        let Some(at) = self.start_of(id) else {
            unreachable!()
        };
        let key = Bytes::copy_from_slice(self.alloc, key)?;
        let row = match self.asked(id, &key, at, &options.filter_context, laws, env) {
            Ok(row) => row,
            Err(error) => {
                drop(key);
                return Err(error);
            }
        };
        let found = answer(row);
        if let Err(error) = self.transactions.note_get(self.alloc, id, key, &found) {
            drop(found);
            return Err(SlateDBError::from(error));
        }
        Ok(found)
    }

    /// The rows of a scan of an open transaction or an open snapshot: its own lie above those at its start. Nothing is noted yet.
    fn opened<'a, S: Store, M: MergeOperator, T: BlockTransformer>(
        &self,
        id: &Uuid,
        begin: u64,
        range: BytesRange,
        how: SstIteratorOptions,
        policies: &'a [Box<dyn FilterPolicy>],
        env: &mut Env<'_, S, M, T>,
    ) -> Result<DbIterator<'a>, SlateDBError>
        requires open { IsSome (reader self.now.state id.now) }
        requires range { is_refused range.start range.end ≡ false }
        requires prefix { (p k : List ℕ) → how.prefix ≡ Some p → in_range range k ≡ true → starts_with nat_eq k p ≡ true }
        requires fetches { CanFetch how }
        ensures opened { let reach = ⟦<EnvOf<S, M, T> as Outside>⟧.reach in
            let query = scan_query range how.prefix how.filter_context in
            (from : Reader) → reader self.now.state id.now ≡ Some from →
            IsOpened (map (λ p. meaning p) policies.now) query (reach env.old) (reach env.new)
            self.now begin from.ops range how.order result }
        ensures range { IfOk result (λ it. it.range ≡ range) }
        ensures order { IfOk result (λ it. it.order ≡ how.order) }
        ensures reads { let reach = ⟦<EnvOf<S, M, T> as Outside>⟧.reach in OnlyReads (reach env.old) (reach env.new) }
    {
        let alloc = self.alloc;
        let own = self.transactions.own_range(alloc, id, &range, how.order)?;
        opened_over(
            alloc,
            own,
            self.layers.active(),
            self.layers.frozen(),
            self.layers.runs(),
            range,
            begin,
            how,
            policies,
            env,
        )
    }

    /// Opens a scan of an open transaction or an open snapshot over the rows in a range, in an order. The rows are fixed now: later
    /// calls change nothing of them. The opening is noted in the transaction's transcript; a snapshot has none. Where a prefix is
    /// given each key of the range must begin with it. The filters of tables that can hold a key of the range are asked first, for the
    /// key where the range is a point, else for the prefix, with the options' context: a denied table costs one read. One is *let in*
    /// where its filters, if it has any that are asked, were read in this call and deny nothing.
    ///
    /// Refuses by `InvalidRange` exactly where the bounds make no range, and then nothing is reached; by `StoreFault` and
    /// `BlockTransformError`, each only where its count of faults rose; by `ChecksumMismatch`, `CorruptTable`, `InvalidRowFlags` and
    /// `InvalidFilterBlock`, only where reads of this call show it, of the filters of a table that the journal names, or of one of
    /// these tables that was let in; and by `OutOfMemory`. Then nothing is noted.
    ///
    /// Calls on the iterator refuse later by what the reads since show of a table that was let in; and, but for seeks, by
    /// `MergeOperatorMissing`, only where there is no operator and a row is an operand, and by `InvalidSequenceOrder`, only where
    /// there is one and a row has a greater sequence than an operand of its key: it names the two sequences. Each of these rows is
    /// of an open transaction's own, stood in memory at the opening, or stands in a block of such a table that was read since. So is
    /// each row that is handed out where there is no operator, and none of those is an operand.
    ///
    /// Where a store's acts tell that a read wasn't answered by the tables that the journal names, an Ok rests on a section that
    /// slipped through: of such a table, other than it stands there, with a checksum that fits.
    pub fn scan<'a, S: Store, M: MergeOperator, T: BlockTransformer, X: PrefixExtractor>(
        &mut self,
        id: &Uuid,
        range: BytesRange,
        prefix: Option<Bytes>,
        options: &ScanOptions,
        env: &mut Env<'_, S, M, T>,
        laws: &'a Laws<X>,
    ) -> Result<TxnIterator<'a>, SlateDBError>
        requires open { IsSome (reader self.old.state id.now) }
        requires prefix { (p k : List ℕ) → prefix ≡ Some p → in_range range k ≡ true → starts_with nat_eq k p ≡ true }
        requires valid { IsValid laws.now.options }
        ensures opens { let reach = ⟦<EnvOf<S, M, T> as Outside>⟧.reach in
            let policies = map (λ p. meaning p) laws.now.policies.items in
            let query = scan_query range prefix options.now.filter_context in
            OpensScan policies query id.now options.now.order range (reach env.old) (reach env.new)
            (env.new ≡ env.old) self.old self.new result }
        ensures notes { Notes id.now (λ it. steps.Scan options.now.order range) self.old self.new
            result }
    {
        let Some(begin) = self.start_of(id) else {
            unreachable!()
        };
        if range.leaves_none() {
            return Err(SlateDBError::InvalidRange);
        }
        let how = table_options(prefix, options, &laws.options)?;
        let rows = self.opened(id, begin, range, how, laws.policies.as_slice(), env)?;
        let scan = match self.transactions.note_scan(id, options.order, &rows.range) {
            Ok(scan) => scan,
            Err(error) => {
                drop(rows);
                return Err(SlateDBError::from(error));
            }
        };
        let id = *id;
        Ok(TxnIterator { id, scan, rows })
    }

    /// The next row of a scan, or `None` at its end, which is noted in the transcript of the scan's transaction. It is the first of
    /// those that are left of the list that was fixed at the opening. Refuses as `DbIterator::next` does, and then nothing is
    /// noted, and the iterator answers the refusal again.
    pub fn next<S: Store, M: MergeOperator, T: BlockTransformer>(
        &mut self,
        it: &mut TxnIterator<'_>,
        env: &mut Env<'_, S, M, T>,
    ) -> Result<Option<KeyValue>, SlateDBError>
        requires { IsOpenScan self.old it.old }
        ensures step { let reach = ⟦<EnvOf<S, M, T> as Outside>⟧.reach in
            IsNext (reach env.old) (reach env.new) (env.new ≡ env.old) it.old it.new result }
        ensures notes { Notes (id_of it.old) (steps.Next (number_of it.old)) self.old self.new
            result }
        ensures left { LeavesList (drop 1) self.old self.new it.old it.new result }
        ensures vouched { let reach = ⟦<EnvOf<S, M, T> as Outside>⟧.reach in
            let m = (reach env.old).meaning in
            (w : World) (rows : List RowEntry) → Leaves (scan_of it.old) w rows →
            Sees w (reach env.old) (reach env.new) → HasLeft m self.old it.old rows →
            OnOk result ((other : List ℕ) → IsVouchedFor m self.old other → IsVouchedFor m self.new other) }
        ensures opened { IsOpenScan self.new it.new }
    {
        let answer = match it.rows.next(env) {
            Ok(answer) => answer,
            Err(error) => return Err(error),
        };
        if let Err(error) = self
            .transactions
            .note_next(self.alloc, &it.id, it.scan, &answer)
        {
            drop(answer);
            return Err(it.rows.refuse(SlateDBError::from(error)));
        }
        Ok(answer)
    }

    /// Drops the leading rows of a scan that its order puts before the key, which is noted in the transcript of the scan's
    /// transaction. Refuses as `DbIterator::seek` does, and then nothing is noted, and the iterator answers the refusal again.
    pub fn seek<S: Store, M: MergeOperator, T: BlockTransformer>(
        &mut self,
        it: &mut TxnIterator<'_>,
        key: &[u8],
        env: &mut Env<'_, S, M, T>,
    ) -> Result<(), SlateDBError>
        requires { IsOpenScan self.old it.old }
        ensures step { let reach = ⟦<EnvOf<S, M, T> as Outside>⟧.reach in
            IsSeek key.now (reach env.old) (reach env.new) (env.new ≡ env.old) it.old it.new result }
        ensures notes { Notes (id_of it.old) (λ _. steps.Seek (number_of it.old) key.now) self.old
            self.new result }
        ensures left { LeavesList (drop_before (scan_of it.old).order key.now) self.old self.new
            it.old it.new result }
        ensures vouched { OnOk result ((m : Meaning) (other : List ℕ) →
            IsVouchedFor m self.old other → IsVouchedFor m self.new other) }
        ensures opened { IsOpenScan self.new it.new }
    {
        if let Err(error) = it.rows.seek(key, env) {
            return Err(error);
        }
        if let Err(error) = self
            .transactions
            .note_seek(self.alloc, &it.id, it.scan, key)
        {
            return Err(it.rows.refuse(SlateDBError::from(error)));
        }
        Ok(())
    }
}
