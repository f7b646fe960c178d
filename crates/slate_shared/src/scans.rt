//! Views and scans of a transaction. The lock is held while what they take is taken, and not while tables are read.
ghost use Rattle.std.specs.Prelude.{◌≡◌, ◌⊎◌, ◌<◌, [], ℕ, List, Err, None, Some, count_by, drop, false, true, map, nat_eq, IfOk, IsOkUnless, OnErr, OnOk};
ghost use Rattle.std.specs.List.{starts_with};
ghost use mathlib.Core.List.{IsPrefix};
ghost use Rattle.slate_types.specs.declared.bytes_range.BytesRange.{BytesRange};
ghost use Rattle.slate_types.specs.declared.error.SlateDBError.{SlateDBError};
ghost use Rattle.slate_types.specs.declared.iter.IterationOrder.{IterationOrder};
ghost use Rattle.slate_types.specs.declared.types.RowEntry.{RowEntry};
ghost use Rattle.slate_types.specs.Config.{IsValid};
ghost use Rattle.slate_types.specs.Iteration.{drop_before};
ghost use Rattle.slate_types.specs.Keys.{in_range, is_refused, prefix_subrange};
ghost use Rattle.slate_types.specs.World.{Sees, World};
ghost use Rattle.slate_txn.specs.Alone.{IsVouched, own_of};
ghost use Rattle.slate_txn.specs.Replay.{replay};
ghost use Rattle.slate_txn.specs.Settings.{settings_of};
ghost use Rattle.slate_txn.specs.State.{Tx, begun};
ghost use Rattle.slate_txn.specs.Step.{is_scan};
ghost use Rattle.slate_db.specs.Meaning.{rules_of, segments_by};
ghost use Rattle.slate_db.specs.Model.{CoreModel};
ghost use Rattle.slate_db.specs.Prefixes.{asked_prefix};
ghost use Rattle.slate_db.specs.RangeShares.{IsRangeShare};
ghost use Rattle.slate_db.specs.ScanFilters.{scan_query};
ghost use Rattle.slate_db.specs.Scans.{Leaves, id_of, number_of, scan_of};
ghost use Rattle.slate_db.specs.TxnScans.{IsNext, IsSeek};
ghost use Rattle.slate_shared.specs.Given.{AreGiven};
ghost use Rattle.slate_shared.specs.KeyReads.{IsCoreOf};
ghost use Rattle.slate_shared.specs.Scans.{IsLeftOf, IsOpening, IsScanOpened, noted_scan, sought_to, noted_next};
ghost use Rattle.slate_shared.specs.Viewed.{IsView, viewed};

use crate::database::Database;
use crate::lock::{keep, take};
use crate::parts::Parts;
use crate::txn::DbTransaction;
use crate::view::View;
use bytes::Bytes;
use slate_db::laws::Laws;
use slate_db::open_scan::table_options;
use slate_db::range_share::RangeShare;
use slate_db::scan::{DbIterator, TxnIterator};
use slate_filter::FilterPolicy;
use slate_store::{Env, EnvOf, Store};
use slate_types::{
    BlockTransformer, ByteRangeBounds, BytesRange, IterationOrder, KeyValue, MergeOperator,
    Outside, PrefixExtractor, ScanOptions, SlateDBError,
};
use std::alloc::Global;
use std::sync::Wait;

impl<P: Parts> DbTransaction<P> {
    /// What reads of the keys in a range take, in one step of the lock, which leaves the journal as it was.
    fn share_range<R: Wait>(
        &mut self,
        rt: &R,
        db: &Database<P>,
        range: &BytesRange,
    ) -> Result<RangeShare, SlateDBError>
        requires table { self.old.table ≡ db.now }
        ensures same { self.new ≡ record self.old { seen = self.new.seen } }
        ensures seen { IsPrefix self.old.seen self.new.seen }
        ensures shared { IfOk result (λ s. (x : Tx) → begun x.level x.begin ≡ begun self.old.tx.level self.old.tx.begin → x.ops ≡ own_of x.transcript →
            (c : CoreModel) × IsCoreOf P.options P.meaning (record self.old { tx = x }) self.new.seen c × IsRangeShare c range.now x.begin s) }
        ensures cause { IsOkUnless result SlateDBError.OutOfMemory }
    {
        let top = &db.board.shared;
        let mut locked = take(rt, top, &mut self.seat);
        let share = locked.share_range(range, self.own.begin());
        keep(top, &mut self.seat, locked);
        share
    }

    /// What the keys in a range were at its start, without its own operations. One step of the lock, which leaves the journal as it was,
    /// copies the range's rows up to the start that aren't frozen, and shares the others; the view is then read without the lock. It is
    /// noted in the transcript, and at the serializable level the range counts as read from then on.
    ///
    /// Refuses by `InvalidRange` exactly where the bounds make no range, and then nothing is done; and by `OutOfMemory`, and then
    /// nothing is noted.
    pub fn view<R: Wait>(
        &mut self,
        rt: &R,
        db: &Database<P>,
        range: &BytesRange,
    ) -> Result<View<P>, SlateDBError>
        requires { self.old.table ≡ db.now }
        ensures { IsView P.options P.meaning range.now self.old self.new result }
    {
        let alloc = self.alloc;
        let begin = self.own.begin();
        if range.leaves_none() {
            return Err(SlateDBError::InvalidRange);
        }
        let within = range.clone()?;
        let share = self.share_range(rt, db, range)?;
        self.note_view(range)?;
        Ok(View::new(alloc, share, begin, within))
    }

    /// Notes a view of a range. Where memory is wanting nothing is noted.
    fn note_view(&mut self, range: &BytesRange) -> Result<(), SlateDBError>
        ensures noted { OnOk result (self.new ≡ record self.old { tx = viewed range.now self.old.tx }) }
        ensures same { OnErr result (self.new ≡ self.old) }
        ensures cause { IsOkUnless result SlateDBError.OutOfMemory }
    {
        self.own.note_view(range)?;
        Ok(())
    }

    /// The rows that it sees in a range: its own operations lie above the rows at its start. One step of the lock, which leaves the
    /// journal as it was, takes what is read, and tables are read without it.
    fn opened<'a, R: Wait, S: Store, M: MergeOperator, T: BlockTransformer, X: PrefixExtractor>(
        &mut self,
        rt: &R,
        db: &Database<P>,
        range: BytesRange,
        prefix: Option<Bytes>,
        options: &ScanOptions,
        env: &mut Env<'_, S, M, T>,
        laws: &'a Laws<X>,
    ) -> Result<DbIterator<'a>, SlateDBError>
        requires table { self.old.table ≡ db.now }
        requires range { is_refused range.start range.end ≡ false }
        requires prefix { (p k : List ℕ) → prefix ≡ Some p → in_range range k ≡ true → starts_with nat_eq k p ≡ true }
        requires valid { IsValid laws.now.options }
        ensures { let reach = ⟦<EnvOf<S, M, T> as Outside>⟧.reach in
            IsOpening P.options P.meaning (map (λ p. (⟦<dyn FilterPolicy as FilterPolicy>⟧ p.vtable).meaning p.value) laws.now.policies.items) (scan_query range prefix options.now.filter_context) range options.now.order self.old self.new (reach env.old) (reach env.new) (env.new ≡ env.old) result }
    {
        let alloc = self.alloc;
        let at = self.own.begin();
        let own = self.own.own_range(alloc, &range, options.order)?;
        let how = table_options(prefix, options, &laws.options)?;
        let share = self.share_range(rt, db, &range)?;
        share.opened(alloc, own, range, at, how, laws.policies.as_slice(), env)
    }

    /// Notes the opening of a scan, whose rows these are. Where memory is wanting nothing is noted.
    fn note_scan<'a>(
        &mut self,
        order: IterationOrder,
        rows: DbIterator<'a>,
    ) -> Result<TxnIterator<'a>, SlateDBError>
        ensures noted { IfOk result (λ it. (self.new ≡ record self.old { tx = noted_scan order rows.entry.range self.old.tx }) × (id_of it ≡ self.old.id) × (number_of it ≡ count_by is_scan self.old.tx.transcript) × (scan_of it ≡ rows.entry)) }
        ensures same { OnErr result (self.new ≡ self.old) }
        ensures cause { IsOkUnless result SlateDBError.OutOfMemory }
    {
        match self.own.note_scan(order, rows.range()) {
            Ok(scan) => Ok(TxnIterator::new(self.id, scan, rows)),
            Err(error) => {
                drop(rows);
                Err(SlateDBError::from(error))
            }
        }
    }

    /// Opens a scan of a range, and notes it.
    fn scan_over<'a, R: Wait, S: Store, M: MergeOperator, T: BlockTransformer, X: PrefixExtractor>(
        &mut self,
        rt: &R,
        db: &Database<P>,
        range: BytesRange,
        prefix: Option<Bytes>,
        options: &ScanOptions,
        env: &mut Env<'_, S, M, T>,
        laws: &'a Laws<X>,
    ) -> Result<TxnIterator<'a>, SlateDBError>
        requires table { self.old.table ≡ db.now }
        requires range { is_refused range.start range.end ≡ false }
        requires prefix { (p k : List ℕ) → prefix ≡ Some p → in_range range k ≡ true → starts_with nat_eq k p ≡ true }
        requires valid { IsValid laws.now.options }
        requires meaning { let reach = ⟦<EnvOf<S, M, T> as Outside>⟧.reach in (reach env.old).meaning ≡ P.meaning }
        requires laws { AreGiven P.options P.segments P.policies laws.now.options (segments_by X.lengths laws.now.segments) (map (λ p. (⟦<dyn FilterPolicy as FilterPolicy>⟧ p.vtable).meaning p.value) laws.now.policies.items) }
        ensures { let reach = ⟦<EnvOf<S, M, T> as Outside>⟧.reach in
            IsScanOpened P.options P.meaning P.policies (scan_query range prefix options.now.filter_context) range options.now.order self.old self.new (reach env.old) (reach env.new) (env.new ≡ env.old) result }
    {
        let rows = self.opened(rt, db, range, prefix, options, env, laws)?;
        self.note_scan(options.order, rows)
    }

    /// Opens a scan over the rows that it sees in a range, in an order: its own operations lie above the commits up to its start. The
    /// rows are fixed now. One step of the lock, which leaves the journal as it was, takes what is read, and tables are read without it:
    /// so the rows are those of the journal which the transaction has then seen. The opening is noted in the transcript. The iterator
    /// borrows the laws alone.
    ///
    /// Refuses by `InvalidRange` exactly where the bounds make no range, or by `OutOfMemory`, and then nothing is done; else as
    /// `Core::scan` does, and then nothing is noted.
    pub fn scan_with_options<
        'a,
        B: ByteRangeBounds,
        R: Wait,
        S: Store,
        M: MergeOperator,
        T: BlockTransformer,
        X: PrefixExtractor,
    >(
        &mut self,
        rt: &R,
        db: &Database<P>,
        range: &B,
        options: &ScanOptions,
        env: &mut Env<'_, S, M, T>,
        laws: &'a Laws<X>,
    ) -> Result<TxnIterator<'a>, SlateDBError>
        requires table { self.old.table ≡ db.now }
        requires valid { IsValid laws.now.options }
        requires meaning { let reach = ⟦<EnvOf<S, M, T> as Outside>⟧.reach in (reach env.old).meaning ≡ P.meaning }
        requires laws { AreGiven P.options P.segments P.policies laws.now.options (segments_by X.lengths laws.now.segments) (map (λ p. (⟦<dyn FilterPolicy as FilterPolicy>⟧ p.vtable).meaning p.value) laws.now.policies.items) }
        ensures opened { let reach = ⟦<EnvOf<S, M, T> as Outside>⟧.reach in
            (r : BytesRange) → prefix_subrange [] (B.start range.now) (B.end range.now) ≡ Some r →
            IsScanOpened P.options P.meaning P.policies (scan_query r None options.now.filter_context) r options.now.order self.old self.new (reach env.old) (reach env.new) (env.new ≡ env.old) result }
        ensures invalid { prefix_subrange [] (B.start range.now) (B.end range.now) ≡ None → ((result ≡ Err SlateDBError.InvalidRange) ⊎ (result ≡ Err SlateDBError.OutOfMemory)) × (self.new ≡ self.old) × (env.new ≡ env.old) }
    {
        let range = BytesRange::from_prefix_and_subrange(self.alloc, &[], range)?;
        self.scan_over(rt, db, range, None, options, env, laws)
    }

    /// As `scan_with_options`, upwards, and without a context for filters.
    pub fn scan<
        'a,
        B: ByteRangeBounds,
        R: Wait,
        S: Store,
        M: MergeOperator,
        T: BlockTransformer,
        X: PrefixExtractor,
    >(
        &mut self,
        rt: &R,
        db: &Database<P>,
        range: &B,
        env: &mut Env<'_, S, M, T>,
        laws: &'a Laws<X>,
    ) -> Result<TxnIterator<'a>, SlateDBError>
        requires table { self.old.table ≡ db.now }
        requires valid { IsValid laws.now.options }
        requires meaning { let reach = ⟦<EnvOf<S, M, T> as Outside>⟧.reach in (reach env.old).meaning ≡ P.meaning }
        requires laws { AreGiven P.options P.segments P.policies laws.now.options (segments_by X.lengths laws.now.segments) (map (λ p. (⟦<dyn FilterPolicy as FilterPolicy>⟧ p.vtable).meaning p.value) laws.now.policies.items) }
        ensures opened { let reach = ⟦<EnvOf<S, M, T> as Outside>⟧.reach in
            (r : BytesRange) → prefix_subrange [] (B.start range.now) (B.end range.now) ≡ Some r →
            IsScanOpened P.options P.meaning P.policies (scan_query r None None) r IterationOrder.Ascending self.old self.new (reach env.old) (reach env.new) (env.new ≡ env.old) result }
        ensures invalid { prefix_subrange [] (B.start range.now) (B.end range.now) ≡ None → ((result ≡ Err SlateDBError.InvalidRange) ⊎ (result ≡ Err SlateDBError.OutOfMemory)) × (self.new ≡ self.old) × (env.new ≡ env.old) }
    {
        let options = ScanOptions {
            order: IterationOrder::Ascending,
            filter_context: None,
        };
        self.scan_with_options(rt, db, range, &options, env, laws)
    }

    /// As `scan_with_options`, of the keys that are a prefix and then a key between the bounds. The filters of tables are asked for the
    /// prefix, unless it ends with byte 255.
    pub fn scan_prefix_with_options<
        'a,
        B: ByteRangeBounds,
        R: Wait,
        S: Store,
        M: MergeOperator,
        T: BlockTransformer,
        X: PrefixExtractor,
    >(
        &mut self,
        rt: &R,
        db: &Database<P>,
        prefix: &[u8],
        range: &B,
        options: &ScanOptions,
        env: &mut Env<'_, S, M, T>,
        laws: &'a Laws<X>,
    ) -> Result<TxnIterator<'a>, SlateDBError>
        requires table { self.old.table ≡ db.now }
        requires valid { IsValid laws.now.options }
        requires meaning { let reach = ⟦<EnvOf<S, M, T> as Outside>⟧.reach in (reach env.old).meaning ≡ P.meaning }
        requires laws { AreGiven P.options P.segments P.policies laws.now.options (segments_by X.lengths laws.now.segments) (map (λ p. (⟦<dyn FilterPolicy as FilterPolicy>⟧ p.vtable).meaning p.value) laws.now.policies.items) }
        ensures opened { let reach = ⟦<EnvOf<S, M, T> as Outside>⟧.reach in
            (r : BytesRange) → prefix_subrange prefix.now (B.start range.now) (B.end range.now) ≡ Some r →
            IsScanOpened P.options P.meaning P.policies (scan_query r (asked_prefix prefix.now) options.now.filter_context) r options.now.order self.old self.new (reach env.old) (reach env.new) (env.new ≡ env.old) result }
        ensures invalid { prefix_subrange prefix.now (B.start range.now) (B.end range.now) ≡ None → ((result ≡ Err SlateDBError.InvalidRange) ⊎ (result ≡ Err SlateDBError.OutOfMemory)) × (self.new ≡ self.old) × (env.new ≡ env.old) }
    {
        let range = BytesRange::from_prefix_and_subrange(self.alloc, prefix, range)?;
        let asked = asked(self.alloc, prefix)?;
        self.scan_over(rt, db, range, asked, options, env, laws)
    }

    /// As `scan_prefix_with_options`, upwards, and without a context for filters.
    pub fn scan_prefix<
        'a,
        B: ByteRangeBounds,
        R: Wait,
        S: Store,
        M: MergeOperator,
        T: BlockTransformer,
        X: PrefixExtractor,
    >(
        &mut self,
        rt: &R,
        db: &Database<P>,
        prefix: &[u8],
        range: &B,
        env: &mut Env<'_, S, M, T>,
        laws: &'a Laws<X>,
    ) -> Result<TxnIterator<'a>, SlateDBError>
        requires table { self.old.table ≡ db.now }
        requires valid { IsValid laws.now.options }
        requires meaning { let reach = ⟦<EnvOf<S, M, T> as Outside>⟧.reach in (reach env.old).meaning ≡ P.meaning }
        requires laws { AreGiven P.options P.segments P.policies laws.now.options (segments_by X.lengths laws.now.segments) (map (λ p. (⟦<dyn FilterPolicy as FilterPolicy>⟧ p.vtable).meaning p.value) laws.now.policies.items) }
        ensures opened { let reach = ⟦<EnvOf<S, M, T> as Outside>⟧.reach in
            (r : BytesRange) → prefix_subrange prefix.now (B.start range.now) (B.end range.now) ≡ Some r →
            IsScanOpened P.options P.meaning P.policies (scan_query r (asked_prefix prefix.now) None) r IterationOrder.Ascending self.old self.new (reach env.old) (reach env.new) (env.new ≡ env.old) result }
        ensures invalid { prefix_subrange prefix.now (B.start range.now) (B.end range.now) ≡ None → ((result ≡ Err SlateDBError.InvalidRange) ⊎ (result ≡ Err SlateDBError.OutOfMemory)) × (self.new ≡ self.old) × (env.new ≡ env.old) }
    {
        let options = ScanOptions {
            order: IterationOrder::Ascending,
            filter_context: None,
        };
        self.scan_prefix_with_options(rt, db, prefix, range, &options, env, laws)
    }

    /// The next row of a scan of the transaction, or `None` at its end, which is noted in the transcript. It is the first of those that
    /// are left of the list that was fixed at the opening. It takes no lock. Refuses as `DbIterator::next` does, and then nothing is
    /// noted, and the iterator answers the refusal again.
    pub fn next<S: Store, M: MergeOperator, T: BlockTransformer>(
        &mut self,
        it: &mut TxnIterator<'_>,
        env: &mut Env<'_, S, M, T>,
    ) -> Result<Option<KeyValue>, SlateDBError>
        requires { (id_of it.old ≡ self.old.id) × (number_of it.old < count_by is_scan self.old.tx.transcript) }
        ensures noted { IfOk result (λ a. self.new ≡ record self.old { tx = noted_next (number_of it.old) a self.old.tx }) }
        ensures step { let reach = ⟦<EnvOf<S, M, T> as Outside>⟧.reach in IsNext (reach env.old) (reach env.new) (env.new ≡ env.old) it.old it.new result }
        ensures left { (rows : List RowEntry) → IsLeftOf P.options P.meaning self.old it.old rows → OnOk result (IsLeftOf P.options P.meaning self.new it.new (drop 1 rows)) }
        ensures vouched { let reach = ⟦<EnvOf<S, M, T> as Outside>⟧.reach in
            let rules = rules_of (settings_of P.options) P.meaning in
            (w : World) (rows : List RowEntry) → Leaves (scan_of it.old) w rows → Sees w (reach env.old) (reach env.new) → IsLeftOf P.options P.meaning self.old it.old rows →
            IsVouched rules (replay self.old.seen).commits self.old.tx → IsVouched rules (replay self.old.seen).commits self.new.tx }
        ensures same { OnErr result (self.new ≡ self.old) }
    {
        it.next_noted(self.alloc, &mut self.own, env)
    }

    /// Drops the leading rows of a scan of the transaction that its order puts before the key, which is noted in the transcript. It takes
    /// no lock. Refuses as `DbIterator::seek` does, and then nothing is noted, and the iterator answers the refusal again.
    pub fn seek<S: Store, M: MergeOperator, T: BlockTransformer>(
        &mut self,
        it: &mut TxnIterator<'_>,
        key: &[u8],
        env: &mut Env<'_, S, M, T>,
    ) -> Result<(), SlateDBError>
        requires { (id_of it.old ≡ self.old.id) × (number_of it.old < count_by is_scan self.old.tx.transcript) }
        ensures noted { OnOk result (self.new ≡ record self.old { tx = sought_to (number_of it.old) key.now self.old.tx }) }
        ensures step { let reach = ⟦<EnvOf<S, M, T> as Outside>⟧.reach in IsSeek key.now (reach env.old) (reach env.new) (env.new ≡ env.old) it.old it.new result }
        ensures left { (rows : List RowEntry) → IsLeftOf P.options P.meaning self.old it.old rows → OnOk result (IsLeftOf P.options P.meaning self.new it.new (drop_before (scan_of it.old).order key.now rows)) }
        ensures vouched { let rules = rules_of (settings_of P.options) P.meaning in IsVouched rules (replay self.old.seen).commits self.old.tx → IsVouched rules (replay self.old.seen).commits self.new.tx }
        ensures same { OnErr result (self.new ≡ self.old) }
    {
        it.seek_noted(self.alloc, &mut self.own, key, env)
    }
}

/// The prefix that filters are asked for, by which each key of its ranges begins. One that ends with byte 255 isn't asked for: where
/// its range ends tells that of lists of bytes alone.
fn asked(alloc: Global, prefix: &[u8]) -> Result<Option<Bytes>, SlateDBError>
    ensures prefix { IfOk result (λ p. p ≡ asked_prefix prefix.now) }
    ensures cause { IsOkUnless result SlateDBError.OutOfMemory }
{
    match prefix.last() {
        Some(&u8::MAX) => Ok(None),
        _ => Ok(Some(Bytes::copy_from_slice(alloc, prefix)?)),
    }
}
