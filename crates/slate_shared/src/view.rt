//! Views: reads of the keys in a range at a transaction's start, without the lock and without the transaction.
ghost use Rattle.std.specs.Prelude.{◌≡◌, [], List, ℕ, Err, Some, false, true, map, nat_eq, IfOk, IsOkUnless};
ghost use Rattle.std.specs.List.{starts_with};
ghost use Rattle.slate_types.specs.declared.error.SlateDBError.{SlateDBError};
ghost use Rattle.slate_types.specs.Config.{IsValid};
ghost use Rattle.slate_types.specs.Keys.{in_range, is_refused};
ghost use Rattle.slate_types.specs.Outside.{OnlyReads};
ghost use Rattle.slate_table.specs.Filtered.{point_query};
ghost use Rattle.slate_txn.specs.declared.event.Event.{Event};
ghost use Rattle.slate_db.specs.Meaning.{segments_by};
ghost use Rattle.slate_db.specs.Model.{CoreModel};
ghost use Rattle.slate_db.specs.OpenScans.{HasRows};
ghost use Rattle.slate_db.specs.RangeShares.{IsPart};
ghost use Rattle.slate_db.specs.ScanFilters.{scan_query};
ghost use Rattle.slate_db.specs.Scanned.{HasOwn};
ghost use Rattle.slate_db.specs.Shown.{Asking};
ghost use Rattle.slate_shared.specs.Given.{AreGiven};
ghost use Rattle.slate_shared.specs.Passes.{Opened};
ghost use Rattle.slate_shared.specs.Viewed.{IsViewGet, IsViewScan, IsViewed};

use crate::parts::Parts;
use bytes::Bytes;
use slate_db::laws::Laws;
use slate_db::lookup::query_of;
use slate_db::open_scan::table_options;
use slate_db::range_share::RangeShare;
use slate_db::scan::DbIterator;
use slate_filter::FilterPolicy;
use slate_mem::fold::answer;
use slate_mem::{WriteBatch, WriteBatchIterator};
use slate_store::{Env, EnvOf, Store};
use slate_types::{
    BlockTransformer, BytesRange, IterationOrder, KeyValue, MergeOperator, Outside,
    PrefixExtractor, ReadOptions, ScanOptions, SlateDBError,
};
use std::alloc::Global;
use std::marker::{Model, PhantomData};

/// What the keys in a range were at a transaction's start, without its own operations. It is read without a lock, as long as one
/// likes, also when the transaction has ended.
#[derive(Drop)]
pub struct View<P: Parts> {
    alloc: Global,
    share: RangeShare,
    begin: u64,
    range: BytesRange,
    parts: PhantomData<P>,
}

impl<P: Parts> Model for View<P> {
    ghost use Rattle.slate_shared.specs.Viewed.{ViewModel};

    ghost Value = { ViewModel };

    ghost view = { λ v. record { share = v.share; begin = v.begin; range = v.range } };
}

impl<P: Parts> View<P> {
    pub(crate) fn new(alloc: Global, share: RangeShare, begin: u64, range: BytesRange) -> View<P>
        ensures { result ≡ record { share = share; begin = begin; range = range } }
    {
        View {
            alloc,
            share,
            begin,
            range,
            parts: PhantomData,
        }
    }

    /// What is seen at a key of the range, and `None` where that is nothing. It takes no lock, and nothing is recorded.
    ///
    /// Refuses as `Core::get` does.
    pub fn get<S: Store, M: MergeOperator, T: BlockTransformer, X: PrefixExtractor>(
        &self,
        key: &[u8],
        options: &ReadOptions,
        env: &mut Env<'_, S, M, T>,
        laws: &Laws<X>,
    ) -> Result<Option<KeyValue>, SlateDBError>
        requires within { in_range self.now.range key.now ≡ true }
        requires meaning { let reach = ⟦<EnvOf<S, M, T> as Outside>⟧.reach in (reach env.old).meaning ≡ P.meaning }
        requires laws { AreGiven P.options P.segments P.policies laws.now.options (segments_by X.lengths laws.now.segments) (map (λ p. (⟦<dyn FilterPolicy as FilterPolicy>⟧ p.vtable).meaning p.value) laws.now.policies.items) }
        ensures { let reach = ⟦<EnvOf<S, M, T> as Outside>⟧.reach in
            let by : Asking = record { policies = P.policies; query = point_query key.now options.now.filter_context } in
            (t : Opened) (seen : List Event) (c : CoreModel) → IsViewed P.options P.meaning t seen c self.now → IsViewGet P.options P.meaning by key.now t seen c (reach env.old) (reach env.new) result }
    {
        let key = Bytes::copy_from_slice(self.alloc, key)?;
        let query = query_of(&key, &options.filter_context)?;
        let policies = laws.policies.as_slice();
        let row = self
            .share
            .seen(self.alloc, &key, self.begin, policies, &query, env)?;
        Ok(answer(row))
    }

    /// Opens a scan over the rows in a part of the range, in an order. Where a prefix is given each key of that part must begin with it.
    /// It takes no lock, and nothing is recorded. The iterator borrows the laws alone.
    ///
    /// Refuses by `InvalidRange` exactly where the bounds make no range, and then nothing is reached; else as `Core::scan` does. Calls on
    /// the iterator refuse as they do for `Core::scan`.
    pub fn scan<'a, S: Store, M: MergeOperator, T: BlockTransformer, X: PrefixExtractor>(
        &self,
        range: BytesRange,
        prefix: Option<Bytes>,
        options: &ScanOptions,
        env: &mut Env<'_, S, M, T>,
        laws: &'a Laws<X>,
    ) -> Result<DbIterator<'a>, SlateDBError>
        requires part { IsPart range self.now.range }
        requires prefix { (p k : List ℕ) → prefix ≡ Some p → in_range range k ≡ true → starts_with nat_eq k p ≡ true }
        requires valid { IsValid laws.now.options }
        requires meaning { let reach = ⟦<EnvOf<S, M, T> as Outside>⟧.reach in (reach env.old).meaning ≡ P.meaning }
        requires laws { AreGiven P.options P.segments P.policies laws.now.options (segments_by X.lengths laws.now.segments) (map (λ p. (⟦<dyn FilterPolicy as FilterPolicy>⟧ p.vtable).meaning p.value) laws.now.policies.items) }
        ensures opened { let reach = ⟦<EnvOf<S, M, T> as Outside>⟧.reach in
            is_refused range.start range.end ≡ false → (t : Opened) (seen : List Event) (c : CoreModel) → IsViewed P.options P.meaning t seen c self.now →
            IsViewScan P.options P.meaning P.policies (scan_query range prefix options.now.filter_context) t seen c range options.now.order (reach env.old) (reach env.new) result }
        ensures invalid { is_refused range.start range.end ≡ true → (result ≡ Err SlateDBError.InvalidRange) × (env.new ≡ env.old) }
        ensures range { IfOk result (λ it. (it.range ≡ range) × (it.order ≡ options.now.order)) }
        ensures reads { let reach = ⟦<EnvOf<S, M, T> as Outside>⟧.reach in OnlyReads (reach env.old) (reach env.new) }
    {
        if range.leaves_none() {
            return Err(SlateDBError::InvalidRange);
        }
        let how = table_options(prefix, options, &laws.options)?;
        let own = no_operations(self.alloc, &range, options.order)?;
        self.share.opened(
            self.alloc,
            own,
            range,
            self.begin,
            how,
            laws.policies.as_slice(),
            env,
        )
    }
}

/// The rows of no operations.
fn no_operations(
    alloc: Global,
    range: &BytesRange,
    order: IterationOrder,
) -> Result<WriteBatchIterator, SlateDBError>
    ensures none { IfOk result (λ it. HasRows order (HasOwn range.now []) it) }
    ensures cause { IsOkUnless result SlateDBError.OutOfMemory }
{
    let batch = WriteBatch::new(alloc);
    let rows = WriteBatchIterator::new(alloc, &batch, range, order, u64::MAX, None, None);
    drop(batch);
    rows
}
