//! Reads of the keys in a range over what was taken of layers, which change meanwhile.
ghost use Rattle.std.specs.Prelude.{◌≡◌, [], ℕ, List, IfOk, IsOkUnless, Some, false, map, nat_eq, true};
ghost use Rattle.std.specs.List.{starts_with};
ghost use Rattle.slate_types.specs.declared.bytes_range.BytesRange.{BytesRange};
ghost use Rattle.slate_types.specs.declared.error.SlateDBError.{SlateDBError};
ghost use Rattle.slate_types.specs.declared.filter_policy.PrefixTarget.{PrefixTarget};
ghost use Rattle.slate_types.specs.Keys.{in_range, is_refused};
ghost use Rattle.slate_types.specs.Outside.{IsStill, OnlyReads};
ghost use Rattle.slate_mem.specs.Lookup.{newest_first};
ghost use Rattle.slate_mem.specs.Table.{newest};
ghost use Rattle.slate_read.specs.SstOptions.{CanFetch};
ghost use Rattle.slate_txn.specs.Step.{Reader};
ghost use Rattle.slate_db.specs.KeyShares.{IsSeen};
ghost use Rattle.slate_db.specs.Model.{CoreModel};
ghost use Rattle.slate_db.specs.RangeShares.{HasUpto, IsOpened, IsPart, IsRangeShare, IsReaderOf};
ghost use Rattle.slate_db.specs.ScanFilters.{scan_query};
ghost use Rattle.slate_db.specs.Shown.{Asking};

use crate::key_share::seen_behind;
use crate::open_scan::opened_over;
use crate::run_list::SharedRuns;
use crate::scan::DbIterator;
use bytes::Bytes;
use slate_filter::FilterPolicy;
use slate_mem::lookup::newest_of_memory;
use slate_mem::{ImmutableMemtable, MemTable, WriteBatchIterator};
use slate_read::SstIteratorOptions;
use slate_store::{Env, EnvOf, Store};
use slate_types::{
    BlockTransformer, BytesRange, FilterQuery, MergeOperator, Outside, RowEntry, SlateDBError,
};
use std::alloc::Global;
use std::marker::Model;

/// What reads of the keys in a range at a sequence take of layers: a copy of the range's rows up to there that weren't frozen, the
/// tables that were, and a copy of what is kept of the runs, which readers share.
#[derive(Drop)]
pub struct RangeShare {
    active: MemTable,
    /// The rows that waited for a flush, the newest last.
    frozen: Vec<ImmutableMemtable>,
    runs: SharedRuns,
}

impl Model for RangeShare {
    ghost use Rattle.std.specs.Prelude.{map};
    ghost use Rattle.slate_db.specs.RangeShares.{RangeShareModel};

    ghost Value = { RangeShareModel };

    ghost view = { λ s. record { active = s.active.rows; frozen = map (λ t. t.rows) s.frozen.items; runs = s.runs } };
}

impl RangeShare {
    pub(crate) fn new(
        active: MemTable,
        frozen: Vec<ImmutableMemtable>,
        runs: SharedRuns,
    ) -> RangeShare
        ensures { result ≡ record { active = active.rows; frozen = map (λ t. t.rows) frozen.items; runs = runs } }
    {
        RangeShare {
            active,
            frozen,
            runs,
        }
    }

    /// The row that is seen of a key in the range at the sequence: over each core of which this was taken, as it was then.
    pub fn seen<S: Store, M: MergeOperator, T: BlockTransformer>(
        &self,
        alloc: Global,
        key: &Bytes,
        at: u64,
        policies: &[Box<dyn FilterPolicy>],
        query: &FilterQuery,
        env: &mut Env<'_, S, M, T>,
    ) -> Result<Option<RowEntry>, SlateDBError>
        requires { query.now.target ≡ PrefixTarget.Point key.now }
        ensures { let reach = ⟦<EnvOf<S, M, T> as Outside>⟧.reach in
            let by : Asking = record { policies = map (λ p. meaning p) policies.now; query = query.now } in
            (c : CoreModel) (wide : BytesRange) → IsRangeShare c wide at self.now → in_range wide key.now ≡ true → IsSeen by (reach env.old) (reach env.new) c key.now at [] result }
    {
        let (active, frozen) = (&self.active, self.frozen.as_slice());
        let near = newest_of_memory(alloc, active, frozen, key, at)?;
        let runs = self.runs.as_slice();
        seen_behind(alloc, near, runs, key, at, policies, query, env)
    }

    /// Opens a scan of the rows in a part of the range up to the sequence, under rows of own operations: over each core of which this
    /// was taken, as it was then.
    pub fn opened<'a, S: Store, M: MergeOperator, T: BlockTransformer>(
        &self,
        alloc: Global,
        own: WriteBatchIterator,
        range: BytesRange,
        at: u64,
        how: SstIteratorOptions,
        policies: &'a [Box<dyn FilterPolicy>],
        env: &mut Env<'_, S, M, T>,
    ) -> Result<DbIterator<'a>, SlateDBError>
        requires range { is_refused range.start range.end ≡ false }
        requires prefix { (p k : List ℕ) → how.prefix ≡ Some p → in_range range k ≡ true → starts_with nat_eq k p ≡ true }
        requires fetches { CanFetch how }
        ensures opened { let reach = ⟦<EnvOf<S, M, T> as Outside>⟧.reach in
            (c : CoreModel) (wide : BytesRange) (id : List ℕ) (from : Reader) → IsRangeShare c wide at self.now → IsPart range wide → IsReaderOf c id from range how.order own →
            IsOpened (map (λ p. meaning p) policies.now) (scan_query range how.prefix how.filter_context) (reach env.old) (reach env.new) c at from.ops range how.order result }
        ensures range { IfOk result (λ it. it.range ≡ range) }
        ensures order { IfOk result (λ it. it.order ≡ how.order) }
        ensures reads { let reach = ⟦<EnvOf<S, M, T> as Outside>⟧.reach in OnlyReads (reach env.old) (reach env.new) }
        ensures still { let reach = ⟦<EnvOf<S, M, T> as Outside>⟧.reach in
            IsStill (reach env.old).faults (reach env.new).faults result }
    {
        let (active, frozen) = (&self.active, self.frozen.as_slice());
        let runs = self.runs.as_slice();
        opened_over(
            alloc, own, active, frozen, runs, range, at, how, policies, env,
        )
    }
}

/// A table of the rows in a range up to a sequence, which share keys and values. The one error is `OutOfMemory`.
pub(crate) fn copy_upto(
    alloc: Global,
    table: &MemTable,
    range: &BytesRange,
    at: u64,
) -> Result<MemTable, SlateDBError>
    ensures rows { IfOk result (λ copy. HasUpto range.now at table.now.rows copy.rows) }
    ensures cause { IsOkUnless result SlateDBError.OutOfMemory }
{
    table.upto(alloc, range, at)
}
