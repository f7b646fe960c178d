//! What derived calls answer. Values are equal exactly where their fields are; rows as readers get them
//! are ordered and hashed by their fields in turn; and defaults are named. Each call here shows it of one type.
ghost use Rattle.std.specs.Prelude.{◌≡◌, ◌↔◌, IsTrue, None, fold};
ghost use Rattle.slate_types.specs.Rows.{key_value_cmp, key_value_writes};

use crate::bytes_range::BytesRange;
use crate::config::{
    BlockFormat, IsolationLevel, MergeOptions, PutOptions, ReadOptions, ScanOptions, Ttl,
};
use crate::filter_policy::PrefixTarget;
use crate::iter::IterationOrder;
use crate::types::{KeyValue, RowEntry, Ulid, ValueDeletable};
use std::cmp::Ordering;
use std::hash::{Hash, Hasher};

/// Of what rows hold.
pub(crate) fn equal_values(a: &ValueDeletable, b: &ValueDeletable) -> bool
    ensures { IsTrue result ↔ (a.now ≡ b.now) }
{
    a == b
}

/// Of rows.
pub(crate) fn equal_rows(a: &RowEntry, b: &RowEntry) -> bool
    ensures { IsTrue result ↔ (a.now ≡ b.now) }
{
    a == b
}

/// Of rows as readers get them.
pub(crate) fn equal_key_values(a: &KeyValue, b: &KeyValue) -> bool
    ensures { IsTrue result ↔ (a.now ≡ b.now) }
{
    a == b
}

/// Of what filters are asked for.
pub(crate) fn equal_targets(a: &PrefixTarget, b: &PrefixTarget) -> bool
    ensures { IsTrue result ↔ (a.now ≡ b.now) }
{
    a == b
}

/// Of ranges.
pub(crate) fn equal_ranges(a: &BytesRange, b: &BytesRange) -> bool
    ensures { IsTrue result ↔ (a.now ≡ b.now) }
{
    a == b
}

/// Of times to live.
pub(crate) fn equal_ttls(a: Ttl, b: Ttl) -> bool
    ensures { IsTrue result ↔ (a ≡ b) }
{
    a == b
}

/// Of options of puts.
pub(crate) fn equal_put_options(a: PutOptions, b: PutOptions) -> bool
    ensures { IsTrue result ↔ (a ≡ b) }
{
    a == b
}

/// Of options of merges.
pub(crate) fn equal_merge_options(a: MergeOptions, b: MergeOptions) -> bool
    ensures { IsTrue result ↔ (a ≡ b) }
{
    a == b
}

/// Of versions of blocks.
pub(crate) fn equal_formats(a: BlockFormat, b: BlockFormat) -> bool
    ensures { IsTrue result ↔ (a ≡ b) }
{
    a == b
}

/// Of isolation levels.
pub(crate) fn equal_levels(a: IsolationLevel, b: IsolationLevel) -> bool
    ensures { IsTrue result ↔ (a ≡ b) }
{
    a == b
}

/// Of ids of tables.
pub(crate) fn equal_ids(a: Ulid, b: Ulid) -> bool
    ensures { IsTrue result ↔ (a ≡ b) }
{
    a == b
}

/// Of rows as readers get them: the order.
pub(crate) fn compare_key_values(a: &KeyValue, b: &KeyValue) -> Ordering
    ensures { result ≡ key_value_cmp a.now b.now }
{
    a.cmp(b)
}

/// Of rows as readers get them: what a hasher is fed, their fields in turn.
pub(crate) fn hash_key_value<H: Hasher>(row: &KeyValue, state: &mut H)
    ensures { state.new ≡ fold H.write state.old (key_value_writes row.now) }
{
    row.hash(state);
}

/// A transaction is a snapshot unless it says otherwise.
pub(crate) fn default_level() -> IsolationLevel
    ensures { result ≡ IsolationLevel.Snapshot }
{
    IsolationLevel::default()
}

/// A put lives as long as the database says.
pub(crate) fn default_put_options() -> PutOptions
    ensures { result.ttl ≡ Ttl.Default }
{
    PutOptions::default()
}

/// So does a merge.
pub(crate) fn default_merge_options() -> MergeOptions
    ensures { result.ttl ≡ Ttl.Default }
{
    MergeOptions::default()
}

/// A get has no context.
pub(crate) fn default_read_options() -> ReadOptions
    ensures { result.filter_context ≡ None }
{
    ReadOptions::default()
}

/// A scan goes upwards and has no context.
pub(crate) fn default_scan_options() -> ScanOptions
    ensures order { result.order ≡ IterationOrder.Ascending }
    ensures context { result.filter_context ≡ None }
{
    ScanOptions::default()
}
