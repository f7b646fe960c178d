//! The tests of one key of a batch, which is to become a commit.
ghost use Rattle.std.specs.Prelude.{◌≡◌, ◌⊎◌, ◌≤◌, ◌∷◌, [], None, Some, length, map, reverse, option_map, option_copied, IfOk, IfErr, OnOk, IsOkUnless};
ghost use Rattle.std.specs.Option.{ForSome};
ghost use Rattle.slate_types.specs.declared.error.SlateDBError.{SlateDBError};
ghost use Rattle.slate_types.specs.declared.filter_policy.PrefixTarget.TheVariants.{Point};
ghost use Rattle.slate_mem.specs.KeyTests.{first_other, point_lengths, prefix_by, prefix_of_len, segment_refusal, ttl_refusal};
ghost use Rattle.slate_mem.specs.Refusals.{first_refusal};
ghost use Rattle.slate_mem.specs.RowOf.{op_expiry};
ghost use Rattle.slate_mem.specs.Segments.{row_prefixes, row_refusals};

use crate::WriteOp;
use crate::batch::add_prefix;
use bytes::Bytes;
use slate_types::{PrefixExtractor, PrefixTarget, RowEntry, SlateDBError};
use std::alloc::{AllocError, Global};
use std::collections::BTreeSet;

/// The key's segment prefix, where there is an extractor. `EmptySegmentPrefix` where it gives none, or an empty one; then
/// `IncompatibleMergeTtls` where the key's operations, oldest first, differ in expiry; and `OutOfMemory`.
pub(crate) fn tested_prefix<X: PrefixExtractor>(
    key: &Bytes,
    ops: &[WriteOp],
    default_ttl_millis: Option<u64>,
    now: i64,
    extractor: Option<&X>,
) -> Result<Option<Bytes>, SlateDBError>
    ensures prefix { IfOk result (λ prefix. prefix ≡ prefix_by (point_lengths (option_map X.lengths (option_copied extractor.entry))) key.now) }
    ensures fine { OnOk result (first_refusal (segment_refusal (point_lengths (option_map X.lengths (option_copied extractor.entry))) key.now ∷ ttl_refusal key.now (reverse (map (op_expiry default_ttl_millis now) ops.now)) ∷ []) ≡ None) }
    ensures cause { IfErr result (λ e. (e ≡ SlateDBError.OutOfMemory) ⊎ (first_refusal (segment_refusal (point_lengths (option_map X.lengths (option_copied extractor.entry))) key.now ∷ ttl_refusal key.now (reverse (map (op_expiry default_ttl_millis now) ops.now)) ∷ []) ≡ Some e)) }
{
    let prefix = segment_prefix(key, extractor)?;
    match test_expiries(key, ops, default_ttl_millis, now) {
        Ok(()) => Ok(prefix),
        Err(refusal) => {
            drop(prefix);
            Err(refusal)
        }
    }
}

/// The key's segment prefix, where there is an extractor.
fn segment_prefix<X: PrefixExtractor>(
    key: &Bytes,
    extractor: Option<&X>,
) -> Result<Option<Bytes>, SlateDBError>
    ensures prefix { IfOk result (λ prefix. prefix ≡ prefix_by (point_lengths (option_map X.lengths (option_copied extractor.entry))) key.now) }
    ensures fine { OnOk result (segment_refusal (point_lengths (option_map X.lengths (option_copied extractor.entry))) key.now ≡ None) }
    ensures cause { IfErr result (λ e. (e ≡ SlateDBError.OutOfMemory) ⊎ (segment_refusal (point_lengths (option_map X.lengths (option_copied extractor.entry))) key.now ≡ Some e)) }
{
    let Some(extractor) = extractor else {
        return Ok(None);
    };
    let len = prefix_len(key, extractor)?;
    match front(key, len)? {
        Some(prefix) => Ok(Some(prefix)),
        None => Err(SlateDBError::EmptySegmentPrefix { key: key.clone()? }),
    }
}

/// The segment prefixes of the keys of rows, where there is an extractor. `EmptySegmentPrefix` where it gives one of them none, or
/// an empty one, with the first such key; else `OutOfMemory`.
pub(crate) fn prefixes_of<X: PrefixExtractor>(
    alloc: Global,
    rows: &[RowEntry],
    extractor: Option<&X>,
) -> Result<BTreeSet<Bytes>, SlateDBError>
    ensures prefixes { IfOk result (λ all. all.keys ≡ row_prefixes (point_lengths (option_map X.lengths (option_copied extractor.entry))) rows.now) }
    ensures fine { OnOk result (first_refusal (row_refusals (point_lengths (option_map X.lengths (option_copied extractor.entry))) rows.now) ≡ None) }
    ensures cause { IfErr result (λ e. (e ≡ SlateDBError.OutOfMemory) ⊎ (first_refusal (row_refusals (point_lengths (option_map X.lengths (option_copied extractor.entry))) rows.now) ≡ Some e)) }
{
    let mut prefixes = BTreeSet::new(alloc);
    for row in rows {
        let prefix = segment_prefix(&row.key, extractor)?;
        add_prefix(&mut prefixes, prefix)?;
    }
    Ok(prefixes)
}

/// The length of the prefix that an extractor gives the key.
fn prefix_len<X: PrefixExtractor>(key: &Bytes, extractor: &X) -> Result<Option<usize>, AllocError>
    ensures len { IfOk result (λ len. len ≡ X.lengths extractor.now (Point key.now)) }
    ensures within { IfOk result (λ len. ForSome len (λ n. n ≤ length key.now)) }
{
    let target = PrefixTarget::Point(key.clone()?);
    let len = extractor.prefix_len(&target);
    drop(target);
    Ok(len)
}

/// So many first bytes of the key, where there are some.
fn front(key: &Bytes, len: Option<usize>) -> Result<Option<Bytes>, AllocError>
    requires { ForSome len (λ n. n ≤ length key.now) }
    ensures { IfOk result (λ front. front ≡ prefix_of_len key.now len) }
{
    match len {
        None | Some(0) => Ok(None),
        Some(len) => Ok(Some(key.slice(..len)?)),
    }
}

/// `IncompatibleMergeTtls` where the operations of a key, oldest first, differ in expiry: the newest one's, and the first
/// differing older one's.
fn test_expiries(
    key: &Bytes,
    ops: &[WriteOp],
    default_ttl_millis: Option<u64>,
    now: i64,
) -> Result<(), SlateDBError>
    ensures fine { OnOk result (ttl_refusal key.now (reverse (map (op_expiry default_ttl_millis now) ops.now)) ≡ None) }
    ensures cause { IfErr result (λ e. (e ≡ SlateDBError.OutOfMemory) ⊎ (ttl_refusal key.now (reverse (map (op_expiry default_ttl_millis now) ops.now)) ≡ Some e)) }
{
    let Some(newest) = ops.last() else {
        return Ok(());
    };
    let previous_expire_ts = expiry_of(newest, default_ttl_millis, now);
    match first_other(ops, previous_expire_ts, default_ttl_millis, now) {
        Some(current_expire_ts) => Err(SlateDBError::IncompatibleMergeTtls {
            key: key.clone()?,
            previous_expire_ts,
            current_expire_ts,
        }),
        None => Ok(()),
    }
}

/// The expiry of the newest operation that has another one.
fn first_other(
    ops: &[WriteOp],
    expiry: Option<i64>,
    default_ttl_millis: Option<u64>,
    now: i64,
) -> Option<Option<i64>>
    ensures { result ≡ first_other expiry (reverse (map (op_expiry default_ttl_millis now) ops.now)) }
{
    for op in ops.iter().rev() {
        let other = expiry_of(op, default_ttl_millis, now);
        if other != expiry {
            return Some(other);
        }
    }
    None
}

/// When the row of an operation expires.
fn expiry_of(op: &WriteOp, default_ttl_millis: Option<u64>, now: i64) -> Option<i64>
    ensures { result ≡ op_expiry default_ttl_millis now op.now }
{
    match op {
        WriteOp::Put(_, options) => options.expire_ts_from(default_ttl_millis, now),
        WriteOp::Delete => None,
        WriteOp::Merge(_, options) => options.expire_ts_from(default_ttl_millis, now),
    }
}
