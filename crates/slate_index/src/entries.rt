//! The entries of records, and what a change puts and deletes.
ghost use Rattle.std.specs.Prelude.{◌≡◌, ◌⊎◌, ◌++◌, None, Some, not, filter, option_copied, IfErr, IfOk, IsOkUnless, OnOk};
ghost use Rattle.slate_types.specs.declared.error.SlateDBError.{SlateDBError};
ghost use Rattle.slate_types.specs.Keys.{among};
ghost use Rattle.slate_index.specs.declared.error.IndexError.{IndexError};
ghost use Rattle.slate_index.specs.Changes.{change_puts, deletes, entry_puts};
ghost use Rattle.slate_index.specs.Commits.{change_ops, op_of, value_of};
ghost use Rattle.slate_index.specs.Entries.{entries_if, entries_of, entry_where};
ghost use Rattle.slate_index.specs.Refusals.{delete_refusal};

use crate::error::IndexError;
use crate::fields::Fields;
use crate::keys::{entry_key, record_key};
use crate::name::Name;
use bytes::Bytes;
use slate_mem::WriteOp;
use slate_types::{KeyValue, PutOptions, SlateDBError};
use std::alloc::{AllocError, Global};

/// The longest field that gets an entry.
pub const LONGEST_FIELD: usize = 1024;

/// What a change of a record puts and deletes, from the value that stands, where one does, to another one or to none: the entries that
/// the new value hasn't go, then the record is put or deleted, and then its entries are put, both in the order of the indexes.
///
/// # Errors
///
/// `OutOfMemory`.
pub fn change_ops<F: Fields>(
    alloc: Global,
    fields: &F,
    id: &Name,
    old: Option<&Bytes>,
    new: Option<&Bytes>,
) -> Result<Vec<(Bytes, WriteOp)>, SlateDBError>
    ensures ops { IfOk result (λ ops. ops.items ≡ change_ops (change_puts (F.model fields.now) id.now (option_copied old.entry) (option_copied new.entry))) }
    ensures memory { IsOkUnless result SlateDBError.OutOfMemory }
{
    let olds = entries_if(alloc, fields, id, old)?;
    let news = entries_if(alloc, fields, id, new)?;
    let mut ops = Vec::new(alloc);
    push_deletes(&mut ops, olds, news.as_slice())?;
    let key = record_key(alloc, id)?;
    let op = op_of(new)?;
    ops.push((key, op))?;
    push_puts(&mut ops, news)?;
    Ok(ops)
}

/// What a change of a record puts and deletes, from the row that stands, and that there is one or a new value.
pub(crate) fn ops_of<F: Fields>(
    alloc: Global,
    fields: &F,
    id: &Name,
    row: &Option<KeyValue>,
    new: Option<&Bytes>,
) -> Result<Vec<(Bytes, WriteOp)>, IndexError>
    ensures ops { IfOk result (λ ops. ops.items ≡ change_ops (change_puts (F.model fields.now) id.now (value_of row.now) (option_copied new.entry))) }
    ensures passes { OnOk result (option_copied new.entry ≡ None → delete_refusal id.now (value_of row.now) ≡ None) }
    ensures cause { IfErr result (λ e. ((option_copied new.entry ≡ None) × (delete_refusal id.now (value_of row.now) ≡ Some e)) ⊎ (e ≡ IndexError.Db SlateDBError.OutOfMemory)) }
{
    let old = match row {
        Some(row) => Some(&row.value),
        None => None,
    };
    if old.is_none() && new.is_none() {
        return Err(no_record(alloc, id));
    }
    change_ops(alloc, fields, id, old, new).map_err(IndexError::Db)
}

/// That no record has the id.
fn no_record(alloc: Global, id: &Name) -> IndexError
    ensures { (result ≡ IndexError.NoRecord id.now) ⊎ (result ≡ IndexError.Db SlateDBError.OutOfMemory) }
{
    match Bytes::copy_from_slice(alloc, id.as_slice()) {
        Ok(id) => IndexError::NoRecord { id },
        Err(error) => IndexError::from(error),
    }
}

/// The put of the value, or a delete.
fn op_of(value: Option<&Bytes>) -> Result<WriteOp, AllocError>
    ensures { IfOk result (λ op. op ≡ op_of (option_copied value.entry)) }
{
    match value {
        Some(value) => Ok(WriteOp::Put(value.clone()?, PutOptions::default())),
        None => Ok(WriteOp::Delete),
    }
}

/// Appends deletes of the keys that aren't among the new ones.
fn push_deletes(
    ops: &mut Vec<(Bytes, WriteOp)>,
    olds: Vec<Bytes>,
    news: &[Bytes],
) -> Result<(), AllocError>
    ensures { OnOk result (ops.new.items ≡ ops.old.items ++ change_ops (deletes (filter (λ k. not (among k news.now)) olds.items))) }
{
    for key in olds {
        if !is_among(&key, news) {
            ops.push((key, WriteOp::Delete))?;
        }
    }
    Ok(())
}

fn is_among(key: &Bytes, keys: &[Bytes]) -> bool
    ensures { result ≡ among key.now keys.now }
{
    keys.iter().any(|other| other == key)
}

/// Appends puts of entries.
fn push_puts(ops: &mut Vec<(Bytes, WriteOp)>, keys: Vec<Bytes>) -> Result<(), AllocError>
    ensures { OnOk result (ops.new.items ≡ ops.old.items ++ change_ops (entry_puts keys.items)) }
{
    for key in keys {
        ops.push((key, WriteOp::Put(Bytes::new(), PutOptions::default())))?;
    }
    Ok(())
}

/// The entries of a record with this value, and none where there is no value.
fn entries_if<F: Fields>(
    alloc: Global,
    fields: &F,
    id: &Name,
    value: Option<&Bytes>,
) -> Result<Vec<Bytes>, SlateDBError>
    ensures keys { IfOk result (λ keys. keys.items ≡ entries_if (F.model fields.now) id.now (option_copied value.entry)) }
    ensures memory { IsOkUnless result SlateDBError.OutOfMemory }
{
    match value {
        Some(value) => entries_of(alloc, fields, id, value),
        None => Ok(Vec::new(alloc)),
    }
}

/// Where the entries of a record with this value stand, in the order of the indexes.
///
/// # Errors
///
/// `OutOfMemory`.
pub fn entries_of<F: Fields>(
    alloc: Global,
    fields: &F,
    id: &Name,
    value: &Bytes,
) -> Result<Vec<Bytes>, SlateDBError>
    ensures keys { IfOk result (λ keys. keys.items ≡ entries_of (F.model fields.now) id.now value.now) }
    ensures memory { IsOkUnless result SlateDBError.OutOfMemory }
{
    let mut keys = Vec::new(alloc);
    for number in 0..fields.count() {
        push_entry(alloc, &mut keys, fields, number, id, value)?;
    }
    Ok(keys)
}

/// Appends the entry in the index of this number, where the value has a field there of at most 1024 bytes.
fn push_entry<F: Fields>(
    alloc: Global,
    keys: &mut Vec<Bytes>,
    fields: &F,
    number: u8,
    id: &Name,
    value: &Bytes,
) -> Result<(), SlateDBError>
    ensures pushed { OnOk result (keys.new.items ≡ keys.old.items ++ entry_where number id.now ((F.model fields.now).field number value.now)) }
    ensures memory { IsOkUnless result SlateDBError.OutOfMemory }
{
    if let Some(field) = fields.field(number, value)? {
        if field.len() <= LONGEST_FIELD {
            keys.push(entry_key(alloc, number, field.as_slice(), id)?)?;
        }
    }
    Ok(())
}
