//! Where records and entries stand.
ghost use Rattle.std.specs.Prelude.{◌≡◌, ◌∷◌, ◌++◌, [], flat_map, IfOk, IsOkUnless, OnOk};
ghost use Rattle.std.specs.List.{cons_option};
ghost use Rattle.slate_types.specs.declared.error.SlateDBError.{SlateDBError};
ghost use Rattle.slate_index.specs.Entries.{entry_key, entry_prefix, escaped_byte, record_key};
ghost use Rattle.slate_index.specs.Finds.{name_behind, names_behind};

use crate::name::Name;
use bytes::Bytes;
use slate_types::SlateDBError;
use std::alloc::{AllocError, Global};

/// Where the record of an id stands.
pub fn record_key(alloc: Global, id: &Name) -> Result<Bytes, AllocError>
    ensures { IfOk result (λ key. key ≡ record_key id.now) }
{
    let mut key = Vec::new(alloc);
    key.extend_from_slice(b"r:")?;
    key.extend_from_slice(id.as_slice())?;
    Bytes::from_vec(key).map_err(AllocError::from)
}

/// Where the entry of a record stands that has this field, in the index of this number.
pub fn entry_key(alloc: Global, number: u8, field: &[u8], id: &Name) -> Result<Bytes, AllocError>
    ensures { IfOk result (λ key. key ≡ entry_key number field.now id.now) }
{
    let mut key = Vec::new(alloc);
    key.push(b'x')?;
    key.push(number)?;
    push_escaped(&mut key, field)?;
    push_end(&mut key, id)?;
    Bytes::from_vec(key).map_err(AllocError::from)
}

/// What the keys of all entries with this field begin with, in the index of this number.
pub fn entry_prefix(alloc: Global, number: u8, field: &[u8]) -> Result<Bytes, AllocError>
    ensures { IfOk result (λ key. key ≡ entry_prefix number field.now) }
{
    let mut key = Vec::new(alloc);
    key.push(b'x')?;
    key.push(number)?;
    push_escaped(&mut key, field)?;
    key.push(0)?;
    key.push(1)?;
    Bytes::from_vec(key).map_err(AllocError::from)
}

/// Appends the field with each byte 0 followed by 255, so that its end can be told.
fn push_escaped(key: &mut Vec<u8>, field: &[u8]) -> Result<(), AllocError>
    ensures { OnOk result (key.new.items ≡ key.old.items ++ flat_map escaped_byte field.now) }
{
    for byte in field {
        push_byte(key, *byte)?;
    }
    Ok(())
}

/// Appends a byte of a field, and 255 behind a 0.
fn push_byte(key: &mut Vec<u8>, byte: u8) -> Result<(), AllocError>
    ensures { OnOk result (key.new.items ≡ key.old.items ++ escaped_byte byte) }
{
    if byte == 0 {
        key.extend_from_slice(&[0, 255])
    } else {
        key.push(byte).map_err(AllocError::from)
    }
}

/// Appends the end of a field, 0 and 1, and the id.
fn push_end(key: &mut Vec<u8>, id: &Name) -> Result<(), AllocError>
    ensures { OnOk result (key.new.items ≡ key.old.items ++ (0 ∷ 1 ∷ id.now)) }
{
    key.extend_from_slice(&[0, 1])?;
    key.extend_from_slice(id.as_slice())
}

/// The ids behind the prefix in keys, where they are names.
pub(crate) fn names_behind(
    alloc: Global,
    prefix: &[u8],
    keys: Vec<Bytes>,
) -> Result<Vec<Name>, SlateDBError>
    ensures names { IfOk result (λ ids. ids.items ≡ names_behind prefix.now keys.items) }
    ensures memory { IsOkUnless result SlateDBError.OutOfMemory }
{
    let ids = push_names(alloc, prefix, keys.as_slice());
    drop(keys);
    match ids {
        Ok(ids) => Ok(ids),
        Err(error) => Err(SlateDBError::from(error)),
    }
}

fn push_names(alloc: Global, prefix: &[u8], keys: &[Bytes]) -> Result<Vec<Name>, AllocError>
    ensures names { IfOk result (λ ids. ids.items ≡ names_behind prefix.now keys.now) }
{
    let mut ids = Vec::new(alloc);
    for key in keys {
        let id = name_behind(alloc, prefix, key)?;
        push_name(&mut ids, id)?;
    }
    Ok(ids)
}

/// Appends the id, where there is one.
fn push_name(ids: &mut Vec<Name>, id: Option<Name>) -> Result<(), AllocError>
    ensures { OnOk result (ids.new.items ≡ ids.old.items ++ cons_option id []) }
{
    match id {
        Some(id) => ids.push(id).map_err(AllocError::from),
        None => Ok(()),
    }
}

/// The id behind the prefix in a key, where it is a name.
fn name_behind(alloc: Global, prefix: &[u8], key: &Bytes) -> Result<Option<Name>, AllocError>
    ensures name { IfOk result (λ id. id ≡ name_behind prefix.now key.now) }
{
    match key.as_slice().strip_prefix(prefix) {
        Some(id) => Ok(Name::new(Bytes::copy_from_slice(alloc, id)?)),
        None => Ok(None),
    }
}
