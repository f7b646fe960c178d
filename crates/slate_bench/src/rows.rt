//! The rows that are worked on.
use bytes::Bytes;
use slate_types::{RowEntry, ValueDeletable};
use std::alloc::{AllocError, Global};

/// How many rows there are.
pub const ROWS: u32 = 200_000;

/// How many bytes each value has.
const VALUE_LEN: usize = 100;

/// The key of a row: its number in eight digits, in a longer text.
fn key_of(number: u32) -> [u8; 24] {
    let mut key = *b"account/00000000/balance";
    let mut rest = number;
    for place in 0..8 {
        key[15 - place] = b'0' + (rest % 10) as u8;
        rest /= 10;
    }
    key
}

fn row_of(alloc: Global, number: u32) -> Result<RowEntry, AllocError> {
    let value = Bytes::copy_from_slice(alloc, &[(number % 251) as u8; VALUE_LEN])?;
    match Bytes::copy_from_slice(alloc, &key_of(number)) {
        Ok(key) => Ok(RowEntry {
            key,
            value: ValueDeletable::Value(value),
            seq: u64::from(number) + 1,
            create_ts: Some(i64::from(number)),
            expire_ts: None,
        }),
        Err(error) => {
            drop(value);
            Err(error)
        }
    }
}

/// Puts in the order of their keys.
pub fn make_rows(alloc: Global) -> Result<Vec<RowEntry>, AllocError> {
    let mut rows = Vec::with_capacity(alloc, ROWS as usize)?;
    for number in 0..ROWS {
        rows.push(row_of(alloc, number)?)?;
    }
    Ok(rows)
}
