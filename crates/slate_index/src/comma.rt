//! Fields between commas.
ghost use Rattle.std.specs.Prelude.{◌≡◌, ◌<◌, length, IfOk, IfSome};
ghost use Rattle.std.specs.List.{position};
ghost use Rattle.slate_index.specs.Parts.{behind_comma, first_part, is_comma};

use crate::fields::Fields;
use bytes::Bytes;
use slate_types::SlateDBError;
use std::alloc::AllocError;

/// Two indexes: the first part of the value between commas, and the second. A value without a comma is its own first part.
#[derive(Clone, Copy)]
pub struct Comma;

impl Fields for Comma {
    ghost use Rattle.std.proofs.Common.{arith};
    ghost use Rattle.slate_index.specs.Parts.{comma_fields};

    ghost model = { λ _. comma_fields };

    ghost few = { λ _. Prim.omega arith };

    fn count(&self) -> u8 {
        2
    }

    fn field(&self, number: u8, value: &Bytes) -> Result<Option<Bytes>, SlateDBError> {
        match number {
            0 => Ok(Some(first_part(value)?)),
            1 => match behind_comma(value)? {
                Some(rest) => Ok(Some(first_part(&rest)?)),
                None => Ok(None),
            },
            _ => Ok(None),
        }
    }
}

/// The value up to its first comma.
fn first_part(value: &Bytes) -> Result<Bytes, AllocError>
    ensures { IfOk result (λ part. part ≡ first_part value.now) }
{
    match first_comma(value) {
        Some(at) => value.slice(..at),
        None => value.clone(),
    }
}

/// What stands behind the first comma.
fn behind_comma(value: &Bytes) -> Result<Option<Bytes>, AllocError>
    ensures { IfOk result (λ rest. rest ≡ behind_comma value.now) }
{
    match first_comma(value) {
        Some(at) => {
            let from_comma = value.slice(at..)?;
            Ok(Some(from_comma.slice(1..)?))
        }
        None => Ok(None),
    }
}

/// Where the first comma stands.
fn first_comma(value: &Bytes) -> Option<usize>
    ensures first { result ≡ position is_comma value.now }
    ensures within { IfSome result (λ at. at < length value.now) }
{
    value.as_slice().iter().position(|byte| *byte == b',')
}
