//! What a put of a record is refused for by its value.
ghost use Rattle.std.specs.Prelude.{◌≡◌, ◌⊎◌, Some, None, Err, IfErr, OnOk};
ghost use Rattle.slate_types.specs.declared.error.SlateDBError.{SlateDBError};
ghost use Rattle.slate_mem.specs.Refusals.{value_refusal};
ghost use Rattle.slate_index.specs.declared.error.IndexError.{IndexError};
ghost use Rattle.slate_index.specs.Refusals.{put_refusal, too_long, too_long_at};

use crate::entries::LONGEST_FIELD;
use crate::error::IndexError;
use crate::fields::Fields;
use bytes::Bytes;
use slate_types::SlateDBError;

/// The longest value of a record.
const LONGEST_VALUE: usize = 4294967295;

/// Tests what a put of the value is refused for by the value alone.
pub(crate) fn test_value<F: Fields>(fields: &F, value: &Bytes) -> Result<(), IndexError>
    ensures passes { OnOk result (put_refusal (F.model fields.now) value.now ≡ None) }
    ensures cause { IfErr result (λ e. (put_refusal (F.model fields.now) value.now ≡ Some e) ⊎ (e ≡ IndexError.Db SlateDBError.OutOfMemory)) }
    ensures first { (e : IndexError) → put_refusal (F.model fields.now) value.now ≡ Some e → (result ≡ Err e) ⊎ (result ≡ Err (IndexError.Db SlateDBError.OutOfMemory)) }
{
    match test_fields(fields, value) {
        Ok(()) => test_len(value),
        Err(error) => Err(error),
    }
}

/// Tests that each index has a field of at most 1024 bytes of the value, or none.
fn test_fields<F: Fields>(fields: &F, value: &Bytes) -> Result<(), IndexError>
    ensures passes { OnOk result (too_long (F.model fields.now) value.now ≡ None) }
    ensures cause { IfErr result (λ e. (too_long (F.model fields.now) value.now ≡ Some e) ⊎ (e ≡ IndexError.Db SlateDBError.OutOfMemory)) }
{
    for number in 0..fields.count() {
        match test_field(fields, number, value) {
            Ok(()) => {}
            Err(error) => return Err(error),
        }
    }
    Ok(())
}

fn test_field<F: Fields>(fields: &F, number: u8, value: &Bytes) -> Result<(), IndexError>
    ensures passes { OnOk result (too_long_at number ((F.model fields.now).field number value.now) ≡ None) }
    ensures cause { IfErr result (λ e. (too_long_at number ((F.model fields.now).field number value.now) ≡ Some e) ⊎ (e ≡ IndexError.Db SlateDBError.OutOfMemory)) }
{
    match fields.field(number, value) {
        Ok(Some(field)) => test_field_len(number, field),
        Ok(None) => Ok(()),
        Err(error) => Err(IndexError::Db(error)),
    }
}

fn test_field_len(number: u8, field: Bytes) -> Result<(), IndexError>
    ensures passes { OnOk result (too_long_at number (Some field) ≡ None) }
    ensures cause { IfErr result (λ e. too_long_at number (Some field) ≡ Some e) }
{
    let len = field.len();
    drop(field);
    if len <= LONGEST_FIELD {
        Ok(())
    } else {
        Err(IndexError::FieldTooLong {
            number,
            len: len as u64,
        })
    }
}

fn test_len(value: &Bytes) -> Result<(), IndexError>
    ensures passes { OnOk result (value_refusal value.now ≡ None) }
    ensures cause { IfErr result (λ e. (d : SlateDBError) × (e ≡ IndexError.Db d) × (value_refusal value.now ≡ Some d)) }
{
    if value.len() <= LONGEST_VALUE {
        Ok(())
    } else {
        Err(IndexError::Db(SlateDBError::ValueTooLong {
            len: value.len() as u64,
        }))
    }
}
