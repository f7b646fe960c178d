//! Numbers in the parts of a table, the highest byte first.
ghost use Rattle.std.specs.Prelude.{◌≡◌, ◌+◌, ◌≤◌, ◌<◌, ◌^◌, ◌++◌, length, flat_map, vec_len, vec_capacity, OnOk, OnErr, IsOkUnless};
ghost use Rattle.std.specs.List.{AllByRecursion};
ghost use Rattle.slate_block.specs.RowSpelling.{be16, be32, be64};

use slate_types::SlateDBError;

/// Appends bytes for which there is room.
pub(crate) fn put(out: &mut Vec<u8>, bytes: &[u8])
    requires { vec_len out.old + length bytes.now ≤ vec_capacity out.old }
    ensures appended { out.new.items ≡ out.old.items ++ bytes.now }
    ensures len { vec_len out.new ≡ vec_len out.old + length bytes.now }
    ensures capacity { vec_capacity out.old ≤ vec_capacity out.new }
{
    out.extend_from_slice(bytes).unwrap();
}

/// Appends bytes. The one error is `OutOfMemory`.
pub(crate) fn append(out: &mut Vec<u8>, bytes: &[u8]) -> Result<(), SlateDBError>
    ensures appended { OnOk result (out.new.items ≡ out.old.items ++ bytes.now) }
    ensures unchanged { OnErr result (out.new.items ≡ out.old.items) }
    ensures cause { IsOkUnless result SlateDBError.OutOfMemory }
{
    match out.extend_from_slice(bytes) {
        Ok(()) => Ok(()),
        Err(_) => Err(SlateDBError::OutOfMemory),
    }
}

/// Appends the length of a text of under 65536 bytes, and the text.
pub(crate) fn append_short(out: &mut Vec<u8>, text: &[u8]) -> Result<(), SlateDBError>
    requires { length text.now < 2 ^ 16 }
    ensures appended { OnOk result (out.new.items ≡ out.old.items ++ (be16 (length text.now) ++ text.now)) }
    ensures cause { IsOkUnless result SlateDBError.OutOfMemory }
{
    append_u16(out, text.len() as u16)?;
    append(out, text)
}

/// Appends numbers of eight bytes, one behind the other.
pub(crate) fn append_numbers(out: &mut Vec<u8>, numbers: &[u64]) -> Result<(), SlateDBError>
    ensures appended { OnOk result (out.new.items ≡ out.old.items ++ flat_map be64 numbers.now) }
    ensures fit { OnOk result (AllByRecursion (λ n. n < 2 ^ 64) numbers.now) }
    ensures cause { IsOkUnless result SlateDBError.OutOfMemory }
{
    for number in numbers {
        append_u64(out, *number)?;
    }
    Ok(())
}

pub(crate) fn append_u16(out: &mut Vec<u8>, number: u16) -> Result<(), SlateDBError>
    ensures fits { number < 2 ^ 16 }
    ensures appended { OnOk result (out.new.items ≡ out.old.items ++ be16 number) }
    ensures unchanged { OnErr result (out.new.items ≡ out.old.items) }
    ensures cause { IsOkUnless result SlateDBError.OutOfMemory }
{
    append(out, &number.to_be_bytes())
}

pub(crate) fn append_u32(out: &mut Vec<u8>, number: u32) -> Result<(), SlateDBError>
    ensures fits { number < 2 ^ 32 }
    ensures appended { OnOk result (out.new.items ≡ out.old.items ++ be32 number) }
    ensures unchanged { OnErr result (out.new.items ≡ out.old.items) }
    ensures cause { IsOkUnless result SlateDBError.OutOfMemory }
{
    append(out, &number.to_be_bytes())
}

pub(crate) fn append_u64(out: &mut Vec<u8>, number: u64) -> Result<(), SlateDBError>
    ensures fits { number < 2 ^ 64 }
    ensures appended { OnOk result (out.new.items ≡ out.old.items ++ be64 number) }
    ensures unchanged { OnErr result (out.new.items ≡ out.old.items) }
    ensures cause { IsOkUnless result SlateDBError.OutOfMemory }
{
    append(out, &number.to_be_bytes())
}
