//! Sections: the parts of a table as they are stored, each with its checksum behind it.
ghost use Rattle.std.specs.Prelude.{◌≡◌, ◌+◌, ◌≤◌, ◌<◌, ◌++◌, ◌⊎◌, ℕ, List, Some, None, Err, Ok, length, take, slice_index, vec_len, vec_capacity, OnOk, OnErr, IfOk, IfErr, IsOkUnless};
ghost use Rattle.slate_types.specs.declared.error.SlateDBError.{SlateDBError};
ghost use Rattle.slate_types.specs.Faults.{faults_of};
ghost use Rattle.slate_block.specs.RowReading.{refusal};
ghost use Rattle.slate_table.specs.Checksum.{crc32};
ghost use Rattle.slate_table.specs.Parts.{section_sum, summed, section};
ghost use Rattle.slate_table.specs.Reading.{FailsDecoding, Fits, read_at};
ghost use Rattle.slate_table.specs.SectionReading.{
  part_of_sum,
  covered_by,
  part_in,
  changed_by,
  IsTransformFault,
};

use crate::crc::{checksum, crc_more};
use crate::writing::put;
use bytes::Bytes;
use slate_block::fields::corrupt;
use slate_types::{BlockTransformer, SlateDBError, Ulid};
use std::alloc::Global;

/// How many bytes a checksum has.
pub const CHECKSUM_SIZE: usize = 4;

/// The version whose checksums cover more than a section's bytes.
const COVERING_VERSION: u16 = 3;

/// The kinds of sections.
pub const BLOCK_KIND: u8 = 1;

pub const FILTERS_KIND: u8 = 2;

pub const INDEX_KIND: u8 = 3;

pub const STATS_KIND: u8 = 4;

pub const INFO_KIND: u8 = 5;

/// Where a section stands: in a table of which version and id, as which kind, and at which offset in bytes.
#[derive(Clone, Copy)]
pub struct SectionPlace {
    pub version: u16,
    pub id: Ulid,
    pub kind: u8,
    pub offset: u64,
}

/// The checksum of a section's bytes: their CRC-32, which in version 3 begins with the table's id, the section's kind (1 a block, 2
/// filters, 3 the index, 4 statistics, 5 the info) and its offset, so that one section read for another is refused as other damage is.
pub fn section_checksum(version: u16, id: Ulid, kind: u8, offset: u64, bytes: &[u8]) -> u32
    ensures { result ≡ section_sum version id.0 kind offset bytes.now }
{
    if version != COVERING_VERSION {
        return checksum(bytes);
    }
    let named = crc_more(u32::MAX, &id.0.to_be_bytes());
    let kinded = crc_more(named, &[kind]);
    let placed = crc_more(kinded, &offset.to_be_bytes());
    crc_more(placed, bytes) ^ u32::MAX
}

fn checksum_at(place: SectionPlace, bytes: &[u8]) -> u32
    ensures { result ≡ crc32 (covered_by place ++ bytes.now) }
{
    section_checksum(place.version, place.id, place.kind, place.offset, bytes)
}

/// The bytes before the checksum of a section that stands at a place; they share the buffer. `CorruptTable` at 0 where there are fewer
/// bytes than a checksum has, `ChecksumMismatch` where it isn't theirs, or `OutOfMemory`.
pub fn checked_part(bytes: &Bytes, place: SectionPlace) -> Result<Bytes, SlateDBError>
    ensures found { IfOk result (λ part. bytes.now ≡ summed (covered_by place) part) }
    ensures front { IfOk result (λ part. part ≡ part_of_sum bytes.now) }
    ensures fits { OnOk result (refusal (part_in (covered_by place) bytes.now) ≡ None) }
    ensures only { (part : List ℕ) → bytes.now ≡ summed (covered_by place) part → IsOkUnless result SlateDBError.OutOfMemory }
    ensures cause { IfErr result (λ e. (e ≡ SlateDBError.OutOfMemory) ⊎ (refusal (part_in (covered_by place) bytes.now) ≡ Some e)) }
{
    let len = checked_len(bytes.as_slice(), place)?;
    bytes.slice(0..len).map_err(SlateDBError::from)
}

/// How many bytes stand before a checksum that fits.
#[tactic(auto, unfolding(crate::specs::SectionReading::part_in))]
pub(crate) fn checked_len(bytes: &[u8], place: SectionPlace) -> Result<usize, SlateDBError>
    ensures found { IfOk result (λ len. part_in (covered_by place) bytes.now ≡ Ok (take len bytes.now)) }
    ensures within { IfOk result (λ len. len ≤ length bytes.now) }
    ensures cause { IfErr result (λ e. part_in (covered_by place) bytes.now ≡ Err e) }
    ensures bytes { (i : ℕ) → slice_index bytes.now i < 256 }
{
    if bytes.len() < CHECKSUM_SIZE {
        return Err(corrupt(0));
    }
    let len = bytes.len() - CHECKSUM_SIZE;
    let rest = &bytes[len..];
    let stored = u32::from_be_bytes([rest[0], rest[1], rest[2], rest[3]]);
    let computed = checksum_at(place, &bytes[..len]);
    if stored != computed {
        return Err(SlateDBError::ChecksumMismatch { stored, computed });
    }
    Ok(len)
}

/// The part of a section that stands at a place. `CorruptTable` at 0 where it has fewer bytes than a checksum, then `ChecksumMismatch`, then
/// `BlockTransformError`, which comes only where the transformer's count of faults rose; or `OutOfMemory`. Where the checksum
/// doesn't fit the transformer isn't asked.
pub fn open_section<T: BlockTransformer>(
    alloc: Global,
    bytes: &Bytes,
    place: SectionPlace,
    transformer: &mut Option<T>,
) -> Result<Bytes, SlateDBError>
    ensures sum { OnOk result (bytes.now ≡ summed (covered_by place) (part_of_sum bytes.now)) }
    ensures part { IfOk result (λ part. part ≡ changed_by T.decoded transformer.old (part_of_sum bytes.now)) }
    ensures only { (stored : List ℕ) → bytes.now ≡ summed (covered_by place) stored → IfErr result (λ e. IsTransformFault (faults_of T.faults transformer.old) (faults_of T.faults transformer.new) e) }
    ensures cause { IfErr result (λ e. (e ≡ SlateDBError.OutOfMemory) ⊎ FailsDecoding (faults_of T.faults transformer.old) (faults_of T.faults transformer.new) (read_at place (Some bytes.now)) e ⊎ (refusal (part_in (covered_by place) bytes.now) ≡ Some e)) }
    ensures unasked { (e : SlateDBError) → refusal (part_in (covered_by place) bytes.now) ≡ Some e → transformer.new ≡ transformer.old }
    ensures asked { (transformer.new ≡ transformer.old) ⊎ Fits (read_at place (Some bytes.now)) }
    ensures same_encoded { changed_by T.encoded transformer.new ≡ changed_by T.encoded transformer.old }
    ensures same_decoded { changed_by T.decoded transformer.new ≡ changed_by T.decoded transformer.old }
    ensures later { faults_of T.faults transformer.old ≤ faults_of T.faults transformer.new }
    ensures still { (result ≡ Err SlateDBError.BlockTransformError) ⊎ (faults_of T.faults transformer.new ≡ faults_of T.faults transformer.old) }
{
    let stored = checked_part(bytes, place)?;
    decoded(alloc, stored, transformer)
}

/// Appends the section of a part, which stands at a place. `BlockTransformError`, only where the transformer's count of faults rose, or `OutOfMemory`;
/// then `out` is as it was.
pub fn seal_section<T: BlockTransformer>(
    alloc: Global,
    out: &mut Vec<u8>,
    place: SectionPlace,
    part: Bytes,
    transformer: &mut Option<T>,
) -> Result<(), SlateDBError>
    ensures appended { OnOk result (out.new.items ≡ out.old.items ++ section (covered_by place) (changed_by T.encoded transformer.old) part) }
    ensures unchanged { OnErr result (out.new.items ≡ out.old.items) }
    ensures cause { IfErr result (λ e. IsTransformFault (faults_of T.faults transformer.old) (faults_of T.faults transformer.new) e) }
    ensures same_encoded { changed_by T.encoded transformer.new ≡ changed_by T.encoded transformer.old }
    ensures same_decoded { changed_by T.decoded transformer.new ≡ changed_by T.decoded transformer.old }
    ensures later { faults_of T.faults transformer.old ≤ faults_of T.faults transformer.new }
    ensures still { (result ≡ Err SlateDBError.BlockTransformError) ⊎ (faults_of T.faults transformer.new ≡ faults_of T.faults transformer.old) }
{
    let stored = encoded(alloc, part, transformer)?;
    let sealed = append_summed(out, place, stored.as_slice());
    drop(stored);
    sealed
}

/// Appends bytes and the checksum that they have at a place. The one error is `OutOfMemory`, after which `out` is as it was.
pub fn append_summed(
    out: &mut Vec<u8>,
    place: SectionPlace,
    bytes: &[u8],
) -> Result<(), SlateDBError>
    ensures appended { OnOk result (out.new.items ≡ out.old.items ++ summed (covered_by place) bytes.now) }
    ensures unchanged { OnErr result (out.new.items ≡ out.old.items) }
    ensures cause { IsOkUnless result SlateDBError.OutOfMemory }
{
    out.reserve(bytes.len() + CHECKSUM_SIZE)?;
    put_summed(out, place, bytes);
    Ok(())
}

/// Appends bytes and the checksum that they have at a place, for which there is room.
pub(crate) fn put_summed(out: &mut Vec<u8>, place: SectionPlace, bytes: &[u8])
    requires { vec_len out.old + (length bytes.now + 4) ≤ vec_capacity out.old }
    ensures { out.new.items ≡ out.old.items ++ summed (covered_by place) bytes.now }
{
    put(out, bytes);
    put(out, &checksum_at(place, bytes).to_be_bytes());
}

/// The part as it is stored.
pub(crate) fn encoded<T: BlockTransformer>(
    alloc: Global,
    part: Bytes,
    transformer: &mut Option<T>,
) -> Result<Bytes, SlateDBError>
    ensures bytes { IfOk result (λ stored. stored ≡ changed_by T.encoded transformer.old part) }
    ensures cause { IfErr result (λ e. IsTransformFault (faults_of T.faults transformer.old) (faults_of T.faults transformer.new) e) }
    ensures same_encoded { changed_by T.encoded transformer.new ≡ changed_by T.encoded transformer.old }
    ensures same_decoded { changed_by T.decoded transformer.new ≡ changed_by T.decoded transformer.old }
    ensures later { faults_of T.faults transformer.old ≤ faults_of T.faults transformer.new }
    ensures still { (result ≡ Err SlateDBError.BlockTransformError) ⊎ (faults_of T.faults transformer.new ≡ faults_of T.faults transformer.old) }
{
    match transformer {
        None => Ok(part),
        Some(transformer) => transformer.encode(alloc, part).map_err(SlateDBError::from),
    }
}

fn decoded<T: BlockTransformer>(
    alloc: Global,
    stored: Bytes,
    transformer: &mut Option<T>,
) -> Result<Bytes, SlateDBError>
    ensures bytes { IfOk result (λ part. part ≡ changed_by T.decoded transformer.old stored) }
    ensures cause { IfErr result (λ e. IsTransformFault (faults_of T.faults transformer.old) (faults_of T.faults transformer.new) e) }
    ensures same_encoded { changed_by T.encoded transformer.new ≡ changed_by T.encoded transformer.old }
    ensures same_decoded { changed_by T.decoded transformer.new ≡ changed_by T.decoded transformer.old }
    ensures later { faults_of T.faults transformer.old ≤ faults_of T.faults transformer.new }
    ensures still { (result ≡ Err SlateDBError.BlockTransformError) ⊎ (faults_of T.faults transformer.new ≡ faults_of T.faults transformer.old) }
{
    match transformer {
        None => Ok(stored),
        Some(transformer) => transformer
            .decode(alloc, stored)
            .map_err(SlateDBError::from),
    }
}
