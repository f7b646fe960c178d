//! The info of a table: its first and its last key, and where the sections behind its blocks lie.
ghost use Rattle.std.specs.Prelude.{◌≡◌, ◌≤◌, ◌<◌, ◌^◌, ◌++◌, ◌⊎◌, ℕ, List, Option, Some, Ok, Err, length, slice_index, OnOk, IfOk, IfErr, IsOkUnless};
ghost use Rattle.slate_block.specs.RowReading.{refusal};
ghost use Rattle.slate_table.specs.Parts.{key_bytes, place_bytes};
ghost use Rattle.slate_table.specs.Decoded.{Info, IsInfo, FitsShort, FitsPlace, SectionsLieBefore};
ghost use Rattle.slate_table.specs.InfoReading.{
  seen_info,
  section_place,
  byte_field,
  version_field,
  key_field,
  place_field,
  ending,
  info_from,
  info_in,
  info_at,
};

use crate::writing::{append, append_numbers, append_short, append_u16};
use bytes::Bytes;
use slate_block::fields::{block_field, corrupt, u16_field, u64_field};
use slate_types::{BlockFormat, CompressionCodec, SlateDBError, Ulid};
use std::alloc::{AllocError, Global};

/// The byte that names no codec.
const NO_CODEC: u8 = 0;

/// The byte that names the format of filters: a list of them by name.
const FILTER_FORMAT: u8 = 1;

/// The first and the last key of a table, and where its index, its filters and its statistics lie: offsets in the table's bytes,
/// and lengths with the checksums. A table without filters has a filter length of 0.
#[derive(PartialEq, Eq, Drop)]
pub struct SsTableInfo {
    pub first_entry: Option<Bytes>,
    pub last_entry: Option<Bytes>,
    pub index_offset: u64,
    pub index_len: u64,
    pub filter_offset: u64,
    pub filter_len: u64,
    pub stats_offset: u64,
    pub stats_len: u64,
}

impl Clone for SsTableInfo {
    ghost is_clone = { λ info copy. copy ≡ info };

    fn clone(&self) -> Result<SsTableInfo, AllocError> {
        let first_entry = self.first_entry.clone()?;
        match self.last_entry.clone() {
            Ok(last_entry) => Ok(SsTableInfo {
                first_entry,
                last_entry,
                index_offset: self.index_offset,
                index_len: self.index_len,
                filter_offset: self.filter_offset,
                filter_len: self.filter_len,
                stats_offset: self.stats_offset,
                stats_len: self.stats_len,
            }),
            Err(error) => {
                drop(first_entry);
                Err(error)
            }
        }
    }
}

/// A table that was put: its id, its info, and its version.
#[derive(Drop)]
pub struct SsTableHandle {
    pub id: Ulid,
    pub info: SsTableInfo,
    pub format_version: u16,
}

/// How tables are built.
#[derive(Clone, Copy)]
pub struct SsTableFormat {
    /// The size in bytes that an encoded block is held to.
    pub block_size: u32,
    /// A table with fewer rows gets no filters.
    pub min_filter_keys: u32,
    pub block_format: BlockFormat,
    pub compression_codec: Option<CompressionCodec>,
}

impl Default for SsTableFormat {
    ghost use Rattle.std.specs.Prelude.{◌≡◌};
    ghost use Rattle.slate_table.specs.TableFormat.{default_format};

    ghost is_default = { λ format. format ≡ default_format };

    fn default() -> SsTableFormat {
        SsTableFormat {
            block_size: 4096,
            min_filter_keys: 0,
            block_format: BlockFormat::Latest,
            compression_codec: None,
        }
    }
}

/// The id of a stored table, and its size in bytes.
#[derive(Clone, Copy)]
pub struct ObjectMetadata {
    pub id: Ulid,
    pub size: u64,
}

/// The offsets and the lengths of a table's sections.
#[derive(Clone, Copy)]
struct Places {
    index: (u64, u64),
    filters: (u64, u64),
    stats: (u64, u64),
}

impl SsTableInfo {
    /// The bytes of the info of a table of this version. The one error is `OutOfMemory`.
    pub fn encode(&self, alloc: Global, version: u16) -> Result<Bytes, SlateDBError>
        requires first { FitsShort self.now.first_entry }
        requires last { FitsShort self.now.last_entry }
        ensures spelling { IfOk result (λ bytes. IsInfo version bytes (seen_info self.now)) }
        ensures cause { IsOkUnless result SlateDBError.OutOfMemory }
    {
        let mut out = Vec::new(alloc);
        append_u16(&mut out, version)?;
        append_key(&mut out, &self.first_entry)?;
        append_key(&mut out, &self.last_entry)?;
        append_places(&mut out, self)?;
        append(&mut out, &[NO_CODEC, FILTER_FORMAT])?;
        Bytes::from_vec(out).map_err(SlateDBError::from)
    }

    /// The info of a table from its bytes, where the table's last bytes name this version and say that the info begins at
    /// `end`; the keys share the buffer. `CorruptTable` with the place of the first field that fails: one that the bytes end
    /// in, another version, a key that is neither there nor missing, a section that doesn't lie before the end, another format
    /// of filters, or the first byte that is left over. `UnsupportedCompression` where nothing else fails and a codec is
    /// named. Or `OutOfMemory`.
    pub fn decode(bytes: Bytes, version: u16, end: u64) -> Result<SsTableInfo, SlateDBError>
        ensures found { IfOk result (λ info. IsInfo version bytes (seen_info info)) }
        ensures before { IfOk result (λ info. SectionsLieBefore end (seen_info info)) }
        ensures only { (info : Info) → IsInfo version bytes info → SectionsLieBefore end info → IsOkUnless result SlateDBError.OutOfMemory }
        ensures cause { IfErr result (λ e. (e ≡ SlateDBError.OutOfMemory) ⊎ (refusal (info_in version end bytes) ≡ Some e)) }
    {
        let info = read_info(version, end, &bytes);
        drop(bytes);
        info
    }
}

fn append_key(out: &mut Vec<u8>, key: &Option<Bytes>) -> Result<(), SlateDBError>
    requires { FitsShort key.now }
    ensures appended { OnOk result (out.new.items ≡ out.old.items ++ key_bytes key.now) }
    ensures cause { IsOkUnless result SlateDBError.OutOfMemory }
{
    match key {
        None => append(out, &[0]),
        Some(key) => {
            append(out, &[1])?;
            append_short(out, key.as_slice())
        }
    }
}

/// Appends the places of the sections.
fn append_places(out: &mut Vec<u8>, info: &SsTableInfo) -> Result<(), SlateDBError>
    ensures appended { OnOk result (out.new.items ≡ out.old.items ++ (place_bytes (seen_info info.now).index ++ place_bytes (seen_info info.now).filters ++ place_bytes (seen_info info.now).stats)) }
    ensures fit { OnOk result (FitsPlace (seen_info info.now).index × FitsPlace (seen_info info.now).filters × FitsPlace (seen_info info.now).stats) }
    ensures cause { IsOkUnless result SlateDBError.OutOfMemory }
{
    let places = [
        info.index_offset,
        info.index_len,
        info.filter_offset,
        info.filter_len,
        info.stats_offset,
        info.stats_len,
    ];
    append_numbers(out, &places)
}

#[tactic(auto, unfolding(crate::specs::InfoReading::info_in))]
fn read_info(version: u16, end: u64, bytes: &Bytes) -> Result<SsTableInfo, SlateDBError>
    ensures found { IfOk result (λ info. info_in version end bytes.now ≡ Ok (seen_info info)) }
    ensures cause { IfErr result (λ e. (e ≡ SlateDBError.OutOfMemory) ⊎ (info_in version end bytes.now ≡ Err e)) }
    ensures bytes { IfOk result (λ _. (i : ℕ) → slice_index bytes.now i < 256) }
{
    let (_, at) = version_field(version, bytes.as_slice())?;
    let (first_entry, at) = key_field(bytes, at)?;
    match key_field(bytes, at) {
        Ok((last_entry, at)) => match places_from(end, bytes.as_slice(), at) {
            Ok(places) => Ok(placed(first_entry, last_entry, places)),
            Err(error) => {
                drop(first_entry);
                drop(last_entry);
                Err(error)
            }
        },
        Err(error) => {
            drop(first_entry);
            Err(error)
        }
    }
}

/// The info of a table with these keys, whose sections lie there.
fn placed(first_entry: Option<Bytes>, last_entry: Option<Bytes>, places: Places) -> SsTableInfo
    ensures { seen_info result ≡ info_at first_entry last_entry places }
{
    SsTableInfo {
        first_entry,
        last_entry,
        index_offset: places.index.0,
        index_len: places.index.1,
        filter_offset: places.filters.0,
        filter_len: places.filters.1,
        stats_offset: places.stats.0,
        stats_len: places.stats.1,
    }
}

/// Where the three sections lie, and nothing behind but the last two bytes of an info.
#[tactic(auto, unfolding(crate::specs::InfoReading::info_from))]
fn places_from(end: u64, bytes: &[u8], at: usize) -> Result<Places, SlateDBError>
    requires { at ≤ length bytes.now }
    ensures found { IfOk result (λ places. (first last : Option (List ℕ)) → info_from end bytes.now at first last ≡ Ok (info_at first last places)) }
    ensures cause { IfErr result (λ e. (first last : Option (List ℕ)) → info_from end bytes.now at first last ≡ Err e) }
{
    let (index, at) = place_field(end, bytes, at)?;
    let (filters, at) = place_field(end, bytes, at)?;
    let (stats, at) = place_field(end, bytes, at)?;
    ending(bytes, at)?;
    Ok(Places {
        index,
        filters,
        stats,
    })
}

#[tactic(auto, unfolding(crate::specs::InfoReading::byte_field))]
fn byte_field(bytes: &[u8], at: usize) -> Result<(u8, usize), SlateDBError>
    ensures value { result ≡ byte_field bytes.now at }
    ensures within { IfOk result (λ field. field.1 ≤ length bytes.now) }
{
    match bytes.get(at) {
        Some(byte) => Ok((*byte, at + 1)),
        None => Err(corrupt(at)),
    }
}

#[tactic(auto, unfolding(crate::specs::InfoReading::version_field))]
fn version_field(version: u16, bytes: &[u8]) -> Result<(u16, usize), SlateDBError>
    ensures value { result ≡ version_field version bytes.now }
    ensures within { IfOk result (λ field. field.1 ≤ length bytes.now) }
    ensures bytes { IfOk result (λ _. (i : ℕ) → slice_index bytes.now i < 256) }
{
    let (stored, at) = u16_field(bytes, 0)?;
    if stored != version {
        return Err(corrupt(0));
    }
    Ok((stored, at))
}

#[tactic(auto, unfolding(crate::specs::InfoReading::key_field, crate::specs::InfoReading::key_text))]
fn key_field(bytes: &Bytes, at: usize) -> Result<(Option<Bytes>, usize), SlateDBError>
    ensures found { IfOk result (λ field. key_field bytes.now at ≡ Ok field) }
    ensures cause { IfErr result (λ e. (e ≡ SlateDBError.OutOfMemory) ⊎ (key_field bytes.now at ≡ Err e)) }
    ensures within { IfOk result (λ field. field.1 ≤ length bytes.now) }
{
    let (is_there, next) = byte_field(bytes.as_slice(), at)?;
    if is_there == 0 {
        return Ok((None, next));
    }
    if is_there == 1 {
        let (len, next) = u16_field(bytes.as_slice(), next)?;
        let (start, end) = block_field(len as usize, bytes.as_slice(), next)?;
        let key = bytes.slice(start..end)?;
        return Ok((Some(key), end));
    }
    Err(corrupt(at))
}

/// The offset and the length of a section that lies before the end.
#[tactic(auto, unfolding(crate::specs::InfoReading::place_field))]
fn place_field(end: u64, bytes: &[u8], at: usize) -> Result<((u64, u64), usize), SlateDBError>
    requires { at ≤ length bytes.now }
    ensures value { result ≡ place_field end bytes.now at }
    ensures within { IfOk result (λ field. field.1 ≤ length bytes.now) }
{
    let (offset, len_at) = u64_field(bytes, at)?;
    if end < offset {
        return Err(corrupt(at));
    }
    let (len, next) = u64_field(bytes, len_at)?;
    if end - offset < len {
        return Err(corrupt(len_at));
    }
    Ok(((offset, len), next))
}

/// The codec and the format of filters, and nothing behind.
#[tactic(auto, unfolding(crate::specs::InfoReading::ending))]
fn ending(bytes: &[u8], at: usize) -> Result<(), SlateDBError>
    ensures { result ≡ ending bytes.now at }
{
    let (codec, format_at) = byte_field(bytes, at)?;
    let (format, end) = byte_field(bytes, format_at)?;
    if format != FILTER_FORMAT {
        return Err(corrupt(format_at));
    }
    if end < bytes.len() {
        return Err(corrupt(end));
    }
    if codec != NO_CODEC {
        return Err(SlateDBError::UnsupportedCompression { codec });
    }
    Ok(())
}
