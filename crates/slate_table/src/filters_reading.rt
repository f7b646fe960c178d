//! The filters of a table, from the bytes of their part.
ghost use Rattle.std.specs.Prelude.{◌≡◌, ◌≤◌, ◌<◌, ◌⊎◌, ℕ, Ok, Err, Some, true, length, map, slice_index, IfOk, IfErr};
ghost use Rattle.std.specs.Int.{w16};
ghost use Rattle.slate_block.specs.Damage.{number_field};
ghost use Rattle.slate_filter.specs.Asking.{also, asked_by};
ghost use Rattle.slate_filter.specs.Named.{named_pair};
ghost use Rattle.slate_table.specs.Decoded.{IsFilters};
ghost use Rattle.slate_table.specs.Filtered.{AnswersFilterPart, IsAsked, RefusesFilterPart, RefusesQuery};
ghost use Rattle.slate_table.specs.FiltersReading.{name_field, filter_field, filters_from, filters_in, in_filters, filters_say, filters_say_from};
ghost use Rattle.slate_table.specs.Reading.{AreNoFilters, read_at, unchanged};

use crate::section::{SectionPlace, checked_len};
use bytes::Bytes;
use slate_block::fields::{block_field, corrupt, u16_field, u64_field};
use slate_filter::{FilterPolicy, NamedFilter, asked_by, is_text};
use slate_types::{FilterQuery, SlateDBError};
use std::alloc::Global;
use std::str;

/// The filters of a part, whose bytes share the part's buffer. `InvalidFilterBlock` with the part's length exactly where the part is
/// no list of filters: it is cut, or a name isn't UTF-8, or something is left over; or `OutOfMemory`.
pub(crate) fn decode_filters(alloc: Global, part: Bytes) -> Result<Vec<NamedFilter>, SlateDBError>
    ensures found { IfOk result (λ filters. IsFilters part (map named_pair filters.items)) }
    ensures cause { IfErr result (λ e. (e ≡ SlateDBError.OutOfMemory) ⊎ AreNoFilters part e) }
{
    let len = part.len() as u64;
    let filters = filters_in(alloc, &part);
    drop(part);
    match filters {
        Ok(filters) => Ok(filters),
        Err(error) => Err(in_filters(len, error)),
    }
}

/// A refusal of the fields of a part as the part's own.
fn in_filters(len: u64, error: SlateDBError) -> SlateDBError
    ensures { result ≡ in_filters len error }
{
    match error {
        SlateDBError::OutOfMemory => SlateDBError::OutOfMemory,
        error => {
            drop(error);
            SlateDBError::InvalidFilterBlock { len }
        }
    }
}

#[tactic(auto, unfolding(crate::specs::FiltersReading::filters_in))]
fn filters_in(alloc: Global, bytes: &Bytes) -> Result<Vec<NamedFilter>, SlateDBError>
    ensures found { IfOk result (λ filters. filters_in bytes.now ≡ Ok (map named_pair filters.items)) }
    ensures cause { IfErr result (λ e. (e ≡ SlateDBError.OutOfMemory) ⊎ (filters_in bytes.now ≡ Err e)) }
    ensures bytes { IfOk result (λ _. (i : ℕ) → slice_index bytes.now i < 256) }
{
    let (count, at) = counted(bytes.as_slice())?;
    let (filters, at) = filters_from(alloc, count, bytes, at)?;
    if at == bytes.len() {
        return Ok(filters);
    }
    Err(corrupt(at))
}

/// The number of filters, and the place behind it.
fn counted(bytes: &[u8]) -> Result<(u16, usize), SlateDBError>
    ensures value { result ≡ number_field w16 bytes.now 0 }
    ensures within { IfOk result (λ field. field.1 ≤ length bytes.now) }
    ensures bytes { IfOk result (λ _. (i : ℕ) → slice_index bytes.now i < 256) }
{
    u16_field(bytes, 0)
}

/// So many filters from a place on, and the place behind them.
fn filters_from(
    alloc: Global,
    count: u16,
    bytes: &Bytes,
    at: usize,
) -> Result<(Vec<NamedFilter>, usize), SlateDBError>
    requires { at ≤ length bytes.now }
    ensures found { IfOk result (λ found. filters_from count bytes.now at ≡ Ok (map named_pair found.0.items, found.1)) }
    ensures cause { IfErr result (λ e. (e ≡ SlateDBError.OutOfMemory) ⊎ (filters_from count bytes.now at ≡ Err e)) }
{
    let mut filters = Vec::new(alloc);
    let mut at = at;
    for _ in 0..count {
        let (filter, next) = filter_field(alloc, bytes, at)?;
        filters.push(filter)?;
        at = next;
    }
    Ok((filters, at))
}

/// The filter that stands at a place, and the place behind it.
#[tactic(auto, unfolding(crate::specs::FiltersReading::filter_field))]
fn filter_field(
    alloc: Global,
    bytes: &Bytes,
    at: usize,
) -> Result<(NamedFilter, usize), SlateDBError>
    requires { at ≤ length bytes.now }
    ensures found { IfOk result (λ field. filter_field bytes.now at ≡ Ok (named_pair field.0, field.1)) }
    ensures cause { IfErr result (λ e. (e ≡ SlateDBError.OutOfMemory) ⊎ (filter_field bytes.now at ≡ Err e)) }
    ensures within { IfOk result (λ field. field.1 ≤ length bytes.now) }
{
    let (name, at) = name_field(bytes.as_slice(), at)?;
    let (len, at) = u64_field(bytes.as_slice(), at)?;
    let (start, end) = block_field(len as usize, bytes.as_slice(), at)?;
    let filter = bytes.slice(start..end)?;
    let name = String::from_str(alloc, name)?;
    Ok((NamedFilter { name, filter }, end))
}

#[tactic(auto, unfolding(crate::specs::FiltersReading::name_field))]
fn name_field(bytes: &[u8], at: usize) -> Result<(&str, usize), SlateDBError>
    requires { at ≤ length bytes.now }
    ensures found { IfOk result (λ field. name_field bytes.now at ≡ Ok (field.0.now, field.1)) }
    ensures cause { IfErr result (λ e. name_field bytes.now at ≡ Err e) }
    ensures within { IfOk result (λ field. field.1 ≤ length bytes.now) }
{
    let (len, at) = u16_field(bytes, at)?;
    let (start, end) = block_field(len as usize, bytes, at)?;
    match str::from_utf8(&bytes[start..end]) {
        Ok(name) => Ok((name, end)),
        Err(_) => Err(corrupt(start)),
    }
}

/// Whether no filter of a part denies the query. The filters are asked where they stand. `InvalidFilterBlock` with the part's length
/// where the part is no list of filters, or else where the bytes of one that is asked are refused.
pub(crate) fn ask_filters(
    policies: &[Box<dyn FilterPolicy>],
    part: &[u8],
    query: &FilterQuery,
) -> Result<bool, SlateDBError>
    ensures answer { IfOk result (AnswersFilterPart (map (λ p. meaning p) policies.now) query.now part.now) }
    ensures cause { IfErr result (RefusesFilterPart (map (λ p. meaning p) policies.now) query.now part.now) }
{
    let answer = answer_in(policies, part, query).unwrap_or(None);
    answer.ok_or(SlateDBError::InvalidFilterBlock {
        len: part.len() as u64,
    })
}

/// What the filters of the section at a place answer that was read, without a transformer.
pub(crate) fn ask_answer(
    answer: Option<Bytes>,
    place: SectionPlace,
    policies: &[Box<dyn FilterPolicy>],
    query: &FilterQuery,
) -> Result<bool, SlateDBError>
    ensures asked { IfOk result (IsAsked unchanged (map (λ p. meaning p) policies.now) query.now (read_at place answer)) }
    ensures cause { IfErr result (RefusesQuery unchanged (map (λ p. meaning p) policies.now) query.now (read_at place answer)) }
{
    match answer {
        None => Err(corrupt(0)),
        Some(bytes) => {
            let passes = ask_section(bytes.as_slice(), place, policies, query);
            drop(bytes);
            passes
        }
    }
}

/// What the filters of the section at a place answer, asked where they stand. Refuses as
/// `checked_part` does, and as `ask_filters` does.
fn ask_section(
    bytes: &[u8],
    place: SectionPlace,
    policies: &[Box<dyn FilterPolicy>],
    query: &FilterQuery,
) -> Result<bool, SlateDBError>
    ensures asked { IfOk result (IsAsked unchanged (map (λ p. meaning p) policies.now) query.now (read_at place (Some bytes.now))) }
    ensures cause { IfErr result (RefusesQuery unchanged (map (λ p. meaning p) policies.now) query.now (read_at place (Some bytes.now))) }
{
    let len = checked_len(bytes, place)?;
    ask_filters(policies, &bytes[..len], query)
}

/// What the filters of a part answer, where none that is asked is refused.
fn answer_in(
    policies: &[Box<dyn FilterPolicy>],
    bytes: &[u8],
    query: &FilterQuery,
) -> Result<Option<bool>, SlateDBError>
    ensures answer { result ≡ filters_say (map (λ p. meaning p) policies.now) query.now (filters_in bytes.now) }
    ensures bytes { IfOk result (λ _. (i : ℕ) → slice_index bytes.now i < 256) }
{
    let (count, at) = counted(bytes)?;
    let (answer, at) = answers_from(policies, count, bytes, at, query)?;
    if at == bytes.len() {
        return Ok(answer);
    }
    Err(corrupt(at))
}

/// What so many filters from a place on answer, and the place behind them.
fn answers_from(
    policies: &[Box<dyn FilterPolicy>],
    count: u16,
    bytes: &[u8],
    at: usize,
    query: &FilterQuery,
) -> Result<(Option<bool>, usize), SlateDBError>
    requires { at ≤ length bytes.now }
    ensures { result ≡ filters_say_from (map (λ p. meaning p) policies.now) query.now (Some true)
        (filters_from count bytes.now at) }
{
    let mut answer = Some(true);
    let mut at = at;
    for _ in 0..count {
        let (name, filter, next) = filter_at(policies, bytes, at)?;
        answer = answer_also(answer, policies, name, filter, query);
        at = next;
    }
    Ok((answer, at))
}

/// What a filter answers behind an answer so far. It is asked where nothing was denied or refused.
fn answer_also(
    answer: Option<bool>,
    policies: &[Box<dyn FilterPolicy>],
    name: &[u8],
    filter: &[u8],
    query: &FilterQuery,
) -> Option<bool>
    ensures { result ≡ also answer (asked_by (map (λ p. meaning p) policies.now) query.now (name.now, filter.now)) }
{
    match answer {
        Some(true) => asked_by(policies, name, filter, query),
        _ => answer,
    }
}

/// The name and the bytes of the filter that stands at a place, and the place behind it.
#[tactic(auto, unfolding(crate::specs::FiltersReading::filter_field))]
fn filter_at<'a>(
    policies: &[Box<dyn FilterPolicy>],
    bytes: &'a [u8],
    at: usize,
) -> Result<(&'a [u8], &'a [u8], usize), SlateDBError>
    requires { at ≤ length bytes.now }
    ensures found { IfOk result (λ field. filter_field bytes.now at ≡ Ok ((field.0.now, field.1.now), field.2)) }
    ensures cause { IfErr result (λ e. filter_field bytes.now at ≡ Err e) }
    ensures within { IfOk result (λ field. field.2 ≤ length bytes.now) }
{
    let (name, at) = name_at(policies, bytes, at)?;
    let (len, at) = u64_field(bytes, at)?;
    let (start, end) = block_field(len as usize, bytes, at)?;
    Ok((name, &bytes[start..end], end))
}

/// The name that stands at a place, and the place behind it. A policy's own name isn't tested for text.
#[tactic(auto, unfolding(crate::specs::FiltersReading::name_field))]
fn name_at<'a>(
    policies: &[Box<dyn FilterPolicy>],
    bytes: &'a [u8],
    at: usize,
) -> Result<(&'a [u8], usize), SlateDBError>
    requires { at ≤ length bytes.now }
    ensures found { IfOk result (λ field. name_field bytes.now at ≡ Ok (field.0.now, field.1)) }
    ensures cause { IfErr result (λ e. name_field bytes.now at ≡ Err e) }
    ensures within { IfOk result (λ field. field.1 ≤ length bytes.now) }
{
    let (len, at) = u16_field(bytes, at)?;
    let (start, end) = block_field(len as usize, bytes, at)?;
    let name = &bytes[start..end];
    if is_text(policies, name) {
        return Ok((name, end));
    }
    Err(corrupt(start))
}
