//! The lines that are written, each with its line end.

use crate::check::{Flaw, Part, TableSummary};
use crate::describe::Description;
use bytes::Bytes;
use slate_language::{Answer, reply_text, show};
use slate_types::{RowEntry, SlateDBError, Ulid, ValueDeletable};
use std::alloc::{AllocError, Global};

/// A word of a line.
#[derive(Clone, Copy)]
enum Word<'a> {
    /// These bytes as they stand.
    Text(&'a [u8]),
    /// These bytes as a byte token.
    Shown(&'a [u8]),
    Number(u64),
    Moment(i64),
}

/// The line of a table that was listed.
pub(crate) fn description_line(
    alloc: Global,
    id: Ulid,
    table: &Description,
) -> Result<Vec<u8>, AllocError> {
    let mut words = Vec::new(alloc);
    push_table(&mut words, b"table", id)?;
    words.push(Word::Number(u64::from(table.version)))?;
    words.push(Word::Number(table.size))?;
    words.push(Word::Number(table.puts))?;
    words.push(Word::Number(table.deletes))?;
    words.push(Word::Number(table.merges))?;
    words.push(key_word(&table.first))?;
    words.push(key_word(&table.last))?;
    for filter in table.filters.as_slice() {
        words.push(Word::Shown(filter.name.as_bytes()))?;
    }
    line_of(alloc, words.as_slice())
}

/// The line of a table that is whole.
pub(crate) fn summary_line(
    alloc: Global,
    id: Ulid,
    summary: &TableSummary,
) -> Result<Vec<u8>, AllocError> {
    let mut words = Vec::new(alloc);
    push_table(&mut words, b"whole", id)?;
    words.push(Word::Number(u64::from(summary.version)))?;
    words.push(Word::Number(summary.rows))?;
    words.push(Word::Number(summary.least))?;
    words.push(Word::Number(summary.greatest))?;
    words.push(key_word(&summary.first))?;
    words.push(key_word(&summary.last))?;
    line_of(alloc, words.as_slice())
}

/// The line of a table that is damaged.
pub(crate) fn flaw_line(alloc: Global, id: Ulid, flaw: Flaw) -> Result<Vec<u8>, AllocError> {
    let Flaw {
        part,
        offset,
        error,
    } = flaw;
    let text = error_text(alloc, error)?;
    let line = damaged_line(alloc, id, part, offset, text.as_slice());
    drop(text);
    line
}

fn damaged_line(
    alloc: Global,
    id: Ulid,
    part: Part,
    offset: Option<u64>,
    error: &[u8],
) -> Result<Vec<u8>, AllocError> {
    let (name, number) = part_words(part);
    line_of(
        alloc,
        &[
            Word::Text(b"damaged"),
            Word::Number(flush_of(id)),
            Word::Number(place_of(id)),
            Word::Text(name),
            number,
            offset_word(offset),
            Word::Text(error),
        ],
    )
}

/// The words of an error, as a reply has them.
fn error_text(alloc: Global, error: SlateDBError) -> Result<Vec<u8>, AllocError> {
    let answer = Answer::Refused(error);
    let reply = reply_text(alloc, &answer);
    drop(answer);
    let reply = reply?;
    let words = Vec::from_slice(alloc, words_behind(reply.as_slice()));
    drop(reply);
    words
}

/// What stands between the first word of a reply and its line end.
fn words_behind(reply: &[u8]) -> &[u8] {
    let words = reply.strip_prefix(b"refused ".as_slice()).unwrap_or(reply);
    words.strip_suffix(b"\n".as_slice()).unwrap_or(words)
}

/// The line of an object that is no table.
pub(crate) fn other_line(alloc: Global, path: &str) -> Result<Vec<u8>, AllocError> {
    line_of(alloc, &[Word::Text(b"other"), Word::Shown(path.as_bytes())])
}

/// The line of a row as it is stored.
pub(crate) fn row_line(alloc: Global, id: Ulid, row: &RowEntry) -> Result<Vec<u8>, AllocError> {
    line_of(
        alloc,
        &[
            Word::Text(kind_of(&row.value)),
            Word::Number(flush_of(id)),
            Word::Number(place_of(id)),
            Word::Shown(row.key.as_slice()),
            value_word(&row.value),
            Word::Number(row.seq),
            stamp_word(row.create_ts),
            stamp_word(row.expire_ts),
        ],
    )
}

/// The last line: how many tables were looked at, how many of them are damaged, and how many rows
/// the others have.
pub(crate) fn total_line(
    alloc: Global,
    tables: u64,
    damaged: u64,
    rows: u64,
) -> Result<Vec<u8>, AllocError> {
    line_of(
        alloc,
        &[
            Word::Text(b"tables"),
            Word::Number(tables),
            Word::Text(b"damaged"),
            Word::Number(damaged),
            Word::Text(b"rows"),
            Word::Number(rows),
        ],
    )
}

/// The number of a table's flush.
pub(crate) fn flush_of(id: Ulid) -> u64 {
    (id.0 / 18446744073709551616) as u64
}

/// The place of a table in its flush.
pub(crate) fn place_of(id: Ulid) -> u64 {
    (id.0 % 18446744073709551616) as u64
}

fn push_table<'a>(words: &mut Vec<Word<'a>>, name: &'a [u8], id: Ulid) -> Result<(), AllocError> {
    words.push(Word::Text(name))?;
    words.push(Word::Number(flush_of(id)))?;
    words.push(Word::Number(place_of(id)))?;
    Ok(())
}

/// The name of a part, and the number of a block.
fn part_words(part: Part) -> (&'static [u8], Word<'static>) {
    match part {
        Part::Info => (b"info", Word::Text(b"-")),
        Part::Stats => (b"stats", Word::Text(b"-")),
        Part::Index => (b"index", Word::Text(b"-")),
        Part::Filters => (b"filters", Word::Text(b"-")),
        Part::Block(number) => (b"block", Word::Number(number)),
    }
}

fn offset_word(offset: Option<u64>) -> Word<'static> {
    match offset {
        Some(offset) => Word::Number(offset),
        None => Word::Text(b"-"),
    }
}

fn key_word(key: &Option<Bytes>) -> Word<'_> {
    match key {
        Some(key) => Word::Shown(key.as_slice()),
        None => Word::Text(b"-"),
    }
}

fn kind_of(value: &ValueDeletable) -> &'static [u8] {
    match value {
        ValueDeletable::Value(_) => b"put",
        ValueDeletable::Merge(_) => b"merge",
        ValueDeletable::Tombstone => b"delete",
    }
}

fn value_word(value: &ValueDeletable) -> Word<'_> {
    match value.as_bytes() {
        Some(bytes) => Word::Shown(bytes.as_slice()),
        None => Word::Text(b"-"),
    }
}

fn stamp_word(stamp: Option<i64>) -> Word<'static> {
    match stamp {
        Some(moment) => Word::Moment(moment),
        None => Word::Text(b"-"),
    }
}

/// The words with a space between each two, and a line end.
fn line_of(alloc: Global, words: &[Word<'_>]) -> Result<Vec<u8>, AllocError> {
    let mut line = words_text(alloc, words)?;
    line.push(b'\n')?;
    Ok(line)
}

fn words_text(alloc: Global, words: &[Word<'_>]) -> Result<Vec<u8>, AllocError> {
    let mut line = Vec::new(alloc);
    for (i, word) in words.iter().enumerate() {
        if i > 0 {
            line.push(b' ')?;
        }
        push_word(alloc, &mut line, word)?;
    }
    Ok(line)
}

/// Adds the word to the line.
fn push_word(alloc: Global, line: &mut Vec<u8>, word: &Word<'_>) -> Result<(), AllocError> {
    match word {
        Word::Text(text) => line.extend_from_slice(text),
        Word::Shown(bytes) => push_text(line, shown(alloc, bytes)?),
        Word::Number(number) => push_text(line, number.to_string(alloc)?.into_bytes()),
        Word::Moment(moment) => push_text(line, moment.to_string(alloc)?.into_bytes()),
    }
}

/// A byte token.
fn shown(alloc: Global, bytes: &[u8]) -> Result<Vec<u8>, AllocError> {
    match show(alloc, bytes) {
        Ok(text) => Ok(text),
        Err(error) => {
            drop(error);
            Err(AllocError)
        }
    }
}

/// Adds the text to the line.
fn push_text(line: &mut Vec<u8>, text: Vec<u8>) -> Result<(), AllocError> {
    let pushed = line.extend_from_slice(&text);
    drop(text);
    pushed
}
