//! The lines of a script of records.
ghost use Rattle.std.specs.Prelude.{◌≡◌, ◌⊎◌, Ok, None, Some, length, nat_le, IfErr, IfOk, IfSome, false, true};
ghost use Rattle.slate_types.specs.declared.error.SlateDBError.{SlateDBError};
ghost use Rattle.slate_language.specs.Parse.{both, only_if, read_bytes};
ghost use Rattle.slate_language.specs.Replies.{is_silent};
ghost use Rattle.slate_index.specs.declared.line.Line.{Line};
ghost use Rattle.slate_index.specs.Entries.{longest_field};
ghost use Rattle.slate_index.specs.Script.{delete_line, field_in, find_line, line_behind, line_of, meaning, name_in, number_in, put_line};

use crate::entries::LONGEST_FIELD;
use crate::fields::Fields;
use crate::name::Name;
use bytes::Bytes;
use slate_language::{Token, is_word, read_bytes, read_number, split_tokens};
use slate_types::SlateDBError;
use std::alloc::{AllocError, Global};

/// What a line asks for.
#[derive(Drop)]
pub enum Line {
    /// A record is to be put.
    Put { id: Name, value: Bytes },
    /// A record is to be deleted.
    Delete { id: Name },
    /// The records that have the field in the index of this number are to be found.
    Find { number: u8, field: Bytes },
}

/// What the line with this number asks for, and None for an empty line and a comment. `ScriptSyntax` comes exactly where it is none of
/// these.
pub(crate) fn read_line<F: Fields>(
    alloc: Global,
    fields: &F,
    line: &[u8],
    number: u64,
) -> Result<Option<Line>, SlateDBError>
    ensures meant { IfOk result (λ o. IfSome o (λ l. (is_silent line.now ≡ false) × (meaning (F.model fields.now) line.now ≡ Some l))) }
    ensures silent { result ≡ Ok None → is_silent line.now ≡ true }
    ensures cause { IfErr result (λ e. (e ≡ SlateDBError.OutOfMemory) ⊎ ((e ≡ SlateDBError.ScriptSyntax number) × (is_silent line.now ≡ false) × (meaning (F.model fields.now) line.now ≡ None))) }
{
    if is_silent(line) {
        return Ok(None);
    }
    match read_text(alloc, fields, line)? {
        Some(line) => Ok(Some(line)),
        None => Err(SlateDBError::ScriptSyntax { line: number }),
    }
}

/// Whether the line is empty or a comment.
fn is_silent(line: &[u8]) -> bool
    ensures { result ≡ is_silent line.now }
{
    line.first().is_none_or(|byte| *byte == b'#')
}

fn read_text<F: Fields>(alloc: Global, fields: &F, text: &[u8]) -> Result<Option<Line>, AllocError>
    ensures line { IfOk result (λ o. o ≡ meaning (F.model fields.now) text.now) }
{
    let text = Bytes::copy_from_slice(alloc, text)?;
    let line = read_shared(alloc, fields, &text);
    drop(text);
    line
}

/// What the text asks for. A value and a field share its buffer.
fn read_shared<F: Fields>(
    alloc: Global,
    fields: &F,
    text: &Bytes,
) -> Result<Option<Line>, AllocError>
    ensures line { IfOk result (λ o. o ≡ meaning (F.model fields.now) text.now) }
{
    let tokens = split_tokens(alloc, text)?;
    let line = read_tokens(alloc, fields, tokens.as_slice());
    drop(tokens);
    line
}

fn read_tokens<F: Fields>(
    alloc: Global,
    fields: &F,
    tokens: &[Token<'_>],
) -> Result<Option<Line>, AllocError>
    ensures line { IfOk result (λ o. o ≡ line_of (F.model fields.now) tokens.now) }
{
    let Some((word, rest)) = tokens.split_first() else {
        return Ok(None);
    };
    read_behind(alloc, fields, word.text(), rest)
}

/// The line that begins with the word.
fn read_behind<F: Fields>(
    alloc: Global,
    fields: &F,
    word: &[u8],
    tokens: &[Token<'_>],
) -> Result<Option<Line>, AllocError>
    ensures line { IfOk result (λ o. o ≡ line_behind (F.model fields.now) word.now tokens.now) }
{
    if is_word(word, b"put") {
        read_put(alloc, tokens)
    } else if is_word(word, b"del") {
        read_delete(alloc, tokens)
    } else if is_word(word, b"find") {
        read_find(alloc, fields, tokens)
    } else {
        Ok(None)
    }
}

/// `put`, an id and a value
fn read_put(alloc: Global, tokens: &[Token<'_>]) -> Result<Option<Line>, AllocError>
    ensures line { IfOk result (λ o. o ≡ put_line tokens.now) }
{
    let [id, value] = tokens else {
        return Ok(None);
    };
    match read_record(alloc, id, value)? {
        Some((id, value)) => Ok(Some(Line::Put { id, value })),
        None => Ok(None),
    }
}

/// The id and the value that two tokens are, where the one is a name and the other spells bytes.
fn read_record(
    alloc: Global,
    id: &Token<'_>,
    value: &Token<'_>,
) -> Result<Option<(Name, Bytes)>, AllocError>
    ensures pair { IfOk result (λ o. o ≡ both (λ n v. (n, v)) (name_in id.now) (read_bytes value.now)) }
{
    let Some(value) = read_bytes(alloc, value)? else {
        return Ok(None);
    };
    match read_name(alloc, id.text()) {
        Ok(Some(id)) => Ok(Some((id, value))),
        Ok(None) => {
            drop(value);
            Ok(None)
        }
        Err(error) => {
            drop(value);
            Err(error)
        }
    }
}

/// `del` and an id
fn read_delete(alloc: Global, tokens: &[Token<'_>]) -> Result<Option<Line>, AllocError>
    ensures line { IfOk result (λ o. o ≡ delete_line tokens.now) }
{
    let [id] = tokens else {
        return Ok(None);
    };
    match read_name(alloc, id.text())? {
        Some(id) => Ok(Some(Line::Delete { id })),
        None => Ok(None),
    }
}

/// `find`, the number of an index and a field
fn read_find<F: Fields>(
    alloc: Global,
    fields: &F,
    tokens: &[Token<'_>],
) -> Result<Option<Line>, AllocError>
    ensures line { IfOk result (λ o. o ≡ find_line (F.model fields.now) tokens.now) }
{
    let [number, field] = tokens else {
        return Ok(None);
    };
    let Some(number) = read_index(fields, number.text()) else {
        return Ok(None);
    };
    match read_field(alloc, field)? {
        Some(field) => Ok(Some(Line::Find { number, field })),
        None => Ok(None),
    }
}

/// The id that the token is, where it is a name.
fn read_name(alloc: Global, token: &[u8]) -> Result<Option<Name>, AllocError>
    ensures name { IfOk result (λ o. o ≡ name_in token.now) }
{
    Ok(Name::new(Bytes::copy_from_slice(alloc, token)?))
}

/// The number of an index that the token spells, if any.
fn read_index<F: Fields>(fields: &F, token: &[u8]) -> Option<u8>
    ensures { result ≡ number_in (F.model fields.now) token.now }
{
    let number = read_number(token)?;
    if number < u64::from(fields.count()) {
        Some(number as u8)
    } else {
        None
    }
}

/// The field that the token spells, if any, where an index can have it.
fn read_field(alloc: Global, token: &Token<'_>) -> Result<Option<Bytes>, AllocError>
    ensures field { IfOk result (λ o. o ≡ field_in token.now) }
{
    match read_bytes(alloc, token)? {
        Some(field) => Ok(short(field)),
        None => Ok(None),
    }
}

/// The field, where it has at most 1024 bytes.
fn short(field: Bytes) -> Option<Bytes>
    ensures { result ≡ only_if (nat_le (length field) longest_field) field }
{
    if field.len() <= LONGEST_FIELD {
        Some(field)
    } else {
        None
    }
}
