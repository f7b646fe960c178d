//! The texts of replies, each with its line end.
ghost use Rattle.std.specs.Prelude.{◌≡◌, ◌⊎◌, ◌++◌, ◌∷◌, [], false, map, true, IfErr, IfOk, OnOk};
ghost use Rattle.std.specs.List.{join_with_byte};
ghost use Rattle.slate_index.specs.declared.error.IndexError.{IndexError};
ghost use Rattle.slate_types.specs.declared.error.SlateDBError.{SlateDBError};
ghost use Rattle.slate_index.specs.Script.{Reply, reply_line};
ghost use Rattle.slate_index.specs.Words.{has_reply, is_said, word_text};

use crate::error::IndexError;
use crate::name::Name;
use slate_language::{Answer, reply_text};
use slate_types::SlateDBError;
use std::alloc::{AllocError, Global};

/// A word of a reply.
#[derive(Clone, Copy)]
enum Word<'a> {
    /// These bytes as they stand.
    Text(&'a [u8]),
    Number(u64),
}

pub(crate) fn done(alloc: Global) -> Result<Vec<u8>, AllocError>
    ensures text { IfOk result (λ v. v.items ≡ reply_line Reply.Done) }
{
    line_of(alloc, &[Word::Text(b"ok")])
}

/// The reply to a line that is refused by the error, where that doesn't end the run, and else the database's own error.
pub(crate) fn refusal(alloc: Global, error: IndexError) -> Result<Vec<u8>, SlateDBError>
    ensures said { IfOk result (λ v. (v.items ≡ reply_line (Reply.Refused error)) × (is_said error ≡ true)) }
    ensures cause { IfErr result (λ x. ((x ≡ SlateDBError.OutOfMemory) × (is_said error ≡ true)) ⊎ ((error ≡ IndexError.Db x) × (is_said error ≡ false))) }
{
    if is_said(&error) {
        refused(alloc, error).map_err(SlateDBError::from)
    } else {
        Err(of_database(error))
    }
}

/// Whether a line is answered the error, and the run goes on: one of the database only where it has no status.
fn is_said(error: &IndexError) -> bool
    ensures { result ≡ is_said error.now }
{
    match error {
        IndexError::Db(error) => has_reply(error),
        IndexError::FieldTooLong { .. } => true,
        IndexError::NoRecord { .. } => true,
        IndexError::ForeignCommit { .. } => true,
    }
}

fn has_reply(error: &SlateDBError) -> bool
    ensures { result ≡ has_reply error.now }
{
    match error {
        SlateDBError::ValueTooLong { .. } => true,
        SlateDBError::SequenceExhausted => true,
        _ => false,
    }
}

fn of_database(error: IndexError) -> SlateDBError
    requires { is_said error ≡ false }
    ensures { error ≡ IndexError.Db result }
{
    match error {
        IndexError::Db(error) => error,
        IndexError::FieldTooLong { .. } => unreachable!(),
        IndexError::NoRecord { .. } => unreachable!(),
        IndexError::ForeignCommit { .. } => unreachable!(),
    }
}

/// The text of a refusal.
pub(crate) fn refused(alloc: Global, error: IndexError) -> Result<Vec<u8>, AllocError>
    ensures text { IfOk result (λ v. v.items ≡ reply_line (Reply.Refused error)) }
{
    match error {
        IndexError::FieldTooLong { number, len } => {
            let words = [
                Word::Text(b"refused"),
                Word::Text(b"FieldTooLong"),
                Word::Number(u64::from(number)),
                Word::Number(len),
            ];
            line_of(alloc, &words)
        }
        IndexError::NoRecord { id } => {
            let words = [
                Word::Text(b"refused"),
                Word::Text(b"NoRecord"),
                Word::Text(id.as_slice()),
            ];
            let text = line_of(alloc, &words);
            drop(id);
            text
        }
        IndexError::Db(error) => refused_by(alloc, error),
        IndexError::ForeignCommit { seq } => {
            let words = [
                Word::Text(b"refused"),
                Word::Text(b"ForeignCommit"),
                Word::Number(seq),
            ];
            line_of(alloc, &words)
        }
    }
}

/// The reply where the database refuses.
fn refused_by(alloc: Global, error: SlateDBError) -> Result<Vec<u8>, AllocError>
    ensures text { IfOk result (λ v. v.items ≡ reply_line (Reply.Refused (IndexError.Db error))) }
{
    let answer = Answer::Refused(error);
    let text = reply_text(alloc, &answer);
    drop(answer);
    text
}

/// How many records were found, and their ids.
pub(crate) fn found(alloc: Global, ids: &[Name]) -> Result<Vec<u8>, AllocError>
    ensures text { IfOk result (λ v. v.items ≡ reply_line (Reply.FoundAre ids.now)) }
{
    let mut words = Vec::new(alloc);
    words.push(Word::Text(b"found"))?;
    words.push(Word::Number(ids.len() as u64))?;
    for id in ids {
        words.push(Word::Text(id.as_slice()))?;
    }
    let text = line_of(alloc, words.as_slice());
    drop(words);
    text
}

/// The words with a space between each two, and a line end.
fn line_of(alloc: Global, words: &[Word<'_>]) -> Result<Vec<u8>, AllocError>
    ensures text { IfOk result (λ v. v.items ≡ join_with_byte 32 (map word_text words.now) ++ (10 ∷ [])) }
{
    let mut line = Vec::new(alloc);
    for (i, word) in words.iter().enumerate() {
        if i > 0 {
            line.push(b' ')?;
        }
        push_word(alloc, &mut line, word)?;
    }
    line.push(b'\n')?;
    Ok(line)
}

/// Adds the word to the line.
fn push_word(alloc: Global, line: &mut Vec<u8>, word: &Word<'_>) -> Result<(), AllocError>
    ensures text { OnOk result (line.new.items ≡ line.old.items ++ word_text word.now) }
{
    match word {
        Word::Text(text) => line.extend_from_slice(text),
        Word::Number(number) => push_text(line, number.to_string(alloc)?.into_bytes()),
    }
}

/// Adds the text to the line.
fn push_text(line: &mut Vec<u8>, text: Vec<u8>) -> Result<(), AllocError>
    ensures text { OnOk result (line.new.items ≡ line.old.items ++ text.items) }
{
    let pushed = line.extend_from_slice(&text);
    drop(text);
    pushed
}
