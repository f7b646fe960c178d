//! The texts of a queue's replies, each with its line end.
ghost use Rattle.std.specs.Prelude.{◌≡◌, ◌++◌, ◌∷◌, [], codes, decimal, map, IfOk, OnOk};
ghost use Rattle.slate_language.specs.Text.{shown_bytes};
ghost use Rattle.slate_queue.specs.declared.error.QueueError.{QueueError};
ghost use Rattle.std.specs.List.{join_with_byte};
ghost use Rattle.slate_queue.specs.Jobs as model;
ghost use Rattle.slate_queue.specs.Script.{Reply, fed_words, reply_line};
ghost use Rattle.slate_queue.specs.Words.{fed_pair, word_text};

use crate::entries::FeedEntry;
use crate::error::QueueError;
use slate_language::{Answer, reply_text, show};
use slate_types::SlateDBError;
use std::alloc::{AllocError, Global};

/// A word of a reply.
#[derive(Clone, Copy)]
enum Word<'a> {
    /// These bytes as they stand.
    Text(&'a [u8]),
    /// These bytes as a byte token.
    Shown(&'a [u8]),
    Number(u64),
}

pub(crate) fn added(alloc: Global, id: u64) -> Result<Vec<u8>, AllocError>
    ensures text { IfOk result (λ v. v.items ≡ reply_line (Reply.Answered (model.Answer.Added id))) }
{
    line_of(alloc, &[Word::Text(b"added"), Word::Number(id)])
}

pub(crate) fn claimed(
    alloc: Global,
    id: u64,
    lease: u64,
    payload: &[u8],
) -> Result<Vec<u8>, AllocError>
    ensures text { IfOk result (λ v. v.items ≡ reply_line (Reply.Answered (model.Answer.Claimed id lease payload.now))) }
{
    line_of(
        alloc,
        &[
            Word::Text(b"claimed"),
            Word::Number(id),
            Word::Number(lease),
            Word::Shown(payload),
        ],
    )
}

pub(crate) fn none_free(alloc: Global) -> Result<Vec<u8>, AllocError>
    ensures text { IfOk result (λ v. v.items ≡ reply_line (Reply.Answered model.Answer.NoneFree)) }
{
    line_of(alloc, &[Word::Text(b"none")])
}

pub(crate) fn finished(alloc: Global) -> Result<Vec<u8>, AllocError>
    ensures text { IfOk result (λ v. v.items ≡ reply_line (Reply.Answered model.Answer.Finished)) }
{
    line_of(alloc, &[Word::Text(b"ok")])
}

pub(crate) fn refused(alloc: Global, error: QueueError) -> Result<Vec<u8>, AllocError>
    ensures text { IfOk result (λ v. v.items ≡ reply_line (Reply.Refused error)) }
{
    match error {
        QueueError::PayloadTooLong { len } => refused_number(alloc, b"PayloadTooLong", len),
        QueueError::NoJob { id } => refused_number(alloc, b"NoJob", id),
        QueueError::StaleLease { current } => refused_number(alloc, b"StaleLease", current),
        QueueError::LeasesSpent { id } => refused_number(alloc, b"LeasesSpent", id),
        QueueError::IdsSpent => line_of(alloc, &[Word::Text(b"refused"), Word::Text(b"IdsSpent")]),
        QueueError::BadJob { key } => {
            let words = [
                Word::Text(b"refused"),
                Word::Text(b"BadJob"),
                Word::Text(key.as_slice()),
            ];
            let text = line_of(alloc, &words);
            drop(key);
            text
        }
        QueueError::Db(error) => refused_by(alloc, error),
        QueueError::ForeignCommit { seq } => refused_number(alloc, b"ForeignCommit", seq),
    }
}

fn refused_number(alloc: Global, name: &[u8], number: u64) -> Result<Vec<u8>, AllocError>
    ensures text { IfOk result (λ v. v.items ≡ join_with_byte 32 (codes "refused" ∷ name.now ∷ decimal number ∷ []) ++ (10 ∷ [])) }
{
    line_of(
        alloc,
        &[
            Word::Text(b"refused"),
            Word::Text(name),
            Word::Number(number),
        ],
    )
}

/// The reply where the database refuses.
pub(crate) fn refused_by(alloc: Global, error: SlateDBError) -> Result<Vec<u8>, AllocError>
    ensures text { IfOk result (λ v. v.items ≡ reply_line (Reply.Refused (QueueError.Db error))) }
{
    let answer = Answer::Refused(error);
    let text = reply_text(alloc, &answer);
    drop(answer);
    text
}

/// How many commits there are, and of each its number and how many keys it has.
pub(crate) fn fed(alloc: Global, entries: &[FeedEntry]) -> Result<Vec<u8>, AllocError>
    ensures text { IfOk result (λ v. v.items ≡ reply_line (Reply.FeedIs (map fed_pair entries.now))) }
{
    let mut words = Vec::new(alloc);
    words.push(Word::Text(b"feed"))?;
    words.push(Word::Number(entries.len() as u64))?;
    for entry in entries {
        push_entry(&mut words, entry)?;
    }
    let text = line_of(alloc, words.as_slice());
    drop(words);
    text
}

fn push_entry<'a>(words: &mut Vec<Word<'a>>, entry: &FeedEntry) -> Result<(), AllocError>
    ensures words { OnOk result (map word_text words.new.items ≡ map word_text words.old.items ++ fed_words (fed_pair entry.entry.now)) }
{
    words.push(Word::Number(entry.seq))?;
    words.push(Word::Number(entry.keys.as_slice().len() as u64))?;
    Ok(())
}

/// The words with a space between each two, and a line end.
fn line_of(alloc: Global, words: &[Word<'_>]) -> Result<Vec<u8>, AllocError>
    ensures text { IfOk result (λ v. v.items ≡ join_with_byte 32 (map word_text words.now) ++ (10 ∷ [])) }
{
    let mut line = Vec::new(alloc);
    for (i, word) in words.iter().enumerate() {
        if i > 0 {
            line.push(b' ')?;
        }
        push_word(alloc, &mut line, word)?;
    }
    line.push(b'\n')?;
    Ok(line)
}

/// Adds the word to the line.
fn push_word(alloc: Global, line: &mut Vec<u8>, word: &Word<'_>) -> Result<(), AllocError>
    ensures text { OnOk result (line.new.items ≡ line.old.items ++ word_text word.now) }
{
    match word {
        Word::Text(text) => line.extend_from_slice(text),
        Word::Shown(bytes) => push_text(line, shown(alloc, bytes)?),
        Word::Number(number) => push_text(line, number.to_string(alloc)?.into_bytes()),
    }
}

/// A byte token.
fn shown(alloc: Global, bytes: &[u8]) -> Result<Vec<u8>, AllocError>
    ensures text { IfOk result (λ v. v.items ≡ shown_bytes bytes.now) }
{
    match show(alloc, bytes) {
        Ok(text) => Ok(text),
        Err(error) => {
            drop(error);
            Err(AllocError)
        }
    }
}

/// Adds the text to the line.
fn push_text(line: &mut Vec<u8>, text: Vec<u8>) -> Result<(), AllocError>
    ensures text { OnOk result (line.new.items ≡ line.old.items ++ text.items) }
{
    let pushed = line.extend_from_slice(&text);
    drop(text);
    pushed
}
