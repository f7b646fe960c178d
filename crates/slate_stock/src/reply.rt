//! The texts of replies, each with its line end.
ghost use Rattle.std.specs.Prelude.{◌≡◌, ◌⊎◌, ◌++◌, ◌∷◌, [], codes, false, map, true, IfErr, IfOk, OnOk};
ghost use Rattle.std.specs.List.{join_with_byte};
ghost use Rattle.slate_stock.specs.declared.error.StockError.{StockError};
ghost use Rattle.slate_types.specs.declared.error.SlateDBError.{SlateDBError};
ghost use Rattle.slate_stock.specs.Lines.{ok_words, refused_words, reply_of_words, total_words};
ghost use Rattle.slate_stock.specs.Words.{has_reply, is_said, word_text};

use crate::error::StockError;
use bytes::Bytes;
use slate_language::{Answer, reply_text};
use slate_types::SlateDBError;
use std::alloc::{AllocError, Global};

/// A word of a reply.
#[derive(Clone, Copy)]
enum Word<'a> {
    /// These bytes as they stand.
    Text(&'a [u8]),
    Number(u64),
}

pub(crate) fn done(alloc: Global) -> Result<Vec<u8>, AllocError>
    ensures text { IfOk result (λ v. v.items ≡ reply_of_words ok_words) }
{
    line_of(alloc, &[Word::Text(b"ok")])
}

/// The reply to a line that is refused by the error, where that doesn't end the run, and else the database's own error.
pub(crate) fn refusal(alloc: Global, error: StockError) -> Result<Vec<u8>, SlateDBError>
    ensures said { IfOk result (λ v. (v.items ≡ reply_of_words (refused_words error)) × (is_said error ≡ true)) }
    ensures cause { IfErr result (λ x. ((x ≡ SlateDBError.OutOfMemory) × (is_said error ≡ true)) ⊎ ((error ≡ StockError.Db x) × (is_said error ≡ false))) }
{
    if is_said(&error) {
        refused(alloc, error).map_err(SlateDBError::from)
    } else {
        Err(of_database(error))
    }
}

/// Whether a line is answered the error, and the run goes on: one of the database only where it has no status.
fn is_said(error: &StockError) -> bool
    ensures { result ≡ is_said error.now }
{
    match error {
        StockError::Db(error) => has_reply(error),
        StockError::SameName => true,
        StockError::SameAsset => true,
        StockError::TooMuch => true,
        StockError::BadAmount { .. } => true,
        StockError::AlreadyIssued { .. } => true,
        StockError::NotEnough { .. } => true,
        StockError::ForeignCommit { .. } => true,
    }
}

fn has_reply(error: &SlateDBError) -> bool
    ensures { result ≡ has_reply error.now }
{
    match error {
        SlateDBError::SequenceExhausted => true,
        _ => false,
    }
}

fn of_database(error: StockError) -> SlateDBError
    requires { is_said error ≡ false }
    ensures { error ≡ StockError.Db result }
{
    match error {
        StockError::Db(error) => error,
        StockError::SameName => unreachable!(),
        StockError::SameAsset => unreachable!(),
        StockError::TooMuch => unreachable!(),
        StockError::BadAmount { .. } => unreachable!(),
        StockError::AlreadyIssued { .. } => unreachable!(),
        StockError::NotEnough { .. } => unreachable!(),
        StockError::ForeignCommit { .. } => unreachable!(),
    }
}

/// The text of a refusal.
pub(crate) fn refused(alloc: Global, error: StockError) -> Result<Vec<u8>, AllocError>
    ensures text { IfOk result (λ v. v.items ≡ reply_of_words (refused_words error)) }
{
    match error {
        StockError::SameName => refused_word(alloc, b"SameName"),
        StockError::SameAsset => refused_word(alloc, b"SameAsset"),
        StockError::TooMuch => refused_word(alloc, b"TooMuch"),
        StockError::BadAmount { key } => refused_text(alloc, b"BadAmount", key),
        StockError::AlreadyIssued { asset } => refused_text(alloc, b"AlreadyIssued", asset),
        StockError::NotEnough { key, has, needs } => refused_amounts(alloc, key, has, needs),
        StockError::Db(error) => refused_by(alloc, error),
        StockError::ForeignCommit { seq } => {
            let words = [
                Word::Text(b"refused"),
                Word::Text(b"ForeignCommit"),
                Word::Number(seq),
            ];
            line_of(alloc, &words)
        }
    }
}

fn refused_word(alloc: Global, word: &[u8]) -> Result<Vec<u8>, AllocError>
    ensures text { IfOk result (λ v. v.items ≡ reply_of_words (codes "refused" ∷ word.now ∷ [])) }
{
    line_of(alloc, &[Word::Text(b"refused"), Word::Text(word)])
}

fn refused_text(alloc: Global, word: &[u8], text: Bytes) -> Result<Vec<u8>, AllocError>
    ensures text { IfOk result (λ v. v.items ≡ reply_of_words (codes "refused" ∷ word.now ∷ text ∷ [])) }
{
    let words = [
        Word::Text(b"refused"),
        Word::Text(word),
        Word::Text(text.as_slice()),
    ];
    let line = line_of(alloc, &words);
    drop(text);
    line
}

/// A holding below what is needed of it.
fn refused_amounts(alloc: Global, key: Bytes, has: u64, needs: u64) -> Result<Vec<u8>, AllocError>
    ensures text { IfOk result (λ v. v.items ≡ reply_of_words (refused_words (StockError.NotEnough key has needs))) }
{
    let words = [
        Word::Text(b"refused"),
        Word::Text(b"NotEnough"),
        Word::Text(key.as_slice()),
        Word::Number(has),
        Word::Number(needs),
    ];
    let line = line_of(alloc, &words);
    drop(key);
    line
}

/// The reply where the database refuses.
fn refused_by(alloc: Global, error: SlateDBError) -> Result<Vec<u8>, AllocError>
    ensures text { IfOk result (λ v. v.items ≡ reply_of_words (refused_words (StockError.Db error))) }
{
    let answer = Answer::Refused(error);
    let text = reply_text(alloc, &answer);
    drop(answer);
    text
}

/// The sum of an asset's balances, and what was issued of it.
pub(crate) fn sums(alloc: Global, sum: u64, issued: u64) -> Result<Vec<u8>, AllocError>
    ensures text { IfOk result (λ v. v.items ≡ reply_of_words (total_words sum issued)) }
{
    let words = [
        Word::Text(b"total"),
        Word::Number(sum),
        Word::Number(issued),
    ];
    line_of(alloc, &words)
}

/// The words with a space between each two, and a line end.
fn line_of(alloc: Global, words: &[Word<'_>]) -> Result<Vec<u8>, AllocError>
    ensures text { IfOk result (λ v. v.items ≡ join_with_byte 32 (map word_text words.now) ++ (10 ∷ [])) }
{
    let mut line = Vec::new(alloc);
    for (i, word) in words.iter().enumerate() {
        if i > 0 {
            line.push(b' ')?;
        }
        push_word(alloc, &mut line, word)?;
    }
    line.push(b'\n')?;
    Ok(line)
}

/// Adds the word to the line.
fn push_word(alloc: Global, line: &mut Vec<u8>, word: &Word<'_>) -> Result<(), AllocError>
    ensures text { OnOk result (line.new.items ≡ line.old.items ++ word_text word.now) }
{
    match word {
        Word::Text(text) => line.extend_from_slice(text),
        Word::Number(number) => push_text(line, number.to_string(alloc)?.into_bytes()),
    }
}

/// Adds the text to the line.
fn push_text(line: &mut Vec<u8>, text: Vec<u8>) -> Result<(), AllocError>
    ensures text { OnOk result (line.new.items ≡ line.old.items ++ text.items) }
{
    let pushed = line.extend_from_slice(&text);
    drop(text);
    pushed
}
