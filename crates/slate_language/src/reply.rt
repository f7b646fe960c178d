//! Answers to lines, and their texts.
ghost use Rattle.std.specs.Prelude.{◌≡◌, ◌++◌, ◌∷◌, [], Some, map, IfOk, OnOk};
ghost use Rattle.std.specs.List.{join_with_byte};
ghost use Rattle.slate_language.specs.Replies.{reply_line};
ghost use Rattle.slate_language.specs.Answers.{entry_commit, reply_of, word_text, words_text};
ghost use Rattle.slate_language.specs.Text.{commit_words, error_words, row_words, spaced, stamp, sequence};
ghost use Rattle.slate_txn.specs.Reply.{JournalIs, Refused, RowsAre};

use crate::text::push_shown;
use bytes::Bytes;
use itoa::Buffer;
use slate_txn::KeyList;
use slate_types::{KeyValue, SlateDBError};
use std::alloc::{AllocError, Global};

/// A commit, as a journal is shown.
#[derive(Drop)]
pub struct JournalEntry {
    pub seq: u64,
    /// The moment, in milliseconds.
    pub now: i64,
    /// The tracked keys, rising.
    pub tracked: KeyList,
}

/// What a line is answered.
#[derive(Drop)]
pub enum Answer {
    Done,
    Refused(SlateDBError),
    NowIs(i64),
    Begun { name: Bytes, start: u64 },
    SnapshotAt { name: Bytes, seq: u64 },
    Found(Option<KeyValue>),
    /// The rows that a scan handed out, in its order.
    Rows(Vec<KeyValue>),
    Committed(Option<u64>),
    Written(Option<u64>),
    Frozen(u64),
    Flushed(u64),
    /// The commits, oldest first.
    Journal(Vec<JournalEntry>),
}

/// A word of a reply.
#[derive(Clone, Copy)]
enum Word<'a> {
    /// These bytes as they stand.
    Text(&'a [u8]),
    /// These bytes as a byte token.
    Shown(&'a [u8]),
    Number(u64),
    Moment(i64),
}

/// The words of an error: its name, and what shows its cause.
#[derive(Clone, Copy)]
enum ErrorWords<'a> {
    Alone(&'a [u8]),
    With(&'a [u8], Word<'a>),
    WithTwo(&'a [u8], Word<'a>, Word<'a>),
    WithThree(&'a [u8], Word<'a>, Word<'a>, Word<'a>),
}

/// The reply, with its line end.
pub fn reply_text(alloc: Global, answer: &Answer) -> Result<Vec<u8>, AllocError>
    ensures text { IfOk result (λ v. v.items ≡ reply_line (reply_of answer.now)) }
{
    match answer {
        Answer::Done => line_of(alloc, &[Word::Text(b"ok")]),
        Answer::Refused(error) => refusal_text(alloc, error),
        Answer::NowIs(moment) => line_of(alloc, &[Word::Text(b"now"), Word::Moment(*moment)]),
        Answer::Begun { name, start } => line_of(
            alloc,
            &[
                Word::Text(b"begun"),
                Word::Text(name.as_slice()),
                Word::Number(*start),
            ],
        ),
        Answer::SnapshotAt { name, seq } => line_of(
            alloc,
            &[
                Word::Text(b"snapshot"),
                Word::Text(name.as_slice()),
                Word::Number(*seq),
            ],
        ),
        Answer::Found(None) => line_of(alloc, &[Word::Text(b"none")]),
        Answer::Found(Some(row)) => row_text(alloc, row),
        Answer::Rows(rows) => rows_text(alloc, rows.as_slice()),
        Answer::Committed(seq) => line_of(alloc, &[Word::Text(b"committed"), sequence(*seq)]),
        Answer::Written(seq) => line_of(alloc, &[Word::Text(b"written"), sequence(*seq)]),
        Answer::Frozen(seq) => line_of(alloc, &[Word::Text(b"frozen"), Word::Number(*seq)]),
        Answer::Flushed(seq) => line_of(alloc, &[Word::Text(b"flushed"), Word::Number(*seq)]),
        Answer::Journal(commits) => journal_text(alloc, commits.as_slice()),
    }
}

/// The reply to a line that is refused by the error.
fn refusal_text(alloc: Global, error: &SlateDBError) -> Result<Vec<u8>, AllocError>
    ensures text { IfOk result (λ v. v.items ≡ reply_line (Refused error.now)) }
{
    match error_words(error) {
        ErrorWords::Alone(name) => line_of(alloc, &[Word::Text(b"refused"), Word::Text(name)]),
        ErrorWords::With(name, detail) => {
            line_of(alloc, &[Word::Text(b"refused"), Word::Text(name), detail])
        }
        ErrorWords::WithTwo(name, first, second) => line_of(
            alloc,
            &[Word::Text(b"refused"), Word::Text(name), first, second],
        ),
        ErrorWords::WithThree(name, first, second, third) => line_of(
            alloc,
            &[
                Word::Text(b"refused"),
                Word::Text(name),
                first,
                second,
                third,
            ],
        ),
    }
}

/// The words of an error, as they stand in a reply.
fn error_words(error: &SlateDBError) -> ErrorWords<'_>
    ensures { words_text result ≡ error_words error.now }
{
    match error {
        SlateDBError::TransactionConflict { seq } => ErrorWords::With(
            b"TransactionConflict",
            Word::Number(*seq),
        ),
        SlateDBError::IncompatibleMergeTtls {
            key,
            previous_expire_ts,
            current_expire_ts,
        } => ErrorWords::WithThree(
            b"IncompatibleMergeTtls",
            Word::Shown(key.as_slice()),
            stamp(*previous_expire_ts),
            stamp(*current_expire_ts),
        ),
        SlateDBError::InvalidSegmentPrefix { prefix, conflict } => ErrorWords::WithTwo(
            b"InvalidSegmentPrefix",
            Word::Shown(prefix.as_slice()),
            Word::Shown(conflict.as_slice()),
        ),
        SlateDBError::EmptyKey => ErrorWords::Alone(b"EmptyKey"),
        SlateDBError::KeyTooLong { len } => ErrorWords::With(b"KeyTooLong", Word::Number(*len)),
        SlateDBError::ValueTooLong { len } => ErrorWords::With(b"ValueTooLong", Word::Number(*len)),
        SlateDBError::InvalidRange => ErrorWords::Alone(b"InvalidRange"),
        SlateDBError::ChecksumMismatch { stored, computed } => ErrorWords::WithTwo(
            b"ChecksumMismatch",
            Word::Number(u64::from(*stored)),
            Word::Number(u64::from(*computed)),
        ),
        SlateDBError::MergeOperatorMissing => ErrorWords::Alone(b"MergeOperatorMissing"),
        SlateDBError::EmptySegmentPrefix { key } => ErrorWords::With(
            b"EmptySegmentPrefix",
            Word::Shown(key.as_slice()),
        ),
        SlateDBError::UnknownTransaction { name } => ErrorWords::With(
            b"UnknownTransaction",
            Word::Text(name.as_slice()),
        ),
        SlateDBError::DuplicateTransaction { name } => ErrorWords::With(
            b"DuplicateTransaction",
            Word::Text(name.as_slice()),
        ),
        SlateDBError::SequenceExhausted => ErrorWords::Alone(b"SequenceExhausted"),
        SlateDBError::ScriptSyntax { line } => ErrorWords::With(
            b"ScriptSyntax",
            Word::Number(*line),
        ),
        SlateDBError::ScriptTooLong => ErrorWords::Alone(b"ScriptTooLong"),
        SlateDBError::ReadFault => ErrorWords::Alone(b"ReadFault"),
        SlateDBError::WriteFault => ErrorWords::Alone(b"WriteFault"),
        SlateDBError::StoreFault => ErrorWords::Alone(b"StoreFault"),
        SlateDBError::Callback { message } => ErrorWords::With(
            b"Callback",
            Word::Shown(message.as_slice()),
        ),
        SlateDBError::EmptyBatch => ErrorWords::Alone(b"EmptyBatch"),
        SlateDBError::BlockTransformError => ErrorWords::Alone(b"BlockTransformError"),
        SlateDBError::EmptySSTable { len } => ErrorWords::With(b"EmptySSTable", Word::Number(*len)),
        SlateDBError::EmptyBlockMeta { len } => ErrorWords::With(
            b"EmptyBlockMeta",
            Word::Number(*len),
        ),
        SlateDBError::InvalidVersion { actual_version } => ErrorWords::With(
            b"InvalidVersion",
            Word::Number(u64::from(*actual_version)),
        ),
        SlateDBError::InvalidRowFlags { encoded_bits } => ErrorWords::With(
            b"InvalidRowFlags",
            Word::Number(u64::from(*encoded_bits)),
        ),
        SlateDBError::InvalidFilterBlock { len } => ErrorWords::With(
            b"InvalidFilterBlock",
            Word::Number(*len),
        ),
        SlateDBError::CorruptTable { place } => ErrorWords::With(
            b"CorruptTable",
            Word::Number(*place),
        ),
        SlateDBError::UnsupportedCompression { codec } => ErrorWords::With(
            b"UnsupportedCompression",
            Word::Number(u64::from(*codec)),
        ),
        SlateDBError::BlockOutOfRange { block, blocks } => ErrorWords::WithTwo(
            b"BlockOutOfRange",
            Word::Number(*block),
            Word::Number(*blocks),
        ),
        SlateDBError::EmptyBlock => ErrorWords::Alone(b"EmptyBlock"),
        SlateDBError::IteratorNotInitialized => ErrorWords::Alone(b"IteratorNotInitialized"),
        SlateDBError::SeekKeyOutOfKeyRange { key } => ErrorWords::With(
            b"SeekKeyOutOfKeyRange",
            Word::Shown(key.as_slice()),
        ),
        SlateDBError::InvalidSequenceOrder {
            current_seq,
            next_seq,
        } => ErrorWords::WithTwo(
            b"InvalidSequenceOrder",
            Word::Number(*current_seq),
            Word::Number(*next_seq),
        ),
        SlateDBError::LimitReached { limit } => ErrorWords::With(
            b"LimitReached",
            Word::Number(*limit),
        ),
        SlateDBError::OutOfMemory => ErrorWords::Alone(b"OutOfMemory"),
    }
}

fn row_text(alloc: Global, row: &KeyValue) -> Result<Vec<u8>, AllocError>
    ensures text { IfOk result (λ v. v.items ≡ reply_line (reply_of (Answer.Found (Some row.now)))) }
{
    let [key, value, seq, created, expires] = row_words(row);
    line_of(
        alloc,
        &[Word::Text(b"row"), key, value, seq, created, expires],
    )
}

fn rows_text(alloc: Global, rows: &[KeyValue]) -> Result<Vec<u8>, AllocError>
    ensures text { IfOk result (λ v. v.items ≡ reply_line (RowsAre rows.now)) }
{
    let mut line = Vec::with_capacity(alloc, 64)?;
    line.extend_from_slice(b"rows ")?;
    push_word(alloc, &mut line, &Word::Number(rows.len() as u64))?;
    for row in rows {
        push_row(alloc, &mut line, row)?;
    }
    line.push(b'\n')?;
    Ok(line)
}

/// Adds the words of a row to the line, each behind a space.
fn push_row(alloc: Global, line: &mut Vec<u8>, row: &KeyValue) -> Result<(), AllocError>
    ensures text { OnOk result (line.new.items ≡ line.old.items ++ spaced (row_words row.now)) }
{
    push_spaced(alloc, line, &Word::Shown(row.key.as_slice()))?;
    push_spaced(alloc, line, &Word::Shown(row.value.as_slice()))?;
    push_spaced(alloc, line, &Word::Number(row.seq))?;
    push_spaced(alloc, line, &Word::Moment(row.create_ts))?;
    push_spaced(alloc, line, &stamp(row.expire_ts))
}

/// The words of a row: its key, its value, its sequence, when it was made and when it ends.
fn row_words(row: &KeyValue) -> [Word<'_>; 5]
    ensures { map word_text result ≡ row_words row.now }
{
    [
        Word::Shown(row.key.as_slice()),
        Word::Shown(row.value.as_slice()),
        Word::Number(row.seq),
        Word::Moment(row.create_ts),
        stamp(row.expire_ts),
    ]
}

fn journal_text(alloc: Global, commits: &[JournalEntry]) -> Result<Vec<u8>, AllocError>
    ensures text { IfOk result (λ v. v.items ≡ reply_line (JournalIs (map entry_commit commits.now))) }
{
    let mut words = Vec::new(alloc);
    words.push(Word::Text(b"journal"))?;
    words.push(Word::Number(commits.len() as u64))?;
    for commit in commits {
        push_commit(&mut words, commit)?;
    }
    let text = line_of(alloc, words.as_slice());
    drop(words);
    text
}

/// Adds the words of a commit: its sequence, its moment, how many keys it tracks, and these.
fn push_commit<'a>(words: &mut Vec<Word<'a>>, commit: &'a JournalEntry) -> Result<(), AllocError>
    ensures words { OnOk result (map word_text words.new.items ≡ map word_text words.old.items ++ commit_words (entry_commit commit.entry.now)) }
{
    let keys = commit.tracked.as_slice();
    words.push(Word::Number(commit.seq))?;
    words.push(Word::Moment(commit.now))?;
    words.push(Word::Number(keys.len() as u64))?;
    for key in keys {
        words.push(Word::Shown(key.as_slice()))?;
    }
    Ok(())
}

/// The moment, or `-` for none.
fn stamp(moment: Option<i64>) -> Word<'static>
    ensures { word_text result ≡ stamp moment }
{
    match moment {
        None => Word::Text(b"-"),
        Some(moment) => Word::Moment(moment),
    }
}

/// The sequence, or `-` for none.
fn sequence(seq: Option<u64>) -> Word<'static>
    ensures { word_text result ≡ sequence seq }
{
    match seq {
        None => Word::Text(b"-"),
        Some(seq) => Word::Number(seq),
    }
}

/// The words with a space between each two, and a line end.
fn line_of(alloc: Global, words: &[Word<'_>]) -> Result<Vec<u8>, AllocError>
    ensures text { IfOk result (λ v. v.items ≡ join_with_byte 32 (map word_text words.now) ++ (10 ∷ [])) }
{
    let mut line = Vec::with_capacity(alloc, 64)?;
    for (i, word) in words.iter().enumerate() {
        if i > 0 {
            line.push(b' ')?;
        }
        push_word(alloc, &mut line, word)?;
    }
    line.push(b'\n')?;
    Ok(line)
}

/// Adds a space and the word to the line.
fn push_spaced(alloc: Global, line: &mut Vec<u8>, word: &Word<'_>) -> Result<(), AllocError>
    ensures text { OnOk result (line.new.items ≡ line.old.items ++ (32 ∷ word_text word.now)) }
{
    line.push(b' ')?;
    push_word(alloc, line, word)
}

/// Adds the word to the line.
fn push_word(alloc: Global, line: &mut Vec<u8>, word: &Word<'_>) -> Result<(), AllocError>
    ensures text { OnOk result (line.new.items ≡ line.old.items ++ word_text word.now) }
{
    match word {
        Word::Text(text) => line.extend_from_slice(text),
        Word::Shown(bytes) => push_shown(alloc, line, bytes),
        Word::Number(number) => line.extend_from_slice(Buffer::new().format(*number).as_bytes()),
        Word::Moment(moment) => line.extend_from_slice(Buffer::new().format(*moment).as_bytes()),
    }
}
