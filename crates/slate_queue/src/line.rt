//! The lines of a queue's script.
ghost use Rattle.std.specs.Prelude.{◌≡◌, ◌⊎◌, Ok, None, Some, IfErr, IfOk, IfSome, false, true};
ghost use Rattle.slate_types.specs.declared.error.SlateDBError.{SlateDBError};
ghost use Rattle.slate_language.specs.Parse.{tokens_of};
ghost use Rattle.slate_language.specs.Replies.{is_silent};
ghost use Rattle.slate_queue.specs.Script.{add_line, claim_line, feed_line, finish_line, line_behind, line_of, meaning};

use bytes::Bytes;
use slate_language::{Token, is_word, read_bytes, read_moment, read_number, split_tokens};
use slate_types::SlateDBError;
use std::alloc::{AllocError, Global};

/// What a line asks for.
#[derive(Drop)]
pub enum Line {
    /// A job is to be added.
    Add { payload: Bytes },
    /// A job is to be claimed, at a moment, for so many milliseconds.
    Claim { now: i64, ms: u64 },
    /// The job of this id, which was claimed under this lease, is to be finished.
    Finish { id: u64, lease: u64 },
    /// The commits above a number are to be shown.
    Feed { after: u64 },
}

/// What the line with this number asks for, and None for an empty line and a comment. `ScriptSyntax` comes exactly where it is none of
/// these.
pub(crate) fn read_line(
    alloc: Global,
    line: &[u8],
    number: u64,
) -> Result<Option<Line>, SlateDBError>
    ensures meant { IfOk result (λ o. IfSome o (λ l. (is_silent line.now ≡ false) × (meaning line.now ≡ Some l))) }
    ensures silent { result ≡ Ok None → is_silent line.now ≡ true }
    ensures cause { IfErr result (λ e. (e ≡ SlateDBError.OutOfMemory) ⊎ ((e ≡ SlateDBError.ScriptSyntax number) × (is_silent line.now ≡ false) × (meaning line.now ≡ None))) }
{
    if is_silent(line) {
        return Ok(None);
    }
    match read_text(alloc, line)? {
        Some(line) => Ok(Some(line)),
        None => Err(SlateDBError::ScriptSyntax { line: number }),
    }
}

/// Whether the line is empty or a comment.
fn is_silent(line: &[u8]) -> bool
    ensures { result ≡ is_silent line.now }
{
    line.first().is_none_or(|byte| *byte == b'#')
}

fn read_text(alloc: Global, text: &[u8]) -> Result<Option<Line>, AllocError>
    ensures line { IfOk result (λ o. o ≡ meaning text.now) }
{
    let text = Bytes::copy_from_slice(alloc, text)?;
    let line = read_shared(alloc, &text);
    drop(text);
    line
}

/// What the text asks for. A payload shares its buffer.
fn read_shared(alloc: Global, text: &Bytes) -> Result<Option<Line>, AllocError>
    ensures line { IfOk result (λ o. o ≡ meaning text.now) }
{
    let tokens = split_tokens(alloc, text)?;
    let line = read_tokens(alloc, tokens.as_slice());
    drop(tokens);
    line
}

fn read_tokens(alloc: Global, tokens: &[Token<'_>]) -> Result<Option<Line>, AllocError>
    ensures line { IfOk result (λ o. o ≡ line_of tokens.now) }
{
    let Some((word, rest)) = tokens.split_first() else {
        return Ok(None);
    };
    read_behind(alloc, word.text(), rest)
}

/// The line that begins with the word.
fn read_behind(alloc: Global, word: &[u8], tokens: &[Token<'_>]) -> Result<Option<Line>, AllocError>
    ensures line { IfOk result (λ o. o ≡ line_behind word.now tokens.now) }
{
    if is_word(word, b"add") {
        read_add(alloc, tokens)
    } else if is_word(word, b"claim") {
        Ok(read_claim(tokens))
    } else if is_word(word, b"finish") {
        Ok(read_finish(tokens))
    } else if is_word(word, b"feed") {
        Ok(read_feed(tokens))
    } else {
        Ok(None)
    }
}

/// `add` and a payload
fn read_add(alloc: Global, tokens: &[Token<'_>]) -> Result<Option<Line>, AllocError>
    ensures line { IfOk result (λ o. o ≡ add_line tokens.now) }
{
    let [payload] = tokens else {
        return Ok(None);
    };
    match read_bytes(alloc, payload)? {
        Some(payload) => Ok(Some(Line::Add { payload })),
        None => Ok(None),
    }
}

/// `claim`, a moment and milliseconds
fn read_claim(tokens: &[Token<'_>]) -> Option<Line>
    ensures { result ≡ claim_line tokens.now }
{
    let [now, ms] = tokens else {
        return None;
    };
    let now = read_moment(now.text())?;
    let ms = read_number(ms.text())?;
    Some(Line::Claim { now, ms })
}

/// `finish`, an id and a lease number
fn read_finish(tokens: &[Token<'_>]) -> Option<Line>
    ensures { result ≡ finish_line tokens.now }
{
    let [id, lease] = tokens else {
        return None;
    };
    let id = read_number(id.text())?;
    let lease = read_number(lease.text())?;
    Some(Line::Finish { id, lease })
}

/// `feed` and the number of a commit
fn read_feed(tokens: &[Token<'_>]) -> Option<Line>
    ensures { result ≡ feed_line tokens.now }
{
    let [after] = tokens else {
        return None;
    };
    let after = read_number(after.text())?;
    Some(Line::Feed { after })
}
