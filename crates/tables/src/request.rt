//! What the words of the modes that merge the tables ask for.
use bytes::Bytes;
use slate_language::{NamedOperator, Xor, parse_line, parse_words};
use slate_txn::Line;
use slate_types::{BytesRange, IterationOrder, SlateDBError};
use std::alloc::Global;

/// What is written.
#[derive(Drop)]
pub enum Mode {
    /// The rows of all keys, rising.
    State,
    /// The rows of a range, in an order.
    Range {
        range: BytesRange,
        order: IterationOrder,
    },
    /// The row of a key.
    Get {
        key: Bytes,
    },
    /// A script of all rows.
    Script,
}

/// What is asked for: a mode, and of the run's words the ones that are used.
#[derive(Drop)]
pub struct Request {
    pub mode: Mode,
    mask: Option<u8>,
    pub operator: Option<NamedOperator>,
}

impl Request {
    /// Returns the transformer of a word `xor=`, if there is one.
    pub fn transformer(&self) -> Option<Xor> {
        match self.mask {
            None => None,
            Some(mask) => Some(Xor { mask }),
        }
    }
}

/// What the words ask for. None if they ask for another mode, or aren't known.
pub fn read_request(alloc: Global, words: &[String]) -> Result<Option<Request>, SlateDBError> {
    match words {
        [word, order, start, end, rest @ ..]
            if is(word, b"state") && (is(order, b"asc") || is(order, b"desc")) => {
            let line = read_line(alloc, format!(in alloc; "scan t {order} {start} {end}")?)?;
            Ok(with_settings(line.and_then(part_of), rest))
        }
        [word, key, rest @ ..] if is(word, b"get") => {
            let line = read_line(alloc, format!(in alloc; "get t {key}")?)?;
            Ok(with_settings(line.and_then(key_of), rest))
        }
        [word, rest @ ..] if is(word, b"state") => Ok(with_settings(Some(Mode::State), rest)),
        [word, rest @ ..] if is(word, b"script") => Ok(with_settings(Some(Mode::Script), rest)),
        _ => Ok(None),
    }
}

fn is(word: &String, text: &[u8]) -> bool {
    word.as_bytes() == text
}

/// The line of the language that the text is, if it is one.
fn read_line(alloc: Global, text: String) -> Result<Option<Line>, SlateDBError> {
    match parse_line(alloc, text.into_bytes()) {
        Err(SlateDBError::ScriptSyntax { .. }) => Ok(None),
        line => line,
    }
}

/// The rows that a line `scan` without steps asks for.
fn part_of(line: Line) -> Option<Mode> {
    match line {
        Line::Scan {
            order,
            start,
            end,
            steps,
            ..
        } => {
            if !steps.as_slice().is_empty() {
                return None;
            }
            let range = BytesRange { start, end };
            Some(Mode::Range { range, order })
        }
        _ => None,
    }
}

/// The row that a line `get` asks for.
fn key_of(line: Line) -> Option<Mode> {
    match line {
        Line::Get { key, .. } => Some(Mode::Get { key }),
        _ => None,
    }
}

/// The mode with what the words of a run set.
fn with_settings(mode: Option<Mode>, words: &[String]) -> Option<Request> {
    let mode = mode?;
    let settings = parse_words(words, &[])?;
    Some(Request {
        mode,
        mask: settings.mask,
        operator: settings.operator,
    })
}
