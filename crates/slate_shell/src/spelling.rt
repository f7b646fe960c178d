//! Quoted texts, as `"a text \x20"`, in the language's spelling.
ghost use Rattle.std.specs.Prelude.{◌<◌, ◌≤◌, IfOk, length};

use std::alloc::{AllocError, Global};

/// Why a quoted text has no spelling.
#[derive(Clone, Copy, Debug, PartialEq, Eq)]
pub enum SpellingError {
    /// It doesn't end.
    Open,
    /// A backslash is followed by none of `\`, `"` and `x` with two hex digits.
    Escape,
    OutOfMemory,
}

impl From<AllocError> for SpellingError {
    fn from(_error: AllocError) -> SpellingError {
        SpellingError::OutOfMemory
    }
}

impl SpellingError {
    /// Returns what was expected in place of what stands there.
    pub fn expected(self) -> &'static str {
        match self {
            SpellingError::Open => "a closing \"",
            SpellingError::Escape => "\\\\, \\\" or \\x and two hex digits after a backslash",
            SpellingError::OutOfMemory => "more memory",
        }
    }
}

/// Returns the line with each quoted text in hex, as the language spells it. A text is quoted where
/// `"` begins its token, or the key of a bound or a step.
pub fn respell(alloc: Global, typed: &[u8]) -> Result<Vec<u8>, SpellingError> {
    let mut line = Vec::new(alloc);
    match push_line(&mut line, typed) {
        Ok(()) => Ok(line),
        Err(error) => Err(error),
    }
}

fn push_line(line: &mut Vec<u8>, typed: &[u8]) -> Result<(), SpellingError> {
    let mut left = typed;
    while let Some((byte, rest)) = left.split_first() {
        left = rest;
        if *byte == b'"' && begins_text(line) {
            left = push_quoted(line, rest)?;
        } else {
            line.extend_from_slice(&[*byte])?;
        }
    }
    Ok(())
}

/// Whether a quote after these bytes begins a text: they are empty, or end with a space, or with
/// the letter of a bound or a step alone.
fn begins_text(line: &[u8]) -> bool {
    match line.split_last() {
        None | Some((b' ', _)) => true,
        Some((b'i' | b'e' | b's', before)) => before.last() == Some(&b' '),
        _ => false,
    }
}

/// Adds the quoted text that stands at the front in hex, and gives what stands after its end.
fn push_quoted<'a>(line: &mut Vec<u8>, quoted: &'a [u8]) -> Result<&'a [u8], SpellingError>
    ensures { IfOk result (λ rest. length rest.now ≤ length quoted.now) }
{
    line.extend_from_slice(b"0x")?;
    let mut left = quoted;
    while let Some((byte, rest)) = left.split_first() {
        left = rest;
        match *byte {
            b'"' => return Ok(rest),
            b'\\' => left = push_escaped(line, rest)?,
            other => push_hex(line, other)?,
        }
    }
    Err(SpellingError::Open)
}

/// Adds the byte that stands behind a backslash, and gives what stands after it.
fn push_escaped<'a>(line: &mut Vec<u8>, escape: &'a [u8]) -> Result<&'a [u8], SpellingError>
    ensures { IfOk result (λ rest. length rest.now ≤ length escape.now) }
{
    match escape {
        [b'\\', rest @ ..] => {
            push_hex(line, b'\\')?;
            Ok(rest)
        }
        [b'"', rest @ ..] => {
            push_hex(line, b'"')?;
            Ok(rest)
        }
        [b'x', high, low, rest @ ..] if is_digit(*high) && is_digit(*low) => {
            line.extend_from_slice(&[high.to_ascii_lowercase(), low.to_ascii_lowercase()])?;
            Ok(rest)
        }
        _ => Err(SpellingError::Escape),
    }
}

fn is_digit(byte: u8) -> bool {
    byte.is_ascii_hexdigit()
}

fn push_hex(line: &mut Vec<u8>, byte: u8) -> Result<(), AllocError> {
    line.extend_from_slice(&[digit(byte / 16), digit(byte % 16)])
}

fn digit(number: u8) -> u8
    requires { number < 16 }
{
    if number < 10 {
        b'0' + number
    } else {
        b'a' + (number - 10)
    }
}

/// Whether a token of the line is a text that ends with `'` after its first byte, as if that closed
/// it.
pub fn closes_text(typed: &[u8]) -> bool {
    typed
        .split(|byte| *byte == b' ')
        .any(|token| is_closed(token))
}

fn is_closed(token: &[u8]) -> bool {
    token.len() > 1 && token.first() == Some(&b'\'') && token.last() == Some(&b'\'')
}
