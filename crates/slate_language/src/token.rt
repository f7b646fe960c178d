//! The tokens of a line, and what single ones spell.
ghost use Rattle.std.specs.Prelude.{◌≡◌, ◌↔◌, ◌<◌, ◌≤◌, ℕ, ℤ, List, Some, IfOk, bytes_eq, drop, length};
ghost use Rattle.std.specs.List.{list_all, join_with_byte};
ghost use Rattle.std.specs.Option.{option_copied};
ghost use Rattle.slate_language.specs.Text.{is_visible};
ghost use Rattle.slate_language.specs.Grammar.{IsBytes, IsMoment, IsName, IsNumber, is_name_byte};
ghost use Rattle.slate_language.specs.Parse.{only_if, unhex, tokens_of, read_bytes, read_number, read_moment, read_name, read_bound, read_step, read_ttl_token};
ghost use Rattle.slate_language.specs.Built.{until_space, is_name, is_digit, is_numeral, is_moment_text, is_hex_digit};

use crate::text::is_visible;
use bytes::Bytes;
use hex::FromHexError;
use memchr::memchr;
use slate_txn::ScanStep;
use slate_types::Ttl;
use std::alloc::{AllocError, Global};
use std::marker::Model;
use std::ops::Bound;

/// The most bytes of a name.
const MAX_NAME_LEN: usize = 64;

/// A token, by its place in its line. What is cut out of it shares the line's buffer.
#[derive(Drop)]
pub struct Token<'a> {
    line: &'a Bytes,
    start: usize,
    end: usize,
}

impl<'a> Model for Token<'a> {
    ghost use Rattle.std.specs.Prelude.{ℕ, List, ◌≤◌, length, slice_range};

    ghost Value = { List ℕ };

    ghost view = { λ t. slice_range t.line.now t.start t.«end» };

    ghost invariant = { λ t. (t.start ≤ t.«end») × (t.«end» ≤ length t.line.now) };
}

impl<'a> Token<'a> {
    /// Its bytes.
    pub fn text(&self) -> &[u8]
        ensures { result.now ≡ self.now }
    {
        &self.line.as_slice()[self.start..self.end]
    }

    /// The token without its first byte.
    fn behind_first(&self) -> Token<'a>
        requires { 0 < length self.now }
        ensures { result ≡ drop 1 self.now }
    {
        Token {
            line: self.line,
            start: self.start + 1,
            end: self.end,
        }
    }

    /// Its bytes, in the line's buffer.
    pub(crate) fn cut(&self) -> Result<Bytes, AllocError>
        ensures bytes { IfOk result (λ b. b ≡ self.now) }
    {
        self.line.slice(self.start..self.end)
    }
}

/// The bytes between single spaces.
pub fn split_tokens(alloc: Global, line: &Bytes) -> Result<Vec<Token<'_>>, AllocError>
    ensures tokens { IfOk result (λ v. v.items ≡ tokens_of line.now) }
    ensures joined { IfOk result (λ v. join_with_byte 32 v.items ≡ line.now) }
{
    let bytes = line.as_slice();
    let mut tokens = Vec::with_capacity(alloc, 8)?;
    let mut start = 0;
    loop {
        let end = start + until_space(&bytes[start..]);
        tokens.push(Token { line, start, end })?;
        if end == bytes.len() {
            return Ok(tokens);
        }
        start = end + 1;
    }
}

/// How many bytes stand before the first space, or all where there is none.
fn until_space(bytes: &[u8]) -> usize
    ensures len { result ≡ until_space bytes.now }
    ensures within { result ≤ length bytes.now }
{
    match memchr(b' ', bytes) {
        Some(space) => space,
        None => bytes.len(),
    }
}

/// Whether the token is this word.
pub fn is_word(token: &[u8], word: &[u8]) -> bool
    ensures { result ≡ bytes_eq token.now word.now }
{
    token == word
}

/// The token, where it is a name: 1 to 64 letters and digits.
#[tactic(auto, using(crate::proofs::SpelledLaws::name_spelled))]
pub fn read_name(token: &[u8]) -> Option<&[u8]>
    ensures name { option_copied result ≡ read_name token.now }
    ensures spelled { IsName token.now ↔ (option_copied result ≡ Some token.now) }
{
    is_name(token).then_some(token)
}

fn is_name(token: &[u8]) -> bool
    ensures { result ≡ is_name token.now }
{
    !token.is_empty() && token.len() <= MAX_NAME_LEN && is_alphanumeric(token)
}

fn is_alphanumeric(bytes: &[u8]) -> bool
    ensures { result ≡ list_all is_name_byte bytes.now }
{
    bytes.iter().all(|byte| byte.is_ascii_alphanumeric())
}

/// The bytes that the token spells, if any: text behind `'`, or pairs of lower-case hex digits behind `0x`.
pub fn read_bytes(alloc: Global, token: &Token<'_>) -> Result<Option<Bytes>, AllocError>
    ensures bytes { IfOk result (λ o. o ≡ read_bytes token.now) }
    ensures spelled { IfOk result (λ o. (v : List ℕ) → IsBytes token.now v ↔ (o ≡ Some v)) }
{
    read_text_or_hex(alloc, token)
}

fn read_text_or_hex(alloc: Global, token: &Token<'_>) -> Result<Option<Bytes>, AllocError>
    ensures bytes { IfOk result (λ o. o ≡ read_bytes token.now) }
{
    match token.text() {
        [b'\'', ..] => read_text(&token.behind_first()),
        [b'0', b'x', digits @ ..] => read_hex(alloc, digits),
        _ => Ok(None),
    }
}

fn read_text(text: &Token<'_>) -> Result<Option<Bytes>, AllocError>
    ensures bytes { IfOk result (λ o. o ≡ only_if (list_all is_visible text.now) text.now) }
{
    if !is_visible(text.text()) {
        return Ok(None);
    }
    text.cut().map(Some)
}

/// Digits are lower case.
fn read_hex(alloc: Global, digits: &[u8]) -> Result<Option<Bytes>, AllocError>
    ensures bytes { IfOk result (λ o. o ≡ unhex digits.now) }
{
    if !is_hex(digits) {
        return Ok(None);
    }
    match hex::decode(alloc, digits) {
        Ok(bytes) => Ok(Some(Bytes::from_vec(bytes)?)),
        Err(error) => match error {
            FromHexError::OutOfMemory => Err(AllocError),
            _ => Ok(None),
        },
    }
}

fn is_hex(digits: &[u8]) -> bool
    ensures { result ≡ list_all is_hex_digit digits.now }
{
    digits
        .iter()
        .all(|digit| matches!(digit, b'0'..=b'9' | b'a'..=b'f'))
}

/// The number of 64 bits that the token spells, if any: digits, with no zero before others.
pub fn read_number(token: &[u8]) -> Option<u64>
    ensures number { result ≡ read_number token.now }
    ensures spelled { (n : ℕ) → IsNumber token.now n ↔ (result ≡ Some n) }
{
    if !is_numeral(token) {
        return None;
    }
    match str::from_utf8(token) {
        Ok(text) => text.parse().ok(),
        Err(_) => None,
    }
}

/// The moment that the token spells, if any: a number of 63 bits, or `-` and one that isn't 0 or one more than that.
pub fn read_moment(token: &[u8]) -> Option<i64>
    ensures moment { result ≡ read_moment token.now }
    ensures spelled { (z : ℤ) → IsMoment token.now z ↔ (result ≡ Some z) }
{
    if !is_moment_text(token) {
        return None;
    }
    match str::from_utf8(token) {
        Ok(text) => text.parse().ok(),
        Err(_) => None,
    }
}

fn is_moment_text(token: &[u8]) -> bool
    ensures { result ≡ is_moment_text token.now }
{
    match token {
        b"-0" => false,
        [b'-', digits @ ..] => is_numeral(digits),
        _ => is_numeral(token),
    }
}

/// Whether the token is digits, with no zero before others.
fn is_numeral(token: &[u8]) -> bool
    ensures { result ≡ is_numeral token.now }
{
    match token {
        [] | [b'0', _, ..] => false,
        _ => is_digits(token),
    }
}

fn is_digits(token: &[u8]) -> bool
    ensures { result ≡ list_all is_digit token.now }
{
    token.iter().all(|byte| byte.is_ascii_digit())
}

/// A time to live: `t` and milliseconds, or `t-` for none.
pub(crate) fn read_ttl(token: &[u8]) -> Option<Ttl>
    ensures { result ≡ read_ttl_token token.now }
{
    let [b't', text @ ..] = token else {
        return None;
    };
    if is_word(text, b"-") {
        return Some(Ttl::NoExpiry);
    }
    match read_number(text) {
        Some(millis) => Some(Ttl::ExpireAfter(millis)),
        None => None,
    }
}

/// A bound of a range: `i` or `e` and a byte token, or `*` for none.
pub(crate) fn read_bound(
    alloc: Global,
    token: &Token<'_>,
) -> Result<Option<Bound<Bytes>>, AllocError>
    ensures bound { IfOk result (λ o. o ≡ read_bound token.now) }
{
    match token.text() {
        [b'i', ..] => match read_bytes(alloc, &token.behind_first())? {
            Some(key) => Ok(Some(Bound::Included(key))),
            None => Ok(None),
        },
        [b'e', ..] => match read_bytes(alloc, &token.behind_first())? {
            Some(key) => Ok(Some(Bound::Excluded(key))),
            None => Ok(None),
        },
        b"*" => Ok(Some(Bound::Unbounded)),
        _ => Ok(None),
    }
}

/// A step of a scan: `n` and how many rows, or `s` and the byte token of a key.
pub(crate) fn read_step(alloc: Global, token: &Token<'_>) -> Result<Option<ScanStep>, AllocError>
    ensures step { IfOk result (λ o. o ≡ read_step token.now) }
{
    match token.text() {
        [b'n', digits @ ..] => match read_number(digits) {
            Some(rows) => Ok(Some(ScanStep::Rows(rows))),
            None => Ok(None),
        },
        [b's', ..] => match read_bytes(alloc, &token.behind_first())? {
            Some(key) => Ok(Some(ScanStep::Seek(key))),
            None => Ok(None),
        },
        _ => Ok(None),
    }
}
