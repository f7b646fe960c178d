//! Kinds of tokens.
use slate_language::{read_moment, read_name, read_number};

/// A kind of token.
#[derive(Clone, Copy, Debug, PartialEq, Eq)]
pub enum Kind {
    Name,
    Key,
    Value,
    Number,
    Moment,
    Level,
    Order,
    Bound,
    Time,
    Step,
}

impl Kind {
    /// Returns what a token of the kind is called.
    pub fn text(self) -> &'static str {
        match self {
            Kind::Name => "a name, 1 to 64 letters and digits",
            Kind::Key => "a key, as 'text, 0x74657874 or \"a text\"",
            Kind::Value => "a value, as 'text, 0x74657874 or \"a text\"",
            Kind::Number => "a number below 2^64 without leading zeros",
            Kind::Moment => "a moment in milliseconds without leading zeros",
            Kind::Level => "si or ssi",
            Kind::Order => "asc or desc",
            Kind::Bound => "a bound, as i'key, e'key or *",
            Kind::Time => "a time to live, as t1000 or t-",
            Kind::Step => "a step, as n10 or s'key",
        }
    }

    /// Whether the token is of the kind.
    pub fn fits(self, token: &[u8]) -> bool {
        match self {
            Kind::Name => read_name(token).is_some(),
            Kind::Key | Kind::Value => spells_bytes(token),
            Kind::Number => read_number(token).is_some(),
            Kind::Moment => read_moment(token).is_some(),
            Kind::Level => is(token, b"si") || is(token, b"ssi"),
            Kind::Order => is(token, b"asc") || is(token, b"desc"),
            Kind::Bound => is_bound(token),
            Kind::Time => is_time(token),
            Kind::Step => is_step(token),
        }
    }
}

/// Whether the token is this word.
pub(crate) fn is(token: &[u8], word: &[u8]) -> bool {
    token == word
}

fn is_bound(token: &[u8]) -> bool {
    match token.split_first() {
        Some((b'i' | b'e', key)) => spells_bytes(key),
        _ => is(token, b"*"),
    }
}

fn is_time(token: &[u8]) -> bool {
    match token.split_first() {
        Some((b't', time)) => is(time, b"-") || read_number(time).is_some(),
        _ => false,
    }
}

fn is_step(token: &[u8]) -> bool {
    match token.split_first() {
        Some((b'n', rows)) => read_number(rows).is_some(),
        Some((b's', key)) => spells_bytes(key),
        _ => false,
    }
}

/// Whether it is `'` and visible bytes, or `0x` and pairs of hex digits.
fn spells_bytes(token: &[u8]) -> bool {
    match token.split_first() {
        Some((b'\'', text)) => text.iter().all(|byte| byte.is_ascii_graphic()),
        Some((b'0', rest)) => is_hex(rest),
        _ => false,
    }
}

fn is_hex(rest: &[u8]) -> bool {
    match rest.split_first() {
        Some((b'x', digits)) => digits.len() % 2 == 0 && digits.iter().all(is_hex_digit),
        _ => false,
    }
}

fn is_hex_digit(byte: &u8) -> bool {
    byte.is_ascii_digit() || (b'a' <= *byte && *byte <= b'f')
}
