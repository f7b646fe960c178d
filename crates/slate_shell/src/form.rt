//! The forms of lines.
use crate::kind::{Kind, is};

/// What may follow the tokens that a line must have.
#[derive(Clone, Copy, Debug, PartialEq, Eq)]
pub enum Tail {
    Nothing,
    /// A time to live.
    Time,
    /// Any number of steps.
    Steps,
    /// Any number of keys.
    Keys,
    /// Any number of operations of a batch.
    Operations,
}

/// The form of the lines that begin with one word.
#[derive(Clone, Copy, Debug)]
pub struct Form {
    /// The tokens after the word.
    pub kinds: &'static [Kind],
    pub tail: Tail,
}

/// Returns the form of lines that begin with the word.
pub fn form_of(word: &[u8]) -> Option<Form> {
    match open_form(word) {
        Some(form) => Some(form),
        None => read_form(word).or(write_form(word)),
    }
}

fn made(kinds: &'static [Kind], tail: Tail) -> Option<Form> {
    Some(Form { kinds, tail })
}

fn open_form(word: &[u8]) -> Option<Form> {
    if is(word, b"now") {
        made(&[Kind::Moment], Tail::Nothing)
    } else if is(word, b"begin") {
        made(&[Kind::Name, Kind::Level], Tail::Nothing)
    } else if is(word, b"snapshot") || is(word, b"commit") || is(word, b"rollback") {
        made(&[Kind::Name], Tail::Nothing)
    } else if is(word, b"freeze") || is(word, b"flush") || is(word, b"journal") {
        made(&[], Tail::Nothing)
    } else {
        None
    }
}

fn read_form(word: &[u8]) -> Option<Form> {
    if is(word, b"get") {
        made(&[Kind::Name, Kind::Key], Tail::Nothing)
    } else if is(word, b"scan") {
        made(
            &[Kind::Name, Kind::Order, Kind::Bound, Kind::Bound],
            Tail::Steps,
        )
    } else if is(word, b"prefix") {
        made(
            &[Kind::Name, Kind::Order, Kind::Key, Kind::Bound, Kind::Bound],
            Tail::Steps,
        )
    } else {
        None
    }
}

fn write_form(word: &[u8]) -> Option<Form> {
    if is(word, b"put") || is(word, b"merge") {
        made(&[Kind::Name, Kind::Key, Kind::Value], Tail::Time)
    } else if is(word, b"delete") {
        made(&[Kind::Name, Kind::Key], Tail::Nothing)
    } else if is(word, b"mark") || is(word, b"unmark") {
        made(&[Kind::Name, Kind::Key], Tail::Keys)
    } else if is(word, b"write") {
        made(&[], Tail::Operations)
    } else {
        None
    }
}
