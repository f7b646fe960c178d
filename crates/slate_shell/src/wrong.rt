//! What is wrong with a line that is none of the language.
use crate::form::{Form, Tail, form_of};
use crate::kind::{Kind, is};

/// What was expected, and in place of which token; `None` is the line's end.
#[derive(Clone, Copy, Debug)]
pub struct Wrong<'a> {
    pub token: Option<&'a [u8]>,
    pub expected: &'static str,
}

const WORDS: &str =
    "now, begin, snapshot, get, scan, prefix, put, merge, delete, mark, unmark, commit, \
    rollback, write, freeze, flush, journal, help or quit";

const OPERATION: &str = "put, merge or delete";

const END: &str = "the end of the line";

/// Returns what is wrong with the first token that doesn't fit, of a line that is none of the
/// language.
pub fn find_wrong<'a>(tokens: &[&'a [u8]]) -> Wrong<'a> {
    match tokens.split_first() {
        Some((word, rest)) => match form_of(word) {
            Some(form) => find_in(form, rest),
            None => Wrong {
                token: Some(*word),
                expected: WORDS,
            },
        },
        None => Wrong {
            token: None,
            expected: WORDS,
        },
    }
}

fn find_in<'a>(form: Form, tokens: &[&'a [u8]]) -> Wrong<'a> {
    match first_misfit(tokens, 0, form.kinds) {
        Some((at, kind)) => at_token(tokens, at, kind.text()),
        None => find_in_tail(form.tail, tokens, form.kinds.len()),
    }
}

/// The first place from `at` on where no token of the kind stands that is its turn, with the kind.
fn first_misfit(tokens: &[&[u8]], at: usize, kinds: &[Kind]) -> Option<(usize, Kind)> {
    for (number, kind) in kinds.iter().enumerate() {
        let place = at.saturating_add(number);
        if !fits_at(tokens, place, *kind) {
            return Some((place, *kind));
        }
    }
    None
}

/// What is wrong with the tokens from this place on, which are the form's tail.
fn find_in_tail<'a>(tail: Tail, tokens: &[&'a [u8]], at: usize) -> Wrong<'a> {
    match tail {
        Tail::Nothing => at_token(tokens, at, END),
        Tail::Time => at_token(tokens, at, Kind::Time.text()),
        Tail::Steps => at_misfit(tokens, at, Kind::Step),
        Tail::Keys => at_misfit(tokens, at, Kind::Key),
        Tail::Operations => in_operations(tokens),
    }
}

/// Whether a token stands at this place, and is of the kind.
fn fits_at(tokens: &[&[u8]], at: usize, kind: Kind) -> bool {
    match tokens.get(at) {
        Some(token) => kind.fits(token),
        None => false,
    }
}

fn at_token<'a>(tokens: &[&'a [u8]], at: usize, expected: &'static str) -> Wrong<'a> {
    Wrong {
        token: tokens.get(at).copied(),
        expected,
    }
}

/// At the first token from this place on that isn't of the kind.
fn at_misfit<'a>(tokens: &[&'a [u8]], from: usize, kind: Kind) -> Wrong<'a> {
    for at in from..tokens.len() {
        if !fits_at(tokens, at, kind) {
            return at_token(tokens, at, kind.text());
        }
    }
    at_token(tokens, tokens.len(), END)
}

fn in_operations<'a>(tokens: &[&'a [u8]]) -> Wrong<'a> {
    let mut at = 0;
    for _ in tokens {
        let Some(word) = tokens.get(at) else {
            break;
        };
        let kinds = operands_of(word);
        if kinds.is_empty() {
            return at_token(tokens, at, OPERATION);
        }
        let first = at.saturating_add(1);
        if let Some((place, kind)) = first_misfit(tokens, first, kinds) {
            return at_token(tokens, place, kind.text());
        }
        at = first.saturating_add(kinds.len());
        if kinds.len() == 2 && fits_at(tokens, at, Kind::Time) {
            at = at.saturating_add(1);
        }
    }
    at_token(tokens, tokens.len(), END)
}

/// The kinds of tokens after the word of an operation, and none after another word.
fn operands_of(word: &[u8]) -> &'static [Kind] {
    if is(word, b"put") || is(word, b"merge") {
        &[Kind::Key, Kind::Value]
    } else if is(word, b"delete") {
        &[Kind::Key]
    } else {
        &[]
    }
}
