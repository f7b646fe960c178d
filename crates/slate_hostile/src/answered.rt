//! Each read answered otherwise in turn.

use crate::cases::{Case, FILTERS, FORMATS, Format};
use crate::ends::Ends;
use crate::runs::{Ended, run};
use bytes::Bytes;
use slate_store::{LyingStore, StoreRead};
use slate_types::SlateDBError;
use std::alloc::Global;

/// A script, its words, how it ends over a store that doesn't lie, and whether checksums cover places.
#[derive(Drop)]
struct Honest<'a> {
    script: &'a [u8],
    words: &'a [&'a [&'a str]],
    ended: &'a Ended,
    is_placed: bool,
}

/// Runs the cases, in each version, with filters and without.
pub fn try_cases(alloc: Global, cases: &[Case]) -> Result<Ends, SlateDBError> {
    let mut ends = Ends::none();
    for case in cases {
        try_case(alloc, &mut ends, case)?;
    }
    Ok(ends)
}

fn try_case(alloc: Global, ends: &mut Ends, case: &Case) -> Result<(), SlateDBError> {
    for format in FORMATS {
        try_format(alloc, ends, case, format)?;
    }
    Ok(())
}

fn try_format(
    alloc: Global,
    ends: &mut Ends,
    case: &Case,
    format: &Format,
) -> Result<(), SlateDBError> {
    for filters in FILTERS {
        try_words(alloc, ends, case.1, &[case.0, format.0, *filters], format.1)?;
    }
    Ok(())
}

/// Runs the script by the words, without a lie and with each.
fn try_words(
    alloc: Global,
    ends: &mut Ends,
    script: &[u8],
    words: &[&[&str]],
    is_placed: bool,
) -> Result<(), SlateDBError> {
    let mut store = LyingStore::new(alloc, Vec::new(alloc));
    let ended = run(alloc, words, script, &mut store)?;
    ends.count(&ended, &ended, false);
    let honest = Honest {
        script,
        words,
        ended: &ended,
        is_placed,
    };
    let tried = try_reads(alloc, ends, &honest, store.reads());
    drop((store, ended));
    tried
}

fn try_reads(
    alloc: Global,
    ends: &mut Ends,
    honest: &Honest<'_>,
    reads: &[StoreRead],
) -> Result<(), SlateDBError> {
    let mut number: u64 = 0;
    for read in reads {
        number = number.saturating_add(1);
        try_lie(alloc, ends, honest, number, None, false)?;
        try_fronts(alloc, ends, honest, number, read)?;
        try_others(alloc, ends, honest, number, reads)?;
    }
    Ok(())
}

fn try_fronts(
    alloc: Global,
    ends: &mut Ends,
    honest: &Honest<'_>,
    number: u64,
    read: &StoreRead,
) -> Result<(), SlateDBError> {
    let Some(bytes) = &read.bytes else {
        return Ok(());
    };
    for len in 0..bytes.len() {
        let front = bytes.slice(0..len)?;
        try_lie(alloc, ends, honest, number, Some(front), false)?;
    }
    Ok(())
}

/// Where a checksum covers the place of its section, nothing slips.
fn try_others(
    alloc: Global,
    ends: &mut Ends,
    honest: &Honest<'_>,
    number: u64,
    reads: &[StoreRead],
) -> Result<(), SlateDBError> {
    for other in reads {
        if let Some(bytes) = &other.bytes {
            let section = bytes.clone()?;
            try_lie(
                alloc,
                ends,
                honest,
                number,
                Some(section),
                !honest.is_placed,
            )?;
        }
    }
    Ok(())
}

/// Runs the script where the read with this number is answered so.
fn try_lie(
    alloc: Global,
    ends: &mut Ends,
    honest: &Honest<'_>,
    number: u64,
    answer: Option<Bytes>,
    may_slip: bool,
) -> Result<(), SlateDBError> {
    let mut answers = Vec::new(alloc);
    answers.push((number, answer))?;
    let mut store = LyingStore::new(alloc, answers);
    let ended = run(alloc, honest.words, honest.script, &mut store)?;
    ends.count(&ended, honest.ended, may_slip);
    drop((store, ended));
    Ok(())
}
