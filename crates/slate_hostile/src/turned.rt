//! Each byte of the tables changed in turn.

use crate::cases::{Case, FILTERS, FORMATS, Format};
use crate::ends::Ends;
use crate::runs::{Ended, run};
use crate::turned_store::TurnedStore;
use slate_types::SlateDBError;
use std::alloc::Global;

/// The bits that are turned: the lowest, the highest, and all.
const MASKS: &[u8] = &[1, 128, 255];

/// Runs the cases, in each version, with filters and without.
pub fn try_cases(alloc: Global, cases: &[Case]) -> Result<Ends, SlateDBError> {
    let mut ends = Ends::none();
    for case in cases {
        try_case(alloc, &mut ends, case)?;
    }
    Ok(ends)
}

fn try_case(alloc: Global, ends: &mut Ends, case: &Case) -> Result<(), SlateDBError> {
    for format in FORMATS {
        try_format(alloc, ends, case, format)?;
    }
    Ok(())
}

fn try_format(
    alloc: Global,
    ends: &mut Ends,
    case: &Case,
    format: &Format,
) -> Result<(), SlateDBError> {
    for filters in FILTERS {
        try_words(alloc, ends, case.1, &[case.0, format.0, *filters])?;
    }
    Ok(())
}

/// Runs the script by the words, without a change and with each.
fn try_words(
    alloc: Global,
    ends: &mut Ends,
    script: &[u8],
    words: &[&[&str]],
) -> Result<(), SlateDBError> {
    let mut store = TurnedStore::new(alloc, usize::MAX, 0);
    let honest = run(alloc, words, script, &mut store)?;
    let bytes = store.put_bytes();
    drop(store);
    let tried = try_bytes(alloc, ends, script, words, &honest, bytes);
    drop(honest);
    tried
}

fn try_bytes(
    alloc: Global,
    ends: &mut Ends,
    script: &[u8],
    words: &[&[&str]],
    honest: &Ended,
    bytes: usize,
) -> Result<(), SlateDBError> {
    ends.count(honest, honest, false);
    for at in 0..bytes {
        try_masks(alloc, ends, script, words, honest, at)?;
    }
    Ok(())
}

fn try_masks(
    alloc: Global,
    ends: &mut Ends,
    script: &[u8],
    words: &[&[&str]],
    honest: &Ended,
    at: usize,
) -> Result<(), SlateDBError> {
    for mask in MASKS {
        let mut store = TurnedStore::new(alloc, at, *mask);
        let ended = run(alloc, words, script, &mut store)?;
        ends.count(&ended, honest, false);
        drop((store, ended));
    }
    Ok(())
}
