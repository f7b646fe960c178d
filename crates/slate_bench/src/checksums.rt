//! The checksum of many bytes.
use crate::report::Report;
use anyhow::Error;
use slate_table::checksum;
use slate_types::SlateDBError;
use std::alloc::{AllocError, Global};

/// How many bytes are summed at first.
const BYTES: u32 = 4_194_304;

/// How often they are summed.
const TIMES: u32 = 64;

/// Bytes of all values.
fn make_bytes(alloc: Global) -> Result<Vec<u8>, AllocError> {
    let mut bytes = Vec::with_capacity(alloc, BYTES as usize)?;
    for number in 0..BYTES {
        bytes.push((number % 251) as u8)?;
    }
    Ok(bytes)
}

/// Sums the bytes again and again. Reports it.
pub fn measure(report: &Report) -> Result<(), Error> {
    let mut bytes = make_bytes(report.alloc())?;
    let start = report.start()?;
    let done = sum(report.alloc(), &mut bytes);
    report.finish("checksum", done, start)
}

/// Sums the bytes with one more each time, since the sum of the same bytes would be computed once. Answers what was done.
fn sum(alloc: Global, bytes: &mut Vec<u8>) -> Result<String, SlateDBError> {
    let mut sums = 0u64;
    let mut len = 0u64;
    for turn in 0..TIMES {
        bytes.push((turn % 251) as u8)?;
        sums = sums.saturating_add(u64::from(checksum(bytes)));
        len = len.saturating_add(bytes.len() as u64);
    }
    format!(in alloc; "{len} bytes, sums {sums}").map_err(SlateDBError::from)
}
