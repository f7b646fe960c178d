//! Does the work that the store's time goes into, and says what was done: bench/run runs it beside plain Rust.
//!
//! With no word it prints counts alone, and with the word `time` how long each took too. With the word `write` and a folder it
//! puts two tables there: each at a path of its own, and then both again and again at one path. With the word `threads` and two numbers
//! so many threads share so many rounds of transactions on one database; a word behind them says what is printed beside the counts:
//! `time` how long the rounds took, and `log` a line for each attempt and for each event of the journal.
#![tactic(auto)]

mod blocks;
mod checksums;
mod folder;
mod report;
mod rounds;
mod rows;
mod shared_store;
mod sharing;
mod sums;
mod tables;

use anyhow::Error;
use report::Report;
use slate_types::RowEntry;
use std::env;
use std::process::ExitCode;

/// How many rows a table has.
const TABLE_ROWS: usize = 100_000;

/// The status: 0, or 2 for words that are not known.
fn main(rt: HostRuntime) -> Result<ExitCode, Error> {
    let words = words_of(&rt)?;
    let status = match sharing::task_of(&words) {
        Some(task) => sharing::run(&rt, rt.alloc(), task).and(Ok(0)),
        None => obey(&rt, &words),
    };
    drop(words);
    status.map(ExitCode::from)
}

fn words_of(rt: &HostRuntime) -> Result<Vec<String>, Error> {
    let words: Result<Vec<String>, _> = env::args(rt)?.skip(1).collect(rt.alloc());
    Ok(words?)
}

/// Does what the words ask for, and answers the status.
fn obey(rt: &HostRuntime, words: &[String]) -> Result<u8, Error> {
    match words {
        [] => measure(rt, false).and(Ok(0)),
        [word] => obey_word(rt, word.as_str()),
        [word, folder] if word.as_str() == "write" => write(rt, folder).and(Ok(0)),
        _ => Ok(2),
    }
}

fn obey_word(rt: &HostRuntime, word: &str) -> Result<u8, Error> {
    if word == "time" {
        return measure(rt, true).and(Ok(0));
    }
    if word == "--version" {
        let printed = println!(rt; "slate_bench 0.1.0");
        return printed.map_err(Error::from).and(Ok(0));
    }
    Ok(2)
}

fn write(rt: &HostRuntime, folder: &str) -> Result<(), Error> {
    let rows = rows::make_rows(rt.alloc())?;
    folder::write(rt, folder, &rows).map_err(Error::from)
}

fn measure(rt: &HostRuntime, is_timed: bool) -> Result<(), Error> {
    let rows = rows::make_rows(rt.alloc())?;
    measure_rows(&Report::new(rt, is_timed), &rows)
}

fn measure_rows(report: &Report, rows: &[RowEntry]) -> Result<(), Error> {
    blocks::measure(report, rows, 1)?;
    blocks::measure(report, rows, 2)?;
    checksums::measure(report)?;
    let few = &rows[..rows.len().min(TABLE_ROWS)];
    tables::measure(report, few, 1)?;
    tables::measure(report, few, 2)
}
