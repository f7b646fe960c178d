//! Runs scripts over stores that lie, and says how they ended: `./test hostile` runs all, and without a word one is run and nothing is said.
//!
//! With the word `turned` each byte of the tables of five scripts is changed in turn, in all versions of tables, with filters and without.
//! With the word `answered` each read of ten scripts is answered by none, by each of its fronts and by what each other read of its run was
//! answered. A run over a store that doesn't lie says what the replies are. Each other one ends with these, or with the status of a
//! damaged table behind a front of them. In versions 1 and 2 a whole section of another place has a checksum that fits, so that such a
//! run may end otherwise.
//!
//! With the word `again`, and words of a run behind it, the script of standard input is answered over two cores, by the first one again where it
//! refuses a line for want of memory, and both must give the same replies.
#![tactic(auto)]

mod again;
mod answered;
mod cases;
mod ends;
mod runs;
mod turned;
mod turned_store;

use ends::Ends;
use slate_store::ReaderSource;
use slate_types::SlateDBError;
use std::alloc::Global;
use std::env;
use std::io::ErrorKind;
use std::process::ExitCode;

fn main(rt: HostRuntime) -> ExitCode {
    ExitCode::from(status(&rt))
}

/// 0, 1 where a run ended as it mustn't or no damage was met, 2 for words that are not known, 20 for want of memory, or another that a script's
/// run ends with.
fn status(rt: &HostRuntime) -> u8 {
    let words = match env::args(rt) {
        Ok(words) => words,
        Err(error) if error.kind() == ErrorKind::OutOfMemory => return 20,
        Err(_) => return 2,
    };
    let words: Result<Vec<String>, _> = words.skip(1).collect(rt.alloc());
    let Some(words) = words.ok() else { return 20 };
    let status = obey(rt, &words);
    drop(words);
    status
}

fn obey(rt: &HostRuntime, words: &[String]) -> u8 {
    let alloc = rt.alloc();
    match words {
        [] => try_first(alloc),
        [word] if word.as_str() == "turned" => report(
            rt,
            turned::try_cases(alloc, &cases::TEN[..5]),
        ),
        [word] if word.as_str() == "answered" => report(rt, answered::try_cases(alloc, cases::TEN)),
        [word] if word.as_str() == "--version" => print_version(rt),
        [word, rest @ ..] if word.as_str() == "again" => answer_again(rt, rest),
        _ => 2,
    }
}

/// The first case over stores that lie in each way.
fn try_first(alloc: Global) -> u8 {
    let first = &cases::TEN[..1];
    let turned = quiet(turned::try_cases(alloc, first));
    turned.max(quiet(answered::try_cases(alloc, first)))
}

fn answer_again(rt: &HostRuntime, words: &[String]) -> u8 {
    let mut source = ReaderSource::new(rt.stdin());
    match again::answers_alike(rt.alloc(), words, &mut source) {
        Ok(Some(true)) => 0,
        Ok(Some(false)) => 1,
        Ok(None) => 2,
        Err(error) => {
            let status = error.status().unwrap_or(20);
            drop(error);
            status
        }
    }
}

fn print_version(rt: &HostRuntime) -> u8 {
    match println!(rt; "slate_hostile 0.1.0") {
        Ok(()) => 0,
        Err(_) => 1,
    }
}

/// The status, and nothing is printed.
fn quiet(ends: Result<Ends, SlateDBError>) -> u8 {
    match ends.ok() {
        Some(ends) => status_of(ends),
        None => 20,
    }
}

/// The status for runs that ended so.
fn status_of(ends: Ends) -> u8 {
    if ends.otherwise == 0 && ends.damaged() > 0 {
        0
    } else {
        1
    }
}

/// Prints how the runs ended, and answers the status.
fn report(rt: &HostRuntime, ends: Result<Ends, SlateDBError>) -> u8 {
    let Some(ends) = ends.ok() else { return 20 };
    let all = ends.all();
    let damaged = ends.damaged();
    let printed = println!(rt;
        "{all} runs, {} with the replies, {damaged} with a damaged table, {} with a section that slipped, {} otherwise",
        ends.replied, ends.slipped, ends.otherwise
    );
    let shown = println!(rt;
        "status 12 {}, 14 {}, 15 {}, 16 {}, 18 {}, 19 {}",
        ends.checksums, ends.flags, ends.filters, ends.corrupt, ends.rises, ends.operands
    );
    if printed.is_ok() && shown.is_ok() {
        status_of(ends)
    } else {
        1
    }
}
