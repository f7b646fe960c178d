//! Whole callers of the store, as docs/EMBEDDING.md prints them: a shop by one thread, visits by
//! two threads over a folder, and claims by an operator of one's own.
#![tactic(auto)]

mod claims;
mod shop;
mod visits;

use slatedb::{MemoryStore, SlateDBError};
use std::fs;
use std::process::ExitCode;
use std::sync::Wait;
use std::thread::Threads;

/// The folder of the visits' tables, which is made and taken away.
const FOLDER: &str = "uses-visits";

fn main(rt: HostRuntime) -> ExitCode {
    // Threads and locks are reached by a type parameter's handle, files by the program's own: so
    // it is handed over twice.
    match run(&rt, &rt) {
        Ok(()) => ExitCode::from(0),
        Err(error) => {
            let _ = eprintln!(rt; "stopped: {error}");
            ExitCode::from(error.status().unwrap_or(1))
        }
    }
}

/// Runs the three, and prints what they give.
fn run<R: Threads + Wait + Sync>(rt: &R, files: &HostRuntime) -> Result<(), SlateDBError> {
    let alloc = files.alloc();
    let mut store = MemoryStore::new(alloc, Vec::new(alloc));
    let stock = shop::run(alloc, &mut store)?;
    say(files, stock.as_str())?;

    clear(files);
    let visits = visits::serve(rt, files, FOLDER);
    clear(files);
    let line = format!(in alloc; "visits {}", visits?)?;
    say(files, line.as_str())?;

    let mut store = MemoryStore::new(alloc, Vec::new(alloc));
    let claimed = claims::run(rt, alloc, &mut store)?;
    say(files, claimed.as_str())
}

fn say(rt: &HostRuntime, line: &str) -> Result<(), SlateDBError> {
    println!(rt; "{line}").map_err(|_| SlateDBError::WriteFault)
}

/// A store begins empty: so tables of an earlier run go first.
fn clear(files: &HostRuntime) {
    let _ = fs::remove_dir_all(files, FOLDER);
}
