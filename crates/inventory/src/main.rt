//! An inventory by lines of standard input, over a database in memory: a program that embeds the store.
//!
//!     receive tea 10      more of an item has come
//!     sell tea 4          some of it goes, if there is enough
//!     flush               the rows in memory become tables
//!     report              each item with its count, upwards by name
#![tactic(auto)]

ghost use Rattle.std.specs.Prelude.{◌≡◌};
ghost use Rattle.slate_shared.specs.Given.{ArePlain};

mod command;
mod inventory;

use command::Command;
use inventory::{apply, flush, report};
use slatedb::{Database, Laws, MemoryStore, NoExtractor, Pass, Plain, SlateDBError, Store};
use std::io::Input;
use std::process::ExitCode;
use std::sync::Wait;

fn main(rt: HostRuntime) -> ExitCode {
    match run(&rt) {
        Ok(()) => ExitCode::from(0),
        Err(error) => {
            let _ = eprintln!(rt; "stopped: {error}");
            ExitCode::from(error.status().unwrap_or(1))
        }
    }
}

/// Opens an empty database, answers all lines, and closes it.
fn run<R: Wait + AllocGlobal + Input + Print>(rt: &R) -> Result<(), SlateDBError> {
    let alloc = rt.alloc();
    let mut store = MemoryStore::new(alloc, Vec::new(alloc));
    let laws = Plain::laws(alloc);
    let (db, mut pass) = Database::<Plain>::new(alloc, &laws.options)?;
    let answered = answer_lines(rt, &db, &mut pass, &mut store, &laws);
    db.close(rt, pass).close();
    answered
}

fn answer_lines<R: Wait + AllocGlobal + Input + Print, S: Store>(
    rt: &R,
    db: &Database<Plain>,
    pass: &mut Pass<Plain>,
    store: &mut S,
    laws: &Laws<NoExtractor>,
) -> Result<(), SlateDBError>
    requires table { pass.old.table ≡ db.now }
    requires laws { ArePlain laws.now.options laws.now.segments laws.now.policies.items }
    ensures same { (pass.new.table ≡ pass.old.table) × (pass.new.parts ≡ pass.old.parts) }
{
    for line in rt.lines(rt.alloc()) {
        let Ok(line) = line else {
            return Err(SlateDBError::ReadFault);
        };
        let text = answer(rt, db, pass, store, laws, line.as_str())?;
        if println!(rt; "{text}").is_err() {
            return Err(SlateDBError::WriteFault);
        }
    }
    Ok(())
}

/// Does what a line asks for, and gives what is to be said.
fn answer<R: Wait + AllocGlobal, S: Store>(
    rt: &R,
    db: &Database<Plain>,
    pass: &mut Pass<Plain>,
    store: &mut S,
    laws: &Laws<NoExtractor>,
    line: &str,
) -> Result<String, SlateDBError>
    requires table { pass.old.table ≡ db.now }
    requires laws { ArePlain laws.now.options laws.now.segments laws.now.policies.items }
    ensures same { (pass.new.table ≡ pass.old.table) × (pass.new.parts ≡ pass.old.parts) }
{
    let alloc = rt.alloc();
    let text = match Command::read(line) {
        Some(Command::Change(item, by)) => {
            match apply(rt, alloc, db, pass, store, laws, item, by)? {
                Some(count) => format!(in alloc; "{item} {count}")?,
                None => format!(in alloc; "refused {item}")?,
            }
        }
        Some(Command::Flush) => {
            flush(rt, db, pass, store, laws)?;
            format!(in alloc; "flushed")?
        }
        Some(Command::Report) => report(rt, alloc, db, pass, store, laws)?,
        None => format!(in alloc; "unknown {line}")?,
    };
    Ok(text)
}
