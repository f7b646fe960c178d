// The callers with which the library's documents begin.
ghost use Rattle.slate_shared.specs.Given.{ArePlain};

use crate::calls::{is_row, outer};
use slate_db::engine::Core;
use slate_db::laws::Laws;
use slate_shared::Plain;
use slate_store::{FileStore, MemoryStore};
use slate_types::{KeyValue, NoExtractor, SlateDBError};
use slatedb::first_steps::{put_and_get, put_and_get_in_folder};
use slatedb::threads::{one_thread, serve, write_and_read};
use slatedb::turns::read_by_turns;
use std::alloc::Global;
use std::fs;
use std::sync::Wait;
use std::thread::Threads;

const FOLDER: &str = "facade-objects";

fn is_fruit(found: Result<Option<KeyValue>, SlateDBError>) -> bool {
    is_row(found, (b"fruit", b"apple", 1))
}

fn is_cleared(files: &HostRuntime) -> bool {
    match fs::exists(files, FOLDER).ok() {
        Some(true) => fs::remove_dir_all(files, FOLDER).ok().is_some(),
        Some(false) => true,
        None => false,
    }
}

fn is_put_in_memory(alloc: Global) -> bool {
    let mut store = MemoryStore::new(alloc, Vec::new(alloc));
    is_fruit(put_and_get(alloc, &mut store, b"fruit", b"apple"))
}

fn is_put_in_folder(files: &HostRuntime) -> bool {
    is_cleared(files) && is_fruit(put_and_get_in_folder(files, FOLDER)) && is_cleared(files)
}

#[test]
fn a_core_puts_and_gets(rt: HostRuntime) {
    assert!(rt; is_put_in_memory(rt.alloc()) && is_put_in_folder(&rt));
}

fn is_written_and_read<R: Wait>(rt: &R, alloc: Global) -> bool {
    let mut store = MemoryStore::new(alloc, Vec::new(alloc));
    let mut env = outer(&mut store);
    is_fruit(write_and_read(rt, alloc, &mut env, b"fruit", b"apple"))
}

#[test]
fn a_pass_writes_and_reads(rt: HostRuntime) {
    assert!(rt; is_written_and_read(&rt, rt.alloc()));
}

// A visit begins and commits, a write commits, and a flush freezes and installs.
fn has_five_events<R: Wait>(rt: &R, alloc: Global) -> bool {
    let mut store = MemoryStore::new(alloc, Vec::new(alloc));
    one_thread(rt, alloc, &mut store).ok() == Some(5)
}

#[test]
fn one_thread_has_its_events(rt: HostRuntime) {
    assert!(rt; has_five_events(&rt, rt.alloc()));
}

// Returns the last count of two threads over one folder, each by a store of its own.
fn served<R: Threads + Wait + Sync>(rt: &R, files: &HostRuntime) -> Option<u64> {
    let alloc = files.alloc();
    let mut first = FileStore::new(alloc, files, FOLDER).ok()?;
    let mut second = FileStore::new(alloc, files, FOLDER).ok()?;
    let count = serve(rt, alloc, &mut first, &mut second).ok();
    drop((first, second));
    count
}

fn are_served<R: Threads + Wait + Sync>(rt: &R, files: &HostRuntime) -> bool {
    is_cleared(files) && served(rt, files) == Some(1000) && is_cleared(files)
}

#[test]
fn two_threads_serve_a_thousand_visits(rt: HostRuntime) {
    assert!(rt; are_served(&rt, &rt));
}

fn turns(alloc: Global, core: &mut Core, laws: &Laws<NoExtractor>) -> Option<u64>
    requires { ArePlain laws.now.options laws.now.segments laws.now.policies.items }
{
    let mut store = MemoryStore::new(alloc, Vec::new(alloc));
    let mut env = outer(&mut store);
    read_by_turns(core, b"fruit", b"apple", &mut env, laws)
        .ok()
        .flatten()
}

fn commits_first(alloc: Global) -> bool {
    let laws = Plain::laws(alloc);
    let mut core = Core::new(alloc, &laws.options);
    let seq = turns(alloc, &mut core, &laws);
    core.close();
    seq == Some(1)
}

#[test]
fn two_scans_are_read_by_turns(rt: HostRuntime) {
    assert!(rt; commits_first(rt.alloc()));
}
