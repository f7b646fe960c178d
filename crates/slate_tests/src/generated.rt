// Runs over scripts that they make for themselves.
use crate::listing::no_policies;
use slate_language::generate;
use slate_script::run_main;
use slate_store::{MemorySink, MemorySource, MemoryStore};
use std::alloc::{AllocError, Global};

// The words of a run, and how it ends: its status, and what it writes.
type Run = (&'static [&'static str], u8, &'static [u8]);

pub fn words_of(alloc: Global, words: &[&str]) -> Result<Vec<String>, AllocError> {
    let mut owned = Vec::new(alloc);
    for word in words {
        owned.push(word.to_string(alloc)?)?;
    }
    Ok(owned)
}

// Whether a run over a source that fails at its first read ends with its status and has written just its line.
fn is_run(alloc: Global, run: &Run) -> Result<bool, AllocError> {
    let words = words_of(alloc, run.0)?;
    let mut failing = Vec::new(alloc);
    failing.push(1)?;
    let mut source = MemorySource::new(Vec::new(alloc), failing);
    let mut sink = MemorySink::new(alloc, Vec::new(alloc));
    let mut store = MemoryStore::new(alloc, Vec::new(alloc));
    let status = run_main(
        alloc,
        words.as_slice(),
        &mut source,
        &mut sink,
        &mut store,
        no_policies(alloc),
    );
    let is_run = status == run.1 && sink.taken() == run.2;
    drop((words, source, sink, store));
    Ok(is_run)
}

fn are_run(alloc: Global, runs: &[Run]) -> bool {
    for run in runs {
        if is_run(alloc, run) != Ok(true) {
            return false;
        }
    }
    true
}

const SHORT: &[Run] = &[
    (&["gen", "0", "5"], 0, b"replies 1 committed 0 hits 0\n"),
    (&["gen", "1", "0"], 0, b"replies 5 committed 1 hits 0\n"),
    (
        &["gen", "1", "0", "seq=7"],
        0,
        b"replies 5 committed 8 hits 0\n",
    ),
    (
        &["gen", "1", "18446744073709551615"],
        0,
        b"replies 5 committed 1 hits 0\n",
    ),
    (&["gen", "100001", "0"], 2, b""),
    (&["gen", "1", "18446744073709551616"], 2, b""),
    (&["gen", "01", "0"], 2, b""),
    (&["gen", "1"], 2, b""),
    (&["gen"], 2, b""),
    (&["gen", "1", "0", "block=0"], 2, b""),
    (&["block=100", "gen", "1", "0"], 2, b""),
    (&["gen", "gen", "1", "0"], 2, b""),
];

const THOUSAND: &[u8] = b"replies 4016 committed 1000 hits 357\n";

#[test]
fn own_scripts_are_summed(rt: HostRuntime) {
    assert!(rt; are_run(rt.alloc(), SHORT));
}

// The sum of a thousand rounds is counted by a program of another language. No layout changes it.
#[test]
fn thousand_rounds_are_summed(rt: HostRuntime) {
    assert!(rt; are_run(rt.alloc(), &[(&["gen", "1000", "7"], 0, THOUSAND)]));
}

#[test]
fn thousand_rounds_are_summed_in_v1(rt: HostRuntime) {
    assert!(rt;
        are_run(
            rt.alloc(),
            &[(&["gen", "1000", "7", "format=v1"], 0, THOUSAND)]
        )
    );
}

#[test]
fn thousand_rounds_are_summed_in_small_blocks(rt: HostRuntime) {
    assert!(rt;
        are_run(
            rt.alloc(),
            &[(&["gen", "1000", "7", "block=100", "xor=3"], 0, THOUSAND)]
        )
    );
}

const ONE_ROUND: &[u8] = b"begin t ssi\nget t 'k807\nput t 'k424 'v1\ncommit t\nflush\n";

#[test]
fn one_round_is_made(rt: HostRuntime) {
    let script = generate(rt.alloc(), 1, 0);
    assert!(rt; matches!(&script, Ok(script) if script.as_slice() == ONE_ROUND));
    drop(script);
}
