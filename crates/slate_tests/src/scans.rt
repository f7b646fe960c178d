// How many calls of the store a scan makes, by how far blocks are read ahead.
use crate::listing::no_policies;
use slate_db::laws::Laws;
use slate_language::Xor;
use slate_lower_tests::listing::one;
use slate_script::run_script;
use slate_store::{Env, MemorySink, MemorySource, MemoryStore};
use slate_types::{BlockFormat, NoExtractor, NoOperator, Options, SlateDBError};
use std::alloc::Global;

type Parts<'a> = Env<'a, MemoryStore, NoOperator, Xor>;

// Each of the five rows has a block of its own, whose section has 35 bytes.
const SCRIPT: &[u8] =
    b"begin z si\nwrite put 'a '1\nwrite put 'b '1\nwrite put 'b '2\nwrite put 'b '3\nwrite put 'c '1\nflush\nbegin t si\nscan t asc * *\n";

const REPLIES: &[u8] =
    b"begun z 0\nwritten 1\nwritten 2\nwritten 3\nwritten 4\nwritten 5\nflushed 5\nbegun t 5\nrows 3 'a '1 1 0 - 'b '3 4 0 - 'c '1 5 0 -\n";

// The options of the run, where blocks with so many bytes are read at once.
fn options(bytes: u64) -> Options {
    let mut options = Options::new();
    options.block_size = 40;
    options.block_format = BlockFormat::V1;
    options.target_bytes_to_fetch = bytes;
    options
}

// How the run ends over the store.
fn run(
    alloc: Global,
    options: Options,
    store: &mut MemoryStore,
    sink: &mut MemorySink,
) -> Result<(), SlateDBError> {
    if !options.is_valid() {
        return Err(SlateDBError::InvalidRange);
    }
    let laws: Laws<NoExtractor> = Laws {
        options,
        segments: None,
        policies: no_policies(alloc),
    };
    let mut source = MemorySource::new(SCRIPT.to_vec(alloc)?, Vec::new(alloc));
    let mut env: Parts<'_> = Env {
        store,
        operator: None,
        transformer: None,
    };
    let ended = run_script(alloc, &mut source, sink, &mut env, &laws);
    drop((env, source, laws));
    ended
}

// Whether the run makes so many calls of the store: it answers where the next one fails, and ends with the fault where the last one does.
fn makes_calls(alloc: Global, bytes: u64, calls: u64) -> bool {
    let mut sink = MemorySink::new(alloc, Vec::new(alloc));
    let mut store = MemoryStore::new(alloc, one(alloc, calls.saturating_add(1)));
    let answered = run(alloc, options(bytes), &mut store, &mut sink).is_ok()
        && sink.taken() == REPLIES;
    drop((sink, store));
    answered && fails_at(alloc, bytes, calls)
}

// Whether the run ends with the store's fault where this call fails.
fn fails_at(alloc: Global, bytes: u64, call: u64) -> bool {
    let mut sink = MemorySink::new(alloc, Vec::new(alloc));
    let mut store = MemoryStore::new(alloc, one(alloc, call));
    let ended = run(alloc, options(bytes), &mut store, &mut sink);
    let fails = matches!(ended, Err(SlateDBError::StoreFault));
    drop((ended, sink, store));
    fails
}

#[test]
fn blocks_are_read_one_by_one(rt: HostRuntime) {
    assert!(rt; makes_calls(rt.alloc(), 1, 7));
}

#[test]
fn two_blocks_are_read_at_once(rt: HostRuntime) {
    assert!(rt; makes_calls(rt.alloc(), 70, 5));
}

#[test]
fn all_blocks_are_read_at_once(rt: HostRuntime) {
    assert!(rt; makes_calls(rt.alloc(), 1_000_000, 3));
}
