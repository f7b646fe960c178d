// Runs whose parts fail: of one object the call with one number, for each number in turn until a run meets no failure.
use crate::listing::default_laws;
use slate_lower_tests::failing::{FailingConcat, FailingXor};
use slate_lower_tests::listing::one;
use slate_script::run_script;
use slate_store::{Env, MemorySink, MemorySource, MemoryStore};
use slate_types::{BlockTransformer, MergeOperator, SlateDBError};
use std::alloc::Global;

// What fails.
#[derive(Clone, Copy, PartialEq, Eq)]
enum Part {
    Source,
    Sink,
    Store,
    Operator,
    Transformer,
}

// A script and its replies, what fails, with which status a run ends then, and how many calls that part has at least and at most.
type Row = (&'static [u8], &'static [u8], Part, u8, u64, u64);

// More calls than any of these runs makes of a part.
const MOST: u64 = 50;

const DAY: &[u8] = b"begin t si\nget t 'a\nwrite put 'a '1\nget t 'a\nrollback t\n";

const DAY_REPLIES: &[u8] = b"begun t 0\nnone\nwritten 1\nnone\nok\n";

const STORED: &[u8] = b"write put 'a '1\nflush\n";

const STORED_REPLIES: &[u8] = b"written 1\nflushed 1\n";

const READ: &[u8] = b"write put 'a '1\nflush\nbegin t si\nget t 'a\n";

const READ_REPLIES: &[u8] = b"written 1\nflushed 1\nbegun t 1\nrow 'a '1 1 0 -\n";

const OPERANDS: &[u8] =
    b"write merge 'k 'a\nwrite merge 'k 'b\nbegin t si\nwrite merge 'k 'c\nflush\nget t 'k\nbegin u si\nget u 'k\n";

const OPERANDS_REPLIES: &[u8] =
    b"written 1\nwritten 2\nbegun t 2\nwritten 3\nflushed 3\nrow 'k 'ab 2 0 -\nbegun u 3\nrow 'k 'abc 3 0 -\n";

const ROWS: &[Row] = &[
    // The first call gives the whole script, and the second its end.
    (DAY, DAY_REPLIES, Part::Source, 5, 2, 2),
    // Each reply is one call.
    (DAY, DAY_REPLIES, Part::Sink, 6, 5, 5),
    // A put, and the reads of an index and of a block.
    (STORED, STORED_REPLIES, Part::Store, 7, 1, 1),
    (READ, READ_REPLIES, Part::Store, 7, 3, 3),
    // A flush folds two operands, and one get folds what came of them with a third.
    (OPERANDS, OPERANDS_REPLIES, Part::Operator, 8, 2, MOST),
    // A flush encodes a block, an index and the statistics, and a get decodes two of these.
    (READ, READ_REPLIES, Part::Transformer, 9, 5, 5),
];

// The numbers of the calls of a part that fail.
fn calls(alloc: Global, row: &Row, part: Part, number: u64) -> Vec<u64> {
    if row.2 == part {
        one(alloc, number)
    } else {
        Vec::new(alloc)
    }
}

// How the run of a script ends by these parts.
pub fn run<M: MergeOperator, T: BlockTransformer>(
    alloc: Global,
    script: &[u8],
    source_fails: Vec<u64>,
    sink: &mut MemorySink,
    env: &mut Env<'_, MemoryStore, M, T>,
) -> Result<(), SlateDBError> {
    let laws = default_laws(alloc);
    let mut source = MemorySource::new(script.to_vec(alloc)?, source_fails);
    let ended = run_script(alloc, &mut source, sink, env, &laws);
    drop((laws, source));
    ended
}

// The status of a run.
pub fn status_of(ended: Result<(), SlateDBError>) -> Option<u8> {
    match ended {
        Ok(()) => Some(0),
        Err(error) => {
            let status = error.status();
            drop(error);
            status
        }
    }
}

// The status of the row's run where the call with the number fails.
fn status(alloc: Global, row: &Row, number: u64, sink: &mut MemorySink) -> Option<u8> {
    let mut store = MemoryStore::new(alloc, calls(alloc, row, Part::Store, number));
    let operator = FailingConcat::new(calls(alloc, row, Part::Operator, number));
    let transformer = FailingXor::new(255, calls(alloc, row, Part::Transformer, number));
    let mut env = Env {
        store: &mut store,
        operator: Some(operator),
        transformer: Some(transformer),
    };
    let source_fails = calls(alloc, row, Part::Source, number);
    let ended = run(alloc, row.0, source_fails, sink, &mut env);
    drop(env);
    drop(store);
    status_of(ended)
}

// Whether replies are the first of these, and whole.
fn is_front(taken: &[u8], replies: &[u8]) -> bool {
    replies.starts_with(taken) && (taken.is_empty() || taken.ends_with(b"\n"))
}

// Whether a run where the call with the number fails ends with the row's status behind a front of its replies, or with all of them, where it
// has no such call. `None` where it ends otherwise.
fn meets_failure(alloc: Global, row: &Row, number: u64) -> Option<bool> {
    let mut sink = MemorySink::new(alloc, calls(alloc, row, Part::Sink, number));
    let status = status(alloc, row, number, &mut sink);
    let is_whole = sink.taken() == row.1;
    let is_front = is_front(sink.taken(), row.1);
    drop(sink);
    match status? {
        0 if is_whole => Some(false),
        other if other == row.3 && is_front => Some(true),
        _ => None,
    }
}

// How many runs meet a failure, up to the first that meets none.
fn failures(alloc: Global, row: &Row) -> Option<u64> {
    for number in 1..MOST {
        if !meets_failure(alloc, row, number)? {
            return Some(number - 1);
        }
    }
    None
}

fn is_met(alloc: Global, row: &Row) -> bool {
    match failures(alloc, row) {
        Some(count) => row.4 <= count && count <= row.5,
        None => false,
    }
}

#[test]
fn each_call_of_a_part_fails_in_turn(rt: HostRuntime) {
    let mut all = true;
    for row in ROWS {
        all = all && is_met(rt.alloc(), row);
    }
    assert!(rt; all);
}
