// Runs over parts in memory: some of which one call fails, and some of transactions that write. Other runs without faults are tried by
// ./test, through the program.
use crate::listing::no_policies;
use slate_lower_tests::listing::one;
use slate_script::run_main;
use slate_store::{MemorySink, MemorySource, MemoryStore, Sink};
use std::alloc::Global;

// Which call of each part fails, or 0.
#[derive(Clone, Copy)]
struct Failing {
    read: u64,
    write: u64,
    stored: u64,
}

const NONE: Failing = Failing {
    read: 0,
    write: 0,
    stored: 0,
};

// A script and the call that fails, and how its run ends: its status, and what it writes.
type Run = (&'static [u8], Failing, u8, &'static [u8]);

// How a run ends, of which nothing more is said: what is written is what the test tries.
fn status_of(alloc: Global, run: &Run, sink: &mut MemorySink) -> Option<u8> {
    let Some(script) = run.0.to_vec(alloc).ok() else {
        return None;
    };
    let mut source = MemorySource::new(script, one(alloc, run.1.read));
    let mut store = MemoryStore::new(alloc, one(alloc, run.1.stored));
    let status = run_main(
        alloc,
        &[],
        &mut source,
        sink,
        &mut store,
        no_policies(alloc),
    );
    drop((source, store));
    Some(status)
}

// Whether a run ends with its status and has written just its replies.
fn is_run(alloc: Global, run: &Run) -> bool {
    let mut sink = MemorySink::new(alloc, one(alloc, run.1.write));
    let status = status_of(alloc, run, &mut sink);
    let is_run = status == Some(run.2) && sink.taken() == run.3;
    drop(sink);
    is_run
}

// Whether all runs end as they should.
fn are_run(alloc: Global) -> bool {
    for run in RUNS {
        if !is_run(alloc, run) {
            return false;
        }
    }
    true
}

const DAY: &[u8] = b"begin t si\nget t 'a\nwrite put 'a '1\nget t 'a\nrollback t\n";

const DAY_REPLIES: &[u8] = b"begun t 0\nnone\nwritten 1\nnone\nok\n";

pub const TWICE: &[u8] =
    b"write put 'a '1\nflush\nbegin t si\nget t 'a\nwrite put 'b '2\nflush\nbegin u si\nget u 'b\nget u 'a\n";

// The replies to its lines, up to the call of the store that fails.
const WRITTEN: &[u8] = b"written 1\n";

const BEGUN: &[u8] = b"written 1\nflushed 1\nbegun t 1\n";

const WRITTEN_TWICE: &[u8] = b"written 1\nflushed 1\nbegun t 1\nrow 'a '1 1 0 -\nwritten 2\n";

const BEGUN_TWICE: &[u8] =
    b"written 1\nflushed 1\nbegun t 1\nrow 'a '1 1 0 -\nwritten 2\nflushed 2\nbegun u 2\n";

const ONE_ROW: &[u8] =
    b"written 1\nflushed 1\nbegun t 1\nrow 'a '1 1 0 -\nwritten 2\nflushed 2\nbegun u 2\nrow 'b '2 2 0 -\n";

pub const TWO_ROWS: &[u8] =
    b"written 1\nflushed 1\nbegun t 1\nrow 'a '1 1 0 -\nwritten 2\nflushed 2\nbegun u 2\nrow 'b '2 2 0 -\nrow 'a '1 1 0 -\n";

const CONFLICT: &[u8] =
    b"begin t ssi\nbegin t si\nget t 'a\nwrite put 'a '1\nput t 'b '2\ncommit t\ncommit t\n";

const CONFLICT_REPLIES: &[u8] =
    b"begun t 0\nrefused DuplicateTransaction t\nnone\nwritten 1\nok\nrefused TransactionConflict 1\nrefused UnknownTransaction t\n";

// Behind the flush of a later commit the older rows are read from its table, which keeps them for the snapshot.
const SNAPSHOT: &[u8] =
    b"write put 'a '1 put 'b '2\nsnapshot s\nwrite put 'a '3 delete 'b\nflush\nget s 'a\nscan s asc * *\nrollback s\nget s 'a\nbegin s si\nscan s asc * *\n";

const SNAPSHOT_REPLIES: &[u8] =
    b"written 1\nsnapshot s 1\nwritten 2\nflushed 2\nrow 'a '1 1 0 -\nrows 2 'a '1 1 0 - 'b '2 1 0 -\nok\nrefused UnknownTransaction s\nbegun s 2\nrows 1 'a '3 2 0 -\n";

const UNMARKED: &[u8] =
    b"begin t ssi\nget t 'a\nbegin u si\nunmark u 'a\nput u 'a '1\ncommit u\nput t 'b '2\ncommit t\njournal\n";

const UNMARKED_REPLIES: &[u8] =
    b"begun t 0\nnone\nbegun u 0\nok\nok\ncommitted 1\nok\ncommitted 2\njournal 2 1 0 0 2 0 1 'b\n";

const MARKED: &[u8] = b"begin t si\nmark t 'a\nwrite put 'a '1\ncommit t\n";

const MARKED_REPLIES: &[u8] = b"begun t 0\nok\nwritten 1\nrefused TransactionConflict 1\n";

const OWN: &[u8] =
    b"now 5\nbegin t ssi\nput t 'a '1 t50\nget t 'a\nput t 'b '2\ndelete t 'b\nget t 'b\nput t ' '1\ncommit t\nbegin u si\nget u 'a\nget u 'b\ncommit u\n";

const OWN_REPLIES: &[u8] =
    b"now 5\nbegun t 0\nok\nrow 'a '1 18446744073709551615 0 -\nok\nok\nnone\nrefused EmptyKey\ncommitted 1\nbegun u 1\nrow 'a '1 1 5 55\nnone\ncommitted -\n";

const RUNS: &[Run] = &[
    // The first call gives the whole script, and the second its end. Behind a last line without its end a third asks again.
    (DAY, Failing { read: 1, ..NONE }, 5, b""),
    (DAY, Failing { read: 2, ..NONE }, 5, DAY_REPLIES),
    (DAY, Failing { read: 3, ..NONE }, 0, DAY_REPLIES),
    (b"begin t si", Failing { read: 2, ..NONE }, 5, b""),
    (
        b"begin t si",
        Failing { read: 3, ..NONE },
        5,
        b"begun t 0\n",
    ),
    (
        b"begin t si",
        Failing { read: 4, ..NONE },
        0,
        b"begun t 0\n",
    ),
    // Each reply is one call.
    (DAY, Failing { write: 1, ..NONE }, 6, b""),
    (DAY, Failing { write: 2, ..NONE }, 6, b"begun t 0\n"),
    (DAY, Failing { write: 3, ..NONE }, 6, b"begun t 0\nnone\n"),
    (
        DAY,
        Failing { write: 4, ..NONE },
        6,
        b"begun t 0\nnone\nwritten 1\n",
    ),
    (
        DAY,
        Failing { write: 5, ..NONE },
        6,
        b"begun t 0\nnone\nwritten 1\nnone\n",
    ),
    (DAY, Failing { write: 6, ..NONE }, 0, DAY_REPLIES),
    // Each flush is one call, and each get two: the index and the block of the one table whose first and last key enclose the key.
    (TWICE, Failing { stored: 1, ..NONE }, 7, WRITTEN),
    (TWICE, Failing { stored: 2, ..NONE }, 7, BEGUN),
    (TWICE, Failing { stored: 3, ..NONE }, 7, BEGUN),
    (TWICE, Failing { stored: 4, ..NONE }, 7, WRITTEN_TWICE),
    (TWICE, Failing { stored: 5, ..NONE }, 7, BEGUN_TWICE),
    (TWICE, Failing { stored: 6, ..NONE }, 7, BEGUN_TWICE),
    (TWICE, Failing { stored: 7, ..NONE }, 7, ONE_ROW),
    (TWICE, Failing { stored: 8, ..NONE }, 7, ONE_ROW),
    (TWICE, Failing { stored: 9, ..NONE }, 0, TWO_ROWS),
    // A snapshot.
    (SNAPSHOT, NONE, 0, SNAPSHOT_REPLIES),
    // Transactions that write. Their lines ask no store, but a get.
    (CONFLICT, NONE, 0, CONFLICT_REPLIES),
    (UNMARKED, NONE, 0, UNMARKED_REPLIES),
    (MARKED, NONE, 0, MARKED_REPLIES),
    (OWN, NONE, 0, OWN_REPLIES),
    (OWN, Failing { stored: 1, ..NONE }, 0, OWN_REPLIES),
];

#[test]
fn runs_end_as_they_should(rt: HostRuntime) {
    assert!(rt; are_run(rt.alloc()));
}
