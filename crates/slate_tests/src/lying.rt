// What a store answers and tells that lies at one read, a run over one that doesn't lie, and runs over some that do.
use crate::filters::prefixes;
use crate::generated::words_of;
use crate::listing::no_policies;
use crate::runs::{TWICE, TWO_ROWS};
use bytes::Bytes;
use slate_lower_tests::listing::one;
use slate_script::run_main;
use slate_store::{LyingStore, MemorySink, MemorySource, Sink, Store, StoreRead};
use slate_types::SlateDBError;
use std::alloc::Global;

// A range of the object at "a" with what is answered there.
type Range = (u64, u64, &'static [u8]);

// The first read of the store, which is answered otherwise.
const LIED: Range = (0, 2, b"lie");

const HONEST: Range = (3, 3, b"est");

fn is_answered(alloc: Global, store: &mut LyingStore, range: Range) -> bool {
    let Some(found) = store.read_range(alloc, "a", range.0, range.1).ok() else {
        return false;
    };
    let is_same = found.as_ref().map(Bytes::as_slice) == Some(range.2);
    drop(found);
    is_same
}

fn is_told(read: &StoreRead, range: Range) -> bool {
    read.path.as_str() == "a"
        && (read.start, read.len) == (range.0, range.1)
        && read.bytes.as_ref().map(Bytes::as_slice) == Some(range.2)
}

fn tells_both(reads: &[StoreRead]) -> bool {
    reads.len() == 2 && is_told(&reads[0], LIED) && is_told(&reads[1], HONEST)
}

// Whether a put is read once as it isn't and once as it is, and both reads are told.
fn lies_once(alloc: Global) -> bool {
    let lie = Some(Bytes::from_static(b"lie"));
    let mut store = LyingStore::new(alloc, one(alloc, (1, lie)));
    let has_lied = store.put(alloc, "a", b"honest").is_ok()
        && is_answered(alloc, &mut store, LIED)
        && is_answered(alloc, &mut store, HONEST)
        && tells_both(store.reads());
    drop(store);
    has_lied
}

#[test]
fn a_store_lies_where_it_is_told_to(rt: HostRuntime) {
    assert!(rt; lies_once(rt.alloc()));
}

fn status_of(alloc: Global, store: &mut LyingStore, sink: &mut MemorySink) -> Option<u8> {
    let Some(script) = TWICE.to_vec(alloc).ok() else {
        return None;
    };
    let mut source = MemorySource::new(script, Vec::new(alloc));
    let status = run_main(alloc, &[], &mut source, sink, store, no_policies(alloc));
    drop(source);
    Some(status)
}

// Whether a run over a store without chosen answers replies as over any other. Each of its three gets makes two reads.
fn is_run(alloc: Global) -> bool {
    let mut store = LyingStore::new(alloc, Vec::new(alloc));
    let mut sink = MemorySink::new(alloc, Vec::new(alloc));
    let status = status_of(alloc, &mut store, &mut sink);
    let is_run = status == Some(0) && sink.taken() == TWO_ROWS && store.reads().len() == 6;
    drop((store, sink));
    is_run
}

#[test]
fn a_run_over_told_acts_replies_alike(rt: HostRuntime) {
    assert!(rt; is_run(rt.alloc()));
}

// Words and a script, the read that is answered otherwise, and what it is answered; with which status the run ends, and what it writes.
type Lie = (
    &'static [&'static str],
    &'static [u8],
    u64,
    Option<&'static [u8]>,
    u8,
    &'static [u8],
);

// The section of the one filter of a table of a and b, of which the first bit is turned.
const TURNED: &[u8] = b"\
\x80\x01\x00\x11_bf:p=fixed4:wh=0\x00\x00\x00\x00\x00\x00\x00\x02\x00\x06\xef-\xe0l";

// Two flushes of one key, of which a get reads the index and the block of the second one's table.
const TWO_TABLES: &[u8] = b"write put 'a '1\nflush\nwrite put 'a '2\nflush\nbegin t si\nget t 'a\n";

// The sections of the block of the first flush's table: in version 1, in version 2, and in version 3.
const FIRST_BLOCK_OF_V1: &[u8] = b"\
\x00\x00\x00\x01a\x00\x00\x00\x00\x00\x00\x00\x01\x04\x00\x00\x00\x00\x00\x00\x00\x00\x00\x00\x00\x011\x00\x00\x00\x01\xe4*\x92\x08";

const FIRST_BLOCK_OF_V2: &[u8] = b"\
\x00\x01\x01a1\x00\x00\x00\x00\x00\x00\x00\x01\x04\x00\x00\x00\x00\x00\x00\x00\x00\x00\x00\x00\x01\x0b\xef\xb3\x53";

const FIRST_BLOCK: &[u8] = b"\
\x00\x01\x01a1\x00\x00\x00\x00\x00\x00\x00\x01\x04\x00\x00\x00\x00\x00\x00\x00\x00\x00\x00\x00\x01i\xa7wY";

// A table of one row in version 1 without filters: the first read of a get is that of its index, the second that of its block.
const V1: &[&str] = &["format=v1", "filter=none"];

const ONE_ROW: &[u8] = b"write put 'a '1\nflush\nbegin t si\nget t 'a\n";

const BEGUN: &[u8] = b"written 1\nflushed 1\nbegun t 1\n";

const INDEX: &[u8] = b"\x00\x00\x00\x01\x00\x00\x00\x00\x00\x00\x00\x00\x00\x01ao\xd8/\x07";

const SHORT_INDEX: &[u8] = b"\x00\x00\x00\x01\x00\x00\x00\x00\x00\x00\x00\x00\x00\x01ao\xd8/";

const TURNED_INDEX: &[u8] = b"\x80\x00\x00\x01\x00\x00\x00\x00\x00\x00\x00\x00\x00\x01ao\xd8/\x07";

// The block with another key, whose checksum doesn't fit; and with an unknown flag and with the value 2, whose checksums do.
const OTHER_KEY: &[u8] = b"\
\x00\x00\x00\x01`\x00\x00\x00\x00\x00\x00\x00\x01\x04\x00\x00\x00\x00\x00\x00\x00\x00\x00\x00\x00\x011\x00\x00\x00\x01\xe4*\x92\x08";

const OTHER_FLAGS: &[u8] = b"\
\x00\x00\x00\x01a\x00\x00\x00\x00\x00\x00\x00\x01\x10\x00\x00\x00\x00\x00\x00\x00\x00\x00\x00\x00\x011\x00\x00\x00\x01\xc1!\x19\x16";

const OTHER_VALUE: &[u8] = b"\
\x00\x00\x00\x01a\x00\x00\x00\x00\x00\x00\x00\x01\x04\x00\x00\x00\x00\x00\x00\x00\x00\x00\x00\x00\x012\x00\x00\x00\x01\xa3\x8a\xe8\xd8";

// The block with the row as an operand, whose checksum fits.
const OPERAND: &[u8] = b"\
\x00\x00\x00\x01a\x00\x00\x00\x00\x00\x00\x00\x01\x0c\x00\x00\x00\x00\x00\x00\x00\x00\x00\x00\x00\x011\x00\x00\x00\x01\xf3{<\x04";

// Two commits of one key that a reader keeps apart, and the block of their rows with the older one first, whose checksum fits.
const TWO_OPERANDS: &[u8] =
    b"begin z si\nwrite merge 'a '1\nwrite merge 'a '2\nflush\nbegin t si\nscan t asc * *\n";

const RISING: &[u8] = b"\
\x00\x00\x00\x01a\x00\x00\x00\x00\x00\x00\x00\x01\x0c\x00\x00\x00\x00\x00\x00\x00\x00\x00\x00\x00\x011\x00\x01\x00\x00\x00\x00\x00\x00\x00\x00\x00\x02\x0c\x00\x00\x00\x00\x00\x00\x00\x00\x00\x00\x00\x012\x00\x00\x00\x1b\x00\x02\x1d0n\x93";

const LIES: &[Lie] = &[
    (
        &["filter=_bf:p=fixed4:wh=0"],
        b"write put 'a '1 put 'b '2\nflush\nbegin t si\nget t 'a\n",
        1,
        Some(TURNED),
        12,
        BEGUN,
    ),
    (
        &["format=v3", "filter=none"],
        TWO_TABLES,
        2,
        Some(FIRST_BLOCK),
        12,
        b"written 1\nflushed 1\nwritten 2\nflushed 2\nbegun t 2\n",
    ),
    (V1, ONE_ROW, 1, None, 16, BEGUN),
    (V1, ONE_ROW, 1, Some(SHORT_INDEX), 16, BEGUN),
    (V1, ONE_ROW, 1, Some(TURNED_INDEX), 12, BEGUN),
    (V1, ONE_ROW, 2, Some(INDEX), 16, BEGUN),
    (V1, ONE_ROW, 2, Some(OTHER_KEY), 12, BEGUN),
    (V1, ONE_ROW, 2, Some(OTHER_FLAGS), 14, BEGUN),
    (V1, ONE_ROW, 2, Some(OPERAND), 19, BEGUN),
    (
        &["format=v1", "filter=none", "op=concat"],
        TWO_OPERANDS,
        2,
        Some(RISING),
        18,
        b"begun z 0\nwritten 1\nwritten 2\nflushed 2\nbegun t 2\n",
    ),
];

// Checksums that fit, so that nothing is refused, and the replies aren't what was written. In versions 1 and 2 that of another table's block
// fits too.
const SLIPS: &[Lie] = &[
    (
        V1,
        ONE_ROW,
        2,
        Some(OTHER_VALUE),
        0,
        b"written 1\nflushed 1\nbegun t 1\nrow 'a '2 1 0 -\n",
    ),
    (
        V1,
        TWO_TABLES,
        2,
        Some(FIRST_BLOCK_OF_V1),
        0,
        b"written 1\nflushed 1\nwritten 2\nflushed 2\nbegun t 2\nrow 'a '1 1 0 -\n",
    ),
    (
        &["format=v2", "filter=none"],
        TWO_TABLES,
        2,
        Some(FIRST_BLOCK_OF_V2),
        0,
        b"written 1\nflushed 1\nwritten 2\nflushed 2\nbegun t 2\nrow 'a '1 1 0 -\n",
    ),
];

fn ends_so(alloc: Global, lie: &Lie) -> Result<bool, SlateDBError> {
    let words = words_of(alloc, lie.0)?;
    let policies = prefixes(alloc)?;
    let mut source = MemorySource::new(lie.1.to_vec(alloc)?, Vec::new(alloc));
    let mut sink = MemorySink::new(alloc, Vec::new(alloc));
    let answer = lie.3.map(Bytes::from_static);
    let mut store = LyingStore::new(alloc, one(alloc, (lie.2, answer)));
    let status = run_main(
        alloc,
        words.as_slice(),
        &mut source,
        &mut sink,
        &mut store,
        policies,
    );
    let ends_so = status == lie.4 && sink.taken() == lie.5;
    drop((words, source, sink, store));
    Ok(ends_so)
}

fn end_so(alloc: Global, lies: &[Lie]) -> bool {
    for lie in lies {
        if !ends_so(alloc, lie).unwrap_or(false) {
            return false;
        }
    }
    true
}

// Sections that are missing, cut, turned, or another's, and in version 3 the block of another table, whose checksum fits in that table.
#[test]
fn lies_are_caught(rt: HostRuntime) {
    assert!(rt; end_so(rt.alloc(), LIES));
}

#[test]
fn sections_slip_through(rt: HostRuntime) {
    assert!(rt; end_so(rt.alloc(), SLIPS));
}
