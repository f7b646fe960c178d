// Which reads a run leaves behind: a get reads an index and a block, and where a filter denies its key that filter alone.
use crate::filters::prefixes;
use crate::generated::words_of;
use slate_script::run_recorded;
use slate_store::{MemorySink, MemorySource, StoreRead};
use slate_types::SlateDBError;
use std::alloc::Global;

// A word, a script and what its run writes, and where each read stands and how long it is.
type Run = (
    &'static [&'static str],
    &'static [u8],
    &'static [u8],
    &'static [(u64, u64)],
);

const TABLE: &str = "db/compacted/00000000000000010000000000000000.sst";

const FOUND: Run = (
    &["format=v1", "filter=none"],
    b"write put 'a '1\nflush\nbegin t si\nget t 'a\n",
    b"written 1\nflushed 1\nbegun t 1\nrow 'a '1 1 0 -\n",
    &[(35, 19), (0, 35)],
);

// The block of two rows has 52 bytes with its checksum, and the filter's section stands behind it.
const DENIED: Run = (
    &["filter=_bf:p=fixed4:wh=0"],
    b"write put 'a '1 put 'b '2\nflush\nbegin t si\nget t 'aaaa\n",
    b"written 1\nflushed 1\nbegun t 1\nnone\n",
    &[(52, 35)],
);

fn are_reads(reads: &[StoreRead], places: &[(u64, u64)]) -> bool {
    let mut places = places.iter();
    for read in reads {
        match places.next() {
            Some(place) if (read.start, read.len) == *place && read.path.as_str() == TABLE => {}
            _ => return false,
        }
    }
    places.next().is_none()
}

fn leaves(alloc: Global, run: &Run) -> Result<bool, SlateDBError> {
    let words = words_of(alloc, run.0)?;
    let policies = prefixes(alloc)?;
    let mut source = MemorySource::new(run.1.to_vec(alloc)?, Vec::new(alloc));
    let mut sink = MemorySink::new(alloc, Vec::new(alloc));
    let (status, store) = run_recorded(alloc, words.as_slice(), &mut source, &mut sink, policies);
    let leaves = status == 0 && sink.taken() == run.2 && are_reads(store.reads(), run.3);
    drop((words, source, sink, store));
    Ok(leaves)
}

#[test]
fn a_get_reads_an_index_and_a_block(rt: HostRuntime) {
    assert!(rt; leaves(rt.alloc(), &FOUND).unwrap_or(false));
}

#[test]
fn a_denied_get_reads_a_filter_alone(rt: HostRuntime) {
    assert!(rt; leaves(rt.alloc(), &DENIED).unwrap_or(false));
}
