// Runs with filters of prefixes over a store of which one call fails. The first call puts a table, and of a get the next reads the
// table's filters, and the one behind its index; so it is of a scan of one key.
ghost use Rattle.std.specs.Prelude.{◌≡◌, ◌<◌, ◌^◌, true, length, map, IfOk};
ghost use Rattle.slate_filter.specs.Laws.{AreValidNames};

use crate::generated::words_of;
use crate::listing::no_policies;
use slate_filter::{BloomFilterPolicy, FilterPolicy, FixedExtractor};
use slate_lower_tests::listing::one;
use slate_script::run_main;
use slate_store::{MemorySink, MemorySource, MemoryStore};
use slate_types::SlateDBError;
use std::alloc::Global;

// The key of the get and the call that fails, and how the run ends: its status, and what it writes.
type Run = (&'static [u8], u64, u8, &'static [u8]);

const WORDS: &[&str] = &["filter=_bf:p=fixed4:wh=0"];

/// Filters of the first four bytes of keys alone.
pub fn prefixes(alloc: Global) -> Result<Vec<Box<dyn FilterPolicy>>, SlateDBError>
    ensures { IfOk result (λ policies. AreValidNames (map (λ p. (meaning p).name) policies.items)) }
{
    let policy: BloomFilterPolicy<FixedExtractor> = BloomFilterPolicy::new(alloc, 10)?;
    let policy = policy.with_whole_key_filtering(alloc, false)?;
    let policy = policy.with_prefix_extractor(alloc, FixedExtractor::new(alloc, 4)?)?;
    let policy: Box<dyn FilterPolicy> = Box::new(alloc, policy)?;
    one_policy(alloc, policy)
}

// A list of the policy, or none where its name is too long for a table.
fn one_policy(
    alloc: Global,
    policy: Box<dyn FilterPolicy>,
) -> Result<Vec<Box<dyn FilterPolicy>>, SlateDBError>
    ensures { IfOk result (λ policies. AreValidNames (map (λ p. (meaning p).name) policies.items)) }
{
    if !is_short(&policy) {
        drop(policy);
        return Ok(no_policies(alloc));
    }
    let mut policies = Vec::new(alloc);
    policies.push(policy)?;
    Ok(policies)
}

fn is_short(policy: &Box<dyn FilterPolicy>) -> bool
    ensures { result ≡ true → length (meaning policy.now).name < 2 ^ 16 }
{
    policy.name().len() < 65536
}

fn is_run(alloc: Global, run: &Run) -> Result<bool, SlateDBError> {
    let words = words_of(alloc, WORDS)?;
    let policies = prefixes(alloc)?;
    let mut source = MemorySource::new(run.0.to_vec(alloc)?, Vec::new(alloc));
    let mut sink = MemorySink::new(alloc, Vec::new(alloc));
    let mut store = MemoryStore::new(alloc, one(alloc, run.1));
    let status = run_main(
        alloc,
        words.as_slice(),
        &mut source,
        &mut sink,
        &mut store,
        policies,
    );
    let is_run = status == run.2 && sink.taken() == run.3;
    drop((words, source, sink, store));
    Ok(is_run)
}

const SHORT_KEY: &[u8] = b"write put 'a '1 put 'b '2\nflush\nbegin t si\nget t 'a\n";

const LONG_KEY: &[u8] = b"write put 'a '1 put 'b '2\nflush\nbegin t si\nget t 'aaaa\n";

const SHORT_SCAN: &[u8] = b"write put 'a '1 put 'b '2\nflush\nbegin t si\nscan t asc i'a i'a\n";

const LONG_SCAN: &[u8] =
    b"write put 'a '1 put 'b '2\nflush\nbegin t si\nscan t asc i'aaaa i'aaaa\n";

const PREFIX_SCAN: &[u8] =
    b"write put 'a '1 put 'b '2\nflush\nbegin t si\nprefix t asc 'aaaa * *\n";

const BEGUN: &[u8] = b"written 1\nflushed 1\nbegun t 1\n";

const DENIED: &[u8] = b"written 1\nflushed 1\nbegun t 1\nnone\n";

const EMPTY: &[u8] = b"written 1\nflushed 1\nbegun t 1\nrows 0\n";

const RUNS: &[Run] = &[
    (SHORT_KEY, 2, 7, BEGUN),
    (SHORT_KEY, 3, 7, BEGUN),
    (LONG_KEY, 2, 7, BEGUN),
    (LONG_KEY, 3, 0, DENIED),
    (SHORT_SCAN, 2, 7, BEGUN),
    (SHORT_SCAN, 3, 7, BEGUN),
    (LONG_SCAN, 2, 7, BEGUN),
    (LONG_SCAN, 3, 0, EMPTY),
    (PREFIX_SCAN, 2, 7, BEGUN),
    (PREFIX_SCAN, 3, 0, EMPTY),
];

// The filter is read first, and where it denies the key, or the prefix, nothing else is.
#[test]
fn filters_are_asked_first(rt: HostRuntime) {
    let mut all = true;
    for run in RUNS {
        all = all && is_run(rt.alloc(), run).unwrap_or(false);
    }
    assert!(rt; all);
}
