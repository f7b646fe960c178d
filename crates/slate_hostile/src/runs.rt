//! Single runs.
ghost use Rattle.std.specs.Prelude.{map};
ghost use Rattle.slate_filter.specs.Laws.{AreValidNames};

use slate_filter::{BloomFilterPolicy, FilterPolicy, FixedExtractor};
use slate_script::run_main;
use slate_store::{MemorySink, MemorySource, Store};
use slate_types::{NoExtractor, SlateDBError};
use std::alloc::Global;

/// The bits of a filter for each key.
const BITS_PER_KEY: u32 = 10;

/// How a run ended: its status, and what it wrote.
#[derive(Drop)]
pub struct Ended {
    pub status: u8,
    sink: MemorySink,
}

impl Ended {
    pub fn taken(&self) -> &[u8] {
        self.sink.taken()
    }
}

/// Runs the script over the store by all of these words, with filters of whole keys, and of their first four bytes.
pub fn run<S: Store>(
    alloc: Global,
    words: &[&[&str]],
    script: &[u8],
    store: &mut S,
) -> Result<Ended, SlateDBError> {
    let mut policies: Vec<Box<dyn FilterPolicy>> = Vec::new(alloc);
    policies.push(Box::new(alloc, whole_keys(alloc)?)?)?;
    policies.push(Box::new(alloc, first_four(alloc)?)?)?;
    run_with(alloc, words, script, store, policies)
}

fn run_with<S: Store>(
    alloc: Global,
    words: &[&[&str]],
    script: &[u8],
    store: &mut S,
    policies: Vec<Box<dyn FilterPolicy>>,
) -> Result<Ended, SlateDBError> {
    let words = words_of(alloc, words)?;
    let mut source = MemorySource::new(script.to_vec(alloc)?, Vec::new(alloc));
    let mut sink = MemorySink::new(alloc, Vec::new(alloc));
    let status = run_main(
        alloc,
        words.as_slice(),
        &mut source,
        &mut sink,
        store,
        policies,
    );
    drop((words, source));
    Ok(Ended { status, sink })
}

fn words_of(alloc: Global, lists: &[&[&str]]) -> Result<Vec<String>, SlateDBError> {
    let mut words = Vec::new(alloc);
    for list in lists {
        push_words(alloc, &mut words, list)?;
    }
    Ok(words)
}

fn push_words(alloc: Global, words: &mut Vec<String>, list: &[&str]) -> Result<(), SlateDBError> {
    for word in list {
        words.push(word.to_string(alloc)?)?;
    }
    Ok(())
}

fn whole_keys(alloc: Global) -> Result<BloomFilterPolicy<NoExtractor>, SlateDBError> {
    BloomFilterPolicy::new(alloc, BITS_PER_KEY)
}

fn first_four(alloc: Global) -> Result<BloomFilterPolicy<FixedExtractor>, SlateDBError> {
    let policy = BloomFilterPolicy::new(alloc, BITS_PER_KEY)?;
    let policy = policy.with_whole_key_filtering(alloc, false)?;
    policy.with_prefix_extractor(alloc, FixedExtractor::new(alloc, 4)?)
}

/// No filters.
pub fn no_policies(alloc: Global) -> Vec<Box<dyn FilterPolicy>>
    ensures { AreValidNames (map (λ p. (meaning p).name) result.items) }
{
    Vec::new(alloc)
}
