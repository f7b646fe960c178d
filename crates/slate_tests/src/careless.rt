// Runs over parts that aren't lawful. Nothing but what rests on lawful parts falls: each run ends, with replies or with a named status.
use crate::failing::{run, status_of};
use crate::generated::words_of;
use crate::listing::no_policies;
use slate_db::laws::Laws;
use slate_filter::{BloomFilterPolicy, FilterPolicy};
use slate_language::Xor;
use slate_lower_tests::careless::{Forgetful, Stubborn, Turned, Whole};
use slate_script::{run_main, run_script};
use slate_store::{Env, MemorySink, MemorySource, MemoryStore};
use slate_types::{NoOperator, Options, SlateDBError};
use std::alloc::Global;

// A script, and how its run ends: its status, and what it writes.
type Run = (&'static [u8], u8, &'static [u8]);

const GET: &[u8] = b"write put 'a '1\nflush\nbegin t si\nget t 'a\n";

const BEGUN: &[u8] = b"written 1\nflushed 1\nbegun t 1\n";

// A list of the policy.
fn policy(alloc: Global, answer: Option<bool>) -> Result<Vec<Box<dyn FilterPolicy>>, SlateDBError> {
    let mut policies: Vec<Box<dyn FilterPolicy>> = Vec::new(alloc);
    policies.push(Box::new(alloc, Stubborn { answer })?)?;
    Ok(policies)
}

// Filters of prefixes by an extractor that isn't lawful.
fn whole(alloc: Global) -> Result<Vec<Box<dyn FilterPolicy>>, SlateDBError> {
    let made: BloomFilterPolicy<Whole> = BloomFilterPolicy::new(alloc, 10)?;
    let made = made.with_whole_key_filtering(alloc, false)?;
    let made = made.with_prefix_extractor(alloc, Whole)?;
    let mut policies: Vec<Box<dyn FilterPolicy>> = Vec::new(alloc);
    policies.push(Box::new(alloc, made)?)?;
    Ok(policies)
}

// Whether a run by the word and with these policies ends so.
fn ends_with(
    alloc: Global,
    word: &str,
    policies: Vec<Box<dyn FilterPolicy>>,
    run: &Run,
) -> Result<bool, SlateDBError> {
    let words = words_of(alloc, &[word])?;
    let mut source = MemorySource::new(run.0.to_vec(alloc)?, Vec::new(alloc));
    let mut sink = MemorySink::new(alloc, Vec::new(alloc));
    let mut store = MemoryStore::new(alloc, Vec::new(alloc));
    let status = run_main(
        alloc,
        words.as_slice(),
        &mut source,
        &mut sink,
        &mut store,
        policies,
    );
    let ends_so = status == run.1 && sink.taken() == run.2;
    drop((words, source, sink, store));
    Ok(ends_so)
}

fn ends_stubborn(alloc: Global, answer: Option<bool>, run: &Run) -> Result<bool, SlateDBError> {
    ends_with(alloc, "filter=stubborn", policy(alloc, answer)?, run)
}

#[test]
fn a_policy_denies_everything(rt: HostRuntime) {
    let get = (GET, 0, b"written 1\nflushed 1\nbegun t 1\nnone\n" as &[u8]);
    let got = ends_stubborn(rt.alloc(), Some(false), &get);
    assert!(rt; got.unwrap_or(false));
}

#[test]
fn a_policy_refuses_its_own_bytes(rt: HostRuntime) {
    let got = ends_stubborn(rt.alloc(), None, &(GET, 15, BEGUN));
    assert!(rt; got.unwrap_or(false));
}

// A prefix of the key is another key's, whose filter it isn't in: the row that it begins isn't found by it.
const PREFIX: &[u8] =
    b"write put 'abc '1\nflush\nbegin t si\nget t 'abc\nscan t asc * *\nprefix t asc 'ab * *\n";

const PREFIX_REPLIES: &[u8] =
    b"written 1\nflushed 1\nbegun t 1\nrow 'abc '1 1 0 -\nrows 1 'abc '1 1 0 -\nrows 0\n";

fn ends_by_whole(alloc: Global) -> Result<bool, SlateDBError> {
    let policies = whole(alloc)?;
    ends_with(
        alloc,
        "filter=_bf:p=whole:wh=0",
        policies,
        &(PREFIX, 0, PREFIX_REPLIES),
    )
}

#[test]
fn filters_of_prefixes_deny_by_whim(rt: HostRuntime) {
    assert!(rt; ends_by_whole(rt.alloc()).unwrap_or(false));
}

// The operands of the second flush are folded by themselves, and then onto that of the first one: a list of commits gives cab.
const OPERANDS: &[u8] =
    b"write merge 'k 'a\nflush\nwrite merge 'k 'b\nwrite merge 'k 'c\nflush\nbegin t si\nget t 'k\n";

const OPERANDS_REPLIES: &[u8] =
    b"written 1\nflushed 1\nwritten 2\nwritten 3\nflushed 3\nbegun t 3\nrow 'k 'bca 3 0 -\n";

fn ends_turned(alloc: Global) -> bool {
    let mut store = MemoryStore::new(alloc, Vec::new(alloc));
    let mut sink = MemorySink::new(alloc, Vec::new(alloc));
    let mut env: Env<'_, MemoryStore, Turned, Xor> = Env {
        store: &mut store,
        operator: Some(Turned),
        transformer: None,
    };
    let ended = run(alloc, OPERANDS, Vec::new(alloc), &mut sink, &mut env);
    let ends_so = status_of(ended) == Some(0) && sink.taken() == OPERANDS_REPLIES;
    drop(env);
    drop((store, sink));
    ends_so
}

#[test]
fn an_operator_is_not_associative(rt: HostRuntime) {
    assert!(rt; ends_turned(rt.alloc()));
}

fn ends_forgetful(alloc: Global) -> bool {
    let mut store = MemoryStore::new(alloc, Vec::new(alloc));
    let mut sink = MemorySink::new(alloc, Vec::new(alloc));
    let mut env: Env<'_, MemoryStore, NoOperator, Forgetful> = Env {
        store: &mut store,
        operator: None,
        transformer: Some(Forgetful),
    };
    let ended = run(alloc, GET, Vec::new(alloc), &mut sink, &mut env);
    let ends_so = status_of(ended) == Some(16) && sink.taken() == BEGUN;
    drop(env);
    drop((store, sink));
    ends_so
}

#[test]
fn a_transformer_does_not_come_back(rt: HostRuntime) {
    assert!(rt; ends_forgetful(rt.alloc()));
}

// Each key is a segment of its own.
const SEGMENTS: &[u8] =
    b"write put 'a '1 put 'b '2\nwrite put 'ab '3\nflush\nbegin t si\nget t 'b\nscan t desc * *\nprefix t asc 'a * *\n";

const SEGMENTS_REPLIES: &[u8] =
    b"written 1\nrefused InvalidSegmentPrefix 'ab 'a\nflushed 1\nbegun t 1\nrow 'b '2 1 0 -\nrows 2 'b '2 1 0 - 'a '1 1 0 -\nrows 1 'a '1 1 0 -\n";

fn run_by_whole(
    alloc: Global,
    sink: &mut MemorySink,
    store: &mut MemoryStore,
) -> Result<(), SlateDBError> {
    let laws: Laws<Whole> = Laws {
        options: Options::new(),
        segments: Some(Whole),
        policies: no_policies(alloc),
    };
    let mut source = MemorySource::new(SEGMENTS.to_vec(alloc)?, Vec::new(alloc));
    let mut env: Env<'_, MemoryStore, NoOperator, Xor> = Env {
        store,
        operator: None,
        transformer: None,
    };
    let ended = run_script(alloc, &mut source, sink, &mut env, &laws);
    drop((laws, source, env));
    ended
}

fn ends_in_segments(alloc: Global) -> bool {
    let mut store = MemoryStore::new(alloc, Vec::new(alloc));
    let mut sink = MemorySink::new(alloc, Vec::new(alloc));
    let ended = run_by_whole(alloc, &mut sink, &mut store);
    let ends_so = status_of(ended) == Some(0) && sink.taken() == SEGMENTS_REPLIES;
    drop((store, sink));
    ends_so
}

#[test]
fn segments_are_cut_by_whim(rt: HostRuntime) {
    assert!(rt; ends_in_segments(rt.alloc()));
}
