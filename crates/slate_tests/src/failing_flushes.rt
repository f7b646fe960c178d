// Flushes of a core whose store, operator or transformer fails at a call, for each call in turn, and one more behind each.
ghost use Rattle.std.specs.Prelude.{map};
ghost use Rattle.slate_types.specs.Config.{IsValid};
ghost use Rattle.slate_filter.specs.Laws.{AreValidNames};

use crate::listing::default_laws;
use slate_db::engine::Core;
use slate_db::laws::Laws;
use slate_filter::FilterPolicy;
use slate_lower_tests::failing::{FailingConcat, FailingXor};
use slate_lower_tests::listing::one;
use slate_mem::WriteBatch;
use slate_store::{Env, MemoryStore, Store};
use slate_types::{IsolationLevel, KeyValue, NoExtractor, ReadOptions, SlateDBError};
use std::alloc::Global;
use uuid::Uuid;

const TABLE: &str = "db/compacted/00000000000000010000000000000000.sst";

// More calls than a flush makes of a part.
const MOST: u64 = 20;

type Parts<'a> = Env<'a, MemoryStore, FailingConcat, FailingXor>;

// Which call of each part fails, or 0.
type Failing = (u64, u64, u64);

// Merges an operand onto the key k, as a commit of its own.
fn merge(
    alloc: Global,
    core: &mut Core,
    env: &mut Parts<'_>,
    laws: &Laws<NoExtractor>,
    operand: &[u8],
) -> Option<u64> {
    let mut batch = WriteBatch::new(alloc);
    let merged = batch.merge(b"k", operand).ok();
    let written = core.write(batch, 0, env, laws).ok().flatten();
    merged.and(written)
}

// The transaction that begins behind two commits of an operand each.
fn two_merges(
    alloc: Global,
    core: &mut Core,
    env: &mut Parts<'_>,
    laws: &Laws<NoExtractor>,
) -> Option<Uuid> {
    let first = merge(alloc, core, env, laws, b"a");
    let second = merge(alloc, core, env, laws, b"b");
    let begun = core.begin(IsolationLevel::Snapshot).ok();
    let (id, _start) = first.and(second).and(begun)?;
    Some(id)
}

fn is_joined(answer: Result<Option<KeyValue>, SlateDBError>) -> bool {
    let Some(row) = answer.ok().flatten() else {
        return false;
    };
    let is_joined = row.value.as_slice() == b"ab".as_slice() && row.seq == 2;
    drop(row);
    is_joined
}

// Whether the transaction finds both operands joined.
#[tactic(auto, using(crate::proofs::OpenIds::open_reads))]
fn finds(core: &mut Core, env: &mut Parts<'_>, laws: &Laws<NoExtractor>, id: &Uuid) -> bool {
    core.is_open(id) && is_joined(core.get(id, b"k", &ReadOptions::default(), env, laws))
}

// Whether a flush fails for its store, its operator or its transformer, and `None` where it answers the sequence.
fn fails(flushed: Result<u64, SlateDBError>) -> Option<bool> {
    match flushed {
        Ok(2) => None,
        Ok(_) => Some(false),
        Err(error) => {
            let status = error.status();
            drop(error);
            Some(matches!(status, Some(7..=9)))
        }
    }
}

// Whether both operands are found behind a flush that fails, and behind one more, which answers its sequence. `None` where the first one
// doesn't fail.
fn flushes_again(
    core: &mut Core,
    env: &mut Parts<'_>,
    laws: &Laws<NoExtractor>,
    id: &Uuid,
) -> Option<bool>
    requires valid { IsValid laws.now.options }
    requires names { AreValidNames (map (λ p. (meaning (p.vtable, p.value)).name) laws.now.policies.items) }
{
    let has_failed = fails(core.flush(env, laws))?;
    Some(
        has_failed
            && finds(core, env, laws, id)
            && fails(core.flush(env, laws)).is_none()
            && finds(core, env, laws, id),
    )
}

// The same of a core of its own over the store.
fn stores_again(alloc: Global, store: &mut MemoryStore, failing: Failing) -> Option<bool> {
    let laws = default_laws(alloc);
    let mut core = Core::new(alloc, &laws.options);
    let mut env: Parts<'_> = Env {
        store,
        operator: Some(FailingConcat::new(one(alloc, failing.1))),
        transformer: Some(FailingXor::new(255, one(alloc, failing.2))),
    };
    let stores = match two_merges(alloc, &mut core, &mut env, &laws) {
        Some(id) => flushes_again(&mut core, &mut env, &laws, &id),
        None => Some(false),
    };
    drop((laws, env));
    core.close();
    stores
}

// Whether a store has the first table and no other object.
fn has_one_table(alloc: Global, store: &mut MemoryStore) -> bool {
    match store.list(alloc) {
        Ok(paths) => paths.len() == 1 && matches!(store.len(alloc, TABLE), Ok(Some(_))),
        Err(_) => false,
    }
}

fn is_stored_once(alloc: Global, failing: Failing) -> Option<bool> {
    let mut store = MemoryStore::new(alloc, one(alloc, failing.0));
    let stores = stores_again(alloc, &mut store, failing);
    let is_one = has_one_table(alloc, &mut store);
    drop(store);
    Some(stores? && is_one)
}

// Which part fails at the call with the number.
#[derive(Clone, Copy)]
enum Part {
    Store,
    Operator,
    Transformer,
}

fn failing(part: Part, number: u64) -> Failing {
    match part {
        Part::Store => (number, 0, 0),
        Part::Operator => (0, number, 0),
        Part::Transformer => (0, 0, number),
    }
}

// How many calls of a part fail one by one, up to a flush that meets none.
fn failures(alloc: Global, part: Part) -> Option<u64> {
    for number in 1..MOST {
        match is_stored_once(alloc, failing(part, number)) {
            Some(true) => {}
            Some(false) => return None,
            None => return Some(number - 1),
        }
    }
    None
}

// The one table is one put.
#[test]
fn a_store_fails_a_flush(rt: HostRuntime) {
    assert!(rt; failures(rt.alloc(), Part::Store) == Some(1));
}

#[test]
fn an_operator_fails_a_flush(rt: HostRuntime) {
    assert!(rt; matches!(failures(rt.alloc(), Part::Operator), Some(1..=3)));
}

// It encodes a block, an index and the statistics.
#[test]
fn a_transformer_fails_a_flush(rt: HostRuntime) {
    assert!(rt; failures(rt.alloc(), Part::Transformer) == Some(3));
}
