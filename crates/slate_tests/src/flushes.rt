// A flush whose store fails, and one more.
ghost use Rattle.std.specs.Prelude.{map};
ghost use Rattle.slate_types.specs.Config.{IsValid};
ghost use Rattle.slate_filter.specs.Laws.{AreValidNames};

use crate::listing::default_laws;
use slate_db::engine::Core;
use slate_db::laws::Laws;
use slate_filter::FilterPolicy;
use slate_language::Xor;
use slate_lower_tests::listing::one;
use slate_mem::WriteBatch;
use slate_store::{Env, MemoryStore, Store};
use slate_types::{IsolationLevel, NoExtractor, NoOperator, ReadOptions, SlateDBError};
use std::alloc::Global;
use uuid::Uuid;

const FIRST: &str = "db/compacted/00000000000000010000000000000000.sst";

const SECOND: &str = "db/compacted/00000000000000010000000000000001.sst";

type Parts<'a> = Env<'a, MemoryStore, NoOperator, Xor>;

// The transaction that begins behind a core's one commit, and its start.
fn one_put(
    alloc: Global,
    core: &mut Core,
    env: &mut Parts<'_>,
    laws: &Laws<NoExtractor>,
) -> Option<(Uuid, u64)> {
    let mut batch = WriteBatch::new(alloc);
    let put = batch.put(b"a", b"1").ok();
    let written = core.write(batch, 0, env, laws).ok();
    let begun = core.begin(IsolationLevel::Snapshot).ok();
    put.and(written).and(begun)
}

// Whether something is there, and no error.
fn is_there<T: Drop, E: Drop>(answer: Result<Option<T>, E>) -> bool {
    answer.ok().flatten().is_some()
}

// Whether an open transaction finds a row at the key a.
#[tactic(auto, using(crate::proofs::OpenIds::open_reads))]
fn finds(core: &mut Core, env: &mut Parts<'_>, laws: &Laws<NoExtractor>, id: &Uuid) -> bool {
    core.is_open(id) && is_there(core.get(id, b"a", &ReadOptions::default(), env, laws))
}

// Whether a put is found behind a flush that fails by its store and behind one more, which answers its sequence.
fn is_flushed_again(
    alloc: Global,
    core: &mut Core,
    env: &mut Parts<'_>,
    laws: &Laws<NoExtractor>,
) -> bool
    requires valid { IsValid laws.now.options }
    requires names { AreValidNames (map (λ p. (meaning (p.vtable, p.value)).name) laws.now.policies.items) }
{
    let Some((id, _start)) = one_put(alloc, core, env, laws) else {
        return false;
    };
    let flushed = core.flush(env, laws);
    let has_failed = matches!(flushed, Err(SlateDBError::StoreFault));
    drop(flushed);
    has_failed
        && finds(core, env, laws, &id)
        && matches!(core.flush(env, laws).ok(), Some(1))
        && finds(core, env, laws, &id)
}

// The same of a core over the store.
fn stores_again(alloc: Global, store: &mut MemoryStore) -> bool {
    let laws = default_laws(alloc);
    let mut core = Core::new(alloc, &laws.options);
    let mut env: Parts<'_> = Env {
        store,
        operator: None,
        transformer: None,
    };
    let is_stored = is_flushed_again(alloc, &mut core, &mut env, &laws);
    drop(laws);
    core.close();
    is_stored
}

// Whether a store has the first table and no other object.
fn has_one_table(alloc: Global, store: &mut MemoryStore) -> bool {
    match store.list(alloc) {
        Ok(paths) => paths.len() == 1 && matches!(store.len(alloc, FIRST), Ok(Some(_))),
        Err(_) => false,
    }
}

// Whether this is so of a store whose first call fails.
fn is_one_table_stored(alloc: Global) -> bool {
    let mut store = MemoryStore::new(alloc, one(alloc, 1));
    let is_stored = stores_again(alloc, &mut store) && has_one_table(alloc, &mut store);
    drop(store);
    is_stored
}

#[test]
fn a_flush_that_failed_is_tried_again(rt: HostRuntime) {
    assert!(rt; is_one_table_stored(rt.alloc()));
}

// The transaction that begins behind a core's one commit, of two keys.
fn two_puts(
    alloc: Global,
    core: &mut Core,
    env: &mut Parts<'_>,
    laws: &Laws<NoExtractor>,
) -> Option<Uuid> {
    let mut batch = WriteBatch::new(alloc);
    let first = batch.put(b"a", b"1").ok();
    let second = batch.put(b"b", b"2").ok();
    let written = core.write(batch, 0, env, laws).ok();
    let begun = core.begin(IsolationLevel::Snapshot).ok();
    let (id, _start) = first.and(second).and(written).and(begun)?;
    Some(id)
}

// Whether an open transaction finds a row at each of two keys.
#[tactic(auto, using(crate::proofs::OpenIds::open_reads))]
fn finds_both(core: &mut Core, env: &mut Parts<'_>, laws: &Laws<NoExtractor>, id: &Uuid) -> bool {
    finds(core, env, laws, id)
        && core.is_open(id)
        && is_there(core.get(id, b"b", &ReadOptions::default(), env, laws))
}

// Whether both are found behind a flush.
fn are_flushed(
    alloc: Global,
    core: &mut Core,
    env: &mut Parts<'_>,
    laws: &Laws<NoExtractor>,
) -> bool
    requires valid { IsValid laws.now.options }
    requires names { AreValidNames (map (λ p. (meaning (p.vtable, p.value)).name) laws.now.policies.items) }
{
    let Some(id) = two_puts(alloc, core, env, laws) else {
        return false;
    };
    matches!(core.flush(env, laws).ok(), Some(1)) && finds_both(core, env, laws, &id)
}

// The same of a core over the store whose tables take one key each.
fn stores_two(alloc: Global, store: &mut MemoryStore) -> bool {
    let mut laws = default_laws(alloc);
    laws.options.table_bytes = 1;
    let mut core = Core::new(alloc, &laws.options);
    let mut env: Parts<'_> = Env {
        store,
        operator: None,
        transformer: None,
    };
    let are_stored = are_flushed(alloc, &mut core, &mut env, &laws);
    drop(laws);
    core.close();
    are_stored
}

// Whether a store has the first two tables of a flush and no other object.
fn has_two_tables(alloc: Global, store: &mut MemoryStore) -> bool {
    match store.list(alloc) {
        Ok(paths) => {
            paths.len() == 2
                && matches!(store.len(alloc, FIRST), Ok(Some(_)))
                && matches!(store.len(alloc, SECOND), Ok(Some(_)))
        }
        Err(_) => false,
    }
}

// Whether this is so of a store in memory.
fn are_two_tables_stored(alloc: Global) -> bool {
    let mut store = MemoryStore::new(alloc, Vec::new(alloc));
    let are_stored = stores_two(alloc, &mut store) && has_two_tables(alloc, &mut store);
    drop(store);
    are_stored
}

#[test]
fn a_flush_stores_two_tables(rt: HostRuntime) {
    assert!(rt; are_two_tables_stored(rt.alloc()));
}
