// A flush of three tables of which a put fails, for each put in turn, and the tables that stand then.
ghost use Rattle.std.specs.Prelude.{map};
ghost use Rattle.slate_types.specs.Config.{IsValid};
ghost use Rattle.slate_filter.specs.Laws.{AreValidNames};

use crate::listing::default_laws;
use slate_db::engine::Core;
use slate_db::laws::Laws;
use slate_filter::FilterPolicy;
use slate_language::Xor;
use slate_lower_tests::listing::one;
use slate_mem::WriteBatch;
use slate_store::{Env, MemoryStore, Store};
use slate_types::{NoExtractor, NoOperator, SlateDBError};
use std::alloc::Global;

const FIRST: &str = "db/compacted/00000000000000010000000000000000.sst";

const SECOND: &str = "db/compacted/00000000000000010000000000000001.sst";

const THIRD: &str = "db/compacted/00000000000000010000000000000002.sst";

type Parts<'a> = Env<'a, MemoryStore, NoOperator, Xor>;

// Writes three keys in one commit, and gives its sequence.
fn three_puts(
    alloc: Global,
    core: &mut Core,
    env: &mut Parts<'_>,
    laws: &Laws<NoExtractor>,
) -> Option<u64> {
    let mut batch = WriteBatch::new(alloc);
    let first = batch.put(b"a", b"1").ok();
    let second = batch.put(b"b", b"2").ok();
    let third = batch.put(b"c", b"3").ok();
    let written = core.write(batch, 0, env, laws).ok().flatten();
    first.and(second).and(third).and(written)
}

// Whether a flush of the three keys fails by its store, or answers the commit's sequence.
fn ends(
    alloc: Global,
    core: &mut Core,
    env: &mut Parts<'_>,
    laws: &Laws<NoExtractor>,
    fails: bool,
) -> bool
    requires valid { IsValid laws.now.options }
    requires names { AreValidNames (map (λ p. (meaning (p.vtable, p.value)).name) laws.now.policies.items) }
{
    if three_puts(alloc, core, env, laws) != Some(1) {
        return false;
    }
    match core.flush(env, laws) {
        Ok(seq) => !fails && seq == 1,
        Err(error) => {
            let is_fault = matches!(error, SlateDBError::StoreFault);
            drop(error);
            fails && is_fault
        }
    }
}

// The same of a core over the store whose tables take one key each.
fn flushes(alloc: Global, store: &mut MemoryStore, fails: bool) -> bool {
    let mut laws = default_laws(alloc);
    laws.options.table_bytes = 1;
    let mut core = Core::new(alloc, &laws.options);
    let mut env: Parts<'_> = Env {
        store,
        operator: None,
        transformer: None,
    };
    let ends = ends(alloc, &mut core, &mut env, &laws, fails);
    drop(laws);
    core.close();
    ends
}

fn has(alloc: Global, store: &mut MemoryStore, path: &str) -> bool {
    matches!(store.len(alloc, path), Ok(Some(_)))
}

// Whether a store has so many of the three tables, the last ones, and no other object.
fn has_last(alloc: Global, store: &mut MemoryStore, count: usize) -> bool {
    let are_all = match store.list(alloc) {
        Ok(paths) => paths.len() == count,
        Err(_) => false,
    };
    are_all
        && has(alloc, store, THIRD) == (count >= 1)
        && has(alloc, store, SECOND) == (count >= 2)
        && has(alloc, store, FIRST) == (count >= 3)
}

// Whether so many of the tables stand behind a flush whose put of this number fails, and none for 0.
fn leaves(alloc: Global, put: u64, count: usize) -> bool {
    let mut store = MemoryStore::new(alloc, one(alloc, put));
    let leaves = flushes(alloc, &mut store, put > 0) && has_last(alloc, &mut store, count);
    drop(store);
    leaves
}

#[test]
fn a_flush_puts_its_first_table_last(rt: HostRuntime) {
    assert!(rt; leaves(rt.alloc(), 1, 0));
    assert!(rt; leaves(rt.alloc(), 2, 1));
    assert!(rt; leaves(rt.alloc(), 3, 2));
    assert!(rt; leaves(rt.alloc(), 0, 3));
}
