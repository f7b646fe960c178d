// A snapshot that is read behind a commit and a flush.
ghost use Rattle.std.specs.Prelude.{map};
ghost use Rattle.slate_types.specs.Config.{IsValid};
ghost use Rattle.slate_filter.specs.Laws.{AreValidNames};

use crate::listing::default_laws;
use slate_db::engine::Core;
use slate_db::laws::Laws;
use slate_filter::FilterPolicy;
use slate_language::Xor;
use slate_mem::WriteBatch;
use slate_store::{Env, MemoryStore};
use slate_types::{KeyValue, NoExtractor, NoOperator, ReadOptions, SlateDBError};
use std::alloc::Global;
use uuid::Uuid;

type Parts<'a> = Env<'a, MemoryStore, NoOperator, Xor>;

// Commits a value at the key a, and another at the key b or a delete of it.
fn commit(
    alloc: Global,
    core: &mut Core,
    env: &mut Parts<'_>,
    laws: &Laws<NoExtractor>,
    value: &[u8],
    other: Option<&[u8]>,
) -> Option<u64> {
    let mut batch = WriteBatch::new(alloc);
    let first = batch.put(b"a", value).ok();
    let second = match other {
        Some(value) => batch.put(b"b", value).ok(),
        None => batch.delete(b"b").ok(),
    };
    let seq = core.write(batch, 0, env, laws).ok().flatten();
    first.and(second).and(seq)
}

// A snapshot behind a commit of two keys, and its sequence.
fn taken(
    alloc: Global,
    core: &mut Core,
    env: &mut Parts<'_>,
    laws: &Laws<NoExtractor>,
) -> Option<(Uuid, u64)> {
    let seq = commit(alloc, core, env, laws, b"1", Some(b"2"));
    let opened = core.snapshot().ok();
    seq.and(opened)
}

// Whether another commit of both keys is flushed, and answers its sequence.
fn is_changed(alloc: Global, core: &mut Core, env: &mut Parts<'_>, laws: &Laws<NoExtractor>) -> bool
    requires valid { IsValid laws.now.options }
    requires names { AreValidNames (map (λ p. (meaning (p.vtable, p.value)).name) laws.now.policies.items) }
{
    commit(alloc, core, env, laws, b"3", None) == Some(2)
        && matches!(core.flush(env, laws).ok(), Some(2))
}

// Whether a row is the one of the first commit with this key and value.
fn is_first(row: Result<Option<KeyValue>, SlateDBError>, key: &[u8], value: &[u8]) -> bool {
    let Some(row) = row.ok().flatten() else {
        return false;
    };
    let is_first = row.key.as_slice() == key && row.value.as_slice() == value && row.seq == 1;
    drop(row);
    is_first
}

// Whether a get at the snapshot finds the older value.
#[tactic(auto, using(crate::proofs::OpenIds::open_reads))]
fn gets(core: &mut Core, env: &mut Parts<'_>, laws: &Laws<NoExtractor>, id: &Uuid) -> bool {
    core.is_open(id)
        && is_first(
            core.get(id, b"a", &ReadOptions::default(), env, laws),
            b"a",
            b"1",
        )
}

// All of this over the store.
fn reads_on(alloc: Global, store: &mut MemoryStore) -> bool {
    let laws = default_laws(alloc);
    let mut core = Core::new(alloc, &laws.options);
    let mut env: Parts<'_> = Env {
        store,
        operator: None,
        transformer: None,
    };
    let read = match taken(alloc, &mut core, &mut env, &laws) {
        Some((id, 1)) => {
            is_changed(alloc, &mut core, &mut env, &laws) && gets(&mut core, &mut env, &laws, &id)
        }
        _ => false,
    };
    drop(laws);
    core.close();
    read
}

// Whether this is so of a store in memory.
fn is_read(alloc: Global) -> bool {
    let mut store = MemoryStore::new(alloc, Vec::new(alloc));
    let is_read = reads_on(alloc, &mut store);
    drop(store);
    is_read
}

#[test]
fn a_snapshot_reads_on_behind_a_flush(rt: HostRuntime) {
    assert!(rt; is_read(rt.alloc()));
}
