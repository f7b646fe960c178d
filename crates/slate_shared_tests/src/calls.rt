// Calls on a database, by what they answer.
ghost use Rattle.std.specs.Prelude.{◌≡◌, None, IfSome};
ghost use Rattle.slate_shared.specs.Shared.{all_parts};
ghost use Rattle.slate_shared.specs.Given.{ArePlain};

use crate::gates::{GateStore, Gates};
use slate_db::laws::Laws;
use slate_mem::WriteBatch;
use slate_shared::{Database, DbTransaction, Pass, Plain, WriteHandle};
use slate_store::{Env, Store};
use slate_types::{IsolationLevel, KeyValue, NoExtractor, NoOperator, NoTransformer, SlateDBError};
use std::alloc::Global;
use std::sync::Wait;

/// A pass that comes back from a thread, and what the thread answers.
pub type Ended<V> = (Pass<Plain>, V);

/// What a call reaches outside: a store alone.
pub type Outer<'a, S> = Env<'a, S, NoOperator, NoTransformer>;

/// A database, and its first pass.
pub fn opened(alloc: Global, laws: &Laws<NoExtractor>) -> Option<(Database<Plain>, Pass<Plain>)>
    requires { ArePlain laws.now.options laws.now.segments laws.now.policies.items }
    ensures { IfSome result (λ r. (r.1.table ≡ r.0) × (r.1.parts ≡ all_parts)) }
{
    Database::new(alloc, &laws.options).ok()
}

/// A store and nothing else.
pub fn outer<S: Store>(store: &mut S) -> Outer<'_, S>
    ensures plain { (result.operator ≡ None) × (result.transformer ≡ None) }
{
    Env {
        store,
        operator: None,
        transformer: None,
    }
}

/// The sequence of a commit or a write, where it has one.
pub fn seq_of(written: Result<Option<WriteHandle<Plain>>, SlateDBError>) -> Option<u64> {
    let handle = written.ok().flatten()?;
    Some(handle.seqnum())
}

/// The handle of a put that is written by itself.
pub fn write<R: Wait, S: Store>(
    rt: &R,
    alloc: Global,
    db: &Database<Plain>,
    pass: &mut Pass<Plain>,
    store: &mut S,
    laws: &Laws<NoExtractor>,
    put: (&[u8], &[u8]),
) -> Option<WriteHandle<Plain>>
    requires table { pass.old.table ≡ db.now }
    requires laws { ArePlain laws.now.options laws.now.segments laws.now.policies.items }
    ensures same { (pass.new.table ≡ pass.old.table) × (pass.new.parts ≡ pass.old.parts) }
{
    let mut batch = WriteBatch::new(alloc);
    let is_put = batch.put(put.0, put.1).is_ok();
    let mut env = outer(store);
    let handle = pass.write(rt, db, batch, 0, &mut env, laws).ok().flatten();
    if is_put { handle } else { None }
}

/// Its sequence.
pub fn put<R: Wait, S: Store>(
    rt: &R,
    alloc: Global,
    db: &Database<Plain>,
    pass: &mut Pass<Plain>,
    store: &mut S,
    laws: &Laws<NoExtractor>,
    put: (&[u8], &[u8]),
) -> Option<u64>
    requires table { pass.old.table ≡ db.now }
    requires laws { ArePlain laws.now.options laws.now.segments laws.now.policies.items }
    ensures same { (pass.new.table ≡ pass.old.table) × (pass.new.parts ≡ pass.old.parts) }
{
    let handle = write(rt, alloc, db, pass, store, laws, put)?;
    Some(handle.seqnum())
}

/// What a flush answers.
pub fn flush<R: Wait, S: Store>(
    rt: &R,
    db: &Database<Plain>,
    pass: &mut Pass<Plain>,
    store: &mut S,
    laws: &Laws<NoExtractor>,
) -> Result<u64, SlateDBError>
    requires table { pass.old.table ≡ db.now }
    requires laws { ArePlain laws.now.options laws.now.segments laws.now.policies.items }
    ensures same { (pass.new.table ≡ pass.old.table) × (pass.new.parts ≡ pass.old.parts) }
{
    let mut env = outer(store);
    pass.flush(rt, db, &mut env, laws)
}

/// Whether it answers this sequence.
pub fn is_flushed<R: Wait, S: Store>(
    rt: &R,
    db: &Database<Plain>,
    pass: &mut Pass<Plain>,
    store: &mut S,
    laws: &Laws<NoExtractor>,
    seq: u64,
) -> bool
    requires table { pass.old.table ≡ db.now }
    requires laws { ArePlain laws.now.options laws.now.segments laws.now.policies.items }
    ensures same { (pass.new.table ≡ pass.old.table) × (pass.new.parts ≡ pass.old.parts) }
{
    flush(rt, db, pass, store, laws).ok() == Some(seq)
}

/// A row that is expected: its key, its value and its sequence. It was made at 0 and doesn't expire.
pub type Row<'a> = (&'a [u8], &'a [u8], u64);

/// Whether a read answered the row, or that there is none.
pub fn is_row(answer: Result<Option<KeyValue>, SlateDBError>, row: Option<Row<'_>>) -> bool {
    let Some(found) = answer.ok() else {
        return false;
    };
    match (found, row) {
        (None, None) => true,
        (Some(found), Some(row)) => is_same(&found, row),
        _ => false,
    }
}

fn is_same(found: &KeyValue, row: Row<'_>) -> bool {
    found.key.as_slice() == row.0
        && found.value.as_slice() == row.1
        && found.seq == row.2
        && found.create_ts == 0
        && found.expire_ts.is_none()
}

/// Whether a transaction gets the row at a key, or none.
pub fn gets<R: Wait, S: Store>(
    rt: &R,
    db: &Database<Plain>,
    txn: &mut DbTransaction<Plain>,
    store: &mut S,
    laws: &Laws<NoExtractor>,
    key: &[u8],
    row: Option<Row<'_>>,
) -> bool
    requires table { txn.old.table ≡ db.now }
    requires laws { ArePlain laws.now.options laws.now.segments laws.now.policies.items }
    ensures same { txn.new.table ≡ txn.old.table }
{
    let mut env = outer(store);
    is_row(txn.get_key_value(rt, db, key, &mut env, laws), row)
}

/// Whether a transaction that begins now begins at this sequence, and gets the row.
pub fn sees<R: Wait, S: Store>(
    rt: &R,
    db: &Database<Plain>,
    pass: &mut Pass<Plain>,
    store: &mut S,
    laws: &Laws<NoExtractor>,
    start: u64,
    row: Row<'_>,
) -> bool
    requires table { pass.old.table ≡ db.now }
    requires laws { ArePlain laws.now.options laws.now.segments laws.now.policies.items }
    ensures same { (pass.new.table ≡ pass.old.table) × (pass.new.parts ≡ pass.old.parts) }
{
    let Some(mut txn) = pass.begin(rt, db, IsolationLevel::Snapshot).ok() else {
        return false;
    };
    let has_begun = txn.seqnum() == start;
    let is_got = gets(rt, db, &mut txn, store, laws, row.0, Some(row));
    txn.rollback(rt, db, pass);
    has_begun && is_got
}

/// What a commit answers.
pub fn commit<R: Wait, S: Store>(
    rt: &R,
    db: &Database<Plain>,
    pass: &mut Pass<Plain>,
    txn: DbTransaction<Plain>,
    store: &mut S,
    laws: &Laws<NoExtractor>,
) -> Result<Option<WriteHandle<Plain>>, SlateDBError>
    requires table { (pass.old.table ≡ db.now) × (txn.table ≡ db.now) }
    requires laws { ArePlain laws.now.options laws.now.segments laws.now.policies.items }
    ensures same { (pass.new.table ≡ pass.old.table) × (pass.new.parts ≡ pass.old.parts) }
{
    let mut env = outer(store);
    txn.commit(rt, db, pass, 0, &mut env, laws)
}

/// Whether a put at the key b has the second sequence, written once another thread's call waits, which then goes on.
pub fn writes_meanwhile<R: Wait>(
    rt: &R,
    alloc: Global,
    db: &Database<Plain>,
    pass: &mut Pass<Plain>,
    gates: &Gates,
    laws: &Laws<NoExtractor>,
) -> bool
    requires table { pass.old.table ≡ db.now }
    requires laws { ArePlain laws.now.options laws.now.segments laws.now.policies.items }
    ensures same { (pass.new.table ≡ pass.old.table) × (pass.new.parts ≡ pass.old.parts) }
{
    let has_begun = gates.has_begun();
    let mut store = GateStore::new(alloc, gates, Vec::new(alloc));
    let seq = put(rt, alloc, db, pass, &mut store, laws, (b"b", b"2"));
    gates.let_go();
    has_begun && seq == Some(2)
}
