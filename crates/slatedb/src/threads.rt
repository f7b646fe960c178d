//! A database that threads share: a service of two threads, and one thread with one pass.
ghost use Rattle.std.specs.Prelude.{◌≡◌, ℕ, [], None, List, Some, IfOk, OnOk};
ghost use Rattle.slate_types.specs.Outside.{IsStill, Objects, OnlyReads, no_parts};
ghost use Rattle.slate_mem.specs.BatchModel.{no_ops, plain_put, with_op};
ghost use Rattle.slate_txn.specs.declared.event.Event.{Event};
ghost use Rattle.slate_shared.specs.Given.{ArePlain};
ghost use Rattle.slatedb.specs.FirstSteps.{first_put};
ghost use Rattle.slatedb.specs.ReadBack.{IsAllOwn, IsReadBy, TakesFirstPut};

use crate::{
    Database, DbTransaction, Env, IsolationLevel, KeyValue, Laws, NoExtractor, NoOperator,
    NoTransformer, Pass, Plain, SlateDBError, Store, WriteBatch, counter_value,
};
use slate_store::EnvOf;
use slate_types::Outside;
use std::alloc::Global;
use std::sync::Wait;
use std::thread;
use std::thread::Threads;

/// A store that is lent, without an operator and a transformer.
pub type Lent<'a, S> = Env<'a, S, NoOperator, NoTransformer>;

/// A store, and no operator and no transformer.
fn lent<S: Store>(store: &mut S) -> Lent<'_, S>
    ensures plain { (result.operator ≡ None) × (result.transformer ≡ None) }
{
    Env {
        store,
        operator: None,
        transformer: None,
    }
}

/// Counts a visit, writes a row, stores both, and gives how many events the journal has.
pub fn one_thread<R: Wait, S: Store>(
    rt: &R,
    alloc: Global,
    store: &mut S,
) -> Result<usize, SlateDBError> {
    let laws = Plain::laws(alloc);
    let (db, mut pass) = Database::<Plain>::new(alloc, &laws.options)?;
    visit(rt, &db, &mut pass, store, &laws)?;
    write_and_store(rt, alloc, &db, &mut pass, store, &laws)?;

    // The core goes on where the database ends: it has the journal, and it could be read by scans.
    let core = db.close(rt, pass);
    let events = core.journal().len();
    core.close();
    Ok(events)
}

/// Writes a row, and stores all rows so far.
fn write_and_store<R: Wait, S: Store>(
    rt: &R,
    alloc: Global,
    db: &Database<Plain>,
    pass: &mut Pass<Plain>,
    store: &mut S,
    laws: &Laws<NoExtractor>,
) -> Result<(), SlateDBError>
    requires table { pass.old.table ≡ db.now }
    requires laws { ArePlain laws.now.options laws.now.segments laws.now.policies.items }
    ensures same { (pass.new.table ≡ pass.old.table) × (pass.new.parts ≡ pass.old.parts) }
{
    // A batch is one commit, at a moment in milliseconds.
    let mut batch = WriteBatch::new(alloc);
    batch.put(b"fruit", b"apple")?;
    let mut env = lent(store);
    let written = pass.write(rt, db, batch, 0, &mut env, laws)?;

    // The rows of all commits so far become tables.
    pass.flush(rt, db, &mut env, laws)?;
    // The flush went through the write: so this waits for no other.
    if let Some(handle) = &written {
        handle.await_durable(rt, db, pass);
    }
    Ok(())
}

/// Counts a visit, and gives the count. A conflict with another thread's commit is no failure: it begins again, and reads again.
fn visit<R: Wait, S: Store>(
    rt: &R,
    db: &Database<Plain>,
    pass: &mut Pass<Plain>,
    store: &mut S,
    laws: &Laws<NoExtractor>,
) -> Result<u64, SlateDBError>
    requires table { pass.old.table ≡ db.now }
    requires laws { ArePlain laws.now.options laws.now.segments laws.now.policies.items }
    ensures same { (pass.new.table ≡ pass.old.table) × (pass.new.parts ≡ pass.old.parts) }
{
    for _ in rt.forever() {
        match try_visit(rt, db, pass, store, laws) {
            Err(SlateDBError::TransactionConflict { .. }) => thread::yield_now(),
            ended => return ended,
        }
    }
    unreachable!()
}

/// One transaction. It ends on every way out.
fn try_visit<R: Wait, S: Store>(
    rt: &R,
    db: &Database<Plain>,
    pass: &mut Pass<Plain>,
    store: &mut S,
    laws: &Laws<NoExtractor>,
) -> Result<u64, SlateDBError>
    requires table { pass.old.table ≡ db.now }
    requires laws { ArePlain laws.now.options laws.now.segments laws.now.policies.items }
    ensures same { (pass.new.table ≡ pass.old.table) × (pass.new.parts ≡ pass.old.parts) }
{
    let mut txn = pass.begin(rt, db, IsolationLevel::SerializableSnapshot)?;
    match add_one(rt, db, &mut txn, store, laws) {
        // Whatever commit answers, the transaction has ended.
        Ok(count) => {
            let mut env = lent(store);
            txn.commit(rt, db, pass, 0, &mut env, laws)?;
            Ok(count)
        }
        Err(error) => {
            txn.rollback(rt, db, pass);
            Err(error)
        }
    }
}

/// Reads the count, and puts the next one. `get` gives the value alone, `get_key_value` the row.
fn add_one<R: Wait, S: Store>(
    rt: &R,
    db: &Database<Plain>,
    txn: &mut DbTransaction<Plain>,
    store: &mut S,
    laws: &Laws<NoExtractor>,
) -> Result<u64, SlateDBError>
    requires table { txn.old.table ≡ db.now }
    requires laws { ArePlain laws.now.options laws.now.segments laws.now.policies.items }
    ensures same { txn.new.table ≡ txn.old.table }
{
    let mut env = lent(store);
    let count = match txn.get(rt, db, b"visits", &mut env, laws)? {
        Some(value) => counter_value(value.as_slice()).saturating_add(1),
        None => 1,
    };
    txn.put(b"visits", &count.to_be_bytes())?;
    Ok(count)
}

/// Two threads serve one database: one counts visits, the other stores what was counted so far. Gives the last count. The two stores are
/// to reach the same objects, as two of one folder's files do.
pub fn serve<R: Threads + Wait + Sync, S: Store + Send>(
    rt: &R,
    alloc: Global,
    first: &mut S,
    second: &mut S,
) -> Result<u64, SlateDBError> {
    let laws = Plain::laws(alloc);
    let (db, mut pass) = Database::<Plain>::new(alloc, &laws.options)?;
    let other = pass.split(&db);
    let ((mut pass, counted), (other, stored)) = serve_by_two(
        rt,
        &db,
        (pass, other),
        first,
        second,
        &laws,
    );
    // All passes are one again: so each commit and each flush of the journal is one of this pass's own.
    pass.join(&db, other);
    let core = db.close(rt, pass);
    core.close();
    stored.and(counted)
}

/// A pass, and how what was done by it ended.
type Ended<V> = (Pass<Plain>, Result<V, SlateDBError>);

/// Each of the passes goes to a thread of its own where one can be made, and comes back.
fn serve_by_two<R: Threads + Wait + Sync, S: Store + Send>(
    rt: &R,
    db: &Database<Plain>,
    passes: (Pass<Plain>, Pass<Plain>),
    first: &mut S,
    second: &mut S,
    laws: &Laws<NoExtractor>,
) -> (Ended<u64>, Ended<()>)
    requires table { (passes.0.table ≡ db.now) × (passes.1.table ≡ db.now) }
    requires laws { ArePlain laws.now.options laws.now.segments laws.now.policies.items }
    ensures same { (result.0.0.table ≡ db.now) × (result.1.0.table ≡ db.now) }
{
    let (mut pass, mut other) = passes;
    thread::join(
        rt,
        move || -> Ended<u64>
            requires { (pass.table ≡ db.now) × ArePlain laws.now.options laws.now.segments laws.now.policies.items }
            ensures { result.0.table ≡ db.entry.now }
        {
            let counted = count_visits(rt, db, &mut pass, first, laws);
            (pass, counted)
        },
        move || -> Ended<()>
            requires { (other.table ≡ db.now) × ArePlain laws.now.options laws.now.segments laws.now.policies.items }
            ensures { result.0.table ≡ db.entry.now }
        {
            let stored = store_rows(rt, db, &mut other, second, laws);
            (other, stored)
        },
    )
}

fn count_visits<R: Wait, S: Store>(
    rt: &R,
    db: &Database<Plain>,
    pass: &mut Pass<Plain>,
    store: &mut S,
    laws: &Laws<NoExtractor>,
) -> Result<u64, SlateDBError>
    requires table { pass.old.table ≡ db.now }
    requires laws { ArePlain laws.now.options laws.now.segments laws.now.policies.items }
    ensures same { (pass.new.table ≡ pass.old.table) × (pass.new.parts ≡ pass.old.parts) }
{
    let mut count = 0;
    for _ in 0..1000 {
        count = visit(rt, db, pass, store, laws)?;
    }
    Ok(count)
}

fn store_rows<R: Wait, S: Store>(
    rt: &R,
    db: &Database<Plain>,
    pass: &mut Pass<Plain>,
    store: &mut S,
    laws: &Laws<NoExtractor>,
) -> Result<(), SlateDBError>
    requires table { pass.old.table ≡ db.now }
    requires laws { ArePlain laws.now.options laws.now.segments laws.now.policies.items }
    ensures same { (pass.new.table ≡ pass.old.table) × (pass.new.parts ≡ pass.old.parts) }
{
    for _ in 0..10 {
        let mut env = lent(store);
        pass.flush(rt, db, &mut env, laws)?;
    }
    Ok(())
}

/// Writes a row, stores it, and gives what a transaction reads at its key, all by one pass: of a store that tells its objects, that
/// row, whose table the store took then. That nobody else wrote or stored anything is known at the end, since the pass has all parts.
/// No failure of the store is passed over: but at `StoreFault` its count of faults is as it was.
pub fn write_and_read<R: Wait, S: Store>(
    rt: &R,
    alloc: Global,
    env: &mut Lent<'_, S>,
    key: &[u8],
    value: &[u8],
) -> Result<Option<KeyValue>, SlateDBError>
    requires { let reach = ⟦<EnvOf<S, NoOperator, NoTransformer> as Outside>⟧.reach in
        (reach env.old).meaning ≡ no_parts }
    ensures found { let reach = ⟦<EnvOf<S, NoOperator, NoTransformer> as Outside>⟧.reach in
        (os : Objects) → (reach env.old).objects ≡ Some os →
        IfOk result (λ found. found ≡ Some (first_put key.now value.now)) }
    ensures stored { let reach = ⟦<EnvOf<S, NoOperator, NoTransformer> as Outside>⟧.reach in
        (os : Objects) → (reach env.old).objects ≡ Some os →
        OnOk result (TakesFirstPut key.now value.now (reach env.old).objects (reach env.new).objects) }
    ensures still { let reach = ⟦<EnvOf<S, NoOperator, NoTransformer> as Outside>⟧.reach in IsStill (reach env.old).faults (reach env.new).faults result }
{
    let laws = Plain::laws(alloc);
    let (db, mut pass) = Database::<Plain>::new(alloc, &laws.options)?;
    let mut batch = WriteBatch::new(alloc);
    batch.put(key, value)?;
    let found = store_and_read(rt, &db, &mut pass, batch, key, env, &laws);
    let core = db.close(rt, pass);
    core.close();
    found
}

/// Writes a batch, stores it, and reads a key.
fn store_and_read<R: Wait, S: Store>(
    rt: &R,
    db: &Database<Plain>,
    pass: &mut Pass<Plain>,
    batch: WriteBatch,
    key: &[u8],
    env: &mut Lent<'_, S>,
    laws: &Laws<NoExtractor>,
) -> Result<Option<KeyValue>, SlateDBError>
    requires table { pass.old.table ≡ db.now }
    requires unused { (pass.old.seen ≡ []) × (pass.old.own ≡ []) }
    requires laws { ArePlain laws.now.options laws.now.segments laws.now.policies.items }
    requires meaning { let reach = ⟦<EnvOf<S, NoOperator, NoTransformer> as Outside>⟧.reach in
        (reach env.old).meaning ≡ no_parts }
    ensures same { (pass.new.table ≡ pass.old.table) × (pass.new.parts ≡ pass.old.parts) }
    ensures found { let reach = ⟦<EnvOf<S, NoOperator, NoTransformer> as Outside>⟧.reach in
        (value : List ℕ) (journal : List Event) (os : Objects) →
        batch ≡ with_op no_ops key.now (plain_put value) → IsAllOwn pass.new journal →
        (reach env.old).objects ≡ Some os → IfOk result (λ found. found ≡ Some (first_put key.now value)) }
    ensures stored { let reach = ⟦<EnvOf<S, NoOperator, NoTransformer> as Outside>⟧.reach in
        (value : List ℕ) (journal : List Event) (os : Objects) →
        batch ≡ with_op no_ops key.now (plain_put value) → IsAllOwn pass.new journal →
        (reach env.old).objects ≡ Some os → OnOk result (TakesFirstPut key.now value (reach env.old).objects (reach env.new).objects) }
    ensures still { let reach = ⟦<EnvOf<S, NoOperator, NoTransformer> as Outside>⟧.reach in IsStill (reach env.old).faults (reach env.new).faults result }
{
    pass.write(rt, db, batch, 0, env, laws)?;
    pass.flush(rt, db, env, laws)?;
    read_once(rt, db, pass, key, env, laws)
}

/// What a transaction of its own reads at a key.
fn read_once<R: Wait, S: Store>(
    rt: &R,
    db: &Database<Plain>,
    pass: &mut Pass<Plain>,
    key: &[u8],
    env: &mut Lent<'_, S>,
    laws: &Laws<NoExtractor>,
) -> Result<Option<KeyValue>, SlateDBError>
    requires table { pass.old.table ≡ db.now }
    requires laws { ArePlain laws.now.options laws.now.segments laws.now.policies.items }
    requires meaning { let reach = ⟦<EnvOf<S, NoOperator, NoTransformer> as Outside>⟧.reach in
        (reach env.old).meaning ≡ no_parts }
    ensures same { (pass.new.table ≡ pass.old.table) × (pass.new.parts ≡ pass.old.parts) }
    ensures own { pass.new.own ≡ pass.old.own }
    ensures read { let reach = ⟦<EnvOf<S, NoOperator, NoTransformer> as Outside>⟧.reach in
        IfOk result (IsReadBy key.now pass.old pass.new (reach env.old) (reach env.new)) }
    ensures reads { let reach = ⟦<EnvOf<S, NoOperator, NoTransformer> as Outside>⟧.reach in OnlyReads (reach env.old) (reach env.new) }
    ensures still { let reach = ⟦<EnvOf<S, NoOperator, NoTransformer> as Outside>⟧.reach in IsStill (reach env.old).faults (reach env.new).faults result }
{
    let mut txn = pass.begin(rt, db, IsolationLevel::Snapshot)?;
    let found = txn.get_key_value(rt, db, key, env, laws);
    txn.rollback(rt, db, pass);
    found
}
