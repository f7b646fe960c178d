//! Two threads over one folder: one counts visits, the other stores what was counted so far.
ghost use Rattle.std.specs.Prelude.{◌≡◌, None};
ghost use Rattle.slate_shared.specs.Given.{ArePlain};

use slatedb::{
    Database, DbTransaction, Env, FileStore, IsolationLevel, Laws, NoExtractor, NoOperator,
    NoTransformer, Pass, Plain, SlateDBError, Store, counter_value,
};
use std::sync::Wait;
use std::thread;
use std::thread::Threads;

/// A store that is lent, without an operator and a transformer.
type Lent<'a, S> = Env<'a, S, NoOperator, NoTransformer>;

/// A pass, and how what was done by it ended.
type Ended<V> = (Pass<Plain>, Result<V, SlateDBError>);

/// Serves a database by two threads, and gives the last count.
pub fn serve<R: Threads + Wait + Sync>(
    rt: &R,
    files: &HostRuntime,
    folder: &str,
) -> Result<u64, SlateDBError> {
    let alloc = files.alloc();
    let laws = Plain::laws(alloc);
    let (db, mut pass) = Database::<Plain>::new(alloc, &laws.options)?;
    let other = pass.split(&db);
    let passes = (pass, other);
    let ((mut pass, counted), (other, stored)) = serve_by_two(
        rt, files, folder, &db, passes, &laws,
    );
    // All passes are one again: so this pass owns each commit and each flush of the journal.
    pass.join(&db, other);
    db.close(rt, pass).close();
    stored.and(counted)
}

/// Each pass goes to a thread of its own where one can be made, and comes back.
fn serve_by_two<R: Threads + Wait + Sync>(
    rt: &R,
    files: &HostRuntime,
    folder: &str,
    db: &Database<Plain>,
    passes: (Pass<Plain>, Pass<Plain>),
    laws: &Laws<NoExtractor>,
) -> (Ended<u64>, Ended<()>)
    requires table { (passes.0.table ≡ db.now) × (passes.1.table ≡ db.now) }
    requires laws { ArePlain laws.now.options laws.now.segments laws.now.policies.items }
    ensures same { (result.0.0.table ≡ db.now) × (result.1.0.table ≡ db.now) }
{
    let (mut pass, mut other) = passes;
    thread::join(
        rt,
        move || -> Ended<u64>
            requires { (pass.table ≡ db.now)
                × ArePlain laws.now.options laws.now.segments laws.now.policies.items }
            ensures { result.0.table ≡ db.entry.now }
        {
            let counted = count_visits(rt, files, folder, db, &mut pass, laws);
            (pass, counted)
        },
        move || -> Ended<()>
            requires { (other.table ≡ db.now)
                × ArePlain laws.now.options laws.now.segments laws.now.policies.items }
            ensures { result.0.table ≡ db.entry.now }
        {
            let stored = store_rows(rt, files, folder, db, &mut other, laws);
            (other, stored)
        },
    )
}

/// Counts by a store of this thread's own, which reaches the folder that the other's does.
fn count_visits<R: Wait>(
    rt: &R,
    files: &HostRuntime,
    folder: &str,
    db: &Database<Plain>,
    pass: &mut Pass<Plain>,
    laws: &Laws<NoExtractor>,
) -> Result<u64, SlateDBError>
    requires table { pass.old.table ≡ db.now }
    requires laws { ArePlain laws.now.options laws.now.segments laws.now.policies.items }
    ensures same { (pass.new.table ≡ pass.old.table) × (pass.new.parts ≡ pass.old.parts) }
{
    let mut store = FileStore::new(files.alloc(), files, folder)?;
    let mut count = 0;
    for _ in 0..20 {
        count = visit(rt, db, pass, &mut store, laws)?;
    }
    Ok(count)
}

/// Stores what is there, five times.
fn store_rows<R: Wait>(
    rt: &R,
    files: &HostRuntime,
    folder: &str,
    db: &Database<Plain>,
    pass: &mut Pass<Plain>,
    laws: &Laws<NoExtractor>,
) -> Result<(), SlateDBError>
    requires table { pass.old.table ≡ db.now }
    requires laws { ArePlain laws.now.options laws.now.segments laws.now.policies.items }
    ensures same { (pass.new.table ≡ pass.old.table) × (pass.new.parts ≡ pass.old.parts) }
{
    let mut store = FileStore::new(files.alloc(), files, folder)?;
    for _ in 0..5 {
        let mut env = lent(&mut store);
        pass.flush(rt, db, &mut env, laws)?;
    }
    Ok(())
}

/// Counts a visit. A conflict with another thread's commit is no failure: it begins again, and
/// reads again.
fn visit<R: Wait, S: Store>(
    rt: &R,
    db: &Database<Plain>,
    pass: &mut Pass<Plain>,
    store: &mut S,
    laws: &Laws<NoExtractor>,
) -> Result<u64, SlateDBError>
    requires table { pass.old.table ≡ db.now }
    requires laws { ArePlain laws.now.options laws.now.segments laws.now.policies.items }
    ensures same { (pass.new.table ≡ pass.old.table) × (pass.new.parts ≡ pass.old.parts) }
{
    for _ in rt.forever() {
        match try_visit(rt, db, pass, store, laws) {
            Err(SlateDBError::TransactionConflict { .. }) => thread::yield_now(),
            ended => return ended,
        }
    }
    unreachable!()
}

/// One transaction. It ends on every way out: one that is neither committed nor rolled back
/// doesn't compile.
fn try_visit<R: Wait, S: Store>(
    rt: &R,
    db: &Database<Plain>,
    pass: &mut Pass<Plain>,
    store: &mut S,
    laws: &Laws<NoExtractor>,
) -> Result<u64, SlateDBError>
    requires table { pass.old.table ≡ db.now }
    requires laws { ArePlain laws.now.options laws.now.segments laws.now.policies.items }
    ensures same { (pass.new.table ≡ pass.old.table) × (pass.new.parts ≡ pass.old.parts) }
{
    let mut txn = pass.begin(rt, db, IsolationLevel::SerializableSnapshot)?;
    match add_one(rt, db, &mut txn, store, laws) {
        // Whatever commit answers, the transaction has ended.
        Ok(count) => {
            let mut env = lent(store);
            txn.commit(rt, db, pass, 0, &mut env, laws)?;
            Ok(count)
        }
        Err(error) => {
            txn.rollback(rt, db, pass);
            Err(error)
        }
    }
}

/// Reads the count, and puts the next one. `get` gives the value alone, `get_key_value` the row.
fn add_one<R: Wait, S: Store>(
    rt: &R,
    db: &Database<Plain>,
    txn: &mut DbTransaction<Plain>,
    store: &mut S,
    laws: &Laws<NoExtractor>,
) -> Result<u64, SlateDBError>
    requires table { txn.old.table ≡ db.now }
    requires laws { ArePlain laws.now.options laws.now.segments laws.now.policies.items }
    ensures same { txn.new.table ≡ txn.old.table }
{
    let mut env = lent(store);
    let count = match txn.get(rt, db, b"visits", &mut env, laws)? {
        Some(value) => counter_value(value.as_slice()).saturating_add(1),
        None => 1,
    };
    txn.put(b"visits", &count.to_be_bytes())?;
    Ok(count)
}

/// A store, and no operator and no transformer.
fn lent<S: Store>(store: &mut S) -> Lent<'_, S>
    ensures plain { (result.operator ≡ None) × (result.transformer ≡ None) }
{
    Env {
        store,
        operator: None,
        transformer: None,
    }
}
