//! The items of an inventory in a database: one key for each, with what is there of it.
ghost use Rattle.std.specs.Prelude.{◌≡◌, ◌+◌, ◌++◌, ◌∷◌, ℕ, [], IfSome, None, Ok, OnErr, Some};
ghost use Rattle.slate_shared.specs.Given.{ArePlain};
ghost use Rattle.inventory.specs.declared.inventory.Change.{Change};

use slatedb::{
    BytesRange, Database, DbTransaction, Env, IsolationLevel, Laws, NoExtractor, NoOperator,
    NoTransformer, Pass, Plain, ScanOptions, SlateDBError, Store, counter_value,
};
use std::alloc::{AllocError, Global};
use std::sync::Wait;

/// The keys of items begin with this, and their names follow.
const ITEM: &[u8] = b"item:";

/// A change of what is there of an item.
#[derive(Drop)]
pub enum Change {
    /// So many have come.
    More(u64),
    /// So many go.
    Less(u64),
}

impl Change {
    /// What is there behind it, and None where there isn't enough, or too much for a `u64`.
    fn of(&self, count: u64) -> Option<u64>
        ensures more { (n : ℕ) → self.now ≡ Change.More n → IfSome result (λ there. there ≡ count + n) }
        ensures less { (n : ℕ) → self.now ≡ Change.Less n → IfSome result (λ there. there + n ≡ count) }
    {
        match self {
            Change::More(more) => count.checked_add(*more),
            Change::Less(less) => count.checked_sub(*less),
        }
    }
}

/// A store, and no operator and no transformer.
fn lent<S: Store>(store: &mut S) -> Env<'_, S, NoOperator, NoTransformer>
    ensures plain { (result.operator ≡ None) × (result.transformer ≡ None) }
{
    Env {
        store,
        operator: None,
        transformer: None,
    }
}

/// The key of an item.
fn key_of(alloc: Global, item: &str) -> Result<Vec<u8>, AllocError> {
    let mut key = Vec::new(alloc);
    key.extend_from_slice(ITEM)?;
    key.extend_from_slice(item.as_bytes())?;
    Ok(key)
}

/// Changes what is there of an item by one commit, and gives the count behind it. Answers None where the change isn't possible. Then, and
/// after an error, nothing was committed.
pub fn apply<R: Wait, S: Store>(
    rt: &R,
    alloc: Global,
    db: &Database<Plain>,
    pass: &mut Pass<Plain>,
    store: &mut S,
    laws: &Laws<NoExtractor>,
    item: &str,
    by: Change,
) -> Result<Option<u64>, SlateDBError>
    requires table { pass.old.table ≡ db.now }
    requires laws { ArePlain laws.now.options laws.now.segments laws.now.policies.items }
    ensures same { (pass.new.table ≡ pass.old.table) × (pass.new.parts ≡ pass.old.parts) }
    ensures committed { (count : ℕ) → result ≡ Ok (Some count) → (place : ℕ) × (pass.new.own ≡ pass.old.own ++ place ∷ []) }
    ensures refused { result ≡ Ok None → pass.new.own ≡ pass.old.own }
    ensures failed { OnErr result (pass.new.own ≡ pass.old.own) }
{
    let key = key_of(alloc, item)?;
    let mut txn = pass.begin(rt, db, IsolationLevel::SerializableSnapshot)?;
    match put_changed(rt, db, &mut txn, store, laws, &key, by) {
        Ok(Some(count)) => {
            // Whatever commit answers, the transaction has ended.
            let mut env = lent(store);
            txn.commit(rt, db, pass, 0, &mut env, laws)?;
            Ok(Some(count))
        }
        refused => {
            txn.rollback(rt, db, pass);
            refused
        }
    }
}

/// Reads a count, and puts what it is changed to, if it can be.
fn put_changed<R: Wait, S: Store>(
    rt: &R,
    db: &Database<Plain>,
    txn: &mut DbTransaction<Plain>,
    store: &mut S,
    laws: &Laws<NoExtractor>,
    key: &[u8],
    by: Change,
) -> Result<Option<u64>, SlateDBError>
    requires table { txn.old.table ≡ db.now }
    requires laws { ArePlain laws.now.options laws.now.segments laws.now.policies.items }
    ensures same { txn.new.table ≡ txn.old.table }
{
    let mut env = lent(store);
    let there = match txn.get(rt, db, key, &mut env, laws)? {
        Some(value) => counter_value(value.as_slice()),
        None => 0,
    };
    let Some(count) = by.of(there) else {
        return Ok(None);
    };
    txn.put(key, &count.to_be_bytes())?;
    Ok(Some(count))
}

/// The rows in memory become tables of the store.
pub fn flush<R: Wait, S: Store>(
    rt: &R,
    db: &Database<Plain>,
    pass: &mut Pass<Plain>,
    store: &mut S,
    laws: &Laws<NoExtractor>,
) -> Result<(), SlateDBError>
    requires table { pass.old.table ≡ db.now }
    requires laws { ArePlain laws.now.options laws.now.segments laws.now.policies.items }
    ensures same { (pass.new.table ≡ pass.old.table) × (pass.new.parts ≡ pass.old.parts) }
{
    let mut env = lent(store);
    pass.flush(rt, db, &mut env, laws)?;
    Ok(())
}

/// Each item with its count, upwards by name, as all are at one moment. It commits nothing.
pub fn report<R: Wait, S: Store>(
    rt: &R,
    alloc: Global,
    db: &Database<Plain>,
    pass: &mut Pass<Plain>,
    store: &mut S,
    laws: &Laws<NoExtractor>,
) -> Result<String, SlateDBError>
    requires table { pass.old.table ≡ db.now }
    requires laws { ArePlain laws.now.options laws.now.segments laws.now.policies.items }
    ensures same { (pass.new.table ≡ pass.old.table) × (pass.new.parts ≡ pass.old.parts) × (pass.new.own ≡ pass.old.own) }
{
    let items = BytesRange::from_prefix(alloc, ITEM)?;
    let mut txn = pass.begin(rt, db, IsolationLevel::Snapshot)?;
    let view = txn.view(rt, db, &items);
    txn.rollback(rt, db, pass);

    // A view is read without the lock, and needs its transaction no longer.
    let view = view?;
    let mut env = lent(store);
    let mut rows = view.scan(items, None, &ScanOptions::default(), &mut env, laws)?;
    let mut lines = format!(in alloc; "items")?;
    for _ in 0..u64::MAX {
        let Some(row) = rows.next(&mut env)? else {
            return Ok(lines);
        };
        let name = row.key.as_slice().get(ITEM.len()..).unwrap_or(b"");
        let name = String::from_utf8_lossy(alloc, name)?;
        let line = format!(in alloc; "\n{name} {}", counter_value(row.value.as_slice()))?;
        lines.push_str(line.as_str())?;
    }
    Ok(lines)
}
