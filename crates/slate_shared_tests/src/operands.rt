// Operands through one pass: folded by gets, in memory and behind a flush, each at its sequence.
ghost use Rattle.std.specs.Prelude.{◌≡◌, [], Some, None};
ghost use Rattle.slate_types.specs.Config.{defaults};
ghost use Rattle.slate_shared_tests.specs.Parts.{concat_parts};
ghost use Rattle.slate_shared.specs.Given.{ArePlain};

use crate::calls::{Row, is_row};
use crate::gates::{GateStore, Gates};
use slate_db::laws::Laws;
use slate_language::Concat;
use slate_mem::WriteBatch;
use slate_shared::{Database, DbTransaction, Parts, Pass, Plain};
use slate_store::Env;
use slate_types::{IsolationLevel, NoExtractor, NoTransformer};
use std::alloc::Global;
use std::sync::Wait;

// The default options, an operator that appends, and no segments and filters.
#[derive(Drop)]
struct Appending;

impl Parts for Appending {
    ghost options = { defaults };

    ghost meaning = { concat_parts };

    ghost segments = { None };

    ghost policies = { [] };
}

type Outer<'a, 's> = Env<'a, GateStore<'s>, Concat, NoTransformer>;

fn outer<'a, 's>(store: &'a mut GateStore<'s>) -> Outer<'a, 's>
    ensures plain { (result.operator ≡ Some (record {})) × (result.transformer ≡ None) }
{
    Env {
        store,
        operator: Some(Concat),
        transformer: None,
    }
}

// The sequence of an operand at the key k.
fn merge<R: Wait>(
    rt: &R,
    alloc: Global,
    db: &Database<Appending>,
    pass: &mut Pass<Appending>,
    store: &mut GateStore<'_>,
    laws: &Laws<NoExtractor>,
    operand: &[u8],
) -> Option<u64>
    requires table { pass.old.table ≡ db.now }
    requires laws { ArePlain laws.now.options laws.now.segments laws.now.policies.items }
    ensures same { (pass.new.table ≡ pass.old.table) × (pass.new.parts ≡ pass.old.parts) }
{
    let mut batch = WriteBatch::new(alloc);
    let is_merged = batch.merge(b"k", operand).is_ok();
    let mut env = outer(store);
    let handle = pass.write(rt, db, batch, 0, &mut env, laws).ok().flatten()?;
    if is_merged {
        Some(handle.seqnum())
    } else {
        None
    }
}

// Whether a flush answers this sequence.
fn is_flushed<R: Wait>(
    rt: &R,
    db: &Database<Appending>,
    pass: &mut Pass<Appending>,
    store: &mut GateStore<'_>,
    laws: &Laws<NoExtractor>,
    seq: u64,
) -> bool
    requires table { pass.old.table ≡ db.now }
    requires laws { ArePlain laws.now.options laws.now.segments laws.now.policies.items }
    ensures same { (pass.new.table ≡ pass.old.table) × (pass.new.parts ≡ pass.old.parts) }
{
    let mut env = outer(store);
    pass.flush(rt, db, &mut env, laws).ok() == Some(seq)
}

// Whether a transaction gets the row.
fn gets<R: Wait>(
    rt: &R,
    db: &Database<Appending>,
    txn: &mut DbTransaction<Appending>,
    store: &mut GateStore<'_>,
    laws: &Laws<NoExtractor>,
    row: Row<'_>,
) -> bool
    requires table { txn.old.table ≡ db.now }
    requires laws { ArePlain laws.now.options laws.now.segments laws.now.policies.items }
    ensures same { txn.new.table ≡ txn.old.table }
{
    let mut env = outer(store);
    is_row(txn.get_key_value(rt, db, row.0, &mut env, laws), Some(row))
}

// Whether a transaction that begins now begins at this sequence, and gets the row.
fn sees<R: Wait>(
    rt: &R,
    db: &Database<Appending>,
    pass: &mut Pass<Appending>,
    store: &mut GateStore<'_>,
    laws: &Laws<NoExtractor>,
    start: u64,
    row: Row<'_>,
) -> bool
    requires table { pass.old.table ≡ db.now }
    requires laws { ArePlain laws.now.options laws.now.segments laws.now.policies.items }
    ensures same { (pass.new.table ≡ pass.old.table) × (pass.new.parts ≡ pass.old.parts) }
{
    let Some(mut txn) = pass.begin(rt, db, IsolationLevel::Snapshot).ok() else {
        return false;
    };
    let has_begun = txn.seqnum() == start;
    let is_got = gets(rt, db, &mut txn, store, laws, row);
    txn.rollback(rt, db, pass);
    has_begun && is_got
}

// Whether an open transaction gets what was merged before its start behind one more operand and a flush.
fn stays<R: Wait>(
    rt: &R,
    alloc: Global,
    db: &Database<Appending>,
    pass: &mut Pass<Appending>,
    store: &mut GateStore<'_>,
    laws: &Laws<NoExtractor>,
) -> bool
    requires table { pass.old.table ≡ db.now }
    requires laws { ArePlain laws.now.options laws.now.segments laws.now.policies.items }
    ensures same { (pass.new.table ≡ pass.old.table) × (pass.new.parts ≡ pass.old.parts) }
{
    let Some(mut txn) = pass.begin(rt, db, IsolationLevel::Snapshot).ok() else {
        return false;
    };
    let has_begun = txn.seqnum() == 2;
    let seq = merge(rt, alloc, db, pass, store, laws, b"c");
    let flushed = is_flushed(rt, db, pass, store, laws, 3);
    let is_got = gets(rt, db, &mut txn, store, laws, (b"k", b"ab", 2));
    txn.rollback(rt, db, pass);
    has_begun && seq == Some(3) && flushed && is_got
}

// All of it over the store.
fn folds<R: Wait>(
    rt: &R,
    alloc: Global,
    db: &Database<Appending>,
    pass: &mut Pass<Appending>,
    store: &mut GateStore<'_>,
    laws: &Laws<NoExtractor>,
) -> bool
    requires table { pass.old.table ≡ db.now }
    requires laws { ArePlain laws.now.options laws.now.segments laws.now.policies.items }
    ensures same { (pass.new.table ≡ pass.old.table) × (pass.new.parts ≡ pass.old.parts) }
{
    merge(rt, alloc, db, pass, store, laws, b"a") == Some(1)
        && merge(rt, alloc, db, pass, store, laws, b"b") == Some(2)
        && stays(rt, alloc, db, pass, store, laws)
        && sees(rt, db, pass, store, laws, 3, (b"k", b"abc", 3))
}

fn are_folded<R: Wait>(rt: &R, alloc: Global) -> bool {
    let laws = Plain::laws(alloc);
    let Some((db, mut pass)) = Database::<Appending>::new(alloc, &laws.options).ok() else {
        return false;
    };
    let gates = Gates::new();
    let mut store = GateStore::new(alloc, &gates, Vec::new(alloc));
    folds(rt, alloc, &db, &mut pass, &mut store, &laws)
}

#[test]
fn operands_are_folded_at_their_sequences(rt: HostRuntime) {
    assert!(rt; are_folded(&rt, rt.alloc()));
}
