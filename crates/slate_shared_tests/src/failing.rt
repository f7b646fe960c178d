// A pass whose store, operator or transformer fails at a call, for each call in turn. The call on the database that met the failure is made
// once more.
ghost use Rattle.std.specs.Prelude.{◌≡◌, ◌≤◌, [], None, IfSome};
ghost use Rattle.slate_types.specs.Config.{defaults};
ghost use Rattle.slate_shared.specs.Given.{ArePlain};
ghost use Rattle.slate_shared_tests.specs.Parts.{failing_parts};

use crate::calls::{Row, is_row};
use slate_db::laws::Laws;
use slate_lower_tests::failing::{FailingConcat, FailingXor};
use slate_lower_tests::listing::one;
use slate_mem::WriteBatch;
use slate_shared::{Database, DbTransaction, Parts, Pass, Plain};
use slate_store::{Env, EnvOf, MemoryStore};
use slate_types::{IsolationLevel, NoExtractor, Outside, SlateDBError};
use std::alloc::Global;
use std::sync::Wait;

// The default options, both parts, and no segments and filters.
#[derive(Drop)]
struct Failing;

impl Parts for Failing {
    ghost options = { defaults };

    ghost meaning = { failing_parts };

    ghost segments = { None };

    ghost policies = { [] };
}

type Outer<'a> = Env<'a, MemoryStore, FailingConcat, FailingXor>;

// More calls than these make of a part.
const MOST: u64 = 20;

// How many failures were met, or `None` where something else went wrong.
type Met = Option<u64>;

// Whether a refusal is that of a store, an operator or a transformer.
fn is_fault(error: SlateDBError) -> bool {
    let status = error.status();
    drop(error);
    matches!(status, Some(7..=9))
}

// What is met by a call that is made once more behind a refusal.
fn met(refused: Option<SlateDBError>, is_answered: bool) -> Met
    ensures few { IfSome result (λ count. count ≤ 1) }
{
    if !is_answered {
        return None;
    }
    let Some(error) = refused else {
        return Some(0);
    };
    if is_fault(error) { Some(1) } else { None }
}

// An operand at the key k.
fn operand(alloc: Global, operand: &[u8]) -> WriteBatch {
    let mut batch = WriteBatch::new(alloc);
    drop(batch.merge(b"k", operand));
    batch
}

// Whether a batch is committed by itself at the sequence.
fn writes<R: Wait>(
    rt: &R,
    db: &Database<Failing>,
    pass: &mut Pass<Failing>,
    env: &mut Outer<'_>,
    laws: &Laws<NoExtractor>,
    batch: WriteBatch,
    seq: u64,
) -> bool
    requires table { pass.old.table ≡ db.now }
    requires laws { ArePlain laws.now.options laws.now.segments laws.now.policies.items }
    requires parts { (⟦<EnvOf<MemoryStore, FailingConcat, FailingXor> as Outside>⟧.reach env.old).meaning ≡ failing_parts }
    ensures same { (pass.new.table ≡ pass.old.table) × (pass.new.parts ≡ pass.old.parts) }
    ensures parts { (⟦<EnvOf<MemoryStore, FailingConcat, FailingXor> as Outside>⟧.reach env.new).meaning ≡ failing_parts }
{
    let written = pass.write(rt, db, batch, 0, env, laws).ok().flatten();
    match written {
        Some(handle) => handle.seqnum() == seq,
        None => false,
    }
}

// A flush that answers the sequence.
fn flushes<R: Wait>(
    rt: &R,
    db: &Database<Failing>,
    pass: &mut Pass<Failing>,
    env: &mut Outer<'_>,
    laws: &Laws<NoExtractor>,
    seq: u64,
) -> Met
    requires table { pass.old.table ≡ db.now }
    requires laws { ArePlain laws.now.options laws.now.segments laws.now.policies.items }
    requires parts { (⟦<EnvOf<MemoryStore, FailingConcat, FailingXor> as Outside>⟧.reach env.old).meaning ≡ failing_parts }
    ensures same { (pass.new.table ≡ pass.old.table) × (pass.new.parts ≡ pass.old.parts) }
    ensures parts { (⟦<EnvOf<MemoryStore, FailingConcat, FailingXor> as Outside>⟧.reach env.new).meaning ≡ failing_parts }
    ensures few { IfSome result (λ count. count ≤ 1) }
{
    match pass.flush(rt, db, env, laws) {
        Ok(last) => met(None, last == seq),
        Err(error) => met(Some(error), pass.flush(rt, db, env, laws).ok() == Some(seq)),
    }
}

// A get that answers the row.
fn gets<R: Wait>(
    rt: &R,
    db: &Database<Failing>,
    txn: &mut DbTransaction<Failing>,
    env: &mut Outer<'_>,
    laws: &Laws<NoExtractor>,
    row: Row<'_>,
) -> Met
    requires table { txn.old.table ≡ db.now }
    requires laws { ArePlain laws.now.options laws.now.segments laws.now.policies.items }
    requires parts { (⟦<EnvOf<MemoryStore, FailingConcat, FailingXor> as Outside>⟧.reach env.old).meaning ≡ failing_parts }
    ensures same { txn.new.table ≡ txn.old.table }
    ensures parts { (⟦<EnvOf<MemoryStore, FailingConcat, FailingXor> as Outside>⟧.reach env.new).meaning ≡ failing_parts }
    ensures few { IfSome result (λ count. count ≤ 1) }
{
    match txn.get_key_value(rt, db, row.0, env, laws) {
        Ok(found) => met(None, is_row(Ok(found), Some(row))),
        Err(error) => {
            let is_found = is_row(txn.get_key_value(rt, db, row.0, env, laws), Some(row));
            met(Some(error), is_found)
        }
    }
}

// A get by a transaction that begins now.
fn sees<R: Wait>(
    rt: &R,
    db: &Database<Failing>,
    pass: &mut Pass<Failing>,
    env: &mut Outer<'_>,
    laws: &Laws<NoExtractor>,
    row: Row<'_>,
) -> Met
    requires table { pass.old.table ≡ db.now }
    requires laws { ArePlain laws.now.options laws.now.segments laws.now.policies.items }
    requires parts { (⟦<EnvOf<MemoryStore, FailingConcat, FailingXor> as Outside>⟧.reach env.old).meaning ≡ failing_parts }
    ensures same { (pass.new.table ≡ pass.old.table) × (pass.new.parts ≡ pass.old.parts) }
    ensures parts { (⟦<EnvOf<MemoryStore, FailingConcat, FailingXor> as Outside>⟧.reach env.new).meaning ≡ failing_parts }
    ensures few { IfSome result (λ count. count ≤ 1) }
{
    let mut txn = pass.begin(rt, db, IsolationLevel::Snapshot).ok()?;
    let met = gets(rt, db, &mut txn, env, laws, row);
    txn.rollback(rt, db, pass);
    met
}

// A flush beneath an open transaction, and a get by it and by one that begins behind the flush.
fn flushes_and_gets<R: Wait>(
    rt: &R,
    db: &Database<Failing>,
    pass: &mut Pass<Failing>,
    env: &mut Outer<'_>,
    laws: &Laws<NoExtractor>,
    last: WriteBatch,
) -> Met
    requires table { pass.old.table ≡ db.now }
    requires laws { ArePlain laws.now.options laws.now.segments laws.now.policies.items }
    requires parts { (⟦<EnvOf<MemoryStore, FailingConcat, FailingXor> as Outside>⟧.reach env.old).meaning ≡ failing_parts }
    ensures same { (pass.new.table ≡ pass.old.table) × (pass.new.parts ≡ pass.old.parts) }
    ensures parts { (⟦<EnvOf<MemoryStore, FailingConcat, FailingXor> as Outside>⟧.reach env.new).meaning ≡ failing_parts }
    ensures few { IfSome result (λ count. count ≤ 3) }
{
    let mut txn = pass.begin(rt, db, IsolationLevel::Snapshot).ok()?;
    let is_written = writes(rt, db, pass, env, laws, last, 3);
    let flushed = flushes(rt, db, pass, env, laws, 3);
    let older = gets(rt, db, &mut txn, env, laws, (b"k", b"ab", 2));
    txn.rollback(rt, db, pass);
    let newer = sees(rt, db, pass, env, laws, (b"k", b"abc", 3));
    if is_written {
        Some(flushed? + older? + newer?)
    } else {
        None
    }
}

// Three operands, of which the last is written beneath an open transaction.
fn plays<R: Wait>(rt: &R, alloc: Global, env: &mut Outer<'_>) -> Met
    requires parts { (⟦<EnvOf<MemoryStore, FailingConcat, FailingXor> as Outside>⟧.reach env.old).meaning ≡ failing_parts }
{
    let laws = Plain::laws(alloc);
    let (db, mut pass) = Database::<Failing>::new(alloc, &laws.options).ok()?;
    let first = writes(rt, &db, &mut pass, env, &laws, operand(alloc, b"a"), 1);
    let second = writes(rt, &db, &mut pass, env, &laws, operand(alloc, b"b"), 2);
    let last = operand(alloc, b"c");
    let met = flushes_and_gets(rt, &db, &mut pass, env, &laws, last);
    if first && second { met } else { None }
}

// Which part fails.
#[derive(Clone, Copy)]
enum Part {
    Store,
    Operator,
    Transformer,
}

// The numbers of the calls of each part that fail.
fn failing_calls(alloc: Global, part: Part, number: u64) -> (Vec<u64>, Vec<u64>, Vec<u64>) {
    let fails = one(alloc, number);
    match part {
        Part::Store => (fails, Vec::new(alloc), Vec::new(alloc)),
        Part::Operator => (Vec::new(alloc), fails, Vec::new(alloc)),
        Part::Transformer => (Vec::new(alloc), Vec::new(alloc), fails),
    }
}

// How many failures are met where the part's call with the number fails.
fn failures<R: Wait>(rt: &R, alloc: Global, part: Part, number: u64) -> Met {
    let (of_store, of_operator, of_transformer) = failing_calls(alloc, part, number);
    let mut store = MemoryStore::new(alloc, of_store);
    let mut env = Env {
        store: &mut store,
        operator: Some(FailingConcat::new(of_operator)),
        transformer: Some(FailingXor::new(255, of_transformer)),
    };
    plays(rt, alloc, &mut env)
}

// How many calls of a part fail one by one, up to a day that meets no failure.
fn met_in_turn<R: Wait>(rt: &R, alloc: Global, part: Part) -> Option<u64> {
    for number in 1..MOST {
        match failures(rt, alloc, part, number) {
            Some(1) => {}
            Some(0) => return Some(number - 1),
            _ => return None,
        }
    }
    None
}

// One put, and for each get the reads of an index and of a block.
#[test]
fn a_store_fails_in_turn(rt: HostRuntime) {
    assert!(rt; met_in_turn(&rt, rt.alloc(), Part::Store) == Some(5));
}

// The flush folds two operands, and a get what came of them with the third.
#[test]
fn an_operator_fails_in_turn(rt: HostRuntime) {
    assert!(rt; matches!(met_in_turn(&rt, rt.alloc(), Part::Operator), Some(2..=9)));
}

// The flush encodes a block, an index and the statistics, and each get decodes two of these.
#[test]
fn a_transformer_fails_in_turn(rt: HostRuntime) {
    assert!(rt; met_in_turn(&rt, rt.alloc(), Part::Transformer) == Some(7));
}
