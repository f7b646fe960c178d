// Views, which outlive their transactions.
ghost use Rattle.std.specs.Prelude.{◌≡◌, ◌∷◌, [], true, IfSome};
ghost use Rattle.slate_types.specs.Keys.{in_range};
ghost use Rattle.slate_shared.specs.Given.{ArePlain};

use crate::calls::{Row, is_flushed, is_row, opened, outer, put};
use crate::gates::{GateStore, Gates};
use slate_db::laws::Laws;
use slate_shared::{Database, DbTransaction, Pass, Plain, View};
use slate_types::{BytesRange, IsolationLevel, NoExtractor, ReadOptions};
use std::alloc::Global;
use std::sync::Wait;

// A view of all keys.
fn view<R: Wait>(
    rt: &R,
    db: &Database<Plain>,
    txn: &mut DbTransaction<Plain>,
) -> Option<View<Plain>>
    requires { txn.old.table ≡ db.now }
    ensures same { txn.new.table ≡ txn.old.table }
    ensures within { IfSome result (λ v. in_range v.range (97 ∷ []) ≡ true) }
{
    let range = BytesRange::unbounded();
    let view = txn.view(rt, db, &range).ok();
    drop(range);
    view
}

// One of a transaction that begins now and has ended.
fn view_now<R: Wait>(rt: &R, db: &Database<Plain>, pass: &mut Pass<Plain>) -> Option<View<Plain>>
    requires { pass.old.table ≡ db.now }
    ensures same { (pass.new.table ≡ pass.old.table) × (pass.new.parts ≡ pass.old.parts) }
    ensures within { IfSome result (λ v. in_range v.range (97 ∷ []) ≡ true) }
{
    let mut txn = pass.begin(rt, db, IsolationLevel::Snapshot).ok()?;
    let view = view(rt, db, &mut txn);
    txn.rollback(rt, db, pass);
    view
}

// Whether a view has this row at the key a.
fn shows(
    view: &View<Plain>,
    store: &mut GateStore<'_>,
    laws: &Laws<NoExtractor>,
    row: Row<'_>,
) -> bool
    requires within { in_range view.now.range (97 ∷ []) ≡ true }
    requires laws { ArePlain laws.now.options laws.now.segments laws.now.policies.items }
{
    let options = ReadOptions::default();
    let mut env = outer(store);
    is_row(view.get(b"a", &options, &mut env, laws), Some(row))
}

// Whether it has it as it was, behind one more put and a flush.
fn shows_its_start<R: Wait>(
    rt: &R,
    alloc: Global,
    db: &Database<Plain>,
    pass: &mut Pass<Plain>,
    store: &mut GateStore<'_>,
    laws: &Laws<NoExtractor>,
) -> bool
    requires table { pass.old.table ≡ db.now }
    requires laws { ArePlain laws.now.options laws.now.segments laws.now.policies.items }
{
    let first = put(rt, alloc, db, pass, store, laws, (b"a", b"1"));
    let Some(view) = view_now(rt, db, pass) else {
        return false;
    };
    let second = put(rt, alloc, db, pass, store, laws, (b"a", b"2"));
    let flushed = is_flushed(rt, db, pass, store, laws, 2);
    let shown = shows(&view, store, laws, (b"a", b"1", 1));
    drop(view);
    first == Some(1) && second == Some(2) && flushed && shown
}

fn is_viewed_at_its_start<R: Wait>(rt: &R, alloc: Global) -> bool {
    let laws = Plain::laws(alloc);
    let Some((db, mut pass)) = opened(alloc, &laws) else {
        return false;
    };
    let gates = Gates::new();
    let mut store = GateStore::new(alloc, &gates, Vec::new(alloc));
    shows_its_start(rt, alloc, &db, &mut pass, &mut store, &laws)
}

#[test]
fn a_view_outlives_its_transaction(rt: HostRuntime) {
    assert!(rt; is_viewed_at_its_start(&rt, rt.alloc()));
}
