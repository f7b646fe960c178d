//! Two threads that pay, while a third one flushes into a store that all read.
ghost use Rattle.std.specs.Prelude.{◌≡◌, ◌+◌, [], IfOk, IsOkUnless};
ghost use Rattle.std.specs.Thread.{IsSend, IsSync};
ghost use Rattle.slate_types.specs.declared.error.SlateDBError.{SlateDBError};
ghost use Rattle.slate_shared.specs.Given.{ArePlain};
ghost use Rattle.slate_shared.specs.Shared.{all_parts};
ghost use Rattle.slate_stock.specs.Journals.{order_kind};
ghost use Rattle.slate_threads.specs.Passes.{Joins};
ghost use Rattle.slate_threads.specs.Workers.{made_by};
ghost use Rattle.slate_services.specs.Leaving.{AreServed, LeftByThree};
ghost use Rattle.slate_services.specs.Stores.{PlainFlushed, PlainRead, told_by};

use slate_db::laws::Laws;
use slate_shared::{Database, Pass, Plain};
use slate_stock::on_pass::run_order;
use slate_stock::{Order, StockError};
use slate_store::{Env, Store};
use slate_threads::close;
use slate_txn::journal::Journal;
use slate_types::{NoExtractor, NoOperator, NoTransformer, SlateDBError};
use std::alloc::Global;
use std::sync::Wait;
use std::thread;
use std::thread::Threads;

/// What two payers leave beside a flusher.
#[derive(Drop)]
pub struct Served {
    /// The journal of all commits and flushes.
    pub journal: Journal,
    /// How often the first payer made its opening order, none or once, and how many payments it
    /// made.
    pub first: (u64, u64),
    /// The same of the second.
    pub second: (u64, u64),
}

/// What a thread works with: a pass, and its store.
type Desk<S> = (Pass<Plain>, S);

/// What a payer's thread ends with: how often its opening order was made, and how many payments.
type Worked<S> = (Pass<Plain>, S, u64, u64);

/// Tries an order once.
fn attempt<R: Wait, S: Store>(
    rt: &R,
    db: &Database<Plain>,
    pass: &mut Pass<Plain>,
    store: &mut S,
    laws: &Laws<NoExtractor>,
    order: &Order,
) -> Result<u64, StockError>
    requires table { pass.old.table ≡ db.now }
    requires laws { ArePlain laws.now.options laws.now.segments laws.now.policies.items }
    ensures { PlainRead order_kind pass.old pass.new
        (told_by S.Store store.old) (told_by S.Store store.new) (made_by result) }
{
    let mut env: Env<'_, S, NoOperator, NoTransformer> = Env {
        store,
        operator: None,
        transformer: None,
    };
    run_order(rt, db, pass, order, 0, &mut env, laws)
}

/// Tries an order so many times, and gives how often it was made. If it is refused, as for a
/// conflict, others go on first.
fn pay<R: Wait, S: Store>(
    rt: &R,
    db: &Database<Plain>,
    pass: &mut Pass<Plain>,
    store: &mut S,
    laws: &Laws<NoExtractor>,
    order: &Order,
    turns: u64,
) -> u64
    requires table { pass.old.table ≡ db.now }
    requires laws { ArePlain laws.now.options laws.now.segments laws.now.policies.items }
    ensures { PlainRead order_kind pass.old pass.new
        (told_by S.Store store.old) (told_by S.Store store.new) result }
{
    let mut made = 0;
    for _turn in 0..turns {
        match attempt(rt, db, pass, store, laws, order) {
            Ok(_) => made += 1,
            Err(_) => thread::yield_now(),
        }
    }
    made
}

/// Stores the rows that wait, once.
fn flush_once<R: Wait, S: Store>(
    rt: &R,
    db: &Database<Plain>,
    pass: &mut Pass<Plain>,
    store: &mut S,
    laws: &Laws<NoExtractor>,
)
    requires table { pass.old.table ≡ db.now }
    requires laws { ArePlain laws.now.options laws.now.segments laws.now.policies.items }
    ensures { PlainFlushed order_kind pass.old pass.new
        (told_by S.Store store.old) (told_by S.Store store.new) }
{
    let mut env: Env<'_, S, NoOperator, NoTransformer> = Env {
        store,
        operator: None,
        transformer: None,
    };
    let _stored = pass.flush(rt, db, &mut env, laws);
    thread::yield_now();
}

/// Stores the rows that wait, so many times.
fn flush<R: Wait, S: Store>(
    rt: &R,
    db: &Database<Plain>,
    pass: &mut Pass<Plain>,
    store: &mut S,
    laws: &Laws<NoExtractor>,
    turns: u64,
)
    requires table { pass.old.table ≡ db.now }
    requires laws { ArePlain laws.now.options laws.now.segments laws.now.policies.items }
    ensures { PlainFlushed order_kind pass.old pass.new
        (told_by S.Store store.old) (told_by S.Store store.new) }
{
    for _turn in 0..turns {
        flush_once(rt, db, pass, store, laws);
    }
}

/// A payer's thread: an opening order, as an issue is, and then payments.
fn pay_at<R: Wait, S: Store>(
    rt: &R,
    db: &Database<Plain>,
    desk: Desk<S>,
    laws: &Laws<NoExtractor>,
    orders: (&Order, &Order),
    turns: u64,
) -> Worked<S>
    requires table { desk.0.table ≡ db.now }
    requires laws { ArePlain laws.now.options laws.now.segments laws.now.policies.items }
    ensures { PlainRead order_kind desk.0 result.0
        (told_by S.Store desk.1) (told_by S.Store result.1) (result.2 + result.3) }
{
    let (mut pass, mut store) = desk;
    let (opening, payment) = orders;
    let opened = pay(rt, db, &mut pass, &mut store, laws, opening, 1);
    let paid = pay(rt, db, &mut pass, &mut store, laws, payment, turns);
    (pass, store, opened, paid)
}

/// The flusher's thread.
fn flush_at<R: Wait, S: Store>(
    rt: &R,
    db: &Database<Plain>,
    desk: Desk<S>,
    laws: &Laws<NoExtractor>,
    turns: u64,
) -> Desk<S>
    requires table { desk.0.table ≡ db.now }
    requires laws { ArePlain laws.now.options laws.now.segments laws.now.policies.items }
    ensures { PlainFlushed order_kind desk.0 result.0
        (told_by S.Store desk.1) (told_by S.Store result.1) }
{
    let (mut pass, mut store) = desk;
    flush(rt, db, &mut pass, &mut store, laws, turns);
    (pass, store)
}

/// Two payers' threads.
fn pay_beside<R: Threads + Wait + Sync, S: Store + Send>(
    rt: &R,
    db: &Database<Plain>,
    desks: (Desk<S>, Desk<S>),
    laws: &Laws<NoExtractor>,
    orders: ((&Order, &Order), (&Order, &Order)),
    turns: u64,
) -> (Worked<S>, Worked<S>)
    requires table { (desks.0.0.table ≡ db.now) × (desks.1.0.table ≡ db.now) }
    requires laws { ArePlain laws.now.options laws.now.segments laws.now.policies.items }
    ensures first { PlainRead order_kind desks.0.0 result.0.0
        (told_by S.Store desks.0.1) (told_by S.Store result.0.1) (result.0.2 + result.0.3) }
    ensures second { PlainRead order_kind desks.1.0 result.1.0
        (told_by S.Store desks.1.1) (told_by S.Store result.1.1) (result.1.2 + result.1.3) }
{
    let (one, two) = desks;
    let (first, second) = orders;
    thread::join(
        rt,
        move || -> Worked<S>
            requires { (one.0.table ≡ db.now)
                × ArePlain laws.now.options laws.now.segments laws.now.policies.items }
            ensures { PlainRead order_kind one.0 result.0
                (told_by S.Store one.1) (told_by S.Store result.1) (result.2 + result.3) }
        { pay_at(rt, db, one, laws, first, turns) },
        move || -> Worked<S>
            requires { (two.0.table ≡ db.now)
                × ArePlain laws.now.options laws.now.segments laws.now.policies.items }
            ensures { PlainRead order_kind two.0 result.0
                (told_by S.Store two.1) (told_by S.Store result.1) (result.2 + result.3) }
        { pay_at(rt, db, two, laws, second, turns) },
    )
}

/// All three threads.
fn pay_and_flush<R: Threads + Wait + Sync, S: Store + Send>(
    rt: &R,
    db: &Database<Plain>,
    desks: (Desk<S>, Desk<S>),
    third: Desk<S>,
    laws: &Laws<NoExtractor>,
    orders: ((&Order, &Order), (&Order, &Order)),
    turns: u64,
) -> ((Worked<S>, Worked<S>), Desk<S>)
    requires table { (desks.0.0.table ≡ db.now) × (desks.1.0.table ≡ db.now) }
    requires third { third.0.table ≡ db.now }
    requires laws { ArePlain laws.now.options laws.now.segments laws.now.policies.items }
    ensures first { PlainRead order_kind desks.0.0 result.0.0.0
        (told_by S.Store desks.0.1) (told_by S.Store result.0.0.1)
        (result.0.0.2 + result.0.0.3) }
    ensures second { PlainRead order_kind desks.1.0 result.0.1.0
        (told_by S.Store desks.1.1) (told_by S.Store result.0.1.1)
        (result.0.1.2 + result.0.1.3) }
    ensures third { PlainFlushed order_kind third.0 result.1.0
        (told_by S.Store third.1) (told_by S.Store result.1.1) }
{
    thread::join(
        rt,
        move || -> (Worked<S>, Worked<S>)
            requires threads { IsSync R.row × IsSend S.row }
            requires table { (desks.0.0.table ≡ db.now) × (desks.1.0.table ≡ db.now) }
            requires laws { ArePlain laws.now.options laws.now.segments laws.now.policies.items }
            ensures first { PlainRead order_kind desks.0.0 result.0.0
                (told_by S.Store desks.0.1) (told_by S.Store result.0.1)
                (result.0.2 + result.0.3) }
            ensures second { PlainRead order_kind desks.1.0 result.1.0
                (told_by S.Store desks.1.1) (told_by S.Store result.1.1)
                (result.1.2 + result.1.3) }
        { pay_beside(rt, db, desks, laws, orders, turns) },
        move || -> Desk<S>
            requires { (third.0.table ≡ db.now)
                × ArePlain laws.now.options laws.now.segments laws.now.policies.items }
            ensures { PlainFlushed order_kind third.0 result.0
                (told_by S.Store third.1) (told_by S.Store result.1) }
        { flush_at(rt, db, third, laws, turns) },
    )
}

/// Takes one pass into another.
fn joined(db: &Database<Plain>, pass: Pass<Plain>, other: Pass<Plain>) -> Pass<Plain>
    requires { (pass.table ≡ db.now) × (other.table ≡ db.now) }
    ensures same { (result.table ≡ pass.table) × (result.parts ≡ pass.parts + other.parts) }
    ensures joins { Joins pass other result }
{
    let mut all = pass;
    all.join(db, other);
    all
}

/// Joins the passes, and closes the database.
fn left_by<R: Wait>(
    rt: &R,
    db: Database<Plain>,
    passes: (Pass<Plain>, Pass<Plain>, Pass<Plain>),
    first: (u64, u64),
    second: (u64, u64),
) -> Result<Served, SlateDBError>
    requires tables { (passes.0.table ≡ db) × (passes.1.table ≡ db) × (passes.2.table ≡ db) }
    requires parts { passes.0.parts + passes.1.parts + passes.2.parts ≡ all_parts }
    ensures left { IfOk result (λ left. LeftByThree passes.0 passes.1 passes.2 left.journal.events
        × (left.first ≡ first) × (left.second ≡ second)) }
    ensures cause { IsOkUnless result SlateDBError.OutOfMemory }
{
    let (pass, other, third) = passes;
    let two = joined(&db, pass, other);
    let all = joined(&db, two, third);
    let (core, copied) = close(rt, db, all);
    core.close();
    Ok(Served {
        journal: copied?,
        first,
        second,
    })
}

/// Runs the three threads on a new database.
fn serve<R: Threads + Wait + Sync, S: Store + Send>(
    rt: &R,
    db: Database<Plain>,
    pass: Pass<Plain>,
    laws: &Laws<NoExtractor>,
    orders: ((&Order, &Order), (&Order, &Order)),
    turns: u64,
    stores: (S, S, S),
) -> (Result<Served, SlateDBError>, (S, S, S))
    requires table { pass.table ≡ db }
    requires fresh { (pass.own ≡ []) × (pass.parts ≡ all_parts) }
    requires laws { ArePlain laws.now.options laws.now.segments laws.now.policies.items }
    ensures served { IfOk result.0 (λ left. AreServed left.journal.events
        ((left.first.0 + left.first.1) + (left.second.0 + left.second.1))
        (told_by S.Store stores.0) (told_by S.Store result.1.0)
        (told_by S.Store stores.1) (told_by S.Store result.1.1)
        (told_by S.Store stores.2) (told_by S.Store result.1.2)) }
    ensures cause { IsOkUnless result.0 SlateDBError.OutOfMemory }
{
    let mut pass = pass;
    let (store, second, flusher) = stores;
    let other = pass.split(&db);
    let third = pass.split(&db);
    let desks = ((pass, store), (other, second));
    let ((one, two), three) = pay_and_flush(rt, &db, desks, (third, flusher), laws, orders, turns);
    let (pass, store, opened, paid) = one;
    let (other, second, opened_too, paid_too) = two;
    let (third, flusher) = three;
    let passes = (pass, other, third);
    let left = left_by(rt, db, passes, (opened, paid), (opened_too, paid_too));
    (left, (store, second, flusher))
}

/// Two threads pay, each after an opening order, while a third one flushes, so many times. Gives
/// the journal that they leave, and the stores. Whatever they do beside one another, all commits
/// are orders, and there are as many as the payers were told, beside flushes. If each payer's
/// reads were answered by objects that hold the tables that the journal names, or none slipped,
/// balances add up to what was issued, at each sequence, and each commit is its order's step on
/// the amounts just before it, and would read the same there. If the flusher's store tells its
/// objects, it holds all these tables. The one error is `OutOfMemory`.
pub fn pay_while_one_flushes<R: Threads + Wait + Sync, S: Store + Send>(
    rt: &R,
    alloc: Global,
    orders: ((&Order, &Order), (&Order, &Order)),
    turns: u64,
    stores: (S, S, S),
) -> (Result<Served, SlateDBError>, (S, S, S))
    ensures served { IfOk result.0 (λ left. AreServed left.journal.events
        ((left.first.0 + left.first.1) + (left.second.0 + left.second.1))
        (told_by S.Store stores.0) (told_by S.Store result.1.0)
        (told_by S.Store stores.1) (told_by S.Store result.1.1)
        (told_by S.Store stores.2) (told_by S.Store result.1.2)) }
    ensures cause { IsOkUnless result.0 SlateDBError.OutOfMemory }
{
    let laws = Plain::laws(alloc);
    match Database::<Plain>::new(alloc, &laws.options) {
        Ok((db, pass)) => serve(rt, db, pass, &laws, orders, turns, stores),
        Err(error) => (Err(error), stores),
    }
}
