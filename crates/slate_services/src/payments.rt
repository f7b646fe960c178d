//! Two threads that pay from one account.
ghost use Rattle.std.specs.Prelude.{◌≡◌, ◌+◌, IfOk, IsOkUnless};
ghost use Rattle.slate_types.specs.declared.error.SlateDBError.{SlateDBError};
ghost use Rattle.slate_shared.specs.Given.{ArePlain};
ghost use Rattle.slate_stock.specs.Journals.{order_kind};
ghost use Rattle.slate_threads.specs.Workers.{made_by};
ghost use Rattle.slate_services.specs.Payments.{AreBooks};
ghost use Rattle.slate_services.specs.Plain.{IsCount, PlainWorked, plain_rules};

use slate_db::laws::Laws;
use slate_shared::{Database, Pass, Plain};
use slate_stock::on_pass::run_order;
use slate_stock::{Order, StockError};
use slate_store::{Env, MemoryStore};
use slate_threads::close;
use slate_txn::journal::Journal;
use slate_types::{NoExtractor, NoOperator, NoTransformer, SlateDBError};
use std::alloc::Global;
use std::sync::Wait;
use std::thread;
use std::thread::Threads;

/// What a service of payments leaves.
#[derive(Drop)]
pub struct Paid {
    /// The journal of all its commits.
    pub journal: Journal,
    /// How many of its commits are the issue: none or one.
    pub issued: u64,
    /// How many payments the first thread made.
    pub first: u64,
    /// How many the second made.
    pub second: u64,
}

/// A pass that comes back from a thread, and how many orders were made by it.
type Worked = (Pass<Plain>, u64);

/// Tries an order once. While nobody flushes, an empty store is all that its reads need.
fn attempt<R: Wait>(
    rt: &R,
    alloc: Global,
    db: &Database<Plain>,
    pass: &mut Pass<Plain>,
    laws: &Laws<NoExtractor>,
    order: &Order,
) -> Result<u64, StockError>
    requires table { pass.old.table ≡ db.now }
    requires laws { ArePlain laws.now.options laws.now.segments laws.now.policies.items }
    ensures { PlainWorked order_kind pass.old pass.new (made_by result) }
{
    let mut store = MemoryStore::new(alloc, Vec::new(alloc));
    let mut env: Env<'_, MemoryStore, NoOperator, NoTransformer> = Env {
        store: &mut store,
        operator: None,
        transformer: None,
    };
    run_order(rt, db, pass, order, 0, &mut env, laws)
}

/// Tries an order so many times, and gives how often it was made. If it is refused, as for a
/// conflict, others go on first.
fn pay<R: Wait>(
    rt: &R,
    alloc: Global,
    db: &Database<Plain>,
    pass: &mut Pass<Plain>,
    laws: &Laws<NoExtractor>,
    order: &Order,
    turns: u64,
) -> u64
    requires table { pass.old.table ≡ db.now }
    requires laws { ArePlain laws.now.options laws.now.segments laws.now.policies.items }
    ensures { PlainWorked order_kind pass.old pass.new result }
{
    let mut made = 0;
    for _turn in 0..turns {
        match attempt(rt, alloc, db, pass, laws, order) {
            Ok(_) => made += 1,
            Err(_) => thread::yield_now(),
        }
    }
    made
}

/// Two threads pay beside one another, each by a pass and an order of its own, and hand their
/// passes back.
fn pay_beside<R: Threads + Wait + Sync>(
    rt: &R,
    alloc: Global,
    db: &Database<Plain>,
    passes: (Pass<Plain>, Pass<Plain>),
    laws: &Laws<NoExtractor>,
    orders: (&Order, &Order),
    turns: u64,
) -> (Worked, Worked)
    requires table { (passes.0.table ≡ db.now) × (passes.1.table ≡ db.now) }
    requires laws { ArePlain laws.now.options laws.now.segments laws.now.policies.items }
    ensures first { PlainWorked order_kind passes.0 result.0.0 result.0.1 }
    ensures second { PlainWorked order_kind passes.1 result.1.0 result.1.1 }
{
    let (mut pass, mut other) = passes;
    let (first, second) = orders;
    thread::join(
        rt,
        move || -> Worked
            requires { (pass.table ≡ db.now)
                × ArePlain laws.now.options laws.now.segments laws.now.policies.items }
            ensures { PlainWorked order_kind pass result.0 result.1 }
        {
            let made = pay(rt, alloc, db, &mut pass, laws, first, turns);
            (pass, made)
        },
        move || -> Worked
            requires { (other.table ≡ db.now)
                × ArePlain laws.now.options laws.now.segments laws.now.policies.items }
            ensures { PlainWorked order_kind other result.0 result.1 }
        {
            let made = pay(rt, alloc, db, &mut other, laws, second, turns);
            (other, made)
        },
    )
}

/// Makes an order, as an issue is, and then two threads try one each, so many times. Gives the
/// journal that they leave. Whatever the threads do beside one another, in that journal all
/// commits are orders; balances add up to what was issued, at each sequence; each commit is its
/// order's step on the amounts just before it, and would read the same there; and there are as
/// many commits as the threads were told. The one error is `OutOfMemory`.
pub fn pay_by_two<R: Threads + Wait + Sync>(
    rt: &R,
    alloc: Global,
    issue: &Order,
    first: &Order,
    second: &Order,
    turns: u64,
) -> Result<Paid, SlateDBError>
    ensures books { IfOk result (λ paid. AreBooks plain_rules paid.journal.events) }
    ensures counted { IfOk result (λ paid. IsCount paid.journal.events
        (paid.issued + paid.first + paid.second)) }
    ensures cause { IsOkUnless result SlateDBError.OutOfMemory }
{
    let laws = Plain::laws(alloc);
    let (db, mut pass) = Database::<Plain>::new(alloc, &laws.options)?;
    let issued = pay(rt, alloc, &db, &mut pass, &laws, issue, 1);
    let other = pass.split(&db);
    let ((mut pass, first), (other, second)) = pay_beside(
        rt,
        alloc,
        &db,
        (pass, other),
        &laws,
        (first, second),
        turns,
    );
    pass.join(&db, other);
    let (core, copied) = close(rt, db, pass);
    core.close();
    Ok(Paid {
        journal: copied?,
        issued,
        first,
        second,
    })
}
