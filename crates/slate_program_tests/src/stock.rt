// Two threads that pay from one account, and a write that an audit names.
ghost use Rattle.std.specs.Prelude.{◌≡◌, true};
ghost use Rattle.slate_shared.specs.Given.{ArePlain};
ghost use Rattle.slate_stock.specs.Names.{is_plain_name};

use crate::calls::{Ended, Outcome, opened, outer};
use bytes::Bytes;
use slate_db::engine::Core;
use slate_db::laws::Laws;
use slate_mem::WriteBatch;
use slate_shared::{Database, Pass, Plain};
use slate_stock::audit::audit;
use slate_stock::on_pass::run_order;
use slate_stock::total::total;
use slate_stock::{Name, Order, StockError};
use slate_store::MemoryStore;
use slate_txn::journal::Journal;
use slate_types::{NoExtractor, SlateDBError};
use std::alloc::Global;
use std::sync::Wait;
use std::thread;
use std::thread::Threads;

// The name of these bytes.
fn name(text: &'static [u8]) -> Name
    requires { is_plain_name text.now ≡ true }
{
    match Name::new(Bytes::from_static(text)) {
        Some(name) => name,
        None => unreachable!(),
    }
}

// All the money comes to be, in ann's holding.
fn issue() -> Order {
    Order::Issue {
        asset: name(b"money"),
        name: name(b"ann"),
        amount: 100,
    }
}

// One of her payments.
fn payment() -> Order {
    Order::Pay {
        asset: name(b"money"),
        from: name(b"ann"),
        to: name(b"bob"),
        amount: 1,
    }
}

// What one attempt at an order answers.
fn attempt<R: Wait>(
    rt: &R,
    alloc: Global,
    db: &Database<Plain>,
    pass: &mut Pass<Plain>,
    laws: &Laws<NoExtractor>,
    order: Order,
) -> Result<u64, StockError>
    requires table { pass.old.table ≡ db.now }
    requires laws { ArePlain laws.now.options laws.now.segments laws.now.policies.items }
    ensures same { (pass.new.table ≡ pass.old.table) × (pass.new.parts ≡ pass.old.parts) }
{
    let mut store = MemoryStore::new(alloc, Vec::new(alloc));
    let mut env = outer(&mut store);
    run_order(rt, db, pass, &order, 0, &mut env, laws)
}

fn outcome(answer: Result<u64, StockError>) -> Outcome {
    match answer {
        Ok(seq) => Outcome::Committed(seq),
        Err(StockError::Db(SlateDBError::TransactionConflict { .. })) => Outcome::Conflict,
        Err(_) => Outcome::Refused,
    }
}

// Whether ann holds nothing that the order takes.
fn is_short(answer: Result<u64, StockError>) -> bool {
    match answer {
        Err(StockError::NotEnough { key, has, needs }) => {
            key.as_slice() == b"b:money:ann".as_slice() && has == 0 && needs == 1
        }
        _ => false,
    }
}

// Whether a payment is made. Each conflict is with a payment of the other thread, which makes fifty: so one of 51 attempts has none.
fn is_paid<R: Wait>(
    rt: &R,
    alloc: Global,
    db: &Database<Plain>,
    pass: &mut Pass<Plain>,
    laws: &Laws<NoExtractor>,
) -> bool
    requires table { pass.old.table ≡ db.now }
    requires laws { ArePlain laws.now.options laws.now.segments laws.now.policies.items }
    ensures same { (pass.new.table ≡ pass.old.table) × (pass.new.parts ≡ pass.old.parts) }
{
    for _attempt in 0..51 {
        match outcome(attempt(rt, alloc, db, pass, laws, payment())) {
            Outcome::Committed(_) => return true,
            Outcome::Conflict => thread::yield_now(),
            Outcome::Refused => return false,
        }
    }
    false
}

// How many of fifty payments are made.
fn pays_fifty<R: Wait>(
    rt: &R,
    alloc: Global,
    db: &Database<Plain>,
    pass: &mut Pass<Plain>,
    laws: &Laws<NoExtractor>,
) -> u64
    requires table { pass.old.table ≡ db.now }
    requires laws { ArePlain laws.now.options laws.now.segments laws.now.policies.items }
    ensures same { (pass.new.table ≡ pass.old.table) × (pass.new.parts ≡ pass.old.parts) }
{
    let mut count: u64 = 0;
    for _turn in 0..50 {
        if is_paid(rt, alloc, db, pass, laws) {
            count = count.saturating_add(1);
        }
    }
    count
}

// How many payments each of two threads makes.
fn pay_by_two<R: Threads + Wait + Sync>(
    rt: &R,
    alloc: Global,
    db: &Database<Plain>,
    passes: (Pass<Plain>, Pass<Plain>),
    laws: &Laws<NoExtractor>,
) -> (Ended<u64>, Ended<u64>)
    requires table { (passes.0.table ≡ db.now) × (passes.1.table ≡ db.now) }
    requires laws { ArePlain laws.now.options laws.now.segments laws.now.policies.items }
    ensures same { (result.0.0.table ≡ db.now) × (result.1.0.table ≡ db.now) }
{
    let (mut pass, mut other) = passes;
    thread::join(
        rt,
        move || -> Ended<u64>
            requires { (pass.table ≡ db.now) × ArePlain laws.now.options laws.now.segments laws.now.policies.items }
            ensures { result.0.table ≡ db.entry.now }
        {
            let count = pays_fifty(rt, alloc, db, &mut pass, laws);
            (pass, count)
        },
        move || -> Ended<u64>
            requires { (other.table ≡ db.now) × ArePlain laws.now.options laws.now.segments laws.now.policies.items }
            ensures { result.0.table ≡ db.entry.now }
        {
            let count = pays_fifty(rt, alloc, db, &mut other, laws);
            (other, count)
        },
    )
}

// Whether the issue is the first commit.
fn is_issued<R: Wait>(
    rt: &R,
    alloc: Global,
    db: &Database<Plain>,
    pass: &mut Pass<Plain>,
    laws: &Laws<NoExtractor>,
) -> bool
    requires table { pass.old.table ≡ db.now }
    requires laws { ArePlain laws.now.options laws.now.segments laws.now.policies.items }
    ensures same { (pass.new.table ≡ pass.old.table) × (pass.new.parts ≡ pass.old.parts) }
{
    match outcome(attempt(rt, alloc, db, pass, laws, issue())) {
        Outcome::Committed(seq) => seq == 1,
        _ => false,
    }
}

// Whether a payment more is refused, since the account is empty.
fn is_empty<R: Wait>(
    rt: &R,
    alloc: Global,
    db: &Database<Plain>,
    pass: &mut Pass<Plain>,
    laws: &Laws<NoExtractor>,
) -> bool
    requires table { pass.old.table ≡ db.now }
    requires laws { ArePlain laws.now.options laws.now.segments laws.now.policies.items }
    ensures same { (pass.new.table ≡ pass.old.table) × (pass.new.parts ≡ pass.old.parts) }
{
    is_short(attempt(rt, alloc, db, pass, laws, payment()))
}

// Whether all the money is there still.
fn is_whole(alloc: Global, core: &mut Core, laws: &Laws<NoExtractor>) -> bool
    requires laws { ArePlain laws.now.options laws.now.segments laws.now.policies.items }
{
    let money = name(b"money");
    let mut store = MemoryStore::new(alloc, Vec::new(alloc));
    let mut env = outer(&mut store);
    match total(core, &money, &mut env, laws) {
        Ok(total) => total.sum == 100 && total.issued == 100,
        Err(_) => false,
    }
}

// What an audit of the journal comes to.
#[derive(Clone, Copy)]
enum Verdict {
    Orders,
    Foreign(u64),
    Unknown,
}

fn audited(journal: &Journal) -> Verdict {
    match audit(journal) {
        Ok(()) => Verdict::Orders,
        Err(StockError::ForeignCommit { seq }) => Verdict::Foreign(seq),
        Err(_) => Verdict::Unknown,
    }
}

// Whether two threads at once pay all that one account holds.
fn is_paid_by_two<R: Threads + Wait + Sync>(rt: &R, alloc: Global) -> bool {
    let laws = Plain::laws(alloc);
    let Some((db, mut pass)) = opened(alloc, &laws) else {
        return false;
    };
    let is_issued = is_issued(rt, alloc, &db, &mut pass, &laws);
    let other = pass.split(&db);
    let ((mut pass, first), (other, second)) = pay_by_two(rt, alloc, &db, (pass, other), &laws);
    pass.join(&db, other);
    let is_empty = is_empty(rt, alloc, &db, &mut pass, &laws);
    let mut core = db.close(rt, pass);
    let is_whole = is_whole(alloc, &mut core, &laws);
    let is_audited = matches!(audited(core.journal()), Verdict::Orders);
    core.close();
    is_issued && first == 50 && second == 50 && is_empty && is_whole && is_audited
}

#[test]
fn two_threads_pay_from_one_account(rt: HostRuntime) {
    assert!(rt; is_paid_by_two(&rt, rt.alloc()));
}

// The sequence of a write of ann's balance that is no order's.
fn writes<R: Wait>(
    rt: &R,
    alloc: Global,
    db: &Database<Plain>,
    pass: &mut Pass<Plain>,
    laws: &Laws<NoExtractor>,
) -> Option<u64>
    requires table { pass.old.table ≡ db.now }
    requires laws { ArePlain laws.now.options laws.now.segments laws.now.policies.items }
    ensures same { (pass.new.table ≡ pass.old.table) × (pass.new.parts ≡ pass.old.parts) }
{
    let mut store = MemoryStore::new(alloc, Vec::new(alloc));
    let mut batch = WriteBatch::new(alloc);
    let is_put = batch.put(b"b:money:ann", b"\0\0\0\0\0\0\0\x01").is_ok();
    let mut env = outer(&mut store);
    let handle = pass.write(rt, db, batch, 0, &mut env, laws).ok().flatten()?;
    if is_put { Some(handle.seqnum()) } else { None }
}

// Whether an audit names the write, which is the second commit.
fn is_named<R: Wait>(rt: &R, alloc: Global) -> bool {
    let laws = Plain::laws(alloc);
    let Some((db, mut pass)) = opened(alloc, &laws) else {
        return false;
    };
    let is_issued = is_issued(rt, alloc, &db, &mut pass, &laws);
    let written = writes(rt, alloc, &db, &mut pass, &laws);
    let core = db.close(rt, pass);
    let is_found = matches!(audited(core.journal()), Verdict::Foreign(2));
    core.close();
    is_issued && written == Some(2) && is_found
}

#[test]
fn an_audit_names_a_write_of_a_balance(rt: HostRuntime) {
    assert!(rt; is_named(&rt, rt.alloc()));
}
