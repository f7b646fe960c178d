// Two threads that pay all that one account holds.
ghost use Rattle.std.specs.Prelude.{◌≡◌, true};
ghost use Rattle.slate_stock.specs.Names.{is_plain_name};

use bytes::Bytes;
use slate_services::payments::pay_by_two;
use slate_stock::{Name, Order};
use std::alloc::Global;
use std::sync::Wait;
use std::thread::Threads;

// The name of these bytes.
fn name(text: &'static [u8]) -> Name
    requires { is_plain_name text.now ≡ true }
{
    match Name::new(Bytes::from_static(text)) {
        Some(name) => name,
        None => unreachable!(),
    }
}

// All the money comes to be, in ann's holding.
fn issue() -> Order {
    Order::Issue {
        asset: name(b"money"),
        name: name(b"ann"),
        amount: 100,
    }
}

// One of her payments to bob.
fn to_bob() -> Order {
    Order::Pay {
        asset: name(b"money"),
        from: name(b"ann"),
        to: name(b"bob"),
        amount: 1,
    }
}

// One of her payments to cat.
fn to_cat() -> Order {
    Order::Pay {
        asset: name(b"money"),
        from: name(b"ann"),
        to: name(b"cat"),
        amount: 1,
    }
}

// Whether two threads together make just a hundred payments. Each has a hundred turns. In a turn
// it pays, or conflicts with a payment of the other thread, and with no payment in two turns, or
// finds that nothing is left. So a thread that never finds that sees a hundred payments, its own
// or others'.
fn are_all_paid<R: Threads + Wait + Sync>(rt: &R, alloc: Global) -> bool {
    match pay_by_two(rt, alloc, &issue(), &to_bob(), &to_cat(), 100) {
        Ok(paid) => paid.issued == 1 && paid.first.saturating_add(paid.second) == 100,
        Err(_) => false,
    }
}

#[test]
fn two_threads_pay_all_of_one_account(rt: HostRuntime) {
    assert!(rt; are_all_paid(&rt, rt.alloc()));
}
