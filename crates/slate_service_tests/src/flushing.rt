// Two threads that pay of two accounts, while a third one flushes into the folder that all read.
ghost use Rattle.std.specs.Prelude.{◌≡◌, true};
ghost use Rattle.slate_stock.specs.Names.{is_plain_name};

use bytes::Bytes;
use slate_services::flushing::pay_while_one_flushes;
use slate_stock::{Name, Order};
use slate_store::FileStore;
use std::alloc::Global;
use std::fs;
use std::sync::Wait;
use std::thread::Threads;

const FOLDER: &str = "served-objects";

// The name of these bytes.
fn name(text: &'static [u8]) -> Name
    requires { is_plain_name text.now ≡ true }
{
    match Name::new(Bytes::from_static(text)) {
        Some(name) => name,
        None => unreachable!(),
    }
}

// All the money comes to be, in ann's holding.
fn money() -> Order {
    Order::Issue {
        asset: name(b"money"),
        name: name(b"ann"),
        amount: 100,
    }
}

// One of her payments to bob.
fn to_bob() -> Order {
    Order::Pay {
        asset: name(b"money"),
        from: name(b"ann"),
        to: name(b"bob"),
        amount: 1,
    }
}

// All the gold comes to be, in cat's holding.
fn gold() -> Order {
    Order::Issue {
        asset: name(b"gold"),
        name: name(b"cat"),
        amount: 100,
    }
}

// One of her payments to dan.
fn to_dan() -> Order {
    Order::Pay {
        asset: name(b"gold"),
        from: name(b"cat"),
        to: name(b"dan"),
        amount: 1,
    }
}

fn is_cleared(files: &HostRuntime) -> bool {
    match fs::exists(files, FOLDER).ok() {
        Some(true) => fs::remove_dir_all(files, FOLDER).ok().is_some(),
        found => found.is_some(),
    }
}

// A store of the folder.
fn opened(alloc: Global, files: &HostRuntime) -> Option<FileStore<&HostRuntime>> {
    FileStore::new(alloc, files, FOLDER).ok()
}

// Whether each of two threads makes its opening order and then a payment in each turn. None of them
// conflicts, since the accounts are of two assets.
fn are_all_paid<R: Threads + Wait + Sync>(rt: &R, files: &HostRuntime) -> bool {
    let alloc = files.alloc();
    let Some(one) = opened(alloc, files) else {
        return false;
    };
    let Some(two) = opened(alloc, files) else {
        return false;
    };
    let Some(three) = opened(alloc, files) else {
        return false;
    };
    let orders = ((&money(), &to_bob()), (&gold(), &to_dan()));
    let (left, stores) = pay_while_one_flushes(rt, alloc, orders, 20, (one, two, three));
    drop(stores);
    match left {
        Ok(left) => {
            left.first.0 == 1 && left.first.1 == 20 && left.second.0 == 1 && left.second.1 == 20
        },
        Err(_) => false,
    }
}

#[test]
fn two_threads_pay_while_one_flushes(rt: HostRuntime) {
    assert!(rt; is_cleared(&rt));
    assert!(rt; are_all_paid(&rt, &rt));
    assert!(rt; is_cleared(&rt));
}
