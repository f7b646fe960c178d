// Two threads that put one record.
ghost use Rattle.std.specs.Prelude.{◌≡◌, true};
ghost use Rattle.slate_index.specs.Names.{is_plain_name};

use bytes::Bytes;
use slate_index::{Comma, Name};
use slate_services::records::put_by_two;
use std::alloc::Global;
use std::sync::Wait;
use std::thread::Threads;

// The name of these bytes.
fn name(text: &'static [u8]) -> Name
    requires { is_plain_name text.now ≡ true }
{
    match Name::new(Bytes::from_static(text)) {
        Some(name) => name,
        None => unreachable!(),
    }
}

// Whether two threads put a record at least four times, in four turns each: a turn of a thread without a
// put conflicts with a put of the other thread, and with no put in two turns.
fn are_put<R: Threads + Wait + Sync>(rt: &R, alloc: Global) -> bool {
    let id = name(b"r1");
    let one = Bytes::from_static(b"red,round");
    let two = Bytes::from_static(b"blue,flat");
    match put_by_two(rt, alloc, &Comma, &id, (&one, &two), 4) {
        Ok(left) => left.first.saturating_add(left.second) >= 4,
        Err(_) => false,
    }
}

#[test]
fn two_threads_put_one_record(rt: HostRuntime) {
    assert!(rt; are_put(&rt, rt.alloc()));
}
