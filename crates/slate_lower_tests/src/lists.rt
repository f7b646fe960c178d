// Lists that are copied with ample memory.
use crate::listing::one;
use bytes::Bytes;
use slate_txn::line::{ScanStep, StepList};
use slate_txn::list::{KeyList, TableList};
use slate_types::Ulid;
use std::alloc::Global;

fn is_key_copied(alloc: Global) -> bool {
    let keys = KeyList::from_vec(one(alloc, Bytes::from_static(b"key")));
    match keys.clone().ok() {
        Some(copy) => copy.as_slice().len() == 1,
        None => false,
    }
}

fn is_step_copied(alloc: Global) -> bool {
    let steps = StepList::from_vec(one(alloc, ScanStep::Rows(3)));
    match steps.clone().ok() {
        Some(copy) => copy.as_slice().len() == 1,
        None => false,
    }
}

fn is_table_copied(alloc: Global) -> bool {
    let tables = TableList::from_vec(one(alloc, (Ulid(7), Bytes::from_static(b"table"))));
    match tables.clone().ok() {
        Some(copy) => copy.as_slice().len() == 1,
        None => false,
    }
}

#[test]
fn lists_are_copied(rt: HostRuntime) {
    let alloc = rt.alloc();
    assert!(rt; is_key_copied(alloc) && is_step_copied(alloc) && is_table_copied(alloc));
}
