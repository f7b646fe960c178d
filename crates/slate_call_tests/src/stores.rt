// The paths of a store that lies at reads alone.
use slate_store::{LyingStore, Store};
use std::alloc::Global;

fn listed(alloc: Global) -> Option<String> {
    let mut store = LyingStore::new(alloc, Vec::new(alloc));
    let put = store.put(alloc, "a/b", b"1").ok();
    let paths = store.list(alloc).ok();
    drop(store);
    let path = paths?.pop()?;
    put.and(Some(path.into_string()))
}

fn is_listed(alloc: Global) -> bool {
    match listed(alloc) {
        Some(path) => path.as_str() == "a/b",
        None => false,
    }
}

#[test]
fn paths_are_listed(rt: HostRuntime) {
    assert!(rt; is_listed(rt.alloc()));
}
