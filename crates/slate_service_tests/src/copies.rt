// A copy of the journal while the database goes on.
use slate_shared::{Database, Plain};
use slate_threads::journal;
use std::alloc::Global;
use std::sync::Wait;

// Whether the journal of a new database is copied, without an event.
fn is_copied<R: Wait>(rt: &R, alloc: Global) -> bool {
    let laws = Plain::laws(alloc);
    let Some((db, mut pass)) = Database::<Plain>::new(alloc, &laws.options).ok() else {
        return false;
    };
    match journal(rt, &db, &mut pass) {
        Ok(copy) => copy.len() == 0,
        Err(_) => false,
    }
}

#[test]
fn a_journal_is_copied(rt: HostRuntime) {
    assert!(rt; is_copied(&rt, rt.alloc()));
}
