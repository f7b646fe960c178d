// The least sequence that an open snapshot shows, and at which an open transaction began.
use slate_txn::{SnapshotManager, TransactionManager};
use slate_types::SlateDBError;
use std::alloc::Global;

// Returns the least sequence of no snapshot, of one at 10, of another at 5, of another at 20, and
// after the one at 5 was dropped.
fn least_sequences(alloc: Global) -> Result<[Option<u64>; 5], SlateDBError> {
    let mut snapshots = SnapshotManager::new(alloc, 0);
    let of_none = snapshots.min_active_seq();
    drop(snapshots.new_snapshot(Some(10))?);
    let of_one = snapshots.min_active_seq();
    let (fifth, _) = snapshots.new_snapshot(Some(5))?;
    let of_two = snapshots.min_active_seq();
    drop(snapshots.new_snapshot(Some(20))?);
    let of_three = snapshots.min_active_seq();
    if snapshots.is_live(&fifth) {
        snapshots.drop_snapshot(&fifth);
    }
    Ok([
        of_none,
        of_one,
        of_two,
        of_three,
        snapshots.min_active_seq(),
    ])
}

fn are_least(alloc: Global) -> bool {
    match least_sequences(alloc).ok() {
        Some(least) => least == [None, Some(10), Some(5), Some(5), Some(10)],
        None => false,
    }
}

#[test]
fn snapshots_have_a_least_sequence(rt: HostRuntime) {
    assert!(rt; are_least(rt.alloc()));
}

// Checks that a transaction begins at the sequence of its manager, which is the least then.
fn begins_at_seven(alloc: Global) -> bool {
    let mut transactions = TransactionManager::new(alloc, 7);
    let of_none = transactions.min_active_seq();
    let is_begun = transactions.new_transaction().is_ok();
    let of_one = transactions.min_active_seq();
    drop(transactions);
    of_none.is_none() && is_begun && of_one == Some(7)
}

#[test]
fn transactions_have_a_least_sequence(rt: HostRuntime) {
    assert!(rt; begins_at_seven(rt.alloc()));
}
