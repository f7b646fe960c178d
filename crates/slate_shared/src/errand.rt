//! What a flush has in hand while it stores.
use slate_mem::ImmutableMemtable;

/// What a flush has in hand between its two steps at the lock: its number, its barrier, and the tables that it took.
#[derive(Drop)]
pub(crate) struct Errand {
    pub(crate) number: u64,
    pub(crate) barrier: u64,
    pub(crate) tables: Vec<ImmutableMemtable>,
}
