//! One database for many threads.
//!
//! A `Database` has one word and one slot. The word is twice the number of the journal's events, and one more while the lock is held;
//! the slot has the core. A thread steps on the word by its `Pass`, which has no bytes: it carries what the thread knows of the journal.
//! The rule that every step keeps stands in `specs/Shared.antt`. It speaks of the journal and of a flush on its way, and of nothing
//! else: all else about the core is what its type says.
#![tactic(auto)]

pub(crate) mod aboard;
pub mod board;
pub mod commits;
pub mod database;
pub mod encode;
pub(crate) mod errand;
pub mod flush;
pub mod handle;
pub(crate) mod lock;
pub mod locked;
pub mod operations;
pub mod parts;
pub mod pass;
pub(crate) mod plays;
mod reads;
mod scans;
pub mod txn;
pub mod view;
pub mod wait;
pub mod writes;

pub use database::Database;
pub use encode::{EncodeWorker, FlushPlan, encode_segments};
pub use handle::WriteHandle;
pub use parts::{Parts, Plain};
pub use pass::Pass;
pub use txn::DbTransaction;
pub use view::View;

fn crosses<T: Send + Sync>() {}

fn goes<T: Send>() {}

/// The database is shared between threads, and what a thread has of it goes to others.
pub fn types_cross_threads<P: Parts + Send + Sync>() {
    crosses::<(Database<P>, View<P>)>();
    goes::<(Pass<P>, DbTransaction<P>, WriteHandle<P>)>();
}
