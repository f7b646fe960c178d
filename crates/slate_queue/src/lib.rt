//! A queue of jobs over a store, with leases: calls on a core and on a database that threads share, the audit of a store's journal, its
//! feed, and a program over scripts.
//!
//! The definitions stand in `specs/`: `Jobs` says what a call does to a queue, `Stored` and `Standing` how one stands in a store, `Commits`
//! which commits are a queue's, `Calls` what a call on a core does, `OnPass` what one on a shared database does, and `Script` what the lines
//! of a script are answered.
#![tactic(auto)]

mod adding;
pub mod calls;
mod claiming;
pub mod claims;
mod commits;
pub mod entries;
pub mod error;
mod finishing;
pub mod laws;
mod line;
pub mod on_pass;
mod reply;
mod run;
mod stored;

pub use calls::{add, claim, finish};
pub use claims::Claim;
pub use commits::audit;
pub use entries::{FeedEntry, feed};
pub use error::QueueError;
pub use on_pass::{add_shared, claim_shared, finish_shared};
pub use run::run_queue;
