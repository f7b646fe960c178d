//! What threads prove together: what is known of a journal that several passes made, by the places
//! that are each one's own.
//!
//! A thread hands out with its pass that what stands at its own places is vouched: that each
//! commit there was answered as a reader at its begin is. Every call keeps that, and so does a
//! join. A pass that was joined of all parts has all commits of the journal. So all of them are
//! vouched, and each serializable one would read the same just before it.
#![tactic(auto)]

pub mod copies;
pub mod laws;

pub use copies::{close, journal};
