//! A thread's connection to a database that threads share: the database, the thread's pass, its
//! store and the laws of all calls in one value, so that a call is given its own arguments alone.
//! `Transact::transact` makes a transaction of a closure, and begins again if another thread's
//! commit conflicts with it.
#![tactic(auto)]

pub mod connection;
mod scan;
pub mod shared_store;
pub mod transact;

pub use connection::Connection;
pub use shared_store::SharedStore;
pub use transact::{Transact, TransactOptions, Transaction};
