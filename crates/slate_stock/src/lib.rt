//! Accounts and stock: amounts of assets move between names by serializable transactions.
//!
//! The definitions stand in `specs/`: `Orders` says what an order does to a map of amounts, `Commits` which commits are an order's,
//! and `Journals` which journals are the crate's. `laws` has what follows of these: balances add up to what was issued.
#![tactic(auto)]

pub mod amount;
pub mod audit;
pub mod error;
pub mod keys;
pub mod laws;
pub mod legs;
pub mod line;
pub mod moves;
pub mod name;
pub mod on_core;
pub mod on_pass;
pub mod order;
pub mod reply;
pub mod run;
pub mod shown;
pub mod total;

pub use error::StockError;
pub use name::Name;
pub use order::Order;
