//! Secondary indexes: records, and for each field that an index has of a record an entry, which is found by the field.
//!
//! The definitions stand in `specs/`: `Entries` says which entries a record has, `Changes` which commits are a change's and what a
//! change leaves, and `Journals` which journals are the crate's. `laws` has what follows of these: the entries of a store are those
//! of its records.
#![tactic(auto)]

pub mod audit;
pub mod change;
pub mod comma;
pub mod entries;
pub mod error;
pub mod fields;
pub mod keys;
pub mod laws;
pub mod line;
pub mod lookups;
pub mod name;
pub mod on_pass;
mod refusals;
mod reply;
pub mod run;

pub use change::{delete_record, put_record};
pub use comma::Comma;
pub use error::IndexError;
pub use fields::Fields;
pub use lookups::lookup;
pub use name::Name;
pub use on_pass::{delete_record_shared, put_record_shared};
pub use run::run_index;
