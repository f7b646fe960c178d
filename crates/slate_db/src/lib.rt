//! The store: flushes, and what reads of stored tables are asked for.
//!
//! A flush that has rows writes tables, at the paths that its number gives: `specs/Paths.antt` of `slate_table` says which,
//! `specs/Cut.antt` how many, and `specs/Flushed.antt` what a flush leaves. `specs/Asked.antt` says what a get reads of them.
#![tactic(auto)]

mod commit;
mod commit_prepared;
pub mod cut;
pub mod engine;
pub mod flight;
pub mod flush;
pub mod gather;
pub mod key_share;
pub mod laws;
pub mod layers;
pub mod log;
pub mod lookup;
pub mod open_scan;
pub mod prepared;
mod put;
pub mod range_share;
pub mod run_list;
pub mod scan;
mod scan_filters;
pub mod segments;
mod tested;
mod txn_scan;
mod values;
pub mod vectors;
mod write_prepared;
