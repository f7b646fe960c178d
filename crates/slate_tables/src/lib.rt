//! A reader of a folder of tables: what a run left is listed, checked, exported and read.
#![tactic(auto)]

pub mod check;
pub mod describe;
pub mod export;
pub mod laws;
mod lines;
pub mod listing;
pub mod merging;
pub mod paths;
pub mod reader;
pub mod rows;
pub mod run;
pub mod script;
pub mod state;
pub mod tally;

pub use export::Written;
pub use merging::Export;
pub use reader::Tables;
pub use run::run_tables;
pub use script::write_script;
pub use state::{write_range, write_row_of, write_state};
