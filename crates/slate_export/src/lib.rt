//! What is exported of the tables that a run left: the model's state at the run's last flush.
#![tactic(auto)]

pub mod flushed;

pub use flushed::{write_flushed_script, write_flushed_state};
