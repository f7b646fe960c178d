//! A shell: lines as a person types them, answered one by one. A wrong line is told, and the run
//! goes on.
#![tactic(auto)]

pub mod answers;
pub mod form;
pub mod kind;
pub mod program;
pub mod reading;
pub mod respond;
pub mod run;
pub mod spelling;
pub mod wrong;

pub use answers::{answer, shown};
pub use program::run_by_words;
pub use run::{Pages, run_shell, write_response};
