//! Services of several threads on one database, each proved whole: what the journal says that their
//! threads leave, without a premise on what any thread does.
#![tactic(auto)]

pub mod flushing;
pub mod jobs;
pub mod payments;
pub mod records;
