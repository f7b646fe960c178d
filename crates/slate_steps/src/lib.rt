//! One transaction, step by step: for callers that begin one, read, put and delete in it, and commit it or roll it back, with nothing
//! else between. On a core each call says what the core is then by the core before the begin and by the steps taken since:
//! `specs/Steps.antt`. On a database that threads share it says what the transaction is by these steps, and what its pass sees and has
//! of its own once it ended: `specs/Attempts.antt`.
#![tactic(auto)]

pub mod on_pass;
pub mod rows;
pub mod scan;
pub mod transaction;
