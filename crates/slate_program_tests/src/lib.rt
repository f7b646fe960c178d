//! Tests of the programs on a database that threads share: each thread has a pass, and makes its calls by it.
#![tactic(auto)]

#[cfg(test)]
mod calls;
#[cfg(test)]
mod queue;
#[cfg(test)]
mod records;
#[cfg(test)]
mod stock;
