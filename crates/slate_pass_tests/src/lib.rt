//! Tests of calls on a database that threads share, which no other test makes: of a transaction, of
//! the programs, and over filters, segments and a transformer at once.
#![tactic(auto)]

#[cfg(test)]
mod calls;
#[cfg(test)]
mod facade;
#[cfg(test)]
mod operations;
#[cfg(test)]
mod parts;
#[cfg(test)]
mod programs;
#[cfg(test)]
mod threads;
