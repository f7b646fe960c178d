//! Tests of the crates below the database: vectors, first calls, and plain lists that have a call's contract.
#![tactic(auto)]

#[cfg(test)]
mod block_iterators;
#[cfg(test)]
mod blocks;
pub mod careless;
#[cfg(test)]
mod commit_lists;
pub mod failing;
#[cfg(test)]
mod file_calls;
#[cfg(test)]
mod folded;
pub mod listing;
#[cfg(test)]
mod lists;
#[cfg(test)]
mod memory;
#[cfg(test)]
mod memory_lists;
#[cfg(test)]
mod merged;
#[cfg(test)]
mod merges;
#[cfg(test)]
mod parts;
#[cfg(test)]
mod ranges;
#[cfg(test)]
mod read_tables;
pub mod refusals;
#[cfg(test)]
mod stores;
#[cfg(test)]
mod streams;
#[cfg(test)]
mod tables;
