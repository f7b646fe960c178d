//! Tests of the calls below the database that no program makes: each is called once, and its answer
//! is compared with what was written elsewhere.
#![tactic(auto)]

#[cfg(test)]
mod blocks;
#[cfg(test)]
mod filters;
#[cfg(test)]
mod iterators;
#[cfg(test)]
mod keys;
#[cfg(test)]
mod managers;
#[cfg(test)]
mod stores;
#[cfg(test)]
mod tables;
