//! Tests of the database and of runs: what a call ends, and first calls that no run makes.
#![tactic(auto)]

#[cfg(test)]
mod careless;
#[cfg(test)]
mod exact_reads;
#[cfg(test)]
mod failing;
#[cfg(test)]
mod failing_flushes;
#[cfg(test)]
mod falling_puts;
#[cfg(test)]
mod filters;
#[cfg(test)]
mod flushes;
#[cfg(test)]
mod generated;
#[cfg(test)]
mod listing;
#[cfg(test)]
mod long;
#[cfg(test)]
mod lying;
#[cfg(test)]
mod runs;
#[cfg(test)]
mod scans;
#[cfg(test)]
mod snapshots;
