//! Tests of services of several threads: that their calls answer, and how much is done.
#![tactic(auto)]

#[cfg(test)]
mod copies;
#[cfg(test)]
mod flushing;
#[cfg(test)]
mod jobs;
#[cfg(test)]
mod payments;
#[cfg(test)]
mod records;
