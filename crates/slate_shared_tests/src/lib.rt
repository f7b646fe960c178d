//! Tests of the shared database: rows through one pass, threads that wait for each other, and tables that several workers build.
#![tactic(auto)]

#[cfg(test)]
mod calls;
#[cfg(test)]
mod encoding;
#[cfg(test)]
mod failing;
#[cfg(test)]
mod flushes;
#[cfg(test)]
mod folders;
#[cfg(test)]
mod gates;
#[cfg(test)]
mod operands;
#[cfg(test)]
mod rows;
#[cfg(test)]
mod scans;
#[cfg(test)]
mod threads;
#[cfg(test)]
mod views;
