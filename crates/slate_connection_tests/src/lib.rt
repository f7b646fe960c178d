//! Tests of connections: each call once, over a store that two connections share.
#![tactic(auto)]

#[cfg(test)]
mod calls;
