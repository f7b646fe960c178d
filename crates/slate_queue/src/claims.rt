//! What a claim answers.
use bytes::Bytes;

/// A job that was claimed: its id, the number of the lease, which a finish must name, and its payload.
#[derive(Drop)]
pub struct Claim {
    pub id: u64,
    pub lease: u64,
    pub payload: Bytes,
}
