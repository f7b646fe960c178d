//! Jobs and numbers as they are stored.
ghost use Rattle.std.specs.Prelude.{◌≡◌, ◌⊎◌, Some, None, false, nat_eq, if◌then◌else◌, length, option_map, bytes_eq, drop, ◌≤◌, ◌&&◌, IfOk, IfSome};
ghost use Rattle.slate_types.specs.declared.error.SlateDBError.{SlateDBError};
ghost use Rattle.slate_queue.specs.declared.error.QueueError.{QueueError};
ghost use Rattle.slate_queue.specs.Forms.{IsRewritten, has_job_key, head_of, is_claimed, is_held, is_leased, is_new_job, follows, frees, raises};
ghost use Rattle.slate_queue.specs.Standing.{job_in};
ghost use Rattle.slate_queue.specs.CallSteps.{HasLease};
ghost use Rattle.slate_queue.specs.Stored.{Job, is_job_key, job_bytes, job_key, job_of, number_bytes, number_of};

use crate::error::QueueError;
use bytes::Bytes;
use std::alloc::{AllocError, Global};

/// The lease of a stored job: its number, and its end in milliseconds.
#[derive(Clone, Copy)]
pub struct LeaseHead {
    pub number: u64,
    pub ends: i64,
}

/// The number of 8 bytes, the greatest first.
#[tactic(auto, unfolding(crate::specs::Stored::number_of))]
pub(crate) fn number_in(bytes: &[u8]) -> Option<u64>
    ensures { result ≡ (if nat_eq (length bytes.now) 8 then Some (number_of bytes.now) else None) }
{
    match bytes.as_array::<8>() {
        Some(number) => Some(u64::from_be_bytes(*number)),
        None => None,
    }
}

/// The lease of a stored job. None where it is shorter than 16 bytes.
#[tactic(auto, unfolding(crate::specs::Stored::number_of))]
pub(crate) fn lease_in(job: &[u8]) -> Option<LeaseHead>
    ensures lease { result ≡ option_map head_of (job_of job.now) }
    ensures long { IfSome result (λ lease. 16 ≤ length job.now) }
{
    let (number, rest) = job.split_first_chunk::<8>()?;
    let (ends, _) = rest.split_first_chunk::<8>()?;
    Some(LeaseHead {
        number: u64::from_be_bytes(*number),
        ends: i64::from_be_bytes(*ends),
    })
}

/// Whether a claim at the moment may take a job under this lease.
pub(crate) fn is_free(now: i64, lease: LeaseHead) -> bool
    ensures { result ≡ frees now lease }
{
    lease.number == 0 || lease.ends <= now
}

/// Whether the key is a job's.
pub(crate) fn is_job_key(key: &[u8]) -> bool
    ensures test { result ≡ is_job_key key.now }
    ensures key { is_job_key key.now ≡ has_job_key key.now }
{
    key.starts_with(b"j") && key.len() == 9
}

/// Whether the key is that of the id's job.
#[tactic(auto, unfolding(crate::specs::Stored::number_bytes))]
pub(crate) fn is_key_of(key: &[u8], id: u64) -> bool
    ensures { result ≡ bytes_eq key.now (job_key id) }
{
    match key {
        [b'j', number @ ..] => number == id.to_be_bytes().as_slice(),
        _ => false,
    }
}

/// Whether the bytes are a job as it is added.
pub(crate) fn is_new_job(job: &[u8]) -> bool
    ensures { result ≡ is_new_job job.now }
{
    16 <= job.len() && job.len() <= u32::MAX as usize && job[..16] == [0; 16][..]
}

/// Whether the bytes are a job that isn't free at the moment.
pub(crate) fn is_held(now: i64, job: &[u8]) -> bool
    ensures { result ≡ is_held now job.now }
{
    match lease_in(job) {
        Some(lease) => !is_free(now, lease),
        None => false,
    }
}

/// Whether the bytes are a job that was claimed.
pub(crate) fn is_claimed(job: &[u8]) -> bool
    ensures { result ≡ is_claimed (job_of job.now) }
{
    match lease_in(job) {
        Some(lease) => lease.number != 0,
        None => false,
    }
}

/// Whether the job is free at the moment, and the new one is it under a next lease that ends no sooner.
pub(crate) fn is_leased(now: i64, job: &[u8], new: &[u8]) -> bool
    ensures { result ≡ is_leased now job.now new.now }
{
    match lease_in(job) {
        Some(lease) => match lease_in(new) {
            Some(next) => is_next(now, lease, next, job, new),
            None => false,
        },
        None => false,
    }
}

fn is_next(now: i64, lease: LeaseHead, next: LeaseHead, job: &[u8], new: &[u8]) -> bool
    requires long { 16 ≤ length job.now }
    requires new_long { 16 ≤ length new.now }
    ensures { result ≡ (raises now lease next && bytes_eq (drop 16 new.now) (drop 16 job.now)) }
{
    raises(now, lease, next) && has_payload_of(job, new)
}

fn has_payload_of(job: &[u8], new: &[u8]) -> bool
    requires long { 16 ≤ length job.now }
    requires new_long { 16 ≤ length new.now }
    ensures { result ≡ bytes_eq (drop 16 new.now) (drop 16 job.now) }
{
    let (_, payload) = job.split_at(16);
    let (_, new_payload) = new.split_at(16);
    new_payload == payload
}

/// Whether the second lease is the next behind the first, which is free at the moment, and ends no sooner than the moment.
fn raises(now: i64, lease: LeaseHead, next: LeaseHead) -> bool
    ensures { result ≡ raises now lease next }
{
    is_free(now, lease) && follows(lease, next) && now <= next.ends
}

fn follows(lease: LeaseHead, next: LeaseHead) -> bool
    ensures { result ≡ follows lease next }
{
    lease.number < u64::MAX && next.number == lease.number + 1
}

/// Bytes are written as they are read.
pub(crate) fn are_rewritten(job: &[u8])
    ensures { IsRewritten job.now }
{}

/// A number as it is stored.
#[tactic(auto, unfolding(crate::specs::Stored::number_bytes))]
pub(crate) fn number_bytes(number: u64) -> [u8; 8]
    ensures { result ≡ number_bytes number }
{
    number.to_be_bytes()
}

/// The key of a job.
#[tactic(auto, unfolding(crate::specs::Stored::number_bytes))]
pub(crate) fn job_key(id: u64) -> [u8; 9]
    ensures { result ≡ job_key id }
{
    let [a, b, c, d, e, f, g, h] = id.to_be_bytes();
    [b'j', a, b, c, d, e, f, g, h]
}

/// A job as it is stored.
#[tactic(auto, unfolding(crate::specs::Stored::number_bytes))]
pub(crate) fn job_value(
    alloc: Global,
    lease: u64,
    ends: i64,
    payload: &[u8],
) -> Result<Vec<u8>, AllocError>
    ensures value { IfOk result (λ v. v.items ≡ job_bytes (record { lease = lease; ends = ends; payload = payload.now })) }
{
    let mut value = Vec::new(alloc);
    value.extend_from_slice(&lease.to_be_bytes())?;
    value.extend_from_slice(&ends.to_be_bytes())?;
    value.extend_from_slice(payload)?;
    Ok(value)
}

/// That what stands at the key is no job, or the counter no number.
pub(crate) fn bad_job(alloc: Global, key: &[u8]) -> QueueError
    ensures { (result ≡ QueueError.Db SlateDBError.OutOfMemory) ⊎ (result ≡ QueueError.BadJob key.now) }
{
    match Bytes::copy_from_slice(alloc, key) {
        Ok(key) => QueueError::BadJob { key },
        Err(error) => QueueError::from(error),
    }
}

/// The id in a job's key. None for another key.
pub(crate) fn job_id(key: &[u8]) -> Option<u64>
    ensures some { IfSome result (λ id. key.now ≡ job_key id) }
    ensures none { result ≡ None → is_job_key key.now ≡ false }
{
    if !is_job_key(key) {
        return None;
    }
    let (_, number) = key.split_at(1);
    number_in(number)
}

/// The lease of a stored job. None where it is shorter than 16 bytes, or longer than a value.
pub(crate) fn job_lease(job: &[u8]) -> Option<LeaseHead>
    ensures some { IfSome result (HasLease job.now) }
    ensures none { result ≡ None → job_in (Some job.now) ≡ None }
{
    if job.len() > u32::MAX as usize {
        return None;
    }
    lease_in(job)
}
