//! The audit of a journal: whether all its commits are a queue's.
ghost use Rattle.std.specs.Prelude.{◌≡◌, ◌⊎◌, ◌&&◌, ℕ, Decides, IfSome, IfErr, OnOk, Some, None, true, false, ◌<◌, length, option_copied, option_map, bytes_eq};
ghost use Rattle.std.specs.List.{list_all};
ghost use Rattle.slate_txn.specs.Audited.{AreOfKind};
ghost use Rattle.slate_txn.specs.Replay.{IsLegal};
ghost use Rattle.slate_queue.specs.Commits.{IsClaim, IsQueueCommit};
ghost use Rattle.slate_txn.specs.declared.event.TranscriptStep.TheVariants.{Get};
ghost use Rattle.slate_queue.specs.Forms.{AreRewritten, IsQueueWork, IsForeign, IsRewritten, adds_by, adds_in, adds_job, adds_keys, adds_ops, claim_steps, claims_all, claims_by, claims_key, claims_op, deletes, ends_job, finishes_by, finishes_in, finishes_key, finishes_op, first_row, is_found, is_of_jobs, is_passed, is_just, keeps_delete, keeps_put, next_id, next_of, opens_jobs, put_value, puts, rewrites, rewrites_row, takes};
ghost use Rattle.slate_queue.specs.Stored.{counter_in};

use crate::error::QueueError;
use crate::stored::{
    are_rewritten, is_claimed, is_held, is_job_key, is_key_of, is_leased, is_new_job, number_bytes,
    number_in,
};
use bytes::Bytes;
use slate_mem::WriteOp;
use slate_txn::{CommitForm, Journal, KeyList, OpList, Transcript, TranscriptStep, first_foreign};
use slate_types::{IsolationLevel, IterationOrder, KeyValue, PutOptions, Ttl};
use std::alloc::{AllocError, Global};
use std::ops::Bound;

/// The value of a put under the default options.
fn put_value(op: &WriteOp) -> Option<&Bytes>
    ensures { option_copied result ≡ put_value op.now }
{
    match op {
        WriteOp::Put(value, PutOptions { ttl: Ttl::Default }) => Some(value),
        _ => None,
    }
}

/// Whether the operation puts the value under the default options.
fn is_value(value: &[u8], op: &WriteOp) -> bool
    ensures { result ≡ is_just value.now (put_value op.now) }
{
    match put_value(op) {
        Some(put) => put.as_slice() == value,
        None => false,
    }
}

/// Whether the step is its own put of the value at the key.
fn puts(key: &[u8], value: &[u8], step: &TranscriptStep) -> bool
    ensures { result ≡ puts key.now value.now step.now }
{
    match step {
        TranscriptStep::Own { key: own, op } => own.as_slice() == key && is_value(value, op),
        _ => false,
    }
}

/// Whether the operation is a put of the value at the key.
fn keeps_put(key: &[u8], value: &[u8], kept: &(Bytes, WriteOp)) -> bool
    ensures { result ≡ keeps_put key.now value.now kept.now }
{
    kept.0.as_slice() == key && is_value(value, &kept.1)
}

/// The id of the job that is added behind this read of the counter.
fn next_id(step: &TranscriptStep) -> Option<u64>
    ensures { result ≡ next_id step.now }
{
    match step {
        TranscriptStep::Get { key, answer } => {
            if key.as_slice() == b"n".as_slice() {
                next_behind(answer)
            } else {
                None
            }
        }
        _ => None,
    }
}

fn next_behind(answer: &Option<KeyValue>) -> Option<u64>
    ensures { result ≡ next_of (counter_in (option_map (λ kv. kv.value) answer.now)) }
{
    match answer {
        Some(row) => next_number(number_in(row.value.as_slice())?),
        None => next_number(0),
    }
}

fn next_number(counter: u64) -> Option<u64>
    ensures { result ≡ next_of (Some counter) }
{
    if counter < u64::MAX {
        Some(counter + 1)
    } else {
        None
    }
}

/// Whether a commit of these two operations, which tracks these keys and has these steps, adds a job.
fn adds(
    job_key: &Bytes,
    counter_key: &Bytes,
    job: &(Bytes, WriteOp),
    counter: &(Bytes, WriteOp),
    read: &TranscriptStep,
    first: &TranscriptStep,
    second: &TranscriptStep,
) -> bool
    ensures { result ≡ adds_by (next_id read.now) (put_value job.now.1) job_key.now counter_key.now job.now counter.now first.now second.now }
{
    match next_id(read) {
        Some(id) => match put_value(&job.1) {
            Some(value) => adds_job(
                id,
                value.as_slice(),
                job_key,
                counter_key,
                job,
                counter,
                first,
                second,
            ),
            None => false,
        },
        None => false,
    }
}

fn adds_job(
    id: u64,
    value: &[u8],
    job_key: &Bytes,
    counter_key: &Bytes,
    job: &(Bytes, WriteOp),
    counter: &(Bytes, WriteOp),
    first: &TranscriptStep,
    second: &TranscriptStep,
) -> bool
    ensures { result ≡ adds_job id value.now job_key.now counter_key.now job.now counter.now first.now second.now }
{
    let number = number_bytes(id);
    is_new_job(value)
        && is_key_of(job_key.as_slice(), id)
        && counter_key.as_slice() == b"n".as_slice()
        && keeps_put(job_key.as_slice(), value, job)
        && keeps_put(counter_key.as_slice(), &number, counter)
        && puts(counter_key.as_slice(), &number, first)
        && puts(job_key.as_slice(), value, second)
}

/// Whether the commit adds a job.
fn is_add(ops: &[(Bytes, WriteOp)], tracked: &[Bytes], steps: &[TranscriptStep]) -> bool
    ensures { result ≡ adds_in steps.now ops.now tracked.now }
{
    match steps {
        [read, first, second] => adds_ops(ops, tracked, read, first, second),
        _ => false,
    }
}

fn adds_ops(
    ops: &[(Bytes, WriteOp)],
    tracked: &[Bytes],
    read: &TranscriptStep,
    first: &TranscriptStep,
    second: &TranscriptStep,
) -> bool
    ensures { result ≡ adds_ops ops.now tracked.now read.now first.now second.now }
{
    match ops {
        [job, counter] => adds_keys(tracked, job, counter, read, first, second),
        _ => false,
    }
}

fn adds_keys(
    tracked: &[Bytes],
    job: &(Bytes, WriteOp),
    counter: &(Bytes, WriteOp),
    read: &TranscriptStep,
    first: &TranscriptStep,
    second: &TranscriptStep,
) -> bool
    ensures { result ≡ adds_keys tracked.now job.now counter.now read.now first.now second.now }
{
    match tracked {
        [job_key, counter_key] => adds(job_key, counter_key, job, counter, read, first, second),
        _ => false,
    }
}

/// Whether the step opens a scan of all jobs, upwards.
fn opens_jobs(step: &TranscriptStep) -> bool
    ensures { result ≡ opens_jobs step.now }
{
    match step {
        TranscriptStep::Scan {
            order: IterationOrder::Ascending,
            range,
        } => is_of_jobs(&range.start, &range.end),
        _ => false,
    }
}

fn is_of_jobs(start: &Bound<Bytes>, end: &Bound<Bytes>) -> bool
    ensures { result ≡ is_of_jobs start.now end.now }
{
    match (start, end) {
        (Bound::Included(start), Bound::Excluded(end)) => {
            start.as_slice() == b"j".as_slice() && end.as_slice() == b"k".as_slice()
        }
        _ => false,
    }
}

/// The row that a step of the first scan was answered.
fn first_row(step: &TranscriptStep) -> Option<&KeyValue>
    ensures { option_copied result ≡ first_row step.now }
{
    match step {
        TranscriptStep::Next {
            scan: 0,
            answer: Some(row),
        } => Some(row),
        _ => None,
    }
}

/// Whether a claim at the moment passes over the row of this step.
fn is_passed(now: i64, step: &TranscriptStep) -> bool
    ensures { result ≡ is_passed now step.now }
{
    match first_row(step) {
        Some(row) => !is_job_key(row.key.as_slice()) || is_held(now, row.value.as_slice()),
        None => false,
    }
}

fn are_passed(now: i64, steps: &[TranscriptStep]) -> bool
    ensures { result ≡ list_all (is_passed now) steps.now }
{
    steps.iter().all(|step| is_passed(now, step))
}

/// Whether the operation, and its own step, are the put of the value at the key.
fn rewrites(key: &[u8], value: &[u8], job: &(Bytes, WriteOp), own: &TranscriptStep) -> bool
    ensures { result ≡ rewrites key.now value.now job.now own.now }
{
    keeps_put(key, value, job) && puts(key, value, own)
}

/// Whether they are so at the key of a row that is a job's.
fn rewrites_row(
    row_key: &[u8],
    key: &[u8],
    value: &[u8],
    job: &(Bytes, WriteOp),
    own: &TranscriptStep,
) -> bool
    ensures { result ≡ rewrites_row row_key.now key.now value.now job.now own.now }
{
    is_job_key(row_key) && key == row_key && rewrites(key, value, job, own)
}

/// Whether a commit of this operation, which tracks this key, takes the job of the row at the moment.
fn takes(
    now: i64,
    row: &KeyValue,
    key: &Bytes,
    job: &(Bytes, WriteOp),
    own: &TranscriptStep,
) -> bool
    ensures test { result ≡ takes now row.now (put_value job.now.1) key.now job.now own.now }
    ensures bytes { IfSome (put_value job.now.1) IsRewritten }
{
    match put_value(&job.1) {
        Some(value) => {
            are_rewritten(value.as_slice());
            is_leased(now, row.value.as_slice(), value.as_slice())
                && rewrites_row(
                    row.key.as_slice(),
                    key.as_slice(),
                    value.as_slice(),
                    job,
                    own,
                )
        }
        None => false,
    }
}

/// Whether the commit claims a job at the moment.
#[tactic(auto, using(crate::proofs::ClaimWalk::no_claim_in))]
fn is_claim(now: i64, ops: &[(Bytes, WriteOp)], tracked: &[Bytes], steps: &[TranscriptStep]) -> bool
    ensures { Decides result (IsClaim now ops.now tracked.now steps.now) }
{
    match claim_parts(steps) {
        Some((scan, passed, last, own)) => {
            claims_all(now, scan, passed, last, own, ops, tracked)
        }
        None => false,
    }
}

/// The steps of a claim: the scan, the rows that it passes over, that of the job, and its own.
fn claim_parts(
    steps: &[TranscriptStep],
) -> Option<
    (
        &TranscriptStep,
        &[TranscriptStep],
        &TranscriptStep,
        &TranscriptStep,
    ),
>
    ensures some { IfSome result (λ p. steps.now ≡ claim_steps p.0.now p.1.now p.2.now p.3.now) }
    ensures none { result ≡ None → length steps.now < 3 }
{
    let (scan, rest) = steps.split_first()?;
    let (own, rest) = rest.split_last()?;
    let (last, passed) = rest.split_last()?;
    Some((scan, passed, last, own))
}

fn claims_all(
    now: i64,
    scan: &TranscriptStep,
    passed: &[TranscriptStep],
    last: &TranscriptStep,
    own: &TranscriptStep,
    ops: &[(Bytes, WriteOp)],
    tracked: &[Bytes],
) -> bool
    ensures test { result ≡ claims_all now scan.now passed.now last.now own.now ops.now tracked.now }
    ensures bytes { result ≡ true → AreRewritten ops.now }
{
    opens_jobs(scan) && are_passed(now, passed) && claims(now, ops, tracked, last, own)
}

fn claims(
    now: i64,
    ops: &[(Bytes, WriteOp)],
    tracked: &[Bytes],
    last: &TranscriptStep,
    own: &TranscriptStep,
) -> bool
    ensures test { result ≡ claims_by now (first_row last.now) ops.now tracked.now own.now }
    ensures bytes { result ≡ true → AreRewritten ops.now }
{
    match first_row(last) {
        Some(row) => claims_op(now, row, ops, tracked, own),
        None => false,
    }
}

fn claims_op(
    now: i64,
    row: &KeyValue,
    ops: &[(Bytes, WriteOp)],
    tracked: &[Bytes],
    own: &TranscriptStep,
) -> bool
    ensures test { result ≡ claims_op ops.now tracked.now now row.now own.now }
    ensures bytes { result ≡ true → AreRewritten ops.now }
{
    match ops {
        [job] => claims_key(now, row, job, tracked, own),
        _ => false,
    }
}

fn claims_key(
    now: i64,
    row: &KeyValue,
    job: &(Bytes, WriteOp),
    tracked: &[Bytes],
    own: &TranscriptStep,
) -> bool
    ensures test { result ≡ claims_key tracked.now now row.now job.now own.now }
    ensures bytes { result ≡ true → IfSome (put_value job.now.1) IsRewritten }
{
    match tracked {
        [key] => takes(now, row, key, job, own),
        _ => false,
    }
}

/// Whether the step deletes the key.
fn deletes(key: &[u8], step: &TranscriptStep) -> bool
    ensures { result ≡ deletes key.now step.now }
{
    match step {
        TranscriptStep::Own {
            key: own,
            op: WriteOp::Delete,
        } => own.as_slice() == key,
        _ => false,
    }
}

/// The key and the row of a get that found one.
fn found(step: &TranscriptStep) -> Option<(&Bytes, &KeyValue)>
    ensures some { IfSome result (λ p. step.now ≡ Get p.0.now (Some p.1.now)) }
    ensures none { result ≡ None → is_found step.now ≡ false }
{
    match step {
        TranscriptStep::Get {
            key,
            answer: Some(row),
        } => Some((key, row)),
        _ => None,
    }
}

/// Whether a commit of this operation, which tracks this key, finishes the job of the row at the key.
fn ends_job(
    id_key: &Bytes,
    row: &KeyValue,
    key: &Bytes,
    job: &(Bytes, WriteOp),
    own: &TranscriptStep,
) -> bool
    ensures { result ≡ ends_job id_key.now row.now key.now job.now own.now }
{
    is_job_key(id_key.as_slice())
        && is_claimed(row.value.as_slice())
        && key.as_slice() == id_key.as_slice()
        && keeps_delete(id_key.as_slice(), job)
        && deletes(id_key.as_slice(), own)
}

fn keeps_delete(key: &[u8], kept: &(Bytes, WriteOp)) -> bool
    ensures { result ≡ keeps_delete key.now kept.now }
{
    kept.0.as_slice() == key && matches!(kept.1, WriteOp::Delete)
}

/// Whether the commit finishes a job.
fn is_finish(ops: &[(Bytes, WriteOp)], tracked: &[Bytes], steps: &[TranscriptStep]) -> bool
    ensures { result ≡ finishes_in steps.now ops.now tracked.now }
{
    match steps {
        [read, own] => finishes_op(ops, tracked, read, own),
        _ => false,
    }
}

fn finishes_op(
    ops: &[(Bytes, WriteOp)],
    tracked: &[Bytes],
    read: &TranscriptStep,
    own: &TranscriptStep,
) -> bool
    ensures { result ≡ finishes_op ops.now tracked.now read.now own.now }
{
    match ops {
        [job] => finishes_key(tracked, read, job, own),
        _ => false,
    }
}

fn finishes_key(
    tracked: &[Bytes],
    read: &TranscriptStep,
    job: &(Bytes, WriteOp),
    own: &TranscriptStep,
) -> bool
    ensures { result ≡ finishes_key tracked.now read.now job.now own.now }
{
    match tracked {
        [key] => finishes(read, key, job, own),
        _ => false,
    }
}

fn finishes(
    read: &TranscriptStep,
    key: &Bytes,
    job: &(Bytes, WriteOp),
    own: &TranscriptStep,
) -> bool
    ensures { result ≡ finishes_by read.now key.now job.now own.now }
{
    match found(read) {
        Some((id_key, row)) => ends_job(id_key, row, key, job, own),
        None => false,
    }
}

/// The form of a queue's commits.
#[derive(Drop)]
struct QueueForm;

impl CommitForm for QueueForm {
    ghost is = { λ form level now ops tracked ts. IsQueueCommit level now ops tracked ts };

    #[tactic(auto, using(crate::proofs::AuditLaws::queue_yes, crate::proofs::AuditLaws::queue_no))]
    fn test(
        &self,
        _alloc: Global,
        level: IsolationLevel,
        now: i64,
        ops: &OpList,
        tracked: &KeyList,
        transcript: &Transcript,
    ) -> Result<bool, AllocError> {
        match level {
            IsolationLevel::SerializableSnapshot => {
                Ok(does_one(
                    now,
                    ops.as_slice(),
                    tracked.as_slice(),
                    transcript.as_slice(),
                ))
            }
            IsolationLevel::Snapshot => Ok(false),
        }
    }
}

/// Whether the commit adds, claims or finishes a job.
fn does_one(now: i64, ops: &[(Bytes, WriteOp)], tracked: &[Bytes], steps: &[TranscriptStep]) -> bool
    ensures { Decides result (IsQueueWork now ops.now tracked.now steps.now) }
{
    if is_add(ops, tracked, steps) {
        return true;
    }
    if is_claim(now, ops, tracked, steps) {
        return true;
    }
    is_finish(ops, tracked, steps)
}

/// Whether each commit of a journal with a sequence adds, claims or finishes a job in a serializable transaction that tracks all its
/// keys, and nothing is written outside transactions.
///
/// # Errors
///
/// `ForeignCommit` with the sequence of the first commit or plain write that isn't so; `Db(OutOfMemory)` where memory is wanting.
#[tactic(auto, using(crate::proofs::AuditLaws::foreign_refutes))]
pub fn audit(journal: &Journal) -> Result<(), QueueError>
    ensures ok { (n0 : ℕ) → IsLegal n0 journal.now.events → OnOk result (AreOfKind IsQueueCommit journal.now.events) }
    ensures foreign { (n0 : ℕ) → IsLegal n0 journal.now.events → IfErr result (IsForeign journal.now.events) }
{
    match first_foreign(journal, &QueueForm)? {
        None => Ok(()),
        Some(seq) => Err(QueueError::ForeignCommit { seq }),
    }
}
