//! The audit of a journal: whether all its commits are orders'.
ghost use Rattle.std.specs.Prelude.{◌≡◌, ◌≢◌, ◌⊎◌, ◌/◌, ℕ, List, true, false, Ok, OnOk, IfErr, IfOk, IsOkUnless, length, take, drop, map};
ghost use Rattle.std.specs.List.{zip};
ghost use Rattle.slate_mem.specs.Batch.{Ops, batch_keys, kept_ops};
ghost use Rattle.slate_txn.specs.declared.event.TranscriptStep.{TranscriptStep};
ghost use Rattle.slate_txn.specs.Replay.{IsLegal};
ghost use Rattle.slate_types.specs.declared.config.IsolationLevel.{IsolationLevel};
ghost use Rattle.slate_types.specs.declared.error.SlateDBError.{SlateDBError};
ghost use Rattle.slate_stock.specs.declared.order.Order.{Order};
ghost use Rattle.slate_stock.specs.Amounts.{Amounts};
ghost use Rattle.slate_stock.specs.Orders.{order_keys, order_moves};
ghost use Rattle.slate_stock.specs.Commits.{IsOrder, IsOrderBy, puts};
ghost use Rattle.slate_stock.specs.Journals.{IsOrders};
ghost use Rattle.slate_stock.specs.Legs.{AreSteps, IsForeign, AreLegsOf, IsPut, IsRead};

use crate::amount::stored;
use crate::error::StockError;
use crate::keys::order_keys;
use crate::legs::{Legs, legs_put, legs_read};
use crate::moves::{form_refusal, moves};
use crate::order::Order;
use crate::shown::shown;
use bytes::Bytes;
use slate_mem::{WriteBatch, WriteOp};
use slate_txn::audit::{CommitForm, first_foreign};
use slate_txn::event::{Transcript, TranscriptStep};
use slate_txn::journal::Journal;
use slate_txn::list::{KeyList, OpList};
use slate_types::IsolationLevel;
use std::alloc::{AllocError, Global};

/// Whether each commit with a sequence is an order's, and nothing was written outside transactions. Refuses by `ForeignCommit` with the
/// sequence of the first commit or write that isn't so, and by `OutOfMemory`. One pass over the journal.
pub fn audit(journal: &Journal) -> Result<(), StockError>
    ensures yes { (n0 : ℕ) → IsLegal n0 journal.now.events → OnOk result (IsOrders journal.now.events) }
    ensures no { (n0 : ℕ) → IsLegal n0 journal.now.events → IsOrders journal.now.events → IsOkUnless result (StockError.Db SlateDBError.OutOfMemory) }
    ensures cause { (n0 : ℕ) → IsLegal n0 journal.now.events → IfErr result (λ e. (e ≡ StockError.Db SlateDBError.OutOfMemory) ⊎ IsForeign journal.now.events e) }
{
    match first_foreign(journal, &Orders)? {
        None => Ok(()),
        Some(seq) => Err(StockError::ForeignCommit { seq }),
    }
}

/// The commits that are orders'.
#[derive(Drop)]
pub struct Orders;

impl CommitForm for Orders {
    ghost is = { λ form level now ops tracked ts. IsOrder level ops tracked ts };

    fn test(
        &self,
        alloc: Global,
        level: IsolationLevel,
        _now: i64,
        ops: &OpList,
        tracked: &KeyList,
        transcript: &Transcript,
    ) -> Result<bool, AllocError> {
        match level {
            IsolationLevel::SerializableSnapshot => {
                is_order(alloc, ops, tracked, transcript.as_slice())
            }
            IsolationLevel::Snapshot => Ok(false),
        }
    }
}

/// Whether a serializable commit of this batch and transcript is an order's.
fn is_order(
    alloc: Global,
    ops: &OpList,
    tracked: &KeyList,
    steps: &[TranscriptStep],
) -> Result<bool, AllocError>
    ensures yes { result ≡ Ok true → IsOrder IsolationLevel.SerializableSnapshot ops.now tracked.now steps.now }
    ensures no { result ≡ Ok false → (o : Order) (m : Amounts) → IsOrderBy o m ops.now tracked.now steps.now → ⊥ }
{
    let (front, back) = steps.split_at(steps.len() / 2);
    let Some(reads) = legs_read(alloc, front)? else {
        return Ok(false);
    };
    let Some(puts) = legs_put(alloc, back)? else {
        return Ok(false);
    };
    let Some(order) = shown(
        alloc,
        reads.keys.as_slice(),
        reads.amounts.as_slice(),
        puts.amounts.as_slice(),
    )?
    else {
        return Ok(false);
    };
    if !is_made(alloc, &order, &reads, &puts)? {
        return Ok(false);
    }
    is_left(alloc, &puts, ops, tracked)
}

/// Whether the order reads and puts this.
fn is_made(alloc: Global, order: &Order, reads: &Legs, puts: &Legs) -> Result<bool, AllocError>
    ensures yes { result ≡ Ok true → (m : Amounts) × AreLegsOf order.now m reads.now.keys.items reads.now.amounts.items puts.now.keys.items puts.now.amounts.items }
    ensures no { result ≡ Ok false → (m : Amounts) → AreLegsOf order.now m reads.now.keys.items reads.now.amounts.items puts.now.keys.items puts.now.amounts.items → ⊥ }
{
    order.has_names();
    if let Some(error) = form_refusal(order) {
        drop(error);
        return Ok(false);
    }
    let keys = order_keys(alloc, order)?;
    if !are_keys(reads.keys.as_slice(), keys.as_slice()) {
        return Ok(false);
    }
    if !are_keys(puts.keys.as_slice(), keys.as_slice()) {
        return Ok(false);
    }
    if reads.amounts.len() != keys.len() {
        return Ok(false);
    }
    match moves(alloc, order, reads.amounts.as_slice()) {
        Ok(new) => Ok(puts.amounts.as_slice() == new.as_slice()),
        Err(error) => unmade(error),
    }
}

/// That an order makes nothing, where it is refused, and not for want of memory.
fn unmade(error: StockError) -> Result<bool, AllocError>
    ensures { IfOk result (λ made. (made ≡ false) × (error ≢ StockError.Db SlateDBError.OutOfMemory)) }
{
    match error {
        StockError::Db(_) => Err(AllocError),
        _ => Ok(false),
    }
}

/// Whether a commit of these puts has these operations, and tracks all their keys.
fn is_left(alloc: Global, legs: &Legs, ops: &OpList, tracked: &KeyList) -> Result<bool, AllocError>
    ensures yes { result ≡ Ok true → (ops.now ≡ kept_ops (puts (zip legs.now.keys.items legs.now.amounts.items))) × (tracked.now ≡ batch_keys ops.now) }
    ensures no { result ≡ Ok false → ops.now ≡ kept_ops (puts (zip legs.now.keys.items legs.now.amounts.items)) → tracked.now ≡ batch_keys ops.now → ⊥ }
{
    let batch = batch_of(alloc, legs)?;
    let Ok(kept) = batch.ops(alloc) else {
        return Err(AllocError);
    };
    if !are_ops(ops.as_slice(), kept.as_slice()) {
        return Ok(false);
    }
    let all = ops.keys(alloc)?;
    Ok(are_keys(tracked.as_slice(), all.as_slice()))
}

/// Whether the operations are these.
fn are_ops(ops: &[(Bytes, WriteOp)], others: &[(Bytes, WriteOp)]) -> bool
    ensures yes { result ≡ true → ops.now ≡ others.now }
    ensures no { result ≡ false → ops.now ≡ others.now → ⊥ }
{
    if ops.len() != others.len() {
        return false;
    }
    for place in 0..ops.len() {
        if !is_op(&ops[place], &others[place]) {
            return false;
        }
    }
    true
}

fn is_op(op: &(Bytes, WriteOp), other: &(Bytes, WriteOp)) -> bool
    ensures yes { result ≡ true → op.now ≡ other.now }
    ensures no { result ≡ false → op.now ≡ other.now → ⊥ }
{
    op.0 == other.0 && op.1 == other.1
}

/// Whether the keys are these.
fn are_keys(keys: &[Bytes], others: &[Bytes]) -> bool
    ensures yes { result ≡ true → keys.now ≡ others.now }
    ensures no { result ≡ false → keys.now ≡ others.now → ⊥ }
{
    if keys.len() != others.len() {
        return false;
    }
    for place in 0..keys.len() {
        if !is_key(&keys[place], &others[place]) {
            return false;
        }
    }
    true
}

fn is_key(key: &Bytes, other: &Bytes) -> bool
    ensures yes { result ≡ true → key.now ≡ other.now }
    ensures no { result ≡ false → key.now ≡ other.now → ⊥ }
{
    key == other
}

/// The batch of these puts.
fn batch_of(alloc: Global, legs: &Legs) -> Result<WriteBatch, AllocError>
    ensures { IfOk result (λ batch. batch.ops ≡ kept_ops (puts (zip legs.now.keys.items legs.now.amounts.items))) }
{
    let mut batch = WriteBatch::new(alloc);
    for place in 0..legs.keys.len().min(legs.amounts.len()) {
        let value = stored(alloc, legs.amounts[place])?;
        let key = legs.keys[place].clone()?;
        let Ok(()) = batch.put_bytes(key, value) else {
            return Err(AllocError);
        };
    }
    Ok(batch)
}
