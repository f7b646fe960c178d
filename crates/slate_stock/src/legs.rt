//! The steps of an order's transcript, each as its key and its amount.
ghost use Rattle.std.specs.Prelude.{◌≡◌, ◌≢◌, ◌<◌, ◌^◌, ℕ, List, IfOk, IfSome, None, Some, Ok, length};
ghost use Rattle.slate_types.specs.declared.types.KeyValue.{KeyValue};
ghost use Rattle.slate_stock.specs.Commits.{IsAmount, amount_put};
ghost use Rattle.slate_stock.specs.Legs.{AreSteps, IsPut, IsRead};

use crate::amount::amount;
use bytes::Bytes;
use slate_mem::WriteOp;
use slate_txn::event::TranscriptStep;
use slate_types::{KeyValue, Ttl};
use std::alloc::{AllocError, Global};

/// Keys and amounts, both in the order of their steps.
#[derive(Drop)]
pub struct Legs {
    pub keys: Vec<Bytes>,
    pub amounts: Vec<u64>,
}

/// What the steps read, where each reads an amount.
pub fn legs_read(alloc: Global, steps: &[TranscriptStep]) -> Result<Option<Legs>, AllocError>
    ensures some { IfOk result (λ o. IfSome o (λ legs. AreSteps IsRead legs.keys.items legs.amounts.items steps.now)) }
    ensures none { result ≡ Ok None → (ks : List (List ℕ)) (ns : List ℕ) → AreSteps IsRead ks ns steps.now → ⊥ }
{
    let mut keys = Vec::new(alloc);
    let mut amounts = Vec::new(alloc);
    for step in steps {
        let Some((key, amount)) = read_by(step) else {
            return Ok(None);
        };
        keys.push(key.clone()?)?;
        amounts.push(amount)?;
    }
    Ok(Some(Legs { keys, amounts }))
}

/// What the steps put, where each puts an amount.
pub fn legs_put(alloc: Global, steps: &[TranscriptStep]) -> Result<Option<Legs>, AllocError>
    ensures some { IfOk result (λ o. IfSome o (λ legs. AreSteps IsPut legs.keys.items legs.amounts.items steps.now)) }
    ensures none { result ≡ Ok None → (ks : List (List ℕ)) (ns : List ℕ) → AreSteps IsPut ks ns steps.now → ⊥ }
{
    let mut keys = Vec::new(alloc);
    let mut amounts = Vec::new(alloc);
    for step in steps {
        let Some((key, amount)) = put_by(step) else {
            return Ok(None);
        };
        keys.push(key.clone()?)?;
        amounts.push(amount)?;
    }
    Ok(Some(Legs { keys, amounts }))
}

/// The key and the amount that a step reads.
fn read_by(step: &TranscriptStep) -> Option<(&Bytes, u64)>
    ensures some { IfSome result (λ p. IsRead p.0.now p.1 step.now) }
    ensures none { result ≡ None → (k : List ℕ) (n : ℕ) → IsRead k n step.now → ⊥ }
{
    match step {
        TranscriptStep::Get { key, answer } => match answered(answer) {
            Some(amount) => Some((key, amount)),
            None => None,
        },
        _ => None,
    }
}

/// The key and the amount that a step puts.
fn put_by(step: &TranscriptStep) -> Option<(&Bytes, u64)>
    ensures some { IfSome result (λ p. IsPut p.0.now p.1 step.now) }
    ensures none { result ≡ None → (k : List ℕ) (n : ℕ) → IsPut k n step.now → ⊥ }
{
    match step {
        TranscriptStep::Own { key, op } => match put_amount(op) {
            Some(amount) => Some((key, amount)),
            None => None,
        },
        _ => None,
    }
}

/// The amount of an answer: 0 where there is no row.
pub fn answered(answer: &Option<KeyValue>) -> Option<u64>
    ensures some { IfSome result (λ n. IsAmount n answer.now) }
    ensures none { result ≡ None → (n : ℕ) → IsAmount n answer.now → ⊥ }
    ensures stored { result ≡ None → (row : KeyValue) × (answer.now ≡ Some row) × (length row.value ≢ 8) }
{
    match answer {
        Some(row) => amount(row.value.as_slice()),
        None => Some(0),
    }
}

/// The amount that an operation puts with the default options.
fn put_amount(op: &WriteOp) -> Option<u64>
    ensures some { IfSome result (λ n. (op.now ≡ amount_put n) × (n < 2 ^ 64)) }
    ensures none { result ≡ None → (n : ℕ) → op.now ≡ amount_put n → ⊥ }
{
    match op {
        WriteOp::Put(value, options) => match options.ttl {
            Ttl::Default => amount(value.as_slice()),
            _ => None,
        },
        _ => None,
    }
}
