//! Counters in a store, by an operator that adds.
//!
//! A counter's value has 8 bytes, the highest first. A merge raises it without reading it, and a sum stops at the greatest number of 64
//! bits.
#![tactic(auto)]

ghost use Rattle.std.specs.Prelude.{◌≡◌};
ghost use Rattle.counters.specs.Counters as counters;
ghost use Rattle.counters.specs.Counters.{AddIsLawful};

use bytes::Bytes;
use slate_types::{MergeOperator, MergeOperatorError};
use std::alloc::Global;

/// Adds the operand to the existing value. It has no faults.
#[derive(Clone, Copy)]
pub struct Add;

impl MergeOperator for Add {
    ghost combine = { λ _ _. counters.added };

    ghost short = { λ _ _. counters.added_short };

    ghost faults = { λ _. 0 };

    fn merge(
        &mut self,
        alloc: Global,
        _key: &Bytes,
        existing_value: Option<&Bytes>,
        value: &Bytes,
    ) -> Result<Bytes, MergeOperatorError> {
        let Some(existing) = existing_value else {
            return value.clone().map_err(MergeOperatorError::from);
        };
        let sum = counter_value(existing).saturating_add(counter_value(value));
        Bytes::copy_from_slice(alloc, &sum.to_be_bytes()).map_err(MergeOperatorError::from)
    }
}

/// The number that a counter's value stands for, and 0 where the value is no counter.
pub fn counter_value(value: &[u8]) -> u64
    ensures { result ≡ counters.counter_value value.now }
{
    match value.as_array::<8>() {
        Some(bytes) => u64::from_be_bytes(*bytes),
        None => 0,
    }
}

/// The operator keeps a first operand and is associative, so that it makes no difference what is merged first.
pub fn add_is_lawful()
    ensures { AddIsLawful }
{}
