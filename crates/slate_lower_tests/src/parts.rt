// An operator of one's own.
ghost use Rattle.slate_lower_tests.specs.Parts.{appended_cut, appended_short};

use crate::listing::{is_bytes, one};
use bytes::Bytes;
use slate_types::{MergeOperator, MergeOperatorError};
use std::alloc::Global;

// Appends, and keeps as much as a value holds.
#[derive(Drop)]
pub struct Concat;

impl MergeOperator for Concat {
    ghost combine = { λ _ _. appended_cut };

    ghost faults = { λ _. 0 };

    ghost short = { λ _ _. appended_short };

    fn merge(
        &mut self,
        alloc: Global,
        _key: &Bytes,
        existing_value: Option<&Bytes>,
        value: &Bytes,
    ) -> Result<Bytes, MergeOperatorError> {
        let mut bytes = Vec::new(alloc);
        if let Some(existing) = existing_value {
            bytes.extend_from_slice(existing)?;
        }
        bytes.extend_from_slice(value)?;
        bytes.truncate(u32::MAX as usize);
        Ok(Bytes::from_vec(bytes)?)
    }
}

// Two operands above a value, through the bounds.
fn merged(alloc: Global, existing: Option<&Bytes>) -> Option<Bytes> {
    let mut operands = one(alloc, Bytes::from_static(b"b"));
    let added = operands.push(Bytes::from_static(b"c")).ok();
    let key = Bytes::from_static(b"key");
    let merged = Concat.merge_batch(alloc, &key, existing, &operands).ok();
    drop(key);
    added.and(merged)
}

// Whether operands without a value are joined, and the same operands behind what came of that.
fn are_joined(alloc: Global) -> bool {
    let Some(all) = merged(alloc, None) else {
        return false;
    };
    let is_joined_again = is_bytes(merged(alloc, Some(&all)), b"bcbc");
    is_bytes(Some(all), b"bc") && is_joined_again
}

#[test]
fn operands_are_merged(rt: HostRuntime) {
    assert!(rt; are_joined(rt.alloc()));
}
