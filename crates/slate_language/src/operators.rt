//! Merge operators that a run can name. None of them fails.
ghost use Rattle.std.specs.Prelude.{◌≡◌};
ghost use Rattle.slate_types.specs.Keys.{key_lt};
ghost use Rattle.slate_language.specs.Parts as parts;
ghost use Rattle.slate_language.specs.ShortParts.{concat_short, greater_short, named_short};

use bytes::Bytes;
use slate_types::{MergeOperator, MergeOperatorError};
use std::alloc::Global;

/// The most bytes of a value.
const MAX_VALUE_LEN: usize = u32::MAX as usize;

/// Appends the operand to the existing value, and keeps the first 2^32 - 1 bytes, which are as many as a value has. It has no faults.
#[derive(Clone, Copy)]
pub struct Concat;

impl MergeOperator for Concat {
    ghost combine = { λ _. parts.concat };

    ghost short = { λ _. concat_short };

    ghost faults = { λ _. 0 };

    fn merge(
        &mut self,
        alloc: Global,
        _key: &Bytes,
        existing_value: Option<&Bytes>,
        value: &Bytes,
    ) -> Result<Bytes, MergeOperatorError> {
        let mut bytes = Vec::new(alloc);
        if let Some(existing) = existing_value {
            bytes.extend_from_slice(existing)?;
        }
        bytes.extend_from_slice(value)?;
        bytes.truncate(MAX_VALUE_LEN);
        Bytes::from_vec(bytes).map_err(MergeOperatorError::from)
    }
}

/// Keeps the greater of the existing value and the operand, byte by byte from the first. It has no faults.
#[derive(Clone, Copy)]
pub struct Max;

impl MergeOperator for Max {
    ghost combine = { λ _. parts.greater };

    ghost short = { λ _. greater_short };

    ghost faults = { λ _. 0 };

    fn merge(
        &mut self,
        _alloc: Global,
        _key: &Bytes,
        existing_value: Option<&Bytes>,
        value: &Bytes,
    ) -> Result<Bytes, MergeOperatorError> {
        let greatest = match existing_value {
            Some(existing) if !is_below(existing, value) => existing,
            _ => value,
        };
        greatest.clone().map_err(MergeOperatorError::from)
    }
}

/// One of the operators, by its name.
#[derive(Clone, Copy)]
pub enum NamedOperator {
    /// `Concat`
    Concat,
    /// `Max`
    Max,
}

impl MergeOperator for NamedOperator {
    ghost combine = { parts.named };

    ghost short = { named_short };

    ghost faults = { λ _. 0 };

    fn merge(
        &mut self,
        alloc: Global,
        key: &Bytes,
        existing_value: Option<&Bytes>,
        value: &Bytes,
    ) -> Result<Bytes, MergeOperatorError> {
        match self {
            NamedOperator::Concat => Concat.merge(alloc, key, existing_value, value),
            NamedOperator::Max => Max.merge(alloc, key, existing_value, value),
        }
    }
}

/// Whether the first stands before the second, byte by byte.
fn is_below(first: &[u8], second: &[u8]) -> bool
    ensures { result ≡ key_lt first.now second.now }
{
    first.cmp(second).is_lt()
}
