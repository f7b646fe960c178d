//! Parts that aren't lawful, each in one way.
ghost use Rattle.std.specs.Prelude.{◌≡◌, [], ◌∷◌, Some, codes, length, option_copied, IfOk};
ghost use Rattle.slate_types.specs.Lawful.{target_bytes};
ghost use Rattle.slate_lower_tests.specs.Parts.{turned, turned_short};

use bytes::Bytes;
use slate_filter::FilterPolicy;
use slate_types::{
    BlockTransformer, FilterQuery, MergeOperator, MergeOperatorError, PrefixExtractor,
    PrefixTarget, RowEntry, SlateDBError, TransformError,
};
use std::alloc::{AllocError, Global};

/// A policy whose filter is one byte, whatever the rows are. Each query is answered so over it: none refuses the byte.
#[derive(Drop)]
pub struct Stubborn {
    pub answer: Option<bool>,
}

impl FilterPolicy for Stubborn {
    ghost use Rattle.std.specs.Prelude.{[], ◌∷◌, Some, codes};

    ghost meaning = { λ p. record { name = codes "stubborn"; builds = λ rows. Some (7 ∷ []); answers = λ filter query. p.answer } };

    fn name(&self) -> &str {
        "stubborn"
    }

    fn build(&self, alloc: Global, _rows: &[RowEntry]) -> Result<Option<Vec<u8>>, SlateDBError> {
        let mut filter = Vec::new(alloc);
        filter.push(7)?;
        Ok(Some(filter))
    }

    fn might_match(&self, filter: &[u8], _query: &FilterQuery) -> Result<bool, SlateDBError> {
        match self.answer {
            Some(answer) => Ok(answer),
            None => Err(SlateDBError::InvalidFilterBlock {
                len: filter.len() as u64,
            }),
        }
    }

    fn estimate_size(&self, _num_keys: u64) -> u64 {
        1
    }
}

/// Appends and turns round what comes of it, so that it isn't associative.
#[derive(Drop)]
pub struct Turned;

impl MergeOperator for Turned {
    ghost combine = { λ _ _. turned };

    ghost faults = { λ _. 0 };

    ghost short = { λ _ _. turned_short };

    fn merge(
        &mut self,
        alloc: Global,
        _key: &Bytes,
        existing_value: Option<&Bytes>,
        value: &Bytes,
    ) -> Result<Bytes, MergeOperatorError> {
        turned_round(alloc, existing_value, value).map_err(MergeOperatorError::from)
    }
}

fn turned_round(alloc: Global, existing: Option<&Bytes>, value: &Bytes) -> Result<Bytes, AllocError>
    ensures { IfOk result (λ made. made ≡ turned (option_copied existing.entry) value.now) }
{
    let mut bytes = Vec::new(alloc);
    if let Some(existing) = existing {
        bytes.extend_from_slice(existing)?;
    }
    bytes.extend_from_slice(value)?;
    bytes.truncate(u32::MAX as usize);
    bytes.reverse();
    Ok(Bytes::from_vec(bytes)?)
}

/// Stores bytes as they are, and makes nothing of what it reads.
#[derive(Drop)]
pub struct Forgetful;

impl BlockTransformer for Forgetful {
    ghost encoded = { λ _ bytes. bytes };

    ghost decoded = { λ _ bytes. [] };

    ghost faults = { λ _. 0 };

    fn encode(&mut self, _alloc: Global, bytes: Bytes) -> Result<Bytes, TransformError> {
        Ok(bytes)
    }

    fn decode(&mut self, _alloc: Global, bytes: Bytes) -> Result<Bytes, TransformError> {
        drop(bytes);
        Ok(Bytes::new())
    }
}

/// Takes each target whole, so that a prefix has another length than the keys that begin with it.
#[derive(Clone, Copy)]
pub struct Whole;

impl PrefixExtractor for Whole {
    ghost use Rattle.std.proofs.Math.Nat.{le_refl};

    ghost label = { λ _. codes "whole" };

    ghost lengths = { λ _ target. Some (length (target_bytes target)) };

    ghost within = { λ _ target. le_refl (length (target_bytes target)) };

    fn name(&self) -> &str {
        "whole"
    }

    fn prefix_len(&self, target: &PrefixTarget) -> Option<usize> {
        match target {
            PrefixTarget::Point(key) => Some(key.len()),
            PrefixTarget::Prefix(prefix) => Some(prefix.len()),
        }
    }
}
