//! A key with a sequence, as rows are ordered.
ghost use Rattle.std.specs.Prelude.{◌≡◌};
ghost use Rattle.std.proofs.Common.{rules};
ghost use Rattle.std.specs.Cmp.{partial_order_from_own_ties};
ghost use Rattle.std.specs.Cmp.Rules.{comparing};
ghost use Rattle.std.specs.Ordering.{as_partial_cmp};
ghost use Rattle.slate_types.specs.Rows.{sequenced_cmp};

use crate::key_order::compare_keys;
use bytes::Bytes;
use std::cmp::Ordering;

/// A key and a sequence, ordered by key upwards, then by sequence downwards.
#[derive(PartialEq, Eq, Drop)]
pub struct SequencedKey {
    pub user_key: Bytes,
    pub seq: u64,
}

impl SequencedKey {
    /// The key with the sequence.
    pub fn new(user_key: Bytes, seq: u64) -> SequencedKey
        ensures key { result.user_key ≡ user_key }
        ensures sequence { result.seq ≡ seq }
    {
        SequencedKey { user_key, seq }
    }
}

impl Ord for SequencedKey {
    ghost cmp = { sequenced_cmp };

    ghost total = { Prim.search (comparing, rules) };

    ghost matches_partial_cmp = { Prim.search (comparing, rules) };

    ghost matches_eq = { Prim.search (comparing, rules) };

    fn cmp(&self, other: &SequencedKey) -> Ordering {
        compare_keys(self.user_key.as_slice(), other.user_key.as_slice()).then(
            other.seq.cmp(&self.seq),
        )
    }
}

impl PartialOrd for SequencedKey {
    ghost partial_cmp = { as_partial_cmp sequenced_cmp };

    ghost laws = { partial_order_from_own_ties (Prim.search (comparing, rules)) (Prim.search (comparing, rules)) };

    fn partial_cmp(&self, other: &SequencedKey) -> Option<Ordering> {
        Some(self.cmp(other))
    }
}
