//! Builders of Bloom filters.
ghost use Rattle.std.specs.Prelude.{◌≡◌, ◌≤◌, option_copied};

use crate::bloom_bits::filter_bits;
use crate::bloom_filter::BloomFilter;
use crate::hashing::{add_hashes, shared_prefix};
use crate::probes::optimal_num_probes;
use bytes::Bytes;
use slate_types::{PrefixExtractor, SlateDBError};
use std::alloc::Global;

/// Takes keys in their order and gives the filter of them and of their prefixes.
#[derive(Drop)]
pub struct BloomFilterBuilder<X> {
    alloc: Global,
    bits_per_key: u32,
    whole_key_filtering: bool,
    prefix_extractor: Option<X>,
    last_prefix: Option<Bytes>,
    hashes: Vec<u64>,
    ghost some: { 1 ≤ bits_per_key },
    ghost few: { bits_per_key ≤ 65535 },
}

impl<X: PrefixExtractor> BloomFilterBuilder<X> {
    ghost use Rattle.std.specs.Prelude.{◌≡◌, ◌≤◌, ◌++◌, [], ◌∷◌, ℕ, List, IfOk, IfSome, OnOk, OnErr, IsOkUnless};
    ghost use Rattle.std.specs.Option.{option_map};
    ghost use Rattle.slate_filter.specs.Bloom.{bloom_build};
    ghost use Rattle.slate_filter.specs.BloomFilters.{filter_bytes, read_by};
    ghost use Rattle.slate_filter.specs.Builders.{Took, taken_by};

    /// A builder with no key, for 1 to 65535 bits per key.
    pub fn new(
        alloc: Global,
        bits_per_key: u32,
        whole_key_filtering: bool,
        prefix_extractor: Option<X>,
    ) -> Result<BloomFilterBuilder<X>, SlateDBError>
        requires some { 1 ≤ bits_per_key }
        requires few { bits_per_key ≤ 65535 }
        ensures settings { IfOk result (λ builder. taken_by X.lengths builder ≡ record { bits_per_key = bits_per_key; whole = whole_key_filtering; lengths = option_map X.lengths prefix_extractor }) }
        ensures none { IfOk result (λ builder. Took X.lengths [] builder) }
        ensures cause { IsOkUnless result SlateDBError.OutOfMemory }
    {
        Ok(BloomFilterBuilder {
            alloc,
            bits_per_key,
            whole_key_filtering,
            prefix_extractor,
            last_prefix: None,
            hashes: Vec::new(alloc),
        })
    }

    /// Takes one key more: the prefix that the extractor gives it, where that isn't the prefix taken last, and the key itself where
    /// whole keys are on. A refusal takes nothing.
    pub fn add_key(&mut self, key: &Bytes) -> Result<(), SlateDBError>
        ensures settings { taken_by X.lengths self.new ≡ taken_by X.lengths self.old }
        ensures added { OnOk result ((keys : List (List ℕ)) → Took X.lengths keys self.old → Took X.lengths (keys ++ key.now ∷ []) self.new) }
        ensures same { OnErr result ((keys : List (List ℕ)) → Took X.lengths keys self.old → Took X.lengths keys self.new) }
        ensures cause { IsOkUnless result SlateDBError.OutOfMemory }
    {
        let prefix = shared_prefix(&self.prefix_extractor, key)?;
        add_hashes(
            &mut self.hashes,
            self.whole_key_filtering,
            as_slice(&self.last_prefix),
            as_slice(&prefix),
            key.as_slice(),
        )?;
        self.last_prefix = prefix.or(self.last_prefix.take());
        Ok(())
    }

    /// The filter of the keys. `None` exactly where it would have more than 2^29 - 1 bit bytes.
    pub fn build(self) -> Result<Option<BloomFilter<X>>, SlateDBError>
        ensures built { (keys : List (List ℕ)) → Took X.lengths keys self → IfOk result (λ built. option_map filter_bytes built ≡ bloom_build (taken_by X.lengths self) keys) }
        ensures settings { IfOk result (λ built. IfSome built (λ filter. read_by self.bits_per_key X.lengths filter ≡ taken_by X.lengths self)) }
        ensures cause { IsOkUnless result SlateDBError.OutOfMemory }
    {
        let BloomFilterBuilder {
            alloc,
            bits_per_key,
            whole_key_filtering,
            prefix_extractor,
            last_prefix,
            hashes,
        } = self;
        drop(last_prefix);
        let bits = filter_bits(alloc, hashes.as_slice(), bits_per_key);
        drop(hashes);
        match bits? {
            Some(bits) => Ok(Some(BloomFilter::from_parts(
                optimal_num_probes(bits_per_key),
                bits,
                whole_key_filtering,
                prefix_extractor,
            ))),
            None => Ok(None),
        }
    }
}

/// The bytes, where there are some.
fn as_slice(bytes: &Option<Bytes>) -> Option<&[u8]>
    ensures { option_copied result ≡ bytes.now }
{
    match bytes {
        Some(bytes) => Some(bytes.as_slice()),
        None => None,
    }
}
