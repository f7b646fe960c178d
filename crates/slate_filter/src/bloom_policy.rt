//! The policy of Bloom filters.
ghost use Rattle.std.specs.Prelude.{◌≤◌};

use crate::bloom_bits::{built, estimate, parts};
use crate::bloom_name::name_of;
use crate::filter_policy::FilterPolicy;
use crate::hashing::{add_hashes, front};
use crate::holding::front_is_held;
use crate::probes::is_held;
use slate_types::{FilterQuery, PrefixExtractor, PrefixTarget, RowEntry, SlateDBError};
use std::alloc::Global;

/// The policy of Bloom filters of so many bits per key, over whole keys, over the prefixes that an extractor gives them, or over
/// both.
#[derive(Drop)]
pub struct BloomFilterPolicy<X> {
    bits_per_key: u32,
    whole_key_filtering: bool,
    prefix_extractor: Option<X>,
    name: String,
    ghost some: { 1 ≤ bits_per_key },
    ghost few: { bits_per_key ≤ 65535 },
}

impl<X: PrefixExtractor> BloomFilterPolicy<X> {
    ghost use Rattle.std.specs.Prelude.{◌≡◌, ◌≤◌, true, None, Some, string_bytes, IfOk, IfSome, IsOkUnless};
    ghost use Rattle.std.specs.Option.{option_map};
    ghost use Rattle.slate_types.specs.Lawful.{IsLawfulLengths};
    ghost use Rattle.slate_filter.specs.BloomPolicies.{bloom_name, bloom_policy, named_by, set_by};
    ghost use Rattle.slate_filter.specs.Policy.{IsLawfulPolicy};

    /// What the name of each begins with.
    pub const NAME: &'static str = "_bf";

    /// Of 1 to 65535 bits per key, over whole keys alone.
    pub fn new(alloc: Global, bits_per_key: u32) -> Result<BloomFilterPolicy<X>, SlateDBError>
        requires some { 1 ≤ bits_per_key }
        requires few { bits_per_key ≤ 65535 }
        ensures set { IfOk result (λ made. set_by X.lengths made ≡ record { bits_per_key = bits_per_key; whole = true; lengths = None }) }
        ensures named { IfOk result (λ made. named_by made ≡ bloom_name None true) }
        ensures cause { IsOkUnless result SlateDBError.OutOfMemory }
    {
        let prefix_extractor: Option<X> = None;
        let name = name_of(alloc, &prefix_extractor, true)?;
        Ok(BloomFilterPolicy {
            bits_per_key,
            whole_key_filtering: true,
            prefix_extractor,
            name,
        })
    }

    /// The same, over the extractor's prefixes too. Its name tells of it.
    pub fn with_prefix_extractor(
        self,
        alloc: Global,
        extractor: X,
    ) -> Result<BloomFilterPolicy<X>, SlateDBError>
        ensures set { IfOk result (λ made. set_by X.lengths made ≡ record { bits_per_key = self.bits_per_key; whole = self.whole_key_filtering; lengths = Some (X.lengths extractor) }) }
        ensures named { IfOk result (λ made. named_by made ≡ bloom_name (Some (X.label extractor)) self.whole_key_filtering) }
        ensures cause { IsOkUnless result SlateDBError.OutOfMemory }
    {
        let BloomFilterPolicy {
            bits_per_key,
            whole_key_filtering,
            prefix_extractor,
            name,
        } = self;
        drop(prefix_extractor);
        drop(name);
        let prefix_extractor = Some(extractor);
        let name = name_of(alloc, &prefix_extractor, whole_key_filtering)?;
        Ok(BloomFilterPolicy {
            bits_per_key,
            whole_key_filtering,
            prefix_extractor,
            name,
        })
    }

    /// The same, with whole keys or without. Its name tells where they are off.
    pub fn with_whole_key_filtering(
        self,
        alloc: Global,
        enabled: bool,
    ) -> Result<BloomFilterPolicy<X>, SlateDBError>
        ensures set { IfOk result (λ made. set_by X.lengths made ≡ record { bits_per_key = self.bits_per_key; whole = enabled; lengths = option_map X.lengths self.prefix_extractor }) }
        ensures named { IfOk result (λ made. named_by made ≡ bloom_name (option_map X.label self.prefix_extractor) enabled) }
        ensures cause { IsOkUnless result SlateDBError.OutOfMemory }
    {
        let BloomFilterPolicy {
            bits_per_key,
            prefix_extractor,
            name,
            ..
        } = self;
        drop(name);
        let name = name_of(alloc, &prefix_extractor, enabled)?;
        Ok(BloomFilterPolicy {
            bits_per_key,
            whole_key_filtering: enabled,
            prefix_extractor,
            name,
        })
    }

    /// The number of bits per key.
    pub fn bits_per_key(&self) -> u32
        ensures { result ≡ self.now.bits_per_key }
    {
        self.bits_per_key
    }

    /// With a lawful extractor, or without one, the policy is lawful.
    pub fn is_lawful(&self)
        requires { IfSome (option_map X.lengths self.now.prefix_extractor) IsLawfulLengths }
        ensures { let policy = ⟦<BloomFilterPolicy<X> as FilterPolicy>⟧.meaning self.now in IsLawfulPolicy policy.builds policy.answers }
    {
        let _bits = self.bits_per_key;
    }
}

impl<X: PrefixExtractor> FilterPolicy for BloomFilterPolicy<X> {
    ghost use Rattle.std.specs.Prelude.{◌≡◌, ◌^◌, ◌-◌, min, length, vec_items, IfOk, IsOkUnless};
    ghost use Rattle.std.specs.Option.{option_map};
    ghost use Rattle.slate_filter.specs.Asking.{told};
    ghost use Rattle.slate_filter.specs.Bloom.{bloom_estimate};
    ghost use Rattle.slate_filter.specs.BloomPolicies.{bloom_policy, named_by, set_by};

    ghost meaning = { λ policy. bloom_policy (named_by policy) (set_by X.lengths policy) };

    fn name(&self) -> &str {
        self.name.as_str()
    }

    fn build(&self, alloc: Global, rows: &[RowEntry]) -> Result<Option<Vec<u8>>, SlateDBError> {
        let mut hashes = Vec::new(alloc);
        let mut last: Option<&[u8]> = None;
        for row in rows {
            let key = row.key.as_slice();
            let len = match &self.prefix_extractor {
                Some(extractor) => {
                    let target = PrefixTarget::Point(row.key.clone()?);
                    extractor.prefix_len(&target)
                }
                None => None,
            };
            let prefix = front(key, len);
            add_hashes(&mut hashes, self.whole_key_filtering, last, prefix, key)?;
            last = prefix.or(last);
        }
        built(alloc, hashes.as_slice(), self.bits_per_key).map_err(SlateDBError::from)
    }

    fn might_match(&self, filter: &[u8], query: &FilterQuery) -> Result<bool, SlateDBError> {
        let Some((count, bits)) = parts(filter) else {
            return Err(SlateDBError::InvalidFilterBlock {
                len: filter.len() as u64,
            });
        };
        match &query.target {
            PrefixTarget::Point(key) if self.whole_key_filtering => {
                Ok(is_held(count, bits, key.as_slice()))
            }
            target => match &self.prefix_extractor {
                Some(extractor) => {
                    let len = extractor.prefix_len(target);
                    Ok(front_is_held(count, bits, target.as_bytes(), len))
                }
                None => Ok(true),
            },
        }
    }

    fn estimate_size(&self, num_keys: u64) -> u64
        ensures { result ≡ bloom_estimate (min num_keys (2 ^ 32 - 1)) self.now.bits_per_key }
    {
        estimate(num_keys.min(4_294_967_295) as u32, self.bits_per_key)
    }
}
