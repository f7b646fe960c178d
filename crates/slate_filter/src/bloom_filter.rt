//! Bloom filters.
ghost use Rattle.std.specs.Prelude.{◌<◌, ◌^◌, vec_len};

use crate::bloom_bits::{encoded, estimate, parts};
use crate::holding::holds;
use slate_types::{FilterQuery, PrefixExtractor, SlateDBError};
use std::alloc::Global;

/// Bits that tell of a key, or of a prefix, that it was not among those hashed, or that it may have been.
#[derive(Drop)]
pub struct BloomFilter<X> {
    num_probes: u16,
    bits: Vec<u8>,
    whole_key_filtering: bool,
    prefix_extractor: Option<X>,
    ghost small: { vec_len bits < 2 ^ 29 },
}

impl<X: PrefixExtractor> BloomFilter<X> {
    ghost use Rattle.std.specs.Prelude.{◌≡◌, ◌⊎◌, ◌+◌, ◌<◌, ◌^◌, ℕ, Err, None, Some, length, vec_len, IfOk, IfErr, OnOk, IsOkUnless};
    ghost use Rattle.std.specs.Option.{option_map};
    ghost use Rattle.slate_filter.specs.Bloom.{bloom_estimate, bloom_holds, bloom_parts};
    ghost use Rattle.slate_filter.specs.BloomFilters.{filter_bytes, filter_parts, read_by};

    /// A filter of these bits.
    pub(crate) fn from_parts(
        num_probes: u16,
        bits: Vec<u8>,
        whole_key_filtering: bool,
        prefix_extractor: Option<X>,
    ) -> BloomFilter<X>
        requires { vec_len bits < 2 ^ 29 }
        ensures parts { filter_parts result ≡ (num_probes, bits.items) }
        ensures settings { (n : ℕ) → read_by n X.lengths result ≡ record { bits_per_key = n; whole = whole_key_filtering; lengths = option_map X.lengths prefix_extractor } }
    {
        BloomFilter {
            num_probes,
            bits,
            whole_key_filtering,
            prefix_extractor,
        }
    }

    /// The filter that the bytes are, read by these settings. `InvalidFilterBlock`, with their length, exactly for fewer than 2
    /// bytes and for more than 2^29 + 1; or `OutOfMemory`.
    pub fn decode(
        alloc: Global,
        buf: &[u8],
        whole_key_filtering: bool,
        prefix_extractor: Option<X>,
    ) -> Result<BloomFilter<X>, SlateDBError>
        ensures parts { IfOk result (λ filter. bloom_parts buf.now ≡ Some (filter_parts filter)) }
        ensures settings { IfOk result (λ filter. (n : ℕ) → read_by n X.lengths filter ≡ record { bits_per_key = n; whole = whole_key_filtering; lengths = option_map X.lengths prefix_extractor }) }
        ensures refused { bloom_parts buf.now ≡ None → result ≡ Err (SlateDBError.InvalidFilterBlock (length buf.now)) }
        ensures cause { IfErr result (λ e. (e ≡ SlateDBError.OutOfMemory) ⊎ ((bloom_parts buf.now ≡ None) × (e ≡ SlateDBError.InvalidFilterBlock (length buf.now)))) }
    {
        let Some((num_probes, bytes)) = parts(buf) else {
            return Err(SlateDBError::InvalidFilterBlock {
                len: buf.len() as u64,
            });
        };
        let bits = bytes.to_vec(alloc)?;
        Ok(BloomFilter::from_parts(num_probes, bits, whole_key_filtering, prefix_extractor))
    }

    /// Whether the filter lets the query through, whatever its context. A point query asks for the key where whole keys are on, and
    /// else for its prefix, as a prefix query does; where there is none, it is let through.
    pub fn might_match(&self, query: &FilterQuery) -> bool
        ensures { (n : ℕ) → result ≡ bloom_holds (read_by n X.lengths self.now) (filter_parts self.now).0 (filter_parts self.now).1 query.now.target }
    {
        holds(
            self.whole_key_filtering,
            &self.prefix_extractor,
            self.num_probes,
            self.bits.as_slice(),
            &query.target,
        )
    }

    /// The number of bit bytes.
    pub fn size(&self) -> u64
        ensures { result ≡ length (filter_parts self.now).1 }
    {
        self.bits.len() as u64
    }

    /// The bytes of the filter: the number of probes and the bit bytes.
    pub fn encode(&self, alloc: Global) -> Result<Vec<u8>, SlateDBError>
        ensures bytes { IfOk result (λ bytes. bytes.items ≡ filter_bytes self.now) }
        ensures cause { IsOkUnless result SlateDBError.OutOfMemory }
    {
        encoded(alloc, self.num_probes, self.bits.as_slice()).map_err(SlateDBError::from)
    }

    /// Gives back memory that the bits don't take.
    pub fn clamp_allocated_size(&mut self) -> Result<(), SlateDBError>
        ensures parts { filter_parts self.new ≡ filter_parts self.old }
        ensures settings { (n : ℕ) → read_by n X.lengths self.new ≡ read_by n X.lengths self.old }
        ensures cause { IsOkUnless result SlateDBError.OutOfMemory }
    {
        self.bits.shrink_to_fit();
        Ok(())
    }

    /// How many bytes a filter of so many hashes has.
    pub fn estimate_encoded_size(num_keys: u32, bits_per_key: u32) -> u64
        ensures { result ≡ bloom_estimate num_keys bits_per_key }
    {
        estimate(num_keys, bits_per_key)
    }
}
