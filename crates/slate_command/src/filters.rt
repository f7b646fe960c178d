//! The policies of filters that the program comes with. Each is lawful: none denies a query that a
//! row matches.
ghost use Rattle.std.specs.Prelude.{◌≡◌, Some, true, false, codes, IfOk, IsOkUnless};
ghost use Rattle.slate_types.specs.Lawful.{IsLawfulLengths};
ghost use Rattle.slate_filter.specs.BloomPolicies.{bloom_name};
ghost use Rattle.slate_filter.specs.Policy.{IsLawfulPolicy};

use slate_filter::laws::extractors_are_lawful;
use slate_filter::{BloomFilterPolicy, ColonExtractor, FilterPolicy, FixedExtractor};
use slate_types::{NoExtractor, PrefixExtractor, SlateDBError};
use std::alloc::Global;

/// The bits of a filter for each key.
const BITS_PER_KEY: u32 = 10;

/// Over whole keys alone.
pub fn whole_keys(alloc: Global) -> Result<BloomFilterPolicy<NoExtractor>, SlateDBError>
    ensures name { IfOk result (λ made. (⟦<BloomFilterPolicy<NoExtractor> as FilterPolicy>⟧.meaning made).name ≡ codes "_bf") }
    ensures lawful { IfOk result (λ made.
        let policy = ⟦<BloomFilterPolicy<NoExtractor> as FilterPolicy>⟧.meaning made in
        IsLawfulPolicy policy.builds policy.answers) }
    ensures cause { IsOkUnless result SlateDBError.OutOfMemory }
{
    let policy = BloomFilterPolicy::new(alloc, BITS_PER_KEY)?;
    policy.is_lawful();
    Ok(policy)
}

/// Over the prefixes up to the first colon, and over whole keys too or not.
pub fn colon(alloc: Global, whole: bool) -> Result<BloomFilterPolicy<ColonExtractor>, SlateDBError>
    ensures name { IfOk result (λ made.
        (⟦<BloomFilterPolicy<ColonExtractor> as FilterPolicy>⟧.meaning made).name ≡ bloom_name (Some (codes "colon")) whole) }
    ensures lawful { IfOk result (λ made.
        let policy = ⟦<BloomFilterPolicy<ColonExtractor> as FilterPolicy>⟧.meaning made in
        IsLawfulPolicy policy.builds policy.answers) }
    ensures cause { IsOkUnless result SlateDBError.OutOfMemory }
{
    extractors_are_lawful();
    prefixes(alloc, ColonExtractor::new(), whole)
}

/// Over the first four bytes alone.
pub fn fixed(alloc: Global) -> Result<BloomFilterPolicy<FixedExtractor>, SlateDBError>
    ensures name { IfOk result (λ made.
        (⟦<BloomFilterPolicy<FixedExtractor> as FilterPolicy>⟧.meaning made).name ≡ bloom_name (Some (codes "fixed4")) false) }
    ensures lawful { IfOk result (λ made.
        let policy = ⟦<BloomFilterPolicy<FixedExtractor> as FilterPolicy>⟧.meaning made in
        IsLawfulPolicy policy.builds policy.answers) }
    ensures cause { IsOkUnless result SlateDBError.OutOfMemory }
{
    extractors_are_lawful();
    let extractor = FixedExtractor::new(alloc, 4)?;
    prefixes(alloc, extractor, false)
}

/// Over the prefixes that an extractor gives keys, and over whole keys too or not.
fn prefixes<X: PrefixExtractor>(
    alloc: Global,
    extractor: X,
    whole: bool,
) -> Result<BloomFilterPolicy<X>, SlateDBError>
    requires { IsLawfulLengths (X.lengths extractor) }
    ensures name { IfOk result (λ made.
        (⟦<BloomFilterPolicy<X> as FilterPolicy>⟧.meaning made).name ≡ bloom_name (Some (X.label extractor)) whole) }
    ensures lawful { IfOk result (λ made.
        let policy = ⟦<BloomFilterPolicy<X> as FilterPolicy>⟧.meaning made in
        IsLawfulPolicy policy.builds policy.answers) }
    ensures cause { IsOkUnless result SlateDBError.OutOfMemory }
{
    let policy = BloomFilterPolicy::new(alloc, BITS_PER_KEY)?;
    let policy = policy.with_whole_key_filtering(alloc, whole)?;
    let policy = policy.with_prefix_extractor(alloc, extractor)?;
    policy.is_lawful();
    Ok(policy)
}
