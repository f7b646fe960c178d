//! Filters that the check computes.
ghost use Rattle.slate_filter.specs.Vectors.{Bits, Hashes, NoProbe, Prefixes, Probes, ShortKeys, Sizes};

/// The hash of four byte strings.
pub fn hashes()
    ensures { Hashes }
{}

/// The probes of a hash.
pub fn probes()
    ensures { Probes }
{}

/// A filter of prefixes of four bytes, over keys that are shorter, with whole keys and without.
pub fn short_keys()
    ensures { ShortKeys }
{}

/// Where bits stand in a filter's bytes.
pub fn bits()
    ensures { Bits }
{}

/// Lengths, counts of probes, and a filter that is refused.
pub fn sizes()
    ensures { Sizes }
{}

/// A filter whose hashes have no probe.
pub fn no_probe()
    ensures { NoProbe }
{}

/// What extractors give to a key and to a prefix.
pub fn prefixes()
    ensures { Prefixes }
{}
