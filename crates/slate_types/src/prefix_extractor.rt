//! What gives keys their prefixes.
ghost use Rattle.std.specs.Prelude.{◌≡◌, ℕ, List, None, codes};
ghost use Rattle.slate_types.specs.Lawful.{IsWithinTarget, Lengths};

use crate::filter_policy::PrefixTarget;

/// Says how long the prefix of a key is, or that of all keys which begin with some bytes. It is lawful where each key that begins
/// with bytes that get a length gets the same.
pub trait PrefixExtractor: Send + Sync + Drop {
    /// Its name.
    ghost label: { Self → List ℕ };

    /// The length of the prefix that it gives a target, where it gives one.
    ghost lengths: { Self → Lengths };

    /// The name that a filter of its prefixes has a part of.
    fn name(&self) -> &str
        ensures { result.now ≡ label self.now };

    /// The length of a target's prefix, at most the target's own. `None` where it has none.
    fn prefix_len(&self, target: &PrefixTarget) -> Option<usize>
        ensures { result ≡ lengths self.now target.now };

    /// No prefix is longer than its target.
    ghost within: { (extractor : Self) → IsWithinTarget (lengths extractor) };
}

/// Gives no prefix. It stands where there is no extractor, and is never asked.
#[derive(Clone, Copy)]
pub struct NoExtractor;

impl PrefixExtractor for NoExtractor {
    ghost label = { λ _. codes "none" };

    ghost lengths = { λ _ target. None };

    ghost within = { λ _ target. tt };

    fn name(&self) -> &str {
        "none"
    }

    fn prefix_len(&self, _target: &PrefixTarget) -> Option<usize> {
        None
    }
}
