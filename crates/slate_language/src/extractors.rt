//! Extractors that a run can name.
ghost use Rattle.std.specs.Prelude.{◌≡◌};
ghost use Rattle.slate_filter.specs.Extractors.{fixed};
ghost use Rattle.slate_language.specs.Segments.{label_of, lengths_of, lengths_within};

use slate_filter::{ColonExtractor, LastColonExtractor};
use slate_types::{PrefixExtractor, PrefixTarget};

/// One of the extractors, by its name. It needs no memory.
#[derive(Clone, Copy)]
pub enum NamedExtractor {
    /// So many first bytes, of targets that have as many.
    Fixed(u16),
    /// `ColonExtractor`
    Colon,
    /// `LastColonExtractor`
    LastColon,
}

impl PrefixExtractor for NamedExtractor {
    ghost label = { label_of };

    ghost lengths = { lengths_of };

    ghost within = { lengths_within };

    fn name(&self) -> &str {
        match self {
            NamedExtractor::Fixed(_) => "fixed",
            NamedExtractor::Colon => "colon",
            NamedExtractor::LastColon => "lastcolon",
        }
    }

    fn prefix_len(&self, target: &PrefixTarget) -> Option<usize> {
        match self {
            NamedExtractor::Fixed(len) => first_bytes(*len as usize, target),
            NamedExtractor::Colon => ColonExtractor.prefix_len(target),
            NamedExtractor::LastColon => LastColonExtractor.prefix_len(target),
        }
    }
}

/// So many bytes, where the target has as many.
fn first_bytes(len: usize, target: &PrefixTarget) -> Option<usize>
    ensures { result ≡ fixed len target.now }
{
    (len <= target.as_bytes().len()).then_some(len)
}
