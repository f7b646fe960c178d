//! What a filter is asked.
ghost use Rattle.std.specs.Prelude.{◌≡◌, None};

use bytes::Bytes;

/// What a policy of one's own is told besides the target.
#[derive(Drop)]
pub enum FilterContext {
    Inline([u8; 64]),
    Bytes(Bytes),
}

/// One key, or all keys that begin with a prefix.
#[derive(PartialEq, Eq, Drop)]
pub enum PrefixTarget {
    Point(Bytes),
    Prefix(Bytes),
}

impl PrefixTarget {
    ghost use Rattle.slate_types.specs.Lawful.{target_bytes};

    /// The key, or the prefix.
    pub fn as_bytes(&self) -> &[u8]
        ensures { result.now ≡ target_bytes self.now }
    {
        match self {
            Self::Point(bytes) | Self::Prefix(bytes) => bytes.as_slice(),
        }
    }
}

/// A question to a filter.
#[derive(Drop)]
pub struct FilterQuery {
    pub target: PrefixTarget,
    pub context: Option<FilterContext>,
}

impl FilterQuery {
    /// Asks for one key, without a context.
    pub fn point(key: Bytes) -> FilterQuery
        ensures { result ≡ record { target = PrefixTarget.Point key; context = None } }
    {
        FilterQuery {
            target: PrefixTarget::Point(key),
            context: None,
        }
    }

    /// Asks for the keys that begin with a prefix, without a context.
    pub fn prefix(prefix: Bytes) -> FilterQuery
        ensures { result ≡ record { target = PrefixTarget.Prefix prefix; context = None } }
    {
        FilterQuery {
            target: PrefixTarget::Prefix(prefix),
            context: None,
        }
    }

    /// The same question with this context.
    pub fn with_context(self, context: Option<FilterContext>) -> FilterQuery
        ensures { result ≡ record { target = self.target; context = context } }
    {
        FilterQuery { context, ..self }
    }
}
