//! The extractors that come with the store.
ghost use Rattle.std.specs.Prelude.{◌≡◌, ◌<◌, ◌++◌, ℕ, List, length, codes, decimal, string_bytes, IfOk, IsOkUnless};
ghost use Rattle.slate_types.specs.Lawful.{Lengths, IsWithinTarget};
ghost use Rattle.slate_filter.specs.Extractors.{fixed, colon, last_colon, through_first, through_last};
ghost use Rattle.slate_filter.specs.ExtractorsWithin.{fixed_within, colon_within, last_colon_within};

use slate_types::{PrefixExtractor, PrefixTarget, SlateDBError};
use std::alloc::Global;

/// What a prefix ends with.
const COLON: u8 = b':';

/// So many first bytes, of targets that have as many.
#[derive(Drop)]
pub struct FixedExtractor {
    len: u16,
    name: String,
}

impl FixedExtractor {
    /// Of at least one byte. Its name is `fixed` and the number.
    pub fn new(alloc: Global, len: u16) -> Result<FixedExtractor, SlateDBError>
        requires { 0 < len }
        ensures len { IfOk result (λ made. made.len ≡ len) }
        ensures name { IfOk result (λ made. string_bytes made.name ≡ codes "fixed" ++ decimal len) }
        ensures cause { IsOkUnless result SlateDBError.OutOfMemory }
    {
        let name = format!(in alloc; "fixed{len}")?;
        Ok(FixedExtractor { len, name })
    }
}

impl PrefixExtractor for FixedExtractor {
    ghost label = { λ made. string_bytes made.name };

    ghost lengths = { λ made. fixed made.len };

    ghost within = { λ made. fixed_within made.len };

    fn name(&self) -> &str {
        self.name.as_str()
    }

    fn prefix_len(&self, target: &PrefixTarget) -> Option<usize> {
        let len = self.len as usize;
        (len <= target.as_bytes().len()).then_some(len)
    }
}

/// What ends with the first colon, of targets that have one.
#[derive(Clone, Copy)]
pub struct ColonExtractor;

impl ColonExtractor {
    pub fn new() -> ColonExtractor {
        ColonExtractor
    }
}

impl PrefixExtractor for ColonExtractor {
    ghost label = { λ _. codes "colon" };

    ghost lengths = { λ _. colon };

    ghost within = { λ _. colon_within };

    fn name(&self) -> &str {
        "colon"
    }

    fn prefix_len(&self, target: &PrefixTarget) -> Option<usize> {
        through_first_colon(target.as_bytes())
    }
}

/// What ends with a key's last colon. A prefix has none, since a key that begins with it may have a later one.
#[derive(Clone, Copy)]
pub struct LastColonExtractor;

impl LastColonExtractor {
    pub fn new() -> LastColonExtractor {
        LastColonExtractor
    }
}

impl PrefixExtractor for LastColonExtractor {
    ghost label = { λ _. codes "lastcolon" };

    ghost lengths = { λ _. last_colon };

    ghost within = { λ _. last_colon_within };

    fn name(&self) -> &str {
        "lastcolon"
    }

    fn prefix_len(&self, target: &PrefixTarget) -> Option<usize> {
        match target {
            PrefixTarget::Point(key) => through_last_colon(key.as_slice()),
            PrefixTarget::Prefix(_) => None,
        }
    }
}

/// The length of what ends with the first colon.
fn through_first_colon(bytes: &[u8]) -> Option<usize>
    ensures { result ≡ through_first 58 bytes.now }
{
    for (i, byte) in bytes.iter().enumerate() {
        if *byte == COLON {
            return Some(i + 1);
        }
    }
    None
}

/// The length of what ends with the last colon.
fn through_last_colon(bytes: &[u8]) -> Option<usize>
    ensures { result ≡ through_last 58 bytes.now }
{
    let mut len = bytes.len();
    while len > 0 {
        if bytes[len - 1] == COLON {
            return Some(len);
        }
        len -= 1;
    }
    None
}
