//! Names of records.
ghost use Rattle.std.specs.Prelude.{◌≡◌, true, IfSome, is_some};
ghost use Rattle.std.specs.List.{list_all};
ghost use Rattle.slate_index.specs.Names.{is_letter_or_digit, is_plain_name};

use bytes::Bytes;
use std::marker::Model;

/// 1 to 32 of the letters a to z and the digits. Contracts see its bytes.
#[derive(Clone, Drop)]
pub struct Name {
    text: Bytes,
}

impl Model for Name {
    ghost use Rattle.std.specs.Prelude.{List, ℕ, ◌≡◌, true};
    ghost use Rattle.slate_index.specs.Names.{is_plain_name};

    ghost Value = { List ℕ };

    ghost view = { λ s. s.text };

    ghost invariant = { λ s. is_plain_name s.text ≡ true };
}

impl Name {
    /// The name of these bytes, where they are one.
    pub fn new(text: Bytes) -> Option<Name>
        ensures same { IfSome result (λ n. n ≡ text) }
        ensures exactly { is_some result ≡ is_plain_name text }
    {
        if is_plain_name(text.as_slice()) {
            Some(Name { text })
        } else {
            None
        }
    }

    /// That its bytes are a name. It does nothing.
    pub fn is_named(&self)
        ensures { is_plain_name self.now ≡ true }
    {
        let _ = &self.text;
    }

    /// Its bytes.
    pub fn as_slice(&self) -> &[u8]
        ensures { result.now ≡ self.now }
    {
        self.text.as_slice()
    }
}

/// Whether the bytes are a name.
fn is_plain_name(text: &[u8]) -> bool
    ensures { result ≡ is_plain_name text.now }
{
    !text.is_empty() && text.len() <= 32 && is_plain(text)
}

/// Whether all are letters and digits.
fn is_plain(text: &[u8]) -> bool
    ensures { result ≡ list_all is_letter_or_digit text.now }
{
    text.iter()
        .all(|byte| byte.is_ascii_lowercase() || byte.is_ascii_digit())
}
