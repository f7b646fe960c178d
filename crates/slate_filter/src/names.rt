//! The names of the policies that a caller hands in.
ghost use Rattle.std.specs.Prelude.{◌≡◌, ◌↔◌, bytes_eq, map, true};
ghost use Rattle.std.specs.Str.{is_utf8};
ghost use Rattle.slate_types.specs.Keys.{among};
ghost use Rattle.slate_filter.specs.Laws.{AreValidNames};
ghost use Rattle.slate_filter.specs.Names.{are_apart};

use crate::filter_policy::FilterPolicy;
use std::str;

/// The most policies that a store may have, and the most bytes of a policy's name.
const MAX: usize = 65_535;

/// Whether tables can name the filters of the policies: they are at most 65535, no name has more bytes than that, and no two
/// have one name. Each name is compared with those behind it, so no memory is taken.
pub fn have_valid_names(policies: &[Box<dyn FilterPolicy>]) -> bool
    ensures { (result ≡ true) ↔ AreValidNames (map (λ p. (meaning p).name) policies.now) }
{
    policies.len() <= MAX && are_apart(policies)
}

/// Whether a name is UTF-8. The name of a policy is, so it isn't read.
pub fn is_text(policies: &[Box<dyn FilterPolicy>], name: &[u8]) -> bool
    ensures { result ≡ is_utf8 name.now }
{
    for policy in policies {
        if policy.name().as_bytes() == name {
            return true;
        }
    }
    str::from_utf8(name).is_ok()
}

/// Whether each name is short, and none stands twice.
fn are_apart(policies: &[Box<dyn FilterPolicy>]) -> bool
    ensures { result ≡ are_apart (map (λ p. (meaning p).name) policies.now) }
{
    let mut left = policies;
    while let Some((policy, rest)) = left.split_first() {
        let name = policy.name();
        if name.len() > MAX || is_named(rest, name) {
            return false;
        }
        left = rest;
    }
    true
}

/// Whether a policy has the name.
fn is_named(policies: &[Box<dyn FilterPolicy>], name: &str) -> bool
    ensures { result ≡ among name.now (map (λ p. (meaning p).name) policies.now) }
{
    for policy in policies {
        if has_name(policy, name) {
            return true;
        }
    }
    false
}

fn has_name(policy: &Box<dyn FilterPolicy>, name: &str) -> bool
    ensures { result ≡ bytes_eq (meaning policy.now).name name.now }
{
    policy.name() == name
}
