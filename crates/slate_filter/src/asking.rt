//! What the filters of a table answer.
ghost use Rattle.std.specs.Prelude.{◌≡◌, ℕ, Bool, true, false, not, if◌then◌else◌, Option, Some, length, map, string_bytes, IfOk, bytes_eq};
ghost use Rattle.slate_filter.specs.Asking.{answer_of, asked_by, asked, told};
ghost use Rattle.slate_filter.specs.Named.{named_pair};
ghost use Rattle.slate_filter.specs.Policy.{is_denied};

use crate::filter_policy::FilterPolicy;
use crate::named_filter::NamedFilter;
use slate_types::{FilterQuery, SlateDBError};

/// Whether no filter of a table denies the query. The filters are asked in their order, each by the policies of its name, up to
/// the first that denies it or whose bytes are refused; those of unknown names deny nothing. `InvalidFilterBlock`, with the length
/// of the part that the filters were read from, where bytes are refused.
pub fn let_through(
    policies: &[Box<dyn FilterPolicy>],
    filters: &[NamedFilter],
    part_len: u64,
    query: &FilterQuery,
) -> Result<bool, SlateDBError>
    ensures answer { result ≡ told part_len (asked (map (λ p. meaning p) policies.now) (map named_pair filters.now) query.now) }
    ensures denied { IfOk result (λ passes. is_denied (map (λ p. meaning p) policies.now) (map named_pair filters.now) query.now ≡ not passes) }
{
    asked(policies, filters, query).ok_or(SlateDBError::InvalidFilterBlock { len: part_len })
}

/// What the filters answer, where none that is asked is refused.
fn asked(
    policies: &[Box<dyn FilterPolicy>],
    filters: &[NamedFilter],
    query: &FilterQuery,
) -> Option<bool>
    ensures { result ≡ asked (map (λ p. meaning p) policies.now) (map named_pair filters.now) query.now }
{
    for filter in filters {
        if !asked_by(
            policies,
            filter.name.as_bytes(),
            filter.filter.as_slice(),
            query,
        )? {
            return Some(false);
        }
    }
    Some(true)
}

/// What the policies of a filter's name answer over its bytes, up to the first that denies the query. `None` where one that is
/// asked refuses the bytes. Policies of other names let the query through.
pub fn asked_by(
    policies: &[Box<dyn FilterPolicy>],
    name: &[u8],
    filter: &[u8],
    query: &FilterQuery,
) -> Option<bool>
    ensures { result ≡ asked_by (map (λ p. meaning p) policies.now) query.now (name.now, filter.now) }
{
    for policy in policies {
        if !answer_of(policy, name, filter, query)? {
            return Some(false);
        }
    }
    Some(true)
}

/// What a policy answers over a filter. One of another name it lets through.
fn answer_of(
    policy: &Box<dyn FilterPolicy>,
    name: &[u8],
    filter: &[u8],
    query: &FilterQuery,
) -> Option<bool>
    ensures { result ≡ answer_of (meaning policy.now) query.now (name.now, filter.now) }
{
    if policy.name().as_bytes() == name {
        policy.might_match(filter, query).ok()
    } else {
        Some(true)
    }
}
