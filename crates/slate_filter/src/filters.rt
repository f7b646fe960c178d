//! The filters of a table.
ghost use Rattle.std.specs.Prelude.{◌≡◌, map, filter_map, IfOk, IsOkUnless};
ghost use Rattle.std.specs.Option.{option_map};
ghost use Rattle.slate_filter.specs.Named.{named_pair};
ghost use Rattle.slate_filter.specs.Policy.{named};

use crate::filter_policy::FilterPolicy;
use crate::named_filter::NamedFilter;
use bytes::Bytes;
use slate_types::{RowEntry, SlateDBError};
use std::alloc::Global;

/// The filters of a table's rows, in the order of the policies. A policy that builds none is left out.
pub fn build_filters(
    alloc: Global,
    policies: &[Box<dyn FilterPolicy>],
    rows: &[RowEntry],
) -> Result<Vec<NamedFilter>, SlateDBError>
    ensures built { IfOk result (λ filters. map named_pair filters.items ≡ filter_map (λ p. named p.name (p.builds rows.now)) (map (λ p. meaning p) policies.now)) }
    ensures cause { IsOkUnless result SlateDBError.OutOfMemory }
{
    let mut filters = Vec::new(alloc);
    for policy in policies {
        if let Some(filter) = filter_of(alloc, policy, rows)? {
            filters.push(filter)?;
        }
    }
    Ok(filters)
}

fn filter_of(
    alloc: Global,
    policy: &Box<dyn FilterPolicy>,
    rows: &[RowEntry],
) -> Result<Option<NamedFilter>, SlateDBError>
    ensures built { IfOk result (λ filter. option_map named_pair filter ≡ named (meaning policy.now).name ((meaning policy.now).builds rows.now)) }
    ensures cause { IsOkUnless result SlateDBError.OutOfMemory }
{
    let Some(bytes) = policy.build(alloc, rows)? else {
        return Ok(None);
    };
    let filter = Bytes::from_vec(bytes)?;
    let name = String::from_str(alloc, policy.name())?;
    Ok(Some(NamedFilter { name, filter }))
}
