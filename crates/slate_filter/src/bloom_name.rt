//! Names of policies of Bloom filters.
ghost use Rattle.std.specs.Prelude.{◌≡◌, string_bytes, IfOk};
ghost use Rattle.std.specs.Option.{option_map};
ghost use Rattle.slate_filter.specs.BloomPolicies.{bloom_name};

use slate_types::PrefixExtractor;
use std::alloc::{AllocError, Global};

/// The name that tells the extractor, where there is one, and whether whole keys are off.
pub(crate) fn name_of<X: PrefixExtractor>(
    alloc: Global,
    extractor: &Option<X>,
    whole: bool,
) -> Result<String, AllocError>
    ensures { IfOk result (λ name. string_bytes name ≡ bloom_name (option_map X.label extractor.now) whole) }
{
    let mut name = String::from_str(alloc, "_bf")?;
    if let Some(extractor) = extractor {
        name.push_str(":p=")?;
        name.push_str(extractor.name())?;
    }
    if !whole {
        name.push_str(":wh=0")?;
    }
    Ok(name)
}
