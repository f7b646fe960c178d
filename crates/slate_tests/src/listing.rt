// The laws of a core, and policies.
ghost use Rattle.std.specs.Prelude.{◌≡◌, map};
ghost use Rattle.slate_types.specs.Config.{defaults};
ghost use Rattle.slate_filter.specs.Laws.{AreValidNames};

use slate_db::laws::Laws;
use slate_filter::FilterPolicy;
use slate_types::{NoExtractor, Options};
use std::alloc::Global;

/// No policies of filters.
pub fn no_policies(alloc: Global) -> Vec<Box<dyn FilterPolicy>>
    ensures { AreValidNames (map (λ p. (meaning p).name) result.items) }
{
    Vec::new(alloc)
}

/// The laws of a core without segments and filters, by the default options.
pub fn default_laws(alloc: Global) -> Laws<NoExtractor>
    ensures options { result.options ≡ defaults }
    ensures names { AreValidNames (map (λ p. (meaning (p.vtable, p.value)).name) result.policies.items) }
{
    Laws {
        options: Options::new(),
        segments: None,
        policies: no_policies(alloc),
    }
}
