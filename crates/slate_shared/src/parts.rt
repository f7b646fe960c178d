//! What all calls on one database share.
ghost use Rattle.slate_shared.specs.Given.{ArePlain};

use slate_db::laws::Laws;
use slate_types::{NoExtractor, Options};
use std::alloc::Global;

/// What the options say and the parts mean that all calls on one database are given. The caller picks it once, by a marker type.
pub trait Parts {
    ghost use Rattle.slate_types.specs.declared.config.Options.{Options};
    ghost use Rattle.slate_types.specs.Outside.{Meaning};
    ghost use Rattle.slate_mem.specs.KeyTests.{Segments};
    ghost use Rattle.slate_filter.specs.Policy.{Policy};
    ghost use Rattle.std.specs.Prelude.{List};

    ghost options: { Options };

    ghost meaning: { Meaning };

    ghost segments: { Segments };

    ghost policies: { List Policy };
}

/// The parts of a database by the default options, without an operator, a transformer, segments and filters.
#[derive(Drop)]
pub struct Plain;

impl Parts for Plain {
    ghost use Rattle.std.specs.Prelude.{[], None};
    ghost use Rattle.slate_types.specs.Config.{defaults};
    ghost use Rattle.slate_types.specs.Outside.{no_parts};

    ghost options = { defaults };

    ghost meaning = { no_parts };

    ghost segments = { None };

    ghost policies = { [] };
}

impl Plain {
    /// The laws that the calls on such a database are given. Takes no memory.
    pub fn laws(alloc: Global) -> Laws<NoExtractor>
        ensures { ArePlain result.options result.segments result.policies.items }
    {
        Laws {
            options: Options::new(),
            segments: None,
            policies: Vec::new(alloc),
        }
    }
}
