//! How stored tables are read.
use bytes::Bytes;
use slate_types::{FilterContext, IterationOrder};

/// How the rows of stored tables are read.
#[derive(Drop)]
pub struct SstIteratorOptions {
    /// How many reads of neighbouring blocks are made before the next row is handed out. Not 0.
    pub max_fetch_tasks: u32,

    /// How many bytes such a read asks for at least, where that many are left of the blocks that can hold the range. Not 0.
    pub target_bytes_to_fetch: u64,

    /// The order in which the rows come.
    pub order: IterationOrder,

    /// The prefix that filters are asked for, where each key of the range begins with one.
    pub prefix: Option<Bytes>,

    /// What filters are told beside the key or the prefix.
    pub filter_context: Option<FilterContext>,
}

impl Default for SstIteratorOptions {
    ghost use Rattle.std.specs.Prelude.{◌≡◌};
    ghost use Rattle.slate_read.specs.SstOptions.{default_options};

    ghost is_default = { λ options. options ≡ default_options };

    fn default() -> SstIteratorOptions {
        SstIteratorOptions {
            max_fetch_tasks: 1,
            target_bytes_to_fetch: 1,
            order: IterationOrder::Ascending,
            prefix: None,
            filter_context: None,
        }
    }
}
