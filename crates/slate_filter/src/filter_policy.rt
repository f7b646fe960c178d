//! What makes filters of tables' rows and reads them.
ghost use Rattle.std.specs.Prelude.{◌≡◌, length, IfOk, IsOkUnless, vec_items};
ghost use Rattle.std.specs.Option.{option_map};
ghost use Rattle.slate_filter.specs.Asking.{told};
ghost use Rattle.slate_filter.specs.Policy.{Policy};

use slate_types::{FilterQuery, RowEntry, SlateDBError};
use std::alloc::Global;

/// Makes a filter of the rows of a table, and says of a filter's bytes whether the table may have a row that a query matches. A
/// policy is lawful where it denies no query that one of the rows matches, and refuses no bytes of its own.
pub trait FilterPolicy: Send + Sync + Drop {
    /// Its name, what it builds of a table's rows, and what it answers over a filter's bytes, where it doesn't refuse them.
    ghost meaning: { Self → Policy };

    /// The name that its filters have in a table.
    fn name(&self) -> &str
        ensures { result.now ≡ (meaning self.now).name };

    /// The filter of a table's rows. `None` leaves it out of the table.
    fn build(&self, alloc: Global, rows: &[RowEntry]) -> Result<Option<Vec<u8>>, SlateDBError>
        ensures built { IfOk result (λ filter. option_map vec_items filter ≡ (meaning self.now).builds rows.now) }
        ensures cause { IsOkUnless result SlateDBError.OutOfMemory };

    /// Whether one of the rows of a filter may match the query. `InvalidFilterBlock`, with their length, for bytes that it refuses.
    fn might_match(&self, filter: &[u8], query: &FilterQuery) -> Result<bool, SlateDBError>
        ensures { result ≡ told (length filter.now) ((meaning self.now).answers filter.now query.now) };

    /// About how long the filter of so many keys is.
    fn estimate_size(&self, num_keys: u64) -> u64;
}
