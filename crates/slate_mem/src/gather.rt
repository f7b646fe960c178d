//! The rows of several memtables in one list.
ghost use Rattle.std.specs.Prelude.{◌≡◌, map, IfOk, IsOkUnless};
ghost use Rattle.slate_types.specs.declared.error.SlateDBError.{SlateDBError};
ghost use Rattle.slate_types.specs.Keys.{key_cmp};
ghost use Rattle.slate_mem.specs.Gathered.{IsGathered};
ghost use Rattle.slate_mem.specs.Lookup.{newest_first};

use crate::ImmutableMemtable;
use slate_types::{RowEntry, SlateDBError};
use std::alloc::Global;
use std::cmp::Ordering;

/// The rows of memtables, of which the newest stands last, in one list: keys rising, and of each key all rows, newest first. They
/// share keys and values. The one error is `OutOfMemory`.
pub fn gathered(alloc: Global, frozen: &[ImmutableMemtable]) -> Result<Vec<RowEntry>, SlateDBError>
    ensures rows { IfOk result (λ rows. IsGathered (map (λ t. t.rows) frozen.now) rows.items) }
    ensures cause { IsOkUnless result SlateDBError.OutOfMemory }
{
    let mut rows = newest_first(alloc, frozen)?;
    rows.sort_by(by_key)?;
    Ok(rows)
}

/// The rows of memtables, one after another, the newest memtable first.
fn newest_first(alloc: Global, frozen: &[ImmutableMemtable]) -> Result<Vec<RowEntry>, SlateDBError>
    ensures rows { IfOk result (λ rows. rows.items ≡ newest_first (map (λ t. t.rows) frozen.now)) }
    ensures cause { IsOkUnless result SlateDBError.OutOfMemory }
{
    let mut rows = Vec::new(alloc);
    let mut at = frozen.len();
    while at > 0 {
        at -= 1;
        let mut more = frozen[at].rows(alloc)?;
        rows.append(&mut more)?;
    }
    Ok(rows)
}

/// How the keys of two rows stand to each other.
fn by_key(a: &RowEntry, b: &RowEntry) -> Ordering
    ensures { result ≡ key_cmp a.now.key b.now.key }
{
    a.key.cmp(&b.key)
}
