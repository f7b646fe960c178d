//! The tables that a store has.
ghost use Rattle.std.specs.Prelude.{◌≡◌, ◌≤◌, ◌⊎◌, map, Some, Err, IfOk, IfErr};
ghost use Rattle.slate_types.specs.Outside.{Objects};
ghost use Rattle.slate_table.specs.Reading.{IsStoreFault};
ghost use Rattle.slate_tables.specs.Listing.{IsListing};

use crate::paths::id_in_path;
use slate_store::{PathText, Store};
use slate_types::{SlateDBError, Ulid};
use std::alloc::Global;

/// The paths of a store's objects: those of tables below a root, by their ids, and all others.
#[derive(Drop)]
pub struct Listing {
    pub tables: Vec<Ulid>,
    pub others: Vec<PathText>,
}

/// Lists the tables below a root and the other objects, by one call of the store. Nothing is read.
/// `StoreFault`, only if the store's count of faults rose, or `OutOfMemory`.
pub fn list_tables<S: Store>(
    alloc: Global,
    store: &mut S,
    root: &str,
) -> Result<Listing, SlateDBError>
    ensures told { (os : Objects) → S.objects store.old ≡ Some os →
        IfOk result (λ listing. IsListing root.now (map (λ o. o.0) os) listing.tables.items
        listing.others.items) }
    ensures cause { IfErr result (λ e. IsStoreFault (S.faults store.old) (S.faults store.new) e) }
    ensures objects { S.objects store.new ≡ S.objects store.old }
    ensures acts { S.acts store.new ≡ S.acts store.old }
    ensures later { S.faults store.old ≤ S.faults store.new }
    ensures still { (result ≡ Err SlateDBError.StoreFault)
        ⊎ (S.faults store.new ≡ S.faults store.old) }
{
    let paths = store.list(alloc)?;
    listing_of(alloc, root, paths)
}

/// Tells paths apart.
fn listing_of(alloc: Global, root: &str, paths: Vec<PathText>) -> Result<Listing, SlateDBError>
    ensures told { IfOk result
        (λ listing. IsListing root.now paths.items listing.tables.items listing.others.items) }
    ensures cause { IfErr result (λ e. e ≡ SlateDBError.OutOfMemory) }
{
    let mut tables = Vec::new(alloc);
    let mut others = Vec::new(alloc);
    for path in paths {
        match id_in_path(root, path.as_str()) {
            Some(id) => {
                drop(path);
                tables.push(id)?;
            }
            None => others.push(path)?,
        }
    }
    Ok(Listing { tables, others })
}
