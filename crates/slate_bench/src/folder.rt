//! Tables that are put into a folder again and again, while something else reads it.
use crate::tables;
use slate_store::FileStore;
use slate_table::{EncodedSsTable, TableStore};
use slate_types::{RowEntry, SlateDBError, Ulid};
use std::alloc::Global;

type Folder<'a> = FileStore<&'a HostRuntime>;

/// How often each of two tables is put.
const TIMES: u32 = 200;

/// The id that both have when they are put in turn.
const SHARED: Ulid = Ulid(1);

/// Puts two tables of unlike lengths below the folder: each alone, with the ids 2 and 3, and then both in turn with the id 1.
pub fn write(rt: &HostRuntime, folder: &str, rows: &[RowEntry]) -> Result<(), SlateDBError> {
    let mut store = FileStore::new(rt.alloc(), rt, folder)?;
    let put = put_both(rt.alloc(), &mut store, rows);
    drop(store);
    put
}

/// Puts a short table and a long one of the rows, first alone.
fn put_both(alloc: Global, store: &mut Folder<'_>, rows: &[RowEntry]) -> Result<(), SlateDBError> {
    let few = &rows[..rows.len().min(100)];
    let many = &rows[..rows.len().min(10_000)];
    put_alone(alloc, store, few, 2, Ulid(2))?;
    put_alone(alloc, store, many, 1, Ulid(3))?;
    let short = tables::build(alloc, few, 2, SHARED)?;
    match tables::build(alloc, many, 1, SHARED) {
        Ok(long) => {
            let put = put_in_turn(alloc, store, &short, &long);
            drop((short, long));
            put
        }
        Err(error) => {
            drop(short);
            Err(error)
        }
    }
}

fn put_alone(
    alloc: Global,
    store: &mut Folder<'_>,
    rows: &[RowEntry],
    version: u16,
    id: Ulid,
) -> Result<(), SlateDBError> {
    let table = tables::build(alloc, rows, version, id)?;
    let put = put(alloc, store, &table);
    drop(table);
    put
}

fn put_in_turn(
    alloc: Global,
    store: &mut Folder<'_>,
    short: &EncodedSsTable,
    long: &EncodedSsTable,
) -> Result<(), SlateDBError> {
    for _ in 0..TIMES {
        put(alloc, store, short)?;
        put(alloc, store, long)?;
    }
    Ok(())
}

fn put(alloc: Global, store: &mut Folder<'_>, table: &EncodedSsTable) -> Result<(), SlateDBError> {
    TableStore::put_table(alloc, store, tables::ROOT, table.id(), table).map(drop)
}
