//! The modes `state`, `get` and `script`: the state to which the tables of a folder fold.
ghost use Rattle.std.specs.Prelude.{◌≡◌, codes, string_bytes};

use crate::folder::{read_folder, tell_fault};
use crate::request::{Mode, Request};
use slate_store::{Env, Store, WriterSink};
use slate_table::SstReader;
use slate_tables::check::{Checked, check_table};
use slate_tables::listing::{Listing, list_tables};
use slate_tables::{Tables, write_range, write_row_of, write_script, write_state};
use slate_types::{BlockTransformer, SlateDBError, Ulid};
use std::alloc::Global;

/// Writes the state of the tables in a folder, if all of them are whole, and answers the status to
/// end with.
pub fn export(rt: &HostRuntime, folder: &str, request: &Request) -> u8 {
    match tables_of(rt, folder, request) {
        Ok(listing) => {
            let status = export_tables(rt, folder, request, listing.tables.as_slice());
            drop(listing);
            status
        }
        Err(status) => status,
    }
}

/// Lists the tables in a folder, and refuses the first one that is damaged.
fn tables_of(rt: &HostRuntime, folder: &str, request: &Request) -> Result<Listing, u8> {
    match read_folder(rt, folder, request.transformer()) {
        Ok(mut reader) => {
            let found = whole_tables(rt.alloc(), &mut reader);
            if let Err(status) = &found {
                tell_fault(rt, *status, &reader);
            }
            found
        }
        Err(status) => Err(status),
    }
}

/// Lists the tables, and refuses the first one that is damaged.
fn whole_tables<S: Store, T: BlockTransformer>(
    alloc: Global,
    reader: &mut SstReader<S, T>,
) -> Result<Listing, u8> {
    match list_tables(alloc, &mut reader.store, reader.root_path.as_str()) {
        Ok(listing) => match check_each(alloc, reader, listing.tables.as_slice()) {
            Ok(()) => Ok(listing),
            Err(status) => {
                drop(listing);
                Err(status)
            }
        },
        Err(error) => Err(status_of(error)),
    }
}

fn check_each<S: Store, T: BlockTransformer>(
    alloc: Global,
    reader: &mut SstReader<S, T>,
    tables: &[Ulid],
) -> Result<(), u8> {
    for id in tables {
        match check_table(alloc, reader, *id) {
            Ok(Checked::Whole(summary)) => drop(summary),
            Ok(Checked::Damaged(flaw)) => {
                let status = flaw.error.status().unwrap_or(16);
                drop(flaw);
                return Err(status);
            }
            Err(error) => return Err(status_of(error)),
        }
    }
    Ok(())
}

fn export_tables(rt: &HostRuntime, folder: &str, request: &Request, ids: &[Ulid]) -> u8 {
    match read_folder(rt, folder, request.transformer()) {
        Ok(mut reader) => {
            let status = export_opened(rt, request, &mut reader, ids);
            tell_fault(rt, status, &reader);
            status
        }
        Err(status) => status,
    }
}

fn export_opened<S: Store, T: BlockTransformer>(
    rt: &HostRuntime,
    request: &Request,
    reader: &mut SstReader<S, T>,
    ids: &[Ulid],
) -> u8
    requires { string_bytes reader.now.root_path ≡ codes "db" }
{
    match Tables::open(rt.alloc(), reader, ids) {
        Ok(tables) => {
            let status = write_tables(rt, request, &tables, &mut reader.store);
            drop(tables);
            status
        }
        Err(error) => status_of(error),
    }
}

fn write_tables<S: Store>(
    rt: &HostRuntime,
    request: &Request,
    tables: &Tables,
    store: &mut S,
) -> u8 {
    let mut sink = WriterSink::new(rt.stdout());
    let mut env = Env {
        store,
        operator: request.operator,
        transformer: request.transformer(),
    };
    let written = match &request.mode {
        Mode::State => write_state(rt.alloc(), tables, &mut env, &mut sink).map(|_| ()),
        Mode::Range { range, order } => {
            if range.leaves_none() {
                return 2;
            }
            write_range(rt.alloc(), tables, range, *order, &mut env, &mut sink).map(|_| ())
        }
        Mode::Get { key } => {
            write_row_of(rt.alloc(), tables, key.as_slice(), &mut env, &mut sink)
        }
        Mode::Script => write_script(rt.alloc(), tables, &mut env, &mut sink).map(|_| ()),
    };
    match written {
        Ok(()) => 0,
        Err(error) => status_of(error),
    }
}

pub fn status_of(error: SlateDBError) -> u8 {
    let status = error.status().unwrap_or(16);
    drop(error);
    status
}
