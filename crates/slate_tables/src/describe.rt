//! What a table says of itself: its info, its statistics and its filters' names. No block is read.
ghost use Rattle.std.specs.Prelude.{◌≡◌, IfErr};
ghost use Rattle.slate_types.specs.Outside.{IsStill, OnlyReads};
ghost use Rattle.slate_tables.specs.Checks.{Tells};
ghost use Rattle.slate_tables.specs.Finds.{reader_reach};

use crate::check::{Flaw, Part, disagreement, flaw_of};
use bytes::Bytes;
use slate_filter::NamedFilter;
use slate_store::Store;
use slate_table::{SstFile, SstReader, SstStats, TableStore};
use slate_types::{BlockTransformer, SlateDBError, Ulid};
use std::alloc::Global;

/// What a table says of itself: its version, its size in bytes, how many rows of each kind, the
/// first and the last key, and the names of its filters.
#[derive(Drop)]
pub struct Description {
    pub version: u16,
    pub size: u64,
    pub puts: u64,
    pub deletes: u64,
    pub merges: u64,
    pub first: Option<Bytes>,
    pub last: Option<Bytes>,
    pub filters: Vec<NamedFilter>,
}

/// What is said of a table that is listed.
#[derive(Drop)]
pub enum Described {
    Table(Description),
    Damaged(Flaw),
}

/// Reads what the table of an id says of itself.
pub fn describe_table<S: Store, T: BlockTransformer>(
    alloc: Global,
    reader: &mut SstReader<S, T>,
    id: Ulid,
) -> Result<Described, SlateDBError>
    ensures reads { let reach = reader_reach S.Store T.BlockTransformer in
        OnlyReads (reach reader.old) (reach reader.new) }
    ensures counts { let reach = reader_reach S.Store T.BlockTransformer in
        IsStill (reach reader.old).faults (reach reader.new).faults result }
{
    match reader.open(alloc, id) {
        Ok(file) => {
            let described = describe_stats(alloc, reader, &file);
            drop(file);
            described
        }
        Err(error) => refused(Part::Info, None, error),
    }
}

fn describe_stats<S: Store, T: BlockTransformer>(
    alloc: Global,
    reader: &mut SstReader<S, T>,
    file: &SstFile,
) -> Result<Described, SlateDBError>
    ensures reads { let reach = reader_reach S.Store T.BlockTransformer in
        OnlyReads (reach reader.old) (reach reader.new) }
    ensures counts { let reach = reader_reach S.Store T.BlockTransformer in
        IsStill (reach reader.old).faults (reach reader.new).faults result }
{
    let offset = Some(file.handle.info.stats_offset);
    match file.stats(alloc, reader) {
        Ok(found) => match found {
            Some(stats) => {
                let described = describe_filters(alloc, reader, file, &stats);
                drop(stats);
                described
            }
            None => Ok(Described::Damaged(disagreement(Part::Stats, offset))),
        },
        Err(error) => refused(Part::Stats, offset, error),
    }
}

fn describe_filters<S: Store, T: BlockTransformer>(
    alloc: Global,
    reader: &mut SstReader<S, T>,
    file: &SstFile,
    stats: &SstStats,
) -> Result<Described, SlateDBError>
    ensures reads { let reach = reader_reach S.Store T.BlockTransformer in
        OnlyReads (reach reader.old) (reach reader.new) }
    ensures counts { let reach = reader_reach S.Store T.BlockTransformer in
        IsStill (reach reader.old).faults (reach reader.new).faults result }
{
    let root = reader.root_path.as_str();
    let transformer = &mut reader.transformer;
    match TableStore::read_filters(alloc, &mut reader.store, root, &file.handle, transformer) {
        Ok(filters) => describe_size(alloc, reader, file, stats, filters),
        Err(error) => refused(Part::Filters, Some(file.handle.info.filter_offset), error),
    }
}

fn describe_size<S: Store, T: BlockTransformer>(
    alloc: Global,
    reader: &mut SstReader<S, T>,
    file: &SstFile,
    stats: &SstStats,
    filters: Vec<NamedFilter>,
) -> Result<Described, SlateDBError>
    ensures reads { let reach = reader_reach S.Store T.BlockTransformer in
        OnlyReads (reach reader.old) (reach reader.new) }
    ensures counts { let reach = reader_reach S.Store T.BlockTransformer in
        IsStill (reach reader.old).faults (reach reader.new).faults result }
{
    match file.metadata(alloc, reader) {
        Ok(metadata) => description_of(file, metadata.size, stats, filters),
        Err(error) => {
            drop(filters);
            refused(Part::Info, None, error)
        }
    }
}

fn description_of(
    file: &SstFile,
    size: u64,
    stats: &SstStats,
    filters: Vec<NamedFilter>,
) -> Result<Described, SlateDBError>
    ensures { IfErr result (λ e. e ≡ SlateDBError.OutOfMemory) }
{
    match file.handle.info.clone() {
        Ok(info) => Ok(Described::Table(Description {
            version: file.handle.format_version,
            size,
            puts: stats.num_puts,
            deletes: stats.num_deletes,
            merges: stats.num_merges,
            first: info.first_entry,
            last: info.last_entry,
            filters,
        })),
        Err(error) => {
            drop(filters);
            Err(SlateDBError::from(error))
        }
    }
}

fn refused(part: Part, offset: Option<u64>, error: SlateDBError) -> Result<Described, SlateDBError>
    ensures { Tells (λ f. Described.Damaged f) (record {
      part = part;
      offset = offset;
      error = error;
    }) result }
{
    match flaw_of(part, offset, error) {
        Ok(flaw) => Ok(Described::Damaged(flaw)),
        Err(error) => Err(error),
    }
}
