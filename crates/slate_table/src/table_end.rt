//! What stands behind the blocks of a table.
ghost use Rattle.std.specs.Prelude.{◌≡◌, ◌≤◌, ◌++◌, length, OnOk, IfOk, IsOkUnless, option_map, option_copied};
ghost use Rattle.slate_table.specs.Parts.{cover_of, info_kind, summed};
ghost use Rattle.slate_table.specs.Table.{some_first, some_last};
ghost use Rattle.slate_table.specs.Decoded.{FitsShort, SectionsLieBefore};
ghost use Rattle.slate_table.specs.InfoReading.{seen_info};
ghost use Rattle.slate_table.specs.SectionReading.{footer_bytes};
ghost use Rattle.slate_table.specs.TableEnd.{placed_info, part_of_info, HasInfo, EndsAt};

use crate::footer::Footer;
use crate::info::SsTableInfo;
use crate::section::{INFO_KIND, SectionPlace, append_summed};
use bytes::Bytes;
use slate_types::{RowEntry, SlateDBError, Ulid};
use std::alloc::Global;

/// Where the sections behind the blocks begin. Where there are no filters, the index begins where they would.
#[derive(Clone, Copy)]
pub struct SectionOffsets {
    pub filters: u64,
    pub index: u64,
    pub stats: u64,
}

/// Appends the info and the last bytes of the table of an id and of these rows, whose sections behind the blocks begin there, the last of which
/// ends where `out` does.
pub fn append_end(
    alloc: Global,
    out: &mut Vec<u8>,
    version: u16,
    id: Ulid,
    rows: &[RowEntry],
    offsets: SectionOffsets,
) -> Result<SsTableInfo, SlateDBError>
    requires first { FitsShort (some_first rows.now) }
    requires last { FitsShort (some_last rows.now) }
    requires filters { offsets.filters ≤ offsets.index }
    requires index { offsets.index ≤ offsets.stats }
    requires stats { offsets.stats ≤ length out.old.items }
    ensures ended { IfOk result (λ info. EndsAt version id.0 rows.now offsets out.old.items out.new.items (seen_info info)) }
    ensures cause { IsOkUnless result SlateDBError.OutOfMemory }
{
    let info = placed_info(rows, offsets, out.len() as u64)?;
    match append_info(alloc, out, version, id, &info) {
        Ok(()) => Ok(info),
        Err(error) => {
            drop(info);
            Err(error)
        }
    }
}

/// The info of a table of these rows, whose sections behind the blocks begin there, the last of which ends at `end`.
fn placed_info(
    rows: &[RowEntry],
    offsets: SectionOffsets,
    end: u64,
) -> Result<SsTableInfo, SlateDBError>
    requires filters { offsets.filters ≤ offsets.index }
    requires index { offsets.index ≤ offsets.stats }
    requires stats { offsets.stats ≤ end }
    ensures value { IfOk result (λ info. seen_info info ≡ placed_info rows.now offsets end) }
    ensures cause { IsOkUnless result SlateDBError.OutOfMemory }
{
    let first_entry = key_of(rows.first())?;
    match key_of(rows.last()) {
        Ok(last_entry) => Ok(SsTableInfo {
            first_entry,
            last_entry,
            index_offset: offsets.index,
            index_len: offsets.stats - offsets.index,
            filter_offset: offsets.filters,
            filter_len: offsets.index - offsets.filters,
            stats_offset: offsets.stats,
            stats_len: end - offsets.stats,
        }),
        Err(error) => {
            drop(first_entry);
            Err(error)
        }
    }
}

/// Appends the info and the last bytes.
fn append_info(
    alloc: Global,
    out: &mut Vec<u8>,
    version: u16,
    id: Ulid,
    info: &SsTableInfo,
) -> Result<(), SlateDBError>
    requires first { FitsShort info.now.first_entry }
    requires last { FitsShort info.now.last_entry }
    ensures appended { OnOk result (out.new.items ≡ out.old.items ++ (summed (cover_of version id.0 info_kind (length out.old.items)) (part_of_info version (seen_info info.now)) ++ footer_bytes (length out.old.items) version)) }
    ensures info { OnOk result (SectionsLieBefore (length out.old.items) (seen_info info.now) → HasInfo out.new.items version id.0 (seen_info info.now)) }
    ensures cause { IsOkUnless result SlateDBError.OutOfMemory }
{
    let info_offset = out.len() as u64;
    let place = SectionPlace {
        version,
        id,
        kind: INFO_KIND,
        offset: info_offset,
    };
    let part = info.encode(alloc, version)?;
    let summed = append_summed(out, place, part.as_slice());
    drop(part);
    match summed {
        Ok(()) => Footer {
            info_offset,
            version,
        }
        .encode(out),
        Err(error) => Err(error),
    }
}

/// The key of a row, where there is one.
fn key_of(row: Option<&RowEntry>) -> Result<Option<Bytes>, SlateDBError>
    ensures value { IfOk result (λ key. key ≡ option_map (λ r. r.key) (option_copied row.entry)) }
    ensures cause { IsOkUnless result SlateDBError.OutOfMemory }
{
    match row {
        Some(row) => row.key.clone().map(Some).map_err(SlateDBError::from),
        None => Ok(None),
    }
}
