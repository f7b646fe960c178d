//! Whether a table is whole: each of its sections is read, and each block.
ghost use Rattle.std.specs.Prelude.{◌≡◌, ◌<◌, ◌+◌, ℕ, List, length, string_bytes, IfOk, IfErr};
ghost use Rattle.std.specs.Prelude.{IsTrue, ◌↔◌, Err};
ghost use Rattle.slate_types.specs.declared.types.RowEntry.{RowEntry};
ghost use Rattle.slate_types.specs.Outside.{IsFault, IsStill, OnlyReads, Reach};
ghost use Rattle.slate_table.specs.FileLaws.{table_stats};
ghost use Rattle.slate_table.specs.IndexValue.{entries_of};
ghost use Rattle.slate_table.specs.Reading.{block_start};
ghost use Rattle.slate_table.specs.StatsReading.{stats_of};
ghost use Rattle.slate_tables.specs.Alarms.{NoFalseAlarm};
ghost use Rattle.slate_tables.specs.Checks.{HasBlocks, HasParts, IsChecked, IsRead, IsTallied};
ghost use Rattle.slate_tables.specs.Checks.{IsTallyOf, Tells, seen_summary};
ghost use Rattle.slate_tables.specs.Finds.{Asked, FindsEntries, FindsStats, OpensTo, asked_of};
ghost use Rattle.slate_tables.specs.Finds.{reader_reach};
ghost use Rattle.slate_tables.specs.Good.{AreGood, counted, rows_of, summary_of};
ghost use Rattle.slate_tables.specs.Tallies.{IsSpan, IsTally};

use crate::rows::block_rows;
use crate::tally::{Span, Tally};
use bytes::Bytes;
use slate_store::Store;
use slate_table::derived::equal_sst_stats;
use slate_table::{SstFile, SstIndex, SstReader, SstStats, TableStore};
use slate_types::{BlockTransformer, SlateDBError, Ulid};
use std::alloc::Global;

/// The parts of a table, in the order in which they are read: the last bytes and the info that they
/// lead to, the statistics, the index, the filters, and each block, numbered from 0.
#[derive(Clone, Copy, PartialEq, Eq)]
pub enum Part {
    Info,
    Stats,
    Index,
    Filters,
    Block(u64),
}

/// Where a check stopped: the part, the offset of its section, if that is known, and the error that
/// a reader of it meets. Parts that are read and disagree have `CorruptTable` at 0.
#[derive(Drop)]
pub struct Flaw {
    pub part: Part,
    pub offset: Option<u64>,
    pub error: SlateDBError,
}

/// What a whole table has: its version, how many rows, their least and greatest sequence, and the
/// first and the last key.
#[derive(Drop)]
pub struct TableSummary {
    pub version: u16,
    pub rows: u64,
    pub least: u64,
    pub greatest: u64,
    pub first: Option<Bytes>,
    pub last: Option<Bytes>,
}

/// What blocks add up to, or what is wrong with one of them.
#[derive(Drop)]
enum Tallied {
    Good(Tally),
    Flawed(Flaw),
}

/// What a check says of a table.
#[derive(Drop)]
pub enum Checked {
    Whole(TableSummary),
    Damaged(Flaw),
}

/// Reads the table of an id, each section and each block, and compares what they say.
pub fn check_table<S: Store, T: BlockTransformer>(
    alloc: Global,
    reader: &mut SstReader<S, T>,
    id: Ulid,
) -> Result<Checked, SlateDBError>
    ensures said { let reach = reader_reach S.Store T.BlockTransformer in
        (begun : Reach) (root : List ℕ) → root ≡ string_bytes reader.old.root_path →
        OnlyReads begun (reach reader.old) →
        IfOk result (IsChecked (asked_of begun root (reach reader.new).acts) id.0) }
    ensures root { reader.new.root_path ≡ reader.old.root_path }
    ensures cause { let reach = reader_reach S.Store T.BlockTransformer in
        IfErr result (IsFault (reach reader.old) (reach reader.new)) }
    ensures reads { let reach = reader_reach S.Store T.BlockTransformer in
        OnlyReads (reach reader.old) (reach reader.new) }
    ensures counts { let reach = reader_reach S.Store T.BlockTransformer in
        IsStill (reach reader.old).faults (reach reader.new).faults result }
{
    match reader.open(alloc, id) {
        Ok(file) => {
            let checked = check_stats(alloc, reader, &file);
            drop(file);
            checked
        }
        Err(error) => refused(Part::Info, None, error),
    }
}

/// Goes on with the statistics.
fn check_stats<S: Store, T: BlockTransformer>(
    alloc: Global,
    reader: &mut SstReader<S, T>,
    file: &SstFile,
) -> Result<Checked, SlateDBError>
    ensures said { let reach = reader_reach S.Store T.BlockTransformer in
        (begun : Reach) (root : List ℕ) → root ≡ string_bytes reader.old.root_path →
        OnlyReads begun (reach reader.old) →
        OpensTo (asked_of begun root (reach reader.old).acts) file.now.handle →
        IfOk result (IsChecked (asked_of begun root (reach reader.new).acts) file.now.handle.id.0) }
    ensures root { reader.new.root_path ≡ reader.old.root_path }
    ensures cause { let reach = reader_reach S.Store T.BlockTransformer in
        IfErr result (IsFault (reach reader.old) (reach reader.new)) }
    ensures reads { let reach = reader_reach S.Store T.BlockTransformer in
        OnlyReads (reach reader.old) (reach reader.new) }
    ensures counts { let reach = reader_reach S.Store T.BlockTransformer in
        IsStill (reach reader.old).faults (reach reader.new).faults result }
{
    let offset = file.handle.info.stats_offset;
    match file.stats(alloc, reader) {
        Ok(found) => match found {
            Some(stats) => {
                let checked = check_index(alloc, reader, file, &stats);
                drop(stats);
                checked
            }
            None => Ok(torn(Part::Stats, Some(offset))),
        },
        Err(error) => refused(Part::Stats, Some(offset), error),
    }
}

/// Goes on with the index.
fn check_index<S: Store, T: BlockTransformer>(
    alloc: Global,
    reader: &mut SstReader<S, T>,
    file: &SstFile,
    stats: &SstStats,
) -> Result<Checked, SlateDBError>
    ensures said { let reach = reader_reach S.Store T.BlockTransformer in
        (begun : Reach) (root : List ℕ) → root ≡ string_bytes reader.old.root_path →
        OnlyReads begun (reach reader.old) →
        OpensTo (asked_of begun root (reach reader.old).acts) file.now.handle →
        FindsStats (asked_of begun root (reach reader.old).acts) file.now.handle
        (stats_of stats.now) →
        IfOk result (IsChecked (asked_of begun root (reach reader.new).acts) file.now.handle.id.0) }
    ensures root { reader.new.root_path ≡ reader.old.root_path }
    ensures cause { let reach = reader_reach S.Store T.BlockTransformer in
        IfErr result (IsFault (reach reader.old) (reach reader.new)) }
    ensures reads { let reach = reader_reach S.Store T.BlockTransformer in
        OnlyReads (reach reader.old) (reach reader.new) }
    ensures counts { let reach = reader_reach S.Store T.BlockTransformer in
        IsStill (reach reader.old).faults (reach reader.new).faults result }
{
    match file.index(alloc, reader) {
        Ok(index) => {
            let checked = check_filters(alloc, reader, file, stats, &index);
            drop(index);
            checked
        }
        Err(error) => refused(Part::Index, Some(file.handle.info.index_offset), error),
    }
}

/// Goes on with the filters.
fn check_filters<S: Store, T: BlockTransformer>(
    alloc: Global,
    reader: &mut SstReader<S, T>,
    file: &SstFile,
    stats: &SstStats,
    index: &SstIndex,
) -> Result<Checked, SlateDBError>
    ensures said { let reach = reader_reach S.Store T.BlockTransformer in
        (begun : Reach) (root : List ℕ) → root ≡ string_bytes reader.old.root_path →
        OnlyReads begun (reach reader.old) →
        OpensTo (asked_of begun root (reach reader.old).acts) file.now.handle →
        FindsStats (asked_of begun root (reach reader.old).acts) file.now.handle
        (stats_of stats.now) →
        FindsEntries (asked_of begun root (reach reader.old).acts) file.now.handle
        (entries_of index.now) →
        IfOk result (IsChecked (asked_of begun root (reach reader.new).acts) file.now.handle.id.0) }
    ensures root { reader.new.root_path ≡ reader.old.root_path }
    ensures cause { let reach = reader_reach S.Store T.BlockTransformer in
        IfErr result (IsFault (reach reader.old) (reach reader.new)) }
    ensures reads { let reach = reader_reach S.Store T.BlockTransformer in
        OnlyReads (reach reader.old) (reach reader.new) }
    ensures counts { let reach = reader_reach S.Store T.BlockTransformer in
        IsStill (reach reader.old).faults (reach reader.new).faults result }
{
    let root = reader.root_path.as_str();
    let transformer = &mut reader.transformer;
    match TableStore::read_filters(alloc, &mut reader.store, root, &file.handle, transformer) {
        Ok(filters) => {
            drop(filters);
            check_blocks(alloc, reader, file, stats, index)
        }
        Err(error) => refused(Part::Filters, Some(file.handle.info.filter_offset), error),
    }
}

/// Goes on with the blocks, and compares what they add up to.
fn check_blocks<S: Store, T: BlockTransformer>(
    alloc: Global,
    reader: &mut SstReader<S, T>,
    file: &SstFile,
    stats: &SstStats,
    index: &SstIndex,
) -> Result<Checked, SlateDBError>
    ensures said { let reach = reader_reach S.Store T.BlockTransformer in
        (begun : Reach) (root : List ℕ) → root ≡ string_bytes reader.old.root_path →
        OnlyReads begun (reach reader.old) →
        HasParts (asked_of begun root (reach reader.old).acts) file.now.handle (stats_of stats.now)
        (entries_of index.now) →
        IfOk result (IsChecked (asked_of begun root (reach reader.new).acts) file.now.handle.id.0) }
    ensures root { reader.new.root_path ≡ reader.old.root_path }
    ensures cause { let reach = reader_reach S.Store T.BlockTransformer in
        IfErr result (IsFault (reach reader.old) (reach reader.new)) }
    ensures reads { let reach = reader_reach S.Store T.BlockTransformer in
        OnlyReads (reach reader.old) (reach reader.new) }
    ensures counts { let reach = reader_reach S.Store T.BlockTransformer in
        IsStill (reach reader.old).faults (reach reader.new).faults result }
{
    match tally_blocks(alloc, reader, file, index) {
        Ok(tallied) => Ok(outcome(file, stats, tallied)),
        Err(error) => Err(error),
    }
}

/// What is said of a table whose blocks were read, or of which one is flawed.
fn outcome(file: &SstFile, stats: &SstStats, tallied: Tallied) -> Checked
    ensures { (w : Asked) (entries : List (ℕ × List ℕ)) →
        HasParts w file.now.handle (stats_of stats.now) entries →
        IsTallied w file.now.handle entries (length entries) tallied →
        IsChecked w file.now.handle.id.0 result }
{
    match tallied {
        Tallied::Good(tally) => compared(file, stats, tally),
        Tallied::Flawed(flaw) => Checked::Damaged(flaw),
    }
}

/// What the rows of all blocks add up to, or what is wrong with the first block that isn't good.
fn tally_blocks<S: Store, T: BlockTransformer>(
    alloc: Global,
    reader: &mut SstReader<S, T>,
    file: &SstFile,
    index: &SstIndex,
) -> Result<Tallied, SlateDBError>
    ensures said { let reach = reader_reach S.Store T.BlockTransformer in
        (begun : Reach) (root : List ℕ) → root ≡ string_bytes reader.old.root_path →
        OnlyReads begun (reach reader.old) →
        IfOk result (IsTallied (asked_of begun root (reach reader.new).acts) file.now.handle
        (entries_of index.now) (length (entries_of index.now))) }
    ensures root { reader.new.root_path ≡ reader.old.root_path }
    ensures cause { let reach = reader_reach S.Store T.BlockTransformer in
        IfErr result (IsFault (reach reader.old) (reach reader.new)) }
    ensures reads { let reach = reader_reach S.Store T.BlockTransformer in
        OnlyReads (reach reader.old) (reach reader.new) }
    ensures counts { let reach = reader_reach S.Store T.BlockTransformer in
        IsStill (reach reader.old).faults (reach reader.new).faults result }
{
    let mut tally = Tally::new(alloc);
    for block in 0..index.len() {
        match tally_block(alloc, reader, file, index, block, tally)? {
            Tallied::Good(next) => tally = next,
            Tallied::Flawed(flaw) => return Ok(Tallied::Flawed(flaw)),
        }
    }
    Ok(Tallied::Good(tally))
}

/// Reads a block, and adds its rows to those before it.
fn tally_block<S: Store, T: BlockTransformer>(
    alloc: Global,
    reader: &mut SstReader<S, T>,
    file: &SstFile,
    index: &SstIndex,
    block: usize,
    tally: Tally,
) -> Result<Tallied, SlateDBError>
    requires { block < length (entries_of index.now) }
    ensures said { let reach = reader_reach S.Store T.BlockTransformer in
        (begun : Reach) (root : List ℕ) (blocks : List (List RowEntry)) →
        root ≡ string_bytes reader.old.root_path → OnlyReads begun (reach reader.old) →
        HasBlocks (asked_of begun root (reach reader.old).acts) file.now.handle
        (entries_of index.now) blocks →
        length blocks ≡ block → IsTally blocks tally →
        IfOk result (IsTallied (asked_of begun root (reach reader.new).acts) file.now.handle
        (entries_of index.now) (block + 1)) }
    ensures root { reader.new.root_path ≡ reader.old.root_path }
    ensures cause { let reach = reader_reach S.Store T.BlockTransformer in
        IfErr result (IsFault (reach reader.old) (reach reader.new)) }
    ensures reads { let reach = reader_reach S.Store T.BlockTransformer in
        OnlyReads (reach reader.old) (reach reader.new) }
    ensures counts { let reach = reader_reach S.Store T.BlockTransformer in
        IsStill (reach reader.old).faults (reach reader.new).faults result }
{
    let offset = Some(offset_of(index, file.handle.info.filter_offset, block));
    match block_rows(alloc, reader, &file.handle, index, block) {
        Ok(rows) => {
            let added = tally.with_block(rows.as_slice());
            drop(rows);
            outcome_of(added, block, offset)
        }
        Err(error) => {
            drop(tally);
            flawed(block, offset, error)
        }
    }
}

/// A block that was refused.
fn flawed(block: usize, offset: Option<u64>, error: SlateDBError) -> Result<Tallied, SlateDBError>
    ensures { Tells (λ f. Tallied.Flawed f) (record {
      part = Part.Block block;
      offset = offset;
      error = error;
    }) result }
{
    match flaw_of(Part::Block(block as u64), offset, error) {
        Ok(flaw) => Ok(Tallied::Flawed(flaw)),
        Err(error) => Err(error),
    }
}

/// Where the section of a block begins, or the blocks' end after the last one.
fn offset_of(index: &SstIndex, end: u64, block: usize) -> u64
    ensures { result ≡ block_start end (entries_of index.now) block }
{
    match index.get(block) {
        Some((offset, _)) => offset,
        None => end,
    }
}

fn outcome_of(
    added: Result<Option<Tally>, SlateDBError>,
    block: usize,
    offset: Option<u64>,
) -> Result<Tallied, SlateDBError>
    ensures good { IfOk result (IsTallyOf added block offset) }
    ensures cause { IfErr result (λ e. added ≡ Err e) }
{
    match added {
        Ok(Some(tally)) => Ok(Tallied::Good(tally)),
        Ok(None) => Ok(Tallied::Flawed(disagreement(Part::Block(block as u64), offset))),
        Err(error) => Err(error),
    }
}

/// Compares the sums of the rows with the statistics, and their first and last key with those of
/// the info.
fn compared(file: &SstFile, stats: &SstStats, tally: Tally) -> Checked
    ensures { (w : Asked) (blocks : List (List RowEntry)) → OpensTo w file.now.handle →
        IsRead w file.now.handle (stats_of stats.now) blocks → IsTally blocks tally →
        IsChecked w file.now.handle.id.0 result }
{
    let Tally {
        stats: counted,
        span,
    } = tally;
    let same = equal_sst_stats(&counted, stats);
    drop(counted);
    if same {
        return summed_up(file, stats.num_rows(), span);
    }
    drop(span);
    torn(Part::Stats, Some(file.handle.info.stats_offset))
}

/// Compares the first and the last key of the rows with those of the info.
fn summed_up(file: &SstFile, rows: u64, span: Option<Span>) -> Checked
    ensures { (w : Asked) (blocks : List (List RowEntry)) → OpensTo w file.now.handle →
        IsRead w file.now.handle (table_stats blocks) blocks → AreGood blocks →
        IsSpan (rows_of blocks) span →
        rows ≡ counted (rows_of blocks) → IsChecked w file.now.handle.id.0 result }
{
    let summary = summary_of(file.handle.format_version, rows, span);
    if has_keys(file, &summary) {
        return Checked::Whole(summary);
    }
    drop(summary);
    torn(Part::Info, None)
}

/// What a table of rows with this span has.
fn summary_of(version: u16, rows: u64, span: Option<Span>) -> TableSummary
    ensures { (all : List RowEntry) → IsSpan all span → rows ≡ counted all →
        seen_summary result ≡ summary_of version all }
{
    match span {
        None => TableSummary {
            version,
            rows,
            least: 0,
            greatest: 0,
            first: None,
            last: None,
        },
        Some(
            Span {
                first,
                last,
                last_seq: _,
                least,
                greatest,
            },
        ) => TableSummary {
            version,
            rows,
            least,
            greatest,
            first: Some(first),
            last: Some(last),
        },
    }
}

/// Whether the info has these keys.
fn has_keys(file: &SstFile, summary: &TableSummary) -> bool
    ensures { IsTrue result ↔ ((file.now.handle.info.first_entry ≡ summary.now.first)
        × (file.now.handle.info.last_entry ≡ summary.now.last)) }
{
    file.handle.info.first_entry == summary.first && file.handle.info.last_entry == summary.last
}

/// A part that was refused: a fault ends the check, and anything else is what the check says.
fn refused(part: Part, offset: Option<u64>, error: SlateDBError) -> Result<Checked, SlateDBError>
    ensures { Tells (λ f. Checked.Damaged f) (record {
      part = part;
      offset = offset;
      error = error;
    }) result }
{
    match flaw_of(part, offset, error) {
        Ok(flaw) => Ok(Checked::Damaged(flaw)),
        Err(error) => Err(error),
    }
}

/// Tells a fault from damage: `StoreFault`, `BlockTransformError` and `OutOfMemory` stay errors,
/// and any other is a flaw of the part.
pub(crate) fn flaw_of(
    part: Part,
    offset: Option<u64>,
    error: SlateDBError,
) -> Result<Flaw, SlateDBError>
    ensures { Tells (λ f. f) (record { part = part; offset = offset; error = error }) result }
{
    match error {
        SlateDBError::OutOfMemory => Err(SlateDBError::OutOfMemory),
        SlateDBError::StoreFault => Err(SlateDBError::StoreFault),
        SlateDBError::BlockTransformError => Err(SlateDBError::BlockTransformError),
        error => Ok(Flaw {
            part,
            offset,
            error,
        }),
    }
}

fn torn(part: Part, offset: Option<u64>) -> Checked
    ensures { result ≡ Checked.Damaged (record {
      part = part;
      offset = offset;
      error = SlateDBError.CorruptTable 0;
    }) }
{
    Checked::Damaged(disagreement(part, offset))
}

/// That of parts that are read and disagree.
pub(crate) fn disagreement(part: Part, offset: Option<u64>) -> Flaw
    ensures { result ≡ record {
      part = part;
      offset = offset;
      error = SlateDBError.CorruptTable 0;
    } }
{
    Flaw {
        part,
        offset,
        error: SlateDBError::CorruptTable { place: 0 },
    }
}

/// Says that a check raises no false alarm: over a store that holds a table of the id it finds no
/// flaw.
pub fn no_false_alarm()
    ensures { NoFalseAlarm }
{}
