//! The program: its words, and the status that it ends with.
ghost use Rattle.std.specs.Prelude.{◌≡◌, ◌⊎◌, ◌<◌, length, unwrap_or};
ghost use Rattle.slate_types.specs.ExitStatus as exit;
ghost use Rattle.slate_types.specs.Outside.{AddsReads};
ghost use Rattle.slate_table.specs.IndexValue.{entries_of};
ghost use Rattle.slate_tables.specs.Finds.{reader_reach};
ghost use Rattle.slate_tables.specs.Runs.{GoesOver, WritesLines};

use crate::check::{Checked, Flaw, check_table};
use crate::describe::{Described, describe_table};
use crate::lines::{
    description_line, flaw_line, flush_of, other_line, place_of, row_line, summary_line, total_line,
};
use crate::listing::{Listing, list_tables};
use crate::rows::block_rows;
use slate_language::{Xor, parse_words, read_number};
use slate_store::{PathText, Sink, Store, write_all};
use slate_table::{SstFile, SstIndex, SstReader};
use slate_types::{BlockTransformer, RowEntry, SlateDBError, Ulid};
use std::alloc::{AllocError, Global};

/// What is asked for.
#[derive(Clone, Copy)]
enum Mode {
    List,
    Check,
    /// The rows of all tables, of a flush's, or of one place of a flush.
    Rows(Option<u64>, Option<u64>),
}

/// What was found so far: how many tables, how many of them are damaged, how many rows the others
/// have, and the status of the first damage.
#[derive(Clone, Copy)]
struct Found {
    tables: u64,
    damaged: u64,
    rows: u64,
    status: u8,
}

/// Runs over the tables of a store, as the words say: a mode, for `rows` the numbers that it takes,
/// and the words of the run that left the tables, of which those of filters aren't looked at.
/// Answers the status to end with: 0 if nothing is damaged, 2 if the words aren't known, 6 for
/// `WriteFault`, 7 for `StoreFault`, 20 for want of memory, and otherwise that of the first damage,
/// 16 for an error that no run ends with. The reader brings no transformer. It puts nothing in the
/// store, and passes over no failure of store or sink.
pub fn run_tables<S: Store, W: Sink>(
    alloc: Global,
    words: Vec<String>,
    sink: &mut W,
    reader: &mut SstReader<S, Xor>,
) -> u8
    ensures objects { S.objects reader.new.store ≡ S.objects reader.old.store }
    ensures acts { AddsReads (S.acts reader.old.store) (S.acts reader.new.store) }
    ensures store { (result ≡ 7) ⊎ (S.faults reader.new.store ≡ S.faults reader.old.store) }
    ensures sink { (result ≡ 6) ⊎ (W.faults sink.new ≡ W.faults sink.old) }
{
    let mut words = words;
    words.retain(|word| !is_of_filters(word.as_bytes()));
    match read_request(words.as_slice()) {
        Some(request) => {
            reader.transformer = transformer_of(request.mask);
            run_to_end(alloc, request.mode, sink, reader)
        }
        None => 2,
    }
}

/// What is asked for, and by which number stored bytes are changed.
#[derive(Clone, Copy)]
struct Request {
    mode: Mode,
    mask: Option<u8>,
}

fn read_request(words: &[String]) -> Option<Request> {
    let (mode, rest) = read_mode(words)?;
    let settings = parse_words(rest, &[])?;
    Some(Request {
        mode,
        mask: settings.mask,
    })
}

fn is_of_filters(word: &[u8]) -> bool {
    word.starts_with(b"filter=".as_slice())
}

/// Runs over all tables, and answers the status to end with.
fn run_to_end<S: Store, T: BlockTransformer, W: Sink>(
    alloc: Global,
    mode: Mode,
    sink: &mut W,
    reader: &mut SstReader<S, T>,
) -> u8
    ensures objects { S.objects reader.new.store ≡ S.objects reader.old.store }
    ensures acts { AddsReads (S.acts reader.old.store) (S.acts reader.new.store) }
    ensures store { (result ≡ 7) ⊎ (S.faults reader.new.store ≡ S.faults reader.old.store) }
    ensures sink { (result ≡ 6) ⊎ (W.faults sink.new ≡ W.faults sink.old) }
{
    match run_mode(alloc, mode, sink, reader) {
        Ok(found) => found.status,
        Err(error) => {
            let status = status_of(&error);
            drop(error);
            status
        }
    }
}

/// The status of a run that the error ended.
fn status_of(error: &SlateDBError) -> u8
    ensures { result ≡ unwrap_or (exit.status error.now) 16 }
{
    error.status().unwrap_or(16)
}

/// The transformer of a word `xor=`, if there is one.
fn transformer_of(mask: Option<u8>) -> Option<Xor> {
    match mask {
        None => None,
        Some(mask) => Some(Xor { mask }),
    }
}

/// What the first words ask for, and the words behind them.
fn read_mode(words: &[String]) -> Option<(Mode, &[String])> {
    let (first, rest) = words.split_first()?;
    match first.as_bytes() {
        b"list" => Some((Mode::List, rest)),
        b"check" => Some((Mode::Check, rest)),
        b"rows" => Some(read_rows(rest)),
        _ => None,
    }
}

/// The numbers of a flush and of a place, if there are such.
fn read_rows(words: &[String]) -> (Mode, &[String]) {
    match number_first(words) {
        None => (Mode::Rows(None, None), words),
        Some((flush, rest)) => match number_first(rest) {
            None => (Mode::Rows(Some(flush), None), rest),
            Some((place, rest)) => (Mode::Rows(Some(flush), Some(place)), rest),
        },
    }
}

fn number_first(words: &[String]) -> Option<(u64, &[String])> {
    let (first, rest) = words.split_first()?;
    let number = read_number(first.as_bytes())?;
    Some((number, rest))
}

/// Runs over the tables that the store lists.
fn run_mode<S: Store, T: BlockTransformer, W: Sink>(
    alloc: Global,
    mode: Mode,
    sink: &mut W,
    reader: &mut SstReader<S, T>,
) -> Result<Found, SlateDBError>
    ensures { let reach = reader_reach S.Store T.BlockTransformer in
        GoesOver (reach reader.old) (reach reader.new) (W.faults sink.old)
        (W.faults sink.new) result }
{
    match list_tables(alloc, &mut reader.store, reader.root_path.as_str()) {
        Ok(listing) => {
            let found = run_over(alloc, mode, sink, reader, &listing);
            drop(listing);
            found
        }
        Err(error) => Err(error),
    }
}

fn run_over<S: Store, T: BlockTransformer, W: Sink>(
    alloc: Global,
    mode: Mode,
    sink: &mut W,
    reader: &mut SstReader<S, T>,
    listing: &Listing,
) -> Result<Found, SlateDBError>
    ensures { let reach = reader_reach S.Store T.BlockTransformer in
        GoesOver (reach reader.old) (reach reader.new) (W.faults sink.old)
        (W.faults sink.new) result }
{
    match run_each(alloc, mode, sink, reader, listing.tables.as_slice()) {
        Ok(found) => write_end(alloc, mode, sink, listing.others.as_slice(), found),
        Err(error) => Err(error),
    }
}

/// Runs over each table that the words name.
fn run_each<S: Store, T: BlockTransformer, W: Sink>(
    alloc: Global,
    mode: Mode,
    sink: &mut W,
    reader: &mut SstReader<S, T>,
    tables: &[Ulid],
) -> Result<Found, SlateDBError>
    ensures { let reach = reader_reach S.Store T.BlockTransformer in
        GoesOver (reach reader.old) (reach reader.new) (W.faults sink.old)
        (W.faults sink.new) result }
{
    let mut found = Found {
        tables: 0,
        damaged: 0,
        rows: 0,
        status: 0,
    };
    for id in tables {
        match run_table(alloc, mode, sink, reader, *id, found) {
            Ok(next) => found = next,
            Err(error) => return Err(error),
        }
    }
    Ok(found)
}

/// Writes the lines behind those of tables.
fn write_end<W: Sink>(
    alloc: Global,
    mode: Mode,
    sink: &mut W,
    others: &[PathText],
    found: Found,
) -> Result<Found, SlateDBError>
    ensures { WritesLines (W.faults sink.old) (W.faults sink.new) result }
{
    match write_others(alloc, mode, sink, others) {
        Ok(()) => {
            let line = total_line(alloc, found.tables, found.damaged, found.rows);
            write_last(sink, line, found)
        }
        Err(error) => Err(error),
    }
}

/// Whether the table is one that the words name.
fn is_asked(mode: Mode, id: Ulid) -> bool {
    match mode {
        Mode::List | Mode::Check => true,
        Mode::Rows(flush, place) => is_among(flush, flush_of(id)) && is_among(place, place_of(id)),
    }
}

fn is_among(wanted: Option<u64>, number: u64) -> bool {
    match wanted {
        None => true,
        Some(wanted) => wanted == number,
    }
}

/// Runs over a table, if it is one that the words name.
fn run_table<S: Store, T: BlockTransformer, W: Sink>(
    alloc: Global,
    mode: Mode,
    sink: &mut W,
    reader: &mut SstReader<S, T>,
    id: Ulid,
    found: Found,
) -> Result<Found, SlateDBError>
    ensures { let reach = reader_reach S.Store T.BlockTransformer in
        GoesOver (reach reader.old) (reach reader.new) (W.faults sink.old)
        (W.faults sink.new) result }
{
    if !is_asked(mode, id) {
        return Ok(found);
    }
    match mode {
        Mode::List => list_table(alloc, sink, reader, id, found),
        Mode::Check => show_check(alloc, sink, reader, id, found),
        Mode::Rows(_, _) => show_rows(alloc, sink, reader, id, found),
    }
}

/// Writes the line of a table that is listed.
fn list_table<S: Store, T: BlockTransformer, W: Sink>(
    alloc: Global,
    sink: &mut W,
    reader: &mut SstReader<S, T>,
    id: Ulid,
    found: Found,
) -> Result<Found, SlateDBError>
    ensures { let reach = reader_reach S.Store T.BlockTransformer in
        GoesOver (reach reader.old) (reach reader.new) (W.faults sink.old)
        (W.faults sink.new) result }
{
    match describe_table(alloc, reader, id) {
        Ok(described) => write_described(alloc, sink, id, described, found),
        Err(error) => Err(error),
    }
}

fn write_described<W: Sink>(
    alloc: Global,
    sink: &mut W,
    id: Ulid,
    described: Described,
    found: Found,
) -> Result<Found, SlateDBError>
    ensures { WritesLines (W.faults sink.old) (W.faults sink.new) result }
{
    match described {
        Described::Table(table) => {
            let line = description_line(alloc, id, &table);
            let rows = table
                .puts
                .saturating_add(table.deletes)
                .saturating_add(table.merges);
            drop(table);
            write_last(sink, line, with_rows(found, rows))
        }
        Described::Damaged(flaw) => write_flaw(alloc, sink, id, flaw, found),
    }
}

/// Writes the line of a table that is checked.
fn show_check<S: Store, T: BlockTransformer, W: Sink>(
    alloc: Global,
    sink: &mut W,
    reader: &mut SstReader<S, T>,
    id: Ulid,
    found: Found,
) -> Result<Found, SlateDBError>
    ensures { let reach = reader_reach S.Store T.BlockTransformer in
        GoesOver (reach reader.old) (reach reader.new) (W.faults sink.old)
        (W.faults sink.new) result }
{
    match check_table(alloc, reader, id) {
        Ok(checked) => write_checked(alloc, sink, id, checked, found),
        Err(error) => Err(error),
    }
}

fn write_checked<W: Sink>(
    alloc: Global,
    sink: &mut W,
    id: Ulid,
    checked: Checked,
    found: Found,
) -> Result<Found, SlateDBError>
    ensures { WritesLines (W.faults sink.old) (W.faults sink.new) result }
{
    match checked {
        Checked::Whole(summary) => {
            let line = summary_line(alloc, id, &summary);
            let rows = summary.rows;
            drop(summary);
            write_last(sink, line, with_rows(found, rows))
        }
        Checked::Damaged(flaw) => write_flaw(alloc, sink, id, flaw, found),
    }
}

/// Writes the rows of a table, and of one that is damaged the line of its damage.
fn show_rows<S: Store, T: BlockTransformer, W: Sink>(
    alloc: Global,
    sink: &mut W,
    reader: &mut SstReader<S, T>,
    id: Ulid,
    found: Found,
) -> Result<Found, SlateDBError>
    ensures { let reach = reader_reach S.Store T.BlockTransformer in
        GoesOver (reach reader.old) (reach reader.new) (W.faults sink.old)
        (W.faults sink.new) result }
{
    match check_table(alloc, reader, id) {
        Ok(checked) => rows_of_checked(alloc, sink, reader, id, checked, found),
        Err(error) => Err(error),
    }
}

fn rows_of_checked<S: Store, T: BlockTransformer, W: Sink>(
    alloc: Global,
    sink: &mut W,
    reader: &mut SstReader<S, T>,
    id: Ulid,
    checked: Checked,
    found: Found,
) -> Result<Found, SlateDBError>
    ensures { let reach = reader_reach S.Store T.BlockTransformer in
        GoesOver (reach reader.old) (reach reader.new) (W.faults sink.old)
        (W.faults sink.new) result }
{
    match checked {
        Checked::Whole(summary) => {
            let found = with_rows(found, summary.rows);
            drop(summary);
            write_table(alloc, sink, reader, id, found)
        }
        Checked::Damaged(flaw) => write_flaw(alloc, sink, id, flaw, found),
    }
}

/// Writes the rows of a table.
fn write_table<S: Store, T: BlockTransformer, W: Sink>(
    alloc: Global,
    sink: &mut W,
    reader: &mut SstReader<S, T>,
    id: Ulid,
    found: Found,
) -> Result<Found, SlateDBError>
    ensures { let reach = reader_reach S.Store T.BlockTransformer in
        GoesOver (reach reader.old) (reach reader.new) (W.faults sink.old)
        (W.faults sink.new) result }
{
    match reader.open(alloc, id) {
        Ok(file) => {
            let written = write_file(alloc, sink, reader, &file, found);
            drop(file);
            written
        }
        Err(error) => Err(error),
    }
}

fn write_file<S: Store, T: BlockTransformer, W: Sink>(
    alloc: Global,
    sink: &mut W,
    reader: &mut SstReader<S, T>,
    file: &SstFile,
    found: Found,
) -> Result<Found, SlateDBError>
    ensures { let reach = reader_reach S.Store T.BlockTransformer in
        GoesOver (reach reader.old) (reach reader.new) (W.faults sink.old)
        (W.faults sink.new) result }
{
    match file.index(alloc, reader) {
        Ok(index) => {
            let written = write_blocks(alloc, sink, reader, file, &index, found);
            drop(index);
            written
        }
        Err(error) => Err(error),
    }
}

fn write_blocks<S: Store, T: BlockTransformer, W: Sink>(
    alloc: Global,
    sink: &mut W,
    reader: &mut SstReader<S, T>,
    file: &SstFile,
    index: &SstIndex,
    found: Found,
) -> Result<Found, SlateDBError>
    ensures { let reach = reader_reach S.Store T.BlockTransformer in
        GoesOver (reach reader.old) (reach reader.new) (W.faults sink.old)
        (W.faults sink.new) result }
{
    for block in 0..index.len() {
        match write_block(alloc, sink, reader, file, index, block) {
            Ok(()) => (),
            Err(error) => return Err(error),
        }
    }
    Ok(found)
}

fn write_block<S: Store, T: BlockTransformer, W: Sink>(
    alloc: Global,
    sink: &mut W,
    reader: &mut SstReader<S, T>,
    file: &SstFile,
    index: &SstIndex,
    block: usize,
) -> Result<(), SlateDBError>
    requires { block < length (entries_of index.now) }
    ensures { let reach = reader_reach S.Store T.BlockTransformer in
        GoesOver (reach reader.old) (reach reader.new) (W.faults sink.old)
        (W.faults sink.new) result }
{
    match block_rows(alloc, reader, &file.handle, index, block) {
        Ok(rows) => {
            let written = write_rows(alloc, sink, file.id(), rows.as_slice());
            drop(rows);
            written
        }
        Err(error) => Err(error),
    }
}

/// Writes a line for each row.
fn write_rows<W: Sink>(
    alloc: Global,
    sink: &mut W,
    id: Ulid,
    rows: &[RowEntry],
) -> Result<(), SlateDBError>
    ensures { WritesLines (W.faults sink.old) (W.faults sink.new) result }
{
    for row in rows {
        match write_line(sink, row_line(alloc, id, row)) {
            Ok(()) => (),
            Err(error) => return Err(error),
        }
    }
    Ok(())
}

/// Writes the line of a table's damage.
fn write_flaw<W: Sink>(
    alloc: Global,
    sink: &mut W,
    id: Ulid,
    flaw: Flaw,
    found: Found,
) -> Result<Found, SlateDBError>
    ensures { WritesLines (W.faults sink.old) (W.faults sink.new) result }
{
    let status = flaw.error.status().unwrap_or(16);
    let line = flaw_line(alloc, id, flaw);
    write_last(sink, line, with_damage(found, status))
}

/// Writes a line for each object that is no table, but for `rows`.
fn write_others<W: Sink>(
    alloc: Global,
    mode: Mode,
    sink: &mut W,
    others: &[PathText],
) -> Result<(), SlateDBError>
    ensures { WritesLines (W.faults sink.old) (W.faults sink.new) result }
{
    if matches!(mode, Mode::Rows(_, _)) {
        return Ok(());
    }
    for path in others {
        match write_line(sink, other_line(alloc, path.as_str())) {
            Ok(()) => (),
            Err(error) => return Err(error),
        }
    }
    Ok(())
}

/// Writes the last line of what was found.
fn write_last<W: Sink>(
    sink: &mut W,
    line: Result<Vec<u8>, AllocError>,
    found: Found,
) -> Result<Found, SlateDBError>
    ensures { WritesLines (W.faults sink.old) (W.faults sink.new) result }
{
    match write_line(sink, line) {
        Ok(()) => Ok(found),
        Err(error) => Err(error),
    }
}

fn write_line<W: Sink>(sink: &mut W, line: Result<Vec<u8>, AllocError>) -> Result<(), SlateDBError>
    ensures { WritesLines (W.faults sink.old) (W.faults sink.new) result }
{
    match line {
        Ok(line) => {
            let written = write_all(sink, line.as_slice());
            drop(line);
            written
        }
        Err(error) => Err(SlateDBError::from(error)),
    }
}

/// One more table that is whole.
fn with_rows(found: Found, rows: u64) -> Found {
    Found {
        tables: found.tables.saturating_add(1),
        rows: found.rows.saturating_add(rows),
        ..found
    }
}

/// One more table that is damaged.
fn with_damage(found: Found, status: u8) -> Found {
    Found {
        tables: found.tables.saturating_add(1),
        damaged: found.damaged.saturating_add(1),
        status: if found.damaged == 0 {
            status
        } else {
            found.status
        },
        ..found
    }
}
