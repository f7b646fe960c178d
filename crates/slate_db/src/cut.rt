//! Rows in tables of a size, each of one segment.
ghost use Rattle.std.specs.Prelude.{◌≡◌, ◌≤◌, ◌<◌, [], ◌∷◌, ◌&&◌, ◌||◌, if◌then◌else◌, Some, None, unwrap_or, map, length, option_copied, IfOk, IsOkUnless};
ghost use Rattle.std.specs.Option.{ForSome};
ghost use Rattle.slate_types.specs.declared.error.SlateDBError.{SlateDBError};
ghost use Rattle.slate_types.specs.declared.types.RowEntry.{RowEntry};
ghost use Rattle.slate_mem.specs.Gathered.{last_row};
ghost use Rattle.slate_mem.specs.KeyTests.{prefix_of_len};
ghost use Rattle.slate_db.specs.Cut.{AreCut, AreOfSegment, AreOfSegments, begins_key, begins_segment, segment_of};
ghost use Rattle.slate_db.specs.Meaning.{segments_by};
ghost use Rattle.slate_db.specs.Model.{Rows};

use bytes::Bytes;
use slate_types::{PrefixExtractor, PrefixTarget, RowEntry, SlateDBError};
use std::alloc::{AllocError, Global};

/// Neighbouring rows of one segment, which become a table.
#[derive(Drop)]
pub struct TableRows {
    /// The prefix of the segment, empty where the keys have none.
    pub prefix: Bytes,
    /// The rows, in their order.
    pub rows: Vec<RowEntry>,
}

/// The rows in tables, each of which ends before the first row of another key where the estimated sizes of its rows have the
/// sum, or where that key is of another segment. So the rows of a key stand in one table, and those of a table in one segment.
/// The extractor is asked once for each key. The one error is `OutOfMemory`.
pub fn cut_tables<X: PrefixExtractor>(
    alloc: Global,
    rows: Vec<RowEntry>,
    table_bytes: u64,
    extractor: &Option<X>,
) -> Result<Vec<TableRows>, SlateDBError>
    requires { 0 < length rows.items }
    ensures cut { IfOk result (λ tables. AreCut (segments_by X.lengths extractor.now) table_bytes rows.items (map (λ t. t.rows.items) tables.items)) }
    ensures segments { IfOk result (λ tables. AreOfSegments (segments_by X.lengths extractor.now) (map (λ t. t.rows.items) tables.items) (map (λ t. t.prefix) tables.items)) }
    ensures cause { IsOkUnless result SlateDBError.OutOfMemory }
{
    let prefix = first_prefix(&rows, extractor)?;
    let mut tables = Vec::new(alloc);
    let mut table = TableRows {
        prefix,
        rows: Vec::new(alloc),
    };
    let mut size = 0u64;
    for row in rows {
        let full = size >= table_bytes;
        if let Some(prefix) = next_prefix(&table, full, &row, extractor)? {
            tables.push(table)?;
            table = TableRows {
                prefix,
                rows: Vec::new(alloc),
            };
            size = 0;
        }
        size = size.saturating_add(row.estimated_size());
        table.rows.push(row)?;
    }
    tables.push(table)?;
    Ok(tables)
}

/// The prefix of the first row's segment.
fn first_prefix<X: PrefixExtractor>(
    rows: &[RowEntry],
    extractor: &Option<X>,
) -> Result<Bytes, AllocError>
    ensures { (r : RowEntry) (rest : Rows) → rows.now ≡ r ∷ rest → IfOk result (λ prefix. prefix ≡ segment_of (segments_by X.lengths extractor.now) r.key) }
{
    match rows.first() {
        Some(row) => segment_prefix(&row.key, extractor),
        None => Ok(Bytes::new()),
    }
}

/// The prefix of the row's segment, where a table of these rows ends before it.
fn next_prefix<X: PrefixExtractor>(
    table: &TableRows,
    full: bool,
    row: &RowEntry,
    extractor: &Option<X>,
) -> Result<Option<Bytes>, AllocError>
    requires { AreOfSegment (segments_by X.lengths extractor.now) table.now.prefix table.now.rows.items }
    ensures { let segments = segments_by X.lengths extractor.now in
        let last = last_row table.now.rows.items in
        IfOk result (λ next. next ≡ (if begins_key last row.now && (full || begins_segment segments last row.now) then Some (segment_of segments row.now.key) else None)) }
{
    if !begins_key(table.rows.as_slice().last(), row) {
        return Ok(None);
    }
    let prefix = segment_prefix(&row.key, extractor)?;
    if full || table.prefix != prefix {
        Ok(Some(prefix))
    } else {
        drop(prefix);
        Ok(None)
    }
}

/// Whether the row has another key than the one before it.
fn begins_key(before: Option<&RowEntry>, row: &RowEntry) -> bool
    ensures { result ≡ begins_key (option_copied before.entry) row.now }
{
    match before {
        None => false,
        Some(before) => before.key != row.key,
    }
}

/// The prefix of a key's segment, empty where it has none.
fn segment_prefix<X: PrefixExtractor>(
    key: &Bytes,
    extractor: &Option<X>,
) -> Result<Bytes, AllocError>
    ensures { IfOk result (λ prefix. prefix ≡ segment_of (segments_by X.lengths extractor.now) key.now) }
{
    match prefix_len(key, extractor)? {
        None | Some(0) => Ok(Bytes::new()),
        Some(len) => key.slice(..len),
    }
}

/// The length of the prefix that an extractor gives a key, where there is one.
fn prefix_len<X: PrefixExtractor>(
    key: &Bytes,
    extractor: &Option<X>,
) -> Result<Option<usize>, AllocError>
    ensures prefix { IfOk result (λ len. unwrap_or (prefix_of_len key.now len) [] ≡ segment_of (segments_by X.lengths extractor.now) key.now) }
    ensures within { IfOk result (λ len. ForSome len (λ n. n ≤ length key.now)) }
{
    match extractor {
        Some(extractor) => {
            let target = PrefixTarget::Point(key.clone()?);
            let len = extractor.prefix_len(&target);
            drop(target);
            Ok(len)
        }
        None => Ok(None),
    }
}
