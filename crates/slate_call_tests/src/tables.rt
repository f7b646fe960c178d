// Tables of few rows in a store in memory, their blocks and their filters, and a codec that is
// refused.
ghost use Rattle.std.specs.Prelude.{◌≡◌, ◌<◌, ◌≤◌, length, IfSome};
ghost use Rattle.slate_block.specs.Building.{CanTake};

use bytes::Bytes;
use slate_filter::{BloomFilterPolicy, FilterPolicy, FixedExtractor, have_valid_names};
use slate_lower_tests::listing::{Row, one, row};
use slate_store::{MemoryStore, Store};
use slate_table::{
    EncodedSsTable, EncodedSsTableBuilder, SsTableFormat, SsTableHandle, SstReader, TableStore,
};
use slate_types::{BlockFormat, CompressionCodec, NoTransformer, RowEntry, SlateDBError, Ulid};
use std::alloc::Global;

/// The folder of the tables.
pub const ROOT: &str = "db";

// The id of the first table of the first flush, and its path.
const ID: Ulid = Ulid(18446744073709551616);

const PATH: &str = "db/compacted/00000000000000010000000000000000.sst";

/// A row of the key a, two of b and one of c, and a row that has a creation.
pub const A_1: Row = (b"a", 'v', b"1", 1, None, None);

pub const B_3: Row = (b"b", 'v', b"3", 3, None, None);

pub const B_2: Row = (b"b", 'v', b"2", 2, None, None);

pub const C_5: Row = (b"c", 'v', b"5", 5, None, None);

pub const MADE: Row = (b"a", 'v', b"1", 1, Some(0), None);

fn format_of(block_size: u32, compression_codec: Option<CompressionCodec>) -> SsTableFormat
    ensures { result.block_size ≡ block_size }
{
    SsTableFormat {
        block_size,
        min_filter_keys: 0,
        block_format: BlockFormat::V1,
        compression_codec,
    }
}

// Returns the row, if its key and its value are as short as those of these tests.
fn entry(of: &Row) -> Option<RowEntry>
    ensures { IfSome result (λ r. CanTake r) }
{
    let entry = row(of);
    if entry.key.len() < 256 && entry.value.len() < 256 {
        return Some(entry);
    }
    drop(entry);
    None
}

// Adds the row, if it follows the others.
fn with_row(
    alloc: Global,
    mut builder: EncodedSsTableBuilder,
    of: &Row,
) -> Option<EncodedSsTableBuilder>
    ensures { IfSome result (λ b. 0 < length b.rows) }
{
    let entry = entry(of)?;
    if !builder.follows(&entry) {
        drop(entry);
        return None;
    }
    builder.add(alloc, entry, &mut None::<NoTransformer>).ok()?;
    Some(builder)
}

// Returns a builder of one row.
fn of_one_row(alloc: Global) -> Option<EncodedSsTableBuilder>
    ensures { IfSome result (λ b. 0 < length b.rows) }
{
    let builder = EncodedSsTableBuilder::new(alloc, &format_of(4096, None), ID).ok()?;
    with_row(alloc, builder, &MADE)
}

// Returns a builder of four rows, in blocks of 40 bytes.
fn of_four_rows(alloc: Global) -> Option<EncodedSsTableBuilder>
    ensures { IfSome result (λ b. 0 < length b.rows) }
{
    let builder = EncodedSsTableBuilder::new(alloc, &format_of(40, None), ID).ok()?;
    let builder = with_row(alloc, builder, &A_1)?;
    let builder = with_row(alloc, builder, &B_3)?;
    let builder = with_row(alloc, builder, &B_2)?;
    with_row(alloc, builder, &C_5)
}

// Returns a builder of the keys a and b.
fn of_two_rows(alloc: Global) -> Option<EncodedSsTableBuilder>
    ensures { IfSome result (λ b. 0 < length b.rows) }
{
    let builder = EncodedSsTableBuilder::new(alloc, &format_of(4096, None), ID).ok()?;
    let builder = with_row(alloc, builder, &A_1)?;
    with_row(alloc, builder, &B_2)
}

/// A store that has a table, and the table's handle.
pub type Stored = (MemoryStore, SsTableHandle);

// Puts the table.
fn put(alloc: Global, table: EncodedSsTable) -> Option<Stored> {
    let mut store = MemoryStore::new(alloc, Vec::new(alloc));
    let bytes = table.remaining_as_bytes().ok();
    let info = table.info().clone().ok();
    drop(table);
    let (Some(bytes), Some(info)) = (bytes, info) else {
        drop(store);
        return None;
    };
    let put = store.put(alloc, PATH, bytes.as_slice()).ok();
    drop(bytes);
    let handle = SsTableHandle {
        id: ID,
        info,
        format_version: 1,
    };
    put.and(Some((store, handle)))
}

fn stored(
    alloc: Global,
    builder: Option<EncodedSsTableBuilder>,
    policies: &[Box<dyn FilterPolicy>],
) -> Option<Stored>
    requires { IfSome builder (λ b. 0 < length b.rows) }
{
    let builder = builder?;
    if !have_valid_names(policies) {
        drop(builder);
        return None;
    }
    let table = builder
        .build(alloc, &mut None::<NoTransformer>, policies)
        .ok()?;
    put(alloc, table)
}

/// Returns the store and the handle of the table of the four rows.
pub fn four_rows(alloc: Global) -> Option<Stored> {
    stored(alloc, of_four_rows(alloc), &[])
}

fn is_out_of_blocks(rows: Result<Vec<RowEntry>, SlateDBError>) -> bool {
    matches!(
        rows,
        Err(SlateDBError::BlockOutOfRange {
            block: 1,
            blocks: 1
        })
    )
}

// Checks that the block past the only one is refused by its number and the number of blocks.
fn is_out_of_range(alloc: Global) -> Option<bool> {
    let (store, handle) = stored(alloc, of_one_row(alloc), &[])?;
    let mut reader = SstReader::new(alloc, ROOT, store, None::<NoTransformer>).ok()?;
    let file = reader.open_with_handle(handle);
    let rows = file.read_block(alloc, &mut reader, 1);
    let is_same = file.id().0 == ID.0;
    drop((file, reader));
    Some(is_same && is_out_of_blocks(rows))
}

#[test]
fn a_block_past_the_last_is_refused(rt: HostRuntime) {
    assert!(rt; is_out_of_range(rt.alloc()) == Some(true));
}

// Returns a policy of filters of prefixes of four bytes alone.
fn prefixes(alloc: Global) -> Result<BloomFilterPolicy<FixedExtractor>, SlateDBError> {
    let policy: BloomFilterPolicy<FixedExtractor> = BloomFilterPolicy::new(alloc, 10)?;
    let policy = policy.with_whole_key_filtering(alloc, false)?;
    policy.with_prefix_extractor(alloc, FixedExtractor::new(alloc, 4)?)
}

// Checks that a table of keys without prefixes has the one filter, which has no bit.
fn has_filter(alloc: Global) -> Option<bool> {
    let policy: Box<dyn FilterPolicy> = Box::new(alloc, prefixes(alloc).ok()?).ok()?;
    let policies = one(alloc, policy);
    let stored = stored(alloc, of_two_rows(alloc), policies.as_slice());
    drop(policies);
    let (mut store, handle) = stored?;
    let no_transformer = &mut None::<NoTransformer>;
    let filters = TableStore::read_filters(alloc, &mut store, ROOT, &handle, no_transformer).ok();
    drop((store, handle));
    let filters = filters?;
    match filters.as_slice() {
        [only] => {
            Some(
                only.name.as_str() == "_bf:p=fixed4:wh=0"
                    && only.filter.as_slice() == b"\x00\x06".as_slice(),
            )
        }
        _ => None,
    }
}

#[test]
fn filters_of_a_table_are_read(rt: HostRuntime) {
    assert!(rt; has_filter(rt.alloc()) == Some(true));
}

fn is_refused(alloc: Global) -> bool {
    let format = format_of(4096, Some(CompressionCodec::Zlib));
    let refused = EncodedSsTableBuilder::new(alloc, &format, ID);
    matches!(
        refused,
        Err(SlateDBError::UnsupportedCompression { codec: 2 })
    )
}

#[test]
fn a_codec_is_refused(rt: HostRuntime) {
    assert!(rt; is_refused(rt.alloc()));
}
