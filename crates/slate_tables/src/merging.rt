//! The rows of several tables as one merge, folded, without tombstones.
ghost use Rattle.std.specs.Prelude.{◌≡◌, reverse, IfOk, IsOkUnless, false};
ghost use Rattle.slate_types.specs.declared.error.SlateDBError.{SlateDBError};
ghost use Rattle.slate_types.specs.Keys.{is_refused};
ghost use Rattle.slate_tables.specs.Exported.{is_live};
ghost use Rattle.slate_tables.specs.Merging.{IsExportOf, IsTableSource, MatchEach};

use slate_merge::{FilterIterator, MergeIterator, MergeOperatorIterator, RowPredicate};
use slate_read::{InternalSstIterator, SstIteratorOptions};
use slate_table::SsTableHandle;
use slate_types::{BytesRange, IterationOrder, RowEntry, SlateDBError, ValueDeletable};
use std::alloc::{AllocError, Global};

/// Keeps rows that are no tombstone.
#[derive(Drop)]
pub struct Live;

impl RowPredicate for Live {
    ghost keeps = { λ _ r. is_live r };

    fn keep(&self, row: &RowEntry) -> bool {
        !matches!(row.value, ValueDeletable::Tombstone)
    }
}

/// One row for each key of some tables: the fold of its newest rows, down to the first that is no
/// operand. A key whose fold is a tombstone is left out.
pub type Export = FilterIterator<MergeOperatorIterator<MergeIterator<InternalSstIterator>>, Live>;

/// Merges the rows of tables, the newest table first. Reads nothing, and takes no memory.
pub(crate) fn merged(
    alloc: Global,
    newest_first: Vec<InternalSstIterator>,
    order: IterationOrder,
) -> Export
    ensures export { IsExportOf order newest_first.items result }
{
    let merge = MergeIterator::new_with_order(newest_first, order);
    let Ok(folded) = MergeOperatorIterator::new(merge, true, None) else {
        unreachable!()
    };
    let Ok(export) = FilterIterator::new(alloc, folded, Live) else {
        unreachable!()
    };
    export
}

/// Copies what is kept of a table.
pub(crate) fn copy_handle(handle: &SsTableHandle) -> Result<SsTableHandle, AllocError>
    ensures { IfOk result (λ copy. copy ≡ handle.now) }
{
    let info = handle.info.clone()?;
    Ok(SsTableHandle {
        id: handle.id,
        info,
        format_version: handle.format_version,
    })
}

/// Makes the rows of a table in a range. Reads nothing. The one error is `OutOfMemory`.
fn table_source(
    alloc: Global,
    handle: &SsTableHandle,
    range: &BytesRange,
    order: IterationOrder,
) -> Result<InternalSstIterator, SlateDBError>
    requires range { is_refused range.now.start range.now.end ≡ false }
    ensures source { IfOk result (IsTableSource range.now order handle.now) }
    ensures cause { IsOkUnless result SlateDBError.OutOfMemory }
{
    let within = range.clone()?;
    let table = copy_handle(handle)?;
    let options = SstIteratorOptions {
        max_fetch_tasks: 1,
        target_bytes_to_fetch: 65_536,
        order,
        prefix: None,
        filter_context: None,
    };
    InternalSstIterator::new(alloc, within, table, options)
}

/// Makes the rows of tables in a range, the last table first. Reads nothing. The one error is
/// `OutOfMemory`.
pub(crate) fn table_sources(
    alloc: Global,
    handles: &[SsTableHandle],
    range: &BytesRange,
    order: IterationOrder,
) -> Result<Vec<InternalSstIterator>, SlateDBError>
    requires range { is_refused range.now.start range.now.end ≡ false }
    ensures each { IfOk result (λ made.
        MatchEach (IsTableSource range.now order) (reverse handles.now) made.items) }
    ensures cause { IsOkUnless result SlateDBError.OutOfMemory }
{
    let mut sources = Vec::new(alloc);
    let mut at = handles.len();
    while at > 0 {
        at -= 1;
        let source = table_source(alloc, &handles[at], range, order)?;
        sources.push(source)?;
    }
    Ok(sources)
}
