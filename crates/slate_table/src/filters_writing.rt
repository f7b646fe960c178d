//! The filters of a table that is built.
ghost use Rattle.std.specs.Prelude.{◌≡◌, ◌<◌, ◌^◌, ◌++◌, length, map, flat_map, string_bytes, OnOk, IfOk, IsOkUnless};
ghost use Rattle.std.specs.List.{AllByRecursion};
ghost use Rattle.slate_block.specs.RowSpelling.{be16};
ghost use Rattle.slate_filter.specs.Laws.{AreValidNames};
ghost use Rattle.slate_filter.specs.Named.{named_pair};
ghost use Rattle.slate_filter.specs.Policy.{filters_of};
ghost use Rattle.slate_table.specs.Asking.{Asks};
ghost use Rattle.slate_table.specs.Parts.{filter_bytes};
ghost use Rattle.slate_table.specs.SectionReading.{changed_by, covered_by};
ghost use Rattle.slate_table.specs.Table.{FitsFilter, filter_section};
ghost use Rattle.slate_table.specs.TableEnd.{HasShortNames};

use crate::section::{SectionPlace, seal_section};
use crate::writing::{append, append_short, append_u16, append_u64};
use bytes::Bytes;
use slate_filter::{FilterPolicy, NamedFilter, build_filters};
use slate_types::{BlockTransformer, RowEntry, SlateDBError};
use std::alloc::Global;

/// The filters of a table of these rows: none where there are fewer than `min`. The one error is `OutOfMemory`.
pub fn filters_of_rows(
    alloc: Global,
    policies: &[Box<dyn FilterPolicy>],
    min: u32,
    rows: &[RowEntry],
) -> Result<Vec<NamedFilter>, SlateDBError>
    requires names { AreValidNames (map (λ p. (meaning p).name) policies.now) }
    ensures filters { IfOk result (λ filters. map named_pair filters.items ≡ filters_of (map (λ p. meaning p) policies.now) min rows.now) }
    ensures names { IfOk result (λ filters. HasShortNames filters.items) }
    ensures cause { IsOkUnless result SlateDBError.OutOfMemory }
{
    if (rows.len() as u64) < min as u64 {
        return Ok(Vec::new(alloc));
    }
    build_filters(alloc, policies, rows)
}

/// Appends the section of these filters, which stands at a place, where there are any. `BlockTransformError`, only where the transformer's count of faults
/// rose, or `OutOfMemory`.
pub fn append_filter_section<T: BlockTransformer>(
    alloc: Global,
    out: &mut Vec<u8>,
    place: SectionPlace,
    filters: &[NamedFilter],
    transformer: &mut Option<T>,
) -> Result<(), SlateDBError>
    requires names { HasShortNames filters.now }
    ensures appended { OnOk result (out.new.items ≡ out.old.items ++ filter_section (covered_by place) (changed_by T.encoded transformer.old) (map named_pair filters.now)) }
    ensures fit { OnOk result (AllByRecursion FitsFilter (map named_pair filters.now)) }
    ensures asks { Asks T.encoded T.decoded T.faults transformer.old transformer.new result }
{
    if filters.is_empty() {
        return Ok(());
    }
    let part = encode_filters(alloc, filters)?;
    seal_section(alloc, out, place, part, transformer)
}

/// The bytes of a list of filters. The one error is `OutOfMemory`.
fn encode_filters(alloc: Global, filters: &[NamedFilter]) -> Result<Bytes, SlateDBError>
    requires names { HasShortNames filters.now }
    ensures bytes { IfOk result (λ bytes. bytes ≡ be16 (length filters.now) ++ flat_map filter_bytes (map named_pair filters.now)) }
    ensures fit { OnOk result (AllByRecursion FitsFilter (map named_pair filters.now)) }
    ensures cause { IsOkUnless result SlateDBError.OutOfMemory }
{
    let mut out = Vec::new(alloc);
    append_u16(&mut out, filters.len() as u16)?;
    append_each(&mut out, filters)?;
    Bytes::from_vec(out).map_err(SlateDBError::from)
}

fn append_each(out: &mut Vec<u8>, filters: &[NamedFilter]) -> Result<(), SlateDBError>
    requires short { AllByRecursion (λ f. length (string_bytes f.name) < 2 ^ 16) filters.now }
    ensures appended { OnOk result (out.new.items ≡ out.old.items ++ flat_map filter_bytes (map named_pair filters.now)) }
    ensures fit { OnOk result (AllByRecursion FitsFilter (map named_pair filters.now)) }
    ensures cause { IsOkUnless result SlateDBError.OutOfMemory }
{
    for filter in filters {
        append_filter(out, filter)?;
    }
    Ok(())
}

/// Appends a filter's name and its bytes, each behind its length.
fn append_filter(out: &mut Vec<u8>, filter: &NamedFilter) -> Result<(), SlateDBError>
    requires { length (string_bytes filter.now.name) < 2 ^ 16 }
    ensures appended { OnOk result (out.new.items ≡ out.old.items ++ filter_bytes (named_pair filter.now)) }
    ensures fits { OnOk result (FitsFilter (named_pair filter.now)) }
    ensures cause { IsOkUnless result SlateDBError.OutOfMemory }
{
    append_short(out, filter.name.as_bytes())?;
    append_u64(out, filter.filter.len() as u64)?;
    append(out, filter.filter.as_slice())
}
