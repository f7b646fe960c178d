//! How a table is opened: its object is measured, and its last bytes and its info are read.
ghost use Rattle.std.specs.Prelude.{◌≡◌, ◌≤◌, ◌<◌, ◌+◌, ◌-◌, ◌⊎◌, ℕ, List, Option, Some, Err, Ok, length, OnOk, OnErr, IfOk, IfErr, IfSome};
ghost use Rattle.slate_block.specs.BlockSpelling.{IsKnown};
ghost use Rattle.slate_table.specs.Paths.{path_of};
ghost use Rattle.slate_table.specs.InfoReading.{seen_info};
ghost use Rattle.slate_table.specs.Asking.{Reaches};
ghost use Rattle.slate_table.specs.Reading.{Reads, IsStoreFault};
ghost use Rattle.slate_table.specs.Opening.{
  IsMeasured,
  long_in,
  last_in,
  info_size,
  IsInfoRead,
  RefusesInfo,
  IsOpened,
  RefusesOpen,
  MayOpen,
};

use crate::footer::{FOOTER_SIZE, Footer};
use crate::info::{SsTableHandle, SsTableInfo};
use crate::paths::table_path;
use crate::section::{CHECKSUM_SIZE, INFO_KIND, SectionPlace, checked_part};
use crate::table_store::read;
use bytes::Bytes;
use slate_block::fields::corrupt;
use slate_store::Store;
use slate_types::{SlateDBError, Ulid};
use std::alloc::Global;

/// The table of an id, by three calls: its size, its last bytes and its info.
pub(crate) fn open_table<S: Store>(
    alloc: Global,
    store: &mut S,
    root: &str,
    id: Ulid,
) -> Result<SsTableHandle, SlateDBError>
    ensures found { IfOk result (λ table. IsOpened (S.objects store.old) (S.acts store.old) (S.acts store.new) (path_of root.now id.0) id.0 table.format_version (seen_info table.info)) }
    ensures known { IfOk result (λ table. IsKnown table.format_version) }
    ensures id { IfOk result (λ table. table.id ≡ id) }
    ensures cause { IfErr result (λ e. IsStoreFault (S.faults store.old) (S.faults store.new) e ⊎ RefusesOpen (S.objects store.old) (S.acts store.old) (S.acts store.new) (path_of root.now id.0) id.0 e) }
    ensures calls { OnErr result (MayOpen (S.objects store.old) (S.acts store.old) (S.acts store.new) (path_of root.now id.0)) }
    ensures reaches { Reaches S.objects S.faults store.old store.new result }
{
    let size = object_len(alloc, store, root, id)?;
    let len = long_object(size)?;
    let footer = read_footer(alloc, store, root, id, len)?;
    let info = read_info(alloc, store, root, id, footer, len)?;
    Ok(SsTableHandle {
        id,
        info,
        format_version: footer.version,
    })
}

/// What a store answers when it is asked for the size of a table.
pub(crate) fn object_len<S: Store>(
    alloc: Global,
    store: &mut S,
    root: &str,
    id: Ulid,
) -> Result<Option<u64>, SlateDBError>
    ensures measured { IfOk result (λ size. IsMeasured (S.objects store.old) (S.acts store.old) (S.acts store.new) (path_of root.now id.0) size) }
    ensures cause { IfErr result (λ e. IsStoreFault (S.faults store.old) (S.faults store.new) e) }
    ensures none { OnErr result (S.acts store.new ≡ S.acts store.old) }
    ensures reaches { Reaches S.objects S.faults store.old store.new result }
{
    let path = table_path(alloc, root, id)?;
    store.len(alloc, path.as_str()).map_err(SlateDBError::from)
}

/// The size of an object that holds more than the last bytes of a table.
fn long_object(size: Option<u64>) -> Result<u64, SlateDBError>
    ensures value { result ≡ long_in size }
    ensures long { IfOk result (λ len. 10 < len) }
    ensures same { IfOk result (λ len. size ≡ Some len) }
{
    match size {
        None => Err(corrupt(0)),
        Some(len) => {
            if len > FOOTER_SIZE as u64 {
                return Ok(len);
            }
            Err(SlateDBError::EmptySSTable { len })
        }
    }
}

/// The last bytes of a table of a size, by one read.
fn read_footer<S: Store>(
    alloc: Global,
    store: &mut S,
    root: &str,
    id: Ulid,
    len: u64,
) -> Result<Footer, SlateDBError>
    requires { 10 < len }
    ensures found { IfOk result (λ footer. Reads (S.objects store.old) (S.acts store.old) (S.acts store.new) (path_of root.now id.0) (len - 10) 10 (λ answer. last_in len answer ≡ Ok (footer.info_offset, footer.version))) }
    ensures known { IfOk result (λ footer. IsKnown footer.version) }
    ensures within { IfOk result (λ footer. footer.info_offset + 10 ≤ len) }
    ensures cause { IfErr result (λ e. IsStoreFault (S.faults store.old) (S.faults store.new) e ⊎ Reads (S.objects store.old) (S.acts store.old) (S.acts store.new) (path_of root.now id.0) (len - 10) 10 (λ answer. last_in len answer ≡ Err e)) }
    ensures once { OnErr result ((S.acts store.new ≡ S.acts store.old) ⊎ Reads (S.objects store.old) (S.acts store.old) (S.acts store.new) (path_of root.now id.0) (len - 10) 10 (λ _. Unit {0})) }
    ensures reaches { Reaches S.objects S.faults store.old store.new result }
{
    let place = (len - FOOTER_SIZE as u64, FOOTER_SIZE as u64);
    let answer = read(alloc, store, root, id, place)?;
    let footer = footer_of(&answer, len);
    drop(answer);
    footer
}

/// What the last bytes of a table of a size say.
fn footer_of(answer: &Option<Bytes>, len: u64) -> Result<Footer, SlateDBError>
    requires long { 10 < len }
    requires whole { IfSome answer.now (λ bytes. length bytes ≡ 10) }
    ensures found { IfOk result (λ footer. last_in len answer.now ≡ Ok (footer.info_offset, footer.version)) }
    ensures known { IfOk result (λ footer. IsKnown footer.version) }
    ensures within { IfOk result (λ footer. footer.info_offset + 10 ≤ len) }
    ensures cause { IfErr result (λ e. last_in len answer.now ≡ Err e) }
{
    match answer {
        None => Err(corrupt(0)),
        Some(bytes) => Footer::decode(bytes.as_slice(), len),
    }
}

/// The info of a table of a size, by one read where there is more than a checksum.
fn read_info<S: Store>(
    alloc: Global,
    store: &mut S,
    root: &str,
    id: Ulid,
    footer: Footer,
    len: u64,
) -> Result<SsTableInfo, SlateDBError>
    requires { footer.info_offset + 10 ≤ len }
    ensures found { IfOk result (λ info. Reads (S.objects store.old) (S.acts store.old) (S.acts store.new) (path_of root.now id.0) footer.info_offset (info_size len footer.info_offset) (λ answer. IsInfoRead footer.version id.0 footer.info_offset answer (seen_info info))) }
    ensures some { IfOk result (λ _. 4 < info_size len footer.info_offset) }
    ensures cause { IfErr result (λ e. IsStoreFault (S.faults store.old) (S.faults store.new) e ⊎ ((S.acts store.new ≡ S.acts store.old) × (info_size len footer.info_offset ≤ 4) × (e ≡ SlateDBError.EmptyBlockMeta (info_size len footer.info_offset))) ⊎ ((4 < info_size len footer.info_offset) × Reads (S.objects store.old) (S.acts store.old) (S.acts store.new) (path_of root.now id.0) footer.info_offset (info_size len footer.info_offset) (λ answer. RefusesInfo footer.version id.0 footer.info_offset answer e))) }
    ensures once { OnErr result ((S.acts store.new ≡ S.acts store.old) ⊎ Reads (S.objects store.old) (S.acts store.old) (S.acts store.new) (path_of root.now id.0) footer.info_offset (info_size len footer.info_offset) (λ _. Unit {0})) }
    ensures reaches { Reaches S.objects S.faults store.old store.new result }
{
    let size = len - FOOTER_SIZE as u64 - footer.info_offset;
    if size <= CHECKSUM_SIZE as u64 {
        return Err(SlateDBError::EmptyBlockMeta { len: size });
    }
    let answer = read(alloc, store, root, id, (footer.info_offset, size))?;
    info_of(answer, id, footer)
}

/// The info of the table of an id that was read.
fn info_of(answer: Option<Bytes>, id: Ulid, footer: Footer) -> Result<SsTableInfo, SlateDBError>
    ensures found { IfOk result (λ info. IsInfoRead footer.version id.0 footer.info_offset answer (seen_info info)) }
    ensures cause { IfErr result (λ e. (e ≡ SlateDBError.OutOfMemory) ⊎ RefusesInfo footer.version id.0 footer.info_offset answer e) }
{
    match answer {
        None => Err(corrupt(0)),
        Some(bytes) => {
            let place = SectionPlace {
                version: footer.version,
                id,
                kind: INFO_KIND,
                offset: footer.info_offset,
            };
            let part = checked_part(&bytes, place);
            drop(bytes);
            SsTableInfo::decode(part?, footer.version, footer.info_offset)
        }
    }
}
