//! Tables, built row by row.
ghost use Rattle.std.specs.Prelude.{◌≡◌, ◌≤◌, ◌<◌, ◌++◌, ◌∷◌, ◌⊎◌, ◌↔◌, ℕ, List, [], Ok, Err, None, true, length, map, OnOk, OnErr, IfOk, IfErr, IfSome, IsSome, IsTrue};
ghost use Rattle.slate_types.specs.Faults.{faults_of};
ghost use Rattle.slate_types.specs.Rows.{row_lt};
ghost use Rattle.slate_block.specs.Building.{CanTake};
ghost use Rattle.slate_filter.specs.Laws.{AreValidNames};
ghost use Rattle.slate_table.specs.Table.{AreInOrder, IsBuilt};
ghost use Rattle.slate_table.specs.InfoReading.{seen_info};
ghost use Rattle.slate_table.specs.TableFormat.{codec_byte};
ghost use Rattle.slate_table.specs.TableEnd.{HasInfo};
ghost use Rattle.slate_table.specs.Parts.{Encode};
ghost use Rattle.slate_table.specs.SectionReading.{changed_by, IsTransformFault};
ghost use Rattle.slate_table.specs.TableParts.{version_of};
ghost use Rattle.slate_table.specs.TableBuilding.{begun, max_blocks, section_size, AreEncoded, HasTooManyBlocks};

use crate::encoded_table::EncodedSsTable;
use crate::info::SsTableFormat;
use crate::table_parts::{TableParts, new_block};
use slate_filter::FilterPolicy;
use slate_types::{BlockTransformer, RowEntry, SlateDBError, Ulid};
use std::alloc::Global;
use std::marker::Model;

/// Takes rows in their order, key upwards and sequence downwards, and gives their table. A block ends just before a row that
/// doesn't fit. A table of enough rows
/// has the filters of the policies. Contracts see the version, the table's id, the block size and that number, the rows that were added, and the
/// sections of the blocks that were ended and where they begin.
#[derive(Drop)]
pub struct EncodedSsTableBuilder {
    parts: TableParts,
    /// From how many rows on a table has filters.
    min_filter_keys: u32,
}

impl Model for EncodedSsTableBuilder {
    ghost use Rattle.slate_table.specs.TableBuilding.{TableBuilding};

    ghost Value = { TableBuilding };

    ghost use Rattle.slate_table.specs.TableParts.{seen, Stands};

    ghost view = { λ b. seen b.min_filter_keys b.parts };

    ghost invariant = { λ b. Stands b.parts };
}

impl EncodedSsTableBuilder {
    /// A builder of the table of an id, with no row, for blocks of 1 to 65535 bytes. `UnsupportedCompression` exactly where the format names a codec,
    /// with the codec's byte; or `OutOfMemory`.
    pub fn new(
        alloc: Global,
        format: &SsTableFormat,
        id: Ulid,
    ) -> Result<EncodedSsTableBuilder, SlateDBError>
        requires some { 0 < format.now.block_size }
        requires few { format.now.block_size ≤ 65535 }
        ensures begun { IfOk result (λ builder. builder ≡ begun (version_of format.now.block_format) id.0 format.now.block_size format.now.min_filter_keys) }
        ensures cause { IfErr result (λ e. (e ≡ SlateDBError.OutOfMemory) ⊎ IsSome format.now.compression_codec) }
        ensures refused { IfSome format.now.compression_codec (λ codec. result ≡ Err (SlateDBError.UnsupportedCompression (codec_byte codec))) }
        ensures no_codec { OnOk result (format.now.compression_codec ≡ None) }
    {
        if let Some(codec) = format.compression_codec {
            return Err(SlateDBError::UnsupportedCompression { codec: codec as u8 });
        }
        let block = new_block(alloc, format.block_format, format.block_size)?;
        let parts = TableParts {
            block_size: format.block_size,
            format: format.block_format,
            id,
            rows: Vec::new(alloc),
            block,
            bytes: Vec::new(alloc),
            offsets: Vec::new(alloc),
            separators: Vec::new(alloc),
            block_stats: Vec::new(alloc),
            raw_key_size: 0,
            raw_val_size: 0,
        };
        Ok(EncodedSsTableBuilder {
            parts,
            min_filter_keys: format.min_filter_keys,
        })
    }

    /// Whether a row may be added behind the others: its key is greater than that of the last one, or the same with a lower
    /// sequence.
    pub fn follows(&self, entry: &RowEntry) -> bool
        ensures { IsTrue result ↔ AreInOrder (self.now.rows ++ entry.now ∷ []) }
    {
        match self.parts.rows.last() {
            Some(last) => stands_before(last, entry),
            None => true,
        }
    }

    /// Adds a row behind the others, which it must follow, and answers the size of the section of a block that it ended. `EmptyKey`
    /// exactly for an empty key, and then `LimitReached` exactly where there would be more than 4294967295 blocks;
    /// `BlockTransformError`, which comes only where the row ends a block and the transformer's count of faults rose, or
    /// `OutOfMemory`. Each of them leaves the builder as it was. Where no block ends the transformer isn't asked.
    pub fn add<T: BlockTransformer>(
        &mut self,
        alloc: Global,
        entry: RowEntry,
        transformer: &mut Option<T>,
    ) -> Result<Option<u64>, SlateDBError>
        requires lengths { CanTake entry }
        requires order { AreInOrder (self.old.rows ++ entry ∷ []) }
        ensures added { OnOk result (self.new.rows ≡ self.old.rows ++ entry ∷ []) }
        ensures unspoilt { OnErr result (self.new ≡ self.old) }
        ensures version { self.new.version ≡ self.old.version }
        ensures id { self.new.id ≡ self.old.id }
        ensures size { self.new.size ≡ self.old.size }
        ensures min { self.new.min ≡ self.old.min }
        ensures encoded { AreEncoded (changed_by T.encoded transformer.old) self.old → AreEncoded (changed_by T.encoded transformer.old) self.new }
        ensures ended { IfOk result (λ size. size ≡ section_size (changed_by T.encoded transformer.old) self.old entry) }
        ensures limit { (result ≡ Err (SlateDBError.LimitReached max_blocks)) ↔ (HasTooManyBlocks self.old entry × (0 < length entry.key)) }
        ensures empty { (result ≡ Err SlateDBError.EmptyKey) ↔ (length entry.key ≡ 0) }
        ensures cause { IfErr result (λ e. IsTransformFault (faults_of T.faults transformer.old) (faults_of T.faults transformer.new) e ⊎ (e ≡ SlateDBError.EmptyKey) ⊎ (e ≡ SlateDBError.LimitReached max_blocks)) }
        ensures unasked { section_size (changed_by T.encoded transformer.old) self.old entry ≡ None → transformer.new ≡ transformer.old }
        ensures fault { result ≡ Err SlateDBError.BlockTransformError → IsSome (section_size (changed_by T.encoded transformer.old) self.old entry) }
        ensures same_encoded { changed_by T.encoded transformer.new ≡ changed_by T.encoded transformer.old }
        ensures same_decoded { changed_by T.decoded transformer.new ≡ changed_by T.decoded transformer.old }
        ensures later { faults_of T.faults transformer.old ≤ faults_of T.faults transformer.new }
        ensures still { (result ≡ Err SlateDBError.BlockTransformError) ⊎ (faults_of T.faults transformer.new ≡ faults_of T.faults transformer.old) }
    {
        match self.parts.test(&entry) {
            Ok(()) => self.parts.add(alloc, entry, transformer),
            Err(error) => {
                drop(entry);
                Err(error)
            }
        }
    }

    /// The table of the rows, of which there is one at least. Where the rows are enough it has the filters of the policies, in their
    /// order, but for those that build none. `BlockTransformError`, which comes only where the transformer's count of faults rose,
    /// or `OutOfMemory`.
    pub fn build<T: BlockTransformer>(
        self,
        alloc: Global,
        transformer: &mut Option<T>,
        policies: &[Box<dyn FilterPolicy>],
    ) -> Result<EncodedSsTable, SlateDBError>
        requires rows { 0 < length self.rows }
        requires names { AreValidNames (map (λ p. (meaning p).name) policies.now) }
        ensures built { IfOk result (λ table. AreEncoded (changed_by T.encoded transformer.old) self → IsBuilt (changed_by T.encoded transformer.old) (map (λ p. meaning p) policies.now) self.min self.size self.version self.id table.bytes self.rows) }
        ensures info { IfOk result (λ table. HasInfo table.bytes self.version self.id (seen_info table.info)) }
        ensures version { IfOk result (λ table. table.version ≡ self.version) }
        ensures id { IfOk result (λ table. table.id.0 ≡ self.id) }
        ensures cause { IfErr result (λ e. IsTransformFault (faults_of T.faults transformer.old) (faults_of T.faults transformer.new) e) }
        ensures same_encoded { changed_by T.encoded transformer.new ≡ changed_by T.encoded transformer.old }
        ensures same_decoded { changed_by T.decoded transformer.new ≡ changed_by T.decoded transformer.old }
        ensures later { faults_of T.faults transformer.old ≤ faults_of T.faults transformer.new }
        ensures still { (result ≡ Err SlateDBError.BlockTransformError) ⊎ (faults_of T.faults transformer.new ≡ faults_of T.faults transformer.old) }
    {
        let EncodedSsTableBuilder {
            mut parts,
            min_filter_keys,
        } = self;
        // What its type says of the id is known once it is read.
        let _id = parts.id.0;
        let table = parts.finish(alloc, transformer, policies, min_filter_keys);
        drop(parts);
        table
    }
}

/// Whether the first row stands before the second in a table.
fn stands_before(first: &RowEntry, second: &RowEntry) -> bool
    ensures { result ≡ row_lt first.now second.now }
{
    first.key.as_slice().cmp(second.key.as_slice()).is_lt()
        || (first.key == second.key && second.seq < first.seq)
}
