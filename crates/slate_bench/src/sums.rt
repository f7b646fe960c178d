//! Sums over the rows that were read.
use slate_block::{Block, DataBlockIterator};
use slate_types::{IterationOrder, RowEntry, SlateDBError};
use std::alloc::Global;

/// Sums over rows. One past the greatest number stands there.
#[derive(Default, Drop)]
pub struct Sums {
    pub rows: u64,
    pub key_bytes: u64,
    pub value_bytes: u64,
    pub seqs: u64,
}

impl Sums {
    /// Counts a row.
    fn take(&mut self, row: RowEntry) {
        self.rows = self.rows.saturating_add(1);
        self.key_bytes = self.key_bytes.saturating_add(row.key.len() as u64);
        self.value_bytes = self.value_bytes.saturating_add(row.value.len() as u64);
        self.seqs = self.seqs.saturating_add(row.seq);
        drop(row);
    }

    /// Counts the rows of a block. `version` is 1 or 2.
    pub fn take_block(
        &mut self,
        alloc: Global,
        block: Block,
        version: u16,
    ) -> Result<(), SlateDBError> {
        let mut rows = DataBlockIterator::new(alloc, block, version, IterationOrder::Ascending)?;
        self.take_all(alloc, &mut rows)
    }

    /// Counts the rows that are left of a block.
    fn take_all(
        &mut self,
        alloc: Global,
        rows: &mut DataBlockIterator<Block>,
    ) -> Result<(), SlateDBError> {
        for _ in 0..u64::MAX {
            match rows.next_row(alloc)? {
                Some(row) => self.take(row),
                None => return Ok(()),
            }
        }
        Ok(())
    }

    /// As it is printed.
    pub fn text(&self, alloc: Global) -> Result<String, SlateDBError> {
        format!(in alloc;
            "{} rows, {} key bytes, {} value bytes, sequences {}",
            self.rows, self.key_bytes, self.value_bytes, self.seqs
        )
        .map_err(SlateDBError::from)
    }
}
