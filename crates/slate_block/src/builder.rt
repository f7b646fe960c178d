//! Blocks, built row by row.
ghost use Rattle.std.specs.Prelude.{◌≡◌, ◌≤◌, ◌<◌, ◌^◌, ◌↔◌, ◌⊎◌, ◌==◌, [], true, false, Ok, Err, length, map, IfOk, IfErr, OnOk, OnErr, IsOk};
ghost use Rattle.slate_block.specs.BlockSpelling.{IsBlockOf, FitsBlock, block_spelling, block_bytes, as_read, longest};
ghost use Rattle.slate_block.specs.Building.{number, front_key, Held, Held_prop, CanTake, Building, with_row};
ghost use Rattle.slate_block.specs.Fitting.{fits_in};

use crate::block::{Block, encoded};
use crate::keys::compute_prefix;
use crate::rows_part::{RowsPart, Version};
use bytes::Bytes;
use slate_types::{RowEntry, SlateDBError};
use std::alloc::Global;
use std::marker::Model;

/// Takes rows in their order while they fit, and gives their block. Contracts see its version, its block size, and the rows
/// that it took.
#[derive(Drop)]
pub struct BlockBuilder {
    block_size: u32,
    part: RowsPart,
    // These are the bytes and the offsets of one list of rows alone, so that contracts can name it.
    ghost held: { Held (number part.version) part.body.items part.offsets.items part.num_rows part.front_key } by { Held_prop (number part.version) part.body.items part.offsets.items part.num_rows part.front_key },
}

impl Model for BlockBuilder {
    ghost use Rattle.std.specs.Prelude.{◌≤◌, ◌^◌, ◌<◌};
    ghost use Rattle.slate_block.specs.Building.{Building, number};

    ghost Value = { Building };

    ghost view = { λ b. record { version = number b.part.version; size = b.block_size; rows = b.held.0.0 } };

    ghost invariant = { λ b. b.block_size < 2 ^ 16 };
}

impl BlockBuilder {
    /// A builder of a block of version 1 that is held to this block size, 1 to 65535. The first row always fits, and the
    /// block may pass the size by 2. It takes no memory, and is never refused.
    pub fn new_v1(alloc: Global, block_size: u32) -> Result<BlockBuilder, SlateDBError>
        requires some { 1 ≤ block_size }
        requires few { block_size ≤ 65535 }
        ensures builder { IfOk result (λ b. b ≡ record { version = 1; size = block_size; rows = [] }) }
        ensures fine { IsOk result }
    {
        Ok(BlockBuilder::of_version(alloc, Version::V1, block_size))
    }

    /// A builder of a block of version 2 that is held to this block size, 1 to 65535. The first row always fits. It
    /// takes no memory, and is never refused.
    pub fn new_v2(alloc: Global, block_size: u32) -> Result<BlockBuilder, SlateDBError>
        requires some { 1 ≤ block_size }
        requires few { block_size ≤ 65535 }
        ensures builder { IfOk result (λ b. b ≡ record { version = 2; size = block_size; rows = [] }) }
        ensures fine { IsOk result }
    {
        Ok(BlockBuilder::of_version(alloc, Version::V2, block_size))
    }

    /// A builder of a block of version 3, whose bytes are those of version 2: otherwise as by `new_v2`.
    pub fn new_v3(alloc: Global, block_size: u32) -> Result<BlockBuilder, SlateDBError>
        requires some { 1 ≤ block_size }
        requires few { block_size ≤ 65535 }
        ensures builder { IfOk result (λ b. b ≡ record { version = 3; size = block_size; rows = [] }) }
        ensures fine { IsOk result }
    {
        Ok(BlockBuilder::of_version(alloc, Version::V3, block_size))
    }

    /// A builder of a block of the latest version, which is 2: as by `new_v2`.
    pub fn new_latest(alloc: Global, block_size: u32) -> Result<BlockBuilder, SlateDBError>
        requires some { 1 ≤ block_size }
        requires few { block_size ≤ 65535 }
        ensures builder { IfOk result (λ b. b ≡ record { version = 2; size = block_size; rows = [] }) }
        ensures fine { IsOk result }
    {
        BlockBuilder::new_v2(alloc, block_size)
    }

    fn of_version(alloc: Global, version: Version, block_size: u32) -> BlockBuilder
        requires { block_size < 2 ^ 16 }
        ensures { result ≡ record { version = number version; size = block_size; rows = [] } }
    {
        BlockBuilder {
            block_size,
            part: RowsPart {
                version,
                body: Vec::new(alloc),
                offsets: Vec::new(alloc),
                num_rows: 0,
                front_key: Bytes::new(),
            },
        }
    }

    /// Whether a row fits behind those that were taken. The first row always does.
    pub fn would_fit(&self, entry: &RowEntry) -> bool
        requires { CanTake entry.now }
        ensures { result ≡ fits_in self.now.size self.now.version self.now.rows entry.now }
    {
        self.has_room(self.shared(entry), entry)
    }

    /// How many bytes of its key a row leaves out.
    fn shared(&self, entry: &RowEntry) -> usize
        ensures front { result ≡ longest (front_key self.now.version self.now.rows) entry.now.key }
        ensures within { result ≤ length entry.now.key }
    {
        compute_prefix(self.part.front_key.as_slice(), entry.key.as_slice())
    }

    fn has_room(&self, shared: usize, entry: &RowEntry) -> bool
        requires lengths { CanTake entry.now }
        requires front { shared ≡ longest (front_key self.now.version self.now.rows) entry.now.key }
        requires within { shared ≤ length entry.now.key }
        ensures { result ≡ fits_in self.now.size self.now.version self.now.rows entry.now }
    {
        self.part.num_rows == 0 || self.part.size_with(shared, entry) <= u64::from(self.block_size)
    }

    /// Whether no row was taken.
    pub fn is_empty(&self) -> bool
        ensures { result ≡ (length self.now.rows == 0) }
    {
        self.part.num_rows == 0
    }

    /// Takes a row, or answers false exactly where it doesn't fit. `EmptyKey` exactly for an empty key, or `OutOfMemory`.
    pub fn add(&mut self, entry: RowEntry) -> Result<bool, SlateDBError>
        requires { CanTake entry }
        ensures empty { (result ≡ Err SlateDBError.EmptyKey) ↔ (length entry.key ≡ 0) }
        ensures fits { IfOk result (λ is_taken. is_taken ≡ fits_in self.old.size self.old.version self.old.rows entry) }
        ensures taken { result ≡ Ok true → self.new ≡ with_row self.old entry }
        ensures refused { result ≡ Ok false → self.new ≡ self.old }
        ensures unchanged { OnErr result (self.new ≡ self.old) }
        ensures few { result ≡ Ok true → length self.new.rows < 2 ^ 16 }
        ensures cause { IfErr result (λ e. (e ≡ SlateDBError.EmptyKey) ⊎ (e ≡ SlateDBError.OutOfMemory)) }
    {
        if entry.key.is_empty() {
            drop(entry);
            return Err(SlateDBError::EmptyKey);
        }
        let shared = self.shared(&entry);
        if !self.has_room(shared, &entry) {
            drop(entry);
            return Ok(false);
        }
        self.part.append(shared, entry)?;
        Ok(true)
    }

    /// The block of the rows that were taken. `EmptyBlock` exactly where there are none, or `OutOfMemory`.
    pub fn build(self) -> Result<Block, SlateDBError>
        ensures empty { (result ≡ Err SlateDBError.EmptyBlock) ↔ (self.rows ≡ []) }
        ensures block { IfOk result (λ block. IsBlockOf block.body block.offsets.items self.version (map (as_read self.version) self.rows)) }
        ensures bytes { IfOk result (λ block. block_spelling block.body block.offsets.items ≡ block_bytes self.version self.rows) }
        ensures fits { OnOk result (FitsBlock self.version self.rows) }
        ensures cause { IfErr result (λ e. (e ≡ SlateDBError.EmptyBlock) ⊎ (e ≡ SlateDBError.OutOfMemory)) }
    {
        let BlockBuilder { part, .. } = self;
        if part.num_rows == 0 {
            drop(part);
            return Err(SlateDBError::EmptyBlock);
        }
        drop(part.front_key);
        let body = Bytes::from_vec(part.body)?;
        Ok(Block {
            body,
            offsets: part.offsets,
        })
    }

    /// The bytes of the block of the rows that were taken. `EmptyBlock` exactly where there are none, or `OutOfMemory`.
    pub fn encode(&self, alloc: Global) -> Result<Bytes, SlateDBError>
        ensures empty { (result ≡ Err SlateDBError.EmptyBlock) ↔ (self.now.rows ≡ []) }
        ensures bytes { IfOk result (λ bytes. bytes ≡ block_bytes self.now.version self.now.rows) }
        ensures fits { OnOk result (FitsBlock self.now.version self.now.rows) }
        ensures cause { IfErr result (λ e. (e ≡ SlateDBError.EmptyBlock) ⊎ (e ≡ SlateDBError.OutOfMemory)) }
    {
        if self.part.num_rows == 0 {
            return Err(SlateDBError::EmptyBlock);
        }
        encoded(alloc, self.part.body.as_slice(), &self.part.offsets)
    }
}
