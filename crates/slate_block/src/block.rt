//! Blocks, and what is counted of them.
ghost use Rattle.std.specs.Prelude.{◌≡◌, ◌≤◌, ◌+◌, ◌*◌, ◌<◌, ◌^◌, ◌++◌, ◌⊎◌, ℕ, List, Some, length, flat_map, OnOk, IfOk, IfErr, IsOkUnless};
ghost use Rattle.slate_block.specs.RowSpelling.{be16};
ghost use Rattle.slate_block.specs.RowReading.{refusal};
ghost use Rattle.slate_block.specs.BlockReading.{IsApart, offsets_of_block};
ghost use Rattle.slate_block.specs.BlockSpelling.{block_spelling};

use crate::offsets::{counted_offsets, offsets_from};
use crate::writing::put;
use bytes::Bytes;
use slate_types::SlateDBError;
use std::alloc::Global;

/// A block of rows, taken apart: the rows' bytes, and where rows begin in them. In version 1 these are all rows, in
/// version 2 every sixteenth from the first on.
#[derive(PartialEq, Eq, Drop)]
pub struct Block {
    pub body: Bytes,
    pub offsets: Vec<u16>,
}

impl Block {
    /// The rows' bytes, the offsets, and their count. The one error is `OutOfMemory`.
    pub fn encode(&self, alloc: Global) -> Result<Bytes, SlateDBError>
        requires { length self.now.offsets.items < 2 ^ 16 }
        ensures spelling { IfOk result (λ bytes. bytes ≡ block_spelling self.now.body self.now.offsets.items) }
        ensures cause { IsOkUnless result SlateDBError.OutOfMemory }
    {
        encoded(alloc, self.body.as_slice(), &self.offsets)
    }

    /// Takes a block's bytes apart; the rows share their buffer. `CorruptTable` exactly where they are no rows' part and
    /// offsets that begin at 0, rise, and stand in the rows' part: with the place of the count, or of the first offset
    /// that fails; or `OutOfMemory`.
    pub fn decode(alloc: Global, mut bytes: Bytes) -> Result<Block, SlateDBError>
        ensures found { IfOk result (λ block. IsApart block.body block.offsets.items bytes) }
        ensures only { (body offsets : List ℕ) → IsApart body offsets bytes → IsOkUnless result SlateDBError.OutOfMemory }
        ensures cause { IfErr result (λ e. (e ≡ SlateDBError.OutOfMemory) ⊎ (refusal (offsets_of_block bytes) ≡ Some e)) }
    {
        let (end, count) = counted_offsets(bytes.as_slice())?;
        let offsets = offsets_from(alloc, count, end, bytes.as_slice())?;
        bytes.truncate(end);
        Ok(Block {
            body: bytes,
            offsets,
        })
    }

    /// How many bytes `encode` gives.
    #[tactic(auto, using(crate::proofs::OffsetLaws::block_len, crate::proofs::OffsetLaws::offsets_len))]
    pub fn size(&self) -> u64
        ensures { result ≡ length (block_spelling self.now.body self.now.offsets.items) }
    {
        let offsets = self.offsets.as_slice();
        self.body.len() as u64 + 2 * offsets.len() as u64 + 2
    }

    /// The size of a table's blocks: so many bytes of rows, with their offsets and the blocks' checksums.
    pub fn estimate_encoded_size(entries: u64, bytes: u64, blocks: u64) -> u64
        requires { bytes + 2 * entries + 4 * blocks < 2 ^ 64 }
        ensures { result ≡ bytes + 2 * entries + 4 * blocks }
    {
        bytes + 2 * entries + 4 * blocks
    }
}

/// The bytes of a block: the rows' part, the offsets, and their count.
pub(crate) fn encoded(alloc: Global, body: &[u8], offsets: &[u16]) -> Result<Bytes, SlateDBError>
    requires { length offsets.now < 2 ^ 16 }
    ensures spelling { IfOk result (λ bytes. bytes ≡ block_spelling body.now offsets.now) }
    ensures cause { IsOkUnless result SlateDBError.OutOfMemory }
{
    let mut out = Vec::with_capacity(alloc, body.len() + 2 * offsets.len() + 2)?;
    put(&mut out, body);
    for offset in offsets {
        put(&mut out, &offset.to_be_bytes());
    }
    put(&mut out, &(offsets.len() as u16).to_be_bytes());
    Bytes::from_vec(out).map_err(SlateDBError::from)
}

/// How many rows of each kind a block has.
#[derive(Clone, Copy, Default, PartialEq, Eq)]
pub struct BlockStats {
    pub num_puts: u16,
    pub num_deletes: u16,
    pub num_merges: u16,
}
