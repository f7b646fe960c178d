//! What the iterators need of a block.
ghost use Rattle.std.specs.Prelude.{◌≡◌, ℕ, List};

use crate::block::Block;
use bytes::Bytes;
use std::sync::Arc;

/// A block that is owned, lent or shared.
pub trait BlockLike: Drop {
    ghost body_bytes: { Self → List ℕ };

    ghost row_offsets: { Self → List ℕ };

    /// The rows' bytes.
    fn body(&self) -> &Bytes
        ensures { result.now ≡ body_bytes self.now };

    /// Where rows begin in them.
    fn offsets(&self) -> &[u16]
        ensures { result.now ≡ row_offsets self.now };
}

impl BlockLike for Block {
    ghost body_bytes = { λ b. b.body };

    ghost row_offsets = { λ b. b.offsets.items };

    fn body(&self) -> &Bytes {
        &self.body
    }

    fn offsets(&self) -> &[u16] {
        &self.offsets
    }
}

impl BlockLike for &Block {
    ghost body_bytes = { λ b. b.now.body };

    ghost row_offsets = { λ b. b.now.offsets.items };

    fn body(&self) -> &Bytes {
        &self.body
    }

    fn offsets(&self) -> &[u16] {
        &self.offsets
    }
}

impl BlockLike for Arc<Block> {
    ghost body_bytes = { λ b. b.value.body };

    ghost row_offsets = { λ b. b.value.offsets.items };

    fn body(&self) -> &Bytes {
        let block: &Block = self;
        &block.body
    }

    fn offsets(&self) -> &[u16] {
        let block: &Block = self;
        &block.offsets
    }
}
