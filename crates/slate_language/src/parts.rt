//! Parts that a run can name.
ghost use Rattle.std.specs.Prelude.{◌≡◌, IfOk, IsOkUnless};
ghost use Rattle.slate_language.specs.Parts as parts;

use bytes::Bytes;
use slate_types::{BlockTransformer, TransformError};
use std::alloc::Global;

/// Changes each byte by one number, by exclusive or: what it made twice is as before. It has no faults.
#[derive(Drop)]
pub struct Xor {
    pub mask: u8,
}

impl BlockTransformer for Xor {
    ghost encoded = { λ x. parts.xored x.mask };

    ghost decoded = { λ x. parts.xored x.mask };

    ghost faults = { λ _. 0 };

    fn encode(&mut self, alloc: Global, bytes: Bytes) -> Result<Bytes, TransformError> {
        xored(alloc, &bytes, self.mask)
    }

    fn decode(&mut self, alloc: Global, bytes: Bytes) -> Result<Bytes, TransformError> {
        xored(alloc, &bytes, self.mask)
    }
}

fn xored(alloc: Global, bytes: &[u8], mask: u8) -> Result<Bytes, TransformError>
    ensures bytes { IfOk result (λ made. made ≡ parts.xored mask bytes.now) }
    ensures cause { IsOkUnless result TransformError.OutOfMemory }
{
    let mut made = Vec::with_capacity(alloc, bytes.len())?;
    for byte in bytes {
        made.push(byte ^ mask)?;
    }
    Bytes::from_vec(made).map_err(TransformError::from)
}
