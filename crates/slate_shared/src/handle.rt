//! What a commit or a write gives.
ghost use Rattle.std.specs.Prelude.{◌≡◌};

use crate::parts::Parts;
use std::marker::{Model, PhantomData};

/// Of a commit or a write that stands in the journal. Contracts see it as its sequence.
#[derive(Drop)]
pub struct WriteHandle<P: Parts> {
    pub(crate) seq: u64,
    pub(crate) parts: PhantomData<P>,
}

impl<P: Parts> Model for WriteHandle<P> {
    ghost use Rattle.std.specs.Prelude.{ℕ};

    ghost Value = { ℕ };

    ghost view = { λ h. h.seq };
}

impl<P: Parts> WriteHandle<P> {
    pub(crate) fn new(seq: u64) -> WriteHandle<P>
        ensures { result ≡ seq }
    {
        WriteHandle {
            seq,
            parts: PhantomData,
        }
    }

    /// The sequence.
    pub fn seqnum(&self) -> u64
        ensures { result ≡ self.now }
    {
        self.seq
    }
}
