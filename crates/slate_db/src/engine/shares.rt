//! What reads take of a core, which may change meanwhile.
ghost use Rattle.std.specs.Prelude.{◌≡◌, IfOk, IsOkUnless};
ghost use Rattle.slate_types.specs.declared.error.SlateDBError.{SlateDBError};
ghost use Rattle.slate_db.specs.KeyShares.{IsKeyShare};
ghost use Rattle.slate_db.specs.RangeShares.{IsRangeShare};

use crate::engine::Core;
use crate::key_share::KeyShare;
use crate::range_share::RangeShare;
use bytes::Bytes;
use slate_types::{BytesRange, SlateDBError};

impl Core {
    /// What a read of a key at a sequence takes of the core: `KeyShare::seen` then reads without it, and sees what it has now. It
    /// searches the rows in memory alone, and takes no copy of tables but the first after a flush. The one error is `OutOfMemory`.
    pub fn share_key(&mut self, key: &Bytes, at: u64) -> Result<KeyShare, SlateDBError>
        ensures same { self.new ≡ self.old }
        ensures shared { IfOk result (IsKeyShare self.old key.now at) }
        ensures cause { IsOkUnless result SlateDBError.OutOfMemory }
    {
        self.layers.share_key(self.alloc, key, at)
    }

    /// What reads of the keys in a range at a sequence take of the core: `RangeShare::seen` and `RangeShare::opened` then read
    /// without it, and see what it has now. It copies the range's rows up to the sequence that aren't frozen, which share keys and
    /// values, and shares the tables that are frozen and the runs. The one error is `OutOfMemory`.
    pub fn share_range(&mut self, range: &BytesRange, at: u64) -> Result<RangeShare, SlateDBError>
        ensures same { self.new ≡ self.old }
        ensures shared { IfOk result (IsRangeShare self.old range.now at) }
        ensures cause { IsOkUnless result SlateDBError.OutOfMemory }
    {
        self.layers.share_range(self.alloc, range, at)
    }
}
