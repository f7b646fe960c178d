//! What reads of the keys in a range take of what lies behind the lock.
ghost use Rattle.std.specs.Prelude.{◌≡◌, IfOk, IsOkUnless};
ghost use Rattle.slate_types.specs.declared.error.SlateDBError.{SlateDBError};
ghost use Rattle.slate_txn.specs.Settings.{settings_of};
ghost use Rattle.slate_db.specs.Model.{CoreModel};
ghost use Rattle.slate_db.specs.RangeShares.{IsRangeShare};
ghost use Rattle.slate_shared.specs.KeyReads.{IsTaken};

use crate::locked::Locked;
use crate::parts::Parts;
use slate_db::range_share::RangeShare;
use slate_types::{BytesRange, SlateDBError};

impl<P: Parts> Locked<P> {
    /// What reads of the keys in a range at a sequence take of the core as it is now. The one error is `OutOfMemory`.
    pub(crate) fn share_range(
        &mut self,
        range: &BytesRange,
        at: u64,
    ) -> Result<RangeShare, SlateDBError>
        ensures same { self.new ≡ self.old }
        ensures shared { IfOk result (λ s. (c : CoreModel) × IsTaken (settings_of P.options) P.meaning P.segments self.old.events c × IsRangeShare c range.now at s) }
        ensures cause { IsOkUnless result SlateDBError.OutOfMemory }
    {
        self.core.journal();
        self.core.share_range(range, at)
    }
}
