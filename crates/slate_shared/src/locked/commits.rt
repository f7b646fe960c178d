//! Commits and writes behind the lock.
ghost use Rattle.std.specs.Prelude.{◌≡◌, Some};
ghost use Rattle.slate_types.specs.declared.error.SlateDBError.{SlateDBError};
ghost use Rattle.slate_mem.specs.BatchModel.{BatchModel};
ghost use Rattle.slate_txn.specs.Named.{find_named};
ghost use Rattle.slate_txn.specs.Replay.{replay};
ghost use Rattle.slate_txn.specs.Settings.{settings_of};
ghost use Rattle.slate_txn.specs.State.{begun};
ghost use Rattle.slate_db.specs.Prepared.{IsPrepared, own_batch, prepared_for};
ghost use Rattle.slate_shared.specs.Ended.{behind_write, end_event, IsEnding, IsWriting};
ghost use Rattle.slate_shared.specs.LockedModel.{grow, holds_at};

use crate::locked::Locked;
use crate::parts::Parts;
use slate_db::prepared::Prepared;
use slate_txn::DbTransactionInner;
use slate_types::SlateDBError;
use uuid::Uuid;

impl<P: Parts> Locked<P> {
    /// Commits an open transaction by what it did and saw, whose batch was prepared. It ends either way. Calls no operator.
    pub(crate) fn commit(
        &mut self,
        id: &Uuid,
        own: DbTransactionInner,
        prepared: Prepared,
        now: i64,
    ) -> Result<Option<u64>, SlateDBError>
        requires open { find_named id.now (replay self.old.events).txns ≡ Some (begun own.level own.begin) }
        requires prepared { IsPrepared (prepared_for P.meaning.combine P.segments P.options.default_ttl_millis now (own_batch own.ops)) prepared }
        ensures grows { self.new ≡ grow self.old (end_event id.now now own result) }
        ensures ends { IsEnding (λ e. e ≡ SlateDBError.OutOfMemory) P.meaning P.segments (settings_of P.options) now self.old.events own result }
    {
        self.core.journal();
        self.core.hand_over(id, own);
        let committed = self.core.commit_prepared(id, prepared, now);
        self.core.journal();
        committed
    }

    /// Commits a batch by itself, which was prepared. Calls no operator. Where it is empty or refused, the journal is as it was.
    pub(crate) fn write(
        &mut self,
        prepared: Prepared,
        now: i64,
    ) -> Result<Option<u64>, SlateDBError>
        requires prepared { (b : BatchModel) × IsPrepared (prepared_for P.meaning.combine P.segments P.options.default_ttl_millis now b) prepared }
        ensures grows { self.new ≡ holds_at (behind_write self.old.events now prepared.ops result) self.old.flight }
        ensures writes { (b : BatchModel) → IsPrepared (prepared_for P.meaning.combine P.segments P.options.default_ttl_millis now b) prepared → IsWriting (λ e. e ≡ SlateDBError.OutOfMemory) P.meaning P.segments (settings_of P.options) now self.old.events b result }
    {
        self.core.journal();
        let written = self.core.write_prepared(prepared, now);
        self.core.journal();
        written
    }
}
