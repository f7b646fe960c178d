//! Calls of a core that take a prepared batch, so that no operator is called in them.
ghost use Rattle.std.specs.Prelude.{◌≡◌, ◌+◌, ◌-◌, ◌<◌, false, Err, IsSome, None, Some};
ghost use Rattle.slate_types.specs.declared.error.SlateDBError.{SlateDBError};
ghost use Rattle.slate_mem.specs.BatchModel.{BatchModel, holds_merge};
ghost use Rattle.slate_mem.specs.KeyTests.{Segments};
ghost use Rattle.slate_txn.specs.Named.{find_named};
ghost use Rattle.slate_txn.specs.State.{Tx};
ghost use Rattle.slate_db.specs.Meaning.{Meaning};
ghost use Rattle.slate_db.specs.Operated.{operated};
ghost use Rattle.slate_db.specs.Prepared.{WasPrepared, own_batch};
ghost use Rattle.slate_db.specs.Segmented.{IsSegmented};
ghost use Rattle.slate_db.specs.Sound.{IsKept};
ghost use Rattle.slate_db.specs.Calls.Commit.{CommitsPrepared};
ghost use Rattle.slate_db.specs.Calls.Write.{WritesPrepared};

use super::Core;
use crate::commit::Made;
use crate::commit_prepared::make_prepared;
use crate::prepared::Prepared;
use crate::write_prepared::put_alone;
use slate_txn::DbTransactionInner;
use slate_types::SlateDBError;
use uuid::Uuid;

impl Core {
    /// Commits an open transaction at a moment, whose batch was prepared for it, and gives its sequence, or None where it has no
    /// operations. It ends either way. It calls no operator. Refuses by `TransactionConflict`, with the greatest sequence that
    /// conflicts, before all other tests; by `SequenceExhausted` where no sequence is left; by what the batch is refused for by itself;
    /// by `InvalidSegmentPrefix` with the least of its prefixes that nests with another of its own or of an earlier commit, and the
    /// least such other; and by `OutOfMemory`. Then nothing is committed, and no prefix is recorded.
    pub fn commit_prepared(
        &mut self,
        id: &Uuid,
        prepared: Prepared,
        now: i64,
    ) -> Result<Option<u64>, SlateDBError>
        requires open { IsSome (find_named id.now self.old.state.txns) }
        requires prepared { (t : Tx) → find_named id.now self.old.state.txns ≡ Some t → WasPrepared self.old.settings.default_millis now (own_batch t.ops) prepared }
        ensures { CommitsPrepared id.now now prepared self.old self.new result }
    {
        let Some(owned) = self.transactions.take(id) else {
            unreachable!()
        };
        let last = self.log.last();
        let made = make_prepared(
            self.alloc,
            &mut self.segments,
            &mut self.layers,
            &mut self.manager,
            id,
            owned,
            prepared,
            last,
        );
        match made {
            Ok(made) => {
                let Made {
                    seq,
                    ops,
                    tracked,
                    transcript,
                } = made;
                self.log
                    .push_commit(*id, seq, now, ops, tracked, transcript);
                Ok(seq)
            }
            Err(error) => {
                self.manager.drop_txn(id);
                self.log.push_end(*id);
                Err(error)
            }
        }
    }

    /// Puts what a transaction did and saw in the place of what the open one under this id did and saw here, where both began alike. It
    /// takes no memory.
    pub fn hand_over(&mut self, id: &Uuid, own: DbTransactionInner)
        requires { (t : Tx) × (find_named id.now self.old.state.txns ≡ Some t) × (t.level ≡ own.level) × (t.begin ≡ own.begin) }
        ensures given { self.new ≡ operated self.old id.now (λ _. own) }
        ensures found { find_named id.now self.new.state.txns ≡ Some own }
        ensures kept { (m : Meaning) → (m.combine ≡ None → holds_merge own.ops ≡ false) → IsKept m self.old → IsKept m self.new }
        ensures segmented { (g : Segments) → IsSegmented g self.old → IsSegmented g self.new }
    {
        own.batch();
        self.transactions.put_back(id, own);
    }

    /// Commits a batch by itself, which was prepared, at the next sequence, which it gives. An empty batch commits nothing, and is never
    /// refused. It calls no operator. Refuses by `SequenceExhausted` where no sequence is left; by what the batch is refused for by
    /// itself; by `InvalidSegmentPrefix` with the least of its prefixes that nests with another of its own or of an earlier commit, and
    /// the least such other; by `LimitReached` where the journal has no place for the event; and by `OutOfMemory`. Then nothing is
    /// committed, and no prefix is recorded.
    pub fn write_prepared(
        &mut self,
        prepared: Prepared,
        now: i64,
    ) -> Result<Option<u64>, SlateDBError>
        requires prepared { (b : BatchModel) × WasPrepared self.old.settings.default_millis now b prepared }
        ensures { WritesPrepared prepared now self.old self.new result }
    {
        if prepared.is_empty() {
            return Ok(None);
        }
        let last = self.log.last();
        if last >= 18446744073709551614 {
            return Err(SlateDBError::SequenceExhausted);
        }
        let ops = put_alone(
            self.alloc,
            &mut self.segments,
            &mut self.layers,
            &mut self.manager,
            &mut self.log,
            prepared,
            last,
        )?;
        self.log.push_write(now, ops);
        Ok(Some(last + 1))
    }
}
