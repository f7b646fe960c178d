//! Writes of batches by themselves.
ghost use Rattle.std.specs.Prelude.{◌≡◌, [], false, map, None, Some, Ok};
ghost use Rattle.slate_types.specs.declared.error.SlateDBError.{SlateDBError};
ghost use Rattle.slate_types.specs.Faults.{faults_of};
ghost use Rattle.slate_types.specs.Outside.{IsFault, IsOperatorStill, OnlyReads};
ghost use Rattle.slate_types.specs.World.{IsCall};
ghost use Rattle.slate_mem.specs.BatchModel.{BatchModel};
ghost use Rattle.slate_txn.specs.Settings.{settings_of};
ghost use Rattle.slate_db.specs.Meaning.{segments_by};
ghost use Rattle.slate_db.specs.Prepared.{IsPrepared, lone_refusal, prepared_for};
ghost use Rattle.slate_shared.specs.Ended.{HasWritten};
ghost use Rattle.slate_shared.specs.Given.{AreGiven};

use crate::database::Database;
use crate::handle::WriteHandle;
use crate::lock::{add, keep, take};
use crate::parts::Parts;
use crate::pass::Pass;
use slate_db::laws::Laws;
use slate_db::prepared::{Prepared, prepare};
use slate_filter::FilterPolicy;
use slate_mem::WriteBatch;
use slate_store::{Env, EnvOf, Store};
use slate_types::{BlockTransformer, MergeOperator, Outside, PrefixExtractor, SlateDBError};
use std::sync::Wait;

impl<P: Parts> Pass<P> {
    /// Commits a batch by itself at a moment, by an event at the end of a journal that begins with what the pass has seen, and gives a
    /// handle of its sequence. A batch without operations commits nothing, and is never refused. The operator is called before the lock
    /// is taken. Refuses by `Callback`, only where the operator's count of faults rose; by `SequenceExhausted` where no sequence is left;
    /// by `MergeOperatorMissing` where it took a merge and there is no operator; upwards by key by `EmptySegmentPrefix` and by
    /// `IncompatibleMergeTtls`; by `InvalidSegmentPrefix`; by `LimitReached` where the journal has no place for the event; and by
    /// `OutOfMemory`. Then nothing is committed, and no event is added.
    pub fn write<R: Wait, S: Store, M: MergeOperator, T: BlockTransformer, X: PrefixExtractor>(
        &mut self,
        rt: &R,
        db: &Database<P>,
        batch: WriteBatch,
        now: i64,
        env: &mut Env<'_, S, M, T>,
        laws: &Laws<X>,
    ) -> Result<Option<WriteHandle<P>>, SlateDBError>
        requires table { self.old.table ≡ db.now }
        requires laws { AreGiven P.options P.segments P.policies laws.now.options (segments_by X.lengths laws.now.segments) (map (λ p. (⟦<dyn FilterPolicy as FilterPolicy>⟧ p.vtable).meaning p.value) laws.now.policies.items) }
        requires parts { let reach = ⟦<EnvOf<S, M, T> as Outside>⟧.reach in (reach env.old).meaning ≡ P.meaning }
        ensures same { (self.new.table ≡ self.old.table) × (self.new.parts ≡ self.old.parts) }
        ensures written { let reach = ⟦<EnvOf<S, M, T> as Outside>⟧.reach in HasWritten (IsFault (reach env.old) (reach env.new)) P.meaning P.segments (settings_of P.options) now batch self.old self.new result }
        ensures idle { batch.ops ≡ [] → (result ≡ Ok None) × (self.new ≡ self.old) }
        ensures outside { env.new ≡ record env.old { operator = env.new.operator } }
        ensures still { IsOperatorStill (faults_of M.faults env.old.operator) (faults_of M.faults env.new.operator) result }
        ensures call { let reach = ⟦<EnvOf<S, M, T> as Outside>⟧.reach in IsCall (reach env.old) (reach env.new) [] }
        ensures reads { let reach = ⟦<EnvOf<S, M, T> as Outside>⟧.reach in OnlyReads (reach env.old) (reach env.new) }
        ensures unasked { (e : SlateDBError) → lone_refusal (prepared_for P.meaning.combine P.segments P.options.default_ttl_millis now batch) ≡ Some e → env.new ≡ env.old }
        ensures plain { batch.held_merge ≡ false → env.new ≡ env.old }
    {
        if batch.is_empty() {
            drop(batch);
            return Ok(None);
        }
        let prepared = prepare(
            db.alloc,
            &batch,
            now,
            laws.options.default_ttl_millis,
            &mut env.operator,
            &laws.segments,
        );
        drop(batch);
        match prepared {
            Ok(prepared) => self.put_prepared(rt, db, prepared, now),
            Err(error) => Err(error),
        }
    }

    /// Commits what was prepared of a batch, behind the lock.
    fn put_prepared<R: Wait>(
        &mut self,
        rt: &R,
        db: &Database<P>,
        prepared: Prepared,
        now: i64,
    ) -> Result<Option<WriteHandle<P>>, SlateDBError>
        requires table { self.old.table ≡ db.now }
        requires prepared { (b : BatchModel) × IsPrepared (prepared_for P.meaning.combine P.segments P.options.default_ttl_millis now b) prepared }
        ensures same { (self.new.table ≡ self.old.table) × (self.new.parts ≡ self.old.parts) }
        ensures written { (b : BatchModel) → IsPrepared (prepared_for P.meaning.combine P.segments P.options.default_ttl_millis now b) prepared → HasWritten (λ e. e ≡ SlateDBError.OutOfMemory) P.meaning P.segments (settings_of P.options) now b self.old self.new result }
    {
        let top = &db.board.shared;
        let mut locked = take(rt, top, &mut self.seat);
        match locked.write(prepared, now) {
            Ok(Some(seq)) => {
                add(top, &mut self.seat, locked);
                Ok(Some(WriteHandle::new(seq)))
            }
            Ok(None) => {
                keep(top, &mut self.seat, locked);
                Ok(None)
            }
            Err(refused) => {
                keep(top, &mut self.seat, locked);
                Err(refused)
            }
        }
    }
}
