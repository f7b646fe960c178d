//! Commits of transactions.
ghost use Rattle.std.specs.Prelude.{◌≡◌, [], false, map, Some};
ghost use Rattle.slate_types.specs.declared.error.SlateDBError.{SlateDBError};
ghost use Rattle.slate_types.specs.Faults.{faults_of};
ghost use Rattle.slate_types.specs.Outside.{IsFault, IsOperatorStill, OnlyReads};
ghost use Rattle.slate_types.specs.World.{IsCall};
ghost use Rattle.slate_mem.specs.BatchModel.{holds_merge};
ghost use Rattle.slate_txn.specs.Replay.{IsLegal};
ghost use Rattle.slate_txn.specs.Settings.{settings_of};
ghost use Rattle.slate_db.specs.Meaning.{segments_by};
ghost use Rattle.slate_db.specs.Prepared.{IsPrepared, lone_refusal, own_batch, prepared_for};
ghost use Rattle.slate_shared.specs.Ended.{HasEnded};
ghost use Rattle.slate_shared.specs.Given.{AreGiven};

use crate::database::Database;
use crate::handle::WriteHandle;
use crate::lock::{add, take};
use crate::parts::Parts;
use crate::pass::Pass;
use crate::plays::Merge;
use crate::txn::DbTransaction;
use slate_db::laws::Laws;
use slate_db::prepared::{Prepared, prepare};
use slate_filter::FilterPolicy;
use slate_store::{Env, EnvOf, Store};
use slate_types::{
    BlockTransformer, MergeOperator, Outside, PrefixExtractor, SlateDBError, WriteOptions,
};
use std::sync::Wait;

impl<P: Parts> DbTransaction<P> {
    /// Commits at a moment, by an event at the end of a journal that begins with what both have seen, and gives a handle of its
    /// sequence, or None where it has no operations. It ends either way. The operator is called before the lock is taken. Refuses by
    /// `Callback`, only where the operator's count of faults rose; by `TransactionConflict`, with the greatest sequence that conflicts,
    /// before all other tests; by `SequenceExhausted` where no sequence is left; by `MergeOperatorMissing` where it took a merge and there
    /// is no operator; upwards by key by `EmptySegmentPrefix` and by `IncompatibleMergeTtls`; by `InvalidSegmentPrefix`; and by
    /// `OutOfMemory`. Then it adds its end alone.
    pub fn commit<R: Wait, S: Store, M: MergeOperator, T: BlockTransformer, X: PrefixExtractor>(
        self,
        rt: &R,
        db: &Database<P>,
        pass: &mut Pass<P>,
        now: i64,
        env: &mut Env<'_, S, M, T>,
        laws: &Laws<X>,
    ) -> Result<Option<WriteHandle<P>>, SlateDBError>
        requires table { (self.table ≡ db.now) × (pass.old.table ≡ db.now) }
        requires laws { AreGiven P.options P.segments P.policies laws.now.options (segments_by X.lengths laws.now.segments) (map (λ p. (⟦<dyn FilterPolicy as FilterPolicy>⟧ p.vtable).meaning p.value) laws.now.policies.items) }
        requires parts { let reach = ⟦<EnvOf<S, M, T> as Outside>⟧.reach in (reach env.old).meaning ≡ P.meaning }
        ensures same { (pass.new.table ≡ pass.old.table) × (pass.new.parts ≡ pass.old.parts) }
        ensures ended { let reach = ⟦<EnvOf<S, M, T> as Outside>⟧.reach in HasEnded (IsFault (reach env.old) (reach env.new)) P.meaning P.segments (settings_of P.options) now self pass.old pass.new result }
        ensures legal { IsLegal P.options.start_seq pass.new.seen }
        ensures outside { env.new ≡ record env.old { operator = env.new.operator } }
        ensures still { IsOperatorStill (faults_of M.faults env.old.operator) (faults_of M.faults env.new.operator) result }
        ensures call { let reach = ⟦<EnvOf<S, M, T> as Outside>⟧.reach in IsCall (reach env.old) (reach env.new) [] }
        ensures reads { let reach = ⟦<EnvOf<S, M, T> as Outside>⟧.reach in OnlyReads (reach env.old) (reach env.new) }
        ensures unasked { (e : SlateDBError) → lone_refusal (prepared_for P.meaning.combine P.segments P.options.default_ttl_millis now (own_batch self.tx.ops)) ≡ Some e → env.new ≡ env.old }
        ensures plain { holds_merge self.tx.ops ≡ false → env.new ≡ env.old }
    {
        let prepared = prepare(
            self.alloc,
            self.own.batch(),
            now,
            laws.options.default_ttl_millis,
            &mut env.operator,
            &laws.segments,
        );
        match prepared {
            Ok(prepared) => self.settle(rt, db, pass, prepared, now),
            Err(error) => {
                self.rollback(rt, db, pass);
                Err(error)
            }
        }
    }

    /// Commits at the moment of the options. Refuses as `commit` does.
    pub fn commit_with_options<
        R: Wait,
        S: Store,
        M: MergeOperator,
        T: BlockTransformer,
        X: PrefixExtractor,
    >(
        self,
        rt: &R,
        db: &Database<P>,
        pass: &mut Pass<P>,
        options: &WriteOptions,
        env: &mut Env<'_, S, M, T>,
        laws: &Laws<X>,
    ) -> Result<Option<WriteHandle<P>>, SlateDBError>
        requires table { (self.table ≡ db.now) × (pass.old.table ≡ db.now) }
        requires laws { AreGiven P.options P.segments P.policies laws.now.options (segments_by X.lengths laws.now.segments) (map (λ p. (⟦<dyn FilterPolicy as FilterPolicy>⟧ p.vtable).meaning p.value) laws.now.policies.items) }
        requires parts { let reach = ⟦<EnvOf<S, M, T> as Outside>⟧.reach in (reach env.old).meaning ≡ P.meaning }
        ensures same { (pass.new.table ≡ pass.old.table) × (pass.new.parts ≡ pass.old.parts) }
        ensures ended { let reach = ⟦<EnvOf<S, M, T> as Outside>⟧.reach in HasEnded (IsFault (reach env.old) (reach env.new)) P.meaning P.segments (settings_of P.options) options.entry.now.now self pass.old pass.new result }
        ensures legal { IsLegal P.options.start_seq pass.new.seen }
        ensures outside { env.new ≡ record env.old { operator = env.new.operator } }
        ensures still { IsOperatorStill (faults_of M.faults env.old.operator) (faults_of M.faults env.new.operator) result }
        ensures call { let reach = ⟦<EnvOf<S, M, T> as Outside>⟧.reach in IsCall (reach env.old) (reach env.new) [] }
        ensures reads { let reach = ⟦<EnvOf<S, M, T> as Outside>⟧.reach in OnlyReads (reach env.old) (reach env.new) }
        ensures unasked { (e : SlateDBError) → lone_refusal (prepared_for P.meaning.combine P.segments P.options.default_ttl_millis options.entry.now.now (own_batch self.tx.ops)) ≡ Some e → env.new ≡ env.old }
        ensures plain { holds_merge self.tx.ops ≡ false → env.new ≡ env.old }
    {
        self.commit(rt, db, pass, options.now, env, laws)
    }

    /// Commits what was prepared of its operations, behind the lock.
    fn settle<R: Wait>(
        self,
        rt: &R,
        db: &Database<P>,
        pass: &mut Pass<P>,
        prepared: Prepared,
        now: i64,
    ) -> Result<Option<WriteHandle<P>>, SlateDBError>
        requires table { (self.table ≡ db.now) × (pass.old.table ≡ db.now) }
        requires prepared { IsPrepared (prepared_for P.meaning.combine P.segments P.options.default_ttl_millis now (own_batch self.tx.ops)) prepared }
        ensures same { (pass.new.table ≡ pass.old.table) × (pass.new.parts ≡ pass.old.parts) }
        ensures ended { HasEnded (λ e. e ≡ SlateDBError.OutOfMemory) P.meaning P.segments (settings_of P.options) now self pass.old pass.new result }
        ensures legal { IsLegal P.options.start_seq pass.new.seen }
    {
        let DbTransaction {
            alloc: _,
            seat,
            id,
            own,
            parts: _,
        } = self;
        let top = &db.board.shared;
        top.join_seat::<Merge>(&mut pass.seat, seat);
        let mut locked = take(rt, top, &mut pass.seat);
        let outcome = locked.commit(&id, own, prepared, now);
        add(top, &mut pass.seat, locked);
        handled(outcome)
    }
}

/// The same, with a handle of the sequence.
fn handled<P: Parts>(
    outcome: Result<Option<u64>, SlateDBError>,
) -> Result<Option<WriteHandle<P>>, SlateDBError>
    ensures { result ≡ outcome }
{
    match outcome {
        Ok(Some(seq)) => Ok(Some(WriteHandle::new(seq))),
        Ok(None) => Ok(None),
        Err(error) => Err(error),
    }
}
