//! Reads of a transaction. The lock is held while what they take is taken, and not while tables are read.
ghost use Rattle.std.specs.Prelude.{◌≡◌, ◌⊎◌, map, option_and_then, option_map, true, false, None, Option, Result, Err, IfOk, OnErr, IsOkUnless};
ghost use mathlib.Core.List.{IsPrefix};
ghost use Rattle.slate_types.specs.declared.error.SlateDBError.{SlateDBError};
ghost use Rattle.slate_types.specs.declared.types.KeyValue.{KeyValue};
ghost use Rattle.slate_types.specs.Outside.{OnlyReads};
ghost use Rattle.slate_types.specs.Rows.{hide_tombstone, key_value};
ghost use Rattle.slate_table.specs.Filtered.{point_query};
ghost use Rattle.slate_txn.specs.Alone.{own_of};
ghost use Rattle.slate_db.specs.KeyShares.{IsFolded, IsKeyRead, IsKeyShare, IsOwnAnswer};
ghost use Rattle.slate_db.specs.Meaning.{segments_by};
ghost use Rattle.slate_db.specs.Model.{CoreModel};
ghost use Rattle.slate_db.specs.Readable.{decides_own};
ghost use Rattle.slate_db.specs.Shown.{Asking};
ghost use Rattle.slate_shared.specs.Given.{AreGiven};
ghost use Rattle.slate_shared.specs.KeyReads.{IsCoreOf, IsGet, got, valued};

use crate::database::Database;
use crate::lock::{keep, take};
use crate::parts::Parts;
use crate::txn::DbTransaction;
use bytes::Bytes;
use slate_db::key_share::{KeyShare, fold_own};
use slate_db::laws::Laws;
use slate_db::lookup::query_of;
use slate_filter::FilterPolicy;
use slate_mem::fold::answer;
use slate_mem::lookup::is_decided;
use slate_store::{Env, EnvOf, Store};
use slate_types::{
    BlockTransformer, FilterContext, KeyValue, MergeOperator, Outside, PrefixExtractor,
    ReadOptions, RowEntry, SlateDBError,
};
use std::sync::Wait;

impl<P: Parts> DbTransaction<P> {
    /// What a read of a key takes, in one step of the lock, which leaves the journal as it was.
    fn share_key<R: Wait>(
        &mut self,
        rt: &R,
        db: &Database<P>,
        key: &Bytes,
    ) -> Result<KeyShare, SlateDBError>
        requires table { self.old.table ≡ db.now }
        requires own { self.old.tx.ops ≡ own_of self.old.tx.transcript }
        ensures same { self.new ≡ record self.old { seen = self.new.seen } }
        ensures seen { IsPrefix self.old.seen self.new.seen }
        ensures shared { IfOk result (λ s. (c : CoreModel) × IsCoreOf P.options P.meaning self.old self.new.seen c
            × IsKeyShare c key.now self.old.tx.begin s) }
        ensures cause { IsOkUnless result SlateDBError.OutOfMemory }
    {
        let top = &db.board.shared;
        let mut locked = take(rt, top, &mut self.seat);
        let share = locked.share_key(key, self.own.begin());
        keep(top, &mut self.seat, locked);
        share
    }

    /// The row that it sees at a key: its own operations lie above the rows at its start, and where one of them decides, no lock is
    /// taken, and nothing is read.
    fn seen<R: Wait, S: Store, M: MergeOperator, T: BlockTransformer, X: PrefixExtractor>(
        &mut self,
        rt: &R,
        db: &Database<P>,
        key: &Bytes,
        context: &Option<FilterContext>,
        env: &mut Env<'_, S, M, T>,
        laws: &Laws<X>,
    ) -> Result<Option<RowEntry>, SlateDBError>
        requires { self.old.table ≡ db.now }
        ensures same { self.new ≡ record self.old { seen = self.new.seen } }
        ensures seen { IsPrefix self.old.seen self.new.seen }
        ensures own { self.old.tx.ops ≡ own_of self.old.tx.transcript }
        ensures decided { let reach = ⟦<EnvOf<S, M, T> as Outside>⟧.reach in
            decides_own key.now self.old.tx.ops ≡ true → (self.new ≡ self.old) × (env.new ≡ record env.old { operator = env.new.operator })
            × IsOwnAnswer (reach env.old) (reach env.new) key.now self.old.tx IsFolded result }
        ensures read { let reach = ⟦<EnvOf<S, M, T> as Outside>⟧.reach in
            let policies = map (λ p. (⟦<dyn FilterPolicy as FilterPolicy>⟧ p.vtable).meaning p.value) laws.now.policies.items in
            let by : Asking = record { policies = policies; query = point_query key.now context.now } in
            decides_own key.now self.old.tx.ops ≡ false → ((result ≡ Err SlateDBError.OutOfMemory) × (reach env.new ≡ reach env.old))
            ⊎ ((c : CoreModel) × IsCoreOf P.options P.meaning self.old self.new.seen c
            × IsKeyRead by (reach env.old) (reach env.new) c key.now self.old.tx IsFolded result) }
        ensures reads { let reach = ⟦<EnvOf<S, M, T> as Outside>⟧.reach in OnlyReads (reach env.old) (reach env.new) }
    {
        let alloc = self.alloc;
        let at = self.own.begin();
        let own = self.own.own_rows(alloc, key)?;
        if is_decided(&own) {
            return fold_own(alloc, own, env);
        }
        let query = query_of(key, context)?;
        let share = self.share_key(rt, db, key)?;
        share.seen(alloc, own, key, at, laws.policies.as_slice(), &query, env)
    }

    /// What it sees at a key, and `None` where that is nothing, as at a key that no row can have: its own operations lie above the
    /// commits up to its start. Where one of its own decides, no lock is taken and no store is asked. Else one step of the lock, which
    /// leaves the journal as it was, takes what is read, and tables are read without it: so the answer is that of the journal which the
    /// transaction has then seen. It is recorded in the transcript.
    ///
    /// Refuses as `Core::get` does, and then nothing is recorded.
    pub fn get_key_value_with_options<
        R: Wait,
        S: Store,
        M: MergeOperator,
        T: BlockTransformer,
        X: PrefixExtractor,
    >(
        &mut self,
        rt: &R,
        db: &Database<P>,
        key: &[u8],
        options: &ReadOptions,
        env: &mut Env<'_, S, M, T>,
        laws: &Laws<X>,
    ) -> Result<Option<KeyValue>, SlateDBError>
        requires table { self.old.table ≡ db.now }
        requires meaning { let reach = ⟦<EnvOf<S, M, T> as Outside>⟧.reach in (reach env.old).meaning ≡ P.meaning }
        requires laws { let policies = map (λ p. (⟦<dyn FilterPolicy as FilterPolicy>⟧ p.vtable).meaning p.value) laws.now.policies.items in
            AreGiven P.options P.segments P.policies laws.now.options (segments_by X.lengths laws.now.segments) policies }
        ensures read { let reach = ⟦<EnvOf<S, M, T> as Outside>⟧.reach in
            let by : Asking = record { policies = P.policies; query = point_query key.now options.now.filter_context } in
            IsGet P.options P.meaning by key.now self.old self.new (reach env.old) (reach env.new) result }
        ensures outside { decides_own key.now self.old.tx.ops ≡ true → env.new ≡ record env.old { operator = env.new.operator } }
    {
        let key = Bytes::copy_from_slice(self.alloc, key)?;
        match self.seen(rt, db, &key, &options.filter_context, env, laws) {
            Ok(row) => self.note(key, row),
            Err(error) => {
                drop(key);
                Err(error)
            }
        }
    }

    /// As `get_key_value_with_options`, with default options.
    pub fn get_key_value<
        R: Wait,
        S: Store,
        M: MergeOperator,
        T: BlockTransformer,
        X: PrefixExtractor,
    >(
        &mut self,
        rt: &R,
        db: &Database<P>,
        key: &[u8],
        env: &mut Env<'_, S, M, T>,
        laws: &Laws<X>,
    ) -> Result<Option<KeyValue>, SlateDBError>
        requires table { self.old.table ≡ db.now }
        requires meaning { let reach = ⟦<EnvOf<S, M, T> as Outside>⟧.reach in (reach env.old).meaning ≡ P.meaning }
        requires laws { let policies = map (λ p. (⟦<dyn FilterPolicy as FilterPolicy>⟧ p.vtable).meaning p.value) laws.now.policies.items in
            AreGiven P.options P.segments P.policies laws.now.options (segments_by X.lengths laws.now.segments) policies }
        ensures read { let reach = ⟦<EnvOf<S, M, T> as Outside>⟧.reach in
            let by : Asking = record { policies = P.policies; query = point_query key.now None } in
            IsGet P.options P.meaning by key.now self.old self.new (reach env.old) (reach env.new) result }
        ensures outside { decides_own key.now self.old.tx.ops ≡ true → env.new ≡ record env.old { operator = env.new.operator } }
    {
        let options = ReadOptions {
            filter_context: None,
        };
        self.get_key_value_with_options(rt, db, key, &options, env, laws)
    }

    /// The value of the row that `get_key_value_with_options` gives. It takes a lock, reads, refuses and records as that does.
    pub fn get_with_options<
        R: Wait,
        S: Store,
        M: MergeOperator,
        T: BlockTransformer,
        X: PrefixExtractor,
    >(
        &mut self,
        rt: &R,
        db: &Database<P>,
        key: &[u8],
        options: &ReadOptions,
        env: &mut Env<'_, S, M, T>,
        laws: &Laws<X>,
    ) -> Result<Option<Bytes>, SlateDBError>
        requires table { self.old.table ≡ db.now }
        requires meaning { let reach = ⟦<EnvOf<S, M, T> as Outside>⟧.reach in (reach env.old).meaning ≡ P.meaning }
        requires laws { let policies = map (λ p. (⟦<dyn FilterPolicy as FilterPolicy>⟧ p.vtable).meaning p.value) laws.now.policies.items in
            AreGiven P.options P.segments P.policies laws.now.options (segments_by X.lengths laws.now.segments) policies }
        ensures read { let reach = ⟦<EnvOf<S, M, T> as Outside>⟧.reach in
            let by : Asking = record { policies = P.policies; query = point_query key.now options.now.filter_context } in
            (row : Result (Option KeyValue) SlateDBError) × (result ≡ valued row) ×
            IsGet P.options P.meaning by key.now self.old self.new (reach env.old) (reach env.new) row }
        ensures outside { decides_own key.now self.old.tx.ops ≡ true → env.new ≡ record env.old { operator = env.new.operator } }
    {
        let found = self.get_key_value_with_options(rt, db, key, options, env, laws);
        value_of(found)
    }

    /// As `get_with_options`, with default options.
    pub fn get<R: Wait, S: Store, M: MergeOperator, T: BlockTransformer, X: PrefixExtractor>(
        &mut self,
        rt: &R,
        db: &Database<P>,
        key: &[u8],
        env: &mut Env<'_, S, M, T>,
        laws: &Laws<X>,
    ) -> Result<Option<Bytes>, SlateDBError>
        requires table { self.old.table ≡ db.now }
        requires meaning { let reach = ⟦<EnvOf<S, M, T> as Outside>⟧.reach in (reach env.old).meaning ≡ P.meaning }
        requires laws { let policies = map (λ p. (⟦<dyn FilterPolicy as FilterPolicy>⟧ p.vtable).meaning p.value) laws.now.policies.items in
            AreGiven P.options P.segments P.policies laws.now.options (segments_by X.lengths laws.now.segments) policies }
        ensures read { let reach = ⟦<EnvOf<S, M, T> as Outside>⟧.reach in
            let by : Asking = record { policies = P.policies; query = point_query key.now None } in
            (row : Result (Option KeyValue) SlateDBError) × (result ≡ valued row) ×
            IsGet P.options P.meaning by key.now self.old self.new (reach env.old) (reach env.new) row }
        ensures outside { decides_own key.now self.old.tx.ops ≡ true → env.new ≡ record env.old { operator = env.new.operator } }
    {
        let options = ReadOptions {
            filter_context: None,
        };
        self.get_with_options(rt, db, key, &options, env, laws)
    }

    /// Notes what was seen at a key, and gives it. Where memory is wanting nothing is noted.
    fn note(&mut self, key: Bytes, row: Option<RowEntry>) -> Result<Option<KeyValue>, SlateDBError>
        ensures noted { IfOk result (λ a. (a ≡ option_map key_value (option_and_then (λ r. hide_tombstone r.value r) row))
            × (self.new ≡ record self.old { tx = got key a self.old.tx })) }
        ensures same { OnErr result (self.new ≡ self.old) }
        ensures cause { IsOkUnless result SlateDBError.OutOfMemory }
    {
        let found = answer(row);
        if let Err(error) = self.own.note_get(self.alloc, key, &found) {
            drop(found);
            return Err(SlateDBError::from(error));
        }
        Ok(found)
    }
}

/// The value in place of its row.
fn value_of(found: Result<Option<KeyValue>, SlateDBError>) -> Result<Option<Bytes>, SlateDBError>
    ensures { result ≡ valued found }
{
    match found {
        Ok(Some(KeyValue { value, .. })) => Ok(Some(value)),
        Ok(None) => Ok(None),
        Err(error) => Err(error),
    }
}
