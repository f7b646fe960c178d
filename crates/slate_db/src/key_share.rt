//! Reads of a key over what was taken of layers, which change meanwhile.
ghost use Rattle.std.specs.Prelude.{◌≡◌, ◌++◌, ℕ, List, map, reverse};
ghost use Rattle.slate_types.specs.declared.filter_policy.PrefixTarget.{PrefixTarget};
ghost use Rattle.slate_types.specs.Outside.{OnlyReads};
ghost use Rattle.slate_mem.specs.Batch.{kept};
ghost use Rattle.slate_mem.specs.RowOf.{own_row};
ghost use Rattle.slate_txn.specs.State.{Tx};
ghost use Rattle.slate_db.specs.KeyShares.{IsFolded, IsKeyShare, IsOwnAnswer, IsSeen, IsUnder, Stands};
ghost use Rattle.slate_db.specs.Log.{AreFine};
ghost use Rattle.slate_db.specs.Model.{CoreModel, Rows};
ghost use Rattle.slate_db.specs.Shown.{Asking};

use crate::lookup::newest_of_runs;
use crate::run_list::SharedRuns;
use bytes::Bytes;
use slate_filter::FilterPolicy;
use slate_read::SortedRun;
use slate_store::{Env, EnvOf, Store};
use slate_txn::fold::fold_found;
use slate_types::{BlockTransformer, FilterQuery, MergeOperator, Outside, RowEntry, SlateDBError};
use std::alloc::Global;
use std::marker::Model;

/// What a read of a key at a sequence takes of layers: the rows in memory that it sees, newest first, to the first that decides, and a
/// copy of what is kept of the runs, which readers share.
#[derive(Drop)]
pub struct KeyShare {
    rows: Vec<RowEntry>,
    runs: SharedRuns,
}

impl Model for KeyShare {
    ghost use Rattle.slate_db.specs.KeyShares.{KeyShareModel};

    ghost Value = { KeyShareModel };

    ghost view = { λ s. record { rows = s.rows.items; runs = s.runs } };
}

impl KeyShare {
    pub(crate) fn new(rows: Vec<RowEntry>, runs: SharedRuns) -> KeyShare
        ensures { result ≡ record { rows = rows.items; runs = runs } }
    {
        KeyShare { rows, runs }
    }

    /// The row that is seen of the key under rows of own operations, newest first, of which none decides: over each core of which
    /// this was taken, as it was then.
    pub fn seen<S: Store, M: MergeOperator, T: BlockTransformer>(
        self,
        alloc: Global,
        own: Vec<RowEntry>,
        key: &Bytes,
        at: u64,
        policies: &[Box<dyn FilterPolicy>],
        query: &FilterQuery,
        env: &mut Env<'_, S, M, T>,
    ) -> Result<Option<RowEntry>, SlateDBError>
        requires { query.now.target ≡ PrefixTarget.Point key.now }
        ensures { let reach = ⟦<EnvOf<S, M, T> as Outside>⟧.reach in
            let by : Asking = record { policies = map (λ p. meaning p) policies.now; query = query.now } in
            (c : CoreModel) → IsKeyShare c key.now at self → IsUnder c key.now own.items → IsSeen by (reach env.old) (reach env.new) c key.now at own.items result }
    {
        let KeyShare { mut rows, runs } = self;
        let mut near = own;
        near.append(&mut rows)?;
        seen_behind(alloc, near, runs.as_slice(), key, at, policies, query, env)
    }
}

/// The row that rows of the key fold to, those near, newest first, and behind them those in the tables of runs: over each core
/// whose own these are.
pub(crate) fn seen_behind<S: Store, M: MergeOperator, T: BlockTransformer>(
    alloc: Global,
    near: Vec<RowEntry>,
    runs: &[SortedRun],
    key: &Bytes,
    at: u64,
    policies: &[Box<dyn FilterPolicy>],
    query: &FilterQuery,
    env: &mut Env<'_, S, M, T>,
) -> Result<Option<RowEntry>, SlateDBError>
    requires { query.now.target ≡ PrefixTarget.Point key.now }
    ensures { let reach = ⟦<EnvOf<S, M, T> as Outside>⟧.reach in
        let by : Asking = record { policies = map (λ p. meaning p) policies.now; query = query.now } in
        (c : CoreModel) (own rows : Rows) → near.items ≡ own ++ rows → Stands c key.now at rows runs.now → IsUnder c key.now own → IsSeen by (reach env.old) (reach env.new) c key.now at own result }
{
    let found = newest_of_runs(alloc, near, runs, key.as_slice(), at, policies, query, env)?;
    fold_found(alloc, found, &mut env.operator)
}

/// The row that rows of own operations of a key, newest first, fold to, where one of them decides. No store is asked, and no operator
/// where none of them is an operand.
pub fn fold_own<S: Store, M: MergeOperator, T: BlockTransformer>(
    alloc: Global,
    own: Vec<RowEntry>,
    env: &mut Env<'_, S, M, T>,
) -> Result<Option<RowEntry>, SlateDBError>
    ensures answer { let reach = ⟦<EnvOf<S, M, T> as Outside>⟧.reach in
        (k : List ℕ) (t : Tx) → own.items ≡ map (own_row k) (reverse (kept t.ops k)) → AreFine t.ops → IsOwnAnswer (reach env.old) (reach env.new) k t IsFolded result }
    ensures outside { env.new ≡ record env.old { operator = env.new.operator } }
    ensures reads { let reach = ⟦<EnvOf<S, M, T> as Outside>⟧.reach in OnlyReads (reach env.old) (reach env.new) }
{
    fold_found(alloc, own, &mut env.operator)
}
