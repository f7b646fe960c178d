//! What a call reaches outside by.
ghost use Rattle.slate_store.specs.Reach.{reach_of};

use crate::store::Store;
use slate_types::{BlockTransformer, MergeOperator, Outside};

/// The store, the operator and the transformer of a call. The caller keeps them, and hands them in at each call.
#[derive(Drop)]
pub struct Env<'a, S, M, T> {
    pub store: &'a mut S,
    pub operator: Option<M>,
    pub transformer: Option<T>,
}

/// The environment of a call as its clauses name it.
pub type EnvOf<S, M, T> = Env<'static, S, M, T>;

impl<S: Store, M: MergeOperator, T: BlockTransformer> Outside for Env<'_, S, M, T> {
    ghost reach = { reach_of S.Store M.MergeOperator T.BlockTransformer };
}
