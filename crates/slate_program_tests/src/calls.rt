// What the tests of all programs begin with, and what an attempt comes to.
ghost use Rattle.std.specs.Prelude.{◌≡◌, None, IfSome};
ghost use Rattle.slate_shared.specs.Shared.{all_parts};
ghost use Rattle.slate_shared.specs.Given.{ArePlain};

use slate_db::laws::Laws;
use slate_shared::{Database, Pass, Plain};
use slate_store::{Env, Store};
use slate_types::{NoExtractor, NoOperator, NoTransformer};
use std::alloc::Global;

/// A pass that comes back from a thread, and what the thread answers.
pub type Ended<V> = (Pass<Plain>, V);

/// What a call reaches outside: a store alone.
pub type Outer<'a, S> = Env<'a, S, NoOperator, NoTransformer>;

/// What an attempt comes to: a sequence, a conflict with another thread's commit, or another refusal.
#[derive(Clone, Copy)]
pub enum Outcome {
    Committed(u64),
    Conflict,
    Refused,
}

/// A database, and its first pass.
pub fn opened(alloc: Global, laws: &Laws<NoExtractor>) -> Option<(Database<Plain>, Pass<Plain>)>
    requires { ArePlain laws.now.options laws.now.segments laws.now.policies.items }
    ensures { IfSome result (λ r. (r.1.table ≡ r.0) × (r.1.parts ≡ all_parts)) }
{
    Database::new(alloc, &laws.options).ok()
}

/// A store and nothing else.
pub fn outer<S: Store>(store: &mut S) -> Outer<'_, S>
    ensures plain { (result.operator ≡ None) × (result.transformer ≡ None) }
{
    Env {
        store,
        operator: None,
        transformer: None,
    }
}
