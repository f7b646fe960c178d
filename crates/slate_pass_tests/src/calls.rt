// Calls on a database, by what they answer.
ghost use Rattle.std.specs.Prelude.{◌≡◌, None, IfSome};
ghost use Rattle.slate_shared.specs.Shared.{all_parts};
ghost use Rattle.slate_shared.specs.Given.{ArePlain};

use crate::parts::Full;
use slate_db::laws::Laws;
use slate_shared::{Database, Pass, Plain};
use slate_store::{Env, Store};
use slate_types::{KeyValue, NoExtractor, NoOperator, NoTransformer, SlateDBError};
use std::alloc::Global;

/// A pass that comes back from a thread, and what the thread answers.
pub type Ended<V> = (Pass<Full>, V);

/// A row that is expected: its key, its value and its sequence.
pub type Row<'a> = (&'a [u8], &'a [u8], u64);

/// Checks that a read answered the row.
pub fn is_row(answer: Result<Option<KeyValue>, SlateDBError>, row: Row<'_>) -> bool {
    match answer.ok().flatten() {
        Some(found) => {
            found.key.as_slice() == row.0 && found.value.as_slice() == row.1 && found.seq == row.2
        }
        None => false,
    }
}

/// Checks that a read answered that there is no row.
pub fn is_none(answer: Result<Option<KeyValue>, SlateDBError>) -> bool {
    matches!(answer, Ok(None))
}

/// Returns a database by the default options without other parts, and its first pass.
pub fn opened(alloc: Global, laws: &Laws<NoExtractor>) -> Option<(Database<Plain>, Pass<Plain>)>
    requires { ArePlain laws.now.options laws.now.segments laws.now.policies.items }
    ensures { IfSome result (λ r. (r.1.table ≡ r.0) × (r.1.parts ≡ all_parts)) }
{
    Database::new(alloc, &laws.options).ok()
}

/// Returns the store with no operator and no transformer.
pub fn outer<S: Store>(store: &mut S) -> Env<'_, S, NoOperator, NoTransformer>
    ensures plain { (result.operator ≡ None) × (result.transformer ≡ None) }
{
    Env {
        store,
        operator: None,
        transformer: None,
    }
}
