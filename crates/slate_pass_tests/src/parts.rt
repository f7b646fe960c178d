// A database with an operator, a transformer, segments and filters.
ghost use Rattle.std.specs.Prelude.{◌≡◌, true, Some, codes, map, IfOk, IfSome};
ghost use Rattle.slate_filter.specs.BloomPolicies.{bloom_name, named_by, set_by};
ghost use Rattle.slate_filter.specs.Extractors.{colon};
ghost use Rattle.slate_db.specs.Meaning.{segments_by};
ghost use Rattle.slate_shared.specs.Given.{AreGiven};
ghost use Rattle.slate_shared.specs.Shared.{all_parts};

use slate_db::laws::Laws;
use slate_filter::{BloomFilterPolicy, ColonExtractor, FilterPolicy};
use slate_language::{Concat, Xor};
use slate_shared::{Database, Parts, Pass};
use slate_store::{Env, Store};
use slate_types::{Options, PrefixExtractor, SlateDBError};
use std::alloc::Global;

/// The default options, an operator that appends, a transformer that turns each bit, segments that
/// end with a key's first colon, and filters of whole keys and of what ends with their first colon.
#[derive(Drop)]
pub struct Full;

impl Parts for Full {
    ghost use Rattle.std.specs.Prelude.{true, [], ◌∷◌, Some, codes};
    ghost use Rattle.slate_types.specs.Config.{defaults};
    ghost use Rattle.slate_filter.specs.BloomPolicies.{bloom_name, bloom_policy};
    ghost use Rattle.slate_filter.specs.Extractors.{colon};
    ghost use Rattle.slate_mem.specs.KeyTests.{point_lengths};
    ghost use Rattle.slate_language.specs.Parts.{concat, xored};

    ghost options = { defaults };

    ghost meaning = { record {
      combine = Some (λ key existing value. concat key existing value);
      encode = xored 255;
      decode = xored 255;
    } };

    ghost segments = { point_lengths (Some colon) };

    ghost policies = { bloom_policy (bloom_name (Some (codes "colon")) true)
        (record { bits_per_key = 10; whole = true; lengths = Some colon }) ∷ [] };
}

/// What a call reaches outside.
pub type Outer<'a, S> = Env<'a, S, Concat, Xor>;

/// Returns the store with the operator and the transformer.
pub fn outer<S: Store>(store: &mut S) -> Outer<'_, S>
    ensures operator { result.operator ≡ Some (record {}) }
    ensures transformer { result.transformer ≡ Some (record { mask = 255 }) }
{
    Env {
        store,
        operator: Some(Concat),
        transformer: Some(Xor { mask: 255 }),
    }
}

// Returns the policy of filters of whole keys and of what ends with their first colon.
fn policy(alloc: Global) -> Result<BloomFilterPolicy<ColonExtractor>, SlateDBError>
    ensures named { IfOk result (λ made.
        named_by made ≡ bloom_name (Some (codes "colon")) true) }
    ensures set { IfOk result (λ made.
        set_by ⟦<ColonExtractor as PrefixExtractor>⟧.lengths made
        ≡ record { bits_per_key = 10; whole = true; lengths = Some colon }) }
{
    let policy = BloomFilterPolicy::new(alloc, 10)?;
    policy.with_prefix_extractor(alloc, ColonExtractor::new())
}

fn policies(alloc: Global) -> Result<Vec<Box<dyn FilterPolicy>>, SlateDBError>
    ensures { IfOk result (λ policies.
        map (λ p. (⟦<dyn FilterPolicy as FilterPolicy>⟧ p.vtable).meaning p.value) policies.items
        ≡ ⟦<Full as Parts>⟧.policies) }
{
    let boxed: Box<dyn FilterPolicy> = Box::new(alloc, policy(alloc)?)?;
    let mut policies = Vec::new(alloc);
    policies.push(boxed)?;
    Ok(policies)
}

/// Returns the laws of each call on such a database, or none if memory is wanting.
pub fn laws(alloc: Global) -> Option<Laws<ColonExtractor>>
    ensures { IfSome result (λ laws.
        AreGiven ⟦<Full as Parts>⟧.options ⟦<Full as Parts>⟧.segments ⟦<Full as Parts>⟧.policies
        laws.options (segments_by ⟦<ColonExtractor as PrefixExtractor>⟧.lengths laws.segments)
        (map (λ p. (⟦<dyn FilterPolicy as FilterPolicy>⟧ p.vtable).meaning p.value)
        laws.policies.items)) }
{
    Some(Laws {
        options: Options::new(),
        segments: Some(ColonExtractor::new()),
        policies: policies(alloc).ok()?,
    })
}

/// Opens a database with all parts.
pub fn opened(alloc: Global) -> Option<(Database<Full>, Pass<Full>)>
    ensures { IfSome result (λ r. (r.1.table ≡ r.0) × (r.1.parts ≡ all_parts)) }
{
    Database::new(alloc, &Options::new()).ok()
}
