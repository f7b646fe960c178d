//! Parts of one's own: names that are claimed, by an operator that keeps the first claim.
ghost use Rattle.std.specs.Prelude.{◌≡◌, [], Some, None};
ghost use Rattle.slate_types.specs.Config.{defaults};
ghost use Rattle.slate_types.specs.Fold.{IsLawful};
ghost use Rattle.slate_shared.specs.Given.{ArePlain};
ghost use Rattle.uses.specs.First as first;

use slatedb::{
    Bytes, BytesRange, Database, Env, IsolationLevel, Laws, MergeOperator, MergeOperatorError,
    NoExtractor, NoTransformer, Parts, Pass, Plain, ScanOptions, SlateDBError, Store, WriteBatch,
};
use std::alloc::Global;
use std::sync::Wait;

/// Keeps the value that is there, so that of several operands the first counts. It has no
/// faults.
#[derive(Clone, Copy)]
pub struct First;

impl MergeOperator for First {
    ghost combine = { λ _ _. first.first_of };

    ghost short = { λ _ _. first.first_short };

    ghost faults = { λ _. 0 };

    fn merge(
        &mut self,
        _alloc: Global,
        _key: &Bytes,
        existing_value: Option<&Bytes>,
        value: &Bytes,
    ) -> Result<Bytes, MergeOperatorError> {
        let kept = existing_value.unwrap_or(value);
        Ok(kept.clone()?)
    }
}

/// The operator keeps a first operand and is associative: so promises on answers hold with it.
pub fn first_is_lawful()
    ensures { IsLawful first.first_of }
{}

/// What all calls on a database of claims are given: the default options, the operator, no
/// segments and no filters.
#[derive(Drop)]
pub struct Claiming;

impl Parts for Claiming {
    ghost options = { defaults };

    ghost meaning = { first.claiming };

    ghost segments = { None };

    ghost policies = { [] };
}

/// A store that is lent with the operator.
type Lent<'a, S> = Env<'a, S, First, NoTransformer>;

fn lent<S: Store>(store: &mut S) -> Lent<'_, S>
    ensures plain { (result.operator ≡ Some (record {})) × (result.transformer ≡ None) }
{
    Env {
        store,
        operator: Some(First),
        transformer: None,
    }
}

/// Makes three claims, and gives the names with those who have them.
pub fn run<R: Wait, S: Store>(
    rt: &R,
    alloc: Global,
    store: &mut S,
) -> Result<String, SlateDBError> {
    let laws = Plain::laws(alloc);
    let (db, mut pass) = Database::<Claiming>::new(alloc, &laws.options)?;
    claim(rt, alloc, &db, &mut pass, store, &laws, b"name:ann", b"1")?;
    claim(rt, alloc, &db, &mut pass, store, &laws, b"name:bob", b"2")?;
    claim(rt, alloc, &db, &mut pass, store, &laws, b"name:ann", b"3")?;
    let claimed = list(rt, alloc, &db, &mut pass, store, &laws)?;
    db.close(rt, pass).close();
    Ok(claimed)
}

/// Claims a name without a look at it, and stores all claims so far.
fn claim<R: Wait, S: Store>(
    rt: &R,
    alloc: Global,
    db: &Database<Claiming>,
    pass: &mut Pass<Claiming>,
    store: &mut S,
    laws: &Laws<NoExtractor>,
    name: &[u8],
    owner: &[u8],
) -> Result<(), SlateDBError>
    requires table { pass.old.table ≡ db.now }
    requires laws { ArePlain laws.now.options laws.now.segments laws.now.policies.items }
    ensures same { (pass.new.table ≡ pass.old.table) × (pass.new.parts ≡ pass.old.parts) }
{
    let mut batch = WriteBatch::new(alloc);
    batch.merge(name, owner)?;
    let mut env = lent(store);
    pass.write(rt, db, batch, 0, &mut env, laws)?;
    pass.flush(rt, db, &mut env, laws)?;
    Ok(())
}

/// All names with their owners, by a view of those keys that begin with the prefix.
fn list<R: Wait, S: Store>(
    rt: &R,
    alloc: Global,
    db: &Database<Claiming>,
    pass: &mut Pass<Claiming>,
    store: &mut S,
    laws: &Laws<NoExtractor>,
) -> Result<String, SlateDBError>
    requires table { pass.old.table ≡ db.now }
    requires laws { ArePlain laws.now.options laws.now.segments laws.now.policies.items }
    ensures same { (pass.new.table ≡ pass.old.table) × (pass.new.parts ≡ pass.old.parts) }
{
    let names = BytesRange::from_prefix(alloc, b"name:")?;
    let mut txn = pass.begin(rt, db, IsolationLevel::Snapshot)?;
    let view = txn.view(rt, db, &names);
    txn.rollback(rt, db, pass);

    // A view is read without the lock, and needs its transaction no longer.
    let view = view?;
    let mut env = lent(store);
    let mut rows = view.scan(names, None, &ScanOptions::default(), &mut env, laws)?;
    let mut lines = format!(in alloc; "names")?;
    for _ in 0..u64::MAX {
        let Some(row) = rows.next(&mut env)? else {
            return Ok(lines);
        };
        let name = String::from_utf8_lossy(alloc, row.key.as_slice())?;
        let owner = String::from_utf8_lossy(alloc, row.value.as_slice())?;
        let line = format!(in alloc; " {name} {owner}")?;
        lines.push_str(line.as_str())?;
    }
    Ok(lines)
}
