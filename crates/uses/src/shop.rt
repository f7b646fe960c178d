//! One thread: a shop whose stock is in a core, over any store.
ghost use Rattle.slate_shared.specs.Given.{ArePlain};
ghost use Rattle.slate_db.specs.Opened.{HasTransaction, StayOpen};

use slatedb::{
    Add, Core, Env, IsolationLevel, KeyValue, Laws, NoExtractor, NoTransformer, Plain, PutOptions,
    ReadOptions, SlateDBError, Store, Ttl, Uuid, WriteBatch, counter_value,
};
use std::alloc::Global;

/// A store that is lent, with an operator that adds, and without a transformer.
type Lent<'a, S> = Env<'a, S, Add, NoTransformer>;

/// Takes in goods, sells one, and gives what is there then, with when it goes off.
pub fn run<S: Store>(alloc: Global, store: &mut S) -> Result<String, SlateDBError> {
    // What all calls on one core are given alike: the default options, no segments, no filters.
    let laws = Plain::laws(alloc);
    let mut core = Core::new(alloc, &laws.options);
    let mut env: Lent<'_, S> = Env {
        store,
        operator: Some(Add),
        transformer: None,
    };
    take_in(alloc, &mut core, &mut env, &laws)?;
    sell(&mut core, b"tea", &mut env, &laws)?;
    let tea = left_of(&mut core, b"tea", &mut env, &laws)?;
    let milk = left_of(&mut core, b"milk", &mut env, &laws)?;
    core.close();
    let tea = line_of(alloc, tea)?;
    let milk = line_of(alloc, milk)?;
    Ok(format!(in alloc; "{tea}\n{milk}")?)
}

/// Writes a batch, which is one commit, and stores all rows so far as a table.
fn take_in<S: Store>(
    alloc: Global,
    core: &mut Core,
    env: &mut Lent<'_, S>,
    laws: &Laws<NoExtractor>,
) -> Result<(), SlateDBError>
    requires laws { ArePlain laws.now.options laws.now.segments laws.now.policies.items }
{
    let mut batch = WriteBatch::new(alloc);
    batch.merge(b"tea", &3u64.to_be_bytes())?;
    // Times are milliseconds. A row shows when it expires, and isn't hidden then.
    let options = PutOptions {
        ttl: Ttl::ExpireAfter(3_600_000),
    };
    batch.put_with_options(b"milk", &5u64.to_be_bytes(), &options)?;
    core.write(batch, 1_000, env, laws)?;
    core.flush(env, laws)?;
    Ok(())
}

/// Takes one away, in a transaction that ends on every way out.
fn sell<S: Store>(
    core: &mut Core,
    key: &[u8],
    env: &mut Lent<'_, S>,
    laws: &Laws<NoExtractor>,
) -> Result<Option<u64>, SlateDBError> {
    let (id, _start) = core.begin(IsolationLevel::SerializableSnapshot)?;
    match take_one(core, &id, key, env, laws) {
        // Whatever commit answers, the transaction has ended.
        Ok(()) => core.commit(&id, 2_000, env, laws),
        Err(error) => {
            core.rollback(&id);
            Err(error)
        }
    }
}

/// Reads a count, and puts one less.
#[tactic(auto, using(crate::proofs::OpenIds::transaction_reads))]
fn take_one<S: Store>(
    core: &mut Core,
    id: &Uuid,
    key: &[u8],
    env: &mut Lent<'_, S>,
    laws: &Laws<NoExtractor>,
) -> Result<(), SlateDBError>
    requires open { HasTransaction core.old id.now }
    ensures stay { StayOpen core.old core.new }
{
    let found = core.get(id, key, &ReadOptions::default(), env, laws)?;
    let count = match found {
        Some(row) => counter_value(row.value.as_slice()),
        None => 0,
    };
    let left = count.saturating_sub(1);
    core.put(id, key, &left.to_be_bytes(), &PutOptions::default())
}

/// The row at a key behind the last commit, read by a snapshot, which a core alone has.
#[tactic(auto, using(crate::proofs::OpenIds::snapshot_reads))]
fn left_of<S: Store>(
    core: &mut Core,
    key: &[u8],
    env: &mut Lent<'_, S>,
    laws: &Laws<NoExtractor>,
) -> Result<Option<KeyValue>, SlateDBError> {
    let (id, _seq) = core.snapshot()?;
    let found = core.get(&id, key, &ReadOptions::default(), env, laws);
    core.release(&id);
    found
}

/// The fields of a row: key, value, sequence, and when it expires, which may be missing.
fn line_of(alloc: Global, row: Option<KeyValue>) -> Result<String, SlateDBError> {
    let Some(row) = row else {
        return Ok(format!(in alloc; "none")?);
    };
    let key = String::from_utf8_lossy(alloc, row.key.as_slice())?;
    let count = counter_value(row.value.as_slice());
    let line = match row.expire_ts {
        Some(at) => format!(in alloc; "{key} {count} of commit {}, until {at}", row.seq)?,
        None => format!(in alloc; "{key} {count} of commit {}", row.seq)?,
    };
    Ok(line)
}
