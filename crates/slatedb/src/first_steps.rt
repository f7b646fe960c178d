//! First steps: a value is put, stored as a table, and read in a transaction.
ghost use Rattle.std.specs.Prelude.{◌≡◌, Some, IfOk};
ghost use Rattle.slate_types.specs.Outside.{Objects};
ghost use Rattle.slatedb.specs.FirstSteps.{first_put};

use crate::{
    Core, Env, FileStore, IsolationLevel, KeyValue, Laws, NoExtractor, NoOperator, NoTransformer,
    Options, ReadOptions, SlateDBError, Store, WriteBatch,
};
use std::alloc::Global;
use std::os::unix::fs::FileExt;
use std::rt::Files;

/// Puts a value under a key, stores it, and gives what a transaction reads at that key: of a store that answers by its
/// objects, the value.
///
/// The operator, the transformer and the extractor are none here. A core is given its store and its laws call by call, and each call's
/// errors say what it left.
pub fn put_and_get<S: Store>(
    alloc: Global,
    store: &mut S,
    key: &[u8],
    value: &[u8],
) -> Result<Option<KeyValue>, SlateDBError>
    ensures found { (os : Objects) → S.objects store.old ≡ Some os → IfOk result (λ found. found ≡ Some (first_put key.now value.now)) }
{
    // What all calls on one core are given alike.
    let laws: Laws<NoExtractor> = Laws {
        options: Options::new(),
        segments: None,
        policies: Vec::new(alloc),
    };
    let mut core = Core::new(alloc, &laws.options);
    let mut env: Env<'_, S, NoOperator, NoTransformer> = Env {
        store,
        operator: None,
        transformer: None,
    };

    // A batch is one commit, at a moment in milliseconds.
    let mut batch = WriteBatch::new(alloc);
    batch.put(key, value)?;
    core.write(batch, 0, &mut env, &laws)?;
    // The rows of all commits so far become a table.
    core.flush(&mut env, &laws)?;

    let (reader, _start) = core.begin(IsolationLevel::Snapshot)?;
    let found = core.get(&reader, key, &ReadOptions::default(), &mut env, &laws)?;
    core.rollback(&reader);
    core.close();
    Ok(found)
}

/// The same over the files of a folder. What a folder answers no contract says.
pub fn put_and_get_in_folder<R: Files + AllocGlobal + Clone + Drop>(
    rt: R,
    folder: &str,
) -> Result<Option<KeyValue>, SlateDBError>
where
    R::File: FileExt,
{
    let alloc = rt.alloc();
    let mut store = FileStore::new(alloc, rt, folder)?;
    put_and_get(alloc, &mut store, b"fruit", b"apple")
}
