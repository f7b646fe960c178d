//! A commit of a transaction whose batch was prepared, up to its event. It calls no operator.
ghost use Rattle.std.specs.Prelude.{◌≡◌, ◌+◌, ◌<◌, ◌≤◌, ℕ, ℤ, List, Option, None, Some, Err, IfErr, IfOk, OnOk, OnErr};
ghost use Rattle.slate_types.specs.declared.error.SlateDBError.{SlateDBError};
ghost use Rattle.slate_txn.specs.Managers.{StandsFor};
ghost use Rattle.slate_txn.specs.Conflict.{conflict};
ghost use Rattle.slate_txn.specs.State.{Commit};
ghost use Rattle.slate_txn.specs.Tested.{IsUntracked};
ghost use Rattle.slate_db.specs.Layers.{AreLayers};
ghost use Rattle.slate_db.specs.Prepared.{PreparedWith, IsPrepared, WasPrepared, own_batch, whole_refusal};
ghost use Rattle.slate_db.specs.Calls.Put.{AreNotNewer, AsPrepared, AsPreparedOf, HasEnded, IsCommitRefusal, IsShortOr, LeavesGrown, MadeOf, Manages, PutsPrepared, StandsEnded, with_prefixes, with_rows};

use crate::commit::Made;
use crate::layers::Layers;
use crate::prepared::{Passed, Prepared};
use crate::put::put_own;
use crate::segments::SegmentPrefixes;
use slate_txn::{DbTransactionInner, OpList, Tested, TransactionManager};
use slate_types::SlateDBError;
use std::alloc::Global;
use uuid::Uuid;

/// As `commit::make`, of an open transaction whose batch was prepared. Refuses by `TransactionConflict` before all other tests, by
/// `SequenceExhausted`, then as `Prepared::pass` does, and by `OutOfMemory`. The manager has then tracked what the transaction
/// handed over.
pub(crate) fn make_prepared(
    alloc: Global,
    segments: &mut SegmentPrefixes,
    layers: &mut Layers,
    manager: &mut TransactionManager,
    id: &Uuid,
    owned: DbTransactionInner,
    prepared: Prepared,
    last: u64,
) -> Result<Made, SlateDBError>
    requires fits { last ≤ 18446744073709551614 }
    requires whole { AreLayers layers.old }
    requires within { AreNotNewer last layers.old }
    requires newest { manager.old.last ≡ last }
    requires held { IsUntracked manager.old id.now owned }
    requires prepared { (d : Option ℕ) × (now : ℤ) × WasPrepared d now (own_batch owned.ops)
        prepared }
    ensures made { IfOk result (MadeOf owned last) }
    ensures free { (cs : List Commit) → StandsFor manager.old cs →
        OnOk result (conflict cs owned ≡ None) }
    ensures puts { AsPreparedOf owned.ops prepared (λ o g d now. IfOk result (PutsPrepared o g d
        now owned.ops segments.old segments.new layers.old layers.new)) }
    ensures whole { AreLayers layers.new }
    ensures committed { (now : ℤ) → Manages manager.old manager.new id.now now last result }
    ensures left { OnErr result (LeavesGrown id.now segments.old segments.new layers.old layers.new
        manager.old manager.new) }
    ensures cause { AsPreparedOf owned.ops prepared (λ o g d now.
        (cs : List Commit) → StandsFor manager.old cs →
        IfErr result (IsCommitRefusal o g segments.old d now last (conflict cs owned) owned.ops)) }
{
    let tested = owned.test(alloc, manager, id)?;
    let Tested {
        batch,
        tracked,
        transcript,
    } = tested;
    drop(batch);
    if prepared.is_empty() {
        manager.drop_txn(id);
        return Ok(Made {
            seq: None,
            ops: prepared.into_ops(),
            tracked,
            transcript,
        });
    }
    if last >= 18446744073709551614 {
        return Err(SlateDBError::SequenceExhausted);
    }
    let ops = put_prepared(alloc, segments, layers, manager, id, prepared, last)?;
    Ok(Made {
        seq: Some(last + 1),
        ops,
        tracked,
        transcript,
    })
}

/// Puts the rows of a transaction's prepared batch at the sequence behind the last, and gives the operations. The manager has then
/// ended the transaction. Refuses as `Prepared::pass` does, and by `OutOfMemory`, and then nothing is done.
fn put_prepared(
    alloc: Global,
    segments: &mut SegmentPrefixes,
    layers: &mut Layers,
    manager: &mut TransactionManager,
    id: &Uuid,
    prepared: Prepared,
    last: u64,
) -> Result<OpList, SlateDBError>
    requires fits { last < 18446744073709551614 }
    requires whole { AreLayers layers.old }
    requires within { AreNotNewer last layers.old }
    requires newest { manager.old.last ≡ last }
    requires prepared { (w : PreparedWith) × IsPrepared w prepared }
    ensures recorded { AsPrepared prepared (λ w. OnOk result (segments.new ≡ with_prefixes w
        segments.old)) }
    ensures put { AsPrepared prepared (λ w. OnOk result (layers.new ≡ with_rows w (last + 1)
        layers.old)) }
    ensures whole { AreLayers layers.new }
    ensures ops { IfOk result (λ ops. ops ≡ prepared.ops) }
    ensures tested { AsPrepared prepared (λ w. OnOk result (whole_refusal w segments.old ≡ None)) }
    ensures committed { OnOk result (HasEnded id.now (last + 1) manager.old manager.new) }
    ensures stands { OnOk result (StandsEnded id.now (last + 1) manager.old manager.new) }
    ensures same_segments { OnErr result (segments.new ≡ segments.old) }
    ensures same_layers { OnErr result (layers.new ≡ layers.old) }
    ensures same { OnErr result (manager.new ≡ manager.old) }
    ensures cause { AsPrepared prepared (λ w. IfErr result (IsShortOr (whole_refusal w
        segments.old))) }
{
    let passed = prepared.pass(segments, last + 1)?;
    let Passed {
        ops,
        keys,
        prefixes,
        rows,
    } = passed;
    drop(keys);
    put_own(
        alloc,
        segments,
        layers,
        manager,
        rows,
        &prefixes,
        id,
        last + 1,
    )?;
    Ok(ops)
}
