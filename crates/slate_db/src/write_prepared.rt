//! A write of a batch that was prepared, up to its event. It calls no operator.
ghost use Rattle.std.specs.Prelude.{◌≡◌, ◌+◌, ◌<◌, IfErr, IfOk, OnOk, OnErr};
ghost use Rattle.slate_types.specs.declared.error.SlateDBError.{SlateDBError};
ghost use Rattle.slate_db.specs.Layers.{AreLayers};
ghost use Rattle.slate_db.specs.Log.{HasPlace, IsLog};
ghost use Rattle.slate_db.specs.Prepared.{PreparedWith, IsPrepared, whole_refusal};
ghost use Rattle.slate_db.specs.Calls.Put.{AreNotNewer, AsPrepared, HasTracked, IsAloneRefusal, PutsAlone};

use crate::layers::Layers;
use crate::log::Log;
use crate::prepared::{Passed, Prepared};
use crate::put::put_batch;
use crate::segments::SegmentPrefixes;
use slate_txn::{OpList, TransactionManager};
use slate_types::SlateDBError;
use std::alloc::Global;

/// Makes room for an event, puts the rows of a prepared batch that commits by itself at the sequence behind the last, and gives the
/// operations. Refuses as `Prepared::pass` does, then by `LimitReached` where the journal has no place for the event, and by
/// `OutOfMemory`; at most room is made then.
pub(crate) fn put_alone(
    alloc: Global,
    segments: &mut SegmentPrefixes,
    layers: &mut Layers,
    manager: &mut TransactionManager,
    log: &mut Log,
    prepared: Prepared,
    last: u64,
) -> Result<OpList, SlateDBError>
    requires fits { last < 18446744073709551614 }
    requires whole { AreLayers layers.old }
    requires within { AreNotNewer last layers.old }
    requires newest { manager.old.last ≡ last }
    requires logged { IsLog log.old }
    requires prepared { (w : PreparedWith) × IsPrepared w prepared }
    ensures room { (log.new ≡ record log.old { spare = log.new.spare }) × IsLog log.new }
    ensures place { OnOk result (HasPlace 1 log.new) }
    ensures puts { AsPrepared prepared (λ w. OnOk result (PutsAlone w (last + 1) segments.old
        segments.new layers.old layers.new manager.old manager.new)) }
    ensures whole { AreLayers layers.new }
    ensures ops { IfOk result (λ ops. ops ≡ prepared.ops) }
    ensures committed { OnOk result (HasTracked (last + 1) manager.old manager.new) }
    ensures same_segments { OnErr result (segments.new ≡ segments.old) }
    ensures same_layers { OnErr result (layers.new ≡ layers.old) }
    ensures same { OnErr result (manager.new ≡ manager.old) }
    ensures cause { AsPrepared prepared (λ w. IfErr result (IsAloneRefusal (whole_refusal w
        segments.old) log.old)) }
{
    let passed = prepared.pass(segments, last + 1)?;
    log.place(1)?;
    log.reserve()?;
    let Passed {
        ops,
        keys,
        prefixes,
        rows,
    } = passed;
    put_batch(
        alloc,
        segments,
        layers,
        manager,
        rows,
        keys,
        &prefixes,
        last + 1,
    )?;
    Ok(ops)
}
