//! Copies of the journal, and what is known of the commits in them.
ghost use Rattle.std.specs.Prelude.{◌≡◌, IfOk, IsOkUnless};
ghost use mathlib.Core.List.{IsPrefix};
ghost use Rattle.slate_types.specs.declared.error.SlateDBError.{SlateDBError};
ghost use Rattle.slate_txn.specs.Replay.{IsLegal};
ghost use Rattle.slate_db.specs.Segmented.{IsSegmented};
ghost use Rattle.slate_db.specs.Sound.{IsKept};
ghost use Rattle.slate_shared.specs.Shared.{IsOwner, OwnsAll, all_parts};
ghost use Rattle.slate_threads.specs.Passes.{IsVouchedCopy, IsWholeCopy, PassIsAlone};
ghost use Rattle.slate_threads.specs.Passes.{PassIsVouched};
ghost use Rattle.slate_threads.specs.Workers.{IsWorker};

use slate_db::engine::Core;
use slate_shared::{Database, Parts, Pass};
use slate_txn::journal::Journal;
use slate_types::SlateDBError;
use std::sync::Wait;

/// Copies the journal, all of which the pass has then seen. If what the pass's own commits were
/// answered is vouched, each serializable one would read the same just before its commit, unless
/// another since its begin wrote what it read and doesn't track it: whatever other threads did, and
/// while they go on. If the pass has all parts, that holds of all commits of the copy. The one error
/// is `OutOfMemory`.
pub fn journal<P: Parts, R: Wait>(
    rt: &R,
    db: &Database<P>,
    pass: &mut Pass<P>,
) -> Result<Journal, SlateDBError>
    requires table { pass.old.table ≡ db.now }
    ensures same { (pass.new.table ≡ pass.old.table) × (pass.new.parts ≡ pass.old.parts) }
    ensures own { (pass.new.own ≡ pass.old.own) × IsOwner pass.new.own pass.new.seen }
    ensures seen { IsPrefix pass.old.seen pass.new.seen }
    ensures legal { IsLegal P.options.start_seq pass.new.seen }
    ensures copy { IfOk result (λ copy. copy.events ≡ pass.new.seen) }
    ensures vouched { PassIsVouched P.options P.meaning pass.old →
        PassIsVouched P.options P.meaning pass.new }
    ensures alone { PassIsVouched P.options P.meaning pass.old →
        PassIsAlone P.options P.meaning pass.new }
    ensures whole { pass.old.parts ≡ all_parts → OwnsAll pass.new.own pass.new.seen }
    ensures all { pass.old.parts ≡ all_parts → PassIsVouched P.options P.meaning pass.old →
        IsVouchedCopy P.options P.meaning pass.new.seen }
    ensures workers { pass.old.parts ≡ all_parts → IsWorker P.options P.meaning pass.old →
        IsVouchedCopy P.options P.meaning pass.new.seen }
    ensures cause { IsOkUnless result SlateDBError.OutOfMemory }
{
    pass.journal(rt, db)
}

/// Copies the journal, and takes the core out. If the pass has all parts, all commits, writes and
/// installs of the copy are its own. So if what its own commits were answered is vouched, or it
/// is a worker's, all transcripts of the copy are vouched, and each serializable commit would
/// read the same just before it, unless another since its begin wrote what it read and doesn't
/// track it. The one error of the copy is `OutOfMemory`, and the core is there either way.
pub fn close<P: Parts, R: Wait>(
    rt: &R,
    db: Database<P>,
    pass: Pass<P>,
) -> (Core, Result<Journal, SlateDBError>)
    requires table { pass.table ≡ db }
    ensures copy { IfOk result.1 (λ copy. IsWholeCopy P.options pass copy.events result.0.events) }
    ensures vouched { pass.parts ≡ all_parts → PassIsVouched P.options P.meaning pass →
        IfOk result.1 (λ copy. IsVouchedCopy P.options P.meaning copy.events) }
    ensures workers { pass.parts ≡ all_parts → IsWorker P.options P.meaning pass →
        IfOk result.1 (λ copy. IsVouchedCopy P.options P.meaning copy.events) }
    ensures seen { IsPrefix pass.seen result.0.events }
    ensures core { IsKept P.meaning result.0 × IsSegmented P.segments result.0 }
    ensures cause { IsOkUnless result.1 SlateDBError.OutOfMemory }
{
    let mut pass = pass;
    let copied = pass.journal(rt, &db);
    let core = db.close(rt, pass);
    (core, copied)
}
