//! Scans of an open transaction, whose rows are handed out together.
ghost use Rattle.std.specs.Prelude.{◌≡◌, ◌<◌, [], List, Some, count_by, IfErr, IfOk};
ghost use mathlib.Core.List.{IsPrefix};
ghost use Rattle.slate_types.specs.declared.bytes_range.BytesRange.{BytesRange};
ghost use Rattle.slate_types.specs.declared.config.IsolationLevel.{IsolationLevel as Level};
ghost use Rattle.slate_types.specs.Config.{defaults};
ghost use Rattle.slate_types.specs.Keys.{prefix_subrange};
ghost use Rattle.slate_types.specs.Outside.{OnlyReads, Reach, no_parts};
ghost use Rattle.slate_txn.specs.declared.event.Event.{Event};
ghost use Rattle.slate_txn.specs.Step.{is_scan};
ghost use Rattle.slate_db.specs.Scans.{id_of, number_of};
ghost use Rattle.slate_steps.specs.Attempts.{IsReadErrorOn, IsScanSinceOn};
ghost use Rattle.slate_connection.specs.Connected.{GoesOn, IsOpenAttempt, plain_terms};
ghost use Rattle.slate_connection.specs.Scanned.{HandsUpTo, HasWalked, IsScanRefused, AddsScan};

use slate_db::scan::TxnIterator;
use slate_shared::{Database, DbTransaction, Plain};
use slate_store::{Env, EnvOf, Store};
use slate_types::{
    BlockTransformer, ByteRangeBounds, KeyValue, MergeOperator, Outside, ScanOptions, SlateDBError,
};
use std::alloc::Global;
use std::sync::Wait;

/// Returns the first rows, up to a limit, of a scan by the transaction of the keys that are a
/// prefix and then a key between the bounds. Refuses as `DbTransaction::scan_prefix_with_options`
/// and `next` do.
pub(crate) fn rows_within<
    B: ByteRangeBounds,
    R: Wait,
    S: Store,
    M: MergeOperator,
    T: BlockTransformer,
>(
    rt: &R,
    alloc: Global,
    db: &Database<Plain>,
    txn: &mut DbTransaction<Plain>,
    prefix: &[u8],
    range: &B,
    options: &ScanOptions,
    limit: u64,
    env: &mut Env<'_, S, M, T>,
) -> Result<Vec<KeyValue>, SlateDBError>
    requires table { txn.old.table ≡ db.now }
    requires meaning { let reach = ⟦<EnvOf<S, M, T> as Outside>⟧.reach in
        (reach env.old).meaning ≡ no_parts }
    ensures goes { let reach = ⟦<EnvOf<S, M, T> as Outside>⟧.reach in
        GoesOn plain_terms (reach env.old) (reach env.new) txn.old txn.new }
    ensures noted { IfOk result (λ rows. (r : BytesRange)
        × (prefix_subrange prefix.now (B.start range.now) (B.end range.now) ≡ Some r)
        × AddsScan options.now.order r limit txn.old.tx.transcript txn.new.tx.transcript
        rows.items) }
    ensures more { IsPrefix txn.old.tx.transcript txn.new.tx.transcript }
    ensures cause { let reach = ⟦<EnvOf<S, M, T> as Outside>⟧.reach in
        (from : List Event) (level : Level) → IsOpenAttempt plain_terms from level txn.old →
        IfErr result (IsScanRefused plain_terms
        (prefix_subrange prefix.now (B.start range.now) (B.end range.now)) (reach env.old)
        (reach env.new) txn.new) }
    ensures reads { let reach = ⟦<EnvOf<S, M, T> as Outside>⟧.reach in
        OnlyReads (reach env.old) (reach env.new) }
{
    let laws = Plain::laws(alloc);
    let mut scan = match txn.scan_prefix_with_options(rt, db, prefix, range, options, env, &laws) {
        Ok(scan) => scan,
        Err(error) => return Err(error),
    };
    let rows = rows_of(alloc, txn, &mut scan, limit, env);
    drop(scan);
    rows
}

/// Returns the next rows of the scan, up to a limit.
fn rows_of<S: Store, M: MergeOperator, T: BlockTransformer>(
    alloc: Global,
    txn: &mut DbTransaction<Plain>,
    scan: &mut TxnIterator<'_>,
    limit: u64,
    env: &mut Env<'_, S, M, T>,
) -> Result<Vec<KeyValue>, SlateDBError>
    requires { (id_of scan.old ≡ txn.old.id)
        × (number_of scan.old < count_by is_scan txn.old.tx.transcript) }
    ensures walked { let reach = ⟦<EnvOf<S, M, T> as Outside>⟧.reach in
        HasWalked plain_terms (reach env.old) (reach env.new) txn.old txn.new scan.old }
    ensures handed { IfOk result (λ rows. HandsUpTo limit (number_of scan.old)
        txn.old.tx.transcript txn.new.tx.transcript rows.items) }
    ensures cause { let reach = ⟦<EnvOf<S, M, T> as Outside>⟧.reach in
        (from : Reach) → OnlyReads from (reach env.old) →
        IsScanSinceOn defaults from (reach env.old) txn.old.seen scan.old →
        IfErr result (IsReadErrorOn defaults [] from (reach env.new) txn.old.seen) }
{
    let mut rows = Vec::new(alloc);
    for _ in 0..limit {
        match txn.next(scan, env) {
            Ok(Some(row)) => match rows.push(row) {
                Ok(()) => {}
                Err(error) => return Err(SlateDBError::from(error)),
            },
            Ok(None) => return Ok(rows),
            Err(error) => return Err(error),
        }
    }
    Ok(rows)
}
