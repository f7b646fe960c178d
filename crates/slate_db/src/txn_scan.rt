//! Scans of a transaction that owns what it did and saw, whose steps it notes itself.
ghost use Rattle.std.specs.Prelude.{◌≡◌, ◌<◌, ◌++◌, ◌∷◌, [], count_by, IfOk, OnErr, OnOk};
ghost use Rattle.slate_txn.specs.declared.event.TranscriptStep.TheVariants as steps;
ghost use Rattle.slate_txn.specs.Step.{is_scan};
ghost use Rattle.slate_db.specs.Scans.{id_of, number_of, scan_of};
ghost use Rattle.slate_db.specs.TxnScans.{IsNext, IsSeek};

use crate::scan::{DbIterator, TxnIterator};
use slate_store::{Env, EnvOf, Store};
use slate_txn::DbTransactionInner;
use slate_types::{BlockTransformer, BytesRange, KeyValue, MergeOperator, Outside, SlateDBError};
use std::alloc::Global;
use uuid::Uuid;

impl DbIterator<'_> {
    /// The range of the scan.
    pub fn range(&self) -> &BytesRange
        ensures { result.now ≡ self.now.range }
    {
        &self.range
    }
}

impl<'a> TxnIterator<'a> {
    /// A scan of the transaction with this id, and its place among the transaction's scans. Takes no memory.
    pub fn new(id: Uuid, scan: u64, rows: DbIterator<'a>) -> TxnIterator<'a>
        ensures of { (id_of result ≡ id) × (number_of result ≡ scan) × (scan_of result ≡ rows.entry) }
    {
        TxnIterator { id, scan, rows }
    }
}

impl TxnIterator<'_> {
    /// The next row, or `None` at its end, which is noted in the transcript of the transaction. Refuses as `DbIterator::next` does, and
    /// then nothing is noted, and the iterator answers the refusal again.
    pub fn next_noted<S: Store, M: MergeOperator, T: BlockTransformer>(
        &mut self,
        alloc: Global,
        own: &mut DbTransactionInner,
        env: &mut Env<'_, S, M, T>,
    ) -> Result<Option<KeyValue>, SlateDBError>
        requires { number_of self.old < count_by is_scan own.old.transcript }
        ensures noted { IfOk result (λ a. own.new ≡ record own.old { transcript = own.old.transcript ++ steps.Next (number_of self.old) a ∷ [] }) }
        ensures step { let reach = ⟦<EnvOf<S, M, T> as Outside>⟧.reach in IsNext (reach env.old) (reach env.new) (env.new ≡ env.old) self.old self.new result }
        ensures same { OnErr result (own.new ≡ own.old) }
    {
        let answer = match self.rows.next(env) {
            Ok(answer) => answer,
            Err(error) => return Err(error),
        };
        if let Err(error) = own.note_next(alloc, self.scan, &answer) {
            drop(answer);
            return Err(self.rows.refuse(SlateDBError::from(error)));
        }
        Ok(answer)
    }

    /// Drops the leading rows that its order puts before the key, which is noted in the transcript of the transaction. Refuses as
    /// `DbIterator::seek` does, and then nothing is noted, and the iterator answers the refusal again.
    pub fn seek_noted<S: Store, M: MergeOperator, T: BlockTransformer>(
        &mut self,
        alloc: Global,
        own: &mut DbTransactionInner,
        key: &[u8],
        env: &mut Env<'_, S, M, T>,
    ) -> Result<(), SlateDBError>
        requires { number_of self.old < count_by is_scan own.old.transcript }
        ensures noted { OnOk result (own.new ≡ record own.old { transcript = own.old.transcript ++ steps.Seek (number_of self.old) key.now ∷ [] }) }
        ensures step { let reach = ⟦<EnvOf<S, M, T> as Outside>⟧.reach in IsSeek key.now (reach env.old) (reach env.new) (env.new ≡ env.old) self.old self.new result }
        ensures same { OnErr result (own.new ≡ own.old) }
    {
        if let Err(error) = self.rows.seek(key, env) {
            return Err(error);
        }
        if let Err(error) = own.note_seek(alloc, self.scan, key) {
            return Err(self.rows.refuse(SlateDBError::from(error)));
        }
        Ok(())
    }
}
