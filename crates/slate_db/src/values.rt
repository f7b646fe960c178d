//! The rows of an iterator as a reader gets them.
ghost use Rattle.std.specs.Prelude.{◌≡◌, ⊤, None, Some, IfSome, drop, if◌then◌else◌};
ghost use Rattle.slate_types.specs.declared.error.SlateDBError.{SlateDBError};
ghost use Rattle.slate_types.specs.declared.types.RowEntry.{RowEntry};
ghost use Rattle.slate_types.specs.Iteration.{drop_before};
ghost use Rattle.slate_types.specs.Rows.{key_value};
ghost use Rattle.slate_merge.specs.Offers.{Comes, offers};
ghost use Rattle.slate_merge.specs.OperatorIterators.{IsOperable};
ghost use Rattle.slate_txn.specs.Alone.{first_left};
ghost use Rattle.slate_db.specs.Values.{IsUnfolded, has_value};
ghost use Rattle.slate_db.specs.Calls.Step.{StepsValues};

use slate_merge::{MergeOperatorIterator, Operates};
use slate_types::{KeyValue, RowEntry, RowEntryIterator, SlateDBError, ValueDeletable};
use std::alloc::Global;

/// What a reader gets of a row, where it is no tombstone. An operand below which nothing stands is a value.
#[inline(always)]
fn value_of(row: RowEntry) -> Option<KeyValue>
    ensures { result ≡ (if has_value row then Some (key_value row) else None) }
{
    match &row.value {
        ValueDeletable::Value(_) => Some(KeyValue::from_row(row)),
        ValueDeletable::Merge(_) => Some(KeyValue::from_row(row)),
        ValueDeletable::Tombstone => {
            drop(row);
            None
        }
    }
}

/// The next row that is no tombstone, or `None` at the end.
#[inline(always)]
pub(crate) fn next_value<E: Operates, I: RowEntryIterator<E>>(
    alloc: Global,
    rows: &mut MergeOperatorIterator<I>,
    env: &mut E,
) -> Result<Option<KeyValue>, SlateDBError>
    ensures { StepsValues I.rest I.sound I.order I.refuses (offers I.begins I.takes I.seeks)
        I.within None
        (drop 1) (λ values a. a ≡ first_left values)
        (λ reads a. IfSome a (IsUnfolded rows.old.folding.snapshot_barrier_seq
        (λ r. offers I.begins I.takes I.seeks rows.old.ahead rows.old.iterator (E.reach
        env.old).meaning reads (Comes r))))
        (IsOperable I.rest rows.old) (E.reach env.old) (E.reach env.new) rows.old rows.new result }
{
    while let Some(row) = rows.next_row(alloc, env)? {
        if let Some(value) = value_of(row) {
            return Ok(Some(value));
        }
    }
    Ok(None)
}

/// Drops the leading rows that the order puts before the key.
pub(crate) fn seek_values<E: Operates, I: RowEntryIterator<E>>(
    alloc: Global,
    rows: &mut MergeOperatorIterator<I>,
    key: &[u8],
    env: &mut E,
) -> Result<(), SlateDBError>
    ensures { StepsValues I.rest I.sound I.order I.refuses (offers I.begins I.takes I.seeks)
        I.within
        (Some key.now) (drop_before (I.order rows.old.iterator) key.now) (λ values a. ⊤)
        (λ reads a. ⊤) (λ w. ⊤) (E.reach env.old) (E.reach env.new) rows.old rows.new result }
{
    rows.seek(alloc, key, env)
}
