//! Heads of sources in a heap, and the steps of a merge over them.
ghost use Rattle.std.specs.Prelude.{◌≡◌, ◌<◌, ◌≤◌, ◌-◌, ◌^◌, ◌&&◌, List, [], ◌∷◌, length, min, Option, None, Some, true, false, IfOk, IfErr, IsSome, OnOk, ℕ};
ghost use Rattle.std.specs.BinaryHeap.{heap_items, KeepsHeap};
ghost use Rattle.slate_types.specs.declared.iter.IterationOrder.{IterationOrder};
ghost use Rattle.slate_types.specs.declared.types.RowEntry.{RowEntry};
ghost use Rattle.slate_types.specs.Iteration.{begins_before, drop_before};
ghost use Rattle.slate_types.specs.Outside.{IsStill, OnlyReads};
ghost use Rattle.slate_types.specs.Rows.{is_base};
ghost use Rattle.slate_types.specs.World.{World, Sees, ReadsAt};
ghost use Rattle.slate_merge.specs.Heads.{head_cmp};
ghost use Rattle.slate_merge.specs.declared.head.Head.{Head};
ghost use Rattle.slate_merge.specs.Merge.{begins_with, counted, past_key, row_bytes, shown_rows, with_key};
ghost use Rattle.slate_merge.specs.Answering.{IsFaultOr};
ghost use Rattle.slate_merge.specs.MergeSteps.{CountsKey, CountsTaken, Goes, Joins, JoinsAgain, Renews, TakesMerged};
ghost use Rattle.slate_merge.specs.Merging.{AreHeaped, AreReady, HasRow, begun_sources, blames, has_key, is_before, IsTop, merging_bound, waiting_sources, AreWithin};
ghost use Rattle.slate_merge.specs.SourceSteps.{AreMerging, left_of_heads, MovesSources, SourcesAddNone, StepsHeads};

use crate::head::{BoxedRow, BoxedSource, Head};
use slate_types::{
    IterationOrder, Outside, RowEntry, RowEntryIterator, SlateDBError, ValueDeletable,
};
use std::alloc::Global;
use std::collections::{BinaryHeap, VecDeque};

/// Takes the next row off a source and puts the source with it among the heads, where there is one.
#[inline(always)]
pub fn put_back<E: Outside, I: RowEntryIterator<E>>(
    alloc: Global,
    mut source: BoxedSource<I>,
    behind: usize,
    order: IterationOrder,
    heads: &mut BinaryHeap<Head<I>>,
    env: &mut E,
) -> Result<(), SlateDBError>
    ensures joins { OnOk result (Joins (Goes I.rest I.sound I.refuses I.takes I.bound I.order (E.reach env.old) (E.reach env.new)) source behind order (heap_items heads.old) (heap_items heads.new)) }
    ensures heap { KeepsHeap head_cmp (heap_items heads.old) (heap_items heads.new) }
    ensures cause { IfErr result (λ e. IsFaultOr I.refuses (E.reach env.old) (E.reach env.new) source None e) }
    ensures within { (paths : List (List ℕ)) → I.within source paths → AreWithin I.within (begun_sources (heap_items heads.old)) paths → ReadsAt paths (E.reach env.old) (E.reach env.new) × OnOk result (AreWithin I.within (begun_sources (heap_items heads.new)) paths) }
    ensures reads { OnlyReads (E.reach env.old) (E.reach env.new) }
    ensures counts { IsStill (E.reach env.old).faults (E.reach env.new).faults result }
{
    match source.next(alloc, env) {
        Ok(Some(row)) => {
            let row = BoxedRow::new(alloc, row)?;
            let head = Head {
                row,
                behind,
                order,
                source,
            };
            Ok(heads.push(head)?)
        }
        Ok(None) => Ok(()),
        Err(refusal) => Err(refusal),
    }
}

/// Takes the next row off a source into the box of the row before it, and puts the source with it
/// among the heads, where there is one. Answers the row before.
#[inline(always)]
fn put_next<E: Outside, I: RowEntryIterator<E>>(
    alloc: Global,
    mut row: BoxedRow,
    mut source: BoxedSource<I>,
    behind: usize,
    order: IterationOrder,
    heads: &mut BinaryHeap<Head<I>>,
    env: &mut E,
) -> Result<RowEntry, SlateDBError>
    ensures answer { IfOk result (λ first. first ≡ row) }
    ensures joins { OnOk result (Joins (Goes I.rest I.sound I.refuses I.takes I.bound I.order (E.reach env.old) (E.reach env.new)) source behind order (heap_items heads.old) (heap_items heads.new)) }
    ensures heap { KeepsHeap head_cmp (heap_items heads.old) (heap_items heads.new) }
    ensures cause { IfErr result (λ e. IsFaultOr I.refuses (E.reach env.old) (E.reach env.new) source None e) }
    ensures within { (paths : List (List ℕ)) → I.within source paths → AreWithin I.within (begun_sources (heap_items heads.old)) paths → ReadsAt paths (E.reach env.old) (E.reach env.new) × OnOk result (AreWithin I.within (begun_sources (heap_items heads.new)) paths) }
    ensures reads { OnlyReads (E.reach env.old) (E.reach env.new) }
    ensures counts { IsStill (E.reach env.old).faults (E.reach env.new).faults result }
{
    match source.next(alloc, env) {
        Ok(Some(next)) => {
            let first = row.replace(next);
            let head = Head {
                row,
                behind,
                order,
                source,
            };
            match heads.push(head) {
                Ok(()) => Ok(first),
                Err(error) => {
                    drop(first);
                    Err(SlateDBError::from(error))
                }
            }
        }
        Ok(None) => Ok(row.into_row()),
        Err(error) => {
            drop(row);
            Err(error)
        }
    }
}

/// The first row of a merge.
#[inline(always)]
pub fn take_first<E: Outside, I: RowEntryIterator<E>>(
    alloc: Global,
    heads: &mut BinaryHeap<Head<I>>,
    env: &mut E,
) -> Result<Option<RowEntry>, SlateDBError>
    ensures step { (order : IterationOrder) → IfOk result (λ answer. StepsHeads I.rest I.sound I.refuses I.begins I.takes I.seeks I.order order (λ rows. rows) (E.reach env.old) (E.reach env.new) (heap_items heads.old) answer (heap_items heads.new)) }
    ensures heaped { (order : IterationOrder) → AreHeaped order (heap_items heads.old) → OnOk result (AreHeaped order (heap_items heads.new)) }
    ensures smaller { IfOk result (λ answer. IsSome answer → merging_bound I.bound [] (heap_items heads.new) < merging_bound I.bound [] (heap_items heads.old)) }
    ensures no_larger { OnOk result (merging_bound I.bound [] (heap_items heads.new) ≤ merging_bound I.bound [] (heap_items heads.old)) }
    ensures cause { IfErr result (λ e. IsFaultOr (blames I.refuses) (E.reach env.old) (E.reach env.new) (begun_sources (heap_items heads.old)) None e) }
    ensures within { (paths : List (List ℕ)) → AreWithin I.within (begun_sources (heap_items heads.old)) paths → ReadsAt paths (E.reach env.old) (E.reach env.new) × OnOk result (AreWithin I.within (begun_sources (heap_items heads.new)) paths) }
    ensures reads { OnlyReads (E.reach env.old) (E.reach env.new) }
    ensures counts { IsStill (E.reach env.old).faults (E.reach env.new).faults result }
{
    let Some(head) = heads.pop() else {
        return Ok(None);
    };
    let Head {
        row,
        behind,
        order,
        source,
    } = head;
    match put_next(alloc, row, source, behind, order, heads, env) {
        Ok(first) => Ok(Some(first)),
        Err(error) => Err(error),
    }
}

/// Whether the first row of a merge has the key.
fn top_has_key<I>(heads: &BinaryHeap<Head<I>>, key: &[u8]) -> bool
    ensures { (top : Option (Head I)) × IsTop (heap_items heads.now) top × (result ≡ has_key key.now top) }
{
    match heads.peek() {
        Some(head) => key == head.row.as_row().key.as_slice(),
        None => false,
    }
}

/// Whether the order puts the first row of a merge before the key.
fn top_is_before<I>(heads: &BinaryHeap<Head<I>>, key: &[u8]) -> bool
    ensures { (top : Option (Head I)) × IsTop (heap_items heads.now) top × (result ≡ is_before key.now top) }
{
    match heads.peek() {
        Some(head) => head
            .order
            .puts_before(head.row.as_row().key.as_slice(), key),
        None => false,
    }
}

/// The bytes of a row's key and value. A sum past the greatest number stands there.
pub fn row_bytes(row: &RowEntry) -> u64
    ensures { result ≡ min (row_bytes row.now) (2 ^ 64 - 1) }
{
    (row.key.len() as u64).saturating_add(row.value.len() as u64)
}

/// Whether the older rows of a row's key are dropped: with dedup those behind a row that is no operand.
fn decides(dedup: bool, row: &RowEntry) -> bool
    ensures { result ≡ (dedup && is_base row.now) }
{
    dedup && !matches!(row.value, ValueDeletable::Merge(_))
}

/// Takes off the leading rows of a merge that have the key, and counts their bytes.
pub fn drop_older<E: Outside, I: RowEntryIterator<E>>(
    alloc: Global,
    key: &[u8],
    heads: &mut BinaryHeap<Head<I>>,
    processed: &mut u64,
    env: &mut E,
) -> Result<(), SlateDBError>
    ensures moved { (order : IterationOrder) → OnOk result (MovesSources I.rest I.sound I.refuses I.order order (past_key key.now) (E.reach env.old) (E.reach env.new) (begun_sources (heap_items heads.old)) (begun_sources (heap_items heads.new))) }
    ensures brought { OnOk result (SourcesAddNone I.refuses I.begins I.takes I.seeks (E.reach env.old) (E.reach env.new) (begun_sources (heap_items heads.old)) (begun_sources (heap_items heads.new))) }
    ensures heaped { (order : IterationOrder) → AreHeaped order (heap_items heads.old) → OnOk result (AreHeaped order (heap_items heads.new)) }
    ensures done { (order : IterationOrder) (w : World) → AreMerging I.rest I.sound I.order order (heap_items heads.new) w → OnOk result (begins_with key.now (left_of_heads I.rest order (heap_items heads.new) w) ≡ false) }
    ensures count { (order : IterationOrder) (w : World) → Sees w (E.reach env.old) (E.reach env.new) → AreMerging I.rest I.sound I.order order (heap_items heads.old) w →
        OnOk result (processed.new ≡ counted processed.old (with_key key.now (left_of_heads I.rest order (heap_items heads.old) w))) }
    ensures counted { OnOk result (CountsKey key.now processed.old processed.new) }
    ensures no_larger { OnOk result (merging_bound I.bound [] (heap_items heads.new) ≤ merging_bound I.bound [] (heap_items heads.old)) }
    ensures cause { IfErr result (λ e. IsFaultOr (blames I.refuses) (E.reach env.old) (E.reach env.new) (begun_sources (heap_items heads.old)) None e) }
    ensures within { (paths : List (List ℕ)) → AreWithin I.within (begun_sources (heap_items heads.old)) paths → ReadsAt paths (E.reach env.old) (E.reach env.new) × OnOk result (AreWithin I.within (begun_sources (heap_items heads.new)) paths) }
    ensures reads { OnlyReads (E.reach env.old) (E.reach env.new) }
    ensures counts { IsStill (E.reach env.old).faults (E.reach env.new).faults result }
{
    'older: while top_has_key(heads, key) {
        match take_first(alloc, heads, env) {
            Ok(Some(row)) => {
                *processed = processed.saturating_add(row_bytes(&row));
                drop(row);
            }
            Ok(None) => return Ok(()),
            Err(error) => return Err(error),
        }
    }
    Ok(())
}

/// Seeks the source of the first row of a merge, where the order puts that row before the key, and says
/// whether it did.
pub fn seek_first<E: Outside, I: RowEntryIterator<E>>(
    alloc: Global,
    key: &[u8],
    heads: &mut BinaryHeap<Head<I>>,
    env: &mut E,
) -> Result<bool, SlateDBError>
    ensures moved { (order : IterationOrder) → OnOk result (MovesSources I.rest I.sound I.refuses I.order order (drop_before order key.now) (E.reach env.old) (E.reach env.new) (begun_sources (heap_items heads.old)) (begun_sources (heap_items heads.new))) }
    ensures brought { OnOk result (SourcesAddNone I.refuses I.begins I.takes I.seeks (E.reach env.old) (E.reach env.new) (begun_sources (heap_items heads.old)) (begun_sources (heap_items heads.new))) }
    ensures heaped { (order : IterationOrder) → AreHeaped order (heap_items heads.old) → OnOk result (AreHeaped order (heap_items heads.new)) }
    ensures done { (order : IterationOrder) (w : World) → AreMerging I.rest I.sound I.order order (heap_items heads.new) w →
        IfOk result (λ sought. sought ≡ false → begins_before order key.now (left_of_heads I.rest order (heap_items heads.new) w) ≡ false) }
    ensures smaller { IfOk result (λ sought. sought ≡ true → merging_bound I.bound [] (heap_items heads.new) < merging_bound I.bound [] (heap_items heads.old)) }
    ensures no_larger { OnOk result (merging_bound I.bound [] (heap_items heads.new) ≤ merging_bound I.bound [] (heap_items heads.old)) }
    ensures cause { IfErr result (λ e. IsFaultOr (blames I.refuses) (E.reach env.old) (E.reach env.new) (begun_sources (heap_items heads.old)) (Some key.now) e) }
    ensures within { (paths : List (List ℕ)) → AreWithin I.within (begun_sources (heap_items heads.old)) paths → ReadsAt paths (E.reach env.old) (E.reach env.new) × OnOk result (AreWithin I.within (begun_sources (heap_items heads.new)) paths) }
    ensures reads { OnlyReads (E.reach env.old) (E.reach env.new) }
    ensures counts { IsStill (E.reach env.old).faults (E.reach env.new).faults result }
{
    if !top_is_before(heads, key) {
        return Ok(false);
    }
    let Some(head) = heads.pop() else {
        return Ok(false);
    };
    let Head {
        row,
        behind,
        order,
        mut source,
    } = head;
    match source.seek(alloc, key, env) {
        Ok(()) => match put_next(alloc, row, source, behind, order, heads, env) {
            Ok(first) => {
                drop(first);
                Ok(true)
            }
            Err(error) => Err(error),
        },
        Err(error) => {
            drop(row);
            Err(error)
        }
    }
}

/// Takes off the rows of a merge that the order puts before the key.
pub fn seek_heads<E: Outside, I: RowEntryIterator<E>>(
    alloc: Global,
    key: &[u8],
    heads: &mut BinaryHeap<Head<I>>,
    env: &mut E,
) -> Result<(), SlateDBError>
    ensures moved { (order : IterationOrder) → OnOk result (MovesSources I.rest I.sound I.refuses I.order order (drop_before order key.now) (E.reach env.old) (E.reach env.new) (begun_sources (heap_items heads.old)) (begun_sources (heap_items heads.new))) }
    ensures brought { OnOk result (SourcesAddNone I.refuses I.begins I.takes I.seeks (E.reach env.old) (E.reach env.new) (begun_sources (heap_items heads.old)) (begun_sources (heap_items heads.new))) }
    ensures heaped { (order : IterationOrder) → AreHeaped order (heap_items heads.old) → OnOk result (AreHeaped order (heap_items heads.new)) }
    ensures done { (order : IterationOrder) (w : World) → AreMerging I.rest I.sound I.order order (heap_items heads.new) w → OnOk result (begins_before order key.now (left_of_heads I.rest order (heap_items heads.new) w) ≡ false) }
    ensures no_larger { OnOk result (merging_bound I.bound [] (heap_items heads.new) ≤ merging_bound I.bound [] (heap_items heads.old)) }
    ensures cause { IfErr result (λ e. IsFaultOr (blames I.refuses) (E.reach env.old) (E.reach env.new) (begun_sources (heap_items heads.old)) (Some key.now) e) }
    ensures within { (paths : List (List ℕ)) → AreWithin I.within (begun_sources (heap_items heads.old)) paths → ReadsAt paths (E.reach env.old) (E.reach env.new) × OnOk result (AreWithin I.within (begun_sources (heap_items heads.new)) paths) }
    ensures reads { OnlyReads (E.reach env.old) (E.reach env.new) }
    ensures counts { IsStill (E.reach env.old).faults (E.reach env.new).faults result }
{
    'sources: loop {
        match seek_first(alloc, key, heads, env) {
            Ok(true) => {}
            Ok(false) => return Ok(()),
            Err(error) => return Err(error),
        }
    }
}

/// Begins a source of a merge and puts it with its first row among the heads, where it has one.
pub fn begin_source<E: Outside, I: RowEntryIterator<E>>(
    alloc: Global,
    mut source: I,
    behind: usize,
    order: IterationOrder,
    heads: &mut BinaryHeap<Head<I>>,
    env: &mut E,
) -> Result<(), SlateDBError>
    ensures moved { (waiting : List I) → behind ≡ length waiting →
        OnOk result (MovesSources I.rest I.sound I.refuses I.order order (λ rows. rows) (E.reach env.old) (E.reach env.new) (record { waiting = source ∷ waiting; heads = heap_items heads.old }) (record { waiting = waiting; heads = heap_items heads.new })) }
    ensures brought { (waiting : List I) →
        OnOk result (SourcesAddNone I.refuses I.begins I.takes I.seeks (E.reach env.old) (E.reach env.new) (record { waiting = source ∷ waiting; heads = heap_items heads.old }) (record { waiting = waiting; heads = heap_items heads.new })) }
    ensures heaped { AreHeaped order (heap_items heads.old) → OnOk result (AreHeaped order (heap_items heads.new)) }
    ensures ready { AreReady I.refuses (E.reach env.old).meaning (heap_items heads.old) → OnOk result (AreReady I.refuses (E.reach env.old).meaning (heap_items heads.new)) }
    ensures no_larger { (waiting : List I) → OnOk result (merging_bound I.bound waiting (heap_items heads.new) ≤ merging_bound I.bound (source ∷ waiting) (heap_items heads.old)) }
    ensures cause { IfErr result (λ e. IsFaultOr I.refuses (E.reach env.old) (E.reach env.new) source None e) }
    ensures within { (paths : List (List ℕ)) → I.within source paths → AreWithin I.within (begun_sources (heap_items heads.old)) paths → ReadsAt paths (E.reach env.old) (E.reach env.new) × OnOk result (AreWithin I.within (begun_sources (heap_items heads.new)) paths) }
    ensures reads { OnlyReads (E.reach env.old) (E.reach env.new) }
    ensures counts { IsStill (E.reach env.old).faults (E.reach env.new).faults result }
{
    match source.init(alloc, env) {
        Ok(()) => match BoxedSource::new(alloc, source) {
            Ok(boxed) => match put_back(alloc, boxed, behind, order, heads, env) {
                Ok(()) => Ok(()),
                Err(error) => Err(error),
            },
            Err(error) => Err(error),
        },
        Err(error) => Err(error),
    }
}

/// Begins all sources of a merge, each with the number of those behind it, and answers their heads.
pub fn begin_all<E: Outside, I: RowEntryIterator<E>>(
    alloc: Global,
    waiting: &mut VecDeque<I>,
    order: IterationOrder,
    env: &mut E,
) -> Result<BinaryHeap<Head<I>>, SlateDBError>
    ensures moved { IfOk result (λ heads. MovesSources I.rest I.sound I.refuses I.order order (λ rows. rows) (E.reach env.old) (E.reach env.new) (waiting_sources waiting.old.items) (begun_sources (heap_items heads))) }
    ensures brought { IfOk result (λ heads. SourcesAddNone I.refuses I.begins I.takes I.seeks (E.reach env.old) (E.reach env.new) (waiting_sources waiting.old.items) (begun_sources (heap_items heads))) }
    ensures heaped { IfOk result (λ heads. AreHeaped order (heap_items heads)) }
    ensures ready { IfOk result (λ heads. AreReady I.refuses (E.reach env.old).meaning (heap_items heads)) }
    ensures no_larger { IfOk result (λ heads. merging_bound I.bound [] (heap_items heads) ≤ merging_bound I.bound waiting.old.items []) }
    ensures cause { IfErr result (λ e. IsFaultOr (blames I.refuses) (E.reach env.old) (E.reach env.new) (waiting_sources waiting.old.items) None e) }
    ensures within { (paths : List (List ℕ)) → AreWithin I.within (waiting_sources waiting.old.items) paths → ReadsAt paths (E.reach env.old) (E.reach env.new) × IfOk result (λ heads. AreWithin I.within (begun_sources (heap_items heads)) paths) }
    ensures reads { OnlyReads (E.reach env.old) (E.reach env.new) }
    ensures counts { IsStill (E.reach env.old).faults (E.reach env.new).faults result }
{
    let mut heads = BinaryHeap::new(alloc);
    'sources: while let Some(source) = waiting.pop_front() {
        let behind = waiting.len();
        match begin_source(alloc, source, behind, order, &mut heads, env) {
            Ok(()) => {}
            Err(error) => return Err(error),
        }
    }
    Ok(heads)
}

/// Begins the source of a head again, and puts it among those that are done.
fn begin_head<E: Outside, I: RowEntryIterator<E>>(
    alloc: Global,
    head: Head<I>,
    done: &mut BinaryHeap<Head<I>>,
    env: &mut E,
) -> Result<(), SlateDBError>
    ensures renewed { OnOk result (JoinsAgain (Renews I.rest I.sound I.refuses I.begins I.bound I.order (E.reach env.old) (E.reach env.new)) head (heap_items done.old) (heap_items done.new)) }
    ensures heap { KeepsHeap head_cmp (heap_items done.old) (heap_items done.new) }
    ensures cause { IfErr result (λ e. IsFaultOr I.refuses (E.reach env.old) (E.reach env.new) head.source None e) }
    ensures within { (paths : List (List ℕ)) → I.within head.source paths → AreWithin I.within (begun_sources (heap_items done.old)) paths → ReadsAt paths (E.reach env.old) (E.reach env.new) × OnOk result (AreWithin I.within (begun_sources (heap_items done.new)) paths) }
    ensures reads { OnlyReads (E.reach env.old) (E.reach env.new) }
    ensures counts { IsStill (E.reach env.old).faults (E.reach env.new).faults result }
{
    let Head {
        row,
        behind,
        order,
        mut source,
    } = head;
    match source.init(alloc, env) {
        Ok(()) => {
            let head = Head {
                row,
                behind,
                order,
                source,
            };
            Ok(done.push(head)?)
        }
        Err(error) => {
            drop(row);
            Err(error)
        }
    }
}

/// Begins the sources of all heads again, and answers their heads.
pub fn begin_again<E: Outside, I: RowEntryIterator<E>>(
    alloc: Global,
    heads: &mut BinaryHeap<Head<I>>,
    env: &mut E,
) -> Result<BinaryHeap<Head<I>>, SlateDBError>
    ensures moved { (order : IterationOrder) → IfOk result (λ done. MovesSources I.rest I.sound I.refuses I.order order (λ rows. rows) (E.reach env.old) (E.reach env.new) (begun_sources (heap_items heads.old)) (begun_sources (heap_items done))) }
    ensures brought { IfOk result (λ done. SourcesAddNone I.refuses I.begins I.takes I.seeks (E.reach env.old) (E.reach env.new) (begun_sources (heap_items heads.old)) (begun_sources (heap_items done))) }
    ensures heaped { (order : IterationOrder) → AreHeaped order (heap_items heads.old) → IfOk result (λ done. AreHeaped order (heap_items done)) }
    ensures same_rows { IfOk result (λ done. (r : RowEntry) → HasRow (heap_items done) r → HasRow (heap_items heads.old) r) }
    ensures ready { IfOk result (λ done. AreReady I.refuses (E.reach env.old).meaning (heap_items done)) }
    ensures no_larger { IfOk result (λ done. merging_bound I.bound [] (heap_items done) ≤ merging_bound I.bound [] (heap_items heads.old)) }
    ensures cause { IfErr result (λ e. IsFaultOr (blames I.refuses) (E.reach env.old) (E.reach env.new) (begun_sources (heap_items heads.old)) None e) }
    ensures within { (paths : List (List ℕ)) → AreWithin I.within (begun_sources (heap_items heads.old)) paths → ReadsAt paths (E.reach env.old) (E.reach env.new) × IfOk result (λ done. AreWithin I.within (begun_sources (heap_items done)) paths) }
    ensures reads { OnlyReads (E.reach env.old) (E.reach env.new) }
    ensures counts { IsStill (E.reach env.old).faults (E.reach env.new).faults result }
{
    let mut done = BinaryHeap::new(alloc);
    'heads: while let Some(head) = heads.pop() {
        match begin_head(alloc, head, &mut done, env) {
            Ok(()) => {}
            Err(error) => return Err(error),
        }
    }
    Ok(done)
}

/// One step of a merge: its first row, and with dedup the rows that it decides, which are dropped. Their bytes are counted.
#[inline(always)]
pub fn take_row<E: Outside, I: RowEntryIterator<E>>(
    alloc: Global,
    dedup: bool,
    heads: &mut BinaryHeap<Head<I>>,
    processed: &mut u64,
    env: &mut E,
) -> Result<Option<RowEntry>, SlateDBError>
    ensures step { (order : IterationOrder) → IfOk result (λ answer. StepsHeads I.rest I.sound I.refuses I.begins I.takes I.seeks I.order order (shown_rows dedup) (E.reach env.old) (E.reach env.new) (heap_items heads.old) answer (heap_items heads.new)) }
    ensures heaped { (order : IterationOrder) → AreHeaped order (heap_items heads.old) → OnOk result (AreHeaped order (heap_items heads.new)) }
    ensures count { (order : IterationOrder) (w : World) → Sees w (E.reach env.old) (E.reach env.new) → AreMerging I.rest I.sound I.order order (heap_items heads.old) w →
        OnOk result (TakesMerged dedup (left_of_heads I.rest order (heap_items heads.old) w) (left_of_heads I.rest order (heap_items heads.new) w) processed.old processed.new) }
    ensures counted { IfOk result (λ answer. CountsTaken dedup processed.old answer processed.new) }
    ensures smaller { IfOk result (λ answer. IsSome answer → merging_bound I.bound [] (heap_items heads.new) < merging_bound I.bound [] (heap_items heads.old)) }
    ensures no_larger { OnOk result (merging_bound I.bound [] (heap_items heads.new) ≤ merging_bound I.bound [] (heap_items heads.old)) }
    ensures cause { IfErr result (λ e. IsFaultOr (blames I.refuses) (E.reach env.old) (E.reach env.new) (begun_sources (heap_items heads.old)) None e) }
    ensures within { (paths : List (List ℕ)) → AreWithin I.within (begun_sources (heap_items heads.old)) paths → ReadsAt paths (E.reach env.old) (E.reach env.new) × OnOk result (AreWithin I.within (begun_sources (heap_items heads.new)) paths) }
    ensures reads { OnlyReads (E.reach env.old) (E.reach env.new) }
    ensures counts { IsStill (E.reach env.old).faults (E.reach env.new).faults result }
{
    match take_first(alloc, heads, env) {
        Ok(Some(row)) => {
            *processed = processed.saturating_add(row_bytes(&row));
            if !decides(dedup, &row) {
                return Ok(Some(row));
            }
            match drop_older(alloc, row.key.as_slice(), heads, processed, env) {
                Ok(()) => Ok(Some(row)),
                Err(error) => {
                    drop(row);
                    Err(error)
                }
            }
        }
        Ok(None) => Ok(None),
        Err(error) => Err(error),
    }
}
