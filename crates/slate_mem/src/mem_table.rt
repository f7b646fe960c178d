//! Rows in memory, until a flush.
ghost use Rattle.std.specs.Prelude.{◌≡◌, nat_le, nat_lt, ◌<◌, ◌≤◌, ◌^◌, ◌++◌, ◌↔◌, ◌&&◌, ◌⊎◌, filter, List, [], length, None, Some, option_copied, option_map, IsTrue, OnOk, OnErr, IfOk, IfErr, IsOkUnless, Ok, ℕ, ◌-◌, ◌==◌, min, max, not};
ghost use Rattle.std.specs.Arc.{arc_value};
ghost use Rattle.std.specs.BTreeSet as set;
ghost use Rattle.std.specs.List.{sum_by};
ghost use Rattle.slate_types.specs.declared.error.SlateDBError.{SlateDBError};
ghost use Rattle.slate_types.specs.Rows.{estimated_size, of_key};
ghost use Rattle.slate_types.specs.Keys.{key_cmp, keys_set, among};
ghost use Rattle.slate_types.specs.Fold.{greatest_seq};
ghost use Rattle.slate_types.specs.declared.iter.IterationOrder.{IterationOrder};
ghost use Rattle.slate_types.specs.declared.types.RowEntry.{RowEntry};
ghost use Rattle.slate_types.specs.Iteration.{IsInOrder};
ghost use Rattle.slate_types.specs.RowTurns.{AreInTurn, row_before};
ghost use Rattle.slate_mem.specs.Frozen.{table_in};
ghost use Rattle.slate_mem.specs.KeyTests.{nest_refusal, point_lengths};
ghost use Rattle.slate_mem.specs.Refusals.{first_refusal};
ghost use Rattle.slate_mem.specs.Segments.{row_prefixes, row_refusals};
ghost use Rattle.slate_mem.specs.Slots.{IsSlots, standing};
ghost use Rattle.slate_mem.specs.Table.{after_seq, no_rows, put_rows, ranged, newest, last_tick, first_seq};

use crate::key_tests::prefixes_of;
use crate::mem_iterator::MemTableIterator;
use crate::metadata::{KVTableMetadata, count_rows};
use crate::segments::{least_nesting, test_other};
use crate::slots::{Slot, are_empty, copies, newest_rows, put_each, share_range, take_back};
use bytes::Bytes;
use slate_types::{BytesRange, IterationOrder, PrefixExtractor, RowEntry, SlateDBError};
use std::alloc::{AllocError, Global};
use std::cmp::Ordering;
use std::collections::BTreeSet;
use std::marker::Model;
use std::mem;
use std::sync::Arc;

/// Rows by key, the newest first within a key, with the segment prefixes that were recorded beside them. After a
/// refusal it is as it was.
#[derive(Drop)]
pub struct MemTable {
    alloc: Global,
    slots: Vec<Slot>,
    /// No row has a greater sequence.
    last: u64,
    /// There are no more rows.
    most: usize,
    segments: BTreeSet<Bytes>,
}

impl Model for MemTable {
    ghost use Rattle.slate_mem.specs.Table.{MemTableModel};
    ghost use Rattle.slate_mem.specs.Slots.{IsTable, standing};

    ghost Value = { MemTableModel };

    ghost view = { λ t. record { rows = standing t.slots.items; segments = t.segments.keys } };

    ghost invariant = { λ t. IsTable t.slots.items t.last t.most t.segments.keys };
}

impl MemTable {
    /// A table without rows. Takes no memory.
    pub fn new(alloc: Global) -> MemTable
        ensures { result ≡ no_rows }
    {
        MemTable {
            alloc,
            slots: Vec::new(alloc),
            last: 0,
            most: 0,
            segments: BTreeSet::new(alloc),
        }
    }

    /// Whether it has no rows.
    pub fn is_empty(&self) -> bool
        ensures { IsTrue result ↔ (self.now.rows ≡ []) }
    {
        are_empty(&self.slots)
    }

    /// Puts all rows, each in place of one of the same key and sequence, and records the prefixes beside those that
    /// are recorded already. The one error is `OutOfMemory`, and then none is put.
    pub fn put_all(
        &mut self,
        rows: Vec<RowEntry>,
        segments: BTreeSet<Bytes>,
    ) -> Result<(), SlateDBError>
        ensures rows { OnOk result (self.new.rows ≡ put_rows self.old.rows rows.items) }
        ensures segments { OnOk result (self.new.segments ≡ keys_set (self.old.segments ++ segments.keys)) }
        ensures same { OnErr result (self.new ≡ self.old) }
        ensures cause { IsOkUnless result SlateDBError.OutOfMemory }
    {
        let segments = join(&self.segments, segments)?;
        let Some(most) = self.most.checked_add(rows.len()) else {
            drop(rows);
            drop(segments);
            return Err(SlateDBError::OutOfMemory);
        };
        let last = greatest(&rows, self.last);
        match put_each(self.alloc, &mut self.slots, self.last, rows) {
            Ok(()) => {
                self.last = last;
                self.most = most;
                self.segments = segments;
                Ok(())
            }
            Err(error) => {
                drop(segments);
                Err(error.into())
            }
        }
    }

    /// The rows of the key with sequences of at most `max_seq`, newest first, to the first that is no merge: what a
    /// reader at that sequence sees is their fold. The one error is `OutOfMemory`.
    pub fn rows_of_key(
        &self,
        alloc: Global,
        key: &Bytes,
        max_seq: u64,
    ) -> Result<Vec<RowEntry>, SlateDBError>
        ensures rows { IfOk result (λ rows. rows.items ≡ newest key.now max_seq self.now.rows) }
        ensures cause { IsOkUnless result SlateDBError.OutOfMemory }
    {
        Ok(newest_rows(alloc, &self.slots, key, max_seq)?)
    }

    /// The rows whose keys are in the range, keys in the order, and newest first within a key in both orders. They
    /// share keys and values. The one error is `OutOfMemory`.
    pub fn range(
        &self,
        alloc: Global,
        range: &BytesRange,
        order: IterationOrder,
    ) -> Result<MemTableIterator, SlateDBError>
        ensures rows { IfOk result (λ it. (k : List ℕ) → of_key k it.rows ≡ of_key k (ranged range.now self.now.rows)) }
        ensures in_order { IfOk result (λ it. IsInOrder order it.rows) }
        ensures turn { IfOk result (λ it. AreInTurn (row_before order) it.rows) }
        ensures order { IfOk result (λ it. it.order ≡ order) }
        ensures cause { IsOkUnless result SlateDBError.OutOfMemory }
    {
        let slots = share_range(alloc, &self.slots, range, u64::MAX, self.last)?;
        walk(alloc, slots, order)
    }

    /// All rows, by key upwards and within a key by sequence downwards. They share keys and values. The one error is
    /// `OutOfMemory`.
    fn rows(&self, alloc: Global) -> Result<Vec<RowEntry>, SlateDBError>
        ensures rows { IfOk result (λ rows. rows.items ≡ self.now.rows) }
        ensures cause { IsOkUnless result SlateDBError.OutOfMemory }
    {
        Ok(copies(alloc, &self.slots)?)
    }

    /// As `ImmutableMemtable::filter_after_seq`.
    fn filter_after_seq<X: PrefixExtractor>(
        &self,
        seq: u64,
        extractor: Option<&X>,
    ) -> Result<ImmutableMemtable, SlateDBError>
        ensures rows { IfOk result (λ t. t.rows ≡ after_seq seq self.now.rows) }
        ensures segments { IfOk result (λ t. t.segments ≡ row_prefixes (point_lengths (option_map X.lengths (option_copied extractor.entry))) (after_seq seq self.now.rows)) }
        ensures fine { OnOk result (first_refusal (row_refusals (point_lengths (option_map X.lengths (option_copied extractor.entry))) (after_seq seq self.now.rows)) ≡ None) }
        ensures cause { IfErr result (λ e. (e ≡ SlateDBError.OutOfMemory) ⊎ (first_refusal (row_refusals (point_lengths (option_map X.lengths (option_copied extractor.entry))) (after_seq seq self.now.rows)) ≡ Some e)) }
    {
        let alloc = self.alloc;
        let rows = rows_after(alloc, &self.slots, seq)?;
        let segments = prefixes_of(alloc, &rows, extractor)?;
        let mut table = MemTable::new(alloc);
        table.put_all(rows, segments)?;
        Ok(ImmutableMemtable {
            table: Frozen::Owned(table),
        })
    }

    /// A table of the rows with sequences of at most `seq` whose keys are in the range. It records no prefixes. The rows share keys
    /// and values. The one error is `OutOfMemory`.
    pub fn upto(
        &self,
        alloc: Global,
        range: &BytesRange,
        seq: u64,
    ) -> Result<MemTable, SlateDBError>
        ensures rows { IfOk result (λ t. t.rows ≡ filter (λ r. nat_le r.seq seq) (ranged range.now self.now.rows)) }
        ensures segments { IfOk result (λ t. t.segments ≡ []) }
        ensures cause { IsOkUnless result SlateDBError.OutOfMemory }
    {
        let slots = share_range(alloc, &self.slots, range, seq, self.last)?;
        Ok(MemTable {
            alloc,
            slots,
            last: self.last,
            most: self.most,
            segments: BTreeSet::new(alloc),
        })
    }

    /// Moves the rows and the recorded prefixes into a table that stays as it is, and leaves none. It takes no memory.
    pub fn freeze(&mut self) -> Result<ImmutableMemtable, SlateDBError>
        ensures frozen { result ≡ Ok self.old }
        ensures left { self.new ≡ no_rows }
    {
        let empty = MemTable::new(self.alloc);
        Ok(ImmutableMemtable {
            table: Frozen::Owned(mem::replace(self, empty)),
        })
    }

    /// The recorded prefixes.
    pub fn touched_segments(&self) -> &BTreeSet<Bytes>
        ensures { result.now.keys ≡ self.now.segments }
    {
        &self.segments
    }

    /// The number of rows, the sum of their estimated sizes or the greatest number where it is more, their greatest
    /// creation or the least moment where there is none, and their last and first sequence, each 0 where there is
    /// none. It goes over all rows.
    pub fn metadata(&self) -> KVTableMetadata
        ensures entries { result.entry_num ≡ length self.now.rows }
        ensures bytes { result.entries_size_in_bytes ≡ min (sum_by estimated_size self.now.rows) (2 ^ 64 - 1) }
        ensures tick { result.last_tick ≡ last_tick self.now.rows }
        ensures last { result.last_seq ≡ greatest_seq 0 self.now.rows }
        ensures first { result.first_seq ≡ first_seq self.now.rows }
    {
        count_rows(&self.slots)
    }

    /// Tests a prefix against the recorded ones, and says whether it is one of them. `InvalidSegmentPrefix` exactly where it nests
    /// with another of them, with the least such, even where it is recorded itself. Else `OutOfMemory`.
    pub fn ensure_valid_segment(&self, prefix: &Bytes) -> Result<bool, SlateDBError>
        ensures recorded { IfOk result (λ is. is ≡ among prefix.now self.now.segments) }
        ensures fine { OnOk result (nest_refusal self.now.segments prefix.now ≡ None) }
        ensures cause { IfErr result (λ e. (e ≡ SlateDBError.OutOfMemory) ⊎ (nest_refusal self.now.segments prefix.now ≡ Some e)) }
    {
        let other = least_nesting(&self.segments, prefix)?;
        test_other(prefix, other)?;
        Ok(self.segments.contains(prefix))
    }

    /// Drops the rows of a sequence, and drops the prefixes from the recorded ones: so a commit that is refused after
    /// its `put_all` is undone. It takes no memory.
    pub fn take_back(&mut self, seq: u64, segments: &BTreeSet<Bytes>)
        ensures rows { self.new.rows ≡ filter (λ r. not (r.seq == seq)) self.old.rows }
        ensures segments { self.new.segments ≡ filter (λ p. not (among p segments.now.keys)) self.old.segments }
    {
        take_back(&mut self.slots, seq);
        drop_prefixes(&mut self.segments, segments);
    }
}

/// A table that is not written any more, and waits for its flush.
#[derive(Drop)]
pub struct ImmutableMemtable {
    table: Frozen,
}

/// How a table is held that is not written any more. Its first share moves it behind an `Arc`, so that a freeze takes no memory.
#[derive(Drop)]
enum Frozen {
    Owned(MemTable),
    Shared(Arc<MemTable, Global>),
}

impl Model for ImmutableMemtable {
    ghost use Rattle.slate_mem.specs.Frozen.{table_in};
    ghost use Rattle.slate_mem.specs.Table.{MemTableModel};

    ghost Value = { MemTableModel };

    ghost view = { λ t. table_in t.table };
}

impl ImmutableMemtable {
    /// The same table once more: both share its rows. It takes memory the first time alone. The one error is `AllocError`.
    pub fn share(&mut self) -> Result<ImmutableMemtable, AllocError>
        ensures same { self.new ≡ self.old }
        ensures shared { IfOk result (λ t. t ≡ self.old) }
    {
        let table = another(&mut self.table)?;
        Ok(ImmutableMemtable {
            table: Frozen::Shared(table),
        })
    }

    fn table(&self) -> &MemTable
        ensures { result.now ≡ self.now }
    {
        match &self.table {
            Frozen::Owned(table) => table,
            Frozen::Shared(table) => table,
        }
    }

    /// As `MemTable::rows_of_key`.
    pub fn rows_of_key(
        &self,
        alloc: Global,
        key: &Bytes,
        max_seq: u64,
    ) -> Result<Vec<RowEntry>, SlateDBError>
        ensures rows { IfOk result (λ rows. rows.items ≡ newest key.now max_seq self.now.rows) }
        ensures cause { IsOkUnless result SlateDBError.OutOfMemory }
    {
        self.table().rows_of_key(alloc, key, max_seq)
    }

    /// As `MemTable::range`.
    pub fn range(
        &self,
        alloc: Global,
        range: &BytesRange,
        order: IterationOrder,
    ) -> Result<MemTableIterator, SlateDBError>
        ensures rows { IfOk result (λ it. (k : List ℕ) → of_key k it.rows ≡ of_key k (ranged range.now self.now.rows)) }
        ensures in_order { IfOk result (λ it. IsInOrder order it.rows) }
        ensures turn { IfOk result (λ it. AreInTurn (row_before order) it.rows) }
        ensures order { IfOk result (λ it. it.order ≡ order) }
        ensures cause { IsOkUnless result SlateDBError.OutOfMemory }
    {
        self.table().range(alloc, range, order)
    }

    /// All rows, by key upwards and within a key by sequence downwards. They share keys and values. The one error is
    /// `OutOfMemory`.
    pub fn rows(&self, alloc: Global) -> Result<Vec<RowEntry>, SlateDBError>
        ensures rows { IfOk result (λ rows. rows.items ≡ self.now.rows) }
        ensures cause { IsOkUnless result SlateDBError.OutOfMemory }
    {
        self.table().rows(alloc)
    }

    /// The recorded prefixes.
    pub fn touched_segments(&self) -> &BTreeSet<Bytes>
        ensures { result.now.keys ≡ self.now.segments }
    {
        self.table().touched_segments()
    }

    /// A table of its rows with greater sequences, which records the prefixes of these rows alone, and none where there is no
    /// extractor. The rows share keys and values. `EmptySegmentPrefix` where the extractor gives the key of one of these rows no
    /// prefix, or an empty one, with the first such key. Else `OutOfMemory`.
    pub fn filter_after_seq<X: PrefixExtractor>(
        &self,
        seq: u64,
        extractor: Option<&X>,
    ) -> Result<ImmutableMemtable, SlateDBError>
        ensures rows { IfOk result (λ t. t.rows ≡ after_seq seq self.now.rows) }
        ensures segments { IfOk result (λ t. t.segments ≡ row_prefixes (point_lengths (option_map X.lengths (option_copied extractor.entry))) (after_seq seq self.now.rows)) }
        ensures fine { OnOk result (first_refusal (row_refusals (point_lengths (option_map X.lengths (option_copied extractor.entry))) (after_seq seq self.now.rows)) ≡ None) }
        ensures cause { IfErr result (λ e. (e ≡ SlateDBError.OutOfMemory) ⊎ (first_refusal (row_refusals (point_lengths (option_map X.lengths (option_copied extractor.entry))) (after_seq seq self.now.rows)) ≡ Some e)) }
    {
        self.table().filter_after_seq(seq, extractor)
    }

    /// As `MemTable::metadata`.
    pub fn metadata(&self) -> KVTableMetadata
        ensures entries { result.entry_num ≡ length self.now.rows }
        ensures bytes { result.entries_size_in_bytes ≡ min (sum_by estimated_size self.now.rows) (2 ^ 64 - 1) }
        ensures tick { result.last_tick ≡ last_tick self.now.rows }
        ensures last { result.last_seq ≡ greatest_seq 0 self.now.rows }
        ensures first { result.first_seq ≡ first_seq self.now.rows }
    {
        self.table().metadata()
    }
}

/// One owner more of the table, which is moved behind an `Arc` before where it stands behind none.
fn another(frozen: &mut Frozen) -> Result<Arc<MemTable, Global>, AllocError>
    ensures same { table_in frozen.new ≡ table_in frozen.old }
    ensures shared { IfOk result (λ t. arc_value t ≡ table_in frozen.old) }
{
    if let Frozen::Owned(table) = frozen {
        let alloc = table.alloc;
        let table = mem::replace(table, MemTable::new(alloc));
        *frozen = behind_arc(alloc, table);
    }
    match frozen {
        Frozen::Owned(_) => Err(AllocError),
        Frozen::Shared(table) => Arc::try_clone(table),
    }
}

/// The table behind an `Arc`, or as it is where memory is wanting.
fn behind_arc(alloc: Global, table: MemTable) -> Frozen
    ensures { table_in result ≡ table }
{
    match Arc::new(alloc, table) {
        Ok(table) => Frozen::Shared(table),
        Err(refused) => Frozen::Owned(refused.value),
    }
}

/// The keys of both sets.
fn join(
    recorded: &BTreeSet<Bytes>,
    mut more: BTreeSet<Bytes>,
) -> Result<BTreeSet<Bytes>, AllocError>
    ensures rising { IfOk result (set.IsOrdered key_cmp) }
    ensures both { IfOk result (λ all. all.keys ≡ keys_set (recorded.now.keys ++ more.keys)) }
{
    let _count = more.len();
    for prefix in recorded {
        more.insert(prefix.clone()?)?;
    }
    Ok(more)
}

/// The greatest sequence, or `last` where it is greater.
fn greatest(rows: &[RowEntry], mut last: u64) -> u64
    ensures { result ≡ greatest_seq last rows.now }
{
    for row in rows {
        last = last.max(row.seq);
    }
    last
}

/// Copies of the rows with greater sequences.
fn rows_after(alloc: Global, slots: &[Slot], seq: u64) -> Result<Vec<RowEntry>, AllocError>
    ensures rows { IfOk result (λ found. found.items ≡ after_seq seq (standing slots.now)) }
{
    let mut found = copies(alloc, slots)?;
    found.retain(
        move |row| -> bool
            ensures { result ≡ nat_lt seq row.now.seq }
        { row.seq > seq },
    );
    Ok(found)
}

/// An iterator over the rows of slots. Downwards it copies them.
fn walk(
    alloc: Global,
    slots: Vec<Slot>,
    order: IterationOrder,
) -> Result<MemTableIterator, SlateDBError>
    requires { IsSlots slots.items }
    ensures rows { IfOk result (λ it. (k : List ℕ) → of_key k it.rows ≡ of_key k (standing slots.items)) }
    ensures in_order { IfOk result (λ it. IsInOrder order it.rows) }
    ensures order { IfOk result (λ it. it.order ≡ order) }
    ensures cause { IsOkUnless result SlateDBError.OutOfMemory }
{
    match order {
        IterationOrder::Ascending => Ok(MemTableIterator::of_slots(alloc, slots)),
        IterationOrder::Descending => walk_down(alloc, slots),
    }
}

/// An iterator over copies of the rows of slots, keys downwards.
fn walk_down(alloc: Global, slots: Vec<Slot>) -> Result<MemTableIterator, SlateDBError>
    requires { IsSlots slots.items }
    ensures rows { IfOk result (λ it. (k : List ℕ) → of_key k it.rows ≡ of_key k (standing slots.items)) }
    ensures in_order { IfOk result (λ it. IsInOrder IterationOrder.Descending it.rows) }
    ensures order { IfOk result (λ it. it.order ≡ IterationOrder.Descending) }
    ensures cause { IsOkUnless result SlateDBError.OutOfMemory }
{
    let rows = copies(alloc, &slots)?;
    drop(slots);
    let rows = ordered(rows, IterationOrder::Descending)?;
    Ok(MemTableIterator::of_rows(alloc, rows, IterationOrder::Descending))
}

/// Rows whose keys ascend, in the order.
pub(crate) fn ordered(
    mut rows: Vec<RowEntry>,
    order: IterationOrder,
) -> Result<Vec<RowEntry>, AllocError>
    requires { IsInOrder IterationOrder.Ascending rows.items }
    ensures keys { IfOk result (λ all. (k : List ℕ) → of_key k all.items ≡ of_key k rows.items) }
    ensures in_order { IfOk result (λ all. IsInOrder order all.items) }
{
    match order {
        IterationOrder::Ascending => Ok(rows),
        IterationOrder::Descending => {
            fall(&mut rows)?;
            Ok(rows)
        }
    }
}

/// Sorts rows by key downwards. Those of a key stay in their order.
fn fall(rows: &mut Vec<RowEntry>) -> Result<(), AllocError>
    ensures keys { OnOk result ((k : List ℕ) → of_key k rows.new.items ≡ of_key k rows.old.items) }
    ensures in_order { OnOk result (IsInOrder IterationOrder.Descending rows.new.items) }
{
    rows.sort_by(
        |a, b| -> Ordering
            ensures { result ≡ key_cmp b.now.key a.now.key }
        { b.key.cmp(&a.key) },
    )?;
    Ok(())
}

/// Drops the prefixes of the other set.
fn drop_prefixes(prefixes: &mut BTreeSet<Bytes>, others: &BTreeSet<Bytes>)
    ensures prefixes { prefixes.new.keys ≡ filter (λ p. not (among p others.now.keys)) prefixes.old.keys }
    ensures rising { set.IsOrdered key_cmp prefixes.new }
{
    prefixes.retain(
        |prefix| -> bool
            ensures { result ≡ not (set.contains key_cmp others.entry.now prefix.now) }
        { !others.contains(prefix) },
    );
}
