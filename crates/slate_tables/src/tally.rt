//! What the rows of a table add up to.
ghost use Rattle.std.specs.Prelude.{◌≡◌, ◌<◌, ◌^◌, ◌++◌, ◌∷◌, [], List, IfOk, IfErr, MatchOption};
ghost use Rattle.std.specs.Prelude.{map, min, max};
ghost use Rattle.slate_types.specs.declared.types.RowEntry.{RowEntry};
ghost use Rattle.slate_table.specs.Decoded.{FitCounts};
ghost use Rattle.slate_table.specs.FileLaws.{row_counts, table_stats};
ghost use Rattle.slate_table.specs.StatsReading.{counts_of, stats_of};
ghost use Rattle.slate_table.specs.Table.{AreInOrder};
ghost use Rattle.slate_tables.specs.Good.{AreGood, FitsStats};
ghost use Rattle.slate_tables.specs.Tallies.{FitsSums, IsSpan, IsSpanOf, IsTally, plus};
ghost use Rattle.slate_tables.specs.Tallies.{stands_behind, sums_of, whole_sums};

use bytes::Bytes;
use slate_block::BlockStats;
use slate_table::SstStats;
use slate_types::{RowEntry, SlateDBError, ValueDeletable, compare_keys};
use std::alloc::Global;

/// How many rows of each kind there are, and how many bytes their keys and their values have.
#[derive(Clone, Copy)]
pub struct Sums {
    pub puts: u64,
    pub deletes: u64,
    pub merges: u64,
    pub key_bytes: u64,
    pub value_bytes: u64,
}

/// The first key of rows, their last key and its sequence, and their least and greatest sequence.
#[derive(Drop)]
pub struct Span {
    pub first: Bytes,
    pub last: Bytes,
    pub last_seq: u64,
    pub least: u64,
    pub greatest: u64,
}

/// What rows of blocks add up to, which stand in a table's order.
#[derive(Drop)]
pub struct Tally {
    pub stats: SstStats,
    pub span: Option<Span>,
}

impl Tally {
    /// Returns that of no blocks.
    pub fn new(alloc: Global) -> Tally
        ensures { IsTally [] result }
    {
        Tally {
            stats: SstStats {
                num_puts: 0,
                num_deletes: 0,
                num_merges: 0,
                raw_key_size: 0,
                raw_val_size: 0,
                block_stats: Vec::new(alloc),
            },
            span: None,
        }
    }

    /// Adds the rows of one more block: `None` exactly if they don't stand behind the others in a
    /// table's order, or a sum doesn't fit. The one error is `OutOfMemory`.
    pub fn with_block(self, rows: &[RowEntry]) -> Result<Option<Tally>, SlateDBError>
        ensures tally { (blocks : List (List RowEntry)) → IsTally blocks self →
            IfOk result (λ next. MatchOption next (AreGood (blocks ++ (rows.now ∷ [])) →
            ⊥) (IsTally (blocks ++ (rows.now ∷ [])))) }
        ensures cause { IfErr result (λ e. e ≡ SlateDBError.OutOfMemory) }
    {
        let Tally { stats, span } = self;
        match longer_span(span, rows) {
            Ok(next) => match next {
                Some(span) => with_stats(stats, span, rows),
                None => {
                    drop(stats);
                    Ok(None)
                }
            },
            Err(error) => {
                drop(stats);
                Err(error)
            }
        }
    }
}

/// The tally of rows that have the span.
fn with_stats(
    stats: SstStats,
    span: Option<Span>,
    rows: &[RowEntry],
) -> Result<Option<Tally>, SlateDBError>
    ensures stats { (blocks : List (List RowEntry)) → FitsStats (table_stats blocks) →
        stats_of stats ≡ table_stats blocks →
        IfOk result (λ next. MatchOption next
        (FitsStats (table_stats (blocks ++ (rows.now ∷ []))) → ⊥)
        (λ t. (t.span ≡ span) × (stats_of t.stats ≡ table_stats (blocks ++ (rows.now ∷ [])))
        × FitsStats (table_stats (blocks ++ (rows.now ∷ []))))) }
    ensures cause { IfErr result (λ e. e ≡ SlateDBError.OutOfMemory) }
{
    match added_stats(stats, rows) {
        Ok(next) => match next {
            Some(stats) => Ok(Some(Tally { stats, span })),
            None => {
                drop(span);
                Ok(None)
            }
        },
        Err(error) => {
            drop(span);
            Err(error)
        }
    }
}

/// The statistics with those of one more block, and `None` exactly if a number doesn't fit.
fn added_stats(stats: SstStats, rows: &[RowEntry]) -> Result<Option<SstStats>, SlateDBError>
    ensures stats { (blocks : List (List RowEntry)) → FitsStats (table_stats blocks) →
        stats_of stats ≡ table_stats blocks →
        IfOk result (λ next. MatchOption next
        (FitsStats (table_stats (blocks ++ (rows.now ∷ []))) → ⊥)
        (λ s. (stats_of s ≡ table_stats (blocks ++ (rows.now ∷ [])))
        × FitsStats (table_stats (blocks ++ (rows.now ∷ []))))) }
    ensures cause { IfErr result (λ e. e ≡ SlateDBError.OutOfMemory) }
{
    match new_sums(whole_sums(&stats), rows) {
        Some((whole, block)) => stats_with(stats, whole, block),
        None => {
            drop(stats);
            Ok(None)
        }
    }
}

/// The sums of all rows, and the counts of the new block's, where they fit.
fn new_sums(before: Sums, rows: &[RowEntry]) -> Option<(Sums, BlockStats)>
    ensures { MatchOption result (FitsSums (plus before (sums_of rows.now)) →
        FitCounts 16 (row_counts rows.now) → ⊥)
        (λ p. (p.0 ≡ plus before (sums_of rows.now)) × FitsSums p.0
        × (counts_of p.1 ≡ row_counts rows.now) × FitCounts 16 (row_counts rows.now)) }
{
    let sums = sums_of(rows)?;
    let whole = added(before, sums)?;
    let block = block_stats(sums)?;
    Some((whole, block))
}

/// Statistics of these sums, with one more block. The one error is `OutOfMemory`.
fn stats_with(
    stats: SstStats,
    whole: Sums,
    block: BlockStats,
) -> Result<Option<SstStats>, SlateDBError>
    ensures stats { IfOk result (λ next. MatchOption next ⊥
        (λ s. (whole_sums s ≡ whole)
        × (map counts_of s.block_stats.items ≡ map counts_of
        stats.block_stats.items ++ (counts_of block ∷ [])))) }
    ensures cause { IfErr result (λ e. e ≡ SlateDBError.OutOfMemory) }
{
    let SstStats { block_stats, .. } = stats;
    let mut block_stats = block_stats;
    match block_stats.push(block) {
        Ok(()) => Ok(Some(SstStats {
            num_puts: whole.puts,
            num_deletes: whole.deletes,
            num_merges: whole.merges,
            raw_key_size: whole.key_bytes,
            raw_val_size: whole.value_bytes,
            block_stats,
        })),
        Err(error) => {
            drop(block_stats);
            Err(SlateDBError::from(error))
        }
    }
}

/// The span of rows and of those behind them: `None` exactly if one doesn't stand behind the one
/// before. The one error is `OutOfMemory`.
fn longer_span(span: Option<Span>, rows: &[RowEntry]) -> Result<Option<Option<Span>>, SlateDBError>
    ensures span { (before : List RowEntry) → AreInOrder before → IsSpan before span →
        IfOk result (λ next. MatchOption next (AreInOrder (before ++ rows.now) →
        ⊥) (λ s. AreInOrder (before ++ rows.now) × IsSpan (before ++ rows.now) s)) }
    ensures cause { IfErr result (λ e. e ≡ SlateDBError.OutOfMemory) }
{
    let mut span = span;
    for row in rows {
        match next_span(span, row)? {
            Some(next) => span = Some(next),
            None => return Ok(None),
        }
    }
    Ok(Some(span))
}

/// The span with one more row, if that stands behind the last one.
fn next_span(span: Option<Span>, row: &RowEntry) -> Result<Option<Span>, SlateDBError>
    ensures span { (before : List RowEntry) → AreInOrder before → IsSpan before span →
        IfOk result (λ next. MatchOption next (AreInOrder (before ++ (row.now ∷ [])) →
        ⊥) (λ s. AreInOrder (before ++ (row.now ∷ [])) × IsSpanOf (before ++ (row.now ∷ [])) s)) }
    ensures cause { IfErr result (λ e. e ≡ SlateDBError.OutOfMemory) }
{
    match span {
        None => first_span(row),
        Some(span) => {
            if stands_behind(&span, row) {
                return lengthened(span, row);
            }
            drop(span);
            Ok(None)
        }
    }
}

/// The span of one row.
fn first_span(row: &RowEntry) -> Result<Option<Span>, SlateDBError>
    ensures span { IfOk result (λ next. MatchOption next ⊥ (λ s. s ≡ record {
      first = row.now.key;
      last = row.now.key;
      last_seq = row.now.seq;
      least = row.now.seq;
      greatest = row.now.seq;
    })) }
    ensures cause { IfErr result (λ e. e ≡ SlateDBError.OutOfMemory) }
{
    let first = row.key.clone()?;
    match row.key.clone() {
        Ok(last) => Ok(Some(Span {
            first,
            last,
            last_seq: row.seq,
            least: row.seq,
            greatest: row.seq,
        })),
        Err(error) => {
            drop(first);
            Err(SlateDBError::from(error))
        }
    }
}

/// Whether a row stands behind the last one.
fn stands_behind(span: &Span, row: &RowEntry) -> bool
    ensures { result ≡ stands_behind span.now row.now }
{
    compare_keys(span.last.as_slice(), row.key.as_slice())
        .then(row.seq.cmp(&span.last_seq))
        .is_lt()
}

/// The span in which a row is the last one.
fn lengthened(span: Span, row: &RowEntry) -> Result<Option<Span>, SlateDBError>
    ensures span { IfOk result (λ next. MatchOption next ⊥ (λ s. s ≡ record {
      first = span.first;
      last = row.now.key;
      last_seq = row.now.seq;
      least = min span.least row.now.seq;
      greatest = max span.greatest row.now.seq;
    })) }
    ensures cause { IfErr result (λ e. e ≡ SlateDBError.OutOfMemory) }
{
    let Span {
        first,
        last,
        least,
        greatest,
        ..
    } = span;
    drop(last);
    match row.key.clone() {
        Ok(last) => Ok(Some(Span {
            first,
            last,
            last_seq: row.seq,
            least: least.min(row.seq),
            greatest: greatest.max(row.seq),
        })),
        Err(error) => {
            drop(first);
            Err(SlateDBError::from(error))
        }
    }
}

/// What rows add up to, and `None` exactly if the bytes of keys or of values don't fit.
fn sums_of(rows: &[RowEntry]) -> Option<Sums>
    ensures { MatchOption result (FitsSums (sums_of rows.now) → ⊥) (λ s. (s ≡ sums_of rows.now)
        × FitsSums s) }
{
    let mut sums = Sums {
        puts: 0,
        deletes: 0,
        merges: 0,
        key_bytes: 0,
        value_bytes: 0,
    };
    for row in rows {
        sums = added(sums, sums_of_row(row))?;
    }
    Some(sums)
}

fn sums_of_row(row: &RowEntry) -> Sums
    ensures { result ≡ sums_of (row.now ∷ []) }
{
    let (puts, deletes, merges) = match row.value {
        ValueDeletable::Value(_) => (1, 0, 0),
        ValueDeletable::Tombstone => (0, 1, 0),
        ValueDeletable::Merge(_) => (0, 0, 1),
    };
    Sums {
        puts,
        deletes,
        merges,
        key_bytes: row.key.len() as u64,
        value_bytes: row.value.len() as u64,
    }
}

/// Both together, and `None` exactly if a sum doesn't fit.
fn added(a: Sums, b: Sums) -> Option<Sums>
    ensures { MatchOption result (FitsSums (plus a b) → ⊥) (λ s. (s ≡ plus a b) × FitsSums s) }
{
    Some(Sums {
        puts: a.puts.checked_add(b.puts)?,
        deletes: a.deletes.checked_add(b.deletes)?,
        merges: a.merges.checked_add(b.merges)?,
        key_bytes: a.key_bytes.checked_add(b.key_bytes)?,
        value_bytes: a.value_bytes.checked_add(b.value_bytes)?,
    })
}

fn whole_sums(stats: &SstStats) -> Sums
    ensures { result ≡ whole_sums stats.now }
{
    Sums {
        puts: stats.num_puts,
        deletes: stats.num_deletes,
        merges: stats.num_merges,
        key_bytes: stats.raw_key_size,
        value_bytes: stats.raw_val_size,
    }
}

/// The counts of a block, and `None` exactly if one doesn't fit.
fn block_stats(sums: Sums) -> Option<BlockStats>
    ensures { MatchOption result (sums.puts < 2 ^ 16 → sums.deletes < 2 ^ 16 →
        sums.merges < 2 ^ 16 → ⊥)
        (λ b. (b.num_puts ≡ sums.puts) × (b.num_deletes ≡ sums.deletes)
        × (b.num_merges ≡ sums.merges)) }
{
    Some(BlockStats {
        num_puts: u16::try_from(sums.puts).ok()?,
        num_deletes: u16::try_from(sums.deletes).ok()?,
        num_merges: u16::try_from(sums.merges).ok()?,
    })
}
