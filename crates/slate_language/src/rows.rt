// Worked rows: scripts whose replies the check computes.
ghost use Rattle.slate_language.specs.WorkedRows.{
  OlderReader,
  BackWithASeek,
  PrefixWithoutEnd,
  LastSequence,
  SegmentsNeverNest,
  LongKeys,
  ShortScripts,
  SnapshotReads,
  TimesToLive,
  FirstDay,
  OneMadeRound,
  ConflictCloses,
  EmptyScanIsARead,
  UnmarkedWrite,
  MarkedKey,
  OneTtlAKey,
  NoOperator,
  BetweenOperands,
  OwnAboveAll,
  GreatestOperand,
  OrdinaryDay,
  DeletedKey,
  NewerReader,
  ClosedName,
  MomentsAndHex,
  RefusedKeys,
  RefusedRange,
  SnapshotName,
  OwnOperations,
  MergedExpiries,
  PrefixOfARange,
  PartlyReadScans,
  NoLines,
};

/// Each row is proved by computing its replies.
pub fn worked_rows()
    // An empty script, a last line without its end, and a line that is none.
    ensures short_scripts { ShortScripts }
    // A reader that began before a write does not see it.
    ensures older_reader { OlderReader }
    // A name is open once, a read that was written since is a conflict, and a refused commit closes.
    ensures conflict_closes { ConflictCloses }
    // A scan of an empty range is a read of it.
    ensures empty_scan_is_a_read { EmptyScanIsARead }
    // An unmarked write is no conflict.
    ensures unmarked_write { UnmarkedWrite }
    // A marked key is a read at any level.
    ensures marked_key { MarkedKey }
    // Operands of one key have one expiry.
    ensures one_ttl_a_key { OneTtlAKey }
    // Without an operator there are no operands.
    ensures no_operator { NoOperator }
    // A reader between operands sees those before it.
    ensures between_operands { BetweenOperands }
    // Own operations are above all, without stamps.
    ensures own_above_all { OwnAboveAll }
    // The greatest of operands that were stored one by one.
    ensures greatest_operand { GreatestOperand }
    // A scan back, with a seek between.
    ensures back_with_a_seek { BackWithASeek }
    // A prefix without a successor, and a range that is refused before it is tracked.
    ensures prefix_without_end { PrefixWithoutEnd }
    // The last sequence.
    ensures last_sequence { LastSequence }
    // Segments never nest.
    ensures segments_never_nest { SegmentsNeverNest }
    // A snapshot is open to reads.
    ensures snapshot_reads { SnapshotReads }
    // Times to live: the default, none, and one past the greatest moment.
    ensures times_to_live { TimesToLive }
    // A first day.
    ensures first_day { FirstDay }
    // One round of a script that is made, and its one line.
    ensures one_made_round { OneMadeRound }
    // The longest key, one byte more, none, and a get of a longer one.
    ensures long_keys { LongKeys }
    // An ordinary day.
    ensures ordinary_day { OrdinaryDay }
    // A deleted key is none, in memory and in a table.
    ensures deleted_key { DeletedKey }
    // A reader that begins behind a write sees it.
    ensures newer_reader { NewerReader }
    // A name is closed once.
    ensures closed_name { ClosedName }
    // Moments, deletes, times to live, bytes in hex and storing.
    ensures moments_and_hex { MomentsAndHex }
    // The refusals of keys.
    ensures refused_keys { RefusedKeys }
    // A range that is refused is no read.
    ensures refused_range { RefusedRange }
    // A snapshot's name is open to reads and its rollback alone.
    ensures snapshot_name { SnapshotName }
    // Own operations before and after their commit.
    ensures own_operations { OwnOperations }
    // Operands of one expiry, and of several behind a put.
    ensures merged_expiries { MergedExpiries }
    // The keys behind a prefix, by a sub-range of what stands behind it.
    ensures prefix_of_a_range { PrefixOfARange }
    // A scan tracks no more than what it has read.
    ensures partly_read_scans { PartlyReadScans }
    // A line that is none ends a script.
    ensures no_lines { NoLines }
{}
