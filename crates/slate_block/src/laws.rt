//! What the spellings of rows and blocks are for their readers, proved.
ghost use Rattle.slate_block.specs.Laws.{
  BlocksAreReadOneWay,
  FlagsAreKnown,
  LongestFrontsAreBlocks,
  LongestFrontsAreSpelledOneWay,
  RowsOfV1AreReadOneWay,
  RowsOfV1DelimitThemselves,
  RowsOfV2AreReadOneWay,
  RowsOfV2DelimitThemselves,
  VarintsAreSpelledOneWay,
  VarintsDelimitThemselves,
};

/// The flags of a row are flags.
pub fn flags_are_known()
    ensures { FlagsAreKnown }
{}

/// No varint begins another, so that a reader knows where each ends. Each number of 32 bits has one spelling, the shortest,
/// and it is the computed one.
pub fn varints_are_spelled_one_way()
    ensures delimited { VarintsDelimitThemselves }
    ensures one_way { VarintsAreSpelledOneWay }
{}

/// A row of either version is read back, whatever follows it, and a byte string is at most one row of a version.
pub fn rows_are_read_one_way()
    ensures delimited_v1 { RowsOfV1DelimitThemselves }
    ensures delimited_v2 { RowsOfV2DelimitThemselves }
    ensures one_way_v1 { RowsOfV1AreReadOneWay }
    ensures one_way_v2 { RowsOfV2AreReadOneWay }
{}

/// What is spelled with longest fronts is a block of the rows, as they are read, and is spelled of one list of rows. A byte
/// string is a block of at most one list of rows.
pub fn blocks_are_read_one_way()
    ensures longest { LongestFrontsAreBlocks }
    ensures one_written { LongestFrontsAreSpelledOneWay }
    ensures one_way { BlocksAreReadOneWay }
{}
