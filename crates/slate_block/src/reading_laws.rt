//! What readers of numbers and rows find, proved.
ghost use Rattle.slate_block.specs.ReadingLaws.{
  BlocksAreTakenApart,
  BlocksComeApart,
  BytesComeApartOnce,
  KeysOfV2AreFound,
  RowsOfV1AreFound,
  RowsOfV2AreFound,
  SeeksKeepGoodRows,
  VarintsAreFound,
  WalkedRowsAreBlocks,
};

/// The number whose spelling begins bytes is found, and none where no spelling begins them.
pub fn varints_are_found()
    ensures { VarintsAreFound }
{}

/// No row of a version is refused, and nothing else is read; the same of what stands before the value of a row of version 2.
pub fn rows_are_found()
    ensures v1 { RowsOfV1AreFound }
    ensures v2 { RowsOfV2AreFound }
    ensures keys { KeysOfV2AreFound }
{}

/// No rows' part with its offsets is refused, and nothing else is taken apart (`found`). A built block's bytes come apart into
/// its rows' part and its offsets, and what comes apart into these is the block (`taken_apart`). Bytes come apart in one way,
/// so that a decoded block is the one that was encoded (`once`).
pub fn blocks_come_apart()
    ensures found { BlocksComeApart }
    ensures taken_apart { BlocksAreTakenApart }
    ensures once { BytesComeApartOnce }
{}

/// A walk over a block of a version is refused nowhere exactly where it is one, and reads its rows.
pub fn blocks_are_walked()
    ensures { WalkedRowsAreBlocks }
{}

/// A seek over a block loses no row that is read and doesn't come before the key, where those that are read come in the
/// order, whatever else is damaged.
pub fn seeks_keep_good_rows()
    ensures { SeeksKeepGoodRows }
{}
