//! What a reader of a key finds in a table, proved.
ghost use Rattle.slate_table.specs.Finding.{BlocksHoldTheKey, KeysOutsideHaveNoRows, TablesAreNotRefused};

/// A table has no row of a key that isn't between its first and its last key, and the blocks that an index gives for a key hold
/// all rows of the key. A store that holds a table isn't refused where its index and its blocks are read.
pub fn keys_are_found()
    ensures outside { KeysOutsideHaveNoRows }
    ensures blocks { BlocksHoldTheKey }
    ensures not_refused { TablesAreNotRefused }
{}
