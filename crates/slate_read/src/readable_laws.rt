//! What a walk over a stored table rests on, proved.
ghost use Rattle.slate_read.specs.Readable.{TablesAreReadable};

/// A walk may rest on each table that was built and put: a world that has its bytes, under a transformer that undoes what it
/// does, reads its index and its blocks whole, and its rows stand in turn.
pub fn tables_are_readable()
    ensures readable { TablesAreReadable }
{}
