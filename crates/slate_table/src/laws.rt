//! What tables are for their readers, proved.
ghost use Rattle.slate_table.specs.Laws.{BuiltTablesHaveTheirRows, CuttingKeepsRows, ObjectsHoldOneListOfRows, TablesAreReadOneWay, TablesHaveOneListOfRows};

/// A byte string is a table for an id of at most one list of blocks and filters, and of at most one list of rows, and so the objects
/// of a store hold at most one. The blocks of a cutting are the rows, and a table that is built of rows is a table of them.
pub fn tables_have_their_rows()
    ensures one_way { TablesAreReadOneWay }
    ensures one_list { TablesHaveOneListOfRows }
    ensures objects { ObjectsHoldOneListOfRows }
    ensures cut { CuttingKeepsRows }
    ensures built { BuiltTablesHaveTheirRows }
{}
