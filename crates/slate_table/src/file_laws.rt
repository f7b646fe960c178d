//! What files read of a table that the store holds, proved.
ghost use Rattle.slate_table.specs.FileLaws.{BlocksAreFound, BlocksAreTheTables, BlocksReadAreTheTables, FiltersAreFound, FiltersAreTheTables, IndexIsFound, IndexIsTheTables, InfosAreTheTables, PutTablesAreHeld, StatsAreFound, StatsAreTheTables, TablesAreMeasured, TablesAreOpened, TablesOpen};

/// Once a built table was put the store holds it, and each part that is read of it is the table's. Nothing is refused where
/// each number of the object is a byte.
pub fn tables_are_read()
    ensures held { PutTablesAreHeld }
    ensures measured { TablesAreMeasured }
    ensures infos { InfosAreTheTables }
    ensures opened { TablesAreOpened }
    ensures opens { TablesOpen }
    ensures stats { StatsAreTheTables }
    ensures stats_found { StatsAreFound }
    ensures index { IndexIsTheTables }
    ensures index_found { IndexIsFound }
    ensures filters { FiltersAreTheTables }
    ensures filters_found { FiltersAreFound }
    ensures blocks { BlocksAreTheTables }
    ensures blocks_found { BlocksAreFound }
    ensures several { BlocksReadAreTheTables }
{}
