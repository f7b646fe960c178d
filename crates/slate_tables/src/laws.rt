//! The laws of an export, proved of all values. No call does anything.
ghost use Rattle.slate_tables.specs.Exported.{ExportIsStored};
ghost use Rattle.slate_tables.specs.LoadText.{ScriptSpells};
ghost use Rattle.slate_tables.specs.Loading.{LoadsRows};
ghost use Rattle.slate_tables.specs.Moved.{ScriptLoadsState};
ghost use Rattle.slate_tables.specs.Opened.{TablesAreHeld, TablesAreInAWorld};

/// Says what tables export: of each key in a range the row that their rows fold to, and no other
/// row, keys in the order.
pub fn export_is_stored()
    ensures stored { ExportIsStored }
{}

/// Says what the lines of a script do in a new store: each loads its row.
pub fn lines_load_rows()
    ensures loads { LoadsRows }
{}

/// Says what the bytes of a script mean: just these lines.
pub fn script_spells_lines()
    ensures spells { ScriptSpells }
{}

/// Says what a script does that is exported of tables: in a new store each line has its reply, and
/// the state after it is the one that the tables fold to, but for sequences.
pub fn script_loads_state()
    ensures loads { ScriptLoadsState }
{}

/// Says what tables are that were opened: those that the objects hold are held by their handles,
/// and are read in a world of these objects.
pub fn tables_are_held()
    ensures held { TablesAreHeld }
    ensures world { TablesAreInAWorld }
{}
