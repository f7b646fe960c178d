//! What the filters of a table say to a reader of a key, proved.
ghost use Rattle.slate_table.specs.Filtered.{DeniedTablesLackTheKey};

/// By lawful policies of distinct names, no table that has filters of them is denied where it has a row of the key, and none of
/// their filters is refused.
pub fn denied_tables_lack_the_key()
    ensures { DeniedTablesLackTheKey }
{}
