// What bytes are refused for that spell nothing. The check computes it.
ghost use Rattle.slate_lower_tests.specs.Refusals.{BlocksAreRefused, EndsAreRefused, IndexesAreRefused, InfosAreRefused, KeysEndTheirPart, PartsAreRefused, RowsOfV1AreRefused, RowsOfV2AreRefused, VarintsAreRefused};

/// Of rows and blocks.
pub fn of_blocks()
    ensures varints { VarintsAreRefused }
    ensures keys { KeysEndTheirPart }
    ensures rows_of_v1 { RowsOfV1AreRefused }
    ensures rows_of_v2 { RowsOfV2AreRefused }
    ensures blocks { BlocksAreRefused }
{}

/// Of the table of one row.
pub fn of_tables()
    ensures ends { EndsAreRefused }
    ensures infos { InfosAreRefused }
    ensures parts { PartsAreRefused }
    ensures indexes { IndexesAreRefused }
{}
