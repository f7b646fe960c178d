// The laws of lines, of objects and of their files. Each is proved of all bytes, and no call does anything.
ghost use Rattle.slate_store.specs.Laws.{EndMakesWhole, LinesHaveNoEnd, NoPlaceIsBeside, OthersStay, PartialLineIsNotWhole, PlacesDiffer, PutIsThere, TakenLineIsFirst, WholeLinesJoin, WholePartIsWhole, WholePartsJoin};

/// Of lines. What a call takes as a line is the first of the lines that are left; behind whole lines the lines go on; and no line has
/// an end in it.
pub fn lines()
    ensures taken_line_is_first { TakenLineIsFirst }
    ensures whole_lines_join { WholeLinesJoin }
    ensures lines_have_no_end { LinesHaveNoEnd }
{}

/// Of whole parts. They are whole, and go on behind whole lines; a partial line adds nothing; and an end makes all before it whole.
pub fn whole_parts()
    ensures whole_part_is_whole { WholePartIsWhole }
    ensures whole_parts_join { WholePartsJoin }
    ensures partial_line_is_not_whole { PartialLineIsNotWhole }
    ensures end_makes_whole { EndMakesWhole }
{}

/// Of objects. What was put stands at its path, and a put changes no other object.
pub fn objects()
    ensures put_is_there { PutIsThere }
    ensures others_stay { OthersStay }
{}

/// Of the files of a folder's objects. Two objects have two files, and none of them is the file as which an object is written.
pub fn places()
    ensures places_differ { PlacesDiffer }
    ensures no_place_is_beside { NoPlaceIsBeside }
{}
