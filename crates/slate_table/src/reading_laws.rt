//! What readers of the parts of a table find, proved.
ghost use Rattle.slate_table.specs.ReadingLaws.{FiltersAreRead, InfosAreRead, StatsAreRead};
ghost use Rattle.slate_table.specs.IndexLaws.{IndexesAreRead};
ghost use Rattle.slate_table.specs.ChangedBytes.{ChangedByteIsTold, SectionsTellChanges};

/// The statistics of all bytes that are statistics are read, and nothing else is; so are the entries of every index, and the
/// info of all bytes that are an info whose sections lie before its place.
pub fn parts_are_read()
    ensures stats { StatsAreRead }
    ensures infos { InfosAreRead }
    ensures indexes { IndexesAreRead }
    ensures filters { FiltersAreRead }
{}

/// Where one byte of a section was changed, or of its checksum, the checksum doesn't fit: of each section of a table, in each version.
pub fn sections_tell_changes()
    ensures byte { ChangedByteIsTold }
    ensures sections { SectionsTellChanges }
{}
