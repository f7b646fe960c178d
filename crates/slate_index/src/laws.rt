//! The laws of the definitions. Each is proved of all values, and no call does anything.
ghost use Rattle.slate_index.specs.Laws.{EntriesAreThoseOfRecords, EntriesTell, EntryIsSpelled, PrefixesTell, RecordsHaveNames};

/// An entry's key tells the index's number, the field and the record's id, and one that begins with a field's prefix is of that field.
/// One is spelled out.
pub fn entries()
    ensures tell { EntriesTell }
    ensures prefixes { PrefixesTell }
    ensures spelled { EntryIsSpelled }
{}

/// Of audited journals. Where their transcripts are vouched, the keys that begin with x are just the entries of the records, at each
/// sequence, and each record's id is a name.
pub fn audited()
    ensures entries { EntriesAreThoseOfRecords }
    ensures names { RecordsHaveNames }
{}
