//! What all calls on one core are given alike, beside what is outside; and the laws of the definitions, each of which is
//! proved of all values by a call that does nothing.
ghost use Rattle.slate_db.specs.ChangedReads.{ChangedBytesSlipNowhere};
ghost use Rattle.slate_db.specs.FlushLaws.{FlushesAreWhole, RunsAreOfSegments, TablesAreOfOneSegment};
ghost use Rattle.slate_db.specs.LeftLaws.{CallsBesideKeepWhatIsLeft, StepsEndNothing, WhatIsLeftIsOpen};
ghost use Rattle.slate_db.specs.ScanLaws.{ListsHaveAllRows, ScansOfCoreShowWhatIsSeen, ScansShowWhatIsSeen};
ghost use Rattle.slate_db.specs.SegmentLaws.{SegmentsStandApart};
ghost use Rattle.slate_db.specs.SerialLaws.{CallsKeepCoresVouched, CommitsKeepItVouched, CommitsStandAtTheirPlaces, NewCoreIsVouched, OtherEventsKeepItVouched, WritesKeepCoresVouched};

use slate_filter::FilterPolicy;
use slate_types::Options;

/// The options, what gives keys their segments, and the policies of filters. All calls on one core are given laws of one
/// meaning.
#[derive(Drop)]
pub struct Laws<X> {
    /// The options, which must be valid.
    pub options: Options,
    /// What gives each key the prefix of its segment, where there are segments.
    pub segments: Option<X>,
    /// The policies of the filters that tables get, and by which gets and scans pass tables by. A flush needs their names distinct,
    /// fewer than 65536 of them, and each of fewer bytes than that.
    pub policies: Vec<Box<dyn FilterPolicy>>,
}

/// Of scans. Where the lists that are merged have, of each key in the range, the rows of all layers, and these fold as those of
/// the commits, what is left without tombstones is what a reader sees. So it is of the layers of each core, at a sequence from
/// its floor on; and a list for each memtable and for each run has these rows.
pub fn scans()
    ensures seen { ScansShowWhatIsSeen }
    ensures of_core { ScansOfCoreShowWhatIsSeen }
    ensures have_rows { ListsHaveAllRows }
{}

/// Of stores that change bytes. Where each read of a call was answered by what the objects have, or by that with one byte changed, no
/// section of a table slipped through its checksum: so what the call answers by `Ok` rests on what the objects have, and each other
/// answer is a refusal with its name.
pub fn changed_bytes()
    ensures { ChangedBytesSlipNowhere }
{}

/// Of flushes. Where no prefixes of its rows nest, the tables of a flush stand in one run for each
/// segment that the rows touch, in the order of the prefixes. Where each key has a prefix, all rows
/// of a table have the same. Where the object of a flush's first table came to stand, all its
/// tables do, with their bytes.
pub fn flushes()
    ensures runs { RunsAreOfSegments }
    ensures tables { TablesAreOfOneSegment }
    ensures whole { FlushesAreWhole }
{}

/// Of transactions. A core is vouched for where each commit in its journal was answered as a reader at its begin is, and so was what
/// each open transaction was answered so far. It is at first, and it stays so at each call, by what the call's clauses say of its
/// events and of what stays vouched for, where its reads were answered over a store that holds what was put. Then each serializable
/// commit stands at its own place: all that it read it would read again just before it, where whoever wrote since its begin what it
/// read tracks that key.
pub fn transactions()
    ensures new_core { NewCoreIsVouched }
    ensures commits { CommitsKeepItVouched }
    ensures other_events { OtherEventsKeepItVouched }
    ensures calls { CallsKeepCoresVouched }
    ensures writes { WritesKeepCoresVouched }
    ensures at_their_places { CommitsStandAtTheirPlaces }
{}

/// Of open scans. What a scan has left stays so at each call that isn't on it and doesn't end its transaction, by what the call's clauses
/// say; what its own calls leave, `Core::next` and `Core::seek` say. So a caller may go on with several scans by turns.
pub fn open_scans()
    ensures beside { CallsBesideKeepWhatIsLeft }
    ensures steps { StepsEndNothing }
    ensures is_open { WhatIsLeftIsOpen }
{}

/// Of segments. In a core that is segmented, recorded prefixes never nest, and each key has at most one.
pub fn segments()
    ensures stand_apart { SegmentsStandApart }
{}
