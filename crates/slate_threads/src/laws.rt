//! The laws of the definitions. Each is proved of all values, and no call does anything.
ghost use Rattle.slate_threads.specs.Laws.{AllAreAlone, AllAreVouched, CommitStaysVouched};
ghost use Rattle.slate_threads.specs.Laws.{EachIsCounted, FlushKeepsTables, FlushStaysVouched};
ghost use Rattle.slate_threads.specs.Laws.{IdleKeepsTables, JoinStaysVouched, JoinStaysWorker};
ghost use Rattle.slate_threads.specs.Laws.{JoinedAreVouched, LongerIsVouched, LongerStaysVouched};
ghost use Rattle.slate_threads.specs.Laws.{LongerStaysWorker, NewIsVouched, NewIsWorker};
ghost use Rattle.slate_threads.specs.Laws.{NewKeepsTables, NothingIsRead, NothingIsStored};
ghost use Rattle.slate_threads.specs.Laws.{NothingIsVouched, NothingIsWorked, OneEventMore};
ghost use Rattle.slate_threads.specs.Laws.{OneInstallMore, OneMore, OneWriteMore, OwnStandAlone};
ghost use Rattle.slate_threads.specs.Laws.{PassStandsAlone, ReadGoesOn, ReadIsOne, SeeingIsRead};
ghost use Rattle.slate_threads.specs.Laws.{TablesAreStored, WholeIsVouched, WholeStandsAlone};
ghost use Rattle.slate_threads.specs.Laws.{WorkGoesOn, WorkIsOne, WorkStaysWorker};
ghost use Rattle.slate_threads.specs.Laws.{WorkersAreVouched, WriteStaysVouched};

/// Of own commits. If what they were answered is vouched, each serializable one would read the same
/// just before it, whoever made the others, unless another since its begin wrote what it read and
/// doesn't track it. If all commits of the journal are one's own, so it is of all, and there are as
/// many as one has places.
pub fn own_commits()
    ensures vouched { AllAreVouched }
    ensures alone { AllAreAlone }
    ensures own_alone { OwnStandAlone }
    ensures stored { NothingIsStored }
    ensures counted { EachIsCounted }
{}

/// Of own places. What is vouched there stays so: in a longer journal, beside an event more, one's
/// own or another's, and when the places of two become one's.
pub fn own_places()
    ensures nothing { NothingIsVouched }
    ensures longer { LongerIsVouched }
    ensures one_more { OneMore }
    ensures event_more { OneEventMore }
    ensures write_more { OneWriteMore }
    ensures install_more { OneInstallMore }
    ensures joined { JoinedAreVouched }
{}

/// Of passes. What a pass's own commits were answered stays vouched at each of its calls: as it
/// sees more, at a commit whose answers are vouched, at a write, at a flush, and at a join.
pub fn passes()
    ensures new { NewIsVouched }
    ensures longer { LongerStaysVouched }
    ensures commit { CommitStaysVouched }
    ensures write { WriteStaysVouched }
    ensures flush { FlushStaysVouched }
    ensures join { JoinStaysVouched }
    ensures alone { PassStandsAlone }
    ensures whole { WholeIsVouched }
    ensures whole_alone { WholeStandsAlone }
{}

/// Of workers: threads that commit by attempts and never flush. A worker needn't know whether
/// others flush: what it promises waits for a journal that names no table. If all passes are
/// workers', the journal names none, and so all is vouched.
pub fn workers()
    ensures new { NewIsWorker }
    ensures longer { LongerStaysWorker }
    ensures work { WorkStaysWorker }
    ensures join { JoinStaysWorker }
    ensures whole { WorkersAreVouched }
    ensures idle { NothingIsWorked }
    ensures one { WorkIsOne }
    ensures on { WorkGoesOn }
{}

/// Of readers: threads that commit by attempts while one thread flushes into a store that all read.
/// What a reader promises waits for its store: that each of its reads was answered by objects which
/// hold the tables that the journal names, or that none slipped.
pub fn readers()
    ensures idle { NothingIsRead }
    ensures seeing { SeeingIsRead }
    ensures one { ReadIsOne }
    ensures on { ReadGoesOn }
{}

/// Of the one thread that flushes. If all installs are its own, its store, if that tells its
/// objects, holds all tables that the journal names.
pub fn flushers()
    ensures new { NewKeepsTables }
    ensures idle { IdleKeepsTables }
    ensures flush { FlushKeepsTables }
    ensures stored { TablesAreStored }
{}
