//! The laws of the definitions. Each is proved of all values, and no call does anything.
ghost use Rattle.slate_queue.specs.FirstFree.{FirstIsTaken};
ghost use Rattle.slate_queue.specs.Laws.{AddedOnce, ClaimedOnce, ClaimsMeetNoAdd, ClaimsReadUpToTheirJob, EachShowsADeed, FinishedOnce, FinishesNameTheLastLease};

/// Of what the commits of an audited journal did, where its transcripts are vouched. Each adds, claims or finishes a job; each lease of a job
/// is claimed once, each id is added once and finished at most once, and a finish names the lease of the last claim before it.
pub fn history()
    ensures deeds { EachShowsADeed }
    ensures claimed { ClaimedOnce }
    ensures added { AddedOnce }
    ensures finished { FinishedOnce }
    ensures named { FinishesNameTheLastLease }
{}

/// Of what a claim reads. Where it was answered as a reader is, it reads no key behind that of the job that it takes, and an add of a
/// greater id reads and writes none that it writes, so that neither conflicts with the other.
pub fn claims()
    ensures reads { ClaimsReadUpToTheirJob }
    ensures adds { ClaimsMeetNoAdd }
{}

/// Of a scan of all jobs upwards, where a queue stands. The first row that a claim takes, behind those that it passes over, is the free
/// job with the least id, and where it passes over all rows no job is free.
pub fn first_free()
    ensures { FirstIsTaken }
{}
