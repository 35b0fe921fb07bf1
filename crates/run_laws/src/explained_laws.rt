//! Laws of runs as outputs: each function does nothing, and its contract is one of them.
ghost use Rattle.run_laws.specs.Explained.Reads.{ReadsStand};
ghost use Rattle.run_laws.specs.Explained.Timelines.{RunsAreExplained, RunsGiveTimelines};

/// What a session read since its last other event stays what its reads give.
pub fn reads_stand()
    ensures { ReadsStand }
{}

/// The moments of a run are a timeline of its printed replies.
pub fn runs_give_timelines()
    ensures { RunsGiveTimelines }
{}

/// Where the counts of prunings have 64 bits, the text of a run is an explained output.
pub fn runs_are_explained()
    ensures { RunsAreExplained }
{}
