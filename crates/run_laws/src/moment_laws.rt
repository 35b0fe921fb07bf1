//! Laws of moments: each function does nothing, and its contract is one of them.
ghost use Rattle.run_laws.specs.Moments.Laws.{RunsHaveMoments};

/// The moments of a run have its events in the order of the log and the printed replies of each
/// session and worker in theirs, in an order in which they may have come about; and each call ends
/// behind its own events.
pub fn runs_have_moments()
    ensures { RunsHaveMoments }
{}
