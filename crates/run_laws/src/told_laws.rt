//! Laws of lines: each function does nothing, and its contract is one of them.
ghost use Rattle.run_laws.specs.Told.Laws.{CallsGoOnQuietly, LastEventsAreTold, RefusalsArePlain};

/// An event that another of its call follows changes nothing that a line counts, and a call's line
/// is
/// that of its last event's reply, or one that says nothing of blocks, writes and transactions.
pub fn last_events_are_told()
    ensures before { CallsGoOnQuietly }
    ensures last { LastEventsAreTold }
    ensures none { RefusalsArePlain }
{}
