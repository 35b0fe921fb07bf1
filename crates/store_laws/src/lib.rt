//! What a store's sessions know of the log of its hall: it is the log of a run, and of a session's
//! own events it has those that the session made. The functions do nothing; their contracts are
//! laws.
#![tactic(auto)]

pub mod own_laws;
pub mod scan_laws;

ghost use Rattle.store_laws.specs.Laws.{EventsGoOn, JoinsGoOn, LooksGoOn, LogsAreRuns};
ghost use Rattle.store_laws.specs.Laws.{SingleEventsAreCalls, StampsAreFew};
ghost use Rattle.store_laws.specs.Machines.{CommitsGoOn, LogsFollowTheMachine};
ghost use Rattle.store_laws.specs.Stretches.{EventsAreAStretch, NothingIsAStretch};
ghost use Rattle.store_laws.specs.Stretches.{StretchesJoin, StretchesLeaveOpen};
ghost use Rattle.store_laws.specs.Room.{FullIsFull, FullIsSpent, OpensWithRows, RoomIsCounted};

/// The log of a store's hall is a lawful log of a run, and leaves the same parts.
pub fn a_halls_log_is_a_runs_log()
    ensures { LogsAreRuns }
{}

/// A session that sees more of the log has the same of its own events, and the same open.
pub fn looking_on_changes_nothing_of_ones_own()
    ensures looks { LooksGoOn }
    ensures joins { JoinsGoOn }
{}

/// A session that made an event has it among its own, and has open what the event told.
pub fn an_event_is_ones_own()
    ensures { EventsGoOn }
{}

/// What a session made and lent from one log that it had seen to a later one is a stretch: events
/// that told no image are one, so is nothing, and stretches one behind the other are one. Behind it
/// the session has open what its events tell.
pub fn stretches_go_on()
    ensures events { EventsAreAStretch }
    ensures nothing { NothingIsAStretch }
    ensures join { StretchesJoin }
    ensures open { StretchesLeaveOpen }
{}

/// The newest stamp is at most the number of events.
pub fn stamps_are_few()
    ensures { StampsAreFew }
{}

/// A command that is one event, and not the read of a block, is carried out by it.
pub fn a_single_event_is_a_call()
    ensures { SingleEventsAreCalls }
{}

/// The slots of a table that are in use are no more than its inserts that took one, which are no
/// more than those that were granted; without room for an insert they are all its slots, and the
/// insert is refused with a count of at least so many.
pub fn room_is_counted()
    ensures opens { OpensWithRows }
    ensures next { RoomIsCounted }
    ensures full { FullIsFull }
    ensures spent { FullIsSpent }
{}

/// What a lawful log leaves follows the snapshot-isolation machine behind it, whose commits never
/// become fewer.
pub fn the_machine_goes_with_the_log()
    ensures follows { LogsFollowTheMachine }
    ensures commits { CommitsGoOn }
{}
