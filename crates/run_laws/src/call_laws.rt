//! Laws of runs: each function does nothing, and its contract is one of them.
ghost use Rattle.run_laws.specs.Calls.Along.{CallsAreTheSessions, MachinesGoAlong};
ghost use Rattle.run_laws.specs.Calls.Asking.{EventsAreTheSessions, OthersAskNothing};
ghost use Rattle.run_laws.specs.Calls.Coming.{LinesComeAbout};
ghost use Rattle.run_laws.specs.Calls.Dues.{CallsAnswerDues};
ghost use Rattle.run_laws.specs.Calls.Laying.{LendsAreLaid};
ghost use Rattle.run_laws.specs.Calls.Lines.{LinesTellOutcomes};
ghost use Rattle.run_laws.specs.Calls.Meeting.{MetRoundsAreDone};
ghost use Rattle.run_laws.specs.Calls.Moments.{MomentsAreTheRound};
ghost use Rattle.run_laws.specs.Calls.Named.{RunsGoAlong};
ghost use Rattle.run_laws.specs.Calls.Open.{NothingIsOpen, OpensAsTheMachine};
ghost use Rattle.run_laws.specs.Calls.Upkeep.{LogsAreReplied, SharesAreReplied, UpkeepIsToldSo};

/// The calls of a run answer what is due, in order.
pub fn calls_answer_dues()
    ensures { CallsAnswerDues }
{}

/// Traces of one log, each with the lends of one session, are laid into one trace that has the
/// lends of all.
pub fn lends_are_laid()
    ensures { LendsAreLaid }
{}

/// What each brings to the end of a round is one's share of it.
pub fn a_round_that_met_is_done()
    ensures { MetRoundsAreDone }
{}

/// A round's calls, each at the last of its events, have the events in the order of the log, and
/// each session's lines in their order.
pub fn moments_are_the_round()
    ensures { MomentsAreTheRound }
{}

/// What a session has open by its own events, the machine has open, from the first event on.
pub fn sessions_have_open_what_the_machine_has()
    ensures first { NothingIsOpen }
    ensures next { OpensAsTheMachine }
{}

/// What a reply says by itself tells the outcome that it is to a store over the machine.
pub fn lines_tell_outcomes()
    ensures { LinesTellOutcomes }
{}

/// What a session is told of a command that asks the machine by one event, the machine answers at
/// the call's last event.
pub fn lines_come_about()
    ensures { LinesComeAbout }
{}

/// Scans, exports and upkeep ask the machine nothing, and each event of a call is of its own
/// session.
pub fn calls_make_their_own_events()
    ensures asking { OthersAskNothing }
    ensures standing { EventsAreTheSessions }
{}

/// The machine goes along every lawful log, and has open what the sessions have by their own
/// events.
pub fn machines_go_along()
    ensures { MachinesGoAlong }
{}

/// A session's calls make events of that session alone.
pub fn calls_are_the_sessions()
    ensures { CallsAreTheSessions }
{}

/// The machine goes along the log of every run.
pub fn runs_go_along()
    ensures { RunsGoAlong }
{}

/// The replies of a log, and of the calls done in it, are the replay's, and then the line of an
/// upkeep command is one of upkeep.
pub fn upkeep_is_told_so()
    ensures logs { LogsAreReplied }
    ensures shares { SharesAreReplied }
    ensures upkeep { UpkeepIsToldSo }
{}
