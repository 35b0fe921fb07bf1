//! Laws of the commits of logs: each function does nothing, and its contract is one of them.
ghost use Rattle.run_laws.specs.Commits.Laws.{HistoriesAreTheMachines, MachinesLead};
ghost use Rattle.run_laws.specs.Commits.Numbers.{NumbersAreWithin};
ghost use Rattle.run_laws.specs.Commits.Rounds.{HistoriesAreOfTheTables, RoundsGoOnByTheirCommits};
ghost use Rattle.run_laws.specs.Commits.Shares.{HistoriesGoOn, NumbersGoOn, SharesAreTheCommits};
ghost use Rattle.run_laws.specs.Commits.Shares.{SortedSharesAreTheCommits};

/// The machine goes with every lawful log, and its history behind it is that of the log's commits,
/// whose numbers go on behind those of the commits that the core began with.
pub fn histories_are_the_machines()
    ensures leads { MachinesLead }
    ensures history { HistoriesAreTheMachines }
{}

/// Behind more events the history has their commits more, whose numbers go on.
pub fn histories_go_on()
    ensures history { HistoriesGoOn }
    ensures numbers { NumbersGoOn }
{}

/// What all sessions committed in a part of a log are its commits, and sorted by number they are so
/// in its order.
pub fn shares_are_the_commits()
    ensures shares { SharesAreTheCommits }
    ensures sorted { SortedSharesAreTheCommits }
{}

/// Each commit number that a run tells in its first rounds is one of the history behind these, and
/// behind more of them.
pub fn numbers_are_within_the_history()
    ensures { NumbersAreWithin }
{}

/// The last round of a run goes on by what its sessions committed, sorted by number, and all commits
/// are of its tables.
pub fn rounds_go_on_by_their_commits()
    ensures tables { HistoriesAreOfTheTables }
    ensures rounds { RoundsGoOnByTheirCommits }
{}
