//! What a crash leaves of the log of a run: laws of it, and worked examples.
ghost use Rattle.run_laws.specs.Recovery.Examples.{FilesGiveTheFirst, FirstCommitsAreLeft};
ghost use Rattle.run_laws.specs.Recovery.Examples.{LogsLeaveRounds, SpoiledFilesDoNotSurvive};
ghost use Rattle.run_laws.specs.Recovery.Laws.{AppendsLeaveRounds, NumbersAreKept, RoundsGoOn};
ghost use Rattle.run_laws.specs.Recovery.Laws.{SurvivalGoesOn};

use disk_ports::Disk;

/// What a crash leaves is left behind more rounds too, and a crash in an append leaves the rounds
/// with its own or without.
pub fn appends_leave_rounds()
    ensures rounds { RoundsGoOn }
    ensures appends { AppendsLeaveRounds }
{}

/// A log that survived some rounds on a disk survives more.
pub fn survival_goes_on<D: Disk>()
    ensures { SurvivalGoesOn D.told D.moment D.left_since D.may_leave }
{}

/// An opening gives at least as many commits as each number that was printed.
pub fn logs_keep_the_numbers()
    ensures { NumbersAreKept }
{}

/// A log leaves the rounds whose commits it has; one that lacks them does not, nor one that lacks
/// what the run began with.
pub fn logs_leave_rounds()
    ensures rounds { LogsLeaveRounds }
    ensures first { FirstCommitsAreLeft }
    ensures begins { FilesGiveTheFirst }
{}

/// A log survives where it is appended to, and does not where its lines came first, or where it was
/// spoiled for a while.
pub fn spoiled_logs_do_not_survive()
    ensures { SpoiledFilesDoNotSurvive }
{}
