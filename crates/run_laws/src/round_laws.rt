//! Laws of rounds: each function does nothing, and its contract is one of them.
ghost use Rattle.run_laws.specs.Rounds.Fronts.{FirstLinesAreSo, FirstLinesAsk};
ghost use Rattle.run_laws.specs.Rounds.Fronts.{FirstRoundsAreValid, FrontsAreValid};
ghost use Rattle.run_laws.specs.Rounds.Lines.{RoundsGrow, SharesGrow};
ghost use Rattle.run_laws.specs.Rounds.Rounds.{NothingRan, RoundsGoOn};
ghost use Rattle.run_laws.specs.Rounds.Texts.{CountsFit, NothingIsExplained, RoundsAreExplained};
ghost use Rattle.run_laws.specs.Rounds.Texts.{RoundsRan, TextsAreLines};
ghost use Rattle.run_laws.specs.Rounds.Working.{GoesOnFurther, NothingDone, WorkEnds, WorkGoesOn};

/// What one does in a round is put together call by call; and who worked and met the others brings
/// a share to the round's end, and stands behind it as behind the rounds before.
pub fn work_goes_on()
    ensures first { NothingDone }
    ensures next { WorkGoesOn }
    ensures ends { WorkEnds }
    ensures further { GoesOnFurther }
{}

/// A run of rounds begins with none, and a round in which all met extends it.
pub fn rounds_go_on()
    ensures first { NothingRan }
    ensures next { RoundsGoOn }
{}

/// The text of a run grows call by call, and round by round.
pub fn texts_grow()
    ensures shares { SharesGrow }
    ensures rounds { RoundsGrow }
{}

/// Of a round the first so many lines of each session are its first lines, and ask it just these.
pub fn rounds_have_fronts()
    ensures lines { FirstLinesAreSo }
    ensures commands { FirstLinesAsk }
{}

/// The first rounds of a workload are one, also with first lines of the next round behind them.
pub fn fronts_are_workloads()
    ensures rounds { FirstRoundsAreValid }
    ensures lines { FrontsAreValid }
{}

/// The rounds that ran are a run of a script of just these rounds, whose text is that of their
/// lines.
pub fn rounds_are_runs()
    ensures text { TextsAreLines }
    ensures ran { RoundsRan }
{}

/// The text of the rounds that ran is explained, where no count of a pruning is beyond 64 bits.
pub fn rounds_are_explained()
    ensures counts { CountsFit }
    ensures some { RoundsAreExplained }
    ensures none { NothingIsExplained }
{}
