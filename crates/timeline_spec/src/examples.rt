//! Worked examples: facts that the definitions compute.
#![tactic(auto, unfolding(outcome_spec::specs::Opened::digits, outcome_spec::specs::Opened::is_utf8, outcome_spec::specs::Opened::chars, outcome_spec::specs::Opened::encode))]

ghost use Rattle.timeline_spec.specs.Examples.{OneWasRefused, SecondCameFirst, BlocksComeAbout};
ghost use Rattle.timeline_spec.specs.Examples.{OthersDoNot, OthersAreNotExported};
ghost use Rattle.timeline_spec.specs.Examples.{FullComesAbout, OthersAreNoTimeline, StaleComesAbout};

/// Which of a worker's gatherings was refused memory is not told by its line, and not by what is
/// read from it.
pub fn a_refused_gathering_does_not_tell_its_block()
    ensures { OneWasRefused }
{}

/// Of two sessions in one round the second's replies may come about first, though its lines are
/// printed last.
pub fn a_timeline_is_not_the_order_of_the_lines()
    ensures { SecondCameFirst }
{}

/// Replies to one session do not come about in another order than theirs.
pub fn others_are_no_timeline()
    ensures { OthersAreNoTimeline }
{}

/// A table is filled, and its block sealed, gathered, exported and compacted.
pub fn blocks_come_about()
    ensures { BlocksComeAbout }
{}

/// A commit is refused where a key that its transaction got was committed since.
pub fn a_stale_commit_comes_about()
    ensures { StaleComesAbout }
{}

/// What the counts of a block's replies rule out.
pub fn others_do_not()
    ensures { OthersDoNot }
{}

/// What an export is not told.
pub fn others_are_not_exported()
    ensures { OthersAreNotExported }
{}

/// A table is full with the rows that its store begins with.
pub fn a_full_table_comes_about()
    ensures { FullComesAbout }
{}
