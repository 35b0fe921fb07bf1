//! Worked examples of generated workloads and of what is counted of them: each is a fact that the
//! definitions compute.
#![tactic(auto, unfolding(outcome_spec::specs::Opened::digits, outcome_spec::specs::Opened::is_utf8, outcome_spec::specs::Opened::chars, outcome_spec::specs::Opened::encode))]

ghost use Rattle.bench_spec.specs.Examples.{FirstDraws, NumbersOfDraws, OneRoundIsGenerated};
ghost use Rattle.bench_spec.specs.Examples.{RoundsAreGenerated, UpkeepIsGenerated};
ghost use Rattle.bench_spec.specs.Examples.{RepliesAreCounted, RefusalsAreFound, CountsAreTold};

/// The first draws of the seed 0.
pub fn a_seed_has_its_draws()
    ensures { FirstDraws }
{}

/// Numbers go from -1,000 to 1,000.
pub fn numbers_go_from_the_least_to_the_greatest()
    ensures { NumbersOfDraws }
{}

/// The whole text of a workload with one round of writes.
pub fn one_round_is_generated()
    ensures { OneRoundIsGenerated }
{}

/// Each sixteenth round has upkeep behind it, and there is a last one.
pub fn each_sixteenth_round_has_upkeep()
    ensures { RoundsAreGenerated }
{}

/// Upkeep freezes the blocks that are filled, and the next one.
pub fn upkeep_freezes_what_is_filled()
    ensures { UpkeepIsGenerated }
{}

/// What is counted of an output.
pub fn replies_are_counted()
    ensures { RepliesAreCounted }
{}

/// One refusal of memory is found, whichever command it answers.
pub fn a_refusal_is_found()
    ensures { RefusalsAreFound }
{}

/// Four lines tell what is counted.
pub fn four_lines_tell_the_counts()
    ensures { CountsAreTold }
{}
