//! A worked example, as facts that the definitions compute.
#![tactic(auto, unfolding(outcome_spec::specs::Opened::digits, outcome_spec::specs::Opened::is_utf8, outcome_spec::specs::Opened::chars, outcome_spec::specs::Opened::encode))]

ghost use Rattle.bench_laws.specs.Examples.{OneRoundHasItsCounts, OneRoundIsUndisturbed};

/// An output of one round of writes is one that the laws speak of.
pub fn one_round_is_undisturbed()
    ensures { OneRoundIsUndisturbed }
{}

/// What the laws say is counted of it, told by its writes alone.
pub fn one_round_has_its_counts()
    ensures { OneRoundHasItsCounts }
{}
