//! Fronts of a run: what came about before it stopped is explained as the run of the front of its
//! workload.
ghost use Rattle.timeline_laws.specs.Fronts.{FrontIsDueFirst, FrontIsExplained, FrontIsValid};
ghost use Rattle.timeline_laws.specs.Fronts.{FrontRuns, RoundsAreDueFirst, RoundsAreValid};

/// The first replies of a run came about as they are.
pub fn the_front_of_a_run_is_one()
    ensures { FrontRuns }
{}

/// The first rounds of a workload are one, and what is due in them is due first.
pub fn the_first_rounds_are_a_workload()
    ensures due { RoundsAreDueFirst }
    ensures valid { RoundsAreValid }
{}

/// So are the first rounds with the next round's first lines, session by session.
pub fn the_front_of_a_workload_is_one()
    ensures due { FrontIsDueFirst }
    ensures valid { FrontIsValid }
{}

/// The text of the first replies of a run is an explained output of the front of its workload.
pub fn the_front_of_a_run_is_explained()
    ensures { FrontIsExplained }
{}
