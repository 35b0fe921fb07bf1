//! Laws of generated workloads.
ghost use Rattle.bench_laws.specs.Laws.{CountsAreTheSame, ScanTellsTheRows, WritesAreAccepted};

/// Each insert and each update of an undisturbed run is accepted.
pub fn each_write_is_accepted()
    ensures { WritesAreAccepted }
{}

/// The scan of the last round tells the rows that the writes leave.
pub fn the_scan_tells_the_rows_that_are_left()
    ensures { ScanTellsTheRows }
{}

/// What is counted is the same at each run.
pub fn what_is_counted_is_the_same_at_each_run()
    ensures { CountsAreTheSame }
{}
