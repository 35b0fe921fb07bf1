//! Worked examples: each is a fact that the definitions compute.
ghost use Rattle.log_text.specs.Examples.{BrokenLogsAreTold, CommitsAreTold, EmptyLogsAreTold};

/// Rows of every kind of cell, and places where none was left, of two tables.
pub fn commits_are_told()
    ensures { CommitsAreTold }
{}

/// Behind the commits the place is told where the bytes are no log.
pub fn broken_logs_are_told()
    ensures { BrokenLogsAreTold }
{}

/// A log without commits has no line.
pub fn empty_logs_are_told()
    ensures { EmptyLogsAreTold }
{}
