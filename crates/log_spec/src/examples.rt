//! Worked examples of logs: each is a fact that the definitions compute.
ghost use Rattle.log_spec.specs.Examples.{CutShort, EachCell, LongerThanItsCommits};
ghost use Rattle.log_spec.specs.Examples.{NoCommits, NoFirstGate, NoNextGate, NoRecords, NoTruth};
ghost use Rattle.log_spec.specs.Examples.{OneRow, OtherFront, SecondCutShort, ShortFront};
ghost use Rattle.log_spec.specs.Examples.{TooManyTables, TwoRecords};

/// The payload of a commit of one row, and of two commits with each kind of cell, byte by byte.
pub fn payloads_are_these_bytes()
    ensures row { OneRow }
    ensures cells { EachCell }
{}

/// Logs without a record and with two; a gate is open where it is not 0, and what stands behind the
/// closed gate is ignored.
pub fn logs_end_at_their_closed_gates()
    ensures none { NoRecords }
    ensures two { TwoRecords }
{}

/// No record has commits of more tables than have a number of 8 bits.
pub fn a_table_has_a_number_of_8_bits()
    ensures { TooManyTables }
{}

/// Bytes that do not begin as a log leave its form at 0, others at the gate of the first record
/// that is none, or at their end where a gate alone is missing.
pub fn other_bytes_are_no_log()
    ensures other { OtherFront }
    ensures few { ShortFront }
    ensures first { NoFirstGate }
    ensures next { NoNextGate }
    ensures cut { CutShort }
    ensures second { SecondCutShort }
    ensures commits { NoCommits }
    ensures longer { LongerThanItsCommits }
    ensures truth { NoTruth }
{}
