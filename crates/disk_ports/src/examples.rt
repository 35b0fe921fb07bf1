//! Worked examples. Each function does nothing; its contract is an example.
ghost use Rattle.disk_ports.specs.Examples.{CrashesLeaveTornRanges, PiecesAreLaid, RangesAreTorn};
ghost use Rattle.disk_ports.specs.Examples.{MomentsStay, ReadsAreOfTheFile, WritesLayOrTear};

/// A piece takes the place of as many bytes, and a gap before it holds any.
pub fn pieces_are_laid()
    ensures { PiecesAreLaid }
{}

/// A torn range holds any bytes, and so does what stands past the old end.
pub fn ranges_are_torn()
    ensures { RangesAreTorn }
{}

/// A write lays its piece, or tears its range.
pub fn writes_lay_or_tear()
    ensures { WritesLayOrTear }
{}

/// A read gives the file's bytes, and none just at its end.
pub fn reads_are_of_the_file()
    ensures { ReadsAreOfTheFile }
{}

/// What was written is torn by a crash until it is synced.
pub fn crashes_leave_torn_ranges()
    ensures { CrashesLeaveTornRanges }
{}

/// What a crash since a moment might leave stays what it may leave.
pub fn moments_stay()
    ensures { MomentsStay }
{}
