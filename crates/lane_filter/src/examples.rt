//! Worked totals. Each function does nothing; its contract is an example.
ghost use Rattle.lane_filter.specs.Examples.{BytesTellNumbers, KindsHaveNumbers};
ghost use Rattle.lane_filter.specs.Examples.{TotalsAreOfNumbers};

/// A null is no number, though its value is zero, and both ends are counted.
pub fn totals_are_of_numbers()
    ensures { TotalsAreOfNumbers }
{}

/// The kinds of numbers are the signed and the unsigned integers, and the days.
pub fn kinds_have_numbers()
    ensures { KindsHaveNumbers }
{}

/// What bytes a number is depends on its kind.
pub fn bytes_tell_numbers()
    ensures { BytesTellNumbers }
{}
