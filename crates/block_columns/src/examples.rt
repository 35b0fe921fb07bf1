//! Worked columns of the later kinds: each is a fact that the definitions compute.
ghost use Rattle.block_columns.specs.Examples.{DatesAreKept, LargeValuesStandApart, StripsAreKept};

/// A null among values of so many bytes each is kept as zeros, and read as a null.
pub fn strips_are_kept()
    ensures { StripsAreKept }
{}

/// Dates are kept as numbers.
pub fn dates_are_kept()
    ensures { DatesAreKept }
{}

/// Values of the large kinds have bytes of their own.
pub fn large_values_stand_apart()
    ensures { LargeValuesStandApart }
{}
