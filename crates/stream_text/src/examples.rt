//! Worked examples: each is a fact that the definitions compute.
ghost use Rattle.stream_text.specs.Examples.{NineRowsAreShown, EightRowsAreShown, FaultStandsAlone};

/// A stream of nine rows in two batches shows its schema, its rows and how many they are.
pub fn nine_rows_are_shown()
    ensures { NineRowsAreShown }
{}

/// A stream that is cut in its second batch shows the rows of the first, and then where it is none.
pub fn eight_rows_are_shown()
    ensures { EightRowsAreShown }
{}

/// Bytes that do not begin with a schema show the fault alone.
pub fn a_fault_stands_alone()
    ensures { FaultStandsAlone }
{}
