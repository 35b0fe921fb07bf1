//! Worked examples: each is a fact that the definitions compute.
ghost use Rattle.cell_model.specs.Examples.{SlotsFitABlock, KindsHaveWidths, KindsHaveEnds};
ghost use Rattle.cell_model.specs.Examples.{RowsAreJudged, LongValueIsRefused, BlobsAreBytes};
ghost use Rattle.cell_model.specs.Examples.{SchemasAreJudged, KindsHaveLengths, DaysHaveEnds};
ghost use Rattle.cell_model.specs.Examples.{LargeValueFits, FixedValuesAreJudged};

/// How many rows of 195, of 4,065 and of 254,049 bits a block takes.
pub fn slots_fit_a_block_of_2_to_the_20_bytes()
    ensures { SlotsFitABlock }
{}

/// The bits of each kind.
pub fn each_kind_has_its_width()
    ensures { KindsHaveWidths }
{}

/// The most bytes of each kind's values.
pub fn each_kind_has_its_length()
    ensures { KindsHaveLengths }
{}

/// The numbers at the ends of the integer kinds, and those beyond.
pub fn each_integer_kind_has_its_ends()
    ensures { KindsHaveEnds }
{}

/// The days at the ends of a date, and those beyond.
pub fn days_are_numbers_of_32_bits()
    ensures { DaysHaveEnds }
{}

/// Rows are refused by their first fault.
pub fn rows_are_refused_by_their_first_fault()
    ensures { RowsAreJudged }
{}

/// A value of 65,536 bytes is too long.
pub fn a_value_of_65536_bytes_is_too_long()
    ensures { LongValueIsRefused }
{}

/// A value of 65,536 bytes fits a large column.
pub fn a_value_of_65536_bytes_fits_a_large_column()
    ensures { LargeValueFits }
{}

/// A value of another length than its kind's is refused.
pub fn a_fixed_value_has_its_length()
    ensures { FixedValuesAreJudged }
{}

/// A blob's numbers are bytes.
pub fn a_blob_of_256_is_refused()
    ensures { BlobsAreBytes }
{}

/// Columns are refused by their first fault.
pub fn columns_are_refused_by_their_first_fault()
    ensures { SchemasAreJudged }
{}
