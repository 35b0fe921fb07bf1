//! Laws of what a session reads of a table: each function does nothing, and its contract is one of
//! them.
ghost use Rattle.store_laws.specs.Reads.{RangesTellEachOnce, ReadsAreTheScanThroughout};
ghost use Rattle.store_laws.specs.Reads.{ReadsTellEachOnce, ReadsTellTheRows};
ghost use Rattle.store_laws.specs.Scans.{
  OrderedRowsAreTheRows,
  ReadsAreTheScan,
  SortedRowsAreInKeyOrder,
  TotalsGoByTheRows,
};

/// The rows that reads of all blocks of a table tell are, in the order of their keys, those that
/// the machine's scan gives.
pub fn reads_are_the_scan()
    ensures { ReadsAreTheScan }
{}

/// An open session's reads of all blocks of a table, whenever each was made between two of its
/// writes, tell each row that it sees once.
pub fn reads_at_moments_are_the_scan()
    ensures { ReadsAreTheScanThroughout }
{}

/// A session that reads all blocks of a table one after another, and makes nothing else between, is
/// told each row that its transaction sees, once.
pub fn reads_tell_the_rows()
    ensures { ReadsTellTheRows }
{}

/// So it is told no two rows of one key.
pub fn reads_tell_each_once()
    ensures { ReadsTellEachOnce }
{}

/// Nor does a range tell two rows of one key.
pub fn ranges_tell_each_once()
    ensures { RangesTellEachOnce }
{}

/// Rows with keys of their own are the same rows in the order of their keys.
pub fn ordered_rows_are_the_rows()
    ensures { OrderedRowsAreTheRows }
{}

/// Rows with keys of their own, sorted by their keys, are these rows in key order.
pub fn sorted_rows_are_in_key_order()
    ensures { SortedRowsAreInKeyOrder }
{}

/// The total of a column goes by the rows alone, whatever their order.
pub fn totals_go_by_the_rows()
    ensures { TotalsGoByTheRows }
{}
