//! By what writes are kept.
ghost use Rattle.std.specs.Prelude.{◌≡◌};
ghost use Rattle.outcome_judge.specs.HistoryKept.{place_in};
ghost use Rattle.outcome_judge.specs.KeyLists.{row_key};
ghost use Rattle.outcome_judge.specs.Spots.{spot_at};
ghost use Rattle.outcome_judge.specs.Targets.{row_target, table_target};

/// The key of a row in a table. A key of the text is as wide as a cell's number.
#[derive(Clone, Copy, Debug, PartialEq, Eq, PartialOrd, Ord)]
pub struct RowKey {
    pub table: u32,
    pub key: i128,
}

/// The key of a table's row, of a key of 64 bits.
pub(crate) fn row_key(table: u32, key: i64) -> RowKey
    ensures { result ≡ row_key table key }
{
    RowKey {
        table,
        key: i128::from(key),
    }
}

/// A place of one owner's writes: the commits are one owner, and each transaction is. They go by
/// key first: owners come in order, and a map whose keys come so is left half empty.
#[derive(Clone, Copy, Debug, PartialEq, Eq, PartialOrd, Ord)]
pub struct Spot {
    pub key: i128,
    pub table: u32,
    pub owner: usize,
}

/// The place of an owner's row.
pub(crate) fn spot_at(owner: usize, of: RowKey) -> Spot
    ensures { result ≡ spot_at owner of }
{
    Spot {
        key: of.key,
        table: of.table,
        owner,
    }
}

/// A table of one owner's writes.
#[derive(Clone, Copy, Debug, PartialEq, Eq, PartialOrd, Ord)]
pub struct Shelf {
    pub owner: usize,
    pub table: u32,
}

/// A row, or a whole table, whose key is 0: what the numbers of commits are kept by.
#[derive(Clone, Copy, Debug, PartialEq, Eq, PartialOrd, Ord)]
pub struct Target {
    pub table: u32,
    pub whole: bool,
    pub key: i128,
}

/// The row as one.
pub(crate) fn row_target(of: RowKey) -> Target
    ensures { result ≡ row_target (place_in of) }
{
    Target {
        table: of.table,
        whole: false,
        key: of.key,
    }
}

/// The whole table as one.
pub(crate) fn table_target(table: u32) -> Target
    ensures { result ≡ table_target table }
{
    Target {
        table,
        whole: true,
        key: 0,
    }
}
