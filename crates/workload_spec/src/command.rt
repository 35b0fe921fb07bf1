//! The commands of a workload.
ghost use Rattle.std.specs.Prelude.{◌≡◌, IfOk};

use cell_model::Row;
use std::alloc::{AllocError, Global};
use std::marker::Model;

/// A command of a session. Tables are counted from 0 as they are declared, blocks from 0 within
/// their table.
#[derive(Debug, Drop)]
pub enum Command {
    /// Opens a transaction. A checked one commits its writes only where nothing that it read was
    /// written since.
    Begin {
        checked: bool,
    },
    /// Asks for the row of a key.
    Get {
        table: u32,
        key: i64,
    },
    /// Asks for all rows of a table, in the order of their keys.
    Scan {
        table: u32,
    },
    /// Asks for the rows of a table whose keys lie between two, both counted, in the order of their
    /// keys.
    Range {
        table: u32,
        low: i64,
        high: i64,
    },
    /// Asks how many numbers of a column, counted from 0, lie between two, both counted, and for
    /// their sum.
    Total {
        table: u32,
        column: u32,
        low: Bound,
        high: Bound,
    },
    /// Adds a row whose key has none.
    Insert {
        table: u32,
        row: Row,
    },
    /// Changes the row of a key that has one.
    Update {
        table: u32,
        row: Row,
    },
    /// Removes the row of a key.
    Delete {
        table: u32,
        key: i64,
    },
    /// Ends the transaction, whose writes become visible to later ones.
    Commit,
    /// Ends the transaction and drops its writes.
    Abort,
    /// Counts a round in which blocks were not modified.
    Observe,
    /// Drops the versions that no snapshot needs.
    Prune,
    /// Moves rows of cold blocks into gaps.
    Compact {
        table: u32,
    },
    /// Closes a cold block for gathering.
    Seal {
        table: u32,
        block: u32,
    },
    /// Makes the Arrow image of a sealed block.
    Gather {
        table: u32,
        block: u32,
    },
    /// Writes the table as an Arrow stream.
    Export {
        table: u32,
    },
}

/// A bound of a total. It lies in a box, so that the other commands are no larger for it.
#[derive(Debug, Drop)]
pub struct Bound {
    number: Box<i128>,
}

impl Model for Bound {
    ghost use Rattle.std.specs.Prelude.{ℤ};
    ghost use Rattle.std.specs.Coded.{coded_ℤ};

    ghost Value = { ℤ };

    ghost coded = { coded_ℤ };

    ghost view = { λ bound. bound.number.value };
}

impl Bound {
    /// The bound of this number.
    pub fn new(alloc: Global, number: i128) -> Result<Bound, AllocError>
        ensures { IfOk result (λ bound. bound ≡ number) }
    {
        Ok(Bound {
            number: Box::new(alloc, number)?,
        })
    }

    /// The number.
    pub fn get(&self) -> i128
        ensures { result ≡ self.now }
    {
        *self.number
    }
}
