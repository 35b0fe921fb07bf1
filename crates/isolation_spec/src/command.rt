//! What a session asks of the store, and what it is answered.

use crate::read::Read;
use cell_model::{Row, Rows};

/// A command of a session.
#[derive(Debug, Drop)]
pub struct Command {
    /// The session, counted from 1.
    pub session: u32,
    pub act: Act,
}

/// What a session asks. Tables are counted from 0 as they are declared.
#[derive(Debug, Drop)]
pub enum Act {
    /// Opens a transaction. A checked one commits its writes only where nothing that it read was
    /// written since.
    Begin {
        checked: bool,
    },
    /// Asks for the row of a key.
    Get {
        table: u32,
        key: i64,
    },
    /// Asks for all rows of a table.
    Scan {
        table: u32,
    },
    /// Asks for the rows of a table with a key between two, both counted.
    Range {
        table: u32,
        low: i64,
        high: i64,
    },
    /// Asks how many numbers of a column, counted from 0, lie between two, both counted, and for
    /// their sum.
    Total {
        table: u32,
        column: u32,
        low: i128,
        high: i128,
    },
    /// Adds a row whose key has none.
    Insert {
        table: u32,
        row: Row,
    },
    /// Changes the row of a key that has one.
    Update {
        table: u32,
        row: Row,
    },
    /// Removes the row of a key.
    Delete {
        table: u32,
        key: i64,
    },
    /// Ends the transaction, whose writes become visible to later ones.
    Commit,
    /// Ends the transaction and drops its writes.
    Abort,
}

/// What the machine answers.
#[derive(Debug, Drop)]
pub enum Answer {
    /// The transaction began; so many transactions that wrote had committed before.
    At(u64),
    /// The session has a transaction already.
    InTransaction,
    /// The session has no transaction.
    NoTransaction,
    /// The row of the key, or that there is none.
    Found(Option<Row>),
    /// The rows of the table, or of the range, in the order of their keys.
    Rows(Rows),
    /// So many numbers of a column, and their sum.
    Totalled { count: u64, sum: i128 },
    /// The write was accepted.
    Accepted,
    /// Another open transaction, this session's, wrote the key.
    ConflictSession(u32),
    /// The transaction that committed with this number wrote the key after the snapshot.
    ConflictCommit(u64),
    /// An insert of a key that has a row.
    Exists,
    /// An update or a delete of a key that has none.
    Missing,
    /// The transaction committed, with this number where it wrote something.
    Committed(Option<u64>),
    /// The commit is refused, and the transaction stays open: a read of it was written since, last
    /// by the commit with this number.
    Stale { read: Read, number: u64 },
    /// The transaction was dropped.
    Aborted,
    /// A program that runs the machine was refused memory, and nothing has changed. The machine
    /// itself never answers so.
    Memory,
}
