//! What the core replies to its events.
ghost use Rattle.std.specs.Prelude.{◌≡◌, ◌≤◌, ◌^◌};

use block_layout::SlotId;
use block_spec::SealFault;
use cell_model::Row;
use isolation_spec::Read;
use std::marker::Model;
use thiserror::Error;
use txn_desk::Snapshot;

/// Why a write is refused. The first of these that applies, in this order.
#[derive(Clone, Copy, PartialEq, Eq, Debug, Error)]
pub enum WriteFault {
    /// Another open transaction, this session's, wrote the key.
    #[error("session {0} wrote the key")]
    ConflictSession(u32),
    /// The transaction that committed with this number wrote the key after the snapshot.
    #[error("commit {0} wrote the key")]
    ConflictCommit(u64),
    /// An insert of a key that has a row.
    #[error("the key has a row")]
    Exists,
    /// An update or a delete of a key that has none.
    #[error("the key has no row")]
    Missing,
    /// The row's block is sealed, with this stamp.
    #[error("block {block} is freezing")]
    Freezing { block: u32, stamp: u32 },
    /// No slot is left; the table's inserts took so many.
    #[error("the table is full after {inserts} inserts")]
    Full { inserts: u64 },
}

/// How many versions of one block were dropped: no more than 2^31 in each of its at most 2^15
/// slots. Contracts see the number.
#[derive(Clone, Copy, PartialEq, Eq, Debug)]
pub struct VersionCount {
    count: u64,
}

impl Model for VersionCount {
    ghost use Rattle.std.specs.Prelude.{◌≤◌, ◌^◌, ℕ};

    ghost Value = { ℕ };

    ghost view = { λ versions. versions.count };

    ghost invariant = { λ versions. versions.count ≤ 2 ^ 46 };

    ghost inverse = { λ count. record { count = count } };
}

impl VersionCount {
    /// So many versions.
    pub fn of(count: u64) -> VersionCount
        requires { count ≤ 2 ^ 46 }
        ensures { result ≡ count }
    {
        VersionCount { count }
    }

    /// The number.
    pub fn get(self) -> u64
        ensures number { result ≡ self }
        ensures few { result ≤ 2 ^ 46 }
    {
        self.count
    }
}

/// A reply of a core that tells the rows of a block as an `R`, whose images are an `I` and whose
/// looks at a block are an `L`.
#[derive(Drop)]
pub enum Reply<R, I, L> {
    /// The transaction's snapshot.
    Begun(Snapshot),
    /// The row of the key, or that there is none.
    Found(Option<Row>),
    /// The write was accepted; its entry stands on this slot.
    Written(SlotId),
    /// The write was refused, and nothing changed.
    Refused(WriteFault),
    /// The rows that the session sees in the block, in slot order, without those whose key it wrote
    /// at another slot; or in the range, shard by shard of the index, and by key in each.
    Rows(R),
    /// The shared image of the block's rows, of which none was read.
    Shared(I),
    /// The transaction committed, with this number where it wrote something.
    Committed(Option<u64>),
    /// The commit was refused, and nothing changed: a read of the transaction was written since,
    /// last by the commit with this number.
    Stale { read: Read, number: u64 },
    /// The transaction's writes were laid back.
    Aborted,
    /// The least start of an open transaction, or the newest stamp where none is open.
    Oldest(u64),
    /// Whether the block turned cooling in this round.
    Turned(bool),
    /// So many versions were dropped.
    Dropped(VersionCount),
    /// What a compaction reads of the block.
    Looked(L),
    /// So many rows moved.
    Moved(u64),
    /// The block is sealed, with this stamp.
    Sealed(u32),
    /// The block is not sealed, and nothing changed.
    NotSealed(SealFault),
    /// The block has its Arrow buffers, of so many rows.
    Imaged(u32),
    /// The block was not sealed, and nothing changed.
    NoSeal,
    /// The block takes writes again.
    Thawed,
    /// There was no memory for the event, and nothing changed.
    Memory,
}
