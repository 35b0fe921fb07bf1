//! The memory of the rows that a thread used up, and of those that it writes next.
ghost use Rattle.std.specs.Prelude.{◌≡◌};

use cell_model::Row;
use std::alloc::{AllocError, Global};

/// For how many rows of a round a thread takes memory ahead at a time.
const ROWS_AHEAD: usize = 256;

/// How many bytes it takes ahead for them, their keys and their versions. The system's `malloc`
/// would take a larger piece, from 128 KiB on, apart from the thread's memory.
const BYTES_AHEAD: usize = 96 << 10;

/// Takes memory in one piece and frees it, so that it lies ready for what the thread takes next;
/// where there is none, nothing happens. The system's `malloc` has memory of its own for a thread
/// that was started, and else makes it larger page by page, by a call of the system for each, in
/// which the threads of a program wait for each other.
fn take_ahead(alloc: Global) {
    let _piece: Result<Vec<u8>, AllocError> = Vec::with_capacity(alloc, BYTES_AHEAD);
}

/// Emptied rows, whose memory the thread that read the workload took. They go back to it with the
/// duty: where several threads free what one of them took, they wait for each other. How many they
/// are tells when memory is taken ahead.
#[derive(Drop)]
pub(crate) struct Spent {
    /// None where no other session is at work at the same time, so that nothing is to be gained.
    emptied: Option<Vec<Row>>,
}

impl Spent {
    /// No row yet. Rows will be kept if others are at work beside the session.
    pub(crate) fn new(alloc: Global, beside_others: bool) -> Spent {
        let emptied = if beside_others {
            Some(Vec::new(alloc))
        } else {
            None
        };
        Spent { emptied }
    }

    /// The same row, whose cells are moved into memory that this thread takes, if rows are kept;
    /// with each `ROWS_AHEAD`th, memory is taken ahead. Where there is none, the cells stay.
    pub(crate) fn renew(&mut self, row: Row) -> Row
        ensures { result ≡ row }
    {
        let Some(emptied) = &mut self.emptied else {
            return row;
        };
        if emptied.len() % ROWS_AHEAD == ROWS_AHEAD - 1 {
            take_ahead(*emptied.allocator());
        }
        let mut cells = row.into_vec();
        let Ok(mut renewed) = Vec::with_capacity(*cells.allocator(), cells.len()) else {
            return Row::from(cells);
        };
        if renewed.append(&mut cells).is_err() {
            return Row::from(cells);
        }
        let _freed_here = emptied.push(Row::from(cells)).is_err();
        Row::from(renewed)
    }
}
