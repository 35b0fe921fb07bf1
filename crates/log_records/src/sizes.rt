//! How long a payload is, without the payload.
ghost use Rattle.std.specs.Prelude.{◌≡◌, ◌-◌, ◌^◌, length, min, nat_lt};
ghost use Rattle.std.specs.List.{flat_map};
ghost use Rattle.log_spec.specs.LogText.{cell_text, payload_text, set_text, write_text};

use crate::attributes::attributes;
use cell_model::{Cell, Row};
use isolation_spec::Place;
use log_spec::WriteSet;

/// Whether the length of the payload of these commits has 32 bits, as a record's does.
pub fn fits(commits: &[WriteSet]) -> bool
    ensures { result ≡ nat_lt (length (payload_text commits.now)) (2 ^ 32) }
{
    payload_len(commits) <= u32::MAX as u64
}

/// The length of the payload of these commits, or 2^64 - 1 where it is greater.
pub fn payload_len(commits: &[WriteSet]) -> u64
    ensures { result ≡ min (length (payload_text commits.now)) (2 ^ 64 - 1) }
{
    let mut len = 4u64;
    for writes in commits {
        len = len.saturating_add(set_len(writes));
    }
    len
}

/// The length of a commit's text, or 2^64 - 1.
fn set_len(writes: &WriteSet) -> u64
    ensures { result ≡ min (length (set_text writes.now)) (2 ^ 64 - 1) }
{
    let mut len = 4u64;
    for write in writes.as_slice() {
        len = len.saturating_add(write_len(write));
    }
    len
}

/// The length of a write's text, or 2^64 - 1.
fn write_len(write: &(Place, Option<Row>)) -> u64
    ensures { result ≡ min (length (write_text write.now)) (2 ^ 64 - 1) }
{
    match &write.1 {
        None => 10,
        Some(row) => cells_len(attributes(row)).saturating_add(10),
    }
}

/// The length of the texts of cells, or 2^64 - 1.
fn cells_len(cells: &[Cell]) -> u64
    ensures { result ≡ min (length (flat_map cell_text cells.now)) (2 ^ 64 - 1) }
{
    let mut len = 0u64;
    for cell in cells {
        len = len.saturating_add(cell_len(cell));
    }
    len
}

/// The length of a cell's text, or 2^64 - 1.
fn cell_len(cell: &Cell) -> u64
    ensures { result ≡ min (length (cell_text cell.now)) (2 ^ 64 - 1) }
{
    match cell {
        Cell::Null => 1,
        Cell::Num(_) => 17,
        Cell::Truth(_) => 2,
        Cell::Text(bytes) | Cell::Blob(bytes) => (bytes.len() as u64).saturating_add(5),
    }
}
