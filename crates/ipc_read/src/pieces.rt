//! A stream that was cut into pieces.
ghost use Rattle.std.specs.Prelude.{◌≡◌, ◌<◌, ◌^◌, ◌++◌, IfOk, OnOk, flat_map, length, []};
ghost use Rattle.stream_spec.specs.Streams.{reading_of};
ghost use Rattle.stream_pieces.specs.Pieces.{IsReadingOf, no_more, schema_of, still_read};

use crate::reader::{Fed, Reader};
use cell_model::{Row, Rows};
use std::alloc::{AllocError, Global};
use stream_spec::StreamFault;

/// What pieces read as: the reader behind them, which has the columns; all rows; and the first
/// fault.
#[derive(Drop)]
pub struct Whole {
    pub reader: Reader,
    pub rows: Rows,
    pub fault: Option<StreamFault>,
}

/// What a stream reads as that comes in these pieces, and ends with the last: the columns, rows and
/// first fault of the pieces put together, however they are cut.
pub fn read_pieces(alloc: Global, pieces: &[Vec<u8>]) -> Result<Whole, AllocError>
    requires { length (flat_map (λ piece. piece.items) pieces.now) < 2 ^ 63 }
    ensures { IfOk result (λ w. IsReadingOf
        (reading_of (flat_map (λ piece. piece.items) pieces.now))
        (schema_of w.reader.known) w.rows w.fault) }
{
    let mut reader = Reader::new(alloc);
    let mut rows = Vec::new(alloc);
    for piece in pieces {
        let fed = reader.feed(piece.as_slice())?;
        add(&mut rows, fed)?;
    }
    let fault = last_fault(&mut reader);
    Ok(Whole {
        reader,
        rows: Rows::from(rows),
        fault,
    })
}

/// Adds the rows of a piece.
fn add(rows: &mut Vec<Row>, fed: Fed) -> Result<(), AllocError>
    ensures { OnOk result (rows.new.items ≡ rows.old.items ++ fed.rows) }
{
    let Fed { rows: more, .. } = fed;
    rows.append(&mut more.into_vec())
}

/// The fault of a stream that ends here.
fn last_fault(reader: &mut Reader) -> Option<StreamFault>
    ensures same { reader.new ≡ reader.old }
    ensures told { still_read reader.old [] ≡ no_more reader.old.known result }
{
    match reader.end() {
        Ok(()) => None,
        Err(fault) => Some(fault),
    }
}
