//! The rows that draws make.
ghost use Rattle.std.specs.Prelude.{◌≡◌, ◌<◌, IfOk};
ghost use Rattle.bench_spec.specs.Generated.{row_of, text_of};

use cell_model::{Bytes, Cell, Row};
use std::alloc::{AllocError, Global};
use word_text::put_natural;

/// Numbers go from the negative of the middle one to it.
const NUMBERS: u64 = 2001;

const MIDDLE: i128 = 1000;

/// One draw of so many is no text.
const TEXTLESS: u64 = 4;

/// The row of a key, with the number and the text of these draws.
pub(crate) fn row_of(alloc: Global, key: u64, number: u64, text: u64) -> Result<Row, AllocError>
    ensures { IfOk result (λ row. row ≡ row_of key number text) }
{
    let mut row = Row::new(alloc);
    row.push(Cell::Num(key as i128))?;
    row.push(Cell::Num((number % NUMBERS) as i128 - MIDDLE))?;
    row.push(text_of(alloc, text)?)?;
    Ok(row)
}

/// The cell that a draw makes: a text, or null for one of `TEXTLESS` draws.
fn text_of(alloc: Global, drawn: u64) -> Result<Cell, AllocError>
    ensures { IfOk result (λ cell. cell ≡ text_of drawn) }
{
    if drawn % TEXTLESS == 0 {
        return Ok(Cell::Null);
    }
    let mut text = Vec::new(alloc);
    text.push(b's')?;
    put_natural(&mut text, drawn)?;
    Ok(Cell::Text(Bytes::from_slice(alloc, text.as_slice())?))
}
