//! The rows of a scan, read from their lines.
ghost use Rattle.std.specs.Prelude.{◌≡◌, ◌<◌, length, IfOk};
ghost use Rattle.output_read.specs.Rows.{AreAbove, is_above, key_above};

use crate::answers::key_of;
use cell_model::Schema;
use reply_text::{behind, row_in};
use std::alloc::{AllocError, Global};
use word_read::split_line;

/// The key of the row of the columns that the line of a scan is, without its end, where it is above
/// the last one.
fn key_above(
    alloc: Global,
    schema: &Schema,
    below: Option<i128>,
    line: &[u8],
) -> Result<Option<i128>, AllocError>
    ensures { IfOk result (λ key. key ≡ key_above schema.now below line.now) }
{
    let Some(cells) = behind(line, b"| ") else {
        return Ok(None);
    };
    match row_in(alloc, cells)? {
        Some(row) if schema.fits(&row).is_ok() && is_above(below, key_of(&row)) => {
            Ok(Some(key_of(&row)))
        }
        _ => Ok(None),
    }
}

/// Whether the key is above the last one, as the keys of a scan have to rise; any is above none.
fn is_above(below: Option<i128>, key: i128) -> bool
    ensures { result ≡ is_above below key }
{
    match below {
        Some(last) => last < key,
        None => true,
    }
}

/// How many rows with rising keys stand at the front of the lines, up to so many, and what stands
/// behind them.
pub fn rows_above<'a>(
    alloc: Global,
    schema: &Schema,
    count: u64,
    lines: &'a [u8],
) -> Result<(u64, &'a [u8]), AllocError>
    requires { 0 < length schema.now }
    ensures { IfOk result (λ x. AreAbove schema.now count lines.now x.0 x.1.now) }
{
    let mut rest = lines;
    let mut below = None;
    let mut rows = 0;
    while rows < count {
        let Some((line, others)) = split_line(rest) else {
            return Ok((rows, rest));
        };
        let key = key_above(alloc, schema, below, line)?;
        if key.is_none() {
            return Ok((rows, rest));
        }
        below = key;
        rest = others;
        rows += 1;
    }
    Ok((rows, rest))
}
