//! Cells and rows, read from the words that spell them.
ghost use Rattle.std.specs.Prelude.{◌≡◌, IfOk};
ghost use Rattle.workload_spec.specs.Words.{line_feed};
ghost use Rattle.workload_spec.specs.Reading.{parts};
ghost use Rattle.reply_text.specs.Readers.{cell_in, row_in, rows_in};

use crate::pieces::behind;
use cell_model::{Cell, Row, Rows};
use std::alloc::{AllocError, Global};
use word_read::{blob_of, integer, split_line, split_word, text_of, truth_of, word_behind};

/// The cell that the word spells.
fn cell_in(alloc: Global, word: &[u8]) -> Result<Option<Cell>, AllocError>
    ensures { IfOk result (λ cell. cell ≡ cell_in word.now) }
{
    if word == b"null".as_slice() {
        return Ok(Some(Cell::Null));
    }
    if let Some(truth) = truth_of(word) {
        return Ok(Some(Cell::Truth(truth)));
    }
    if let Some(text) = text_of(alloc, word)? {
        return Ok(Some(Cell::Text(text)));
    }
    if let Some(bytes) = blob_of(alloc, word)? {
        return Ok(Some(Cell::Blob(bytes)));
    }
    Ok(integer(word).map(Cell::Num))
}

/// The row whose cells are the words of the line.
pub fn row_in(alloc: Global, line: &[u8]) -> Result<Option<Row>, AllocError>
    ensures { IfOk result (λ row. row ≡ row_in line.now) }
{
    let mut cells = Vec::new(alloc);
    let (mut word, mut rest) = split_word(line);
    loop {
        match cell_in(alloc, word)? {
            Some(cell) => cells.push(cell)?,
            None => return Ok(None),
        }
        match word_behind(rest) {
            Some((next, others)) => {
                word = next;
                rest = others;
            }
            None => return Ok(Some(Row::from(cells))),
        }
    }
}

/// The rows of the lines, each behind a bar.
pub fn rows_in(alloc: Global, lines: &[u8]) -> Result<Option<Rows>, AllocError>
    ensures { IfOk result (λ rows. rows ≡ rows_in (parts line_feed lines.now)) }
{
    let mut rows = Vec::new(alloc);
    let mut rest = lines;
    while let Some((line, others)) = split_line(rest) {
        let Some(cells) = behind(line, b"| ") else {
            return Ok(None);
        };
        match row_in(alloc, cells)? {
            Some(row) => rows.push(row)?,
            None => return Ok(None),
        }
        rest = others;
    }
    if rest.is_empty() {
        Ok(Some(Rows::from(rows)))
    } else {
        Ok(None)
    }
}
