//! Cells: the words that are a value of a column, or none.
ghost use Rattle.std.specs.Prelude.{◌≡◌, ◌+◌, IfOk, length};
ghost use Rattle.workload_spec.specs.declared.script.Cause.TheVariants as cause;
ghost use Rattle.workload_spec.specs.Reading.{cell_of};
ghost use Rattle.workload_spec.specs.Grammar.{or_cause};
ghost use Rattle.word_read.specs.Cursor.{words_behind};
ghost use Rattle.word_read.specs.Spellings.{truth_of};
ghost use Rattle.script_text.specs.Spellings.{value_spelled};
ghost use Rattle.script_text.specs.Commands.{row_read};
ghost use Rattle.script_text.specs.Answers.{Gives};

use crate::fault::WordFault;
use cell_model::{Cell, Column, Row, Values};
use std::alloc::{AllocError, Global};
use word_read::{blob_of, integer, text_of, truth_of, word_behind};
use workload_spec::Cause;

/// The row of a key's cell and the words of the further columns, and what stands behind them. It is
/// short where words are missing.
pub fn row_of<'a>(
    alloc: Global,
    key: Cell,
    columns: &[Column],
    words: &'a [u8],
) -> Result<(Row, &'a [u8]), WordFault>
    ensures row { Gives (λ x. x.0) result (row_read columns.now key (words_behind words.now)) }
    ensures taken { IfOk result (λ x. length x.0 + length (words_behind x.1.now)
        ≡ length (words_behind words.now) + 1) }
{
    let mut cells = Vec::with_capacity(alloc, columns.len() + 1)?;
    cells.push(key)?;
    let mut rest = words;
    for column in columns {
        let Some((word, behind)) = word_behind(rest) else {
            break;
        };
        cells.push(cell_of(alloc, column, word)?)?;
        rest = behind;
    }
    Ok((Row::from(cells), rest))
}

/// The cell of a column that the word spells.
#[tactic(auto, using(crate::proofs::Spelled::cell_null, crate::proofs::Spelled::cell_value))]
fn cell_of(alloc: Global, column: &Column, word: &[u8]) -> Result<Cell, WordFault>
    ensures { Gives (λ cell. cell) result (or_cause cause.Cell (cell_of column.now word.now)) }
{
    let spelled = if word == b"null".as_slice() {
        Some(Cell::Null)
    } else {
        value_of(alloc, column.kind.values(), word)?
    };
    match spelled {
        Some(cell) if column.check(0, &cell).is_ok() => Ok(cell),
        _ => Err(WordFault::Bad(Cause::Cell)),
    }
}

/// The value of these that the word spells; none where it spells none, or an integer that no kind
/// has.
fn value_of(alloc: Global, values: Values, word: &[u8]) -> Result<Option<Cell>, AllocError>
    ensures { IfOk result (λ cell. cell ≡ value_spelled values word.now) }
{
    match values {
        Values::Signed(_) | Values::Unsigned(_) => Ok(integer(word).map(Cell::Num)),
        Values::Truths => Ok(truth_of(word).map(Cell::Truth)),
        Values::Texts(_) => Ok(text_of(alloc, word)?.map(Cell::Text)),
        Values::Blobs(_) | Values::Strips(_) => Ok(blob_of(alloc, word)?.map(Cell::Blob)),
    }
}
