//! What a stream in pieces shows: the lines that each piece decides.
ghost use Rattle.std.specs.Prelude.{◌≡◌, ◌+◌, ◌<◌, ◌≤◌, ◌^◌, ◌++◌, ◌∷◌, ℕ, List, [], Option, IfOk};
ghost use Rattle.std.specs.Prelude.{OnOk, length, if◌then◌else◌};
ghost use Rattle.std.specs.Option.{option_copied, option_map};
ghost use Rattle.stream_pieces.specs.Pieces.{opening, schema_of};
ghost use Rattle.stream_text.specs.Shown.{field_columns, front_lines};
ghost use Rattle.stream_text.specs.Showing.{Ends, ShowsPiece, ShowsSoFar, last_text};
ghost use Rattle.workload_spec.specs.Words.{lines_text};

use crate::lines::{put_count, put_fault, put_schema};
use crate::row_lines::RowLines;
use arrow_spec::Field;
use ipc_read::Reader;
use std::alloc::{AllocError, Global};
use std::mem;
use stream_pieces::Stand;
use stream_spec::StreamFault;

/// A stream that is shown piece by piece: the reader of its pieces, and how many rows were shown.
#[derive(Drop)]
pub struct Showing {
    pub reader: Reader,
    pub rows: u128,
}

impl Showing {
    /// In front of a stream.
    pub fn new(alloc: Global) -> Showing
        ensures reader { result.reader ≡ opening }
        ensures rows { result.rows ≡ 0 }
    {
        Showing {
            reader: Reader::new(alloc),
            rows: 0,
        }
    }

    /// Reads the next piece, and puts the lines that it decides in the place of the text: that of
    /// the columns where their message is whole, one for each row of a batch that is whole, and the
    /// last where the end word has come or a fault is decided. Where memory is refused, the lines
    /// are lost, and there is no going on.
    pub fn next(
        &mut self,
        alloc: Global,
        piece: &[u8],
        text: &mut Vec<u8>,
    ) -> Result<Stand, AllocError>
        requires few { self.old.reader.place + length self.old.reader.begun + length piece.now
            < 2 ^ 63 }
        requires counted { self.old.rows + 2 ^ 64 < 2 ^ 128 }
        ensures shows { (fed : List ℕ) → ShowsSoFar fed self.old
            → IfOk result (λ stand. ShowsPiece fed piece.now text.new.items stand self.new) }
        ensures counted { IfOk result (λ _. self.new.reader.place + length self.new.reader.begun
            ≤ self.old.reader.place + length self.old.reader.begun + length piece.now) }
        ensures rows { self.new.rows < self.old.rows + 2 ^ 64 }
    {
        let began = self.reader.schema().is_some();
        text.clear();
        let mut lines = RowLines::new(mem::replace(text, Vec::new(alloc)));
        let stand = self.reader.feed_to(piece, &mut lines)?;
        self.rows += lines.count() as u128;
        let fields = due_fields(&self.reader, began);
        *text = behind_schema(alloc, fields, lines.into_text())?;
        put_last(text, stand, self.rows)?;
        Ok(stand)
    }

    /// Puts the last line, where the input ends here, in the place of the text, and answers the
    /// first fault, if there is one.
    pub fn end(&mut self, text: &mut Vec<u8>) -> Result<Option<StreamFault>, AllocError>
        ensures { (fed : List ℕ) → ShowsSoFar fed self.old
            → IfOk result (λ fault. Ends fed fed text.new.items fault) }
    {
        text.clear();
        match self.reader.end() {
            Ok(()) => {
                put_count(text, self.rows)?;
                Ok(None)
            }
            Err(fault) => {
                put_fault(text, fault)?;
                Ok(Some(fault))
            }
        }
    }
}

/// The fields, where they were not known before.
fn due_fields(reader: &Reader, began: bool) -> Option<&[Field]>
    ensures { option_map field_columns (option_copied result)
        ≡ (if began then None else schema_of reader.now.known) }
{
    if began { None } else { reader.schema() }
}

/// The lines of rows, behind that of the columns where it is due.
fn behind_schema(
    alloc: Global,
    fields: Option<&[Field]>,
    rows: Vec<u8>,
) -> Result<Vec<u8>, AllocError>
    ensures { IfOk result (λ text. text.items
        ≡ lines_text (front_lines (option_map field_columns (option_copied fields.entry)) [])
        ++ rows.items) }
{
    let Some(fields) = fields else {
        return Ok(rows);
    };
    let mut text = Vec::new(alloc);
    put_schema(&mut text, fields)?;
    text.extend_from_slice(&rows)?;
    Ok(text)
}

/// The last line, where it is decided.
fn put_last(text: &mut Vec<u8>, stand: Stand, rows: u128) -> Result<(), AllocError>
    ensures { OnOk result (text.new.items ≡ text.old.items ++ last_text stand rows) }
{
    match stand {
        Stand::Going => Ok(()),
        Stand::Ended => put_count(text, rows),
        Stand::Stopped(fault) => put_fault(text, fault),
    }
}
