//! A table's line.
ghost use Rattle.std.specs.Prelude.{◌≡◌, ◌%◌, ◌==◌, true, false, IfOk, Ok};
ghost use Rattle.workload_spec.specs.declared.script.Cause.TheVariants as cause;
ghost use Rattle.workload_spec.specs.Extents.{is_extent};
ghost use Rattle.workload_spec.specs.Reading.{words_of};
ghost use Rattle.workload_spec.specs.Valid.{is_declared};
ghost use Rattle.workload_spec.specs.Grammar.{is_table_line, table_of};
ghost use Rattle.word_read.specs.Cursor.{words_behind};
ghost use Rattle.script_text.specs.Tables.{limits_of};
ghost use Rattle.script_text.specs.Answers.{Gives};

use crate::columns::{is_name, schema_of};
use crate::declared::Declared;
use crate::fault::WordFault;
use crate::numbers::number;
use crate::words::{first_keyword, keyword, next_word, no_word};
use cell_model::{Bytes, Schema, TableDecl, most_slots};
use std::alloc::Global;
use word_read::split_word;
use workload_spec::{Cause, Extent};

const MOST_BLOCKS: u32 = 1024;

const LEAST_SLOTS: u32 = 8;

/// Whether the line's first word is `table`.
pub fn is_table_line(line: &[u8]) -> bool
    ensures { result ≡ is_table_line line.now }
{
    let (first, _) = split_word(line);
    first == b"table".as_slice()
}

/// The table that the line declares behind these.
pub fn table_of(
    alloc: Global,
    extent: &Extent,
    tables: &Declared,
    line: &[u8],
) -> Result<TableDecl, WordFault>
    requires { is_extent extent.now ≡ true }
    ensures read { Gives (λ table. table) result
        (table_of extent.now tables.now (words_of line.now)) }
    ensures own { IfOk result (λ table. is_declared table.name tables.now ≡ false) }
{
    let rest = first_keyword(Cause::Table, b"table", line)?;
    let (name, rest) = next_word(Cause::Name, rest)?;
    if !is_name(name) {
        return Err(WordFault::Bad(Cause::Name));
    }
    if tables.contains(name) {
        return Err(WordFault::Bad(Cause::Twice));
    }
    let rest = keyword(Cause::Key, b"key:i64", rest)?;
    let (schema, rest) = schema_of(alloc, extent, rest)?;
    let (slots, blocks) = limits_of(&schema, rest)?;
    Ok(TableDecl {
        name: Bytes::from_slice(alloc, name)?,
        schema,
        slots,
        blocks,
    })
}

/// How many slots a block has, and how many blocks the table.
fn limits_of(schema: &Schema, words: &[u8]) -> Result<(u32, u32), WordFault>
    ensures { Gives (λ x. (x.0, x.1)) result (limits_of schema.now (words_behind words.now)) }
{
    let rest = keyword(Cause::Slots, b"slots", words)?;
    let (slots, rest) = number(Cause::Slots, LEAST_SLOTS, most_slots(schema), rest)?;
    if slots % 8 != 0 {
        return Err(WordFault::Bad(Cause::Slots));
    }
    let rest = keyword(Cause::Blocks, b"blocks", rest)?;
    let (blocks, rest) = number(Cause::Blocks, 1, MOST_BLOCKS, rest)?;
    no_word(Cause::Blocks, rest)?;
    Ok((slots, blocks))
}
