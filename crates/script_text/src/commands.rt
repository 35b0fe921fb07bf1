//! The lines of a round: a session and a command.
ghost use Rattle.std.specs.Prelude.{◌≡◌, ◌==◌, ◌+◌, ◌^◌, ◌<◌, ◌≤◌, ℕ, ℤ, List, IfOk, length};
ghost use Rattle.std.specs.Prelude.{nat_lt, drop, IfSome};
ghost use Rattle.cell_model.specs.declared.cell.Cell.{Cell as CellValue};
ghost use Rattle.cell_model.specs.declared.table.TableDecl.{TableDecl as TableValue};
ghost use Rattle.cell_model.specs.Kinds.{values_of};
ghost use Rattle.cell_model.specs.Schemas.{place_of_name};
ghost use Rattle.workload_spec.specs.declared.command.Command.{Command as CommandValue};
ghost use Rattle.workload_spec.specs.declared.command.Command.TheVariants as command;
ghost use Rattle.workload_spec.specs.Reading.{words_of};
ghost use Rattle.workload_spec.specs.Valid.{is_export, is_block_of, are_numbers};
ghost use Rattle.workload_spec.specs.Grammar.{table_named, schema_at, formed, line_of, OfTable};
ghost use Rattle.workload_spec.specs.Grammar.{OfKey, OfRow, OfBlock, OfBegin, OfRange, OfTotal};
ghost use Rattle.workload_spec.specs.Grammar.{numbers_named};
ghost use Rattle.word_read.specs.Cursor.{words_behind};
ghost use Rattle.script_text.specs.Commands.{command_read, alone_read, keyed_row};
ghost use Rattle.script_text.specs.Verbs.{verb_form};
ghost use Rattle.script_text.specs.Answers.{Gives};

use crate::cells::row_of;
use crate::declared::Declared;
use crate::fault::WordFault;
use crate::numbers::{first_number, key, number_in};
use crate::verbs::{Verb, takes, verb_of};
use crate::words::{next_word, no_word};
use cell_model::{Cell, Column, Row, Values};
use std::alloc::Global;
use word_read::{natural, word_behind, word_count};
use workload_spec::{Bound, Cause, Command, Commands, Extent, Line};

/// The line of a round that the bytes are: one of so many sessions and a command; an export only
/// where none was before.
pub fn line_of(
    alloc: Global,
    extent: &Extent,
    tables: &Declared,
    sessions: u32,
    exported: bool,
    line: &[u8],
) -> Result<Line, WordFault>
    requires { length tables.now < 2 ^ 32 }
    ensures { Gives (λ read. read) result
        (line_of extent.now tables.now sessions exported (words_of line.now)) }
{
    let (session, rest) = first_number(Cause::Session, 1, sessions, line)?;
    let (first, rest) = next_word(Cause::Command, rest)?;
    let command = command_of(alloc, extent, tables, first, rest)?;
    if exported && is_export(&command) {
        return Err(WordFault::Bad(Cause::Export));
    }
    Ok(Line { session, command })
}

/// Whether the command exports a table.
pub fn is_export(command: &Command) -> bool
    ensures { result ≡ is_export command.now }
{
    matches!(command, Command::Export { .. })
}

/// The command of this first word, where it is taken, with the words behind it.
#[tactic(auto, using(crate::proofs::VerbForms::form_by_verb))]
fn command_of(
    alloc: Global,
    extent: &Extent,
    tables: &Declared,
    first: &[u8],
    words: &[u8],
) -> Result<Command, WordFault>
    requires { length tables.now < 2 ^ 32 }
    ensures { Gives (λ command. command) result
        (command_read extent.now tables.now first.now (words_behind words.now)) }
{
    match verb_of(first) {
        Some(verb) if takes(&extent.commands, verb) => {
            command_by(alloc, &extent.commands, tables, verb, words)
        }
        _ => Err(WordFault::Bad(Cause::Command)),
    }
}

/// The command of this first word with the words behind it.
fn command_by(
    alloc: Global,
    taken: &Commands,
    tables: &Declared,
    verb: Verb,
    words: &[u8],
) -> Result<Command, WordFault>
    requires { length tables.now < 2 ^ 32 }
    ensures { Gives (λ command. command) result
        (formed tables.now (verb_form taken.now verb) (words_behind words.now)) }
{
    match verb {
        Verb::Begin => begin_in(taken.begin_checked, words),
        Verb::Get => key_in(tables, words).map(|x| Command::Get {
            table: x.0,
            key: x.1,
        }),
        Verb::Scan => table_in(tables, words).map(|table| Command::Scan { table }),
        Verb::Insert => row_in(alloc, tables, words).map(|x| Command::Insert {
            table: x.0,
            row: x.1,
        }),
        Verb::Update => row_in(alloc, tables, words).map(|x| Command::Update {
            table: x.0,
            row: x.1,
        }),
        Verb::Delete => key_in(tables, words).map(|x| Command::Delete {
            table: x.0,
            key: x.1,
        }),
        Verb::Commit => alone(Command::Commit, words),
        Verb::Abort => alone(Command::Abort, words),
        Verb::Observe => alone(Command::Observe, words),
        Verb::Prune => alone(Command::Prune, words),
        Verb::Compact => table_in(tables, words).map(|table| Command::Compact { table }),
        Verb::Seal => block_in(tables, words).map(|x| Command::Seal {
            table: x.0,
            block: x.1,
        }),
        Verb::Gather => block_in(tables, words).map(|x| Command::Gather {
            table: x.0,
            block: x.1,
        }),
        Verb::Export => table_in(tables, words).map(|table| Command::Export { table }),
        Verb::Range => range_in(tables, words),
        Verb::Total => total_in(alloc, tables, words),
    }
}

/// The begin of these words: checked behind the word `checked`, where that is taken.
fn begin_in(takes_checked: bool, words: &[u8]) -> Result<Command, WordFault>
    ensures { (tables : List TableValue) → Gives (λ made. made) result
        (formed tables (OfBegin takes_checked) (words_behind words.now)) }
{
    match word_behind(words) {
        None => Ok(Command::Begin { checked: false }),
        Some((how, rest)) => {
            if !takes_checked || how != b"checked".as_slice() {
                return Err(WordFault::Bad(Cause::Command));
            }
            no_word(Cause::Command, rest)?;
            Ok(Command::Begin { checked: true })
        }
    }
}

/// The range of the table and the two keys that the three words name.
fn range_in(tables: &Declared, words: &[u8]) -> Result<Command, WordFault>
    requires { length tables.now < 2 ^ 32 }
    ensures { Gives (λ made. made) result (formed tables.now OfRange (words_behind words.now)) }
{
    let (name, rest) = next_word(Cause::Command, words)?;
    let (low_word, rest) = next_word(Cause::Command, rest)?;
    let (high_word, rest) = next_word(Cause::Command, rest)?;
    no_word(Cause::Command, rest)?;
    let table = table_named(tables, name)?;
    let low = key(low_word)?;
    let high = key(high_word)?;
    Ok(Command::Range { table, low, high })
}

/// The total of the column and between the two numbers that the words behind the table's name.
fn total_in(alloc: Global, tables: &Declared, words: &[u8]) -> Result<Command, WordFault>
    requires { length tables.now < 2 ^ 32 }
    ensures { Gives (λ made. made) result (formed tables.now OfTotal (words_behind words.now)) }
{
    let (name, rest) = next_word(Cause::Command, words)?;
    let (column_word, rest) = next_word(Cause::Command, rest)?;
    let (low_word, rest) = next_word(Cause::Command, rest)?;
    let (high_word, rest) = next_word(Cause::Command, rest)?;
    no_word(Cause::Command, rest)?;
    let table = table_named(tables, name)?;
    let (column, its) = numbers_named(columns_at(tables, table), column_word)?;
    let low = number_in(its, low_word)?;
    let high = number_in(its, high_word)?;
    Ok(Command::Total {
        table,
        column,
        low: Bound::new(alloc, low)?,
        high: Bound::new(alloc, high)?,
    })
}

/// The command, where no word stands behind its first.
fn alone(command: Command, words: &[u8]) -> Result<Command, WordFault>
    ensures { Gives (λ made. made) result (alone_read command (words_behind words.now)) }
{
    no_word(Cause::Command, words)?;
    Ok(command)
}

/// The table that the one word names.
fn table_in(tables: &Declared, words: &[u8]) -> Result<u32, WordFault>
    requires { length tables.now < 2 ^ 32 }
    ensures { (make : ℕ → CommandValue)
        → Gives make result (formed tables.now (OfTable make) (words_behind words.now)) }
{
    let (name, rest) = next_word(Cause::Command, words)?;
    no_word(Cause::Command, rest)?;
    table_named(tables, name)
}

/// The table and the key that the two words name.
fn key_in(tables: &Declared, words: &[u8]) -> Result<(u32, i64), WordFault>
    requires { length tables.now < 2 ^ 32 }
    ensures { (make : ℕ → ℤ → CommandValue)
        → Gives (λ x. make x.0 x.1) result
        (formed tables.now (OfKey make) (words_behind words.now)) }
{
    let (name, rest) = next_word(Cause::Command, words)?;
    let (key_word, rest) = next_word(Cause::Command, rest)?;
    no_word(Cause::Command, rest)?;
    let table = table_named(tables, name)?;
    let key = key(key_word)?;
    Ok((table, key))
}

/// The table that the first word names, and the row of the others.
fn row_in(alloc: Global, tables: &Declared, words: &[u8]) -> Result<(u32, Row), WordFault>
    requires { length tables.now < 2 ^ 32 }
    ensures { (make : ℕ → List CellValue → CommandValue)
        → Gives (λ x. make x.0 x.1) result
        (formed tables.now (OfRow make) (words_behind words.now)) }
{
    let (name, rest) = next_word(Cause::Command, words)?;
    let (key_word, rest) = next_word(Cause::Command, rest)?;
    let table = table_named(tables, name)?;
    let columns = columns_at(tables, table);
    let read = keyed_row(alloc, key_word, further(columns), rest);
    if !are_as_many(columns, &read, rest) {
        return Err(WordFault::Bad(Cause::Command));
    }
    let (row, _) = read?;
    Ok((table, row))
}

/// The row of the key that the word spells and the words of the further columns, and what stands
/// behind them.
fn keyed_row<'a>(
    alloc: Global,
    key_word: &[u8],
    columns: &[Column],
    words: &'a [u8],
) -> Result<(Row, &'a [u8]), WordFault>
    ensures row { Gives (λ x. x.0) result
        (keyed_row columns.now key_word.now (words_behind words.now)) }
    ensures taken { IfOk result (λ x. length x.0 + length (words_behind x.1.now)
        ≡ length (words_behind words.now) + 1) }
{
    let key = key(key_word)?;
    row_of(alloc, Cell::Num(key as i128), columns, words)
}

/// Whether there is a word for each column but the first. A row that was read tells it, so that the
/// words are counted only where something is wrong.
fn are_as_many(columns: &[Column], read: &Result<(Row, &[u8]), WordFault>, words: &[u8]) -> bool
    requires { IfOk read.now (λ x. length x.0 + length (words_behind x.1.now)
        ≡ length (words_behind words.now) + 1) }
    ensures { result ≡ (length columns.now == length (words_behind words.now) + 1) }
{
    match read {
        Ok((row, [])) if row.len() == columns.len() => true,
        _ => columns.len() == word_count(words) + 1,
    }
}

/// The table and the block that the two words name.
fn block_in(tables: &Declared, words: &[u8]) -> Result<(u32, u32), WordFault>
    requires { length tables.now < 2 ^ 32 }
    ensures { (make : ℕ → ℕ → CommandValue)
        → Gives (λ x. make x.0 x.1) result
        (formed tables.now (OfBlock make) (words_behind words.now)) }
{
    let (name, rest) = next_word(Cause::Command, words)?;
    let (block_word, rest) = next_word(Cause::Command, rest)?;
    no_word(Cause::Command, rest)?;
    let table = table_named(tables, name)?;
    let blocks = blocks_at(tables, table) as u64;
    match natural(block_word) {
        Some(block) if block < blocks => Ok((table, block as u32)),
        _ => Err(WordFault::Bad(Cause::Block)),
    }
}

/// The place of the table of this name.
fn table_named(tables: &Declared, name: &[u8]) -> Result<u32, WordFault>
    requires { length tables.now < 2 ^ 32 }
    ensures { Gives (λ place. place) result (table_named tables.now name.now) }
{
    match tables.place(name) {
        Some(place) => Ok(place as u32),
        None => Err(WordFault::Bad(Cause::Unknown)),
    }
}

/// The place of the column of this name, which has numbers, and the column.
fn numbers_named<'a>(columns: &'a [Column], name: &[u8]) -> Result<(u32, &'a Column), WordFault>
    requires { length columns.now < 2 ^ 32 }
    ensures { Gives (λ x. (x.0, x.1.now.kind)) result (numbers_named columns.now name.now) }
{
    let Some(place) = column_named(columns, name) else {
        return Err(WordFault::Bad(Cause::Column));
    };
    match columns.get(place as usize) {
        Some(column) if has_numbers(column) => Ok((place, column)),
        _ => Err(WordFault::Bad(Cause::Column)),
    }
}

/// The place of the column of this name.
fn column_named(columns: &[Column], name: &[u8]) -> Option<u32>
    requires { length columns.now < 2 ^ 32 }
    ensures { result ≡ place_of_name name.now columns.now }
{
    match place_of_column(columns, name) {
        Some(place) => Some(place as u32),
        None => None,
    }
}

/// The place of the column of this name in the list.
fn place_of_column(columns: &[Column], name: &[u8]) -> Option<usize>
    ensures place { result ≡ place_of_name name.now columns.now }
    ensures below { IfSome result (λ place. place < length columns.now) }
{
    columns
        .iter()
        .position(|column| column.name.as_slice() == name)
}

/// Whether the values of the column are numbers.
fn has_numbers(column: &Column) -> bool
    ensures { result ≡ are_numbers (values_of column.now.kind) }
{
    match column.kind.values() {
        Values::Signed(_) | Values::Unsigned(_) => true,
        Values::Truths | Values::Texts(_) | Values::Blobs(_) | Values::Strips(_) => false,
    }
}

/// How many blocks the table at this place has.
fn blocks_at(tables: &Declared, table: u32) -> u32
    ensures { (block : ℕ) → is_block_of tables.now table block ≡ nat_lt block result }
{
    match tables.get(table) {
        Some(declared) => declared.blocks,
        None => 0,
    }
}

/// The columns of the table at this place.
fn columns_at(tables: &Declared, table: u32) -> &[Column]
    ensures columns { result.now ≡ schema_at tables.now table }
    ensures few { length result.now ≤ 32 }
{
    match tables.get(table) {
        Some(declared) => declared.schema.columns(),
        None => &[],
    }
}

/// The columns behind the first.
fn further(columns: &[Column]) -> &[Column]
    ensures { result.now ≡ drop 1 columns.now }
{
    match columns {
        [] => columns,
        [_, others @ ..] => others,
    }
}
