//! The text of a script.
ghost use Rattle.std.specs.Prelude.{◌≡◌, ◌++◌, ◌∷◌, [], codes, decimal, map, OnOk, IfOk};
ghost use Rattle.std.specs.Fmt.{signed_decimal};
ghost use Rattle.workload_spec.specs.declared.command.Command.TheVariants as command;
ghost use Rattle.workload_spec.specs.Words.{cell_words, spaced, lines_text};
ghost use Rattle.workload_spec.specs.ScriptText.{column_text, table_text, name_of_table};
ghost use Rattle.workload_spec.specs.ScriptText.{name_of_column};
ghost use Rattle.workload_spec.specs.ScriptText.{command_words, line_text, round_lines};
ghost use Rattle.workload_spec.specs.ScriptText.{script_text};
ghost use Rattle.script_text.specs.Rounds.{rounds_behind};
ghost use Rattle.word_text.specs.Words.{behind_spaces};

use cell_model::{Bytes, Column, Row, TableDecl};
use std::alloc::{AllocError, Global};
use word_text::{
    put_cells, put_column_name, put_key, put_kind, put_natural, put_number, put_signed,
    put_table_name, put_word,
};
use workload_spec::{Command, Line, Round, Script};

/// The words of a command on a table.
fn put_of_table(
    out: &mut Vec<u8>,
    command: &[u8],
    tables: &[TableDecl],
    table: u32,
) -> Result<(), AllocError>
    ensures { OnOk result (out.new.items ≡ out.old.items
        ++ behind_spaces (command.now ∷ name_of_table tables.now table ∷ [])) }
{
    put_word(out, command)?;
    put_table_name(out, tables, table)
}

/// The words of a command on a key of a table.
fn put_of_key(
    out: &mut Vec<u8>,
    command: &[u8],
    tables: &[TableDecl],
    table: u32,
    key: i64,
) -> Result<(), AllocError>
    ensures { OnOk result (out.new.items ≡ out.old.items
        ++ behind_spaces (command.now ∷ name_of_table tables.now table ∷ signed_decimal key ∷ [])) }
{
    put_word(out, command)?;
    put_table_name(out, tables, table)?;
    put_key(out, key)
}

/// The words of a command on a row of a table.
fn put_of_row(
    out: &mut Vec<u8>,
    command: &[u8],
    tables: &[TableDecl],
    table: u32,
    row: &Row,
) -> Result<(), AllocError>
    ensures { OnOk result (out.new.items ≡ out.old.items
        ++ behind_spaces (command.now ∷ name_of_table tables.now table ∷ cell_words row.now)) }
{
    put_word(out, command)?;
    put_table_name(out, tables, table)?;
    put_cells(out, row.as_slice())
}

/// The words of a command on a block of a table.
fn put_of_block(
    out: &mut Vec<u8>,
    command: &[u8],
    tables: &[TableDecl],
    table: u32,
    block: u32,
) -> Result<(), AllocError>
    ensures { OnOk result (out.new.items ≡ out.old.items
        ++ behind_spaces (command.now ∷ name_of_table tables.now table ∷ decimal block ∷ [])) }
{
    put_word(out, command)?;
    put_table_name(out, tables, table)?;
    put_number(out, block as u64)
}

/// The words of a begin.
fn put_begin(out: &mut Vec<u8>, checked: bool) -> Result<(), AllocError>
    ensures { OnOk result (out.new.items ≡ out.old.items
        ++ behind_spaces (command_words [] (command.Begin checked))) }
{
    put_word(out, b"begin")?;
    if checked {
        put_word(out, b"checked")?;
    }
    Ok(())
}

/// The words of a range.
fn put_range(
    out: &mut Vec<u8>,
    tables: &[TableDecl],
    table: u32,
    low: i64,
    high: i64,
) -> Result<(), AllocError>
    ensures { OnOk result (out.new.items ≡ out.old.items ++ behind_spaces (codes "range"
        ∷ name_of_table tables.now table ∷ signed_decimal low ∷ signed_decimal high ∷ [])) }
{
    put_of_key(out, b"range", tables, table, low)?;
    put_key(out, high)
}

/// The words of a total.
fn put_total(
    out: &mut Vec<u8>,
    tables: &[TableDecl],
    table: u32,
    column: u32,
    low: i128,
    high: i128,
) -> Result<(), AllocError>
    ensures { OnOk result (out.new.items ≡ out.old.items ++ behind_spaces (codes "total"
        ∷ name_of_table tables.now table ∷ name_of_column tables.now table column
        ∷ signed_decimal low ∷ signed_decimal high ∷ [])) }
{
    put_of_table(out, b"total", tables, table)?;
    put_column_name(out, tables, table, column)?;
    put_signed(out, low)?;
    put_signed(out, high)
}

/// The words of a command, each behind a space.
fn put_command(out: &mut Vec<u8>, tables: &[TableDecl], command: &Command) -> Result<(), AllocError>
    ensures { OnOk result (out.new.items ≡ out.old.items
        ++ behind_spaces (command_words tables.now command.now)) }
{
    match command {
        Command::Begin { checked } => put_begin(out, *checked),
        Command::Get { table, key } => put_of_key(out, b"get", tables, *table, *key),
        Command::Scan { table } => put_of_table(out, b"scan", tables, *table),
        Command::Range { table, low, high } => put_range(out, tables, *table, *low, *high),
        Command::Total {
            table,
            column,
            low,
            high,
        } => put_total(out, tables, *table, *column, low.get(), high.get()),
        Command::Insert { table, row } => put_of_row(out, b"insert", tables, *table, row),
        Command::Update { table, row } => put_of_row(out, b"update", tables, *table, row),
        Command::Delete { table, key } => put_of_key(out, b"delete", tables, *table, *key),
        Command::Commit => put_word(out, b"commit"),
        Command::Abort => put_word(out, b"abort"),
        Command::Observe => put_word(out, b"observe"),
        Command::Prune => put_word(out, b"prune"),
        Command::Compact { table } => put_of_table(out, b"compact", tables, *table),
        Command::Seal { table, block } => put_of_block(out, b"seal", tables, *table, *block),
        Command::Gather { table, block } => put_of_block(out, b"gather", tables, *table, *block),
        Command::Export { table } => put_of_table(out, b"export", tables, *table),
    }
}

/// The line of a session's command.
fn put_line(out: &mut Vec<u8>, tables: &[TableDecl], line: &Line) -> Result<(), AllocError>
    ensures { OnOk result (out.new.items ≡ out.old.items
        ++ (line_text tables.now line.now ++ 10 ∷ [])) }
{
    put_natural(out, line.session as u64)?;
    put_command(out, tables, &line.command)?;
    out.push(b'\n')?;
    Ok(())
}

/// The lines of a round's commands.
fn put_lines(out: &mut Vec<u8>, tables: &[TableDecl], lines: &[Line]) -> Result<(), AllocError>
    ensures { OnOk result (out.new.items ≡ out.old.items
        ++ lines_text (map (line_text tables.now) lines.now)) }
{
    for line in lines {
        put_line(out, tables, line)?;
    }
    Ok(())
}

/// The lines of rounds, a line `--` between each two.
fn put_rounds(out: &mut Vec<u8>, tables: &[TableDecl], rounds: &[Round]) -> Result<(), AllocError>
    ensures { OnOk result (out.new.items ≡ out.old.items
        ++ lines_text (round_lines tables.now rounds.now)) }
{
    match rounds {
        [] => Ok(()),
        [first, others @ ..] => {
            put_lines(out, tables, first.as_slice())?;
            put_further_rounds(out, tables, others)
        }
    }
}

/// The lines of rounds, each behind a line `--`.
fn put_further_rounds(
    out: &mut Vec<u8>,
    tables: &[TableDecl],
    rounds: &[Round],
) -> Result<(), AllocError>
    ensures { OnOk result (out.new.items ≡ out.old.items ++ rounds_behind tables.now rounds.now) }
{
    for round in rounds {
        out.extend_from_slice(b"--\n")?;
        put_lines(out, tables, round.as_slice())?;
    }
    Ok(())
}

/// A column as a word: its name, a colon and its kind.
fn put_column(out: &mut Vec<u8>, column: &Column) -> Result<(), AllocError>
    ensures { OnOk result (out.new.items ≡ out.old.items ++ column_text column.now) }
{
    out.extend_from_slice(column.name.as_slice())?;
    out.push(b':')?;
    put_kind(out, column.kind)?;
    if column.nullable {
        out.push(b'?')?;
    }
    Ok(())
}

/// The columns, each behind a space.
fn put_columns(out: &mut Vec<u8>, columns: &[Column]) -> Result<(), AllocError>
    ensures { OnOk result (out.new.items ≡ out.old.items
        ++ behind_spaces (map column_text columns.now)) }
{
    for column in columns {
        out.push(b' ')?;
        put_column(out, column)?;
    }
    Ok(())
}

/// The line of a table.
fn put_table(out: &mut Vec<u8>, table: &TableDecl) -> Result<(), AllocError>
    ensures { OnOk result (out.new.items ≡ out.old.items ++ (table_text table.now ++ 10 ∷ [])) }
{
    out.extend_from_slice(b"table")?;
    put_word(out, table.name.as_slice())?;
    put_columns(out, table.schema.columns())?;
    put_limits(out, table.slots, table.blocks)?;
    out.push(b'\n')?;
    Ok(())
}

/// The words that bound a table: the slots of a block, and its blocks.
fn put_limits(out: &mut Vec<u8>, slots: u32, blocks: u32) -> Result<(), AllocError>
    ensures { OnOk result (out.new.items ≡ out.old.items
        ++ behind_spaces (codes "slots" ∷ decimal slots ∷ codes "blocks" ∷ decimal blocks ∷ [])) }
{
    put_word(out, b"slots")?;
    put_number(out, slots as u64)?;
    put_word(out, b"blocks")?;
    put_number(out, blocks as u64)
}

/// The lines of the tables.
fn put_tables(out: &mut Vec<u8>, tables: &[TableDecl]) -> Result<(), AllocError>
    ensures { OnOk result (out.new.items ≡ out.old.items
        ++ lines_text (map table_text tables.now)) }
{
    for table in tables {
        put_table(out, table)?;
    }
    Ok(())
}

/// A line of a word and a number.
fn put_count(out: &mut Vec<u8>, word: &[u8], count: u32) -> Result<(), AllocError>
    ensures { OnOk result (out.new.items ≡ out.old.items
        ++ (spaced (word.now ∷ decimal count ∷ []) ++ 10 ∷ [])) }
{
    out.extend_from_slice(word)?;
    put_number(out, count as u64)?;
    out.push(b'\n')?;
    Ok(())
}

/// The line of the workers, with the turns of each in a round.
fn put_workers(out: &mut Vec<u8>, workers: u32, turns: u32) -> Result<(), AllocError>
    ensures { OnOk result (out.new.items ≡ out.old.items
        ++ (spaced (codes "workers" ∷ decimal workers ∷ decimal turns ∷ []) ++ 10 ∷ [])) }
{
    out.extend_from_slice(b"workers")?;
    put_number(out, workers as u64)?;
    put_number(out, turns as u64)?;
    out.push(b'\n')?;
    Ok(())
}

/// The text of a script.
pub fn print(alloc: Global, script: &Script) -> Result<Bytes, AllocError>
    ensures { IfOk result (λ b. b ≡ script_text script.now) }
{
    let mut out = Vec::new(alloc);
    let tables = script.tables.as_slice();
    put_count(&mut out, b"store", script.version)?;
    put_tables(&mut out, tables)?;
    put_count(&mut out, b"sessions", script.sessions)?;
    put_workers(&mut out, script.workers, script.turns)?;
    out.extend_from_slice(b"go\n")?;
    put_rounds(&mut out, tables, script.rounds.as_slice())?;
    Ok(Bytes::from(out))
}
