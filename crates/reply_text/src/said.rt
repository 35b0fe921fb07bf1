//! The words of replies, each behind a space.
ghost use Rattle.std.specs.Prelude.{◌≡◌, ◌++◌, ◌∷◌, [], true, codes, decimal, OnOk};
ghost use Rattle.std.specs.Fmt.{signed_decimal};
ghost use Rattle.workload_spec.specs.Words.{cell_words};
ghost use Rattle.workload_spec.specs.ScriptText.{name_of_table};
ghost use Rattle.workload_spec.specs.ReplyText.{said_words, stale_words, cause_text};
ghost use Rattle.word_text.specs.Words.{behind_spaces};
ghost use Rattle.reply_text.specs.Upkeep.{is_upkeep};

use cell_model::{Row, TableDecl};
use std::alloc::AllocError;
use word_text::{put_cells, put_key, put_natural, put_number, put_signed, put_table_name};
use workload_spec::{Said, SealCause, StaleRead};

/// The words of a reply; those of a scan are its first line's.
pub fn put_said(out: &mut Vec<u8>, tables: &[TableDecl], said: &Said) -> Result<(), AllocError>
    ensures { OnOk result (out.new.items ≡ out.old.items
        ++ behind_spaces (said_words tables.now said.now)) }
{
    match said {
        Said::At(number) => put_with_number(out, b" at ", *number),
        Said::InTransaction => out.extend_from_slice(b" in transaction"),
        Said::NoTransaction => out.extend_from_slice(b" no transaction"),
        Said::Found(row) => put_found(out, row),
        Said::Absent => out.extend_from_slice(b" none"),
        Said::Scanned(rows) => put_with_number(out, b" rows ", rows.len() as u64),
        Said::Totalled { count, sum } => put_totalled(out, *count, *sum),
        Said::Accepted => out.extend_from_slice(b" ok"),
        Said::ConflictSession(session) => put_with_number(
            out,
            b" conflict session ",
            *session as u64,
        ),
        Said::ConflictCommit(number) => put_with_number(out, b" conflict #", *number),
        Said::Exists => out.extend_from_slice(b" exists"),
        Said::Missing => out.extend_from_slice(b" missing"),
        Said::Full => out.extend_from_slice(b" full"),
        Said::Freezing {
            table,
            block,
            stamp,
        } => put_block(out, b" freezing", tables, *table, *block, *stamp),
        Said::Committed(None) => out.extend_from_slice(b" committed -"),
        Said::Committed(Some(number)) => put_with_number(out, b" committed ", *number),
        Said::Stale { read, number } => put_stale(out, tables, *read, *number),
        Said::Aborted => out.extend_from_slice(b" aborted"),
        Said::Exported {
            number,
            rows,
            batches,
            frozen,
        } => put_exported(out, *number, *rows, *batches, *frozen),
        Said::Dirty(key) => put_dirty(out, *key),
        Said::Memory => out.extend_from_slice(b" memory"),
        _ => put_upkeep(out, tables, said),
    }
}

/// The words of a reply to upkeep.
fn put_upkeep(out: &mut Vec<u8>, tables: &[TableDecl], said: &Said) -> Result<(), AllocError>
    requires { is_upkeep said.now ≡ true }
    ensures { OnOk result (out.new.items ≡ out.old.items
        ++ behind_spaces (said_words tables.now said.now)) }
{
    match said {
        Said::Cooling(count) => put_with_number(out, b" cooling ", *count),
        Said::Pruned(count) => put_with_number(out, b" pruned ", *count),
        Said::Moved(count) => put_with_number(out, b" moved ", *count),
        Said::Sealed {
            table,
            block,
            stamp,
        } => put_block(out, b" sealed", tables, *table, *block, *stamp),
        Said::NotSealed(cause) => put_with_word(out, b" not sealed ", cause_text(*cause)),
        Said::Frozen { table, block, rows } => put_block(
            out, b" frozen", tables, *table, *block, *rows,
        ),
        Said::NotFrozen => out.extend_from_slice(b" not frozen"),
        _ => Ok(()), // no other reply is one to upkeep
    }
}

/// Text and a number behind it.
fn put_with_number(out: &mut Vec<u8>, text: &[u8], number: u64) -> Result<(), AllocError>
    ensures { OnOk result (out.new.items ≡ out.old.items ++ (text.now ++ decimal number)) }
{
    out.extend_from_slice(text)?;
    put_natural(out, number)
}

/// The words that tell a row that was found.
fn put_found(out: &mut Vec<u8>, row: &Row) -> Result<(), AllocError>
    ensures { OnOk result (out.new.items ≡ out.old.items
        ++ (codes " row" ++ behind_spaces (cell_words row.now))) }
{
    out.extend_from_slice(b" row")?;
    put_cells(out, row.as_slice())
}

/// The words that tell that the transaction wrote the table to be exported, and the least key.
fn put_dirty(out: &mut Vec<u8>, key: i64) -> Result<(), AllocError>
    ensures { OnOk result (out.new.items ≡ out.old.items
        ++ (codes " dirty " ++ signed_decimal key)) }
{
    out.extend_from_slice(b" dirty")?;
    put_key(out, key)
}

/// Words, which begin with their space, and behind them a table's name, a block, and the block's
/// stamp or rows.
fn put_block(
    out: &mut Vec<u8>,
    words: &[u8],
    tables: &[TableDecl],
    table: u32,
    block: u32,
    number: u32,
) -> Result<(), AllocError>
    ensures { OnOk result (out.new.items ≡ out.old.items
        ++ (words.now ++ behind_spaces
        (name_of_table tables.now table ∷ decimal block ∷ decimal number ∷ []))) }
{
    out.extend_from_slice(words)?;
    put_table_name(out, tables, table)?;
    put_number(out, block as u64)?;
    put_number(out, number as u64)
}

/// The words that tell the numbers of an export.
fn put_exported(
    out: &mut Vec<u8>,
    number: u64,
    rows: u64,
    batches: u32,
    frozen: u32,
) -> Result<(), AllocError>
    ensures { OnOk result (out.new.items ≡ out.old.items
        ++ behind_spaces (codes "export" ∷ decimal number ∷ codes "rows" ∷ decimal rows ∷ codes
        "batches" ∷ decimal batches ∷ codes "frozen" ∷ decimal frozen ∷ [])) }
{
    put_with_number(out, b" export ", number)?;
    put_with_number(out, b" rows ", rows)?;
    put_with_number(out, b" batches ", batches as u64)?;
    put_with_number(out, b" frozen ", frozen as u64)
}

/// The words of a total: how many numbers, and their sum.
fn put_totalled(out: &mut Vec<u8>, count: u64, sum: i128) -> Result<(), AllocError>
    ensures { OnOk result (out.new.items ≡ out.old.items
        ++ behind_spaces (codes "total" ∷ decimal count ∷ signed_decimal sum ∷ [])) }
{
    put_with_number(out, b" total ", count)?;
    put_signed(out, sum)
}

/// The words of a commit over a stale read: the read, and the last commit that wrote it.
fn put_stale(
    out: &mut Vec<u8>,
    tables: &[TableDecl],
    read: StaleRead,
    number: u64,
) -> Result<(), AllocError>
    ensures { OnOk result (out.new.items ≡ out.old.items ++ (codes " stale"
        ++ (behind_spaces (stale_words tables.now read) ++ (codes " #" ++ decimal number)))) }
{
    out.extend_from_slice(b" stale")?;
    put_stale_read(out, tables, read)?;
    put_with_number(out, b" #", number)
}

/// The words of a read that a later commit wrote.
fn put_stale_read(
    out: &mut Vec<u8>,
    tables: &[TableDecl],
    read: StaleRead,
) -> Result<(), AllocError>
    ensures { OnOk result (out.new.items ≡ out.old.items
        ++ behind_spaces (stale_words tables.now read)) }
{
    match read {
        StaleRead::Key { table, key } => {
            put_table_name(out, tables, table)?;
            put_key(out, key)
        }
        StaleRead::Table { table } => {
            out.extend_from_slice(b" table")?;
            put_table_name(out, tables, table)
        }
        StaleRead::Range { table, low, high } => {
            out.extend_from_slice(b" range")?;
            put_table_name(out, tables, table)?;
            put_key(out, low)?;
            put_key(out, high)
        }
    }
}

/// Text and a word behind it.
fn put_with_word(out: &mut Vec<u8>, text: &[u8], word: &[u8]) -> Result<(), AllocError>
    ensures { OnOk result (out.new.items ≡ out.old.items ++ (text.now ++ word.now)) }
{
    out.extend_from_slice(text)?;
    out.extend_from_slice(word)
}

/// The word of why a block was not sealed.
fn cause_text(cause: SealCause) -> &'static [u8]
    ensures { result.now ≡ cause_text cause }
{
    match cause {
        SealCause::Phase => b"phase",
        SealCause::Head => b"head",
        SealCause::Empty => b"empty",
        SealCause::Gaps => b"gaps",
        SealCause::Versions => b"versions",
        SealCause::Hot => b"hot",
        SealCause::Last => b"last",
    }
}
