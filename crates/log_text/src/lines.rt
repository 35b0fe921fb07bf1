//! The lines of a log's commits, and that of the place where its bytes are none.
ghost use Rattle.std.specs.Prelude.{◌≡◌, ◌++◌, ◌∷◌, [], OnOk, flat_map};
ghost use Rattle.log_text.specs.Lines.{broken_lines, commit_line, commit_lines, log_text};
ghost use Rattle.log_text.specs.Lines.{write_words};
ghost use Rattle.word_text.specs.Words.{behind_spaces};
ghost use Rattle.workload_spec.specs.Words.{lines_text};

use cell_model::{Row, TableDecl};
use isolation_spec::{Place, WriteSet};
use std::alloc::AllocError;
use word_text::{put_cells, put_key, put_natural, put_number, put_table_name, put_word};

/// The words of a write, each behind a space.
fn put_write(
    out: &mut Vec<u8>,
    tables: &[TableDecl],
    write: &(Place, Option<Row>),
) -> Result<(), AllocError>
    ensures { OnOk result (out.new.items ≡ out.old.items
        ++ behind_spaces (write_words tables.now write.now)) }
{
    let (place, left) = write;
    put_word(out, b"|")?;
    match left {
        Some(row) => {
            put_word(out, b"put")?;
            put_table_name(out, tables, place.table)?;
            put_cells(out, row.as_slice())
        }
        None => {
            put_word(out, b"delete")?;
            put_table_name(out, tables, place.table)?;
            put_key(out, place.key)
        }
    }
}

/// The words of writes, each behind a space.
fn put_writes(
    out: &mut Vec<u8>,
    tables: &[TableDecl],
    writes: &[(Place, Option<Row>)],
) -> Result<(), AllocError>
    ensures { OnOk result (out.new.items ≡ out.old.items
        ++ behind_spaces (flat_map (write_words tables.now) writes.now)) }
{
    for write in writes {
        put_write(out, tables, write)?;
    }
    Ok(())
}

/// The line of a commit.
fn put_commit(
    out: &mut Vec<u8>,
    tables: &[TableDecl],
    number: u64,
    writes: &WriteSet,
) -> Result<(), AllocError>
    ensures { OnOk result (out.new.items ≡ out.old.items
        ++ (commit_line tables.now number writes.now ++ 10 ∷ [])) }
{
    put_natural(out, number)?;
    put_writes(out, tables, writes.as_slice())?;
    out.push(b'\n')?;
    Ok(())
}

/// The lines of commits, counted from 1.
fn put_commits(
    out: &mut Vec<u8>,
    tables: &[TableDecl],
    commits: &[WriteSet],
) -> Result<(), AllocError>
    ensures { OnOk result (out.new.items ≡ out.old.items
        ++ lines_text (commit_lines tables.now 1 commits.now)) }
{
    for (at, writes) in commits.iter().enumerate() {
        put_commit(out, tables, at as u64 + 1, writes)?;
    }
    Ok(())
}

/// The line of the place where the bytes leave the form of a log, if they do.
fn put_broken(out: &mut Vec<u8>, broken: Option<u64>) -> Result<(), AllocError>
    ensures { OnOk result (out.new.items ≡ out.old.items ++ lines_text (broken_lines broken)) }
{
    if let Some(place) = broken {
        out.extend_from_slice(b"not a log at")?;
        put_number(out, place)?;
        out.push(b'\n')?;
    }
    Ok(())
}

/// Puts the text of what was read of a log behind `out`: a line for each commit, and the place where
/// the bytes leave the form of a log, if they do.
pub fn put_log(
    out: &mut Vec<u8>,
    tables: &[TableDecl],
    commits: &[WriteSet],
    broken: Option<u64>,
) -> Result<(), AllocError>
    ensures { OnOk result (out.new.items ≡ out.old.items
        ++ log_text tables.now commits.now broken) }
{
    put_commits(out, tables, commits)?;
    put_broken(out, broken)
}
