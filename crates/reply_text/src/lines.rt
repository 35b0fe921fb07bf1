//! Lines of replies.
ghost use Rattle.std.specs.Prelude.{◌≡◌, ◌++◌, ◌∷◌, [], map, OnOk, IfOk};
ghost use Rattle.workload_spec.specs.Words.{lines_text};
ghost use Rattle.workload_spec.specs.ReplyText.{row_line, lines_behind, who_text, reply_text};

use crate::said::put_said;
use cell_model::{Bytes, Row, TableDecl};
use std::alloc::{AllocError, Global};
use word_text::{put_cells, put_natural, put_number};
use workload_spec::{ReplyLine, Said, Who};

/// The text of a reply.
pub fn print_line(
    alloc: Global,
    line: &ReplyLine,
    tables: &[TableDecl],
) -> Result<Bytes, AllocError>
    ensures { IfOk result (λ text. text ≡ reply_text tables.now line.now) }
{
    let mut out = Vec::new(alloc);
    put_line(&mut out, tables, line)?;
    Ok(Bytes::from(out))
}

/// Puts the text of a reply behind `out`: its first line, and a scan's rows.
pub fn put_line(out: &mut Vec<u8>, tables: &[TableDecl], line: &ReplyLine) -> Result<(), AllocError>
    ensures { OnOk result (out.new.items ≡ out.old.items ++ reply_text tables.now line.now) }
{
    put_natural(out, line.round as u64)?;
    put_who(out, line.who)?;
    put_number(out, line.index)?;
    put_said(out, tables, &line.said)?;
    out.push(b'\n')?;
    put_lines_behind(out, &line.said)
}

/// Who is answered, behind a space.
fn put_who(out: &mut Vec<u8>, who: Who) -> Result<(), AllocError>
    ensures { OnOk result (out.new.items ≡ out.old.items ++ 32 ∷ who_text who) }
{
    match who {
        Who::Session(number) => put_number(out, number as u64),
        Who::Worker(number) => {
            out.extend_from_slice(b" w")?;
            put_natural(out, number as u64)
        }
    }
}

/// The lines behind a reply's first: a scan's rows, and none of another reply.
fn put_lines_behind(out: &mut Vec<u8>, said: &Said) -> Result<(), AllocError>
    ensures { OnOk result (out.new.items ≡ out.old.items ++ lines_text (lines_behind said.now)) }
{
    match said {
        Said::Scanned(rows) => put_rows(out, rows.as_slice()),
        _ => Ok(()),
    }
}

/// The lines of scanned rows.
fn put_rows(out: &mut Vec<u8>, rows: &[Row]) -> Result<(), AllocError>
    ensures { OnOk result (out.new.items ≡ out.old.items ++ lines_text (map row_line rows.now)) }
{
    for row in rows {
        put_row(out, row)?;
    }
    Ok(())
}

/// The line of a scanned row.
fn put_row(out: &mut Vec<u8>, row: &Row) -> Result<(), AllocError>
    ensures { OnOk result (out.new.items ≡ out.old.items ++ (row_line row.now ++ 10 ∷ [])) }
{
    out.push(b'|')?;
    put_cells(out, row.as_slice())?;
    out.push(b'\n')?;
    Ok(())
}
