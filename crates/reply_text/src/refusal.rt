//! The refusal of what is no workload.
ghost use Rattle.std.specs.Prelude.{◌≡◌, ◌++◌, OnOk};
ghost use Rattle.workload_spec.specs.Grammar.{cause_word, refused_text};

use std::alloc::AllocError;
use word_text::put_number;
use workload_spec::Cause;

/// Puts the line of a refusal behind `out`: `refused`, the first line that is none of a workload,
/// counted from 1, and why.
pub fn put_refusal(out: &mut Vec<u8>, line: u64, cause: Cause) -> Result<(), AllocError>
    ensures { OnOk result (out.new.items ≡ out.old.items
        ++ refused_text (record { line = line; cause = cause })) }
{
    out.extend_from_slice(b"refused")?;
    put_number(out, line)?;
    out.push(b' ')?;
    out.extend_from_slice(cause_word(cause))?;
    out.push(b'\n')?;
    Ok(())
}

/// The name of a cause.
fn cause_word(cause: Cause) -> &'static [u8]
    ensures { result.now ≡ cause_word cause }
{
    match cause {
        Cause::Version => b"version",
        Cause::Table => b"table",
        Cause::Name => b"name",
        Cause::Twice => b"twice",
        Cause::Key => b"key",
        Cause::Kind => b"kind",
        Cause::Columns => b"columns",
        Cause::Slots => b"slots",
        Cause::Blocks => b"blocks",
        Cause::Sessions => b"sessions",
        Cause::Workers => b"workers",
        Cause::Go => b"go",
        Cause::Session => b"session",
        Cause::Command => b"command",
        Cause::Unknown => b"unknown",
        Cause::Number => b"number",
        Cause::Cell => b"cell",
        Cause::Block => b"block",
        Cause::Column => b"column",
        Cause::Export => b"export",
        Cause::Line => b"line",
        Cause::Parting => b"parting",
    }
}
