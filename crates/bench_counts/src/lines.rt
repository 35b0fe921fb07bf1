//! The lines that tell what is counted.
ghost use Rattle.std.specs.Prelude.{◌≡◌, ◌++◌, ◌∷◌, [], codes, decimal, OnOk};
ghost use Rattle.std.specs.Fmt.{signed_decimal};
ghost use Rattle.workload_spec.specs.Words.{line_feed, spaced};
ghost use Rattle.bench_spec.specs.Counted.{counts_text};

use bench_spec::Counts;
use cell_model::Cell;
use std::alloc::AllocError;
use word_text::{put_cells, put_number};

/// Puts the lines that tell what is counted behind `out`.
pub fn put_counts(out: &mut Vec<u8>, counts: &Counts) -> Result<(), AllocError>
    ensures { OnOk result (out.new.items ≡ out.old.items ++ counts_text counts.now) }
{
    put_count(out, b"commits", counts.commits)?;
    put_count(out, b"rows", counts.rows)?;
    put_sum(out, counts.sum)?;
    put_count(out, b"exported", counts.exported)?;
    Ok(())
}

/// Puts a line of a word and a count behind `out`.
fn put_count(out: &mut Vec<u8>, word: &[u8], count: u64) -> Result<(), AllocError>
    ensures { OnOk result (out.new.items ≡ out.old.items
        ++ (spaced (word.now ∷ decimal count ∷ []) ++ line_feed ∷ [])) }
{
    out.extend_from_slice(word)?;
    put_number(out, count)?;
    out.push(b'\n')?;
    Ok(())
}

/// Puts the line of the sum behind `out`.
fn put_sum(out: &mut Vec<u8>, sum: i128) -> Result<(), AllocError>
    ensures { OnOk result (out.new.items ≡ out.old.items
        ++ (spaced (codes "sum" ∷ signed_decimal sum ∷ []) ++ line_feed ∷ [])) }
{
    out.extend_from_slice(b"sum")?;
    put_cells(out, &[Cell::Num(sum)])?;
    out.push(b'\n')?;
    Ok(())
}
