//! Where the line of each commit number stands.
ghost use Rattle.std.specs.Prelude.{◌≡◌, IfOk, None, OnOk, Some, option_and_then, if◌then◌else◌};
ghost use Rattle.std.specs.Prelude.{slice_get, ℕ};
ghost use Rattle.std.specs.BTreeMap.{get};
ghost use Rattle.std.specs.Option.{option_or};
ghost use Rattle.std.specs.Ordering.{nat_cmp};
ghost use Rattle.outcome_counts.specs.Keys.{is_keyed};
ghost use Rattle.outcome_spec.specs.Entries.{commit_in};
ghost use Rattle.outcome_spec.specs.Runs.{commit_line};
ghost use Rattle.output_read.specs.Kept.{entries_of, entry_of};

use output_read::{KeptReply, Told};
use std::alloc::{AllocError, Global};
use std::collections::BTreeMap;

/// The number that the reply shows as it commits writes.
fn number_told(reply: &KeptReply<'_>) -> Option<u64>
    ensures { result ≡ commit_in (entry_of reply.now).reply.said }
{
    match &reply.told {
        Told::Committed(number) => *number,
        _ => None,
    }
}

/// Notes where a number is shown, if it isn't noted yet.
fn note_line(
    lines: &mut BTreeMap<u64, usize>,
    number: Option<u64>,
    place: usize,
) -> Result<(), AllocError>
    ensures { OnOk result ((other : ℕ) → get nat_cmp lines.new other
        ≡ option_or (get nat_cmp lines.old other)
        (if is_keyed nat_cmp other number then Some place else None)) }
{
    let Some(number) = number else {
        return Ok(());
    };
    if lines.contains_key(&number) {
        return Ok(());
    }
    lines.insert(number, place)?;
    Ok(())
}

/// For each commit number where its line stands.
pub(crate) fn lines_of(
    alloc: Global,
    replies: &[KeptReply<'_>],
) -> Result<BTreeMap<u64, usize>, AllocError>
    ensures { IfOk result (λ lines. (number : ℕ)
        → option_and_then (slice_get (entries_of replies.now)) (get nat_cmp lines number)
        ≡ commit_line (entries_of replies.now) number) }
{
    let mut lines = BTreeMap::new(alloc);
    for (place, reply) in replies.iter().enumerate() {
        note_line(&mut lines, number_told(reply), place)?;
    }
    Ok(lines)
}
