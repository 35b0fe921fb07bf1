//! The rounds in which sessions write.
ghost use Rattle.std.specs.Prelude.{◌≡◌, ◌+◌, ◌*◌, ◌-◌, ◌<◌, ◌≤◌, ◌++◌, ◌∷◌, [], OnOk, IfOk};
ghost use Rattle.bench_spec.specs.Generated.{draws_of_each, key_of, line, transaction, write_round};
ghost use Rattle.bench_spec.specs.Generated.{writers};

use crate::draws::Draws;
use crate::rows::row_of;
use std::alloc::{AllocError, Global};
use workload_spec::{Command, Line, Round};

/// How many sessions write.
pub(crate) const WRITERS: u32 = 4;

/// The one table.
pub(crate) const TABLE: u32 = 0;

/// Puts a line of a session behind `out`.
pub(crate) fn put(out: &mut Vec<Line>, session: u32, command: Command) -> Result<(), AllocError>
    ensures { OnOk result (out.new.items ≡ out.old.items ++ line session command ∷ []) }
{
    out.push(Line { session, command })?;
    Ok(())
}

/// Puts a session's transaction in a round behind `out`: it inserts a row and updates one, of draws
/// that come next.
fn put_transaction(
    alloc: Global,
    out: &mut Vec<Line>,
    draws: &mut Draws,
    round: u32,
    session: u32,
) -> Result<(), AllocError>
    requires round { 0 < round }
    requires session { 0 < session }
    requires few { session ≤ writers }
    requires made { draws.old.made ≡ draws_of_each * (key_of round session - 1) }
    ensures lines { OnOk result (out.new.items ≡ out.old.items
        ++ transaction draws.old.seed round session) }
    ensures made { OnOk result (draws.new.made ≡ draws_of_each * key_of round session) }
    ensures seed { draws.new.seed ≡ draws.old.seed }
{
    let others = WRITERS as u64;
    let key = others * (round as u64 - 1) + session as u64;
    let (number, text) = (draws.draw(), draws.draw());
    let inserted = row_of(alloc, key, number, text)?;
    let key = others * (draws.draw() % round as u64) + session as u64;
    let (number, text) = (draws.draw(), draws.draw());
    let updated = row_of(alloc, key, number, text)?;
    put(out, session, Command::Begin { checked: false })?;
    put(
        out,
        session,
        Command::Insert {
            table: TABLE,
            row: inserted,
        },
    )?;
    put(
        out,
        session,
        Command::Update {
            table: TABLE,
            row: updated,
        },
    )?;
    put(out, session, Command::Commit)?;
    Ok(())
}

/// The round of this number, counted from 1, in which each session writes.
pub(crate) fn write_round(alloc: Global, draws: &mut Draws, round: u32) -> Result<Round, AllocError>
    requires round { 0 < round }
    requires made { draws.old.made ≡ draws_of_each * (writers * (round - 1)) }
    ensures lines { IfOk result (λ lines. lines ≡ write_round draws.old.seed round) }
    ensures made { OnOk result (draws.new.made ≡ draws_of_each * (writers * round)) }
    ensures seed { draws.new.seed ≡ draws.old.seed }
{
    let mut lines = Vec::new(alloc);
    for at in 0..WRITERS {
        put_transaction(alloc, &mut lines, draws, round, at + 1)?;
    }
    Ok(Round::from(lines))
}
