//! The workload that a seed generates.
ghost use Rattle.std.specs.Prelude.{◌≡◌, ◌+◌, ◌*◌, ◌-◌, ◌<◌, ◌++◌, IfOk, OnOk};
ghost use Rattle.bench_spec.specs.Generated.{draws_of_each, generated, rounds_at, writers};

use crate::draws::Draws;
use crate::keeping::{last_round, upkeep_round};
use crate::table::bench_table;
use crate::writing::{WRITERS, write_round};
use std::alloc::{AllocError, Global};
use workload_spec::{History, Round, Rounds, Script, Tables};

/// Upkeep stands behind each round whose number is a multiple of this.
const UPKEEP_ROUNDS: u32 = 16;

/// The workload that a seed generates, with so many rounds of writes.
///
/// # Errors
///
/// Where there is no memory for it.
pub fn generate(alloc: Global, seed: u64, size: u32) -> Result<Script, AllocError>
    ensures { IfOk result (λ script. script ≡ generated seed size) }
{
    let mut tables = Vec::new(alloc);
    tables.push(bench_table(alloc)?)?;
    let mut draws = Draws::of(seed);
    let mut rounds = Vec::new(alloc);
    for at in 0..size {
        put_rounds(alloc, &mut rounds, &mut draws, at + 1)?;
    }
    rounds.push(last_round(alloc)?)?;
    Ok(Script {
        version: 1,
        tables: Tables::from(tables),
        sessions: WRITERS,
        workers: 0,
        turns: 0,
        rounds: Rounds::from(rounds),
        begun: History::new(alloc),
    })
}

/// Puts the round of this number, counted from 1, behind `out`, and upkeep behind it where it has
/// some.
fn put_rounds(
    alloc: Global,
    out: &mut Vec<Round>,
    draws: &mut Draws,
    round: u32,
) -> Result<(), AllocError>
    requires round { 0 < round }
    requires made { draws.old.made ≡ draws_of_each * (writers * (round - 1)) }
    ensures rounds { OnOk result (out.new.items ≡ out.old.items ++ rounds_at draws.old.seed round) }
    ensures made { OnOk result (draws.new.made ≡ draws_of_each * (writers * round)) }
    ensures seed { draws.new.seed ≡ draws.old.seed }
{
    out.push(write_round(alloc, draws, round)?)?;
    if round % UPKEEP_ROUNDS == 0 {
        out.push(upkeep_round(alloc, round)?)?;
    }
    Ok(())
}
