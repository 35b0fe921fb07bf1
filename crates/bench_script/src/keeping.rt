//! The rounds of upkeep, and the last round.
ghost use Rattle.std.specs.Prelude.{◌≡◌, ◌++◌, IfOk, OnOk};
ghost use Rattle.bench_spec.specs.Generated.{freezing, last_round, upkeep_round};

use crate::table::SLOTS;
use crate::writing::{TABLE, WRITERS, put};
use std::alloc::{AllocError, Global};
use workload_spec::{Command, Line, Round};

/// Upkeep and the last round are the first session's.
const KEEPER: u32 = 1;

/// The round of upkeep behind the round of this number, counted from 1.
pub(crate) fn upkeep_round(alloc: Global, round: u32) -> Result<Round, AllocError>
    ensures { IfOk result (λ lines. lines ≡ upkeep_round round) }
{
    let mut lines = Vec::new(alloc);
    put(&mut lines, KEEPER, Command::Prune)?;
    put(&mut lines, KEEPER, Command::Observe)?;
    put(&mut lines, KEEPER, Command::Observe)?;
    put(&mut lines, KEEPER, Command::Compact { table: TABLE })?;
    let filled = (WRITERS as u64 * round as u64 / SLOTS as u64) as u32;
    for block in 0..filled + 1 {
        put_freezing(&mut lines, block)?;
    }
    Ok(Round::from(lines))
}

/// Puts the sealing and the gathering of a block behind `out`.
fn put_freezing(out: &mut Vec<Line>, block: u32) -> Result<(), AllocError>
    ensures { OnOk result (out.new.items ≡ out.old.items ++ freezing block) }
{
    let seal = Command::Seal {
        table: TABLE,
        block,
    };
    put(out, KEEPER, seal)?;
    let gather = Command::Gather {
        table: TABLE,
        block,
    };
    put(out, KEEPER, gather)
}

/// The last round, which reads and exports the table.
pub(crate) fn last_round(alloc: Global) -> Result<Round, AllocError>
    ensures { IfOk result (λ lines. lines ≡ last_round) }
{
    let mut lines = Vec::new(alloc);
    put(&mut lines, KEEPER, Command::Begin { checked: false })?;
    put(&mut lines, KEEPER, Command::Scan { table: TABLE })?;
    put(&mut lines, KEEPER, Command::Export { table: TABLE })?;
    put(&mut lines, KEEPER, Command::Commit)?;
    Ok(Round::from(lines))
}
