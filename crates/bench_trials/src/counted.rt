//! The machine is fed a generated workload round by round, sessions ascending.
ghost use Rattle.std.specs.Prelude.{◌≡◌, IfSome};
ghost use Rattle.cell_model.specs.declared.kind.Kind.TheVariants as kind;
ghost use Rattle.cell_model.specs.Values.{is_integer_of};
ghost use Rattle.isolation_spec.specs.Contents.{key_of};
ghost use Rattle.si_machine.specs.Kept.{HasKey};

use bench_script::generate;
use cell_model::{Cell, Kind, Row};
use isolation_spec::{Act, Answer, Command as Request};
use si_machine::Machine;
use std::alloc::{AllocError, Global};
use std::test::Fail;
use workload_spec::{Command, Line};

/// A seed and a size, and what is counted of a run of that workload; `mainline bench` prints the
/// same.
struct Counted {
    seed: u64,
    size: u32,
    commits: u64,
    rows: usize,
    sum: i128,
}

const COUNTED: [Counted; 3] = [
    Counted {
        seed: 0,
        size: 1,
        commits: 4,
        rows: 4,
        sum: 441,
    },
    Counted {
        seed: u64::MAX,
        size: 2,
        commits: 8,
        rows: 8,
        sum: 174,
    },
    Counted {
        seed: 7,
        size: 64,
        commits: 256,
        rows: 256,
        sum: 13584,
    },
];

/// Whether the key of the row has 64 bits.
fn has_key(row: &Row) -> bool
    ensures { result ≡ is_integer_of kind.I64 (key_of row.now) }
{
    match row.get(0) {
        Some(Cell::Num(key)) => Kind::I64.holds_integer(*key),
        _ => Kind::I64.holds_integer(0),
    }
}

/// What the command asks of the machine; nothing where it is upkeep, or an export.
fn act_of(command: Command) -> Option<Act>
    ensures { IfSome result HasKey }
{
    match command {
        Command::Begin { checked } => Some(Act::Begin { checked }),
        Command::Scan { table } => Some(Act::Scan { table }),
        Command::Insert { table, row } => {
            if has_key(&row) {
                Some(Act::Insert { table, row })
            } else {
                None
            }
        }
        Command::Update { table, row } => {
            if has_key(&row) {
                Some(Act::Update { table, row })
            } else {
                None
            }
        }
        Command::Commit => Some(Act::Commit),
        Command::Total {
            low: _low,
            high: _high,
            ..
        } => None,
        _ => None,
    }
}

/// The number of a row, which stands behind its key.
fn number_of(row: &Row) -> i128 {
    match row.get(1) {
        Some(Cell::Num(number)) => *number,
        _ => 0,
    }
}

/// What the machine answered so far: how many commits have a number, how many rows the scan has,
/// and the sum of their numbers.
#[derive(Drop)]
struct Fed {
    commits: u64,
    rows: usize,
    sum: i128,
}

impl Fed {
    fn count(&mut self, answer: &Answer) {
        match answer {
            Answer::Committed(Some(_)) => self.commits = self.commits.saturating_add(1),
            Answer::Rows(rows) => {
                self.rows = rows.len();
                for row in rows.as_slice() {
                    self.sum = self.sum.saturating_add(number_of(row));
                }
            }
            _ => {}
        }
    }
}

fn feed(alloc: Global, seed: u64, size: u32) -> Result<Fed, AllocError> {
    let mut machine = Machine::new(alloc);
    let mut fed = Fed {
        commits: 0,
        rows: 0,
        sum: 0,
    };
    for round in generate(alloc, seed, size)?.rounds.into_vec() {
        for line in round.into_vec() {
            let Line { session, command } = line;
            if let Some(act) = act_of(command) {
                let answer = machine.step(Request { session, act })?;
                fed.count(&answer);
            }
        }
    }
    Ok(fed)
}

#[test]
fn the_machine_counts_the_same(rt: HostRuntime) -> Result<(), Fail> {
    for counted in &COUNTED {
        let fed = feed(rt.alloc(), counted.seed, counted.size)?;
        let (seed, size) = (counted.seed, counted.size);
        assert_eq!(rt; fed.commits, counted.commits, "{seed} {size}");
        assert_eq!(rt; fed.rows, counted.rows, "{seed} {size}");
        assert_eq!(rt; fed.sum, counted.sum, "{seed} {size}");
    }
    Ok(())
}
