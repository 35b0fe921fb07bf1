//! The script of a workload.
ghost use Rattle.std.specs.Prelude.{◌≡◌, length};

use crate::command::Command;
use cell_model::TableDecl;
use isolation_spec::History;
use std::marker::Model;

/// A workload: the tables, how many sessions and workers run, what each session asks in each round,
/// and the commits that its store begins with.
#[derive(Debug, Drop)]
pub struct Script {
    /// The version of the workload format: 1 or 2.
    pub version: u32,
    pub tables: Tables,
    pub sessions: u32,
    pub workers: u32,
    /// How many turns each worker makes in each round.
    pub turns: u32,
    pub rounds: Rounds,
    /// The commits that the store begins with: none in a workload as it is written.
    pub begun: History,
}

/// The declared tables, in order.
#[derive(Debug, Drop)]
pub struct Tables {
    tables: Vec<TableDecl>,
}

impl Model for Tables {
    ghost use Rattle.std.specs.Prelude.{List};
    ghost use Rattle.std.specs.Coded.{coded_list};
    ghost use Rattle.cell_model.specs.declared.table.TableDecl.{TableDecl as Declared};
    ghost use Rattle.cell_model.specs.contracts.table.TableDecl.{the_row};

    ghost Value = { List Declared };

    ghost coded = { coded_list the_row.coded };

    ghost view = { λ t. t.tables.items };
}

impl From<Vec<TableDecl>> for Tables {
    ghost use Rattle.std.specs.Prelude.{◌≡◌};

    ghost from_gives = { λ items t. t ≡ items.items };

    /// The vector as it is, without a copy.
    fn from(tables: Vec<TableDecl>) -> Tables {
        Tables { tables }
    }
}

impl Tables {
    /// Gives the vector back.
    pub fn into_vec(self) -> Vec<TableDecl>
        ensures { result.items ≡ self }
    {
        let Tables { tables } = self;
        tables
    }

    /// The tables, in order.
    pub fn as_slice(&self) -> &[TableDecl]
        ensures { result.now ≡ self.now }
    {
        self.tables.as_slice()
    }

    /// How many tables there are.
    pub fn len(&self) -> usize
        ensures { result ≡ length self.now }
    {
        self.tables.len()
    }
}

/// A line of a round: a session, counted from 1, and its command.
#[derive(Debug, Drop)]
pub struct Line {
    pub session: u32,
    pub command: Command,
}

/// The lines of a round, in order.
#[derive(Debug, Drop)]
pub struct Round {
    lines: Vec<Line>,
}

impl Model for Round {
    ghost use Rattle.std.specs.Prelude.{List};
    ghost use Rattle.std.specs.Coded.{coded_list};
    ghost use Rattle.workload_spec.specs.declared.script.Line.{Line as LineValue};
    ghost use Rattle.workload_spec.specs.contracts.script.Line.{the_row};

    ghost Value = { List LineValue };

    ghost coded = { coded_list the_row.coded };

    ghost view = { λ r. r.lines.items };
}

impl From<Vec<Line>> for Round {
    ghost use Rattle.std.specs.Prelude.{◌≡◌};

    ghost from_gives = { λ items t. t ≡ items.items };

    /// The vector as it is, without a copy.
    fn from(lines: Vec<Line>) -> Round {
        Round { lines }
    }
}

impl Round {
    /// Gives the vector back.
    pub fn into_vec(self) -> Vec<Line>
        ensures { result.items ≡ self }
    {
        let Round { lines } = self;
        lines
    }

    /// The lines of the round, in order.
    pub fn as_slice(&self) -> &[Line]
        ensures { result.now ≡ self.now }
    {
        self.lines.as_slice()
    }

    /// How many lines there are.
    pub fn len(&self) -> usize
        ensures { result ≡ length self.now }
    {
        self.lines.len()
    }
}

/// The rounds of a workload, in order.
#[derive(Debug, Drop)]
pub struct Rounds {
    rounds: Vec<Round>,
}

impl Model for Rounds {
    ghost use Rattle.std.specs.Prelude.{List};
    ghost use Rattle.std.specs.Coded.{coded_list};
    ghost use Rattle.workload_spec.specs.declared.script.Line.{Line as LineValue};
    ghost use Rattle.workload_spec.specs.contracts.script.Line.{the_row};

    ghost Value = { List (List LineValue) };

    ghost coded = { coded_list (coded_list the_row.coded) };

    ghost view = { λ r. r.rounds.items };
}

impl From<Vec<Round>> for Rounds {
    ghost use Rattle.std.specs.Prelude.{◌≡◌};

    ghost from_gives = { λ items t. t ≡ items.items };

    /// The vector as it is, without a copy.
    fn from(rounds: Vec<Round>) -> Rounds {
        Rounds { rounds }
    }
}

impl Rounds {
    /// Gives the vector back.
    pub fn into_vec(self) -> Vec<Round>
        ensures { result.items ≡ self }
    {
        let Rounds { rounds } = self;
        rounds
    }

    /// The rounds, in order.
    pub fn as_slice(&self) -> &[Round]
        ensures { result.now ≡ self.now }
    {
        self.rounds.as_slice()
    }

    /// How many rounds there are.
    pub fn len(&self) -> usize
        ensures { result ≡ length self.now }
    {
        self.rounds.len()
    }
}

/// Why a line is none of a workload: the first word or rule on it that fails.
#[derive(Clone, Copy, Debug, PartialEq, Eq)]
pub enum Cause {
    /// The first line is neither `store 1` nor `store 2`.
    Version,
    /// A table line is wanting, or there is one too many.
    Table,
    /// A table's or a column's name is none.
    Name,
    /// A table's or a column's name stands twice.
    Twice,
    /// The first column is not `key:i64`.
    Key,
    /// A column's kind is none.
    Kind,
    /// There are more than 32 columns.
    Columns,
    /// The slots of a block are out of their limits.
    Slots,
    /// The blocks of a table are out of their limits.
    Blocks,
    /// The sessions line is none.
    Sessions,
    /// The workers line is none.
    Workers,
    /// The line `go` is wanting.
    Go,
    /// A line of a round does not begin with a session.
    Session,
    /// A command is none, or has too many or too few words.
    Command,
    /// A command names no declared table.
    Unknown,
    /// A key is no number.
    Number,
    /// A cell does not fit its column.
    Cell,
    /// A command's block is none of its table.
    Block,
    /// A total's column is none of its table, or has no numbers.
    Column,
    /// A second export.
    Export,
    /// The last line does not end.
    Line,
    /// The line that parts a workload from its output is wanting.
    Parting,
}
