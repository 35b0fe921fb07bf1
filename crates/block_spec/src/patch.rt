//! The attributes of a row that an update changes.
ghost use Rattle.std.specs.Prelude.{◌≡◌, length};

use cell_model::Cell;
use std::marker::Model;

/// A column's new cell.
#[derive(Debug, Drop)]
pub struct Assignment {
    /// The column, counted from 0.
    pub column: u32,
    pub cell: Cell,
}

/// Assignments, of which a patch has one a column that it changes.
#[derive(Debug, Drop)]
pub struct Patch {
    assignments: Vec<Assignment>,
}

impl Model for Patch {
    ghost use Rattle.std.specs.Prelude.{List};
    ghost use Rattle.std.specs.Coded.{coded_list};
    ghost use Rattle.block_spec.specs.declared.patch.Assignment.{Assignment as AssignmentValue};
    ghost use Rattle.block_spec.specs.contracts.patch.Assignment.{the_row};

    ghost Value = { List AssignmentValue };

    ghost coded = { coded_list the_row.coded };

    ghost view = { λ p. p.assignments.items };
}

impl From<Vec<Assignment>> for Patch {
    ghost use Rattle.std.specs.Prelude.{◌≡◌};

    ghost from_gives = { λ assignments p. p ≡ assignments.items };

    /// The vector as it is, without a copy.
    fn from(assignments: Vec<Assignment>) -> Patch {
        Patch { assignments }
    }
}

impl Patch {
    /// Gives the vector of assignments back.
    pub fn into_vec(self) -> Vec<Assignment>
        ensures { result.items ≡ self }
    {
        let Patch { assignments } = self;
        assignments
    }

    /// The assignments, lent.
    pub fn as_slice(&self) -> &[Assignment]
        ensures { result.now ≡ self.now }
    {
        self.assignments.as_slice()
    }

    /// How many assignments there are.
    pub fn len(&self) -> usize
        ensures { result ≡ length self.now }
    {
        self.assignments.len()
    }
}
