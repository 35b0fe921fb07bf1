//! What transactions committed.
ghost use Rattle.std.specs.Prelude.{◌≡◌, []};

use crate::place::Place;
use cell_model::Row;
use std::alloc::Global;
use std::marker::Model;

/// What a transaction wrote: at each place, in the order of the places, the row that it left there,
/// or none where the row is gone.
#[derive(Debug, Drop)]
pub struct WriteSet {
    writes: Vec<(Place, Option<Row>)>,
}

impl Model for WriteSet {
    ghost use Rattle.std.specs.Coded.{coded_list, coded_option, coded×};
    ghost use Rattle.cell_model.specs.contracts.cell.Cell.{the_row as cell_row};
    ghost use Rattle.isolation_spec.specs.contracts.place.Place.{the_row as place_row};
    ghost use Rattle.isolation_spec.specs.Contents.{WriteSet as WriteSetValue};

    ghost Value = { WriteSetValue };

    ghost coded = { coded_list (coded× place_row.coded (coded_option (coded_list cell_row.coded))) };

    ghost view = { λ set. set.writes.items };
}

impl From<Vec<(Place, Option<Row>)>> for WriteSet {
    ghost use Rattle.std.specs.Prelude.{◌≡◌};

    ghost from_gives = { λ writes set. set ≡ writes.items };

    /// The vector as it is, without a copy.
    fn from(writes: Vec<(Place, Option<Row>)>) -> WriteSet {
        WriteSet { writes }
    }
}

impl WriteSet {
    /// Gives the vector of writes back.
    pub fn into_vec(self) -> Vec<(Place, Option<Row>)>
        ensures { result.items ≡ self }
    {
        let WriteSet { writes } = self;
        writes
    }

    /// The writes, lent.
    pub fn as_slice(&self) -> &[(Place, Option<Row>)]
        ensures { result.now ≡ self.now }
    {
        self.writes.as_slice()
    }
}

/// The write sets of the commits that wrote, the first commit first; commit number 1 is the first.
#[derive(Debug, Drop)]
pub struct History {
    commits: Vec<WriteSet>,
}

impl Model for History {
    ghost use Rattle.std.specs.Coded.{coded_list, coded_option, coded×};
    ghost use Rattle.cell_model.specs.contracts.cell.Cell.{the_row as cell_row};
    ghost use Rattle.isolation_spec.specs.contracts.place.Place.{the_row as place_row};
    ghost use Rattle.isolation_spec.specs.Contents.{History as HistoryValue};

    ghost Value = { HistoryValue };

    ghost coded = { coded_list
        (coded_list (coded× place_row.coded (coded_option (coded_list cell_row.coded)))) };

    ghost view = { λ history. history.commits.items };
}

impl From<Vec<WriteSet>> for History {
    ghost use Rattle.std.specs.Prelude.{◌≡◌};

    ghost from_gives = { λ commits history. history ≡ commits.items };

    /// The vector as it is, without a copy.
    fn from(commits: Vec<WriteSet>) -> History {
        History { commits }
    }
}

impl History {
    /// No commits, which takes no memory.
    pub fn new(alloc: Global) -> History
        ensures { result ≡ [] }
    {
        History {
            commits: Vec::new(alloc),
        }
    }

    /// Gives the vector of write sets back.
    pub fn into_vec(self) -> Vec<WriteSet>
        ensures { result.items ≡ self }
    {
        let History { commits } = self;
        commits
    }

    /// The write sets, lent.
    pub fn as_slice(&self) -> &[WriteSet]
        ensures { result.now ≡ self.now }
    {
        self.commits.as_slice()
    }
}
