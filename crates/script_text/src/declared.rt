//! The tables that a workload has declared so far.
ghost use Rattle.std.specs.Prelude.{◌≡◌, ◌<◌, ◌∷◌, ◌++◌, [], false, length, position, bytes_eq};
ghost use Rattle.std.specs.Prelude.{slice_get, IfSome, IfOk};
ghost use Rattle.std.specs.Option.{option_copied};
ghost use Rattle.workload_spec.specs.Valid.{is_declared};

use cell_model::TableDecl;
use std::alloc::{AllocError, Global};
use std::marker::Model;
use workload_spec::Tables;

/// The declared tables, in order.
#[derive(Drop)]
pub struct Declared {
    tables: Vec<TableDecl>,
}

impl Model for Declared {
    ghost use Rattle.std.specs.Prelude.{List};
    ghost use Rattle.std.specs.Coded.{coded_list};
    ghost use Rattle.cell_model.specs.declared.table.TableDecl.{TableDecl as TableValue};
    ghost use Rattle.cell_model.specs.contracts.table.TableDecl.{the_row};

    ghost Value = { List TableValue };

    ghost coded = { coded_list the_row.coded };

    ghost view = { λ d. d.tables.items };
}

impl Declared {
    /// No tables.
    pub fn new(alloc: Global) -> Declared
        ensures { result ≡ [] }
    {
        Declared {
            tables: Vec::new(alloc),
        }
    }

    /// How many tables there are.
    pub fn len(&self) -> usize
        ensures { result ≡ length self.now }
    {
        self.tables.len()
    }

    /// The table at this place.
    pub fn get(&self, place: u32) -> Option<&TableDecl>
        ensures { option_copied result ≡ slice_get self.now place }
    {
        self.tables.get(place as usize)
    }

    /// The place of the table of this name.
    pub fn place(&self, name: &[u8]) -> Option<usize>
        ensures place { result ≡ position (λ table. bytes_eq table.name name.now) self.now }
        ensures below { IfSome result (λ place. place < length self.now) }
    {
        self.tables
            .iter()
            .position(|table| table.name.as_slice() == name)
    }

    /// Whether one of the tables has the name.
    pub fn contains(&self, name: &[u8]) -> bool
        ensures { result ≡ is_declared name.now self.now }
    {
        self.tables
            .iter()
            .any(|table| table.name.as_slice() == name)
    }

    /// The tables and one more.
    pub fn with(self, table: TableDecl) -> Result<Declared, AllocError>
        requires { is_declared table.name self ≡ false }
        ensures { IfOk result (λ more. more ≡ self ++ table ∷ []) }
    {
        let Declared { mut tables } = self;
        tables.push(table)?;
        Ok(Declared { tables })
    }

    /// The tables, in order.
    pub fn into_tables(self) -> Tables
        ensures { result ≡ self }
    {
        let Declared { tables } = self;
        Tables::from(tables)
    }
}
