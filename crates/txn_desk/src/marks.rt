//! Marks of tables.
ghost use Rattle.std.specs.Prelude.{◌≡◌, ◌<◌, []};
ghost use Rattle.std.specs.BTreeSet.{insert_key};
ghost use Rattle.std.specs.Ordering.{nat_cmp};
ghost use Rattle.txn_desk.specs.Marks.{is_marked, marked_tables};

/// Marks of tables, which are counted from 0 up to 15. Contracts see the marked tables, in order.
#[derive(Clone, Copy, Debug)]
pub struct TableMarks {
    marks: [bool; 16],
}

impl TableMarks {
    /// No table is marked.
    pub fn none() -> TableMarks
        ensures { marked_tables result ≡ [] }
    {
        TableMarks { marks: [false; 16] }
    }

    /// Marks a table.
    pub fn mark(&mut self, table: u32)
        requires { table < 16 }
        ensures { marked_tables self.new ≡ insert_key nat_cmp (marked_tables self.old) table }
    {
        self.marks[table as usize] = true;
    }

    /// Whether a table is marked.
    pub fn has(&self, table: u32) -> bool
        requires { table < 16 }
        ensures { result ≡ is_marked self.now table }
    {
        self.marks[table as usize]
    }
}
