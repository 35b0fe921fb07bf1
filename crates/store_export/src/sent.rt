//! What was sent so far.
ghost use Rattle.std.specs.Prelude.{◌≡◌, ◌+◌, ◌<◌, ◌^◌, cond, nat_lt};

/// How many rows were sent, in how many batches, and how many blocks were lent.
#[derive(Clone, Copy)]
pub struct Sent {
    pub rows: u64,
    pub batches: u32,
    pub frozen: u32,
}

impl Sent {
    /// What a block with so many rows sends.
    pub(crate) fn of_block(rows: usize, frozen: u32) -> Sent
        ensures { result
            ≡ record { rows = rows; batches = cond (nat_lt 0 rows) 1 0; frozen = frozen } }
    {
        Sent {
            rows: rows as u64,
            batches: u32::from(rows > 0),
            frozen,
        }
    }

    /// As much more was sent.
    pub(crate) fn add(&mut self, more: Sent)
        requires rows { self.old.rows + more.rows < 2 ^ 64 }
        requires batches { self.old.batches + more.batches < 2 ^ 32 }
        requires frozen { self.old.frozen + more.frozen < 2 ^ 32 }
        ensures rows { self.new.rows ≡ self.old.rows + more.rows }
        ensures batches { self.new.batches ≡ self.old.batches + more.batches }
        ensures frozen { self.new.frozen ≡ self.old.frozen + more.frozen }
    {
        self.rows += more.rows;
        self.batches += more.batches;
        self.frozen += more.frozen;
    }
}
