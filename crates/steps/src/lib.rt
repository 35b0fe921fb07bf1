//! The count of rows that calls read from columns, which costs no bytes and no time.
#![tactic(auto)]

ghost use Rattle.std.specs.Prelude.{◌≡◌, ℕ, ◌+◌, ◌<◌};

use std::marker::Model;
use std::sync::ledger::{Blank, Book, Ledger, Share};

/// How many steps were taken: a step is one row read from columns. Contracts see the number.
#[derive(Drop)]
pub struct Steps<L: Ledger> {
    book: Book<L>,
    share: Share<L>,
}

impl<L: Ledger> Model for Steps<L> {
    ghost Value = { ℕ };

    ghost view = { λ steps. steps.book.total };

    ghost invariant = { λ steps. 0 < steps.share.parts };
}

impl<L: Ledger> Steps<L> {
    /// No step was taken.
    pub fn new(blank: Blank) -> Steps<L>
        requires name { blank.name ≡ L.name }
        requires parts { blank.parts ≡ L.parts }
        requires some { 0 < L.parts }
        ensures { result ≡ 0 }
    {
        let (book, share) = blank.open();
        Steps { book, share }
    }

    /// One step more.
    pub fn tick(&mut self)
        ensures { self.new ≡ self.old + 1 }
    {
        self.add(1);
    }

    /// So many steps more.
    pub fn add(&mut self, count: u32)
        ensures { self.new ≡ self.old + count }
    {
        self.book.add(&mut self.share, u64::from(count));
    }
}
