//! How long a block was left unmodified, which decides whether it is cold.
ghost use Rattle.std.specs.Prelude.{◌≡◌, ℕ, ◌+◌, ◌≤◌, ◌↔◌, IsTrue, min};

use std::marker::Model;

/// A block is cold once it was left unmodified for as many rounds.
const ROUNDS_UNTIL_COLD: u8 = 2;

/// Counts the rounds since a block was last modified, up to the second and no further.
#[derive(Clone, Copy, PartialEq, Eq, Debug)]
pub struct Observer {
    rounds: u8,
}

impl Model for Observer {
    ghost Value = { ℕ };

    ghost view = { λ observer. observer.rounds };

    ghost invariant = { λ observer. observer.rounds ≤ 2 };

    ghost inverse = { λ rounds. record { rounds = rounds } };
}

impl Observer {
    /// Of a block that was just made.
    pub fn new() -> Observer
        ensures { result ≡ 0 }
    {
        Observer { rounds: 0 }
    }

    /// The block was modified.
    pub fn modified(&mut self)
        ensures { self.new ≡ 0 }
    {
        self.rounds = 0;
    }

    /// One more round. Answers whether the block is cold then.
    pub fn round(&mut self) -> bool
        ensures count { self.new ≡ min (self.old + 1) 2 }
        ensures cold { IsTrue result ↔ (self.new ≡ 2) }
    {
        if self.rounds < ROUNDS_UNTIL_COLD {
            self.rounds += 1;
        }
        self.rounds == ROUNDS_UNTIL_COLD
    }
}
