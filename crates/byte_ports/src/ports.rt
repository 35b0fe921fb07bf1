//! The traits by which the program meets the outside: sources, sinks, outlets and gates, with what
//! contracts are told of each.
ghost use Rattle.std.specs.Prelude.{◌≡◌, ℕ, ◌<◌, ◌≤◌, List, Option, None, Some, IfOk, OnErr, OnOk};
ghost use Rattle.std.specs.Prelude.{length, is_some, codes};
ghost use Rattle.std.specs.Borrow.{GName};
ghost use Rattle.std.specs.Io.{ReadsAtMost, WritesAtMost};
ghost use Rattle.std.specs.Io.KnownBytes.{ReadConsumes, WriteAppends};
ghost use Rattle.byte_ports.specs.Calls.{Rose, TellsAlike, StartAdds};

use std::error::Error;
use std::fmt;
use std::sync::Wait;

/// A call of a source, a sink or an outlet failed. Its count of faults rose.
#[derive(Clone, Copy, Debug, PartialEq, Eq)]
pub struct Failed;

impl fmt::Display for Failed {
    ghost output = { λ _. Some (codes "reading or writing failed") };

    /// The line of a call that failed.
    fn fmt<W: fmt::Write>(&self, f: &mut fmt::Formatter<W>) -> fmt::Result {
        write!(f, "reading or writing failed")
    }
}

impl Error for Failed {}

/// Where bytes are read from.
pub trait Source {
    // The bytes that are left to read, where they are told.
    ghost left: { Self → Option (List ℕ) };

    // How many calls have failed so far, where a counter holds at its last value.
    ghost faults: { Self → ℕ };

    /// Reads the next bytes into the front of `buf`, and answers how many. 0 is the end of input.
    fn read(&mut self, buf: &mut [u8]) -> Result<usize, Failed>
        requires room { 0 < length buf.old }
        ensures bound { ReadsAtMost result buf.new }
        ensures bytes { ReadConsumes (left self.old) (left self.new) result buf.new }
        ensures told { TellsAlike (left self.old) (left self.new) }
        ensures counted { faults self.old ≤ faults self.new }
        ensures kept { OnOk result (faults self.new ≡ faults self.old) }
        ensures cause { OnErr result (Rose (faults self.old) (faults self.new)) };
}

/// Where bytes are written to.
pub trait Sink {
    // The bytes that were written so far, where they are told.
    ghost written: { Self → Option (List ℕ) };

    // The names that an outlet was started with, where they are told.
    ghost started: { Self → Option (List (List ℕ)) } = { λ _. None };

    // The loan of a sink that is itself a `&mut`. It stays, so that a lender learns what was
    // written by whatever held the `&mut`.
    ghost loan: { Self → Option GName } = { λ _. None };

    // The bytes that were written and flushed so far, where they are told.
    ghost flushed: { Self → Option (List ℕ) };

    // How many calls have failed so far, where a counter holds at its last value.
    ghost faults: { Self → ℕ };

    /// Writes bytes from the front of `piece`, and answers how many: at least one of a piece that
    /// has any.
    fn write(&mut self, piece: &[u8]) -> Result<usize, Failed>
        ensures bound { WritesAtMost result piece.now }
        ensures some { IfOk result (λ count. 0 < length piece.now → 0 < count) }
        ensures bytes { WriteAppends (written self.old) (written self.new) result piece.now }
        ensures told { TellsAlike (written self.old) (written self.new) }
        ensures started { started self.new ≡ started self.old }
        ensures loan { loan self.new ≡ loan self.old }
        ensures counted { faults self.old ≤ faults self.new }
        ensures kept { OnOk result (faults self.new ≡ faults self.old) }
        ensures cause { OnErr result (Rose (faults self.old) (faults self.new)) };

    /// Hands on what was written and is held back. What was written stays so, also where this
    /// fails.
    fn flush(&mut self) -> Result<(), Failed>
        ensures bytes { written self.new ≡ written self.old }
        ensures flushed { OnOk result (flushed self.new ≡ written self.new) }
        ensures started { started self.new ≡ started self.old }
        ensures loan { loan self.new ≡ loan self.old }
        ensures counted { faults self.old ≤ faults self.new }
        ensures kept { OnOk result (faults self.new ≡ faults self.old) }
        ensures cause { OnErr result (Rose (faults self.old) (faults self.new)) };
}

/// A sink that is started with a name, as a file is with its path.
pub trait Outlet: Sink {
    /// Starts the outlet at `name`. What is written from then on goes there.
    fn start(&mut self, name: &str) -> Result<(), Failed>
        ensures bytes { Self.written self.new ≡ Self.written self.old }
        ensures loan { Self.loan self.new ≡ Self.loan self.old }
        ensures adds { StartAdds (Self.started self.old) (Self.started self.new) result name.now }
        ensures counted { Self.faults self.old ≤ Self.faults self.new }
        ensures kept { OnOk result (Self.faults self.new ≡ Self.faults self.old) }
        ensures cause { OnErr result (Rose (Self.faults self.old) (Self.faults self.new)) };

    // The names are told exactly where the bytes are.
    ghost names_told: { (outlet : Self) → is_some (Self.started outlet)
        ≡ is_some (Self.written outlet) };
}

/// What is asked before each command of a session, and each turn of a worker.
pub trait Gate {
    /// Lets `session` go on to its command or turn `index`. It may wait.
    fn pass<R: Wait>(&self, rt: &R, session: u32, index: u32);
}

/// The gate that never waits.
#[derive(Clone, Copy, Debug, Default)]
pub struct OpenGate;

impl Gate for OpenGate {
    /// Goes on at once.
    fn pass<R: Wait>(&self, _rt: &R, _session: u32, _index: u32) {}
}
