//! A lent source, sink or outlet is one too, so that a caller keeps it and learns what was done.
ghost use Rattle.std.specs.Prelude.{Some};

use crate::{Failed, Outlet, Sink, Source};

impl<S: Source> Source for &mut S {
    ghost left = { λ s. S.left s.now };

    ghost faults = { λ s. S.faults s.now };

    /// Reads from the source that is lent.
    fn read(&mut self, buf: &mut [u8]) -> Result<usize, Failed> {
        Source::read(&mut **self, buf)
    }
}

impl<S: Sink> Sink for &mut S {
    ghost written = { λ s. S.written s.now };

    ghost started = { λ s. S.started s.now };

    ghost loan = { λ s. Some s.ghost_name };

    ghost flushed = { λ s. S.flushed s.now };

    ghost faults = { λ s. S.faults s.now };

    /// Writes to the sink that is lent.
    fn write(&mut self, piece: &[u8]) -> Result<usize, Failed> {
        Sink::write(&mut **self, piece)
    }

    /// Flushes the sink that is lent.
    fn flush(&mut self) -> Result<(), Failed> {
        Sink::flush(&mut **self)
    }
}

impl<X: Outlet> Outlet for &mut X {
    /// Starts the outlet that is lent.
    fn start(&mut self, name: &str) -> Result<(), Failed> {
        Outlet::start(&mut **self, name)
    }

    ghost names_told = { λ x. X.names_told x.now };
}
