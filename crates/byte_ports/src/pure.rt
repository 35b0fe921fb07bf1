//! Ports that never fail: a source over lent bytes, and a sink and an outlet that keep nothing.
ghost use Rattle.std.specs.Prelude.{◌≡◌, ◌<◌, ℕ, Ok, None, Some, length, min, refl};
ghost use Rattle.std.specs.Io.{ReadsAtMost};
ghost use Rattle.std.specs.Io.KnownBytes.{ReadConsumes};

use crate::copies::copy_front;
use crate::{Failed, Outlet, Sink, Source};
use std::marker::Model;

/// A source over lent bytes, which never fails.
#[derive(Drop)]
pub struct PureSource<'a> {
    left: &'a [u8],
}

impl<'a> Model for PureSource<'a> {
    ghost use Rattle.std.specs.Prelude.{List, ℕ};

    ghost Value = { List ℕ };

    ghost view = { λ s. s.left.now };
}

impl<'a> PureSource<'a> {
    /// A source of these bytes.
    pub fn new(bytes: &'a [u8]) -> Self
        ensures { result ≡ bytes.entry.now }
    {
        PureSource { left: bytes }
    }
}

impl<'a> Source for PureSource<'a> {
    ghost left = { λ s. Some s };

    ghost faults = { λ _. 0 };

    /// Reads as many bytes as are left and have room.
    fn read(&mut self, buf: &mut [u8]) -> Result<usize, Failed>
        requires room { 0 < length buf.old }
        ensures bound { ReadsAtMost result buf.new }
        ensures bytes { ReadConsumes (Some self.old) (Some self.new) result buf.new }
        ensures count { result ≡ Ok (min (length buf.old) (length self.old)) }
    {
        let count = copy_front(self.left, buf);
        let (_, left) = self.left.split_at(count);
        self.left = left;
        Ok(count)
    }
}

/// A sink that takes all, keeps nothing and never fails.
#[derive(Clone, Copy, Debug, Default)]
pub struct PureSink;

impl Sink for PureSink {
    ghost written = { λ _. None };

    ghost flushed = { λ _. None };

    ghost faults = { λ _. 0 };

    /// Takes the whole piece.
    fn write(&mut self, piece: &[u8]) -> Result<usize, Failed>
        ensures { result ≡ Ok (length piece.now) }
    {
        Ok(piece.len())
    }

    /// Nothing is held back.
    fn flush(&mut self) -> Result<(), Failed>
        ensures { result ≡ Ok tt }
    {
        Ok(())
    }
}

/// An outlet that takes all, keeps nothing and never fails.
#[derive(Clone, Copy, Debug, Default)]
pub struct PureOutlet;

impl Sink for PureOutlet {
    ghost written = { λ _. None };

    ghost flushed = { λ _. None };

    ghost faults = { λ _. 0 };

    /// Takes the whole piece.
    fn write(&mut self, piece: &[u8]) -> Result<usize, Failed>
        ensures { result ≡ Ok (length piece.now) }
    {
        Ok(piece.len())
    }

    /// Nothing is held back.
    fn flush(&mut self) -> Result<(), Failed>
        ensures { result ≡ Ok tt }
    {
        Ok(())
    }
}

impl Outlet for PureOutlet {
    /// It starts at any name, and keeps none.
    fn start(&mut self, _name: &str) -> Result<(), Failed>
        ensures { result ≡ Ok tt }
    {
        Ok(())
    }

    ghost names_told = { λ _. refl };
}
