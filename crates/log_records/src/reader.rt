//! Bytes that are read from their front.
ghost use Rattle.std.specs.Prelude.{◌≡◌, ◌<◌, [], ◌∷◌, ◌++◌, ◌^◌, List, ℕ, length, IfSome, IfNone};
ghost use Rattle.std.specs.Int.{w32, w64, w128, cast_unsigned, to_le_bytes};
ghost use Rattle.log_spec.specs.LogText.{sized};
ghost use Rattle.log_records.specs.Front.{NoneInFront, Takes};

use crate::numbers::{count_in, key_in, number_in};
use std::marker::Model;

/// The bytes that are left of those that are read.
#[derive(Drop)]
pub struct Reader<'a> {
    rest: &'a [u8],
}

impl<'a> Model for Reader<'a> {
    ghost use Rattle.std.specs.Prelude.{List, ℕ};

    ghost Value = { List ℕ };

    ghost view = { λ r. r.rest.now };
}

impl<'a> Reader<'a> {
    /// A reader of these bytes.
    pub fn new(bytes: &'a [u8]) -> Reader<'a>
        ensures { result ≡ bytes.entry.now }
    {
        Reader { rest: bytes }
    }

    /// How many bytes are left.
    pub fn len(&self) -> usize
        ensures { result ≡ length self.now }
    {
        self.rest.len()
    }

    /// Takes so many bytes, or none where fewer are left.
    pub fn take(&mut self, count: usize) -> Option<&'a [u8]>
        ensures some { IfSome result (λ piece. self.old ≡ piece.now ++ self.new) }
        ensures count { IfSome result (λ piece. length piece.now ≡ count) }
        ensures none { IfNone result (length self.old < count) }
    {
        if self.rest.len() < count {
            return None;
        }
        let (piece, rest) = self.rest.split_at(count);
        self.rest = rest;
        Some(piece)
    }

    /// Takes one byte, or none where none is left.
    pub fn byte(&mut self) -> Option<u8>
        ensures some { IfSome result (λ byte. self.old ≡ byte ∷ self.new) }
        ensures none { IfNone result (self.old ≡ []) }
    {
        let (first, rest) = self.rest.split_first()?;
        self.rest = rest;
        Some(*first)
    }

    /// Takes a number of 32 bits, or none where fewer than four bytes are left.
    pub fn count(&mut self) -> Option<u32>
        ensures some { IfSome result (λ n. self.old ≡ to_le_bytes w32 n ++ self.new) }
        ensures none { IfNone result (length self.old < 4) }
    {
        match self.take(4) {
            Some(bytes) => Some(count_in(bytes)),
            None => None,
        }
    }

    /// Takes a signed number of 64 bits, or none where fewer than eight bytes are left.
    pub fn key(&mut self) -> Option<i64>
        ensures some { IfSome result
            (λ key. self.old ≡ to_le_bytes w64 (cast_unsigned w64 key) ++ self.new) }
        ensures none { IfNone result (length self.old < 8) }
    {
        match self.take(8) {
            Some(bytes) => Some(key_in(bytes)),
            None => None,
        }
    }

    /// Takes a signed number of 128 bits, or none where fewer than sixteen bytes are left.
    pub fn number(&mut self) -> Option<i128>
        ensures some { IfSome result
            (λ n. self.old ≡ to_le_bytes w128 (cast_unsigned w128 n) ++ self.new) }
        ensures none { IfNone result (length self.old < 16) }
    {
        match self.take(16) {
            Some(bytes) => Some(number_in(bytes)),
            None => None,
        }
    }

    /// Takes bytes that stand behind their length, or none where no such bytes are left.
    pub fn sized(&mut self) -> Option<&'a [u8]>
        ensures some { IfSome result (λ bytes. self.old ≡ sized bytes.now ++ self.new) }
        ensures short { IfSome result (λ bytes. length bytes.now < 2 ^ 32) }
        ensures none { IfNone result (NoneInFront (λ bytes. length bytes < 2 ^ 32) sized self.old) }
    {
        match self.count() {
            Some(length) => self.take(length as usize),
            None => None,
        }
    }
}
