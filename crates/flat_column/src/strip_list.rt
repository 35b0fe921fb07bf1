//! A list of values of so many bytes each as Arrow data.

ghost use Rattle.std.specs.Prelude.{◌≡◌, ◌+◌, ◌<◌, ◌≤◌, ◌++◌, ◌↔◌, IfOk, IsTrue, OnErr, OnOk, Some};
ghost use Rattle.std.specs.Prelude.{drop, length, replicate, slice_get, slice_set, take};
ghost use Rattle.std.specs.List.{concat};

use std::alloc::{AllocError, Global};
use std::marker::Model;

/// A list of values of which each has so many bytes, one after another (Arrow columnar format,
/// "Fixed-size primitive layout").
#[derive(Drop)]
pub struct Strips {
    bytes: Vec<u8>,
    width: usize,
}

impl Model for Strips {
    ghost use Rattle.flat_column.specs.Strips.{HoldsStrips, StripList, strips_in};

    ghost Value = { StripList };

    ghost view = { λ s. record { width = s.width; values = strips_in s.width s.bytes.items } };

    ghost invariant = { λ s. HoldsStrips s.width s.bytes.items };
}

impl Strips {
    /// A list of `n` values of zeros, of so many bytes each. An empty one takes no memory.
    pub fn new(alloc: Global, width: usize, n: usize) -> Result<Strips, AllocError>
        requires { 0 < width }
        ensures { IfOk result (λ s.
            s ≡ record { width = width; values = replicate n (replicate width 0) }) }
    {
        let mut strips = Strips {
            bytes: Vec::new(alloc),
            width,
        };
        strips.extend(n)?;
        Ok(strips)
    }

    /// How many bytes a value has.
    pub fn width(&self) -> usize
        ensures { result ≡ self.now.width }
    {
        self.width
    }

    /// How many values there are.
    pub fn len(&self) -> usize
        ensures { result ≡ length self.now.values }
    {
        self.bytes.len() / self.width
    }

    /// Whether there are none.
    pub fn is_empty(&self) -> bool
        ensures { IsTrue result ↔ (length self.now.values ≡ 0) }
    {
        self.len() == 0
    }

    /// The value at a place, lent.
    pub fn get(&self, index: usize) -> &[u8]
        requires { index < length self.now.values }
        ensures value { slice_get self.now.values index ≡ Some result.now }
        ensures width { length result.now ≡ self.now.width }
    {
        let at = self.width * index;
        let (_, bytes) = self.bytes.as_slice().split_at(at);
        let (value, _) = bytes.split_at(self.width);
        value
    }

    /// Puts a value at a place. The others stay.
    pub fn set(&mut self, index: usize, value: &[u8])
        requires at { index < length self.old.values }
        requires width { length value.now ≡ self.old.width }
        ensures { self.new ≡ record self.old {
          values = slice_set self.old.values index value.now;
        } }
    {
        let at = self.width * index;
        put_at(self.bytes.as_mut_slice(), at, value);
    }

    /// Puts zeros at a place. The others stay.
    pub fn clear(&mut self, index: usize)
        requires { index < length self.old.values }
        ensures { self.new ≡ record self.old {
          values = slice_set self.old.values index (replicate self.old.width 0);
        } }
    {
        let at = self.width * index;
        put_zeros_at(self.bytes.as_mut_slice(), at, self.width);
    }

    /// Adds `n` values of zeros at the end. Without memory the list stays.
    pub fn extend(&mut self, n: usize) -> Result<(), AllocError>
        ensures ok { OnOk result (self.new ≡ record self.old {
          values = self.old.values ++ replicate n (replicate self.old.width 0);
        }) }
        ensures err { OnErr result (self.new ≡ self.old) }
    {
        let Some(len) = self.len().checked_add(n) else {
            return Err(AllocError);
        };
        let Some(size) = self.width.checked_mul(len) else {
            return Err(AllocError);
        };
        self.bytes.resize(size, 0)?;
        Ok(())
    }

    /// The Arrow data of the first `n` values, lent.
    pub fn bytes(&self, n: usize) -> &[u8]
        requires { n ≤ length self.now.values }
        ensures { result.now ≡ concat (take n self.now.values) }
    {
        let end = self.width * n;
        let (bytes, _) = self.bytes.as_slice().split_at(end);
        bytes
    }
}

impl Clone for Strips {
    ghost is_clone = { λ x y. y ≡ x };

    /// A copy in memory of the same allocator.
    fn clone(&self) -> Result<Strips, AllocError> {
        Ok(Strips {
            bytes: Vec::from_slice(*self.bytes.allocator(), self.bytes.as_slice())?,
            width: self.width,
        })
    }
}

/// Puts a value in the bytes from a place on. The others stay.
fn put_at(bytes: &mut [u8], at: usize, value: &[u8])
    requires { at + length value.now ≤ length bytes.old }
    ensures { bytes.new ≡
        take at bytes.old ++ (value.now ++ drop (length value.now) (drop at bytes.old)) }
{
    bytes[at..at + value.len()].copy_from_slice(value);
}

/// Puts so many zeros in the bytes from a place on. The others stay.
fn put_zeros_at(bytes: &mut [u8], at: usize, width: usize)
    requires { at + width ≤ length bytes.old }
    ensures { bytes.new ≡
        take at bytes.old ++ (replicate width 0 ++ drop width (drop at bytes.old)) }
{
    bytes[at..at + width].fill(0);
}
