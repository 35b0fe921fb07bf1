//! A list of numbers of one width as Arrow data.

ghost use Rattle.std.specs.Prelude.{◌≡◌, ◌+◌, ◌*◌, ◌<◌, ◌≤◌, ◌/◌, ◌++◌, ◌↔◌, pos, IfOk, IsTrue};
ghost use Rattle.std.specs.Prelude.{OnErr, OnOk, Some, drop, length, replicate, slice_get};
ghost use Rattle.std.specs.Prelude.{slice_set, take};
ghost use Rattle.std.specs.Int.{Width, byte_len};
ghost use Rattle.std.specs.List.{flat_map};
ghost use Rattle.arrow_spec.specs.Bytes.{number_bytes};
ghost use Rattle.flat_column.specs.Numbers.{IsInRange, IsWidth, first_value, numbers_bytes};
ghost use Rattle.flat_column.specs.Numbers.{width_of};

use byteorder::{ByteOrder, LittleEndian};
use std::alloc::{AllocError, Global};
use std::marker::Model;

/// A list of numbers of one width, signed or not, each in its two's complement with the lowest
/// byte first (Arrow columnar format, "Fixed-size primitive layout").
#[derive(Drop)]
pub struct Fixed {
    bytes: Vec<u8>,
    width: u32,
    signed: bool,
}

impl Model for Fixed {
    ghost use Rattle.flat_column.specs.Numbers.{IsStored, Numbers, values_in};

    ghost Value = { Numbers };

    ghost view = { λ f. record {
      width = f.width;
      signed = f.signed;
      values = values_in f.width f.signed f.bytes.items;
    } };

    ghost invariant = { λ f. IsStored f.width f.signed f.bytes.items };
}

impl Fixed {
    /// A list of `n` zeros of a width in bits. An empty one takes no memory.
    pub fn new(alloc: Global, width: u32, signed: bool, n: usize) -> Result<Fixed, AllocError>
        requires { IsWidth width }
        ensures { IfOk result (λ f.
            f ≡ record { width = width; signed = signed; values = replicate n (pos 0) }) }
    {
        let mut numbers = Fixed {
            bytes: Vec::new(alloc),
            width,
            signed,
        };
        numbers.extend(n)?;
        Ok(numbers)
    }

    /// Whether there are numbers of this width in bits: 8, 16, 32 and 64.
    pub fn is_width(width: u32) -> bool
        ensures { IsTrue result ↔ IsWidth width }
    {
        matches!(width, 8 | 16 | 32 | 64)
    }

    /// How many bits a number has.
    pub fn width(&self) -> u32
        ensures { result ≡ self.now.width }
    {
        self.width
    }

    /// Whether a number may be negative.
    pub fn is_signed(&self) -> bool
        ensures { result ≡ self.now.signed }
    {
        self.signed
    }

    /// How many numbers there are.
    pub fn len(&self) -> usize
        ensures { result ≡ length self.now.values }
    {
        self.bytes.len() / self.size()
    }

    /// Whether there are none.
    pub fn is_empty(&self) -> bool
        ensures { IsTrue result ↔ (length self.now.values ≡ 0) }
    {
        self.len() == 0
    }

    /// Whether a number is in range.
    pub fn takes(&self, value: i128) -> bool
        ensures { IsTrue result ↔ IsInRange self.now.width self.now.signed value }
    {
        match (self.width, self.signed) {
            (8, false) => u8::try_from(value).is_ok(),
            (8, true) => i8::try_from(value).is_ok(),
            (16, false) => u16::try_from(value).is_ok(),
            (16, true) => i16::try_from(value).is_ok(),
            (32, false) => u32::try_from(value).is_ok(),
            (32, true) => i32::try_from(value).is_ok(),
            (_, false) => u64::try_from(value).is_ok(),
            (_, true) => i64::try_from(value).is_ok(),
        }
    }

    /// The number at a place.
    #[inline(always)]
    pub fn get(&self, index: usize) -> i128
        requires { index < length self.now.values }
        ensures value { slice_get self.now.values index ≡ Some result }
        ensures in_range { IsInRange self.now.width self.now.signed result }
    {
        let (_, bytes) = self.bytes.as_slice().split_at(self.size() * index);
        first_number(bytes, self.width, self.signed)
    }

    /// Puts a number at a place. The others stay.
    pub fn set(&mut self, index: usize, value: i128)
        requires at { index < length self.old.values }
        requires in_range { IsInRange self.old.width self.old.signed value }
        ensures { self.new ≡ record self.old { values = slice_set self.old.values index value } }
    {
        let at = self.size() * index;
        put_number_at(
            self.bytes.as_mut_slice(),
            at,
            self.width,
            self.signed,
            value,
        );
    }

    /// Adds `n` zeros at the end. Without memory the list stays.
    pub fn extend(&mut self, n: usize) -> Result<(), AllocError>
        ensures ok { OnOk result (
            self.new ≡ record self.old { values = self.old.values ++ replicate n (pos 0) }) }
        ensures err { OnErr result (self.new ≡ self.old) }
    {
        let Some(len) = self.len().checked_add(n) else {
            return Err(AllocError);
        };
        let Some(size) = self.size().checked_mul(len) else {
            return Err(AllocError);
        };
        self.bytes.resize(size, 0)?;
        Ok(())
    }

    /// The Arrow data of the first `n` numbers, lent.
    pub fn bytes(&self, n: usize) -> &[u8]
        requires { n ≤ length self.now.values }
        ensures bytes { result.now ≡ numbers_bytes self.now.width (take n self.now.values) }
        ensures arrow { (width : Width) → self.now.width ≡ 8 * byte_len width →
            result.now ≡ flat_map (number_bytes width) (take n self.now.values) }
    {
        let (bytes, _) = self.bytes.as_slice().split_at(self.size() * n);
        bytes
    }

    /// How many bytes a number has.
    fn size(&self) -> usize
        ensures { result ≡ self.now.width / 8 }
    {
        (self.width / 8) as usize
    }
}

impl Clone for Fixed {
    ghost is_clone = { λ x y. y ≡ x };

    /// A copy in memory of the same allocator.
    fn clone(&self) -> Result<Fixed, AllocError> {
        Ok(Fixed {
            bytes: Vec::from_slice(*self.bytes.allocator(), self.bytes.as_slice())?,
            width: self.width,
            signed: self.signed,
        })
    }
}

/// The number of a width with which the bytes begin.
#[inline(always)]
fn first_number(bytes: &[u8], width: u32, signed: bool) -> i128
    requires known { IsWidth width }
    requires room { width / 8 ≤ length bytes.now }
    ensures { result ≡ first_value width signed bytes.now }
{
    match (width, signed) {
        (8, false) => i128::from(bytes[0]),
        (8, true) => i128::from(bytes[0].cast_signed()),
        (16, false) => i128::from(LittleEndian::read_u16(bytes)),
        (16, true) => i128::from(LittleEndian::read_i16(bytes)),
        (32, false) => i128::from(LittleEndian::read_u32(bytes)),
        (32, true) => i128::from(LittleEndian::read_i32(bytes)),
        (_, false) => i128::from(LittleEndian::read_u64(bytes)),
        (_, true) => i128::from(LittleEndian::read_i64(bytes)),
    }
}

/// Puts a number of a width in the bytes from a place on. The others stay.
fn put_number_at(bytes: &mut [u8], at: usize, width: u32, signed: bool, value: i128)
    requires known { IsWidth width }
    requires room { at + width / 8 ≤ length bytes.old }
    requires in_range { IsInRange width signed value }
    ensures { bytes.new ≡
        take at bytes.old ++ (number_bytes (width_of width) value
        ++ drop (width / 8) (drop at bytes.old)) }
{
    put_number(&mut bytes[at..], width, signed, value);
}

/// Puts a number of a width in the first bytes. The others stay.
fn put_number(bytes: &mut [u8], width: u32, signed: bool, value: i128)
    requires known { IsWidth width }
    requires room { width / 8 ≤ length bytes.old }
    requires in_range { IsInRange width signed value }
    ensures { bytes.new ≡ number_bytes (width_of width) value ++ drop (width / 8) bytes.old }
{
    match (width, signed) {
        (8, false) => bytes[0] = value as u8,
        (8, true) => bytes[0] = (value as i8).cast_unsigned(),
        (16, false) => LittleEndian::write_u16(bytes, value as u16),
        (16, true) => LittleEndian::write_i16(bytes, value as i16),
        (32, false) => LittleEndian::write_u32(bytes, value as u32),
        (32, true) => LittleEndian::write_i32(bytes, value as i32),
        (_, false) => LittleEndian::write_u64(bytes, value as u64),
        (_, true) => LittleEndian::write_i64(bytes, value as i64),
    }
}
