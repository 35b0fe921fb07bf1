//! A list of bits as an Arrow bitmap.

ghost use Rattle.std.specs.Prelude.{◌≡◌, ◌*◌, ℕ, [], slice_index_or, ◌<◌, ◌≤◌, ◌^◌, ◌++◌, ◌↔◌};
ghost use Rattle.std.specs.Prelude.{false, IfOk, IsTrue, OnErr, OnOk, Some, count_ones, length};
ghost use Rattle.std.specs.Prelude.{replicate, slice_get, slice_set, take};
ghost use Rattle.std.specs.List.{All, count_by, sum_by};
ghost use Rattle.flat_column.specs.Bitmap.{AreBytes, PutsBit, bitmap_bits};
ghost use Rattle.arrow_spec.specs.Bytes.{bitmap};

use std::alloc::{AllocError, Global};
use std::marker::Model;

/// A list of bits, eight a byte, the first in the lowest place (Arrow columnar format,
/// "Validity bitmaps").
#[derive(Drop)]
pub struct Bits {
    bytes: Vec<u8>,
    len: usize,
}

impl Model for Bits {
    ghost use Rattle.std.specs.Prelude.{Bool, List};
    ghost use Rattle.flat_column.specs.Bitmap.{IsPadded, bitmap_bits};

    ghost Value = { List Bool };

    ghost view = { λ b. bitmap_bits b.bytes.items b.len };

    ghost invariant = { λ b. IsPadded b.bytes.items b.len };
}

impl Bits {
    /// A list of `n` zeros. An empty one takes no memory.
    pub fn new(alloc: Global, n: usize) -> Result<Bits, AllocError>
        ensures { IfOk result (λ b. b ≡ replicate n false) }
    {
        let mut bits = Bits {
            bytes: Vec::new(alloc),
            len: 0,
        };
        bits.extend(n)?;
        Ok(bits)
    }

    /// How many bits there are.
    pub fn len(&self) -> usize
        ensures { result ≡ length self.now }
    {
        self.len
    }

    /// Whether there are none.
    pub fn is_empty(&self) -> bool
        ensures { IsTrue result ↔ (length self.now ≡ 0) }
    {
        self.len == 0
    }

    /// The bit at a place.
    pub fn get(&self, index: usize) -> bool
        requires { index < length self.now }
        ensures { slice_get self.now index ≡ Some result }
    {
        self.bytes[index / 8] >> (index % 8) & 1 == 1
    }

    /// Puts a bit at a place. The others stay.
    pub fn set(&mut self, index: usize, bit: bool)
        requires { index < length self.old }
        ensures { self.new ≡ slice_set self.old index bit }
    {
        let byte = with_bit(self.bytes[index / 8], index % 8, bit);
        self.bytes[index / 8] = byte;
    }

    /// Adds `n` zeros at the end. Without memory the list stays.
    pub fn extend(&mut self, n: usize) -> Result<(), AllocError>
        ensures ok { OnOk result (self.new ≡ self.old ++ replicate n false) }
        ensures err { OnErr result (self.new ≡ self.old) }
    {
        let Some(len) = self.len.checked_add(n) else {
            return Err(AllocError);
        };
        self.bytes.resize(len.div_ceil(8), 0)?;
        self.len = len;
        Ok(())
    }

    /// How many bits are ones.
    pub fn count(&self) -> usize
        ensures { result ≡ count_by (λ bit. bit) self.now }
    {
        ones(self.bytes.as_slice())
    }

    /// How many of the first `n` bits are ones.
    pub fn count_first(&self, n: usize) -> usize
        requires { n ≤ length self.now }
        ensures { result ≡ count_by (λ bit. bit) (take n self.now) }
    {
        ones_among(self.bytes.as_slice(), n)
    }

    /// Whether every bit is a one.
    pub fn all_ones(&self) -> bool
        ensures { IsTrue result ↔ All IsTrue self.now }
    {
        self.count() == self.len
    }

    /// Appends the bitmap of the first `n` bits, with zeros after the last. Without memory `out`
    /// stays.
    pub fn copy_to(&self, n: usize, out: &mut Vec<u8>) -> Result<(), AllocError>
        requires { n ≤ length self.now }
        ensures ok { OnOk result (out.new.items ≡ out.old.items ++ bitmap (take n self.now)) }
        ensures err { OnErr result (out.new.items ≡ out.old.items) }
    {
        let (whole, _) = self.bytes.as_slice().split_at(n / 8);
        out.reserve(n.div_ceil(8))?;
        out.extend_from_slice(whole)?;
        if n % 8 != 0 {
            out.push_reserved(self.bytes[n / 8] & ((1 << (n % 8)) - 1));
        }
        Ok(())
    }
}

impl Clone for Bits {
    ghost is_clone = { λ x y. y ≡ x };

    /// A copy in memory of the same allocator.
    fn clone(&self) -> Result<Bits, AllocError> {
        Ok(Bits {
            bytes: Vec::from_slice(*self.bytes.allocator(), self.bytes.as_slice())?,
            len: self.len,
        })
    }
}

/// The byte with a bit put at a place.
fn with_bit(byte: u8, place: usize, bit: bool) -> u8
    requires { place < 8 }
    ensures { PutsBit byte result place bit }
{
    let mask = 1 << place;
    if bit { byte | mask } else { byte & !mask }
}

/// How many of the first `n` bits of a lent bitmap are ones.
pub fn ones_among(bitmap: &[u8], n: usize) -> usize
    requires { n ≤ 8 * length bitmap.now }
    ensures { result ≡ count_by (λ bit. bit) (bitmap_bits bitmap.now n) }
{
    let (whole, _) = bitmap.split_at(n / 8);
    let front = ones(whole);
    if n % 8 == 0 {
        return front;
    }
    let last = bitmap[n / 8] & ((1 << (n % 8)) - 1);
    front + last.count_ones() as usize
}

/// How many bits of all bytes are ones.
fn ones(bytes: &[u8]) -> usize
    requires { sum_by count_ones bytes.now < 2 ^ 64 }
    ensures { result ≡ sum_by count_ones bytes.now }
{
    let (words, rest) = bytes.as_chunks::<8>();
    ones_of_words(words) + ones_of_bytes(rest)
}

/// How many bits of whole words are ones; they are counted eight bytes at a time.
fn ones_of_words(words: &[[u8; 8]]) -> usize
    requires bytes { (k : ℕ) → AreBytes (slice_index_or words.now k []) }
    requires fits { sum_by (sum_by count_ones) words.now < 2 ^ 64 }
    ensures { result ≡ sum_by (sum_by count_ones) words.now }
{
    let mut count = 0;
    for word in words {
        count += u64::from_le_bytes(*word).count_ones() as usize;
    }
    count
}

/// How many bits of bytes are ones; for what is left behind the last whole word.
fn ones_of_bytes(bytes: &[u8]) -> usize
    requires { sum_by count_ones bytes.now < 2 ^ 64 }
    ensures { result ≡ sum_by count_ones bytes.now }
{
    let mut count = 0;
    for byte in bytes {
        count += byte.count_ones() as usize;
    }
    count
}
