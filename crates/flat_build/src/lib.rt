//! Lays a flatbuffer in one growing buffer, each object at the least place that its kind allows.
//!
//! The objects stand in the order of the calls that lay them, from place 8 on. A vtable and its
//! table each begin at a multiple of 8, the length word of a vector or a string 4 past a multiple
//! of 8, and gaps are zero. Fields and elements are zero until `number` or `refer` fills them. All
//! numbers are little-endian, and each place is one of a byte in the flatbuffer.
#![tactic(auto)]

ghost use Rattle.std.specs.Prelude.{◌≡◌, ◌+◌, ◌-◌, ◌*◌, ◌^◌, ◌<◌, ◌≤◌, length, slice_index, IfOk};
ghost use Rattle.std.specs.Prelude.{OnOk, OnErr, IsOkAnd};
ghost use Rattle.std.specs.List.{flat_map};
ghost use Rattle.byteorder.specs.Endian.{little_bytes};
ghost use Rattle.flat_build.specs.Layout.{empty_flatbuffer, table_place, table_end, length_place};
ghost use Rattle.flat_build.specs.Layout.{vector_end, string_end, with_table, with_vector};
ghost use Rattle.flat_build.specs.Layout.{with_string, overwritten};

use byteorder::{ByteOrder, LittleEndian};
use std::alloc::{AllocError, Global};
use std::marker::Model;

/// How many bytes are reserved at first: the message of a batch of some ten columns comes to no
/// more.
const ROOM: usize = 1024;

/// A flatbuffer that is being built, which a contract sees as the list of its bytes.
#[derive(Debug, Drop)]
pub struct FlatBuild {
    bytes: Vec<u8>,
}

impl Model for FlatBuild {
    ghost use Rattle.std.specs.Prelude.{List, ℕ, ◌≤◌, length};

    ghost Value = { List ℕ };

    ghost view = { λ b. b.bytes.items };

    ghost invariant = { λ b. 8 ≤ length b.bytes.items };
}

impl FlatBuild {
    /// A flatbuffer without objects: room for the root's place, and four zero bytes.
    pub fn new(alloc: Global) -> Result<FlatBuild, AllocError>
        ensures { IfOk result (λ build. build ≡ empty_flatbuffer) }
    {
        let mut bytes = Vec::with_capacity(alloc, ROOM)?;
        bytes.resize(8, 0)?;
        Ok(FlatBuild { bytes })
    }

    /// How many bytes are laid.
    pub fn laid(&self) -> usize
        ensures { result ≡ length self.now }
    {
        self.bytes.len()
    }

    /// Lays a vtable of these words and its table, and answers the table's place.
    ///
    /// The first word is the vtable's size in bytes and the second the table's, which counts the
    /// four bytes of the way back to the vtable. On want of memory nothing is laid.
    pub fn table(&mut self, vtable: &[u16]) -> Result<u32, AllocError>
        requires vtable_size { slice_index vtable.now 0 ≡ 2 * length vtable.now }
        requires table_size { 4 ≤ slice_index vtable.now 1 }
        requires room { table_end self.old vtable.now < 2 ^ 31 }
        ensures place { IfOk result (λ place. place ≡ table_place self.old vtable.now) }
        ensures ok { OnOk result (self.new ≡ with_table self.old vtable.now) }
        ensures len { OnOk result (length self.new ≡ table_end self.old vtable.now) }
        ensures err { OnErr result (self.new ≡ self.old) }
    {
        let vtable_place = self.bytes.len().next_multiple_of(8);
        let vtable_end = vtable_place + 2 * vtable.len();
        let place = vtable_end.next_multiple_of(8);
        self.bytes.resize(place + usize::from(vtable[1]), 0)?;
        write_words(&mut self.bytes, vtable_place, vtable);
        write_number(&mut self.bytes, place, 4, (place - vtable_place) as u64);
        Ok(place as u32)
    }

    /// Lays a vector of `count` elements of `width` zero bytes, and answers its length word's
    /// place.
    ///
    /// On want of memory nothing is laid.
    pub fn vector(&mut self, count: u32, width: u32) -> Result<u32, AllocError>
        requires { vector_end self.old count width < 2 ^ 31 }
        ensures place { IfOk result (λ place. place ≡ length_place self.old) }
        ensures ok { OnOk result (self.new ≡ with_vector self.old count width) }
        ensures len { OnOk result (length self.new ≡ vector_end self.old count width) }
        ensures err { OnErr result (self.new ≡ self.old) }
    {
        let place = self.next_length_place();
        self.bytes
            .resize(place + 4 + count as usize * width as usize, 0)?;
        write_number(&mut self.bytes, place, 4, u64::from(count));
        Ok(place as u32)
    }

    /// Lays a string with its closing zero byte, and answers its length word's place.
    ///
    /// On want of memory nothing is laid.
    pub fn string(&mut self, text: &[u8]) -> Result<u32, AllocError>
        requires { string_end self.old text.now < 2 ^ 31 }
        ensures place { IfOk result (λ place. place ≡ length_place self.old) }
        ensures ok { OnOk result (self.new ≡ with_string self.old text.now) }
        ensures len { OnOk result (length self.new ≡ string_end self.old text.now) }
        ensures err { OnErr result (self.new ≡ self.old) }
    {
        let place = self.next_length_place();
        self.bytes.resize(place + 4 + text.len() + 1, 0)?;
        write_number(&mut self.bytes, place, 4, text.len() as u64);
        write_bytes(&mut self.bytes, place + 4, text);
        Ok(place as u32)
    }

    /// Writes a number of `width` bytes over those from `at` on.
    pub fn number(&mut self, at: u32, width: u32, value: u64)
        requires low { 1 ≤ width }
        requires high { width ≤ 8 }
        requires fits { value < 256 ^ width }
        requires laid { at + width ≤ length self.old }
        ensures written { self.new ≡ overwritten self.old at (little_bytes width value) }
        ensures len { length self.new ≡ length self.old }
    {
        write_number(&mut self.bytes, at as usize, width as usize, value);
    }

    /// Writes the reference at `at` to the object at `target`: how far `target` is past `at`.
    pub fn refer(&mut self, at: u32, target: u32)
        requires above { at < target }
        requires laid { at + 4 ≤ length self.old }
        ensures written { self.new ≡ overwritten self.old at (little_bytes 4 (target - at)) }
        ensures len { length self.new ≡ length self.old }
    {
        self.number(at, 4, u64::from(target - at));
    }

    /// Writes the root table's place, and gives the bytes.
    ///
    /// The place goes into the four bytes that were kept for it, so this call takes no memory and
    /// never fails. Its result has the form of the calls before it.
    pub fn finish(self, root: u32) -> Result<Vec<u8>, AllocError>
        ensures { IsOkAnd result (λ bytes. bytes.items ≡ overwritten self 0 (little_bytes 4 root)) }
    {
        let FlatBuild { mut bytes } = self;
        write_number(&mut bytes, 0, 4, u64::from(root));
        Ok(bytes)
    }

    /// The least place, from the end of the bytes on, that is 4 past a multiple of 8.
    fn next_length_place(&self) -> usize
        requires { length self.now < 2 ^ 32 }
        ensures { result ≡ length_place self.now }
    {
        (self.bytes.len() + 4).next_multiple_of(8) - 4
    }
}

/// Writes a number of `width` bytes over those from `at` on.
fn write_number(bytes: &mut [u8], at: usize, width: usize, value: u64)
    requires low { 1 ≤ width }
    requires high { width ≤ 8 }
    requires fits { value < 256 ^ width }
    requires laid { at + width ≤ length bytes.old }
    ensures { bytes.new ≡ overwritten bytes.old at (little_bytes width value) }
{
    LittleEndian::write_uint(&mut bytes[at..], value, width);
}

/// Writes words of two bytes each over the bytes from `at` on.
fn write_words(bytes: &mut [u8], at: usize, words: &[u16])
    requires { at + 2 * length words.now ≤ length bytes.old }
    ensures { bytes.new ≡ overwritten bytes.old at (flat_map (little_bytes 2) words.now) }
{
    LittleEndian::write_u16_into(words, &mut bytes[at..at + 2 * words.len()]);
}

/// Writes a piece over the bytes from `at` on.
fn write_bytes(bytes: &mut [u8], at: usize, piece: &[u8])
    requires { at + length piece.now ≤ length bytes.old }
    ensures { bytes.new ≡ overwritten bytes.old at piece.now }
{
    bytes[at..at + piece.len()].copy_from_slice(piece);
}
