//! The fields of a flatbuffer's table: numbers, references, vectors and texts. An absent number is
//! 0, an absent vector has no element and an absent text is empty.
ghost use Rattle.std.specs.Prelude.{◌≡◌, ◌+◌, ◌*◌, ◌≤◌, IfOk, MatchResult, Ok, Err, length};
ghost use Rattle.stream_spec.specs.Metadata.{elements, reference, scalar, text};

use flat_read::{FlatFault, field, follow, number, text as text_at, vector};
use std::alloc::{AllocError, AllocFailed};
use stream_spec::{Elements, MetaFault};

/// Why a message's metadata was not read.
#[derive(Clone, Copy, Debug)]
pub enum NotRead {
    Fault(MetaFault),
    Memory,
}

impl From<AllocError> for NotRead {
    ghost use Rattle.std.specs.Prelude.{◌≡◌};
    ghost use Rattle.arrow_meta.specs.declared.fields.NotRead.TheVariants as not_read;

    ghost from_gives = { λ _ e. e ≡ not_read.Memory };

    /// Refused memory, which `?` hands on.
    fn from(_refused: AllocError) -> NotRead {
        NotRead::Memory
    }
}

impl<T: Drop> From<AllocFailed<T>> for NotRead {
    ghost use Rattle.std.specs.Prelude.{◌≡◌};
    ghost use Rattle.arrow_meta.specs.declared.fields.NotRead.TheVariants as not_read;

    ghost from_gives = { λ _ e. e ≡ not_read.Memory };

    /// Refused memory of a call that gives its value back, which is dropped here.
    fn from(_refused: AllocFailed<T>) -> NotRead {
        NotRead::Memory
    }
}

impl From<MetaFault> for NotRead {
    ghost use Rattle.std.specs.Prelude.{◌≡◌};
    ghost use Rattle.arrow_meta.specs.declared.fields.NotRead.TheVariants as not_read;

    ghost from_gives = { λ fault e. e ≡ not_read.Fault fault };

    /// A fault of the metadata, which `?` hands on.
    fn from(fault: MetaFault) -> NotRead {
        NotRead::Fault(fault)
    }
}

impl From<FlatFault> for NotRead {
    ghost use Rattle.std.specs.Prelude.{◌≡◌};
    ghost use Rattle.stream_spec.specs.declared.fault.MetaFault.TheVariants as meta;
    ghost use Rattle.arrow_meta.specs.declared.fields.NotRead.TheVariants as not_read;

    ghost from_gives = { λ fault e. e ≡ not_read.Fault (meta.Flat fault) };

    /// A read that the bytes cannot meet, as a fault of the metadata.
    fn from(fault: FlatFault) -> NotRead {
        NotRead::Fault(MetaFault::Flat(fault))
    }
}

/// The number in a field.
pub fn scalar(bytes: &[u8], table: u64, index: u16, width: u64) -> Result<u64, FlatFault>
    requires low { 1 ≤ width }
    requires high { width ≤ 8 }
    ensures { result ≡ scalar bytes.now table index width }
{
    match field(bytes, table, index)? {
        Some(place) => number(bytes, place, width),
        None => Ok(0),
    }
}

/// Where a field's reference leads.
pub fn reference(bytes: &[u8], table: u64, index: u16) -> Result<Option<u64>, FlatFault>
    ensures { result ≡ reference bytes.now table index }
{
    match field(bytes, table, index)? {
        Some(place) => Ok(Some(follow(bytes, place)?)),
        None => Ok(None),
    }
}

/// The elements of a field's vector, so many bytes each.
pub fn elements(bytes: &[u8], table: u64, index: u16, width: u64) -> Result<Elements, FlatFault>
    requires { width ≤ 16 }
    ensures elements { result ≡ elements bytes.now table index width }
    ensures inside { IfOk result (λ e. e.first + width * e.count ≤ length bytes.now) }
{
    match reference(bytes, table, index)? {
        Some(place) => {
            let (first, count) = vector(bytes, place, width)?;
            Ok(Elements { first, count })
        }
        None => Ok(Elements { first: 0, count: 0 }),
    }
}

/// The bytes of a field's text.
pub fn text(bytes: &[u8], table: u64, index: u16) -> Result<&[u8], FlatFault>
    ensures { MatchResult result (λ t. text bytes.now table index ≡ Ok t.now)
        (λ f. text bytes.now table index ≡ Err f) }
{
    match reference(bytes, table, index)? {
        Some(place) => text_at(bytes, place),
        None => Ok(&[]),
    }
}
