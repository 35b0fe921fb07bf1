//! Whole inputs and whole pieces: what is read to the end of a source, and what is written in as
//! many calls as a sink needs.
ghost use Rattle.std.specs.Prelude.{◌≡◌, ◌<◌, ◌≤◌, Some, IfOk, OnOk, OnErr, IsErrOf, vec_len};
ghost use Rattle.std.specs.Io.KnownBytes.{Consumes, IsAtEnd};
ghost use Rattle.byte_ports.specs.Calls.{Rose, TellsAlike, WritesAll, ConsumesSome};
ghost use Rattle.byte_ports.specs.Calls.{ConsumesAtLeast};
ghost use Rattle.byte_ports.specs.InputFault.{CountsFault, input_fault_text};
ghost use Rattle.byte_ports.specs.declared.whole.InputFault.TheVariants as fault;

use crate::{Failed, Sink, Source};
use std::alloc::{AllocError, Global};
use std::error::Error;
use std::fmt;

/// How many bytes a read of a whole input asks for at a time.
const PIECE_BYTES: usize = 1 << 16;

/// Why an input was not read to its end.
#[derive(Clone, Copy, Debug, PartialEq, Eq)]
pub enum InputFault {
    /// As many bytes as the limit, or more, were read without the end.
    TooLong,
    /// A call of the source failed.
    Failed,
    /// There was no memory for the bytes.
    Memory,
}

impl fmt::Display for InputFault {
    ghost output = { λ f. Some (input_fault_text f) };

    /// The line of each fault.
    fn fmt<W: fmt::Write>(&self, f: &mut fmt::Formatter<W>) -> fmt::Result {
        match self {
            InputFault::TooLong => write!(f, "the input is too long"),
            InputFault::Failed => write!(f, "reading failed"),
            InputFault::Memory => write!(f, "out of memory"),
        }
    }
}

impl Error for InputFault {}

impl From<Failed> for InputFault {
    ghost from_gives = { λ _ f. f ≡ fault.Failed };

    /// A failed call of the source, which `?` hands on.
    fn from(_: Failed) -> Self {
        InputFault::Failed
    }
}

impl From<AllocError> for InputFault {
    ghost from_gives = { λ _ f. f ≡ fault.Memory };

    /// Refused memory, which `?` hands on.
    fn from(_: AllocError) -> Self {
        InputFault::Memory
    }
}

/// Writes the whole piece, in as many calls as the sink needs. An error is that of a call, and then
/// only a front of the piece was written.
pub fn write_all<S: Sink>(sink: &mut S, piece: &[u8]) -> Result<(), Failed>
    ensures bytes { WritesAll (S.written sink.old) (S.written sink.new) result piece.now }
    ensures told { TellsAlike (S.written sink.old) (S.written sink.new) }
    ensures started { S.started sink.new ≡ S.started sink.old }
    ensures loan { S.loan sink.new ≡ S.loan sink.old }
    ensures counted { S.faults sink.old ≤ S.faults sink.new }
    ensures kept { OnOk result (S.faults sink.new ≡ S.faults sink.old) }
    ensures cause { OnErr result (Rose (S.faults sink.old) (S.faults sink.new)) }
{
    let mut at = 0;
    while at < piece.len() {
        let (_, rest) = piece.split_at(at);
        match sink.write(rest) {
            Ok(count) => at += count,
            Err(failed) => return Err(failed),
        }
    }
    Ok(())
}

/// A buffer of so many bytes, for reads to fill.
fn blank_piece(alloc: Global, count: usize) -> Result<Vec<u8>, AllocError>
    ensures { IfOk result (λ v. vec_len v ≡ count) }
{
    vec![in alloc; 0u8; count]
}

/// Reads all that is left of a source, which has to be fewer than `limit` bytes. After a fault the
/// bytes read so far are lost.
pub fn read_to_end<S: Source>(
    alloc: Global,
    source: &mut S,
    limit: usize,
) -> Result<Vec<u8>, InputFault>
    ensures bytes { IfOk result (λ v. Consumes (S.left source.old) (S.left source.new) v.items) }
    ensures end { OnOk result (IsAtEnd (S.left source.new)) }
    ensures short { IfOk result (λ v. vec_len v < limit) }

    ensures long { IsErrOf result InputFault.TooLong
        → ConsumesAtLeast (S.left source.old) (S.left source.new) limit }
    ensures cause { CountsFault (S.faults source.old) (S.faults source.new) result }
    ensures err { OnErr result (ConsumesSome (S.left source.old) (S.left source.new)) }

    ensures told { TellsAlike (S.left source.old) (S.left source.new) }
{
    let mut bytes = Vec::new(alloc);
    let mut piece = blank_piece(alloc, PIECE_BYTES)?;
    while bytes.len() < limit {
        let count = source.read(piece.as_mut_slice())?;
        if count == 0 {
            return Ok(bytes);
        }
        let (read, _) = piece.split_at(count);
        bytes.extend_from_slice(read)?;
    }
    Err(InputFault::TooLong)
}
