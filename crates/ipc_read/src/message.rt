//! A message behind the schema, as a whole.
ghost use Rattle.std.specs.Prelude.{◌≡◌, ◌∷◌, ◌≤◌, ◌<◌, ◌^◌, [], IfOk, IsErrOf, Ok, Err, length};
ghost use Rattle.ipc_read.specs.Next.{IsInside, read_of};
ghost use Rattle.stream_spec.specs.Streams.{batch_brought, dictionary_brought, has_dictionary};
ghost use Rattle.stream_spec.specs.Streams.{kind_with, next_message};
ghost use Rattle.stream_spec.specs.declared.fault.Cause.{Cause as CauseValue};

use crate::batch::{Batch, batch_of, values_in};
use crate::faults::{NotRead, cause_of};
use crate::frames::{Frame, due_head, next_frame};
use crate::known::Known;
use arrow_meta::{read_batch, read_dictionary};
use arrow_spec::Field;
use cell_model::Kind;
use std::alloc::{AllocError, Global};
use stream_spec::{Cause, HeadKind};

/// What is known behind the message of a dictionary, and how many bytes the message has.
#[derive(Drop)]
pub struct Learned {
    pub known: Known,
    pub size: u64,
}

/// What stands next in a stream.
#[derive(Drop)]
pub enum Next<'a> {
    /// A record batch.
    Batch(Batch<'a>),
    /// The values of a dictionary.
    Dictionary(Learned),
    /// The end word, or the end of the bytes.
    End,
    /// A message that is none of a stream.
    Fault(Cause),
}

/// What stands next in a stream of which this is known, whose bytes these are behind the message
/// before. No byte behind the message is looked at, and a header takes no memory beyond what its own
/// bytes list.
pub fn next_message<'a>(
    alloc: Global,
    known: &'a Known,
    bytes: &'a [u8],
) -> Result<Next<'a>, AllocError>
    ensures next { IfOk result (λ next. next_message known.now bytes.now
        ≡ read_of known.now next) }
    ensures inside { IfOk result (IsInside (length bytes.now)) }
{
    match message(alloc, known, bytes) {
        Ok(next) => Ok(next),
        Err(NotRead::Fault(cause)) => Ok(Next::Fault(cause)),
        Err(NotRead::Memory) => Err(AllocError),
    }
}

/// The same, a fault apart.
fn message<'a>(alloc: Global, known: &'a Known, bytes: &'a [u8]) -> Result<Next<'a>, NotRead>
    ensures ok { IfOk result (λ next. next_message known.now bytes.now ≡ read_of known.now next) }
    ensures inside { IfOk result (IsInside (length bytes.now)) }
    ensures fault { (cause : CauseValue) → IsErrOf result (NotRead.Fault cause)
        → next_message known.now bytes.now ≡ Err cause }
{
    let Frame::Framed { metadata, rest } = next_frame(false, bytes)? else {
        return Ok(Next::End);
    };
    let head = due_head(false, metadata, rest)?;
    let body = &rest[..head.body as usize];
    let size = 8 + metadata.len() as u64 + head.body;
    match head.kind {
        HeadKind::Schema => Err(NotRead::Fault(Cause::Shape)),
        HeadKind::Dictionary => {
            let known = dictionary_message(alloc, known, metadata, head.header, body)?;
            Ok(Next::Dictionary(Learned { known, size }))
        }
        HeadKind::Batch => {
            let batch = batch_message(alloc, known, metadata, head.header, body, size)?;
            Ok(Next::Batch(batch))
        }
    }
}

/// The record batch whose table stands at this place of the metadata, with this body, in a message
/// of so many bytes.
fn batch_message<'a>(
    alloc: Global,
    known: &'a Known,
    metadata: &[u8],
    table: u64,
    body: &'a [u8],
    size: u64,
) -> Result<Batch<'a>, NotRead>
    ensures ok { IfOk result (λ batch. batch_brought known.now metadata.now table body.now
        ≡ Ok (record { batches = batch.rows ∷ []; known = known.now })) }
    ensures size { IfOk result (λ batch. batch.size ≡ size) }
    ensures fault { (cause : CauseValue) → IsErrOf result (NotRead.Fault cause)
        → batch_brought known.now metadata.now table body.now ≡ Err cause }
{
    let meta = read_batch(alloc, metadata, table)?;
    batch_of(
        alloc,
        known.dictionaries(),
        known.fields(),
        &meta,
        body,
        size,
    )
}

/// What is known behind the dictionary whose table stands at this place of the metadata, with this
/// body.
fn dictionary_message(
    alloc: Global,
    known: &Known,
    metadata: &[u8],
    table: u64,
    body: &[u8],
) -> Result<Known, NotRead>
    ensures ok { IfOk result (λ learned. dictionary_brought known.now metadata.now table body.now
        ≡ Ok (record { batches = []; known = learned })) }
    ensures fault { (cause : CauseValue) → IsErrOf result (NotRead.Fault cause)
        → dictionary_brought known.now metadata.now table body.now ≡ Err cause }
{
    let dictionary = match read_dictionary(metadata, table) {
        Ok(dictionary) => dictionary,
        Err(fault) => return Err(NotRead::Fault(cause_of(fault))),
    };
    let Some(kind) = kind_with(dictionary.id, known.fields()) else {
        return Err(NotRead::Fault(Cause::Dictionary));
    };
    let meta = read_batch(alloc, metadata, dictionary.values)?;
    let came = values_in(alloc, kind, &meta, body)?;
    Ok(known.with_dictionary(alloc, &dictionary, came)?)
}

/// The kind of a dictionary's values: that of a field that has it.
fn kind_with(id: u64, fields: &[Field]) -> Option<Kind>
    ensures { result ≡ kind_with id fields.now }
{
    for field in fields {
        if has_dictionary(id, field) {
            return Some(field.column.kind);
        }
    }
    None
}

/// Whether the field has the dictionary with this id.
fn has_dictionary(id: u64, field: &Field) -> bool
    ensures { result ≡ has_dictionary id field.now }
{
    match &field.encoding {
        Some(encoding) => encoding.id == id,
        None => false,
    }
}
