//! Messages as they are framed (Arrow columnar format, "Encapsulated message format").
ghost use Rattle.std.specs.Prelude.{◌≡◌, ◌+◌, ◌<◌, ◌≤◌, ◌^◌, IfOk, MatchResult, Ok, Err, length};
ghost use Rattle.ipc_read.specs.Frames.{Fills, frame_value, metadata_of};
ghost use Rattle.stream_spec.specs.Streams.{due_head, frame_of, is_due, sized};

use crate::faults::cause_of;
use arrow_meta::read_head;
use byteorder::{ByteOrder, LittleEndian};
use stream_spec::{Cause, Head, HeadKind};

/// A message: its metadata, and the bytes behind that, with which its body begins; or none, at the
/// end.
#[derive(Clone, Copy)]
pub enum Frame<'a> {
    Ended,
    Framed { metadata: &'a [u8], rest: &'a [u8] },
}

/// What stands behind a message's first eight bytes, whose size word this is.
fn sized_frame(first: bool, size: u32, rest: &[u8]) -> Result<Frame<'_>, Cause>
    ensures short { IfOk result (λ f. length (metadata_of f) < 2 ^ 31) }
    ensures whole { IfOk result (Fills (8 + length rest.now)) }
    ensures frame { MatchResult result (λ f. sized first size rest.now ≡ Ok (frame_value f))
        (λ c. sized first size rest.now ≡ Err c) }
{
    if size == 0 {
        return if first {
            Err(Cause::Short)
        } else {
            Ok(Frame::Ended)
        };
    }
    if size >= 1 << 31 {
        return Err(Cause::Flat);
    }
    let size = size as usize;
    if size > rest.len() {
        return Err(Cause::Short);
    }
    Ok(Frame::Framed {
        metadata: &rest[..size],
        rest: &rest[size..],
    })
}

/// The next message. The stream ends with the input or with a size of 0, but not before its first
/// message.
pub fn next_frame(first: bool, bytes: &[u8]) -> Result<Frame<'_>, Cause>
    ensures short { IfOk result (λ f. length (metadata_of f) < 2 ^ 31) }
    ensures whole { IfOk result (Fills (length bytes.now)) }
    ensures frame { MatchResult result (λ f. frame_of first bytes.now ≡ Ok (frame_value f))
        (λ c. frame_of first bytes.now ≡ Err c) }
{
    if bytes.is_empty() {
        return if first {
            Err(Cause::Short)
        } else {
            Ok(Frame::Ended)
        };
    }
    if bytes.len() < 4 {
        return Err(Cause::Short);
    }
    if &bytes[..4] != [0xff; 4].as_slice() {
        return Err(Cause::Marker);
    }
    if bytes.len() < 8 {
        return Err(Cause::Short);
    }
    sized_frame(first, LittleEndian::read_u32(&bytes[4..]), &bytes[8..])
}

/// Whether a message of this kind may stand here: the first is a schema, and no other is.
fn is_due(first: bool, kind: HeadKind) -> bool
    ensures { result ≡ is_due first kind }
{
    match kind {
        HeadKind::Schema => first,
        HeadKind::Dictionary | HeadKind::Batch => !first,
    }
}

/// A message's head, where it may stand here, with its body whole.
pub fn due_head(first: bool, metadata: &[u8], rest: &[u8]) -> Result<Head, Cause>
    ensures head { result ≡ due_head first metadata.now rest.now }
    ensures whole { IfOk result (λ h. h.body ≤ length rest.now) }
{
    let head = match read_head(metadata) {
        Ok(head) => head,
        Err(fault) => return Err(cause_of(fault)),
    };
    if !is_due(first, head.kind) {
        return Err(Cause::Shape);
    }
    if head.body > rest.len() as u64 {
        return Err(Cause::Short);
    }
    Ok(head)
}
