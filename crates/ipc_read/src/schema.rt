//! The schema message with which a stream begins.
ghost use Rattle.std.specs.Prelude.{◌≡◌, ◌≤◌, IfOk, IsErrOf, Ok, Err, length};
ghost use Rattle.stream_spec.specs.Streams.{first_schema};
ghost use Rattle.stream_spec.specs.declared.fault.Cause.{Cause as CauseValue};

use crate::faults::NotRead;
use crate::frames::{Frame, due_head, next_frame};
use arrow_meta::read_schema;
use arrow_spec::Field;
use std::alloc::Global;
use std::marker::Model;
use stream_spec::Cause;

/// A stream's fields, and how many bytes its schema's message has.
#[derive(Debug, Drop)]
pub struct SchemaMessage {
    fields: Vec<Field>,
    size: u64,
}

impl Model for SchemaMessage {
    ghost use Rattle.stream_spec.specs.Streams.{SchemaRead};

    ghost Value = { SchemaRead };

    ghost view = { λ s. record { fields = s.fields.items; size = s.size } };
}

impl SchemaMessage {
    /// The fields, lent.
    pub fn fields(&self) -> &[Field]
        ensures { result.now ≡ self.now.fields }
    {
        self.fields.as_slice()
    }

    /// How many bytes the message has; the next message stands behind them.
    pub fn size(&self) -> u64
        ensures { result ≡ self.now.size }
    {
        self.size
    }

    /// Gives the fields back.
    pub fn into_fields(self) -> Vec<Field>
        ensures { result.items ≡ self.fields }
    {
        let SchemaMessage { fields, size: _ } = self;
        fields
    }
}

/// The schema with which the bytes begin, or the cause that they are no stream.
pub fn first_schema(alloc: Global, bytes: &[u8]) -> Result<SchemaMessage, NotRead>
    ensures ok { IfOk result (λ schema. first_schema bytes.now ≡ Ok schema) }
    ensures inside { IfOk result (λ schema. schema.size ≤ length bytes.now) }
    ensures fault { (cause : CauseValue) → IsErrOf result (NotRead.Fault cause)
        → first_schema bytes.now ≡ Err cause }
{
    let Frame::Framed { metadata, rest } = next_frame(true, bytes)? else {
        return Err(NotRead::Fault(Cause::Short));
    };
    let head = due_head(true, metadata, rest)?;
    Ok(SchemaMessage {
        fields: read_schema(alloc, metadata, head.header)?,
        size: 8 + metadata.len() as u64 + head.body,
    })
}
