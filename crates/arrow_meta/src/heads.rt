//! A message's head and how it is read (Message.fbs, "Message" and "MessageHeader").
ghost use Rattle.std.specs.Prelude.{◌≡◌};
ghost use Rattle.stream_spec.specs.Metadata.{head_of, message_table_at};

use crate::fields::{reference, scalar};
use flat_read::{FlatFault, root};
use stream_spec::{Head, HeadKind, MessageTable, MetaFault};

/// The head of a message with this metadata, so that its kind and its body's length are known
/// before anything else of it is read; or the first fault: the metadata's form, the version,
/// another kind, what is absent.
pub fn read_head(bytes: &[u8]) -> Result<Head, MetaFault>
    ensures { result ≡ head_of bytes.now }
{
    let message = match message_table(bytes) {
        Ok(message) => message,
        Err(fault) => return Err(MetaFault::Flat(fault)),
    };
    if message.version != 3 && message.version != 4 {
        return Err(MetaFault::Version);
    }
    let kind = match message.header_type {
        1 => HeadKind::Schema,
        2 => HeadKind::Dictionary,
        3 => HeadKind::Batch,
        _ => return Err(MetaFault::Kind),
    };
    let Some(header) = message.header else {
        return Err(MetaFault::Shape);
    };
    if message.body >= 1 << 63 {
        return Err(MetaFault::Shape);
    }
    Ok(Head {
        kind,
        header,
        body: message.body,
    })
}

/// The fields of the table of a message, which is the root of its flatbuffer.
fn message_table(bytes: &[u8]) -> Result<MessageTable, FlatFault>
    ensures { result ≡ message_table_at bytes.now }
{
    let table = root(bytes)?;
    let version = scalar(bytes, table, 0, 2)?;
    let header_type = scalar(bytes, table, 1, 1)?;
    let header = reference(bytes, table, 2)?;
    let body = scalar(bytes, table, 3, 8)?;
    Ok(MessageTable {
        version,
        header_type,
        header,
        body,
    })
}
