//! A record batch as its metadata has it, and how it is read (Message.fbs, "RecordBatch",
//! "FieldNode", "Buffer").
ghost use Rattle.std.specs.Prelude.{◌≡◌, ◌+◌, ◌*◌, ◌<◌, ◌≤◌, ◌^◌, IfOk, IsErrOf, Ok, Err, length};
ghost use Rattle.std.specs.Prelude.{map};
ghost use Rattle.stream_spec.specs.Metadata.{batch_at, buffer_at, node_at, places_of, signed_from};
ghost use Rattle.stream_spec.specs.declared.fault.MetaFault.{MetaFault as MetaFaultValue};

use crate::fields::{NotRead, elements, scalar};
use byteorder::{ByteOrder, LittleEndian};
use flat_read::field;
use std::alloc::{AllocError, Global};
use std::marker::Model;
use stream_spec::{BufferPlace, Elements, FieldNode, MetaFault};

/// A record batch as its metadata has it: how many rows, a node for each column, and where each
/// buffer lies.
#[derive(Debug, Drop)]
pub struct BatchMeta {
    rows: u64,
    nodes: Vec<FieldNode>,
    buffers: Vec<BufferPlace>,
}

impl Model for BatchMeta {
    ghost use Rattle.std.specs.Prelude.{false};
    ghost use Rattle.stream_spec.specs.Metadata.{BatchTable};

    ghost Value = { BatchTable };

    ghost view = { λ b. record {
      rows = b.rows;
      nodes = b.nodes.items;
      buffers = b.buffers.items;
      compressed = false;
    } };
}

impl BatchMeta {
    /// How many rows there are.
    pub fn rows(&self) -> u64
        ensures { result ≡ self.now.rows }
    {
        self.rows
    }

    /// A node for each column.
    pub fn nodes(&self) -> &[FieldNode]
        ensures { result.now ≡ self.now.nodes }
    {
        self.nodes.as_slice()
    }

    /// Where each buffer lies in the body.
    pub fn buffers(&self) -> &[BufferPlace]
        ensures { result.now ≡ self.now.buffers }
    {
        self.buffers.as_slice()
    }
}

/// The record batch whose table stands at this place of the metadata; or the first fault: the
/// metadata's form, compression, a negative length.
pub fn read_batch(alloc: Global, bytes: &[u8], table: u64) -> Result<BatchMeta, NotRead>
    ensures ok { IfOk result (λ batch. batch_at bytes.now table ≡ Ok batch) }
    ensures fault { (fault : MetaFaultValue) → IsErrOf result (NotRead.Fault fault)
        → batch_at bytes.now table ≡ Err fault }
    ensures short { IfOk result (λ batch. batch.rows < 2 ^ 63) }
{
    let rows = scalar(bytes, table, 0, 8)?;
    let nodes = elements(bytes, table, 1, 16)?;
    let buffers = elements(bytes, table, 2, 16)?;
    let compression = field(bytes, table, 3)?;
    if compression.is_some() {
        return Err(NotRead::Fault(MetaFault::Compressed));
    }
    if rows >= 1 << 63 {
        return Err(NotRead::Fault(MetaFault::Shape));
    }
    Ok(BatchMeta {
        rows,
        nodes: nodes_of(alloc, bytes, nodes)?,
        buffers: buffers_of(alloc, bytes, buffers)?,
    })
}

/// The nodes of a record batch's columns, in order.
fn nodes_of(alloc: Global, bytes: &[u8], nodes: Elements) -> Result<Vec<FieldNode>, AllocError>
    requires inside { nodes.first + 16 * nodes.count ≤ length bytes.now }
    ensures { IfOk result (λ list. list.items ≡ map (node_at bytes.now) (places_of nodes 16)) }
{
    let mut list = Vec::with_capacity(alloc, nodes.count as usize)?;
    for i in 0..nodes.count {
        list.push(node_at(bytes, nodes.first + 16 * i))?;
    }
    Ok(list)
}

/// Where each buffer of a record batch lies, in order.
fn buffers_of(
    alloc: Global,
    bytes: &[u8],
    buffers: Elements,
) -> Result<Vec<BufferPlace>, AllocError>
    requires inside { buffers.first + 16 * buffers.count ≤ length bytes.now }
    ensures { IfOk result (λ list. list.items ≡ map (buffer_at bytes.now) (places_of buffers 16)) }
{
    let mut list = Vec::with_capacity(alloc, buffers.count as usize)?;
    for i in 0..buffers.count {
        list.push(buffer_at(bytes, buffers.first + 16 * i))?;
    }
    Ok(list)
}

/// The node that stands at a place: a column's length and its nulls.
fn node_at(bytes: &[u8], place: u64) -> FieldNode
    requires { place + 16 ≤ length bytes.now }
    ensures { result ≡ node_at bytes.now place }
{
    FieldNode {
        length: signed_at(bytes, place),
        null_count: signed_at(bytes, place + 8),
    }
}

/// The place of a buffer in the body, as it stands at a place of the metadata.
fn buffer_at(bytes: &[u8], place: u64) -> BufferPlace
    requires { place + 16 ≤ length bytes.now }
    ensures { result ≡ buffer_at bytes.now place }
{
    BufferPlace {
        offset: signed_at(bytes, place),
        length: signed_at(bytes, place + 8),
    }
}

/// The signed number of 64 bits at a place.
fn signed_at(bytes: &[u8], place: u64) -> i64
    requires { place + 8 ≤ length bytes.now }
    ensures { result ≡ signed_from bytes.now place }
{
    let (_, rest) = bytes.split_at(place as usize);
    LittleEndian::read_u64(rest).cast_signed()
}
