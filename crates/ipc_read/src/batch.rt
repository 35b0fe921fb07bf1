//! A record batch, lent from its message's body (IPC format, "RecordBatch message").
ghost use Rattle.std.specs.Prelude.{◌≡◌, ◌+◌, ◌<◌, ◌^◌, ◌==◌, true, map, IfOk, IsErrOf, Ok, Err};
ghost use Rattle.std.specs.Prelude.{Some, length, pos, slice_get};
ghost use Rattle.std.specs.List.{list_all};
ghost use Rattle.std.specs.Ordering.{int_eq};
ghost use Rattle.ipc_read.specs.Batches.{has_all, have_room, have_slot, row_in, rows_in};
ghost use Rattle.ipc_read.specs.Fields.{cells_told};
ghost use Rattle.stream_spec.specs.Columns.{buffer_count, cells_in, columns_of, rows_of};
ghost use Rattle.stream_spec.specs.Columns.{values_field, values_in};
ghost use Rattle.stream_spec.specs.declared.fault.Cause.{Cause as CauseValue};

use crate::faults::NotRead;
use crate::fields::{FieldView, cell_of, field_view, stored_values};
use crate::known::Dictionary;
use crate::views::data_count;
use arrow_meta::BatchMeta;
use arrow_spec::Field;
use cell_model::{Bytes, Cell, Column, Kind, Row, Rows};
use std::alloc::{AllocError, Global};
use std::marker::Model;
use std::slice;
use stream_spec::{BufferPlace, Cause, FieldNode};

/// A record batch whose buffers were checked, lent from the bytes that it is read from and from the
/// dictionaries that came before it.
#[derive(Drop)]
pub struct Batch<'a> {
    views: Vec<FieldView<'a>>,
    rows: usize,
    size: u64,
}

impl<'a> Model for Batch<'a> {
    ghost use Rattle.std.specs.Prelude.{◌≡◌, true};
    ghost use Rattle.ipc_read.specs.Batches.{BatchRead, have_room, rows_in};

    ghost Value = { BatchRead };

    ghost view = { λ b. record { rows = rows_in b.rows b.views.items; size = b.size } };

    ghost invariant = { λ b. have_room b.rows b.views.items ≡ true };
}

impl<'a> Batch<'a> {
    /// How many rows there are.
    pub fn len(&self) -> usize
        ensures { result ≡ length self.now.rows }
    {
        self.rows
    }

    /// Whether there are none.
    pub fn is_empty(&self) -> bool
        ensures { result ≡ (length self.now.rows == 0) }
    {
        self.len() == 0
    }

    /// How many bytes the batch's message has; the next message stands behind them.
    pub fn size(&self) -> u64
        ensures { result ≡ self.now.size }
    {
        self.size
    }

    /// A row, counted from 0.
    pub fn row(&self, alloc: Global, i: usize) -> Result<Row, AllocError>
        requires { i < length self.now.rows }
        ensures { IfOk result (λ row. slice_get self.now.rows i ≡ Some row) }
    {
        row_of(alloc, &self.views, i)
    }

    /// All rows.
    pub fn rows(&self, alloc: Global) -> Result<Rows, AllocError>
        ensures { IfOk result (λ rows. rows ≡ self.now.rows) }
    {
        rows_of(alloc, &self.views, self.rows)
    }
}

/// So many rows.
fn rows_of(alloc: Global, views: &[FieldView<'_>], count: usize) -> Result<Rows, AllocError>
    requires { have_room count views.now ≡ true }
    ensures { IfOk result (λ rows. rows ≡ rows_in count views.now) }
{
    let mut rows = Vec::with_capacity(alloc, count)?;
    for i in 0..count {
        rows.push(row_of(alloc, views, i)?)?;
    }
    Ok(Rows::from(rows))
}

/// The row in a slot.
fn row_of(alloc: Global, views: &[FieldView<'_>], i: usize) -> Result<Row, AllocError>
    requires { have_slot i views.now ≡ true }
    ensures { IfOk result (λ row. row ≡ row_in views.now i) }
{
    let mut cells = Vec::with_capacity(alloc, views.len())?;
    for view in views {
        cells.push(cell_of(alloc, view, i)?)?;
    }
    Ok(Row::from(cells))
}

/// Whether so many buffers are those of the fields.
fn are_buffers_of(fields: &[Field], count: usize) -> bool
    ensures { result ≡ (count == buffer_count fields.now) }
{
    let mut left = count;
    for field in fields {
        let own = 1 + data_count(&stored_values(field));
        if left < own {
            return false;
        }
        left -= own;
    }
    left == 0
}

/// Whether each node has so many slots.
fn have_slots(nodes: &[FieldNode], rows: u64) -> bool
    ensures { result ≡ list_all (λ node. int_eq node.length (pos rows)) nodes.now }
{
    nodes
        .iter()
        .all(|node| i128::from(node.length) == i128::from(rows))
}

/// The columns of a batch of so many rows, each with its node and its buffers; or the first fault.
fn views_of<'a>(
    alloc: Global,
    dictionaries: &'a [Dictionary],
    fields: &[Field],
    rows: usize,
    nodes: &[FieldNode],
    buffers: &[BufferPlace],
    body: &'a [u8],
) -> Result<Vec<FieldView<'a>>, NotRead>
    requires fits { rows < 2 ^ 63 }
    requires a_node_each { length nodes.now ≡ length fields.now }
    requires their_buffers { length buffers.now ≡ buffer_count fields.now }
    ensures ok { IfOk result (λ views. columns_of body.now rows dictionaries.now fields.now nodes.now
        buffers.now ≡ Ok (map (cells_told rows) views.items)) }
    ensures room { IfOk result (λ views. have_room rows views.items ≡ true) }
    ensures each { IfOk result (λ views. length views.items ≡ length fields.now) }
    ensures fault { (cause : CauseValue) → IsErrOf result (NotRead.Fault cause)
        → columns_of body.now rows dictionaries.now fields.now nodes.now buffers.now ≡ Err cause }
{
    let mut views = Vec::with_capacity(alloc, fields.len())?;
    let mut left = buffers;
    for (i, field) in fields.iter().enumerate() {
        let (own, others) = left.split_at(1 + data_count(&stored_values(field)));
        match field_view(
            dictionaries,
            field,
            body,
            rows,
            &nodes[i],
            &own[0],
            &own[1..],
        ) {
            Ok(view) => views.push(view)?,
            Err(cause) => return Err(NotRead::Fault(cause)),
        }
        left = others;
    }
    Ok(views)
}

/// The columns of a batch of these fields whose metadata and body these are; or the first fault:
/// counts and lengths that are not the fields', and then column by column.
fn checked_views<'a>(
    alloc: Global,
    dictionaries: &'a [Dictionary],
    fields: &[Field],
    meta: &BatchMeta,
    body: &'a [u8],
) -> Result<Vec<FieldView<'a>>, NotRead>
    requires { meta.now.rows < 2 ^ 63 }
    ensures ok { IfOk result (λ views. cells_in dictionaries.now fields.now meta.now body.now
        ≡ Ok (map (cells_told meta.now.rows) views.items)) }
    ensures room { IfOk result (λ views. have_room meta.now.rows views.items ≡ true) }
    ensures each { IfOk result (λ views. length views.items ≡ length fields.now) }
    ensures fault { (cause : CauseValue) → IsErrOf result (NotRead.Fault cause)
        → cells_in dictionaries.now fields.now meta.now body.now ≡ Err cause }
{
    let (rows, nodes, buffers) = (meta.rows(), meta.nodes(), meta.buffers());
    if nodes.len() != fields.len() {
        return Err(NotRead::Fault(Cause::Shape));
    }
    if !are_buffers_of(fields, buffers.len()) {
        return Err(NotRead::Fault(Cause::Shape));
    }
    if !have_slots(nodes, rows) {
        return Err(NotRead::Fault(Cause::Shape));
    }
    views_of(
        alloc,
        dictionaries,
        fields,
        rows as usize,
        nodes,
        buffers,
        body,
    )
}

/// The batch of these fields whose metadata and body these are, in a message of so many bytes; or
/// the first fault.
pub fn batch_of<'a>(
    alloc: Global,
    dictionaries: &'a [Dictionary],
    fields: &[Field],
    meta: &BatchMeta,
    body: &'a [u8],
    size: u64,
) -> Result<Batch<'a>, NotRead>
    requires { meta.now.rows < 2 ^ 63 }
    ensures ok { IfOk result (λ batch. rows_of dictionaries.now fields.now meta.now body.now
        ≡ Ok batch.rows) }
    ensures size { IfOk result (λ batch. batch.size ≡ size) }
    ensures fault { (cause : CauseValue) → IsErrOf result (NotRead.Fault cause)
        → rows_of dictionaries.now fields.now meta.now body.now ≡ Err cause }
{
    let views = checked_views(alloc, dictionaries, fields, meta, body)?;
    Ok(Batch {
        views,
        rows: meta.rows() as usize,
        size,
    })
}

/// The values of a dictionary of this kind, whose metadata and body these are; or the first fault.
pub fn values_in(
    alloc: Global,
    kind: Kind,
    meta: &BatchMeta,
    body: &[u8],
) -> Result<Vec<Cell>, NotRead>
    requires { meta.now.rows < 2 ^ 63 }
    ensures ok { IfOk result (λ cells. values_in kind meta.now body.now ≡ Ok cells.items) }
    ensures fault { (cause : CauseValue) → IsErrOf result (NotRead.Fault cause)
        → values_in kind meta.now body.now ≡ Err cause }
{
    let field = values_field(alloc, kind);
    let views = checked_views(alloc, &[], slice::from_ref(&field), meta, body)?;
    Ok(cells_of(alloc, &views[0], meta.rows() as usize)?)
}

/// A field of such values that is not encoded.
fn values_field(alloc: Global, kind: Kind) -> Field
    ensures { result ≡ values_field kind }
{
    Field {
        column: Column {
            name: Bytes::from(Vec::new(alloc)),
            kind,
            nullable: true,
        },
        encoding: None,
    }
}

/// The cells of so many rows.
fn cells_of(alloc: Global, view: &FieldView<'_>, count: usize) -> Result<Vec<Cell>, AllocError>
    requires { has_all count view.now ≡ true }
    ensures { IfOk result (λ cells. cells.items ≡ cells_told count view.now) }
{
    let mut cells = Vec::with_capacity(alloc, count)?;
    for i in 0..count {
        cells.push(cell_of(alloc, view, i)?)?;
    }
    Ok(cells)
}
