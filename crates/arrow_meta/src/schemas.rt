//! The fields of a schema message and how they are read (Schema.fbs, "Schema", "Field", "Type",
//! "DictionaryEncoding").
ghost use Rattle.std.specs.List.{list_all};
ghost use Rattle.std.specs.Prelude.{◌≡◌, ◌+◌, ◌*◌, IfOk, IsErrOf, MatchResult, Ok, Err};
ghost use Rattle.std.specs.Str.{is_utf8};
ghost use Rattle.arrow_meta.specs.Fields.{table_of};
ghost use Rattle.stream_spec.specs.Metadata.{agrees, all_agree, encoding_of, encoding_table_at};
ghost use Rattle.stream_spec.specs.Metadata.{field_table_at, fields_at, kind_of_field};
ghost use Rattle.stream_spec.specs.Metadata.{schema_field_at, schema_table_at};
ghost use Rattle.stream_spec.specs.declared.fault.MetaFault.{MetaFault as MetaFaultValue};

use crate::fields::{NotRead, elements, reference, scalar, text};
use crate::type_tables::type_of;
use crate::types::{index_type, is_type, kind_of_type, type_at};
use arrow_spec::{ArrowType, Encoding, Field};
use cell_model::{Bytes, Column, Kind};
use flat_read::{FlatFault, field, follow};
use std::alloc::Global;
use stream_spec::{EncodingTable, FieldKind, MetaFault, SchemaTable};

/// The fields of the schema whose table stands at this place of the metadata; or the first fault,
/// from the first field on: the metadata's form, big-endian numbers, no field; then each field's
/// form, name, type and that of its indices, dictionary, and children.
pub fn read_schema(alloc: Global, bytes: &[u8], table: u64) -> Result<Vec<Field>, NotRead>
    ensures ok { IfOk result (λ fields. fields_at bytes.now table ≡ Ok fields.items) }
    ensures fault { (fault : MetaFaultValue) → IsErrOf result (NotRead.Fault fault)
        → fields_at bytes.now table ≡ Err fault }
{
    let schema = schema_table(bytes, table)?;
    if schema.endianness != 0 {
        return Err(NotRead::Fault(MetaFault::Endian));
    }
    if schema.fields.count == 0 {
        return Err(NotRead::Fault(MetaFault::Shape));
    }
    let mut fields = Vec::with_capacity(alloc, schema.fields.count as usize)?;
    for i in 0..schema.fields.count {
        match schema_field(alloc, bytes, &fields, schema.fields.first + 4 * i) {
            Ok(field) => fields.push(field)?,
            Err(fault) => return Err(fault),
        }
    }
    Ok(fields)
}

/// The fields of a schema's table that are read: its byte order and its columns.
fn schema_table(bytes: &[u8], table: u64) -> Result<SchemaTable, FlatFault>
    ensures { result ≡ schema_table_at bytes.now table }
{
    let endianness = scalar(bytes, table, 0, 2)?;
    let fields = elements(bytes, table, 1, 4)?;
    Ok(SchemaTable { endianness, fields })
}

/// A Field table (Schema.fbs, "Field").
#[derive(Clone, Copy)]
struct FieldTable<'a> {
    name: &'a [u8],
    nullable: bool,
    type_place: Option<u64>,
    encoding: Option<EncodingTable>,
    children: u64,
    arrow_type: ArrowType,
}

/// The field whose reference stands at this place, behind these.
fn schema_field(alloc: Global, bytes: &[u8], before: &[Field], place: u64) -> Result<Field, NotRead>
    ensures ok { IfOk result (λ field. schema_field_at bytes.now before.now place ≡ Ok field) }
    ensures fault { (fault : MetaFaultValue) → IsErrOf result (NotRead.Fault fault)
        → schema_field_at bytes.now before.now place ≡ Err fault }
{
    let table = follow(bytes, place)?;
    let table = field_table(bytes, table)?;
    let FieldKind { kind, encoding } = kind_of_field(before, &table)?;
    Ok(Field {
        column: Column {
            name: Bytes::from_slice(alloc, table.name)?,
            kind,
            nullable: table.nullable,
        },
        encoding,
    })
}

/// What the table of a field says, before it is judged whether a field can be so.
fn field_table(bytes: &[u8], table: u64) -> Result<FieldTable<'_>, FlatFault>
    ensures { MatchResult result (λ f. field_table_at bytes.now table ≡ Ok (table_of f))
        (λ f. field_table_at bytes.now table ≡ Err f) }
{
    let name = text(bytes, table, 0)?;
    let nullable = scalar(bytes, table, 1, 1)?;
    let type_type = scalar(bytes, table, 2, 1)?;
    let type_place = field(bytes, table, 3)?;
    let dictionary = reference(bytes, table, 4)?;
    let children = elements(bytes, table, 5, 4)?;
    let arrow_type = type_at(bytes, type_type, type_place)?;
    let encoding = encoding_table(bytes, dictionary)?;
    Ok(FieldTable {
        name,
        nullable: nullable != 0,
        type_place,
        encoding,
        children: children.count,
        arrow_type,
    })
}

/// What the table of a field's encoding says, if there is one.
fn encoding_table(bytes: &[u8], table: Option<u64>) -> Result<Option<EncodingTable>, FlatFault>
    ensures { result ≡ encoding_table_at bytes.now table }
{
    let Some(table) = table else {
        return Ok(None);
    };
    let id = scalar(bytes, table, 0, 8)?;
    let place = reference(bytes, table, 1)?;
    let indices = index_type(bytes, place)?;
    Ok(Some(EncodingTable { id, indices }))
}

/// What a field behind these is, or its first fault.
fn kind_of_field(before: &[Field], field: &FieldTable<'_>) -> Result<FieldKind, MetaFault>
    ensures { result ≡ kind_of_field before.now (table_of field.now) }
{
    if !is_utf8(field.name) {
        return Err(MetaFault::Utf8);
    }
    let Some(kind) = kind_of_type(field.arrow_type) else {
        return Err(MetaFault::Kind);
    };
    let encoding = encoding_of(&field.encoding)?;
    if !all_agree(before, &kind, &encoding) {
        return Err(MetaFault::Dictionary);
    }
    if field.type_place.is_none() {
        return Err(MetaFault::Shape);
    }
    if field.children != 0 {
        return Err(MetaFault::Shape);
    }
    Ok(FieldKind { kind, encoding })
}

/// How a field is encoded, if it is; its indices have to be integers of a width that there is.
fn encoding_of(table: &Option<EncodingTable>) -> Result<Option<Encoding>, MetaFault>
    ensures { result ≡ encoding_of table.now }
{
    let Some(table) = table else {
        return Ok(None);
    };
    match kind_of_type(table.indices) {
        Some(indices) => Ok(Some(Encoding {
            id: table.id,
            indices,
        })),
        None => Err(MetaFault::Kind),
    }
}

/// Whether none of these fields has the dictionary and values of another kind.
fn all_agree(before: &[Field], kind: &Kind, encoding: &Option<Encoding>) -> bool
    ensures { result ≡ all_agree before.now kind.now encoding.now }
{
    match encoding {
        Some(encoding) => all_with(before, encoding.id, kind),
        None => true,
    }
}

/// Whether those of these fields that have the dictionary with this id have values of this kind.
fn all_with(before: &[Field], id: u64, kind: &Kind) -> bool
    ensures { result ≡ list_all (agrees id kind.now) before.now }
{
    before.iter().all(|field| agrees(id, kind, field))
}

/// Whether the field has not the dictionary with this id, or its values are of this kind.
fn agrees(id: u64, kind: &Kind, field: &Field) -> bool
    ensures { result ≡ agrees id kind.now field.now }
{
    match &field.encoding {
        Some(encoding) => {
            encoding.id != id || is_type(type_of(field.column.kind), type_of(*kind))
        }
        None => true,
    }
}

/// Whether the bytes are a text, as the name of a column has to be.
fn is_utf8(bytes: &[u8]) -> bool
    ensures { result ≡ is_utf8 bytes.now }
{
    match str::from_utf8(bytes) {
        Ok(_) => true,
        Err(_) => false,
    }
}
