//! The laying of a schema's columns, as tables behind one another (Schema.fbs, "Schema", "Field"
//! and "DictionaryEncoding").
ghost use Rattle.std.specs.Prelude.{◌≡◌, ◌+◌, ◌*◌, ◌^◌, ◌&&◌, ◌<◌, ◌≤◌, All, IfOk, OnOk, length};
ghost use Rattle.std.specs.Prelude.{map, None, Some};
ghost use Rattle.arrow_spec.specs.Dictionaries.{is_encoded};
ghost use Rattle.arrow_spec.specs.Fields.{by_dictionary};
ghost use Rattle.arrow_spec.specs.Flatbuffers.{vector_of_tables};
ghost use Rattle.arrow_spec.specs.Metadata.{encoding_table, field_table, field_table_of};
ghost use Rattle.arrow_spec.specs.Metadata.{schema_table};
ghost use Rattle.cell_model.specs.Schemas.{IsName};
ghost use Rattle.cell_model.specs.Widths.{most_bytes};
ghost use Rattle.arrow_meta.specs.Headers.{field_of, fields_of};
ghost use Rattle.arrow_meta.specs.Laying.{BeginsWith, IsLaid, column_fields};

use crate::type_tables::{lay_int, lay_type, number_of_type, type_of};
use cell_model::{Column, Kind};
use flat_build::FlatBuild;
use std::alloc::AllocError;

/// Lays a schema's table with its columns, and answers the table's place. The utf8 and binary
/// columns are encoded by dictionaries where columns are to be.
pub fn lay_schema(
    build: &mut FlatBuild,
    columns: &[Column],
    encode: bool,
) -> Result<u32, AllocError>
    requires few { length columns.now ≤ 32 }
    requires named { All IsName columns.now }
    requires room { length build.old ≤ 2 ^ 16 }
    ensures { IfOk result (λ place. IsLaid (schema_table (fields_of encode columns.now)) (2 ^ 22)
        build.old build.new place) }
{
    let schema = build.table(&[8, 10, 8, 4])?;
    build.number(schema + 8, 2, 0);
    let fields = lay_fields(build, columns, encode)?;
    build.refer(schema + 4, fields);
    Ok(schema)
}

/// Lays a vector of the columns' tables, and answers the place of its length.
fn lay_fields(build: &mut FlatBuild, columns: &[Column], encode: bool) -> Result<u32, AllocError>
    requires few { length columns.now ≤ 32 }
    requires named { All IsName columns.now }
    requires room { length build.old ≤ 2 ^ 17 }
    ensures { IfOk result (λ place. IsLaid
        (vector_of_tables (map field_table (fields_of encode columns.now)))
        (64 + length columns.now * 66200)
        build.old
        build.new
        place) }
{
    let fields = build.vector(columns.len() as u32, 4)?;
    let mut at = fields + 4;
    for (place, column) in columns.iter().enumerate() {
        let field = lay_field(build, place as u32, column, encode)?;
        build.refer(at, field);
        at += 4;
    }
    Ok(fields)
}

/// Lays the table of the column at a place, which is the id of its dictionary if it is encoded, and
/// answers the table's place.
fn lay_field(
    build: &mut FlatBuild,
    place: u32,
    column: &Column,
    encode: bool,
) -> Result<u32, AllocError>
    requires name { length column.now.name ≤ most_bytes }
    requires room { length build.old ≤ 2 ^ 22 }
    ensures { IfOk result (λ at. IsLaid (field_table (field_of encode (place, column.now))) 66000
        build.old build.new at) }
{
    if encode && is_encoded(column.kind) {
        lay_encoded_field(build, place, column)
    } else {
        lay_plain_field(build, column)
    }
}

/// Whether a column of this kind is one that dictionaries encode.
fn is_encoded(kind: Kind) -> bool
    ensures { result ≡ is_encoded kind }
{
    match kind {
        Kind::Utf8 | Kind::Binary => true,
        Kind::I8
        | Kind::I16
        | Kind::I32
        | Kind::I64
        | Kind::U8
        | Kind::U16
        | Kind::U32
        | Kind::U64
        | Kind::Bool
        | Kind::LargeUtf8
        | Kind::LargeBinary
        | Kind::Fixed(_)
        | Kind::Date => false,
    }
}

/// Lays the table of a column that is not encoded, and answers the table's place.
fn lay_plain_field(build: &mut FlatBuild, column: &Column) -> Result<u32, AllocError>
    requires name { length column.now.name ≤ most_bytes }
    requires room { length build.old ≤ 2 ^ 22 }
    ensures { IfOk result (λ place. IsLaid (field_table_of column.now None) 66000 build.old
        build.new place) }
{
    let field = build.table(&[16, 18, 4, 16, 17, 8, 0, 12])?;
    lay_column(build, field, 16, column)?;
    let children = build.vector(0, 4)?;
    build.refer(field + 12, children);
    Ok(field)
}

/// Lays the table of a column that is encoded by the dictionary with this id, and answers the
/// table's place.
fn lay_encoded_field(build: &mut FlatBuild, id: u32, column: &Column) -> Result<u32, AllocError>
    requires name { length column.now.name ≤ most_bytes }
    requires room { length build.old ≤ 2 ^ 22 }
    ensures { IfOk result (λ place. IsLaid (field_table_of column.now (Some (by_dictionary id)))
        66000 build.old build.new place) }
{
    let field = build.table(&[16, 22, 4, 20, 21, 8, 12, 16])?;
    lay_column(build, field, 20, column)?;
    let encoding = lay_encoding(build, id)?;
    build.refer(field + 12, encoding);
    let children = build.vector(0, 4)?;
    build.refer(field + 16, children);
    Ok(field)
}

/// Lays what the table of each column begins with, and writes it into the table at `field`: the
/// name; at the place `nullable` of the table whether a value may be missing, and behind that the
/// number of the type; and the type.
fn lay_column(
    build: &mut FlatBuild,
    field: u32,
    nullable: u32,
    column: &Column,
) -> Result<(), AllocError>
    requires name { length column.now.name ≤ most_bytes }
    requires behind { 12 ≤ nullable }
    requires inside { field + (nullable + 2) ≤ length build.old }
    requires room { length build.old ≤ 2 ^ 22 + 128 }
    ensures { OnOk result (BeginsWith field (column_fields nullable column.now) 65700 build.old
        build.new) }
{
    let name = build.string(column.name.as_slice())?;
    build.refer(field + 4, name);
    build.number(field + nullable, 1, u64::from(column.nullable));
    let arrow_type = type_of(column.kind);
    build.number(field + (nullable + 1), 1, number_of_type(arrow_type));
    let table = lay_type(build, arrow_type)?;
    build.refer(field + 8, table);
    Ok(())
}

/// Lays the table that says that a column has the dictionary with this id, and indices of 32 bits
/// with a sign; answers the table's place.
fn lay_encoding(build: &mut FlatBuild, id: u32) -> Result<u32, AllocError>
    requires { length build.old + 64 ≤ 2 ^ 23 }
    ensures { IfOk result (λ place. IsLaid (encoding_table (by_dictionary id)) 128 build.old
        build.new place) }
{
    let encoding = build.table(&[10, 17, 8, 4, 16])?;
    build.number(encoding + 8, 8, u64::from(id));
    let index = lay_int(build, 32, true)?;
    build.refer(encoding + 4, index);
    build.number(encoding + 16, 1, 0);
    Ok(encoding)
}
