//! The types of columns, as tables (Schema.fbs, "Type").
ghost use Rattle.std.specs.Prelude.{◌≡◌, ◌^◌, ◌<◌, ◌≤◌, IfOk, length};
ghost use Rattle.arrow_spec.specs.Metadata.{FitsFields, date_table, empty_table, fixed_table};
ghost use Rattle.arrow_spec.specs.Metadata.{int_table, number_of_type, table_of_type, type_of};
ghost use Rattle.std.specs.Int.{from_bool};
ghost use Rattle.arrow_meta.specs.Laying.{IsLaid};

use arrow_spec::ArrowType;
use cell_model::Kind;
use flat_build::FlatBuild;
use std::alloc::AllocError;

/// The type of a kind's values.
pub fn type_of(kind: Kind) -> ArrowType
    ensures value { result ≡ type_of kind }
    ensures fits { FitsFields result }
{
    match kind {
        Kind::I8 => ArrowType::SignedInt(8),
        Kind::I16 => ArrowType::SignedInt(16),
        Kind::I32 => ArrowType::SignedInt(32),
        Kind::I64 => ArrowType::SignedInt(64),
        Kind::U8 => ArrowType::UnsignedInt(8),
        Kind::U16 => ArrowType::UnsignedInt(16),
        Kind::U32 => ArrowType::UnsignedInt(32),
        Kind::U64 => ArrowType::UnsignedInt(64),
        Kind::Bool => ArrowType::Plain(6),
        Kind::Utf8 => ArrowType::Plain(5),
        Kind::Binary => ArrowType::Plain(4),
        Kind::LargeUtf8 => ArrowType::Plain(20),
        Kind::LargeBinary => ArrowType::Plain(19),
        Kind::Fixed(width) => ArrowType::FixedSizeBinary(u64::from(width.bytes())),
        Kind::Date => ArrowType::Date(0),
    }
}

/// The number of a type in the union of types.
pub fn number_of_type(arrow_type: ArrowType) -> u64
    requires { FitsFields arrow_type }
    ensures value { result ≡ number_of_type arrow_type }
    ensures fits { result < 2 ^ 8 }
{
    match arrow_type {
        ArrowType::SignedInt(_) | ArrowType::UnsignedInt(_) => 2,
        ArrowType::FixedSizeBinary(_) => 15,
        ArrowType::Date(_) => 8,
        ArrowType::Plain(number) => number,
    }
}

/// Lays the table of a type, and answers its place.
pub fn lay_type(build: &mut FlatBuild, arrow_type: ArrowType) -> Result<u32, AllocError>
    requires room { length build.old ≤ 2 ^ 23 }
    requires fits { FitsFields arrow_type }
    ensures { IfOk result (λ place. IsLaid (table_of_type arrow_type) 64 build.old build.new
        place) }
{
    match arrow_type {
        ArrowType::SignedInt(bits) => lay_int(build, bits, true),
        ArrowType::UnsignedInt(bits) => lay_int(build, bits, false),
        ArrowType::FixedSizeBinary(bytes) => lay_fixed(build, bytes),
        ArrowType::Date(unit) => lay_date(build, unit),
        ArrowType::Plain(_) => lay_empty(build),
    }
}

/// Lays the table of a type of integers of so many bits, and answers its place.
pub fn lay_int(build: &mut FlatBuild, bits: u64, signed: bool) -> Result<u32, AllocError>
    requires room { length build.old ≤ 2 ^ 23 }
    requires fits { bits < 2 ^ 32 }
    ensures { IfOk result (λ place. IsLaid (int_table bits (from_bool signed)) 64 build.old
        build.new place) }
{
    let table = build.table(&[8, 9, 4, 8])?;
    build.number(table + 4, 4, bits);
    build.number(table + 8, 1, u64::from(signed));
    Ok(table)
}

/// Lays the table of a type of so many bytes each, and answers its place.
fn lay_fixed(build: &mut FlatBuild, bytes: u64) -> Result<u32, AllocError>
    requires room { length build.old ≤ 2 ^ 23 }
    requires fits { bytes < 2 ^ 32 }
    ensures { IfOk result (λ place. IsLaid (fixed_table bytes) 64 build.old build.new place) }
{
    let table = build.table(&[6, 8, 4])?;
    build.number(table + 4, 4, bytes);
    Ok(table)
}

/// Lays the table of a type of dates in this unit, and answers its place.
fn lay_date(build: &mut FlatBuild, unit: u64) -> Result<u32, AllocError>
    requires room { length build.old ≤ 2 ^ 23 }
    requires fits { unit < 2 ^ 16 }
    ensures { IfOk result (λ place. IsLaid (date_table unit) 64 build.old build.new place) }
{
    let table = build.table(&[6, 6, 4])?;
    build.number(table + 4, 2, unit);
    Ok(table)
}

/// Lays a table without fields, and answers its place.
fn lay_empty(build: &mut FlatBuild) -> Result<u32, AllocError>
    requires { length build.old ≤ 2 ^ 23 }
    ensures { IfOk result (λ place. IsLaid empty_table 64 build.old build.new place) }
{
    build.table(&[4, 4])
}
