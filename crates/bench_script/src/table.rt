//! The table of a generated workload.
ghost use Rattle.std.specs.Prelude.{◌≡◌, IfOk};
ghost use Rattle.bench_spec.specs.Generated.{bench_columns, bench_table};

use cell_model::{Bytes, Column, Kind, Schema, TableDecl};
use std::alloc::{AllocError, Global};

/// Rows per block.
pub(crate) const SLOTS: u32 = 64;

const BLOCKS: u32 = 512;

/// The table of a generated workload: a key, a number, and a text or none.
pub(crate) fn bench_table(alloc: Global) -> Result<TableDecl, AllocError>
    ensures { IfOk result (λ table. table ≡ bench_table) }
{
    Ok(TableDecl {
        name: Bytes::from_slice(alloc, b"bench")?,
        schema: bench_schema(alloc)?,
        slots: SLOTS,
        blocks: BLOCKS,
    })
}

/// The columns of the table of a generated workload.
fn bench_schema(alloc: Global) -> Result<Schema, AllocError>
    ensures { IfOk result (λ schema. schema ≡ bench_columns) }
{
    let mut columns = Vec::new(alloc);
    columns.push(column(alloc, b"key", Kind::I64, false)?)?;
    columns.push(column(alloc, b"n", Kind::I64, false)?)?;
    columns.push(column(alloc, b"t", Kind::Utf8, true)?)?;
    match Schema::new(columns) {
        Ok(schema) => Ok(schema),
        Err(_) => unreachable!(),
    }
}

/// A column of this name and kind.
fn column(alloc: Global, name: &[u8], kind: Kind, nullable: bool) -> Result<Column, AllocError>
    ensures { IfOk result (λ column. column
        ≡ record { name = name.now; kind = kind; nullable = nullable }) }
{
    Ok(Column {
        name: Bytes::from_slice(alloc, name)?,
        kind,
        nullable,
    })
}
