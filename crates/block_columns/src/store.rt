//! What a column stores for each cell.
ghost use Rattle.std.specs.Prelude.{◌≡◌, ◌<◌, ◌≤◌, ◌++◌, [], IfOk, OnOk, OnErr, IfNone, IfSome};
ghost use Rattle.std.specs.Prelude.{List, length, map, take, replicate, slice_set, slice_index_or};
ghost use Rattle.std.specs.Prelude.{IsTrue, ◌↔◌, ◌^◌, ◌*◌, ℕ, true, false, Bool};
ghost use Rattle.cell_model.specs.declared.cell.Cell.TheVariants as cell;
ghost use Rattle.cell_model.specs.declared.cell.Cell.{Cell as CellValue};
ghost use Rattle.cell_model.specs.declared.kind.Kind.{Kind as KindValue};
ghost use Rattle.std.specs.Int.{Width, byte_len};
ghost use Rattle.std.specs.List.{flat_map};
ghost use Rattle.arrow_spec.specs.Arrays.{boolean, fixed, layout_of, number_of, strip, strip_of};
ghost use Rattle.arrow_spec.specs.Arrays.{truth_of, value_of};
ghost use Rattle.arrow_spec.specs.Bytes.{bitmap, number_bytes};
ghost use Rattle.block_columns.specs.Cells.{IsSlotOf, IsStoreOf, Stores, StoresNone, bytes_at};
ghost use Rattle.block_columns.specs.Cells.{bytes_in, full_cells, stored_length};
ghost use Rattle.cell_model.specs.Kinds.{values_of};
ghost use Rattle.cell_model.specs.Widths.{number_width};

use crate::value::Value;
use cell_model::{Bytes, Cell, Kind, NumberWidth, Values};
use flat_column::{Bits, Fixed, Strips};
use std::alloc::{AllocError, Global};
use std::mem;

/// A value for each cell; that of a null is zero, false, no bytes, or zeros where all values have
/// equally many.
#[derive(Drop)]
pub enum Store {
    Numbers(Fixed),
    Truths(Bits),
    /// Values of any length.
    Values(Vec<Value>),
    /// Values of which each has so many bytes.
    Strips(Strips),
}

impl Store {
    /// No value of the kind, which takes no memory.
    pub fn new(alloc: Global, kind: Kind) -> Result<Store, AllocError>
        ensures known { IfOk result (λ store. IsStoreOf kind store) }
        ensures empty { IfOk result (λ store. Stores store []) }
    {
        match kind.values() {
            Values::Signed(width) => numbers(alloc, width, true),
            Values::Unsigned(width) => numbers(alloc, width, false),
            Values::Truths => Ok(Store::Truths(Bits::new(alloc, 0)?)),
            Values::Texts(_) | Values::Blobs(_) => Ok(Store::Values(Vec::new(alloc))),
            Values::Strips(width) => {
                Ok(Store::Strips(Strips::new(alloc, width.bytes() as usize, 0)?))
            }
        }
    }

    /// Values of `n` more nulls. Without memory nothing changes.
    pub fn extend(&mut self, n: usize) -> Result<(), AllocError>
        ensures known { (kind : KindValue) → IsStoreOf kind self.old → IsStoreOf kind self.new }
        ensures ok { OnOk result ((cells : List CellValue) → Stores self.old cells →
            Stores self.new (cells ++ replicate n cell.Null)) }
        ensures err { OnErr result ((cells : List CellValue) → Stores self.old cells →
            Stores self.new cells) }
    {
        match self {
            Store::Numbers(numbers) => numbers.extend(n),
            Store::Truths(truths) => truths.extend(n),
            Store::Values(values) => add_empty(values, n),
            Store::Strips(strips) => strips.extend(n),
        }
    }

    /// Puts the value of a cell, which takes no memory.
    pub fn lay(&mut self, kind: Kind, at: usize, value: Cell)
        requires known { IsStoreOf kind self.old }
        requires slot { IsSlotOf kind value }
        requires at { at < stored_length self.old }
        ensures known { IsStoreOf kind self.new }
        ensures laid { (cells : List CellValue) → Stores self.old cells →
            Stores self.new (slice_set cells at value) }
    {
        match self {
            Store::Numbers(numbers) => numbers.set(at, number_of(&value)),
            Store::Truths(truths) => truths.set(at, truth_of(&value)),
            Store::Values(values) => values[at] = owned_value(value),
            Store::Strips(strips) => lay_strip(strips, at, &value),
        }
    }

    /// Puts the value of a null, and moves the value out that has bytes of its own.
    pub fn clear(&mut self, at: usize) -> Option<Bytes>
        requires at { at < stored_length self.old }
        ensures known { (kind : KindValue) → IsStoreOf kind self.old → IsStoreOf kind self.new }
        ensures cleared { (cells : List CellValue) → Stores self.old cells →
            Stores self.new (slice_set cells at cell.Null) }
        ensures moved { IfSome result (λ bytes. bytes ≡ bytes_at self.old at) }
        ensures long { IfSome result (λ bytes. 12 < length bytes) }
        ensures short { IfNone result (length (bytes_at self.old at) ≤ 12) }
    {
        match self {
            Store::Numbers(numbers) => {
                numbers.set(at, 0);
                None
            }
            Store::Truths(truths) => {
                truths.set(at, false);
                None
            }
            Store::Values(values) => mem::replace(&mut values[at], Value::empty()).into_owned(),
            Store::Strips(strips) => {
                strips.clear(at);
                None
            }
        }
    }

    /// A copy of the value as a cell that is not null.
    pub fn get(&self, alloc: Global, kind: Kind, at: usize) -> Result<Cell, AllocError>
        requires { at < stored_length self.now }
        ensures { IfOk result (λ found. found
            ≡ slice_index_or (full_cells kind self.now) at cell.Null) }
    {
        match self {
            Store::Numbers(numbers) => Ok(Cell::Num(numbers.get(at))),
            Store::Truths(truths) => Ok(Cell::Truth(truths.get(at))),
            Store::Values(values) => {
                let bytes = Bytes::from_slice(alloc, values[at].as_slice())?;
                Ok(cell_of_bytes(kind, bytes))
            }
            Store::Strips(strips) => {
                let bytes = Bytes::from_slice(alloc, strips.get(at))?;
                Ok(cell_of_bytes(kind, bytes))
            }
        }
    }

    /// The number of a cell that is not null, 0 where other values are stored.
    #[inline(always)]
    pub fn number(&self, at: usize) -> i128
        requires { at < stored_length self.now }
        ensures { (kind : KindValue) → result
            ≡ number_of (slice_index_or (full_cells kind self.now) at cell.Null) }
    {
        match self {
            Store::Numbers(numbers) => numbers.get(at),
            Store::Truths(_) | Store::Values(_) | Store::Strips(_) => 0,
        }
    }

    /// Whether the value, as a cell that is not null, is this cell.
    pub fn holds(&self, kind: Kind, at: usize, value: &Cell) -> bool
        requires { at < stored_length self.now }
        ensures { IsTrue result
            ↔ (slice_index_or (full_cells kind self.now) at cell.Null ≡ value.now) }
    {
        match self {
            Store::Numbers(numbers) => is_number(numbers.get(at), value),
            Store::Truths(truths) => is_truth(truths.get(at), value),
            Store::Values(values) => is_bytes(kind, values[at].as_slice(), value),
            Store::Strips(strips) => is_bytes(kind, strips.get(at), value),
        }
    }

    /// The same values again.
    pub fn copy(&self, alloc: Global) -> Result<Store, AllocError>
        ensures known { (kind : KindValue) → IsStoreOf kind self.now
            → IfOk result (IsStoreOf kind) }
        ensures same { (cells : List CellValue) → Stores self.now cells
            → IfOk result (λ store. Stores store cells) }
    {
        match self {
            Store::Numbers(numbers) => Ok(Store::Numbers(numbers.clone()?)),
            Store::Truths(truths) => Ok(Store::Truths(truths.clone()?)),
            Store::Values(values) => Ok(Store::Values(copied_values(alloc, values.as_slice())?)),
            Store::Strips(strips) => Ok(Store::Strips(strips.clone()?)),
        }
    }

    /// The Arrow bytes of the first `n` values of fixed width, lent; none where other values are
    /// stored.
    pub fn fixed_bytes(&self, n: usize) -> &[u8]
        requires { n ≤ stored_length self.now }
        ensures numbers { (kind : KindValue) (width : Width) (cells : List CellValue)
            → IsStoreOf kind self.now →
            Stores self.now cells → layout_of kind ≡ fixed width →
            result.now ≡ flat_map (λ cell. number_bytes width (number_of cell)) (take n cells) }
        ensures strips { (kind : KindValue) (width : ℕ) (cells : List CellValue)
            → IsStoreOf kind self.now →
            Stores self.now cells → layout_of kind ≡ strip width →
            result.now ≡ flat_map (strip_of width) (take n cells) }
    {
        match self {
            Store::Numbers(numbers) => numbers.bytes(n),
            Store::Strips(strips) => strips.bytes(n),
            Store::Truths(_) | Store::Values(_) => &[],
        }
    }

    /// Appends the bitmap of the first `n` truth values; nothing where other values are stored.
    pub fn copy_truths(&self, n: usize, out: &mut Vec<u8>) -> Result<(), AllocError>
        requires { n ≤ stored_length self.now }
        ensures { OnOk result ((kind : KindValue) (cells : List CellValue) → IsStoreOf kind self.now
            →
            Stores self.now cells → layout_of kind ≡ boolean →
            out.new.items ≡ out.old.items ++ bitmap (map truth_of (take n cells))) }
    {
        match self {
            Store::Truths(truths) => truths.copy_to(n, out),
            Store::Numbers(_) | Store::Values(_) | Store::Strips(_) => Ok(()),
        }
    }

    /// The bytes of a value of any length, lent; none where other values are stored.
    pub fn bytes(&self, at: usize) -> &[u8]
        requires { at < stored_length self.now }
        ensures { result.now ≡ bytes_at self.now at }
    {
        match self {
            Store::Values(values) => values[at].as_slice(),
            Store::Numbers(_) | Store::Truths(_) | Store::Strips(_) => &[],
        }
    }

    /// Whether the value has more than 12 bytes of its own.
    pub fn is_long(&self, at: usize) -> bool
        requires { at < stored_length self.now }
        ensures { IsTrue result ↔ (12 < length (bytes_at self.now at)) }
    {
        match self {
            Store::Numbers(_) | Store::Truths(_) | Store::Strips(_) => false,
            Store::Values(values) => !values[at].is_inline(),
        }
    }
}

/// Bytes as a cell of a kind.
fn cell_of_bytes(kind: Kind, bytes: Bytes) -> Cell
    ensures { result ≡ bytes_in (values_of kind) bytes }
{
    if kind.values().are_texts() {
        Cell::Text(bytes)
    } else {
        Cell::Blob(bytes)
    }
}

/// Whether a cell is this number.
fn is_number(number: i128, value: &Cell) -> bool
    ensures { IsTrue result ↔ (cell.Num number ≡ value.now) }
{
    match value {
        Cell::Num(another) => number == *another,
        _ => false,
    }
}

/// Whether a cell is this truth value.
fn is_truth(truth: bool, value: &Cell) -> bool
    ensures { IsTrue result ↔ (cell.Truth truth ≡ value.now) }
{
    match value {
        Cell::Truth(another) => truth == *another,
        _ => false,
    }
}

/// Whether a cell is these bytes as a cell of a kind.
fn is_bytes(kind: Kind, bytes: &[u8], value: &Cell) -> bool
    ensures { IsTrue result ↔ (bytes_in (values_of kind) bytes.now ≡ value.now) }
{
    match value {
        Cell::Text(text) => kind.values().are_texts() && bytes == text.as_slice(),
        Cell::Blob(blob) => !kind.values().are_texts() && bytes == blob.as_slice(),
        Cell::Null | Cell::Num(_) | Cell::Truth(_) => false,
    }
}

/// The bytes that were moved out as a cell of a kind, or the spare cell where there are none.
pub fn moved_cell(kind: Kind, moved: Option<Bytes>, spare: Cell) -> Cell
    ensures some { IfSome moved (λ bytes. result ≡ bytes_in (values_of kind) bytes) }
    ensures none { IfNone moved (result ≡ spare) }
{
    match moved {
        Some(bytes) => cell_of_bytes(kind, bytes),
        None => spare,
    }
}

/// The cells of a column of numbers that has no slot yet.
fn numbers(alloc: Global, width: NumberWidth, signed: bool) -> Result<Store, AllocError>
    ensures { IfOk result
        (λ store. StoresNone (8 * byte_len (number_width width)) signed store) }
{
    Ok(Store::Numbers(Fixed::new(alloc, 8 * width.bytes(), signed, 0)?))
}

/// Copies of values of any length.
fn copied_values(alloc: Global, values: &[Value]) -> Result<Vec<Value>, AllocError>
    ensures { IfOk result (λ copies. copies.items ≡ values.now) }
{
    let mut copies = Vec::with_capacity(alloc, values.len())?;
    for value in values {
        copies.push(value.copy(alloc)?)?;
    }
    Ok(copies)
}

/// Adds so many empty values. Without memory none is added.
fn add_empty(values: &mut Vec<Value>, n: usize) -> Result<(), AllocError>
    ensures ok { OnOk result (values.new.items ≡ values.old.items ++ replicate n []) }
    ensures err { OnErr result (values.new.items ≡ values.old.items) }
{
    values.reserve(n)?;
    for added in 0..n {
        values.push_reserved(Value::empty());
    }
    Ok(())
}

/// Puts the bytes of a cell, zeros of a null.
fn lay_strip(strips: &mut Strips, at: usize, value: &Cell)
    requires at { at < length strips.old.values }
    requires width { 0 < length (value_of value.now)
        → length (value_of value.now) ≡ strips.old.width }
    ensures { strips.new ≡ record strips.old {
      values = slice_set strips.old.values at (strip_of strips.old.width value.now);
    } }
{
    let bytes = value_of(value);
    if bytes.is_empty() {
        strips.clear(at);
    } else {
        strips.set(at, bytes);
    }
}

/// The number of a cell, 0 of a null.
fn number_of(cell: &Cell) -> i128
    ensures { result ≡ number_of cell.now }
{
    match cell {
        Cell::Num(number) => *number,
        _ => 0,
    }
}

/// The truth value of a cell, false of a null.
fn truth_of(cell: &Cell) -> bool
    ensures { result ≡ truth_of cell.now }
{
    match cell {
        Cell::Truth(truth) => *truth,
        _ => false,
    }
}

/// The bytes of a cell, none of a null.
fn value_of(cell: &Cell) -> &[u8]
    ensures { result.now ≡ value_of cell.now }
{
    match cell {
        Cell::Text(bytes) | Cell::Blob(bytes) => bytes.as_slice(),
        _ => &[],
    }
}

/// The bytes of a cell, moved.
fn owned_value(cell: Cell) -> Value
    requires { length (value_of cell) < 2 ^ 32 }
    ensures { result ≡ value_of cell }
{
    match cell {
        Cell::Text(bytes) | Cell::Blob(bytes) => Value::owned(bytes),
        _ => Value::empty(),
    }
}
