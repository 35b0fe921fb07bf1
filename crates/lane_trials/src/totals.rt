//! Totals of columns of each kind of numbers, of lengths that fill no step and many, against the
//! count and the sum of the numbers that were written into the buffers.
use cell_model::Kind;
use lane_filter::{Numbers, Total, total_between};
use std::alloc::Global;
use std::test::Fail;

/// The kinds of numbers.
const KINDS: [Kind; 9] = [
    Kind::I8,
    Kind::I16,
    Kind::I32,
    Kind::I64,
    Kind::U8,
    Kind::U16,
    Kind::U32,
    Kind::U64,
    Kind::Date,
];

/// Two numbers: beyond each kind's ends, within the narrowest kinds, around zero, above it, at the
/// ends of some kinds, and turned round.
const BOUNDS: [(i128, i128); 8] = [
    (-1 << 70, 1 << 70),
    (-100, 50),
    (0, 0),
    (1, 200),
    (-128, 127),
    (-1 << 63, (1 << 63) - 1),
    (1 << 40, (1 << 64) - 1),
    (50, -100),
];

/// Of 5, null, -3, 5, 2147483647, -2147483648, 0, 1 and 9: two numbers, and how many lie between
/// them with what sum.
const NINE: [(i128, i128, u64, i128); 4] = [
    (-3, 9, 6, 17),
    (-2_147_483_648, 2_147_483_647, 8, 16),
    (9, -3, 0, 0),
    (0, 0, 1, 0),
];

/// A column's numbers, of which a null is none, with its buffers.
#[derive(Drop)]
struct Column {
    numbers: Vec<Option<i128>>,
    values: Vec<u8>,
    validity: Vec<u8>,
}

/// The number of a kind with these bits, and its bytes.
fn number_of(kind: Kind, bits: u64) -> (i128, [u8; 8], usize) {
    let bytes = bits.to_le_bytes();
    let [a, b, c, d, e, f, g, h] = bytes;
    match kind {
        Kind::I8 => (i8::from_le_bytes([a]).into(), bytes, 1),
        Kind::I16 => (i16::from_le_bytes([a, b]).into(), bytes, 2),
        Kind::I32 | Kind::Date => (i32::from_le_bytes([a, b, c, d]).into(), bytes, 4),
        Kind::I64 => (
            i64::from_le_bytes([a, b, c, d, e, f, g, h]).into(),
            bytes,
            8,
        ),
        Kind::U8 => (a.into(), bytes, 1),
        Kind::U16 => (u16::from_le_bytes([a, b]).into(), bytes, 2),
        Kind::U32 => (u32::from_le_bytes([a, b, c, d]).into(), bytes, 4),
        _ => (bits.into(), bytes, 8),
    }
}

/// A column of so many slots, of which with nulls every third has none; the others have numbers of
/// all sizes, each end of the kind among them.
fn written_column(alloc: Global, kind: Kind, slots: u32, nulls: bool) -> Result<Column, Fail> {
    let mut numbers = Vec::new(alloc);
    let mut values = Vec::new(alloc);
    let mut validity = Vec::new(alloc);
    let mut byte = 0;
    for slot in 0..slots {
        let is_null = nulls && slot % 3 == 1;
        let bits = if is_null { 0 } else { bits_at(slot) };
        let (number, bytes, size) = number_of(kind, bits);
        numbers.push(if is_null { None } else { Some(number) })?;
        for at in 0..size.min(8) {
            values.push(bytes[at])?;
        }
        byte |= u8::from(!is_null) << (slot % 8);
        if slot % 8 == 7 {
            validity.push(byte)?;
            byte = 0;
        }
    }
    if slots % 8 != 0 {
        validity.push(byte)?;
    }
    if !nulls {
        validity.clear();
    }
    Ok(Column {
        numbers,
        values,
        validity,
    })
}

/// The bits of the number in a slot: small ones, the ends of each width, and any.
fn bits_at(slot: u32) -> u64 {
    let slot = u64::from(slot);
    match slot % 5 {
        0 => slot,
        1 => 0u64.wrapping_sub(slot),
        2 => 0x7f7f_7fff_7fff_ffff,
        3 => 0x8000_0000_8000_8080,
        _ => slot.wrapping_mul(0x9e37_79b9_7f4a_7c15),
    }
}

/// How many of the numbers lie between two, and their sum.
fn expected(numbers: &[Option<i128>], low: i128, high: i128) -> Total {
    let mut count = 0u64;
    let mut sum = 0i128;
    for number in numbers {
        if let Some(number) = number
            && low <= *number
            && *number <= high
        {
            count = count.wrapping_add(1);
            sum = sum.wrapping_add(*number);
        }
    }
    Total { count, sum }
}

/// The total of a column of so many slots between two numbers.
fn found(
    column: &Column,
    numbers: Numbers,
    slots: u32,
    low: i128,
    high: i128,
) -> Result<Total, Fail> {
    let values = column.values.as_slice();
    let validity = column.validity.as_slice();
    let bytes = slots as usize * numbers.width().bytes() as usize;
    if values.len() < bytes || validity.len() > 4096 || slots > 32_768 {
        return Err(Fail::from("the buffers are not those of so many slots"));
    }
    Ok(total_between(numbers, values, validity, slots, low, high))
}

/// Whether a column has between each two bounds what was written into it.
fn has_totals(alloc: Global, kind: Kind, slots: u32, nulls: bool) -> Result<bool, Fail> {
    let column = written_column(alloc, kind, slots, nulls)?;
    let numbers = Numbers::of(kind).ok_or("no kind of numbers")?;
    for (low, high) in BOUNDS {
        let expected = expected(column.numbers.as_slice(), low, high);
        if found(&column, numbers, slots, low, high)? != expected {
            return Ok(false);
        }
    }
    Ok(true)
}

#[test]
fn short_columns_have_their_totals(rt: HostRuntime) -> Result<(), Fail> {
    for kind in KINDS {
        for slots in 0..18 {
            let whole = has_totals(rt.alloc(), kind, slots, false)?;
            assert!(rt; whole, "{kind:?} of {slots} slots");
            let whole = has_totals(rt.alloc(), kind, slots, true)?;
            assert!(rt; whole, "{kind:?} of {slots} slots with nulls");
        }
    }
    Ok(())
}

#[test]
fn whole_blocks_have_their_totals(rt: HostRuntime) -> Result<(), Fail> {
    for kind in KINDS {
        let whole = has_totals(rt.alloc(), kind, 32_768, false)?;
        assert!(rt; whole, "{kind:?}");
        let whole = has_totals(rt.alloc(), kind, 32_768, true)?;
        assert!(rt; whole, "{kind:?} with nulls");
    }
    Ok(())
}

#[test]
fn a_column_of_nine_has_its_totals(rt: HostRuntime) -> Result<(), Fail> {
    let cells = [
        Some(5),
        None,
        Some(-3),
        Some(5),
        Some(i32::MAX),
        Some(i32::MIN),
        Some(0),
        Some(1),
        Some(9),
    ];
    let mut values = Vec::new(rt.alloc());
    for cell in cells {
        for byte in cell.unwrap_or(0).to_le_bytes() {
            values.push(byte)?;
        }
    }
    assert!(rt; values.len() == 36);
    let numbers = Numbers::of(Kind::I32).ok_or("no kind of numbers")?;
    for (low, high, count, sum) in NINE {
        let total = total_between(numbers, values.as_slice(), &[0xfd, 0x01], 9, low, high);
        assert_eq!(rt; total, Total { count, sum });
    }
    Ok(())
}
