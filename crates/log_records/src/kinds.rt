//! The byte that stands in front of a cell, and the one in front of what was left at a place.

/// No value.
pub const NULL: u8 = 0;
/// A number or a day, in 16 bytes.
pub const NUMBER: u8 = 1;
/// A truth value, in one byte.
pub const TRUTH: u8 = 2;
/// A text behind its length.
pub const TEXT: u8 = 3;
/// Bytes behind their length.
pub const BLOB: u8 = 4;

/// No row was left.
pub const GONE: u8 = 0;
/// A row was left.
pub const LEFT: u8 = 1;
