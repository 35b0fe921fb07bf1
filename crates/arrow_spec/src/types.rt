//! The types of Arrow, as a field's metadata tells them.

/// What a field's metadata says of the type of its values (Schema.fbs, "Type").
#[derive(Clone, Copy, Debug, PartialEq, Eq)]
pub enum ArrowType {
    /// An Int with a sign, of so many bits.
    SignedInt(u64),
    /// An Int without a sign, of so many bits.
    UnsignedInt(u64),
    /// A FixedSizeBinary of so many bytes.
    FixedSizeBinary(u64),
    /// A Date in the unit of this number.
    Date(u64),
    /// A type whose table has no fields, by its number in the union of types.
    Plain(u64),
}
