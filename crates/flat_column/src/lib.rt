//! Columns of fixed width in the layout of the Arrow columnar format: bitmaps, numbers, and values
//! of so many bytes each.
#![tactic(auto)]

mod bit_list;
mod number_list;
mod strip_list;

pub use bit_list::{Bits, ones_among};
pub use number_list::Fixed;
pub use strip_list::Strips;
