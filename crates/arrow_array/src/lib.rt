//! Rows as the columns of an Arrow record batch (Arrow columnar format, "Physical Memory Layout").
#![tactic(auto)]

mod arrays;
mod batch;
mod bitmaps;
mod cells;
mod dicts;
mod numbers;
mod values;

pub use arrays::{all_fit, build};
pub use batch::{Array, Batch};
pub use dicts::{Dictionary, Dicts};
pub use numbers::{add_offset, add_u32};
