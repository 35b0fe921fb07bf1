//! Gathers the columns of a record batch by dictionaries (Arrow columnar format,
//! "Dictionary-encoded Layout").
#![tactic(auto)]

mod encode;
mod gather;
mod heads;
mod placed;
mod slots;
mod values;
mod walk;

pub use arrow_array::{Dictionary, Dicts};
pub use gather::gather_dict;
