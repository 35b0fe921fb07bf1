//! The words of workloads and replies, read in place: lines and their words, split off one by one,
//! and the numbers, truth values, texts and bytes that words spell.
#![tactic(auto)]

mod lines;
mod numbers;
mod texts;
mod truths;
mod words;

pub use lines::{part_count, split_line};
pub use numbers::{integer, natural, natural_within};
pub use texts::{blob_of, text_of};
pub use truths::truth_of;
pub use words::{split_word, word_behind, word_count};
