//! What the program does with its words, its input, its output, its outlet and its disk, as one
//! call.
#![tactic(auto)]

mod benching;
mod checking;
mod log_opening;
mod log_telling;
mod output;
mod performing;
mod running;
mod showing;
mod status;
mod texts;
mod words;

pub use performing::perform;
pub use status::Status;
