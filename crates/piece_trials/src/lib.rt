//! Trials of a stream that comes in pieces: tests alone, of a reader that is fed them and of what
//! they show.
#![tactic(auto)]

#[cfg(test)]
mod dictionaries;
#[cfg(test)]
mod pieces;
#[cfg(test)]
mod shown;
