//! Trials of the program: tests alone, of whole runs over doubles of its input, output and outlet.
#![tactic(auto)]

#[cfg(test)]
mod tests;
