//! Tests of the ports, of arrays, and of streams that are written and read.
#![tactic(auto)]

#[cfg(test)]
mod arrays;
#[cfg(test)]
mod ports;
#[cfg(test)]
mod reading;
#[cfg(test)]
mod streams;
