//! Tests of halls over the small core of `hall_cells`: one pass, two at once, and a part that is
//! held.
#![tactic(auto)]

#[cfg(test)]
mod marks;
