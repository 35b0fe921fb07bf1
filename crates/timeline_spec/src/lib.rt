//! What a run is between a store and its printed lines: the replies in the order in which they came
//! about, each as snapshot isolation and the counts of blocks allow, and the lines that they are
//! printed in.
#![tactic(auto)]

pub mod examples;
