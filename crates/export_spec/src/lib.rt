//! What an export's bytes are: the canonical stream of the rows of a table at a snapshot, each
//! once, and what the lines of a run say of them.
#![tactic(auto)]
