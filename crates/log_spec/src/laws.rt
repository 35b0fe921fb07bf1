//! What holds of all logs.
ghost use Rattle.log_spec.specs.Laws.{NeverBoth, OneGroup, OneHistory, OneLog, OnePlace};

/// Bytes are the log of one list of payloads at most, with one closed gate.
pub fn bytes_are_one_log()
    ensures { OneLog }
{}

/// Bytes give one list of commits at most, and so does a payload.
pub fn bytes_give_one_history()
    ensures payload { OneGroup }
    ensures bytes { OneHistory }
{}

/// Bytes are a log of the tables, or leave the form at one place.
pub fn bytes_are_no_log_at_one_place()
    ensures never { NeverBoth }
    ensures place { OnePlace }
{}
