//! What holds of all readings of logs.
ghost use Rattle.commit_log.specs.Laws.{OneReading};

/// Bytes read as one list of commits at most, also where they are no log.
pub fn bytes_have_one_reading()
    ensures { OneReading }
{}
