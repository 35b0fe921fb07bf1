//! Laws of the core: each function does nothing, and its contract is one of them.
ghost use Rattle.core_laws.specs.Events.Laws.{HandsInWhatIsWritten, KeepsRoom, Steps};

/// A lawful event is answered as the snapshot-isolation machine may, and the parts follow it.
pub fn lawful_events_follow_the_machine()
    ensures { Steps }
{}

/// What a lawful event is handed of its session are the slots on which the session's entries stand.
pub fn events_are_handed_what_is_written()
    ensures { HandsInWhatIsWritten }
{}

/// An event keeps how many parts there are.
pub fn an_event_keeps_the_count_of_parts()
    ensures { KeepsRoom }
{}
