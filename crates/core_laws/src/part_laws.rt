//! Laws of transactions and lasting facts: each function does nothing, and its contract is one of
//! them.
ghost use Rattle.core_laws.specs.Parts.Laws.{Depends, Learns, Leaves, Outlives, Rests};

/// What an event asks besides its parts is its session's transaction and lasting facts.
pub fn events_stand_by_transactions_and_facts()
    ensures rests { Rests }
    ensures depends { Depends }
{}

/// A stamp that no live snapshot is below is one for good.
pub fn oldest_stamps_last()
    ensures outlives { Outlives }
    ensures learns { Learns }
{}

/// An event leaves the transaction of every session but its own.
pub fn other_sessions_keep_their_transactions()
    ensures { Leaves }
{}
