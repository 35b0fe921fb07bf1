//! Laws of an event's parts: each function does nothing, and its contract is one of them.
ghost use Rattle.core_laws.specs.Frames.Laws.{Ascends, CoreKept, CoreOpens, Frame, Local, Makes, Replies};
ghost use Rattle.core_laws.specs.Frames.Laws.{ShardsKept, ShardsOpen};

/// Whether an event touches a part hangs on the parts below it alone.
pub fn events_ascend()
    ensures { Ascends }
{}

/// A lawful event changes only parts that it touches.
pub fn events_change_what_they_touch()
    ensures { Frame }
{}

/// What an event asks of the parts it asks of those that it touches.
pub fn events_fit_by_what_they_touch()
    ensures { Local }
{}

/// What an event replies hangs on the parts that it touches alone.
pub fn events_reply_by_what_they_touch()
    ensures { Replies }
{}

/// What an event makes of the parts in a hand hangs on the parts that it touches alone.
pub fn events_make_by_what_they_touch()
    ensures { Makes }
{}

/// Each shard has entries of its own keys alone, and no empty one.
pub fn shards_stay_in_order()
    ensures opens { ShardsOpen }
    ensures keeps { ShardsKept }
{}

/// The invariant and the order of shards hold of every core that lawful events reach.
pub fn every_reached_core_holds()
    ensures opens { CoreOpens }
    ensures keeps { CoreKept }
{}
