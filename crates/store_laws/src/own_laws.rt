//! Laws of what a session has open, as its own events and their replies tell it: each function does
//! nothing, and its contract is one of the laws.

ghost use Rattle.store_laws.specs.OwnLaws.{KeysAreOwned, OwnGoesOn, OwnStays, RestsAtFirst};

/// Before the first event no session has anything open.
pub fn nothing_is_open_at_first()
    ensures { RestsAtFirst }
{}

/// A session has open what its own lawful events and their replies tell, and no other event changes
/// it.
pub fn replies_tell_what_is_open()
    ensures goes_on { OwnGoesOn }
    ensures stays { OwnStays }
{}

/// Of all that a session wrote, the write of one key is what an event on that key is to be handed.
pub fn each_key_is_handed_its_write()
    ensures { KeysAreOwned }
{}
