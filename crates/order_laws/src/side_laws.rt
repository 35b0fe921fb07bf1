//! Laws of the order in which replies are printed.
ghost use Rattle.order_laws.specs.Places.{PlacesAreBeforeAndAfter};
ghost use Rattle.order_laws.specs.Sides.{SidesAddUp, SidesAreBeforeAndAfter};

/// What is before a reply, not after it and after it, by where the replies stand about it.
pub fn replies_stand_before_and_after()
    ensures { SidesAreBeforeAndAfter }
{}

/// Sums over the replies before one and over those not after it, by sums over rounds.
pub fn sums_before_and_not_after()
    ensures { SidesAddUp }
{}

/// What is before a reply, not after it and after it, by places of replies that rise.
pub fn replies_that_rise_stand_by_places()
    ensures { PlacesAreBeforeAndAfter }
{}
