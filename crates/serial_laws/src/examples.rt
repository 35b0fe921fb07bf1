//! Worked examples of transactions one behind the other: each is a fact that the definitions compute.
ghost use Rattle.serial_laws.specs.Examples.{ReadersOfTheFirstStandInFront, RefusedSkewIsOneRun};

/// Two transactions read each other's key and write their own: the one that is refused stands in
/// front of the one that committed.
pub fn a_refused_skew_is_one_run()
    ensures { RefusedSkewIsOneRun }
{}

/// Over a store that begins with commits those who saw just these stand in front.
pub fn readers_of_the_first_stand_in_front()
    ensures { ReadersOfTheFirstStandInFront }
{}
