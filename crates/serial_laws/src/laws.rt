//! Laws of checked transactions.
ghost use Rattle.serial_laws.specs.Serial.{ChecksAreSerial};
ghost use Rattle.serial_laws.specs.Alone.{ChecksRunAlone, ReadersRunAlone, SerialRun};

/// A checked transaction that committed as a number was told, of what it read and wrote, what it
/// would have been told right behind the commit before.
pub fn checked_transactions_are_serial()
    ensures { ChecksAreSerial }
{}

/// A checked transaction that committed as a number is a run of the machine alone, between the
/// commit before and its own.
pub fn checked_transactions_run_alone()
    ensures { ChecksRunAlone }
{}

/// A transaction that left nothing is a run of the machine alone, behind the commits that it saw.
pub fn readers_run_alone()
    ensures { ReadersRunAlone }
{}

/// Where each transaction that wrote is checked, all of an output's transactions are one run of the
/// machine, one behind the other.
pub fn transactions_are_one_run()
    ensures { SerialRun }
{}
