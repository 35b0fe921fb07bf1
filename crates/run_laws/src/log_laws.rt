//! Laws of whole logs: each function does nothing, and its contract is one of them.
ghost use Rattle.run_laws.specs.Logs.Parts.{PartsAreThere};

/// Behind every lawful log each part is there and of its name's kind.
pub fn every_part_is_there()
    ensures { PartsAreThere }
{}
