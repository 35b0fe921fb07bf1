//! Laws of exports: each function does nothing, and its contract is one of them.
ghost use Rattle.run_laws.specs.Exports.Calls.{AllReadsAreAnExport, RefusedExportsReadNothing};
ghost use Rattle.run_laws.specs.Exports.Calls.{SomeReadsAreAnExport};
ghost use Rattle.run_laws.specs.Exports.Laws.{ExportsAreSaid, NothingSaysNothing};
ghost use Rattle.run_laws.specs.Exports.Laws.{RunsSayAllSent, SendingGoesOn, SendingsJoin};
ghost use Rattle.run_laws.specs.Exports.Laws.{WithoutAnExportNothingIsSent};

/// In whatever order the sessions of a run went on, its printed lines say what its export sent.
pub fn exports_are_said()
    ensures { ExportsAreSaid }
{}

/// Where no line of a script is an export, its run sent nothing.
pub fn without_an_export_nothing_is_sent()
    ensures { WithoutAnExportNothingIsSent }
{}

/// What calls sent grows call by call, and as whole lists of calls.
pub fn sendings_go_on()
    ensures next { SendingGoesOn }
    ensures join { SendingsJoin }
{}

/// The printed lines of a run say all that its calls sent, one behind the other.
pub fn runs_say_all_sent()
    ensures some { RunsSayAllSent }
    ensures none { NothingSaysNothing }
{}

/// Reads of all blocks of a table, none of which was refused memory, are the events of an export.
pub fn all_reads_are_an_export()
    ensures { AllReadsAreAnExport }
{}

/// Reads of some first blocks are the events of an export that found no memory.
pub fn some_reads_are_an_export()
    ensures { SomeReadsAreAnExport }
{}

/// An export that is refused makes no event.
pub fn refused_exports_read_nothing()
    ensures { RefusedExportsReadNothing }
{}
