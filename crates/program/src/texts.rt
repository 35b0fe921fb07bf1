//! The texts of the program's own, and their printing.
ghost use Rattle.std.specs.Prelude.{◌≢◌, ℕ, List, Option};
ghost use Rattle.program.specs.Outcome.{TellsFaults, TextEnds, UsageEnds, outside};
ghost use Rattle.program.specs.Words.{help_text, version_line};

use crate::status::Status;
use byte_ports::{Failed, Sink, write_all};

/// How the program is used.
const USAGE: &[u8] =
    b"usage: mainline run [--export PATH] [--log PATH] | show | check | bench SEED SIZE \
    | log PATH\n";

/// What the program does, each command with a line.
const HELP: &[u8] =
    b"mainline: a transactional storage engine in memory, whose tables stand in Arrow blocks\n\
    \n\
    usage: mainline run [--export PATH] [--log PATH] | show | check | bench SEED SIZE \
    | log PATH\n\
    \n\
    \x20 run                  run a workload, print its replies\n\
    \x20     [--export PATH]  and export to a file\n\
    \x20     [--log PATH]     and keep its commits in a log, and go on from those there\n\
    \x20 show                 print the columns and the rows of an Arrow stream\n\
    \x20 check                say whether snapshot isolation explains an output\n\
    \x20 bench SEED SIZE      run a generated workload, print what is counted of it\n\
    \x20 log PATH             print the commits of a log\n\
    \x20 help [COMMAND]       print this text, as -h and --help do\n\
    \n\
    All but help and bench read standard input. A check reads a workload, a line ====\n\
    and an output; log reads a workload, whose tables are the log's. SEED is below\n\
    2^64, SIZE 1 to 4096. --version prints the version.\n";

/// The name and the version of the program.
const VERSION: &[u8] = b"mainline 0.1.0\n";

/// Prints how the program is used.
pub(crate) fn tell_usage<O: Sink>(out: &mut O) -> Status
    ensures ends { (left exported : Option (List ℕ)) (started : Option (List (List ℕ)))
        → UsageEnds result
        (outside left (O.written out.old) exported started)
        (outside left (O.written out.new) exported started) }
    ensures read_faults { result ≢ Status.ReadFault }
    ensures out_faults { TellsFaults Status.OutFault result (O.faults out.old) (O.faults out.new) }
    ensures export_faults { result ≢ Status.ExportFault }
{
    match write_all(out, USAGE) {
        Ok(()) => Status::Usage,
        Err(Failed) => Status::OutFault,
    }
}

/// Prints what the program does.
pub(crate) fn tell_help<O: Sink>(out: &mut O) -> Status
    ensures ends { (left exported : Option (List ℕ)) (started : Option (List (List ℕ)))
        → TextEnds help_text result
        (outside left (O.written out.old) exported started)
        (outside left (O.written out.new) exported started) }
    ensures read_faults { result ≢ Status.ReadFault }
    ensures out_faults { TellsFaults Status.OutFault result (O.faults out.old) (O.faults out.new) }
    ensures export_faults { result ≢ Status.ExportFault }
{
    tell(out, HELP)
}

/// Prints the name and the version of the program.
pub(crate) fn tell_version<O: Sink>(out: &mut O) -> Status
    ensures ends { (left exported : Option (List ℕ)) (started : Option (List (List ℕ)))
        → TextEnds version_line result
        (outside left (O.written out.old) exported started)
        (outside left (O.written out.new) exported started) }
    ensures read_faults { result ≢ Status.ReadFault }
    ensures out_faults { TellsFaults Status.OutFault result (O.faults out.old) (O.faults out.new) }
    ensures export_faults { result ≢ Status.ExportFault }
{
    tell(out, VERSION)
}

/// Prints a text that was asked for.
fn tell<O: Sink>(out: &mut O, text: &[u8]) -> Status
    ensures ends { (left exported : Option (List ℕ)) (started : Option (List (List ℕ)))
        → TextEnds text.now result
        (outside left (O.written out.old) exported started)
        (outside left (O.written out.new) exported started) }
    ensures read_faults { result ≢ Status.ReadFault }
    ensures out_faults { TellsFaults Status.OutFault result (O.faults out.old) (O.faults out.new) }
    ensures export_faults { result ≢ Status.ExportFault }
{
    match write_all(out, text) {
        Ok(()) => Status::Done,
        Err(Failed) => Status::OutFault,
    }
}
