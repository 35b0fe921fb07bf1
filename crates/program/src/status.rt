//! How a run of the program ends.
use std::process::ExitCode;

/// How a run ends; the program ends with its number.
#[derive(Clone, Copy, Debug, PartialEq, Eq)]
pub enum Status {
    /// The work is done.
    Done = 0,
    /// The words ask for nothing that the program does.
    Usage = 1,
    /// The input is no workload.
    Refused = 2,
    /// The input could not be read.
    ReadFault = 3,
    /// The output could not be written.
    OutFault = 4,
    /// The export could not be started or written.
    ExportFault = 5,
    /// Memory was refused outside of a command.
    Memory = 6,
    /// The input is no stream.
    NotAStream = 7,
    /// 2^32 bytes were read without the end of the input.
    TooLong = 8,
    /// The log could not be opened, read or added to.
    LogFault = 9,
    /// The file is no log.
    NotALog = 10,
    /// The log leaves a table more rows than it takes.
    LogFull = 11,
    /// The commits of a round are too long for a record of the log.
    GroupTooLong = 12,
}

/// The program ends with the number of the status.
impl From<Status> for ExitCode {
    ghost use Rattle.std.specs.Prelude.{◌≡◌};
    ghost use Rattle.std.specs.Process.{exit_status};
    ghost use Rattle.program.specs.Codes.{status_code};

    ghost from_gives = { λ status code. exit_status code ≡ status_code status };

    fn from(status: Status) -> ExitCode {
        ExitCode::from(status as u8)
    }
}
