//! Why a run ends before its last round.

/// Why a run ends before its last round.
#[derive(Clone, Copy, Debug, PartialEq, Eq)]
pub enum RunFault {
    /// The output took no more bytes.
    Out,
    /// The outlet of the export took no more bytes.
    Export,
    /// There was no memory for the commands, the commits or the lines of a round.
    Memory,
    /// The disk of the log failed.
    Log,
    /// The commits of a round are too long for one record of the log.
    GroupTooLong,
}
