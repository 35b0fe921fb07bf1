//! Worked examples: each is a fact that the definitions compute.
ghost use Rattle.stream_spec.specs.Samples.{KeysAreRead, NineRowsAreRead, ChangedBytesAreFound};
ghost use Rattle.stream_spec.specs.Samples.{OldVersionIsRead, CutsAreFound, BehindTheEndIsFree};
ghost use Rattle.stream_spec.specs.Samples.{LaterKindsAreRead, ChangedLaterKindsAreRead};
ghost use Rattle.stream_spec.specs.Samples.{LaterBytesAreFound};

/// The stream of three keys reads as them.
pub fn three_keys_are_read()
    ensures { KeysAreRead }
{}

/// The stream of nine rows in two batches reads as these.
pub fn nine_rows_are_read()
    ensures { NineRowsAreRead }
{}

/// A changed byte makes the fault that it should, in the message that has it.
pub fn changed_bytes_are_found()
    ensures { ChangedBytesAreFound }
{}

/// Messages of version V4 are read too.
pub fn the_older_version_is_read()
    ensures { OldVersionIsRead }
{}

/// A stream that is cut is short, but between two messages behind its schema.
pub fn cuts_are_found()
    ensures { CutsAreFound }
{}

/// What stands behind the end word is not looked at.
pub fn bytes_behind_the_end_are_free()
    ensures { BehindTheEndIsFree }
{}

/// The stream of a date, of two bytes and of a large text reads as these.
pub fn later_kinds_are_read()
    ensures { LaterKindsAreRead }
{}

/// An offset may begin behind the first byte, and the second slot has the second bytes.
pub fn changed_later_kinds_are_read()
    ensures { ChangedLaterKindsAreRead }
{}

/// A changed byte of a later kind's type, offsets or values makes the fault that it should.
pub fn changed_bytes_of_later_kinds_are_found()
    ensures { LaterBytesAreFound }
{}
