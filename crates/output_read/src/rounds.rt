//! The lines of an output, round by round.
ghost use Rattle.std.specs.Prelude.{◌≡◌, ◌+◌, ◌<◌, ◌^◌, Bool, List, length, replicate, true, false};
ghost use Rattle.std.specs.Prelude.{IfOk, OnOk, Ok, Err};
ghost use Rattle.std.specs.List.{list_all};
ghost use Rattle.workload_spec.specs.Valid.{is_line, is_valid};
ghost use Rattle.workload_spec.specs.declared.reply.Who.TheVariants.{Session as SessionWho};
ghost use Rattle.workload_spec.specs.declared.reply.Who.TheVariants.{Worker as WorkerWho};
ghost use Rattle.outcome_spec.specs.Explained.{replies_of};
ghost use Rattle.outcome_spec.specs.Forms.{dues_in, dues_of};
ghost use Rattle.output_read.specs.Kept.{are_told, entries_of};
ghost use Rattle.output_read.specs.Order.{are_ahead};
ghost use Rattle.output_read.specs.Readers.{FailsAt, IsReading, OnLine, Passes, read_by};
ghost use Rattle.output_read.specs.Rounds.{AreWithin, Stands, Starts, session_part, worker_part};

use crate::fault::ReadFault;
use crate::kept::KeptReply;
use crate::reader::Reader;
use std::alloc::{AllocError, Global};
use workload_spec::{Line, Script};

/// The replies that the output's lines are, or the first line, counted from 1, at which they fail
/// to be those that are due. An output of 2^32 bytes or more, or one to a script of 2^32 rounds or
/// more, is answered as refused memory.
pub fn read_output<'a>(
    alloc: Global,
    script: &'a Script,
    text: &'a [u8],
) -> Result<Vec<KeptReply<'a>>, ReadFault>
    requires { is_valid script.now ≡ true }
    ensures read { IfOk result (λ kept. replies_of script.now text.now
        ≡ Ok (entries_of kept.items)) }
    ensures told { IfOk result (λ kept. are_told kept.items ≡ true) }
    ensures few { IfOk result (λ kept. length kept.items < 2 ^ 32) }
    ensures failed { OnLine result (λ line. replies_of script.now text.now ≡ Err line) }
{
    if script.rounds.len() > u32::MAX as usize || text.len() > u32::MAX as usize {
        return Err(ReadFault::Memory(AllocError));
    }
    let mut reader = Reader {
        tables: script.tables.as_slice(),
        rest: text,
        line: 1,
        replies: Vec::new(alloc),
    };
    reader.all_lines(alloc, script)?;
    if reader.rest.is_empty() {
        Ok(reader.into_replies())
    } else {
        Err(ReadFault::Line(reader.line))
    }
}

/// That no session is in a transaction.
fn none_within(alloc: Global, sessions: u32) -> Result<Vec<bool>, AllocError>
    ensures { IfOk result (λ within. within.items ≡ replicate sessions false) }
{
    let mut within = Vec::new(alloc);
    for _ in 0..sessions {
        within.push(false)?;
    }
    Ok(within)
}

impl<'a> Reader<'a> {
    /// The replies that were read.
    fn into_replies(self) -> Vec<KeptReply<'a>>
        ensures { result.items ≡ self.entry.replies.items }
    {
        let Reader { replies, .. } = self;
        replies
    }

    /// Reads the lines of all rounds.
    fn all_lines(&mut self, alloc: Global, script: &'a Script) -> Result<(), ReadFault>
        requires valid { is_valid script.now ≡ true }
        requires few { length script.now.rounds < 2 ^ 32 }
        requires start { Starts script.now self.old }
        ensures tables { self.new.tables.now ≡ self.old.tables.now }
        ensures read { OnOk result (IsReading self.new) }
        ensures passed { OnOk result (Passes self.old self.new (dues_of script.now)) }
        ensures failed { OnLine result (FailsAt self.old (dues_of script.now)) }
    {
        let mut within = none_within(alloc, script.sessions)?;
        let mut number = 0;
        for round in script.rounds.as_slice() {
            self.round_lines(alloc, script, number + 1, round.as_slice(), &mut within)?;
            number += 1;
        }
        Ok(())
    }

    /// Reads the lines of a round.
    fn round_lines(
        &mut self,
        alloc: Global,
        script: &Script,
        round: u32,
        lines: &'a [Line],
        within: &mut Vec<bool>,
    ) -> Result<(), ReadFault>
        requires valid { is_valid script.now ≡ true }
        requires lines { list_all (is_line script.now) lines.now ≡ true }
        requires before { Stands script.now round (SessionWho 1) self.old within.old.items }
        ensures tables { self.new.tables.now ≡ self.old.tables.now }
        ensures read { OnOk result (Stands script.now (round + 1) (SessionWho 1) self.new
            within.new.items) }
        ensures passed { OnOk result (Passes self.old self.new
            (dues_in script.now round lines.now)) }
        ensures failed { OnLine result (FailsAt self.old (dues_in script.now round lines.now)) }
    {
        self.session_lines(alloc, script, round, lines, within)?;
        self.worker_lines(alloc, script, round)
    }

    /// Reads the replies to the sessions in a round.
    fn session_lines(
        &mut self,
        alloc: Global,
        script: &Script,
        round: u32,
        lines: &'a [Line],
        within: &mut Vec<bool>,
    ) -> Result<(), ReadFault>
        requires valid { is_valid script.now ≡ true }
        requires lines { list_all (is_line script.now) lines.now ≡ true }
        requires before { Stands script.now round (SessionWho 1) self.old within.old.items }
        ensures tables { self.new.tables.now ≡ self.old.tables.now }
        ensures read { OnOk result (Stands script.now round (WorkerWho 1) self.new
            within.new.items) }
        ensures passed { OnOk result (Passes self.old self.new
            (session_part round lines.now script.now.sessions)) }
        ensures failed { OnLine result
            (FailsAt self.old (session_part round lines.now script.now.sessions)) }
    {
        for at in 0..script.sessions {
            let before = within[at as usize];
            let after = self.session_replies(alloc, round, at + 1, before, lines)?;
            within[at as usize] = after;
        }
        Ok(())
    }

    /// Reads the lines of the workers in a round.
    fn worker_lines(&mut self, alloc: Global, script: &Script, round: u32) -> Result<(), ReadFault>
        requires valid { is_valid script.now ≡ true }
        requires tables { self.old.tables.now ≡ script.now.tables }
        requires reading { IsReading self.old }
        requires ahead { are_ahead round (WorkerWho 1) (read_by self.old) ≡ true }
        ensures tables { self.new.tables.now ≡ self.old.tables.now }
        ensures read { OnOk result (IsReading self.new) }
        ensures ahead { OnOk result (are_ahead (round + 1) (SessionWho 1) (read_by self.new)
            ≡ true) }
        ensures within { OnOk result ((within : List Bool)
            → AreWithin script.now.sessions within (read_by self.old)
            → AreWithin script.now.sessions within (read_by self.new)) }
        ensures passed { OnOk result (Passes self.old self.new
            (worker_part script.now round script.now.workers)) }
        ensures failed { OnLine result
            (FailsAt self.old (worker_part script.now round script.now.workers)) }
    {
        for at in 0..script.workers {
            self.turn_lines(alloc, round, at + 1, script.turns)?;
        }
        Ok(())
    }
}
