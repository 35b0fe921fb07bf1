//! The replies to sessions.
ghost use Rattle.std.specs.Prelude.{◌≡◌, ◌<◌, ◌+◌, ◌^◌, [], ◌∷◌, true, length, IfOk, Some};
ghost use Rattle.workload_spec.specs.Valid.{is_command};
ghost use Rattle.workload_spec.specs.declared.reply.Who.TheVariants.{Session as SessionWho};
ghost use Rattle.reply_text.specs.Shown.{are_tables};
ghost use Rattle.outcome_spec.specs.Forms.{commands_of, dues_to, is_within, scanned_by};
ghost use Rattle.outcome_spec.specs.Forms.{within_behind};
ghost use Rattle.output_read.specs.Fronts.{count_first};
ghost use Rattle.output_read.specs.Readers.{FailsAt, IsReading, OnLine, lines_left, read_by};
ghost use Rattle.output_read.specs.Threads.{IsThread, NoCount, LineGoes, SessionGoes, ThreadGoes};
ghost use Rattle.output_read.specs.Threads.{line_dues, session_due};
ghost use Rattle.output_read.specs.Order.{are_ahead};
ghost use Rattle.std.specs.List.{list_all};

use crate::answers::answers;
use crate::fault::ReadFault;
use crate::kept::Told;
use crate::reader::{Heading, Reader, count_first, said_first, told_of};
use crate::rows::rows_above;
use std::alloc::Global;
use workload_spec::{Command, Line, Said, Who};

/// The replies to a session in a round: how many were read, and whether it is in a transaction.
#[derive(Clone, Copy)]
pub struct Thread {
    pub round: u32,
    pub session: u32,
    pub index: u64,
    pub within: bool,
}

/// The table of which the command asks for rows in a transaction.
fn scanned_by(within: bool, command: &Command) -> Option<u32>
    ensures { result ≡ scanned_by within command.now }
{
    match command {
        Command::Scan { table } | Command::Range { table, .. } if within => Some(*table),
        _ => None,
    }
}

/// Whether the session is in a transaction behind the reply.
fn within_behind(within: bool, said: &Said) -> bool
    ensures { result ≡ within_behind within said.now }
{
    match said {
        Said::At(_) => true,
        Said::Committed(_) | Said::Aborted => false,
        _ => within,
    }
}

impl<'a> Reader<'a> {
    /// Reads the replies to a session in a round, and tells whether it is in a transaction behind
    /// them.
    pub fn session_replies(
        &mut self,
        alloc: Global,
        round: u32,
        session: u32,
        within: bool,
        lines: &'a [Line],
    ) -> Result<bool, ReadFault>
        requires tables { are_tables self.old.tables.now ≡ true }
        requires few { length self.old.tables.now < 2 ^ 32 }
        requires reading { IsReading self.old }
        requires ahead { are_ahead round (SessionWho session) (read_by self.old) ≡ true }
        requires within { within ≡ is_within (SessionWho session) (read_by self.old) }
        requires lines { list_all (λ line. is_command self.old.tables.now line.command) lines.now
            ≡ true }
        ensures tables { self.new.tables.now ≡ self.old.tables.now }
        ensures read { IfOk result (λ after. SessionGoes self.old self.new round session after
            lines.now) }
        ensures failed { OnLine result
            (FailsAt self.old (dues_to round (SessionWho session)
            (commands_of session lines.now))) }
    {
        let mut thread = Thread {
            round,
            session,
            index: 0,
            within,
        };
        for line in lines {
            thread = self.line_reply(alloc, thread, line)?;
        }
        Ok(thread.within)
    }

    /// Reads the reply to a line of a round, where it is the session's.
    fn line_reply(
        &mut self,
        alloc: Global,
        thread: Thread,
        line: &'a Line,
    ) -> Result<Thread, ReadFault>
        requires tables { are_tables self.old.tables.now ≡ true }
        requires few { length self.old.tables.now < 2 ^ 32 }
        requires reading { IsReading self.old }
        requires thread { IsThread thread (read_by self.old) }
        requires command { is_command self.old.tables.now line.now.command ≡ true }
        ensures tables { self.new.tables.now ≡ self.old.tables.now }
        ensures read { IfOk result (λ after. LineGoes self.old self.new thread after line.now) }
        ensures failed { OnLine result (FailsAt self.old (line_dues thread line.now)) }
    {
        if line.session == thread.session {
            self.session_reply(alloc, thread, &line.command)
        } else {
            Ok(thread)
        }
    }

    /// Reads the reply to a command of a session.
    pub fn session_reply(
        &mut self,
        alloc: Global,
        thread: Thread,
        command: &'a Command,
    ) -> Result<Thread, ReadFault>
        requires tables { are_tables self.old.tables.now ≡ true }
        requires few { length self.old.tables.now < 2 ^ 32 }
        requires reading { IsReading self.old }
        requires thread { IsThread thread (read_by self.old) }
        requires command { is_command self.old.tables.now command.now ≡ true }
        ensures tables { self.new.tables.now ≡ self.old.tables.now }
        ensures read { IfOk result (λ after. ThreadGoes self.old self.new thread after
            command.now) }
        ensures failed { OnLine result (FailsAt self.old (session_due thread command.now ∷ [])) }
    {
        match scanned_by(thread.within, command) {
            Some(table) => self.scan_reply(alloc, thread, command, table),
            None => self.single_reply(alloc, thread, command),
        }
    }

    /// Reads the reply to a scan or a range in a transaction.
    fn scan_reply(
        &mut self,
        alloc: Global,
        thread: Thread,
        command: &'a Command,
        table: u32,
    ) -> Result<Thread, ReadFault>
        requires tables { are_tables self.old.tables.now ≡ true }
        requires few { length self.old.tables.now < 2 ^ 32 }
        requires reading { IsReading self.old }
        requires thread { IsThread thread (read_by self.old) }
        requires command { is_command self.old.tables.now command.now ≡ true }
        requires scan { scanned_by thread.within command.now ≡ Some table }
        ensures tables { self.new.tables.now ≡ self.old.tables.now }
        ensures read { IfOk result (λ after. ThreadGoes self.old self.new thread after
            command.now) }
        ensures failed { OnLine result (FailsAt self.old (session_due thread command.now ∷ [])) }
    {
        let heading = thread.next_heading();
        let Some((count, lines)) = count_first(heading, self.rest) else {
            return self.single_reply(alloc, thread, command);
        };
        let tables = self.tables;
        let schema = &tables[table as usize].schema;
        let (rows, behind) = rows_above(alloc, schema, count, lines)?;
        if rows < count {
            return Err(ReadFault::Line(self.line + 1 + rows));
        }
        let (lines, _) = lines.split_at(lines.len() - behind.len());
        let told = Told::Scanned {
            count: count as u32,
            lines,
        };
        self.keep(heading, Some(command), told, 1 + count, behind)?;
        Ok(Thread {
            index: heading.index,
            ..thread
        })
    }

    /// Reads a reply of one line.
    fn single_reply(
        &mut self,
        alloc: Global,
        thread: Thread,
        command: &'a Command,
    ) -> Result<Thread, ReadFault>
        requires tables { are_tables self.old.tables.now ≡ true }
        requires few { length self.old.tables.now < 2 ^ 32 }
        requires reading { IsReading self.old }
        requires thread { IsThread thread (read_by self.old) }
        requires command { is_command self.old.tables.now command.now ≡ true }
        requires count { NoCount (scanned_by thread.within command.now)
            (count_first thread.round (SessionWho thread.session) (thread.index + 1)
            (lines_left self.old)) }
        ensures tables { self.new.tables.now ≡ self.old.tables.now }
        ensures read { IfOk result (λ after. ThreadGoes self.old self.new thread after
            command.now) }
        ensures failed { OnLine result (FailsAt self.old (session_due thread command.now ∷ [])) }
    {
        let heading = thread.next_heading();
        let Some(front) = said_first(alloc, self.tables, heading, self.rest)? else {
            return Err(ReadFault::Line(self.line));
        };
        if !answers(self.tables, thread.within, command, &front.said) {
            return Err(ReadFault::Line(self.line));
        }
        let within = within_behind(thread.within, &front.said);
        let told = told_of(alloc, &front.said, front.words)?;
        self.keep(heading, Some(command), told, 1, front.behind)?;
        Ok(Thread {
            index: heading.index,
            within,
            ..thread
        })
    }
}

impl Thread {
    /// The heading of the next reply.
    fn next_heading(self) -> Heading
        requires { self.index + 1 < 2 ^ 64 }
        ensures { result ≡ record {
          round = self.round;
          who = SessionWho self.session;
          index = self.index + 1;
        } }
    {
        Heading {
            round: self.round,
            who: Who::Session(self.session),
            index: self.index + 1,
        }
    }
}
