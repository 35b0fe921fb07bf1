//! The lines of workers.
ghost use Rattle.std.specs.Prelude.{◌≡◌, ◌<◌, ◌+◌, ◌^◌, [], ◌∷◌, true, length, IfOk, OnOk};
ghost use Rattle.workload_spec.specs.Valid.{is_command};
ghost use Rattle.workload_spec.specs.declared.reply.Who.TheVariants.{Worker as WorkerWho};
ghost use Rattle.reply_text.specs.Shown.{are_tables};
ghost use Rattle.outcome_spec.specs.Forms.{dues_to, turn_of};
ghost use Rattle.output_read.specs.Order.{are_ahead};
ghost use Rattle.output_read.specs.Readers.{FailsAll, FailsAt, IsReading, OnLine, read_by};
ghost use Rattle.output_read.specs.Work.{IsFew, IsShift, IsSpoken, Never, ShiftGoes, StepGoes};
ghost use Rattle.output_read.specs.Work.{StepRead, WorkGoes, steps_behind, turns_of, work_dues};

use crate::answers::answers;
use crate::fault::ReadFault;
use crate::reader::{Heading, Reader, said_first, told_of};
use crate::turns::{NextSteps, next_steps};
use std::alloc::Global;
use workload_spec::{Command, Who};

/// The lines of a worker in a round: how many were read.
#[derive(Clone, Copy)]
pub struct Shift {
    pub round: u32,
    pub worker: u32,
    pub index: u64,
}

impl<'a> Reader<'a> {
    /// Reads the lines of a worker's turns in a round.
    pub fn turn_lines(
        &mut self,
        alloc: Global,
        round: u32,
        worker: u32,
        turns: u32,
    ) -> Result<(), ReadFault>
        requires tables { are_tables self.old.tables.now ≡ true }
        requires few { IsFew (length self.old.tables.now) }
        requires reading { IsReading self.old }
        requires ahead { are_ahead round (WorkerWho worker) (read_by self.old) ≡ true }
        ensures tables { self.new.tables.now ≡ self.old.tables.now }
        ensures read { OnOk result (WorkGoes self.old self.new round worker
            (turns_of turns self.old.tables.now)) }
        ensures failed { OnLine result
            (FailsAt self.old (dues_to round (WorkerWho worker)
            (turns_of turns self.old.tables.now))) }
    {
        let mut shift = Shift {
            round,
            worker,
            index: 0,
        };
        for _ in 0..turns {
            shift = self.turn(alloc, shift)?;
        }
        Ok(())
    }

    /// Reads the lines of a turn.
    fn turn(&mut self, alloc: Global, shift: Shift) -> Result<Shift, ReadFault>
        requires tables { are_tables self.old.tables.now ≡ true }
        requires few { IsFew (length self.old.tables.now) }
        requires reading { IsReading self.old }
        requires shift { IsShift shift self.old }
        ensures tables { self.new.tables.now ≡ self.old.tables.now }
        ensures read { IfOk result (λ after. ShiftGoes self.old self.new shift after
            (work_dues shift (turn_of self.old.tables.now))) }
        ensures failed { OnLine result
            (FailsAt self.old (work_dues shift (turn_of self.old.tables.now))) }
    {
        let shift = self.work_line(alloc, shift, &Command::Observe)?;
        let shift = self.work_line(alloc, shift, &Command::Prune)?;
        let shift = self.work_line(alloc, shift, &Command::Compact { table: 0 })?;
        self.step_lines(alloc, shift)
    }

    /// Reads the line of a step that has one.
    fn work_line(
        &mut self,
        alloc: Global,
        shift: Shift,
        command: &Command,
    ) -> Result<Shift, ReadFault>
        requires tables { are_tables self.old.tables.now ≡ true }
        requires few { IsFew (length self.old.tables.now) }
        requires reading { IsReading self.old }
        requires shift { IsShift shift self.old }
        requires command { is_command self.old.tables.now command.now ≡ true }
        requires speaks { IsSpoken command.now }
        ensures tables { self.new.tables.now ≡ self.old.tables.now }
        ensures read { IfOk result (λ after. StepRead self.old self.new shift after command.now) }
        ensures failed { OnLine result (FailsAll self.old (work_dues shift (command.now ∷ []))) }
    {
        let heading = shift.next_heading();
        let Some(front) = said_first(alloc, self.tables, heading, self.rest)? else {
            return Err(ReadFault::Line(self.line));
        };
        if !answers(self.tables, true, command, &front.said) {
            return Err(ReadFault::Line(self.line));
        }
        let told = told_of(alloc, &front.said, front.words)?;
        self.keep(heading, None, told, 1, front.behind)?;
        Ok(Shift {
            index: heading.index,
            ..shift
        })
    }

    /// Reads the lines of the steps behind the first compaction.
    fn step_lines(&mut self, alloc: Global, shift: Shift) -> Result<Shift, ReadFault>
        requires tables { are_tables self.old.tables.now ≡ true }
        requires few { IsFew (length self.old.tables.now) }
        requires reading { IsReading self.old }
        requires shift { IsShift shift self.old }
        ensures tables { self.new.tables.now ≡ self.old.tables.now }
        ensures read { IfOk result (λ after. ShiftGoes self.old self.new shift after
            (work_dues shift (steps_behind self.old.tables.now))) }
        ensures failed { OnLine result
            (FailsAt self.old (work_dues shift (steps_behind self.old.tables.now))) }
    {
        let mut shift = shift;
        let mut steps = NextSteps {
            table: 0,
            block: 0,
            sealed: false,
            until: 1,
        };
        while let Some(after) = self.step_line(alloc, shift, steps)? {
            shift.index += 1;
            steps = after;
        }
        if steps.until as usize == self.tables.len() {
            Ok(shift)
        } else {
            Err(ReadFault::Line(self.line))
        }
    }

    /// Reads the line of one of the steps that may be next, and tells which may be next behind it;
    /// none where the next line is none of theirs.
    fn step_line(
        &mut self,
        alloc: Global,
        shift: Shift,
        steps: NextSteps,
    ) -> Result<Option<NextSteps>, ReadFault>
        requires tables { are_tables self.old.tables.now ≡ true }
        requires few { IsFew (length self.old.tables.now) }
        requires reading { IsReading self.old }
        requires shift { IsShift shift self.old }
        requires steps { steps.table < length self.old.tables.now }
        ensures tables { self.new.tables.now ≡ self.old.tables.now }
        ensures read { IfOk result (StepGoes self.old self.new shift steps) }
        ensures failed { OnLine result (λ line. Never) }
    {
        let heading = shift.next_heading();
        let Some(front) = said_first(alloc, self.tables, heading, self.rest)? else {
            return Ok(None);
        };
        let Some(after) = next_steps(self.tables, steps, &front.said) else {
            return Ok(None);
        };
        let told = told_of(alloc, &front.said, front.words)?;
        self.keep(heading, None, told, 1, front.behind)?;
        Ok(Some(after))
    }
}

impl Shift {
    /// The heading of the next line.
    fn next_heading(self) -> Heading
        requires { self.index + 1 < 2 ^ 64 }
        ensures { result ≡ record {
          round = self.round;
          who = WorkerWho self.worker;
          index = self.index + 1;
        } }
    {
        Heading {
            round: self.round,
            who: Who::Worker(self.worker),
            index: self.index + 1,
        }
    }
}
