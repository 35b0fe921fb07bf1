//! What each of a row is to do in a round, and what comes of it.
ghost use Rattle.std.specs.Prelude.{◌≡◌, ◌+◌, ◌++◌, ◌<◌, ◌^◌, Err, IfOk, OnErr, OnOk, true};
ghost use Rattle.std.specs.List.{list_all, list_any};
ghost use Rattle.workload_spec.specs.Valid.{is_export, is_within};
ghost use Rattle.store_rounds.specs.Duties.{
  AreDuties,
  AreOfSessions,
  AreWithWorkers,
  IsNew,
  IsWholeText,
  asks_export,
  duties_text,
  is_busy,
  is_cut,
  is_lost,
  is_whole,
};

use crate::agenda::{Agenda, agendas_of};
use crate::crew::Crew;
use crate::fault::RunFault;
use crate::lines::Lines;
use crate::spent::Spent;
use script_text::is_export;
use std::alloc::{AllocError, Global};
use workload_spec::{Command, Round};

/// What one of a row is to do in a round.
#[derive(Drop)]
pub(crate) enum Task {
    /// A session carries out its commands, in order.
    Commands(Vec<Command>),
    /// A worker makes its turns.
    Turns {
        /// The worker's number, from 1 on.
        worker: u32,
        /// How many turns it makes.
        turns: u32,
    },
}

/// What one of a row does in a round, and what comes of it.
#[derive(Drop)]
pub(crate) struct Duty {
    /// What it is to do; none once it is taken on.
    pub task: Option<Task>,
    /// Its lines.
    pub lines: Lines,
    /// The rows that it used up.
    pub spent: Spent,
    /// Whether it came to its end and its lines are whole.
    pub ended: Result<(), RunFault>,
}

impl Duty {
    /// A duty that is not taken on yet, in the round of this number, beside others or not.
    fn new(alloc: Global, round: u32, task: Task, beside_others: bool) -> Duty
        ensures { IsNew round task result }
    {
        let lines = Lines {
            round,
            text: Vec::new(alloc),
        };
        Duty {
            task: Some(task),
            lines,
            spent: Spent::new(alloc, beside_others),
            ended: Ok(()),
        }
    }

    /// A duty in which nothing is to be done.
    pub(crate) fn none(alloc: Global) -> Duty {
        let lines = Lines {
            round: 0,
            text: Vec::new(alloc),
        };
        Duty {
            task: None,
            lines,
            spent: Spent::new(alloc, false),
            ended: Ok(()),
        }
    }

    /// Whether there is something to do.
    pub(crate) fn is_busy(&self) -> bool
        ensures { result ≡ is_busy self.now }
    {
        match &self.task {
            Some(Task::Commands(commands)) => !commands.is_empty(),
            Some(Task::Turns { worker: _, turns }) => *turns != 0,
            None => false,
        }
    }

    /// Whether a table is to be exported.
    pub(crate) fn asks_export(&self) -> bool
        ensures { result ≡ asks_export self.now }
    {
        match &self.task {
            Some(Task::Commands(commands)) => any_is_export(commands.as_slice()),
            Some(Task::Turns { .. }) | None => false,
        }
    }

    /// Whether it came to its end and its lines are whole.
    fn is_whole(&self) -> bool
        ensures { result ≡ is_whole self.now }
    {
        self.ended.is_ok()
    }

    /// Whether it stopped at an export, where the outlet failed.
    fn is_cut(&self) -> bool
        ensures { result ≡ is_cut self.now }
    {
        match self.ended {
            Err(RunFault::Export) => true,
            Err(RunFault::Out | RunFault::Memory | RunFault::Log | RunFault::GroupTooLong)
            | Ok(()) => false,
        }
    }
}

/// Whether one of the commands exports a table.
fn any_is_export(commands: &[Command]) -> bool
    ensures { result ≡ list_any is_export commands.now }
{
    commands.iter().any(|command| is_export(command))
}

/// The duties of a crew in a round, its sessions' first. `at_once` tells whether the machine runs
/// several threads at the same time.
pub(crate) fn duties_of(
    alloc: Global,
    crew: Crew,
    number: u32,
    at_once: bool,
    round: Round,
) -> Result<Vec<Duty>, AllocError>
    requires size { crew.sessions + crew.workers < 2 ^ 32 }
    requires lines { list_all (λ line. is_within 1 crew.sessions line.session) round ≡ true }
    ensures { IfOk result (λ duties. AreDuties crew number round duties.items) }
{
    let agendas = agendas_of(alloc, crew.sessions as usize, round)?;
    let mut duties = session_duties(alloc, number, crew.size() as usize, at_once, agendas)?;
    add_workers(alloc, number, crew, &mut duties)?;
    Ok(duties)
}

/// The duties of the sessions with these agendas, with room for so many.
fn session_duties(
    alloc: Global,
    number: u32,
    room: usize,
    at_once: bool,
    agendas: Vec<Agenda>,
) -> Result<Vec<Duty>, AllocError>
    ensures { IfOk result (λ duties. AreOfSessions number agendas.items duties.items) }
{
    let mut duties = Vec::with_capacity(alloc, room)?;
    let beside_others = work_at_once(at_once, agendas.as_slice());
    for agenda in agendas {
        let Agenda { commands } = agenda;
        let task = Task::Commands(commands);
        duties.push(Duty::new(alloc, number, task, beside_others))?;
    }
    Ok(duties)
}

/// Whether several sessions are at work at the same time.
fn work_at_once(at_once: bool, agendas: &[Agenda]) -> bool {
    at_once && are_several(agendas)
}

/// Whether several sessions have commands.
fn are_several(agendas: &[Agenda]) -> bool {
    let busy = agendas
        .iter()
        .filter(|agenda| !agenda.commands.is_empty())
        .count();
    busy > 1
}

/// Puts the duties of a crew's workers behind those of its sessions.
fn add_workers(
    alloc: Global,
    number: u32,
    crew: Crew,
    duties: &mut Vec<Duty>,
) -> Result<(), AllocError>
    requires size { crew.sessions + crew.workers < 2 ^ 32 }
    ensures { OnOk result (AreWithWorkers crew number crew.workers duties.old.items
        duties.new.items) }
{
    for at in 0..crew.workers {
        let turns = Task::Turns {
            worker: at + 1,
            turns: crew.turns,
        };
        duties.push(Duty::new(alloc, number, turns, false))?;
    }
    Ok(())
}

/// Whether one of them stopped at an export, where the outlet failed.
pub(crate) fn any_is_cut(duties: &[Duty]) -> bool
    ensures { result ≡ list_any is_cut duties.now }
{
    duties.iter().any(Duty::is_cut)
}

/// Whether the lines of one of them are not whole.
fn any_is_lost(duties: &[Duty]) -> bool
    ensures { result ≡ list_any is_lost duties.now }
{
    duties.iter().any(|duty| !duty.is_whole())
}

/// The text of the lines of all, each of whom came to its end.
///
/// # Errors
///
/// [`RunFault::Memory`]: there is no memory for the text, or there was none for a line.
pub(crate) fn whole_text(alloc: Global, duties: Vec<Duty>) -> Result<Vec<u8>, RunFault>
    ensures text { IfOk result (λ text. IsWholeText duties.items text.items) }
    ensures only { OnErr result (result ≡ Err RunFault.Memory) }
{
    if any_is_lost(duties.as_slice()) {
        return Err(RunFault::Memory);
    }
    match text_of(alloc, duties) {
        Ok(text) => Ok(text),
        Err(AllocError) => Err(RunFault::Memory),
    }
}

/// The text of the lines of all, one behind the other.
fn text_of(alloc: Global, duties: Vec<Duty>) -> Result<Vec<u8>, AllocError>
    ensures { IfOk result (λ text. text.items ≡ duties_text duties.items) }
{
    let mut text = Vec::new(alloc);
    for duty in duties {
        let Duty { lines, .. } = duty;
        let Lines {
            round: _,
            text: more,
        } = lines;
        put_behind(&mut text, more)?;
    }
    Ok(text)
}

/// Puts a text behind another, which is not copied where there is none before it.
fn put_behind(text: &mut Vec<u8>, more: Vec<u8>) -> Result<(), AllocError>
    ensures { OnOk result (text.new.items ≡ text.old.items ++ more.items) }
{
    if text.is_empty() {
        *text = more;
        return Ok(());
    }
    text.extend_from_slice(more.as_slice())?;
    Ok(())
}
