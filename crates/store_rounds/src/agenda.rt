//! What each session is asked in a round.
ghost use Rattle.std.specs.Prelude.{◌≡◌, ◌++◌, ◌∷◌, [], IfOk, OnOk, true};
ghost use Rattle.std.specs.List.{list_all};
ghost use Rattle.workload_spec.specs.Valid.{is_within};
ghost use Rattle.store_rounds.specs.Agendas.{AreAgendas};

use std::alloc::{AllocError, Global};
use workload_spec::{Command, Line, Round};

/// The commands that a session is asked in a round, in order.
#[derive(Drop)]
pub(crate) struct Agenda {
    /// The commands.
    pub commands: Vec<Command>,
}

impl Agenda {
    /// One command more.
    fn push(&mut self, command: Command) -> Result<(), AllocError>
        ensures { OnOk result (self.new.commands.items ≡ self.old.commands.items ++ command ∷ []) }
    {
        self.commands.push(command)?;
        Ok(())
    }
}

/// The commands of each of so many sessions in a round.
pub(crate) fn agendas_of(
    alloc: Global,
    sessions: usize,
    round: Round,
) -> Result<Vec<Agenda>, AllocError>
    requires lines { list_all (λ line. is_within 1 sessions line.session) round ≡ true }
    ensures { IfOk result (λ agendas. AreAgendas sessions round agendas.items) }
{
    let mut agendas = empty_agendas(alloc, sessions)?;
    for line in round.into_vec() {
        let Line { session, command } = line;
        agendas[session as usize - 1].push(command)?;
    }
    Ok(agendas)
}

/// So many agendas without a command.
fn empty_agendas(alloc: Global, sessions: usize) -> Result<Vec<Agenda>, AllocError>
    ensures { IfOk result (λ agendas. AreAgendas sessions [] agendas.items) }
{
    let mut agendas = Vec::with_capacity(alloc, sessions)?;
    for made in 0..sessions {
        let commands = Vec::new(alloc);
        agendas.push(Agenda { commands })?;
    }
    Ok(agendas)
}
