//! The machine.
ghost use Rattle.std.specs.Prelude.{◌≡◌, IfOk, OnErr, Some, true};
ghost use Rattle.isolation_spec.specs.Checked.{opening, read_asked, reads_of, stale_of, step};
ghost use Rattle.isolation_spec.specs.declared.command.Act.TheVariants as act;
ghost use Rattle.si_machine.specs.Kept.{HasKey};
ghost use Rattle.si_machine.specs.Readings.{IsPlain};

use crate::ledger::Ledger;
use crate::reads::{Reading, Reads, forget, reading_of};
use isolation_spec::{Act, Answer, Command, Read};
use std::alloc::{AllocError, Global};
use std::marker::Model;

/// The snapshot-isolation machine over keys and values: transactions of several sessions, which see
/// the commits before them and their own writes, where the first to write a key wins, and where a
/// checked one commits its writes only where nothing that it read was written since.
#[derive(Drop)]
pub struct Machine {
    alloc: Global,
    ledger: Ledger,
    readings: Vec<Reading>,
}

impl Model for Machine {
    ghost use Rattle.isolation_spec.specs.Checked.{CheckedMachine};

    ghost Value = { CheckedMachine };

    ghost use Rattle.si_machine.specs.Readings.{AreKept, checked_in};
    ghost use Rattle.si_machine.specs.Kept.{IsKept};

    ghost view = { λ m. checked_in m.ledger m.readings.items };

    ghost invariant = { λ m. IsKept m.ledger × AreKept m.ledger m.readings.items };
}

impl Machine {
    /// Nothing was committed, and no transaction is open.
    pub fn new(alloc: Global) -> Machine
        ensures { result ≡ opening }
    {
        Machine {
            alloc,
            ledger: Ledger::new(alloc),
            readings: Vec::new(alloc),
        }
    }

    /// The answer to a command, after which the machine is as the command leaves it. A row that is
    /// to be written has a key of 64 bits, and a total is asked between numbers of 64 bits. Where
    /// memory is refused, nothing has changed.
    pub fn step(&mut self, command: Command) -> Result<Answer, AllocError>
        requires { HasKey command.act }
        ensures ok { IfOk result (λ said. step self.old command ≡ (said, self.new)) }
        ensures err { OnErr result (self.new ≡ self.old) }
    {
        let Command { session, act } = command;
        match act {
            Act::Begin { checked: true } => self.begin_checked(session),
            Act::Begin { checked: false } => self.plain(session, Act::Begin { checked: false }),
            Act::Get { table, key } => {
                self.read(session, Act::Get { table, key }, Read::Key { table, key })
            }
            Act::Scan { table } => self.read(session, Act::Scan { table }, Read::Table { table }),
            Act::Range { table, low, high } => self.read(
                session,
                Act::Range { table, low, high },
                Read::Range { table, low, high },
            ),
            Act::Total {
                table,
                column,
                low,
                high,
            } => self.read(
                session,
                Act::Total {
                    table,
                    column,
                    low,
                    high,
                },
                Read::Table { table },
            ),
            Act::Insert { table, row } => self.plain(session, Act::Insert { table, row }),
            Act::Update { table, row } => self.plain(session, Act::Update { table, row }),
            Act::Delete { table, key } => self.plain(session, Act::Delete { table, key }),
            Act::Commit => self.commit(session),
            Act::Abort => self.abort(session),
        }
    }

    /// Opens a checked transaction.
    fn begin_checked(&mut self, session: u32) -> Result<Answer, AllocError>
        ensures ok { IfOk result (λ said. step self.old
            (record { session = session; act = act.Begin true }) ≡ (said, self.new)) }
        ensures err { OnErr result (self.new ≡ self.old) }
    {
        self.readings.reserve(1)?;
        let answer = self.ledger.step(session, Act::Begin { checked: true })?;
        if let Answer::At(_) = answer {
            self.readings.push_reserved(Reading {
                session,
                reads: Reads::new(self.alloc),
            });
        }
        Ok(answer)
    }

    /// What opens no checked transaction, reads nothing and ends none.
    fn plain(&mut self, session: u32, asked: Act) -> Result<Answer, AllocError>
        requires key { HasKey asked }
        requires plain { IsPlain asked }
        ensures ok { IfOk result (λ said. step self.old
            (record { session = session; act = asked }) ≡ (said, self.new)) }
        ensures err { OnErr result (self.new ≡ self.old) }
    {
        self.ledger.step(session, asked)
    }

    /// Asks for what is read: where it is told, a checked transaction has read it.
    fn read(&mut self, session: u32, asked: Act, what: Read) -> Result<Answer, AllocError>
        requires key { HasKey asked }
        requires what { read_asked asked ≡ Some what }
        ensures ok { IfOk result (λ said. step self.old
            (record { session = session; act = asked }) ≡ (said, self.new)) }
        ensures err { OnErr result (self.new ≡ self.old) }
    {
        let answer = self.ledger.step(session, asked)?;
        if let Some(at) = reading_of(&self.readings, session) {
            self.readings[at].reads.enter(what)?;
        }
        Ok(answer)
    }

    /// Ends the transaction, unless it is checked, wrote something and a read of it is stale.
    fn commit(&mut self, session: u32) -> Result<Answer, AllocError>
        ensures ok { IfOk result (λ said. step self.old
            (record { session = session; act = act.Commit }) ≡ (said, self.new)) }
        ensures err { OnErr result (self.new ≡ self.old) }
    {
        if let Some((read, number)) = self.stale(session) {
            let number = number as u64;
            return Ok(Answer::Stale { read, number });
        }
        let answer = self.ledger.step(session, Act::Commit)?;
        forget(&mut self.readings, session);
        Ok(answer)
    }

    /// The read for which the session's commit is refused, and the last commit that wrote into it.
    fn stale(&self, session: u32) -> Option<(Read, usize)>
        ensures { result
            ≡ stale_of self.now.machine (reads_of session self.now) session act.Commit }
    {
        let at = reading_of(&self.readings, session)?;
        self.ledger.stale(session, &self.readings[at].reads)
    }

    /// Ends the transaction and drops its writes.
    fn abort(&mut self, session: u32) -> Result<Answer, AllocError>
        ensures ok { IfOk result (λ said. step self.old
            (record { session = session; act = act.Abort }) ≡ (said, self.new)) }
        ensures err { OnErr result (self.new ≡ self.old) }
    {
        let answer = self.ledger.step(session, Act::Abort)?;
        forget(&mut self.readings, session);
        Ok(answer)
    }
}
