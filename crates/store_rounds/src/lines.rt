//! The lines of a round, as they are told.
ghost use Rattle.std.specs.Prelude.{◌≡◌, ◌+◌, ◌++◌, ◌<◌, ◌^◌, Err, IfErr, IfOk, OnOk, length};
ghost use Rattle.workload_spec.specs.ReplyText.{replies_text, reply_text};
ghost use Rattle.run_laws.specs.Rounds.Lines.{line_of};
ghost use Rattle.store_rounds.specs.Turned.{PutTurn, lines_behind};

use crate::fault::RunFault;
use cell_model::TableDecl;
use reply_text::put_line;
use std::alloc::AllocError;
use workload_spec::{ReplyLine, Said, Who};

/// How many bytes a round's first line makes room for. Most rounds of a session need no more.
const ROOM: usize = 256;

/// The lines of a round, kept until it has ended.
#[derive(Debug, Drop)]
pub(crate) struct Lines {
    /// The round's number, from 1 on.
    pub round: u32,
    /// Their text.
    pub text: Vec<u8>,
}

impl Lines {
    /// Puts a line of a session or worker, of this index from 1 on, behind the others.
    pub(crate) fn put(
        &mut self,
        tables: &[TableDecl],
        who: Who,
        index: u64,
        said: Said,
    ) -> Result<(), RunFault>
        ensures round { self.new.round ≡ self.old.round }
        ensures ok { OnOk result (self.new.text.items ≡ self.old.text.items
            ++ reply_text tables.now (line_of self.old.round who index said)) }
        ensures err { IfErr result (λ fault. fault ≡ RunFault.Memory) }
    {
        let line = ReplyLine {
            round: self.round,
            who,
            index,
            said,
        };
        match self.put_behind(tables, &line) {
            Ok(()) => Ok(()),
            Err(AllocError) => Err(RunFault::Memory),
        }
    }

    /// Puts the text of a line behind the others. The first of them makes room for more.
    fn put_behind(&mut self, tables: &[TableDecl], line: &ReplyLine) -> Result<(), AllocError>
        ensures round { self.new.round ≡ self.old.round }
        ensures ok { OnOk result (self.new.text.items ≡ self.old.text.items
            ++ reply_text tables.now line.now) }
    {
        if self.text.is_empty() {
            self.text.reserve(ROOM)?;
        }
        put_line(&mut self.text, tables, line)
    }

    /// Puts a line behind the others as [`Lines::put`] does, unless one before it was lost.
    ///
    /// # Errors
    ///
    /// There is no memory for this line, or there was none for one before.
    pub(crate) fn put_unless(
        &mut self,
        tables: &[TableDecl],
        shown: Result<(), RunFault>,
        who: Who,
        index: u64,
        said: Said,
    ) -> Result<(), RunFault>
        requires memory { IfErr shown (λ fault. fault ≡ RunFault.Memory) }
        ensures round { self.new.round ≡ self.old.round }
        ensures ok { OnOk result (OnOk shown (self.new.text.items ≡ self.old.text.items
            ++ reply_text tables.now (line_of self.old.round who index said))) }
        ensures kept { IfErr shown (λ fault. result ≡ Err fault) }
        ensures err { IfErr result (λ fault. fault ≡ RunFault.Memory) }
    {
        shown?;
        self.put(tables, who, index, said)
    }

    /// Puts the lines of a worker's turn behind the others, where so many of its lines were put
    /// before. Gives how many are put since.
    ///
    /// # Errors
    ///
    /// There is no memory for these lines, or there was none for those before.
    pub(crate) fn put_turn(
        &mut self,
        tables: &[TableDecl],
        worker: u32,
        shown: Result<u64, RunFault>,
        told: Result<Vec<Said>, AllocError>,
    ) -> Result<u64, RunFault>
        requires few { IfOk shown (λ count.
            IfOk told (λ told. count + length told.items < 2 ^ 64)) }
        ensures round { self.new.round ≡ self.old.round }
        ensures ok { IfOk result (PutTurn tables.now self.old.round worker shown told
            self.old.text.items self.new.text.items) }
        ensures err { IfErr result (λ fault. fault ≡ RunFault.Memory) }
    {
        match (shown, told) {
            (Ok(count), Ok(told)) => self.put_all(tables, worker, count, told),
            _ => Err(RunFault::Memory),
        }
    }

    /// Puts these lines of a worker behind the others, counted on from so many. Gives the number of
    /// the last.
    fn put_all(
        &mut self,
        tables: &[TableDecl],
        worker: u32,
        count: u64,
        told: Vec<Said>,
    ) -> Result<u64, RunFault>
        requires few { count + length told.items < 2 ^ 64 }
        ensures round { self.new.round ≡ self.old.round }
        ensures ok { OnOk result (self.new.text.items ≡ self.old.text.items ++ replies_text
            tables.now (lines_behind self.old.round (Who.Worker worker) count told.items)) }
        ensures counted { IfOk result (λ last. last ≡ count + length told.items) }
        ensures err { IfErr result (λ fault. fault ≡ RunFault.Memory) }
    {
        let mut index = count;
        for said in told {
            index += 1;
            self.put(tables, Who::Worker(worker), index, said)?;
        }
        Ok(index)
    }
}
