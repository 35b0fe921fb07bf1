//! A whole stream of batches by dictionaries.
ghost use Rattle.std.specs.Prelude.{◌≡◌, ◌++◌, ◌≤◌, false, List, flat_map, map};
ghost use Rattle.arrow_spec.specs.DictBatches.{dict_batch_of};
ghost use Rattle.arrow_spec.specs.Streams.{dict_stream_of, end_word, messages_of_dicts};
ghost use Rattle.arrow_spec.specs.Streams.{stream_of_dicts};
ghost use Rattle.byte_ports.specs.Calls.{TellsAlike};
ghost use Rattle.cell_model.specs.declared.cell.Cell.{Cell};
ghost use Rattle.ipc_write.specs.Calls.{WritesRun};

use crate::faults::PieceFault;
use crate::writer::Writer;
use arrow_array::Dicts;
use byte_ports::Sink;
use cell_model::Schema;
use std::alloc::Global;

impl<W: Sink> Writer<W> {
    /// Writes a whole stream: the schema, the messages of each batch, and the end word. Where a
    /// message finds no memory, those before it are written.
    pub fn dict_stream(
        &mut self,
        alloc: Global,
        schema: &Schema,
        batches: &[Dicts],
    ) -> Result<(), PieceFault>
        ensures answer { WritesRun W.written W.faults self.old self.new
            (stream_of_dicts schema.now batches.now) result }
        ensures rows { (rows : List (List (List Cell)))
            → batches.now ≡ map (dict_batch_of schema.now) rows
            → WritesRun W.written W.faults self.old self.new (dict_stream_of schema.now rows)
            result }
        ensures told { TellsAlike (W.written self.old.sink) (W.written self.new.sink) }
        ensures started { W.started self.new.sink ≡ W.started self.old.sink }
        ensures loan { W.loan self.new.sink ≡ W.loan self.old.sink }
        ensures counted { W.faults self.old.sink ≤ W.faults self.new.sink }
    {
        match self.schema_dict(alloc, schema) {
            Ok(()) => self.dict_batches(alloc, batches),
            Err(fault) => Err(fault),
        }
    }

    /// Writes the messages of each batch, and the end word.
    fn dict_batches(&mut self, alloc: Global, batches: &[Dicts]) -> Result<(), PieceFault>
        requires { self.old.failed ≡ false }
        ensures answer { WritesRun W.written W.faults self.old self.new
            (flat_map messages_of_dicts batches.now ++ end_word) result }
        ensures told { TellsAlike (W.written self.old.sink) (W.written self.new.sink) }
        ensures started { W.started self.new.sink ≡ W.started self.old.sink }
        ensures loan { W.loan self.new.sink ≡ W.loan self.old.sink }
        ensures counted { W.faults self.old.sink ≤ W.faults self.new.sink }
    {
        for dicts in batches {
            match self.dicts(alloc, dicts) {
                Ok(()) => {}
                Err(fault) => return Err(fault),
            }
        }
        match self.finish() {
            Ok(()) => Ok(()),
            Err(fault) => Err(PieceFault::Sink(fault)),
        }
    }
}
