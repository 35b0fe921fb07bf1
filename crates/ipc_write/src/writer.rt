//! The writer of a stream, piece by piece, to a sink of which a call may fail.
ghost use Rattle.std.specs.Prelude.{◌≡◌, ◌++◌, ◌<◌, ◌≤◌, ◌^◌, [], false, All, length, flat_map};
ghost use Rattle.arrow_spec.specs.Batches.{batch_of_arrays};
ghost use Rattle.arrow_spec.specs.Bytes.{padded};
ghost use Rattle.arrow_spec.specs.Streams.{schema_message, message_of_batch, batch_message};
ghost use Rattle.arrow_spec.specs.Streams.{message as message_bytes};
ghost use Rattle.arrow_spec.specs.Streams.{dict_schema_message, end_word, messages_of_dicts};
ghost use Rattle.byte_ports.specs.Calls.{TellsAlike};
ghost use Rattle.cell_model.specs.Rows.{Fits};
ghost use Rattle.arrow_array.specs.Batches.{AreFew};
ghost use Rattle.block_columns.specs.Images.{IsWhole, rows_of};
ghost use Rattle.ipc_message.specs.Messages.{bytes_of};
ghost use Rattle.ipc_write.specs.Calls.{WritesPiece, MakesPiece};

use crate::faults::{PieceFault, SinkFault};
use crate::lent::LentImage;
use arrow_array::{Batch, Dicts, build};
use byte_ports::{Failed, Sink, write_all};
use cell_model::{Bytes, Row, Schema};
use ipc_message::{LentArray, Message, dict_messages, framed, make_message, of_batch};
use std::alloc::{AllocError, Global};
use std::marker::Model;

/// Writes the pieces of a stream to a sink: the message of a schema, those of record batches, and
/// the end word (Arrow columnar format, "IPC Streaming Format").
///
/// Once a call of the sink has failed, each call answers `SinkFault { earlier: true }` and writes
/// nothing.
#[derive(Drop)]
pub struct Writer<W> {
    sink: W,
    failed: bool,
    /// The memory of the last message that was put together, for the next one.
    spare: Option<Vec<u8>>,
}

impl<W> Model for Writer<W> {
    ghost use Rattle.ipc_write.specs.Calls.{WriterView};

    ghost Value = { WriterView W };

    ghost view = { λ w. record { sink = w.sink; failed = w.failed } };
}

impl<W: Sink> Writer<W> {
    /// A writer to this sink, none of whose calls has failed.
    pub fn new(sink: W) -> Writer<W>
        ensures { result ≡ record { sink = sink; failed = false } }
    {
        Writer {
            sink,
            failed: false,
            spare: None,
        }
    }

    /// Gives the sink back. Who lent the sink learns by this what was written to it.
    pub fn into_inner(self) -> W
        ensures { result ≡ self.sink }
    {
        let Writer { sink, .. } = self;
        sink
    }

    /// Writes the message of a schema, with which a stream begins.
    pub fn schema(&mut self, alloc: Global, schema: &Schema) -> Result<(), PieceFault>
        ensures answer { MakesPiece W.written W.faults self.old self.new (schema_message schema.now)
            result }
        ensures told { TellsAlike (W.written self.old.sink) (W.written self.new.sink) }
        ensures started { W.started self.new.sink ≡ W.started self.old.sink }
        ensures loan { W.loan self.new.sink ≡ W.loan self.old.sink }
        ensures counted { W.faults self.old.sink ≤ W.faults self.new.sink }
    {
        if self.failed {
            return Err(PieceFault::Sink(SinkFault { earlier: true }));
        }
        let metadata = arrow_meta::schema_message(alloc, schema)?;
        self.without_body(alloc, &metadata)
    }

    /// Writes the message of a schema whose utf8 and binary columns are encoded by dictionaries,
    /// with which a stream of such batches begins.
    pub fn schema_dict(&mut self, alloc: Global, schema: &Schema) -> Result<(), PieceFault>
        ensures answer { MakesPiece W.written W.faults self.old self.new
            (dict_schema_message schema.now) result }
        ensures told { TellsAlike (W.written self.old.sink) (W.written self.new.sink) }
        ensures started { W.started self.new.sink ≡ W.started self.old.sink }
        ensures loan { W.loan self.new.sink ≡ W.loan self.old.sink }
        ensures counted { W.faults self.old.sink ≤ W.faults self.new.sink }
    {
        if self.failed {
            return Err(PieceFault::Sink(SinkFault { earlier: true }));
        }
        let metadata = arrow_meta::dict_schema_message(alloc, schema)?;
        self.without_body(alloc, &metadata)
    }

    /// Writes the message of a record batch of these rows.
    pub fn rows(&mut self, alloc: Global, schema: &Schema, rows: &[Row]) -> Result<(), PieceFault>
        requires fits { All (λ row. Fits schema.now row) rows.now }
        requires few { length rows.now ≤ 2 ^ 15 }
        ensures answer { MakesPiece
            W.written
            W.faults
            self.old
            self.new
            (batch_message schema.now rows.now)
            result }
        ensures told { TellsAlike (W.written self.old.sink) (W.written self.new.sink) }
        ensures started { W.started self.new.sink ≡ W.started self.old.sink }
        ensures loan { W.loan self.new.sink ≡ W.loan self.old.sink }
        ensures counted { W.faults self.old.sink ≤ W.faults self.new.sink }
    {
        if self.failed {
            return Err(PieceFault::Sink(SinkFault { earlier: true }));
        }
        let batch = build(alloc, schema, rows)?;
        self.batch(alloc, &batch)
    }

    /// Writes the message of a record batch.
    ///
    /// Where its buffers are all small, the message is put together and goes to the sink as one
    /// piece; else each buffer is a piece of its own, from where it lies.
    pub fn batch(&mut self, alloc: Global, batch: &Batch) -> Result<(), PieceFault>
        ensures answer { MakesPiece
            W.written
            W.faults
            self.old
            self.new
            (message_of_batch (batch_of_arrays batch.now.rows batch.now.arrays))
            result }
        ensures told { TellsAlike (W.written self.old.sink) (W.written self.new.sink) }
        ensures started { W.started self.new.sink ≡ W.started self.old.sink }
        ensures loan { W.loan self.new.sink ≡ W.loan self.old.sink }
        ensures counted { W.faults self.old.sink ≤ W.faults self.new.sink }
    {
        if self.failed {
            return Err(PieceFault::Sink(SinkFault { earlier: true }));
        }
        let arrays = of_batch(alloc, batch.arrays())?;
        self.arrays(alloc, batch.rows(), arrays)
    }

    /// Writes the message of the record batch of an image's rows.
    ///
    /// Where the image has the message, this goes to the sink as it lies there, in one piece; else
    /// the buffers go from where they lie.
    pub fn image(&mut self, alloc: Global, image: &LentImage<'_>) -> Result<(), PieceFault>
        requires whole { IsWhole image.now }
        requires few { length image.now.columns ≤ 32 }
        ensures answer { MakesPiece
            W.written
            W.faults
            self.old
            self.new
            (batch_message image.now.columns (rows_of image.now))
            result }
        ensures told { TellsAlike (W.written self.old.sink) (W.written self.new.sink) }
        ensures started { W.started self.new.sink ≡ W.started self.old.sink }
        ensures loan { W.loan self.new.sink ≡ W.loan self.old.sink }
        ensures counted { W.faults self.old.sink ≤ W.faults self.new.sink }
    {
        if self.failed {
            return Err(PieceFault::Sink(SinkFault { earlier: true }));
        }
        if let Some(message) = image.message() {
            return self.ready(message);
        }
        let arrays = image.columns(alloc)?;
        self.arrays(alloc, image.rows(), arrays)
    }

    /// Writes the messages of a block's columns by dictionaries: the dictionaries, each in place of
    /// the one before with its id, and the record batch. All of them are made before the first is
    /// written.
    ///
    /// Where the buffers of a message are all small, it goes to the sink as one piece; else each
    /// buffer is a piece of its own, from where it lies.
    pub fn dicts(&mut self, alloc: Global, dicts: &Dicts) -> Result<(), PieceFault>
        ensures answer { MakesPiece W.written W.faults self.old self.new
            (messages_of_dicts dicts.now) result }
        ensures told { TellsAlike (W.written self.old.sink) (W.written self.new.sink) }
        ensures started { W.started self.new.sink ≡ W.started self.old.sink }
        ensures loan { W.loan self.new.sink ≡ W.loan self.old.sink }
        ensures counted { W.faults self.old.sink ≤ W.faults self.new.sink }
    {
        if self.failed {
            return Err(PieceFault::Sink(SinkFault { earlier: true }));
        }
        let messages = dict_messages(alloc, dicts)?;
        match self.messages(messages.as_slice()) {
            Ok(()) => Ok(()),
            Err(fault) => Err(PieceFault::Sink(fault)),
        }
    }

    /// Writes the word that ends a stream.
    pub fn finish(&mut self) -> Result<(), SinkFault>
        ensures answer { WritesPiece W.written W.faults self.old self.new end_word result }
        ensures told { TellsAlike (W.written self.old.sink) (W.written self.new.sink) }
        ensures started { W.started self.new.sink ≡ W.started self.old.sink }
        ensures loan { W.loan self.new.sink ≡ W.loan self.old.sink }
        ensures counted { W.faults self.old.sink ≤ W.faults self.new.sink }
    {
        self.write(&[0xff, 0xff, 0xff, 0xff, 0, 0, 0, 0])
    }

    /// Writes a message that was put together before.
    fn ready(&mut self, message: &[u8]) -> Result<(), PieceFault>
        requires { self.old.failed ≡ false }
        ensures answer { MakesPiece W.written W.faults self.old self.new message.now result }
        ensures told { TellsAlike (W.written self.old.sink) (W.written self.new.sink) }
        ensures started { W.started self.new.sink ≡ W.started self.old.sink }
        ensures loan { W.loan self.new.sink ≡ W.loan self.old.sink }
        ensures counted { W.faults self.old.sink ≤ W.faults self.new.sink }
    {
        match self.write(message) {
            Ok(()) => Ok(()),
            Err(fault) => Err(PieceFault::Sink(fault)),
        }
    }

    /// Writes the message that has this metadata and no body.
    fn without_body(&mut self, alloc: Global, metadata: &Bytes) -> Result<(), PieceFault>
        requires open { self.old.failed ≡ false }
        requires short { length metadata.now < 2 ^ 31 }
        ensures answer { MakesPiece W.written W.faults self.old self.new
            (message_bytes metadata.now []) result }
        ensures told { TellsAlike (W.written self.old.sink) (W.written self.new.sink) }
        ensures started { W.started self.new.sink ≡ W.started self.old.sink }
        ensures loan { W.loan self.new.sink ≡ W.loan self.old.sink }
        ensures counted { W.faults self.old.sink ≤ W.faults self.new.sink }
    {
        let piece = framed(Vec::new(alloc), metadata.as_slice(), 0)?;
        self.ready(piece.as_slice())
    }

    /// Writes the message of a record batch of so many rows with these columns.
    fn arrays(
        &mut self,
        alloc: Global,
        rows: u32,
        arrays: Vec<LentArray<'_>>,
    ) -> Result<(), PieceFault>
        requires open { self.old.failed ≡ false }
        requires few { AreFew arrays.items }
        ensures answer { MakesPiece
            W.written
            W.faults
            self.old
            self.new
            (message_of_batch (batch_of_arrays rows arrays.entry.items))
            result }
        ensures told { TellsAlike (W.written self.old.sink) (W.written self.new.sink) }
        ensures started { W.started self.new.sink ≡ W.started self.old.sink }
        ensures loan { W.loan self.new.sink ≡ W.loan self.old.sink }
        ensures counted { W.faults self.old.sink ≤ W.faults self.new.sink }
    {
        let empty = self.empty(alloc);
        let message = make_message(empty, None, rows, arrays)?;
        self.kept(message)
    }

    /// Writes a message, and keeps the memory of what was put together of it for the next one.
    fn kept(&mut self, message: Message<'_>) -> Result<(), PieceFault>
        requires { self.old.failed ≡ false }
        ensures answer { MakesPiece W.written W.faults self.old self.new (bytes_of message.entry)
            result }
        ensures told { TellsAlike (W.written self.old.sink) (W.written self.new.sink) }
        ensures started { W.started self.new.sink ≡ W.started self.old.sink }
        ensures loan { W.loan self.new.sink ≡ W.loan self.old.sink }
        ensures counted { W.faults self.old.sink ≤ W.faults self.new.sink }
    {
        let done = self.message(&message);
        let Message { head, .. } = message;
        self.spare = Some(head);
        match done {
            Ok(()) => Ok(()),
            Err(fault) => Err(PieceFault::Sink(fault)),
        }
    }

    /// An empty vector, in the spare memory if there is any.
    fn empty(&mut self, alloc: Global) -> Vec<u8>
        ensures empty { result.items ≡ [] }
        ensures same { self.new ≡ self.old }
    {
        let Some(mut bytes) = self.spare.take() else {
            return Vec::new(alloc);
        };
        bytes.clear();
        bytes
    }

    /// Writes messages one after another.
    fn messages(&mut self, messages: &[Message<'_>]) -> Result<(), SinkFault>
        requires { self.old.failed ≡ false }
        ensures answer { WritesPiece W.written W.faults self.old self.new
            (flat_map bytes_of messages.now) result }
        ensures told { TellsAlike (W.written self.old.sink) (W.written self.new.sink) }
        ensures started { W.started self.new.sink ≡ W.started self.old.sink }
        ensures loan { W.loan self.new.sink ≡ W.loan self.old.sink }
        ensures counted { W.faults self.old.sink ≤ W.faults self.new.sink }
    {
        for message in messages {
            match self.message(message) {
                Ok(()) => {}
                Err(fault) => return Err(fault),
            }
        }
        Ok(())
    }

    /// Writes a message: what is put together of it, and then the buffers of its columns from where
    /// they lie.
    fn message(&mut self, message: &Message<'_>) -> Result<(), SinkFault>
        requires { self.old.failed ≡ false }
        ensures answer { WritesPiece W.written W.faults self.old self.new (bytes_of message.now)
            result }
        ensures told { TellsAlike (W.written self.old.sink) (W.written self.new.sink) }
        ensures started { W.started self.new.sink ≡ W.started self.old.sink }
        ensures loan { W.loan self.new.sink ≡ W.loan self.old.sink }
        ensures counted { W.faults self.old.sink ≤ W.faults self.new.sink }
    {
        match self.write(message.head.as_slice()) {
            Ok(()) => self.body(message.columns.as_slice()),
            Err(fault) => Err(fault),
        }
    }

    /// Writes the body of these columns.
    fn body(&mut self, arrays: &[LentArray<'_>]) -> Result<(), SinkFault>
        requires { self.old.failed ≡ false }
        ensures answer { WritesPiece
            W.written
            W.faults
            self.old
            self.new
            (flat_map padded (flat_map (λ array. array.buffers) arrays.now))
            result }
        ensures told { TellsAlike (W.written self.old.sink) (W.written self.new.sink) }
        ensures started { W.started self.new.sink ≡ W.started self.old.sink }
        ensures loan { W.loan self.new.sink ≡ W.loan self.old.sink }
        ensures counted { W.faults self.old.sink ≤ W.faults self.new.sink }
    {
        for array in arrays {
            match self.buffers(array.buffers()) {
                Ok(()) => {}
                Err(fault) => return Err(fault),
            }
        }
        Ok(())
    }

    /// Writes buffers one after another, each padded.
    fn buffers(&mut self, buffers: &[Bytes]) -> Result<(), SinkFault>
        requires { self.old.failed ≡ false }
        ensures answer { WritesPiece W.written W.faults self.old self.new
            (flat_map padded buffers.now) result }
        ensures told { TellsAlike (W.written self.old.sink) (W.written self.new.sink) }
        ensures started { W.started self.new.sink ≡ W.started self.old.sink }
        ensures loan { W.loan self.new.sink ≡ W.loan self.old.sink }
        ensures counted { W.faults self.old.sink ≤ W.faults self.new.sink }
    {
        for buffer in buffers {
            match self.padded(buffer.as_slice()) {
                Ok(()) => {}
                Err(fault) => return Err(fault),
            }
        }
        Ok(())
    }

    /// Writes a buffer and its padding.
    fn padded(&mut self, buffer: &[u8]) -> Result<(), SinkFault>
        ensures answer { WritesPiece W.written W.faults self.old self.new (padded buffer.now)
            result }
        ensures told { TellsAlike (W.written self.old.sink) (W.written self.new.sink) }
        ensures started { W.started self.new.sink ≡ W.started self.old.sink }
        ensures loan { W.loan self.new.sink ≡ W.loan self.old.sink }
        ensures counted { W.faults self.old.sink ≤ W.faults self.new.sink }
    {
        let zeros = [0u8; 8];
        let (padding, _) = zeros.split_at(buffer.len().next_multiple_of(8) - buffer.len());
        match self.write(buffer) {
            Ok(()) => self.write(padding),
            Err(fault) => Err(fault),
        }
    }

    /// Writes a piece, unless a call of the sink has failed.
    fn write(&mut self, piece: &[u8]) -> Result<(), SinkFault>
        ensures answer { WritesPiece W.written W.faults self.old self.new piece.now result }
        ensures told { TellsAlike (W.written self.old.sink) (W.written self.new.sink) }
        ensures started { W.started self.new.sink ≡ W.started self.old.sink }
        ensures loan { W.loan self.new.sink ≡ W.loan self.old.sink }
        ensures counted { W.faults self.old.sink ≤ W.faults self.new.sink }
    {
        if self.failed {
            return Err(SinkFault { earlier: true });
        }
        match write_all(&mut self.sink, piece) {
            Ok(()) => Ok(()),
            Err(Failed) => {
                self.failed = true;
                Err(SinkFault { earlier: false })
            }
        }
    }
}
