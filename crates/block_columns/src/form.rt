//! What some rows are as Arrow has them.
ghost use Rattle.std.specs.Prelude.{◌≡◌, option_copied, option_map};

use cell_model::Buffers;
use std::marker::Model;

/// The Arrow form of some rows: the buffers of each column, and the message of their batch where it
/// was put together (Arrow columnar format, "RecordBatch message").
#[derive(Drop)]
pub struct ArrowForm {
    buffers: Vec<Buffers>,
    message: Option<Vec<u8>>,
}

impl Model for ArrowForm {
    ghost use Rattle.std.specs.Prelude.{option_map};
    ghost use Rattle.block_columns.specs.Images.{FormValue};

    ghost Value = { FormValue };

    ghost view = { λ f. record {
      buffers = f.buffers.items;
      message = option_map (λ message. message.items) f.message;
    } };
}

impl ArrowForm {
    /// The form with these buffers, a list for each column, and this message.
    pub fn new(buffers: Vec<Buffers>, message: Option<Vec<u8>>) -> ArrowForm
        ensures { result ≡ record {
          buffers = buffers.items;
          message = option_map (λ message. message.items) message;
        } }
    {
        ArrowForm { buffers, message }
    }

    /// The buffers of each column, lent.
    pub fn buffers(&self) -> &[Buffers]
        ensures { result.now ≡ self.now.buffers }
    {
        self.buffers.as_slice()
    }

    /// The message, lent, where it was put together.
    pub fn message(&self) -> Option<&[u8]>
        ensures { option_copied result ≡ self.now.message }
    {
        match &self.message {
            Some(message) => Some(message.as_slice()),
            None => None,
        }
    }
}
