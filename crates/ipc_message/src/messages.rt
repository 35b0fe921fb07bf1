//! Messages whose body is columns, before any of it is written (Arrow columnar format, "RecordBatch
//! message" and "Dictionary Messages").
ghost use Rattle.std.specs.Prelude.{◌≡◌, ◌++◌, [], IfOk, OnOk, flat_map};
ghost use Rattle.arrow_array.specs.Batches.{AreFew};
ghost use Rattle.arrow_spec.specs.Batches.{batch_of_arrays};
ghost use Rattle.arrow_spec.specs.Bytes.{padded};
ghost use Rattle.arrow_spec.specs.Streams.{dictionary_message, message_of, messages_of_dicts};
ghost use Rattle.ipc_message.specs.Messages.{bytes_of};

use crate::body::Body;
use crate::head::batch_head;
use crate::lent::{LentArray, of_batch};
use crate::whole::{are_small, put_body};
use arrow_array::{Array, Dictionary, Dicts};
use std::alloc::{AllocError, Global};
use std::slice;

/// A message: what stands before its body, and the columns whose buffers the body is; where these
/// are all small, the whole message and no column.
#[derive(Drop)]
pub struct Message<'a> {
    pub head: Vec<u8>,
    pub columns: Vec<LentArray<'a>>,
}

/// The message of a record batch of so many rows with these columns, or of the dictionary with this
/// id; what is put together stands in an empty vector.
pub fn make_message(
    empty: Vec<u8>,
    id: Option<u32>,
    rows: u32,
    columns: Vec<LentArray<'_>>,
) -> Result<Message<'_>, AllocError>
    requires empty { empty.items ≡ [] }
    requires few { AreFew columns.items }
    ensures { IfOk result (λ message. bytes_of message
        ≡ message_of id (batch_of_arrays rows columns.entry.items)) }
{
    let alloc = *empty.allocator();
    let body = Body::of_arrays(alloc, columns.as_slice())?;
    let small = are_small(columns.as_slice());
    let room = if small { body.size as usize } else { 0 };
    let head = batch_head(empty, room, id, rows, columns.as_slice(), &body)?;
    if small {
        together(alloc, head, columns.as_slice())
    } else {
        Ok(Message { head, columns })
    }
}

/// The message of these columns behind what stands before them, put together.
fn together<'a>(
    alloc: Global,
    head: Vec<u8>,
    columns: &[LentArray<'_>],
) -> Result<Message<'a>, AllocError>
    ensures { IfOk result (λ message. bytes_of message
        ≡ head.items ++ flat_map padded (flat_map (λ array. array.buffers) columns.now)) }
{
    let mut head = head;
    put_body(&mut head, columns)?;
    Ok(Message {
        head,
        columns: Vec::new(alloc),
    })
}

/// The messages of the dictionaries, in the order of the columns, and of the record batch.
pub fn dict_messages(alloc: Global, dicts: &Dicts) -> Result<Vec<Message<'_>>, AllocError>
    ensures { IfOk result (λ messages. flat_map bytes_of messages.items
        ≡ messages_of_dicts dicts.now) }
{
    let arrays = dicts.arrays();
    let dictionaries = dicts.dictionaries();
    let mut messages = Vec::with_capacity(alloc, arrays.len() + 1)?;
    for (id, dictionary) in dictionaries.iter().enumerate() {
        add_dictionary(alloc, &mut messages, id as u32, dictionary)?;
    }
    messages.push(array_message(alloc, None, dicts.rows(), arrays)?)?;
    Ok(messages)
}

/// Adds the message of the dictionary with this id, if there is one.
fn add_dictionary<'a>(
    alloc: Global,
    messages: &mut Vec<Message<'a>>,
    id: u32,
    dictionary: &'a Option<Dictionary>,
) -> Result<(), AllocError>
    ensures { OnOk result (flat_map bytes_of messages.new.items
        ≡ flat_map bytes_of messages.old.items ++ dictionary_message (id, dictionary.now)) }
{
    match dictionary {
        Some(dictionary) => {
            let values = slice::from_ref(dictionary.array());
            messages.push(array_message(alloc, Some(id), dictionary.size(), values)?)?;
            Ok(())
        }
        None => Ok(()),
    }
}

/// The message of a record batch of so many rows with these columns, or of the dictionary with this
/// id.
fn array_message(
    alloc: Global,
    id: Option<u32>,
    rows: u32,
    arrays: &[Array],
) -> Result<Message<'_>, AllocError>
    requires { AreFew arrays.now }
    ensures { IfOk result (λ message. bytes_of message
        ≡ message_of id (batch_of_arrays rows arrays.now)) }
{
    let columns = of_batch(alloc, arrays)?;
    make_message(Vec::new(alloc), id, rows, columns)
}
