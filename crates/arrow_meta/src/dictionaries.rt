//! A dictionary's message and how it is read (Message.fbs, "DictionaryBatch").
ghost use Rattle.std.specs.Prelude.{◌≡◌};
ghost use Rattle.stream_spec.specs.Metadata.{dictionary_at, dictionary_table_at};

use crate::fields::{reference, scalar};
use flat_read::FlatFault;
use stream_spec::{DictionaryHead, DictionaryTable, MetaFault};

/// The dictionary whose table stands at this place of the metadata; or the first fault: the
/// metadata's form, no values.
pub fn read_dictionary(bytes: &[u8], table: u64) -> Result<DictionaryHead, MetaFault>
    ensures { result ≡ dictionary_at bytes.now table }
{
    let dictionary = match dictionary_table(bytes, table) {
        Ok(dictionary) => dictionary,
        Err(fault) => return Err(MetaFault::Flat(fault)),
    };
    let Some(values) = dictionary.values else {
        return Err(MetaFault::Shape);
    };
    Ok(DictionaryHead {
        id: dictionary.id,
        values,
        delta: dictionary.delta,
    })
}

/// The fields of a dictionary's table.
fn dictionary_table(bytes: &[u8], table: u64) -> Result<DictionaryTable, FlatFault>
    ensures { result ≡ dictionary_table_at bytes.now table }
{
    let id = scalar(bytes, table, 0, 8)?;
    let values = reference(bytes, table, 1)?;
    let delta = scalar(bytes, table, 2, 1)?;
    Ok(DictionaryTable {
        id,
        values,
        delta: delta != 0,
    })
}
