//! The keys of all rows that transactions write, in order.
ghost use Rattle.std.specs.Prelude.{◌≡◌, IfOk, filter_map, map};
ghost use Rattle.std.specs.List.Sorted.{IsStrictlySortedBy};
ghost use Rattle.output_read.specs.Kept.{entries_of};
ghost use Rattle.outcome_judge.specs.HistoryKept.{key_cmp, place_in};
ghost use Rattle.outcome_judge.specs.KeyLists.{AreKeys, keys_between, keys_from, keys_from_table};
ghost use Rattle.outcome_judge.specs.KeyLists.{keys_of_table, keys_up_to, keys_up_to_table};
ghost use Rattle.outcome_judge.specs.Written.{written_by};

use crate::keys::{RowKey, row_key};
use crate::written::written_by;
use output_read::KeptReply;
use std::alloc::{AllocError, Global};

/// The keys of all rows that the transactions of an output write, in order, each once.
#[derive(Drop)]
pub struct KeyList {
    pub(crate) keys: Vec<RowKey>,
}

/// The keys of the rows that replies accept writes of, in the order of the replies.
fn keys_written(alloc: Global, replies: &[KeptReply<'_>]) -> Result<Vec<RowKey>, AllocError>
    ensures { IfOk result (λ keys. map place_in keys.items
        ≡ filter_map written_by (entries_of replies.now)) }
{
    let mut keys = Vec::new(alloc);
    for reply in replies {
        if let Some(of) = written_by(reply) {
            keys.push(of)?;
        }
    }
    Ok(keys)
}

/// Those of the keys, which rise, that are not below one.
fn keys_from(keys: &[RowKey], first: RowKey) -> &[RowKey]
    requires { IsStrictlySortedBy key_cmp keys.now }
    ensures { result.now ≡ keys_from first keys.now }
{
    &keys[keys.partition_point(|of| *of < first)..]
}

/// Those of the keys, which rise, that are not above one.
fn keys_up_to(keys: &[RowKey], last: RowKey) -> &[RowKey]
    requires { IsStrictlySortedBy key_cmp keys.now }
    ensures { result.now ≡ keys_up_to last keys.now }
{
    &keys[..keys.partition_point(|of| *of <= last)]
}

/// Those of the keys, which rise, whose tables are not below one.
fn keys_from_table(keys: &[RowKey], table: u32) -> &[RowKey]
    requires { IsStrictlySortedBy key_cmp keys.now }
    ensures { result.now ≡ keys_from_table table keys.now }
{
    &keys[keys.partition_point(|of| of.table < table)..]
}

/// Those of the keys, which rise, whose tables are not above one.
fn keys_up_to_table(keys: &[RowKey], table: u32) -> &[RowKey]
    requires { IsStrictlySortedBy key_cmp keys.now }
    ensures { result.now ≡ keys_up_to_table table keys.now }
{
    &keys[..keys.partition_point(|of| of.table <= table)]
}

impl KeyList {
    /// The keys of all rows that replies accept writes of.
    pub(crate) fn of(alloc: Global, replies: &[KeptReply<'_>]) -> Result<KeyList, AllocError>
        ensures { IfOk result (λ list. AreKeys (entries_of replies.now) list) }
    {
        let mut keys = keys_written(alloc, replies)?;
        keys.sort_unstable();
        keys.dedup();
        Ok(KeyList { keys })
    }

    /// Those of a table.
    pub(crate) fn of_table(&self, table: u32) -> &[RowKey]
        requires { IsStrictlySortedBy key_cmp self.now.keys.items }
        ensures { result.now ≡ keys_of_table table self.now.keys.items }
    {
        let not_below = keys_from_table(self.keys.as_slice(), table);
        keys_up_to_table(not_below, table)
    }

    /// Those of a table that lie between two, both counted.
    pub(crate) fn between(&self, table: u32, low: i64, high: i64) -> &[RowKey]
        requires { IsStrictlySortedBy key_cmp self.now.keys.items }
        ensures { result.now ≡ keys_between table low high self.now.keys.items }
    {
        let not_below = keys_from(self.keys.as_slice(), row_key(table, low));
        keys_up_to(not_below, row_key(table, high))
    }
}
