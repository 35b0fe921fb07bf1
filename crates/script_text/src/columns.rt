//! Columns of a table line: `NAME:KIND`, as far as words have a colon.
ghost use Rattle.std.specs.Prelude.{◌≡◌, ◌≤◌, ◌∷◌, [], length, take, bytes_eq, IfOk};
ghost use Rattle.std.specs.Prelude.{true};
ghost use Rattle.std.specs.List.{list_all, list_any};
ghost use Rattle.workload_spec.specs.Valid.{is_name, is_name_byte, is_lower_case};
ghost use Rattle.workload_spec.specs.Extents.{is_extent};
ghost use Rattle.workload_spec.specs.Grammar.{has_colon, before_colon, after_colon, column_of};
ghost use Rattle.workload_spec.specs.Grammar.{columns_from, key_column};
ghost use Rattle.word_read.specs.Cursor.{words_behind};
ghost use Rattle.script_text.specs.Answers.{Gives};

use crate::fault::WordFault;
use crate::kinds::kind_of;
use cell_model::{Bytes, Column, Kind, Schema};
use std::alloc::{AllocError, Global};
use word_read::word_behind;
use workload_spec::{Cause, Extent};

/// Whether the bytes are a name: a lower-case letter, and then at most 31 lower-case letters,
/// digits and underscores.
pub fn is_name(bytes: &[u8]) -> bool
    ensures { result ≡ is_name bytes.now }
{
    match bytes {
        [] => false,
        [first, rest @ ..] => { is_lower_case(*first) && are_name_bytes(rest) && rest.len() < 32 }
    }
}

/// Whether each of the bytes may stand in a name.
fn are_name_bytes(bytes: &[u8]) -> bool
    ensures { result ≡ list_all is_name_byte bytes.now }
{
    bytes.iter().all(|byte| is_name_byte(*byte))
}

/// Whether the byte is a lower-case letter, with which a name begins.
fn is_lower_case(byte: u8) -> bool
    ensures { result ≡ is_lower_case byte }
{
    b'a' <= byte && byte <= b'z'
}

/// Whether the byte may stand in a name behind its first.
fn is_name_byte(byte: u8) -> bool
    ensures { result ≡ is_name_byte byte }
{
    is_lower_case(byte) || (b'0' <= byte && byte <= b'9') || byte == b'_'
}

/// Whether a colon stands in the word.
fn has_colon(word: &[u8]) -> bool
    ensures { result ≡ has_colon word.now }
{
    word.iter().any(|byte| *byte == b':')
}

/// What stands before the word's first colon, and what stands behind it.
fn split_colon(word: &[u8]) -> (&[u8], &[u8])
    ensures before { result.0.now ≡ before_colon word.now }
    ensures after { result.1.now ≡ after_colon word.now }
{
    let (before, behind) = word.split_at(colon_place(word));
    match behind {
        [] => (before, behind),
        [_, after @ ..] => (before, after),
    }
}

/// Where the word's first colon stands; its length where there is none.
fn colon_place(word: &[u8]) -> usize
    ensures within { result ≤ length word.now }
    ensures before { before_colon word.now ≡ take result word.now }
{
    for (at, byte) in word.iter().enumerate() {
        if *byte == b':' {
            return at;
        }
    }
    word.len()
}

/// Whether one of the columns has the name.
fn is_taken(columns: &[Column], name: &[u8]) -> bool
    ensures { result ≡ list_any (λ column. bytes_eq column.name name.now) columns.now }
{
    columns.iter().any(|column| column.name.as_slice() == name)
}

/// A column behind others, where there is room for it: a name that none of them has, a colon and a
/// kind.
fn column_of(
    alloc: Global,
    extent: &Extent,
    columns: &[Column],
    word: &[u8],
) -> Result<Column, WordFault>
    ensures { Gives (λ column. column) result (column_of extent.now columns.now word.now) }
{
    let (name, kind) = split_colon(word);
    if !is_name(name) {
        return Err(WordFault::Bad(Cause::Name));
    }
    if is_taken(columns, name) {
        return Err(WordFault::Bad(Cause::Twice));
    }
    let Some((kind, nullable)) = kind_of(extent.later_kinds, kind) else {
        return Err(WordFault::Bad(Cause::Kind));
    };
    if columns.len() >= extent.columns as usize {
        return Err(WordFault::Bad(Cause::Columns));
    }
    Ok(Column {
        name: Bytes::from_slice(alloc, name)?,
        kind,
        nullable,
    })
}

/// The columns of a table, the key's and those of the words that have a colon, and what stands
/// behind the last.
pub fn schema_of<'a>(
    alloc: Global,
    extent: &Extent,
    words: &'a [u8],
) -> Result<(Schema, &'a [u8]), WordFault>
    requires { is_extent extent.now ≡ true }
    ensures { Gives (λ x. (x.0, words_behind x.1.now)) result
        (columns_from extent.now (key_column ∷ []) (words_behind words.now)) }
{
    let (columns, rest) = columns_of(alloc, extent, words)?;
    match Schema::new(columns) {
        Ok(schema) => Ok((schema, rest)),
        Err(_) => unreachable!(),
    }
}

/// The same as a list.
fn columns_of<'a>(
    alloc: Global,
    extent: &Extent,
    words: &'a [u8],
) -> Result<(Vec<Column>, &'a [u8]), WordFault>
    ensures { Gives (λ x. (x.0.items, words_behind x.1.now)) result
        (columns_from extent.now (key_column ∷ []) (words_behind words.now)) }
{
    let mut columns = Vec::new(alloc);
    columns.push(key_column(alloc)?)?;
    let mut rest = words;
    while let Some((word, behind)) = word_behind(rest) {
        if !has_colon(word) {
            break;
        }
        let column = column_of(alloc, extent, &columns, word)?;
        columns.push(column)?;
        rest = behind;
    }
    Ok((columns, rest))
}

/// The key's column.
fn key_column(alloc: Global) -> Result<Column, AllocError>
    ensures { IfOk result (λ column. column ≡ key_column) }
{
    Ok(Column {
        name: Bytes::from_slice(alloc, b"key")?,
        kind: Kind::I64,
        nullable: false,
    })
}
