//! The names of kinds.
ghost use Rattle.std.specs.Prelude.{MatchOption, ◌≡◌, find, bytes_eq};
ghost use Rattle.cell_model.specs.Kinds.{kinds};
ghost use Rattle.workload_spec.specs.ScriptText.{kind_text};
ghost use Rattle.workload_spec.specs.Valid.{is_later, is_taken_kind};
ghost use Rattle.workload_spec.specs.Grammar.{before_mark, fixed_named, kind_named, taken_kind};
ghost use Rattle.workload_spec.specs.Grammar.{kind_of};

use cell_model::{ByteWidth, Kind};
use word_read::natural_within;

/// The kind that the word names, where it is one of those that are taken, the later ones or not;
/// and whether a question mark follows its name.
pub fn kind_of(later: bool, word: &[u8]) -> Option<(Kind, bool)>
    ensures { result ≡ kind_of later word.now }
{
    match before_mark(word) {
        Some(name) => taken_kind(later, name).map(|kind| (kind, true)),
        None => taken_kind(later, word).map(|kind| (kind, false)),
    }
}

/// What stands before the question mark that ends the word, where one does.
#[tactic(auto, using(crate::proofs::Marks::found, crate::proofs::Marks::other))]
fn before_mark(word: &[u8]) -> Option<&[u8]>
    ensures { MatchOption result (before_mark word.now ≡ None)
        (λ name. before_mark word.now ≡ Some name.now) }
{
    let (last, front) = word.split_last()?;
    if *last == b'?' { Some(front) } else { None }
}

/// The kind of this name, where it is taken.
fn taken_kind(later: bool, name: &[u8]) -> Option<Kind>
    ensures { result ≡ taken_kind later name.now }
{
    let kind = kind_named(name)?;
    if is_taken(later, &kind) {
        Some(kind)
    } else {
        None
    }
}

/// Whether the kind is one of those that are taken.
fn is_taken(later: bool, kind: &Kind) -> bool
    ensures { result ≡ is_taken_kind later kind.now }
{
    !is_later(kind) || later
}

/// Whether the kind came with the second version of the format.
fn is_later(kind: &Kind) -> bool
    ensures { result ≡ is_later kind.now }
{
    match kind {
        Kind::I8
        | Kind::I16
        | Kind::I32
        | Kind::I64
        | Kind::U8
        | Kind::U16
        | Kind::U32
        | Kind::U64
        | Kind::Bool
        | Kind::Utf8
        | Kind::Binary => false,
        Kind::LargeUtf8 | Kind::LargeBinary | Kind::Fixed(_) | Kind::Date => true,
    }
}

/// The kind of this name, if there is one.
fn kind_named(name: &[u8]) -> Option<Kind>
    ensures { result ≡ kind_named name.now }
{
    match own_name(name) {
        Some(kind) => Some(kind),
        None => fixed_named(name),
    }
}

/// The kind of values of so many bytes each that the name tells: `fixed` and their number.
fn fixed_named(name: &[u8]) -> Option<Kind>
    ensures { result ≡ fixed_named name.now }
{
    let digits = name.strip_prefix(b"fixed".as_slice())?;
    let bytes = natural_within(1, 1024, digits)?;
    Some(Kind::Fixed(ByteWidth::new(bytes)?))
}

/// The kind that has the name for its own.
fn own_name(name: &[u8]) -> Option<Kind>
    ensures { result ≡ find (λ kind. bytes_eq (kind_text kind) name.now) kinds }
{
    if b"i8".as_slice() == name {
        Some(Kind::I8)
    } else if b"i16".as_slice() == name {
        Some(Kind::I16)
    } else if b"i32".as_slice() == name {
        Some(Kind::I32)
    } else if b"i64".as_slice() == name {
        Some(Kind::I64)
    } else if b"u8".as_slice() == name {
        Some(Kind::U8)
    } else if b"u16".as_slice() == name {
        Some(Kind::U16)
    } else if b"u32".as_slice() == name {
        Some(Kind::U32)
    } else if b"u64".as_slice() == name {
        Some(Kind::U64)
    } else if b"bool".as_slice() == name {
        Some(Kind::Bool)
    } else if b"utf8".as_slice() == name {
        Some(Kind::Utf8)
    } else if b"binary".as_slice() == name {
        Some(Kind::Binary)
    } else if b"large_utf8".as_slice() == name {
        Some(Kind::LargeUtf8)
    } else if b"large_binary".as_slice() == name {
        Some(Kind::LargeBinary)
    } else if b"date".as_slice() == name {
        Some(Kind::Date)
    } else {
        None
    }
}
