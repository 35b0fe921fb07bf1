//! The first words of commands.
ghost use Rattle.std.specs.Prelude.{◌≡◌, ◌∷◌, [], find, bytes_eq};
ghost use Rattle.script_text.specs.Verbs.{verbs, verb_text, takes};

use workload_spec::Commands;

/// A command by its first word.
#[derive(Clone, Copy, Debug, PartialEq, Eq)]
pub enum Verb {
    Begin,
    Get,
    Scan,
    Insert,
    Update,
    Delete,
    Commit,
    Abort,
    Observe,
    Prune,
    Compact,
    Seal,
    Gather,
    Export,
    Range,
    Total,
}

/// The command whose first word this is. Its first letter leaves one command or two to compare
/// it with.
pub fn verb_of(word: &[u8]) -> Option<Verb>
    ensures { result ≡ find (λ verb. bytes_eq (verb_text verb) word.now) verbs }
{
    match word {
        [b'a', ..] => spelled(Verb::Abort, word),
        [b'b', ..] => spelled(Verb::Begin, word),
        [b'c', ..] => either(Verb::Commit, Verb::Compact, word),
        [b'd', ..] => spelled(Verb::Delete, word),
        [b'e', ..] => spelled(Verb::Export, word),
        [b'g', ..] => either(Verb::Get, Verb::Gather, word),
        [b'i', ..] => spelled(Verb::Insert, word),
        [b'o', ..] => spelled(Verb::Observe, word),
        [b'p', ..] => spelled(Verb::Prune, word),
        [b'r', ..] => spelled(Verb::Range, word),
        [b's', ..] => either(Verb::Scan, Verb::Seal, word),
        [b't', ..] => spelled(Verb::Total, word),
        [b'u', ..] => spelled(Verb::Update, word),
        _ => None,
    }
}

/// The first of two commands that the word spells.
fn either(one: Verb, other: Verb, word: &[u8]) -> Option<Verb>
    ensures { result ≡ find (λ verb. bytes_eq (verb_text verb) word.now) (one ∷ other ∷ []) }
{
    if verb_text(one) == word {
        Some(one)
    } else {
        spelled(other, word)
    }
}

/// The command, where the word spells it.
fn spelled(verb: Verb, word: &[u8]) -> Option<Verb>
    ensures { result ≡ find (λ verb. bytes_eq (verb_text verb) word.now) (verb ∷ []) }
{
    if verb_text(verb) == word {
        Some(verb)
    } else {
        None
    }
}

/// The first word of a command.
fn verb_text(verb: Verb) -> &'static [u8]
    ensures { result.now ≡ verb_text verb }
{
    match verb {
        Verb::Begin => b"begin",
        Verb::Get => b"get",
        Verb::Scan => b"scan",
        Verb::Insert => b"insert",
        Verb::Update => b"update",
        Verb::Delete => b"delete",
        Verb::Commit => b"commit",
        Verb::Abort => b"abort",
        Verb::Observe => b"observe",
        Verb::Prune => b"prune",
        Verb::Compact => b"compact",
        Verb::Seal => b"seal",
        Verb::Gather => b"gather",
        Verb::Export => b"export",
        Verb::Range => b"range",
        Verb::Total => b"total",
    }
}

/// Whether the command is taken.
pub fn takes(taken: &Commands, verb: Verb) -> bool
    ensures { result ≡ takes taken.now verb }
{
    match verb {
        Verb::Begin => taken.begin,
        Verb::Get => taken.get,
        Verb::Scan => taken.scan,
        Verb::Insert => taken.insert,
        Verb::Update => taken.update,
        Verb::Delete => taken.delete,
        Verb::Commit => taken.commit,
        Verb::Abort => taken.abort,
        Verb::Observe => taken.observe,
        Verb::Prune => taken.prune,
        Verb::Compact => taken.compact,
        Verb::Seal => taken.seal,
        Verb::Gather => taken.gather,
        Verb::Export => taken.export,
        Verb::Range => taken.range,
        Verb::Total => taken.total,
    }
}
