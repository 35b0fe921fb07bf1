//! Truth values: the words that spell them.
ghost use Rattle.std.specs.Prelude.{◌≡◌};
ghost use Rattle.word_read.specs.Spellings.{truth_of};

/// The truth value that the word spells.
pub fn truth_of(word: &[u8]) -> Option<bool>
    ensures { result ≡ truth_of word.now }
{
    if word == b"true".as_slice() {
        Some(true)
    } else if word == b"false".as_slice() {
        Some(false)
    } else {
        None
    }
}
