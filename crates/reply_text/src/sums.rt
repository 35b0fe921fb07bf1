//! Sums: numbers of 128 bits.
ghost use Rattle.std.specs.Prelude.{◌≡◌, ℤ, Some};
ghost use Rattle.reply_text.specs.Readers.{sum_in};

use word_text::is_spelling;

/// The number of 128 bits that the word spells.
pub fn sum_in(word: &[u8]) -> Option<i128>
    ensures { result ≡ sum_in word.now }
{
    match number_in(word) {
        Some(sum) if is_spelling(sum, word) => Some(sum),
        _ => None,
    }
}

/// The number that the word would stand for, which is the one that it spells where it spells one.
fn number_in(word: &[u8]) -> Option<i128>
    ensures { (sum : ℤ) → sum_in word.now ≡ Some sum → result ≡ Some sum }
{
    let Ok(text) = str::from_utf8(word) else {
        return None;
    };
    match text.parse::<i128>() {
        Ok(sum) => Some(sum),
        Err(_) => None,
    }
}
