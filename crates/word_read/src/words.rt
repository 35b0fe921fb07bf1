//! The words of a line, split off one by one.
ghost use Rattle.std.specs.Prelude.{◌≡◌, ◌≤◌, ◌<◌, ◌+◌, [], ◌∷◌, length, drop, IfSome, IfNone};
ghost use Rattle.workload_spec.specs.Reading.{words_of, AtStart, WithinText, WithinWord};
ghost use Rattle.word_read.specs.Cursor.{words_behind, word_end};

/// The line's first word, and what stands behind it: nothing, or a space and the further words.
pub fn split_word(line: &[u8]) -> (&[u8], &[u8])
    ensures words { words_of line.now ≡ result.0.now ∷ words_behind result.1.now }
    ensures within { length result.1.now ≤ length line.now }
{
    line.split_at(word_length(line))
}

/// How many bytes the line's first word has; a text is one word with the spaces in it.
fn word_length(line: &[u8]) -> usize
    ensures value { result ≡ word_end AtStart line.now }
    ensures within { result ≤ length line.now }
{
    match line {
        [b'"', text @ ..] => {
            let inner = text_length(text);
            let (_, behind) = text.split_at(inner);
            1 + inner + bare_length(behind)
        }
        _ => bare_length(line),
    }
}

/// How many bytes of a text, behind its quote, stand up to its closing quote with it; all where
/// none closes it.
fn text_length(text: &[u8]) -> usize
    ensures value { word_end WithinText text.now
        ≡ result + word_end WithinWord (drop result text.now) }
    ensures within { result ≤ length text.now }
{
    let mut is_escaped = false;
    for (at, byte) in text.iter().enumerate() {
        match (is_escaped, *byte) {
            (true, _) => is_escaped = false,
            (false, b'"') => return at + 1,
            (false, b'\\') => is_escaped = true,
            (false, _) => {}
        }
    }
    text.len()
}

/// How many bytes stand before the next space; all where there is none.
fn bare_length(bytes: &[u8]) -> usize
    ensures value { result ≡ word_end WithinWord bytes.now }
    ensures within { result ≤ length bytes.now }
{
    for (at, byte) in bytes.iter().enumerate() {
        if *byte == b' ' {
            return at;
        }
    }
    bytes.len()
}

/// The first of the words that stand behind a word, and what stands behind it; none where no word
/// is left.
pub fn word_behind(words: &[u8]) -> Option<(&[u8], &[u8])>
    ensures none { IfNone result (words_behind words.now ≡ []) }
    ensures some { IfSome result (λ x. words_behind words.now ≡ x.0.now ∷ words_behind x.1.now) }
    ensures within { IfSome result (λ x. length x.1.now < length words.now) }
{
    match words {
        [] => None,
        [_, line @ ..] => Some(split_word(line)),
    }
}

/// How many words stand behind a word.
pub fn word_count(words: &[u8]) -> usize
    ensures value { result ≡ length (words_behind words.now) }
    ensures within { result ≤ length words.now }
{
    let mut count = 0;
    let mut rest = words;
    while let Some((_, behind)) = word_behind(rest) {
        count += 1;
        rest = behind;
    }
    count
}
