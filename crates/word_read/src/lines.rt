//! Lines, split off one by one.
ghost use Rattle.std.specs.Prelude.{◌≡◌, ◌+◌, ◌<◌, ◌≤◌, ◌∷◌, ◌++◌, [], ◌==◌, not, true, length};
ghost use Rattle.std.specs.Prelude.{take, IfSome, IfNone};
ghost use Rattle.std.specs.List.{list_all};
ghost use Rattle.workload_spec.specs.Words.{line_feed};
ghost use Rattle.workload_spec.specs.Reading.{parts};
ghost use Rattle.word_read.specs.Cursor.{line_end};

use memchr::memchr;

/// The first line without its line feed, and the bytes behind it; none where no line feed stands.
#[tactic(auto, using(crate::proofs::LineEnds::cut, crate::proofs::LineEnds::whole, crate::proofs::LineEnds::ends))]
pub fn split_line(bytes: &[u8]) -> Option<(&[u8], &[u8])>
    ensures some { IfSome result (λ x. parts line_feed bytes.now
        ≡ x.0.now ∷ parts line_feed x.1.now) }
    ensures none { IfNone result (parts line_feed bytes.now ≡ bytes.now ∷ []) }
    ensures text { IfSome result (λ x. bytes.now ≡ x.0.now ++ line_feed ∷ x.1.now) }
    ensures whole { IfSome result (λ x. list_all (λ byte. not (byte == line_feed)) x.0.now ≡ true) }
    ensures shorter { IfSome result (λ x. length x.0.now + length x.1.now < length bytes.now) }
{
    let (line, behind) = bytes.split_at(line_length(bytes));
    if behind.is_empty() {
        return None;
    }
    let (_, rest) = behind.split_at(1);
    Some((line, rest))
}

/// How many parts the line feeds make of the bytes.
pub fn part_count(bytes: &[u8]) -> u64
    ensures { result ≡ length (parts line_feed bytes.now) }
{
    let mut count = 1;
    let mut rest = bytes;
    while let Some((_, behind)) = split_line(rest) {
        count += 1;
        rest = behind;
    }
    count
}

/// Where the first line feed stands; the length where there is none.
fn line_length(bytes: &[u8]) -> usize
    ensures value { result ≡ line_end bytes.now }
    ensures whole { list_all (λ byte. not (byte == line_feed)) (take result bytes.now) ≡ true }
    ensures within { result ≤ length bytes.now }
{
    match memchr(b'\n', bytes) {
        Some(at) => at,
        None => bytes.len(),
    }
}
