//! The copy of as many bytes as there is room for, which sources over bytes in memory share.
ghost use Rattle.std.specs.Prelude.{◌≡◌, ◌++◌, take, drop, length, min};

/// Copies as many bytes of `from` into the front of `to` as there is room for, and answers how
/// many.
pub fn copy_front(from: &[u8], to: &mut [u8]) -> usize
    ensures count { result ≡ min (length to.old) (length from.now) }
    ensures bytes { from.now ≡ take result to.new ++ drop result from.now }
{
    let count = from.len().min(to.len());
    let (front, _) = from.split_at(count);
    to[..count].copy_from_slice(front);
    count
}
