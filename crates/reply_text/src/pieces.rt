//! Bytes split at what stands in front of them, and at a byte.
ghost use Rattle.std.specs.Prelude.{◌≡◌, option_map};
ghost use Rattle.reply_text.specs.Readers.{behind, cut};

/// What stands behind these bytes, where the others begin with them.
pub fn behind<'a>(bytes: &'a [u8], front: &[u8]) -> Option<&'a [u8]>
    ensures { option_map (λ rest. rest.now) result ≡ behind front.now bytes.now }
{
    bytes.strip_prefix(front)
}

/// What stands before the first such byte, and what stands behind it.
pub fn cut(bytes: &[u8], separator: u8) -> Option<(&[u8], &[u8])>
    ensures { option_map (λ both. (both.0.now, both.1.now)) result ≡ cut separator bytes.now }
{
    for (at, byte) in bytes.iter().enumerate() {
        if *byte == separator {
            let (before, rest) = bytes.split_at(at);
            let (_, behind) = rest.split_at(1);
            return Some((before, behind));
        }
    }
    None
}
