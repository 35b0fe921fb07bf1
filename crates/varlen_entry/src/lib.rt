//! The entries of a column of values of any length: a short value stands in its entry, and a longer
//! one in a buffer.
#![tactic(auto)]

ghost use Rattle.std.specs.Prelude.{◌<◌, ◌≤◌};

/// A value of at most 12 bytes.
#[derive(Clone, Copy, Debug)]
pub struct Short {
    len: u32,
    bytes: [u8; 12],
    ghost fits: { len ≤ 12 },
}

/// A longer value: how many bytes it has, its first four, and where it begins in its buffer.
#[derive(Clone, Copy, Debug)]
pub struct Span {
    len: u32,
    prefix: [u8; 4],
    place: usize,
    ghost long: { 12 < len },
}

/// An entry for a value.
#[derive(Clone, Copy, Debug)]
pub enum Entry {
    /// The value stands in the entry.
    Inline(Short),
    /// The value stands among the bytes that the column owns.
    Owned(Span),
    /// The value stands in the buffer to which the column's values were gathered.
    Gathered(Span),
}

impl Entry {
    ghost use Rattle.std.specs.Prelude.{◌≡◌, ℕ, ◌<◌, ◌≤◌, ◌^◌, ◌++◌, ◌↔◌, Some, IsTrue, List};
    ghost use Rattle.std.specs.Prelude.{length, replicate, take};
    ghost use Rattle.varlen_entry.specs.Entry.{HasValue, IsGathered, IsInline, IsOwned, IsWithin};
    ghost use Rattle.varlen_entry.specs.Entry.{StandsAt, len_of, place_of, prefix_of, value_of};

    /// How many bytes a value has at most that stands in its entry.
    pub const INLINE: usize = 12;

    /// The entry of a value: one of at most [`Entry::INLINE`] bytes stands in it, and a longer one
    /// is to stand at `place` of the bytes that the column owns. A value has fewer than 2^32 bytes.
    pub fn of(bytes: &[u8], place: usize) -> Entry
        requires { length bytes.now < 2 ^ 32 }
        ensures inline { length bytes.now ≤ Self.INLINE → IsInline result }
        ensures owned { Self.INLINE < length bytes.now → IsOwned result }
        ensures place { Self.INLINE < length bytes.now → place_of result ≡ Some place }
        ensures len { len_of result ≡ length bytes.now }
        ensures prefix { prefix_of result ≡ take 4 (bytes.now ++ replicate 4 0) }
        ensures value { (owned gathered : List ℕ) →
            (Self.INLINE < length bytes.now → StandsAt bytes.now place owned) →
            HasValue result owned gathered bytes.now }
    {
        let len = bytes.len() as u32;
        if bytes.len() <= Entry::INLINE {
            let mut held = [0; 12];
            held[..bytes.len()].copy_from_slice(bytes);
            Entry::Inline(Short { len, bytes: held })
        } else {
            let prefix = [bytes[0], bytes[1], bytes[2], bytes[3]];
            Entry::Owned(Span { len, prefix, place })
        }
    }

    /// The entry of the same value where it is to stand at `place` of the gathered buffer, unless
    /// it stands in the entry.
    pub fn gathered(&self, place: usize) -> Entry
        ensures inline { IsInline self.now → result ≡ self.now }
        ensures gathered { ¬ IsInline self.now → IsGathered result }
        ensures place { ¬ IsInline self.now → place_of result ≡ Some place }
        ensures len { len_of result ≡ len_of self.now }
        ensures prefix { prefix_of result ≡ prefix_of self.now }
        ensures value { (owned before after value : List ℕ) → HasValue self.now owned before value →
            (¬ IsInline self.now → StandsAt value place after) → HasValue result owned after value }
    {
        match *self {
            Entry::Inline(short) => Entry::Inline(short),
            Entry::Owned(span) | Entry::Gathered(span) => {
                let prefix = span.prefix;
                Entry::Gathered(Span {
                    len: span.len,
                    prefix,
                    place,
                })
            }
        }
    }

    /// The value, lent by the entry or by one of the buffers. It stands there in full.
    pub fn bytes<'a>(&'a self, owned: &'a [u8], gathered: &'a [u8]) -> &'a [u8]
        requires { IsWithin self.now owned.now gathered.now }
        ensures value { result.now ≡ value_of self.now owned.now gathered.now }
        ensures len { length result.now ≡ len_of self.now }
    {
        match self {
            Entry::Inline(short) => {
                let (value, _) = short.bytes.split_at(short.len as usize);
                value
            }
            Entry::Owned(span) => span.within(owned),
            Entry::Gathered(span) => span.within(gathered),
        }
    }

    /// How many bytes the value has.
    pub fn len(&self) -> usize
        ensures { result ≡ len_of self.now }
    {
        match self {
            Entry::Inline(short) => short.len as usize,
            Entry::Owned(span) | Entry::Gathered(span) => span.len as usize,
        }
    }

    /// Whether the value has no bytes.
    pub fn is_empty(&self) -> bool
        ensures { IsTrue result ↔ (len_of self.now ≡ 0) }
    {
        self.len() == 0
    }

    /// The first four bytes of the value, and zeros where it has fewer.
    pub fn prefix(&self) -> [u8; 4]
        ensures { result ≡ prefix_of self.now }
    {
        match self {
            Entry::Inline(short) => [
                short.bytes[0],
                short.bytes[1],
                short.bytes[2],
                short.bytes[3],
            ],
            Entry::Owned(span) | Entry::Gathered(span) => span.prefix,
        }
    }

    /// Where the value begins in its buffer; none where it stands in the entry.
    pub fn place(&self) -> Option<usize>
        ensures { result ≡ place_of self.now }
    {
        match self {
            Entry::Inline(_) => None,
            Entry::Owned(span) | Entry::Gathered(span) => Some(span.place),
        }
    }

    /// Whether the value stands in the entry, which it does where it has at most [`Entry::INLINE`]
    /// bytes.
    pub fn is_inline(&self) -> bool
        ensures kind { IsTrue result ↔ IsInline self.now }
        ensures short { IsTrue result ↔ (len_of self.now ≤ Self.INLINE) }
    {
        matches!(self, Entry::Inline(_))
    }

    /// Whether the value stands in the gathered buffer.
    pub fn is_gathered(&self) -> bool
        ensures { IsTrue result ↔ IsGathered self.now }
    {
        matches!(self, Entry::Gathered(_))
    }
}

impl Span {
    ghost use Rattle.std.specs.Prelude.{◌≡◌, ◌+◌, ◌≤◌, drop, length, take};

    /// The value, where it stands in this buffer.
    fn within<'a>(&self, buffer: &'a [u8]) -> &'a [u8]
        requires { self.now.place + self.now.len ≤ length buffer.now }
        ensures { result.now ≡ take self.now.len (drop self.now.place buffer.now) }
    {
        let (_, rest) = buffer.split_at(self.place);
        let (value, _) = rest.split_at(self.len as usize);
        value
    }
}
