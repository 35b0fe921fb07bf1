//! The word of a block, in 64 bits: its state, the stamp of its last freeze and its readers.
#![tactic(auto)]

ghost use Rattle.std.specs.Prelude.{◌≡◌, ℕ, ◌+◌, ◌<◌, ◌↔◌, IsTrue, bit_and};
ghost use Rattle.block_word.specs.Word.{Enters, IsInRange, IsLawfulMove, Turns, packed};
ghost use Rattle.block_word.specs.Word.{state_number, unpacked, word_of};
ghost use Rattle.block_word.specs.declared.State.TheVariants.{Hot, Cooling, Freezing, Frozen};
ghost use Rattle.block_word.specs.declared.Word.{Word};

/// What `fetch_add` adds to raise a word's state by one.
pub const RAISE: u64 = 0x4000_0000_0000_0000;

/// What `fetch_add` adds to make a cooling word freezing with the next stamp.
pub const SEAL: u64 = 0x4000_0001_0000_0000;

/// What `fetch_add` adds to make a hot word frozen again with the same stamp.
pub const REFREEZE: u64 = 0xc000_0000_0000_0000;

/// The bits that `fetch_and` keeps to make a word of any state hot.
pub const CLEAR: u64 = 0x3fff_ffff_ffff_ffff;

/// What `fetch_add` adds, or `fetch_sub` takes off, for one reader.
pub const READER: u64 = 1;

/// How many stamps there are: each is below this.
pub const STAMPS: u32 = 0x4000_0000;

const STAMP: u64 = 0x1_0000_0000;

/// How a block may be used.
#[derive(Clone, Copy, Debug, PartialEq, Eq)]
pub enum State {
    /// Rows change in place.
    Hot,
    /// Rows change in place, and the block was not written of late.
    Cooling,
    /// Rows stay, until their Arrow buffers are gathered.
    Freezing,
    /// Rows stay, and their Arrow buffers are read in place.
    Frozen,
}

impl State {
    /// The number that stands for the state in a word.
    fn number(self) -> u64
        ensures { result ≡ state_number self }
    {
        match self {
            State::Hot => 0,
            State::Cooling => 1,
            State::Freezing => 2,
            State::Frozen => 3,
        }
    }
}

/// The word of a block.
#[derive(Clone, Copy, Debug, PartialEq, Eq)]
pub struct Word {
    pub state: State,
    /// How often the block has been sealed, below [`STAMPS`].
    pub stamp: u32,
    /// How many readers are in the block.
    pub readers: u32,
}

/// The number that stands for a word: from the top two bits of state, 30 of stamp and 32 of
/// readers. The stamp is below [`STAMPS`].
pub fn pack(word: Word) -> u64
    requires { word.stamp < STAMPS }
    ensures value { result ≡ packed word }
    ensures inverse { unpacked result ≡ word }
{
    word.state.number() * RAISE + u64::from(word.stamp) * STAMP + u64::from(word.readers)
}

/// The word that a number stands for.
pub fn unpack(number: u64) -> Word
    ensures value { result ≡ unpacked number }
    ensures inverse { packed result ≡ number }
    ensures in_range { IsInRange result }
{
    let state = match number / RAISE {
        0 => State::Hot,
        1 => State::Cooling,
        2 => State::Freezing,
        _ => State::Frozen,
    };
    Word {
        state,
        stamp: (number / STAMP % u64::from(STAMPS)) as u32,
        readers: (number % STAMP) as u32,
    }
}

/// What each atomic step makes of the number of a word: the word that the move leads to.
pub fn atomic_steps()
    ensures cools { (stamp readers : ℕ) →
        packed (word_of Hot stamp readers) + RAISE ≡ packed (word_of Cooling stamp readers) }
    ensures seals { (stamp readers : ℕ) →
        packed (word_of Cooling stamp readers) + SEAL
        ≡ packed (word_of Freezing (stamp + 1) readers) }
    ensures gathers { (stamp readers : ℕ) →
        packed (word_of Freezing stamp readers) + RAISE ≡ packed (word_of Frozen stamp readers) }
    ensures refreezes { (stamp readers : ℕ) →
        packed (word_of Hot stamp readers) + REFREEZE ≡ packed (word_of Frozen stamp readers) }
    ensures clears { (w : Word) → IsInRange w →
        bit_and (packed w) CLEAR ≡ packed (record w { state = Hot }) }
    ensures enters { (w : Word) → packed w + READER
        ≡ packed (record w { readers = w.readers + 1 }) }
{}

/// A freezing word, and what may follow it, in numbers.
pub fn worked_words()
    ensures freezing { packed (word_of Freezing 1 0) ≡ 0x8000_0001_0000_0000 }
    ensures frozen { packed (word_of Frozen 1 2) ≡ 0xc000_0001_0000_0002 }
    ensures gathered { IsLawfulMove (unpacked 0x8000_0001_0000_0000)
        (unpacked 0xc000_0001_0000_0000) }
    ensures thawed { ¬ IsLawfulMove (unpacked 0x8000_0001_0000_0000)
        (unpacked 0x0000_0001_0000_0000) }
{}

/// Whether a block word may move in one step from one number to another: by one of the six turns
/// of its state, or by one reader that comes or leaves.
pub fn lawful(before: u64, after: u64) -> bool
    ensures { IsTrue result ↔ IsLawfulMove (unpacked before) (unpacked after) }
{
    let from = unpack(before);
    let to = unpack(after);
    turns(from, to) || enters(from, to) || enters(to, from)
}

/// Whether the second word comes from the first by one of the six turns of the state: the stamp
/// moves by what the turn takes, and the readers stay.
fn turns(from: Word, to: Word) -> bool
    ensures { IsTrue result ↔ Turns from to }
{
    let taken = match (from.state, to.state) {
        (State::Hot, State::Cooling | State::Frozen) => 0,
        (State::Cooling, State::Hot) => 0,
        (State::Cooling, State::Freezing) => 1,
        (State::Freezing, State::Frozen) => 0,
        (State::Frozen, State::Hot) => 0,
        _ => return false,
    };
    to.stamp.checked_sub(from.stamp) == Some(taken) && to.readers == from.readers
}

/// Whether the second word has one reader more, and all else is the same.
fn enters(from: Word, to: Word) -> bool
    ensures { IsTrue result ↔ Enters from to }
{
    to.state == from.state
        && to.stamp == from.stamp
        && to.readers.checked_sub(from.readers) == Some(1)
}
