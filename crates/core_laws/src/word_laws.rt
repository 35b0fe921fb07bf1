//! Laws of block words: each function does nothing, and its contract is one of them.
ghost use Rattle.core_laws.specs.Words.Examples.{ThawsAreOfOneBody, WordsFollowBodies};
ghost use Rattle.core_laws.specs.Words.Laws.{ThawsItsBody, WordsHaveRoom, WordsOpen, WordsStay};
ghost use Rattle.core_laws.specs.Words.Laws.{WordsTellImages, WordsTurn};

/// Words begin hot, and have room for their stamps; that of an imaged block is frozen, and no other.
pub fn words_follow_bodies()
    ensures opens { WordsOpen }
    ensures room { WordsHaveRoom }
    ensures images { WordsTellImages }
{}

/// A lawful event leaves the word of each part or turns it, and only a thaw makes a frozen one hot.
pub fn words_turn()
    ensures turns { WordsTurn }
    ensures stay { WordsStay }
    ensures thaws { ThawsItsBody }
{}

/// The words of a block through two freezes, and which body a thaw thaws.
pub fn worked_words()
    ensures words { WordsFollowBodies }
    ensures thaws { ThawsAreOfOneBody }
{}
