//! What the passes know, as plain data of proofs. No value of these types is made.
use std::collections::LinkedList;

/// One event of the log.
pub struct Entry<E> {
    /// The number of the pass that made it.
    pub pass: u64,
    /// The least session of that pass's hands.
    pub session: u64,
    /// How many events that pass had made before.
    pub count: u64,
    /// Whether memory was refused, so that nothing changed.
    pub refused: bool,
    pub event: E,
}

/// What an enter found: a part, and the number that stood in its word.
pub struct Found {
    pub part: u64,
    pub word: u64,
}

/// What a pass knows.
pub struct View<E> {
    /// The numbers of the passes that were joined into it.
    pub joined: LinkedList<u64>,
    /// The log as far as it was seen.
    pub log: LinkedList<Entry<E>>,
    /// How often it looked at the log: saw the whole of it by a load of the event word that took no
    /// part.
    pub looks: u64,
    /// The log when the pass last took a part, made an event or joined another.
    pub before: LinkedList<Entry<E>>,
    /// The log of the pass that was last joined into it.
    pub heard: LinkedList<Entry<E>>,
    /// Its own entries, and those of the passes joined into it.
    pub mine: LinkedList<Entry<E>>,
    /// How many these are.
    pub made: u64,
    /// Of each part: 0 where it is not held, 1 from its take, and 2 once the event word was loaded
    /// since.
    pub stages: LinkedList<u64>,
    /// One more than the number of the part whose slot is out with the pass, 0 where none is.
    pub out: u64,
    /// The sessions of its hands.
    pub sessions: LinkedList<u64>,
    /// The sessions that it had when a pass was last joined into it.
    pub stood: LinkedList<u64>,
    /// The sessions that came with that pass, and none once it made an event since.
    pub came: LinkedList<u64>,
    /// The sessions under which no other pass made an entry.
    pub sole: LinkedList<u64>,
    /// All parts that it ever took, in their order.
    pub taken: LinkedList<u64>,
    /// Of each part in its hand: the head that the part's word has. Between an event and the steps
    /// that let words follow, it may differ from what the part says.
    pub worn: LinkedList<u64>,
    /// One more than the number of the part whose word it found hot and without a reader, 0 where
    /// there is none or it made an event or turned a word since.
    pub drained: u64,
    /// One more than the number of the part on which it has a claim, 0 where it has none.
    pub claim: u64,
    /// The head that the claim found.
    pub claimed: u64,
    /// One more than the number of the part whose word it entered and found not frozen, until it
    /// takes the bump back; 0 where there is none.
    pub bump: u64,
    /// The parts whose words it entered, each with the number that it found there.
    pub found: LinkedList<Found>,
    /// Whether it was joined into another.
    pub spent: bool,
}
