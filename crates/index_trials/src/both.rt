//! The same adds and drops over both indexes, which answer alike; and the keys between two of the one
//! that has them in order.
use block_layout::SlotId;
use key_index::Index;
use range_index::Ordered;
use std::alloc::AllocError;
use std::test::Fail;

/// What both indexes do.
trait KeyPlaces {
    fn enter(&mut self, key: i64, place: SlotId) -> Result<(), AllocError>;

    fn take_out(&mut self, key: i64, place: SlotId);

    fn places(&self, key: i64) -> &[SlotId];

    fn rising(&self, key: i64) -> &[SlotId];
}

impl KeyPlaces for Index {
    fn enter(&mut self, key: i64, place: SlotId) -> Result<(), AllocError> {
        self.add(key, place)
    }

    fn take_out(&mut self, key: i64, place: SlotId) {
        self.drop_one(key, place);
    }

    fn places(&self, key: i64) -> &[SlotId] {
        self.candidates(key)
    }

    fn rising(&self, key: i64) -> &[SlotId] {
        self.ascending(key)
    }
}

impl KeyPlaces for Ordered {
    fn enter(&mut self, key: i64, place: SlotId) -> Result<(), AllocError> {
        self.add(key, place)
    }

    fn take_out(&mut self, key: i64, place: SlotId) {
        self.drop_one(key, place);
    }

    fn places(&self, key: i64) -> &[SlotId] {
        self.candidates(key)
    }

    fn rising(&self, key: i64) -> &[SlotId] {
        self.ascending(key)
    }
}

/// The slots that are added to a key and then dropped from it, and those that are left, as they came
/// and in ascending order.
struct Case {
    key: i64,
    added: &'static [u32],
    dropped: &'static [u32],
    left: &'static [u32],
    rising: &'static [u32],
}

const CASES: [Case; 8] = [
    Case {
        key: 5,
        added: &[7],
        dropped: &[],
        left: &[7],
        rising: &[7],
    },
    // A second candidate below the first, and the first dropped: one is left.
    Case {
        key: 5,
        added: &[3],
        dropped: &[],
        left: &[7, 3],
        rising: &[3, 7],
    },
    Case {
        key: 5,
        added: &[],
        dropped: &[7],
        left: &[3],
        rising: &[3],
    },
    // What is no candidate is dropped without a trace.
    Case {
        key: 5,
        added: &[],
        dropped: &[7],
        left: &[3],
        rising: &[3],
    },
    Case {
        key: i64::MIN,
        added: &[1],
        dropped: &[],
        left: &[1],
        rising: &[1],
    },
    Case {
        key: i64::MAX,
        added: &[2],
        dropped: &[],
        left: &[2],
        rising: &[2],
    },
    // The last candidate is dropped, and the key with it.
    Case {
        key: 9,
        added: &[4],
        dropped: &[4],
        left: &[],
        rising: &[],
    },
    Case {
        key: 8,
        added: &[],
        dropped: &[],
        left: &[],
        rising: &[],
    },
];

/// Two ends, and how many of the keys that the cases leave lie between them, both counted.
const BETWEEN: [(i64, i64, usize); 7] = [
    (i64::MIN, i64::MAX, 3),
    (i64::MIN, i64::MIN, 1),
    (5, 5, 1),
    (6, i64::MAX, 1),
    (6, 9, 0),
    (i64::MIN, 5, 2),
    (9, 5, 0),
];

/// Whether the places are these slots of the first block.
fn are(places: &[SlotId], slots: &[u32]) -> bool {
    places.len() == slots.len()
        && places.iter().zip(slots).all(|(place, slot)| place.block() == 0 && place.slot() == *slot)
}

/// The place of a slot of the first block.
fn place_of(slot: u32) -> Result<SlotId, Fail> {
    if slot >= 1 << 20 {
        return Err(Fail::from("no slot"));
    }
    Ok(SlotId::join(0, slot))
}

/// Adds and drops what a case says, and tells whether what is left is what it says.
fn holds<I: KeyPlaces>(index: &mut I, case: &Case) -> Result<bool, Fail> {
    for slot in case.added {
        index.enter(case.key, place_of(*slot)?)?;
    }
    for slot in case.dropped {
        index.take_out(case.key, place_of(*slot)?);
    }
    Ok(are(index.places(case.key), case.left) && are(index.rising(case.key), case.rising))
}

/// How many keys lie between two, and how many of them come with their candidates.
fn keys_in(ordered: &Ordered, low: i64, high: i64) -> (usize, usize) {
    let mut keys: usize = 0;
    for _key in ordered.keys_between(low, high) {
        keys = keys.saturating_add(1);
    }
    let mut pairs: usize = 0;
    for pair in ordered.between(low, high) {
        if !pair.candidates.is_empty() {
            pairs = pairs.saturating_add(1);
        }
    }
    (keys, pairs)
}

#[test]
fn both_indexes_answer_alike(rt: HostRuntime) -> Result<(), Fail> {
    let mut plain = Index::new(rt.alloc());
    let mut ordered = Ordered::new(rt.alloc());
    for case in &CASES {
        let plain_holds = holds(&mut plain, case)?;
        assert!(rt; plain_holds);
        let ordered_holds = holds(&mut ordered, case)?;
        assert!(rt; ordered_holds);
    }
    for (low, high, count) in BETWEEN {
        assert_eq!(rt; keys_in(&ordered, low, high), (count, count));
    }
    Ok(())
}
