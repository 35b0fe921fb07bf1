//! A bell, at which one thread waits.
use std::hint::spin_loop;
use std::sync::Wait;
use std::sync::atomic::{AtomicU64, Ordering};

/// Nobody rang, and nobody sleeps.
const QUIET: u64 = 0;

/// Somebody rang since the last wait ended.
const RUNG: u64 = 1;

/// Who waits sleeps.
const ASLEEP: u64 = 2;

/// A bell, at which one thread waits for the others. A ring is kept until a wait ends by it.
#[derive(Drop)]
pub(crate) struct Bell {
    word: AtomicU64,
}

impl Bell {
    /// A bell at which nobody rang.
    pub(crate) fn new() -> Bell {
        Bell {
            word: AtomicU64::new(QUIET),
        }
    }

    /// Rings, and wakes who sleeps.
    pub(crate) fn ring(&self) {
        if self.word.swap(RUNG, Ordering::SeqCst) == ASLEEP {
            self.word.wake_one();
        }
    }

    /// Waits until it rings. The bell is looked at so many times before the thread sleeps.
    pub(crate) fn wait<R: Wait>(&self, rt: &R, looks: u32) {
        if self.rings_soon(looks) {
            return;
        }
        for _ in rt.forever() {
            self.change(QUIET, ASLEEP);
            if self.change(RUNG, QUIET) {
                return;
            }
            self.word.park(rt, ASLEEP as u32);
        }
    }

    /// Whether it rings while it is looked at.
    fn rings_soon(&self, looks: u32) -> bool {
        for _ in 0..looks {
            if self.word.load(Ordering::SeqCst) == RUNG && self.change(RUNG, QUIET) {
                return true;
            }
            spin_loop();
        }
        false
    }

    /// Changes the word, where it is `from`.
    fn change(&self, from: u64, to: u64) -> bool {
        self.word
            .compare_exchange(from, to, Ordering::SeqCst, Ordering::SeqCst)
            .is_ok()
    }
}
