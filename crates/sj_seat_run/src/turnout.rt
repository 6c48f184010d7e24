//! Which threads have begun, and whether code still plays.

use std::sync::atomic::{AtomicU32, Ordering};

/// How often a party looks for threads that haven't begun, before it goes on without them.
const PATIENCE: u64 = 1_000_000;

/// How many threads have begun, and how many codes have ended, of those that there are.
#[derive(Drop)]
pub(crate) struct Turnout {
    parties: u32,
    codes: u32,
    begun: AtomicU32,
    ended: AtomicU32,
}

impl Turnout {
    pub fn new(parties: u32, codes: u32) -> Turnout {
        Turnout {
            parties,
            codes,
            begun: AtomicU32::new(0),
            ended: AtomicU32::new(0),
        }
    }

    /// A thread begins.
    pub fn begin(&self) {
        self.begun.fetch_add(1, Ordering::SeqCst);
    }

    /// A code has ended.
    pub fn end(&self) {
        self.ended.fetch_add(1, Ordering::SeqCst);
    }

    /// Whether all threads have begun, or so many looks were enough. Where the system has fewer
    /// threads the parties run one after another, and none may wait for a later one.
    pub fn is_full(&self, looks: u64) -> bool {
        looks >= PATIENCE || self.begun.load(Ordering::SeqCst) >= self.parties
    }

    /// Whether a party that has looked so often waits for code that plays yet.
    pub fn plays(&self, looks: u64) -> bool {
        if self.ended.load(Ordering::SeqCst) >= self.codes {
            return false;
        }
        looks < PATIENCE || self.begun.load(Ordering::SeqCst) >= self.parties
    }
}
