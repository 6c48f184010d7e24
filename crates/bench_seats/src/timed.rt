//! How many messages there were, and how long they took.

/// How many messages there were, and the nanoseconds of the whole and of the taker.
#[derive(Clone, Copy)]
pub(crate) struct Timed {
    pub messages: u64,
    pub whole: u64,
    pub played: u64,
}

impl Timed {
    pub fn nothing() -> Timed {
        Timed {
            messages: 0,
            whole: 0,
            played: 0,
        }
    }

    pub fn add(&mut self, other: &Timed) {
        self.messages = self.messages.saturating_add(other.messages);
        self.whole = self.whole.saturating_add(other.whole);
        self.played = self.played.saturating_add(other.played);
    }
}
