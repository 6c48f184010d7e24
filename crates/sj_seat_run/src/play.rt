//! Code that plays a party.

use sj_seat::{Answer, Ask, Guard};

/// Code that plays a party. Whatever it asks for, no other party ever meets what it can't take.
pub trait Play {
    /// What the party does next. The seat has the ends that it holds, with what is ahead of each.
    /// The answer is that to what it asked for last, and none at first. With None it is over, and
    /// isn't asked again.
    fn next(&mut self, seat: Guard<'_>, answer: Option<Answer>) -> Option<Ask>;
}
