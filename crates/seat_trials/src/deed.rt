//! What codes ask for here: steps, sessions, takes from either of two ends, and whether a message is
//! there.

use sj_base::EndId;
use sj_seat::{OpenWish, Wish};
use sj_seat_run::Ask;
use std::alloc::Global;

/// What a code asks for.
#[derive(Clone, Copy, Debug, PartialEq, Eq)]
pub(crate) enum Deed {
    Step(Wish),
    Open(OpenWish),
    /// A take from the first of two ends on which a message is there.
    Either(EndId, EndId),
    /// Whether a message is there.
    Ready(EndId),
}

impl Deed {
    /// The same as it is asked for; none where memory is short.
    pub fn ask(self, alloc: Global) -> Option<Ask> {
        match self {
            Deed::Step(wish) => Some(Ask::Step(wish)),
            Deed::Open(wish) => Some(Ask::Open(wish)),
            Deed::Either(first, second) => {
                let mut ends = Vec::new(alloc);
                if ends.push(first).is_err() || ends.push(second).is_err() {
                    return None;
                }
                Some(Ask::TakeAny(ends))
            }
            Deed::Ready(end) => Some(Ask::Ready { end }),
        }
    }
}
