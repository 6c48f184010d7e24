//! What answers tell, and what a talk must say of them.

use crate::deed::Deed;
use crate::wild::Asked;
use sj_base::{EndId, Msg};
use sj_seat::{SeatRefusal, Wish};
use sj_seat_run::Outcome;
use sj_talk::Said;

/// The end that the call took.
pub(crate) fn end_in(asked: Asked) -> Option<EndId> {
    match asked.answer {
        Ok(
            Outcome::Took {
                msg: Msg::Sess { sess, side, .. },
                ..
            },
        ) => Some(EndId { sess, side }),
        _ => None,
    }
}

/// The end that the call closed or delegated.
pub(crate) fn end_gone(asked: Asked) -> Option<EndId> {
    if asked.answer.is_err() {
        return None;
    }
    match asked.deed {
        Deed::Step(Wish::Delegate { end, .. }) => Some(end),
        Deed::Step(Wish::Close { end }) => Some(end),
        _ => None,
    }
}

/// What must be said of the line of a call; none where that depends on how far the others are.
pub(crate) fn said_of(asked: Asked) -> Option<Said> {
    match asked.answer {
        Ok(Outcome::Done) => Some(Said::Fine),
        Ok(Outcome::Took { msg, .. }) => Some(Said::Took(msg)),
        Ok(Outcome::Opened { .. } | Outcome::Ready(_)) => None,
        Err(SeatRefusal::NotHeld) => Some(Said::Refused(2)),
        Err(SeatRefusal::BeginsOtherwise) => Some(Said::Refused(3)),
        Err(SeatRefusal::WrongEnd) => Some(Said::Refused(4)),
        Err(SeatRefusal::WrongKind) => Some(Said::Refused(5)),
        Err(SeatRefusal::AtLimit) => Some(Said::Refused(6)),
        Err(_) => None,
    }
}

/// Whether the call opened a session, which no line does.
pub(crate) fn opens(asked: Asked) -> bool {
    match asked.answer {
        Ok(Outcome::Opened { .. }) => true,
        _ => false,
    }
}
