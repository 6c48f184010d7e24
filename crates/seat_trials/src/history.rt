//! The calls that a history tells.

use crate::deed::Deed;
use crate::wild::Asked;
use sj_base::{EndId, Msg};
use sj_end::{Event, Line, Note};
use sj_seat::{OpenWish, Wish};
use sj_seat_run::Outcome;

/// Whether the history tells just these calls of the party, in order, with what they took.
pub(crate) fn tells(history: &[Line], party: u16, calls: &[Asked]) -> bool {
    let mut at = 0usize;
    for line in history {
        if line.party == party && line.entry.event == Event::Act {
            match calls.get(at) {
                Some(asked) if is_told(line.entry.note, *asked) => {}
                _ => return false,
            }
            at = at.saturating_add(1);
        }
    }
    at == calls.len()
}

// Whether the note of an act is that of the call.
fn is_told(note: Note, asked: Asked) -> bool {
    let Ok(outcome) = asked.answer else {
        return false;
    };
    match (note, outcome) {
        (Note::Sent { end, msg }, Outcome::Done) => asked.deed == Deed::Step(sending(end, msg)),
        (Note::Shut { end }, Outcome::Done) => asked.deed == Deed::Step(Wish::Close { end }),
        (Note::Took { end, msg }, taken) => {
            taken == Outcome::Took { end, msg } && asked.deed == Deed::Step(taking(end, msg))
        }
        (Note::Request { sess, to }, Outcome::Opened { end }) => {
            end == EndId { sess, side: 0 } && requests(asked.deed, to)
        }
        (Note::Accept { sess, from }, Outcome::Opened { end }) => {
            end == EndId { sess, side: 1 } && accepts(asked.deed, from)
        }
        _ => false,
    }
}

fn sending(end: EndId, msg: Msg) -> Wish {
    match msg {
        Msg::Sess { sess, side, .. } => Wish::Delegate {
            carrier: end,
            end: EndId { sess, side },
        },
        _ => Wish::Send { end, msg },
    }
}

fn taking(end: EndId, msg: Msg) -> Wish {
    match msg {
        Msg::Sess { .. } => Wish::TakeEnd { end },
        _ => Wish::Take { end },
    }
}

fn requests(deed: Deed, to: u16) -> bool {
    match deed {
        Deed::Open(OpenWish::Request { party, .. }) => party == to,
        _ => false,
    }
}

fn accepts(deed: Deed, from: u16) -> bool {
    match deed {
        Deed::Open(OpenWish::Accept { party, .. }) => party == from,
        _ => false,
    }
}
