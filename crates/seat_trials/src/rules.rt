//! Which rule refuses what a code asks for.

use crate::deed::Deed;
use sj_base::EndId;
use sj_lang::{Item, Kind};
use sj_machine::MAX_STEPS;
use sj_seat::{Guard, SeatRefusal, Wish};
use sj_table::Spot;

/// The first rule that refuses the deed, if any. Whether something is there to take isn't asked.
pub(crate) fn rule_of(seat: Guard<'_>, deed: Deed) -> Option<SeatRefusal> {
    match deed {
        Deed::Step(wish) => step_rule(seat, wish),
        Deed::Open(wish) => match seat.open(wish) {
            Ok(_) => None,
            Err(refusal) => Some(refusal),
        },
        Deed::Either(first, second) => match step_rule(seat, Wish::Take { end: first }) {
            None => step_rule(seat, Wish::Take { end: second }),
            refusal => refusal,
        },
        Deed::Ready(end) => seat.ready(end).err(),
    }
}

fn step_rule(seat: Guard<'_>, wish: Wish) -> Option<SeatRefusal> {
    let call = match wish {
        Wish::Send { end, msg } => seat.send(end, msg),
        Wish::Delegate { carrier, end } => seat.delegate(carrier, end),
        Wish::Take { end } => seat.take(end),
        Wish::Close { end } => seat.close(end),
        Wish::TakeEnd { end } => return take_end_rule(seat, end),
    };
    match call {
        Ok(_) => None,
        Err(refusal) => Some(refusal),
    }
}

fn take_end_rule(seat: Guard<'_>, end: EndId) -> Option<SeatRefusal> {
    let Some(place) = place_of(seat, end) else {
        return Some(SeatRefusal::NotHeld);
    };
    if !takes_end(seat, place) {
        return Some(SeatRefusal::BeginsOtherwise);
    }
    if seat.calls >= MAX_STEPS {
        return Some(SeatRefusal::AtLimit);
    }
    None
}

/// Where the end is, if the party holds it.
pub(crate) fn place_of(seat: Guard<'_>, end: EndId) -> Option<Spot> {
    for held in seat.ends {
        if held.end == end {
            return Some(held.place);
        }
    }
    None
}

fn takes_end(seat: Guard<'_>, place: Spot) -> bool {
    match seat.table.split(place) {
        Some((Item::Recv(Kind::Session(_)), _)) => true,
        _ => false,
    }
}
