//! What random code asks for.

use crate::deed::Deed;
use crate::dice::Dice;
use crate::rules::{place_of, rule_of};
use crate::sizes::{Sizes, number, word};
use sj_base::{EndId, Msg};
use sj_lang::Item;
use sj_seat::{Guard, OpenWish, Wish};

// An end, mostly one that the party holds.
fn end(dice: &mut Dice, sizes: Sizes, seat: Guard<'_>) -> EndId {
    let at = dice.index(seat.ends.len());
    match seat.ends.get(at) {
        Some(held) if !dice.is_one_of(6) => held.end,
        _ => EndId {
            sess: number(dice, sizes.sessions),
            side: dice.small(3),
        },
    }
}

// A label of the choice that is ahead of the end.
fn label_there(dice: &mut Dice, seat: Guard<'_>, end: EndId) -> Option<u16> {
    let place = place_of(seat, end)?;
    match seat.table.split(place) {
        Some((Item::Select(choice), _)) => {
            let at = dice.index(choice.arms.len());
            match choice.arms.get(at) {
                Some(arm) => Some(arm.label),
                None => None,
            }
        }
        _ => None,
    }
}

fn label(dice: &mut Dice, sizes: Sizes, seat: Guard<'_>, end: EndId) -> u16 {
    if !dice.is_one_of(4) {
        if let Some(label) = label_there(dice, seat, end) {
            return label;
        }
    }
    word(number(dice, sizes.words))
}

// An integer, at times the least or the largest one.
fn int(dice: &mut Dice) -> i64 {
    match dice.below(8) {
        0 => i64::MIN,
        1 => i64::MAX,
        2 => -1,
        other => i64::from(other),
    }
}

// A message of any kind.
fn message(dice: &mut Dice, sizes: Sizes, seat: Guard<'_>, end: EndId) -> Msg {
    match dice.below(16) {
        0 | 1 | 2 | 3 => Msg::Int(int(dice)),
        4 | 5 | 6 => Msg::Bool(dice.is_one_of(2)),
        7 | 8 | 9 => Msg::Text(number(dice, sizes.texts)),
        10 | 11 => Msg::Label(label(dice, sizes, seat, end)),
        12 | 13 | 14 => Msg::More(dice.is_one_of(2)),
        _ => Msg::Sess {
            sess: number(dice, sizes.sessions),
            side: dice.small(2),
            keeper: u16::from(dice.small(4)),
        },
    }
}

// A session, mostly one that the party may open.
fn opening(dice: &mut Dice, sizes: Sizes, seat: Guard<'_>) -> OpenWish {
    let requests = dice.is_one_of(2);
    let may = if requests {
        &seat.may.requests
    } else {
        &seat.may.accepts
    };
    let (party, protocol) = match may.get(dice.index(may.len())) {
        Some(opening) if !dice.is_one_of(6) => (opening.party, opening.protocol),
        _ => (
            word(number(dice, u32::from(sizes.parties))),
            word(number(dice, sizes.words)),
        ),
    };
    if requests {
        OpenWish::Request { party, protocol }
    } else {
        OpenWish::Accept { party, protocol }
    }
}

// A step on the end, of any kind.
fn step(dice: &mut Dice, sizes: Sizes, seat: Guard<'_>, first: EndId) -> Wish {
    match dice.below(8) {
        0 | 1 | 2 => Wish::Send {
            end: first,
            msg: message(dice, sizes, seat, first),
        },
        3 => Wish::Delegate {
            carrier: first,
            end: end(dice, sizes, seat),
        },
        4 | 5 => Wish::Take { end: first },
        6 => Wish::TakeEnd { end: first },
        _ => Wish::Close { end: first },
    }
}

// Anything.
fn any_deed(dice: &mut Dice, sizes: Sizes, seat: Guard<'_>) -> Deed {
    let first = end(dice, sizes, seat);
    match dice.below(10) {
        0 => Deed::Open(opening(dice, sizes, seat)),
        1 => Deed::Either(first, end(dice, sizes, seat)),
        2 => Deed::Ready(first),
        _ => Deed::Step(step(dice, sizes, seat, first)),
    }
}

/// Most of the time the first of a few deeds that no rule refuses; else just one.
pub(crate) fn pick(dice: &mut Dice, sizes: Sizes, seat: Guard<'_>) -> Deed {
    let tries = dice.below(12);
    for _ in 0..tries {
        let deed = any_deed(dice, sizes, seat);
        if rule_of(seat, deed).is_none() {
            return deed;
        }
    }
    any_deed(dice, sizes, seat)
}
