//! What a place begins with.
ghost use Rattle.std.specs.Prelude.{◌≡◌};
ghost use Rattle.sj_lang.specs.Place.{Place};
ghost use Rattle.sj_lang.specs.View.{carried_of, followed};
ghost use Rattle.sj_seat.specs.Fronts.{begins_with, is_scalar, sends_end, takes_no_end};
ghost use Rattle.sj_seat_laws.specs.Guards.{may_carry, may_send};
ghost use Rattle.sj_table.specs.Spots.{place_in};

use sj_base::Msg;
use sj_lang::{Item, Kind, arm_named};
use sj_table::{Spot, Table};

fn is_scalar(kind: &Kind) -> bool
    ensures { result ≡ is_scalar (carried_of kind.now) }
{
    !matches!(kind, Kind::Session(_))
}

/// Whether the place begins with the sending of such a message: a value, a label, or whether a loop
/// turns.
pub(crate) fn begins_with(table: &Table, spot: Spot, msg: Msg) -> bool
    ensures { result ≡ begins_with (place_in table.now spot) msg }
{
    match table.split(spot) {
        Some((item, _)) => item_begins_with(item, msg),
        None => false,
    }
}

fn item_begins_with(item: &Item, msg: Msg) -> bool
    ensures { (rest : Place) → result ≡ begins_with (followed item.now rest) msg }
{
    match (item, msg) {
        (Item::Send(kind), Msg::Int(_) | Msg::Bool(_) | Msg::Text(_)) => is_scalar(kind),
        (Item::Select(_), Msg::Label(_)) => true,
        (Item::OutLoop(_), Msg::More(_)) => true,
        _ => false,
    }
}

/// Whether the place begins with the sending of that message, which names no end.
pub(crate) fn may_send(table: &Table, spot: Spot, msg: Msg) -> bool
    ensures { result ≡ may_send (place_in table.now spot) msg }
{
    match table.split(spot) {
        Some((item, _)) => item_may_send(item, msg),
        None => false,
    }
}

fn item_may_send(item: &Item, msg: Msg) -> bool
    ensures { (rest : Place) → result ≡ may_send (followed item.now rest) msg }
{
    match (item, msg) {
        (Item::Send(Kind::Int), Msg::Int(_)) => true,
        (Item::Send(Kind::Boolean), Msg::Bool(_)) => true,
        (Item::Send(Kind::Text), Msg::Text(_)) => true,
        (Item::Select(choice), Msg::Label(label)) => arm_named(choice, label).is_some(),
        (Item::OutLoop(_), Msg::More(_)) => true,
        _ => false,
    }
}

/// Whether the place begins with the sending of an end.
pub(crate) fn sends_end(table: &Table, spot: Spot) -> bool
    ensures { result ≡ sends_end (place_in table.now spot) }
{
    matches!(table.split(spot), Some((Item::Send(Kind::Session(_)), _)))
}

/// Whether the place begins with the sending of an end at which the other place can stand.
pub(crate) fn may_carry(table: &Table, spot: Spot, own: Spot) -> bool
    ensures { result ≡ may_carry (place_in table.now spot) (place_in table.now own) }
{
    match table.split(spot) {
        Some((Item::Send(Kind::Session(kind)), _)) => {
            !table.is_done(own) && table.stands_for(own, kind)
        }
        _ => false,
    }
}

/// Whether the place begins with the taking of a value, a branching or an inward loop.
pub(crate) fn takes_no_end(table: &Table, spot: Spot) -> bool
    ensures { result ≡ takes_no_end (place_in table.now spot) }
{
    match table.split(spot) {
        Some((Item::Recv(kind), _)) => is_scalar(kind),
        Some((Item::Branch(_) | Item::InLoop(_), _)) => true,
        _ => false,
    }
}
