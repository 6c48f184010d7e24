//! What the place of an end begins with, as far as lines ask beside the rules of a seat.
ghost use Rattle.std.specs.Prelude.{◌≡◌, option_map};
ghost use Rattle.sj_seat.specs.Holding.{ends_of};
ghost use Rattle.sj_seat.specs.Rules.{place_at};
ghost use Rattle.sj_seat_laws.specs.Calls.{place_held};
ghost use Rattle.sj_seat_lines.specs.Steps.{sends_text};
ghost use Rattle.sj_table.specs.Spots.{place_in};
ghost use Rattle.sj_talk.specs.Rules.{selects, takes_end};

use sj_base::EndId;
use sj_lang::{Item, Kind};
use sj_seat::Guard;
use sj_table::{Spot, Table};

/// The spot of the end, where the party holds it.
pub(crate) fn spot_of(seat: Guard<'_>, end: EndId) -> Option<Spot>
    ensures { option_map (place_in seat.entry.table.now) result ≡ place_held (ends_of seat.entry) end }
{
    for held in seat.ends {
        if held.end == end {
            return Some(held.place);
        }
    }
    None
}

// Its place; the empty one where it isn't held.
fn place_of(seat: Guard<'_>, end: EndId) -> Spot
    ensures { place_in seat.entry.table.now result ≡ place_at (ends_of seat.entry) end }
{
    match spot_of(seat, end) {
        Some(spot) => spot,
        None => seat.table.done(),
    }
}

/// Whether the end's place begins with the sending of a text.
pub(crate) fn sends_text(seat: Guard<'_>, end: EndId) -> bool
    ensures { result ≡ sends_text (place_at (ends_of seat.entry) end) }
{
    sends_text_at(seat.table, place_of(seat, end))
}

fn sends_text_at(table: &Table, spot: Spot) -> bool
    ensures { result ≡ sends_text (place_in table.now spot) }
{
    matches!(table.split(spot), Some((Item::Send(Kind::Text), _)))
}

/// Whether it begins with a selection.
pub(crate) fn selects(seat: Guard<'_>, end: EndId) -> bool
    ensures { result ≡ selects (place_at (ends_of seat.entry) end) }
{
    selects_at(seat.table, place_of(seat, end))
}

fn selects_at(table: &Table, spot: Spot) -> bool
    ensures { result ≡ selects (place_in table.now spot) }
{
    matches!(table.split(spot), Some((Item::Select(_), _)))
}

/// Whether it begins with the taking of an end.
pub(crate) fn takes_end(seat: Guard<'_>, end: EndId) -> bool
    ensures { result ≡ takes_end (place_at (ends_of seat.entry) end) }
{
    takes_end_at(seat.table, place_of(seat, end))
}

fn takes_end_at(table: &Table, spot: Spot) -> bool
    ensures { result ≡ takes_end (place_in table.now spot) }
{
    matches!(table.split(spot), Some((Item::Recv(Kind::Session(_)), _)))
}
