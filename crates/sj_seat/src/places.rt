//! The spots of places that ends carry.
ghost use Rattle.std.specs.Prelude.{◌≡◌, IfSome, IsTrue, MatchOption, is_some, true};
ghost use Rattle.sj_seat.specs.Fronts.{takes_end};
ghost use Rattle.sj_seat.specs.Places.{CarriesPlaces, IsSpotOf, LacksPlace};
ghost use Rattle.sj_seat_laws.specs.Guards.{carried_next};
ghost use Rattle.sj_table.specs.Spots.{place_in};

use sj_lang::{Item, Kind, Proto};
use sj_table::{Spot, Table};

/// A spot of the table that stands for the place.
fn spot_of(table: &Table, place: &Proto) -> Option<Spot>
    ensures { MatchOption result (LacksPlace table.now place.now) (IsSpotOf table.now place.now) }
{
    for node in 0..u32::MAX {
        let spot = Spot { node };
        if !table.has(spot) {
            return None;
        }
        if table.is_at(spot, place) {
            return Some(spot);
        }
    }
    None
}

/// The spot of the place at which an end begins that is taken there.
pub(crate) fn carried_spot(table: &Table, spot: Spot) -> Option<Spot>
    requires carries { CarriesPlaces table.now }
    ensures there { is_some result ≡ takes_end (place_in table.now spot) }
    ensures place { IfSome result (λ s. place_in table.now s
        ≡ carried_next (place_in table.now spot)) }
{
    match table.split(spot) {
        Some((Item::Recv(Kind::Session(kind)), _)) => spot_of(table, kind),
        _ => None,
    }
}

/// Whether some spot of the table stands for each place at which an end begins that is taken at a
/// place of the table.
pub fn carries_places(table: &Table) -> bool
    ensures { IsTrue result → CarriesPlaces table.now }
{
    for node in 0..u32::MAX {
        let spot = Spot { node };
        if !table.has(spot) {
            return true;
        }
        if !is_carried(table, spot) {
            return false;
        }
    }
    false
}

// The same of one place.
fn is_carried(table: &Table, spot: Spot) -> bool
    ensures { IsTrue result → takes_end (place_in table.now spot) ≡ true →
        LacksPlace table.now (carried_next (place_in table.now spot)) → ⊥ }
{
    match table.split(spot) {
        Some((Item::Recv(Kind::Session(kind)), _)) => spot_of(table, kind).is_some(),
        _ => true,
    }
}
