//! What stands first at a spot.
ghost use Rattle.std.specs.Prelude.{◌≡◌, false, true, None, is_some, MatchOption};
ghost use Rattle.sj_lang.specs.declared.proto.Way.TheVariants as ways;
ghost use Rattle.sj_lang.specs.Place.{message};
ghost use Rattle.sj_lang.specs.View.{carried_of};
ghost use Rattle.sj_lang.specs.After.{at_label};
ghost use Rattle.sj_lang.specs.MeetTests.{meets};
ghost use Rattle.std.specs.Option.{option_copied};
ghost use Rattle.sj_acceptance.specs.FirstItem as places;
ghost use Rattle.sj_acceptance.specs.Sameness.{is_same_place};
ghost use Rattle.sj_lang.specs.FileAt.{protocol_named};
ghost use Rattle.sj_table.specs.Spots.{place_in};
ghost use Rattle.sj_check.specs.Views.{protocols_of};

use sj_base::Msg;
use sj_lang::{Item, Kind, Proto, ProtocolDef, Way, meets};
use sj_table::{Spot, Table};

/// What is to be sent next, and what follows.
pub fn sending(table: &Table, spot: Spot) -> Option<(&Kind, Spot)>
    ensures { let here = place_in table.now spot in
        let Other = places.is_message ways.Out here ≡ false in
        MatchOption result Other (λ p. here ≡ message ways.Out (carried_of p.0.now) (place_in table.now p.1)) }
{
    let (item, rest) = table.split(spot)?;
    match item {
        Item::Send(kind) => Some((kind, rest)),
        _ => None,
    }
}

/// What is to be taken next, and what follows.
pub fn taking(table: &Table, spot: Spot) -> Option<(&Kind, Spot)>
    ensures { let here = place_in table.now spot in
        let Other = places.is_message ways.Into here ≡ false in
        MatchOption result Other (λ p. here ≡ message ways.Into (carried_of p.0.now) (place_in table.now p.1)) }
{
    let (item, rest) = table.split(spot)?;
    match item {
        Item::Recv(kind) => Some((kind, rest)),
        _ => None,
    }
}

/// Whether a choice of that way stands first.
pub fn is_choice(way: Way, table: &Table, spot: Spot) -> bool
    ensures { result ≡ places.is_choice way (place_in table.now spot) }
{
    match (table.split(spot), way) {
        (Some((Item::Select(_), _)), Way::Out) => true,
        (Some((Item::Branch(_), _)), Way::Into) => true,
        _ => false,
    }
}

/// Whether a loop of that way stands first.
pub fn is_loop(way: Way, table: &Table, spot: Spot) -> bool
    ensures { result ≡ places.is_loop way (place_in table.now spot) }
{
    match (table.split(spot), way) {
        (Some((Item::OutLoop(_), _)), Way::Out) => true,
        (Some((Item::InLoop(_), _)), Way::Into) => true,
        _ => false,
    }
}

/// What follows the first item.
pub fn rest(table: &Table, spot: Spot) -> Spot
    ensures { place_in table.now result ≡ places.rest_of (place_in table.now spot) }
{
    match table.split(spot) {
        Some((_, rest)) => rest,
        None => spot,
    }
}

/// One turn of the loop that stands first, and then the loop again; the
/// spot itself where none does.
pub fn turn(table: &Table, spot: Spot) -> Spot
    ensures { place_in table.now result ≡ places.turn_of (place_in table.now spot) }
{
    let goes_on = Msg::More(true);
    let first = match table.split(spot) {
        Some((Item::OutLoop(_), _)) => table.after(spot, Way::Out, &goes_on),
        Some((Item::InLoop(_), _)) => table.after(spot, Way::Into, &goes_on),
        _ => None,
    };
    match first {
        Some(begun) => begun,
        None => spot,
    }
}

/// The arm of that label of the choice that stands first to be sent.
pub fn selected(table: &Table, spot: Spot, label: u16) -> Option<Spot>
    requires { places.is_choice ways.Out (place_in table.now spot) ≡ true }
    ensures arm { let here = place_in table.now spot in
        let Unnamed = at_label label (places.choices here) ≡ None in
        MatchOption result Unnamed (λ s. place_in table.now s ≡ places.arm_place label here) }
    ensures told { is_some result ≡ is_some (at_label label (places.choices (place_in table.now spot))) }
{
    table.after(spot, Way::Out, &Msg::Label(label))
}

/// The arm of that label of the choice that stands first, and what follows; what follows the first
/// item where there is no such arm.
pub fn arm_place(table: &Table, spot: Spot, label: u16) -> Spot
    ensures { place_in table.now result ≡ places.arm_place label (place_in table.now spot) }
{
    let label = Msg::Label(label);
    let arm = match table.split(spot) {
        Some((Item::Select(_), _)) => table.after(spot, Way::Out, &label),
        Some((Item::Branch(_), _)) => table.after(spot, Way::Into, &label),
        _ => None,
    };
    match arm {
        Some(arm) => arm,
        None => rest(table, spot),
    }
}

/// Whether both spots stand for one place.
pub fn is_same_spot(table: &Table, one: Spot, other: Spot) -> bool
    ensures { result ≡ is_same_place (place_in table.now one) (place_in table.now other) }
{
    table.is_same(one, other)
}

// Whether the spot stands for this place.
fn is_spot_of(table: &Table, spot: Spot, place: &Proto) -> bool
    ensures { result ≡ is_same_place (place_in table.now spot) place.now }
{
    table.is_at(spot, place)
}

/// Whether an end is carried.
pub fn is_session(carried: &Kind) -> bool
    ensures { result ≡ places.is_session (carried_of carried.now) }
{
    match carried {
        Kind::Session(_) => true,
        _ => false,
    }
}

/// Whether an end at that spot is carried.
pub fn is_session_of(table: &Table, spot: Spot, carried: &Kind) -> bool
    ensures { result ≡ places.is_session_of (place_in table.now spot) (carried_of carried.now) }
{
    match carried {
        Kind::Session(wanted) => is_spot_of(table, spot, wanted),
        _ => false,
    }
}

/// Whether an end is carried for which one at that spot can stand.
pub fn stands_for_carried(table: &Table, spot: Spot, carried: &Kind) -> bool
    ensures { result ≡ places.stands_for_carried (place_in table.now spot) (carried_of carried.now) }
{
    match carried {
        Kind::Session(wanted) => table.stands_for(spot, wanted),
        _ => false,
    }
}

/// Whether the one protocol meets the other.
pub fn do_meet(a: &Proto, b: &Proto) -> bool
    ensures { result ≡ meets a.now b.now }
{
    meets(a, b)
}

/// The body of the protocol of that name.
pub fn body_named(protocols: &[ProtocolDef], name: u16) -> Option<&Proto>
    ensures { option_copied result ≡ protocol_named (protocols_of protocols.now) name }
{
    for protocol in protocols {
        if protocol.name == name {
            return Some(&protocol.body);
        }
    }
    None
}
