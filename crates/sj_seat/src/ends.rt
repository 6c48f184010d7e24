//! The ends that a party holds, each at its place.
ghost use Rattle.std.specs.Prelude.{◌≡◌, ◌<◌, ◌++◌, ◌∷◌, [], Some, vec_capacity, vec_len};
ghost use Rattle.sj_rules.specs.Node as wanted;
ghost use Rattle.sj_seat.specs.Asked.{GivesPlace, asked};
ghost use Rattle.sj_seat.specs.Holding.{ends_at, entry_at, entry_moved, spot_held};
ghost use Rattle.sj_seat_laws.specs.Calls.{moved, place_held, takes, without_end};
ghost use Rattle.sj_seat_laws.specs.Guards.{ends_after, want_of_take};
ghost use Rattle.sj_table.specs.Spots.{place_in};

use sj_base::{EndId, Msg};
use sj_lang::Way;
use sj_node::Call;
use sj_table::{Spot, Table};

/// An end that a party holds, at its place in the table.
#[derive(Clone, Copy, Debug)]
pub struct HeldEnd {
    pub end: EndId,
    pub place: Spot,
}

/// The spot of the end, where it is held.
pub(crate) fn spot_held(ends: &[HeldEnd], end: EndId) -> Option<Spot>
    ensures { result ≡ spot_held ends.now end }
{
    for held in ends {
        if held.end == end {
            return Some(held.place);
        }
    }
    None
}

/// Takes the end out.
fn release(table: &Table, ends: &mut Vec<HeldEnd>, end: EndId)
    ensures { ends_at table.now ends.new.items ≡ without_end (ends_at table.now ends.old.items) end }
{
    ends.retain(|held| held.end != end);
}

/// Puts the end at the place after the message.
fn move_on(table: &Table, ends: &mut [HeldEnd], end: EndId, way: Way, msg: Msg)
    ensures { ends_at table.now ends.new ≡ moved (ends_at table.now ends.old) end way msg }
{
    for at in 0..ends.len() {
        let next = moved_end(table, ends[at], end, way, msg);
        ends[at] = next;
    }
}

// The same of one end.
fn moved_end(table: &Table, held: HeldEnd, end: EndId, way: Way, msg: Msg) -> HeldEnd
    ensures { entry_at table.now result ≡ entry_moved (entry_at table.now held) end way msg }
{
    if held.end != end {
        return held;
    }
    match table.after(held.place, way, &msg) {
        Some(place) => HeldEnd { end, place },
        None => held,
    }
}

/// Puts an end that was opened after the others, at its place. There is room for it.
pub fn hold(table: &Table, ends: &mut Vec<HeldEnd>, end: EndId, place: Spot)
    requires room { vec_len ends.old < vec_capacity ends.old }
    ensures { ends_at table.now ends.new.items
        ≡ ends_at table.now ends.old.items ++ (end, place_in table.now place) ∷ [] }
{
    ends.push_reserved(HeldEnd { end, place });
}

/// Puts the ends where they are after the call, which took that message where it takes one. There is
/// room for one end more.
pub fn go_on(table: &Table, ends: &mut Vec<HeldEnd>, call: Call, taken: Option<Msg>)
    requires room { vec_len ends.old < vec_capacity ends.old }
    requires place { GivesPlace table.now (ends_at table.now ends.old.items) call }
    ensures { ends_at table.now ends.new.items
        ≡ ends_after (ends_at table.now ends.old.items) (asked call) taken }
{
    match call {
        Call::Send { end, msg } => move_on(table, ends, end, Way::Out, msg),
        Call::Delegate { carrier, end } => {
            let EndId { sess, side } = end;
            let keeper = 0;
            move_on(
                table,
                ends,
                carrier,
                Way::Out,
                Msg::Sess { sess, side, keeper },
            );
            release(table, ends, end);
        }
        Call::Take { end, place } => {
            if let Some(msg) = taken {
                take_on(table, ends, end, place, msg);
            }
        }
        Call::Close { end } => release(table, ends, end),
    }
}

// The same of a take.
fn take_on(table: &Table, ends: &mut Vec<HeldEnd>, end: EndId, place: Spot, msg: Msg)
    requires room { vec_len ends.old < vec_capacity ends.old }
    requires want { wanted.takes end (place_in table.now place)
        ≡ want_of_take end (place_held (ends_at table.now ends.old.items) end) }
    ensures { ends_at table.now ends.new.items
        ≡ ends_after (ends_at table.now ends.old.items) (takes end) (Some msg) }
{
    move_on(table, ends, end, Way::Into, msg);
    if let Msg::Sess { sess, side, .. } = msg {
        let end = EndId { sess, side };
        ends.push_reserved(HeldEnd { end, place });
    }
}
