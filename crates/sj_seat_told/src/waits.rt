//! Where a code stands that makes no further call: at the first by name of its open ends.
ghost use Rattle.std.specs.Prelude.{◌≡◌, Some};
ghost use Rattle.sj_rules.specs.Node.{ended};
ghost use Rattle.sj_seat.specs.Holding.{ends_at};
ghost use Rattle.sj_seat_told_laws.specs.FirstOpen.{earlier, first_open};
ghost use Rattle.sj_seat_told_laws.specs.StillSeats.{still_by_open};
ghost use Rattle.sj_told.specs.Told.{slot_of};

use sj_base::EndId;
use sj_seat::HeldEnd;
use sj_semantics::State;
use sj_table::Table;

/// How a code stands that holds these ends: it has ended where nothing is ahead of any of them.
pub(crate) fn state_by_ends(table: &Table, ends: &[HeldEnd], calls: u32) -> State
    ensures { result ≡ still_by_open calls ended (first_open (ends_at table.now ends.now)) }
{
    match first_open(table, ends) {
        Some(end) => State::Waits(end),
        None => State::Ended,
    }
}

/// The first by name of the ends of which anything is ahead.
fn first_open(table: &Table, ends: &[HeldEnd]) -> Option<EndId>
    ensures { result ≡ first_open (ends_at table.now ends.now) }
{
    let mut first = None;
    let mut at = ends.len();
    while at > 0 {
        at -= 1;
        if !table.is_done(ends[at].place) {
            first = Some(earlier(first, ends[at].end));
        }
    }
    first
}

// That end, or the other one where this comes first by name.
fn earlier(first: Option<EndId>, end: EndId) -> EndId
    ensures { Some result ≡ earlier first end }
{
    match first {
        Some(other) if slot_of(other) < slot_of(end) => other,
        _ => end,
    }
}

/// The place of the end by its name: the lower session first, and in it the first side.
pub(crate) fn slot_of(end: EndId) -> u64
    ensures { result ≡ slot_of end }
{
    let first = 2 * end.sess as u64;
    if end.side == 0 { first } else { first + 1 }
}
