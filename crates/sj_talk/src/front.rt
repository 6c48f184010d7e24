//! What stands first at an end, lent from where it lies.
ghost use Rattle.std.specs.Prelude.{◌≡◌, IfOk};
ghost use Rattle.sj_lang.specs.View.{place_of};
ghost use Rattle.sj_plain.specs.Ends.{session_at};
ghost use Rattle.sj_plain.specs.Stepping.{sessions_at};
ghost use Rattle.sj_semantics.specs.Ends.{end_at, end_on};
ghost use Rattle.sj_table.specs.Spots.{place_in};
ghost use Rattle.sj_talk.specs.Front.{seen_in};
ghost use Rattle.sj_talk.specs.Rules.{front_of};

use sj_base::{EndId, NoMemory};
use sj_lang::{Item, Proto};
use sj_plain::{Ahead, Session};
use sj_table::{Spot, Table};
use std::alloc::Global;

/// Items of which the first is that of an end.
#[derive(Drop)]
pub enum Front<'a> {
    /// From the table or the session.
    Lent(&'a [Item]),
    /// A copy, where the items that lie there are those of the other end.
    Own(Proto),
}

impl Front<'_> {
    /// The items.
    pub fn items(&self) -> &[Item]
        ensures { place_of result.now ≡ seen_in self.now }
    {
        match self {
            Front::Lent(items) => items,
            Front::Own(place) => &place.items,
        }
    }
}

/// What stands first at the end; nothing where there are no sessions up to its own. `NoMemory` is
/// answered only where the end waits for its session to be accepted.
pub fn front_at<'a>(
    alloc: Global,
    table: &'a Table,
    sessions: &'a [Session],
    end: EndId,
) -> Result<Front<'a>, NoMemory>
    ensures { IfOk result (λ f. front_of (seen_in f)
        ≡ front_of (end_at (sessions_at table.now sessions.now) end).place) }
{
    match sessions.get(end.sess as usize) {
        Some(session) => front_on(alloc, table, session, end.side),
        None => Ok(Front::Lent(&[])),
    }
}

// What stands first at the end of that side.
fn front_on<'a>(
    alloc: Global,
    table: &'a Table,
    session: &'a Session,
    side: u8,
) -> Result<Front<'a>, NoMemory>
    ensures { IfOk result (λ f. front_of (seen_in f)
        ≡ front_of (end_on side (session_at table.now session.now)).place) }
{
    match session.ahead(side) {
        Ahead::At(spot) => Ok(Front::Lent(item_at(table, *spot))),
        Ahead::Own(place) => Ok(Front::Lent(&place.items)),
        Ahead::Against(_) => {
            let place = session.place(alloc, table, side)?;
            Ok(Front::Own(place))
        }
    }
}

// The item of the spot alone; none where nothing is ahead.
fn item_at(table: &Table, spot: Spot) -> &[Item]
    ensures { front_of (place_of result.now) ≡ front_of (place_in table.now spot) }
{
    match table.split(spot) {
        Some((item, _)) => std::slice::from_ref(item),
        None => &[],
    }
}
