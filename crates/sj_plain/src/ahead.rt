//! What is ahead of an end, as a spot of a table.
ghost use Rattle.std.specs.Prelude.{◌≡◌, IfOk, OnErr, OnOk};
ghost use Rattle.sj_lang.specs.Dual.{dual_of, other_way};
ghost use Rattle.sj_plain.specs.Ends.{ahead_of};
ghost use Rattle.sj_semantics.specs.Uses.{place_behind};
ghost use Rattle.sj_table.specs.Spots.{place_in};

use crate::moves::advance;
use sj_base::{Msg, NoMemory};
use sj_lang::{Proto, Way, copied, dual};
use sj_table::{Spot, Table};
use std::alloc::Global;

/// The items that are ahead of an end.
#[derive(Drop)]
pub enum Ahead {
    /// Those of the spot.
    At(Spot),
    /// Those of the spot, each turned: so the second end of a session waits until it is accepted.
    Against(Spot),
    /// These, which need be in no table: so an end begins where a kind carries it.
    Own(Proto),
}

impl Ahead {
    /// Moves past the message. It stays where the message isn't next. Items are moved or copied
    /// where they are in no table, and nowhere else.
    pub(crate) fn pass(
        &mut self,
        alloc: Global,
        table: &Table,
        way: Way,
        msg: &Msg,
    ) -> Result<(), NoMemory>
        ensures ok { OnOk result (ahead_of table.now self.new
            ≡ place_behind (ahead_of table.now self.old) way msg.now) }
        ensures err { OnErr result (ahead_of table.now self.new ≡ ahead_of table.now self.old) }
    {
        match self {
            Ahead::At(spot) => {
                *spot = spot_behind(table, *spot, way, msg);
                Ok(())
            }
            Ahead::Against(spot) => {
                *spot = spot_against(table, *spot, way, msg);
                Ok(())
            }
            Ahead::Own(place) => advance(alloc, place, way, msg),
        }
    }

    /// A copy of the items.
    pub(crate) fn place(&self, alloc: Global, table: &Table) -> Result<Proto, NoMemory>
        ensures { IfOk result (λ p. p ≡ ahead_of table.now self.now) }
    {
        match self {
            Ahead::At(spot) => table.place(alloc, *spot),
            Ahead::Against(spot) => {
                let met = table.place(alloc, *spot)?;
                dual(alloc, &met)
            }
            Ahead::Own(place) => copied(alloc, place),
        }
    }
}

// The spot after the message, and the same one where the message isn't next there.
fn spot_behind(table: &Table, spot: Spot, way: Way, msg: &Msg) -> Spot
    ensures { place_in table.now result ≡ place_behind (place_in table.now spot) way msg.now }
{
    match table.after(spot, way, msg) {
        Some(next) => next,
        None => spot,
    }
}

// The same for the dual of the spot's place.
fn spot_against(table: &Table, spot: Spot, way: Way, msg: &Msg) -> Spot
    ensures { dual_of (place_in table.now result)
        ≡ place_behind (dual_of (place_in table.now spot)) way msg.now }
{
    spot_behind(table, spot, other(way), msg)
}

// The other way.
fn other(way: Way) -> Way
    ensures { way ≡ other_way result }
{
    match way {
        Way::Out => Way::Into,
        Way::Into => Way::Out,
    }
}
