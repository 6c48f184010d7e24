//! A party that is played by the caller's code.
ghost use Rattle.std.specs.Coded.{Coded-set};
ghost use Rattle.std.specs.Prelude.{◌≡◌};
ghost use Rattle.sj_lang.specs.PlaceCode.{coded_place};
ghost use Rattle.sj_node.specs.Node.{wants_of};
ghost use Rattle.sj_node.specs.Reading.{table_of};
ghost use Rattle.sj_seat.specs.Places.{CarriesPlaces};
ghost use Rattle.sj_semantics.specs.declared.Want.TheVariants as wants;
ghost use Rattle.sj_work.specs.Views.{node_of};

use crate::ends::HeldEnd;
use crate::openings::Openings;
use sj_table::Table;
use sj_work::Worker;

/// A party of a run that is played by the caller's code: its worker, whose node has nothing to do of
/// its own, the ends that it holds, and how many calls it made.
#[derive(Drop)]
pub struct Guest<'a, O, I, G> {
    pub(crate) worker: Worker<O, I>,
    pub(crate) table: Table,
    pub(crate) ends: Vec<HeldEnd>,
    /// The sessions that it may open.
    pub(crate) may: Openings,
    /// How many texts its code may name.
    pub(crate) texts: usize,
    pub(crate) calls: u32,
    /// How many turns in vain a call waits.
    pub(crate) looks: u32,
    pub(crate) gate: &'a G,
    ghost same: { table ≡ table_of (node_of worker) } by { Prim.hlevel (Coded-set, coded_place) },
    ghost idle: { wants_of (node_of worker) ≡ wants.Ended },
    ghost carries: { CarriesPlaces table },
}
