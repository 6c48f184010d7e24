//! What a guest is beside its worker.
ghost use Rattle.sj_seat.specs.Places.{CarriesPlaces};

use crate::ends::HeldEnd;
use crate::openings::Openings;
use sj_table::Table;

/// All that a guest is beside its worker: the ends that it holds, the sessions that it may open, and
/// how many calls it made.
#[derive(Drop)]
pub struct Holdings<'a, G> {
    pub(crate) table: Table,
    pub(crate) ends: Vec<HeldEnd>,
    pub(crate) may: Openings,
    pub(crate) texts: usize,
    pub(crate) calls: u32,
    pub(crate) looks: u32,
    pub(crate) gate: &'a G,
    ghost carries: { CarriesPlaces table },
}
