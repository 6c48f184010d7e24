//! What the rules ask of a party.
ghost use Rattle.sj_seat.specs.Places.{CarriesPlaces};

use crate::ends::HeldEnd;
use crate::openings::Openings;
use sj_table::Table;

/// What the rules ask of a party: the ends that it holds, in the table of their places, the sessions
/// that it may open, how many texts the code may name, and how many calls the party made.
#[derive(Clone, Copy)]
pub struct Guard<'a> {
    pub table: &'a Table,
    pub ends: &'a [HeldEnd],
    pub may: &'a Openings,
    pub texts: usize,
    pub calls: u32,
    pub ghost carries: { CarriesPlaces table.now },
}
