//! The memory for an end that is to be parked.
use crate::End;
use sj_base::{EndId, NoMemory};
use sj_table::Spot;
use std::alloc::Global;
use std::collections::VecDeque;

/// The box in which an end will lie once it is parked, and in which it goes to its taker. It is
/// made before anything changes, so that no later step of a handover lacks memory for it.
#[derive(Drop)]
pub struct Room {
    pub(crate) end: Box<End>,
}

impl Room {
    /// Takes the memory.
    pub fn new(alloc: Global) -> Result<Room, NoMemory> {
        let blank = End {
            id: EndId { sess: 0, side: 0 },
            place: Spot { node: 0 },
            conn: 0,
            peer: 0,
            sent: 0,
            taken: 0,
            base: 0,
            cache: VecDeque::new(alloc),
            hops: 0,
        };
        let end = Box::new(alloc, blank)?;
        Ok(Room { end })
    }
}
