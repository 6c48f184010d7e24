//! Lanes between parties, and the links that make them: over rings, or over lists in memory.
#![tactic(auto)]

mod carries;
mod columns;
mod ends;
mod grids;
mod lane;
mod links;
mod marks;
mod mem;
mod mem_links;
mod ring;
mod rows;
#[cfg(test)]
mod tests;

pub use ends::{RingIn, RingOut};
pub use lane::{InLane, Lanes, OutLane, PopRefusal, PushRefusal};
pub use links::{Links, MakeRefusal};
pub use mem::{MemIn, MemOut};
pub use mem_links::MemLinks;
pub use ring::RingLinks;
