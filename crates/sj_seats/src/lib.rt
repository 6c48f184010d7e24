//! The core world of a file in which some parties are played by code of their own: lines that were
//! logged are done again, what is left is drained, and what the codes hold is known.
#![tactic(auto)]

mod calls;
mod drains;
mod events;
mod openings;
mod played;
mod replays;
mod seated;
mod starts;

pub use played::Chair;
pub use seated::SeatedWorld;
