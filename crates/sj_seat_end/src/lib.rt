//! A run with seats from its start to its transcript.
#![tactic(auto)]

mod alone;
mod ending;
mod telling;

pub use alone::{AloneEnd, run_alone};
pub use ending::{SeatedEnd, run_to_end};
pub use telling::{Told, told_of, told_with};
