//! A file run with some parties played by a builder's own code, each party on a thread of its own.
#![tactic(auto)]

mod hires;
mod parts;
mod play;
mod refusal;
mod remains;
mod runners;
mod runs;
mod stops;
mod teams;
mod threads;
mod turnout;

pub use play::Play;
pub use refusal::SeatedRefusal;
pub use runs::{SeatedRun, run_seated};
pub use sj_seat::{Answer, Ask, Outcome, text_count};
