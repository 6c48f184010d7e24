//! A party of a file that a builder's own code plays over a stream server.
#![tactic(auto)]

mod acts;
mod again;
mod asking;
mod batch;
mod catching;
mod code;
mod events;
mod handing;
mod home;
mod play;
mod refusal;
mod seat;
mod start;
mod stops;
mod turns;

pub use code::{Code, Plain};
pub use play::play_seat;
pub use refusal::SeatPlayRefusal;
