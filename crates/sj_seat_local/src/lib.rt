//! A party of a file that is played by lines, while the others run on threads beside it.
#![tactic(auto)]

mod code;
mod files;
mod local;
mod output;
mod parties;
mod playing;
mod threads;

pub use files::{Before, accepted, file_before};
pub use local::seat_local;
pub use output::{NO_MEMORY, WRITE_FAULT, checked, said, said_no_party};
pub use parties::party_named;
pub use playing::{LOOKS, Played, play_lines};

#[cfg(test)]
mod tests;
