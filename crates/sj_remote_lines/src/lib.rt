//! A party of a run over a stream server that is played by lines.
#![tactic(auto)]

mod acts;
mod code;
mod names;
mod play;
mod teller;

pub use code::{ByLines, Left, Over};
pub use play::{Played, play_lines};
