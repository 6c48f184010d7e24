//! The transcript of a settled world, and the lines of a log.
#![tactic(auto)]

mod lines;
mod log;
mod messages;
mod pieces;
mod told;
mod transcript;
mod version;

pub use lines::{print_verdict, put_sent};
pub use log::print_line;
pub use messages::print_message;
pub use pieces::{Piece, print_name, put_line};
pub use told::{print_standing, print_told, put_ends, put_stands};
pub use transcript::print_transcript;
pub use version::print_mark;
