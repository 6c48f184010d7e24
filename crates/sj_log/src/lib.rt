//! The text of a log, read as the lines that were printed.
#![tactic(auto)]

mod fields;
mod frames;
mod laws;
mod lines;
mod names;
mod notes;
mod parts;
mod refusal;
mod reported;

pub use laws::{printed_lines_are_read, sources_are_parted_in_one_way};
pub use lines::read_log;
pub use parts::{find_line, parted};
pub use refusal::LogRefusal;
