//! Laws of what a history, and the core world to which it leads, report of the end of the file.
#![tactic(auto)]

mod laws;

pub use laws::{a_quiet_core_stands_as_its_nodes, a_quiet_history_tells_its_end};
