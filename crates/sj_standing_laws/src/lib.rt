//! Laws of what stands at a server that takes each command once and keeps it, whichever processes play
//! the parties.
#![tactic(auto)]

mod laws;

pub use laws::{what_stands_is_a_history, what_stands_is_work_of_parties};
