//! The core world: a file's nodes with the lanes between them, one event at a time; and logs of
//! parties joined into one list of lines.
#![tactic(auto)]

mod drains;
mod entries;
mod joins;
mod laws;
mod merges;
mod node_world;
mod refusal;
mod replays;
mod sameness;
mod starts;
mod tails;
mod told;
mod world;

pub use joins::{join_logs, merge_in};
pub use laws::each_node_agrees_with_its_next_step;
pub use refusal::{ReplayRefusal, StepRefusal};
pub use replays::is_the_line;
pub use starts::first_nodes;
pub use told::stand_of;
pub use world::World;
