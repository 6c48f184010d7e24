//! Forests: whether a file's parties and connections form one, and how it then ends.
#![tactic(auto)]

mod edges;
mod ends;
mod forests;
mod openings;
mod removal;
mod shape;

pub use edges::Edge;
pub use ends::{Ending, finish_forest};
pub use forests::forest;
pub use shape::{Forest, Shape};
