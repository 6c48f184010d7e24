//! Laws over two calls of `sj`: What `run --log` prints is replayed as it was printed.
#![tactic(auto)]

mod laws;

pub use laws::{a_log_is_replayed_as_it_was_told, nothing_else_is_told_of_a_log};
