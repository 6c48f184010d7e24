//! A party's program, run by positions.
#![tactic(auto)]

mod arena;
mod bindings;
mod builders;
mod ends;
mod leads;
mod limits;
mod machine;
mod needs;
mod stack;
mod starts;
mod steps;
mod values;

pub use limits::{FIRST_OPENED, MAX_HOPS, MAX_REQUESTS, MAX_STEPS, opened_number};
pub use machine::Machine;
pub use sj_semantics::{Awaits, Want};
pub use starts::{connected_ends, party_of_name};

#[cfg(test)]
mod tests;
