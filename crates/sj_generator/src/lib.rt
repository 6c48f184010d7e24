//! The generated file: five groups of parties, in each of which an end is delegated.
#![tactic(auto)]

mod text;

pub use text::print_generated;
