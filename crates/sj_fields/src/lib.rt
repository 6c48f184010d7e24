//! The words of a line, split at each single space.
#![tactic(auto)]

mod words;

pub use words::{Fields, first_at};
